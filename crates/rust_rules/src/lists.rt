//! The arguments of macro calls, each list of them as a file that reads as a list of expressions.
ghost use Rattle.std.specs.Prelude.{◌≡◌, IfOk, Some, string_bytes};
ghost use Rattle.syntax_kind.specs.Kinds.{is_same_kind};
ghost use Rattle.tree_model.specs.Tree.{kind_of};
ghost use Rattle.tree_model.specs.Cursor.{focus};
ghost use Rattle.rust_rules.specs.Macros.{inside_tokens, is_list_in, list_at, lists_in, IsTextIn, IsFileOf, IsListRead, outward};

use lossless_tree::{SyntaxKind, SyntaxNode, TextRange, TextSize};
use ras_front_end::ParseError;
use ras_parsing::Parse;
use rust_print::source::{Reading, parsed};
use std::alloc::{AllocError, Global};

// What stands before and behind the arguments of a macro in the file that they are read as. A line
// comment may end the arguments.
const BEFORE: &str = "const _: () = [";

const BEHIND: &str = "\n];";

/// How deep the arguments of macros in the arguments of macros are looked into: 1 for those of the
/// macros of a file.
pub(crate) const DEPTH: u32 = 8;

// What is between the delimiters of a tree of tokens.
fn inside_of(tree: &SyntaxNode) -> Option<TextRange>
    ensures { result ≡ inside_tokens tree.now }
{
    let first = tree.first_token()?;
    let last = tree.last_token()?;
    let start = first.text_range().end();
    let end = last.text_range().start();
    if start.raw() < end.raw() {
        Some(TextRange::new(start, end))
    } else {
        None
    }
}

fn is_a(node: &SyntaxNode, kind: SyntaxKind) -> bool
    ensures { result ≡ is_same_kind (kind_of (focus node.now)) kind }
{
    node.kind().to_raw() == kind.to_raw()
}

// Whether a node is the arguments of its parent, a macro call.
fn is_list_in(node: &SyntaxNode, parent: &SyntaxNode) -> bool
    ensures { result ≡ is_list_in node.now (Some parent.now) }
{
    is_a(node, SyntaxKind::TOKEN_TREE) && is_a(parent, SyntaxKind::MACRO_CALL)
}

// The arguments of a macro call, at the tree of tokens that has them.
#[tactic(auto, using(crate::proofs::ListLemmas::no_parent, crate::proofs::ListLemmas::yes_list, crate::proofs::ListLemmas::no_list))]
fn list_at(node: &SyntaxNode) -> Option<TextRange>
    ensures { result ≡ list_at node.now }
{
    let parent = node.parent()?;
    if is_list_in(node, &parent) {
        inside_of(node)
    } else {
        None
    }
}

/// The ranges of the arguments of the macro calls of a tree, in the order of the text.
pub(crate) fn lists_of(alloc: Global, root: &SyntaxNode) -> Result<Vec<TextRange>, AllocError>
    ensures { IfOk result (λ l. l.items ≡ lists_in root.now) }
{
    let mut lists = Vec::new(alloc);
    for node in root.descendants() {
        if let Some(range) = list_at(&node) {
            lists.push(range)?;
        }
    }
    Ok(lists)
}

// The text of a range. Tokens start and end between characters.
#[tactic(auto, using(crate::proofs::ListLemmas::some_text, crate::proofs::ListLemmas::no_start, crate::proofs::ListLemmas::no_end))]
fn text_in(text: &str, range: TextRange) -> &str
    ensures { IsTextIn text.now range result.now }
{
    let start = range.start().raw() as usize;
    let end = range.end().raw() as usize;
    if text.is_char_boundary(start) && text.is_char_boundary(end) {
        &text[start..end]
    } else {
        ""
    }
}

/// The text of a file in which the arguments at a range are a list of expressions, if they are one.
pub(crate) fn file_of(alloc: Global, text: &str, range: TextRange) -> Result<String, AllocError>
    ensures { IfOk result (λ f. IsFileOf text.now range (string_bytes f)) }
{
    let list = text_in(text, range);
    let mut file = String::from_str(alloc, BEFORE)?;
    file.push_str(list)?;
    file.push_str(BEHIND)?;
    Ok(file)
}

/// The parse of a file of arguments; `None` if it has an error, a violation as that of `let a = b`
/// among them, so that they are no list of expressions.
pub(crate) fn read_list(
    alloc: Global,
    file: &str,
    reading: Reading,
) -> Result<Option<Parse<SyntaxNode>>, ParseError>
    ensures { IfOk result (IsListRead reading file.now) }
{
    let parse = parsed(alloc, file, reading)?;
    if parse.errors(alloc)?.is_empty() {
        Ok(Some(parse))
    } else {
        Ok(None)
    }
}

/// Where a range of a file of arguments is in the text that they are arguments in, at a range.
/// `None` if it is not in the arguments.
pub(crate) fn outward(range: TextRange, list: TextRange) -> Option<TextRange>
    ensures { result ≡ outward list range }
{
    let front = BEFORE.len() as u32;
    let start = range.start().raw().checked_sub(front)?;
    let end = range.end().raw().saturating_sub(front);
    if end > list.len().raw() {
        return None;
    }
    let base = list.start().raw();
    Some(TextRange::new(TextSize::new(base + start), TextSize::new(base + end)))
}
