//! The exact piece around an edit: a node between braces that is read by itself as in the text.
ghost use Rattle.std.specs.Prelude.{◌≡◌, ◌↔◌, IsTrue, ◌+◌, ◌-◌, ◌<◌, ◌≤◌, ◌^◌, length, IfOk, MatchOption, string_bytes, take, drop, ⊤, All};
ghost use Rattle.tree_model.specs.Tree.{text};
ghost use Rattle.tree_model.specs.Cursor.{IsRoot, first_child_of, last_child_of};
ghost use Rattle.ras_front_end.specs.ErrorModel.{LiesIn};
ghost use Rattle.ras_front_end.specs.Keeps.{Keeps};
ghost use Rattle.ras_front_end.specs.Reading.{reading_of, front_steps, step_faults};
ghost use Rattle.ras_parsing.specs.Edit.{IsEditOf, edited, edited_at, replacing};
ghost use Rattle.ras_parsing.specs.Rereading.{IsAround};
ghost use Rattle.ras_parsing.specs.Document.{opens, closes, is_between, exact_reparser_of, first_exact, is_quiet_from, AreShort, NoExactPath, IsPieceOf, range_after, in_order, all_in_order};
ghost use Rattle.ras_parsing.specs.ExactSteps.{IsExactPiece};

use crate::build::build_output;
use crate::ordered::{lexer_part, ordered};
use crate::parse::Parse;
use crate::reparse::edited_text;
use exact_front::ExactFront;
use lossless_tree::laws::node_is_placed;
use lossless_tree::{Ancestors, ReplaceError, SyntaxNode, TextRange, TextSize};
use ras_front_end::{Edition, Output, Reparser, Step, SyntaxError, closes_brace, opens_brace};
use std::alloc::{AllocError, Global};

// A node that is parsed again, with its new text and what the front end reads there.
#[derive(Drop)]
pub(crate) struct ExactPiece {
    node: SyntaxNode,
    reparser: Reparser,
    text: String,
    output: Output,
}

/// A parse, the number of its errors that are the parser's, and the range that was parsed.
#[derive(Drop)]
pub(crate) struct Counted<T> {
    pub parse: Parse<T>,
    pub parser_errors: usize,
    pub range: TextRange,
}

fn opens(node: &SyntaxNode) -> bool
    ensures { result ≡ opens (first_child_of node.now) }
{
    match node.first_child_or_token() {
        Some(child) => opens_brace(child.kind()),
        None => false,
    }
}

fn closes(node: &SyntaxNode) -> bool
    ensures { result ≡ closes (last_child_of node.now) }
{
    match node.last_child_or_token() {
        Some(child) => closes_brace(child.kind()),
        None => false,
    }
}

// Whether the first and the last child are braces, and the deleted range is between them.
fn is_between(node: &SyntaxNode, delete: TextRange) -> bool
    ensures { result ≡ is_between delete node.now }
{
    let range = node.text_range();
    (opens(node) && closes(node))
        && (range.start().raw() < delete.start().raw() && delete.end().raw() < range.end().raw())
}

fn exact_reparser_of<F: ExactFront>(
    node: &SyntaxNode,
    front: &F,
    delete: TextRange,
) -> Option<Reparser>
    ensures { result ≡ exact_reparser_of (F.exact front.now) delete node.now }
{
    if is_between(node, delete) {
        front.exact_reparser(node.kind())
    } else {
        None
    }
}

// The first of the nodes around a deleted range that may be an exact piece.
fn first_exact<F: ExactFront>(
    nodes: Ancestors,
    front: &F,
    delete: TextRange,
) -> Option<(SyntaxNode, Reparser)>
    ensures { result ≡ first_exact (F.exact front.now) delete nodes }
{
    for node in nodes {
        if let Some(reparser) = exact_reparser_of(&node, front, delete) {
            return Some((node, reparser));
        }
    }
    None
}

// Whether no error begins at or after a byte.
pub(crate) fn is_quiet_from(at: TextSize, errors: &[SyntaxError]) -> bool
    ensures { result ≡ is_quiet_from at errors.now }
{
    for error in errors {
        if at.raw() <= error.range().start().raw() {
            return false;
        }
    }
    true
}

// Whether neither a text nor the text after an edit is longer than so many bytes.
fn are_short(root: &SyntaxNode, delete: TextRange, insert: &str, longest: usize) -> bool
    requires root { IsRoot root.now }
    requires edit { IsEditOf (text root.now.tree) (replacing delete insert.now) }
    ensures { IsTrue result
        ↔ AreShort longest (text root.now.tree) (replacing delete insert.now) }
{
    let len = root.as_str().len();
    let kept = len - delete.len().raw() as usize;
    len <= longest && kept + insert.len() <= longest
}

// The text of a node after an edit inside of it.
fn text_after(
    alloc: Global,
    node: &SyntaxNode,
    delete: TextRange,
    insert: &str,
) -> Result<String, AllocError>
    requires edit { IsEditOf (text node.now.tree) (replacing delete insert.now) }
    requires around { IsAround node.now (replacing delete insert.now) }
    ensures { IfOk result (λ s. string_bytes s
        ≡ edited_at node.now (replacing delete insert.now)) }
{
    let start = node.text_range().start();
    edited_text(alloc, node.as_str(), start, delete, insert)
}

/// The exact piece around an edit, if there is one. The first `count` errors of the parse are the
/// parser's.
pub(crate) fn exact_path<T, F: ExactFront>(
    alloc: Global,
    old: &Parse<T>,
    count: usize,
    front: &F,
    delete: TextRange,
    insert: &str,
    edition: Edition,
) -> Result<Option<ExactPiece>, AllocError>
    requires edit { IsEditOf (text old.now.tree) (replacing delete insert.now) }
    requires short { length
        (edited (text old.now.tree) (replacing delete insert.now))
        < 2 ^ 32 }
    ensures { IfOk result (λ o.
        MatchOption o
        (NoExactPath (F.exact front.now) edition old.now count (replacing delete insert.now)) (λ n.
        IsExactPiece (F.exact front.now) edition old.now count
        (replacing delete insert.now) n.node n.reparser
        (string_bytes n.text) (reading_of n.output))) }
{
    let root = old.root();
    if front.has_head(root.as_str()) {
        return Ok(None);
    }
    if !are_short(root, delete, insert, front.longest()) {
        return Ok(None);
    }
    let nodes = root.covering_element(delete).ancestors();
    let (node, reparser) = match first_exact(nodes, front, delete) {
        Some(found) => found,
        None => return Ok(None),
    };
    if !is_quiet_from(node.text_range().end(), lexer_part(old.stored(), count)) {
        return Ok(None);
    }
    node_is_placed(&node);
    let text = text_after(alloc, &node, delete, insert)?;
    let output = match front.exact_piece(alloc, reparser, text.as_str(), edition)? {
        Some(output) => output,
        None => return Ok(None),
    };
    // What the old parse made of the node is what its old text makes by itself.
    if !front.is_exact_piece(alloc, reparser, node.as_str(), edition)? {
        return Ok(None);
    }
    Ok(Some(ExactPiece {
        node,
        reparser,
        text,
        output,
    }))
}

/// The number of the parser's errors among steps.
pub(crate) fn parser_errors(steps: &[Step]) -> usize
    ensures { result ≡ length (step_faults (front_steps steps.now)) }
{
    let mut count: usize = 0;
    for step in steps {
        if let Step::Error(_, _) = step {
            count += 1;
        }
    }
    count
}

/// The parse with an exact piece in the place of its node. The first `count` errors of the old
/// parse are the parser's.
pub(crate) fn with_exact<T>(
    alloc: Global,
    old: &Parse<T>,
    count: usize,
    new: ExactPiece,
    delete: TextRange,
    insert: &str,
) -> Result<Counted<T>, AllocError>
    requires edit { IsEditOf (text old.now.tree) (replacing delete insert.now) }
    requires short { length
        (edited (text old.now.tree) (replacing delete insert.now))
        < 2 ^ 32 }
    requires same_tree { new.node.tree ≡ old.now.tree }
    requires around { IsAround new.node (replacing delete insert.now) }
    requires new_text { string_bytes new.text
        ≡ edited_at new.node (replacing delete insert.now) }
    requires keeps { Keeps (λ root. ⊤) (string_bytes new.text) (reading_of new.output) }
    ensures new { IfOk result (λ n.
        IsPieceOf old.now count (replacing delete insert.now) new.node
        (reading_of new.output) n.parse n.parser_errors) }
    ensures range { IfOk result
        (λ n. n.range ≡ range_after new.node (replacing delete insert.now)) }
    ensures same_text { IfOk result (λ n. text n.parse.tree
        ≡ edited (text old.now.tree) (replacing delete insert.now)) }
{
    let ExactPiece {
        node,
        reparser: _,
        text,
        output,
    } = new;
    let more = parser_errors(&output.steps);
    let built = build_output(alloc, text.as_str(), output)?;
    let replaced = node.text_range();
    let root = match node.replace_with(alloc, &built.root) {
        Ok(root) => root,
        Err(refusal) => match refusal {
            ReplaceError::Memory => return Err(AllocError),
            ReplaceError::TooLong => unreachable!(),
        },
    };
    let range = range_from(replaced.start(), text.as_str());
    spliced(
        alloc,
        old,
        count,
        root,
        built.errors,
        more,
        replaced,
        range,
        delete,
        insert,
    )
}

// The range of a text that begins at a byte.
pub(crate) fn range_from(start: TextSize, text: &str) -> TextRange
    requires { start + length text.now < 2 ^ 32 }
    ensures { result ≡ record { start = start; end = start + length text.now } }
{
    TextRange::new(start, TextSize::new(start.raw() + text.len() as u32))
}

// The parse of a new tree, in which a piece with these errors replaces a range. The first errors,
// `count` of the old ones and `more` of the new ones, are the parser's.
pub(crate) fn spliced<T>(
    alloc: Global,
    old: &Parse<T>,
    count: usize,
    root: SyntaxNode,
    errors: Vec<SyntaxError>,
    more: usize,
    replaced: TextRange,
    range: TextRange,
    delete: TextRange,
    insert: &str,
) -> Result<Counted<T>, AllocError>
    requires root { IsRoot root }
    requires text { text root.tree
        ≡ edited (text old.now.tree) (replacing delete insert.now) }
    requires short { length (text root.tree) < 2 ^ 32 }
    requires around { (replaced.start ≤ delete.start) × (delete.end ≤ replaced.end)
        × (replaced.end ≤ length (text old.now.tree)) }
    requires errors { All
        (LiesIn
        (((replaced.end - replaced.start) + length insert.now) - (delete.end - delete.start)))
        errors.items }
    ensures parse { IfOk result (λ n. n.parse
        ≡ record {
          tree = root.tree;
          errors
              = all_in_order count more old.now.errors errors.items replaced
              (replacing delete insert.now);
        }) }
    ensures count { IfOk result (λ n. n.parser_errors
        ≡ length (in_order (take count old.now.errors) (take more errors.items) replaced
        (replacing delete insert.now))) }
    ensures range { IfOk result (λ n. n.range ≡ range) }
{
    // Opens the range's invariant for the proof: its start isn't past its end.
    let _start = delete.start();
    let all = ordered(
        alloc,
        old.stored(),
        count,
        &errors,
        more,
        replaced,
        delete,
        insert,
    )?;
    let parse = Parse::from_parts(alloc, root, all.errors)?;
    Ok(Counted {
        parse,
        parser_errors: all.parser_errors,
        range,
    })
}
