//! The labels of items, in one line.
ghost use Rattle.std.specs.Prelude.{◌≡◌, IfOk, OnOk, string_bytes, map, [], ◌∷◌, false};
ghost use Rattle.tree_model.specs.Cursor.{children_of};
ghost use Rattle.lossless_tree.specs.Element.{element_of};
ghost use Rattle.lossless_tree.specs.declared.cursor.element.NodeOrToken.TheVariants.{Node};
ghost use Rattle.rust_report.specs.Labels.{is_part, joined, with_element, with_elements, elements_in, with_children, is_full, line_of, label_line};

use crate::items::{Row, Unheaded, label_of};
use crate::texts::WIDEST;
use lossless_tree::{NodeOrToken, SyntaxElement, SyntaxKind, SyntaxNode};
use ras_node::KindSet;
use ras_node::support::is_of_kind;
use std::alloc::{AllocError, Global};

// Whether a child of an `impl` is part of its label, or white space or a comment within it.
fn is_part(kind: SyntaxKind) -> bool
    ensures { result ≡ is_part kind }
{
    kind.is_trivia() || !Unheaded::has(kind)
}

// Appends a token to a line, with a blank before it if white space or comments were left out there.
fn push_token(line: &mut String, gap: bool, token: &str) -> Result<(), AllocError>
    ensures { OnOk result (string_bytes line.new ≡ joined gap (string_bytes line.old) token.now) }
{
    if gap && !line.is_empty() {
        line.push(' ')?;
    }
    line.push_str(token)
}

// Whether a line is longer than what is shown of it. A label may be most of a file, and the labels
// of items in it as well.
fn is_full(line: &str) -> bool
    ensures { result ≡ is_full line.now }
{
    WIDEST < line.len()
}

// Appends a token to a line, unless it is white space or a comment, or the line is full; a node
// adds nothing. Returns whether the line is to have a blank before the next token.
fn push_element(line: &mut String, gap: bool, element: &SyntaxElement) -> Result<bool, AllocError>
    ensures { IfOk result
        (λ g. (string_bytes line.new, g) ≡ with_element (string_bytes line.old, gap) element.now) }
{
    let NodeOrToken::Token(token) = element else {
        return Ok(gap);
    };
    if is_full(line) {
        return Ok(gap);
    }
    if element.is_trivia() {
        return Ok(true);
    }
    push_token(line, gap, token.text())?;
    Ok(false)
}

#[tactic(auto, using(crate::proofs::LabelsLemmas::stepped, crate::proofs::LabelsLemmas::ended, crate::proofs::LabelsLemmas::filled))]
fn push_tokens(line: &mut String, gap: bool, node: &SyntaxNode) -> Result<bool, AllocError>
    ensures { IfOk result (λ g. (string_bytes line.new, g)
        ≡ with_elements (string_bytes line.old, gap) (elements_in (Node node.now))) }
{
    let mut gap = gap;
    for element in node.descendants_with_tokens() {
        if is_full(line) {
            return Ok(gap);
        }
        gap = push_element(line, gap, &element)?;
    }
    Ok(gap)
}

// Appends the tokens of a node, or a token.
fn push_all(line: &mut String, gap: bool, element: &SyntaxElement) -> Result<bool, AllocError>
    ensures { IfOk result (λ g. (string_bytes line.new, g)
        ≡ with_elements (string_bytes line.old, gap) (elements_in element.now)) }
{
    match element {
        NodeOrToken::Node(node) => push_tokens(line, gap, node),
        NodeOrToken::Token(_) => push_element(line, gap, element),
    }
}

// Appends the tokens of a child of an `impl`, if it is a part of its label.
fn push_child(line: &mut String, gap: bool, child: &SyntaxElement) -> Result<bool, AllocError>
    ensures { IfOk result (λ g. (string_bytes line.new, g)
        ≡ with_children (string_bytes line.old, gap) (child.now ∷ [])) }
{
    if is_part(child.kind()) {
        push_all(line, gap, child)
    } else {
        Ok(gap)
    }
}

// The head of an `impl` in one line.
fn head_line(alloc: Global, item: &SyntaxNode) -> Result<String, AllocError>
    ensures { IfOk result (λ line. string_bytes line
        ≡ (with_children ([], false) (map element_of (children_of item.now))).0) }
{
    let mut line = String::new(alloc);
    let mut gap = false;
    for child in item.children_with_tokens() {
        gap = push_child(&mut line, gap, &child)?;
    }
    Ok(line)
}

// The tokens of a label in one line.
fn own_line(alloc: Global, label: &Option<SyntaxElement>) -> Result<String, AllocError>
    ensures { IfOk result (λ line. string_bytes line ≡ line_of label.now) }
{
    let mut line = String::new(alloc);
    if let Some(label) = label {
        push_all(&mut line, false, label)?;
    }
    Ok(line)
}

/// The label of an item in one line: the tokens of [`label_of`], and of an `impl` all tokens from
/// there to its `where` or its items. Each run of white space and comments is one blank. The line
/// of an item without a label is empty. No token is added to a line of more than [`WIDEST`] bytes.
///
/// Takes time linear in the line and in the number of children of an `impl`.
///
/// # Errors
///
/// `AllocError` if memory runs out.
pub fn label_line(alloc: Global, row: &Row) -> Result<String, AllocError>
    ensures { IfOk result (λ line. string_bytes line ≡ label_line row.now) }
{
    if is_of_kind(&row.item, SyntaxKind::IMPL) {
        head_line(alloc, &row.item)
    } else {
        own_line(alloc, &label_of(row))
    }
}
