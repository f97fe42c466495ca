//! Rules on expressions: names of fields, ranges, `let`.
ghost use Rattle.std.specs.Prelude.{◌≡◌, not, drop, option_map};
ghost use Rattle.std.specs.List.{list_any};
ghost use Rattle.std.specs.Char.{is_ascii_digit};
ghost use Rattle.tree_model.specs.Cursor.{range_of, ancestors_of};
ghost use Rattle.ras_node.specs.Nodes.{kind_at};
ghost use Rattle.ras_validation.specs.Rules.{first_token_in, has_number_as_name, numeric_name, range_without_end, is_and, let_verdict, in_condition, misplaced_let};

use crate::kinds::Numbers;
use crate::lookups::{binary_operator, node_child, range_end, range_operator};
use lossless_tree::{SyntaxKind, SyntaxNode, SyntaxToken};
use text_size::TextRange;

// Whether a text has a character other than decimal digits.
fn has_other_than_digits(text: &str) -> bool
    ensures { result ≡ list_any (λ b. not (is_ascii_digit b)) text.now }
{
    text.as_bytes().iter().any(|byte| !byte.is_ascii_digit())
}

// The first child, if that is a token.
fn first_token_in(node: &SyntaxNode) -> Option<SyntaxToken>
    ensures { result ≡ first_token_in node.now }
{
    node.first_child_or_token()?.into_token()
}

// Whether the name of a field has a number.
fn has_number_as_name(field: &SyntaxNode) -> bool
    ensures { result ≡ has_number_as_name field.now }
{
    field.has_token_in_child::<Numbers>(SyntaxKind::NAME_REF)
}

// The same as `numeric_name`, by cursors.
fn number_in_name(field: &SyntaxNode) -> Option<TextRange>
    ensures { result ≡ option_map range_of (numeric_name field.now) }
{
    let name = node_child(field, SyntaxKind::NAME_REF)?;
    let number = first_token_in(&name)?;
    if number.kind() == SyntaxKind::INT_NUMBER && has_other_than_digits(number.text()) {
        Some(number.text_range())
    } else {
        None
    }
}

/// The number that names the field of a `FIELD_EXPR` or `RECORD_EXPR_FIELD`, if it is not made of
/// decimal digits alone.
pub fn numeric_name(field: &SyntaxNode) -> Option<TextRange>
    ensures { result ≡ option_map range_of (numeric_name field.now) }
{
    // Most fields have an identifier as their name, and need no cursors.
    if has_number_as_name(field) {
        number_in_name(field)
    } else {
        None
    }
}

/// A `RANGE_EXPR` by `..=` without an end.
pub fn range_without_end(range: &SyntaxNode) -> Option<TextRange>
    ensures { result ≡ option_map range_of (range_without_end range.now) }
{
    let operator = range_operator(range)?;
    if operator.kind() == SyntaxKind::DOT2EQ && range_end(range).is_none() {
        Some(range.text_range())
    } else {
        None
    }
}

// Whether a binary expression is one of `&&`.
fn is_and(expr: &SyntaxNode) -> bool
    ensures { result ≡ is_and expr.now }
{
    binary_operator(expr).is_some_and(|operator| operator.kind() == SyntaxKind::AMP2)
}

// The verdict of one node above a `let`: whether the `let` is part of a condition, or `None` if the
// nodes above decide.
fn let_verdict(above: &SyntaxNode) -> Option<bool>
    ensures { result ≡ let_verdict (kind_at above.now) above.now }
{
    match above.kind() {
        SyntaxKind::PAREN_EXPR => None,
        SyntaxKind::BIN_EXPR => { if is_and(above) { None } else { Some(false) } }
        SyntaxKind::IF_EXPR | SyntaxKind::WHILE_EXPR | SyntaxKind::MATCH_GUARD => Some(true),
        _ => Some(false),
    }
}

// Whether the walk up from a node, through parentheses and `&&` only, meets an `if`, a `while` or
// the guard of a match.
fn is_in_condition(node: &SyntaxNode) -> bool
    ensures { result ≡ in_condition (drop 1 (ancestors_of node.now)) }
{
    let mut above = node.ancestors();
    let _node = above.next();
    while let Some(outer) = above.next() {
        if let Some(is_condition) = let_verdict(&outer) {
            return is_condition;
        }
    }
    false
}

/// A `LET_EXPR` that is not part of a condition: of an `if`, a `while` or the guard of a match,
/// through parentheses and `&&` only. Takes time linear in the number of parentheses and `&&`
/// around it.
pub fn misplaced_let(expr: &SyntaxNode) -> Option<TextRange>
    ensures { result ≡ option_map range_of (misplaced_let expr.now) }
{
    if is_in_condition(expr) {
        None
    } else {
        Some(expr.text_range())
    }
}
