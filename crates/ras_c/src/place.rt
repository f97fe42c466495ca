//! Whether an expression needs parentheses in place of another.
ghost use Rattle.std.specs.Prelude.{◌≡◌, ◌<◌, ◌≤◌, ◌^◌, ◌⊎◌, ◌↔◌, ◌==◌, length, IfSome, IsUtf8, None, true, false};
ghost use Rattle.ras_front_end.specs.Parsed.{Parsed};
ghost use Rattle.tree_model.specs.Edit.{root_of};
ghost use Rattle.ras_node.specs.Nodes.{kind_at};
ghost use Rattle.ras_node.specs.Sets.{is_expr};
ghost use Rattle.rust_front.specs.declared.top.TopEntryPoint.TheVariants.{Expr};
ghost use Rattle.ras_c.specs.Border.{edition_of};
ghost use Rattle.ras_c.specs.Read.{IsReading, IsReadingAs};
ghost use Rattle.ras_c.specs.Parens.{range_from};
ghost use Rattle.ras_c.specs.Place.{is_expr_over, expr_over, around_over, NeedsAt};

use crate::parens::spans;
use crate::parsed::{parsed, parsed_as};
use crate::root::Root;
use crate::status::{NO_EDITION, NO_PLACE, NOT_UTF8, OK, edition_of};
use lossless_tree::{SyntaxNode, TextRange, TextSize};
use ras_node::sets::{Exprs, KindSet};
use ras_parsing::Parse;
use ras_prec::rules::needs_parens_in_place_of;
use rust_front::TopEntryPoint;
use std::alloc::Global;

/// The text in place of an expression is not one expression. Nothing was written.
pub const NO_EXPR: u32 = 17;

fn is_expr(node: &SyntaxNode) -> bool
    ensures { result ≡ is_expr (kind_at node.now) }
{
    Exprs::has(node.kind())
}

fn is_expr_over(node: &SyntaxNode, range: TextRange) -> bool
    ensures { result ≡ is_expr_over range node.now }
{
    spans(node, range) && is_expr(node)
}

// The innermost expression with exactly this range.
fn expr_over(root: &SyntaxNode, range: TextRange) -> Option<SyntaxNode>
    ensures { result ≡ expr_over root.now range }
{
    root.covering_element(range)
        .ancestors()
        .find(|node| is_expr_over(node, range))
}

// Whether an expression needs parentheses in place of that one.
fn needed_at(own: &SyntaxNode, root: &SyntaxNode, range: TextRange) -> Option<bool>
    ensures there { IfSome result (λ needed. NeedsAt needed own.now root.now range) }
    ensures nowhere { result ≡ None → around_over root.now range ≡ None }
{
    let place = expr_over(root, range)?;
    let parent = place.parent()?;
    Some(needs_parens_in_place_of(own, &parent, &place))
}

/// Tests whether an expression, whose text is `own`, needs parentheses in place of the expression
/// with exactly this range, in a text of an edition such as 2024. `answer` is 1 if it does, and 0
/// if not. If several expressions have the range, the innermost is the place.
///
/// The test is that of `needs_parens_in_place_of`, and exact for operands. It does not see that a
/// place begins a statement, where `if a {} else {} + b` would be two; `ras_c_rewrite` sees that.
///
/// Returns [`OK`], [`NOT_UTF8`], [`TOO_LONG`], [`NO_MEMORY`], [`NO_EDITION`], [`NO_PLACE`] if no
/// expression has the range, or [`NO_EXPR`] if `own` is not one expression. Both texts are parsed.
#[unsafe(no_mangle)]
pub extern "C" fn ras_c_needs_parens(
    alloc: Global,
    text: &[u8],
    edition: u32,
    start: u32,
    end: u32,
    own: &[u8],
    answer: &mut u32,
) -> u32
    ensures answers { result ≡ 0 → (p : Parsed) × IsReading edition text.now p
        × (o : Parsed) × IsReadingAs Expr edition own.now o
        × (is_expr (kind_at (root_of o.tree)) ≡ true) × (start ≤ end)
        × NeedsAt (answer.new == 1) (root_of o.tree) (root_of p.tree) (range_from start end)
        × (answer.new ≤ 1) }
    ensures nowhere { result ≡ 6 → (p : Parsed) × IsReading edition text.now p
        × ((end < start) ⊎ (around_over (root_of p.tree) (range_from start end) ≡ None)) }
    ensures no_expr { result ≡ 17 → (o : Parsed) × IsReadingAs Expr edition own.now o
        × (is_expr (kind_at (root_of o.tree)) ≡ false) }
    ensures kept { (result ≡ 0 → ⊥) → answer.new ≡ answer.old }
    ensures utf8 { (result ≡ 1)
        ↔ (edition_of edition ≡ None → ⊥) × (IsUtf8 own.now × IsUtf8 text.now → ⊥) }
    ensures long { result ≡ 2 → (2 ^ 32 ≤ length text.now) ⊎ (2 ^ 32 ≤ length own.now) }
    ensures edition { (result ≡ 5) ↔ (edition_of edition ≡ None) }
    ensures which { (result ≤ 3) ⊎ ((result ≡ 5) ⊎ ((result ≡ 6) ⊎ (result ≡ 17))) }
{
    if edition_of(edition).is_none() {
        return NO_EDITION;
    }
    if str::from_utf8(own).is_err() {
        return NOT_UTF8;
    }
    let parse: Parse<Root> = match parsed(alloc, text, edition) {
        Ok(parse) => parse,
        Err(status) => return status,
    };
    let own: Parse<Root> = match parsed_as(alloc, TopEntryPoint::Expr, own, edition) {
        Ok(own) => own,
        Err(status) => return status,
    };
    if !is_expr(own.root()) {
        return NO_EXPR;
    }
    if start > end {
        return NO_PLACE;
    }
    let range = TextRange::new(TextSize::new(start), TextSize::new(end));
    match needed_at(own.root(), parse.root(), range) {
        Some(true) => {
            *answer = 1;
            OK
        }
        Some(false) => {
            *answer = 0;
            OK
        }
        None => NO_PLACE,
    }
}
