//! Parentheses of the expressions of a text.
ghost use Rattle.std.specs.Prelude.{◌≡◌, ◌<◌, ◌≤◌, ◌^◌, ◌⊎◌, ◌↔◌, ◌==◌, length, map, IfOk, IfErr, IsUtf8, None, Some};
ghost use Rattle.ras_front_end.specs.Parsed.{Parsed};
ghost use Rattle.ras_c.specs.Border.{edition_of, IsHanded, IsCounted};
ghost use Rattle.ras_c.specs.Read.{IsReading};
ghost use Rattle.tree_model.specs.Edit.{root_of};
ghost use Rattle.ras_c.specs.Parens.{range_at, HasNeedless, Lists, spans, shows_term, is_term_over, node_over, range_from, ReadsBackAt};

use crate::fill::hand;
use crate::parsed::parsed;
use crate::root::Root;
use crate::status::{NO_EDITION, NO_MEMORY, NO_PLACE, OK, edition_of};
use lossless_tree::{SyntaxNode, TextRange, TextSize};
use operator_pairs::needless::reads_back;
use ras_front_end::{Edition, Entry};
use ras_parsing::Parse;
use rust_front::Rust;
use rust_parens::find_needless;
use std::alloc::{AllocError, Global};

/// A range of the text, in bytes.
#[repr(C)]
#[derive(Clone, Copy)]
pub struct Range {
    /// Where it starts.
    pub start: u32,
    /// Where it ends.
    pub end: u32,
}

fn range_of(node: &SyntaxNode) -> Range
    ensures { result ≡ range_at node.now }
{
    let range = node.text_range();
    Range {
        start: range.start().raw(),
        end: range.end().raw(),
    }
}

fn ranges_of(alloc: Global, pairs: &[SyntaxNode]) -> Result<Vec<Range>, AllocError>
    ensures { IfOk result (λ ranges. ranges.items ≡ map range_at pairs.now) }
{
    let mut ranges = Vec::new(alloc);
    for pair in pairs {
        ranges.push(range_of(pair))?;
    }
    Ok(ranges)
}

// The ranges of the pairs of a parse that can all be removed together.
#[tactic(auto, using(crate::proofs::ParensLemmas::found))]
fn needless_ranges(
    alloc: Global,
    parse: &Parse<SyntaxNode>,
    edition: Edition,
) -> Result<Vec<Range>, AllocError>
    ensures { IfOk result
        (λ ranges. HasNeedless edition parse.now (λ found. ranges.items ≡ found)) }
{
    let found = find_needless(alloc, &Rust, Entry::SourceFile, edition, parse)?;
    ranges_of(alloc, &found.pairs)
}

// The same for a text, or the status of the refusal.
#[tactic(auto, using(crate::proofs::ParensLemmas::lists))]
fn listed(alloc: Global, text: &[u8], year: u32) -> Result<Vec<Range>, u32>
    ensures found { IfOk result (λ ranges. Lists year text.now (λ found. ranges.items ≡ found)) }
    ensures known { IfOk result (λ _. edition_of year ≡ None → ⊥) }
    ensures text { IfOk result (λ _. IsUtf8 text.now) }
    ensures utf8 { IfErr result
        (λ s. (s ≡ 1) ↔ (edition_of year ≡ None → ⊥) × (IsUtf8 text.now → ⊥)) }
    ensures long { IfErr result (λ s. s ≡ 2 → 2 ^ 32 ≤ length text.now) }
    ensures edition { IfErr result (λ s. (s ≡ 5) ↔ (edition_of year ≡ None)) }
    ensures which { IfErr result (λ s. (s ≡ 1) ⊎ (s ≡ 2) ⊎ (s ≡ 3) ⊎ (s ≡ 5)) }
{
    let parse = parsed(alloc, text, year)?;
    let Some(edition) = edition_of(year) else {
        return Err(NO_EDITION);
    };
    match needless_ranges(alloc, &parse, edition) {
        Ok(ranges) => Ok(ranges),
        Err(_) => Err(NO_MEMORY),
    }
}

/// Finds the needless pairs of parentheses of a text of an edition, such as 2024, in preorder of
/// the tree: those that `rust_tree parens --all --mixed` lists. All of them can be removed
/// together.
///
/// Returns [`OK`], [`NOT_UTF8`], [`TOO_LONG`], [`NO_MEMORY`], [`NO_ROOM`] or [`NO_EDITION`]. A
/// range is that of a `PAREN_EXPR` or a `PAREN_PAT`, with both parentheses. Put a blank in place of
/// a parenthesis whose neighbours would be joined, as in `return(a)`. Pairs that rustc needs stay,
/// for example around a macro call that is a statement. It usually takes a few parses of the text;
/// at worst one for each pair that stays.
#[tactic(auto, using(crate::proofs::ParensLemmas::at_ranges))]
#[unsafe(no_mangle)]
pub extern "C" fn ras_c_parens(
    alloc: Global,
    text: &[u8],
    edition: u32,
    pairs: &mut [Range],
    count: &mut u32,
) -> u32
    ensures done { result ≡ 0
        → Lists edition text.now (λ found. IsHanded found pairs.old pairs.new count.new) }
    ensures room { result ≡ 4
        → Lists edition text.now (λ found. IsCounted found pairs.old pairs.new count.new) }
    ensures kept { (result ≡ 0 → ⊥) → (result ≡ 4 → ⊥)
        → (pairs.new ≡ pairs.old) × (count.new ≡ count.old) }
    ensures utf8 { (result ≡ 1) ↔ (edition_of edition ≡ None → ⊥) × (IsUtf8 text.now → ⊥) }
    ensures long { result ≡ 2
        → (2 ^ 32 ≤ length text.now) ⊎ Lists edition text.now (λ found. 2 ^ 32 ≤ length found) }
    ensures edition { (result ≡ 5) ↔ (edition_of edition ≡ None) }
    ensures which { result ≤ 5 }
{
    match listed(alloc, text, edition) {
        Ok(found) => hand(&found, pairs, count),
        Err(status) => status,
    }
}

// Whether the node has exactly this range.
pub(crate) fn spans(node: &SyntaxNode, range: TextRange) -> bool
    ensures { result ≡ spans range node.now }
{
    let found = node.text_range();
    found.start().raw() == range.start().raw() && found.end().raw() == range.end().raw()
}

// Whether the node is an operator tree.
fn shows_term(node: &SyntaxNode) -> bool
    ensures { result ≡ shows_term node.now }
{
    reads_back(node).is_some()
}

fn is_term_over(node: &SyntaxNode, range: TextRange) -> bool
    ensures { result ≡ is_term_over range node.now }
{
    spans(node, range) && shows_term(node)
}

// The innermost operator tree with exactly this range.
fn node_over(root: &SyntaxNode, range: TextRange) -> Option<SyntaxNode>
    ensures { result ≡ node_over root.now range }
{
    root.covering_element(range)
        .ancestors()
        .find(|node| is_term_over(node, range))
}

// Whether that one reads back.
fn reads_back_at(root: &SyntaxNode, range: TextRange) -> Option<bool>
    ensures { ReadsBackAt result root.now range }
{
    match node_over(root, range) {
        None => None,
        Some(node) => reads_back(&node),
    }
}

/// Tests whether the operator tree with exactly this range, in a text of an edition such as 2024,
/// is the one reading of its tokens. `answer` is 1 if it is, and 0 if not. If several operator
/// trees have the range, the innermost is tested.
///
/// Returns [`OK`], [`NOT_UTF8`], [`TOO_LONG`], [`NO_MEMORY`], [`NO_EDITION`], or [`NO_PLACE`] if no
/// operator tree has the range.
#[unsafe(no_mangle)]
pub extern "C" fn ras_c_reads_back(
    alloc: Global,
    text: &[u8],
    edition: u32,
    start: u32,
    end: u32,
    answer: &mut u32,
) -> u32
    ensures answers { result ≡ 0 → (p : Parsed) × IsReading edition text.now p × (start ≤ end)
        × ReadsBackAt (Some (answer.new == 1)) (root_of p.tree) (range_from start end)
        × (answer.new ≤ 1) }
    ensures nowhere { result ≡ 6 → (p : Parsed) × IsReading edition text.now p
        × ((end < start) ⊎ ReadsBackAt None (root_of p.tree) (range_from start end)) }
    ensures kept { (result ≡ 0 → ⊥) → answer.new ≡ answer.old }
    ensures utf8 { (result ≡ 1) ↔ (edition_of edition ≡ None → ⊥) × (IsUtf8 text.now → ⊥) }
    ensures long { result ≡ 2 → 2 ^ 32 ≤ length text.now }
    ensures edition { (result ≡ 5) ↔ (edition_of edition ≡ None) }
    ensures which { (result ≤ 3) ⊎ (5 ≤ result) × (result ≤ 6) }
{
    let parse: Parse<Root> = match parsed(alloc, text, edition) {
        Ok(parse) => parse,
        Err(status) => return status,
    };
    if start > end {
        return NO_PLACE;
    }
    let range = TextRange::new(TextSize::new(start), TextSize::new(end));
    match reads_back_at(parse.root(), range) {
        Some(true) => {
            *answer = 1;
            OK
        }
        Some(false) => {
            *answer = 0;
            OK
        }
        None => NO_PLACE,
    }
}
