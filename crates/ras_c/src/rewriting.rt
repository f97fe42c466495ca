//! Search and replace by rules.
ghost use Rattle.std.specs.Prelude.{◌≡◌, ◌≤◌, ◌⊎◌, ◌↔◌, ℕ, List, true, false, length, map, IfOk, IfErr, None, string_bytes};
ghost use Rattle.tree_model.specs.Edit.{root_of};
ghost use Rattle.tree_match.specs.Finds.{occurrence_of};
ghost use Rattle.rust_rewrite.specs.Rules.{is_bare};
ghost use Rattle.rust_rewrite.specs.Rewrites.{loses_comment};
ghost use Rattle.ras_c.specs.Border.{edition_of, IsHanded, IsCounted};
ghost use Rattle.ras_c.specs.Rewriting.{match_row, matches_of, has_bare, status_of, AreRulesOf, InFile, Finds, IsNewText, HasNew, Becomes, LacksTemplate, Loses, IsRefusedAs, IsSaid};

use crate::fill::{fill, hand};
use crate::parsed::parsed;
use crate::status::{NO_EDITION, NO_MEMORY, NO_ROOM, NOT_UTF8, OK, TOO_LONG, edition_of};
use lossless_tree::SyntaxNode;
use ras_front_end::Edition;
use ras_parsing::Parse;
use rust_front::Rust;
use rust_rewrite::{
    Match, RewriteError, Rule, RuleError, find, parse_pattern, parse_rule, parse_rules, rewrite,
};
use std::alloc::{AllocError, Global};

/// The rules are refused. `message` and `fault` say why and where; nothing else was written.
pub const BAD_RULE: u32 = 13;
/// A rule to replace by has no template. Nothing was written.
pub const NO_TEMPLATE: u32 = 14;
/// A comment would be lost: it is in what stands for a placeholder that the template has not.
/// Nothing was written.
pub const LOSES_COMMENT: u32 = 15;
/// The new text would be read otherwise than it is meant. Nothing was written.
pub const READS_OTHERWISE: u32 = 16;

/// A place where a rule matches.
#[repr(C)]
#[derive(Clone, Copy)]
pub struct MatchRow {
    /// The number of the rule, from 0.
    pub rule: usize,
    /// The byte where the match starts.
    pub start: u32,
    /// The byte where it ends.
    pub end: u32,
}

/// What is wrong with rules.
#[repr(C)]
#[derive(Clone, Copy)]
pub struct RuleFault {
    /// The byte of the rules' text where it is.
    pub offset: usize,
    /// The length of its message in bytes.
    pub message: usize,
}

fn match_row(found: &Match) -> MatchRow
    ensures { result ≡ match_row (occurrence_of found.now) }
{
    MatchRow {
        rule: found.rule,
        start: found.range.start().raw(),
        end: found.range.end().raw(),
    }
}

fn match_rows(alloc: Global, found: &[Match]) -> Result<Vec<MatchRow>, AllocError>
    ensures { IfOk result (λ rows. rows.items ≡ map match_row (map occurrence_of found.now)) }
{
    let mut rows = Vec::with_capacity(alloc, found.len())?;
    for one in found {
        rows.push(match_row(one))?;
    }
    Ok(rows)
}

// One rule, as a list.
fn listed(alloc: Global, rule: Rule) -> Result<Vec<Rule>, RuleError>
    ensures one { IfOk result (λ rules. length rules.items ≡ 1) }
    ensures start { IfErr result (λ e. e.offset ≡ 0) }
{
    let mut rules = Vec::new(alloc);
    match rules.push(rule) {
        Ok(()) => Ok(rules),
        Err(_) => Err(RuleError {
            fault: rust_rewrite::RuleFault::Memory,
            offset: 0,
        }),
    }
}

// The rules of a text: one a line; or one rule, with a template or as a pattern alone.
fn rules_of(
    alloc: Global,
    text: &str,
    lines: bool,
    edition: Edition,
    has_template: bool,
) -> Result<Vec<Rule>, RuleError>
    ensures rules { IfOk result (λ rules. AreRulesOf has_template lines text.now rules.items) }
    ensures within { IfErr result (λ e. e.offset ≤ length text.now) }
{
    if lines {
        return parse_rules(alloc, &Rust, edition, text);
    }
    let one = if has_template {
        parse_rule(alloc, &Rust, edition, text)
    } else {
        parse_pattern(alloc, &Rust, edition, text)
    };
    match one {
        Ok(rule) => listed(alloc, rule),
        Err(error) => Err(error),
    }
}

// Writes the message to the front of the buffer if there is room, and says where it belongs.
fn say(text: &str, offset: usize, message: &mut [u8], fault: &mut RuleFault)
    ensures { (rules : List ℕ) → offset ≤ length rules
        → IsSaid rules message.old message.new fault.new }
{
    if text.len() <= message.len() {
        fill(text.as_bytes(), message);
    }
    *fault = RuleFault {
        offset,
        message: text.len(),
    };
}

// The status of a refusal of rules. Says where they are wrong, and how.
fn refused(alloc: Global, error: &RuleError, message: &mut [u8], fault: &mut RuleFault) -> u32
    ensures said { result ≡ 13 → (rules : List ℕ) → error.now.offset ≤ length rules
        → IsSaid rules message.old message.new fault.new }
    ensures kept { (result ≡ 13 → ⊥) → (message.new ≡ message.old) × (fault.new ≡ fault.old) }
    ensures which { (result ≡ 2) ⊎ (result ≡ 3) ⊎ (result ≡ 13) }
{
    let text = match &error.fault {
        rust_rewrite::RuleFault::Memory => return NO_MEMORY,
        rust_rewrite::RuleFault::TooLong => return TOO_LONG,
        told => format!(in alloc; "{told}"),
    };
    match text {
        Ok(text) => {
            say(text.as_str(), error.offset, message, fault);
            BAD_RULE
        }
        Err(_) => NO_MEMORY,
    }
}

// The rows of the matches in a text.
fn searched(alloc: Global, rules: &[Rule], text: &[u8], edition: u32) -> Result<Vec<MatchRow>, u32>
    ensures found { IfOk result (λ rows. InFile edition text.now
        (λ p. rows.items ≡ matches_of rules.now p)) }
    ensures known { IfOk result (λ _. edition_of edition ≡ None → ⊥) }
    ensures edition { IfErr result (λ s. (s ≡ 5) ↔ (edition_of edition ≡ None)) }
    ensures which { IfErr result (λ s. (s ≡ 1) ⊎ (s ≡ 2) ⊎ (s ≡ 3) ⊎ (s ≡ 5)) }
{
    let parse: Parse<SyntaxNode> = parsed(alloc, text, edition)?;
    let Ok(found) = find(alloc, rules, parse.root()) else {
        return Err(NO_MEMORY);
    };
    match match_rows(alloc, &found) {
        Ok(rows) => Ok(rows),
        Err(_) => Err(NO_MEMORY),
    }
}

/// Searches a text of an edition, such as 2024, by a pattern: `$a == None`. With `lines` there are
/// several, one a line, each a pattern or a rule with its template; lines that are empty or begin
/// with `#` are passed over. Writes a row for each match, in preorder: the outermost ones, and
/// those inside what stands for placeholders. At one place the first rule that matches counts.
///
/// Returns [`OK`], [`NOT_UTF8`] of either text, [`TOO_LONG`], [`NO_MEMORY`], [`NO_ROOM`],
/// [`NO_EDITION`], or [`BAD_RULE`] with what is wrong: the message is at the front of `message` if
/// it has room for it; 256 bytes are enough for most. The arguments of macros are not searched.
/// Takes a parse of the text, and time linear in the text for each rule.
#[unsafe(no_mangle)]
pub extern "C" fn ras_c_search(
    alloc: Global,
    patterns: &[u8],
    lines: bool,
    text: &[u8],
    edition: u32,
    matches: &mut [MatchRow],
    count: &mut u32,
    message: &mut [u8],
    fault: &mut RuleFault,
) -> u32
    ensures done { result ≡ 0 → Finds lines patterns.now edition text.now
        (λ rows. IsHanded rows matches.old matches.new count.new) }
    ensures room { result ≡ 4 → Finds lines patterns.now edition text.now
        (λ rows. IsCounted rows matches.old matches.new count.new) }
    ensures bad { result ≡ 13 → IsSaid patterns.now message.old message.new fault.new }
    ensures kept { (result ≡ 0 → ⊥) → (result ≡ 4 → ⊥)
        → (matches.new ≡ matches.old) × (count.new ≡ count.old) }
    ensures unsaid { (result ≡ 13 → ⊥) → (message.new ≡ message.old) × (fault.new ≡ fault.old) }
    ensures edition { (result ≡ 5) ↔ (edition_of edition ≡ None) }
    ensures which { (result ≤ 5) ⊎ (result ≡ 13) }
{
    let Some(year) = edition_of(edition) else {
        return NO_EDITION;
    };
    let Ok(patterns) = str::from_utf8(patterns) else {
        return NOT_UTF8;
    };
    let rules = match rules_of(alloc, patterns, lines, year, false) {
        Ok(rules) => rules,
        Err(error) => return refused(alloc, &error, message, fault),
    };
    match searched(alloc, &rules, text, edition) {
        Ok(rows) => hand(&rows, matches, count),
        Err(status) => status,
    }
}

// Whether a rule has no template.
fn is_bare(rule: &Rule) -> bool
    ensures { result ≡ is_bare rule.now }
{
    rule.pieces().is_empty()
}

fn has_bare(rules: &[Rule]) -> bool
    ensures { result ≡ has_bare rules.now }
{
    for rule in rules {
        if is_bare(rule) {
            return true;
        }
    }
    false
}

fn status_of(error: RewriteError) -> u32
    ensures { result ≡ status_of error }
{
    match error {
        RewriteError::ReadsOtherwise => READS_OTHERWISE,
        RewriteError::LosesComment => LOSES_COMMENT,
        RewriteError::TooLong => TOO_LONG,
        RewriteError::Memory => NO_MEMORY,
    }
}

// The number of matches of a parse, and the text with these replaced.
#[tactic(auto, using(crate::proofs::RewritingLemmas::refused_as, crate::proofs::RewritingLemmas::one_of, crate::proofs::RewritingLemmas::is_new))]
fn replaced(
    alloc: Global,
    rules: &[Rule],
    parse: &Parse<SyntaxNode>,
    edition: Edition,
) -> Result<(usize, String), u32>
    ensures new { IfOk result (λ r. IsNewText edition rules.now parse.now r.0 (string_bytes r.1)) }
    ensures refused { IfErr result (IsRefusedAs rules.now (root_of parse.now.tree)) }
    ensures which { IfErr result (λ s. (s ≡ 2) ⊎ (s ≡ 3) ⊎ (s ≡ 15) ⊎ (s ≡ 16)) }
{
    match rewrite(alloc, &Rust, edition, rules, parse) {
        Ok(done) => Ok((done.matches.len(), done.text)),
        Err(error) => Err(status_of(error)),
    }
}

// The same of a text.
fn rewritten(alloc: Global, rules: &[Rule], text: &[u8], year: u32) -> Result<(usize, String), u32>
    ensures new { IfOk result (λ r. InFile year text.now (λ p. HasNew year rules.now p
        (λ n s. (n ≡ r.0) × (s ≡ string_bytes r.1)))) }
    ensures lost { IfErr result (λ s. s ≡ 15 → InFile year text.now
        (λ p. loses_comment rules.now (root_of p.tree) ≡ true)) }
    ensures otherwise { IfErr result (λ s. s ≡ 16 → InFile year text.now
        (λ p. loses_comment rules.now (root_of p.tree) ≡ false)) }
    ensures known { IfOk result (λ _. edition_of year ≡ None → ⊥) }
    ensures edition { IfErr result (λ s. (s ≡ 5) ↔ (edition_of year ≡ None)) }
    ensures which { IfErr result (λ s. (1 ≤ s) × (s ≤ 3) ⊎ (s ≡ 5) ⊎ (15 ≤ s) × (s ≤ 16)) }
{
    let parse = parsed(alloc, text, year)?;
    let Some(edition) = edition_of(year) else {
        return Err(NO_EDITION);
    };
    replaced(alloc, rules, &parse, edition)
}

// Writes a new text to the front of the buffer if it has room, its length, and the number of
// matches.
fn hand_new(number: usize, new: &str, out: &mut [u8], count: &mut u32, matches: &mut usize) -> u32
    ensures done { result ≡ 0 → IsHanded new.now out.old out.new count.new
        × (matches.new ≡ number) }
    ensures room { result ≡ 4 → IsCounted new.now out.old out.new count.new
        × (matches.new ≡ number) }
    ensures kept { (result ≡ 0 → ⊥) → (result ≡ 4 → ⊥)
        → (out.new ≡ out.old) × (count.new ≡ count.old) × (matches.new ≡ matches.old) }
    ensures which { (result ≡ 0) ⊎ (2 ≤ result) × (result ≤ 4) }
{
    let status = hand(new.as_bytes(), out, count);
    if status == OK || status == NO_ROOM {
        *matches = number;
    }
    status
}

/// Replaces the matches of a rule in a text of an edition, such as 2024: by `$a == None ==>>
/// $a.is_none()`. With `lines` there are several, one a line; lines that are empty or begin with
/// `#` are passed over. Writes the new text to the front of `out`, its length to `count`, and the
/// number of matches to `matches`. Parentheses stand exactly where they are needed, and what is
/// outside of the matches is as it was.
///
/// Returns [`OK`], [`NOT_UTF8`] of either text, [`TOO_LONG`], [`NO_MEMORY`], [`NO_ROOM`],
/// [`NO_EDITION`], [`NO_TEMPLATE`], [`LOSES_COMMENT`], [`READS_OTHERWISE`], or [`BAD_RULE`] with
/// what is wrong: the message is at the front of `message` if it has room for it; 256 bytes are
/// enough for most. It takes a few parses of the text.
#[tactic(auto, using(crate::proofs::RewritingLemmas::becomes))]
#[unsafe(no_mangle)]
pub extern "C" fn ras_c_rewrite(
    alloc: Global,
    rules: &[u8],
    lines: bool,
    text: &[u8],
    edition: u32,
    out: &mut [u8],
    count: &mut u32,
    matches: &mut usize,
    message: &mut [u8],
    fault: &mut RuleFault,
) -> u32
    ensures done { result ≡ 0 → Becomes lines rules.now edition text.now
        (λ n s. IsHanded s out.old out.new count.new × (matches.new ≡ n)) }
    ensures room { result ≡ 4 → Becomes lines rules.now edition text.now
        (λ n s. IsCounted s out.old out.new count.new × (matches.new ≡ n)) }
    ensures bad { result ≡ 13 → IsSaid rules.now message.old message.new fault.new }
    ensures bare { result ≡ 14 → LacksTemplate lines rules.now }
    ensures lost { result ≡ 15 → Loses lines rules.now edition text.now true }
    ensures otherwise { result ≡ 16 → Loses lines rules.now edition text.now false }
    ensures kept { (result ≡ 0 → ⊥) → (result ≡ 4 → ⊥)
        → (out.new ≡ out.old) × (count.new ≡ count.old) × (matches.new ≡ matches.old) }
    ensures unsaid { (result ≡ 13 → ⊥) → (message.new ≡ message.old) × (fault.new ≡ fault.old) }
    ensures edition { (result ≡ 5) ↔ (edition_of edition ≡ None) }
    ensures which { (result ≤ 5) ⊎ (13 ≤ result) × (result ≤ 16) }
{
    let Some(year) = edition_of(edition) else {
        return NO_EDITION;
    };
    let Ok(rules) = str::from_utf8(rules) else {
        return NOT_UTF8;
    };
    let rules = match rules_of(alloc, rules, lines, year, true) {
        Ok(rules) => rules,
        Err(error) => return refused(alloc, &error, message, fault),
    };
    if has_bare(&rules) {
        return NO_TEMPLATE;
    }
    match rewritten(alloc, &rules, text, edition) {
        Ok((number, new)) => hand_new(number, new.as_str(), out, count, matches),
        Err(status) => status,
    }
}
