//! Rules from their texts.
ghost use Rattle.std.specs.Prelude.{◌≡◌, ◌≤◌, true, length, IfOk, IfErr, MatchOption, MatchResult};
ghost use Rattle.rust_rewrite.specs.Rules.{HasArrow, HasOne, IsFirstSplit, is_other, IsRuleFault, IsPatternFault, has_rule, rule_lines};

use crate::error::{RuleError, RuleFault, fault};
use crate::forms::{Sides, rule_of};
use crate::side::{Names, Words, prefix_for, side_of};
use ras_front_end::{Edition, FrontEnd};
use rust_report::lines_of;
use std::alloc::{AllocError, Global};
use tree_match::Rule;

const ARROW: &str = "==>>";

// The text without white space at its ends, and where it starts.
fn trimmed(text: &str) -> (usize, &str) {
    let front = text.trim_start();
    (text.len().saturating_sub(front.len()), front.trim_end())
}

// A refusal whose offset is one of the text.
fn within(error: RuleError, text: &str) -> RuleError
    ensures offset { result.offset ≤ length text.now }
    ensures fault { result.fault ≡ error.fault }
{
    let RuleError { fault, offset } = error;
    RuleError {
        fault,
        offset: offset.min(text.len()),
    }
}

/// The rule of a text `PATTERN ==>> TEMPLATE`: for each kind of syntax that both sides are, of
/// expressions, types, patterns, paths, statements and items. In them `$name` is a placeholder: any
/// expression, type, pattern or path where one stands there, and a word where it is a name or of
/// two of these sorts. A placeholder that comes again stands for the same tree; `$_` is a new one
/// each time. `$$name` stands for the elements of a list, as arguments or statements, but for as
/// many as the pattern has behind it. `${name:kind(literal)}` stands only for a literal,
/// `${name:text(/^_/)}` only for what has a text in which the regular expression is found, and
/// `${name:not(kind(literal))}` only for what is no literal; more conditions may follow, each
/// behind a `:`.
///
/// # Errors
///
/// [`RuleFault`] says what is wrong, and the offset where, in bytes of the text.
pub fn parse_rule<F: FrontEnd>(
    alloc: Global,
    front: &F,
    edition: Edition,
    text: &str,
) -> Result<Rule, RuleError>
    ensures refused { IfErr result (λ e. e.offset ≤ length text.now) }
    ensures arrow { MatchResult result (λ _. HasOne text.now) (λ e. IsRuleFault text.now e.fault) }
{
    match full_rule(alloc, front, edition, text) {
        Ok(rule) => Ok(rule),
        Err(error) => Err(within(error, text)),
    }
}

// What is before the first `==>>` of a text, and what is behind it.
fn split(text: &str) -> Option<(&str, &str)>
    ensures { MatchOption result (HasArrow text.now → ⊥)
        (λ p. IsFirstSplit text.now p.0.now p.1.now) }
{
    text.split_once(ARROW)
}

// Where the first `==>>` of a text is.
fn arrow_at(text: &str) -> Option<usize>
    ensures { MatchOption result (HasArrow text.now → ⊥) (λ _. HasArrow text.now) }
{
    text.find(ARROW)
}

// The rule of a text with a template.
fn full_rule<F: FrontEnd>(
    alloc: Global,
    front: &F,
    edition: Edition,
    text: &str,
) -> Result<Rule, RuleError>
    ensures { MatchResult result (λ _. HasOne text.now) (λ e. IsRuleFault text.now e.fault) }
{
    let Some((pattern, template)) = split(text) else {
        return Err(fault(RuleFault::NoArrow, text.len()));
    };
    let base = pattern.len().saturating_add(ARROW.len());
    match arrow_at(template) {
        Some(at) => Err(fault(RuleFault::FurtherArrow, base.saturating_add(at))),
        None => two_sides(alloc, front, edition, text, pattern, template),
    }
}

// The rule of a pattern and a template, which are parts of a text.
fn two_sides<F: FrontEnd>(
    alloc: Global,
    front: &F,
    edition: Edition,
    text: &str,
    pattern: &str,
    template: &str,
) -> Result<Rule, RuleError>
    ensures { IfErr result (λ e. is_other e.fault ≡ true) }
{
    let base = text.len().saturating_sub(template.len());
    let prefix = prefix_for(alloc, text)?;
    let words = Words {
        front,
        edition,
        prefix: prefix.as_str(),
    };
    let mut names = Names::new(alloc);
    let (start, pattern) = trimmed(pattern);
    let pattern = side_of(alloc, &words, pattern, start, &mut names, true)?;
    let (skipped, template) = trimmed(template);
    let behind = base.saturating_add(skipped);
    let template = side_of(alloc, &words, template, behind, &mut names, false)?;
    let sides = Sides {
        pattern,
        template: Some(template),
        start,
    };
    rule_of(alloc, &words, &mut names, sides)
}

/// The rule of a pattern that is searched for only.
///
/// # Errors
///
/// Those of [`parse_rule`].
pub fn parse_pattern<F: FrontEnd>(
    alloc: Global,
    front: &F,
    edition: Edition,
    text: &str,
) -> Result<Rule, RuleError>
    ensures refused { IfErr result (λ e. e.offset ≤ length text.now) }
    ensures arrow { MatchResult result (λ _. HasArrow text.now → ⊥)
        (λ e. IsPatternFault text.now e.fault) }
{
    match search_rule(alloc, front, edition, text) {
        Ok(rule) => Ok(rule),
        Err(error) => Err(within(error, text)),
    }
}

// The rule of a text without a template.
fn search_rule<F: FrontEnd>(
    alloc: Global,
    front: &F,
    edition: Edition,
    text: &str,
) -> Result<Rule, RuleError>
    ensures { MatchResult result (λ _. HasArrow text.now → ⊥)
        (λ e. IsPatternFault text.now e.fault) }
{
    if let Some(at) = arrow_at(text) {
        return Err(fault(RuleFault::FurtherArrow, at));
    }
    one_side(alloc, front, edition, text)
}

// The rule of a pattern.
fn one_side<F: FrontEnd>(
    alloc: Global,
    front: &F,
    edition: Edition,
    text: &str,
) -> Result<Rule, RuleError>
    ensures { IfErr result (λ e. is_other e.fault ≡ true) }
{
    let prefix = prefix_for(alloc, text)?;
    let words = Words {
        front,
        edition,
        prefix: prefix.as_str(),
    };
    let mut names = Names::new(alloc);
    let (start, pattern) = trimmed(text);
    let pattern = side_of(alloc, &words, pattern, start, &mut names, true)?;
    let sides = Sides {
        pattern,
        template: None,
        start,
    };
    rule_of(alloc, &words, &mut names, sides)
}

/// Where the `$` of the first placeholder with a name is in a pattern; `None` if there is none.
/// `$$name` is another one, and what is in a string or in a comment is none.
///
/// # Errors
///
/// Those of [`parse_rule`] that are of placeholders.
pub fn placeholder_start<F: FrontEnd>(
    alloc: Global,
    front: &F,
    edition: Edition,
    text: &str,
    name: &str,
) -> Result<Option<usize>, RuleError>
    ensures { IfErr result (λ e. is_other e.fault ≡ true) }
{
    let prefix = prefix_for(alloc, text)?;
    let words = Words {
        front,
        edition,
        prefix: prefix.as_str(),
    };
    let mut names = Names::new(alloc);
    side_of(alloc, &words, text, 0, &mut names, true)?;
    Ok(names.start_of(name))
}

// The rule of a line: with a template if the line has `==>>`.
fn line_rule<F: FrontEnd>(
    alloc: Global,
    front: &F,
    edition: Edition,
    line: &str,
) -> Result<Rule, RuleError> {
    if arrow_at(line).is_some() {
        parse_rule(alloc, front, edition, line)
    } else {
        parse_pattern(alloc, front, edition, line)
    }
}

/// The rules of a text, one a line: each a pattern, or a pattern and its template with `==>>`
/// between them. Lines that are empty or begin with `#` are passed over, white space aside.
///
/// # Errors
///
/// That of the first line that is refused; its offset is that in the whole text.
pub fn parse_rules<F: FrontEnd>(
    alloc: Global,
    front: &F,
    edition: Edition,
    text: &str,
) -> Result<Vec<Rule>, RuleError>
    ensures each { IfOk result (λ rules. length rules.items ≡ rule_lines text.now) }
    ensures refused { IfErr result (λ e. e.offset ≤ length text.now) }
{
    match all_rules(alloc, front, edition, text) {
        Ok(rules) => Ok(rules),
        Err(error) => Err(within(error, text)),
    }
}

// Whether a line has a rule.
fn has_rule(line: &str) -> bool
    ensures { result ≡ has_rule line.now }
{
    let shown = line.trim_start();
    !shown.is_empty() && !shown.starts_with('#')
}

// A refusal of a line that starts at an offset.
fn moved(error: RuleError, start: usize) -> RuleError {
    let RuleError {
        fault: told,
        offset,
    } = error;
    fault(told, start.saturating_add(offset))
}

// The rule of a line that starts at an offset.
fn rule_at<F: FrontEnd>(
    alloc: Global,
    front: &F,
    edition: Edition,
    line: &str,
    start: usize,
) -> Result<Rule, RuleError> {
    match line_rule(alloc, front, edition, line) {
        Ok(rule) => Ok(rule),
        Err(error) => Err(moved(error, start)),
    }
}

// The rules of all lines.
fn all_rules<F: FrontEnd>(
    alloc: Global,
    front: &F,
    edition: Edition,
    text: &str,
) -> Result<Vec<Rule>, RuleError>
    ensures { IfOk result (λ rules. length rules.items ≡ rule_lines text.now) }
{
    let lines = lines_of(alloc, text)?;
    let mut rules = Vec::new(alloc);
    let mut start = 0usize;
    for line in &lines {
        if has_rule(line) {
            let rule = rule_at(alloc, front, edition, line, start)?;
            rules.push(rule).map_err(AllocError::from)?;
        }
        start = start.saturating_add(line.len());
    }
    Ok(rules)
}

// Where the line of the rule with an index starts.
fn start_of(alloc: Global, text: &str, index: usize) -> Result<usize, AllocError> {
    let lines = lines_of(alloc, text)?;
    let mut left = index;
    let mut start = 0usize;
    for line in &lines {
        if has_rule(line) {
            if left == 0 {
                return Ok(start);
            }
            left -= 1;
        }
        start = start.saturating_add(line.len());
    }
    Ok(start)
}

/// Where the line of the rule with an index starts in a text with a rule a line; the end of the
/// text if it has fewer.
///
/// # Errors
///
/// `AllocError` if memory runs out.
pub fn rule_start(alloc: Global, text: &str, index: usize) -> Result<usize, AllocError>
    ensures { IfOk result (λ o. o ≤ length text.now) }
{
    Ok(start_of(alloc, text, index)?.min(text.len()))
}
