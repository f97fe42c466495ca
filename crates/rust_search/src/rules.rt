//! Rules from a command line and from files.

ghost use Rattle.std.specs.Prelude.{◌≡◌, ◌≢◌, ◌<◌, [], None, IfOk, IfErr, IfSome, OnOk, IsTrue, length, option_map, slice_get};
ghost use Rattle.rust_search.specs.declared.rules.RulesError.TheVariants.{Memory};
ghost use Rattle.rust_rewrite.specs.Rules.{HasArrow, HasOne, rule_lines, is_bare};
ghost use Rattle.rust_search.specs.Rules.{IsPlaceOf, IsToldOf, IsNumberedOf, IsPatternRefused, IsRuleRefused, IsLineRefused, first_bare, IsBareTold, note_at, severity_at};

use crate::toml_rules;
use gitignore::Rule as Glob;
use line_index::LineIndex;
use ras_front_end::Edition;
use rule_plan::Severity;
use rust_front::Rust;
use rust_report::{Spot, Spots};
use rust_rewrite::{RuleError, RuleFault, parse_pattern, parse_rule, parse_rules, rule_start};
use std::alloc::{AllocError, Global};
use std::fmt;
use text_size::TextSize;
use tree_match::Rule;

/// A rule as a file of rules has it. Each text is empty if the file has none.
#[derive(Drop)]
pub struct Note {
    /// The number of the rule in the file, from 1.
    pub number: u64,
    /// The name of the rule.
    pub name: String,
    /// What is said where it matches.
    pub message: String,
    /// How severe a match is, if the file says so.
    pub severity: Option<Severity>,
    /// The globs of the files that it is for; none if it is for all.
    pub files: Vec<Glob>,
    /// Its pattern.
    pub pattern: String,
    /// Its template.
    pub template: String,
}

/// Rules that are searched for together. At one place the first that matches counts.
#[derive(Drop)]
pub struct RuleSet {
    /// The rules.
    pub rules: Vec<Rule>,
    /// What is said of each; fewer, or none, if nothing is said of the others.
    pub notes: Vec<Note>,
}

/// Why rules are refused.
#[derive(Drop)]
pub enum RulesError {
    /// A text is no rule, for what is at this place of it.
    Rule {
        at: Spot,
        fault: RuleFault,
    },
    /// A rule of a file is none, for what is at this place of `PATTERN ==>> TEMPLATE`. Its number
    /// counts from 1.
    Numbered {
        number: u64,
        at: Spot,
        fault: RuleFault,
    },
    /// The same of a rule whose pattern begins at this place of a TOML file.
    InFile {
        file: Spot,
        number: u64,
        at: Spot,
        fault: RuleFault,
    },
    /// A file is no TOML: what its parser says.
    Toml(String),
    /// At this place of a file a rule has something else than this under a key.
    Wrong {
        at: Spot,
        number: u64,
        key: &'static str,
        expected: &'static str,
    },
    /// At this place a TOML file has this in place of a table `[[rule]]`; an empty text if it has
    /// nothing.
    NoTable {
        at: Spot,
        found: String,
    },
    /// There is no rule.
    Empty,
    /// At this place of a file a rule begins that has no template, which is expected as this. Its
    /// number counts from 1.
    NoTemplate {
        at: Spot,
        number: u64,
        expected: &'static str,
    },
    /// Out of memory.
    Memory,
}

impl From<AllocError> for RulesError {
    ghost use Rattle.std.specs.Prelude.{◌≡◌};
    ghost use Rattle.rust_search.specs.declared.rules.RulesError.TheVariants.{Memory};

    ghost from_gives = { λ _ e. e ≡ Memory };

    fn from(_error: AllocError) -> RulesError {
        RulesError::Memory
    }
}

// What is wrong with the rule with a number, at a place of its texts.
fn write_numbered<W: fmt::Write>(
    f: &mut fmt::Formatter<W>,
    number: u64,
    at: Spot,
    fault: &RuleFault,
) -> fmt::Result {
    write!(f, "rule {number}, {at} of `PATTERN ==>> TEMPLATE`: {fault}")
}

// What is wrong under a key of the rule with a number.
fn write_wrong<W: fmt::Write>(
    f: &mut fmt::Formatter<W>,
    at: Spot,
    number: u64,
    key: &str,
    expected: &str,
) -> fmt::Result {
    write!(f, "{at}: rule {number}: {key}: expected {expected}")
}

fn write_no_table<W: fmt::Write>(f: &mut fmt::Formatter<W>, at: Spot, found: &str) -> fmt::Result {
    if found.is_empty() {
        return write!(f, "{at}: expected a table `[[rule]]`");
    }
    write!(f, "{at}: expected a table `[[rule]]`, not `{found}`")
}

fn write_no_template<W: fmt::Write>(
    f: &mut fmt::Formatter<W>,
    at: Spot,
    number: u64,
    expected: &str,
) -> fmt::Result {
    write!(
        f,
        "{at}: rule {number}: expected {expected}; only `search` takes a rule without one"
    )
}

impl fmt::Display for RulesError {
    fn fmt<W: fmt::Write>(&self, f: &mut fmt::Formatter<W>) -> fmt::Result {
        match self {
            RulesError::Rule { at, fault } => write!(f, "{at}: {fault}"),
            RulesError::Numbered { number, at, fault } => write_numbered(f, *number, *at, fault),
            RulesError::InFile {
                file,
                number,
                at,
                fault,
            } => {
                write!(f, "{file}: ")?;
                write_numbered(f, *number, *at, fault)
            }
            RulesError::Toml(message) => f.write_str(message.as_str()),
            RulesError::Wrong {
                at,
                number,
                key,
                expected,
            } => write_wrong(f, *at, *number, key, expected),
            RulesError::NoTable { at, found } => write_no_table(f, *at, found.as_str()),
            RulesError::Empty => f.write_str("expected a rule"),
            RulesError::NoTemplate {
                at,
                number,
                expected,
            } => write_no_template(f, *at, *number, expected),
            RulesError::Memory => f.write_str("out of memory"),
        }
    }
}

// The line and the column of an offset of a text; those of its start if no character starts there.
#[tactic(auto, using(crate::proofs::RuleLemmas::spot_there, crate::proofs::RuleLemmas::no_spot, crate::proofs::RuleLemmas::too_long, crate::proofs::RuleLemmas::past_end))]
pub(crate) fn place_of(alloc: Global, text: &str, offset: usize) -> Result<Spot, AllocError>
    ensures { IfOk result (IsPlaceOf text.now offset) }
{
    let start = Spot { line: 1, column: 1 };
    if text.len() > u32::MAX as usize {
        return Ok(start);
    }
    if offset > text.len() {
        return Ok(start);
    }
    let spots = Spots::new(LineIndex::new(alloc, text)?);
    match spots.spot(TextSize::new(offset as u32)) {
        Some(at) => Ok(at),
        None => Ok(start),
    }
}

// A refusal of a text, at its place.
fn placed(alloc: Global, text: &str, error: RuleError) -> RulesError
    ensures { IsToldOf text.now error result }
{
    let RuleError { fault, offset } = error;
    match place_of(alloc, text, offset) {
        Ok(at) => RulesError::Rule { at, fault },
        Err(_) => RulesError::Memory,
    }
}

// The refusal of the rule with a number, at its place.
pub(crate) fn numbered(alloc: Global, number: u64, text: &str, error: RuleError) -> RulesError
    ensures { IsNumberedOf number text.now error result }
{
    let RuleError { fault, offset } = error;
    match place_of(alloc, text, offset) {
        Ok(at) => RulesError::Numbered { number, at, fault },
        Err(_) => RulesError::Memory,
    }
}

// One rule, of which nothing is said.
fn set_of(alloc: Global, rule: Rule) -> Result<RuleSet, RulesError>
    ensures one { IfOk result (λ set. length set.rules.items ≡ 1) }
    ensures unsaid { IfOk result (λ set. set.notes.items ≡ []) }
    ensures memory { IfErr result (λ e. e ≡ Memory) }
{
    let mut rules = Vec::new(alloc);
    rules.push(rule).map_err(AllocError::from)?;
    Ok(RuleSet {
        rules,
        notes: Vec::new(alloc),
    })
}

/// The rule of a pattern, to be searched for.
///
/// # Errors
///
/// `Rule` with the line and column of what is wrong; `Memory`.
#[tactic(auto, using(crate::proofs::RuleLemmas::pattern_told, crate::proofs::RuleLemmas::pattern_lost))]
pub fn one_pattern(alloc: Global, text: &str) -> Result<RuleSet, RulesError>
    ensures one { IfOk result (λ set. length set.rules.items ≡ 1) }
    ensures unsaid { IfOk result (λ set. set.notes.items ≡ []) }
    ensures pattern { OnOk result (HasArrow text.now → ⊥) }
    ensures refused { IfErr result (IsPatternRefused text.now) }
{
    match parse_pattern(alloc, &Rust, Edition::CURRENT, text) {
        Ok(rule) => {
            let set = set_of(alloc, rule)?;
            Ok(set)
        }
        Err(error) => Err(placed(alloc, text, error)),
    }
}

/// The rule of a text `PATTERN ==>> TEMPLATE`.
///
/// # Errors
///
/// Those of [`one_pattern`].
#[tactic(auto, using(crate::proofs::RuleLemmas::rule_told, crate::proofs::RuleLemmas::rule_lost))]
pub fn one_rule(alloc: Global, text: &str) -> Result<RuleSet, RulesError>
    ensures one { IfOk result (λ set. length set.rules.items ≡ 1) }
    ensures unsaid { IfOk result (λ set. set.notes.items ≡ []) }
    ensures rule { OnOk result (HasOne text.now) }
    ensures refused { IfErr result (IsRuleRefused text.now) }
{
    match parse_rule(alloc, &Rust, Edition::CURRENT, text) {
        Ok(rule) => {
            let set = set_of(alloc, rule)?;
            Ok(set)
        }
        Err(error) => Err(placed(alloc, text, error)),
    }
}

/// The rules of a text, one a line, as [`parse_rules`] reads them.
///
/// # Errors
///
/// Those of [`one_pattern`].
#[tactic(auto, using(crate::proofs::RuleLemmas::line_told))]
pub fn rules_of_lines(alloc: Global, text: &str) -> Result<RuleSet, RulesError>
    ensures each { IfOk result (λ set. length set.rules.items ≡ rule_lines text.now) }
    ensures unsaid { IfOk result (λ set. set.notes.items ≡ []) }
    ensures refused { IfErr result (IsLineRefused text.now) }
{
    match parse_rules(alloc, &Rust, Edition::CURRENT, text) {
        Ok(rules) => Ok(RuleSet {
            rules,
            notes: Vec::new(alloc),
        }),
        Err(error) => Err(placed(alloc, text, error)),
    }
}

fn is_bare(rule: &Rule) -> bool
    ensures { result ≡ is_bare rule.now }
{
    rule.pieces().is_empty()
}

// The index of the first rule without a template.
fn first_bare(rules: &[Rule]) -> Option<usize>
    ensures first { result ≡ first_bare 0 rules.now }
    ensures within { IfSome result (λ n. n < length rules.now) }
{
    for (number, rule) in rules.iter().enumerate() {
        if is_bare(rule) {
            return Some(number);
        }
    }
    None
}

// The place of a rule without a template, and what is expected there.
fn place_of_bare(
    alloc: Global,
    name: &str,
    text: &str,
    number: usize,
) -> Result<(Spot, &'static str), AllocError> {
    if is_toml(name) {
        let number = (number as u64).saturating_add(1);
        let at = toml_rules::spot_of(alloc, text, number, "template")?;
        return Ok((at, "a `template`"));
    }
    let at = place_of(alloc, text, rule_start(alloc, text, number)?)?;
    Ok((at, "`==>>` and a template"))
}

// Refuses rules without a template.
fn check_templates(alloc: Global, name: &str, text: &str, rules: &[Rule]) -> Result<(), RulesError>
    ensures all { OnOk result (first_bare 0 rules.now ≡ None) }
    ensures first { IfErr result (IsBareTold (first_bare 0 rules.now)) }
{
    match first_bare(rules) {
        None => Ok(()),
        Some(number) => match place_of_bare(alloc, name, text, number) {
            Ok((at, expected)) => Err(RulesError::NoTemplate {
                at,
                number: number as u64 + 1,
                expected,
            }),
            Err(_) => Err(RulesError::Memory),
        },
    }
}

fn is_toml(name: &str) -> bool {
    name.ends_with(".toml")
}

/// The rules of a file: TOML if its name ends with `.toml`, and otherwise one a line. If they are
/// to replace, each must have a template.
///
/// # Errors
///
/// Why they are refused.
pub fn rules_of(
    alloc: Global,
    name: &str,
    text: &str,
    replaces: bool,
) -> Result<RuleSet, RulesError>
    ensures some { IfOk result (λ set. set.rules.items ≢ []) }
    ensures templates { IfOk result (λ set. IsTrue replaces → first_bare 0 set.rules.items ≡ None) }
{
    let set = read_rules(alloc, name, text)?;
    if set.rules.is_empty() {
        return Err(RulesError::Empty);
    }
    if replaces {
        check_templates(alloc, name, text, &set.rules)?;
    }
    Ok(set)
}

// The rules of a file.
fn read_rules(alloc: Global, name: &str, text: &str) -> Result<RuleSet, RulesError> {
    if is_toml(name) {
        toml_rules::read(alloc, text)
    } else {
        rules_of_lines(alloc, text)
    }
}

// What is said of the rule with a number.
fn noted(notes: &[Note], number: usize) -> Option<&Note>
    ensures { option_map (λ n. n.now) result ≡ slice_get notes.now number }
{
    notes.get(number)
}

// The severity of the rule with a number, if the file says one.
fn severity_at(notes: &[Note], number: usize) -> Option<Severity>
    ensures { result ≡ severity_at (slice_get notes.now number) }
{
    match noted(notes, number) {
        Some(note) => note.severity,
        None => None,
    }
}

impl RuleSet {
    /// What is said of a rule: its name and its message, each empty if there is none.
    pub fn note(&self, number: usize) -> (&str, &str)
        ensures { (result.0.now, result.1.now) ≡ note_at (slice_get self.now.notes.items number) }
    {
        match noted(&self.notes, number) {
            Some(note) => (note.name.as_str(), note.message.as_str()),
            None => ("", ""),
        }
    }

    /// How severe a match of a rule is; `None` if nothing is said of it.
    pub fn severity(&self, number: usize) -> Option<Severity>
        ensures { result ≡ severity_at (slice_get self.now.notes.items number) }
    {
        severity_at(&self.notes, number)
    }

    /// The number of a rule in its file, from 1.
    pub fn number(&self, number: usize) -> u64 {
        match noted(&self.notes, number) {
            Some(note) => note.number,
            None => (number as u64).saturating_add(1),
        }
    }
}
