//! Rules of a TOML file: tables `[[rule]]` with the texts `pattern`, `template`, `name`, `message`
//! and `severity`, of which only the first must be there, `where`, a condition or a list of
//! conditions, and `files`, a glob or a list of globs. For tests they may have `example` and
//! `becomes`; no other keys.

ghost use Rattle.std.specs.Prelude.{◌≡◌, IfOk, OnOk, length};
ghost use Rattle.rust_search.specs.Rules.{IsSeverityBy};

use crate::conditions::with_where;
use crate::rules::{Note, RuleSet, RulesError, numbered, place_of};
use crate::toml_place::{key_at, value_at};
use gitignore::{Rule as Glob, rule_of};
use ras_front_end::Edition;
use rule_plan::Severity;
use rust_front::Rust;
use rust_report::Spot;
use rust_rewrite::{parse_pattern, parse_rule};
use std::alloc::{AllocError, Global};
use toml::{Table, Value};
use tree_match::Rule;

// What a value is to be.
const TEXT: &str = "a text";

const SEVERITY: &str = "\"error\", \"warning\", \"note\" or \"help\"";

const GLOBS: &str = "a glob or a list of globs";

const CONDITIONS: &str = "a placeholder of the pattern with a condition, as \"$a:kind(literal)\"";

const KEYS: &str =
    "`name`, `message`, `pattern`, `where`, `template`, `severity`, `files`, `example` or `becomes`";

// Why a table is refused: under this key it has not what is expected.
#[derive(Clone, Copy)]
struct Fault {
    key: &'static str,
    expected: &'static str,
}

// Why a table has no rule.
#[derive(Drop)]
enum Trouble {
    // The value of a key.
    Value(Fault),
    // A key of this name.
    Key(String),
    // The rule itself, or memory.
    Rule(RulesError),
}

impl From<AllocError> for Trouble {
    fn from(_error: AllocError) -> Trouble {
        Trouble::Rule(RulesError::Memory)
    }
}

// The text of a key; empty if there is none.
fn text_of<'a>(table: &'a Value, key: &'static str) -> Result<&'a str, Trouble> {
    match table.get(key) {
        None => Ok(""),
        Some(value) => match value.as_str() {
            Some(text) => Ok(text),
            None => Err(Trouble::Value(Fault {
                key,
                expected: TEXT,
            })),
        },
    }
}

// The same as a text of its own.
fn copy_of(alloc: Global, table: &Value, key: &'static str) -> Result<String, Trouble> {
    Ok(String::from_str(alloc, text_of(table, key)?)?)
}

// The severity of a name.
fn named(name: &str) -> Result<Severity, Trouble>
    ensures { IfOk result (IsSeverityBy name.now) }
{
    match Severity::named(name) {
        Some(severity) => Ok(severity),
        None => Err(Trouble::Value(Fault {
            key: "severity",
            expected: SEVERITY,
        })),
    }
}

// The severity of a table, if it says one.
fn severity_of(table: &Value) -> Result<Option<Severity>, Trouble> {
    match table.get("severity") {
        None => Ok(None),
        Some(value) => Ok(Some(named(value.as_str().unwrap_or(""))?)),
    }
}

fn not_globs() -> Trouble {
    Trouble::Value(Fault {
        key: "files",
        expected: GLOBS,
    })
}

// Adds the glob of a value. One that names nothing, as a comment or an open bracket, is none.
fn push_glob(alloc: Global, globs: &mut Vec<Glob>, value: &Value) -> Result<(), Trouble> {
    let Some(text) = value.as_str() else {
        return Err(not_globs());
    };
    let glob = rule_of(alloc, text.as_bytes())?;
    match &glob.glob {
        Some(pieces) if !pieces.is_empty() => {}
        _ => return Err(not_globs()),
    }
    globs.push(glob).map_err(AllocError::from)?;
    Ok(())
}

fn no_condition() -> Trouble {
    Trouble::Value(Fault {
        key: "where",
        expected: CONDITIONS,
    })
}

// A pattern with the condition of a value.
fn with_value(alloc: Global, pattern: &str, value: &Value, number: u64) -> Result<String, Trouble> {
    let Some(text) = value.as_str() else {
        return Err(no_condition());
    };
    match with_where(alloc, pattern, text) {
        Ok(Some(pattern)) => Ok(pattern),
        Ok(None) => Err(no_condition()),
        Err(error) => Err(Trouble::Rule(numbered(alloc, number, pattern, error))),
    }
}

// The pattern of a table, with its conditions.
fn pattern_of(alloc: Global, table: &Value, number: u64) -> Result<String, Trouble> {
    let mut pattern = copy_of(alloc, table, "pattern")?;
    if pattern.is_empty() {
        return Err(Trouble::Value(Fault {
            key: "pattern",
            expected: TEXT,
        }));
    }
    match table.get("where") {
        None => {}
        Some(Value::Array(values)) => {
            for value in values {
                pattern = with_value(alloc, pattern.as_str(), value, number)?;
            }
        }
        Some(value) => pattern = with_value(alloc, pattern.as_str(), value, number)?,
    }
    Ok(pattern)
}

fn is_known(key: &str) -> bool {
    matches!(key, "name" | "message" | "pattern" | "where" | "template")
        || matches!(key, "severity" | "files" | "example" | "becomes")
}

// Refuses a table that has a key of no meaning, as a misspelled one.
fn refuse_unknown(alloc: Global, table: &Value) -> Result<(), Trouble> {
    if let Value::Table(table) = table {
        for key in table.keys() {
            if !is_known(key.as_str()) {
                return Err(Trouble::Key(String::from_str(alloc, key.as_str())?));
            }
        }
    }
    Ok(())
}

// The globs of a table; none if it is for all files.
fn files_of(alloc: Global, table: &Value) -> Result<Vec<Glob>, Trouble> {
    let mut globs = Vec::new(alloc);
    match table.get("files") {
        None => return Ok(globs),
        Some(Value::Array(values)) => {
            for value in values {
                push_glob(alloc, &mut globs, value)?;
            }
        }
        Some(value) => push_glob(alloc, &mut globs, value)?,
    }
    if globs.is_empty() {
        return Err(not_globs());
    }
    Ok(globs)
}

// The rule of a pattern and a template; of the pattern alone if the template is empty.
pub(crate) fn rule_by(
    alloc: Global,
    pattern: &str,
    template: &str,
    number: u64,
) -> Result<Rule, RulesError> {
    if template.is_empty() {
        return match parse_pattern(alloc, &Rust, Edition::CURRENT, pattern) {
            Ok(rule) => Ok(rule),
            Err(error) => Err(numbered(alloc, number, pattern, error)),
        };
    }
    let text = format!(in alloc; "{pattern} ==>> {template}")?;
    match parse_rule(alloc, &Rust, Edition::CURRENT, text.as_str()) {
        Ok(rule) => Ok(rule),
        Err(error) => Err(numbered(alloc, number, text.as_str(), error)),
    }
}

// What a table says of its rule.
fn note_of(alloc: Global, table: &Value, number: u64) -> Result<Note, Trouble> {
    refuse_unknown(alloc, table)?;
    Ok(Note {
        number,
        name: copy_of(alloc, table, "name")?,
        message: copy_of(alloc, table, "message")?,
        severity: severity_of(table)?,
        files: files_of(alloc, table)?,
        pattern: pattern_of(alloc, table, number)?,
        template: copy_of(alloc, table, "template")?,
    })
}

// A note with its rule.
fn noted_rule(alloc: Global, table: &Value, number: u64) -> Result<(Note, Rule), Trouble> {
    let note = note_of(alloc, table, number)?;
    match rule_by(alloc, note.pattern.as_str(), note.template.as_str(), number) {
        Ok(rule) => Ok((note, rule)),
        Err(error) => Err(Trouble::Rule(error)),
    }
}

// Adds a rule and what is said of it.
pub(crate) fn push_noted(set: &mut RuleSet, note: Note, rule: Rule) -> Result<(), AllocError>
    requires { length set.old.notes.items ≡ length set.old.rules.items }
    ensures { OnOk result (length set.new.notes.items ≡ length set.new.rules.items) }
{
    set.rules.push(rule)?;
    set.notes.push(note)?;
    Ok(())
}

// Adds the rule of a table.
fn push_rule(alloc: Global, set: &mut RuleSet, table: &Value, number: u64) -> Result<(), Trouble>
    requires { length set.old.notes.items ≡ length set.old.rules.items }
    ensures { OnOk result (length set.new.notes.items ≡ length set.new.rules.items) }
{
    let (note, rule) = noted_rule(alloc, table, number)?;
    push_noted(set, note, rule)?;
    Ok(())
}

// The place of the value of a key of the rule with a number in the file.
pub(crate) fn spot_of(
    alloc: Global,
    text: &str,
    number: u64,
    key: &str,
) -> Result<Spot, AllocError> {
    place_of(alloc, text, value_at(alloc, text, number, key).unwrap_or(0))
}

// The refusal of the rule with a number, at its place in the file.
fn refused(alloc: Global, text: &str, number: u64, trouble: Trouble) -> RulesError {
    let (spot, key, expected) = match trouble {
        Trouble::Rule(RulesError::Numbered { number, at, fault }) => {
            return match spot_of(alloc, text, number, "pattern") {
                Ok(file) => RulesError::InFile {
                    file,
                    number,
                    at,
                    fault,
                },
                Err(_) => RulesError::Memory,
            };
        }
        Trouble::Rule(error) => return error,
        Trouble::Key(name) => (spot_of(alloc, text, number, name.as_str()), "key", KEYS),
        Trouble::Value(Fault { key, expected }) => {
            (spot_of(alloc, text, number, key), key, expected)
        }
    };
    match spot {
        Ok(at) => RulesError::Wrong {
            at,
            number,
            key,
            expected,
        },
        Err(_) => RulesError::Memory,
    }
}

// What the parser says of a text, on one line.
fn refusal(alloc: Global, error: &toml::de::Error) -> RulesError {
    match format!(in alloc; "{error}") {
        Ok(text) => {
            let line = text.as_str().trim_end();
            match line.split_once('\n') {
                None => RulesError::Toml(text),
                Some((place, message)) => match format!(in alloc; "{place}: {message}") {
                    Ok(text) => RulesError::Toml(text),
                    Err(_) => RulesError::Memory,
                },
            }
        }
        Err(_) => RulesError::Memory,
    }
}

// A key with its value as they are written in the file.
fn written(alloc: Global, key: &str, value: &Value) -> Result<String, AllocError> {
    Ok(match value {
        Value::Array(values) if matches!(values.first(), Some(Value::Table(_))) => {
            format!(in alloc; "[[{key}]]")?
        }
        Value::Table(_) => format!(in alloc; "[{key}]")?,
        _ => format!(in alloc; "{key} = ..")?,
    })
}

// What a file has in place of a rule, and where: what is named `rule`, or its first key.
fn other_than_rule(alloc: Global, text: &str, table: &Table) -> Result<(Spot, String), AllocError> {
    let first = match table.get("rule") {
        Some(value) => Some(("rule", value)),
        None => table
            .iter()
            .next()
            .map(|(key, value)| (key.as_str(), value)),
    };
    let Some((key, value)) = first else {
        return Ok((Spot { line: 1, column: 1 }, String::new(alloc)));
    };
    let at = place_of(alloc, text, key_at(alloc, text, key).unwrap_or(0))?;
    Ok((at, written(alloc, key, value)?))
}

// The refusal of a file that has no rule.
fn no_rule(alloc: Global, text: &str, table: &Table) -> RulesError {
    match other_than_rule(alloc, text, table) {
        Ok((at, found)) => RulesError::NoTable { at, found },
        Err(_) => RulesError::Memory,
    }
}

/// The rules of a text.
pub(crate) fn read(alloc: Global, text: &str) -> Result<RuleSet, RulesError>
    ensures { IfOk result (λ set. length set.notes.items ≡ length set.rules.items) }
{
    let mut set = RuleSet {
        rules: Vec::new(alloc),
        notes: Vec::new(alloc),
    };
    let table = match toml::table_from_str(alloc, text) {
        Ok(table) => table,
        Err(error) => return Err(refusal(alloc, &error)),
    };
    let tables = match table.get("rule") {
        Some(Value::Array(tables)) if !tables.is_empty() => tables,
        _ => return Err(no_rule(alloc, text, &table)),
    };
    let mut number = 1u64;
    for table in tables {
        if let Err(trouble) = push_rule(alloc, &mut set, table, number) {
            return Err(refused(alloc, text, number, trouble));
        }
        number = number.saturating_add(1);
    }
    Ok(set)
}
