//! Which rules of a set are for a file.
ghost use Rattle.std.specs.Prelude.{◌≡◌, ◌++◌, ◌∷◌, [], if◌then◌else◌, IfOk, OnOk, length};
ghost use Rattle.std.specs.List.{list_all};
ghost use Rattle.rust_search.specs.Rules.{is_for_all, is_for, numbers_for};

use crate::rules::{Note, RuleSet, RulesError};
use crate::toml_rules::{push_noted, rule_by};
use gitignore::chooses;
use std::alloc::{AllocError, Global};

/// The path of a file as the globs of rules see it: as it is printed, without a `./` in front of
/// it. An absolute path is counted from the folder whose search found the file, if there is one.
pub fn path_in<'a>(name: &'a str, folder: Option<&str>) -> &'a str {
    let path = match folder {
        Some(folder) if name.starts_with('/') => name.strip_prefix(folder).unwrap_or(name),
        _ => name.strip_prefix("./").unwrap_or(name),
    };
    path.trim_start_matches('/')
}

// Whether a rule is for a file.
fn is_for(alloc: Global, note: &Note, path: &str) -> Result<bool, AllocError>
    ensures { IfOk result (λ yes. yes ≡ is_for note.now path.now) }
{
    chooses(alloc, note.files.as_slice(), path.as_bytes())
}

// Adds the number of a rule, if it is for a file.
fn push_number(
    alloc: Global,
    numbers: &mut Vec<usize>,
    number: usize,
    note: &Note,
    path: &str,
) -> Result<(), AllocError>
    ensures { OnOk result (numbers.new.items
        ≡ numbers.old.items ++ (if is_for note.now path.now then number ∷ [] else [])) }
{
    if is_for(alloc, note, path)? {
        numbers.push(number)?;
    }
    Ok(())
}

// A copy of a rule's texts, without its globs: of a set for one file nothing is chosen again.
fn copied(alloc: Global, note: &Note) -> Result<Note, AllocError> {
    Ok(Note {
        number: note.number,
        name: String::from_str(alloc, note.name.as_str())?,
        message: String::from_str(alloc, note.message.as_str())?,
        severity: note.severity,
        files: Vec::new(alloc),
        pattern: String::from_str(alloc, note.pattern.as_str())?,
        template: String::from_str(alloc, note.template.as_str())?,
    })
}

// Adds a rule of another set, by what is said of it.
fn push_copy(alloc: Global, set: &mut RuleSet, note: &Note) -> Result<(), RulesError>
    requires { length set.old.notes.items ≡ length set.old.rules.items }
    ensures { OnOk result (length set.new.notes.items ≡ length set.new.rules.items) }
{
    let (pattern, template) = (note.pattern.as_str(), note.template.as_str());
    let rule = rule_by(alloc, pattern, template, note.number)?;
    push_noted(set, copied(alloc, note)?, rule)?;
    Ok(())
}

impl RuleSet {
    /// Whether all rules are for all files.
    pub fn is_for_all(&self) -> bool
        ensures { result ≡ list_all is_for_all self.now.notes.items }
    {
        self.notes.iter().all(|note| note.files.is_empty())
    }

    /// The numbers of the notes of those rules, from 0, that are for a file, by its path as
    /// [`path_in`] gives it.
    ///
    /// # Errors
    ///
    /// `AllocError` if memory runs out.
    pub fn numbers_for(&self, alloc: Global, path: &str) -> Result<Vec<usize>, AllocError>
        ensures { IfOk result
            (λ numbers. numbers.items ≡ numbers_for 0 path.now self.now.notes.items) }
    {
        let mut numbers = Vec::new(alloc);
        for (number, note) in self.notes.iter().enumerate() {
            push_number(alloc, &mut numbers, number, note, path)?;
        }
        Ok(numbers)
    }

    /// The set of the rules with these numbers, in this order. Those that there are not are passed
    /// over.
    ///
    /// # Errors
    ///
    /// `Memory` if memory runs out.
    pub fn only(&self, alloc: Global, numbers: &[usize]) -> Result<RuleSet, RulesError>
        ensures { IfOk result (λ set. length set.notes.items ≡ length set.rules.items) }
    {
        let mut set = RuleSet {
            rules: Vec::new(alloc),
            notes: Vec::new(alloc),
        };
        for number in numbers {
            if let Some(note) = self.notes.get(*number) {
                push_copy(alloc, &mut set, note)?;
            }
        }
        Ok(set)
    }
}

/// The rules for the file that was looked at last, so that they are chosen again only for a file
/// that others are for.
#[derive(Drop)]
pub struct Chosen {
    numbers: Vec<usize>,
    set: Option<RuleSet>,
}

impl Chosen {
    /// None yet.
    pub fn new(alloc: Global) -> Chosen {
        Chosen {
            numbers: Vec::new(alloc),
            set: None,
        }
    }

    /// The rules of a set for a file, by its path as [`path_in`] gives it; each call has to be with
    /// the same set. Takes the time of a comparison of the path with each glob, and where other
    /// rules are for the file than for the one before, that of a parse of them.
    ///
    /// # Errors
    ///
    /// `Memory` if memory runs out.
    pub fn rules_for<'a>(
        &'a mut self,
        alloc: Global,
        whole: &'a RuleSet,
        path: &str,
    ) -> Result<&'a RuleSet, RulesError> {
        if whole.is_for_all() {
            return Ok(whole);
        }
        let numbers = whole.numbers_for(alloc, path)?;
        if self.set.is_none() || self.numbers.as_slice() != numbers.as_slice() {
            self.set = Some(whole.only(alloc, numbers.as_slice())?);
            self.numbers = numbers;
        }
        match &self.set {
            Some(set) => Ok(set),
            None => Ok(whole),
        }
    }
}
