//! The matches of rules in a text and in the arguments of its macro calls, and what replaces them.
ghost use Rattle.std.specs.Prelude.{◌≡◌, ◌∷◌, [], ◌++◌, IfOk, IfSome, OnOk, map, filter_map, option_map, string_bytes};
ghost use Rattle.std.specs.List.Sorted.{IsPermutation, IsSortedByKey};
ghost use Rattle.text_edit.specs.Replacements.{edited};
ghost use Rattle.tree_match.specs.Finds.{occurrence_of, found_in};
ghost use Rattle.rust_print.specs.Readings.{IsReadAs};
ghost use Rattle.rust_rules.specs.Macros.{found_of, found_outward, AreFoundInLists, place_key, place_cmp, AreFoundWithin, replacement_of, together, changed, change_outward, IsRewritingOf, IsOutside, AreOutside, AreChangesInLists, all_or, IsAnswerWithin};

use crate::lists::{DEPTH, file_of, lists_of, outward, read_list};
use lossless_tree::{SyntaxNode, TextRange, TextSize};
use ras_front_end::ParseError;
use ras_parsing::Parse;
use rust_front::Rust;
use rust_print::failure::Failure;
use rust_print::source::{Reading, parsed};
use rust_rewrite::{Match, RewriteError, Rewritten, Rule, find, rewrite_matches};
use std::alloc::{AllocError, Global};
use text_edit::{Indel, OverlapError, TextEdit};

const OTHERWISE: &str = "the new text would not be read as meant";

// Why a text was not rewritten.
fn failure_of(error: RewriteError) -> Failure {
    match error {
        RewriteError::Memory => Failure::Text(ParseError::Memory),
        RewriteError::TooLong => Failure::Kept("the new text would be too long"),
        RewriteError::ReadsOtherwise => Failure::Kept(OTHERWISE),
        RewriteError::LosesComment => Failure::Kept("a comment would be lost"),
    }
}

/// A place where a rule matches.
#[derive(Clone, Copy, Debug)]
pub struct Found {
    /// The number of the rule.
    pub rule: usize,
    /// Where it matches.
    pub range: TextRange,
}

/// A text with its matches replaced.
#[derive(Drop)]
pub struct Replaced {
    /// The matches that are in no other match, in the order of the text: what replaces each is the
    /// replacement with its place among these.
    pub places: Vec<Found>,
    /// What replaces them.
    pub edit: TextEdit,
    /// The new text.
    pub text: String,
}

fn found_of(found: &Match) -> Found
    ensures { result ≡ found_of (occurrence_of found.now) }
{
    Found {
        rule: found.rule,
        range: found.range,
    }
}

/// Matches, by their rules and places.
pub(crate) fn all_found(alloc: Global, matches: &[Match]) -> Result<Vec<Found>, AllocError>
    ensures { IfOk result (λ f. f.items ≡ map found_of (map occurrence_of matches.now)) }
{
    let mut found = Vec::with_capacity(alloc, matches.len())?;
    for one in matches {
        found.push(found_of(one))?;
    }
    Ok(found)
}

// Adds those matches that are in no other one.
fn push_outer(outer: &mut Vec<Found>, matches: &[Match]) -> Result<(), AllocError> {
    let mut end = 0u32;
    for found in matches {
        if end <= found.range.start().raw() {
            outer.push(found_of(found))?;
            end = found.range.end().raw();
        }
    }
    Ok(())
}

// Sorts matches by where they start. Of those that start together the longest comes first.
fn sort(found: &mut Vec<Found>)
    ensures same { IsPermutation found.old.items found.new.items }
    ensures sorted { IsSortedByKey place_key place_cmp found.new.items }
{
    found.sort_unstable_by_key(|it| {
        let range = it.range;
        (range.start().raw(), u32::MAX - range.end().raw(), it.rule)
    });
}

// Where a match in a file of arguments is in the text around it. `None` if it is not in the
// arguments.
fn found_outward(found: Found, list: TextRange) -> Option<Found>
    ensures { result ≡ found_outward list found }
{
    let range = outward(found.range, list)?;
    Some(Found {
        rule: found.rule,
        range,
    })
}

// Adds the matches in a file of arguments, as matches in the text around it. One that is not in the
// arguments is left out.
fn push_outward(found: &mut Vec<Found>, inner: &[Found], list: TextRange) -> Result<(), AllocError>
    ensures { OnOk result
        (found.new.items ≡ found.old.items ++ filter_map (found_outward list) inner.now) }
{
    for one in inner {
        if let Some(one) = found_outward(*one, list) {
            found.push(one)?;
        }
    }
    Ok(())
}

// The matches in a tree, and behind them others.
fn found_before(
    alloc: Global,
    root: &SyntaxNode,
    rules: &[Rule],
    mut inner: Vec<Found>,
) -> Result<Vec<Found>, AllocError>
    ensures { IfOk result
        (λ f. f.items ≡ map found_of (found_in rules.now root.now) ++ inner.items) }
{
    let mut found = all_found(alloc, &find(alloc, rules, root)?)?;
    found.append(&mut inner)?;
    Ok(found)
}

// The matches in the arguments of the macros of a parse, which are looked into so deep.
#[tactic(auto, using(crate::proofs::EachLemmas::none_done, crate::proofs::EachLemmas::not_deep))]
fn found_in_lists(
    alloc: Global,
    text: &str,
    parse: &Parse<SyntaxNode>,
    rules: &[Rule],
    reading: Reading,
    depth: u32,
) -> Result<Vec<Found>, Failure>
    ensures { IfOk result
        (λ f. AreFoundInLists reading rules.now depth text.now parse.now f.items) }
{
    let mut found = Vec::new(alloc);
    if depth == 0 {
        return Ok(found);
    }
    let lists = lists_of(alloc, parse.root())?;
    for list in &lists {
        let file = file_of(alloc, text, *list)?;
        let Some(below) = read_list(alloc, file.as_str(), reading)? else {
            continue;
        };
        let inner = found_in_lists(alloc, file.as_str(), &below, rules, reading, depth - 1)?;
        let inner = found_before(alloc, below.root(), rules, inner)?;
        push_outward(&mut found, &inner, *list)?;
    }
    Ok(found)
}

/// The matches of rules in a text and in the arguments of its macro calls, in the order of the
/// text.
///
/// The arguments of a macro are searched if they read as a list of expressions, as those of
/// `vec![a, b]`, `vec![a; b]` and `assert!(a == b)`, and so are those of macros in them, up to
/// eight deep. The text is read once for each level.
pub(crate) fn found_within(
    alloc: Global,
    text: &str,
    rules: &[Rule],
    reading: Reading,
) -> Result<Vec<Found>, Failure>
    ensures { IfOk result (λ f. AreFoundWithin reading rules.now text.now f.items) }
{
    let parse = parsed(alloc, text, reading)?;
    let inner = found_in_lists(alloc, text, &parse, rules, reading, DEPTH)?;
    let mut found = found_before(alloc, parse.root(), rules, inner)?;
    sort(&mut found);
    Ok(found)
}

/// What replaces a match.
#[derive(Drop)]
pub(crate) struct Change {
    /// The match.
    pub(crate) found: Found,
    /// The text that replaces it.
    pub(crate) text: String,
}

// The changes of a text so far: how many bytes longer and shorter it became.
#[derive(Clone, Copy)]
struct Shift {
    more: usize,
    fewer: usize,
}

impl Shift {
    // Where an offset of the old text is in the new one.
    fn forth(self, offset: TextSize) -> usize {
        (offset.raw() as usize)
            .saturating_add(self.more)
            .saturating_sub(self.fewer)
    }

    // Where an offset of the new text was in the old one.
    fn back(self, offset: TextSize) -> usize {
        (offset.raw() as usize)
            .saturating_add(self.fewer)
            .saturating_sub(self.more)
    }

    fn grow(&mut self, change: &Change) {
        let length = change.found.range.len().raw() as usize;
        self.more = self.more.saturating_add(change.text.len());
        self.fewer = self.fewer.saturating_add(length);
    }
}

fn copied(alloc: Global, change: &Change) -> Result<Change, AllocError> {
    Ok(Change {
        found: change.found,
        text: String::from_str(alloc, change.text.as_str())?,
    })
}

// Adds those changes of the arguments, from one on, that are before an offset of the text that they
// made. Returns how many there are up to there.
fn push_before(
    alloc: Global,
    all: &mut Vec<Change>,
    inner: &[Change],
    from: usize,
    offset: usize,
    shift: &mut Shift,
) -> Result<usize, AllocError> {
    let mut at = from;
    for change in inner.get(from..).unwrap_or(&[]) {
        let start = shift.forth(change.found.range.start());
        if offset < start.saturating_add(change.text.len()) {
            return Ok(at);
        }
        all.push(copied(alloc, change)?)?;
        shift.grow(change);
        at = at.saturating_add(1);
    }
    Ok(at)
}

// Passes those changes of the arguments, from one on, that begin before an offset of the text that
// they made.
fn pass_inside(inner: &[Change], from: usize, offset: usize, shift: &mut Shift) -> usize {
    let mut at = from;
    for change in inner.get(from..).unwrap_or(&[]) {
        if offset <= shift.forth(change.found.range.start()) {
            return at;
        }
        shift.grow(change);
        at = at.saturating_add(1);
    }
    at
}

fn range_of(start: usize, end: usize) -> Option<TextRange> {
    let start = u32::try_from(start).ok()?;
    let end = u32::try_from(end).ok()?;
    if start <= end {
        Some(TextRange::new(TextSize::new(start), TextSize::new(end)))
    } else {
        None
    }
}

// The changes of the arguments and, after them, those of the text that they made, as changes of the
// old text: one of the arguments in a match that is replaced is in its replacement.
fn joined(
    alloc: Global,
    inner: &[Change],
    outer: &[Change],
) -> Result<Option<Vec<Change>>, AllocError> {
    let mut all = Vec::new(alloc);
    let mut at = 0usize;
    let mut shift = Shift { more: 0, fewer: 0 };
    for change in outer {
        let range = change.found.range;
        let begins = range.start().raw() as usize;
        let ends = range.end().raw() as usize;
        at = push_before(alloc, &mut all, inner, at, begins, &mut shift)?;
        let start = shift.back(range.start());
        at = pass_inside(inner, at, ends, &mut shift);
        let end = shift.back(range.end());
        let Some(range) = range_of(start, end) else {
            return Ok(None);
        };
        all.push(Change {
            found: Found {
                rule: change.found.rule,
                range,
            },
            text: String::from_str(alloc, change.text.as_str())?,
        })?;
    }
    push_before(alloc, &mut all, inner, at, usize::MAX, &mut shift)?;
    Ok(Some(all))
}

// The edit that changes are, in the order of the text.
fn edit_of(alloc: Global, changes: &[Change]) -> Result<TextEdit, Failure>
    ensures { IfOk result (λ e. e ≡ together changes.now) }
{
    let mut edit = TextEdit::new(alloc);
    for change in changes {
        let text = String::from_str(alloc, change.text.as_str())?;
        match edit.add(Indel::replace(change.found.range, text)) {
            Ok(()) => {}
            Err(OverlapError::Memory) => return Err(Failure::Text(ParseError::Memory)),
            Err(OverlapError::Overlap) => return Err(Failure::Kept(OTHERWISE)),
        }
    }
    Ok(edit)
}

// A text after changes.
fn applied(alloc: Global, text: &str, edit: &TextEdit) -> Result<String, Failure>
    ensures { IfOk result (λ new. string_bytes new ≡ edited text.now edit.now) }
{
    match edit.apply(alloc, text) {
        Ok(new) => Ok(new),
        Err(_) => Err(Failure::Kept(OTHERWISE)),
    }
}

// What replaces a match by a replacement of its range.
fn change_by(alloc: Global, indel: &Indel, found: Option<&Found>) -> Result<Change, AllocError>
    ensures { IfOk result (λ c. replacement_of c ≡ indel.now) }
{
    let rule = match found {
        Some(found) => found.rule,
        None => 0,
    };
    Ok(Change {
        found: Found {
            rule,
            range: indel.deleted(),
        },
        text: String::from_str(alloc, indel.inserted())?,
    })
}

// What a rewriting replaces.
fn changes_of(alloc: Global, done: &Rewritten) -> Result<Vec<Change>, AllocError>
    ensures { IfOk result (λ c. map replacement_of c.items ≡ done.now.edit) }
{
    let mut outer = Vec::new(alloc);
    push_outer(&mut outer, &done.matches)?;
    let mut changes = Vec::new(alloc);
    let mut number = 0usize;
    for indel in done.edit.iter() {
        changes.push(change_by(alloc, indel, outer.get(number))?)?;
        number = number.saturating_add(1);
    }
    Ok(changes)
}

/// What a parse becomes by rules; `None` if nothing matches. In most files nothing does, and their
/// texts are not parsed again.
pub(crate) fn rewriting(
    alloc: Global,
    rules: &[Rule],
    reading: Reading,
    parse: &Parse<SyntaxNode>,
) -> Result<Option<Rewritten>, Failure>
    ensures { IfOk result (IsRewritingOf reading rules.now parse.now) }
{
    let matches = find(alloc, rules, parse.root())?;
    if matches.is_empty() {
        return Ok(None);
    }
    match rewrite_matches(alloc, &Rust, reading.edition, rules, parse, matches) {
        Ok(done) => Ok(Some(done)),
        Err(error) => Err(failure_of(error)),
    }
}

// The changes of arguments, and after them those of the text that they made, as changes of the old
// text.
fn all_joined(
    alloc: Global,
    inner: &[Change],
    outer: Vec<Change>,
) -> Result<Option<Vec<Change>>, AllocError>
    ensures { IfOk result (λ o. IfSome o (λ all. inner.now ≡ [] → all.items ≡ outer.items)) }
{
    if inner.is_empty() {
        return Ok(Some(outer));
    }
    joined(alloc, inner, &outer)
}

// The changes of a text that make what the text became after the changes of its arguments.
fn joined_to(
    alloc: Global,
    text: &str,
    inner: &[Change],
    done: &Rewritten,
) -> Result<Vec<Change>, Failure>
    ensures same { IfOk result (λ all. changed text.now all.items ≡ string_bytes done.now.text) }
    ensures alone { IfOk result
        (λ all. inner.now ≡ [] → map replacement_of all.items ≡ done.now.edit) }
{
    let outer = changes_of(alloc, done)?;
    let Some(all) = all_joined(alloc, inner, outer)? else {
        return Err(Failure::Kept(OTHERWISE));
    };
    let new = applied(alloc, text, &edit_of(alloc, &all)?)?;
    if new.as_str() == done.text.as_str() {
        Ok(all)
    } else {
        Err(Failure::Kept(OTHERWISE))
    }
}

// The changes of a text by which its parse, after the changes of its arguments, becomes what it
// should; `None` if nothing matches there.
#[tactic(auto, using(crate::proofs::MoveLemmas::made_alike))]
fn outside(
    alloc: Global,
    text: &str,
    rules: &[Rule],
    reading: Reading,
    inner: &[Change],
    parse: &Parse<SyntaxNode>,
) -> Result<Option<Vec<Change>>, Failure>
    ensures { IfOk result (λ o.
        IsOutside reading rules.now text.now inner.now parse.now
        (option_map (λ v. v.items) o)) }
{
    match rewriting(alloc, rules, reading, parse)? {
        None => Ok(None),
        Some(done) => Ok(Some(joined_to(alloc, text, inner, &done)?)),
    }
}

// The changes of a text, whose parse this is, after those of its arguments; `None` if there are no
// others.
#[tactic(auto, using(crate::proofs::MoveLemmas::none_between, crate::proofs::MoveLemmas::some_between))]
fn changes_after(
    alloc: Global,
    text: &str,
    rules: &[Rule],
    reading: Reading,
    inner: &[Change],
    parse: &Parse<SyntaxNode>,
) -> Result<Option<Vec<Change>>, Failure>
    requires { IsReadAs reading text.now parse.now }
    ensures { IfOk result
        (λ o. AreOutside reading rules.now text.now inner.now (option_map (λ v. v.items) o)) }
{
    if inner.is_empty() {
        return outside(alloc, text, rules, reading, inner, parse);
    }
    let between = applied(alloc, text, &edit_of(alloc, inner)?)?;
    let parse = parsed(alloc, between.as_str(), reading)?;
    outside(alloc, text, rules, reading, inner, &parse)
}

// The changes of arguments and of the text around them.
fn all_or(inner: Vec<Change>, outer: Option<Vec<Change>>) -> Vec<Change>
    ensures { result.items ≡ all_or inner.items (option_map (λ v. v.items) outer) }
{
    match outer {
        Some(all) => all,
        None => inner,
    }
}

// Adds a change of a file of arguments, as one of the text around it. One that is not in the
// arguments is left out.
fn push_change(all: &mut Vec<Change>, change: Change, list: TextRange) -> Result<(), AllocError>
    ensures { OnOk result
        (all.new.items ≡ all.old.items ++ filter_map (change_outward list) (change ∷ [])) }
{
    let Change { found, text } = change;
    if let Some(found) = found_outward(found, list) {
        all.push(Change { found, text })?;
    }
    Ok(())
}

// Adds changes of a file of arguments, as changes of the text around it. One that is not in the
// arguments is left out.
#[tactic(auto, using(crate::proofs::MoveLemmas::moved_on))]
fn push_moved(
    all: &mut Vec<Change>,
    changes: Vec<Change>,
    list: TextRange,
) -> Result<(), AllocError>
    ensures { OnOk result
        (all.new.items ≡ all.old.items ++ filter_map (change_outward list) changes.items) }
{
    for change in changes {
        push_change(all, change, list)?;
    }
    Ok(())
}

// What replaces the matches in the arguments of the macros of a parse, which are looked into so
// deep.
#[tactic(auto, using(crate::proofs::EachLemmas::none_done, crate::proofs::EachLemmas::not_deep))]
fn changes_in_lists(
    alloc: Global,
    text: &str,
    parse: &Parse<SyntaxNode>,
    rules: &[Rule],
    reading: Reading,
    depth: u32,
) -> Result<Vec<Change>, Failure>
    ensures { IfOk result
        (λ c. AreChangesInLists reading rules.now depth text.now parse.now c.items) }
{
    let mut changes = Vec::new(alloc);
    if depth == 0 {
        return Ok(changes);
    }
    let lists = lists_of(alloc, parse.root())?;
    for list in &lists {
        let file = file_of(alloc, text, *list)?;
        let Some(below) = read_list(alloc, file.as_str(), reading)? else {
            continue;
        };
        let inner = changes_in_lists(alloc, file.as_str(), &below, rules, reading, depth - 1)?;
        let outer = changes_after(alloc, file.as_str(), rules, reading, &inner, &below)?;
        push_moved(&mut changes, all_or(inner, outer), *list)?;
    }
    Ok(changes)
}

fn places_of(alloc: Global, changes: &[Change]) -> Result<Vec<Found>, AllocError>
    ensures { IfOk result (λ p. p.items ≡ map (λ c. c.found) changes.now) }
{
    let mut places = Vec::with_capacity(alloc, changes.len())?;
    for change in changes {
        places.push(change.found)?;
    }
    Ok(places)
}

// A text after changes.
fn replaced_by(alloc: Global, text: &str, changes: &[Change]) -> Result<Replaced, Failure>
    ensures edit { IfOk result (λ d. d.edit ≡ together changes.now) }
    ensures text { IfOk result (λ d. string_bytes d.text ≡ edited text.now d.edit) }
    ensures places { IfOk result (λ d. d.places.items ≡ map (λ c. c.found) changes.now) }
{
    let edit = edit_of(alloc, changes)?;
    let text = applied(alloc, text, &edit)?;
    Ok(Replaced {
        places: places_of(alloc, changes)?,
        edit,
        text,
    })
}

/// A text with the matches of rules replaced, in the arguments of its macro calls first, and then
/// in the text that this makes; `None` if nothing matches in either.
///
/// By `f($a) ==>> $a`, `f(g!(f(1)))` becomes `(g!(1))`. The arguments of a macro count if they read
/// as a list of expressions, and those of macros in them too, up to eight deep; others, as those of
/// `matches!(a, B if c)`, are left alone. Each list is rewritten as a file of its own, so that
/// pairs of parentheses are where they are needed there, and nothing outside of the arguments is
/// replaced by it.
///
/// Takes a parse of each list, and one more of each text in whose lists something is replaced: time
/// linear in the text for each rule.
///
/// # Errors
///
/// `Kept` if a list or the text cannot be rewritten, for the reasons of [`RewriteError`], or if the
/// edits of both cannot be joined; `Text` if memory runs out or a text is too long.
pub fn replaced_within(
    alloc: Global,
    text: &str,
    rules: &[Rule],
    reading: Reading,
) -> Result<Option<Replaced>, Failure>
    ensures { IfOk result (IsAnswerWithin reading rules.now text.now) }
{
    let parse = parsed(alloc, text, reading)?;
    let inner = changes_in_lists(alloc, text, &parse, rules, reading, DEPTH)?;
    let outer = changes_after(alloc, text, rules, reading, &inner, &parse)?;
    if inner.is_empty() && outer.is_none() {
        return Ok(None);
    }
    let changes = all_or(inner, outer);
    Ok(Some(replaced_by(alloc, text, &changes)?))
}

impl Replaced {
    /// What a rewriting replaces.
    pub fn of(alloc: Global, done: Rewritten) -> Result<Replaced, AllocError> {
        let mut places = Vec::new(alloc);
        push_outer(&mut places, &done.matches)?;
        let Rewritten { edit, text, .. } = done;
        Ok(Replaced { places, edit, text })
    }
}
