//! The text of a file with the matches of rules replaced.
ghost use Rattle.std.specs.Prelude.{◌≡◌, [], false, IfOk, IfErr, IfSome, OnOk, IsTrue, map, string_bytes, slice_get, option_map};
ghost use Rattle.std.specs.Ordering.{nat_cmp};
ghost use Rattle.std.specs.List.Sorted.{IsSorted, IsPermutation};
ghost use Rattle.text_edit.specs.Replacements.{edited};
ghost use Rattle.tree_model.specs.Tree.{text};
ghost use Rattle.tree_model.specs.Edit.{root_of};
ghost use Rattle.tree_match.specs.Finds.{occurrence_of, found_in};
ghost use Rattle.rust_rewrite.specs.Exposed.{exposes};
ghost use Rattle.rust_rewrite.specs.Rewrites.{ranges_of, outermost, ReadsAs, IsRewrite, WithoutNeedless, is_comment, comment_starts, has_comment, loses_value, loses_from, loses_by, loses_any, loses_comment, IsCommentLost, IsRefused};

use crate::exposed::{has_chain, has_exposed, takes_chains};
use crate::plain::need_none;
use crate::refusal::{Failure, RewriteError};
use crate::render::{Pairs, Rendered, Source, render};
use lossless_tree::{SyntaxElement, SyntaxKind, SyntaxNode, TextRange};
use ras_front_end::{Edition, Entry, FrontEnd};
use ras_node::support::is_of_kind;
use ras_parsing::{Parse, read};
use rust_parens::{find_needless_among, may_go, may_go_alone, parens_of};
use std::alloc::{AllocError, Global};
use text_edit::{Indel, TextEdit};
use tree_match::{Match, Rule, find, reads_as};

/// A text with the matches of rules replaced.
#[derive(Drop)]
pub struct Rewritten {
    /// The matches, in preorder.
    pub matches: Vec<Match>,
    /// What replaces each of the outermost matches.
    pub edit: TextEdit,
    /// The new text.
    pub text: String,
}

fn is_comment(element: &SyntaxElement) -> bool
    ensures { result ≡ is_comment element.now }
{
    let kind = element.kind();
    kind == SyntaxKind::COMMENT
        || kind == SyntaxKind::INNER_DOC_COMMENT
        || kind == SyntaxKind::OUTER_DOC_COMMENT
}

// Where the comments of a tree start.
#[tactic(auto, using(crate::proofs::LossLemmas::one_more, crate::proofs::LossLemmas::no_more, crate::proofs::LossLemmas::ended))]
fn listed_starts(alloc: Global, root: &SyntaxNode) -> Result<Vec<usize>, AllocError>
    ensures { IfOk result (λ s. s.items ≡ comment_starts root.now) }
{
    let mut starts = Vec::new(alloc);
    for element in root.descendants_with_tokens() {
        if is_comment(&element) {
            starts.push(element.text_range().start().raw() as usize)?;
        }
    }
    Ok(starts)
}

// The same, sorted for searches. They come in the order of the text, so that the sort is one pass.
fn sorted_starts(alloc: Global, root: &SyntaxNode) -> Result<Vec<usize>, AllocError>
    ensures same { IfOk result (λ s. IsPermutation (comment_starts root.now) s.items) }
    ensures sorted { IfOk result (λ s. IsSorted nat_cmp s.items) }
{
    let mut starts = listed_starts(alloc, root)?;
    starts.sort_unstable();
    Ok(starts)
}

// Whether one of some sorted offsets is in a range.
fn has_comment(starts: &[usize], range: TextRange) -> bool
    requires { IsSorted nat_cmp starts.now }
    ensures { result ≡ has_comment starts.now range }
{
    let start = range.start().raw() as usize;
    let end = range.end().raw() as usize;
    match starts.binary_search(&start) {
        Ok(_) => start < end,
        Err(at) => match starts.get(at) {
            None => false,
            Some(next) => *next < end,
        },
    }
}

// Whether a comment is in what stands for a placeholder, and the template has not that placeholder.
fn loses_value(
    starts: &[usize],
    rule: &Rule,
    form: usize,
    number: usize,
    value: Option<TextRange>,
) -> bool
    requires { IsSorted nat_cmp starts.now }
    ensures { result ≡ loses_value starts.now rule.now form number value }
{
    match value {
        None => false,
        Some(range) => rule.sort(form, number).is_none() && has_comment(starts, range),
    }
}

// The rule with a number.
fn numbered(rules: &[Rule], number: usize) -> Option<&Rule>
    ensures { option_map (λ r. r.now) result ≡ slice_get rules.now number }
{
    rules.get(number)
}

// Whether a comment is in what stands for a placeholder that the template of a rule has not.
fn loses_value_of(starts: &[usize], rule: &Rule, form: usize, values: &[Option<TextRange>]) -> bool
    requires { IsSorted nat_cmp starts.now }
    ensures { result ≡ loses_from starts.now rule.now form 0 values.now }
{
    for (number, value) in values.iter().enumerate() {
        if loses_value(starts, rule, form, number, *value) {
            return true;
        }
    }
    false
}

// Whether a comment would be lost at a match.
#[tactic(auto, using(crate::proofs::LossLemmas::no_rule, crate::proofs::LossLemmas::some_rule))]
fn loses_comment(starts: &[usize], rules: &[Rule], found: &Match) -> bool
    requires { IsSorted nat_cmp starts.now }
    ensures { result
        ≡ loses_by starts.now (slice_get rules.now found.now.rule) (occurrence_of found.now) }
{
    match numbered(rules, found.rule) {
        None => false,
        Some(rule) => loses_value_of(starts, rule, found.form, &found.values),
    }
}

// Whether a comment would be lost at one of some matches.
fn loses_any(starts: &[usize], rules: &[Rule], matches: &[Match]) -> bool
    requires { IsSorted nat_cmp starts.now }
    ensures { result ≡ loses_any rules.now starts.now (map occurrence_of matches.now) }
{
    for found in matches {
        if loses_comment(starts, rules, found) {
            return true;
        }
    }
    false
}

// Refuses matches by which a comment would be lost.
#[tactic(auto, using(crate::proofs::LossLemmas::loses_alike))]
fn check_comments(
    alloc: Global,
    root: &SyntaxNode,
    rules: &[Rule],
    matches: &[Match],
) -> Result<(), RewriteError>
    ensures kept { OnOk result
        (loses_any rules.now (comment_starts root.now) (map occurrence_of matches.now) ≡ false) }
    ensures lost { IfErr result (IsCommentLost
        (loses_any rules.now (comment_starts root.now) (map occurrence_of matches.now))) }
{
    let starts = sorted_starts(alloc, root)?;
    if loses_any(&starts, rules, matches) {
        return Err(RewriteError::LosesComment);
    }
    Ok(())
}

// Whether a pair's `(` is at one of these offsets.
fn is_put(pair: &SyntaxNode, pairs: &[usize]) -> bool {
    match parens_of(pair) {
        None => false,
        Some((open, _)) => pairs.binary_search(&(open.start().raw() as usize)).is_ok(),
    }
}

// Whether one of the pairs that are directly in each other, of which this is the outermost, was not
// put: the user's `(n - 1)` in `((n - 1)).abs()`.
fn holds_own_pair(pair: &SyntaxNode, pairs: &[usize]) -> bool {
    for node in pair.descendants() {
        if !is_of_kind(&node, SyntaxKind::PAREN_EXPR) {
            return false;
        }
        if !is_put(&node, pairs) {
            return true;
        }
    }
    false
}

// The pairs of a tree whose `(` is at one of these offsets, and that the tests of operators and
// statements let go.
fn candidates(
    alloc: Global,
    root: &SyntaxNode,
    pairs: &[usize],
) -> Result<Vec<SyntaxNode>, AllocError> {
    let mut found = Vec::new(alloc);
    for node in root.descendants() {
        if is_put(&node, pairs)
            && (may_go(&node) || (may_go_alone(&node) && holds_own_pair(&node, pairs)))
        {
            found.push(node)?;
        }
    }
    Ok(found)
}

// Marks the pairs that go.
fn gone_of(alloc: Global, pairs: &[usize], going: &[SyntaxNode]) -> Result<Vec<bool>, AllocError> {
    let mut gone = vec![in alloc; false; pairs.len()]?;
    for pair in going {
        if let Some((open, _)) = parens_of(pair) {
            if let Ok(number) = pairs.binary_search(&(open.start().raw() as usize)) {
                if let Some(mark) = gone.get_mut(number) {
                    *mark = true;
                }
            }
        }
    }
    Ok(gone)
}

fn edit_of(alloc: Global, rendered: &Rendered) -> Result<TextEdit, Failure> {
    let mut edit = TextEdit::new(alloc);
    for place in &rendered.places {
        let new = rendered
            .text
            .as_str()
            .get(place.start..place.end)
            .unwrap_or("");
        let new = String::from_str(alloc, new)?;
        edit.add(Indel::replace(place.old, new))?;
    }
    Ok(edit)
}

// Whether two ranges are the same.
fn is_same_range(a: TextRange, b: TextRange) -> bool
    ensures { IsTrue result → a ≡ b }
{
    a.start().raw() == b.start().raw() && a.end().raw() == b.end().raw()
}

// The ranges of the outermost matches.
fn outermost(alloc: Global, matches: &[Match]) -> Result<Vec<TextRange>, AllocError>
    ensures { IfOk result (λ r. r.items ≡ outermost 0 (map occurrence_of matches.now)) }
{
    let mut at = 0usize;
    let mut ranges = Vec::new(alloc);
    for found in matches {
        if at <= found.range.start().raw() as usize {
            ranges.push(found.range)?;
            at = found.range.end().raw() as usize;
        }
    }
    Ok(ranges)
}

// Whether the ranges of an edit are these.
#[tactic(auto, using(crate::proofs::EditLemmas::none_same, crate::proofs::EditLemmas::one_same, crate::proofs::EditLemmas::all_same))]
fn are_ranges(edit: &TextEdit, ranges: &[TextRange]) -> bool
    ensures { IsTrue result → ranges_of edit.now ≡ ranges.now }
{
    let mut indels = edit.iter();
    for range in ranges {
        let Some(indel) = indels.next() else {
            return false;
        };
        if !is_same_range(indel.deleted(), *range) {
            return false;
        }
    }
    match indels.next() {
        None => true,
        Some(_) => false,
    }
}

// Whether a new tree has what rustc refuses or reads otherwise, and the old one has none of it.
fn exposes(edition: Edition, old: &SyntaxNode, new: &SyntaxNode) -> bool
    ensures { result ≡ exposes edition old.now new.now }
{
    (has_exposed(new) && !has_exposed(old))
        || (!takes_chains(edition) && has_chain(new) && !has_chain(old))
}

// The parse of a text, if that reads as the old tree with the matches replaced, with no more
// errors.
fn read_meant<F: FrontEnd>(
    alloc: Global,
    front: &F,
    edition: Edition,
    rules: &[Rule],
    old: &Parse<SyntaxNode>,
    text: &str,
) -> Result<Option<Parse<SyntaxNode>>, Failure>
    ensures { IfOk result
        (λ o. IfSome o (λ p. ReadsAs (F.answers front.now) edition rules.now old.now text.now)) }
{
    let new: Parse<SyntaxNode> = read(alloc, front, Entry::SourceFile, text, edition)?;
    if new.errors(alloc)?.len() > old.errors(alloc)?.len() {
        return Ok(None);
    }
    if exposes(edition, old.root(), new.root()) {
        return Ok(None);
    }
    if reads_as(alloc, rules, old.root(), new.root())? {
        Ok(Some(new))
    } else {
        Ok(None)
    }
}

// A text by an edit of another one, if the edit replaces the outermost matches.
fn edited(
    alloc: Global,
    text: &str,
    matches: &[Match],
    edit: &TextEdit,
) -> Result<Option<String>, Failure>
    ensures places { IfOk result
        (λ o. IfSome o (λ t. ranges_of edit.now ≡ outermost 0 (map occurrence_of matches.now))) }
    ensures text { IfOk result (λ o. IfSome o (λ t. string_bytes t ≡ edited text.now edit.now)) }
{
    let ranges = outermost(alloc, matches)?;
    if !are_ranges(edit, &ranges) {
        return Ok(None);
    }
    Ok(Some(edit.apply(alloc, text)?))
}

// A new text, and how it reads.
#[derive(Drop)]
struct NewText {
    text: String,
    parse: Parse<SyntaxNode>,
}

// The new text by an edit, if it is what it should be.
fn made<F: FrontEnd>(
    alloc: Global,
    front: &F,
    edition: Edition,
    rules: &[Rule],
    old: &Parse<SyntaxNode>,
    matches: &[Match],
    edit: &TextEdit,
) -> Result<Option<NewText>, Failure>
    requires { map occurrence_of matches.now ≡ found_in rules.now (root_of old.now.tree) }
    ensures { IfOk result (λ o.
        IfSome o (λ m.
        IsRewrite (F.answers front.now) edition rules.now old.now
        (map occurrence_of matches.now) edit.now (string_bytes m.text))) }
{
    let Some(text) = edited(alloc, old.root().as_str(), matches, edit)? else {
        return Ok(None);
    };
    match read_meant(alloc, front, edition, rules, old, text.as_str())? {
        None => Ok(None),
        Some(parse) => Ok(Some(NewText { text, parse })),
    }
}

// The ranges of the statements without a `;` in a tree.
fn open_statements(alloc: Global, root: &SyntaxNode) -> Result<Vec<TextRange>, AllocError> {
    let mut ranges = Vec::new(alloc);
    for node in root.descendants() {
        if node.kind() == SyntaxKind::EXPR_STMT && !node.as_str().ends_with(';') {
            ranges.push(node.text_range())?;
        }
    }
    Ok(ranges)
}

// The text with the matches of a tree replaced, with some of the pairs.
fn text_with(
    alloc: Global,
    rules: &[Rule],
    root: &SyntaxNode,
    matches: &[Match],
    open: &[TextRange],
    pairs: Pairs<'_>,
) -> Result<Rendered, Failure> {
    render(
        alloc,
        &Source {
            old: root.as_str(),
            rules,
            matches,
            open,
            pairs,
        },
    )
}

// Which of the pairs of a text may go, and the text without these.
fn freed<F: FrontEnd>(
    alloc: Global,
    front: &F,
    edition: Edition,
    full: Rendered,
) -> Result<(Vec<bool>, String), Failure>
    ensures { IfOk result (λ p. WithoutNeedless (F.answers front.now) edition (string_bytes p.1)) }
{
    let parse: Parse<SyntaxNode> = read(
        alloc,
        front,
        Entry::SourceFile,
        full.text.as_str(),
        edition,
    )?;
    let tried = candidates(alloc, parse.root(), &full.pairs)?;
    let needless = find_needless_among(alloc, front, Entry::SourceFile, edition, &parse, tried)?;
    let gone = gone_of(alloc, &full.pairs, &needless.pairs)?;
    Ok((gone, needless.text.unwrap_or(full.text)))
}

// The edit of an old tree by which its matches are replaced, and the new text that comes out.
fn planned<F: FrontEnd>(
    alloc: Global,
    front: &F,
    edition: Edition,
    rules: &[Rule],
    root: &SyntaxNode,
    matches: &[Match],
    open: &[TextRange],
) -> Result<(TextEdit, String), Failure>
    ensures { IfOk result (λ p. WithoutNeedless (F.answers front.now) edition (string_bytes p.1)) }
{
    let full = text_with(alloc, rules, root, matches, open, Pairs::All)?;
    let (gone, meant) = freed(alloc, front, edition, full)?;
    let pairs = Pairs::Without(&gone, meant.as_str());
    let last = text_with(alloc, rules, root, matches, open, pairs)?;
    Ok((edit_of(alloc, &last)?, meant))
}

// The text with these matches replaced, with those pairs that are needed.
fn with_pairs<F: FrontEnd>(
    alloc: Global,
    front: &F,
    edition: Edition,
    rules: &[Rule],
    old: &Parse<SyntaxNode>,
    matches: Vec<Match>,
    open: &[TextRange],
) -> Result<Rewritten, Failure>
    requires { map occurrence_of matches.items ≡ found_in rules.now (root_of old.now.tree) }
    ensures rewritten { IfOk result (λ r.
        IsRewrite (F.answers front.now) edition rules.now old.now
        (map occurrence_of r.matches.items) r.edit (string_bytes r.text)) }
    ensures needless { IfOk result
        (λ r. WithoutNeedless (F.answers front.now) edition (string_bytes r.text)) }
{
    let (edit, meant) = planned(alloc, front, edition, rules, old.root(), &matches, open)?;
    match made(alloc, front, edition, rules, old, &matches, &edit)? {
        Some(done) if done.text.as_str() == meant.as_str() => Ok(Rewritten {
            matches,
            edit,
            text: done.text,
        }),
        _ => Err(Failure::ReadsOtherwise),
    }
}

// What replaces the matches if no pair is put, and the text that comes out, if that is as meant and
// needs no pair. Most replacements need none, so that the text is parsed once.
fn without_pairs<F: FrontEnd>(
    alloc: Global,
    front: &F,
    edition: Edition,
    rules: &[Rule],
    old: &Parse<SyntaxNode>,
    matches: &[Match],
    open: &[TextRange],
) -> Result<Option<(TextEdit, String)>, Failure>
    requires { map occurrence_of matches.now ≡ found_in rules.now (root_of old.now.tree) }
    ensures { IfOk result (λ o.
        IfSome o (λ p.
        IsRewrite (F.answers front.now) edition rules.now old.now
        (map occurrence_of matches.now) p.0 (string_bytes p.1))) }
{
    let plain = text_with(alloc, rules, old.root(), matches, open, Pairs::Absent)?;
    if plain.may_join {
        return Ok(None);
    }
    let edit = edit_of(alloc, &plain)?;
    match made(alloc, front, edition, rules, old, matches, &edit)? {
        Some(done) if need_none(done.parse.root(), &plain.spans) => Ok(Some((edit, done.text))),
        _ => Ok(None),
    }
}

// Refuses the matches in a tree if a comment would be lost.
#[tactic(auto, using(crate::proofs::LossLemmas::lost_refused, crate::proofs::LossLemmas::none_lost))]
fn check_matches(
    alloc: Global,
    rules: &[Rule],
    root: &SyntaxNode,
    matches: &[Match],
) -> Result<(), RewriteError>
    requires { map occurrence_of matches.now ≡ found_in rules.now root.now }
    ensures kept { OnOk result (loses_comment rules.now root.now ≡ false) }
    ensures refused { IfErr result (IsRefused rules.now root.now) }
{
    check_comments(alloc, root, rules, matches)?;
    Ok(())
}

// The text with these matches replaced.
#[tactic(auto, using(crate::proofs::EditLemmas::none_put))]
fn replaced<F: FrontEnd>(
    alloc: Global,
    front: &F,
    edition: Edition,
    rules: &[Rule],
    old: &Parse<SyntaxNode>,
    matches: Vec<Match>,
) -> Result<Rewritten, Failure>
    requires { map occurrence_of matches.items ≡ found_in rules.now (root_of old.now.tree) }
    ensures rewritten { IfOk result (λ r.
        IsRewrite (F.answers front.now) edition rules.now old.now
        (map occurrence_of r.matches.items) r.edit (string_bytes r.text)) }
    ensures needless { IfOk result
        (λ r. WithoutNeedless (F.answers front.now) edition (string_bytes r.text)) }
{
    let open = open_statements(alloc, old.root())?;
    match without_pairs(alloc, front, edition, rules, old, &matches, &open)? {
        Some((edit, text)) => Ok(Rewritten {
            matches,
            edit,
            text,
        }),
        None => with_pairs(alloc, front, edition, rules, old, matches, &open),
    }
}

/// The text of a parsed file with the matches of rules replaced, and parentheses exactly where they
/// are needed.
///
/// Each match that [`find`] returns becomes its rule's template, with what its placeholders stand
/// for put in; matches in these are replaced too. `foo(1, 2) * 3` by `foo($a, $b) ==>> $a + $b`
/// becomes `(1 + 2) * 3`. All rules must have templates. A match with a comment between its tokens
/// is none, since the comment would be lost; comments in what stands for placeholders are kept with
/// it. Nor is a field without a `:`, as `a` in `S { a }`, whose name would change.
///
/// Every value and every replacement is put into a pair of parentheses, and those pairs that are
/// needless go, by the parses of [`find_needless_among`]. The user's own pairs stay. What is
/// outside of the matches is kept byte for byte. Takes a few parses of the text, and time linear in
/// the text for each rule.
///
/// # Errors
///
/// `ReadsOtherwise` if the new text does not parse to the tree that is meant, or with more errors
/// than the old one, as where an expression stands that is also a name, or if it has what rustc
/// refuses or reads otherwise, as `let A | B = x;` or `async {} (a)`, and the old one has nothing
/// of the kind; `LosesComment` if a comment is in what stands for a placeholder that the template
/// has not; `TooLong` if it is too long; `Memory` at any time.
#[tactic(auto, using(crate::proofs::LossLemmas::memory_refused))]
pub fn rewrite<F: FrontEnd>(
    alloc: Global,
    front: &F,
    edition: Edition,
    rules: &[Rule],
    old: &Parse<SyntaxNode>,
) -> Result<Rewritten, RewriteError>
    ensures rewritten { IfOk result (λ r.
        IsRewrite (F.answers front.now) edition rules.now old.now
        (map occurrence_of r.matches.items) r.edit (string_bytes r.text)) }
    ensures needless { IfOk result
        (λ r. WithoutNeedless (F.answers front.now) edition (string_bytes r.text)) }
    ensures unchanged { IfOk result
        (λ r. r.matches.items ≡ [] → string_bytes r.text ≡ text old.now.tree) }
    ensures kept { OnOk result (loses_comment rules.now (root_of old.now.tree) ≡ false) }
    ensures refused { IfErr result (IsRefused rules.now (root_of old.now.tree)) }
{
    let matches = find(alloc, rules, old.root())?;
    rewrite_matches(alloc, front, edition, rules, old, matches)
}

/// The same where the matches are known: those that [`find`] returns for these rules and this
/// parse.
///
/// # Errors
///
/// Those of [`rewrite`].
#[tactic(auto, using(crate::proofs::LossLemmas::failure_refused, crate::proofs::LossLemmas::stays))]
pub fn rewrite_matches<F: FrontEnd>(
    alloc: Global,
    front: &F,
    edition: Edition,
    rules: &[Rule],
    old: &Parse<SyntaxNode>,
    matches: Vec<Match>,
) -> Result<Rewritten, RewriteError>
    requires { map occurrence_of matches.items ≡ found_in rules.now (root_of old.now.tree) }
    ensures rewritten { IfOk result (λ r.
        IsRewrite (F.answers front.now) edition rules.now old.now
        (map occurrence_of r.matches.items) r.edit (string_bytes r.text)) }
    ensures needless { IfOk result
        (λ r. WithoutNeedless (F.answers front.now) edition (string_bytes r.text)) }
    ensures unchanged { IfOk result
        (λ r. r.matches.items ≡ [] → string_bytes r.text ≡ text old.now.tree) }
    ensures kept { OnOk result (loses_comment rules.now (root_of old.now.tree) ≡ false) }
    ensures refused { IfErr result (IsRefused rules.now (root_of old.now.tree)) }
{
    check_matches(alloc, rules, old.root(), &matches)?;
    Ok(replaced(alloc, front, edition, rules, old, matches)?)
}
