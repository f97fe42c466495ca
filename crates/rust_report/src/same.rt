//! Where two trees differ, also with some pairs of parentheses left out of the first.
ghost use Rattle.std.specs.Prelude.{◌≡◌, ◌↔◌, IsTrue, IsNone, IfSome, IfOk, OnOk, [], map};
ghost use Rattle.tree_model.specs.Cursor.{walk_of};
ghost use Rattle.rust_report.specs.Steps.{is_marked, is_pair, is_left_out, counts_element, counts, shown, step, steps_of, counted, IsNext, IsFirstDifference};
ghost use Rattle.rust_report.specs.Differences.{IsNextTurn, past, levels, AreDifferences, DifferThen};

use lossless_tree::{
    NodeOrToken, PreorderWithTokens, SyntaxElement, SyntaxKind, SyntaxNode, TextSize, WalkEvent,
};
use ras_node::support::is_of_kind;
use std::alloc::{AllocError, Global};

/// Whether white space and comments are compared.
#[derive(Clone, Copy, Debug, PartialEq, Eq)]
pub enum Trivia {
    /// They are compared.
    Kept,
    /// They are skipped.
    Aside,
}

/// The first events at which the walks of two trees differ; `None` if the walk of a tree has ended.
#[derive(Drop)]
pub struct Difference {
    /// The event of the first tree.
    pub old: Option<WalkEvent<SyntaxElement>>,
    /// The event of the second tree.
    pub new: Option<WalkEvent<SyntaxElement>>,
}

// The mark of an offset; false if there are fewer marks.
fn is_marked(marks: &[bool], offset: TextSize) -> bool
    ensures { result ≡ is_marked marks.now offset }
{
    match marks.get(offset.raw() as usize) {
        Some(mark) => *mark,
        None => false,
    }
}

/// Whether a node is a pair of parentheses around an expression or a pattern: a `PAREN_EXPR` or a
/// `PAREN_PAT`.
pub fn is_pair(node: &SyntaxNode) -> bool
    ensures { result ≡ is_pair node.now }
{
    is_of_kind(node, SyntaxKind::PAREN_EXPR) || is_of_kind(node, SyntaxKind::PAREN_PAT)
}

/// Whether marks, one for each byte of the text, leave out a node or token: a pair, by [`is_pair`],
/// or a parenthesis that starts at a marked byte.
pub fn is_left_out(marks: &[bool], element: &SyntaxElement) -> bool
    ensures { result ≡ is_left_out marks.now element.now }
{
    match element {
        NodeOrToken::Node(node) => { is_pair(node) && is_marked(marks, node.text_range().start()) }
        NodeOrToken::Token(token) => match token.kind() {
            SyntaxKind::L_PAREN | SyntaxKind::R_PAREN => {
                is_marked(marks, token.text_range().start())
            }
            _ => false,
        },
    }
}

fn counts_element(trivia: Trivia, marks: &[bool], element: &SyntaxElement) -> bool
    ensures { result ≡ counts_element trivia marks.now element.now }
{
    if matches!(trivia, Trivia::Aside) && element.is_trivia() {
        return false;
    }
    !is_left_out(marks, element)
}

fn counts(trivia: Trivia, marks: &[bool], event: &WalkEvent<SyntaxElement>) -> bool
    ensures { result ≡ counts trivia marks.now event.now }
{
    match event {
        WalkEvent::Enter(element) => counts_element(trivia, marks, element),
        WalkEvent::Leave(element) => counts_element(trivia, marks, element),
    }
}

// The next event of a walk that is compared.
fn next_counted(
    walk: &mut PreorderWithTokens,
    trivia: Trivia,
    marks: &[bool],
) -> Option<WalkEvent<SyntaxElement>>
    ensures { IsNext (counted trivia marks.now walk.old) result
        (counted trivia marks.now walk.new) }
{
    while let Some(event) = walk.next() {
        if counts(trivia, marks, &event) {
            return Some(event);
        }
    }
    None
}

fn is_same_text(a: &str, b: &str) -> bool
    ensures { IsTrue result ↔ (a.now ≡ b.now) }
{
    a == b
}

// Whether both are nodes of one kind, or tokens of one kind with one text.
fn is_same_element(a: &SyntaxElement, b: &SyntaxElement) -> bool
    ensures { IsTrue result ↔ (shown a.now ≡ shown b.now) }
{
    match (a, b) {
        (NodeOrToken::Node(a), NodeOrToken::Node(b)) => a.kind().to_raw() == b.kind().to_raw(),
        (NodeOrToken::Token(a), NodeOrToken::Token(b)) => {
            a.kind().to_raw() == b.kind().to_raw() && is_same_text(a.text(), b.text())
        }
        _ => false,
    }
}

fn is_same_step(a: &WalkEvent<SyntaxElement>, b: &WalkEvent<SyntaxElement>) -> bool
    ensures { IsTrue result ↔ (step a.now ≡ step b.now) }
{
    match (a, b) {
        (WalkEvent::Enter(a), WalkEvent::Enter(b)) => is_same_element(a, b),
        (WalkEvent::Leave(a), WalkEvent::Leave(b)) => is_same_element(a, b),
        _ => false,
    }
}

// The first difference in the rest of two walks, the first of them without what the marks leave
// out. Afterwards the walks are behind the events that differ.
fn next_difference(
    olds: &mut PreorderWithTokens,
    marks: &[bool],
    news: &mut PreorderWithTokens,
    trivia: Trivia,
) -> Option<Difference>
    ensures same { IsNone result
        ↔ (map step (counted trivia marks.now olds.old) ≡ map step (counted trivia [] news.old)) }
    ensures first { IfSome result (λ d.
        DifferThen (counted trivia marks.now olds.old) (counted trivia [] news.old) d
        (counted trivia marks.now olds.new) (counted trivia [] news.new)) }
{
    while let Some(a) = next_counted(olds, trivia, marks) {
        let Some(b) = next_counted(news, trivia, &[]) else {
            return Some(Difference {
                old: Some(a),
                new: None,
            });
        };
        if is_same_step(&a, &b) {
            continue;
        }
        return Some(Difference {
            old: Some(a),
            new: Some(b),
        });
    }
    match next_counted(news, trivia, &[]) {
        Some(b) => Some(Difference {
            old: None,
            new: Some(b),
        }),
        None => None,
    }
}

/// The first place where two trees differ, as walks that enter and leave each node and token.
/// Returns `None` if the trees are the same by kinds and by the texts of tokens. The nodes and
/// tokens of the first tree for which [`is_left_out`] returns true are skipped; without marks none
/// is.
///
/// Takes time linear in the two trees up to that place, and no memory.
pub fn first_difference(
    old: &SyntaxNode,
    marks: &[bool],
    new: &SyntaxNode,
    trivia: Trivia,
) -> Option<Difference>
    ensures same { IsNone result
        ↔ (steps_of trivia marks.now old.now ≡ steps_of trivia [] new.now) }
    ensures first { IfSome result (IsFirstDifference (counted trivia marks.now (walk_of old.now))
        (counted trivia [] (walk_of new.now))) }
{
    let mut olds = old.preorder_with_tokens();
    let mut news = new.preorder_with_tokens();
    next_difference(&mut olds, marks, &mut news, trivia)
}

// How many ends are skipped after a difference, in the walk of the first of two events.
fn levels(own: &Option<WalkEvent<SyntaxElement>>, other: &Option<WalkEvent<SyntaxElement>>) -> usize
    ensures { result ≡ levels own.now other.now }
{
    match own {
        Some(WalkEvent::Enter(_)) => match other {
            Some(WalkEvent::Enter(_)) => 1,
            Some(WalkEvent::Leave(_)) => 2,
            None => 2,
        },
        Some(WalkEvent::Leave(_)) => 0,
        None => 0,
    }
}

// Whether the next event of a walk that is compared enters a node or token, or else leaves one.
fn next_enters(walk: &mut PreorderWithTokens, trivia: Trivia, marks: &[bool]) -> Option<bool>
    ensures { IsNextTurn (counted trivia marks.now walk.old) result
        (counted trivia marks.now walk.new) }
{
    match next_counted(walk, trivia, marks) {
        Some(WalkEvent::Enter(_)) => Some(true),
        Some(WalkEvent::Leave(_)) => Some(false),
        None => None,
    }
}

// Skips the ends of this many nodes and tokens that were entered. No tree in memory has 2^64
// levels, so it does not fail.
fn skip(
    walk: &mut PreorderWithTokens,
    marks: &[bool],
    trivia: Trivia,
    levels: usize,
) -> Result<(), AllocError>
    ensures { OnOk result
        (counted trivia marks.now walk.new ≡ past levels (counted trivia marks.now walk.old)) }
{
    let mut open = levels;
    while open > 0 {
        match next_enters(walk, trivia, marks) {
            Some(true) => match open.checked_add(1) {
                Some(more) => open = more,
                None => return Err(AllocError),
            },
            Some(false) => open -= 1,
            None => return Ok(()),
        }
    }
    Ok(())
}

// Skips the ends behind a difference in both walks.
fn skip_both(
    olds: &mut PreorderWithTokens,
    marks: &[bool],
    news: &mut PreorderWithTokens,
    trivia: Trivia,
    difference: &Difference,
) -> Result<(), AllocError>
    ensures old { OnOk result (counted trivia marks.now olds.new
        ≡ past (levels difference.now.old difference.now.new) (counted trivia marks.now olds.old)) }
    ensures new { OnOk result (counted trivia [] news.new
        ≡ past (levels difference.now.new difference.now.old) (counted trivia [] news.old)) }
{
    let old_levels = levels(&difference.old, &difference.new);
    let new_levels = levels(&difference.new, &difference.old);
    skip(olds, marks, trivia, old_levels)?;
    skip(news, &[], trivia, new_levels)
}

// Adds the differences of the rest of two walks, as `differences` has them, to an empty list.
fn push_differences(
    olds: &mut PreorderWithTokens,
    marks: &[bool],
    news: &mut PreorderWithTokens,
    trivia: Trivia,
    limit: usize,
    found: &mut Vec<Difference>,
) -> Result<(), AllocError>
    requires { found.old.items ≡ [] }
    ensures { OnOk result (AreDifferences limit (counted trivia marks.now olds.old)
        (counted trivia [] news.old) found.new.items) }
{
    while found.len() < limit {
        let Some(difference) = next_difference(olds, marks, news, trivia) else {
            return Ok(());
        };
        skip_both(olds, marks, news, trivia, &difference)?;
        found.push(difference)?;
    }
    Ok(())
}

/// The first places where two trees differ, at most `limit`, in order; all of them if there are
/// fewer. The first is that of [`first_difference`]. After a difference the walks continue: after
/// both nodes or tokens if both walks enter one there; after the parents if one tree has further
/// children and the other has none. So children are compared by their places: after an inserted
/// child, each later one is compared with the child of the other tree one place before.
///
/// Takes time linear in the two trees.
///
/// # Errors
///
/// `AllocError` if memory runs out.
pub fn differences(
    alloc: Global,
    old: &SyntaxNode,
    marks: &[bool],
    new: &SyntaxNode,
    trivia: Trivia,
    limit: usize,
) -> Result<Vec<Difference>, AllocError>
    ensures { IfOk result (λ found.
        AreDifferences limit (counted trivia marks.now (walk_of old.now))
        (counted trivia [] (walk_of new.now)) found.items) }
{
    let mut olds = old.preorder_with_tokens();
    let mut news = new.preorder_with_tokens();
    let mut found = Vec::new(alloc);
    push_differences(&mut olds, marks, &mut news, trivia, limit, &mut found)?;
    Ok(found)
}
