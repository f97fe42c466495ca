//! Walks of trees without what does not count.
ghost use Rattle.std.specs.Prelude.{◌≡◌, ◌∷◌, [], IfOk, OnOk, option_map};
ghost use Rattle.tree_model.specs.Tree.{kind_of};
ghost use Rattle.lossless_tree.specs.Trees.{first_of, inside_first};
ghost use Rattle.tree_match.specs.Bare.{bare, behind_one};
ghost use Rattle.tree_match.specs.Walks.{levels_of, advance, is_there, taken, step_of, is_part};
ghost use Rattle.tree_match.specs.Lists.{taken_list};

use crate::bare::{Comments, bare, behind_one, is_node_there, past};
use crate::list::list_at;
use crate::part::{Comma, Part, Sort};
use crate::run::Run;
use lossless_tree::SyntaxKind;
use std::alloc::{AllocError, Global};
use std::collections::VecDeque;

/// A step of a walk.
#[derive(Clone, Copy, Drop)]
pub(crate) enum Seen<'t> {
    /// A node is entered.
    Enter(SyntaxKind),
    /// A node is left.
    Leave,
    /// A token.
    Token(SyntaxKind, &'t str),
    /// The walk has ended.
    End,
}

/// A walk that can pass over a node at once. A clause sees the siblings that are left on each
/// level, the innermost first. As long as it enters no node it allocates nothing.
#[derive(Drop)]
pub(crate) struct Walk<'t> {
    comments: Comments,
    // The innermost level; `None` at the end.
    level: Option<Run<'t>>,
    // The levels around it.
    around: VecDeque<Run<'t>>,
}

impl<'t> Walk<'t> {
    /// The walk of some siblings, and then the end of the node around them.
    pub(crate) fn new(alloc: Global, comments: Comments, start: &Run<'t>) -> Walk<'t>
        ensures comments { result.comments ≡ comments }
        ensures levels { levels_of result ≡ start.now ∷ [] }
    {
        Walk {
            comments,
            level: Some(start.all()),
            around: VecDeque::new(alloc),
        }
    }

    /// Begins anew, in the memory that it has.
    pub(crate) fn restart(&mut self, comments: Comments, start: &Run<'t>)
        ensures comments { self.new.comments ≡ comments }
        ensures levels { levels_of self.new ≡ start.now ∷ [] }
    {
        self.comments = comments;
        self.level = Some(start.all());
        self.around.clear();
    }

    // Ends the innermost level.
    fn leave(&mut self)
        ensures levels { levels_of self.new ≡ self.old.around.items }
        ensures same { self.new.comments ≡ self.old.comments }
    {
        match self.around.pop_front() {
            None => self.level = None,
            Some(outer) => self.level = Some(outer),
        }
    }

    // Enters the first of some siblings, a node.
    fn enter(&mut self, here: &Run<'t>) -> Result<SyntaxKind, AllocError>
        ensures kind { IfOk result (λ k. k
            ≡ kind_of (first_of (bare self.old.comments here.now).trees)) }
        ensures levels { OnOk result (levels_of self.new
            ≡ inside_first (bare self.old.comments here.now)
            ∷ (behind_one self.old.comments here.now ∷ self.old.around.items)) }
        ensures same { self.new.comments ≡ self.old.comments }
    {
        let inner = bare(self.comments, here);
        self.around.push_front(behind_one(self.comments, here))?;
        self.level = Some(inner.inside());
        Ok(inner.kind())
    }

    /// The next step.
    pub(crate) fn next(&mut self) -> Result<Seen<'t>, AllocError>
        ensures step { IfOk result (λ s. (step_of s, levels_of self.new)
            ≡ advance self.old.comments (levels_of self.old)) }
        ensures same { self.new.comments ≡ self.old.comments }
    {
        let Some(level) = &self.level else {
            return Ok(Seen::End);
        };
        let here = past(self.comments, level);
        if here.is_done() {
            self.leave();
            return Ok(Seen::Leave);
        }
        if here.is_token() {
            self.level = Some(here.rest());
            return Ok(Seen::Token(here.kind(), here.text()));
        }
        Ok(Seen::Enter(self.enter(&here)?))
    }

    /// The kind and the text of the next node without the pairs round it; `None` if no node is
    /// next.
    pub(crate) fn peek(&self) -> Option<(SyntaxKind, &'t str)> {
        let Some(level) = &self.level else {
            return None;
        };
        let here = past(self.comments, level);
        if here.is_done() || here.is_token() {
            return None;
        }
        let inner = bare(self.comments, &here);
        Some((inner.kind(), inner.text()))
    }

    /// Passes over the next node or token, if one is next.
    pub(crate) fn pass(&mut self) {
        if let Some(level) = &self.level {
            let here = past(self.comments, level);
            self.level = Some(behind_one(self.comments, &here));
        }
    }

    /// Passes over the next node, or token for a word, if it is of the sort; returns it.
    pub(crate) fn take(&mut self, sort: Sort) -> Option<Run<'t>>
        ensures taken { option_map (λ v. (v, levels_of self.new)) result
            ≡ taken self.old.comments sort (levels_of self.old) }
        ensures same { self.new.comments ≡ self.old.comments }
    {
        let Some(level) = &self.level else {
            return None;
        };
        let here = past(self.comments, level);
        if !(is_there(sort, &here) && sort.has(here.kind())) {
            return None;
        }
        self.level = Some(behind_one(self.comments, &here));
        Some(here.first(1))
    }

    /// Passes over the elements of a list on the innermost level, but for so many at its end;
    /// returns them.
    pub(crate) fn take_list(
        &mut self,
        comma: Comma,
        behind: usize,
    ) -> Result<Option<Run<'t>>, AllocError>
        ensures taken { IfOk result (λ o. option_map (λ v. (v, levels_of self.new)) o
            ≡ taken_list self.old.comments comma behind (levels_of self.old)) }
        ensures same { self.new.comments ≡ self.old.comments }
    {
        let Some(level) = &self.level else {
            return Ok(None);
        };
        let here = past(self.comments, level);
        let Some((list, rest)) = list_at(self.comments, comma, behind, &here)? else {
            return Ok(None);
        };
        self.level = Some(rest);
        Ok(Some(list))
    }
}

// Whether the first of some siblings is a token, if a word is asked for, and else a node.
fn is_there(sort: Sort, left: &Run<'_>) -> bool
    ensures { result ≡ is_there sort left.now.trees }
{
    match sort {
        Sort::Word => left.is_token(),
        Sort::Expr | Sort::Ty | Sort::Pat | Sort::Path | Sort::List => is_node_there(left),
    }
}

/// Whether a step is that of a pattern.
pub(crate) fn is_part(part: &Part, step: Seen<'_>) -> bool
    ensures { result ≡ is_part part.now (step_of step.entry) }
{
    match (part, step) {
        (Part::Enter(a), Seen::Enter(b)) => a.to_raw() == b.to_raw(),
        (Part::Leave, Seen::Leave) => true,
        (Part::Token(a, text), Seen::Token(b, other)) => {
            a.to_raw() == b.to_raw() && text.as_str() == other
        }
        _ => false,
    }
}
