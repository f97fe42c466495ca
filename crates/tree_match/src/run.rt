//! Runs of siblings.
ghost use Rattle.std.specs.Prelude.{◌≡◌, Some, None};
ghost use Rattle.tree_model.specs.Tree.{kind_of, text, is_token};
ghost use Rattle.lossless_tree.specs.Trees.{is_done, first_of, behind_first, inside_first};
ghost use Rattle.tree_match.specs.Runs.{run_of, run_range};

use lossless_tree::{SiblingsLeft, SyntaxKind, TextRange, TextSize};
use std::marker::Model;

/// Siblings from one on: all later ones, or so many. Its calls are those of [`SiblingsLeft`], and
/// take constant time, but for `range`.
#[derive(Drop)]
pub(crate) struct Run<'t> {
    left: SiblingsLeft<'t>,
    // How many there are; all if `None`.
    count: Option<usize>,
}

impl<'t> Model for Run<'t> {
    ghost use Rattle.lossless_tree.specs.Trees.{Siblings, siblings_code};
    ghost use Rattle.tree_match.specs.Runs.{run_of};

    ghost Value = { Siblings };

    ghost coded = { siblings_code };

    ghost view = { λ a. run_of a.count a.left };
}

impl<'t> Run<'t> {
    /// All of some siblings.
    pub(crate) fn of(left: SiblingsLeft<'t>) -> Run<'t>
        ensures { result ≡ left.entry }
    {
        Run { left, count: None }
    }

    /// A copy.
    pub(crate) fn all(&self) -> Run<'t>
        ensures { result ≡ self.now }
    {
        Run {
            left: self.left.all(),
            count: self.count,
        }
    }

    /// Whether nothing is left.
    pub(crate) fn is_done(&self) -> bool
        ensures { result ≡ is_done self.now.trees }
    {
        let Some(count) = self.count else {
            return self.left.is_done();
        };
        if count == 0 {
            return true;
        }
        self.left.is_done()
    }

    /// The kind of the first one.
    pub(crate) fn kind(&self) -> SyntaxKind
        ensures { result ≡ kind_of (first_of self.now.trees) }
    {
        let Some(count) = self.count else {
            return self.left.kind();
        };
        if count == 0 {
            return SyntaxKind::OTHER(0);
        }
        self.left.kind()
    }

    /// Whether the first one is a token.
    pub(crate) fn is_token(&self) -> bool
        ensures { result ≡ is_token (first_of self.now.trees) }
    {
        let Some(count) = self.count else {
            return self.left.is_token();
        };
        if count == 0 {
            return false;
        }
        self.left.is_token()
    }

    /// The text of the first one.
    pub(crate) fn text(&self) -> &'t str
        ensures { result.now ≡ text (first_of self.now.trees) }
    {
        let Some(count) = self.count else {
            return self.left.text();
        };
        if count == 0 {
            return "";
        }
        self.left.text()
    }

    /// Where the first one starts.
    pub(crate) fn start(&self) -> TextSize
        ensures { result ≡ self.now.start }
    {
        self.left.start()
    }

    /// The siblings behind the first one.
    pub(crate) fn rest(&self) -> Run<'t>
        ensures { result ≡ behind_first self.now }
    {
        let Some(count) = self.count else {
            return Run::of(self.left.rest());
        };
        if count == 0 {
            return self.all();
        }
        Run {
            left: self.left.rest(),
            count: Some(count - 1),
        }
    }

    /// The first few of them.
    pub(crate) fn first(&self, count: usize) -> Run<'t>
        ensures { result ≡ run_of (Some count) self.now }
    {
        let Some(other) = self.count else {
            return Run {
                left: self.left.all(),
                count: Some(count),
            };
        };
        if other < count {
            return self.all();
        }
        Run {
            left: self.left.all(),
            count: Some(count),
        }
    }

    /// The range of all of them. Takes time linear in their number.
    pub(crate) fn range(&self) -> TextRange
        ensures { result ≡ run_range self.now }
    {
        let mut rest = self.all();
        while !rest.is_done() {
            rest = rest.rest();
        }
        TextRange::new(self.start(), rest.start())
    }

    /// The children of the first one.
    pub(crate) fn inside(&self) -> Run<'t>
        ensures { result ≡ inside_first self.now }
    {
        let Some(count) = self.count else {
            return Run::of(self.left.inside());
        };
        if count == 0 {
            return self.all();
        }
        Run::of(self.left.inside())
    }
}
