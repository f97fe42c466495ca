//! The walk that enters and leaves each row of a subtree.
ghost use Rattle.std.specs.Prelude.{◌≡◌, ◌∷◌, [], MatchOption, IfSome};
ghost use Rattle.tree_model.specs.Rows.{IsRow};
ghost use Rattle.tree_model.specs.Cursor.{cursor_at};
ghost use Rattle.tree_rows.specs.Walks.{walk_left, IsWalk, MovesLevel};

use super::Table;

/// One step of a walk: the row that is entered or left, and the state of the walk after that.
#[derive(Clone, Copy)]
pub struct WalkStep {
    /// Whether the row is entered; otherwise it is left.
    pub enters: bool,
    /// The row.
    pub row: usize,
    /// The first row that is not entered yet.
    pub next: usize,
    /// The innermost row that is entered and not left.
    pub innermost: Option<usize>,
}

impl Table {
    /// The next step of the walk of the subtree at row `start`, when its rows before `next` have
    /// been entered and `innermost` is open; `None` at the end.
    pub fn walk_step(&self, start: usize, next: usize, innermost: Option<usize>) -> Option<WalkStep>
        requires { IsWalk self.now start next innermost }
        ensures rest { MatchOption result (walk_left self.now start next innermost ≡ [])
            (λ s. walk_left self.now start next innermost
            ≡ (s.enters, cursor_at self.now s.row) ∷ walk_left self.now start s.next s.innermost) }
        ensures state { MatchOption result (IsWalk self.now start next innermost)
            (λ s. IsRow self.now s.row × IsWalk self.now start s.next s.innermost) }
        ensures level { IfSome result
            (λ s. MovesLevel self.now start innermost s.enters s.row s.innermost) }
    {
        match innermost {
            None => {
                if next != start {
                    return None;
                }
                // The row's end says, for the proof, that the number after it fits.
                let _end = self.row(start);
                let next = start + 1;
                Some(WalkStep {
                    enters: true,
                    row: start,
                    next,
                    innermost: Some(start),
                })
            }
            Some(inner) => {
                if next < self.row(inner).end {
                    let after = next + 1;
                    Some(WalkStep {
                        enters: true,
                        row: next,
                        next: after,
                        innermost: Some(next),
                    })
                } else if inner == start {
                    Some(WalkStep {
                        enters: false,
                        row: inner,
                        next,
                        innermost: None,
                    })
                } else {
                    Some(WalkStep {
                        enters: false,
                        row: inner,
                        next,
                        innermost: self.parent_row(inner),
                    })
                }
            }
        }
    }
}
