//! Interpolation search: starts mostly rise evenly with the row numbers, so a search of rows by
//! offset first guesses the row by linear interpolation.
ghost use Rattle.std.specs.Prelude.{◌≤◌, ◌<◌, ◌-◌};
ghost use Rattle.tree_model.specs.Tree.{size};
ghost use Rattle.tree_rows.specs.RowSearch.{IsNarrowed};

use super::Table;

// Stretches of at most this many rows are left to binary search.
const SHORT: usize = 64;

/// The rows `low..high`.
#[derive(Clone, Copy)]
pub struct Stretch {
    pub low: usize,
    pub high: usize,
}

impl Table {
    // A part of a stretch that contains the first row that starts at or after `offset`, or ends
    // right before it. It starts at a guess and takes growing steps, so a search costs at most a
    // constant factor more than binary search alone.
    pub(super) fn narrowed(&self, whole: Stretch, offset: usize) -> Stretch
        requires ordered { whole.low ≤ whole.high }
        requires in_range { whole.high ≤ size self.now }
        ensures { IsNarrowed self.now whole offset result }
    {
        let mut near = whole;
        if near.high - near.low > SHORT {
            let guess = self.guess(near.low, near.high - 1, offset);
            let mut reach = 8;
            while reach < (near.high - near.low) / 2 {
                near = self.narrower(near, guess, offset, reach);
                reach = reach.saturating_mul(8);
            }
        }
        near
    }

    // The half of a stretch that is left after a look at the row in its middle.
    pub(super) fn halved(&self, whole: Stretch, offset: usize) -> Stretch
        requires some { whole.low < whole.high }
        requires in_range { whole.high ≤ size self.now }
        ensures narrowed { IsNarrowed self.now whole offset result }
        ensures shorter { result.high - result.low < whole.high - whole.low }
    {
        let middle = whole.low + (whole.high - whole.low) / 2;
        if (self.start_at(middle) as usize) < offset {
            Stretch {
                low: middle + 1,
                high: whole.high,
            }
        } else {
            Stretch {
                low: whole.low,
                high: middle,
            }
        }
    }

    // The part of a stretch that is left after a look at the rows `reach` before and after the
    // guess, clamped to the stretch.
    fn narrower(&self, whole: Stretch, guess: usize, offset: usize, reach: usize) -> Stretch
        requires some { whole.low < whole.high }
        requires in_range { whole.high ≤ size self.now }
        ensures narrowed { IsNarrowed self.now whole offset result }
        ensures shorter { result.high - result.low < whole.high - whole.low }
    {
        let last = whole.high - 1;
        let before = guess.saturating_sub(reach).clamp(whole.low, last);
        let behind = guess.saturating_add(reach).clamp(whole.low, last);
        if self.start_at(before) as usize >= offset {
            Stretch {
                low: whole.low,
                high: before,
            }
        } else if (self.start_at(behind) as usize) < offset {
            Stretch {
                low: behind + 1,
                high: whole.high,
            }
        } else {
            Stretch {
                low: before + 1,
                high: behind,
            }
        }
    }

    // Linear interpolation: the row as far along from `first` to `last` as `offset` is between
    // their starts. Any row would do.
    fn guess(&self, first: usize, last: usize, offset: usize) -> usize
        requires ordered { first ≤ last }
        requires in_range { last < size self.now }
        ensures { result ≤ last }
    {
        let start = self.start_at(first) as usize;
        let bytes = (self.start_at(last) as usize).saturating_sub(start) + 1;
        let along = offset.saturating_sub(start).wrapping_mul(last - first) / bytes;
        first + along.min(last - first)
    }
}
