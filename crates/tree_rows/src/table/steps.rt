//! Steps from row to row: the last child, the previous sibling, the nearest token.
ghost use Rattle.std.specs.Prelude.{◌≡◌, ◌+◌, ◌<◌, ◌≤◌, ◌&&◌, option_map, IfSome, reverse};
ghost use Rattle.std.specs.List.{find};
ghost use Rattle.tree_model.specs.Tree.{size, IsToken, last_child_place, prev_sibling_place, sibling_place_in};
ghost use Rattle.tree_model.specs.Rows.{place_at, tree_at};
ghost use Rattle.tree_model.specs.Cursor.{cursor_at, at_token, descendants_of, all_tokens, IsRightBehind, IsRightBefore};
ghost use Rattle.tree_model.specs.declared.direction.Direction.TheVariants.{Next, Prev};
ghost use Rattle.tree_model.specs.NearestToken.{tokens_beyond, is_no_trivia};
ghost use Rattle.tree_rows.specs.RowSteps.{IsBelow, IsChildOver, IsFirstToken, IsLastToken, tokens_among};

use super::Table;
use tree_model::Direction;

impl Table {
    // The child of row `parent` whose subtree holds row `n`. It climbs from there.
    pub(super) fn child_over(&self, parent: usize, n: usize) -> usize
        requires { IsBelow self.now parent n }
        ensures { IsChildOver self.now parent n result }
    {
        let mut child = n;
        let mut above = self.parent(child);
        while above != parent {
            child = above;
            above = self.parent(child);
        }
        child
    }

    /// The row of the last child of row `n`, or `None` if it has none. It climbs from the last row
    /// below, so it takes time linear in the depth there.
    pub fn last_child_row(&self, n: usize) -> Option<usize>
        requires { n < size self.now }
        ensures place { option_map (place_at self.now) result
            ≡ last_child_place self.now (place_at self.now n) }
        ensures in_range { IfSome result (λ q. q < size self.now) }
    {
        let last = self.row(n).end - 1;
        if n < last {
            Some(self.child_over(n, last))
        } else {
            None
        }
    }

    /// The row of the previous sibling of row `n`; `None` for a first child and for the root. It
    /// climbs from the row before, so it takes time linear in the depth there.
    pub fn prev_sibling_row(&self, n: usize) -> Option<usize>
        requires { n < size self.now }
        ensures place { option_map (place_at self.now) result
            ≡ prev_sibling_place (place_at self.now n) }
        ensures in_range { IfSome result (λ q. q < size self.now) }
    {
        let parent = self.parent_row(n)?;
        let before = n - 1;
        if parent < before {
            Some(self.child_over(parent, before))
        } else {
            None
        }
    }

    /// The next sibling or the previous one.
    pub fn sibling_row(&self, n: usize, direction: Direction) -> Option<usize>
        requires { n < size self.now }
        ensures place { option_map (place_at self.now) result
            ≡ sibling_place_in direction self.now (place_at self.now n) }
        ensures in_range { IfSome result (λ q. q < size self.now) }
    {
        match direction {
            Direction::Next => self.next_sibling_row(n),
            Direction::Prev => self.prev_sibling_row(n),
        }
    }

    // The first token among the rows `from..to`.
    pub(super) fn first_token_row(&self, from: usize, to: usize) -> Option<usize>
        requires { to ≤ size self.now }
        ensures found { IsFirstToken self.now from to result }
        ensures token { IfSome result (λ q. IsToken (tree_at self.now q)) }
        ensures in_range { IfSome result (λ q. q < size self.now) }
    {
        for n in from..to {
            if self.row(n).is_token {
                return Some(n);
            }
        }
        None
    }

    // The last token among the rows `from..to`.
    pub(super) fn last_token_row(&self, from: usize, to: usize) -> Option<usize>
        requires { to ≤ size self.now }
        ensures found { IsLastToken self.now from to result }
        ensures token { IfSome result (λ q. IsToken (tree_at self.now q)) }
        ensures in_range { IfSome result (λ q. q < size self.now) }
    {
        let mut after = to;
        while from < after {
            after -= 1;
            if self.row(after).is_token {
                return Some(after);
            }
        }
        None
    }

    /// The first token of the subtree at row `n`.
    pub fn first_token_in(&self, n: usize) -> Option<usize>
        requires { n < size self.now }
        ensures found { option_map (cursor_at self.now) result
            ≡ find at_token (descendants_of (cursor_at self.now n)) }
        ensures token { IfSome result (λ q. IsToken (tree_at self.now q)) }
        ensures in_range { IfSome result (λ q. q < size self.now) }
    {
        let end = self.row(n).end;
        self.first_token_row(n, end)
    }

    /// The last token of the subtree at row `n`.
    pub fn last_token_in(&self, n: usize) -> Option<usize>
        requires { n < size self.now }
        ensures found { option_map (cursor_at self.now) result
            ≡ find at_token (reverse (descendants_of (cursor_at self.now n))) }
        ensures token { IfSome result (λ q. IsToken (tree_at self.now q)) }
        ensures in_range { IfSome result (λ q. q < size self.now) }
    {
        let end = self.row(n).end;
        self.last_token_row(n, end)
    }

    /// The token right after the token at row `n`.
    pub fn next_token_row(&self, n: usize) -> Option<usize>
        requires is_row { n < size self.now }
        requires is_token { IsToken (tree_at self.now n) }
        ensures found { IsRightBehind (all_tokens (cursor_at self.now n)) (cursor_at self.now n)
            (option_map (cursor_at self.now) result) }
        ensures token { IfSome result (λ q. IsToken (tree_at self.now q)) }
        ensures in_range { IfSome result (λ q. q < size self.now) }
    {
        let count = self.len();
        self.first_token_row(n + 1, count)
    }

    /// The token right before the token at row `n`.
    pub fn prev_token_row(&self, n: usize) -> Option<usize>
        requires is_row { n < size self.now }
        requires is_token { IsToken (tree_at self.now n) }
        ensures found { IsRightBefore (all_tokens (cursor_at self.now n)) (cursor_at self.now n)
            (option_map (cursor_at self.now) result) }
        ensures token { IfSome result (λ q. IsToken (tree_at self.now q)) }
        ensures in_range { IfSome result (λ q. q < size self.now) }
    {
        self.last_token_row(0, n)
    }

    // Whether the node or token at row `n` is a token that is not trivia. It reads the row once.
    fn is_no_trivia_token_at(&self, n: usize) -> bool
        requires { n < size self.now }
        ensures { result
            ≡ (at_token (cursor_at self.now n) && is_no_trivia (cursor_at self.now n)) }
    {
        let row = self.row(n);
        row.is_token && !row.kind.is_trivia()
    }

    // The first token among the rows `from..to` that is not trivia.
    fn first_no_trivia_token_row(&self, from: usize, to: usize) -> Option<usize>
        requires { to ≤ size self.now }
        ensures found { option_map (cursor_at self.now) result
            ≡ find is_no_trivia (tokens_among self.now from to) }
        ensures token { IfSome result (λ q. IsToken (tree_at self.now q)) }
        ensures in_range { IfSome result (λ q. q < size self.now) }
    {
        for n in from..to {
            if self.is_no_trivia_token_at(n) {
                return Some(n);
            }
        }
        None
    }

    // The last token among the rows `from..to` that is not trivia.
    fn last_no_trivia_token_row(&self, from: usize, to: usize) -> Option<usize>
        requires { to ≤ size self.now }
        ensures found { option_map (cursor_at self.now) result
            ≡ find is_no_trivia (reverse (tokens_among self.now from to)) }
        ensures token { IfSome result (λ q. IsToken (tree_at self.now q)) }
        ensures in_range { IfSome result (λ q. q < size self.now) }
    {
        let mut after = to;
        while from < after {
            after -= 1;
            if self.is_no_trivia_token_at(after) {
                return Some(after);
            }
        }
        None
    }

    /// The nearest token after the token at row `n` that is not trivia. It goes over the rows
    /// between, and reads each once.
    pub fn next_no_trivia_token_row(&self, n: usize) -> Option<usize>
        requires is_row { n < size self.now }
        requires is_token { IsToken (tree_at self.now n) }
        ensures found { option_map (cursor_at self.now) result
            ≡ find is_no_trivia (tokens_beyond Next (cursor_at self.now n)) }
        ensures token { IfSome result (λ q. IsToken (tree_at self.now q)) }
        ensures in_range { IfSome result (λ q. q < size self.now) }
    {
        let count = self.len();
        self.first_no_trivia_token_row(n + 1, count)
    }

    /// The nearest token before the token at row `n` that is not trivia. It goes over the rows
    /// between, and reads each once.
    pub fn prev_no_trivia_token_row(&self, n: usize) -> Option<usize>
        requires is_row { n < size self.now }
        requires is_token { IsToken (tree_at self.now n) }
        ensures found { option_map (cursor_at self.now) result
            ≡ find is_no_trivia (tokens_beyond Prev (cursor_at self.now n)) }
        ensures token { IfSome result (λ q. IsToken (tree_at self.now q)) }
        ensures in_range { IfSome result (λ q. q < size self.now) }
    {
        self.last_no_trivia_token_row(0, n)
    }
}
