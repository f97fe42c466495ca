//! Laws about the definitions that the contracts use. The functions do nothing.
ghost use Rattle.std.specs.Prelude.{◌≡◌, ◌≤◌, ℕ, List, Option, Some, MatchOption, length};
ghost use Rattle.line_index.specs.Lines.{line_col_at, IsOffset, NoOffset};

/// `offset` returns the offset whose line and column `line_col` returned.
pub fn offset_undoes_line_col()
    ensures { (s : List ℕ) (o : ℕ) (answer : Option ℕ) → o ≤ length s
        → MatchOption answer (NoOffset s (line_col_at s o)) (IsOffset s (line_col_at s o))
        → answer ≡ Some o }
{}
