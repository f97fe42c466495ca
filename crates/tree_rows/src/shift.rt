//! Rows that move to other numbers and other bytes.
ghost use Rattle.std.specs.Prelude.{◌≡◌, ◌+◌, ◌-◌, ◌<◌, ◌^◌};
ghost use Rattle.tree_rows.specs.MovedRows.{moved_number, NumberFits};

/// How rows move: row number `from_row + k` becomes `to_row + k`, and byte `from_byte + k` becomes
/// `to_byte + k`. Row numbers before `from_row` stay, such as those of the nodes around a piece.
#[derive(Clone, Copy)]
pub struct Shift {
    pub from_row: usize,
    pub to_row: usize,
    pub from_byte: usize,
    pub to_byte: usize,
}

impl Shift {
    /// The row number after the move.
    pub(crate) fn number(self, n: usize) -> usize
        requires { NumberFits self n }
        ensures { result ≡ moved_number self n }
    {
        if n < self.from_row {
            n
        } else {
            n - self.from_row + self.to_row
        }
    }

    /// The start of a row after the move.
    pub(crate) fn start(self, start: u32) -> u32
        requires { (start - self.from_byte) + self.to_byte < 2 ^ 32 }
        ensures { result ≡ (start - self.from_byte) + self.to_byte }
    {
        ((start as usize).saturating_sub(self.from_byte) + self.to_byte) as u32
    }
}
