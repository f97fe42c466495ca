//! Laws about the definitions that the calls' contracts name. The functions do nothing: the
//! contract is the law.
ghost use Rattle.std.specs.Prelude.{◌≡◌, ℕ, List};
ghost use Rattle.literal_escape.specs.declared.mode.Mode.{Mode};
ghost use Rattle.literal_escape.specs.Pieces.{Piece, IsCut, HasOneCut, reports_from, AreRanges};
ghost use Rattle.literal_escape.specs.Reading.{reports_in};

/// Each content has exactly one cut into pieces, in each literal.
pub fn one_cut()
    ensures { (mode : Mode) (content : List ℕ) → HasOneCut mode content }
{}

/// The ranges of a cut's reports start and end at character boundaries and follow each other: none
/// is empty, and none begins within the unit before it. (The range of a warning covers the text
/// that it is about.)
pub fn ranges()
    ensures { (mode : Mode) (content : List ℕ) (pieces : List Piece)
        → IsCut mode content pieces → AreRanges content (reports_from mode 0 pieces) }
{}

/// The reports that a reader returns for a content are those of its cut.
pub fn read_by_cut()
    ensures { (mode : Mode) (content : List ℕ) (pieces : List Piece)
        → IsCut mode content pieces → reports_in mode content ≡ reports_from mode 0 pieces }
{}
