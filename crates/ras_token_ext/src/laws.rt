//! Laws about the definitions that the calls' contracts name. The functions do nothing: the
//! contract is the law.
ghost use Rattle.std.specs.Prelude.{◌≡◌, ℕ, List, false, None};
ghost use Rattle.std.specs.Str.{IsUtf8};
ghost use Rattle.literal_escape.specs.declared.mode.Mode.{Mode};
ghost use Rattle.literal_escape.specs.declared.mode.Mode.TheVariants as modes;
ghost use Rattle.ras_token_ext.specs.Literals.{has_backslash, last_fault, meanings, string_meanings};

/// A content without a backslash and without a fatal fault is its own value: borrowing it and
/// joining the meanings of its units give the same value.
pub fn plain_means_itself()
    ensures bytes { (mode : Mode) (content : List ℕ) → IsUtf8 content
        → has_backslash content ≡ false → last_fault mode content ≡ None
        → meanings mode content ≡ content }
    ensures text { (content : List ℕ) → IsUtf8 content
        → has_backslash content ≡ false → last_fault modes.Str content ≡ None
        → string_meanings content ≡ content }
{}
