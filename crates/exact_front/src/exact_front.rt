//! Front ends that know which pieces of a text are read by themselves as they are in the text.
ghost use Rattle.std.specs.Prelude.{◌≡◌, IfOk, option_map};
ghost use Rattle.ras_front_end.specs.Reading.{reading_of};
ghost use Rattle.exact_front.specs.Exact.{Exact, is_piece, ExactKeeps};

use ras_front_end::{Edition, FrontEnd, Output, Reparser};
use std::alloc::{AllocError, Global};
use syntax_kind::SyntaxKind;
use text_size::TextRange;

/// A front end that can tell of a piece of a text, from `{` to `}`, whether it is read in the text
/// as it is by itself, and of one token, whether its text alone changes.
///
/// Take a text that [`ExactFront::has_head`] does not refuse, with a node whose first child is `{`
/// and whose last child is `}`, which has a reparser here, and whose text is a piece by
/// [`ExactFront::exact_piece`]. If a new text of that node is a piece too, and neither the text nor
/// the new one is longer than [`ExactFront::longest`], then a parse of the new text should make
/// what a parse of the old one made, with the output for the piece in place of the node; but for
/// the messages of the lexer's errors behind the piece. The errors of a piece are behind its first
/// byte and before its last one, so that those of the text are told from them by where they are;
/// the parser's errors of the text come in the order of before, in and behind the piece.
/// The same goes for a token by [`ExactFront::is_retold`].
/// `Document` of `ras_parsing` relies on it. It is not a law of the trait: an implementation proves
/// only the law `exact_kept`, that the steps of a piece build one tree over its text. What a
/// document needs of it (`ReadsExactly`) is proved for Rust: by `document_laws`.
pub trait ExactFront: FrontEnd {
    // The results, as functions of the arguments.
    ghost exact: { Self → Exact };

    /// How many bytes the longest text has of which pieces may be read by themselves. (A parser's
    /// numbers may have few bits.)
    fn longest(&self) -> usize
        ensures { result ≡ (exact self.now).longest };

    /// Whether something may stand at the beginning of the text whose end depends on the rest of
    /// the text, such as a front matter.
    fn has_head(&self, text: &str) -> bool
        ensures { result ≡ (exact self.now).has_head text.now };

    /// The reparser of the nodes of a kind that stand between braces, or `None` if they are not
    /// read by themselves.
    fn exact_reparser(&self, kind: SyntaxKind) -> Option<Reparser>
        ensures { result ≡ (exact self.now).chosen kind };

    /// Parses a piece by a reparser that [`ExactFront::exact_reparser`] returned, or returns `None`
    /// if it is not known to be read in any text as by itself.
    fn exact_piece(
        &self,
        alloc: Global,
        reparser: Reparser,
        text: &str,
        edition: Edition,
    ) -> Result<Option<Output>, AllocError>
        ensures { IfOk result
            (λ o. option_map reading_of o ≡ (exact self.now).piece reparser edition text.now) };

    /// Whether [`ExactFront::exact_piece`] parses the text: without its output this takes less
    /// time.
    fn is_exact_piece(
        &self,
        alloc: Global,
        reparser: Reparser,
        text: &str,
        edition: Edition,
    ) -> Result<bool, AllocError>
        ensures { IfOk result
            (λ b. b ≡ is_piece ((exact self.now).piece reparser edition text.now)) };

    /// Whether a window of a text has the same tokens with the text `new` as with `old`, but for
    /// the text of one token, which is at the range `token` of `old`, and whether the parser takes
    /// this token for what it was.
    ///
    /// The window stands between the texts `before` and `behind`; its first and its last byte are
    /// braces, but at the start and the end of the whole text. A document asks this only where the
    /// window begins with a token of the text, [`ExactFront::has_head`] is false of the text, and
    /// no error of the lexer is behind the window. If the answer is yes then, a parse of the new
    /// text should make the old tree with the token's new text, and the old errors, moved with the
    /// text.
    /// `false` is always right. Takes the time of the lexer for `old` and `new`.
    fn is_retold(
        &self,
        alloc: Global,
        before: &str,
        old: &str,
        new: &str,
        behind: &str,
        token: TextRange,
        edition: Edition,
    ) -> Result<bool, AllocError>
        ensures { IfOk result (λ b. b
            ≡ (exact self.now).is_retold edition before.now old.now new.now behind.now token) };

    ghost exact_kept: { (front : Self) → ExactKeeps (exact front) };
}
