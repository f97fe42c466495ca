//! Keywords.
ghost use Rattle.std.specs.Prelude.{◌≡◌};
ghost use Rattle.tiny_lexer.specs.Keywords.{has_await_of, keyword_of, is_strict_of};

use ras_front_end::Edition;
use syntax_kind::SyntaxKind;

fn has_await(edition: Edition) -> bool
    ensures { result ≡ has_await_of edition }
{
    match edition {
        Edition::Edition2015 => false,
        _ => true,
    }
}

/// The kind of the keyword that the text is, or `None` if it is not one. `await` is one from 2018
/// on.
pub fn keyword(text: &str, edition: Edition) -> Option<SyntaxKind>
    ensures { result ≡ keyword_of edition text.now }
{
    match text {
        "fn" => Some(SyntaxKind::FN_KW),
        "let" => Some(SyntaxKind::LET_KW),
        "mut" => Some(SyntaxKind::MUT_KW),
        "true" => Some(SyntaxKind::TRUE_KW),
        "false" => Some(SyntaxKind::FALSE_KW),
        "as" => Some(SyntaxKind::AS_KW),
        "crate" => Some(SyntaxKind::CRATE_KW),
        "self" => Some(SyntaxKind::SELF_KW),
        "super" => Some(SyntaxKind::SUPER_KW),
        "Self" => Some(SyntaxKind::SELF_TYPE_KW),
        "await" if has_await(edition) => Some(SyntaxKind::AWAIT_KW),
        _ => None,
    }
}

/// Whether a kind is that of one of the keywords of [`keyword`] in the edition. All are strict.
pub fn is_strict_keyword(kind: SyntaxKind, edition: Edition) -> bool
    ensures { result ≡ is_strict_of edition kind }
{
    match kind {
        SyntaxKind::FN_KW => true,
        SyntaxKind::LET_KW => true,
        SyntaxKind::MUT_KW => true,
        SyntaxKind::TRUE_KW => true,
        SyntaxKind::FALSE_KW => true,
        SyntaxKind::AS_KW => true,
        SyntaxKind::CRATE_KW => true,
        SyntaxKind::SELF_KW => true,
        SyntaxKind::SUPER_KW => true,
        SyntaxKind::SELF_TYPE_KW => true,
        SyntaxKind::AWAIT_KW => has_await(edition),
        _ => false,
    }
}
