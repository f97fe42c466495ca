//! A view of a token as one of two types.
ghost use Rattle.std.specs.Prelude.{◌≡◌, IfSome, is_some, ◌||◌};
ghost use Rattle.either.specs.Either.{either, is_left};
ghost use Rattle.ras_node.specs.Nodes.{kind_at};
ghost use Rattle.ras_node.specs.EitherCases.{either_castable};

use crate::AstToken;
use either::Either;
use lossless_tree::{SyntaxKind, SyntaxToken};

/// A view of the kinds of both types; a token that can be viewed as either is viewed as the left
/// one.
impl<L: AstToken, R: AstToken> AstToken for Either<L, R> {
    ghost casts = { λ kind. L.casts kind || R.casts kind };

    ghost token = { either L.token R.token };

    ghost castable = { either_castable L.casts R.casts L.token R.token L.castable R.castable };

    fn can_cast(kind: SyntaxKind) -> bool {
        L::can_cast(kind) || R::can_cast(kind)
    }

    fn cast(syntax: SyntaxToken) -> Option<Either<L, R>>
        ensures exact { is_some result ≡ (L.casts (kind_at syntax) || R.casts (kind_at syntax)) }
        ensures same { IfSome result (λ it. either L.token R.token it ≡ syntax) }
        ensures left_first { IfSome result (λ it. is_left it ≡ L.casts (kind_at syntax)) }
    {
        if L::can_cast(syntax.kind()) {
            match L::cast(syntax) {
                Some(left) => Some(Either::Left(left)),
                None => None,
            }
        } else {
            match R::cast(syntax) {
                Some(right) => Some(Either::Right(right)),
                None => None,
            }
        }
    }

    fn syntax(&self) -> &SyntaxToken {
        match self {
            Either::Left(left) => left.syntax(),
            Either::Right(right) => right.syntax(),
        }
    }
}
