//! A view as one of two types.
ghost use Rattle.std.specs.Prelude.{◌≡◌, IfSome, is_some, ◌||◌};
ghost use Rattle.either.specs.Either.{either, is_left};
ghost use Rattle.ras_node.specs.Nodes.{kind_at};
ghost use Rattle.ras_node.specs.EitherCases.{either_castable};

use crate::AstNode;
use either::Either;
use lossless_tree::{SyntaxKind, SyntaxNode};

/// A view of the kinds of both types; a node that can be viewed as either is viewed as the left
/// one.
impl<L: AstNode, R: AstNode> AstNode for Either<L, R> {
    ghost casts = { λ kind. L.casts kind || R.casts kind };

    ghost node = { either L.node R.node };

    ghost castable = { either_castable L.casts R.casts L.node R.node L.castable R.castable };

    fn can_cast(kind: SyntaxKind) -> bool {
        L::can_cast(kind) || R::can_cast(kind)
    }

    fn cast(syntax: SyntaxNode) -> Option<Either<L, R>>
        ensures exact { is_some result ≡ (L.casts (kind_at syntax) || R.casts (kind_at syntax)) }
        ensures same { IfSome result (λ it. either L.node R.node it ≡ syntax) }
        ensures left_first { IfSome result (λ it. is_left it ≡ L.casts (kind_at syntax)) }
    {
        if L::can_cast(syntax.kind()) {
            match L::cast(syntax) {
                Some(left) => Some(Either::Left(left)),
                None => None,
            }
        } else {
            match R::cast(syntax) {
                Some(right) => Some(Either::Right(right)),
                None => None,
            }
        }
    }

    fn syntax(&self) -> &SyntaxNode {
        match self {
            Either::Left(left) => left.syntax(),
            Either::Right(right) => right.syntax(),
        }
    }
}
