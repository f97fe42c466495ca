//! Literals.
ghost use Rattle.std.specs.Prelude.{◌≡◌, option_map};
ghost use Rattle.std.specs.Option.{option_and_then};
ghost use Rattle.ras_node.specs.Nodes.{kind_at};
ghost use Rattle.ras_tokens.specs.LiteralShapes.{literal_shape, literal_by};
ghost use Rattle.ras_expr_ext.specs.ExprParts.{literal_token};

use crate::ast::{self, LiteralKind};
use lossless_tree::SyntaxToken;
use ras_node::sets::BeforeLiteral;

impl ast::Literal {
    /// The first child that is not an attribute, documentation comment, white space or comment, if
    /// it is a token.
    pub fn token(&self) -> Option<SyntaxToken>
        ensures { result ≡ literal_token self.now.syntax }
    {
        ras_node::first_other::<BeforeLiteral>(self.syntax.children_with_tokens())?.into_token()
    }

    /// The kind of literal that [`token`](Self::token) is, or `None` if there is no token or its
    /// kind is not that of a literal.
    pub fn kind(&self) -> Option<LiteralKind>
        ensures { option_map literal_shape result
            ≡ option_and_then (λ t. literal_by (kind_at t) t) (literal_token self.now.syntax) }
    {
        LiteralKind::of_token(self.token()?)
    }
}
