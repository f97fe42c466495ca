//! The trait of views of tokens.
ghost use Rattle.std.specs.Prelude.{◌≡◌, Bool, true, IfSome, is_some};
ghost use Rattle.syntax_kind.specs.declared.syntax_kind.SyntaxKind.{SyntaxKind};
ghost use Rattle.tree_model.specs.Tree.{text};
ghost use Rattle.tree_model.specs.Cursor.{Cursor, focus};
ghost use Rattle.ras_node.specs.Nodes.{kind_at};

use lossless_tree::{SyntaxKind, SyntaxToken};

/// A view of a token as one kind of token, or as one of several.
pub trait AstToken: Sized {
    /// The kinds of the tokens that can be cast to this view.
    ghost casts: { SyntaxKind → Bool };

    /// The token of the view.
    ghost token: { Self → Cursor };

    /// Whether a token of this kind can be cast to this view.
    fn can_cast(kind: SyntaxKind) -> bool
        ensures { result ≡ casts kind };

    /// The view of a token, or `None` if it is of another kind.
    fn cast(syntax: SyntaxToken) -> Option<Self>
        ensures exact { is_some result ≡ casts (kind_at syntax) }
        ensures same { IfSome result (λ it. token it ≡ syntax) };

    /// The token of the view.
    fn syntax(&self) -> &SyntaxToken
        ensures { result.now ≡ token self.now };

    /// The token's text, a slice of the tree's one text.
    final fn text(&self) -> &str
        ensures { result.now ≡ text (focus (token self.now)) }
    {
        self.syntax().text()
    }

    ghost castable: { (it : Self) → casts (kind_at (token it)) ≡ true };
}
