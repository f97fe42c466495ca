//! Names and their texts.
ghost use Rattle.std.specs.Prelude.{◌≡◌, ℕ, List, Some, None, option_map};
ghost use Rattle.tree_model.specs.Cursor.{focus};
ghost use Rattle.lossless_tree.specs.Trees.{child_text};
ghost use Rattle.ras_token_ext.specs.Fields.{IsTupleField};
ghost use Rattle.ra_ap_syntax.specs.NameLikeCases.{name_like_node};
ghost use Rattle.ra_ap_syntax.specs.NameParts.{used_name, lifetime_in};
ghost use Rattle.ra_ap_syntax.specs.NameOrNameRefCases.{name_or_name_ref_node};
ghost use Rattle.ras_node_ext.specs.NodeParts.{first_token_kind};

use crate::ast::{self, AstNode, NameLike, NameOrNameRef};
use lossless_tree::SyntaxKind;

impl ast::Name {
    /// The text of the first child, if that is a token.
    pub fn text(&self) -> Option<&str>
        ensures { option_map (λ s. s.now) result ≡ child_text (focus self.now.syntax) 0 }
    {
        self.syntax.child_text(0)
    }
}

impl ast::NameRef {
    /// The text of the first child, if that is a token.
    pub fn text(&self) -> Option<&str>
        ensures { option_map (λ s. s.now) result ≡ child_text (focus self.now.syntax) 0 }
    {
        self.syntax.child_text(0)
    }

    /// The text as the number of a tuple's field, as std parses a `usize`; `None` for other texts.
    pub fn as_tuple_field(&self) -> Option<usize>
        ensures text { (name : List ℕ) → child_text (focus self.now.syntax) 0 ≡ Some name
            → IsTupleField name result }
        ensures none { child_text (focus self.now.syntax) 0 ≡ None → result ≡ None }
    {
        ras_token_ext::tuple_field(self.text()?)
    }

    /// The kind of the first token, at any depth, or `ERROR` if there is none.
    pub fn token_kind(&self) -> SyntaxKind
        ensures { result ≡ first_token_kind self.now.syntax }
    {
        match self.syntax.first_token() {
            Some(token) => token.kind(),
            None => SyntaxKind::ERROR,
        }
    }
}

impl ast::Lifetime {
    /// The text of the first child, if that is a token.
    pub fn text(&self) -> Option<&str>
        ensures { option_map (λ s. s.now) result ≡ child_text (focus self.now.syntax) 0 }
    {
        self.syntax.child_text(0)
    }
}

impl NameLike {
    /// The name, if it is one that is used.
    pub fn as_name_ref(&self) -> Option<&ast::NameRef>
        ensures { option_map (λ it. it.now.syntax) result ≡ used_name self.now }
    {
        match self {
            NameLike::NameRef(it) => Some(it),
            NameLike::Name(_) | NameLike::Lifetime(_) => None,
        }
    }

    /// The lifetime, if it is one.
    pub fn as_lifetime(&self) -> Option<&ast::Lifetime>
        ensures { option_map (λ it. it.now.syntax) result ≡ lifetime_in self.now }
    {
        match self {
            NameLike::Lifetime(it) => Some(it),
            NameLike::NameRef(_) | NameLike::Name(_) => None,
        }
    }

    /// The text of the first child, if that is a token.
    pub fn text(&self) -> Option<&str>
        ensures { option_map (λ s. s.now) result ≡ child_text (focus (name_like_node self.now)) 0 }
    {
        self.syntax().child_text(0)
    }
}

impl NameOrNameRef {
    /// The text of the first child, if that is a token.
    pub fn text(&self) -> Option<&str>
        ensures { option_map (λ s. s.now) result
            ≡ child_text (focus (name_or_name_ref_node self.now)) 0 }
    {
        self.syntax().child_text(0)
    }
}
