//! A node that can have a name: of a kind that has `HasName`. Made by `tools/views` from
//! `views.txt`.
ghost use Rattle.std.specs.Prelude.{◌≡◌, Some, true, ⊤, option_map};
ghost use Rattle.tree_model.specs.Tree.{text};
ghost use Rattle.tree_model.specs.Cursor.{focus};
ghost use Rattle.lossless_tree.specs.Dump.{span_text};
ghost use Rattle.std.specs.Cmp.{partial_equiv_from_equiv, on_equiv};
ghost use Rattle.tree_model.specs.Equality.{is_same_cursor, cursor_hash};
ghost use Rattle.tree_model.specs.EqualityLaws.{cursor_equivalence, cursors_alike};
ghost use Rattle.ras_node.specs.Nodes.{kind_at};
ghost use Rattle.ras_node.specs.Lookups.{if_of};
ghost use Rattle.rust_views.specs.Sets.{has_name};

use ra_ap_syntax::ast::{AstNode, HasName, Within};
use ra_ap_syntax::{SyntaxKind, SyntaxNode};
use ras_node::support;
use std::alloc::AllocError;
use std::fmt;
use std::hash::{Hash, Hasher};

/// A node that can have a name: of a kind that has `HasName`.
#[derive(Drop)]
pub struct AnyHasName {
    syntax: SyntaxNode,
    ghost is: { has_name (kind_at syntax) ≡ true },
}

impl AnyHasName {
    /// The node of a view that has `HasName`; `None` if no view of this library has it.
    pub fn new<N: HasName>(it: &N) -> Option<AnyHasName>
        ensures { option_map (λ it. it.syntax) result ≡ if_of has_name (N.node it.now) }
    {
        Self::cast(support::share(it.syntax()))
    }
}

impl AstNode for AnyHasName {
    ghost casts = { has_name };

    ghost node = { λ it. it.syntax };

    ghost castable = { λ it. it.is };

    fn can_cast(kind: SyntaxKind) -> bool {
        matches!(
            kind,
            SyntaxKind::CONST
                | SyntaxKind::CONST_PARAM
                | SyntaxKind::ENUM
                | SyntaxKind::FN
                | SyntaxKind::IDENT_PAT
                | SyntaxKind::MACRO_DEF
                | SyntaxKind::MACRO_RULES
                | SyntaxKind::MODULE
                | SyntaxKind::RECORD_FIELD
                | SyntaxKind::SELF_PARAM
                | SyntaxKind::STATIC
                | SyntaxKind::STRUCT
                | SyntaxKind::TRAIT
                | SyntaxKind::TYPE_ALIAS
                | SyntaxKind::TYPE_PARAM
                | SyntaxKind::UNION
                | SyntaxKind::VARIANT
        )
    }

    fn cast(syntax: SyntaxNode) -> Option<AnyHasName> {
        if Self::can_cast(syntax.kind()) {
            Some(AnyHasName { syntax })
        } else {
            None
        }
    }

    fn syntax(&self) -> &SyntaxNode {
        &self.syntax
    }
}

impl Clone for AnyHasName {
    ghost is_clone = { λ s copy. copy ≡ s };

    ghost is_infallible = { λ _. ⊤ };

    fn clone(&self) -> Result<AnyHasName, AllocError> {
        let syntax = self.syntax.clone()?;
        Ok(AnyHasName { syntax })
    }
}

impl PartialEq for AnyHasName {
    ghost eq = { λ a b. is_same_cursor a.syntax b.syntax };

    ghost laws = { partial_equiv_from_equiv (on_equiv (λ it. it.syntax) cursor_equivalence) };

    fn eq(&self, other: &AnyHasName) -> bool {
        self.syntax == other.syntax
    }
}

impl Eq for AnyHasName {
    ghost laws = { on_equiv (λ it. it.syntax) cursor_equivalence };
}

impl Hash for AnyHasName {
    ghost hash_input = { λ it. cursor_hash it.syntax };

    ghost respects_eq = { λ a b same. cursors_alike a.syntax b.syntax same };

    fn hash<H: Hasher>(&self, state: &mut H) {
        self.syntax.hash(state);
    }
}

impl fmt::Display for AnyHasName {
    ghost output = { λ it. Some (text (focus it.syntax)) };

    fn fmt<W: fmt::Write>(&self, f: &mut fmt::Formatter<W>) -> fmt::Result {
        let text = self.syntax.as_str();
        write!(f, "{text}")
    }
}

/// The kind and the range, as the node prints.
impl fmt::Debug for AnyHasName {
    ghost debug_output = { λ it. Some (span_text it.syntax) };

    fn fmt<W: fmt::Write>(&self, f: &mut fmt::Formatter<W>) -> fmt::Result {
        fmt::Debug::fmt(self.syntax(), f)
    }
}

impl<N: Within<AnyHasName> + Drop> From<N> for AnyHasName {
    ghost from_gives = { λ it made. made.syntax ≡ N.node it };

    fn from(it: N) -> AnyHasName {
        AnyHasName {
            syntax: support::share(it.syntax()),
        }
    }
}
