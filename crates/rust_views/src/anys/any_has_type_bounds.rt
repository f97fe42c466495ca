//! A node that can have type bounds: of a kind that has `HasTypeBounds`. Made by `tools/views` from
//! `views.txt`.
ghost use Rattle.std.specs.Prelude.{◌≡◌, Some, true, ⊤, option_map};
ghost use Rattle.tree_model.specs.Tree.{text};
ghost use Rattle.tree_model.specs.Cursor.{focus};
ghost use Rattle.lossless_tree.specs.Dump.{span_text};
ghost use Rattle.std.specs.Cmp.{partial_equiv_from_equiv, on_equiv};
ghost use Rattle.tree_model.specs.Equality.{is_same_cursor, cursor_hash};
ghost use Rattle.tree_model.specs.EqualityLaws.{cursor_equivalence, cursors_alike};
ghost use Rattle.ras_node.specs.Nodes.{kind_at};
ghost use Rattle.ras_node.specs.Lookups.{if_of};
ghost use Rattle.rust_views.specs.Sets.{has_type_bounds};

use ra_ap_syntax::ast::{AstNode, HasTypeBounds, Within};
use ra_ap_syntax::{SyntaxKind, SyntaxNode};
use ras_node::support;
use std::alloc::AllocError;
use std::fmt;
use std::hash::{Hash, Hasher};

/// A node that can have type bounds: of a kind that has `HasTypeBounds`.
#[derive(Drop)]
pub struct AnyHasTypeBounds {
    syntax: SyntaxNode,
    ghost is: { has_type_bounds (kind_at syntax) ≡ true },
}

impl AnyHasTypeBounds {
    /// The node of a view that has `HasTypeBounds`; `None` if no view of this library has it.
    pub fn new<N: HasTypeBounds>(it: &N) -> Option<AnyHasTypeBounds>
        ensures { option_map (λ it. it.syntax) result ≡ if_of has_type_bounds (N.node it.now) }
    {
        Self::cast(support::share(it.syntax()))
    }
}

impl AstNode for AnyHasTypeBounds {
    ghost casts = { has_type_bounds };

    ghost node = { λ it. it.syntax };

    ghost castable = { λ it. it.is };

    fn can_cast(kind: SyntaxKind) -> bool {
        matches!(
            kind,
            SyntaxKind::ASSOC_TYPE_ARG
                | SyntaxKind::LIFETIME_PARAM
                | SyntaxKind::TRAIT
                | SyntaxKind::TYPE_ALIAS
                | SyntaxKind::TYPE_PARAM
                | SyntaxKind::WHERE_PRED
        )
    }

    fn cast(syntax: SyntaxNode) -> Option<AnyHasTypeBounds> {
        if Self::can_cast(syntax.kind()) {
            Some(AnyHasTypeBounds { syntax })
        } else {
            None
        }
    }

    fn syntax(&self) -> &SyntaxNode {
        &self.syntax
    }
}

impl Clone for AnyHasTypeBounds {
    ghost is_clone = { λ s copy. copy ≡ s };

    ghost is_infallible = { λ _. ⊤ };

    fn clone(&self) -> Result<AnyHasTypeBounds, AllocError> {
        let syntax = self.syntax.clone()?;
        Ok(AnyHasTypeBounds { syntax })
    }
}

impl PartialEq for AnyHasTypeBounds {
    ghost eq = { λ a b. is_same_cursor a.syntax b.syntax };

    ghost laws = { partial_equiv_from_equiv (on_equiv (λ it. it.syntax) cursor_equivalence) };

    fn eq(&self, other: &AnyHasTypeBounds) -> bool {
        self.syntax == other.syntax
    }
}

impl Eq for AnyHasTypeBounds {
    ghost laws = { on_equiv (λ it. it.syntax) cursor_equivalence };
}

impl Hash for AnyHasTypeBounds {
    ghost hash_input = { λ it. cursor_hash it.syntax };

    ghost respects_eq = { λ a b same. cursors_alike a.syntax b.syntax same };

    fn hash<H: Hasher>(&self, state: &mut H) {
        self.syntax.hash(state);
    }
}

impl fmt::Display for AnyHasTypeBounds {
    ghost output = { λ it. Some (text (focus it.syntax)) };

    fn fmt<W: fmt::Write>(&self, f: &mut fmt::Formatter<W>) -> fmt::Result {
        let text = self.syntax.as_str();
        write!(f, "{text}")
    }
}

/// The kind and the range, as the node prints.
impl fmt::Debug for AnyHasTypeBounds {
    ghost debug_output = { λ it. Some (span_text it.syntax) };

    fn fmt<W: fmt::Write>(&self, f: &mut fmt::Formatter<W>) -> fmt::Result {
        fmt::Debug::fmt(self.syntax(), f)
    }
}

impl<N: Within<AnyHasTypeBounds> + Drop> From<N> for AnyHasTypeBounds {
    ghost from_gives = { λ it made. made.syntax ≡ N.node it };

    fn from(it: N) -> AnyHasTypeBounds {
        AnyHasTypeBounds {
            syntax: support::share(it.syntax()),
        }
    }
}
