//! A node that can have attributes: of a kind that has `HasAttrs`. Made by `tools/views` from
//! `views.txt`.
ghost use Rattle.std.specs.Prelude.{◌≡◌, Some, true, ⊤, option_map};
ghost use Rattle.std.specs.Cmp.{partial_equiv_from_equiv, on_equiv};
ghost use Rattle.tree_model.specs.Tree.{text};
ghost use Rattle.tree_model.specs.Cursor.{focus};
ghost use Rattle.lossless_tree.specs.Dump.{span_text};
ghost use Rattle.tree_model.specs.Equality.{is_same_cursor, cursor_hash};
ghost use Rattle.tree_model.specs.EqualityLaws.{cursor_equivalence, cursors_alike};
ghost use Rattle.ras_node.specs.Nodes.{kind_at};
ghost use Rattle.ras_node.specs.Lookups.{if_of};
ghost use Rattle.ras_node.specs.Sets.{has_attrs};

use crate::ast::{AstNode, HasAttrs, Within, support};
use lossless_tree::{SyntaxKind, SyntaxNode};
use ras_node::sets::{AttrHolders, KindSet};
use std::alloc::AllocError;
use std::fmt;
use std::hash::{Hash, Hasher};

/// A node that can have attributes: of a kind that has `HasAttrs`.
#[derive(Drop)]
pub struct AnyHasAttrs {
    pub(crate) syntax: SyntaxNode,
    ghost is: { has_attrs (kind_at syntax) ≡ true },
}

impl AnyHasAttrs {
    /// The node of a view that has `HasAttrs`; `None` if no view of this library has it.
    pub fn new<N: HasAttrs>(it: &N) -> Option<AnyHasAttrs>
        ensures { option_map (λ it. it.syntax) result ≡ if_of has_attrs (N.node it.now) }
    {
        Self::cast(support::share(it.syntax()))
    }
}

impl AstNode for AnyHasAttrs {
    ghost casts = { has_attrs };

    ghost node = { λ it. it.syntax };

    ghost castable = { λ it. it.is };

    fn can_cast(kind: SyntaxKind) -> bool {
        AttrHolders::has(kind)
    }

    fn cast(syntax: SyntaxNode) -> Option<AnyHasAttrs> {
        if Self::can_cast(syntax.kind()) {
            Some(AnyHasAttrs { syntax })
        } else {
            None
        }
    }

    fn syntax(&self) -> &SyntaxNode {
        &self.syntax
    }
}

impl Clone for AnyHasAttrs {
    ghost is_clone = { λ s copy. copy ≡ s };

    ghost is_infallible = { λ _. ⊤ };

    fn clone(&self) -> Result<AnyHasAttrs, AllocError> {
        let syntax = self.syntax.clone()?;
        Ok(AnyHasAttrs { syntax })
    }
}

impl PartialEq for AnyHasAttrs {
    ghost eq = { λ a b. is_same_cursor a.syntax b.syntax };

    ghost laws = { partial_equiv_from_equiv (on_equiv (λ it. it.syntax) cursor_equivalence) };

    fn eq(&self, other: &AnyHasAttrs) -> bool {
        self.syntax == other.syntax
    }
}

impl Eq for AnyHasAttrs {
    ghost laws = { on_equiv (λ it. it.syntax) cursor_equivalence };
}

impl Hash for AnyHasAttrs {
    ghost hash_input = { λ it. cursor_hash it.syntax };

    ghost respects_eq = { λ a b same. cursors_alike a.syntax b.syntax same };

    fn hash<H: Hasher>(&self, state: &mut H) {
        self.syntax.hash(state);
    }
}

impl fmt::Display for AnyHasAttrs {
    ghost output = { λ it. Some (text (focus it.syntax)) };

    fn fmt<W: fmt::Write>(&self, f: &mut fmt::Formatter<W>) -> fmt::Result {
        let text = self.syntax.as_str();
        write!(f, "{text}")
    }
}

/// The kind and the range, as the node prints.
impl fmt::Debug for AnyHasAttrs {
    ghost debug_output = { λ it. Some (span_text it.syntax) };

    fn fmt<W: fmt::Write>(&self, f: &mut fmt::Formatter<W>) -> fmt::Result {
        fmt::Debug::fmt(self.syntax(), f)
    }
}

impl<N: Within<AnyHasAttrs> + Drop> From<N> for AnyHasAttrs {
    ghost from_gives = { λ it made. made.syntax ≡ N.node it };

    fn from(it: N) -> AnyHasAttrs {
        AnyHasAttrs {
            syntax: support::share(it.syntax()),
        }
    }
}
