//! A node that can have generic parameters: of a kind that has `HasGenericParams`. Made by
//! `tools/views` from `views.txt`.
ghost use Rattle.std.specs.Prelude.{◌≡◌, Some, true, ⊤, option_map};
ghost use Rattle.std.specs.Cmp.{partial_equiv_from_equiv, on_equiv};
ghost use Rattle.tree_model.specs.Tree.{text};
ghost use Rattle.tree_model.specs.Cursor.{focus};
ghost use Rattle.lossless_tree.specs.Dump.{span_text};
ghost use Rattle.tree_model.specs.Equality.{is_same_cursor, cursor_hash};
ghost use Rattle.tree_model.specs.EqualityLaws.{cursor_equivalence, cursors_alike};
ghost use Rattle.ras_node.specs.Nodes.{kind_at};
ghost use Rattle.ras_node.specs.Lookups.{if_of};
ghost use Rattle.ras_node.specs.Sets.{has_generic_params};

use crate::ast::{AstNode, HasGenericParams, Within, support};
use lossless_tree::{SyntaxKind, SyntaxNode};
use ras_node::sets::{GenericParamHolders, KindSet};
use std::alloc::AllocError;
use std::fmt;
use std::hash::{Hash, Hasher};

/// A node that can have generic parameters: of a kind that has `HasGenericParams`.
#[derive(Drop)]
pub struct AnyHasGenericParams {
    pub(crate) syntax: SyntaxNode,
    ghost is: { has_generic_params (kind_at syntax) ≡ true },
}

impl AnyHasGenericParams {
    /// The node of a view that has `HasGenericParams`; `None` if no view of this library has it.
    pub fn new<N: HasGenericParams>(it: &N) -> Option<AnyHasGenericParams>
        ensures { option_map (λ it. it.syntax) result ≡ if_of has_generic_params (N.node it.now) }
    {
        Self::cast(support::share(it.syntax()))
    }
}

impl AstNode for AnyHasGenericParams {
    ghost casts = { has_generic_params };

    ghost node = { λ it. it.syntax };

    ghost castable = { λ it. it.is };

    fn can_cast(kind: SyntaxKind) -> bool {
        GenericParamHolders::has(kind)
    }

    fn cast(syntax: SyntaxNode) -> Option<AnyHasGenericParams> {
        if Self::can_cast(syntax.kind()) {
            Some(AnyHasGenericParams { syntax })
        } else {
            None
        }
    }

    fn syntax(&self) -> &SyntaxNode {
        &self.syntax
    }
}

impl Clone for AnyHasGenericParams {
    ghost is_clone = { λ s copy. copy ≡ s };

    ghost is_infallible = { λ _. ⊤ };

    fn clone(&self) -> Result<AnyHasGenericParams, AllocError> {
        let syntax = self.syntax.clone()?;
        Ok(AnyHasGenericParams { syntax })
    }
}

impl PartialEq for AnyHasGenericParams {
    ghost eq = { λ a b. is_same_cursor a.syntax b.syntax };

    ghost laws = { partial_equiv_from_equiv (on_equiv (λ it. it.syntax) cursor_equivalence) };

    fn eq(&self, other: &AnyHasGenericParams) -> bool {
        self.syntax == other.syntax
    }
}

impl Eq for AnyHasGenericParams {
    ghost laws = { on_equiv (λ it. it.syntax) cursor_equivalence };
}

impl Hash for AnyHasGenericParams {
    ghost hash_input = { λ it. cursor_hash it.syntax };

    ghost respects_eq = { λ a b same. cursors_alike a.syntax b.syntax same };

    fn hash<H: Hasher>(&self, state: &mut H) {
        self.syntax.hash(state);
    }
}

impl fmt::Display for AnyHasGenericParams {
    ghost output = { λ it. Some (text (focus it.syntax)) };

    fn fmt<W: fmt::Write>(&self, f: &mut fmt::Formatter<W>) -> fmt::Result {
        let text = self.syntax.as_str();
        write!(f, "{text}")
    }
}

/// The kind and the range, as the node prints.
impl fmt::Debug for AnyHasGenericParams {
    ghost debug_output = { λ it. Some (span_text it.syntax) };

    fn fmt<W: fmt::Write>(&self, f: &mut fmt::Formatter<W>) -> fmt::Result {
        fmt::Debug::fmt(self.syntax(), f)
    }
}

impl<N: Within<AnyHasGenericParams> + Drop> From<N> for AnyHasGenericParams {
    ghost from_gives = { λ it made. made.syntax ≡ N.node it };

    fn from(it: N) -> AnyHasGenericParams {
        AnyHasGenericParams {
            syntax: support::share(it.syntax()),
        }
    }
}
