//! The views of the nodes of one kind.
ghost use Rattle.std.specs.Prelude.{◌≡◌, ◌↔◌, IsTrue, IfSome, Some, nat_eq, ⊤, is_some};
ghost use Rattle.std.proofs.lemmas.Bool.{eq-eqb};
ghost use Rattle.syntax_kind.specs.Kinds.{kind_raw, IsKind};
ghost use Rattle.tree_model.specs.Tree.{text};
ghost use Rattle.tree_model.specs.Cursor.{focus};
ghost use Rattle.lossless_tree.specs.Dump.{span_text};
ghost use Rattle.tree_model.specs.Equality.{is_same_cursor, cursor_hash};
ghost use Rattle.tree_model.specs.EqualityLaws.{cursor_equivalence, cursors_alike};
ghost use Rattle.std.specs.Cmp.{partial_equiv_from_equiv, on_equiv};
ghost use Rattle.ras_node.specs.Nodes.{kind_at};

use super::AstNode;
use lossless_tree::{SyntaxKind, SyntaxNode};
use std::alloc::AllocError;
use std::fmt;
use std::hash::{Hash, Hasher};

/// A node of the kind with the raw number `K`. The aliases of `ast` name one for each kind of node.
#[derive(Drop)]
pub struct Typed<const K: u32> {
    pub(crate) syntax: SyntaxNode,
    ghost is: { kind_raw (kind_at syntax) ≡ K },
}

impl<const K: u32> AstNode for Typed<K> {
    ghost casts = { λ kind. nat_eq (kind_raw kind) K };

    ghost node = { λ it. it.syntax };

    ghost castable = { λ it. eq-eqb _ _ it.is };

    fn kind() -> Option<SyntaxKind>
        ensures exact { (k : SyntaxKind) → IsKind k → (result ≡ Some k) ↔ (kind_raw k ≡ K) }
        ensures only { IfSome result (λ only. (k : SyntaxKind)
            → IsTrue (nat_eq (kind_raw k) K) ↔ (k ≡ only)) }
    {
        SyntaxKind::from_raw(K)
    }

    fn can_cast(kind: SyntaxKind) -> bool {
        kind.to_raw() == K
    }

    fn cast(syntax: SyntaxNode) -> Option<Typed<K>> {
        if Self::can_cast(syntax.kind()) {
            Some(Typed { syntax })
        } else {
            None
        }
    }

    fn syntax(&self) -> &SyntaxNode {
        &self.syntax
    }
}

impl<const K: u32> Clone for Typed<K> {
    ghost is_clone = { λ s copy. copy ≡ s };

    ghost is_infallible = { λ _. ⊤ };

    fn clone(&self) -> Result<Typed<K>, AllocError> {
        let syntax = self.syntax.clone()?;
        Ok(Typed { syntax })
    }
}

impl<const K: u32> PartialEq for Typed<K> {
    ghost eq = { λ a b. is_same_cursor a.syntax b.syntax };

    ghost laws = { partial_equiv_from_equiv (on_equiv (λ it. it.syntax) cursor_equivalence) };

    fn eq(&self, other: &Typed<K>) -> bool {
        self.syntax == other.syntax
    }
}

impl<const K: u32> Eq for Typed<K> {
    ghost laws = { on_equiv (λ it. it.syntax) cursor_equivalence };
}

impl<const K: u32> Hash for Typed<K> {
    ghost hash_input = { λ it. cursor_hash it.syntax };

    ghost respects_eq = { λ a b e. cursors_alike a.syntax b.syntax e };

    fn hash<H: Hasher>(&self, state: &mut H) {
        self.syntax.hash(state);
    }
}

impl<const K: u32> fmt::Display for Typed<K> {
    ghost output = { λ it. Some (text (focus it.syntax)) };

    fn fmt<W: fmt::Write>(&self, f: &mut fmt::Formatter<W>) -> fmt::Result {
        let text = self.syntax.as_str();
        write!(f, "{text}")
    }
}

/// The kind and the range, as the node prints.
impl<const K: u32> fmt::Debug for Typed<K> {
    ghost debug_output = { λ it. Some (span_text it.syntax) };

    fn fmt<W: fmt::Write>(&self, f: &mut fmt::Formatter<W>) -> fmt::Result {
        fmt::Debug::fmt(&self.syntax, f)
    }
}
