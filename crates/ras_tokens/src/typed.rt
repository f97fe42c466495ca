//! The views of the tokens of one kind.
ghost use Rattle.std.specs.Prelude.{◌≡◌, Some, nat_eq, ⊤};
ghost use Rattle.std.proofs.lemmas.Bool.{eq-eqb};
ghost use Rattle.syntax_kind.specs.Kinds.{kind_raw};
ghost use Rattle.tree_model.specs.Tree.{text};
ghost use Rattle.tree_model.specs.Cursor.{focus};
ghost use Rattle.lossless_tree.specs.Dump.{token_line};
ghost use Rattle.tree_model.specs.Equality.{is_same_cursor, cursor_hash};
ghost use Rattle.tree_model.specs.EqualityLaws.{cursor_equivalence, cursors_alike};
ghost use Rattle.std.specs.Cmp.{partial_equiv_from_equiv, on_equiv};
ghost use Rattle.ras_node.specs.Nodes.{kind_at};

use lossless_tree::{SyntaxKind, SyntaxToken};
use ras_node::AstToken;
use std::alloc::AllocError;
use std::fmt;
use std::hash::{Hash, Hasher};

/// A token of the kind with the raw number `K`. The aliases of `ast` name one for each kind of
/// token that has a view.
#[derive(Drop)]
pub struct TypedToken<const K: u32> {
    pub(crate) syntax: SyntaxToken,
    ghost is: { kind_raw (kind_at syntax) ≡ K },
}

impl<const K: u32> AstToken for TypedToken<K> {
    ghost casts = { λ kind. nat_eq (kind_raw kind) K };

    ghost token = { λ it. it.syntax };

    ghost castable = { λ it. eq-eqb _ _ it.is };

    fn can_cast(kind: SyntaxKind) -> bool {
        kind.to_raw() == K
    }

    fn cast(syntax: SyntaxToken) -> Option<TypedToken<K>> {
        if Self::can_cast(syntax.kind()) {
            Some(TypedToken { syntax })
        } else {
            None
        }
    }

    fn syntax(&self) -> &SyntaxToken {
        &self.syntax
    }
}

impl<const K: u32> Clone for TypedToken<K> {
    ghost is_clone = { λ s copy. copy ≡ s };

    ghost is_infallible = { λ _. ⊤ };

    fn clone(&self) -> Result<TypedToken<K>, AllocError> {
        let syntax = self.syntax.clone()?;
        Ok(TypedToken { syntax })
    }
}

impl<const K: u32> PartialEq for TypedToken<K> {
    ghost eq = { λ a b. is_same_cursor a.syntax b.syntax };

    ghost laws = { partial_equiv_from_equiv (on_equiv (λ it. it.syntax) cursor_equivalence) };

    fn eq(&self, other: &TypedToken<K>) -> bool {
        self.syntax == other.syntax
    }
}

impl<const K: u32> Eq for TypedToken<K> {
    ghost laws = { on_equiv (λ it. it.syntax) cursor_equivalence };
}

impl<const K: u32> Hash for TypedToken<K> {
    ghost hash_input = { λ it. cursor_hash it.syntax };

    ghost respects_eq = { λ a b e. cursors_alike a.syntax b.syntax e };

    fn hash<H: Hasher>(&self, state: &mut H) {
        self.syntax.hash(state);
    }
}

impl<const K: u32> fmt::Display for TypedToken<K> {
    ghost output = { λ it. Some (text (focus it.syntax)) };

    fn fmt<W: fmt::Write>(&self, f: &mut fmt::Formatter<W>) -> fmt::Result {
        let text = self.syntax.text();
        write!(f, "{text}")
    }
}

/// The kind, the range and the text, as the token prints.
impl<const K: u32> fmt::Debug for TypedToken<K> {
    ghost debug_output = { λ it. Some (token_line it.syntax) };

    fn fmt<W: fmt::Write>(&self, f: &mut fmt::Formatter<W>) -> fmt::Result {
        fmt::Debug::fmt(&self.syntax, f)
    }
}
