//! Pointers to nodes that outlive their tree.
ghost use Rattle.std.specs.Prelude.{◌≡◌};
ghost use Rattle.tree_model.specs.Pointer.{pointer_to, Finds};

use crate::cursor::node::SyntaxNode;
use std::hash::{Hash, Hasher};
use std::marker::Model;
use syntax_kind::SyntaxKind;
use text_size::TextRange;

/// A node's kind and range, by which it is found again in its tree or in another tree of the same
/// shape.
///
/// It holds no tree, so it can be copied, compared and kept.
#[derive(Clone, Copy, Debug)]
pub struct SyntaxNodePtr {
    kind: SyntaxKind,
    range: TextRange,
}

impl Model for SyntaxNodePtr {
    ghost use Rattle.tree_model.specs.Pointer.{Pointer};

    ghost Value = { Pointer };

    ghost view = { λ p. record { kind = p.kind; range = p.range } };

    ghost inverse = { λ p. record { kind = p.kind; range = p.range } };
}

impl SyntaxNodePtr {
    /// The pointer to a node.
    pub fn new(node: &SyntaxNode) -> SyntaxNodePtr
        ensures { result ≡ pointer_to node.now }
    {
        SyntaxNodePtr {
            kind: node.kind(),
            range: node.text_range(),
        }
    }

    /// The kind of the node.
    pub fn kind(&self) -> SyntaxKind
        ensures { result ≡ self.now.kind }
    {
        self.kind
    }

    /// The range of the node in the text of its tree, in bytes.
    pub fn text_range(&self) -> TextRange
        ensures { result ≡ self.now.range }
    {
        self.range
    }

    /// The first node in preorder of the tree of `root` that has this kind and range, or `None` if
    /// there is none or if `root` has a parent.
    ///
    /// It is the node that the pointer was made from if that node is not empty and no ancestor has
    /// the same kind and range. Takes time logarithmic in the size of the tree, and linear in the
    /// number of nodes and tokens that start where the range does.
    pub fn to_node(&self, root: &SyntaxNode) -> Option<SyntaxNode>
        ensures { Finds self.now root.now result }
    {
        let SyntaxNodePtr { kind, range } = *self;
        root.first_in_root(kind, range)
    }
}

/// Equal where they have the same kind and the same range.
impl PartialEq for SyntaxNodePtr {
    ghost use Rattle.lossless_tree.specs.PointerEquality.{is_same_pointer, pointer_equivalence};
    ghost use Rattle.std.specs.Cmp.{partial_equiv_from_equiv};

    ghost eq = { is_same_pointer };

    ghost laws = { partial_equiv_from_equiv pointer_equivalence };

    fn eq(&self, other: &SyntaxNodePtr) -> bool {
        self.kind.to_raw() == other.kind.to_raw()
            && self.range.start().raw() == other.range.start().raw()
            && self.range.end().raw() == other.range.end().raw()
    }
}

impl Eq for SyntaxNodePtr {
    ghost use Rattle.lossless_tree.specs.PointerEquality.{pointer_equivalence};

    ghost laws = { pointer_equivalence };
}

/// Equal pointers hash alike.
impl Hash for SyntaxNodePtr {
    ghost use Rattle.lossless_tree.specs.PointerEquality.{pointer_hash, pointers_alike};

    ghost hash_input = { pointer_hash };

    ghost respects_eq = { pointers_alike };

    fn hash<H: Hasher>(&self, state: &mut H) {
        self.kind.to_raw().hash(state);
        self.range.start().raw().hash(state);
        self.range.end().raw().hash(state);
    }
}
