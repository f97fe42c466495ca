//! The qualifiers of a path.
ghost use Rattle.std.specs.Prelude.{◌≡◌};
ghost use Rattle.std.specs.Iterator.{YieldsFirstBy, item_count};
ghost use Rattle.ras_node_ext.specs.Path.{qualifiers_of};

use ras_node::{AstNode, support};
use std::alloc::AllocError;
use std::marker::Model;

/// The qualifiers of a path, the nearest first: `a::b` and `a` of `a::b::c`. A clause sees the
/// qualifiers that are left.
#[derive(Drop)]
pub struct Qualifiers<P: AstNode> {
    next: Option<P>,
}

impl<P: AstNode> Model for Qualifiers<P> {
    ghost use Rattle.std.specs.Prelude.{List, option_map};
    ghost use Rattle.std.specs.Coded.{coded_list};
    ghost use Rattle.tree_model.specs.Cursor.{Cursor, cursor_code};
    ghost use Rattle.ras_node_ext.specs.Path.{chain_from};

    ghost Value = { List Cursor };

    ghost coded = { coded_list cursor_code };

    ghost view = { λ a. chain_from P.casts (option_map P.node a.next) };
}

impl<P: AstNode> Qualifiers<P> {
    /// The qualifiers of a path.
    pub fn new(path: &P) -> Qualifiers<P>
        ensures { result ≡ qualifiers_of P.casts (P.node path.now) }
    {
        Qualifiers {
            next: support::child(path.syntax()),
        }
    }
}

impl<P: AstNode + Drop> Clone for Qualifiers<P> {
    ghost use Rattle.std.specs.Prelude.{◌≡◌, ⊤};

    ghost is_clone = { λ s copy. copy ≡ s };

    ghost is_infallible = { λ _. ⊤ };

    fn clone(&self) -> Result<Qualifiers<P>, AllocError> {
        let next = match &self.next {
            Some(path) => Some(support::copy(path)),
            None => None,
        };
        Ok(Qualifiers { next })
    }
}

impl<P: AstNode + Drop> Iterator for Qualifiers<P> {
    type Item = P;

    ghost next_gives = { YieldsFirstBy P.node (λ left. left) };

    ghost remaining = { item_count (λ left. left) };

    fn next(&mut self) -> Option<P> {
        let path = self.next.take()?;
        self.next = support::child(path.syntax());
        Some(path)
    }
}
