//! The segments of a path.
ghost use Rattle.std.specs.Prelude.{◌≡◌};
ghost use Rattle.std.specs.Iterator.{YieldsFirstBy, item_count};
ghost use Rattle.ras_node_ext.specs.Path.{is_path_within, AreSegments};

use crate::chain::first_qualifier_or_self;
use lossless_tree::{SyntaxNode, TextRange};
use ras_node::{AstNode, support};
use std::alloc::AllocError;
use std::marker::{Model, PhantomData};

fn is_path_within<P: AstNode>(node: &SyntaxNode, range: TextRange) -> bool
    ensures { result ≡ is_path_within P.casts range node.now }
{
    let own = node.text_range();
    let starts_inside = range.start().raw() <= own.start().raw();
    let ends_inside = own.end().raw() <= range.end().raw();
    P::can_cast(node.kind()) && (starts_inside && ends_inside)
}

/// The segments of a path, in order. A clause sees the segments that are left.
#[derive(Drop)]
pub struct Segments<P: AstNode, S: AstNode> {
    next: Option<SyntaxNode>,
    range: TextRange,
    path: PhantomData<P>,
    segment: PhantomData<S>,
}

impl<P: AstNode, S: AstNode> Model for Segments<P, S> {
    ghost use Rattle.std.specs.Prelude.{List};
    ghost use Rattle.std.specs.Coded.{coded_list};
    ghost use Rattle.tree_model.specs.Cursor.{Cursor, cursor_code, ancestors_from};
    ghost use Rattle.ras_node_ext.specs.Path.{outward};

    ghost Value = { List Cursor };

    ghost coded = { coded_list cursor_code };

    ghost view = { λ a. outward P.casts S.casts a.range (ancestors_from a.next) };
}

impl<P: AstNode + Drop, S: AstNode> Segments<P, S> {
    /// The segments of this path, from its deepest qualifier's outwards, while the path around is
    /// within the range of this one.
    pub fn new(path: P) -> Segments<P, S>
        ensures { AreSegments P.casts S.casts (P.node path) result }
    {
        let range = path.syntax().text_range();
        let first = first_qualifier_or_self(path);
        Segments {
            next: Some(support::share(first.syntax())),
            range,
            path: PhantomData,
            segment: PhantomData,
        }
    }
}

impl<P: AstNode, S: AstNode> Clone for Segments<P, S> {
    ghost use Rattle.std.specs.Prelude.{◌≡◌, ⊤};

    ghost is_clone = { λ s copy. copy ≡ s };

    ghost is_infallible = { λ _. ⊤ };

    fn clone(&self) -> Result<Segments<P, S>, AllocError> {
        Ok(Segments {
            next: self.next.clone()?,
            range: self.range,
            path: PhantomData,
            segment: PhantomData,
        })
    }
}

impl<P: AstNode, S: AstNode> Iterator for Segments<P, S> {
    type Item = S;

    ghost next_gives = { YieldsFirstBy S.node (λ left. left) };

    ghost remaining = { item_count (λ left. left) };

    fn next(&mut self) -> Option<S> {
        let path = self.next.take()?;
        if !is_path_within::<P>(&path, self.range) {
            return None;
        }
        let segment = support::child::<S>(&path)?;
        self.next = path.parent();
        Some(segment)
    }
}
