//! The lifetimes among bounds.
ghost use Rattle.std.specs.Prelude.{◌≡◌, option_map};
ghost use Rattle.std.specs.Iterator.{YieldsFirst, item_count};
ghost use Rattle.std.specs.List.{filter_map};
ghost use Rattle.ras_node_ext.specs.Bounds.{lifetime_word, lifetime_bounds};
ghost use Rattle.ras_node.specs.Nodes.{typed_children};

use lossless_tree::{SyntaxKind, SyntaxNode, SyntaxToken};
use ras_node::{AstChildren, AstNode, support};
use std::marker::{Model, PhantomData};

fn lifetime_word<L: AstNode + Drop>(bound: &SyntaxNode) -> Option<SyntaxToken>
    ensures { result ≡ lifetime_word L.casts bound.now }
{
    let lifetime = support::child::<L>(bound)?;
    support::token(lifetime.syntax(), SyntaxKind::LIFETIME_IDENT)
}

// The lifetimes among the bounds in one list.
#[derive(Drop)]
struct InList<B: AstNode, L: AstNode> {
    left: AstChildren<B>,
    lifetime: PhantomData<L>,
}

impl<B: AstNode, L: AstNode> Model for InList<B, L> {
    ghost use Rattle.std.specs.Prelude.{List};
    ghost use Rattle.std.specs.List.{filter_map};
    ghost use Rattle.std.specs.Coded.{coded_list};
    ghost use Rattle.tree_model.specs.Cursor.{Cursor, cursor_code};
    ghost use Rattle.ras_node_ext.specs.Bounds.{lifetime_word};

    ghost Value = { List Cursor };

    ghost coded = { coded_list cursor_code };

    ghost view = { λ a. filter_map (lifetime_word L.casts) a.left };
}

impl<B: AstNode + Drop, L: AstNode + Drop> Iterator for InList<B, L> {
    type Item = SyntaxToken;

    ghost next_gives = { YieldsFirst (λ left. left) };

    ghost remaining = { item_count (λ left. left) };

    fn next(&mut self) -> Option<SyntaxToken> {
        while let Some(bound) = self.left.next() {
            if let Some(word) = lifetime_word::<L>(bound.syntax()) {
                return Some(word);
            }
        }
        None
    }
}

/// The lifetimes among the bounds in a list, in order, as tokens. A clause sees the tokens that are
/// left.
#[derive(Drop)]
pub struct LifetimeBounds<B: AstNode, L: AstNode> {
    left: Option<InList<B, L>>,
}

impl<B: AstNode, L: AstNode> Model for LifetimeBounds<B, L> {
    ghost use Rattle.std.specs.Prelude.{List, [], unwrap_or};
    ghost use Rattle.std.specs.Coded.{coded_list};
    ghost use Rattle.tree_model.specs.Cursor.{Cursor, cursor_code};

    ghost Value = { List Cursor };

    ghost coded = { coded_list cursor_code };

    ghost view = { λ a. unwrap_or a.left [] };
}

impl<B: AstNode, L: AstNode> LifetimeBounds<B, L> {
    /// The lifetimes among the bounds in a list; the result is empty if there is no list.
    pub fn new<T: AstNode + Drop>(list: Option<T>) -> LifetimeBounds<B, L>
        ensures { result ≡ lifetime_bounds B.casts L.casts (option_map T.node list) }
    {
        let left = match list {
            Some(list) => Some(InList {
                left: support::children(list.syntax()),
                lifetime: PhantomData,
            }),
            None => None,
        };
        LifetimeBounds { left }
    }
}

impl<B: AstNode + Drop, L: AstNode + Drop> Iterator for LifetimeBounds<B, L> {
    type Item = SyntaxToken;

    ghost next_gives = { YieldsFirst (λ left. left) };

    ghost remaining = { item_count (λ left. left) };

    fn next(&mut self) -> Option<SyntaxToken> {
        match &mut self.left {
            Some(left) => left.next(),
            None => None,
        }
    }
}
