//! The root of a tree, of any kind.
ghost use Rattle.std.specs.Prelude.{◌≡◌, true, refl};

use lossless_tree::{SyntaxKind, SyntaxNode};
use ras_node::AstNode;
use ras_parsing::FileView;

/// The view of a root. It accepts every kind, so every parse has one and can be edited.
#[derive(Drop)]
pub struct Root {
    syntax: SyntaxNode,
}

impl AstNode for Root {
    ghost casts = { λ _. true };

    ghost node = { λ it. it.syntax };

    ghost castable = { λ _. refl };

    fn can_cast(_: SyntaxKind) -> bool {
        true
    }

    fn cast(syntax: SyntaxNode) -> Option<Root> {
        Some(Root { syntax })
    }

    fn syntax(&self) -> &SyntaxNode {
        &self.syntax
    }
}

impl FileView for Root {}
