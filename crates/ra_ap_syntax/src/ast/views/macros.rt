//! A definition of a macro. Made by `tools/views` from `views.txt`.
ghost use Rattle.std.specs.Prelude.{◌≡◌, Some};
ghost use Rattle.tree_model.specs.Tree.{text};
ghost use Rattle.tree_model.specs.Cursor.{focus};
ghost use Rattle.lossless_tree.specs.Dump.{span_text};
ghost use Rattle.ra_ap_syntax.specs.declared.ast.views.macros.Macro.TheVariants as macro;
ghost use Rattle.ras_node.specs.Sets.{is_macro};
ghost use Rattle.ra_ap_syntax.specs.MacroCases.{macro_node, macro_castable};

use crate::ast::{self, AstNode, Typed};
use lossless_tree::{SyntaxKind, SyntaxNode};
use ras_node::sets::{KindSet, Macros};
use std::fmt;

/// A definition of a macro.
#[derive(Clone, PartialEq, Eq, Drop)]
pub enum Macro {
    MacroRules(ast::MacroRules),
    MacroDef(ast::MacroDef),
}

impl AstNode for Macro {
    ghost casts = { is_macro };

    ghost node = { macro_node };

    ghost castable = { macro_castable };

    fn can_cast(kind: SyntaxKind) -> bool {
        Macros::has(kind)
    }

    fn cast(syntax: SyntaxNode) -> Option<Macro> {
        match syntax.kind() {
            SyntaxKind::MACRO_RULES => Some(Macro::MacroRules(Typed { syntax })),
            SyntaxKind::MACRO_DEF => Some(Macro::MacroDef(Typed { syntax })),
            _ => None,
        }
    }

    fn syntax(&self) -> &SyntaxNode {
        match self {
            Macro::MacroRules(it) => it.syntax(),
            Macro::MacroDef(it) => it.syntax(),
        }
    }
}

impl fmt::Display for Macro {
    ghost output = { λ it. Some (text (focus (macro_node it))) };

    fn fmt<W: fmt::Write>(&self, f: &mut fmt::Formatter<W>) -> fmt::Result {
        let text = self.syntax().as_str();
        write!(f, "{text}")
    }
}

/// The kind and the range, as the node prints.
impl fmt::Debug for Macro {
    ghost debug_output = { λ it. Some (span_text (macro_node it)) };

    fn fmt<W: fmt::Write>(&self, f: &mut fmt::Formatter<W>) -> fmt::Result {
        fmt::Debug::fmt(self.syntax(), f)
    }
}

impl From<ast::MacroRules> for Macro {
    ghost from_gives = { λ it made. made ≡ macro.MacroRules it };

    fn from(it: ast::MacroRules) -> Macro {
        Macro::MacroRules(it)
    }
}

impl From<ast::MacroDef> for Macro {
    ghost from_gives = { λ it made. made ≡ macro.MacroDef it };

    fn from(it: ast::MacroDef) -> Macro {
        Macro::MacroDef(it)
    }
}
