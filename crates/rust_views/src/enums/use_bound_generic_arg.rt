//! A parameter of a `use` bound. Made by `tools/views` from `views.txt`.
ghost use Rattle.std.specs.Prelude.{◌≡◌, Some};
ghost use Rattle.tree_model.specs.Tree.{text};
ghost use Rattle.tree_model.specs.Cursor.{focus};
ghost use Rattle.lossless_tree.specs.Dump.{span_text};
ghost use Rattle.rust_views.specs.declared.enums.use_bound_generic_arg.UseBoundGenericArg.TheVariants as use_bound_generic_arg;
ghost use Rattle.rust_views.specs.UseBoundGenericArgCases.{use_bound_generic_arg_node, use_bound_generic_arg_castable, is_use_bound_generic_arg};

use ra_ap_syntax::ast::{self, AstNode};
use ra_ap_syntax::{SyntaxKind, SyntaxNode};
use std::fmt;
use std::hash::Hash;

/// A parameter of a `use` bound.
#[derive(Clone, PartialEq, Eq, Hash, Drop)]
pub enum UseBoundGenericArg {
    Lifetime(ast::Lifetime),
    NameRef(ast::NameRef),
}

impl AstNode for UseBoundGenericArg {
    ghost casts = { is_use_bound_generic_arg };

    ghost node = { use_bound_generic_arg_node };

    ghost castable = { use_bound_generic_arg_castable };

    fn can_cast(kind: SyntaxKind) -> bool {
        ast::Lifetime::can_cast(kind) || ast::NameRef::can_cast(kind)
    }

    fn cast(syntax: SyntaxNode) -> Option<UseBoundGenericArg> {
        if ast::Lifetime::can_cast(syntax.kind()) {
            match ast::Lifetime::cast(syntax) {
                Some(it) => Some(UseBoundGenericArg::Lifetime(it)),
                None => None,
            }
        } else if ast::NameRef::can_cast(syntax.kind()) {
            match ast::NameRef::cast(syntax) {
                Some(it) => Some(UseBoundGenericArg::NameRef(it)),
                None => None,
            }
        } else {
            None
        }
    }

    fn syntax(&self) -> &SyntaxNode {
        match self {
            UseBoundGenericArg::Lifetime(it) => it.syntax(),
            UseBoundGenericArg::NameRef(it) => it.syntax(),
        }
    }
}

impl fmt::Display for UseBoundGenericArg {
    ghost output = { λ it. Some (text (focus (use_bound_generic_arg_node it))) };

    fn fmt<W: fmt::Write>(&self, f: &mut fmt::Formatter<W>) -> fmt::Result {
        let text = self.syntax().as_str();
        write!(f, "{text}")
    }
}

/// The kind and the range, as the node prints.
impl fmt::Debug for UseBoundGenericArg {
    ghost debug_output = { λ it. Some (span_text (use_bound_generic_arg_node it)) };

    fn fmt<W: fmt::Write>(&self, f: &mut fmt::Formatter<W>) -> fmt::Result {
        fmt::Debug::fmt(self.syntax(), f)
    }
}

impl From<ast::Lifetime> for UseBoundGenericArg {
    ghost from_gives = { λ it made. made ≡ use_bound_generic_arg.Lifetime it };

    fn from(it: ast::Lifetime) -> UseBoundGenericArg {
        UseBoundGenericArg::Lifetime(it)
    }
}

impl From<ast::NameRef> for UseBoundGenericArg {
    ghost from_gives = { λ it made. made ≡ use_bound_generic_arg.NameRef it };

    fn from(it: ast::NameRef) -> UseBoundGenericArg {
        UseBoundGenericArg::NameRef(it)
    }
}
