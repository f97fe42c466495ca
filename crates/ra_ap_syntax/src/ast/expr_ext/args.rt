//! The arguments of a call, where one may be missing.
ghost use Rattle.std.specs.Prelude.{◌≡◌, map, false};
ghost use Rattle.tree_model.specs.Cursor.{children_of};
ghost use Rattle.lossless_tree.specs.Element.{element_of};
ghost use Rattle.ras_expr_ext.specs.Args.{arguments};
ghost use Rattle.ra_ap_syntax.specs.ExprCases.{expr_kinds};

use crate::ast::{self, AstNode};

/// The arguments of a call, in order, with `None` where one is missing.
pub type ArgsMaybeEmpty = ras_expr_ext::ArgsMaybeEmpty<ast::Expr>;

impl ast::ArgList {
    /// The arguments, in order, with `None` for each child node that is not an expression and for
    /// each comma that follows no argument, as between `(` and `,`. An `ERROR` node that begins
    /// with a comma counts as one.
    pub fn args_maybe_empty(&self) -> ArgsMaybeEmpty
        ensures { result
            ≡ arguments expr_kinds false (map element_of (children_of self.now.syntax)) }
    {
        ArgsMaybeEmpty::new(&self.syntax)
    }
}
