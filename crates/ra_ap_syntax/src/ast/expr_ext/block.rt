//! The modifiers of blocks, and standalone blocks.
ghost use Rattle.std.specs.Prelude.{◌≡◌, option_map};
ghost use Rattle.ras_node_ext.specs.Attrs.{may_carry_attributes};
ghost use Rattle.ras_expr_ext.specs.ExprParts.{is_standalone};
ghost use Rattle.ras_expr_ext.specs.Modifiers.{modifier_shape, block_modifier};
ghost use Rattle.ra_ap_syntax.specs.ExprCases.{expr_kinds};
ghost use Rattle.ra_ap_syntax.specs.StmtViews.{label_kinds, try_block_modifier_kinds};
ghost use Rattle.ra_ap_syntax.specs.TypeCases.{ty_node, type_kinds};

use crate::ast::{self, AstNode};

/// The modifier of a block.
pub type BlockModifier = ras_expr_ext::BlockModifier<ast::Type, ast::Label>;

impl ast::BlockExpr {
    /// The first of these that the block has: `gen` with or without `async`, `async`, `unsafe`,
    /// `try`, `const`, a label.
    pub fn modifier(&self) -> Option<BlockModifier>
        ensures { option_map (modifier_shape ty_node (λ it. it.syntax)) result
            ≡ block_modifier try_block_modifier_kinds type_kinds label_kinds self.now.syntax }
    {
        ras_expr_ext::block_modifier::<ast::TryBlockModifier, ast::Type, ast::Label>(&self.syntax)
    }

    /// Whether the block is an expression of its own, and not a part of its parent as the body of a
    /// function is. It is if it has no parent; if the parent is a `for` or an `if` and no other
    /// expression is first there; and if the parent is any node except a `for`, `if`, `let` with
    /// `else`, function, `while`, `loop` or constant pattern.
    pub fn is_standalone(&self) -> bool
        ensures { result ≡ is_standalone expr_kinds self.now.syntax }
    {
        ras_expr_ext::is_standalone::<ast::Expr>(&self.syntax)
    }

    /// Whether its parent is a block expression or an expression statement, so that attributes may
    /// be in it. The last expression of a block has its list of statements as parent.
    pub fn may_carry_attributes(&self) -> bool
        ensures { result ≡ may_carry_attributes self.now.syntax }
    {
        ras_node_ext::may_carry_attributes(&self.syntax)
    }
}
