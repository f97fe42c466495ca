//! Lookups in expressions. Made by `tools/views` from `views.txt`.
ghost use Rattle.std.specs.Prelude.{◌≡◌};
ghost use Rattle.ras_node.specs.Nodes.{token_child, typed_children};
ghost use Rattle.ra_ap_syntax.specs.AttrViews.{attr_kinds};
ghost use Rattle.ra_ap_syntax.specs.ExprCases.{IsFirstExpr};
ghost use Rattle.ra_ap_syntax.specs.StmtViews.{record_expr_field_kinds};
ghost use Rattle.rust_views.specs.ExprViews.{IsFirstFormatArgsArgName, IsFirstRecordExprFieldList};
ghost use Rattle.rust_kinds.specs.declared.kinds.TheConstants.{FORMAT_ARGS_KW, OFFSET_OF_KW, RAW_KW};

use crate::{FormatArgsArgName, RecordExprFieldList};
use ra_ap_syntax::ast::{self, AstChildren, AstNode};
use ra_ap_syntax::{SyntaxKind, SyntaxToken, T};
use ras_node::support;
use rust_kinds::kinds::{FORMAT_ARGS_KW, OFFSET_OF_KW, RAW_KW};

/// The lookups of a `FormatArgsArg` that lead to a view or token of this table.
pub trait FormatArgsArgExt: AstNode {
    /// The first child that is a format arguments argument name, if there is one.
    /// Example: `a =` of `a = b`.
    final fn arg_name(&self) -> Option<FormatArgsArgName>
        ensures { IsFirstFormatArgsArgName (Self.node self.now) result }
    {
        support::child(self.syntax())
    }
}

impl FormatArgsArgExt for ast::FormatArgsArg {}

/// The lookups of a `FormatArgsArgName`.
pub trait FormatArgsArgNameExt: AstNode {
    /// The first token `=` among the children, if there is one.
    /// Example: `=` of `a =`.
    final fn eq_token(&self) -> Option<SyntaxToken>
        ensures { result ≡ token_child SyntaxKind.EQ (Self.node self.now) }
    {
        support::token(self.syntax(), T![=])
    }
}

impl FormatArgsArgNameExt for FormatArgsArgName {}

/// The lookups of a `FormatArgsExpr` that lead to a view or token of this table.
pub trait FormatArgsExprExt: AstNode {
    /// The first token `format_args` among the children, if there is one.
    /// Example: `format_args` of `builtin # format_args("{}", a = b)`.
    final fn format_args_token(&self) -> Option<SyntaxToken>
        ensures { result ≡ token_child FORMAT_ARGS_KW (Self.node self.now) }
    {
        support::token(self.syntax(), FORMAT_ARGS_KW)
    }
}

impl FormatArgsExprExt for ast::FormatArgsExpr {}

/// The lookups of an `OffsetOfExpr` that lead to a view or token of this table.
pub trait OffsetOfExprExt: AstNode {
    /// The first token `offset_of` among the children, if there is one.
    /// Example: `offset_of` of `builtin # offset_of(T, f.g)`.
    final fn offset_of_token(&self) -> Option<SyntaxToken>
        ensures { result ≡ token_child OFFSET_OF_KW (Self.node self.now) }
    {
        support::token(self.syntax(), OFFSET_OF_KW)
    }
}

impl OffsetOfExprExt for ast::OffsetOfExpr {}

/// The lookups of a `RecordExpr` that lead to a view or token of this table.
pub trait RecordExprExt: AstNode {
    /// The first child that is a list of record expression fields, if there is one.
    /// Example: `{ f: a, ..b }` of `S { f: a, ..b }`.
    final fn record_expr_field_list(&self) -> Option<RecordExprFieldList>
        ensures { IsFirstRecordExprFieldList (Self.node self.now) result }
    {
        support::child(self.syntax())
    }
}

impl RecordExprExt for ast::RecordExpr {}

/// The lookups of a `RecordExprFieldList`.
pub trait RecordExprFieldListExt: AstNode {
    /// The children that are attributes, in order.
    final fn attrs(&self) -> AstChildren<ast::Attr>
        ensures { result ≡ typed_children attr_kinds (Self.node self.now) }
    {
        support::children(self.syntax())
    }

    /// The children that are record expression fields, in order.
    /// Example: `f: a` of `{ f: a, ..b }`.
    final fn fields(&self) -> AstChildren<ast::RecordExprField>
        ensures { result ≡ typed_children record_expr_field_kinds (Self.node self.now) }
    {
        support::children(self.syntax())
    }

    /// The first child that is an expression, if there is one.
    /// Example: `b` of `{ f: a, ..b }`.
    final fn spread(&self) -> Option<ast::Expr>
        ensures { IsFirstExpr (Self.node self.now) result }
    {
        support::child(self.syntax())
    }

    /// The first token `..` among the children, if there is one.
    /// Example: `..` of `{ f: a, ..b }`.
    final fn dotdot_token(&self) -> Option<SyntaxToken>
        ensures { result ≡ token_child SyntaxKind.DOT2 (Self.node self.now) }
    {
        support::token(self.syntax(), T![..])
    }

    /// The first token `{` among the children, if there is one.
    /// Example: `{` of `{ f: a, ..b }`.
    final fn l_curly_token(&self) -> Option<SyntaxToken>
        ensures { result ≡ token_child SyntaxKind.L_CURLY (Self.node self.now) }
    {
        support::token(self.syntax(), T!['{'])
    }

    /// The first token `}` among the children, if there is one.
    /// Example: `}` of `{ f: a, ..b }`.
    final fn r_curly_token(&self) -> Option<SyntaxToken>
        ensures { result ≡ token_child SyntaxKind.R_CURLY (Self.node self.now) }
    {
        support::token(self.syntax(), T!['}'])
    }
}

impl RecordExprFieldListExt for RecordExprFieldList {}

/// The lookups of a `RefExpr` that lead to a view or token of this table.
pub trait RefExprExt: AstNode {
    /// The first token `raw` among the children, if there is one.
    /// Example: `raw` of `&raw const a`.
    final fn raw_token(&self) -> Option<SyntaxToken>
        ensures { result ≡ token_child RAW_KW (Self.node self.now) }
    {
        support::token(self.syntax(), RAW_KW)
    }
}

impl RefExprExt for ast::RefExpr {}
