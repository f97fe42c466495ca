//! Expressions of operators, calls and lists.
ghost use Rattle.std.specs.Prelude.{◌∷◌, [], codes, ◌++◌, map};
ghost use Rattle.ra_ap_syntax.specs.ExprCases.{expr_node};
ghost use Rattle.ra_ap_syntax.specs.TypeCases.{ty_node};
ghost use Rattle.ra_ap_syntax.specs.OperatorTexts.{binary_text};
ghost use Rattle.syntax_make.specs.Forms.{fixed, part, left, right};
ghost use Rattle.rust_make.specs.Makes.{IsMadeOf, separated, prefix_text};

use crate::make::Make;
use crate::texts::{binary_text, prefix_text};
use ra_ap_syntax::ast::{self, AstNode};
use ras_front_end::FrontEnd;
use syntax_make::{MakeError, Piece};

impl<'a, F: FrontEnd> Make<'a, F> {
    /// A path as an expression.
    pub fn expr_path(&self, path: &ast::Path) -> Result<ast::Expr, MakeError>
        ensures { IsMadeOf ⟦<ast::Expr as AstNode>⟧ (F.answers self.now.front.now) self.now.edition
            (part (⟦<ast::Path as AstNode>⟧.node path.now) ∷ [])
            result }
    {
        self.form(&[Piece::Part(path.syntax())])
    }

    /// A literal: `1`.
    pub fn expr_literal(&self, text: &str) -> Result<ast::Literal, MakeError>
        ensures { IsMadeOf ⟦<ast::Literal as AstNode>⟧ (F.answers self.now.front.now)
            self.now.edition
            (fixed text.now ∷ [])
            result }
    {
        self.form(&[Piece::Text(text)])
    }

    /// The expression `()`.
    pub fn expr_unit(&self) -> Result<ast::Expr, MakeError>
        ensures { IsMadeOf ⟦<ast::Expr as AstNode>⟧ (F.answers self.now.front.now) self.now.edition
            (fixed (codes "()") ∷ [])
            result }
    {
        self.form(&[Piece::Text("()")])
    }

    /// The block `{}`.
    pub fn expr_empty_block(&self) -> Result<ast::BlockExpr, MakeError>
        ensures { IsMadeOf ⟦<ast::BlockExpr as AstNode>⟧ (F.answers self.now.front.now)
            self.now.edition
            (fixed (codes "{}") ∷ [])
            result }
    {
        self.form(&[Piece::Text("{}")])
    }

    /// Two operands with an operator between: `a + b`, `(a + b) * c`.
    pub fn expr_bin_op<'p>(
        &self,
        lhs: &'p ast::Expr,
        op: ast::BinaryOp,
        rhs: &'p ast::Expr,
    ) -> Result<ast::Expr, MakeError>
        ensures { IsMadeOf ⟦<ast::Expr as AstNode>⟧ (F.answers self.now.front.now) self.now.edition
            (left (expr_node lhs.now) ∷ fixed (codes " ") ∷ fixed (binary_text op) ∷
            fixed (codes " ") ∷ right (expr_node rhs.now) ∷ [])
            result }
    {
        self.form(&[
            Piece::Left(lhs.syntax()),
            Piece::Text(" "),
            Piece::Text(binary_text(op)),
            Piece::Text(" "),
            Piece::Right(rhs.syntax()),
        ])
    }

    /// An assignment: `a = b`.
    pub fn expr_assignment<'p>(
        &self,
        lhs: &'p ast::Expr,
        rhs: &'p ast::Expr,
    ) -> Result<ast::BinExpr, MakeError>
        ensures { IsMadeOf ⟦<ast::BinExpr as AstNode>⟧ (F.answers self.now.front.now)
            self.now.edition
            (left (expr_node lhs.now) ∷ fixed (codes " = ") ∷ right (expr_node rhs.now) ∷ [])
            result }
    {
        self.form(&[
            Piece::Left(lhs.syntax()),
            Piece::Text(" = "),
            Piece::Right(rhs.syntax()),
        ])
    }

    /// An operand behind a prefix: `!a`, `-(a + b)`.
    pub fn expr_prefix(
        &self,
        op: ast::UnaryOp,
        expr: &ast::Expr,
    ) -> Result<ast::PrefixExpr, MakeError>
        ensures { IsMadeOf ⟦<ast::PrefixExpr as AstNode>⟧ (F.answers self.now.front.now)
            self.now.edition
            (fixed (prefix_text op) ∷ left (expr_node expr.now) ∷ [])
            result }
    {
        self.form(&[Piece::Text(prefix_text(op)), Piece::Left(expr.syntax())])
    }

    /// A shared borrow: `&a`.
    pub fn expr_ref(&self, expr: &ast::Expr) -> Result<ast::Expr, MakeError>
        ensures { IsMadeOf ⟦<ast::Expr as AstNode>⟧ (F.answers self.now.front.now) self.now.edition
            (fixed (codes "&") ∷ left (expr_node expr.now) ∷ [])
            result }
    {
        self.form(&[Piece::Text("&"), Piece::Left(expr.syntax())])
    }

    /// A borrow that may write: `&mut a`.
    pub fn expr_ref_mut(&self, expr: &ast::Expr) -> Result<ast::Expr, MakeError>
        ensures { IsMadeOf ⟦<ast::Expr as AstNode>⟧ (F.answers self.now.front.now) self.now.edition
            (fixed (codes "&mut ") ∷ left (expr_node expr.now) ∷ [])
            result }
    {
        self.form(&[Piece::Text("&mut "), Piece::Left(expr.syntax())])
    }

    /// A pair of parentheses: `(a)`.
    pub fn expr_paren(&self, expr: &ast::Expr) -> Result<ast::ParenExpr, MakeError>
        ensures { IsMadeOf ⟦<ast::ParenExpr as AstNode>⟧ (F.answers self.now.front.now)
            self.now.edition
            (fixed (codes "(") ∷ part (expr_node expr.now) ∷ fixed (codes ")") ∷ [])
            result }
    {
        self.form(&[
            Piece::Text("("),
            Piece::Part(expr.syntax()),
            Piece::Text(")"),
        ])
    }

    /// A call: `f(a)`, `(a.f)(b)`.
    pub fn expr_call<'p>(
        &self,
        callee: &'p ast::Expr,
        args: &'p ast::ArgList,
    ) -> Result<ast::CallExpr, MakeError>
        ensures { IsMadeOf ⟦<ast::CallExpr as AstNode>⟧ (F.answers self.now.front.now)
            self.now.edition
            (left (expr_node callee.now) ∷ part (⟦<ast::ArgList as AstNode>⟧.node args.now) ∷ [])
            result }
    {
        self.form(&[Piece::Left(callee.syntax()), Piece::Part(args.syntax())])
    }

    /// A method call: `a.f(b)`, `(a + b).f(c)`.
    pub fn expr_method_call<'p>(
        &self,
        receiver: &'p ast::Expr,
        method: &'p ast::NameRef,
        args: &'p ast::ArgList,
    ) -> Result<ast::MethodCallExpr, MakeError>
        ensures { IsMadeOf ⟦<ast::MethodCallExpr as AstNode>⟧ (F.answers self.now.front.now)
            self.now.edition
            (left (expr_node receiver.now) ∷ fixed (codes ".") ∷
            part (⟦<ast::NameRef as AstNode>⟧.node method.now) ∷
            part (⟦<ast::ArgList as AstNode>⟧.node args.now) ∷ [])
            result }
    {
        self.form(&[
            Piece::Left(receiver.syntax()),
            Piece::Text("."),
            Piece::Part(method.syntax()),
            Piece::Part(args.syntax()),
        ])
    }

    /// A field: `a.b`, `a.0`.
    pub fn expr_field<'p>(
        &self,
        receiver: &'p ast::Expr,
        field: &'p str,
    ) -> Result<ast::FieldExpr, MakeError>
        ensures { IsMadeOf ⟦<ast::FieldExpr as AstNode>⟧ (F.answers self.now.front.now)
            self.now.edition
            (left (expr_node receiver.now) ∷ fixed (codes ".") ∷ fixed field.now ∷ [])
            result }
    {
        self.form(&[
            Piece::Left(receiver.syntax()),
            Piece::Text("."),
            Piece::Text(field),
        ])
    }

    /// An expression with `?` behind: `a?`.
    pub fn expr_try(&self, expr: &ast::Expr) -> Result<ast::TryExpr, MakeError>
        ensures { IsMadeOf ⟦<ast::TryExpr as AstNode>⟧ (F.answers self.now.front.now)
            self.now.edition
            (left (expr_node expr.now) ∷ fixed (codes "?") ∷ [])
            result }
    {
        self.form(&[Piece::Left(expr.syntax()), Piece::Text("?")])
    }

    /// An expression with `.await` behind: `a.await`.
    pub fn expr_await(&self, expr: &ast::Expr) -> Result<ast::AwaitExpr, MakeError>
        ensures { IsMadeOf ⟦<ast::AwaitExpr as AstNode>⟧ (F.answers self.now.front.now)
            self.now.edition
            (left (expr_node expr.now) ∷ fixed (codes ".await") ∷ [])
            result }
    {
        self.form(&[Piece::Left(expr.syntax()), Piece::Text(".await")])
    }

    /// A cast: `a as T`.
    pub fn expr_cast<'p>(
        &self,
        expr: &'p ast::Expr,
        ty: &'p ast::Type,
    ) -> Result<ast::CastExpr, MakeError>
        ensures { IsMadeOf ⟦<ast::CastExpr as AstNode>⟧ (F.answers self.now.front.now)
            self.now.edition
            (left (expr_node expr.now) ∷ fixed (codes " as ") ∷ part (ty_node ty.now) ∷ [])
            result }
    {
        self.form(&[
            Piece::Left(expr.syntax()),
            Piece::Text(" as "),
            Piece::Part(ty.syntax()),
        ])
    }

    /// A macro call: `m!(a)`.
    pub fn expr_macro<'p>(
        &self,
        path: &'p ast::Path,
        tokens: &'p ast::TokenTree,
    ) -> Result<ast::MacroExpr, MakeError>
        ensures { IsMadeOf ⟦<ast::MacroExpr as AstNode>⟧ (F.answers self.now.front.now)
            self.now.edition
            (part (⟦<ast::Path as AstNode>⟧.node path.now) ∷ fixed (codes "!") ∷
            part (⟦<ast::TokenTree as AstNode>⟧.node tokens.now) ∷ [])
            result }
    {
        self.form(&[
            Piece::Part(path.syntax()),
            Piece::Text("!"),
            Piece::Part(tokens.syntax()),
        ])
    }

    /// Arguments: `(a, b)`.
    pub fn arg_list(&self, args: &[ast::Expr]) -> Result<ast::ArgList, MakeError>
        ensures { IsMadeOf ⟦<ast::ArgList as AstNode>⟧ (F.answers self.now.front.now)
            self.now.edition
            (fixed (codes "(") ∷
            (separated (codes ", ") (map expr_node args.now) ++ (fixed (codes ")") ∷ [])))
            result }
    {
        let mut form = self.pieces();
        form.text("(")?;
        form.separated(args, ", ")?;
        form.text(")")?;
        self.made(&form)
    }

    /// A tuple of more than one field: `(a, b)`; of none, `()`. For one field it is refused.
    pub fn expr_tuple(&self, fields: &[ast::Expr]) -> Result<ast::TupleExpr, MakeError>
        ensures { IsMadeOf ⟦<ast::TupleExpr as AstNode>⟧ (F.answers self.now.front.now)
            self.now.edition
            (fixed (codes "(") ∷
            (separated (codes ", ") (map expr_node fields.now) ++ (fixed (codes ")") ∷ [])))
            result }
    {
        let mut form = self.pieces();
        form.text("(")?;
        form.separated(fields, ", ")?;
        form.text(")")?;
        self.made(&form)
    }

    /// An array: `[a, b]`.
    pub fn expr_array(&self, items: &[ast::Expr]) -> Result<ast::ArrayExpr, MakeError>
        ensures { IsMadeOf ⟦<ast::ArrayExpr as AstNode>⟧ (F.answers self.now.front.now)
            self.now.edition
            (fixed (codes "[") ∷
            (separated (codes ", ") (map expr_node items.now) ++ (fixed (codes "]") ∷ [])))
            result }
    {
        let mut form = self.pieces();
        form.text("[")?;
        form.separated(items, ", ")?;
        form.text("]")?;
        self.made(&form)
    }
}
