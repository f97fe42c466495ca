//! Expressions with blocks, jumps, arms and statements.
ghost use Rattle.std.specs.Prelude.{◌∷◌, [], codes, ◌++◌, option_map, map, not, is_some};
ghost use Rattle.ra_ap_syntax.specs.ElseBranchCases.{else_branch_node};
ghost use Rattle.ra_ap_syntax.specs.ExprCases.{expr_node};
ghost use Rattle.ra_ap_syntax.specs.PatCases.{pat_node};
ghost use Rattle.ra_ap_syntax.specs.StmtCases.{stmt_node};
ghost use Rattle.ra_ap_syntax.specs.TypeCases.{ty_node};
ghost use Rattle.syntax_make.specs.Forms.{fixed, part, left};
ghost use Rattle.rust_make.specs.Makes.{IsMadeOf, optional, separated, block_space, arm_space, ends_itself, text_if, arm_bits, stmt_bits};

use crate::make::Make;
use crate::signs::{arm_space, block_space, ends_itself, text_if};
use ra_ap_syntax::ast::{self, AstNode};
use ras_front_end::FrontEnd;
use syntax_make::{MakeError, Piece};

impl<'a, F: FrontEnd> Make<'a, F> {
    /// A `let` of a condition: `let p = a`.
    pub fn expr_let<'p>(
        &self,
        pat: &'p ast::Pat,
        expr: &'p ast::Expr,
    ) -> Result<ast::LetExpr, MakeError>
        ensures { IsMadeOf ⟦<ast::LetExpr as AstNode>⟧ (F.answers self.now.front.now)
            self.now.edition
            (fixed (codes "let ") ∷ part (pat_node pat.now) ∷ fixed (codes " = ") ∷
            left (expr_node expr.now) ∷ [])
            result }
    {
        self.form(&[
            Piece::Text("let "),
            Piece::Part(pat.syntax()),
            Piece::Text(" = "),
            Piece::Left(expr.syntax()),
        ])
    }

    /// An `if`, with its `else` if there is one: `if a { b } else { c }`. A record as the condition
    /// gets a pair. Behind a condition of several lines the block is on a line of its own, as it is
    /// behind the operands of the loops and of `match`.
    pub fn expr_if<'p>(
        &self,
        condition: &'p ast::Expr,
        then_branch: &'p ast::BlockExpr,
        else_branch: Option<&'p ast::ElseBranch>,
    ) -> Result<ast::IfExpr, MakeError>
        ensures { IsMadeOf ⟦<ast::IfExpr as AstNode>⟧ (F.answers self.now.front.now)
            self.now.edition
            (fixed (codes "if ") ∷ left (expr_node condition.now) ∷
            fixed (block_space (expr_node condition.now)) ∷
            part (⟦<ast::BlockExpr as AstNode>⟧.node then_branch.now) ∷
            (optional (codes " else ")
            (option_map (λ it. else_branch_node it.now) else_branch.entry)))
            result }
    {
        let mut form = self.pieces();
        form.text("if ")?;
        form.left(condition)?;
        form.text(block_space(condition.syntax()))?;
        form.part(then_branch)?;
        form.optional(" else ", else_branch)?;
        self.made(&form)
    }

    /// A `while`: `while a { b }`.
    pub fn expr_while_loop<'p>(
        &self,
        condition: &'p ast::Expr,
        body: &'p ast::BlockExpr,
    ) -> Result<ast::WhileExpr, MakeError>
        ensures { IsMadeOf ⟦<ast::WhileExpr as AstNode>⟧ (F.answers self.now.front.now)
            self.now.edition
            (fixed (codes "while ") ∷ left (expr_node condition.now) ∷
            fixed (block_space (expr_node condition.now)) ∷
            part (⟦<ast::BlockExpr as AstNode>⟧.node body.now) ∷ [])
            result }
    {
        self.form(&[
            Piece::Text("while "),
            Piece::Left(condition.syntax()),
            Piece::Text(block_space(condition.syntax())),
            Piece::Part(body.syntax()),
        ])
    }

    /// A `loop`: `loop { a }`.
    pub fn expr_loop(&self, body: &ast::BlockExpr) -> Result<ast::LoopExpr, MakeError>
        ensures { IsMadeOf ⟦<ast::LoopExpr as AstNode>⟧ (F.answers self.now.front.now)
            self.now.edition
            (fixed (codes "loop ") ∷ part (⟦<ast::BlockExpr as AstNode>⟧.node body.now) ∷ [])
            result }
    {
        self.form(&[Piece::Text("loop "), Piece::Part(body.syntax())])
    }

    /// A `for`: `for p in a { b }`.
    pub fn expr_for_loop<'p>(
        &self,
        pat: &'p ast::Pat,
        iterable: &'p ast::Expr,
        body: &'p ast::BlockExpr,
    ) -> Result<ast::ForExpr, MakeError>
        ensures { IsMadeOf ⟦<ast::ForExpr as AstNode>⟧ (F.answers self.now.front.now)
            self.now.edition
            (fixed (codes "for ") ∷ part (pat_node pat.now) ∷ fixed (codes " in ") ∷
            left (expr_node iterable.now) ∷ fixed (block_space (expr_node iterable.now)) ∷
            part (⟦<ast::BlockExpr as AstNode>⟧.node body.now) ∷ [])
            result }
    {
        self.form(&[
            Piece::Text("for "),
            Piece::Part(pat.syntax()),
            Piece::Text(" in "),
            Piece::Left(iterable.syntax()),
            Piece::Text(block_space(iterable.syntax())),
            Piece::Part(body.syntax()),
        ])
    }

    /// A `match`: `match a { b => c, }`.
    pub fn expr_match<'p>(
        &self,
        expr: &'p ast::Expr,
        arms: &'p ast::MatchArmList,
    ) -> Result<ast::MatchExpr, MakeError>
        ensures { IsMadeOf ⟦<ast::MatchExpr as AstNode>⟧ (F.answers self.now.front.now)
            self.now.edition
            (fixed (codes "match ") ∷ left (expr_node expr.now) ∷
            fixed (block_space (expr_node expr.now)) ∷
            part (⟦<ast::MatchArmList as AstNode>⟧.node arms.now) ∷ [])
            result }
    {
        self.form(&[
            Piece::Text("match "),
            Piece::Left(expr.syntax()),
            Piece::Text(block_space(expr.syntax())),
            Piece::Part(arms.syntax()),
        ])
    }

    /// A `return`, with its value if there is one.
    pub fn expr_return(&self, expr: Option<&ast::Expr>) -> Result<ast::ReturnExpr, MakeError>
        ensures { IsMadeOf ⟦<ast::ReturnExpr as AstNode>⟧ (F.answers self.now.front.now)
            self.now.edition
            (fixed (codes "return") ∷
            (optional (codes " ") (option_map (λ it. expr_node it.now) expr.entry)))
            result }
    {
        let mut form = self.pieces();
        form.text("return")?;
        form.optional(" ", expr)?;
        self.made(&form)
    }

    /// A `break`, with its label and its value if there are such.
    pub fn expr_break<'p>(
        &self,
        label: Option<&'p ast::Lifetime>,
        expr: Option<&'p ast::Expr>,
    ) -> Result<ast::BreakExpr, MakeError>
        ensures { IsMadeOf ⟦<ast::BreakExpr as AstNode>⟧ (F.answers self.now.front.now)
            self.now.edition
            (fixed (codes "break") ∷
            (optional (codes " ")
            (option_map (λ it. ⟦<ast::Lifetime as AstNode>⟧.node it.now) label.entry)
            ++ (optional (codes " ") (option_map (λ it. expr_node it.now) expr.entry))))
            result }
    {
        let mut form = self.pieces();
        form.text("break")?;
        form.optional(" ", label)?;
        form.optional(" ", expr)?;
        self.made(&form)
    }

    /// A `continue`, with its label if there is one.
    pub fn expr_continue(
        &self,
        label: Option<&ast::Lifetime>,
    ) -> Result<ast::ContinueExpr, MakeError>
        ensures { IsMadeOf ⟦<ast::ContinueExpr as AstNode>⟧ (F.answers self.now.front.now)
            self.now.edition
            (fixed (codes "continue") ∷
            (optional (codes " ")
            (option_map (λ it. ⟦<ast::Lifetime as AstNode>⟧.node it.now) label.entry)))
            result }
    {
        let mut form = self.pieces();
        form.text("continue")?;
        form.optional(" ", label)?;
        self.made(&form)
    }

    /// A closure: `|p, q| a`.
    pub fn expr_closure<'p>(
        &self,
        params: &'p [ast::Param],
        body: &'p ast::Expr,
    ) -> Result<ast::ClosureExpr, MakeError>
        ensures { IsMadeOf ⟦<ast::ClosureExpr as AstNode>⟧ (F.answers self.now.front.now)
            self.now.edition
            (fixed (codes "|") ∷
            (separated (codes ", ") (map ⟦<ast::Param as AstNode>⟧.node params.now)
            ++ (fixed (codes "| ") ∷
            part (expr_node body.now) ∷ [])))
            result }
    {
        let mut form = self.pieces();
        form.text("|")?;
        form.separated(params, ", ")?;
        form.text("| ")?;
        form.part(body)?;
        self.made(&form)
    }

    /// An arm, with its guard if there is one: `p if a => b,`. It ends with a comma, unless its
    /// body ends in a block: `p => { b }`. A body with a block behind a guard of several lines is
    /// on a line of its own.
    pub fn match_arm<'p>(
        &self,
        pat: &'p ast::Pat,
        guard: Option<&'p ast::MatchGuard>,
        expr: &'p ast::Expr,
    ) -> Result<ast::MatchArm, MakeError>
        ensures { IsMadeOf ⟦<ast::MatchArm as AstNode>⟧ (F.answers self.now.front.now)
            self.now.edition
            (part (pat_node pat.now) ∷
            (optional (codes " ")
            (option_map (λ it. ⟦<ast::MatchGuard as AstNode>⟧.node it.now) guard.entry)
            ++ (fixed (codes " =>") ∷
            fixed (arm_space (option_map (λ it. ⟦<ast::MatchGuard as AstNode>⟧.node it.now)
            guard.entry) (expr_node expr.now)) ∷ part (expr_node expr.now) ∷
            fixed (text_if (not (ends_itself (expr_node expr.now))) (codes ",")) ∷ [])))
            result }
    {
        let mut form = self.pieces();
        form.part(pat)?;
        form.optional(" ", guard)?;
        form.text(" =>")?;
        form.text(arm_space(guard, expr))?;
        form.part(expr)?;
        form.text(text_if(!ends_itself(expr), ","))?;
        self.made(&form)
    }

    /// The guard of an arm: `if a`. The condition may be a `let`.
    pub fn match_guard(&self, condition: &ast::Expr) -> Result<ast::MatchGuard, MakeError>
        ensures { IsMadeOf ⟦<ast::MatchGuard as AstNode>⟧ (F.answers self.now.front.now)
            self.now.edition
            (fixed (codes "if ") ∷ part (expr_node condition.now) ∷ [])
            result }
    {
        self.form(&[Piece::Text("if "), Piece::Part(condition.syntax())])
    }

    /// Arms, a line for each. An arm without a comma gets one, unless its body ends in a block.
    pub fn match_arm_list(&self, arms: &[ast::MatchArm]) -> Result<ast::MatchArmList, MakeError>
        ensures { IsMadeOf ⟦<ast::MatchArmList as AstNode>⟧ (F.answers self.now.front.now)
            self.now.edition
            (fixed (codes "{\n") ∷
            (arm_bits (map ⟦<ast::MatchArm as AstNode>⟧.node arms.now)
            ++ (fixed (codes "}") ∷ [])))
            result }
    {
        let mut form = self.pieces();
        form.text("{\n")?;
        form.arms(arms)?;
        form.text("}")?;
        self.made(&form)
    }

    /// A block of statements, and its value if there is one: a line for each. Without a value, the
    /// last statement may be an expression without a `;`, which then is the block's value.
    pub fn block_expr<'p>(
        &self,
        stmts: &'p [ast::Stmt],
        tail_expr: Option<&'p ast::Expr>,
    ) -> Result<ast::BlockExpr, MakeError>
        ensures { IsMadeOf ⟦<ast::BlockExpr as AstNode>⟧ (F.answers self.now.front.now)
            self.now.edition
            (fixed (codes "{") ∷
            (stmt_bits (is_some tail_expr.entry) (map stmt_node stmts.now)
            ++ (optional (codes "\n    ") (option_map (λ it. expr_node it.now) tail_expr.entry)
            ++ (fixed (codes "\n}") ∷
            []))))
            result }
    {
        let mut form = self.pieces();
        form.text("{")?;
        form.stmts(tail_expr.is_some(), stmts)?;
        form.optional("\n    ", tail_expr)?;
        form.text("\n}")?;
        self.made(&form)
    }

    /// An expression as a statement: `a;`. One that ends in a block has no `;`: `loop {}`.
    pub fn expr_stmt(&self, expr: &ast::Expr) -> Result<ast::ExprStmt, MakeError>
        ensures { IsMadeOf ⟦<ast::ExprStmt as AstNode>⟧ (F.answers self.now.front.now)
            self.now.edition
            (part (expr_node expr.now) ∷
            fixed (text_if (not (ends_itself (expr_node expr.now))) (codes ";")) ∷ [])
            result }
    {
        self.form(&[
            Piece::Part(expr.syntax()),
            Piece::Text(text_if(!ends_itself(expr), ";")),
        ])
    }

    /// A `let`, with its type and its value if there are such: `let p: A = b;`.
    pub fn let_stmt<'p>(
        &self,
        pat: &'p ast::Pat,
        ty: Option<&'p ast::Type>,
        expr: Option<&'p ast::Expr>,
    ) -> Result<ast::LetStmt, MakeError>
        ensures { IsMadeOf ⟦<ast::LetStmt as AstNode>⟧ (F.answers self.now.front.now)
            self.now.edition
            (fixed (codes "let ") ∷ part (pat_node pat.now) ∷
            (optional (codes ": ") (option_map (λ it. ty_node it.now) ty.entry)
            ++ (optional (codes " = ") (option_map (λ it. expr_node it.now) expr.entry)
            ++ (fixed (codes ";") ∷
            []))))
            result }
    {
        let mut form = self.pieces();
        form.text("let ")?;
        form.part(pat)?;
        form.optional(": ", ty)?;
        form.optional(" = ", expr)?;
        form.text(";")?;
        self.made(&form)
    }

    /// A `let` with an `else`: `let p = a else { b };`.
    pub fn let_else_stmt<'p>(
        &self,
        pat: &'p ast::Pat,
        ty: Option<&'p ast::Type>,
        expr: &'p ast::Expr,
        diverging: &'p ast::BlockExpr,
    ) -> Result<ast::LetStmt, MakeError>
        ensures { IsMadeOf ⟦<ast::LetStmt as AstNode>⟧ (F.answers self.now.front.now)
            self.now.edition
            (fixed (codes "let ") ∷ part (pat_node pat.now) ∷
            (optional (codes ": ") (option_map (λ it. ty_node it.now) ty.entry)
            ++ (fixed (codes " = ") ∷
            left (expr_node expr.now) ∷ fixed (codes " else ") ∷
            part (⟦<ast::BlockExpr as AstNode>⟧.node diverging.now) ∷ fixed (codes ";") ∷ [])))
            result }
    {
        let mut form = self.pieces();
        form.text("let ")?;
        form.part(pat)?;
        form.optional(": ", ty)?;
        form.text(" = ")?;
        form.left(expr)?;
        form.text(" else ")?;
        form.part(diverging)?;
        form.text(";")?;
        self.made(&form)
    }
}
