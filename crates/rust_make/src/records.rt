//! Records and their fields, in expressions and in patterns.
ghost use Rattle.std.specs.Prelude.{◌∷◌, [], codes, ◌++◌, ◌==◌, not, option_map, map, length};
ghost use Rattle.ra_ap_syntax.specs.ExprCases.{expr_node};
ghost use Rattle.ra_ap_syntax.specs.PatCases.{pat_node};
ghost use Rattle.syntax_make.specs.Forms.{fixed, part};
ghost use Rattle.rust_make.specs.Makes.{IsMadeOf, optional, separated, text_if};

use crate::make::Make;
use crate::signs::text_if;
use ra_ap_syntax::ast::{self, AstNode};
use ras_front_end::FrontEnd;
use rust_views::{RecordExprFieldList, RecordPatFieldList};
use syntax_make::{MakeError, Piece};

impl<'a, F: FrontEnd> Make<'a, F> {
    /// A field of a record expression: `a: b`, or `a` if it has no value.
    pub fn record_expr_field<'p>(
        &self,
        name: &'p ast::NameRef,
        expr: Option<&'p ast::Expr>,
    ) -> Result<ast::RecordExprField, MakeError>
        ensures { IsMadeOf ⟦<ast::RecordExprField as AstNode>⟧ (F.answers self.now.front.now)
            self.now.edition
            (part (⟦<ast::NameRef as AstNode>⟧.node name.now) ∷
            (optional (codes ": ") (option_map (λ it. expr_node it.now) expr.entry)))
            result }
    {
        let mut form = self.pieces();
        form.part(name)?;
        form.optional(": ", expr)?;
        self.made(&form)
    }

    /// The fields of a record expression with their braces: `{ a, b: c }`.
    pub fn record_expr_field_list(
        &self,
        fields: &[ast::RecordExprField],
    ) -> Result<RecordExprFieldList, MakeError>
        ensures { IsMadeOf ⟦<RecordExprFieldList as AstNode>⟧ (F.answers self.now.front.now)
            self.now.edition
            (fixed (codes "{ ") ∷
            (separated (codes ", ") (map ⟦<ast::RecordExprField as AstNode>⟧.node fields.now)
            ++ (fixed (codes " }") ∷ [])))
            result }
    {
        let mut form = self.pieces();
        form.text("{ ")?;
        form.separated(fields, ", ")?;
        form.text(" }")?;
        self.made(&form)
    }

    /// A record expression: `A { b, c: d }`.
    pub fn record_expr<'p>(
        &self,
        path: &'p ast::Path,
        fields: &'p RecordExprFieldList,
    ) -> Result<ast::RecordExpr, MakeError>
        ensures { IsMadeOf ⟦<ast::RecordExpr as AstNode>⟧ (F.answers self.now.front.now)
            self.now.edition
            (part (⟦<ast::Path as AstNode>⟧.node path.now) ∷ fixed (codes " ") ∷
            part (⟦<RecordExprFieldList as AstNode>⟧.node fields.now) ∷ [])
            result }
    {
        self.form(&[
            Piece::Part(path.syntax()),
            Piece::Text(" "),
            Piece::Part(fields.syntax()),
        ])
    }

    /// A field of a record pattern: `a: p`.
    pub fn record_pat_field<'p>(
        &self,
        name: &'p ast::NameRef,
        pat: &'p ast::Pat,
    ) -> Result<ast::RecordPatField, MakeError>
        ensures { IsMadeOf ⟦<ast::RecordPatField as AstNode>⟧ (F.answers self.now.front.now)
            self.now.edition
            (part (⟦<ast::NameRef as AstNode>⟧.node name.now) ∷ fixed (codes ": ") ∷
            part (pat_node pat.now) ∷ [])
            result }
    {
        self.form(&[
            Piece::Part(name.syntax()),
            Piece::Text(": "),
            Piece::Part(pat.syntax()),
        ])
    }

    /// A field of a record pattern that is a name: `a`, `ref mut a`. Other patterns are refused.
    pub fn record_pat_field_shorthand(
        &self,
        pat: &ast::Pat,
    ) -> Result<ast::RecordPatField, MakeError>
        ensures { IsMadeOf ⟦<ast::RecordPatField as AstNode>⟧ (F.answers self.now.front.now)
            self.now.edition
            (part (pat_node pat.now) ∷ [])
            result }
    {
        self.form(&[Piece::Part(pat.syntax())])
    }

    /// The fields of a record pattern with their braces, and `..` behind them if there is one:
    /// `{ a, b: p, .. }`.
    pub fn record_pat_field_list<'p>(
        &self,
        fields: &'p [ast::RecordPatField],
        rest_pat: Option<&'p ast::RestPat>,
    ) -> Result<RecordPatFieldList, MakeError>
        ensures { IsMadeOf ⟦<RecordPatFieldList as AstNode>⟧ (F.answers self.now.front.now)
            self.now.edition
            (fixed (codes "{ ") ∷
            (separated (codes ", ") (map ⟦<ast::RecordPatField as AstNode>⟧.node fields.now)
            ++ (optional (text_if (not (length fields.now == 0)) (codes ", "))
            (option_map (λ it. ⟦<ast::RestPat as AstNode>⟧.node it.now) rest_pat.entry)
            ++ (fixed (codes " }") ∷ []))))
            result }
    {
        let mut form = self.pieces();
        form.text("{ ")?;
        form.separated(fields, ", ")?;
        form.optional(text_if(!fields.is_empty(), ", "), rest_pat)?;
        form.text(" }")?;
        self.made(&form)
    }

    /// A record pattern of fields with their braces: `A { a, .. }`.
    pub fn record_pat_with_fields<'p>(
        &self,
        path: &'p ast::Path,
        fields: &'p RecordPatFieldList,
    ) -> Result<ast::RecordPat, MakeError>
        ensures { IsMadeOf ⟦<ast::RecordPat as AstNode>⟧ (F.answers self.now.front.now)
            self.now.edition
            (part (⟦<ast::Path as AstNode>⟧.node path.now) ∷ fixed (codes " ") ∷
            part (⟦<RecordPatFieldList as AstNode>⟧.node fields.now) ∷ [])
            result }
    {
        self.form(&[
            Piece::Part(path.syntax()),
            Piece::Text(" "),
            Piece::Part(fields.syntax()),
        ])
    }
}
