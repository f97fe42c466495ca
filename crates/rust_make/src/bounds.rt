//! Bounds, generic parameters and `where`.
ghost use Rattle.std.specs.Prelude.{◌∷◌, [], codes, ◌++◌, option_map, map};
ghost use Rattle.ra_ap_syntax.specs.TypeCases.{ty_node};
ghost use Rattle.syntax_make.specs.Forms.{fixed, part};
ghost use Rattle.rust_make.specs.Makes.{IsMadeOf, optional, separated};

use crate::make::Make;
use ra_ap_syntax::ast::{self, AstNode};
use ras_front_end::FrontEnd;
use syntax_make::{MakeError, Piece};

impl<'a, F: FrontEnd> Make<'a, F> {
    /// A bound: `A`.
    pub fn type_bound(&self, bound: &ast::Type) -> Result<ast::TypeBound, MakeError>
        ensures { IsMadeOf ⟦<ast::TypeBound as AstNode>⟧ (F.answers self.now.front.now)
            self.now.edition
            (part (ty_node bound.now) ∷ [])
            result }
    {
        self.form(&[Piece::Part(bound.syntax())])
    }

    /// Bounds: `A + B`. Of none they are a list without text.
    pub fn type_bound_list(
        &self,
        bounds: &[ast::TypeBound],
    ) -> Result<ast::TypeBoundList, MakeError>
        ensures { IsMadeOf ⟦<ast::TypeBoundList as AstNode>⟧ (F.answers self.now.front.now)
            self.now.edition
            (separated (codes " + ") (map ⟦<ast::TypeBound as AstNode>⟧.node bounds.now))
            result }
    {
        let mut form = self.pieces();
        form.separated(bounds, " + ")?;
        self.made(&form)
    }

    /// A type parameter, with its bounds if there are such: `A: B`.
    pub fn type_param<'p>(
        &self,
        name: &'p ast::Name,
        bounds: Option<&'p ast::TypeBoundList>,
    ) -> Result<ast::TypeParam, MakeError>
        ensures { IsMadeOf ⟦<ast::TypeParam as AstNode>⟧ (F.answers self.now.front.now)
            self.now.edition
            (part (⟦<ast::Name as AstNode>⟧.node name.now) ∷
            (optional (codes ": ")
            (option_map (λ it. ⟦<ast::TypeBoundList as AstNode>⟧.node it.now) bounds.entry)))
            result }
    {
        let mut form = self.pieces();
        form.part(name)?;
        form.optional(": ", bounds)?;
        self.made(&form)
    }

    /// A predicate on a type: `A: B + C`.
    pub fn where_pred<'p>(
        &self,
        ty: &'p ast::Type,
        bounds: &'p [ast::TypeBound],
    ) -> Result<ast::WherePred, MakeError>
        ensures { IsMadeOf ⟦<ast::WherePred as AstNode>⟧ (F.answers self.now.front.now)
            self.now.edition
            (part (ty_node ty.now) ∷ fixed (codes ": ") ∷
            separated (codes " + ") (map ⟦<ast::TypeBound as AstNode>⟧.node bounds.now))
            result }
    {
        let mut form = self.pieces();
        form.part(ty)?;
        form.text(": ")?;
        form.separated(bounds, " + ")?;
        self.made(&form)
    }

    /// Predicates: `where A: B, C: D`.
    pub fn where_clause(&self, preds: &[ast::WherePred]) -> Result<ast::WhereClause, MakeError>
        ensures { IsMadeOf ⟦<ast::WhereClause as AstNode>⟧ (F.answers self.now.front.now)
            self.now.edition
            (fixed (codes "where ") ∷
            separated (codes ", ") (map ⟦<ast::WherePred as AstNode>⟧.node preds.now))
            result }
    {
        let mut form = self.pieces();
        form.text("where ")?;
        form.separated(preds, ", ")?;
        self.made(&form)
    }
}
