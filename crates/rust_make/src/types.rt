//! Types.
ghost use Rattle.std.specs.Prelude.{◌∷◌, [], codes};
ghost use Rattle.ra_ap_syntax.specs.ExprCases.{expr_node};
ghost use Rattle.ra_ap_syntax.specs.TypeCases.{ty_node};
ghost use Rattle.syntax_make.specs.Forms.{fixed, part, left};
ghost use Rattle.rust_make.specs.Makes.{IsMadeOf};

use crate::make::Make;
use ra_ap_syntax::ast::{self, AstNode};
use ras_front_end::FrontEnd;
use syntax_make::{MakeError, Piece};

impl<'a, F: FrontEnd> Make<'a, F> {
    /// A type: `A<B>`.
    pub fn ty(&self, text: &str) -> Result<ast::Type, MakeError>
        ensures { IsMadeOf ⟦<ast::Type as AstNode>⟧ (F.answers self.now.front.now) self.now.edition
            (fixed text.now ∷ [])
            result }
    {
        self.form(&[Piece::Text(text)])
    }

    /// The type that is inferred: `_`.
    pub fn ty_placeholder(&self) -> Result<ast::Type, MakeError>
        ensures { IsMadeOf ⟦<ast::Type as AstNode>⟧ (F.answers self.now.front.now) self.now.edition
            (fixed (codes "_") ∷ [])
            result }
    {
        self.form(&[Piece::Text("_")])
    }

    /// The type `()`.
    pub fn ty_unit(&self) -> Result<ast::Type, MakeError>
        ensures { IsMadeOf ⟦<ast::Type as AstNode>⟧ (F.answers self.now.front.now) self.now.edition
            (fixed (codes "()") ∷ [])
            result }
    {
        self.form(&[Piece::Text("()")])
    }

    /// A path as a type.
    pub fn ty_path(&self, path: &ast::Path) -> Result<ast::Type, MakeError>
        ensures { IsMadeOf ⟦<ast::Type as AstNode>⟧ (F.answers self.now.front.now) self.now.edition
            (part (⟦<ast::Path as AstNode>⟧.node path.now) ∷ [])
            result }
    {
        self.form(&[Piece::Part(path.syntax())])
    }

    /// A shared reference: `&A`. A sum of bounds gets a pair: `&(dyn A + B)`.
    pub fn ty_ref(&self, target: &ast::Type) -> Result<ast::Type, MakeError>
        ensures { IsMadeOf ⟦<ast::Type as AstNode>⟧ (F.answers self.now.front.now) self.now.edition
            (fixed (codes "&") ∷ left (ty_node target.now) ∷ [])
            result }
    {
        self.form(&[Piece::Text("&"), Piece::Left(target.syntax())])
    }

    /// A reference that may write: `&mut A`.
    pub fn ty_ref_mut(&self, target: &ast::Type) -> Result<ast::Type, MakeError>
        ensures { IsMadeOf ⟦<ast::Type as AstNode>⟧ (F.answers self.now.front.now) self.now.edition
            (fixed (codes "&mut ") ∷ left (ty_node target.now) ∷ [])
            result }
    {
        self.form(&[Piece::Text("&mut "), Piece::Left(target.syntax())])
    }

    /// A result type: `-> A`.
    pub fn ret_type(&self, ty: &ast::Type) -> Result<ast::RetType, MakeError>
        ensures { IsMadeOf ⟦<ast::RetType as AstNode>⟧ (F.answers self.now.front.now)
            self.now.edition
            (fixed (codes "-> ") ∷ part (ty_node ty.now) ∷ [])
            result }
    {
        self.form(&[Piece::Text("-> "), Piece::Part(ty.syntax())])
    }
}
