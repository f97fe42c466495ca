//! Patterns.
ghost use Rattle.std.specs.Prelude.{◌∷◌, [], codes, ◌++◌, ◌==◌, map, length};
ghost use Rattle.ra_ap_syntax.specs.PatCases.{pat_node};
ghost use Rattle.syntax_make.specs.Forms.{fixed, part, left};
ghost use Rattle.rust_make.specs.Makes.{IsMadeOf, separated, text_if, pat_bit};

use crate::make::Make;
use crate::signs::{pat_piece, text_if};
use ra_ap_syntax::ast::{self, AstNode};
use ras_front_end::FrontEnd;
use syntax_make::{MakeError, Piece};

impl<'a, F: FrontEnd> Make<'a, F> {
    /// The pattern `_`.
    pub fn wildcard_pat(&self) -> Result<ast::WildcardPat, MakeError>
        ensures { IsMadeOf ⟦<ast::WildcardPat as AstNode>⟧ (F.answers self.now.front.now)
            self.now.edition
            (fixed (codes "_") ∷ [])
            result }
    {
        self.form(&[Piece::Text("_")])
    }

    /// A name as a pattern: `a`.
    pub fn ident_pat(&self, name: &ast::Name) -> Result<ast::IdentPat, MakeError>
        ensures { IsMadeOf ⟦<ast::IdentPat as AstNode>⟧ (F.answers self.now.front.now)
            self.now.edition
            (part (⟦<ast::Name as AstNode>⟧.node name.now) ∷ [])
            result }
    {
        self.form(&[Piece::Part(name.syntax())])
    }

    /// A name that may be written: `mut a`.
    pub fn ident_pat_mut(&self, name: &ast::Name) -> Result<ast::IdentPat, MakeError>
        ensures { IsMadeOf ⟦<ast::IdentPat as AstNode>⟧ (F.answers self.now.front.now)
            self.now.edition
            (fixed (codes "mut ") ∷ part (⟦<ast::Name as AstNode>⟧.node name.now) ∷ [])
            result }
    {
        self.form(&[Piece::Text("mut "), Piece::Part(name.syntax())])
    }

    /// A path as a pattern: `A::B`. One name is the pattern of a name: `None` is an `IDENT_PAT`.
    pub fn path_pat(&self, path: &ast::Path) -> Result<ast::Pat, MakeError>
        ensures { IsMadeOf ⟦<ast::Pat as AstNode>⟧ (F.answers self.now.front.now) self.now.edition
            (pat_bit (⟦<ast::Path as AstNode>⟧.node path.now) ∷ [])
            result }
    {
        self.form(&[pat_piece(path.syntax())])
    }

    /// A tuple of patterns: `(p, q)`; of one, `(p,)`.
    pub fn tuple_pat(&self, pats: &[ast::Pat]) -> Result<ast::TuplePat, MakeError>
        ensures { IsMadeOf ⟦<ast::TuplePat as AstNode>⟧ (F.answers self.now.front.now)
            self.now.edition
            (fixed (codes "(") ∷
            (separated (codes ", ") (map pat_node pats.now)
            ++ (fixed (text_if (length pats.now == 1) (codes ",")) ∷ fixed (codes ")") ∷ [])))
            result }
    {
        let mut form = self.pieces();
        form.text("(")?;
        form.separated(pats, ", ")?;
        form.text(text_if(pats.len() == 1, ","))?;
        form.text(")")?;
        self.made(&form)
    }

    /// A tuple struct: `A(p, q)`.
    pub fn tuple_struct_pat<'p>(
        &self,
        path: &'p ast::Path,
        pats: &'p [ast::Pat],
    ) -> Result<ast::TupleStructPat, MakeError>
        ensures { IsMadeOf ⟦<ast::TupleStructPat as AstNode>⟧ (F.answers self.now.front.now)
            self.now.edition
            (part (⟦<ast::Path as AstNode>⟧.node path.now) ∷ fixed (codes "(") ∷
            (separated (codes ", ") (map pat_node pats.now) ++ (fixed (codes ")") ∷ [])))
            result }
    {
        let mut form = self.pieces();
        form.part(path)?;
        form.text("(")?;
        form.separated(pats, ", ")?;
        form.text(")")?;
        self.made(&form)
    }

    /// A record: `A { a, b: p }`.
    pub fn record_pat<'p>(
        &self,
        path: &'p ast::Path,
        fields: &'p [ast::RecordPatField],
    ) -> Result<ast::RecordPat, MakeError>
        ensures { IsMadeOf ⟦<ast::RecordPat as AstNode>⟧ (F.answers self.now.front.now)
            self.now.edition
            (part (⟦<ast::Path as AstNode>⟧.node path.now) ∷ fixed (codes " { ") ∷
            (separated (codes ", ") (map ⟦<ast::RecordPatField as AstNode>⟧.node fields.now)
            ++ (fixed (codes " }") ∷
            [])))
            result }
    {
        let mut form = self.pieces();
        form.part(path)?;
        form.text(" { ")?;
        form.separated(fields, ", ")?;
        form.text(" }")?;
        self.made(&form)
    }

    /// A literal as a pattern: `1`, `-1`, `"a"`.
    pub fn literal_pat(&self, text: &str) -> Result<ast::LiteralPat, MakeError>
        ensures { IsMadeOf ⟦<ast::LiteralPat as AstNode>⟧ (F.answers self.now.front.now)
            self.now.edition
            (fixed text.now ∷ [])
            result }
    {
        self.form(&[Piece::Text(text)])
    }

    /// Alternatives, with a sign before the first one if `leading_pipe`: `p | q`. Of fewer than two
    /// it is refused, but for one with the sign.
    pub fn or_pat(&self, pats: &[ast::Pat], leading_pipe: bool) -> Result<ast::OrPat, MakeError>
        ensures { IsMadeOf ⟦<ast::OrPat as AstNode>⟧ (F.answers self.now.front.now)
            self.now.edition
            (fixed (text_if leading_pipe (codes "| ")) ∷
            separated (codes " | ") (map pat_node pats.now))
            result }
    {
        let mut form = self.pieces();
        form.text(text_if(leading_pipe, "| "))?;
        form.separated(pats, " | ")?;
        self.made(&form)
    }

    /// A slice of patterns: `[p, q]`.
    pub fn slice_pat(&self, pats: &[ast::Pat]) -> Result<ast::SlicePat, MakeError>
        ensures { IsMadeOf ⟦<ast::SlicePat as AstNode>⟧ (F.answers self.now.front.now)
            self.now.edition
            (fixed (codes "[") ∷
            (separated (codes ", ") (map pat_node pats.now) ++ (fixed (codes "]") ∷ [])))
            result }
    {
        let mut form = self.pieces();
        form.text("[")?;
        form.separated(pats, ", ")?;
        form.text("]")?;
        self.made(&form)
    }
}
