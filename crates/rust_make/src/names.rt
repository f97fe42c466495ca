//! Names, paths and generic arguments.
ghost use Rattle.std.specs.Prelude.{◌≡◌, ◌∷◌, [], codes, ◌++◌, map};
ghost use Rattle.ra_ap_syntax.specs.GenericArgCases.{generic_arg_node};
ghost use Rattle.ra_ap_syntax.specs.GenericParamCases.{generic_param_node};
ghost use Rattle.ra_ap_syntax.specs.TypeCases.{ty_node};
ghost use Rattle.tree_model.specs.Tree.{text};
ghost use Rattle.tree_model.specs.Cursor.{focus};
ghost use Rattle.syntax_make.specs.Forms.{fixed, part};
ghost use Rattle.rust_make.specs.Makes.{IsMadeOf, separated, raw_prefix, leading_bits, text_if};

use crate::make::Make;
use crate::signs::text_if;
use ra_ap_syntax::ast::{self, AstNode};
use ra_ap_syntax::utils::is_raw_identifier;
use ras_front_end::FrontEnd;
use syntax_make::{MakeError, Piece};

impl<'a, F: FrontEnd> Make<'a, F> {
    // `r#`, if a word can be a name only behind it.
    fn raw_prefix(&self, text: &str) -> &'static str
        ensures { result.now
            ≡ raw_prefix (F.answers self.now.front.now) self.now.edition text.now }
    {
        text_if(is_raw_identifier(text, self.front, self.edition), "r#")
    }

    /// A lifetime with its sign: `'a`. Without the sign it is refused.
    pub fn lifetime(&self, text: &str) -> Result<ast::Lifetime, MakeError>
        ensures { IsMadeOf ⟦<ast::Lifetime as AstNode>⟧ (F.answers self.now.front.now)
            self.now.edition
            (fixed text.now ∷ [])
            result }
    {
        self.form(&[Piece::Text(text)])
    }

    /// A name that is defined: `a`. A keyword of the edition gets `r#`: `r#type`. `self`, `super`,
    /// `crate` and `Self` cannot be such names, and are refused.
    pub fn name(&self, text: &str) -> Result<ast::Name, MakeError>
        ensures { IsMadeOf ⟦<ast::Name as AstNode>⟧ (F.answers self.now.front.now) self.now.edition
            (fixed (raw_prefix (F.answers self.now.front.now) self.now.edition text.now) ∷
            fixed text.now ∷ [])
            result }
    {
        self.form(&[Piece::Text(self.raw_prefix(text)), Piece::Text(text)])
    }

    /// A name that is used: `a`. A keyword of the edition gets `r#`: `r#type`; but `self`, `super`,
    /// `crate` and `Self` stay as they are.
    pub fn name_ref(&self, text: &str) -> Result<ast::NameRef, MakeError>
        ensures { IsMadeOf ⟦<ast::NameRef as AstNode>⟧ (F.answers self.now.front.now)
            self.now.edition
            (fixed (raw_prefix (F.answers self.now.front.now) self.now.edition text.now) ∷
            fixed text.now ∷ [])
            result }
    {
        self.form(&[Piece::Text(self.raw_prefix(text)), Piece::Text(text)])
    }

    /// A path, as in a type: `a::b<C>`.
    pub fn path_from_text(&self, text: &str) -> Result<ast::Path, MakeError>
        ensures { IsMadeOf ⟦<ast::Path as AstNode>⟧ (F.answers self.now.front.now) self.now.edition
            (fixed text.now ∷ [])
            result }
    {
        self.form(&[Piece::Text(text)])
    }

    /// A path of one name: `a`. A keyword of the edition gets `r#`, as in `name_ref`.
    pub fn ident_path(&self, text: &str) -> Result<ast::Path, MakeError>
        ensures { IsMadeOf ⟦<ast::Path as AstNode>⟧ (F.answers self.now.front.now) self.now.edition
            (fixed (raw_prefix (F.answers self.now.front.now) self.now.edition text.now) ∷
            fixed text.now ∷ [])
            result }
    {
        self.form(&[Piece::Text(self.raw_prefix(text)), Piece::Text(text)])
    }

    /// A segment without generic arguments.
    pub fn path_segment(&self, name_ref: &ast::NameRef) -> Result<ast::PathSegment, MakeError>
        ensures { IsMadeOf ⟦<ast::PathSegment as AstNode>⟧ (F.answers self.now.front.now)
            self.now.edition
            (part (⟦<ast::NameRef as AstNode>⟧.node name_ref.now) ∷ [])
            result }
    {
        self.form(&[Piece::Part(name_ref.syntax())])
    }

    /// A path of one segment.
    pub fn path_unqualified(&self, segment: &ast::PathSegment) -> Result<ast::Path, MakeError>
        ensures { IsMadeOf ⟦<ast::Path as AstNode>⟧ (F.answers self.now.front.now) self.now.edition
            (part (⟦<ast::PathSegment as AstNode>⟧.node segment.now) ∷ [])
            result }
    {
        self.form(&[Piece::Part(segment.syntax())])
    }

    /// A path with one more segment: `a::b`.
    pub fn path_qualified<'p>(
        &self,
        qual: &'p ast::Path,
        segment: &'p ast::PathSegment,
    ) -> Result<ast::Path, MakeError>
        ensures { IsMadeOf ⟦<ast::Path as AstNode>⟧ (F.answers self.now.front.now) self.now.edition
            (part (⟦<ast::Path as AstNode>⟧.node qual.now) ∷ fixed (codes "::") ∷
            part (⟦<ast::PathSegment as AstNode>⟧.node segment.now) ∷ [])
            result }
    {
        self.form(&[
            Piece::Part(qual.syntax()),
            Piece::Text("::"),
            Piece::Part(segment.syntax()),
        ])
    }

    /// A path and another one behind it: `a::b::c`. The second one is put by its text, since its
    /// segments become those of one longer path.
    pub fn path_concat<'p>(
        &self,
        first: &'p ast::Path,
        second: &'p ast::Path,
    ) -> Result<ast::Path, MakeError>
        ensures { IsMadeOf ⟦<ast::Path as AstNode>⟧ (F.answers self.now.front.now) self.now.edition
            (part (⟦<ast::Path as AstNode>⟧.node first.now) ∷ fixed (codes "::") ∷
            fixed (text (focus (⟦<ast::Path as AstNode>⟧.node second.now))) ∷ [])
            result }
    {
        self.form(&[
            Piece::Part(first.syntax()),
            Piece::Text("::"),
            Piece::Text(second.syntax().as_str()),
        ])
    }

    /// A path of segments, from the root if `is_abs`: `a::b`, `::a::b`. Of no segments it is
    /// refused.
    pub fn path_from_segments(
        &self,
        segments: &[ast::PathSegment],
        is_abs: bool,
    ) -> Result<ast::Path, MakeError>
        ensures { IsMadeOf ⟦<ast::Path as AstNode>⟧ (F.answers self.now.front.now) self.now.edition
            (fixed (text_if is_abs (codes "::")) ∷
            leading_bits is_abs (codes "::")
            (map ⟦<ast::PathSegment as AstNode>⟧.node segments.now))
            result }
    {
        let mut form = self.pieces();
        form.text(text_if(is_abs, "::"))?;
        form.leading(is_abs, segments, "::")?;
        self.made(&form)
    }

    /// A type as a generic argument.
    pub fn type_arg(&self, ty: &ast::Type) -> Result<ast::TypeArg, MakeError>
        ensures { IsMadeOf ⟦<ast::TypeArg as AstNode>⟧ (F.answers self.now.front.now)
            self.now.edition
            (part (ty_node ty.now) ∷ [])
            result }
    {
        self.form(&[Piece::Part(ty.syntax())])
    }

    /// Generic arguments: `<A, B>`.
    pub fn generic_arg_list(
        &self,
        args: &[ast::GenericArg],
    ) -> Result<ast::GenericArgList, MakeError>
        ensures { IsMadeOf ⟦<ast::GenericArgList as AstNode>⟧ (F.answers self.now.front.now)
            self.now.edition
            (fixed (codes "<") ∷
            (separated (codes ", ") (map generic_arg_node args.now) ++ (fixed (codes ">") ∷ [])))
            result }
    {
        let mut form = self.pieces();
        form.text("<")?;
        form.separated(args, ", ")?;
        form.text(">")?;
        self.made(&form)
    }

    /// Generic parameters: `<A, B>`.
    pub fn generic_param_list(
        &self,
        params: &[ast::GenericParam],
    ) -> Result<ast::GenericParamList, MakeError>
        ensures { IsMadeOf ⟦<ast::GenericParamList as AstNode>⟧ (F.answers self.now.front.now)
            self.now.edition
            (fixed (codes "<") ∷
            (separated (codes ", ") (map generic_param_node params.now) ++ (fixed (codes ">") ∷
            [])))
            result }
    {
        let mut form = self.pieces();
        form.text("<")?;
        form.separated(params, ", ")?;
        form.text(">")?;
        self.made(&form)
    }
}
