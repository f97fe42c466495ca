//! Items and their parts.
ghost use Rattle.std.specs.Prelude.{◌∷◌, [], codes, ◌++◌, option_map, map};
ghost use Rattle.ra_ap_syntax.specs.MetaCases.{meta_node};
ghost use Rattle.ra_ap_syntax.specs.PatCases.{pat_node};
ghost use Rattle.ra_ap_syntax.specs.TypeCases.{ty_node};
ghost use Rattle.syntax_make.specs.Forms.{fixed, part};
ghost use Rattle.rust_make.specs.Makes.{IsMadeOf, optional, separated, each_between};

use crate::make::Make;
use ra_ap_syntax::ast::{self, AstNode};
use ras_front_end::FrontEnd;
use syntax_make::{MakeError, Piece};

impl<'a, F: FrontEnd> Make<'a, F> {
    /// A parameter: `p: A`.
    pub fn param<'p>(&self, pat: &'p ast::Pat, ty: &'p ast::Type) -> Result<ast::Param, MakeError>
        ensures { IsMadeOf ⟦<ast::Param as AstNode>⟧ (F.answers self.now.front.now) self.now.edition
            (part (pat_node pat.now) ∷ fixed (codes ": ") ∷ part (ty_node ty.now) ∷ [])
            result }
    {
        self.form(&[
            Piece::Part(pat.syntax()),
            Piece::Text(": "),
            Piece::Part(ty.syntax()),
        ])
    }

    /// The parameter `&self`.
    pub fn self_param(&self) -> Result<ast::SelfParam, MakeError>
        ensures { IsMadeOf ⟦<ast::SelfParam as AstNode>⟧ (F.answers self.now.front.now)
            self.now.edition
            (fixed (codes "&self") ∷ [])
            result }
    {
        self.form(&[Piece::Text("&self")])
    }

    /// Parameters: `(p: A, q: B)`.
    pub fn param_list(&self, params: &[ast::Param]) -> Result<ast::ParamList, MakeError>
        ensures { IsMadeOf ⟦<ast::ParamList as AstNode>⟧ (F.answers self.now.front.now)
            self.now.edition
            (fixed (codes "(") ∷
            (separated (codes ", ") (map ⟦<ast::Param as AstNode>⟧.node params.now)
            ++ (fixed (codes ")") ∷
            [])))
            result }
    {
        let mut form = self.pieces();
        form.text("(")?;
        form.separated(params, ", ")?;
        form.text(")")?;
        self.made(&form)
    }

    /// The visibility `pub`.
    pub fn visibility_pub(&self) -> Result<ast::Visibility, MakeError>
        ensures { IsMadeOf ⟦<ast::Visibility as AstNode>⟧ (F.answers self.now.front.now)
            self.now.edition
            (fixed (codes "pub") ∷ [])
            result }
    {
        self.form(&[Piece::Text("pub")])
    }

    /// An attribute: `#[a]`.
    pub fn attr_outer(&self, meta: &ast::Meta) -> Result<ast::Attr, MakeError>
        ensures { IsMadeOf ⟦<ast::Attr as AstNode>⟧ (F.answers self.now.front.now) self.now.edition
            (fixed (codes "#[") ∷ part (meta_node meta.now) ∷ fixed (codes "]") ∷ [])
            result }
    {
        self.form(&[
            Piece::Text("#["),
            Piece::Part(meta.syntax()),
            Piece::Text("]"),
        ])
    }

    /// What a `use` names: `a::b`.
    pub fn use_tree(&self, path: &ast::Path) -> Result<ast::UseTree, MakeError>
        ensures { IsMadeOf ⟦<ast::UseTree as AstNode>⟧ (F.answers self.now.front.now)
            self.now.edition
            (part (⟦<ast::Path as AstNode>⟧.node path.now) ∷ [])
            result }
    {
        self.form(&[Piece::Part(path.syntax())])
    }

    /// A `use`: `use a::b;`.
    pub fn use_(&self, use_tree: &ast::UseTree) -> Result<ast::Use, MakeError>
        ensures { IsMadeOf ⟦<ast::Use as AstNode>⟧ (F.answers self.now.front.now) self.now.edition
            (fixed (codes "use ") ∷ part (⟦<ast::UseTree as AstNode>⟧.node use_tree.now) ∷
            fixed (codes ";") ∷ [])
            result }
    {
        self.form(&[
            Piece::Text("use "),
            Piece::Part(use_tree.syntax()),
            Piece::Text(";"),
        ])
    }

    /// A function: `fn a(p: A) -> B { c }`.
    pub fn fn_<'p>(
        &self,
        name: &'p ast::Name,
        generics: Option<&'p ast::GenericParamList>,
        params: &'p ast::ParamList,
        ret_type: Option<&'p ast::RetType>,
        body: &'p ast::BlockExpr,
    ) -> Result<ast::Fn, MakeError>
        ensures { IsMadeOf ⟦<ast::Fn as AstNode>⟧ (F.answers self.now.front.now) self.now.edition
            (fixed (codes "fn ") ∷ part (⟦<ast::Name as AstNode>⟧.node name.now) ∷
            (optional (codes "") (option_map
            (λ it. ⟦<ast::GenericParamList as AstNode>⟧.node it.now) generics.entry)
            ++ (part (⟦<ast::ParamList as AstNode>⟧.node params.now) ∷
            (optional (codes " ")
            (option_map (λ it. ⟦<ast::RetType as AstNode>⟧.node it.now) ret_type.entry)
            ++ (fixed (codes " ") ∷
            part (⟦<ast::BlockExpr as AstNode>⟧.node body.now) ∷ [])))))
            result }
    {
        let mut form = self.pieces();
        form.text("fn ")?;
        form.part(name)?;
        form.optional("", generics)?;
        form.part(params)?;
        form.optional(" ", ret_type)?;
        form.text(" ")?;
        form.part(body)?;
        self.made(&form)
    }
}
