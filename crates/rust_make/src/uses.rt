//! What a `use` names, attributes, visibilities, and lists of items.
ghost use Rattle.std.specs.Prelude.{◌∷◌, [], codes, ◌++◌, ◌==◌, not, option_map, map, length};
ghost use Rattle.ra_ap_syntax.specs.AssocItemCases.{assoc_item_node};
ghost use Rattle.syntax_make.specs.Forms.{fixed, part};
ghost use Rattle.rust_make.specs.Makes.{IsMadeOf, optional, separated, behind, text_if};

use crate::make::Make;
use crate::signs::text_if;
use ra_ap_syntax::ast::{self, AstNode};
use ras_front_end::FrontEnd;
use rust_views::Rename;
use syntax_make::{MakeError, Piece};

impl<'a, F: FrontEnd> Make<'a, F> {
    /// What a `use` names, of all its parts: `a::{b, c}`, `a::*`, `a as b`. A list with a star or
    /// with a name is refused.
    pub fn use_tree_with<'p>(
        &self,
        path: &'p ast::Path,
        list: Option<&'p ast::UseTreeList>,
        alias: Option<&'p Rename>,
        add_star: bool,
    ) -> Result<ast::UseTree, MakeError>
        ensures { IsMadeOf ⟦<ast::UseTree as AstNode>⟧ (F.answers self.now.front.now)
            self.now.edition
            (part (⟦<ast::Path as AstNode>⟧.node path.now) ∷
            (optional (codes "::")
            (option_map (λ it. ⟦<ast::UseTreeList as AstNode>⟧.node it.now) list.entry)
            ++ (fixed (text_if add_star (codes "::*")) ∷
            (optional (codes " ")
            (option_map (λ it. ⟦<Rename as AstNode>⟧.node it.now) alias.entry)))))
            result }
    {
        let mut form = self.pieces();
        form.part(path)?;
        form.optional("::", list)?;
        form.text(text_if(add_star, "::*"))?;
        form.optional(" ", alias)?;
        self.made(&form)
    }

    /// What a `use` names in braces: `{a, b}`.
    pub fn use_tree_list(&self, trees: &[ast::UseTree]) -> Result<ast::UseTreeList, MakeError>
        ensures { IsMadeOf ⟦<ast::UseTreeList as AstNode>⟧ (F.answers self.now.front.now)
            self.now.edition
            (fixed (codes "{") ∷
            (separated (codes ", ") (map ⟦<ast::UseTree as AstNode>⟧.node trees.now)
            ++ (fixed (codes "}") ∷ [])))
            result }
    {
        let mut form = self.pieces();
        form.text("{")?;
        form.separated(trees, ", ")?;
        form.text("}")?;
        self.made(&form)
    }

    /// The visibility `pub(crate)`.
    pub fn visibility_pub_crate(&self) -> Result<ast::Visibility, MakeError>
        ensures { IsMadeOf ⟦<ast::Visibility as AstNode>⟧ (F.answers self.now.front.now)
            self.now.edition
            (fixed (codes "pub(crate)") ∷ [])
            result }
    {
        self.form(&[Piece::Text("pub(crate)")])
    }

    /// The contents of an attribute that are a path with tokens: `a(b)`.
    pub fn meta_token_tree<'p>(
        &self,
        path: &'p ast::Path,
        tokens: &'p ast::TokenTree,
    ) -> Result<ast::Meta, MakeError>
        ensures { IsMadeOf ⟦<ast::Meta as AstNode>⟧ (F.answers self.now.front.now)
            self.now.edition
            (part (⟦<ast::Path as AstNode>⟧.node path.now) ∷
            part (⟦<ast::TokenTree as AstNode>⟧.node tokens.now) ∷ [])
            result }
    {
        self.form(&[Piece::Part(path.syntax()), Piece::Part(tokens.syntax())])
    }

    /// The contents of an attribute that are a path: `a`.
    pub fn meta_path(&self, path: &ast::Path) -> Result<ast::Meta, MakeError>
        ensures { IsMadeOf ⟦<ast::Meta as AstNode>⟧ (F.answers self.now.front.now)
            self.now.edition
            (part (⟦<ast::Path as AstNode>⟧.node path.now) ∷ [])
            result }
    {
        self.form(&[Piece::Part(path.syntax())])
    }

    /// Parameters behind a `self`: `(&self, p: A)`.
    pub fn param_list_with_self<'p>(
        &self,
        self_param: &'p ast::SelfParam,
        params: &'p [ast::Param],
    ) -> Result<ast::ParamList, MakeError>
        ensures { IsMadeOf ⟦<ast::ParamList as AstNode>⟧ (F.answers self.now.front.now)
            self.now.edition
            (fixed (codes "(") ∷ part (⟦<ast::SelfParam as AstNode>⟧.node self_param.now) ∷
            (behind (codes ", ") (map ⟦<ast::Param as AstNode>⟧.node params.now)
            ++ (fixed (codes ")") ∷ [])))
            result }
    {
        let mut form = self.pieces();
        form.text("(")?;
        form.part(self_param)?;
        form.each_behind(", ", params)?;
        form.text(")")?;
        self.made(&form)
    }

    /// The items of an `impl` or a trait with their braces, with an empty line between any two. Of
    /// no items it is `{}`.
    pub fn assoc_item_list(&self, items: &[ast::AssocItem]) -> Result<ast::AssocItemList, MakeError>
        ensures { IsMadeOf ⟦<ast::AssocItemList as AstNode>⟧ (F.answers self.now.front.now)
            self.now.edition
            (fixed (codes "{") ∷
            fixed (text_if (not (length items.now == 0)) (codes "\n    ")) ∷
            (separated (codes "\n\n    ") (map assoc_item_node items.now)
            ++ (fixed (text_if (not (length items.now == 0)) (codes "\n")) ∷
            fixed (codes "}") ∷ [])))
            result }
    {
        let mut form = self.pieces();
        form.text("{")?;
        form.text(text_if(!items.is_empty(), "\n    "))?;
        form.separated(items, "\n\n    ")?;
        form.text(text_if(!items.is_empty(), "\n"))?;
        form.text("}")?;
        self.made(&form)
    }
}
