//! Items and their parts.
ghost use Rattle.std.specs.Prelude.{◌≡◌, option_map, is_some, ◌||◌, not};
ghost use Rattle.std.specs.Option.{option_and_then};
ghost use Rattle.ras_node.specs.Lookups.{grandparent_of, view_in};
ghost use Rattle.ras_node.specs.Nodes.{token_child, typed_child};
ghost use Rattle.ra_ap_syntax.specs.ItemCases.{item_node};
ghost use Rattle.ra_ap_syntax.specs.TypeOrConstParamCases.{type_or_const_param_node};
ghost use Rattle.ras_node_ext.specs.NodeParts.{trait_of, self_type_of, impl_around, macro_args, macro_body, if_kind, impl_trait, generic_params_of};
ghost use Rattle.ra_ap_syntax.specs.NodeShapes.{struct_shape, struct_kind, self_param_kind, visibility_shape, inner_visibility, visibility_kind, seen_by_words, seen_in_path, in_path};
ghost use Rattle.ra_ap_syntax.specs.Accessors.{fields_of, item_generic_params};
ghost use Rattle.ra_ap_syntax.specs.AttrViews.{IsTokenTree, token_tree_kinds};
ghost use Rattle.ra_ap_syntax.specs.GenericViews.{IsGenericParamList};
ghost use Rattle.ra_ap_syntax.specs.ItemViews.{IsEnum, IsImpl, IsModule, enum_kinds, impl_kinds, module_kinds};
ghost use Rattle.ra_ap_syntax.specs.PartViews.{visibility_inner_kinds};
ghost use Rattle.ra_ap_syntax.specs.PathViews.{IsFirstName, name_ref_kinds, path_kinds, path_segment_kinds};
ghost use Rattle.ra_ap_syntax.specs.TypeCases.{IsType, type_kinds};

use crate::ast::{self, AnyHasGenericParams, AstNode, AstToken, support};
use lossless_tree::{SyntaxKind, SyntaxNode};

impl ast::MacroDef {
    /// The first of two token trees, or `None` if there are fewer than two.
    pub fn args(&self) -> Option<ast::TokenTree>
        ensures { IsTokenTree (macro_args token_tree_kinds self.now.syntax) result }
    {
        let first = support::child::<ast::TokenTree>(&self.syntax)?;
        let _second = support::second_child::<ast::TokenTree>(&self.syntax)?;
        Some(first)
    }

    /// The second token tree, or the first if there is only one.
    pub fn body(&self) -> Option<ast::TokenTree>
        ensures { IsTokenTree (macro_body token_tree_kinds self.now.syntax) result }
    {
        match support::second_child(&self.syntax) {
            Some(second) => Some(second),
            None => support::child(&self.syntax),
        }
    }
}

impl ast::Impl {
    /// The trait: the first type, if it starts before the `for`, or `None` if there is no `for`.
    pub fn trait_(&self) -> Option<ast::Type>
        ensures { IsType (trait_of type_kinds self.now.syntax) result }
    {
        ras_node_ext::trait_of(&self.syntax)
    }

    /// The type that it is for: the one after the trait, or the first type if there is no trait.
    pub fn self_ty(&self) -> Option<ast::Type>
        ensures { IsType (self_type_of type_kinds self.now.syntax) result }
    {
        ras_node_ext::self_type_of(&self.syntax)
    }

    /// The nearest impl above a name, if its trait starts where the name does.
    pub fn for_trait_name_ref(name_ref: &ast::NameRef) -> Option<ast::Impl>
        ensures { IsImpl (impl_around impl_kinds type_kinds name_ref.now.syntax) result }
    {
        let around = support::ancestor_as::<ast::Impl>(&name_ref.syntax)?;
        let start = around.trait_()?.syntax().text_range().start();
        if start == name_ref.syntax.text_range().start() {
            Some(around)
        } else {
            None
        }
    }
}

impl ast::Item {
    /// The list of generic parameters of an item, if it has one.
    pub fn generic_param_list(&self) -> Option<ast::GenericParamList>
        ensures { IsGenericParamList (item_generic_params (item_node self.now)) result }
    {
        if AnyHasGenericParams::can_cast(self.syntax().kind()) {
            support::child(self.syntax())
        } else {
            None
        }
    }
}

impl ast::TypeOrConstParam {
    /// The parameter's name.
    pub fn name(&self) -> Option<ast::Name>
        ensures { IsFirstName (type_or_const_param_node self.now) result }
    {
        support::child(self.syntax())
    }
}

/// The fields of a struct, a union or a variant.
#[derive(Clone, PartialEq, Eq, Drop)]
pub enum StructKind {
    /// `{ f: T }`
    Record(ast::RecordFieldList),
    /// `(T)`
    Tuple(ast::TupleFieldList),
    /// No fields.
    Unit,
}

// The list of named fields, or else of numbered ones, or no fields.
fn struct_kind(node: &SyntaxNode) -> StructKind
    ensures { struct_shape result ≡ fields_of node.now }
{
    if let Some(fields) = support::child(node) {
        return StructKind::Record(fields);
    }
    match support::child(node) {
        Some(fields) => StructKind::Tuple(fields),
        None => StructKind::Unit,
    }
}

impl ast::Struct {
    /// Its fields: named ones, otherwise numbered ones, or no fields.
    pub fn kind(&self) -> StructKind
        ensures { struct_shape result ≡ fields_of self.now.syntax }
    {
        struct_kind(&self.syntax)
    }
}

impl ast::Union {
    /// Its fields: named ones, otherwise numbered ones, or no fields.
    pub fn kind(&self) -> StructKind
        ensures { struct_shape result ≡ fields_of self.now.syntax }
    {
        struct_kind(&self.syntax)
    }
}

impl ast::Variant {
    /// Its fields: named ones, otherwise numbered ones, or no fields.
    pub fn kind(&self) -> StructKind
        ensures { struct_shape result ≡ fields_of self.now.syntax }
    {
        struct_kind(&self.syntax)
    }

    /// The enum that it is a variant of: the parent's parent, if that is one.
    pub fn parent_enum(&self) -> Option<ast::Enum>
        ensures { IsEnum (view_in enum_kinds (grandparent_of self.now.syntax)) result }
    {
        support::grandparent_as(&self.syntax)
    }
}

impl ast::Module {
    /// The module that it is in: the parent's parent, if that is one.
    pub fn parent(&self) -> Option<ast::Module>
        ensures { IsModule (view_in module_kinds (grandparent_of self.now.syntax)) result }
    {
        support::grandparent_as(&self.syntax)
    }
}

impl ast::Abi {
    /// The first token that is a string: the name of the calling convention.
    pub fn abi_string(&self) -> Option<ast::String>
        ensures { option_map ⟦<ast::String as AstToken>⟧.token result
            ≡ option_and_then (if_kind SyntaxKind.STRING)
            (token_child SyntaxKind.STRING self.now.syntax) }
    {
        ast::String::cast(support::token(&self.syntax, SyntaxKind::STRING)?)
    }
}

/// How a method takes its receiver.
#[derive(Clone, Copy, Debug, PartialEq, Eq, Hash)]
pub enum SelfParamKind {
    /// `self`
    Owned,
    /// `&self`
    Ref,
    /// `&mut self`
    MutRef,
}

impl ast::SelfParam {
    /// Owned if there is no `&`; otherwise a mutable borrow if there is a `mut`, or else a shared
    /// one.
    pub fn kind(&self) -> SelfParamKind
        ensures { result ≡ self_param_kind self.now.syntax }
    {
        if self.amp_token().is_some() {
            if self.mut_token().is_some() {
                SelfParamKind::MutRef
            } else {
                SelfParamKind::Ref
            }
        } else {
            SelfParamKind::Owned
        }
    }
}

/// The scope of a visibility.
#[derive(Clone, Drop)]
pub enum VisibilityKind {
    /// `pub(in a::b)`, and any path that is not one of the words below.
    In(ast::Path),
    /// `pub(crate)`
    PubCrate,
    /// `pub(super)`
    PubSuper,
    /// `pub(self)`
    PubSelf,
    /// `pub`
    Pub,
}

// The scope by the words in a path of one segment.
fn seen_by_words(segment: &ast::PathSegment, path: ast::Path) -> VisibilityKind
    ensures { visibility_shape result
        ≡ seen_by_words name_ref_kinds segment.now.syntax (in_path path.syntax) }
{
    if segment.coloncolon_token().is_some() {
        return VisibilityKind::In(path);
    }
    if segment.crate_token().is_some() {
        return VisibilityKind::PubCrate;
    }
    if segment.super_token().is_some() {
        return VisibilityKind::PubSuper;
    }
    if segment.self_token().is_some() {
        return VisibilityKind::PubSelf;
    }
    VisibilityKind::In(path)
}

fn seen_in_path(path: ast::Path) -> VisibilityKind
    ensures { visibility_shape result
        ≡ seen_in_path path_kinds path_segment_kinds name_ref_kinds path.syntax }
{
    match path.as_single_segment() {
        Some(segment) => seen_by_words(&segment, path),
        None => VisibilityKind::In(path),
    }
}

impl ast::VisibilityInner {
    /// `crate`, `super` or `self` if the path is that one segment without `::`; any other path;
    /// public if there is no path.
    pub fn kind(&self) -> VisibilityKind
        ensures { visibility_shape result
            ≡ inner_visibility path_kinds path_segment_kinds name_ref_kinds self.now.syntax }
    {
        match self.path() {
            Some(path) => seen_in_path(path),
            None => VisibilityKind::Pub,
        }
    }
}

impl ast::Visibility {
    /// The scope by its part in parentheses; public if it has none.
    pub fn kind(&self) -> VisibilityKind
        ensures { visibility_shape result
            ≡ visibility_kind visibility_inner_kinds path_kinds path_segment_kinds name_ref_kinds
            self.now.syntax }
    {
        match self.visibility_inner() {
            Some(inner) => inner.kind(),
            None => VisibilityKind::Pub,
        }
    }
}
