//! Types, their bounds and generic arguments.
ghost use Rattle.std.specs.Prelude.{◌≡◌, option_map, is_some, ◌||◌, not};
ghost use Rattle.ras_node.specs.Nodes.{typed_child, typed_children, kind_at};
ghost use Rattle.ras_node_ext.specs.Bounds.{lifetime_bounds};
ghost use Rattle.ra_ap_syntax.specs.TypeCases.{ty_node, type_kinds};
ghost use Rattle.ra_ap_syntax.specs.NodeShapes.{bound_shape, bound_kind, bound_of_for, bound_without_path};
ghost use Rattle.ra_ap_syntax.specs.Accessors.{type_generic_args};
ghost use Rattle.ra_ap_syntax.specs.GenericViews.{IsGenericArgList, for_binder_kinds, lifetime_arg_kinds, lifetime_param_kinds, type_bound_kinds, type_bound_list_kinds, use_bound_generic_args_kinds};
ghost use Rattle.ra_ap_syntax.specs.PathViews.{IsFirstPath, lifetime_kinds};
ghost use Rattle.ra_ap_syntax.specs.TyViews.{for_type_kinds, path_type_kinds};
ghost use Rattle.ra_ap_syntax.specs.TypeOrConstParamCases.{type_or_const_param_kinds};
ghost use Rattle.ras_node_ext.specs.NodeParts.{generic_args_of};

use crate::ast::{self, AstChildren, AstNode, HasGenericArgs, HasTypeBounds, support};
use lossless_tree::SyntaxNode;

/// The form of a bound.
#[derive(Clone, PartialEq, Eq, Hash, Drop)]
pub enum TypeBoundKind {
    /// A trait: `Trait`, `for<'a> Trait`.
    PathType(Option<ast::ForBinder>, ast::PathType),
    /// Captured parameters: `use<'a, T>`.
    Use(ast::UseBoundGenericArgs),
    /// A lifetime: `'a`.
    Lifetime(ast::Lifetime),
}

// The bound by the type of a `for` type, if that is a path type.
fn bound_of_for(for_type: &ast::ForType) -> Option<TypeBoundKind>
    ensures { option_map bound_shape result
        ≡ bound_of_for type_kinds path_type_kinds for_binder_kinds for_type.now.syntax }
{
    let path = support::recast::<ast::Type, ast::PathType>(for_type.ty())?;
    Some(TypeBoundKind::PathType(for_type.for_binder(), path))
}

// The form of a bound without a path.
fn bound_without_path(bound: &ast::TypeBound) -> Option<TypeBoundKind>
    ensures { option_map bound_shape result
        ≡ bound_without_path use_bound_generic_args_kinds lifetime_kinds bound.now.syntax }
{
    if let Some(captured) = bound.use_bound_generic_args() {
        return Some(TypeBoundKind::Use(captured));
    }
    Some(TypeBoundKind::Lifetime(bound.lifetime()?))
}

impl ast::TypeBound {
    /// A path type with the bound's binder, the path type in a `for` type with the binder of that
    /// type, the captured arguments of `use<..>`, or a lifetime: the first of these that the bound
    /// has. Returns `None` if it has none of them, or if the type in a `for` type is not a path
    /// type.
    pub fn kind(&self) -> Option<TypeBoundKind>
        ensures { option_map bound_shape result
            ≡ bound_kind path_type_kinds for_type_kinds type_kinds for_binder_kinds
            use_bound_generic_args_kinds lifetime_kinds self.now.syntax }
    {
        if let Some(path) = support::child::<ast::PathType>(&self.syntax) {
            return Some(TypeBoundKind::PathType(self.for_binder(), path));
        }
        if let Some(for_type) = support::child::<ast::ForType>(&self.syntax) {
            return bound_of_for(&for_type);
        }
        bound_without_path(self)
    }
}

// The first child that is a path: by the word of clauses, in which the prover finds it again.
fn first_path(parent: &SyntaxNode) -> Option<ast::Path>
    ensures { IsFirstPath parent.now result }
{
    support::child(parent)
}

impl ast::Type {
    /// The generic arguments of a path type: those of the segment of its path; `None` for other
    /// types.
    pub fn generic_arg_list(&self) -> Option<ast::GenericArgList>
        ensures { IsGenericArgList (type_generic_args (ty_node self.now)) result }
    {
        if !ast::PathType::can_cast(self.syntax().kind()) {
            return None;
        }
        let path = first_path(self.syntax())?;
        path.segment()?.generic_arg_list()
    }

    /// Whether the type needs angle brackets where it begins a path, as in `<[T]>::len`: it is not
    /// a path type, or it has generic arguments.
    pub fn needs_angles_in_path(&self) -> bool
        ensures { result
            ≡ (not (path_type_kinds (kind_at (ty_node self.now)))
            || is_some (type_generic_args (ty_node self.now))) }
    {
        if !ast::PathType::can_cast(self.syntax().kind()) {
            return true;
        }
        match self.generic_arg_list() {
            Some(_arguments) => true,
            None => false,
        }
    }
}

/// The lifetimes among generic arguments, in order.
pub type LifetimeArgs = AstChildren<ast::LifetimeArg>;

/// The lifetimes among generic parameters, in order.
pub type LifetimeParams = AstChildren<ast::LifetimeParam>;

/// The types and constants among generic parameters, in order.
pub type TypeOrConstParams = AstChildren<ast::TypeOrConstParam>;

/// The lifetimes among the bounds of a lifetime, in order, as tokens.
pub type LifetimeBounds = ras_node_ext::LifetimeBounds<ast::TypeBound, ast::Lifetime>;

impl ast::LifetimeParam {
    /// The lifetimes among its bounds, in order: `'b` and `'c` of `'a: 'b + 'c`.
    pub fn lifetime_bounds(&self) -> LifetimeBounds
        ensures { result
            ≡ lifetime_bounds type_bound_kinds lifetime_kinds
            (typed_child type_bound_list_kinds self.now.syntax) }
    {
        LifetimeBounds::new(self.type_bound_list())
    }
}

impl ast::GenericArgList {
    /// The arguments that are lifetimes, in order.
    pub fn lifetime_args(&self) -> LifetimeArgs
        ensures { result ≡ typed_children lifetime_arg_kinds self.now.syntax }
    {
        support::children(&self.syntax)
    }
}

impl ast::GenericParamList {
    /// The parameters that are lifetimes, in order.
    pub fn lifetime_params(&self) -> LifetimeParams
        ensures { result ≡ typed_children lifetime_param_kinds self.now.syntax }
    {
        support::children(&self.syntax)
    }

    /// The parameters that are types or constants, in order.
    pub fn type_or_const_params(&self) -> TypeOrConstParams
        ensures { result ≡ typed_children type_or_const_param_kinds self.now.syntax }
    {
        support::children(&self.syntax)
    }
}
