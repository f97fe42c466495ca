//! The kinds of nodes by their names, the enums over them, their lookups and shared traits. Made by
//! `tools/views` from `views.txt`.
pub mod adt;
pub mod any_attr;
pub mod any_has_attrs;
pub mod any_has_generic_params;
pub mod assoc_item;
pub mod callable_expr;
pub mod else_branch;
pub mod expr;
pub mod extern_item;
pub mod generic_arg;
pub mod generic_param;
pub mod item;
pub mod kinds;
mod lookups;
pub mod macros;
pub mod meta;
pub mod name_like;
pub mod name_or_name_ref;
pub mod pat;
mod shared_traits;
pub mod stmt;
pub mod traits;
pub mod ty;
pub mod type_or_const_param;
mod within;
