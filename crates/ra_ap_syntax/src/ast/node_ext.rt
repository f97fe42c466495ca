//! Accessors of items, patterns, types, paths, names and attributes.
mod attrs;
mod block;
mod holders;
mod items;
mod metas;
mod names;
mod paths;
mod patterns;
mod types;
mod uses;

pub use attrs::{AttrsIter, AttrsWithDoc, CfgAtomKey, TokenTreeChildren, TokenTreesAndTokens};
pub use block::Statements;
pub use items::{SelfParamKind, StructKind, VisibilityKind};
pub use paths::{PathSegmentKind, Qualifiers, Segments};
pub use patterns::SlicePatComponents;
pub use types::{LifetimeArgs, LifetimeBounds, LifetimeParams, TypeBoundKind, TypeOrConstParams};
pub use uses::Commas;
