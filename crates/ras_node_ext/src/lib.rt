//! Parts of nodes that need more than a search for the first child of a kind: qualifiers and
//! segments of paths, attributes and their metas, bounds, slice patterns, token trees. The types of
//! the views are parameters. No call takes memory but `skip_cfg_attrs`, `meta_name`, `owned` and
//! `slice_components`. (Upstream: `ast::node_ext` of rust-analyzer's `syntax`.)
#![tactic(auto)]

mod attrs;
mod bounds;
pub mod chain;
mod holder;
mod impls;
pub mod laws;
mod metas;
pub mod qualifiers;
pub mod segments;
mod slices;
mod token_trees;

pub use attrs::{AttrNodes, AttrsIter, AttrsWithDoc, is_inner};
pub use bounds::LifetimeBounds;
pub use chain::{first_qualifier, first_qualifier_or_self, top_path, top_use_tree};
pub use holder::{inner_attributes_node, may_carry_attributes};
pub use impls::{self_type_of, trait_of};
pub use metas::{innermost_meta, meta_name, meta_path, owned, skip_cfg_attrs};
pub use qualifiers::Qualifiers;
pub use segments::Segments;
pub use slices::{SliceComponents, slice_components};
pub use token_trees::{TokenTreeChildren, TokenTreesAndTokens};
