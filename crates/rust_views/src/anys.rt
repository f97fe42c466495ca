//! Views of all nodes that have a trait. Made by `tools/views` from `views.txt`.
pub mod any_has_arg_list;
pub mod any_has_generic_args;
pub mod any_has_loop_body;
pub mod any_has_module_item;
pub mod any_has_name;
pub mod any_has_type_bounds;
pub mod any_has_visibility;
