//! Views of one of several kinds. Made by `tools/views` from `views.txt`.
pub mod asm_operand;
pub mod asm_piece;
pub mod field_list;
pub mod use_bound_generic_arg;
pub mod variant_def;
