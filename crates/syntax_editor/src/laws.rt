//! Laws of changes of a tree.
pub use text_edit::laws::only_memory_refuses;
pub use tree_edit_model::laws::{
    changed_text, edits_are_of_text, kept_places_move, one_change_replaces, unchanged_stays,
};
