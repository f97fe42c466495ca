//! Many changes of a syntax tree, collected and made at once.
#![tactic(auto)]

mod annotation;
mod edit;
mod editor;
pub mod laws;
mod mapping;
mod position;

pub use annotation::SyntaxAnnotation;
pub use edit::SyntaxEdit;
pub use editor::SyntaxEditor;
pub use mapping::SyntaxMapping;
pub use position::Position;
pub use tree_edits::ChangeError;
