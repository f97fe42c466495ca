//! Lossless syntax trees: every byte of a text stays in its tree.
#![tactic(auto)]

mod builder;
mod cursor;
mod dump;
mod exact;
pub mod laws;
mod macros;
mod over;
mod ptr;
mod quoted;
mod siblings_left;

pub use builder::TreeBuilder;
pub use cursor::ancestors::Ancestors;
pub use cursor::children::{SyntaxElementChildren, SyntaxNodeChildren};
pub use cursor::descendants::{Descendants, DescendantsWithTokens};
pub use cursor::element::{NodeOrToken, SyntaxElement};
pub use cursor::node::SyntaxNode;
pub use cursor::preorder::{Preorder, PreorderWithTokens, WalkEvent};
pub use cursor::siblings::{SyntaxElementSiblings, SyntaxNodeSiblings};
pub use cursor::text::SyntaxText;
pub use cursor::token::SyntaxToken;
pub use cursor::token_at_offset::TokenAtOffset;
pub use dump::Dump;
pub use exact::exact_string;
pub use over::{tree_of_rows, tree_over};
pub use ptr::SyntaxNodePtr;
pub use shared_pointer::Shared;
pub use siblings_left::SiblingsLeft;
pub use syntax_kind::{KINDS, Language, NodeKind, RustLanguage, SyntaxKind, TokenKind};
pub use text_size::{TextRange, TextSize};
pub use tree_model::{Direction, FinishError, ReplaceError};
pub use tree_rows::{BuilderEvent, FlatRow, KindSet, NotFlat, RowBuilder, RowKind, TreeStep};
