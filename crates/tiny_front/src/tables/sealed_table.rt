//! The nodes of sealed calls. Written by tools/grammar from tiny.grammar.

use syntax_kind::SyntaxKind;

/// The kinds of the nodes that sealed calls make.
#[rattlefmt::skip]
pub(crate) static SEALED: [SyntaxKind; 0] = [];
