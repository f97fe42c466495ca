//! Typed tokens: each method on texts for which it has a result, and on texts for which it has
//! none.
mod comments;
mod numbers;
mod quotes;
mod units;
mod values;

use ra_ap_syntax::ast::AstToken;
use ra_ap_syntax::{SyntaxKind, SyntaxToken, TextRange, TextSize, TreeBuilder};
use std::alloc::Global;
use std::test::Fail;

// The token of a literal, after four spaces.
fn behind_spaces(alloc: Global, kind: SyntaxKind, text: &str) -> Result<SyntaxToken, Fail> {
    let mut builder = TreeBuilder::new(alloc);
    builder.start_node(SyntaxKind::LITERAL)?;
    builder.token(SyntaxKind::WHITESPACE, "    ")?;
    builder.token(kind, text)?;
    builder.finish_node()?;
    let root = builder.finish()?;
    Ok(root.last_token().ok_or("no token")?)
}

// The same as a `T`.
fn typed<T: AstToken>(alloc: Global, kind: SyntaxKind, text: &str) -> Result<T, Fail> {
    let token = behind_spaces(alloc, kind, text)?;
    Ok(T::cast(token).ok_or("the token is of another kind")?)
}

// The range with a start and a length.
fn range(start: u32, len: u32) -> TextRange {
    let start = TextSize::new(start);
    match TextRange::up_to(TextSize::new(len)).checked_add(start) {
        Some(range) => range,
        None => TextRange::empty(start),
    }
}
