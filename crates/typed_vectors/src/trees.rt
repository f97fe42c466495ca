// Trees that are written down as words.
use lossless_tree::{SyntaxKind, SyntaxNode, TreeBuilder};
use std::alloc::Global;
use std::test::Fail;

fn kind_of(name: &str) -> Result<SyntaxKind, Fail> {
    Ok(SyntaxKind::from_name(name).ok_or("no such kind")?)
}

// A text in which `~` stands for a space.
fn spaced(alloc: Global, text: &str) -> Result<String, Fail> {
    let mut spaced = String::new(alloc);
    for c in text.chars() {
        if c == '~' {
            spaced.push(' ')?;
        } else {
            spaced.push(c)?;
        }
    }
    Ok(spaced)
}

// Builds a tree. Words are parted by a space: `KIND(` enters a node, `)` leaves it, and `KIND:text`
// is a token.
pub fn build(alloc: Global, words: &str) -> Result<SyntaxNode, Fail> {
    let mut builder = TreeBuilder::new(alloc);
    for word in words.split(' ') {
        if let Some((name, text)) = word.split_once(':') {
            builder.token(kind_of(name)?, spaced(alloc, text)?.as_str())?;
        } else if let Some(name) = word.strip_suffix('(') {
            builder.start_node(kind_of(name)?)?;
        } else {
            builder.finish_node()?;
        }
    }
    Ok(builder.finish()?)
}
