//! Tokens by themselves.
ghost use Rattle.std.specs.Prelude.{◌≡◌, ◌↔◌, ◌≤◌, ◌^◌, IfOk, IfErr, length};
ghost use Rattle.std.specs.List.{find};
ghost use Rattle.tree_model.specs.Cursor.{descendants_of, at_token};
ghost use Rattle.ras_front_end.specs.declared.parse_error.ParseError.TheVariants.{TooLong};
ghost use Rattle.rust_make.specs.Tokens.{lone_root, IsTokenOf, IsFixed, IsNotFixed, is_space, IsSpaceOrNot, IsSpaceOf, IsNoSpace};

use crate::make::Make;
use crate::token_texts::fixed_text;
use ra_ap_syntax::{SyntaxKind, SyntaxNode, SyntaxToken, TreeBuilder};
use ras_front_end::{Edition, Entry, FrontEnd, ParseError};
use ras_node::support;
use ras_parsing::{Parse, read};
use std::alloc::{AllocError, Global};
use syntax_make::MakeError;

// The root of a file of one token.
#[tactic(auto, using(crate::proofs::TokenLemmas::lone_built))]
fn lone_root(alloc: Global, kind: SyntaxKind, text: &str) -> Result<SyntaxNode, AllocError>
    ensures { IfOk result (λ root. root ≡ lone_root kind text.now) }
{
    let mut builder = TreeBuilder::new(alloc);
    builder.start_node(SyntaxKind::SOURCE_FILE)?;
    builder.token(kind, text)?;
    builder.finish_node()?;
    match builder.finish() {
        Ok(root) => Ok(root),
        Err(_) => Err(AllocError),
    }
}

// The one token of a file of this token.
#[tactic(auto, using(crate::proofs::TokenLemmas::lone_first))]
fn lone_token(alloc: Global, kind: SyntaxKind, text: &str) -> Result<SyntaxToken, AllocError>
    ensures { IfOk result (IsTokenOf kind text.now) }
{
    let root = lone_root(alloc, kind, text)?;
    root.first_token().ok_or(AllocError)
}

// Whether the first token of a tree is white space with this text.
fn begins_with_space(root: &SyntaxNode, text: &str) -> bool
    ensures { result ≡ is_space text.now (find at_token (descendants_of root.now)) }
{
    match root.first_token() {
        None => false,
        Some(token) => support::is_token_of_kind(&token, SyntaxKind::WHITESPACE)
            && token.text() == text,
    }
}

// Whether a text is one token of white space.
fn is_space<F: FrontEnd>(
    alloc: Global,
    front: &F,
    text: &str,
    edition: Edition,
) -> Result<bool, ParseError>
    ensures read { IfOk result (IsSpaceOrNot (F.answers front.now) edition text.now) }
    ensures refused { IfErr result (λ e. (e ≡ TooLong) ↔ (2 ^ 32 ≤ length text.now)) }
{
    let parse: Parse<SyntaxNode> = read(alloc, front, Entry::SourceFile, text, edition)?;
    Ok(begins_with_space(parse.root(), text))
}

impl<'a, F: FrontEnd> Make<'a, F> {
    /// A token of a kind that has one text, a sign or a keyword: `make.token(T![->])` is `->`. It
    /// is the one token of a tree of its own, for an editor to put into another.
    ///
    /// # Errors
    ///
    /// `NoPlace` if tokens of this kind differ in their texts, as names, literals, white space and
    /// comments do, or if it is a kind of nodes; `Memory` if memory runs out.
    pub fn token(&self, kind: SyntaxKind) -> Result<SyntaxToken, MakeError>
        ensures made { IfOk result (IsFixed kind) }
        ensures refused { IfErr result (IsNotFixed kind) }
    {
        let text = fixed_text(kind);
        if text.is_empty() {
            return Err(MakeError::NoPlace);
        }
        Ok(lone_token(self.alloc, kind, text)?)
    }

    /// A token of white space with this text. It is the one token of a tree of its own, for an
    /// editor to put into another.
    ///
    /// # Errors
    ///
    /// `NotOne` if the text is not one token of white space by the front end, as the empty text and
    /// a comment are not; `TooLong` if it is longer than 4,294,967,295 bytes; `Memory` if memory
    /// runs out.
    pub fn whitespace(&self, text: &str) -> Result<SyntaxToken, MakeError>
        ensures made { IfOk result
            (IsSpaceOf (F.answers self.now.front.now) self.now.edition text.now) }
        ensures refused { IfErr result
            (IsNoSpace (F.answers self.now.front.now) self.now.edition text.now) }
    {
        if !is_space(self.alloc, self.front, text, self.edition)? {
            return Err(MakeError::NotOne);
        }
        Ok(lone_token(self.alloc, SyntaxKind::WHITESPACE, text)?)
    }
}
