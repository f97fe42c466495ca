//! The messages of errors.
ghost use Rattle.std.specs.Prelude.{◌≡◌, IfOk, map, string_bytes};
ghost use Rattle.rust_front.specs.Messages.{next_kind_of, kind_name_of, filled, parser_message_of, front_of, back_of, lexer_message_of, lexer_error_of};

use ras_front_end::SyntaxError;
use rust_grammar::message;
use rust_kinds::name_of;
use rust_lexer::{LexError, Problem};
use std::alloc::{AllocError, Global};
use syntax_kind::SyntaxKind;
use text_size::TextRange;
use token_layout::Token;

// The kind of the first token that is not trivia.
fn next_kind(tokens: &[Token]) -> Option<SyntaxKind>
    ensures { result ≡ next_kind_of tokens.now }
{
    for token in tokens {
        if !token.kind.is_trivia() {
            return Some(token.kind);
        }
    }
    None
}

// The name of a kind, or `EOF` if there is no token.
fn kind_name(kind: Option<SyntaxKind>) -> &'static str
    ensures { result.now ≡ kind_name_of kind }
{
    match kind {
        None => "EOF",
        Some(kind) => match name_of(kind) {
            None => "",
            Some(name) => name,
        },
    }
}

// The text with a name in place of `%`.
#[tactic(auto, unfolding(crate::specs::Messages::filled))]
fn filled(alloc: Global, name: &str, text: &str) -> Result<String, AllocError>
    ensures { IfOk result (λ s. string_bytes s ≡ filled name.now text.now) }
{
    let mut out = String::new(alloc);
    for c in text.chars() {
        if c == '%' {
            out.push_str(name)?;
        } else {
            out.push(c)?;
        }
    }
    Ok(out)
}

/// The parser's message with this number. A `%` in it is replaced by the name of the kind of the
/// next token, which is the first of `tokens` that is not trivia.
pub fn parser_message(alloc: Global, number: u16, tokens: &[Token]) -> Result<String, AllocError>
    ensures { IfOk result (λ s. string_bytes s ≡ parser_message_of number tokens.now) }
{
    filled(alloc, kind_name(next_kind(tokens)), message(number))
}

fn front(text: &str, len: usize) -> &str
    ensures { result.now ≡ front_of len text.now }
{
    if text.is_char_boundary(len) {
        text.split_at(len).0
    } else {
        ""
    }
}

fn back(text: &str, start: usize) -> &str
    ensures { result.now ≡ back_of start text.now }
{
    if text.is_char_boundary(start) {
        text.split_at(start).1
    } else {
        ""
    }
}

fn piece(text: &str, range: TextRange) -> &str
    ensures { result.now ≡ back_of range.start (front_of range.end text.now) }
{
    back(
        front(text, range.end().raw() as usize),
        range.start().raw() as usize,
    )
}

/// The lexer's message for a token with this text.
pub fn lexer_message(alloc: Global, problem: Problem, token: &str) -> Result<String, AllocError>
    ensures { IfOk result (λ s. string_bytes s ≡ lexer_message_of problem token.now) }
{
    let (first, second) = problem.message();
    let mut out = String::from_str(alloc, first)?;
    if !second.is_empty() {
        out.push_str(token)?;
        out.push_str(second)?;
    }
    Ok(out)
}

fn lexer_error(alloc: Global, text: &str, error: LexError) -> Result<SyntaxError, AllocError>
    ensures { IfOk result (λ e. e ≡ lexer_error_of text.now error) }
{
    let message = lexer_message(alloc, error.problem, piece(text, error.range))?;
    Ok(SyntaxError::new(message, error.range))
}

/// The lexer's errors, with their messages.
pub fn lexer_errors(
    alloc: Global,
    text: &str,
    errors: &[LexError],
) -> Result<Vec<SyntaxError>, AllocError>
    ensures { IfOk result (λ v. v.items ≡ map (lexer_error_of text.now) errors.now) }
{
    let mut found = Vec::new(alloc);
    for error in errors {
        found.push(lexer_error(alloc, text, *error)?)?;
    }
    Ok(found)
}
