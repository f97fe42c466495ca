//! The tokens of a text.
ghost use Rattle.std.specs.Prelude.{◌≡◌, ◌≤◌, ◌<◌, ◌^◌, ◌-◌, ℕ, List, [], ◌∷◌, ◌++◌, OnOk, IfOk, All, length};
ghost use Rattle.rust_lexer.specs.Cuts.{IsEnd};
ghost use Rattle.rust_lexer.specs.Shapes.{plain_of};
ghost use Rattle.rust_lexer.specs.Tokens.{token_of};
ghost use Rattle.rust_lexer.specs.Lexing.{size_of, range_of, content_of, faults_at, faults_with, prefix_problem_of, problems_of, lexing_of, taken, taken_some, taken_prelude, taken_head, steps_of, fresh, tokens_of, errors_of};
ghost use Rattle.rust_lexer.specs.Contents.{content_problems, report_problems};
ghost use Rattle.rust_lexer.specs.Heads.{prelude_of};
ghost use Rattle.literal_escape.specs.Reading.{reports_in};
ghost use Rattle.std.specs.Str.{chars};
ghost use Rattle.token_layout.specs.Laid.{IsCut};
ghost use Rattle.rust_lexer.specs.Laws.{HasBytes, ErrorLiesIn};

use crate::class::{begins_word, first_byte, is_alone, is_blank};
use crate::cut::split;
use crate::escape::{is_plain, is_unit, result_problem, unit_problem};
use crate::front_matter::{Prelude, head};
use crate::history::is_behind_code;
use crate::problem::Problem;
use crate::punctuation::sign_kind;
use crate::shape::{Check, Shape};
use crate::shebang::shebang;
use crate::token::{plain_letter, plain_space, token};
use literal_escape::{Mode, Units};
use ras_front_end::Edition;
use rust_kinds::kinds;
use std::alloc::{AllocError, Global};
use syntax_kind::SyntaxKind;
use text_size::{TextRange, TextSize};
use token_layout::Token;

/// An error in the token at a range.
#[derive(Clone, Copy)]
pub struct LexError {
    /// What is wrong.
    pub problem: Problem,
    /// The token's range.
    pub range: TextRange,
}

/// The tokens of a text, and the errors in them.
#[derive(Drop)]
pub struct Lexed {
    /// The tokens, one after the other.
    pub tokens: Vec<Token>,
    /// The errors, in the order of the tokens. A literal may have several.
    pub errors: Vec<LexError>,
}

// The size, saturating at 32 bits.
fn size(len: usize) -> TextSize
    ensures { result ≡ size_of len }
{
    TextSize::new(len.min(4_294_967_295) as u32)
}

// The range of the text between what follows its start and what follows its end.
fn range(text: &str, rest: &str, tail: &str) -> TextRange
    requires { length tail.now ≤ length rest.now }
    ensures { result ≡ range_of (length text.now) (length rest.now) (length tail.now) }
{
    let start = text.len().saturating_sub(rest.len());
    let end = text.len().saturating_sub(tail.len());
    TextRange::new(size(start), size(end))
}

fn report(
    errors: &mut Vec<LexError>,
    problem: Option<Problem>,
    range: TextRange,
) -> Result<(), AllocError>
    ensures { OnOk result (errors.new.items ≡ faults_with range problem errors.old.items) }
{
    if let Some(problem) = problem {
        errors.push(LexError { problem, range })?;
    }
    Ok(())
}

fn report_units(
    errors: &mut Vec<LexError>,
    mode: Mode,
    content: &str,
    range: TextRange,
) -> Result<(), AllocError>
    ensures { OnOk result (errors.new.items
        ≡ faults_at range (report_problems mode (reports_in mode (chars content.now)))
        errors.old.items) }
{
    let mut units = Units::new(mode, content);
    while let Some(unit) = units.next() {
        report(errors, result_problem(mode, unit.unit), range)?;
    }
    Ok(())
}

fn report_content(
    errors: &mut Vec<LexError>,
    mode: Mode,
    content: &str,
    range: TextRange,
) -> Result<(), AllocError>
    ensures { OnOk result
        (errors.new.items ≡ faults_at range (content_problems mode content.now) errors.old.items) }
{
    if is_plain(mode, content) {
        Ok(())
    } else if is_unit(mode) {
        report(errors, unit_problem(mode, content), range)
    } else {
        report_units(errors, mode, content, range)
    }
}

// The text without its first `before` and its last `behind` bytes.
pub(crate) fn content(text: &str, before: usize, behind: usize) -> &str
    ensures { result.now ≡ content_of before behind text.now }
{
    let (front, _) = split(text, behind);
    let (_, content) = split(front, front.len().saturating_sub(before));
    content
}

fn prefix_problem(tokens: &[Token], text: &str, rest: &str) -> Problem
    ensures { result ≡ prefix_problem_of tokens.now text.now (length rest.now) }
{
    let (read, _) = split(text, rest.len());
    if is_behind_code(tokens, read.as_bytes()) {
        Problem::UnknownPrefixBehindString
    } else {
        Problem::UnknownPrefix
    }
}

fn report_check(
    lexed: &mut Lexed,
    check: Check,
    text: &str,
    rest: &str,
    range: TextRange,
) -> Result<(), AllocError>
    ensures tokens { OnOk result (lexed.new.tokens ≡ lexed.old.tokens) }
    ensures errors { OnOk result (lexed.new.errors.items
        ≡ faults_at range (problems_of lexed.old.tokens.items text.now rest.now check)
        lexed.old.errors.items) }
{
    match check {
        Check::No => Ok(()),
        Check::Is(problem) => report(&mut lexed.errors, Some(problem), range),
        Check::Prefix => {
            let problem = prefix_problem(&lexed.tokens, text, rest);
            report(&mut lexed.errors, Some(problem), range)
        }
        Check::Content(mode, before, behind) => {
            let content = content(rest, before, behind);
            report_content(&mut lexed.errors, mode, content, range)
        }
    }
}

// Takes a token of this shape from the start of the rest, and returns what follows it.
fn take<'a>(
    lexed: &mut Lexed,
    text: &str,
    rest: &'a str,
    shape: Shape,
) -> Result<&'a str, AllocError>
    ensures { IfOk result (λ tail. lexing_of lexed.new tail.now
        ≡ taken text.now shape (lexing_of lexed.old rest.now)) }
{
    let (front, tail) = split(rest, shape.left);
    let range = range(text, rest, tail);
    report_check(lexed, shape.check, text, rest, range)?;
    lexed.tokens.push(Token {
        kind: shape.kind,
        len: size(front.len()),
    })?;
    Ok(tail)
}

#[inline(always)]
fn push(tokens: &mut Vec<Token>, token: Token) -> Result<(), AllocError>
    ensures { OnOk result (tokens.new.items ≡ tokens.old.items ++ token ∷ []) }
{
    if tokens.len() < tokens.capacity() {
        tokens.push_reserved(token);
    } else {
        tokens.push(token)?;
    }
    Ok(())
}

// Takes a token without a problem, of this kind and length, from the start of the rest, and returns
// what follows it.
#[inline(always)]
fn take_plain<'a>(
    lexed: &mut Lexed,
    rest: &'a str,
    kind: SyntaxKind,
    len: usize,
) -> Result<&'a str, AllocError>
    requires { IsEnd rest.now len }
    ensures { IfOk result (λ tail. (text : List ℕ)
        → lexing_of lexed.new tail.now
        ≡ taken text (plain_of kind (length rest.now - len)) (lexing_of lexed.old rest.now)) }
{
    let (_, tail) = rest.split_at(len);
    let len = size(len);
    push(&mut lexed.tokens, Token { kind, len })?;
    Ok(tail)
}

// Takes the first token of the rest, whatever it is, and returns what follows it.
#[inline(never)]
fn take_any<'a>(
    lexed: &mut Lexed,
    text: &str,
    rest: &'a str,
    edition: Edition,
) -> Result<&'a str, AllocError>
    ensures { IfOk result (λ tail. lexing_of lexed.new tail.now
        ≡ taken text.now (token_of edition rest.now) (lexing_of lexed.old rest.now)) }
{
    take(lexed, text, rest, token(rest, edition))
}

// Takes the first token of the rest, and returns what follows it.
#[inline(always)]
fn take_next<'a>(
    lexed: &mut Lexed,
    text: &str,
    rest: &'a str,
    edition: Edition,
) -> Result<&'a str, AllocError>
    ensures { IfOk result (λ tail. lexing_of lexed.new tail.now
        ≡ taken text.now (token_of edition rest.now) (lexing_of lexed.old rest.now)) }
{
    if let Some(first) = first_byte(rest.as_bytes()) {
        if is_blank(first) {
            if let Some(len) = plain_space(rest) {
                let tail = take_plain(lexed, rest, SyntaxKind::WHITESPACE, len)?;
                return Ok(tail);
            }
        } else if begins_word(first) {
            if let Some((kind, len)) = plain_letter(first, rest, edition) {
                let tail = take_plain(lexed, rest, kind, len)?;
                return Ok(tail);
            }
        } else if is_alone(first) {
            let tail = take_plain(lexed, rest, sign_kind(first), 1)?;
            return Ok(tail);
        }
    }
    take_any(lexed, text, rest, edition)
}

// Takes a token of this kind that ends `left` bytes before the end, if there is one and something
// is left.
fn take_some<'a>(
    lexed: &mut Lexed,
    text: &str,
    rest: &'a str,
    kind: SyntaxKind,
    left: Option<usize>,
) -> Result<&'a str, AllocError>
    ensures { IfOk result (λ tail. lexing_of lexed.new tail.now
        ≡ taken_some text.now kind left (lexing_of lexed.old rest.now)) }
{
    match left {
        None => Ok(rest),
        Some(left) => {
            if rest.is_empty() {
                Ok(rest)
            } else {
                take(lexed, text, rest, Shape::plain(kind, left))
            }
        }
    }
}

fn take_prelude<'a>(
    lexed: &mut Lexed,
    text: &'a str,
    prelude: Prelude,
) -> Result<&'a str, AllocError>
    ensures { IfOk result (λ tail. lexing_of lexed.new tail.now
        ≡ taken_prelude text.now prelude (lexing_of lexed.old text.now)) }
{
    let rest = take_some(lexed, text, text, kinds::SHEBANG, prelude.shebang)?;
    take_some(lexed, text, rest, kinds::FRONTMATTER, prelude.front_matter)
}

// Takes what precedes the first token of the file.
#[tactic(auto, unfolding(crate::specs::Lexing::taken_head))]
fn take_head<'a>(lexed: &mut Lexed, text: &'a str, edition: Edition) -> Result<&'a str, AllocError>
    ensures { IfOk result (λ tail. lexing_of lexed.new tail.now
        ≡ taken_head edition text.now (lexing_of lexed.old text.now)) }
{
    match head(text) {
        Some(prelude) => take_prelude(lexed, text, prelude),
        None => take_some(lexed, text, text, kinds::SHEBANG, shebang(text, edition)),
    }
}

// Takes all tokens of the rest.
fn take_all(lexed: &mut Lexed, text: &str, rest: &str, edition: Edition) -> Result<(), AllocError>
    ensures tokens { OnOk result (lexed.new.tokens.items
        ≡ (steps_of (length text.now) edition text.now (lexing_of lexed.old rest.now)).tokens) }
    ensures errors { OnOk result (lexed.new.errors.items
        ≡ (steps_of (length text.now) edition text.now (lexing_of lexed.old rest.now)).errors) }
{
    let mut rest = rest;
    for turn in 0..text.len() {
        if rest.is_empty() {
            return Ok(());
        }
        rest = take_next(lexed, text, rest, edition)?;
    }
    Ok(())
}

fn read(alloc: Global, text: &str, edition: Edition) -> Result<Lexed, AllocError>
    ensures tokens { IfOk result (λ l. l.tokens.items ≡ tokens_of edition text.now) }
    ensures errors { IfOk result (λ l. l.errors.items ≡ errors_of edition text.now) }
{
    let mut lexed = Lexed {
        tokens: Vec::with_capacity(alloc, text.len() / 4)?,
        errors: Vec::new(alloc),
    };
    let rest = take_head(&mut lexed, text, edition)?;
    take_all(&mut lexed, text, rest, edition)?;
    Ok(lexed)
}

/// The tokens of a text, and the errors in them.
///
/// The tokens cut every text of at most 4,294,967,295 bytes: each byte is in one of them, in order,
/// and none is empty. It takes time and memory linear in the text.
pub fn lex(alloc: Global, text: &str, edition: Edition) -> Result<Lexed, AllocError>
    ensures tokens { IfOk result (λ l. l.tokens.items ≡ tokens_of edition text.now) }
    ensures errors { IfOk result (λ l. l.errors.items ≡ errors_of edition text.now) }
    ensures cut { length text.now < 2 ^ 32 → IfOk result (λ l. IsCut l.tokens.items text.now) }
    ensures none_empty { length text.now < 2 ^ 32 → IfOk result (λ l. All HasBytes l.tokens.items) }
    ensures lie { length text.now < 2 ^ 32
        → IfOk result (λ l. All (ErrorLiesIn (length text.now)) l.errors.items) }
{
    let lexed = read(alloc, text, edition)?;
    Ok(lexed)
}
