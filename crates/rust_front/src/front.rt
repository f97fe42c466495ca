//! The front end.
ghost use Rattle.std.specs.Prelude.{◌≡◌, ◌<◌, ◌^◌, nat_lt, IfOk, MatchOption, option_map, length};
ghost use Rattle.ras_front_end.specs.Balanced.{IsBalanced};
ghost use Rattle.ras_front_end.specs.Reading.{IsGiven, reading_of, single_of};
ghost use Rattle.token_layout.specs.Laid.{IsCut};
ghost use Rattle.rust_lexer.specs.Lexing.{tokens_of, errors_of};
ghost use Rattle.rust_grammar.specs.Seeing.{sights_of};
ghost use Rattle.rust_front.specs.Front.{kinds_of, made_with, reading_with, nothing_read, whole_piece_of, parsed_of, piece_of, single_of_text};
ghost use Rattle.rust_front.specs.Tops.{read_at, whole_at};

use crate::exact::{LONGEST_EXACT, exact_piece, has_head, is_exact_piece};
use crate::message::{lexer_errors, lexer_message};
use crate::piece::{exact_reparser_of, reparser_of, rule_by};
use crate::report::report_into;
use crate::retold::is_retold;
use crate::root::attaching;
use crate::top::TopEntryPoint;
use event_layout::{HandedOut, lay_out_into, outermost};
use exact_front::ExactFront;
use grammar_machine::{Event, run};
use ras_front_end::{Edition, Entry, FrontEnd, Output, Reparser, Step, StepSink, SyntaxError};
use rust_grammar::{Rule, grammar, rule_of, sights};
use rust_lexer::{Lexed, is_strict_keyword, keyword, lex, single_token};
use std::alloc::{AllocError, Global};
use syntax_kind::SyntaxKind;
use text_size::TextRange;
use token_layout::{Token, is_balanced};

/// The front end for Rust, of the editions 2015 to 2024.
///
/// Its trees, messages and positions are those of rust-analyzer's parser, but for the differences
/// that `docs/DIFFERENCES.md` lists under "Rust". Takes time and memory linear in the text, and
/// does not recurse.
#[derive(Clone, Copy, Debug, Drop)]
pub struct Rust;

fn kinds(alloc: Global, tokens: &[Token]) -> Result<Vec<SyntaxKind>, AllocError>
    ensures { IfOk result (λ v. v.items ≡ kinds_of tokens.now) }
{
    let mut kinds = Vec::new(alloc);
    for token in tokens {
        kinds.push(token.kind)?;
    }
    Ok(kinds)
}

// The events that the grammar makes of the tokens.
fn events(
    alloc: Global,
    rule: Rule,
    text: &str,
    tokens: &[Token],
    edition: Edition,
) -> Result<Vec<Event>, AllocError>
    ensures { IsCut tokens.now text.now
        → IfOk result (λ v. v.items ≡ made_with rule (sights_of edition text.now tokens.now)) }
{
    let sights = sights(alloc, text, tokens, edition)?;
    run(alloc, &grammar(), rule_of(rule), &sights)
}

// What is made of the events, with the steps given to a sink.
#[tactic(auto, unfolding(crate::specs::Front::reading_with))]
fn assemble_into<S: StepSink + Drop>(
    alloc: Global,
    root: SyntaxKind,
    text: &str,
    lexed: &Lexed,
    events: &[Event],
) -> Result<(S, Vec<SyntaxError>), AllocError>
    ensures { IfOk result (λ given. IsGiven S.took given.0 given.1.items
        (reading_with root text.now lexed.now.tokens.items lexed.now.errors.items events.now)) }
{
    let handed = lay_out_into(alloc, root, attaching(), text, &lexed.tokens, events)?;
    let HandedOut { mut sink, faults } = handed;
    report_into(alloc, &lexed.tokens, &faults, &mut sink)?;
    let errors = lexer_errors(alloc, text, &lexed.errors)?;
    Ok((sink, errors))
}

// The same, with the steps in a list.
pub(crate) fn assemble(
    alloc: Global,
    root: SyntaxKind,
    text: &str,
    lexed: &Lexed,
    events: &[Event],
) -> Result<Output, AllocError>
    ensures { IfOk result (λ o. reading_of o
        ≡ reading_with root text.now lexed.now.tokens.items lexed.now.errors.items events.now) }
{
    let (steps, errors) = assemble_into::<Vec<Step>>(alloc, root, text, lexed, events)?;
    Ok(Output { steps, errors })
}

pub(crate) fn is_short(text: &str) -> bool
    ensures { result ≡ nat_lt (length text.now) (2 ^ 32) }
{
    text.len() < 1 << 32
}

// The output for a text of 4 GiB or more: no steps and no errors.
fn nothing(alloc: Global) -> Output
    ensures { reading_of result ≡ nothing_read }
{
    Output {
        steps: Vec::new(alloc),
        errors: Vec::new(alloc),
    }
}

fn whole_into<S: StepSink + Drop>(
    alloc: Global,
    point: TopEntryPoint,
    text: &str,
    edition: Edition,
) -> Result<(S, Vec<SyntaxError>), AllocError>
    ensures { length text.now < 2 ^ 32 → IfOk result (λ given.
        IsGiven S.took given.0 given.1.items (whole_at point edition text.now)) }
{
    let lexed = lex(alloc, text, edition)?;
    let events = events(alloc, point.rule(), text, &lexed.tokens, edition)?;
    let root = point.root(outermost(&events));
    let given = assemble_into(alloc, root, text, &lexed, &events)?;
    Ok(given)
}

#[tactic(auto, unfolding(crate::specs::Tops::read_at))]
fn read_into<S: StepSink + Drop>(
    alloc: Global,
    point: TopEntryPoint,
    text: &str,
    edition: Edition,
) -> Result<(S, Vec<SyntaxError>), AllocError>
    ensures { IfOk result (λ given.
        IsGiven S.took given.0 given.1.items (read_at point edition text.now)) }
{
    if is_short(text) {
        whole_into(alloc, point, text, edition)
    } else {
        Ok((S::with_room(alloc, 0)?, Vec::new(alloc)))
    }
}

// The same, with the steps in a list.
pub(crate) fn read_at(
    alloc: Global,
    point: TopEntryPoint,
    text: &str,
    edition: Edition,
) -> Result<Output, AllocError>
    ensures { IfOk result (λ o. reading_of o ≡ read_at point edition text.now) }
{
    let (steps, errors) = read_into::<Vec<Step>>(alloc, point, text, edition)?;
    Ok(Output { steps, errors })
}

fn parse_into<S: StepSink + Drop>(
    alloc: Global,
    entry: Entry,
    text: &str,
    edition: Edition,
) -> Result<(S, Vec<SyntaxError>), AllocError>
    ensures { IfOk result (λ given.
        IsGiven S.took given.0 given.1.items (parsed_of entry edition text.now)) }
{
    let given = read_into(alloc, TopEntryPoint::of(entry), text, edition)?;
    Ok(given)
}

fn parse(alloc: Global, entry: Entry, text: &str, edition: Edition) -> Result<Output, AllocError>
    ensures { IfOk result (λ o. reading_of o ≡ parsed_of entry edition text.now) }
{
    let output = read_at(alloc, TopEntryPoint::of(entry), text, edition)?;
    Ok(output)
}

fn whole_piece(
    alloc: Global,
    reparser: Reparser,
    text: &str,
    lexed: &Lexed,
    edition: Edition,
) -> Result<Output, AllocError>
    requires tokens { lexed.now.tokens.items ≡ tokens_of edition text.now }
    requires errors { lexed.now.errors.items ≡ errors_of edition text.now }
    ensures { length text.now < 2 ^ 32
        → IfOk result (λ o. reading_of o ≡ whole_piece_of reparser edition text.now) }
{
    let events = events(
        alloc,
        rule_by(reparser.number),
        text,
        &lexed.tokens,
        edition,
    )?;
    let output = assemble(alloc, reparser.kind, text, lexed, &events)?;
    Ok(output)
}

// The output for a piece of which these are the tokens.
#[tactic(auto, unfolding(crate::specs::Front::piece_of))]
fn lexed_piece(
    alloc: Global,
    reparser: Reparser,
    text: &str,
    lexed: &Lexed,
    edition: Edition,
) -> Result<Output, AllocError>
    requires tokens { lexed.now.tokens.items ≡ tokens_of edition text.now }
    requires errors { lexed.now.errors.items ≡ errors_of edition text.now }
    ensures { IfOk result (λ o. reading_of o ≡ piece_of reparser edition text.now) }
{
    if is_short(text) {
        whole_piece(alloc, reparser, text, lexed, edition)
    } else {
        Ok(nothing(alloc))
    }
}

fn piece(
    alloc: Global,
    reparser: Reparser,
    text: &str,
    edition: Edition,
) -> Result<Output, AllocError>
    ensures { IfOk result (λ o. reading_of o ≡ piece_of reparser edition text.now) }
{
    let lexed = lex(alloc, text, edition)?;
    let output = lexed_piece(alloc, reparser, text, &lexed, edition)?;
    Ok(output)
}

fn balanced_piece(
    alloc: Global,
    reparser: Reparser,
    text: &str,
    edition: Edition,
) -> Result<Option<Output>, AllocError>
    ensures { IfOk result (λ o. MatchOption o
        (IsBalanced (kinds_of (tokens_of edition text.now)) → ⊥)
        (λ output. IsBalanced (kinds_of (tokens_of edition text.now))
        × (reading_of output ≡ piece_of reparser edition text.now))) }
{
    let lexed = lex(alloc, text, edition)?;
    if !is_balanced(&lexed.tokens) {
        return Ok(None);
    }
    Ok(Some(lexed_piece(alloc, reparser, text, &lexed, edition)?))
}

fn single(
    alloc: Global,
    text: &str,
    edition: Edition,
) -> Result<Option<(SyntaxKind, Option<String>)>, AllocError>
    ensures { IfOk result (λ t. option_map single_of t ≡ single_of_text edition text.now) }
{
    match single_token(text, edition) {
        None => Ok(None),
        Some((kind, None)) => Ok(Some((kind, None))),
        Some((kind, Some(problem))) => Ok(Some((kind, Some(lexer_message(alloc, problem, text)?)))),
    }
}

impl FrontEnd for Rust {
    ghost use Rattle.rust_front.specs.Front.{rust_front};
    ghost use Rattle.rust_front.specs.Laws.{rust_kept};

    ghost answers = { λ _. rust_front };

    ghost kept = { λ _. rust_kept };

    fn lex(
        &self,
        alloc: Global,
        text: &str,
        edition: Edition,
    ) -> Result<Vec<SyntaxKind>, AllocError> {
        let lexed = lex(alloc, text, edition)?;
        kinds(alloc, &lexed.tokens)
    }

    fn parse(
        &self,
        alloc: Global,
        entry: Entry,
        text: &str,
        edition: Edition,
    ) -> Result<Output, AllocError> {
        parse(alloc, entry, text, edition)
    }

    fn parse_into<S: StepSink + Drop>(
        &self,
        alloc: Global,
        entry: Entry,
        text: &str,
        edition: Edition,
    ) -> Result<(S, Vec<SyntaxError>), AllocError> {
        let given = parse_into(alloc, entry, text, edition)?;
        Ok(given)
    }

    fn single_token(
        &self,
        alloc: Global,
        text: &str,
        edition: Edition,
    ) -> Result<Option<(SyntaxKind, Option<String>)>, AllocError> {
        single(alloc, text, edition)
    }

    fn reparser(
        &self,
        kind: SyntaxKind,
        first_child: Option<SyntaxKind>,
        parent: Option<SyntaxKind>,
    ) -> Option<Reparser> {
        reparser_of(kind, first_child, parent)
    }

    fn parse_piece(
        &self,
        alloc: Global,
        reparser: Reparser,
        text: &str,
        edition: Edition,
    ) -> Result<Output, AllocError> {
        piece(alloc, reparser, text, edition)
    }

    fn parse_balanced(
        &self,
        alloc: Global,
        reparser: Reparser,
        text: &str,
        edition: Edition,
    ) -> Result<Option<Output>, AllocError> {
        balanced_piece(alloc, reparser, text, edition)
    }

    fn keyword(&self, text: &str, edition: Edition) -> Option<SyntaxKind> {
        keyword(text, edition)
    }

    fn is_strict_keyword(&self, kind: SyntaxKind, edition: Edition) -> bool {
        is_strict_keyword(kind, edition)
    }
}

impl ExactFront for Rust {
    ghost use Rattle.rust_front.specs.Exact.{rust_exact};
    ghost use Rattle.rust_front.specs.ExactLaws.{rust_exact_kept};

    ghost exact = { λ _. rust_exact };

    ghost exact_kept = { λ _. rust_exact_kept };

    fn longest(&self) -> usize {
        LONGEST_EXACT
    }

    fn has_head(&self, text: &str) -> bool {
        has_head(text)
    }

    fn exact_reparser(&self, kind: SyntaxKind) -> Option<Reparser> {
        exact_reparser_of(kind)
    }

    fn exact_piece(
        &self,
        alloc: Global,
        reparser: Reparser,
        text: &str,
        edition: Edition,
    ) -> Result<Option<Output>, AllocError> {
        exact_piece(alloc, reparser, text, edition)
    }

    fn is_exact_piece(
        &self,
        alloc: Global,
        reparser: Reparser,
        text: &str,
        edition: Edition,
    ) -> Result<bool, AllocError> {
        is_exact_piece(alloc, reparser, text, edition)
    }

    fn is_retold(
        &self,
        alloc: Global,
        before: &str,
        old: &str,
        new: &str,
        behind: &str,
        token: TextRange,
        edition: Edition,
    ) -> Result<bool, AllocError> {
        is_retold(alloc, before, old, new, behind, token, edition)
    }
}
