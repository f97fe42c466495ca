//! The front end of a lexer and a language.
ghost use Rattle.std.specs.Prelude.{◌≡◌, ◌<◌, ◌^◌, nat_lt, IfOk, MatchOption, length, option_map, string_bytes};
ghost use Rattle.ras_front_end.specs.Balanced.{IsBalanced};
ghost use Rattle.ras_front_end.specs.Reading.{reading_of, single_of};
ghost use Rattle.token_layout.specs.Laid.{IsCut};
ghost use Rattle.grammar_front.specs.declared.language.Target.TheVariants.{Piece};
ghost use Rattle.grammar_front.specs.Front.{size_of, expr_or_error_of, root_of, kinds_of, message_with, single_with, made_of, reading_with, nothing_read, whole_of, read_of};

use crate::language::{Language, Target};
use crate::report::reported;
use event_layout::{lay_out, outermost};
use grammar_machine::{Event, run};
use ras_front_end::{Edition, Entry, FrontEnd, Output, Reparser, SyntaxError};
use ras_node::KindSet;
use ras_node::sets::Exprs;
use std::alloc::{AllocError, Global};
use syntax_kind::SyntaxKind;
use text_size::TextSize;
use token_layout::{Lexed, Lexer, Token, is_balanced};

/// The front end of a lexer and a language. Whatever the language's tables say, a parse keeps the
/// law of [`FrontEnd`]:
///
/// - The machine reads the tokens that are neither white space nor comments by the target's rule.
///   Its last node becomes the root: a `SOURCE_FILE` for a file, a node of the reparser's kind for
///   a piece, and for an expression a node of its own kind, if that is the kind of an expression,
///   or an `ERROR`. The other nodes are in the root as [`lay_out`] says, and the tokens that the
///   rule left are its last children.
/// - The grammar's errors are stored before those of the lexer.
///
/// It takes time and memory linear in the text, if the lexer does, and does not recurse.
#[derive(Clone, Copy, Debug, Drop)]
pub struct GrammarFront<L, G> {
    /// Cuts texts into tokens.
    pub lexer: L,
    /// Has the grammar.
    pub language: G,
}

fn size(text: &str) -> TextSize
    ensures { result ≡ size_of text.now }
{
    TextSize::new(u32::try_from(text.len()).unwrap_or(u32::MAX))
}

fn is_short(text: &str) -> bool
    ensures { result ≡ nat_lt (length text.now) (2 ^ 32) }
{
    text.len() < 1 << 32
}

fn expr_or_error(top: Option<SyntaxKind>) -> SyntaxKind
    ensures { result ≡ expr_or_error_of top }
{
    match top {
        None => SyntaxKind::ERROR,
        Some(kind) => if Exprs::has(kind) {
            kind
        } else {
            SyntaxKind::ERROR
        },
    }
}

// The kind of the root. `top` is that of the outermost node.
fn root(target: Target, top: Option<SyntaxKind>) -> SyntaxKind
    ensures { result ≡ root_of target top }
{
    match target {
        Target::Whole(Entry::SourceFile) => SyntaxKind::SOURCE_FILE,
        Target::Whole(Entry::Expr) => expr_or_error(top),
        Target::Piece(reparser) => reparser.kind,
    }
}

fn kinds(alloc: Global, tokens: &[Token]) -> Result<Vec<SyntaxKind>, AllocError>
    ensures { IfOk result (λ v. v.items ≡ kinds_of tokens.now) }
{
    let mut kinds = Vec::with_capacity(alloc, tokens.len())?;
    for token in tokens {
        kinds.push(token.kind)?;
    }
    Ok(kinds)
}

fn message(alloc: Global, errors: &[SyntaxError]) -> Result<Option<String>, AllocError>
    ensures { IfOk result (λ m. option_map string_bytes m ≡ message_with errors.now) }
{
    match errors.first() {
        None => Ok(None),
        Some(error) => Ok(Some(String::from_str(alloc, error.message())?)),
    }
}

fn single(
    alloc: Global,
    tokens: &[Token],
    errors: &[SyntaxError],
) -> Result<Option<(SyntaxKind, Option<String>)>, AllocError>
    ensures { IfOk result
        (λ token. option_map single_of token ≡ single_with tokens.now errors.now) }
{
    match tokens {
        [token] => Ok(Some((token.kind, message(alloc, errors)?))),
        _ => Ok(None),
    }
}

// The output for a text of 4 GiB or more: no steps and no errors.
fn nothing(alloc: Global) -> Output
    ensures { reading_of result ≡ nothing_read }
{
    Output {
        steps: Vec::new(alloc),
        errors: Vec::new(alloc),
    }
}

// What the grammar makes of the tokens.
fn events<G: Language>(
    alloc: Global,
    language: &G,
    target: Target,
    text: &str,
    tokens: &[Token],
    edition: Edition,
) -> Result<Vec<Event>, AllocError>
    ensures { IsCut tokens.now text.now → IfOk result
        (λ v. v.items ≡ made_of (G.speaks language.now) target edition text.now tokens.now) }
{
    let sights = language.sights(alloc, text, tokens, edition)?;
    run(alloc, &language.grammar(), language.rule(target), &sights)
}

// One tree over the tokens, and the errors.
#[tactic(auto, unfolding(crate::specs::Front::reading_with))]
fn assemble<G: Language>(
    alloc: Global,
    language: &G,
    target: Target,
    text: &str,
    lexed: Lexed,
    events: &[Event],
) -> Result<Output, AllocError>
    ensures { IfOk result (λ output. reading_of output
        ≡ reading_with (G.speaks language.now) target text.now lexed.tokens.items
        lexed.errors.items events.now) }
{
    let Lexed { tokens, errors } = lexed;
    let root = root(target, outermost(events));
    let laid = lay_out(alloc, root, language.attaching(), text, &tokens, events)?;
    let steps = reported(
        alloc,
        language,
        size(text),
        &tokens,
        laid.steps,
        &laid.faults,
    )?;
    Ok(Output { steps, errors })
}

impl<L: Lexer, G: Language> GrammarFront<L, G> {
    fn whole(
        &self,
        alloc: Global,
        target: Target,
        text: &str,
        lexed: Lexed,
        edition: Edition,
    ) -> Result<Output, AllocError>
        requires tokens { lexed.tokens.items
            ≡ (L.lexes self.now.lexer).tokens edition text.now }
        requires errors { lexed.errors.items
            ≡ (L.lexes self.now.lexer).errors edition text.now }
        ensures { length text.now < 2 ^ 32 → IfOk result (λ output. reading_of output
            ≡ whole_of (L.lexes self.now.lexer) (G.speaks self.now.language) target edition
            text.now) }
    {
        let events = events(alloc, &self.language, target, text, &lexed.tokens, edition)?;
        let output = assemble(alloc, &self.language, target, text, lexed, &events)?;
        Ok(output)
    }

    // The output for a text of which these are the tokens.
    #[tactic(auto, unfolding(crate::specs::Front::read_of))]
    fn read_lexed(
        &self,
        alloc: Global,
        target: Target,
        text: &str,
        lexed: Lexed,
        edition: Edition,
    ) -> Result<Output, AllocError>
        requires tokens { lexed.tokens.items
            ≡ (L.lexes self.now.lexer).tokens edition text.now }
        requires errors { lexed.errors.items
            ≡ (L.lexes self.now.lexer).errors edition text.now }
        ensures { IfOk result (λ output. reading_of output
            ≡ read_of (L.lexes self.now.lexer) (G.speaks self.now.language) target edition
            text.now) }
    {
        if is_short(text) {
            self.whole(alloc, target, text, lexed, edition)
        } else {
            Ok(nothing(alloc))
        }
    }

    fn read(
        &self,
        alloc: Global,
        target: Target,
        text: &str,
        edition: Edition,
    ) -> Result<Output, AllocError>
        ensures { IfOk result (λ output. reading_of output
            ≡ read_of (L.lexes self.now.lexer) (G.speaks self.now.language) target edition
            text.now) }
    {
        let lexed = self.lexer.lex(alloc, text, edition)?;
        let output = self.read_lexed(alloc, target, text, lexed, edition)?;
        Ok(output)
    }

    fn balanced_piece(
        &self,
        alloc: Global,
        reparser: Reparser,
        text: &str,
        edition: Edition,
    ) -> Result<Option<Output>, AllocError>
        ensures { IfOk result (λ o. MatchOption o
            (IsBalanced (kinds_of ((L.lexes self.now.lexer).tokens edition text.now)) → ⊥)
            (λ output. IsBalanced (kinds_of ((L.lexes self.now.lexer).tokens edition text.now))
            × (reading_of output ≡ read_of (L.lexes self.now.lexer) (G.speaks self.now.language)
            (Piece reparser) edition text.now))) }
    {
        let lexed = self.lexer.lex(alloc, text, edition)?;
        if !is_balanced(&lexed.tokens) {
            return Ok(None);
        }
        let target = Target::Piece(reparser);
        Ok(Some(self.read_lexed(alloc, target, text, lexed, edition)?))
    }
}

impl<L: Lexer, G: Language> FrontEnd for GrammarFront<L, G> {
    ghost use Rattle.grammar_front.specs.Front.{grammar_front};
    ghost use Rattle.grammar_front.specs.Laws.{grammar_kept};

    ghost answers = { λ front. grammar_front (L.lexes front.lexer) (G.speaks front.language) };

    ghost kept = { λ front.
        grammar_kept (L.lexes front.lexer) (L.kept front.lexer) (G.speaks front.language) };

    fn lex(
        &self,
        alloc: Global,
        text: &str,
        edition: Edition,
    ) -> Result<Vec<SyntaxKind>, AllocError> {
        let lexed = self.lexer.lex(alloc, text, edition)?;
        kinds(alloc, &lexed.tokens)
    }

    fn parse(
        &self,
        alloc: Global,
        entry: Entry,
        text: &str,
        edition: Edition,
    ) -> Result<Output, AllocError> {
        self.read(alloc, Target::Whole(entry), text, edition)
    }

    fn single_token(
        &self,
        alloc: Global,
        text: &str,
        edition: Edition,
    ) -> Result<Option<(SyntaxKind, Option<String>)>, AllocError> {
        let lexed = self.lexer.lex(alloc, text, edition)?;
        single(alloc, &lexed.tokens, &lexed.errors)
    }

    fn reparser(
        &self,
        kind: SyntaxKind,
        first_child: Option<SyntaxKind>,
        parent: Option<SyntaxKind>,
    ) -> Option<Reparser> {
        let number = self.language.reparser(kind, first_child, parent)?;
        Some(Reparser { kind, number })
    }

    fn parse_piece(
        &self,
        alloc: Global,
        reparser: Reparser,
        text: &str,
        edition: Edition,
    ) -> Result<Output, AllocError> {
        self.read(alloc, Target::Piece(reparser), text, edition)
    }

    fn parse_balanced(
        &self,
        alloc: Global,
        reparser: Reparser,
        text: &str,
        edition: Edition,
    ) -> Result<Option<Output>, AllocError> {
        self.balanced_piece(alloc, reparser, text, edition)
    }

    fn keyword(&self, text: &str, edition: Edition) -> Option<SyntaxKind> {
        self.lexer.keyword(text, edition)
    }

    fn is_strict_keyword(&self, kind: SyntaxKind, edition: Edition) -> bool {
        self.lexer.is_strict_keyword(kind, edition)
    }
}
