//! The lexer reads a character at a time; a token goes on for as long as its scan does.
ghost use Rattle.std.specs.Prelude.{◌≡◌, ◌≤◌, ◌<◌, ◌^◌, OnOk, IfOk, All, length, string_bytes};
ghost use Rattle.std.specs.Str.{chars};
ghost use Rattle.token_layout.specs.Laid.{IsCut};
ghost use Rattle.tiny_lexer.specs.Cut.{ComplaintLiesIn};
ghost use Rattle.tiny_lexer.specs.Lexing.{size_of, later_of, lexing_of, report_of, emit_of, end_of, next_of, begun_of, more_of, feed_of, feeds, fresh, tokens_of, complaints_of};

use crate::scan::{Problem, Scan, begin, goes_on, scan_kind, wrong_with};
use ras_front_end::Edition;
use std::alloc::{AllocError, Global};
use syntax_kind::SyntaxKind;
use text_size::{TextRange, TextSize};
use token_layout::Token;

/// What is wrong with the token at a range.
#[derive(Clone, Copy)]
pub struct Complaint {
    /// What is wrong.
    pub problem: Problem,
    /// The token's range.
    pub range: TextRange,
}

/// The tokens of a text, and what is wrong with some.
#[derive(Drop)]
pub struct Lexed {
    /// The tokens, in order.
    pub tokens: Vec<Token>,
    /// What is wrong, in order.
    pub complaints: Vec<Complaint>,
}

#[derive(Drop)]
pub struct Lexer {
    pub tokens: Vec<Token>,
    pub complaints: Vec<Complaint>,
    pub scan: Option<Scan>,
    pub word: String,
    pub start: TextSize,
}

fn size(word: &str) -> TextSize
    ensures { result ≡ size_of word.now }
{
    match TextSize::of(word) {
        Some(len) => len,
        None => TextSize::new(0),
    }
}

/// `start + len`, saturating.
pub fn later(start: TextSize, len: TextSize) -> TextSize
    ensures value { result ≡ later_of start len }
    ensures ordered { start ≤ result }
{
    TextSize::new(start.raw().saturating_add(len.raw()))
}

impl Lexer {
    fn new(alloc: Global) -> Lexer
        ensures { lexing_of result ≡ fresh }
    {
        Lexer {
            tokens: Vec::new(alloc),
            complaints: Vec::new(alloc),
            scan: None,
            word: String::new(alloc),
            start: TextSize::new(0),
        }
    }

    fn report(&mut self, problem: Option<Problem>, len: TextSize) -> Result<(), AllocError>
        ensures { OnOk result (lexing_of self.new ≡ report_of problem len (lexing_of self.old)) }
    {
        if let Some(problem) = problem {
            let range = TextRange::new(self.start, later(self.start, len));
            self.complaints.push(Complaint { problem, range })?;
        }
        Ok(())
    }

    fn emit(&mut self, kind: SyntaxKind, len: TextSize) -> Result<(), AllocError>
        ensures { OnOk result (lexing_of self.new ≡ emit_of kind len (lexing_of self.old)) }
    {
        self.tokens.push(Token { kind, len })?;
        self.start = later(self.start, len);
        Ok(())
    }

    // Ends the token that is being read.
    fn end(&mut self, edition: Edition) -> Result<(), AllocError>
        ensures { OnOk result (lexing_of self.new ≡ end_of edition (lexing_of self.old)) }
    {
        match self.scan {
            None => Ok(()),
            Some(scan) => {
                let kind = scan_kind(scan, &self.word, edition);
                let len = size(&self.word);
                self.report(wrong_with(scan), len)?;
                self.emit(kind, len)
            }
        }
    }

    fn next(&self, c: char) -> Option<Scan>
        ensures { result ≡ next_of (lexing_of self.now) c }
    {
        match self.scan {
            None => None,
            Some(scan) => goes_on(scan, c),
        }
    }

    fn begin(&mut self, c: char) -> Result<(), AllocError>
        ensures { OnOk result (lexing_of self.new ≡ begun_of c (lexing_of self.old)) }
    {
        self.word.clear();
        self.word.push(c)?;
        self.scan = Some(begin(c));
        Ok(())
    }

    fn more(&mut self, scan: Scan, c: char) -> Result<(), AllocError>
        ensures { OnOk result (lexing_of self.new ≡ more_of scan c (lexing_of self.old)) }
    {
        self.word.push(c)?;
        self.scan = Some(scan);
        Ok(())
    }

    fn feed(&mut self, c: char, edition: Edition) -> Result<(), AllocError>
        ensures { OnOk result (lexing_of self.new ≡ feed_of edition (lexing_of self.old) c) }
    {
        match self.next(c) {
            Some(scan) => self.more(scan, c),
            None => {
                self.end(edition)?;
                self.begin(c)
            }
        }
    }
}

fn read(alloc: Global, text: &str, edition: Edition) -> Result<Lexer, AllocError>
    ensures { IfOk result (λ p. lexing_of p ≡ feeds edition (chars text.now) fresh) }
{
    let mut lexer = Lexer::new(alloc);
    for c in text.chars() {
        lexer.feed(c, edition)?;
    }
    Ok(lexer)
}

// What the lexer holds at the end of the text.
fn finished(alloc: Global, text: &str, edition: Edition) -> Result<Lexed, AllocError>
    ensures tokens { IfOk result (λ l. l.tokens.items ≡ tokens_of edition text.now) }
    ensures complaints { IfOk result (λ l. l.complaints.items ≡ complaints_of edition text.now) }
{
    let mut lexer = read(alloc, text, edition)?;
    lexer.end(edition)?;
    let Lexer {
        tokens,
        complaints,
        scan: _,
        word: _,
        start: _,
    } = lexer;
    Ok(Lexed { tokens, complaints })
}

/// The tokens of a text, and what is wrong with some of them. It takes time linear in the text.
pub fn lex(alloc: Global, text: &str, edition: Edition) -> Result<Lexed, AllocError>
    ensures tokens { IfOk result (λ l. l.tokens.items ≡ tokens_of edition text.now) }
    ensures complaints { IfOk result (λ l. l.complaints.items ≡ complaints_of edition text.now) }
    ensures cut { length text.now < 2 ^ 32 → IfOk result (λ l. IsCut l.tokens.items text.now) }
    ensures lie { length text.now < 2 ^ 32
        → IfOk result (λ l. All (ComplaintLiesIn (length text.now)) l.complaints.items) }
{
    let lexed = finished(alloc, text, edition)?;
    Ok(lexed)
}
