//! What the characters of a token so far make of it. No token gives characters back, so the longest
//! match is the one that goes on for as long as it can.
ghost use Rattle.std.specs.Prelude.{◌≡◌};
ghost use Rattle.tiny_lexer.specs.Scans.{is_space_of, is_digit_of, begin_mark_of, begin_of, goes_on_of, word_kind_of, scan_kind_of, problem_of};

use crate::keywords::keyword;
use ras_front_end::Edition;
use syntax_kind::SyntaxKind;
use unicode_ident::{is_xid_continue, is_xid_start};

#[derive(Clone, Copy)]
pub enum Scan {
    Space,
    Name,
    Number,
    LineComment,
    BlockComment,
    // after a `*`
    BlockStar,
    Text,
    // after a backslash
    TextEscape,
    Unknown,
    Colon,
    Minus,
    Equals,
    Bang,
    Dot,
    DotDot,
    Less,
    LessLess,
    Greater,
    GreaterGreater,
    Amp,
    Pipe,
    Plus,
    Star,
    Slash,
    Caret,
    Percent,
    // ends here
    Single(SyntaxKind),
}

/// What is wrong with a token.
#[derive(Clone, Copy)]
pub enum Problem {
    /// A block comment that the text ends.
    UnterminatedComment,
    /// A string that the text ends.
    UnterminatedString,
    /// A character that begins no token.
    UnexpectedCharacter,
}

fn is_space(c: char) -> bool
    ensures { result ≡ is_space_of c }
{
    c == ' ' || c == '\n' || c == '\t' || c == '\r'
}

fn is_digit(c: char) -> bool
    ensures { result ≡ is_digit_of c }
{
    '0' <= c && c <= '9'
}

// What a character begins that is no space, name or number.
fn begin_mark(c: char) -> Scan
    ensures { result ≡ begin_mark_of c }
{
    match c {
        '"' => Scan::Text,
        ';' => Scan::Single(SyntaxKind::SEMICOLON),
        ',' => Scan::Single(SyntaxKind::COMMA),
        '(' => Scan::Single(SyntaxKind::L_PAREN),
        ')' => Scan::Single(SyntaxKind::R_PAREN),
        '{' => Scan::Single(SyntaxKind::L_CURLY),
        '}' => Scan::Single(SyntaxKind::R_CURLY),
        '[' => Scan::Single(SyntaxKind::L_BRACK),
        ']' => Scan::Single(SyntaxKind::R_BRACK),
        '@' => Scan::Single(SyntaxKind::AT),
        '#' => Scan::Single(SyntaxKind::POUND),
        '$' => Scan::Single(SyntaxKind::DOLLAR),
        '~' => Scan::Single(SyntaxKind::TILDE),
        '?' => Scan::Single(SyntaxKind::QUESTION),
        ':' => Scan::Colon,
        '-' => Scan::Minus,
        '=' => Scan::Equals,
        '!' => Scan::Bang,
        '.' => Scan::Dot,
        '<' => Scan::Less,
        '>' => Scan::Greater,
        '&' => Scan::Amp,
        '|' => Scan::Pipe,
        '+' => Scan::Plus,
        '*' => Scan::Star,
        '/' => Scan::Slash,
        '^' => Scan::Caret,
        '%' => Scan::Percent,
        _ => Scan::Unknown,
    }
}

pub(crate) fn begin(c: char) -> Scan
    ensures { result ≡ begin_of c }
{
    if is_space(c) {
        Scan::Space
    } else if c == '_' || is_xid_start(c) {
        Scan::Name
    } else if is_digit(c) {
        Scan::Number
    } else {
        begin_mark(c)
    }
}

// What the token is with the character; `None` where it ends before.
pub(crate) fn goes_on(scan: Scan, c: char) -> Option<Scan>
    ensures { result ≡ goes_on_of scan c }
{
    match scan {
        Scan::Space => if is_space(c) { Some(Scan::Space) } else { None },
        Scan::Name => if is_xid_continue(c) {
            Some(Scan::Name)
        } else {
            None
        },
        Scan::Number => if is_xid_continue(c) {
            Some(Scan::Number)
        } else {
            None
        },
        Scan::LineComment => if c == '\n' {
            None
        } else {
            Some(Scan::LineComment)
        },
        Scan::BlockComment => if c == '*' {
            Some(Scan::BlockStar)
        } else {
            Some(Scan::BlockComment)
        },
        Scan::BlockStar => if c == '/' {
            Some(Scan::Single(SyntaxKind::COMMENT))
        } else if c == '*' {
            Some(Scan::BlockStar)
        } else {
            Some(Scan::BlockComment)
        },
        Scan::Text => if c == '"' {
            Some(Scan::Single(SyntaxKind::STRING))
        } else if c == '\\' {
            Some(Scan::TextEscape)
        } else {
            Some(Scan::Text)
        },
        Scan::TextEscape => Some(Scan::Text),
        Scan::Unknown => None,
        Scan::Colon => if c == ':' {
            Some(Scan::Single(SyntaxKind::COLON2))
        } else {
            None
        },
        Scan::Minus => if c == '>' {
            Some(Scan::Single(SyntaxKind::THIN_ARROW))
        } else if c == '=' {
            Some(Scan::Single(SyntaxKind::MINUSEQ))
        } else {
            None
        },
        Scan::Equals => if c == '=' {
            Some(Scan::Single(SyntaxKind::EQ2))
        } else if c == '>' {
            Some(Scan::Single(SyntaxKind::FAT_ARROW))
        } else {
            None
        },
        Scan::Bang => if c == '=' {
            Some(Scan::Single(SyntaxKind::NEQ))
        } else {
            None
        },
        Scan::Dot => if c == '.' { Some(Scan::DotDot) } else { None },
        Scan::DotDot => if c == '.' {
            Some(Scan::Single(SyntaxKind::DOT3))
        } else if c == '=' {
            Some(Scan::Single(SyntaxKind::DOT2EQ))
        } else {
            None
        },
        Scan::Less => if c == '=' {
            Some(Scan::Single(SyntaxKind::LTEQ))
        } else if c == '<' {
            Some(Scan::LessLess)
        } else {
            None
        },
        Scan::LessLess => if c == '=' {
            Some(Scan::Single(SyntaxKind::SHLEQ))
        } else {
            None
        },
        Scan::Greater => if c == '=' {
            Some(Scan::Single(SyntaxKind::GTEQ))
        } else if c == '>' {
            Some(Scan::GreaterGreater)
        } else {
            None
        },
        Scan::GreaterGreater => if c == '=' {
            Some(Scan::Single(SyntaxKind::SHREQ))
        } else {
            None
        },
        Scan::Amp => if c == '&' {
            Some(Scan::Single(SyntaxKind::AMP2))
        } else if c == '=' {
            Some(Scan::Single(SyntaxKind::AMPEQ))
        } else {
            None
        },
        Scan::Pipe => if c == '|' {
            Some(Scan::Single(SyntaxKind::PIPE2))
        } else if c == '=' {
            Some(Scan::Single(SyntaxKind::PIPEEQ))
        } else {
            None
        },
        Scan::Plus => if c == '=' {
            Some(Scan::Single(SyntaxKind::PLUSEQ))
        } else {
            None
        },
        Scan::Star => if c == '=' {
            Some(Scan::Single(SyntaxKind::STAREQ))
        } else {
            None
        },
        Scan::Slash => if c == '/' {
            Some(Scan::LineComment)
        } else if c == '*' {
            Some(Scan::BlockComment)
        } else if c == '=' {
            Some(Scan::Single(SyntaxKind::SLASHEQ))
        } else {
            None
        },
        Scan::Caret => if c == '=' {
            Some(Scan::Single(SyntaxKind::CARETEQ))
        } else {
            None
        },
        Scan::Percent => if c == '=' {
            Some(Scan::Single(SyntaxKind::PERCENTEQ))
        } else {
            None
        },
        Scan::Single(_) => None,
    }
}

// The kind of a name.
fn word_kind(word: &str, edition: Edition) -> SyntaxKind
    ensures { result ≡ word_kind_of edition word.now }
{
    if word == "_" {
        SyntaxKind::UNDERSCORE
    } else {
        match keyword(word, edition) {
            None => SyntaxKind::IDENT,
            Some(kind) => kind,
        }
    }
}

// The kind of a token that ends so.
pub(crate) fn scan_kind(scan: Scan, word: &str, edition: Edition) -> SyntaxKind
    ensures { result ≡ scan_kind_of edition word.now scan }
{
    match scan {
        Scan::Space => SyntaxKind::WHITESPACE,
        Scan::Name => word_kind(word, edition),
        Scan::Number => SyntaxKind::INT_NUMBER,
        Scan::LineComment => SyntaxKind::COMMENT,
        Scan::BlockComment => SyntaxKind::COMMENT,
        Scan::BlockStar => SyntaxKind::COMMENT,
        Scan::Text => SyntaxKind::STRING,
        Scan::TextEscape => SyntaxKind::STRING,
        Scan::Unknown => SyntaxKind::ERROR,
        Scan::Colon => SyntaxKind::COLON,
        Scan::Minus => SyntaxKind::MINUS,
        Scan::Equals => SyntaxKind::EQ,
        Scan::Bang => SyntaxKind::BANG,
        Scan::Dot => SyntaxKind::DOT,
        Scan::DotDot => SyntaxKind::DOT2,
        Scan::Less => SyntaxKind::L_ANGLE,
        Scan::LessLess => SyntaxKind::SHL,
        Scan::Greater => SyntaxKind::R_ANGLE,
        Scan::GreaterGreater => SyntaxKind::SHR,
        Scan::Amp => SyntaxKind::AMP,
        Scan::Pipe => SyntaxKind::PIPE,
        Scan::Plus => SyntaxKind::PLUS,
        Scan::Star => SyntaxKind::STAR,
        Scan::Slash => SyntaxKind::SLASH,
        Scan::Caret => SyntaxKind::CARET,
        Scan::Percent => SyntaxKind::PERCENT,
        Scan::Single(kind) => kind,
    }
}

// What is wrong with a token that ends so.
pub(crate) fn wrong_with(scan: Scan) -> Option<Problem>
    ensures { result ≡ problem_of scan }
{
    match scan {
        Scan::BlockComment => Some(Problem::UnterminatedComment),
        Scan::BlockStar => Some(Problem::UnterminatedComment),
        Scan::Text => Some(Problem::UnterminatedString),
        Scan::TextEscape => Some(Problem::UnterminatedString),
        Scan::Unknown => Some(Problem::UnexpectedCharacter),
        _ => None,
    }
}
