//! The kinds of tokens that have one text.
ghost use Rattle.std.specs.Prelude.{◌≡◌};
ghost use Rattle.rust_make.specs.Tokens.{token_text, fixed_text};

use ra_ap_syntax::SyntaxKind;
use syntax_kind::TokenKind;

// The text of all tokens of a kind, or none if they differ.
fn token_text(kind: TokenKind) -> &'static str
    ensures { result.now ≡ token_text kind }
{
    match kind {
        TokenKind::SEMICOLON => ";",
        TokenKind::COMMA => ",",
        TokenKind::L_PAREN => "(",
        TokenKind::R_PAREN => ")",
        TokenKind::L_CURLY => "{",
        TokenKind::R_CURLY => "}",
        TokenKind::L_BRACK => "[",
        TokenKind::R_BRACK => "]",
        TokenKind::L_ANGLE => "<",
        TokenKind::R_ANGLE => ">",
        TokenKind::AT => "@",
        TokenKind::POUND => "#",
        TokenKind::DOLLAR => "$",
        TokenKind::TILDE => "~",
        TokenKind::QUESTION => "?",
        TokenKind::AMP => "&",
        TokenKind::PIPE => "|",
        TokenKind::PLUS => "+",
        TokenKind::STAR => "*",
        TokenKind::SLASH => "/",
        TokenKind::CARET => "^",
        TokenKind::PERCENT => "%",
        TokenKind::UNDERSCORE => "_",
        TokenKind::DOT => ".",
        TokenKind::DOT2 => "..",
        TokenKind::DOT3 => "...",
        TokenKind::DOT2EQ => "..=",
        TokenKind::COLON => ":",
        TokenKind::COLON2 => "::",
        TokenKind::EQ => "=",
        TokenKind::EQ2 => "==",
        TokenKind::FAT_ARROW => "=>",
        TokenKind::BANG => "!",
        TokenKind::NEQ => "!=",
        TokenKind::MINUS => "-",
        TokenKind::THIN_ARROW => "->",
        TokenKind::LTEQ => "<=",
        TokenKind::GTEQ => ">=",
        TokenKind::PLUSEQ => "+=",
        TokenKind::MINUSEQ => "-=",
        TokenKind::PIPEEQ => "|=",
        TokenKind::AMPEQ => "&=",
        TokenKind::CARETEQ => "^=",
        TokenKind::SLASHEQ => "/=",
        TokenKind::STAREQ => "*=",
        TokenKind::PERCENTEQ => "%=",
        TokenKind::AMP2 => "&&",
        TokenKind::PIPE2 => "||",
        TokenKind::SHL => "<<",
        TokenKind::SHR => ">>",
        TokenKind::SHLEQ => "<<=",
        TokenKind::SHREQ => ">>=",
        TokenKind::AS_KW => "as",
        TokenKind::ASYNC_KW => "async",
        TokenKind::AUTO_KW => "auto",
        TokenKind::AWAIT_KW => "await",
        TokenKind::BECOME_KW => "become",
        TokenKind::BIKESHED_KW => "bikeshed",
        TokenKind::BREAK_KW => "break",
        TokenKind::BUILTIN_KW => "builtin",
        TokenKind::CONST_KW => "const",
        TokenKind::CONTINUE_KW => "continue",
        TokenKind::CRATE_KW => "crate",
        TokenKind::DEFAULT_KW => "default",
        TokenKind::DO_KW => "do",
        TokenKind::DYN_KW => "dyn",
        TokenKind::ELSE_KW => "else",
        TokenKind::ENUM_KW => "enum",
        TokenKind::EXTERN_KW => "extern",
        TokenKind::FALSE_KW => "false",
        TokenKind::FN_KW => "fn",
        TokenKind::FOR_KW => "for",
        TokenKind::GEN_KW => "gen",
        TokenKind::IF_KW => "if",
        TokenKind::IMPL_KW => "impl",
        TokenKind::IN_KW => "in",
        TokenKind::LET_KW => "let",
        TokenKind::LOOP_KW => "loop",
        TokenKind::MACRO_KW => "macro",
        TokenKind::MACRO_RULES_KW => "macro_rules",
        TokenKind::MATCH_KW => "match",
        TokenKind::MOD_KW => "mod",
        TokenKind::MOVE_KW => "move",
        TokenKind::MUT_KW => "mut",
        TokenKind::PUB_KW => "pub",
        TokenKind::REF_KW => "ref",
        TokenKind::RETURN_KW => "return",
        TokenKind::SELF_KW => "self",
        TokenKind::SELF_TYPE_KW => "Self",
        TokenKind::STATIC_KW => "static",
        TokenKind::STRUCT_KW => "struct",
        TokenKind::SUPER_KW => "super",
        TokenKind::TRAIT_KW => "trait",
        TokenKind::TRUE_KW => "true",
        TokenKind::TRY_KW => "try",
        TokenKind::TYPE_KW => "type",
        TokenKind::UNION_KW => "union",
        TokenKind::UNSAFE_KW => "unsafe",
        TokenKind::USE_KW => "use",
        TokenKind::WHERE_KW => "where",
        TokenKind::WHILE_KW => "while",
        TokenKind::YEET_KW => "yeet",
        TokenKind::YIELD_KW => "yield",
        TokenKind::WHITESPACE
        | TokenKind::COMMENT
        | TokenKind::INNER_DOC_COMMENT
        | TokenKind::OUTER_DOC_COMMENT
        | TokenKind::ERROR
        | TokenKind::IDENT
        | TokenKind::LIFETIME_IDENT
        | TokenKind::INT_NUMBER
        | TokenKind::FLOAT_NUMBER
        | TokenKind::CHAR
        | TokenKind::BYTE
        | TokenKind::STRING
        | TokenKind::BYTE_STRING
        | TokenKind::C_STRING => "",
    }
}

/// The text of all tokens of a kind of signs or keywords, or none for another kind.
pub(crate) fn fixed_text(kind: SyntaxKind) -> &'static str
    ensures { result.now ≡ fixed_text kind }
{
    match kind {
        SyntaxKind::Token(kind) => token_text(kind),
        SyntaxKind::Node(_) => "",
        SyntaxKind::OTHER(_) => "",
    }
}
