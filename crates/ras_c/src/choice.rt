//! What a caller chooses by a number: an entry, and which errors are told.
ghost use Rattle.std.specs.Prelude.{◌≡◌};
ghost use Rattle.ras_c.specs.Border.{entry_of, errors_of};

use rust_front::TopEntryPoint;

/// The entry of a file: the root is a `SOURCE_FILE`.
pub const ENTRY_FILE: u32 = 0;
/// The entry of an expression: the root is a node of an expression, or `ERROR` if the text is not
/// one expression. If only its beginning is one, as in `a b`, there may be no errors.
pub const ENTRY_EXPR: u32 = 1;
/// The entry of a type, with its bounds: the root is a node of a type, or `ERROR` if the text is
/// not one type, as for [`ENTRY_EXPR`].
pub const ENTRY_TYPE: u32 = 2;
/// The entry of a pattern, with its alternatives: the root is a node of a pattern, or `ERROR` if
/// the text is not one pattern, as for [`ENTRY_EXPR`].
pub const ENTRY_PATTERN: u32 = 3;
/// The entry of statements, as a macro may stand for: the root is a `MACRO_STMTS`.
pub const ENTRY_STATEMENTS: u32 = 4;
/// The entry of items, as a macro may stand for: the root is a `MACRO_ITEMS`.
pub const ENTRY_ITEMS: u32 = 5;
/// The entry of what is between the brackets of an attribute: the root is a `PATH_META`,
/// `KEY_VALUE_META`, `TOKEN_TREE_META`, `UNSAFE_META`, `CFG_META` or `CFG_ATTR_META`, or `ERROR` if
/// the text is not one of these, as for [`ENTRY_EXPR`].
pub const ENTRY_META_ITEM: u32 = 6;

/// No errors are told.
pub const NO_ERRORS: u32 = 0;
/// The errors of the parser, and then those of the lexer, are told. The tree is not walked for
/// violations of rules beyond the grammar.
pub const PARSE_ERRORS: u32 = 1;
/// The violations of rules beyond the grammar are told, without the errors of the parse.
pub const VIOLATIONS: u32 = 2;
/// All errors are told: those of the parse, and then the violations.
pub const ALL_ERRORS: u32 = 3;

/// Which errors of a parse are told.
#[derive(Clone, Copy)]
pub enum Errors {
    /// None.
    Nothing,
    /// Those of the parse.
    Parse,
    /// The violations of rules beyond the grammar.
    Violations,
    /// Those of the parse, and then the violations.
    All,
}

/// The entry with a number, or `None` if there is none.
pub fn entry_of(number: u32) -> Option<TopEntryPoint>
    ensures { result ≡ entry_of number }
{
    match number {
        ENTRY_FILE => Some(TopEntryPoint::SourceFile),
        ENTRY_EXPR => Some(TopEntryPoint::Expr),
        ENTRY_TYPE => Some(TopEntryPoint::Type),
        ENTRY_PATTERN => Some(TopEntryPoint::Pattern),
        ENTRY_STATEMENTS => Some(TopEntryPoint::MacroStmts),
        ENTRY_ITEMS => Some(TopEntryPoint::MacroItems),
        ENTRY_META_ITEM => Some(TopEntryPoint::MetaItem),
        _ => None,
    }
}

/// The choice of errors with a number, or `None` if there is none.
pub fn errors_of(number: u32) -> Option<Errors>
    ensures { result ≡ errors_of number }
{
    match number {
        NO_ERRORS => Some(Errors::Nothing),
        PARSE_ERRORS => Some(Errors::Parse),
        VIOLATIONS => Some(Errors::Violations),
        ALL_ERRORS => Some(Errors::All),
        _ => None,
    }
}
