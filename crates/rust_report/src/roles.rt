//! Roles of the tokens of Rust, for highlighting.
ghost use Rattle.std.specs.Prelude.{◌≡◌};
ghost use Rattle.tree_model.specs.Cursor.{parent_of};
ghost use Rattle.ras_node.specs.Nodes.{kind_at};
ghost use Rattle.rust_report.specs.Roles.{begins_word, role_of_token, role_of_name, role_of_callee, role_of_path, role_of_use, role_of_word, role_alone, in_attribute, or_attribute, role_of};

use lossless_tree::{SyntaxKind, SyntaxNode, SyntaxToken};
use ras_node::support::{is_of_kind, is_token_of_kind};
use rust_kinds::kinds::RENAME;

/// The role of a token.
#[derive(Clone, Copy, Debug, PartialEq, Eq)]
pub enum Role {
    /// White space, punctuation, and every other name.
    Plain,
    /// A comment or a documentation comment.
    Comment,
    /// A keyword.
    Keyword,
    /// A string, character or byte literal.
    Text,
    /// A number.
    Number,
    /// A lifetime.
    Lifetime,
    /// The name of a function.
    Function,
    /// The name of a type.
    Type,
    /// The name of a field.
    Field,
    /// A name before a `::`, in a `use`, of a module or of a crate.
    Path,
    /// The name of a macro.
    Macro,
    /// A token in an attribute that is otherwise plain.
    Attribute,
    /// Characters that form no token.
    Error,
}

// Whether a text begins with an ASCII letter or `_`.
fn begins_word(text: &str) -> bool
    ensures { result ≡ begins_word text.now }
{
    match text.as_bytes().first() {
        Some(byte) => byte.is_ascii_alphabetic() || *byte == b'_',
        None => false,
    }
}

// The role of a token by its kind and text; an identifier is plain. A word is a keyword if it is no
// identifier and no literal.
fn role_of_token(kind: SyntaxKind, text: &str) -> Role
    ensures { result ≡ role_of_token kind text.now }
{
    match kind {
        SyntaxKind::INT_NUMBER | SyntaxKind::FLOAT_NUMBER => Role::Number,
        SyntaxKind::LIFETIME_IDENT => Role::Lifetime,
        SyntaxKind::ERROR => Role::Error,
        SyntaxKind::IDENT | SyntaxKind::WHITESPACE => Role::Plain,
        SyntaxKind::STRING
        | SyntaxKind::BYTE_STRING
        | SyntaxKind::C_STRING
        | SyntaxKind::CHAR
        | SyntaxKind::BYTE => Role::Text,
        SyntaxKind::COMMENT | SyntaxKind::INNER_DOC_COMMENT | SyntaxKind::OUTER_DOC_COMMENT =>
            Role::Comment,
        _ => {
            if begins_word(text) {
                Role::Keyword
            } else {
                Role::Plain
            }
        }
    }
}

// The role of a NAME, by the kind of the item around it.
fn role_of_name(item: SyntaxKind) -> Role
    ensures { result ≡ role_of_name item }
{
    match item {
        SyntaxKind::FN => Role::Function,
        SyntaxKind::STRUCT
        | SyntaxKind::ENUM
        | SyntaxKind::UNION
        | SyntaxKind::TRAIT
        | SyntaxKind::TYPE_ALIAS
        | SyntaxKind::TYPE_PARAM
        | SyntaxKind::VARIANT => Role::Type,
        SyntaxKind::RECORD_FIELD => Role::Field,
        SyntaxKind::MACRO_RULES | SyntaxKind::MACRO_DEF => Role::Macro,
        SyntaxKind::MODULE => Role::Path,
        kind if kind == RENAME => Role::Path,
        _ => Role::Plain,
    }
}

// The role of a path that is an expression, by the node around the expression.
fn role_of_callee(around: Option<SyntaxNode>) -> Role
    ensures { result ≡ role_of_callee around }
{
    match around {
        Some(call) => {
            if is_of_kind(&call, SyntaxKind::CALL_EXPR) {
                Role::Function
            } else {
                Role::Plain
            }
        }
        None => Role::Plain,
    }
}

// The role of a path, by the node around it.
fn role_of_path(around: Option<SyntaxNode>) -> Role
    ensures { result ≡ role_of_path around }
{
    let Some(around) = around else {
        return Role::Plain;
    };
    match around.kind() {
        SyntaxKind::PATH_TYPE
        | SyntaxKind::RECORD_EXPR
        | SyntaxKind::RECORD_PAT
        | SyntaxKind::TUPLE_STRUCT_PAT => Role::Type,
        SyntaxKind::MACRO_CALL => Role::Macro,
        SyntaxKind::PATH_EXPR => role_of_callee(around.parent()),
        SyntaxKind::PATH | SyntaxKind::USE_TREE | SyntaxKind::VISIBILITY => Role::Path,
        _ => Role::Plain,
    }
}

// The role of a NAME_REF, by the node around it.
fn role_of_use(around: &SyntaxNode) -> Role
    ensures { result ≡ role_of_use around.now }
{
    match around.kind() {
        SyntaxKind::METHOD_CALL_EXPR => Role::Function,
        SyntaxKind::FIELD_EXPR | SyntaxKind::RECORD_EXPR_FIELD | SyntaxKind::RECORD_PAT_FIELD =>
            Role::Field,
        SyntaxKind::EXTERN_CRATE => Role::Path,
        SyntaxKind::PATH_SEGMENT => match around.parent() {
            Some(path) => role_of_path(path.parent()),
            None => Role::Plain,
        },
        _ => Role::Plain,
    }
}

// The role of an identifier, by the node that it is in and the node around that.
fn role_of_word(name: Option<SyntaxNode>) -> Role
    ensures { result ≡ role_of_word name }
{
    let Some(name) = name else {
        return Role::Plain;
    };
    let Some(around) = name.parent() else {
        return Role::Plain;
    };
    match name.kind() {
        SyntaxKind::NAME => role_of_name(around.kind()),
        SyntaxKind::NAME_REF => role_of_use(&around),
        _ => Role::Plain,
    }
}

// Whether one of five nodes, this one and its ancestors, is an attribute. A name in the path of an
// attribute is four nodes below it.
fn in_attribute(parent: Option<SyntaxNode>) -> bool
    ensures { result ≡ in_attribute parent }
{
    let mut next = parent;
    let mut left = 5usize;
    while left > 0 {
        let Some(node) = next else {
            return false;
        };
        if is_of_kind(&node, SyntaxKind::ATTR) {
            return true;
        }
        next = node.parent();
        left -= 1;
    }
    false
}

// The role of a token by its kind, and of an identifier by the nodes around it.
fn role_alone(token: &SyntaxToken) -> Role
    ensures { result ≡ role_alone (kind_at token.now) token.now }
{
    if is_token_of_kind(token, SyntaxKind::IDENT) {
        role_of_word(token.parent())
    } else {
        role_of_token(token.kind(), token.text())
    }
}

// The role of a token, or `Attribute` if the token is plain or a part of a path, and in one.
fn or_attribute(role: Role, token: &SyntaxToken) -> Role
    ensures { result ≡ or_attribute role (in_attribute (parent_of token.now)) }
{
    match role {
        Role::Plain | Role::Path if in_attribute(token.parent()) => Role::Attribute,
        role => role,
    }
}

/// The role of a token of a tree: by its kind, and for an identifier by the nodes around it. A
/// token that is plain by this rule, or a part of a path, has the role `Attribute` if one of the
/// five innermost nodes around it is an attribute.
pub fn role_of(token: &SyntaxToken) -> Role
    ensures { result ≡ role_of token.now }
{
    or_attribute(role_alone(token), token)
}
