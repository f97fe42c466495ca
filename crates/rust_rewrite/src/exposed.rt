//! What rustc refuses or reads otherwise where it stands, and the parser takes all the same: a
//! pattern without a pair, as `A | B` in `let A | B = x;`; a block that rustc goes on behind, as
//! `async {} (a)`; a `let` in a pair, as `a && (let b = c)`; and a few things that have to be the
//! last ones.
ghost use Rattle.std.specs.Prelude.{◌≡◌, is_some};
ghost use Rattle.tree_model.specs.Cursor.{ancestors_of};
ghost use Rattle.rust_parens.specs.Rustc.{token_after};
ghost use Rattle.rust_rewrite.specs.Exposed.{is_dots, is_endless, is_slice, is_in_slice, is_binding, is_prefix, is_exposed_pattern, is_async_block, is_closed_by_block, is_stop, is_joined, is_record, is_brace, is_rest_inside, is_variadic_inside, is_of_path, is_macro_path, is_of_condition, is_pair_path, is_operation, is_chained, takes_chains, has_chain, is_exposed, has_exposed};

use lossless_tree::{NodeOrToken, SyntaxKind, SyntaxNode, SyntaxToken};
use ras_algo::algo::next_non_trivia_token;
use ras_front_end::Edition;
use ras_node::support::{is_of_kind, is_token_of_kind, share, token};
use rust_kinds::kinds::RECORD_PAT_FIELD_LIST;

fn is_dots(token: Option<SyntaxToken>) -> bool
    ensures { result ≡ is_dots token }
{
    match token {
        None => false,
        Some(token) => is_token_of_kind(&token, SyntaxKind::DOT2),
    }
}

// Whether a node is a range without an end.
fn is_endless(node: &SyntaxNode) -> bool
    ensures { result ≡ is_endless node.now }
{
    is_of_kind(node, SyntaxKind::RANGE_PAT) && is_dots(node.last_token())
}

fn is_slice(node: Option<SyntaxNode>) -> bool
    ensures { result ≡ is_slice node }
{
    match node {
        None => false,
        Some(node) => is_of_kind(&node, SyntaxKind::SLICE_PAT),
    }
}

// Whether what is directly in a node is an element of a slice, also behind `@`.
fn is_in_slice(around: Option<SyntaxNode>) -> bool
    ensures { result ≡ is_in_slice around }
{
    match around {
        None => false,
        Some(node) => {
            is_of_kind(&node, SyntaxKind::SLICE_PAT)
                || (is_of_kind(&node, SyntaxKind::IDENT_PAT) && is_slice(node.parent()))
        }
    }
}

fn is_binding(around: Option<SyntaxNode>) -> bool
    ensures { result ≡ is_binding around }
{
    match around {
        None => false,
        Some(node) => {
            is_of_kind(&node, SyntaxKind::LET_STMT) || is_of_kind(&node, SyntaxKind::PARAM)
        }
    }
}

// Whether a node is `&` or `box` before a pattern.
fn is_prefix(around: Option<SyntaxNode>) -> bool
    ensures { result ≡ is_prefix around }
{
    match around {
        None => false,
        Some(node) => {
            is_of_kind(&node, SyntaxKind::REF_PAT) || is_of_kind(&node, SyntaxKind::BOX_PAT)
        }
    }
}

fn is_exposed_pattern(node: &SyntaxNode) -> bool
    ensures { result ≡ is_exposed_pattern node.now }
{
    (is_of_kind(node, SyntaxKind::OR_PAT) && is_binding(node.parent()))
        || (is_of_kind(node, SyntaxKind::RANGE_PAT) && is_prefix(node.parent()))
        || (is_endless(node) && is_in_slice(node.parent()))
}

// The token after a node that is neither white space nor a comment.
fn token_after(node: &SyntaxNode) -> Option<SyntaxToken>
    ensures { result ≡ token_after node.now }
{
    next_non_trivia_token(NodeOrToken::Node(share(node)))
}

// `async {}` and `gen {}`, also with `move`.
fn is_async_block(node: &SyntaxNode) -> bool
    ensures { result ≡ is_async_block node.now }
{
    is_of_kind(node, SyntaxKind::BLOCK_EXPR)
        && (token(node, SyntaxKind::ASYNC_KW).is_some()
            || token(node, SyntaxKind::GEN_KW).is_some())
}

// Whether what is directly in a node is a statement or the value of an arm, which to the parser
// ends with its block.
fn is_closed_by_block(around: Option<SyntaxNode>) -> bool
    ensures { result ≡ is_closed_by_block around }
{
    match around {
        None => false,
        Some(node) => {
            is_of_kind(&node, SyntaxKind::EXPR_STMT) || is_of_kind(&node, SyntaxKind::MATCH_ARM)
        }
    }
}

fn is_brace(token: Option<SyntaxToken>) -> bool
    ensures { result ≡ is_brace token }
{
    match token {
        None => false,
        Some(token) => is_token_of_kind(&token, SyntaxKind::R_CURLY),
    }
}

fn is_stop(token: Option<SyntaxToken>) -> bool
    ensures { result ≡ is_stop token }
{
    match token {
        None => false,
        Some(token) => {
            is_token_of_kind(&token, SyntaxKind::SEMICOLON)
                || is_token_of_kind(&token, SyntaxKind::COMMA)
                || is_token_of_kind(&token, SyntaxKind::R_CURLY)
        }
    }
}

// `async {} (a)` is a call to rustc, and two statements to the parser.
fn is_joined(node: &SyntaxNode) -> bool
    ensures { result ≡ is_joined node.now }
{
    is_async_block(node) && is_closed_by_block(node.parent()) && !is_stop(token_after(node))
}

fn is_record(around: Option<SyntaxNode>) -> bool
    ensures { result ≡ is_record around }
{
    match around {
        None => false,
        Some(node) => is_of_kind(&node, RECORD_PAT_FIELD_LIST),
    }
}

// `S { .., a }` and `S { .., }`.
fn is_rest_inside(node: &SyntaxNode) -> bool
    ensures { result ≡ is_rest_inside node.now }
{
    is_of_kind(node, SyntaxKind::REST_PAT)
        && is_record(node.parent())
        && !is_brace(token_after(node))
}

// `fn f(a: A, ..., b: B);`.
fn is_variadic_inside(node: &SyntaxNode) -> bool
    ensures { result ≡ is_variadic_inside node.now }
{
    is_of_kind(node, SyntaxKind::PARAM)
        && token(node, SyntaxKind::DOT3).is_some()
        && node.next_sibling().is_some()
}

fn is_of_path(node: &SyntaxNode) -> bool
    ensures { result ≡ is_of_path node.now }
{
    is_of_kind(node, SyntaxKind::GENERIC_ARG_LIST)
        || is_of_kind(node, SyntaxKind::PATH_SEGMENT)
        || is_of_kind(node, SyntaxKind::PATH)
}

// Whether a part of a path is in that of a macro call.
fn is_in_macro_path(node: &SyntaxNode) -> bool
    ensures { result ≡ is_macro_path (ancestors_of node.now) }
{
    let mut around = node.ancestors();
    while let Some(node) = around.next() {
        if !is_of_path(&node) {
            return is_of_kind(&node, SyntaxKind::MACRO_CALL);
        }
    }
    false
}

// Whether a node is a `let`, or an operator as the `&&` around one.
fn is_of_condition(node: &SyntaxNode) -> bool
    ensures { result ≡ is_of_condition node.now }
{
    is_of_kind(node, SyntaxKind::LET_EXPR) || is_of_kind(node, SyntaxKind::BIN_EXPR)
}

// Whether a part of a condition is in a pair: `a && (let b = c)`.
fn is_in_pair(node: &SyntaxNode) -> bool
    ensures { result ≡ is_pair_path (ancestors_of node.now) }
{
    let mut around = node.ancestors();
    while let Some(node) = around.next() {
        if !is_of_condition(&node) {
            return is_of_kind(&node, SyntaxKind::PAREN_EXPR);
        }
    }
    false
}

fn is_operation(node: Option<SyntaxNode>) -> bool
    ensures { result ≡ is_operation node }
{
    match node {
        None => false,
        Some(node) => is_of_kind(&node, SyntaxKind::BIN_EXPR),
    }
}

// Whether a node is a `let` beside a `&&`.
fn is_chained(node: &SyntaxNode) -> bool
    ensures { result ≡ is_chained node.now }
{
    is_of_kind(node, SyntaxKind::LET_EXPR) && is_operation(node.parent())
}

/// Whether an edition has conditions as `a && let b = c`.
pub(crate) fn takes_chains(edition: Edition) -> bool
    ensures { result ≡ takes_chains edition }
{
    matches!(edition, Edition::Edition2024)
}

/// Whether a tree has a condition as `a && let b = c`.
pub(crate) fn has_chain(root: &SyntaxNode) -> bool
    ensures { result ≡ has_chain root.now }
{
    for node in root.descendants() {
        if is_chained(&node) {
            return true;
        }
    }
    false
}

fn is_exposed(node: &SyntaxNode) -> bool
    ensures { result ≡ is_exposed node.now }
{
    is_exposed_pattern(node)
        || is_joined(node)
        || is_rest_inside(node)
        || is_variadic_inside(node)
        || (is_of_kind(node, SyntaxKind::GENERIC_ARG_LIST) && is_in_macro_path(node))
        || (is_of_kind(node, SyntaxKind::LET_EXPR) && is_in_pair(node))
}

/// Whether a tree has something that rustc refuses or reads otherwise where it stands.
pub(crate) fn has_exposed(root: &SyntaxNode) -> bool
    ensures { result ≡ has_exposed root.now }
{
    for node in root.descendants() {
        if is_exposed(&node) {
            return true;
        }
    }
    false
}
