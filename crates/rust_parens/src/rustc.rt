//! Pairs that rustc needs, although rust-analyzer's parser reads the same tree without them.
ghost use Rattle.std.specs.Prelude.{◌≡◌};
ghost use Rattle.tree_model.specs.Cursor.{ancestors_of};
ghost use Rattle.rust_parens.specs.Rustc.{holds_statement, is_in_statement, is_statement_macro, is_full_range, is_block, is_without_block, token_after, is_pair_at, is_pair_end, is_end, is_open_closure, is_else, is_lazy_token, is_lazy, is_closing_brace, is_plain_value, is_before_else, token_before, is_with_block, is_plain_start, is_plain_block, is_statement, is_expression_statement, is_macro_statement, is_item, is_ended, is_ended_at, body_of, ends_statement, is_open_brace, is_after_brace, begins_with_word, is_word_token, is_before_word, is_before_label, assigns, is_assigned_range, is_read_otherwise, is_needed_by_rustc};

use crate::place::is_assignment;
use crate::text::is_word;
use lossless_tree::{NodeOrToken, SyntaxKind, SyntaxNode, SyntaxToken};
use ras_algo::algo::{next_non_trivia_token, previous_non_trivia_token};
use ras_node::sets::BinaryOperators;
use ras_node::support::{is_of_kind, is_token_of_kind, share};
use ras_prec_walks::parts::first_expr;

fn holds_statement(node: &SyntaxNode) -> bool
    ensures { result ≡ holds_statement node.now }
{
    is_of_kind(node, SyntaxKind::EXPR_STMT) || is_of_kind(node, SyntaxKind::STMT_LIST)
}

// Whether a pair, or the outermost of those directly around it, is a statement or ends a block.
fn is_in_statement(pair: &SyntaxNode) -> bool
    ensures { result ≡ is_in_statement (ancestors_of pair.now) }
{
    let mut around = pair.ancestors();
    while let Some(node) = around.next() {
        if !is_of_kind(&node, SyntaxKind::PAREN_EXPR) {
            return holds_statement(&node);
        }
    }
    false
}

// `(m! {});` is an expression; `m! {}` as a statement or at the end of a block is the statements
// that it expands to. Of pairs around the call the innermost stays there, since the others may go.
fn is_statement_macro(inside: &SyntaxNode, pair: &SyntaxNode) -> bool
    ensures { result ≡ is_statement_macro inside.now pair.now }
{
    is_of_kind(inside, SyntaxKind::MACRO_EXPR) && is_in_statement(pair)
}

// `(..) = t` is a range, and `.. = t` leaves out what it does not name.
fn is_full_range(inside: &SyntaxNode) -> bool
    ensures { result ≡ is_full_range inside.now }
{
    is_of_kind(inside, SyntaxKind::RANGE_EXPR) && first_expr(inside).is_none()
}

fn is_block(body: Option<SyntaxNode>) -> bool
    ensures { result ≡ is_block body }
{
    match body {
        None => false,
        Some(body) => is_of_kind(&body, SyntaxKind::BLOCK_EXPR),
    }
}

fn is_without_block(inside: &SyntaxNode) -> bool
    ensures { result ≡ is_without_block inside.now }
{
    is_of_kind(inside, SyntaxKind::CLOSURE_EXPR) && !is_block(first_expr(inside))
}

// The token after a pair that is neither white space nor a comment.
fn token_after(pair: &SyntaxNode) -> Option<SyntaxToken>
    ensures { result ≡ token_after pair.now }
{
    next_non_trivia_token(NodeOrToken::Node(share(pair)))
}

pub(crate) fn is_pair_at(node: Option<SyntaxNode>) -> bool
    ensures { result ≡ is_pair_at node }
{
    match node {
        None => false,
        Some(node) => is_of_kind(&node, SyntaxKind::PAREN_EXPR),
    }
}

// The `)` of a pair, which may go too.
fn is_pair_end(token: Option<SyntaxToken>) -> bool
    ensures { result ≡ is_pair_end token }
{
    match token {
        None => false,
        Some(token) => {
            is_token_of_kind(&token, SyntaxKind::R_PAREN) && is_pair_at(token.parent())
        }
    }
}

// A comma, a semicolon or a closing bracket, but for that of a pair, which may go too.
fn is_end(token: Option<SyntaxToken>) -> bool
    ensures { result ≡ is_end token }
{
    match token {
        None => false,
        Some(token) => {
            is_token_of_kind(&token, SyntaxKind::COMMA)
                || is_token_of_kind(&token, SyntaxKind::SEMICOLON)
                || is_token_of_kind(&token, SyntaxKind::R_BRACK)
                || is_token_of_kind(&token, SyntaxKind::R_CURLY)
                || (is_token_of_kind(&token, SyntaxKind::R_PAREN) && !is_pair_at(token.parent()))
        }
    }
}

// In `match (|| S {}) {`, rustc ends the closure before `{` if there are no parentheses.
fn is_open_closure(inside: &SyntaxNode, pair: &SyntaxNode) -> bool
    ensures { result ≡ is_open_closure inside.now pair.now }
{
    is_without_block(inside) && !is_end(token_after(pair))
}

fn is_else(token: Option<SyntaxToken>) -> bool
    ensures { result ≡ is_else token }
{
    match token {
        None => false,
        Some(token) => is_token_of_kind(&token, SyntaxKind::ELSE_KW),
    }
}

fn is_lazy_token(token: Option<SyntaxToken>) -> bool
    ensures { result ≡ is_lazy_token token }
{
    match token {
        None => false,
        Some(token) => {
            is_token_of_kind(&token, SyntaxKind::AMP2)
                || is_token_of_kind(&token, SyntaxKind::PIPE2)
        }
    }
}

fn is_lazy(node: &SyntaxNode) -> bool
    ensures { result ≡ is_lazy node.now }
{
    is_of_kind(node, SyntaxKind::BIN_EXPR)
        && is_lazy_token(ras_node::first_token::<BinaryOperators>(node.children_with_tokens()))
}

fn is_closing_brace(token: Option<SyntaxToken>) -> bool
    ensures { result ≡ is_closing_brace token }
{
    match token {
        None => false,
        Some(token) => is_token_of_kind(&token, SyntaxKind::R_CURLY),
    }
}

// `let x = (a + b) else {`: what may precede the `else` as the whole value. Of pairs in pairs the
// outermost stays.
fn is_plain_value(inside: &SyntaxNode) -> bool
    ensures { result ≡ is_plain_value inside.now }
{
    !(is_of_kind(inside, SyntaxKind::PAREN_EXPR)
        || is_lazy(inside)
        || is_closing_brace(inside.last_token()))
}

// `let x = &(S {}) else {`: rustc allows few expressions before `else`.
fn is_before_else(inside: &SyntaxNode, parent: &SyntaxNode, pair: &SyntaxNode) -> bool
    ensures { result ≡ is_before_else inside.now parent.now pair.now }
{
    is_else(token_after(pair))
        && !(is_of_kind(parent, SyntaxKind::LET_STMT) && is_plain_value(inside))
}

// The token before a pair that is neither white space nor a comment.
fn token_before(pair: &SyntaxNode) -> Option<SyntaxToken>
    ensures { result ≡ token_before pair.now }
{
    previous_non_trivia_token(NodeOrToken::Node(share(pair)))
}

// As a statement, one of these needs no `;`: rustc too ends it at its `}`.
fn is_with_block(node: &SyntaxNode) -> bool
    ensures { result ≡ is_with_block node.now }
{
    is_of_kind(node, SyntaxKind::IF_EXPR)
        || is_of_kind(node, SyntaxKind::MATCH_EXPR)
        || is_of_kind(node, SyntaxKind::FOR_EXPR)
        || is_of_kind(node, SyntaxKind::WHILE_EXPR)
        || is_of_kind(node, SyntaxKind::LOOP_EXPR)
}

fn is_plain_start(first: Option<SyntaxToken>) -> bool
    ensures { result ≡ is_plain_start first }
{
    match first {
        None => false,
        Some(token) => {
            is_token_of_kind(&token, SyntaxKind::L_CURLY)
                || is_token_of_kind(&token, SyntaxKind::UNSAFE_KW)
        }
    }
}

// `{}` or `unsafe {}`: neither `async {}` nor `'a: {}`.
fn is_plain_block(node: &SyntaxNode) -> bool
    ensures { result ≡ is_plain_block node.now }
{
    is_of_kind(node, SyntaxKind::BLOCK_EXPR) && is_plain_start(node.first_token())
}

// What is around a block: a statement, or an `if`.
fn is_statement(above: Option<SyntaxNode>) -> bool
    ensures { result ≡ is_statement above }
{
    match above {
        None => false,
        Some(above) => is_of_kind(&above, SyntaxKind::EXPR_STMT)
            || is_of_kind(&above, SyntaxKind::IF_EXPR),
    }
}

fn is_expression_statement(above: Option<SyntaxNode>) -> bool
    ensures { result ≡ is_expression_statement above }
{
    match above {
        None => false,
        Some(above) => is_of_kind(&above, SyntaxKind::EXPR_STMT),
    }
}

// `m! {}` as a statement, of which nothing goes on for rustc either.
fn is_macro_statement(node: &SyntaxNode) -> bool
    ensures { result ≡ is_macro_statement node.now }
{
    is_of_kind(node, SyntaxKind::MACRO_EXPR) && is_expression_statement(node.parent())
}

// Whether nodes of the kind are items that may end with `}`.
fn is_item(kind: SyntaxKind) -> bool
    ensures { result ≡ is_item kind }
{
    matches!(
        kind,
        SyntaxKind::FN
            | SyntaxKind::STRUCT
            | SyntaxKind::ENUM
            | SyntaxKind::UNION
            | SyntaxKind::TRAIT
            | SyntaxKind::IMPL
            | SyntaxKind::MODULE
            | SyntaxKind::EXTERN_BLOCK
            | SyntaxKind::MACRO_RULES
            | SyntaxKind::MACRO_DEF
    )
}

fn is_ended(node: &SyntaxNode) -> bool
    ensures { result ≡ is_ended node.now }
{
    ((is_with_block(node) || is_plain_block(node)) && is_statement(node.parent()))
        || is_macro_statement(node)
        || is_item(node.kind())
}

fn is_ended_at(node: Option<SyntaxNode>) -> bool
    ensures { result ≡ is_ended_at node }
{
    match node {
        None => false,
        Some(node) => is_ended(&node),
    }
}

// The block, the `match`, the item or the call that a `}` is the end of.
fn body_of(brace: &SyntaxToken) -> Option<SyntaxNode>
    ensures { result ≡ body_of brace.now }
{
    let list = brace.parent()?;
    list.parent()
}

// `for a in b {} (c)` are two expressions to rustc too, and `fn f() {} (c)` an item and one.
fn ends_statement(body: Option<SyntaxNode>) -> bool
    ensures { result ≡ ends_statement body }
{
    match body {
        None => false,
        Some(body) => is_ended(&body) || is_ended_at(body.parent()),
    }
}

fn is_open_brace(token: Option<SyntaxToken>) -> bool
    ensures { result ≡ is_open_brace token }
{
    match token {
        None => false,
        Some(token) => {
            is_token_of_kind(&token, SyntaxKind::R_CURLY) && !ends_statement(body_of(&token))
        }
    }
}

// `async {} (a)` is a call to rustc, and two expressions to rust-analyzer.
fn is_after_brace(pair: &SyntaxNode) -> bool
    ensures { result ≡ is_after_brace pair.now }
{
    is_open_brace(token_before(pair))
}

fn begins_with_word(first: Option<u8>) -> bool
    ensures { result ≡ begins_with_word first }
{
    match first {
        None => false,
        Some(byte) => is_word(byte),
    }
}

fn is_word_token(token: Option<SyntaxToken>) -> bool
    ensures { result ≡ is_word_token token }
{
    match token {
        None => false,
        Some(token) => begins_with_word(token.text().as_bytes().first().copied()),
    }
}

fn is_before_word(pair: &SyntaxNode) -> bool
    ensures { result ≡ is_before_word pair.now }
{
    is_word_token(token_after(pair)) || is_pair_end(token_after(pair))
}

// In `(continue) as u8`, rustc reads `as` as a label if there are no parentheses, and so it does in
// `(-(continue)) as u8` if there is neither pair. Of pairs in pairs the innermost stays.
fn is_before_label(inside: &SyntaxNode, parent: &SyntaxNode, pair: &SyntaxNode) -> bool
    ensures { result ≡ is_before_label inside.now parent.now pair.now }
{
    is_of_kind(inside, SyntaxKind::CONTINUE_EXPR)
        && (is_of_kind(parent, SyntaxKind::PAREN_EXPR) || is_before_word(pair))
}

fn assigns(token: Option<SyntaxToken>) -> bool
    ensures { result ≡ assigns token }
{
    match token {
        None => false,
        Some(token) => is_assignment(Some(token.kind())),
    }
}

// `(a..b) += c` is for rustc an assignment to a pair, and `a..b += c` an error, also with `=`. Of
// pairs in pairs the innermost stays.
fn is_assigned_range(inside: &SyntaxNode, parent: &SyntaxNode, pair: &SyntaxNode) -> bool
    ensures { result ≡ is_assigned_range inside.now parent.now pair.now }
{
    is_of_kind(inside, SyntaxKind::RANGE_EXPR)
        && (is_of_kind(parent, SyntaxKind::PAREN_EXPR) || assigns(token_after(pair)))
}

fn is_read_otherwise(inside: &SyntaxNode, parent: &SyntaxNode, pair: &SyntaxNode) -> bool
    ensures { result ≡ is_read_otherwise inside.now parent.now pair.now }
{
    is_of_kind(inside, SyntaxKind::UNDERSCORE_EXPR)
        || is_full_range(inside)
        || is_statement_macro(inside, pair)
        || is_open_closure(inside, pair)
        || is_before_label(inside, parent, pair)
        || is_assigned_range(inside, parent, pair)
}

/// Whether the contents of a pair are of a kind that rustc may read otherwise without the pair,
/// although rust-analyzer's parser reads the same tree: a macro call as a statement or at the end
/// of a block, `continue` before a word or the end of another pair, `_`, a range without ends, a
/// range to which something is assigned, a closure whose body is not a block (unless a comma, a
/// bracket that is not a pair's, or a semicolon follows the pair), everything before an `else` but
/// a whole value that is neither `&&` nor `||` nor ends with `}`, and everything after a `}` that
/// does not end a statement for rustc, as that of `async {}`: it does at the end of a block, an
/// `unsafe` block, an `if`, a `match`, a loop, an item or a macro call. Some of these pairs can be
/// removed all the same.
pub fn is_needed_by_rustc(inside: &SyntaxNode, parent: &SyntaxNode, pair: &SyntaxNode) -> bool
    ensures { result ≡ is_needed_by_rustc inside.now parent.now pair.now }
{
    is_read_otherwise(inside, parent, pair)
        || is_before_else(inside, parent, pair)
        || is_after_brace(pair)
}
