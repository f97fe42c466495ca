//! What stands between parts: white space, commas, semicolons and `r#`.
ghost use Rattle.std.specs.Prelude.{◌≡◌, ◌==◌, option_map, length};
ghost use Rattle.ra_ap_syntax.specs.ExprCases.{expr_node};
ghost use Rattle.ra_ap_syntax.specs.StmtCases.{stmt_node};
ghost use Rattle.syntax_make.specs.Forms.{bit_of};
ghost use Rattle.rust_make.specs.Makes.{text_if, has_newline, space, block_space, ends_itself, arm_space, lacks_comma, is_bare, is_one_name, pat_bit, part_unless};

use ra_ap_syntax::ast::{self, AstNode};
use ra_ap_syntax::{SyntaxKind, SyntaxNode};
use ras_node::support;
use syntax_make::Piece;

/// The text, if it is wanted; otherwise none.
pub(crate) fn text_if(wanted: bool, text: &'static str) -> &'static str
    ensures { result.now ≡ text_if wanted text.now }
{
    if wanted { text } else { "" }
}

// Whether a node has a newline.
fn has_newline(node: &SyntaxNode) -> bool
    ensures { result ≡ has_newline node.now }
{
    node.as_str().as_bytes().contains(&b'\n')
}

fn space(is_newline: bool) -> &'static str
    ensures { result.now ≡ space is_newline }
{
    if is_newline { "\n" } else { " " }
}

/// What stands before a block behind a node: a newline if the node has one, and else a blank.
pub(crate) fn block_space(behind: &SyntaxNode) -> &'static str
    ensures { result.now ≡ block_space behind.now }
{
    space(has_newline(behind))
}

/// Whether an expression ends in a block, so that no `,` or `;` need follow it.
pub(crate) fn ends_itself(expr: &ast::Expr) -> bool
    ensures { result ≡ ends_itself (expr_node expr.now) }
{
    expr.is_block_like()
}

/// What stands before the body of an arm: a newline if the body is a block behind a guard that has
/// one, and else a blank.
pub(crate) fn arm_space(guard: Option<&ast::MatchGuard>, body: &ast::Expr) -> &'static str
    ensures { result.now ≡ arm_space
        (option_map (λ it. ⟦<ast::MatchGuard as AstNode>⟧.node it.now) guard.entry)
        (expr_node body.now) }
{
    match guard {
        None => " ",
        Some(guard) => space(ends_itself(body) && has_newline(guard.syntax())),
    }
}

/// Whether an arm has no comma and needs one, since its body does not end in a block.
pub(crate) fn lacks_comma(arm: &ast::MatchArm) -> bool
    ensures { result ≡ lacks_comma (⟦<ast::MatchArm as AstNode>⟧.node arm.now) }
{
    if arm.comma_token().is_some() {
        return false;
    }
    match arm.expr() {
        None => true,
        Some(body) => !ends_itself(&body),
    }
}

/// Whether a statement is an expression without a `;`.
pub(crate) fn is_bare(stmt: &ast::Stmt) -> bool
    ensures { result ≡ is_bare (stmt_node stmt.now) }
{
    let node = stmt.syntax();
    support::is_of_kind(node, SyntaxKind::EXPR_STMT)
        && support::token(node, SyntaxKind::SEMICOLON).is_none()
}

// Whether the text of a path is one name.
fn is_one_name(path: &SyntaxNode) -> bool
    ensures { result ≡ is_one_name path.now }
{
    match path.first_token() {
        None => false,
        Some(token) => support::is_token_of_kind(&token, SyntaxKind::IDENT)
            && token.text() == path.as_str(),
    }
}

/// A path as a pattern: by its text if that is one name, and otherwise as a part.
pub(crate) fn pat_piece<'p>(path: &'p SyntaxNode) -> Piece<'p>
    ensures { bit_of result ≡ pat_bit path.now }
{
    if is_one_name(path) {
        Piece::Text(path.as_str())
    } else {
        Piece::Part(path)
    }
}

/// A node by its children, if it becomes another one where it is put; otherwise as a part.
pub(crate) fn part_unless<'p>(changes: bool, node: &'p SyntaxNode) -> Piece<'p>
    ensures { bit_of result ≡ part_unless changes node.now }
{
    if changes {
        Piece::Children(node)
    } else {
        Piece::Part(node)
    }
}
