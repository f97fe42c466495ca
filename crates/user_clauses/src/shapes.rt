//! A call of each shape. Its contract is proved from the clause of the called method, and states
//! the result by a definition that a wrong call does not satisfy.
ghost use Rattle.std.specs.Prelude.{◌≡◌, IfSome, is_some};
ghost use Rattle.ra_ap_syntax.specs.Nodes.{kind_at, token_child, typed_children};
ghost use Rattle.ra_ap_syntax.specs.Lookups.{IsFirstChild, IsViewOf, loop_body, second_typed_child, typed_children_in};

use ra_ap_syntax::ast::{self, AstChildren, HasLoopBody, Statements};
use ra_ap_syntax::{AstNode, SyntaxKind, SyntaxNode, SyntaxToken};

/// The first child of a type: the `x` of `x[i]`.
pub fn base_of(it: &ast::IndexExpr) -> Option<ast::Expr>
    ensures { IsFirstChild ⟦<ast::Expr as AstNode>⟧ (⟦<ast::IndexExpr as AstNode>⟧.node it.now)
        result }
{
    it.base()
}

/// The second child of a type: the `i` of `x[i]`.
pub fn place_of(it: &ast::IndexExpr) -> Option<ast::Expr>
    ensures { IsViewOf ⟦<ast::Expr as AstNode>⟧
        (second_typed_child ⟦<ast::Expr as AstNode>⟧.casts
        (⟦<ast::IndexExpr as AstNode>⟧.node it.now)) result }
{
    it.index()
}

/// The first token of a kind.
pub fn async_of(it: &ast::BlockExpr) -> Option<SyntaxToken>
    ensures { result ≡ token_child SyntaxKind.ASYNC_KW (⟦<ast::BlockExpr as AstNode>⟧.node it.now) }
{
    it.async_token()
}

/// All children of a type.
pub fn parts_of(it: &ast::SlicePat) -> AstChildren<ast::Pat>
    ensures { result
        ≡ typed_children ⟦<ast::Pat as AstNode>⟧.casts (⟦<ast::SlicePat as AstNode>⟧.node it.now) }
{
    it.pats()
}

/// A child by the kind of the node.
pub fn body_of(it: &ast::ForExpr) -> Option<ast::BlockExpr>
    ensures { IsViewOf ⟦<ast::BlockExpr as AstNode>⟧
        (loop_body ⟦<ast::BlockExpr as AstNode>⟧.casts (⟦<ast::ForExpr as AstNode>⟧.node it.now))
        result }
{
    it.loop_body()
}

/// An enum of views, of another enum's too.
pub fn statement_at(node: SyntaxNode) -> Option<ast::Stmt>
    ensures exact { is_some result ≡ ⟦<ast::Stmt as AstNode>⟧.casts (kind_at node) }
    ensures same { IfSome result (λ it. ⟦<ast::Stmt as AstNode>⟧.node it ≡ node) }
{
    ast::Stmt::cast(node)
}

/// An iterator.
pub fn statements_of(it: &ast::BlockExpr) -> Statements
    ensures { result
        ≡ typed_children_in ⟦<ast::StmtList as AstNode>⟧.casts ⟦<ast::Stmt as AstNode>⟧.casts
        (⟦<ast::BlockExpr as AstNode>⟧.node it.now) }
{
    it.statements()
}
