//! Tests of typed trees that name `ra_ap_syntax` alone, in code and in clauses.
#![tactic(auto)]

ghost use Rattle.std.specs.Prelude.{◌≡◌, ◌↔◌, IfSome, IsTrue, is_some, option_map};
ghost use Rattle.std.specs.List.{find};
ghost use Rattle.ra_ap_syntax.specs.Tree.{text};
ghost use Rattle.ra_ap_syntax.specs.Cursor.{focus};
ghost use Rattle.ra_ap_syntax.specs.Nodes.{kind_at, has_kind_in};
ghost use Rattle.ra_ap_syntax.specs.Lookups.{IsFirstChild};
ghost use Rattle.ra_ap_syntax.specs.Algo.{ancestors_at};

use ra_ap_syntax::ast::{self, HasName};
use ra_ap_syntax::{AstNode, SyntaxNode, SyntaxToken, TextSize, algo};

pub mod shapes;
#[cfg(test)]
mod tests;

/// The name of a function.
pub fn name_of_fn(it: &ast::Fn) -> Option<ast::Name>
    ensures { IsFirstChild ⟦<ast::Name as AstNode>⟧ (⟦<ast::Fn as AstNode>⟧.node it.now) result }
{
    it.name()
}

/// The view of a node as a call.
pub fn call_at(node: SyntaxNode) -> Option<ast::CallExpr>
    ensures exact { is_some result ≡ ⟦<ast::CallExpr as AstNode>⟧.casts (kind_at node) }
    ensures same { IfSome result (λ it. ⟦<ast::CallExpr as AstNode>⟧.node it ≡ node) }
{
    ast::CallExpr::cast(node)
}

/// Whether a node is a literal.
pub fn is_literal_node(node: &SyntaxNode) -> bool
    ensures { result ≡ ⟦<ast::Literal as AstNode>⟧.casts (kind_at node.now) }
{
    ast::Literal::can_cast(node.kind())
}

/// The shortest operator expression around an offset.
pub fn operator_at(root: &SyntaxNode, offset: TextSize) -> Option<ast::BinExpr>
    ensures { option_map ⟦<ast::BinExpr as AstNode>⟧.node result
        ≡ find (has_kind_in ⟦<ast::BinExpr as AstNode>⟧.casts) (ancestors_at root.now offset) }
{
    algo::find_node_at_offset::<ast::BinExpr>(root, offset)
}

/// Whether the text of a token is this word.
pub fn is_written(token: &SyntaxToken, word: &str) -> bool
    ensures { IsTrue result ↔ (text (focus token.now) ≡ word.now) }
{
    *token.text() == *word
}
