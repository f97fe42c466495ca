//! Lookups in expressions of control flow. Made by `tools/views` from `views.txt`.
//! Each call takes time linear in the number of children that it passes, and no memory.
//! The names are those of rust-analyzer.
ghost use Rattle.std.specs.Prelude.{◌≡◌};
ghost use Rattle.ras_node.specs.Nodes.{token_child};
ghost use Rattle.ra_ap_syntax.specs.ExprCases.{IsFirstExpr};
ghost use Rattle.ra_ap_syntax.specs.PatCases.{IsFirstPat};
ghost use Rattle.ra_ap_syntax.specs.PathViews.{IsFirstLifetime};
ghost use Rattle.ra_ap_syntax.specs.StmtViews.{IsFirstLabel, IsFirstMatchArmList, IsFirstStmtList, IsFirstTryBlockModifier};

use crate::ast::{self, support};
use lossless_tree::{SyntaxKind, SyntaxToken, T};

impl ast::BecomeExpr {
    /// The first child that is an expression, if there is one.
    /// Example: `f(a)` of `become f(a)`.
    pub fn expr(&self) -> Option<ast::Expr>
        ensures { IsFirstExpr self.now.syntax result }
    {
        support::child(&self.syntax)
    }

    /// The first token `become` among the children, if there is one.
    /// Example: `become` of `become f(a)`.
    pub fn become_token(&self) -> Option<SyntaxToken>
        ensures { result ≡ token_child SyntaxKind.BECOME_KW self.now.syntax }
    {
        support::token(&self.syntax, T![become])
    }
}

impl ast::BlockExpr {
    /// The first child that is a list of statements, if there is one.
    /// Example: `{ a; b }` of `{ a; b }`.
    pub fn stmt_list(&self) -> Option<ast::StmtList>
        ensures { IsFirstStmtList self.now.syntax result }
    {
        support::child(&self.syntax)
    }

    /// The first child that is a label, if there is one.
    /// Example: `'a:` of `'a: {}`.
    pub fn label(&self) -> Option<ast::Label>
        ensures { IsFirstLabel self.now.syntax result }
    {
        support::child(&self.syntax)
    }

    /// The first child that is the modifier of a `try` block, if there is one.
    /// Example: `try bikeshed T` of `try bikeshed T {}`.
    pub fn try_block_modifier(&self) -> Option<ast::TryBlockModifier>
        ensures { IsFirstTryBlockModifier self.now.syntax result }
    {
        support::child(&self.syntax)
    }

    /// The first token `async` among the children, if there is one.
    /// Example: `async` of `async move {}`.
    pub fn async_token(&self) -> Option<SyntaxToken>
        ensures { result ≡ token_child SyntaxKind.ASYNC_KW self.now.syntax }
    {
        support::token(&self.syntax, T![async])
    }

    /// The first token `move` among the children, if there is one.
    /// Example: `move` of `async move {}`.
    pub fn move_token(&self) -> Option<SyntaxToken>
        ensures { result ≡ token_child SyntaxKind.MOVE_KW self.now.syntax }
    {
        support::token(&self.syntax, T![move])
    }

    /// The first token `const` among the children, if there is one.
    /// Example: `const` of `const {}`.
    pub fn const_token(&self) -> Option<SyntaxToken>
        ensures { result ≡ token_child SyntaxKind.CONST_KW self.now.syntax }
    {
        support::token(&self.syntax, T![const])
    }

    /// The first token `gen` among the children, if there is one.
    /// Example: `gen` of `gen {}`.
    pub fn gen_token(&self) -> Option<SyntaxToken>
        ensures { result ≡ token_child SyntaxKind.GEN_KW self.now.syntax }
    {
        support::token(&self.syntax, T![gen])
    }

    /// The first token `unsafe` among the children, if there is one.
    /// Example: `unsafe` of `unsafe {}`.
    pub fn unsafe_token(&self) -> Option<SyntaxToken>
        ensures { result ≡ token_child SyntaxKind.UNSAFE_KW self.now.syntax }
    {
        support::token(&self.syntax, T![unsafe])
    }
}

impl ast::BreakExpr {
    /// The first child that is an expression, if there is one.
    /// Example: `b` of `break 'a b`.
    pub fn expr(&self) -> Option<ast::Expr>
        ensures { IsFirstExpr self.now.syntax result }
    {
        support::child(&self.syntax)
    }

    /// The first child that is a lifetime, if there is one.
    /// Example: `'a` of `break 'a b`.
    pub fn lifetime(&self) -> Option<ast::Lifetime>
        ensures { IsFirstLifetime self.now.syntax result }
    {
        support::child(&self.syntax)
    }

    /// The first token `break` among the children, if there is one.
    /// Example: `break` of `break 'a b`.
    pub fn break_token(&self) -> Option<SyntaxToken>
        ensures { result ≡ token_child SyntaxKind.BREAK_KW self.now.syntax }
    {
        support::token(&self.syntax, T![break])
    }
}

impl ast::ContinueExpr {
    /// The first child that is a lifetime, if there is one.
    /// Example: `'a` of `continue 'a`.
    pub fn lifetime(&self) -> Option<ast::Lifetime>
        ensures { IsFirstLifetime self.now.syntax result }
    {
        support::child(&self.syntax)
    }

    /// The first token `continue` among the children, if there is one.
    /// Example: `continue` of `continue 'a`.
    pub fn continue_token(&self) -> Option<SyntaxToken>
        ensures { result ≡ token_child SyntaxKind.CONTINUE_KW self.now.syntax }
    {
        support::token(&self.syntax, T![continue])
    }
}

impl ast::ForExpr {
    /// The first child that is a pattern, if there is one.
    /// Example: `p` of `for p in a { b }`.
    pub fn pat(&self) -> Option<ast::Pat>
        ensures { IsFirstPat self.now.syntax result }
    {
        support::child(&self.syntax)
    }

    /// The first token `for` among the children, if there is one.
    /// Example: `for` of `for p in a { b }`.
    pub fn for_token(&self) -> Option<SyntaxToken>
        ensures { result ≡ token_child SyntaxKind.FOR_KW self.now.syntax }
    {
        support::token(&self.syntax, T![for])
    }

    /// The first token `in` among the children, if there is one.
    /// Example: `in` of `for p in a { b }`.
    pub fn in_token(&self) -> Option<SyntaxToken>
        ensures { result ≡ token_child SyntaxKind.IN_KW self.now.syntax }
    {
        support::token(&self.syntax, T![in])
    }
}

impl ast::IfExpr {
    /// The first token `else` among the children, if there is one.
    /// Example: `else` of `if a { b } else { c }`.
    pub fn else_token(&self) -> Option<SyntaxToken>
        ensures { result ≡ token_child SyntaxKind.ELSE_KW self.now.syntax }
    {
        support::token(&self.syntax, T![else])
    }

    /// The first token `if` among the children, if there is one.
    /// Example: `if` of `if a { b } else { c }`.
    pub fn if_token(&self) -> Option<SyntaxToken>
        ensures { result ≡ token_child SyntaxKind.IF_KW self.now.syntax }
    {
        support::token(&self.syntax, T![if])
    }
}

impl ast::LetExpr {
    /// The first child that is an expression, if there is one.
    /// Example: `a` of `let p = a`.
    pub fn expr(&self) -> Option<ast::Expr>
        ensures { IsFirstExpr self.now.syntax result }
    {
        support::child(&self.syntax)
    }

    /// The first child that is a pattern, if there is one.
    /// Example: `p` of `let p = a`.
    pub fn pat(&self) -> Option<ast::Pat>
        ensures { IsFirstPat self.now.syntax result }
    {
        support::child(&self.syntax)
    }

    /// The first token `=` among the children, if there is one.
    /// Example: `=` of `let p = a`.
    pub fn eq_token(&self) -> Option<SyntaxToken>
        ensures { result ≡ token_child SyntaxKind.EQ self.now.syntax }
    {
        support::token(&self.syntax, T![=])
    }

    /// The first token `let` among the children, if there is one.
    /// Example: `let` of `let p = a`.
    pub fn let_token(&self) -> Option<SyntaxToken>
        ensures { result ≡ token_child SyntaxKind.LET_KW self.now.syntax }
    {
        support::token(&self.syntax, T![let])
    }
}

impl ast::LoopExpr {
    /// The first token `loop` among the children, if there is one.
    /// Example: `loop` of `loop {}`.
    pub fn loop_token(&self) -> Option<SyntaxToken>
        ensures { result ≡ token_child SyntaxKind.LOOP_KW self.now.syntax }
    {
        support::token(&self.syntax, T![loop])
    }
}

impl ast::MatchExpr {
    /// The first child that is an expression, if there is one.
    /// Example: `a` of `match a { p => b }`.
    pub fn expr(&self) -> Option<ast::Expr>
        ensures { IsFirstExpr self.now.syntax result }
    {
        support::child(&self.syntax)
    }

    /// The first child that is a list of match arms, if there is one.
    /// Example: `{ p => b }` of `match a { p => b }`.
    pub fn match_arm_list(&self) -> Option<ast::MatchArmList>
        ensures { IsFirstMatchArmList self.now.syntax result }
    {
        support::child(&self.syntax)
    }

    /// The first token `match` among the children, if there is one.
    /// Example: `match` of `match a { p => b }`.
    pub fn match_token(&self) -> Option<SyntaxToken>
        ensures { result ≡ token_child SyntaxKind.MATCH_KW self.now.syntax }
    {
        support::token(&self.syntax, T![match])
    }
}

impl ast::ReturnExpr {
    /// The first child that is an expression, if there is one.
    /// Example: `a` of `return a`.
    pub fn expr(&self) -> Option<ast::Expr>
        ensures { IsFirstExpr self.now.syntax result }
    {
        support::child(&self.syntax)
    }

    /// The first token `return` among the children, if there is one.
    /// Example: `return` of `return a`.
    pub fn return_token(&self) -> Option<SyntaxToken>
        ensures { result ≡ token_child SyntaxKind.RETURN_KW self.now.syntax }
    {
        support::token(&self.syntax, T![return])
    }
}

impl ast::WhileExpr {
    /// The first token `while` among the children, if there is one.
    /// Example: `while` of `while a {}`.
    pub fn while_token(&self) -> Option<SyntaxToken>
        ensures { result ≡ token_child SyntaxKind.WHILE_KW self.now.syntax }
    {
        support::token(&self.syntax, T![while])
    }
}

impl ast::YeetExpr {
    /// The first child that is an expression, if there is one.
    /// Example: `a` of `do yeet a`.
    pub fn expr(&self) -> Option<ast::Expr>
        ensures { IsFirstExpr self.now.syntax result }
    {
        support::child(&self.syntax)
    }

    /// The first token `do` among the children, if there is one.
    /// Example: `do` of `do yeet a`.
    pub fn do_token(&self) -> Option<SyntaxToken>
        ensures { result ≡ token_child SyntaxKind.DO_KW self.now.syntax }
    {
        support::token(&self.syntax, T![do])
    }

    /// The first token `yeet` among the children, if there is one.
    /// Example: `yeet` of `do yeet a`.
    pub fn yeet_token(&self) -> Option<SyntaxToken>
        ensures { result ≡ token_child SyntaxKind.YEET_KW self.now.syntax }
    {
        support::token(&self.syntax, T![yeet])
    }
}

impl ast::YieldExpr {
    /// The first child that is an expression, if there is one.
    /// Example: `a` of `yield a`.
    pub fn expr(&self) -> Option<ast::Expr>
        ensures { IsFirstExpr self.now.syntax result }
    {
        support::child(&self.syntax)
    }

    /// The first token `yield` among the children, if there is one.
    /// Example: `yield` of `yield a`.
    pub fn yield_token(&self) -> Option<SyntaxToken>
        ensures { result ≡ token_child SyntaxKind.YIELD_KW self.now.syntax }
    {
        support::token(&self.syntax, T![yield])
    }
}
