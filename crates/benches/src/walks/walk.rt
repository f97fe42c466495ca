//! The trees that are walked, and the node that is tested in each.

use crate::stopped::Stopped;
use ra_ap_syntax::{SyntaxKind, SyntaxNode, SyntaxTreeBuilder};
use std::alloc::{AllocError, Global};

#[derive(Clone, Copy)]
pub enum Walk {
    WideCondition,
    DeepCondition,
    OperandOfCondition,
    PrefixesOfCondition,
    SumBelowAnd,
    WideBelowAnd,
    OperandOfStatement,
    InitializerBeforeElse,
    WideCast,
}

fn name(builder: &mut SyntaxTreeBuilder) -> Result<(), AllocError> {
    builder.start_node(SyntaxKind::PATH_EXPR)?;
    builder.start_node(SyntaxKind::PATH)?;
    builder.start_node(SyntaxKind::PATH_SEGMENT)?;
    builder.start_node(SyntaxKind::NAME_REF)?;
    builder.token(SyntaxKind::IDENT, "a")?;
    for _node in 0..4 {
        builder.finish_node()?;
    }
    Ok(())
}

fn block(builder: &mut SyntaxTreeBuilder) -> Result<(), AllocError> {
    builder.start_node(SyntaxKind::BLOCK_EXPR)?;
    builder.start_node(SyntaxKind::STMT_LIST)?;
    builder.token(SyntaxKind::L_CURLY, "{")?;
    builder.token(SyntaxKind::R_CURLY, "}")?;
    builder.finish_node()?;
    builder.finish_node()
}

// `a + a`, with this many empty errors before the operator.
fn wide(
    builder: &mut SyntaxTreeBuilder,
    kind: SyntaxKind,
    errors: u32,
    sign: SyntaxKind,
    text: &str,
) -> Result<(), AllocError> {
    builder.start_node(kind)?;
    name(builder)?;
    for _error in 0..errors {
        builder.start_node(SyntaxKind::ERROR)?;
        builder.finish_node()?;
    }
    builder.token(sign, text)?;
    name(builder)?;
    builder.finish_node()
}

// `a + a + ..`, this many nested sums.
fn sums(builder: &mut SyntaxTreeBuilder, depth: u32) -> Result<(), AllocError> {
    for _sum in 0..depth {
        builder.start_node(SyntaxKind::BIN_EXPR)?;
    }
    name(builder)?;
    for _sum in 0..depth {
        builder.token(SyntaxKind::PLUS, "+")?;
        name(builder)?;
        builder.finish_node()?;
    }
    Ok(())
}

fn prefixes(builder: &mut SyntaxTreeBuilder, depth: u32) -> Result<(), AllocError> {
    for _sign in 0..depth {
        builder.start_node(SyntaxKind::PREFIX_EXPR)?;
        builder.token(SyntaxKind::MINUS, "-")?;
    }
    name(builder)?;
    for _sign in 0..depth {
        builder.finish_node()?;
    }
    Ok(())
}

impl Walk {
    /// Its name in the table.
    pub fn name(self) -> &'static str {
        match self {
            Walk::WideCondition => "the condition of an `if`, with errors before its operator",
            Walk::DeepCondition => "the condition of an `if`, sums in sums",
            Walk::OperandOfCondition => "the innermost operand of the same",
            Walk::PrefixesOfCondition => "the condition of an `if`, prefixes in prefixes",
            Walk::SumBelowAnd => "the left side of `&&`, sums in sums",
            Walk::WideBelowAnd => "the left side of `&&`, with errors before its operator",
            Walk::OperandOfStatement => "the innermost operand of a statement, sums in sums",
            Walk::InitializerBeforeElse => "the initializer of a `let` with `else`, sums in sums",
            Walk::WideCast => "a cast before `<`, with errors before its `as`",
        }
    }

    /// A tree with this many elements to walk over.
    pub fn tree(self, alloc: Global, size: u32) -> Result<SyntaxNode, Stopped> {
        let mut builder = SyntaxTreeBuilder::new(alloc);
        match self {
            Walk::WideCondition => {
                builder.start_node(SyntaxKind::IF_EXPR)?;
                builder.token(SyntaxKind::IF_KW, "if")?;
                wide(
                    &mut builder,
                    SyntaxKind::BIN_EXPR,
                    size,
                    SyntaxKind::PLUS,
                    "+",
                )?;
                block(&mut builder)?;
            }
            Walk::DeepCondition | Walk::OperandOfCondition => {
                builder.start_node(SyntaxKind::IF_EXPR)?;
                builder.token(SyntaxKind::IF_KW, "if")?;
                sums(&mut builder, size)?;
                block(&mut builder)?;
            }
            Walk::PrefixesOfCondition => {
                builder.start_node(SyntaxKind::IF_EXPR)?;
                builder.token(SyntaxKind::IF_KW, "if")?;
                prefixes(&mut builder, size)?;
                block(&mut builder)?;
            }
            Walk::SumBelowAnd => {
                builder.start_node(SyntaxKind::BIN_EXPR)?;
                sums(&mut builder, size)?;
                builder.token(SyntaxKind::AMP2, "&&")?;
                name(&mut builder)?;
            }
            Walk::WideBelowAnd => {
                builder.start_node(SyntaxKind::BIN_EXPR)?;
                wide(
                    &mut builder,
                    SyntaxKind::BIN_EXPR,
                    size,
                    SyntaxKind::PLUS,
                    "+",
                )?;
                builder.token(SyntaxKind::AMP2, "&&")?;
                name(&mut builder)?;
            }
            Walk::OperandOfStatement => {
                builder.start_node(SyntaxKind::EXPR_STMT)?;
                sums(&mut builder, size)?;
                builder.token(SyntaxKind::SEMICOLON, ";")?;
            }
            Walk::InitializerBeforeElse => {
                builder.start_node(SyntaxKind::LET_STMT)?;
                builder.token(SyntaxKind::LET_KW, "let")?;
                builder.start_node(SyntaxKind::WILDCARD_PAT)?;
                builder.token(SyntaxKind::UNDERSCORE, "_")?;
                builder.finish_node()?;
                builder.token(SyntaxKind::EQ, "=")?;
                sums(&mut builder, size)?;
                builder.start_node(SyntaxKind::LET_ELSE)?;
                builder.token(SyntaxKind::ELSE_KW, "else")?;
                block(&mut builder)?;
                builder.finish_node()?;
            }
            Walk::WideCast => {
                builder.start_node(SyntaxKind::BIN_EXPR)?;
                wide(
                    &mut builder,
                    SyntaxKind::CAST_EXPR,
                    size,
                    SyntaxKind::AS_KW,
                    "as",
                )?;
                builder.token(SyntaxKind::L_ANGLE, "<")?;
                name(&mut builder)?;
            }
        }
        builder.finish_node()?;
        Ok(builder.finish()?.syntax_node())
    }

    /// The node that is tested.
    pub fn place(self, root: &SyntaxNode) -> Option<SyntaxNode> {
        let first = root
            .children()
            .find(|node| node.kind() != SyntaxKind::WILDCARD_PAT)?;
        match self {
            Walk::OperandOfCondition | Walk::OperandOfStatement => root
                .descendants()
                .find(|node| node.kind() == SyntaxKind::PATH_EXPR),
            _ => Some(first),
        }
    }
}
