//! The modifiers of blocks, and standalone blocks.
ghost use Rattle.std.specs.Prelude.{◌≡◌, option_map, true};
ghost use Rattle.std.specs.Option.{option_map_or};
ghost use Rattle.tree_model.specs.Equality.{is_same_cursor};
ghost use Rattle.ras_node.specs.Nodes.{kind_at, typed_child};
ghost use Rattle.ras_expr_ext.specs.ExprParts.{is_standalone, is_standalone_in};
ghost use Rattle.ras_expr_ext.specs.Modifiers.{modifier_shape, block_modifier};

use lossless_tree::{SyntaxKind, SyntaxNode, SyntaxToken};
use ras_node::{AstNode, support};

/// The modifier of a block.
#[derive(Drop)]
pub enum BlockModifier<T, L> {
    Async(SyntaxToken),
    Unsafe(SyntaxToken),
    Try {
        try_token: SyntaxToken,
        bikeshed_token: Option<SyntaxToken>,
        result_type: Option<T>,
    },
    Const(SyntaxToken),
    AsyncGen(SyntaxToken),
    Gen(SyntaxToken),
    Label(L),
}

/// The first of these that the block has: `gen` with or without `async`, `async`, `unsafe`, `try`
/// (in a child that can be viewed as an `M`), `const`, a label.
pub fn block_modifier<M: AstNode + Drop, T: AstNode + Drop, L: AstNode + Drop>(
    block: &SyntaxNode,
) -> Option<BlockModifier<T, L>>
    ensures { option_map (modifier_shape T.node L.node) result
        ≡ block_modifier M.casts T.casts L.casts block.now }
{
    if let Some(token) = support::token(block, SyntaxKind::GEN_KW) {
        return Some(if support::token(block, SyntaxKind::ASYNC_KW).is_some() {
            BlockModifier::AsyncGen(token)
        } else {
            BlockModifier::Gen(token)
        });
    }
    if let Some(token) = support::token(block, SyntaxKind::ASYNC_KW) {
        return Some(BlockModifier::Async(token));
    }
    if let Some(token) = support::token(block, SyntaxKind::UNSAFE_KW) {
        return Some(BlockModifier::Unsafe(token));
    }
    if let Some(modifier) = support::child::<M>(block) {
        let modifier = modifier.syntax();
        if let Some(try_token) = support::token(modifier, SyntaxKind::TRY_KW) {
            return Some(BlockModifier::Try {
                try_token,
                bikeshed_token: support::token(modifier, SyntaxKind::BIKESHED_KW),
                result_type: support::child(modifier),
            });
        }
    }
    if let Some(token) = support::token(block, SyntaxKind::CONST_KW) {
        return Some(BlockModifier::Const(token));
    }
    Some(BlockModifier::Label(support::child(block)?))
}

/// Whether a block is an expression of its own, and not a part of its parent as the body of a
/// function is. It is if it has no parent; if the parent is a `for` or an `if` and the block is the
/// first child that can be viewed as an `N`, or there is no such child; and if the parent is any
/// node except a `for`, `if`, `let` with `else`, function, `while`, `loop` or constant pattern.
pub fn is_standalone<N: AstNode + Drop>(block: &SyntaxNode) -> bool
    ensures { result ≡ is_standalone N.casts block.now }
{
    match block.parent() {
        Some(parent) => is_standalone_in::<N>(block, &parent),
        None => true,
    }
}

// Whether the block is the first child of the parent that can be viewed as an `N`, or there is no
// such child.
fn is_first<N: AstNode + Drop>(block: &SyntaxNode, parent: &SyntaxNode) -> bool
    ensures { result
        ≡ option_map_or (λ e. is_same_cursor e block.now) (typed_child N.casts parent.now) true }
{
    match support::child::<N>(parent) {
        Some(first) => first.syntax() == block,
        None => true,
    }
}

fn is_standalone_in<N: AstNode + Drop>(block: &SyntaxNode, parent: &SyntaxNode) -> bool
    ensures { result ≡ is_standalone_in N.casts block.now (kind_at parent.now) parent.now }
{
    match parent.kind() {
        SyntaxKind::FOR_EXPR | SyntaxKind::IF_EXPR => is_first::<N>(block, parent),
        SyntaxKind::LET_ELSE
        | SyntaxKind::FN
        | SyntaxKind::WHILE_EXPR
        | SyntaxKind::LOOP_EXPR
        | SyntaxKind::CONST_BLOCK_PAT => false,
        _ => true,
    }
}
