//! Parentheses around an expression of one tree in the place of an operand of another.
use crate::rows::all_hold;
use plain_trees::PlainTree;
use ra_ap_syntax::ast::{self, AstNode};
use std::test::Fail;

fn expr(rt: &HostRuntime, words: &'static str) -> Result<ast::Expr, Fail> {
    let root = PlainTree::read(rt.alloc(), words)?.build(rt.alloc())?;
    Ok(ast::Expr::cast(root).ok_or("no expression")?)
}

const SUM: &str = "BIN_EXPR( PATH_EXPR( IDENT:a ) PLUS:+ PATH_EXPR( IDENT:b ) )";

const PRODUCT: &str = "BIN_EXPR( PATH_EXPR( IDENT:a ) STAR:* PATH_EXPR( IDENT:b ) )";

const NAME: &str = "PATH_EXPR( IDENT:a )";

// The operators are those of the expression that is put there; the side is that of the operand in
// whose place it is put.
#[test]
fn the_place_has_the_side_and_the_expression_its_operators(rt: HostRuntime) -> Result<(), Fail> {
    let (sum, product, name) = (expr(&rt, SUM)?, expr(&rt, PRODUCT)?, expr(&rt, NAME)?);
    let whole = expr(&rt, PRODUCT)?;
    let parent = whole.syntax();
    let left = parent.first_child().ok_or("no left operand")?;
    let right = parent.last_child().ok_or("no right operand")?;
    all_hold(&[
        (
            "a sum on the left of a product",
            sum.needs_parens_in_place_of(parent, &left),
        ),
        (
            "a sum on the right of a product",
            sum.needs_parens_in_place_of(parent, &right),
        ),
        (
            "no product on the left of one",
            !product.needs_parens_in_place_of(parent, &left),
        ),
        (
            "a product on the right of one",
            product.needs_parens_in_place_of(parent, &right),
        ),
        (
            "no name on the left",
            !name.needs_parens_in_place_of(parent, &left),
        ),
        (
            "no name on the right",
            !name.needs_parens_in_place_of(parent, &right),
        ),
    ])
}

// A node that is not the place's parent requires no parentheses, whichever tree it is in.
#[test]
fn another_parent_asks_for_none(rt: HostRuntime) -> Result<(), Fail> {
    let (sum, whole, elsewhere) = (expr(&rt, SUM)?, expr(&rt, PRODUCT)?, expr(&rt, SUM)?);
    let place = whole.syntax().first_child().ok_or("no operand")?;
    all_hold(&[(
        "no pair below another tree's node",
        !sum.needs_parens_in_place_of(elsewhere.syntax(), &place),
    )])
}
