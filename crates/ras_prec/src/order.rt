//! The operator of an expression and its powers, also outside operator trees.
ghost use Rattle.std.specs.Prelude.{◌≡◌};
ghost use Rattle.std.specs.Option.{option_and_then};
ghost use Rattle.ras_node.specs.Nodes.{kind_at, typed_child};
ghost use Rattle.tree_model.specs.Cursor.{focus, range_start};
ghost use Rattle.tree_model.specs.Tree.{forest_of_children};
ghost use Rattle.operator_terms.specs.Powers.{pow};
ghost use Rattle.ras_prec.specs.Order.{keyword, is_param_list, closure_operator, other_operator, start_of, other_powers, powers_of, order_of, stands_before_in};

use lossless_tree::{SyntaxKind, SyntaxNode, SyntaxToken};
use operator_powers::ask::is_foreign;
use operator_powers::node::{form_powers, operator_start};
use operator_powers::powers::{Strength, stands_before};
use operator_trees::form_of;
use ras_node::sets::KindSet;
use ras_node::support;

/// The kind of the parameters of a function or closure.
pub enum ParamLists {}

impl KindSet for ParamLists {
    ghost kinds = { is_param_list };

    fn has(kind: SyntaxKind) -> bool {
        matches!(kind, SyntaxKind::PARAM_LIST)
    }
}

// The word that is the operator of a jump, a `let` or a builtin.
fn keyword(kind: SyntaxKind) -> Option<SyntaxKind>
    ensures { result ≡ keyword kind }
{
    match kind {
        SyntaxKind::BREAK_EXPR => Some(SyntaxKind::BREAK_KW),
        SyntaxKind::CONTINUE_EXPR => Some(SyntaxKind::CONTINUE_KW),
        SyntaxKind::RETURN_EXPR => Some(SyntaxKind::RETURN_KW),
        SyntaxKind::BECOME_EXPR => Some(SyntaxKind::BECOME_KW),
        SyntaxKind::YIELD_EXPR => Some(SyntaxKind::YIELD_KW),
        SyntaxKind::YEET_EXPR => Some(SyntaxKind::DO_KW),
        SyntaxKind::LET_EXPR => Some(SyntaxKind::LET_KW),
        SyntaxKind::OFFSET_OF_EXPR | SyntaxKind::FORMAT_ARGS_EXPR | SyntaxKind::ASM_EXPR => {
            Some(SyntaxKind::BUILTIN_KW)
        }
        _ => None,
    }
}

// The `(` of a closure's parameters.
fn closure_operator(node: &SyntaxNode) -> Option<SyntaxToken>
    ensures { result ≡ closure_operator (kind_at node.now) node.now }
{
    if node.kind() != SyntaxKind::CLOSURE_EXPR {
        return None;
    }
    let params = ras_node::first_node::<ParamLists>(node.children_with_tokens())?;
    support::token(&params, SyntaxKind::L_PAREN)
}

fn other_operator(node: &SyntaxNode) -> Option<SyntaxToken>
    ensures { result ≡ other_operator (keyword (kind_at node.now)) node.now }
{
    match keyword(node.kind()) {
        Some(word) => support::token(node, word),
        None => closure_operator(node),
    }
}

fn start_of(operator: Option<SyntaxToken>, node: &SyntaxNode) -> usize
    ensures { result ≡ start_of operator node.now }
{
    match operator {
        Some(token) => token.text_range().start().raw() as usize,
        None => node.trees().start().raw() as usize,
    }
}

// The powers of an expression outside operator trees.
fn other_powers(kind: SyntaxKind) -> Strength
    ensures { pow result.left result.right ≡ other_powers kind }
{
    match kind {
        SyntaxKind::MACRO_EXPR => Strength { left: 29, right: 0 },
        SyntaxKind::CLOSURE_EXPR
        | SyntaxKind::RETURN_EXPR
        | SyntaxKind::BECOME_EXPR
        | SyntaxKind::YIELD_EXPR
        | SyntaxKind::YEET_EXPR
        | SyntaxKind::BREAK_EXPR
        | SyntaxKind::OFFSET_OF_EXPR
        | SyntaxKind::FORMAT_ARGS_EXPR
        | SyntaxKind::ASM_EXPR => Strength { left: 0, right: 1 },
        SyntaxKind::LET_EXPR => Strength { left: 0, right: 27 },
        _ => Strength { left: 0, right: 0 },
    }
}

/// How strongly an expression binds on its left and on its right.
pub fn powers_of(node: &SyntaxNode) -> Strength
    ensures { pow result.left result.right ≡ powers_of node.now }
{
    let kind = node.kind();
    let form = form_of(kind);
    if is_foreign(form) {
        return other_powers(kind);
    }
    form_powers(form, &node.trees())
}

/// Where the operator of an expression starts in the whole text, in bytes; where the expression
/// does, if it has none.
pub fn order_of(node: &SyntaxNode) -> usize
    ensures { result ≡ order_of node.now }
{
    let form = form_of(node.kind());
    if is_foreign(form) {
        return start_of(other_operator(node), node);
    }
    operator_start(form, &node.trees())
}

/// Whether the operator of an expression would precede that of the parent, in place of the node or
/// token at `place`.
pub fn stands_before_in(own: &SyntaxNode, parent: &SyntaxNode, place: &SyntaxNode) -> bool
    ensures { result ≡ stands_before_in own.now parent.now place.now }
{
    stands_before(
        order_of(own).saturating_sub(own.trees().start().raw() as usize),
        own.as_str().len(),
        place.trees().start().raw() as usize,
        place.text_range().end().raw() as usize,
        order_of(parent),
    )
}
