//! The rules by which an expression needs parentheses.
ghost use Rattle.std.specs.Prelude.{◌≡◌, ◌&&◌, Some, true, false, is_some};
ghost use Rattle.operator_terms.specs.Term.{tokens};
ghost use Rattle.operator_terms.specs.Pairs.{without};
ghost use Rattle.operator_terms.specs.Powers.{pow, like_postfix};
ghost use Rattle.operator_terms.specs.Places.{operand, Fits};
ghost use Rattle.operator_pairs.specs.Decides.{DecidesItsPlace, DecidesItsTerm, DecidesOperands, DecidesPairs};
ghost use Rattle.ras_operators.specs.declared.level.ExprPrecedence.{ExprPrecedence};
ghost use Rattle.ras_operators.specs.Levels.{precedence_of, is_valueless};
ghost use Rattle.ras_prec_walks.specs.Above.{is_followed_by_block};
ghost use Rattle.ras_prec_walks.specs.CastName.{ends_in_cast_name};
ghost use Rattle.ras_prec_walks.specs.Inside.{has_let};
ghost use Rattle.ras_prec_walks.specs.Parts.{is_and};
ghost use Rattle.ras_prec.specs.Order.{powers_of};
ghost use Rattle.ras_node.specs.Nodes.{kind_at};
ghost use Rattle.ras_node.specs.Searches.{first_token};
ghost use Rattle.ras_prec.specs.Rules.{is_called_field, is_bare_jump, is_cut_by_block, is_jump, is_logic, kind_from, kind_next, is_before_logic, is_before_angle, binds_less, asks_in_expr, is_let_else_part, is_let_else, is_logic_token, is_logic_expr, asks_in_statement, is_statement, asks};

use crate::order::{powers_of, stands_before_in};
use lossless_tree::{NodeOrToken, SyntaxKind, SyntaxNode, SyntaxToken};
use operator_pairs::behind::kind_behind;
use operator_powers::edge::is_angle;
use operator_powers::node::{is_call_form, is_field_form};
use operator_powers::powers::{Strength, by_power};
use operator_trees::form_of;
use ras_node::sets::{BinaryOperators, Exprs, KindSet, Stmts};
use ras_operators::ExprPrecedence;
use ras_operators::node::{is_ret_like_with_no_value, precedence_of};
use ras_prec_walks::above::{child_toward, is_at_or_above, is_followed_by_block};
use ras_prec_walks::along::{begins_with_block, ends_in_brace};
use ras_prec_walks::cast_name::ends_in_cast_name;
use ras_prec_walks::inside::{has_exterior_record, has_let};
use ras_prec_walks::parts::{is_and, range_ends_in_block};

// The function of a call is a field: without parentheses it would be a method call.
fn is_called_field(own: &SyntaxNode, parent: &SyntaxNode) -> bool
    ensures { result ≡ is_called_field own.now parent.now }
{
    is_field_form(form_of(own.kind())) && is_call_form(form_of(parent.kind()))
}

fn is_bare_jump(own: &SyntaxNode) -> bool
    ensures { result ≡ is_bare_jump (kind_at own.now) own.now }
{
    match own.kind() {
        SyntaxKind::RETURN_EXPR | SyntaxKind::BREAK_EXPR | SyntaxKind::YIELD_EXPR => {
            is_ret_like_with_no_value(own)
        }
        _ => false,
    }
}

// A block that follows would be parsed as part of it.
fn is_cut_by_block(own: &SyntaxNode) -> bool
    ensures { result ≡ is_cut_by_block own.now }
{
    is_bare_jump(own) || range_ends_in_block(own) || has_exterior_record(own)
}

fn is_jump(precedence: ExprPrecedence) -> bool
    ensures { result ≡ is_jump precedence }
{
    matches!(precedence, ExprPrecedence::Jump)
}

fn is_logic(kind: SyntaxKind) -> bool
    ensures { result ≡ is_logic kind }
{
    matches!(kind, SyntaxKind::AMP2 | SyntaxKind::PIPE2)
}

// The kind of the first token after the node that is not trivia, if the node has a token.
fn kind_from(node: SyntaxNode) -> Option<SyntaxKind>
    ensures { result ≡ kind_from node }
{
    if node.first_token().is_some() {
        kind_behind(&NodeOrToken::Node(node))
    } else {
        None
    }
}

// The same after the parent's child at the place.
fn kind_next(parent: &SyntaxNode, place: &SyntaxNode) -> Option<SyntaxKind>
    ensures { result ≡ kind_next parent.now place.now }
{
    kind_from(child_toward(parent, place)?)
}

fn is_before_logic(parent: &SyntaxNode, place: &SyntaxNode) -> bool
    ensures { result ≡ is_before_logic (kind_next parent.now place.now) }
{
    match kind_next(parent, place) {
        Some(kind) => is_logic(kind),
        None => false,
    }
}

fn is_before_angle(parent: &SyntaxNode, place: &SyntaxNode) -> bool
    ensures { result ≡ is_before_angle (kind_next parent.now place.now) }
{
    match kind_next(parent, place) {
        Some(kind) => is_angle(kind),
        None => false,
    }
}

fn is_like_postfix(powers: Strength) -> bool
    ensures { result ≡ like_postfix (pow powers.left powers.right) }
{
    powers.left != 0 && powers.right == 0
}

fn binds_less(own: &SyntaxNode, parent: &SyntaxNode, place: &SyntaxNode) -> bool
    ensures { result ≡ binds_less own.now parent.now place.now }
{
    by_power(
        powers_of(own),
        powers_of(parent),
        stands_before_in(own, parent, place),
    )
}

// A block follows the parent, and would be parsed as part of the expression before it.
fn is_before_block(own: &SyntaxNode, parent: &SyntaxNode) -> bool
    ensures { result ≡ (is_followed_by_block parent.now && is_cut_by_block own.now) }
{
    is_followed_by_block(parent) && is_cut_by_block(own)
}

// A jump without a value, below a postfix.
fn is_jump_before_postfix(own: &SyntaxNode, parent: &SyntaxNode) -> bool
    ensures { result ≡ (is_valueless own.now && like_postfix (powers_of parent.now)) }
{
    is_ret_like_with_no_value(own) && is_like_postfix(powers_of(parent))
}

fn is_jump_before_logic(own: &SyntaxNode, parent: &SyntaxNode, place: &SyntaxNode) -> bool
    ensures { result
        ≡ (is_jump (precedence_of own.now) && is_before_logic (kind_next parent.now place.now)) }
{
    is_jump(precedence_of(own)) && is_before_logic(parent, place)
}

fn is_cut_by_angle(own: &SyntaxNode, parent: &SyntaxNode, place: &SyntaxNode) -> bool
    ensures { result
        ≡ (is_before_angle (kind_next parent.now place.now) && ends_in_cast_name own.now) }
{
    is_before_angle(parent, place) && ends_in_cast_name(own)
}

// A `let` in a chain of `&&`.
fn is_let_in_chain(own: &SyntaxNode, parent: &SyntaxNode) -> bool
    ensures { result ≡ (is_and parent.now && has_let own.now) }
{
    is_and(parent) && has_let(own)
}

// The rules where the parent is an expression: the first that applies decides.
fn asks_in_expr(own: &SyntaxNode, parent: &SyntaxNode, place: &SyntaxNode) -> bool
    ensures { result ≡ asks_in_expr own.now parent.now place.now }
{
    if is_called_field(own, parent) || is_before_block(own, parent) {
        return true;
    }
    if is_jump_before_postfix(own, parent) {
        return false;
    }
    if is_jump_before_logic(own, parent, place) || is_cut_by_angle(own, parent, place) {
        return true;
    }
    !is_let_in_chain(own, parent) && binds_less(own, parent, place)
}

/// The kind of the `else` of a `let`.
pub enum LetElses {}

impl KindSet for LetElses {
    ghost kinds = { is_let_else_part };

    fn has(kind: SyntaxKind) -> bool {
        matches!(kind, SyntaxKind::LET_ELSE)
    }
}

fn is_let_else(statement: &SyntaxNode) -> bool
    ensures { result ≡ is_let_else statement.now }
{
    if statement.kind() != SyntaxKind::LET_STMT {
        return false;
    }
    match ras_node::first_node::<LetElses>(statement.children_with_tokens()) {
        Some(_part) => true,
        None => false,
    }
}

fn is_logic_token(operator: Option<SyntaxToken>) -> bool
    ensures { result ≡ is_logic_token operator }
{
    match operator {
        Some(token) => is_logic(token.kind()),
        None => false,
    }
}

fn is_logic_expr(own: &SyntaxNode) -> bool
    ensures { result ≡ is_logic_expr own.now }
{
    own.kind() == SyntaxKind::BIN_EXPR
        && is_logic_token(ras_node::first_token::<BinaryOperators>(own.children_with_tokens()))
}

// A statement would end after the block that it begins with; and `else` follows neither `&&`, `||`
// nor a brace.
fn asks_in_statement(own: &SyntaxNode, parent: &SyntaxNode) -> bool
    ensures { result ≡ asks_in_statement own.now parent.now }
{
    begins_with_block(own) || (is_let_else(parent) && (is_logic_expr(own) || ends_in_brace(own)))
}

fn is_statement(kind: SyntaxKind) -> bool
    ensures { result ≡ is_statement kind }
{
    Stmts::has(kind) || matches!(kind, SyntaxKind::STMT_LIST)
}

// The whole test.
fn asks(own: &SyntaxNode, parent: &SyntaxNode, place: &SyntaxNode) -> bool
    ensures { result ≡ asks own.now parent.now place.now }
{
    if !is_at_or_above(parent, place) {
        return false;
    }
    let kind = parent.kind();
    if Exprs::has(kind) {
        return asks_in_expr(own, parent, place);
    }
    is_statement(kind) && asks_in_statement(own, parent)
}

/// Whether an expression needs parentheses in place of the node or token at `place`, where `parent`
/// is an ancestor of that or the place itself. Returns false for any other `parent`.
///
/// For an operand below the root of an operator tree and its own parent node (for an argument, the
/// list of arguments), it returns false exactly if the expression fits there, before the tokens
/// that follow the operand in the whole tree. For the contents of a pair in place of the pair, in a
/// tree that reads back and is not followed by `<` or `<<`, it returns false exactly if the tokens
/// without the pair read as the term without it; then they read as no other term.
pub fn needs_parens_in_place_of(own: &SyntaxNode, parent: &SyntaxNode, place: &SyntaxNode) -> bool
    ensures asks { result ≡ asks own.now parent.now place.now }
    ensures fits { DecidesOperands own.now parent.now place.now result }
    ensures pairs { DecidesPairs own.now parent.now place.now result }
{
    asks(own, parent, place)
}

/// [`needs_parens_in_place_of`] with `place = own`.
///
/// For an operand below the root of an operator tree and its own parent node, it returns false
/// exactly if the operand fits, before the tokens that follow it in the whole tree. If the operator
/// tree is not followed by `<` or `<<`, this is `Fits`, which is about the term alone.
pub fn needs_parens_in(own: &SyntaxNode, parent: &SyntaxNode) -> bool
    ensures asks { result ≡ asks own.now parent.now own.now }
    ensures fits { DecidesItsPlace own.now parent.now result }
    ensures alone { DecidesItsTerm own.now parent.now result }
{
    needs_parens_in_place_of(own, parent, own)
}
