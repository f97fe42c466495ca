//! Precedences of expressions, one below the other.
use ra_ap_syntax::ast::prec::ExprPrecedence;

#[test]
fn jumps_need_no_pair_below_prefixes_and_sums_one_below_sums(rt: HostRuntime) {
    assert!(rt; !ExprPrecedence::Jump.needs_parentheses_in(ExprPrecedence::Prefix));
    assert!(rt; ExprPrecedence::Sum.needs_parentheses_in(ExprPrecedence::Sum));
}
