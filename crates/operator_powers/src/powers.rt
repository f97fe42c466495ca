//! Binding powers.
ghost use Rattle.std.specs.Prelude.{◌≡◌, nat_eq, ◌&&◌, ◌||◌};
ghost use Rattle.operator_trees.specs.Before.{stands_before};
ghost use Rattle.operator_powers.specs.Rules.{kind_powers, by_power};
ghost use Rattle.operator_terms.specs.Powers.{pow, like_paren, like_prefix, like_postfix, is_excused, binds_less};

use syntax_kind::SyntaxKind;

/// How strongly a form binds on its left and on its right.
#[derive(Clone, Copy)]
pub struct Strength {
    pub left: u8,
    pub right: u8,
}

const fn binding(left: u8, right: u8) -> Strength
    ensures left { result.left ≡ left }
    ensures right { result.right ≡ right }
{
    Strength { left, right }
}

/// The powers of an operator by its token's kind; zeros if it is not an operator.
pub fn kind_powers(kind: SyntaxKind) -> Strength
    ensures { pow result.left result.right ≡ kind_powers kind }
{
    match kind {
        SyntaxKind::PIPE2 => binding(7, 8),
        SyntaxKind::AMP2 => binding(9, 10),
        SyntaxKind::EQ2 | SyntaxKind::NEQ => binding(11, 11),
        SyntaxKind::L_ANGLE | SyntaxKind::LTEQ => binding(11, 11),
        SyntaxKind::R_ANGLE | SyntaxKind::GTEQ => binding(11, 11),
        SyntaxKind::PIPE => binding(13, 14),
        SyntaxKind::CARET => binding(15, 16),
        SyntaxKind::AMP => binding(17, 18),
        SyntaxKind::SHL | SyntaxKind::SHR => binding(19, 20),
        SyntaxKind::PLUS | SyntaxKind::MINUS => binding(21, 22),
        SyntaxKind::STAR | SyntaxKind::SLASH | SyntaxKind::PERCENT => binding(23, 24),
        SyntaxKind::EQ
        | SyntaxKind::PLUSEQ
        | SyntaxKind::MINUSEQ
        | SyntaxKind::STAREQ
        | SyntaxKind::SLASHEQ
        | SyntaxKind::PERCENTEQ
        | SyntaxKind::SHLEQ
        | SyntaxKind::SHREQ
        | SyntaxKind::CARETEQ
        | SyntaxKind::PIPEEQ
        | SyntaxKind::AMPEQ => binding(4, 3),
        _ => binding(0, 0),
    }
}

impl Strength {
    fn is_like_paren(self) -> bool
        ensures { result ≡ like_paren (pow self.left self.right) }
    {
        self.left == 0 && self.right == 0
    }

    fn is_like_prefix(self) -> bool
        ensures { result ≡ like_prefix (pow self.left self.right) }
    {
        self.left == 0 && self.right != 0
    }

    fn is_like_postfix(self) -> bool
        ensures { result ≡ like_postfix (pow self.left self.right) }
    {
        self.left != 0 && self.right == 0
    }
}

fn is_excused(own: Strength, parent: Strength, before: bool) -> bool
    ensures { result ≡ is_excused (pow own.left own.right) (pow parent.left parent.right) before }
{
    own.is_like_paren()
        || parent.is_like_paren()
        || (own.is_like_prefix() && (parent.is_like_prefix() || !before))
        || (own.is_like_postfix() && (parent.is_like_postfix() || before))
}

fn are_of_one_rank(own: Strength, parent: Strength) -> bool
    ensures { result
        ≡ ((nat_eq own.left 11 && nat_eq parent.left 11)
        || (nat_eq own.left 5 && nat_eq parent.left 5)) }
{
    (own.left == 11 && parent.left == 11) || (own.left == 5 && parent.left == 5)
}

fn binds_less(own: Strength, parent: Strength, before: bool) -> bool
    ensures { result ≡ binds_less (pow own.left own.right) (pow parent.left parent.right) before }
{
    if before {
        own.right < parent.left
    } else {
        parent.right >= own.left
    }
}

/// Whether an operand needs parentheses, by the powers of the two.
pub fn by_power(own: Strength, parent: Strength, before: bool) -> bool
    ensures { result ≡ by_power (pow own.left own.right) (pow parent.left parent.right) before }
{
    if is_excused(own, parent, before) {
        return false;
    }
    if are_of_one_rank(own, parent) {
        return true;
    }
    binds_less(own, parent, before)
}

/// Whether the operand's operator starts before the parent's, as if the operand were at the tested
/// place.
pub fn stands_before(order: usize, size: usize, from: usize, to: usize, parent: usize) -> bool
    ensures { result ≡ stands_before order size from to parent }
{
    if parent <= from {
        return from as u128 + (order as u128) < parent as u128;
    }
    if to <= parent {
        return from as u128 + order as u128 + (to as u128)
            < parent as u128 + size as u128 + from as u128;
    }
    false
}
