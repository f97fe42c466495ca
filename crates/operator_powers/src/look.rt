//! Looking for a token among the children of a node.
ghost use Rattle.std.specs.Prelude.{◌≡◌, option_map};
ghost use Rattle.tree_model.specs.Tree.{Tree};
ghost use Rattle.lossless_tree.specs.Trees.{first_of};
ghost use Rattle.operator_powers.specs.Rules.{wants, token_start, is_wanted};

use crate::powers::kind_powers;
use lossless_tree::SiblingsLeft;
use syntax_kind::SyntaxKind;

/// Which child token marks the start of an operator.
#[derive(Clone, Copy)]
pub enum Wanted {
    Dot,
    Question,
    Bracket,
    As,
    Amp,
    Dots,
    Opening,
    Operator,
}

/// Whether a token of this kind is wanted.
pub fn wants(wanted: Wanted, kind: SyntaxKind) -> bool
    ensures { result ≡ wants wanted kind }
{
    match wanted {
        Wanted::Dot => matches!(kind, SyntaxKind::DOT),
        Wanted::Question => matches!(kind, SyntaxKind::QUESTION),
        Wanted::Bracket => matches!(kind, SyntaxKind::L_BRACK),
        Wanted::As => matches!(kind, SyntaxKind::AS_KW),
        Wanted::Amp => matches!(kind, SyntaxKind::AMP),
        Wanted::Dots => matches!(kind, SyntaxKind::DOT2 | SyntaxKind::DOT2EQ),
        Wanted::Opening => matches!(kind, SyntaxKind::L_PAREN),
        Wanted::Operator => kind_powers(kind).left != 0,
    }
}

fn is_wanted(left: &SiblingsLeft<'_>, wanted: Wanted) -> bool
    ensures { result ≡ is_wanted wanted (first_of left.now.trees) }
{
    left.is_token() && wants(wanted, left.kind())
}

/// Where the first child token that is wanted starts, and its kind.
pub fn token_start(trees: &SiblingsLeft<'_>, wanted: Wanted) -> Option<(usize, SyntaxKind)>
    ensures { result ≡ token_start wanted trees.now.trees trees.now.start }
{
    let mut left = trees.all();
    while !left.is_done() {
        if is_wanted(&left, wanted) {
            return Some((left.start().raw() as usize, left.kind()));
        }
        left = left.rest();
    }
    None
}
