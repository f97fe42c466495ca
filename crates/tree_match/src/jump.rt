//! Walks that pass the nodes of kinds at which no rule can match.
ghost use Rattle.std.specs.Prelude.{◌≡◌};
ghost use Rattle.std.specs.List.{find, list_all};
ghost use Rattle.lossless_tree.specs.KindSearch.{is_among, after_first};
ghost use Rattle.tree_match.specs.Jumps.{has_operations, stops_at};

use crate::rule::Rule;
use lossless_tree::{Descendants, KindSet, SyntaxKind, SyntaxNode};

// Operators and calls, which most rules are for, and what else is written as a call: `f(g())` is
// also a pattern, a type and a path.
enum Operations {}

impl KindSet for Operations {
    ghost use Rattle.tree_match.specs.Jumps.{is_operation};

    ghost kinds = { is_operation };

    fn has(kind: SyntaxKind) -> bool {
        matches!(
            kind,
            SyntaxKind::BIN_EXPR
                | SyntaxKind::PREFIX_EXPR
                | SyntaxKind::CALL_EXPR
                | SyntaxKind::METHOD_CALL_EXPR
                | SyntaxKind::TUPLE_STRUCT_PAT
                | SyntaxKind::PATH_TYPE
                | SyntaxKind::PATH
        )
    }
}

// All kinds.
enum AnyKind {}

impl KindSet for AnyKind {
    ghost use Rattle.tree_match.specs.Jumps.{is_any};

    ghost kinds = { is_any };

    fn has(_kind: SyntaxKind) -> bool {
        true
    }
}

// Whether each form of a rule is for operators or calls, or what is written as one.
fn has_operations(rule: &Rule) -> bool
    ensures { result ≡ has_operations rule.now }
{
    rule.forms.iter().all(|form| Operations::has(form.kind))
}

/// Whether rules match at operators, calls and what is written as a call alone.
pub(crate) fn have_operations(rules: &[Rule]) -> bool
    ensures { result ≡ list_all has_operations rules.now }
{
    rules.iter().all(|rule| has_operations(rule))
}

/// The next node, or the next one of these kinds if rules match at them alone. The nodes before it
/// are passed.
pub(crate) fn next_stop(left: &mut Descendants, operations: bool) -> Option<SyntaxNode>
    ensures found { result ≡ find (is_among (stops_at operations)) left.old }
    ensures left { left.new ≡ after_first (is_among (stops_at operations)) left.old }
{
    if operations {
        left.next_of::<Operations>()
    } else {
        left.next_of::<AnyKind>()
    }
}
