//! The nodes that can be parsed again by themselves.
ghost use Rattle.std.specs.Prelude.{◌≡◌};
ghost use Rattle.rust_front.specs.Pieces.{has_assoc_items_of, is_braced_of, other_rule_of, number_of, chosen_of, exact_number_of, exact_chosen_of, rule_by_number};

use ras_front_end::Reparser;
use rust_grammar::Rule;
use rust_kinds::kinds;
use syntax_kind::SyntaxKind;

// The nodes that can be parsed again by themselves; the index of an entry is its reparser's number.
const BLOCK_EXPR: u32 = 0;

const RECORD_FIELD_LIST: u32 = 1;

const RECORD_EXPR_FIELD_LIST: u32 = 2;

const VARIANT_LIST: u32 = 3;

const MATCH_ARM_LIST: u32 = 4;

const USE_TREE_LIST: u32 = 5;

const EXTERN_ITEM_LIST: u32 = 6;

const TOKEN_TREE: u32 = 7;

const ASSOC_ITEM_LIST: u32 = 8;

const ITEM_LIST: u32 = 9;

const STMT_LIST: u32 = 10;

// A list of associated items belongs to an `impl` or a trait.
fn has_assoc_items(parent: Option<SyntaxKind>) -> bool
    ensures { result ≡ has_assoc_items_of parent }
{
    matches!(parent, Some(SyntaxKind::IMPL | SyntaxKind::TRAIT))
}

fn is_braced(first_child: Option<SyntaxKind>) -> bool
    ensures { result ≡ is_braced_of first_child }
{
    matches!(first_child, Some(SyntaxKind::L_CURLY))
}

// Kinds that have no constant.
fn other_rule(number: u16) -> Option<u32>
    ensures { result ≡ other_rule_of number }
{
    match SyntaxKind::OTHER(number) {
        kinds::RECORD_EXPR_FIELD_LIST => Some(RECORD_EXPR_FIELD_LIST),
        kinds::VARIANT_LIST => Some(VARIANT_LIST),
        _ => None,
    }
}

fn number_of(
    kind: SyntaxKind,
    first_child: Option<SyntaxKind>,
    parent: Option<SyntaxKind>,
) -> Option<u32>
    ensures { result ≡ number_of kind first_child parent }
{
    match kind {
        SyntaxKind::BLOCK_EXPR => Some(BLOCK_EXPR),
        SyntaxKind::RECORD_FIELD_LIST => Some(RECORD_FIELD_LIST),
        SyntaxKind::MATCH_ARM_LIST => Some(MATCH_ARM_LIST),
        SyntaxKind::USE_TREE_LIST => Some(USE_TREE_LIST),
        SyntaxKind::EXTERN_ITEM_LIST => Some(EXTERN_ITEM_LIST),
        SyntaxKind::TOKEN_TREE => is_braced(first_child).then_some(TOKEN_TREE),
        SyntaxKind::ASSOC_ITEM_LIST => has_assoc_items(parent).then_some(ASSOC_ITEM_LIST),
        SyntaxKind::ITEM_LIST => Some(ITEM_LIST),
        SyntaxKind::OTHER(number) => other_rule(number),
        _ => None,
    }
}

/// The reparser of a node, or `None` if it cannot be parsed again by itself.
pub fn reparser_of(
    kind: SyntaxKind,
    first_child: Option<SyntaxKind>,
    parent: Option<SyntaxKind>,
) -> Option<Reparser>
    ensures { result ≡ chosen_of kind first_child parent }
{
    match number_of(kind, first_child, parent) {
        None => None,
        Some(number) => Some(Reparser { kind, number }),
    }
}

fn exact_number_of(kind: SyntaxKind) -> Option<u32>
    ensures { result ≡ exact_number_of kind }
{
    match kind {
        SyntaxKind::STMT_LIST => Some(STMT_LIST),
        SyntaxKind::RECORD_FIELD_LIST => Some(RECORD_FIELD_LIST),
        SyntaxKind::MATCH_ARM_LIST => Some(MATCH_ARM_LIST),
        SyntaxKind::USE_TREE_LIST => Some(USE_TREE_LIST),
        SyntaxKind::EXTERN_ITEM_LIST => Some(EXTERN_ITEM_LIST),
        SyntaxKind::TOKEN_TREE => Some(TOKEN_TREE),
        SyntaxKind::ASSOC_ITEM_LIST => Some(ASSOC_ITEM_LIST),
        SyntaxKind::ITEM_LIST => Some(ITEM_LIST),
        SyntaxKind::OTHER(number) => other_rule(number),
        _ => None,
    }
}

/// The reparser of the nodes between braces that are parsed by themselves as in the text, or `None`
/// for other kinds. A block is one of its `STMT_LIST`, which one rule makes wherever it is; a
/// `BLOCK_EXPR` is made in several ways.
pub fn exact_reparser_of(kind: SyntaxKind) -> Option<Reparser>
    ensures { result ≡ exact_chosen_of kind }
{
    match exact_number_of(kind) {
        None => None,
        Some(number) => Some(Reparser { kind, number }),
    }
}

/// The grammar's rule for a reparser.
pub fn rule_by(number: u32) -> Rule
    ensures { result ≡ rule_by_number number }
{
    match number {
        BLOCK_EXPR => Rule::BlockExpr,
        RECORD_FIELD_LIST => Rule::RecordFields,
        RECORD_EXPR_FIELD_LIST => Rule::RecordExprFields,
        VARIANT_LIST => Rule::Variants,
        MATCH_ARM_LIST => Rule::MatchArms,
        USE_TREE_LIST => Rule::UseTreeList,
        EXTERN_ITEM_LIST => Rule::ExternItemList,
        TOKEN_TREE => Rule::TokenTree,
        ASSOC_ITEM_LIST => Rule::AssocItemList,
        STMT_LIST => Rule::StmtList,
        _ => Rule::ItemList,
    }
}
