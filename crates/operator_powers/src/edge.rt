//! Casts and angles among the tokens of a node.
ghost use Rattle.std.specs.Prelude.{◌≡◌};
ghost use Rattle.tree_model.specs.Cursor.{focus, descendants_of};
ghost use Rattle.operator_terms.specs.Places.{ends_in_cast};
ghost use Rattle.operator_terms.specs.Reading.{no_cast_before_angle, is_as, is_name, is_angle};
ghost use Rattle.operator_trees.specs.Leaves.{leaves_of};
ghost use Rattle.operator_powers.specs.Edges.{leaf_kind, pass, step, passed, start};

use lossless_tree::{NodeOrToken, SyntaxElement, SyntaxNode};
use syntax_kind::SyntaxKind;

/// Facts about a list of tokens: the last is `as`; the last two are `as` and a name; no such two
/// are followed by `<` or `<<`.
#[derive(Clone, Copy)]
pub struct Edge {
    pub was_as: bool,
    pub ends: bool,
    pub clear: bool,
}

/// The word `as`.
pub fn is_as(kind: SyntaxKind) -> bool
    ensures { result ≡ is_as kind }
{
    matches!(kind, SyntaxKind::AS_KW)
}

/// A name.
pub fn is_name(kind: SyntaxKind) -> bool
    ensures { result ≡ is_name kind }
{
    matches!(kind, SyntaxKind::IDENT)
}

/// `<` or `<<`, which after a cast's name would be read as generic arguments of the type.
pub fn is_angle(kind: SyntaxKind) -> bool
    ensures { result ≡ is_angle kind }
{
    matches!(kind, SyntaxKind::L_ANGLE | SyntaxKind::SHL)
}

/// The kind of a token that is not trivia.
pub fn leaf_kind(element: &SyntaxElement) -> Option<SyntaxKind>
    ensures { result ≡ leaf_kind element.now }
{
    match element {
        NodeOrToken::Node(_) => None,
        NodeOrToken::Token(token) => {
            let kind = token.kind();
            if kind.is_trivia() { None } else { Some(kind) }
        }
    }
}

fn step(edge: Edge, kind: SyntaxKind) -> Edge
    ensures { result ≡ step edge kind }
{
    Edge {
        was_as: is_as(kind),
        ends: edge.was_as && is_name(kind),
        clear: edge.clear && !(edge.ends && is_angle(kind)),
    }
}

fn pass(edge: Edge, element: &SyntaxElement) -> Edge
    ensures { result ≡ pass edge element.now }
{
    match leaf_kind(element) {
        None => edge,
        Some(kind) => step(edge, kind),
    }
}

/// What is seen of the tokens of a node.
pub fn edge_of(node: &SyntaxNode) -> Edge
    ensures seen { result ≡ passed start (descendants_of node.now) }
    ensures ends { result.ends ≡ ends_in_cast (leaves_of (focus node.now)) }
    ensures clear { result.clear ≡ no_cast_before_angle (leaves_of (focus node.now)) }
{
    let mut edge = Edge {
        was_as: false,
        ends: false,
        clear: true,
    };
    for element in node.descendants_with_tokens() {
        edge = pass(edge, &element);
    }
    edge
}
