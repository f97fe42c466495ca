//! Rules on the keywords of paths.
ghost use Rattle.std.specs.Prelude.{◌≡◌, option_map, drop};
ghost use Rattle.tree_model.specs.Cursor.{range_of, ancestors_of};
ghost use Rattle.ras_node.specs.Nodes.{kind_at};
ghost use Rattle.ras_validation.specs.Rules.{self_in_path, prefix_verdict, under_use_prefix, crate_is_inside, crate_in_path};

use crate::lookups::{node_child, path_around, segment_keyword, starts_path};
use lossless_tree::{SyntaxKind, SyntaxNode};
use text_size::TextRange;

/// The `self` of a `PATH_SEGMENT` that is neither at the start nor at the end of its path. A
/// segment that is not in a path breaks no rule.
pub fn self_in_path(segment: &SyntaxNode) -> Option<TextRange>
    ensures { result ≡ option_map range_of (self_in_path segment.now) }
{
    // Most segments that are `self` start their path, and no cursor of the keyword is needed.
    let path = path_around(segment)?;
    if starts_path(segment, &path) || path_around(&path).is_none() {
        return None;
    }
    let keyword = segment_keyword(segment, SyntaxKind::SELF_KW)?;
    Some(keyword.text_range())
}

// The verdict of one node above a path, where `last` is the last path passed: whether it is under a
// use prefix, or `None` if the nodes above decide.
fn prefix_verdict(last: &SyntaxNode, above: &SyntaxNode) -> Option<bool>
    ensures { result ≡ prefix_verdict last.now (kind_at above.now) above.now }
{
    match above.kind() {
        SyntaxKind::USE_TREE => {
            let path = node_child(above, SyntaxKind::PATH)?;
            if path == *last { None } else { Some(true) }
        }
        SyntaxKind::USE_TREE_LIST | SyntaxKind::PATH => None,
        _ => Some(false),
    }
}

// Whether the walk up from a path, through paths, use trees and their lists only, meets a use tree
// whose path is not the last path that it passed.
fn is_under_use_prefix(path: SyntaxNode) -> bool
    ensures { result ≡ under_use_prefix path (drop 1 (ancestors_of path)) }
{
    let mut above = path.ancestors();
    let _path = above.next();
    let mut last = path;
    while let Some(node) = above.next() {
        if let Some(is_under) = prefix_verdict(&last, &node) {
            return is_under;
        }
        if node.kind() == SyntaxKind::PATH {
            last = node;
        }
    }
    false
}

// Whether a `crate` does not begin its path, or the path is under a use prefix.
fn crate_is_inside(segment: &SyntaxNode, path: SyntaxNode) -> bool
    ensures { result ≡ crate_is_inside segment.now path }
{
    !starts_path(segment, &path) || is_under_use_prefix(path)
}

/// The `crate` of a `PATH_SEGMENT` that does not begin its path, or is under a prefix of a `use`. A
/// segment that is not in a path, or has a `self` too, breaks no rule. Takes time linear in the
/// depth of the use trees around it.
pub fn crate_in_path(segment: &SyntaxNode) -> Option<TextRange>
    ensures { result ≡ option_map range_of (crate_in_path segment.now) }
{
    let keyword = segment_keyword(segment, SyntaxKind::CRATE_KW)?;
    let path = path_around(segment)?;
    if segment_keyword(segment, SyntaxKind::SELF_KW).is_some() {
        return None;
    }
    if crate_is_inside(segment, path) {
        Some(keyword.text_range())
    } else {
        None
    }
}
