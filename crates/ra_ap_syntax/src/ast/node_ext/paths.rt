//! Paths and their segments.
ghost use Rattle.std.specs.Prelude.{◌≡◌, option_map, drop};
ghost use Rattle.tree_model.specs.Cursor.{parent_of, ancestors_of};
ghost use Rattle.ras_node_ext.specs.Path.{AreSegments, IsFirstQualifier, IsQualifierEnd, IsFirstSegment, qualifiers_of, top_from};
ghost use Rattle.ras_node.specs.Lookups.{view_in};
ghost use Rattle.ras_node_ext.specs.NodeParts.{single_segment, single_name, name_token, qualifying_trait};
ghost use Rattle.ra_ap_syntax.specs.NodeShapes.{segment_shape, segment_kind, name_by_kind, anchored};
ghost use Rattle.ras_node_ext.specs.NodeParts.{first_token_kind};
ghost use Rattle.ra_ap_syntax.specs.PathViews.{IsNameRef, IsPath, IsPathSegment, name_ref_kinds, path_kinds, path_segment_kinds, type_anchor_kinds};
ghost use Rattle.ra_ap_syntax.specs.TyViews.{IsPathType, path_type_kinds};
ghost use Rattle.ra_ap_syntax.specs.TypeCases.{type_kinds};
ghost use Rattle.ras_node.specs.Nodes.{kind_at};

use crate::ast::{self, AstNode, support};
use lossless_tree::{SyntaxKind, SyntaxNode, SyntaxToken};

/// The segments of a path, in order.
pub type Segments = ras_node_ext::Segments<ast::Path, ast::PathSegment>;

/// The qualifiers of a path, the nearest first.
pub type Qualifiers = ras_node_ext::Qualifiers<ast::Path>;

// The segments of a path.
fn segments_of(path: ast::Path) -> Segments
    ensures { AreSegments path_kinds path_segment_kinds path.syntax result }
{
    Segments::new(path)
}

// The end of the chain of qualifiers.
fn end_of(path: ast::Path) -> ast::Path
    ensures { IsFirstQualifier path_kinds path.syntax result.syntax }
{
    ras_node_ext::first_qualifier_or_self(path)
}

impl ast::Path {
    /// The segments, from that of the deepest qualifier outwards to its own, through the paths that
    /// are within this one's range. They end at a path without a segment.
    pub fn segments(&self) -> Segments
        ensures { AreSegments path_kinds path_segment_kinds self.now.syntax result }
    {
        segments_of(support::copy(self))
    }

    /// The qualifiers, the nearest first: `a::b` and `a` of `a::b::c`.
    pub fn qualifiers(&self) -> Qualifiers
        ensures { result ≡ qualifiers_of path_kinds self.now.syntax }
    {
        Qualifiers::new(self)
    }

    /// The end of the chain of qualifiers: `a` of `a::b::c`. Returns `None` if the path has no
    /// qualifier. Takes time linear in their number.
    pub fn first_qualifier(&self) -> Option<ast::Path>
        ensures { IsQualifierEnd path_kinds self.now.syntax (option_map (λ it. it.syntax) result) }
    {
        ras_node_ext::first_qualifier(self)
    }

    /// The end of the chain of qualifiers; this path if it has none. Takes time linear in their
    /// number.
    pub fn first_qualifier_or_self(&self) -> ast::Path
        ensures { IsFirstQualifier path_kinds self.now.syntax result.syntax }
    {
        end_of(support::copy(self))
    }

    /// The segment at the end of the chain of qualifiers, if that path has one: `a` of `a::b::c`.
    pub fn first_segment(&self) -> Option<ast::PathSegment>
        ensures { IsFirstSegment path_kinds path_segment_kinds self.now.syntax
            (option_map (λ it. it.syntax) result) }
    {
        self.first_qualifier_or_self().segment()
    }

    /// The outermost path that this path is a qualifier of, directly or not; the path itself if it
    /// is not a qualifier. Takes time linear in the number of paths between.
    pub fn top_path(&self) -> ast::Path
        ensures { result.syntax
            ≡ top_from path_kinds self.now.syntax (drop 1 (ancestors_of self.now.syntax)) }
    {
        ras_node_ext::top_path(support::copy(self))
    }

    /// The path that it is the qualifier of: the parent, if that is a path.
    pub fn parent_path(&self) -> Option<ast::Path>
        ensures { IsPath (view_in path_kinds (parent_of self.now.syntax)) result }
    {
        support::parent_as(&self.syntax)
    }

    /// The segment of a path without a qualifier.
    pub fn as_single_segment(&self) -> Option<ast::PathSegment>
        ensures { IsPathSegment
            (single_segment path_kinds path_segment_kinds self.now.syntax) result }
    {
        if self.qualifier().is_some() {
            return None;
        }
        self.segment()
    }

    /// The name in the segment of a path without a qualifier.
    pub fn as_single_name_ref(&self) -> Option<ast::NameRef>
        ensures { IsNameRef
            (single_name path_kinds path_segment_kinds name_ref_kinds self.now.syntax) result }
    {
        self.as_single_segment()?.name_ref()
    }
}

/// The kind of a segment of a path.
#[derive(Clone, PartialEq, Eq, Drop)]
pub enum PathSegmentKind {
    /// A name, with or without generic arguments.
    Name(ast::NameRef),
    /// `<T>`, `<T as U>`.
    Ty {
        type_ref: Option<ast::Type>,
        trait_ref: Option<ast::PathType>,
    },
    /// `Self`
    SelfTypeKw,
    /// `self`
    SelfKw,
    /// `super`
    SuperKw,
    /// `crate`
    CrateKw,
}

// The kind of a segment with a name, by the name's first token.
fn name_by_kind(name: ast::NameRef) -> PathSegmentKind
    ensures { segment_shape result ≡ name_by_kind (first_token_kind name.syntax) name.syntax }
{
    match name.token_kind() {
        SyntaxKind::SELF_TYPE_KW => PathSegmentKind::SelfTypeKw,
        SyntaxKind::SELF_KW => PathSegmentKind::SelfKw,
        SyntaxKind::SUPER_KW => PathSegmentKind::SuperKw,
        SyntaxKind::CRATE_KW => PathSegmentKind::CrateKw,
        _ => PathSegmentKind::Name(name),
    }
}

// `<T as U>`: the first type, and the second if it is a path type.
fn anchored(anchor: &SyntaxNode) -> PathSegmentKind
    ensures { segment_shape result ≡ anchored type_kinds path_type_kinds anchor.now }
{
    PathSegmentKind::Ty {
        type_ref: support::child(anchor),
        trait_ref: support::recast(support::second_child::<ast::Type>(anchor)),
    }
}

impl ast::PathSegment {
    /// The kind of segment, by the first token of its name; without a name, by its anchor
    /// `<T as U>`. `None` if it has neither.
    pub fn kind(&self) -> Option<PathSegmentKind>
        ensures { option_map segment_shape result
            ≡ segment_kind name_ref_kinds type_anchor_kinds type_kinds path_type_kinds
            self.now.syntax }
    {
        if let Some(name) = self.name_ref() {
            return Some(name_by_kind(name));
        }
        let anchor = self.type_anchor()?;
        Some(anchored(&anchor.syntax))
    }

    /// The path that it is the segment of: the parent, if that is a path.
    pub fn parent_path(&self) -> Option<ast::Path>
        ensures { IsPath (view_in path_kinds (parent_of self.now.syntax)) result }
    {
        support::parent_as(&self.syntax)
    }

    /// The trait of `<T as Trait>`: the second path type in the anchor, otherwise the first.
    pub fn qualifying_trait(&self) -> Option<ast::PathType>
        ensures { IsPathType
            (qualifying_trait type_anchor_kinds path_type_kinds self.now.syntax) result }
    {
        let anchor = self.type_anchor()?;
        match support::second_child(&anchor.syntax) {
            Some(second) => Some(second),
            None => support::child(&anchor.syntax),
        }
    }

    /// The first token `crate` in its name.
    pub fn crate_token(&self) -> Option<SyntaxToken>
        ensures { result ≡ name_token name_ref_kinds SyntaxKind.CRATE_KW self.now.syntax }
    {
        self.name_ref()?.crate_token()
    }

    /// The first token `self` in its name.
    pub fn self_token(&self) -> Option<SyntaxToken>
        ensures { result ≡ name_token name_ref_kinds SyntaxKind.SELF_KW self.now.syntax }
    {
        self.name_ref()?.self_token()
    }

    /// The first token `Self` in its name.
    pub fn self_type_token(&self) -> Option<SyntaxToken>
        ensures { result ≡ name_token name_ref_kinds SyntaxKind.SELF_TYPE_KW self.now.syntax }
    {
        self.name_ref()?.self_type_token()
    }

    /// The first token `super` in its name.
    pub fn super_token(&self) -> Option<SyntaxToken>
        ensures { result ≡ name_token name_ref_kinds SyntaxKind.SUPER_KW self.now.syntax }
    {
        self.name_ref()?.super_token()
    }
}
