// Names, paths and imports: accessors that are not plain lookups.
use crate::sheet::Sheet;
use ra_ap_syntax::SyntaxNode;
use ra_ap_syntax::ast::{self, AstNode, NameLike, NameOrNameRef, PathSegmentKind, cast_ref};
use std::alloc::AllocError;

/// Prints the results, for a node, of the accessors of names, paths and imports that are not plain
/// lookups.
pub fn answers(sheet: &mut Sheet, node: &SyntaxNode) -> Result<(), AllocError> {
    names(sheet, node)?;
    name_ref(sheet, node)?;
    name_like(sheet, node)?;
    path(sheet, node)?;
    path_around(sheet, node)?;
    segment(sheet, node)?;
    segment_tokens(sheet, node)?;
    uses(sheet, node)?;
    use_tree_list(sheet, node)
}

fn names(sheet: &mut Sheet, node: &SyntaxNode) -> Result<(), AllocError> {
    name(sheet, node)?;
    lifetime(sheet, node)?;
    name_or_name_ref(sheet, node)
}

fn name(sheet: &mut Sheet, node: &SyntaxNode) -> Result<(), AllocError> {
    match cast_ref::<ast::Name>(node) {
        Some(it) => sheet.text("Name.text", it.text()),
        None => Ok(()),
    }
}

fn lifetime(sheet: &mut Sheet, node: &SyntaxNode) -> Result<(), AllocError> {
    match cast_ref::<ast::Lifetime>(node) {
        Some(it) => sheet.text("Lifetime.text", it.text()),
        None => Ok(()),
    }
}

fn name_or_name_ref(sheet: &mut Sheet, node: &SyntaxNode) -> Result<(), AllocError> {
    match cast_ref::<NameOrNameRef>(node) {
        Some(it) => either_name(sheet, &it),
        None => Ok(()),
    }
}

fn either_name(sheet: &mut Sheet, it: &NameOrNameRef) -> Result<(), AllocError> {
    let variant = match it {
        NameOrNameRef::Name(_) => "Name",
        NameOrNameRef::NameRef(_) => "NameRef",
    };
    sheet.word("NameOrNameRef", variant)?;
    sheet.text("NameOrNameRef.text", it.text())
}

fn name_ref(sheet: &mut Sheet, node: &SyntaxNode) -> Result<(), AllocError> {
    let Some(it) = cast_ref::<ast::NameRef>(node) else {
        return Ok(());
    };
    sheet.text("NameRef.text", it.text())?;
    sheet.value("NameRef.as_tuple_field", it.as_tuple_field())?;
    sheet.kind("NameRef.token_kind", it.token_kind())
}

fn name_like(sheet: &mut Sheet, node: &SyntaxNode) -> Result<(), AllocError> {
    match cast_ref::<NameLike>(node) {
        Some(it) => name_like_parts(sheet, &it),
        None => Ok(()),
    }
}

fn name_like_parts(sheet: &mut Sheet, it: &NameLike) -> Result<(), AllocError> {
    sheet.text("NameLike.text", it.text())?;
    sheet.borrowed("NameLike.as_name_ref", it.as_name_ref())?;
    sheet.borrowed("NameLike.as_lifetime", it.as_lifetime())
}

fn path(sheet: &mut Sheet, node: &SyntaxNode) -> Result<(), AllocError> {
    let Some(it) = cast_ref::<ast::Path>(node) else {
        return Ok(());
    };
    sheet.nodes("Path.segments", it.segments())?;
    sheet.nodes("Path.qualifiers", it.qualifiers())?;
    path_start(sheet, &it)
}

fn path_start(sheet: &mut Sheet, it: &ast::Path) -> Result<(), AllocError> {
    sheet.node("Path.first_qualifier", it.first_qualifier())?;
    let first = it.first_qualifier_or_self();
    sheet.node("Path.first_qualifier_or_self", Some(first))?;
    sheet.node("Path.first_segment", it.first_segment())
}

fn path_around(sheet: &mut Sheet, node: &SyntaxNode) -> Result<(), AllocError> {
    let Some(it) = cast_ref::<ast::Path>(node) else {
        return Ok(());
    };
    sheet.node("Path.parent_path", it.parent_path())?;
    sheet.node("Path.top_path", Some(it.top_path()))?;
    sheet.node("Path.as_single_segment", it.as_single_segment())?;
    sheet.node("Path.as_single_name_ref", it.as_single_name_ref())
}

fn segment_name(sheet: &mut Sheet, name: ast::NameRef) -> Result<(), AllocError> {
    sheet.word("PathSegment.kind", "Name")?;
    sheet.node("PathSegment.kind.0", Some(name))
}

fn segment_type<A: AstNode + Drop, B: AstNode + Drop>(
    sheet: &mut Sheet,
    type_ref: Option<A>,
    trait_ref: Option<B>,
) -> Result<(), AllocError> {
    sheet.word("PathSegment.kind", "Ty")?;
    sheet.node("PathSegment.kind.type_ref", type_ref)?;
    sheet.node("PathSegment.kind.trait_ref", trait_ref)
}

fn segment_kind(sheet: &mut Sheet, kind: PathSegmentKind) -> Result<(), AllocError> {
    match kind {
        PathSegmentKind::Name(name) => segment_name(sheet, name),
        PathSegmentKind::Ty {
            type_ref,
            trait_ref,
        } => segment_type(sheet, type_ref, trait_ref),
        PathSegmentKind::SelfTypeKw => sheet.word("PathSegment.kind", "SelfTypeKw"),
        PathSegmentKind::SelfKw => sheet.word("PathSegment.kind", "SelfKw"),
        PathSegmentKind::SuperKw => sheet.word("PathSegment.kind", "SuperKw"),
        PathSegmentKind::CrateKw => sheet.word("PathSegment.kind", "CrateKw"),
    }
}

fn segment(sheet: &mut Sheet, node: &SyntaxNode) -> Result<(), AllocError> {
    let Some(it) = cast_ref::<ast::PathSegment>(node) else {
        return Ok(());
    };
    sheet.node("PathSegment.parent_path", it.parent_path())?;
    sheet.node("PathSegment.qualifying_trait", it.qualifying_trait())?;
    match it.kind() {
        Some(kind) => segment_kind(sheet, kind),
        None => sheet.word("PathSegment.kind", "-"),
    }
}

fn segment_tokens(sheet: &mut Sheet, node: &SyntaxNode) -> Result<(), AllocError> {
    let Some(it) = cast_ref::<ast::PathSegment>(node) else {
        return Ok(());
    };
    sheet.token("PathSegment.crate_token", it.crate_token())?;
    sheet.token("PathSegment.self_token", it.self_token())?;
    sheet.token("PathSegment.self_type_token", it.self_type_token())?;
    sheet.token("PathSegment.super_token", it.super_token())
}

fn uses(sheet: &mut Sheet, node: &SyntaxNode) -> Result<(), AllocError> {
    use_item(sheet, node)?;
    use_tree(sheet, node)
}

fn use_item(sheet: &mut Sheet, node: &SyntaxNode) -> Result<(), AllocError> {
    match cast_ref::<ast::Use>(node) {
        Some(it) => sheet.flag("Use.is_simple_glob", it.is_simple_glob()),
        None => Ok(()),
    }
}

fn use_tree(sheet: &mut Sheet, node: &SyntaxNode) -> Result<(), AllocError> {
    let Some(it) = cast_ref::<ast::UseTree>(node) else {
        return Ok(());
    };
    sheet.flag("UseTree.is_simple_path", it.is_simple_path())?;
    sheet.node("UseTree.parent_use_tree_list", it.parent_use_tree_list())?;
    sheet.node("UseTree.top_use_tree", Some(it.top_use_tree()))
}

fn use_tree_list(sheet: &mut Sheet, node: &SyntaxNode) -> Result<(), AllocError> {
    let Some(it) = cast_ref::<ast::UseTreeList>(node) else {
        return Ok(());
    };
    sheet.node("UseTreeList.parent_use_tree", it.parent_use_tree())?;
    sheet.flag("UseTreeList.has_inner_comment", it.has_inner_comment())?;
    sheet.tokens("UseTreeList.comma", it.comma())
}
