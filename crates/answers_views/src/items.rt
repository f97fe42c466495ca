// Items, patterns and types: accessors that are not plain lookups.
use crate::sheet::Sheet;
use ra_ap_syntax::SyntaxNode;
use ra_ap_syntax::ast::{self, AstNode, StructKind, TypeBoundKind, VisibilityKind, cast_ref};
use std::alloc::AllocError;

/// Prints the results, for a node, of the accessors of items, patterns and types that are not plain
/// lookups.
pub fn answers(sheet: &mut Sheet, node: &SyntaxNode) -> Result<(), AllocError> {
    macros(sheet, node)?;
    impls(sheet, node)?;
    generics(sheet, node)?;
    lifetimes(sheet, node)?;
    structs(sheet, node)?;
    parents(sheet, node)?;
    answers_from_visibility(sheet, node)
}

fn answers_from_visibility(sheet: &mut Sheet, node: &SyntaxNode) -> Result<(), AllocError> {
    visibility(sheet, node)?;
    visibility_inner(sheet, node)?;
    slice_pat(sheet, node)?;
    patterns(sheet, node)?;
    record_pat_field(sheet, node)?;
    type_bound(sheet, node)?;
    types(sheet, node)
}

fn macros(sheet: &mut Sheet, node: &SyntaxNode) -> Result<(), AllocError> {
    let Some(it) = cast_ref::<ast::MacroDef>(node) else {
        return Ok(());
    };
    sheet.node("MacroDef.args", it.args())?;
    sheet.node("MacroDef.body", it.body())
}

fn impls(sheet: &mut Sheet, node: &SyntaxNode) -> Result<(), AllocError> {
    impl_item(sheet, node)?;
    impl_around_name(sheet, node)
}

fn impl_item(sheet: &mut Sheet, node: &SyntaxNode) -> Result<(), AllocError> {
    let Some(it) = cast_ref::<ast::Impl>(node) else {
        return Ok(());
    };
    sheet.node("Impl.trait_", it.trait_())?;
    sheet.node("Impl.self_ty", it.self_ty())
}

fn impl_around_name(sheet: &mut Sheet, node: &SyntaxNode) -> Result<(), AllocError> {
    match cast_ref::<ast::NameRef>(node) {
        Some(it) => sheet.node(
            "Impl.for_trait_name_ref",
            ast::Impl::for_trait_name_ref(&it),
        ),
        None => Ok(()),
    }
}

fn item_generics(sheet: &mut Sheet, node: &SyntaxNode) -> Result<(), AllocError> {
    match cast_ref::<ast::Item>(node) {
        Some(it) => sheet.node("Item.generic_param_list", it.generic_param_list()),
        None => Ok(()),
    }
}

fn generics(sheet: &mut Sheet, node: &SyntaxNode) -> Result<(), AllocError> {
    item_generics(sheet, node)?;
    match cast_ref::<ast::TypeOrConstParam>(node) {
        Some(it) => sheet.node("TypeOrConstParam.name", it.name()),
        None => Ok(()),
    }
}

fn lifetimes(sheet: &mut Sheet, node: &SyntaxNode) -> Result<(), AllocError> {
    lifetime_param(sheet, node)?;
    generic_arg_list(sheet, node)?;
    generic_param_list(sheet, node)
}

fn lifetime_param(sheet: &mut Sheet, node: &SyntaxNode) -> Result<(), AllocError> {
    match cast_ref::<ast::LifetimeParam>(node) {
        Some(it) => sheet.tokens("LifetimeParam.lifetime_bounds", it.lifetime_bounds()),
        None => Ok(()),
    }
}

fn generic_arg_list(sheet: &mut Sheet, node: &SyntaxNode) -> Result<(), AllocError> {
    match cast_ref::<ast::GenericArgList>(node) {
        Some(it) => sheet.nodes("GenericArgList.lifetime_args", it.lifetime_args()),
        None => Ok(()),
    }
}

fn generic_param_list(sheet: &mut Sheet, node: &SyntaxNode) -> Result<(), AllocError> {
    let Some(it) = cast_ref::<ast::GenericParamList>(node) else {
        return Ok(());
    };
    sheet.nodes("GenericParamList.lifetime_params", it.lifetime_params())?;
    let others = it.type_or_const_params();
    sheet.nodes("GenericParamList.type_or_const_params", others)
}

fn field_list<N: AstNode + Drop>(
    sheet: &mut Sheet,
    call: &str,
    kind: &str,
    list: &str,
    fields: N,
) -> Result<(), AllocError> {
    sheet.word(call, kind)?;
    sheet.node(list, Some(fields))
}

fn struct_kind(
    sheet: &mut Sheet,
    call: &str,
    list: &str,
    kind: StructKind,
) -> Result<(), AllocError> {
    match kind {
        StructKind::Record(fields) => field_list(sheet, call, "Record", list, fields),
        StructKind::Tuple(fields) => field_list(sheet, call, "Tuple", list, fields),
        StructKind::Unit => sheet.word(call, "Unit"),
    }
}

fn structs(sheet: &mut Sheet, node: &SyntaxNode) -> Result<(), AllocError> {
    struct_item(sheet, node)?;
    union_item(sheet, node)?;
    variant(sheet, node)
}

fn struct_item(sheet: &mut Sheet, node: &SyntaxNode) -> Result<(), AllocError> {
    match cast_ref::<ast::Struct>(node) {
        Some(it) => struct_kind(sheet, "Struct.kind", "Struct.kind.0", it.kind()),
        None => Ok(()),
    }
}

fn union_item(sheet: &mut Sheet, node: &SyntaxNode) -> Result<(), AllocError> {
    match cast_ref::<ast::Union>(node) {
        Some(it) => struct_kind(sheet, "Union.kind", "Union.kind.0", it.kind()),
        None => Ok(()),
    }
}

fn variant(sheet: &mut Sheet, node: &SyntaxNode) -> Result<(), AllocError> {
    let Some(it) = cast_ref::<ast::Variant>(node) else {
        return Ok(());
    };
    struct_kind(sheet, "Variant.kind", "Variant.kind.0", it.kind())?;
    sheet.node("Variant.parent_enum", it.parent_enum())
}

fn parents(sheet: &mut Sheet, node: &SyntaxNode) -> Result<(), AllocError> {
    module(sheet, node)?;
    abi(sheet, node)?;
    self_param(sheet, node)
}

fn module(sheet: &mut Sheet, node: &SyntaxNode) -> Result<(), AllocError> {
    match cast_ref::<ast::Module>(node) {
        Some(it) => sheet.node("Module.parent", it.parent()),
        None => Ok(()),
    }
}

fn abi(sheet: &mut Sheet, node: &SyntaxNode) -> Result<(), AllocError> {
    match cast_ref::<ast::Abi>(node) {
        Some(it) => sheet.typed_token("Abi.abi_string", it.abi_string()),
        None => Ok(()),
    }
}

fn self_param(sheet: &mut Sheet, node: &SyntaxNode) -> Result<(), AllocError> {
    match cast_ref::<ast::SelfParam>(node) {
        Some(it) => sheet.value("SelfParam.kind", Some(it.kind())),
        None => Ok(()),
    }
}

fn seen(sheet: &mut Sheet, call: &str, path: &str, kind: VisibilityKind) -> Result<(), AllocError> {
    match kind {
        VisibilityKind::In(it) => {
            sheet.word(call, "In")?;
            sheet.node(path, Some(it))
        }
        VisibilityKind::PubCrate => sheet.word(call, "PubCrate"),
        VisibilityKind::PubSuper => sheet.word(call, "PubSuper"),
        VisibilityKind::PubSelf => sheet.word(call, "PubSelf"),
        VisibilityKind::Pub => sheet.word(call, "Pub"),
    }
}

fn visibility(sheet: &mut Sheet, node: &SyntaxNode) -> Result<(), AllocError> {
    match cast_ref::<ast::Visibility>(node) {
        Some(it) => seen(sheet, "Visibility.kind", "Visibility.kind.0", it.kind()),
        None => Ok(()),
    }
}

fn visibility_inner(sheet: &mut Sheet, node: &SyntaxNode) -> Result<(), AllocError> {
    match cast_ref::<ast::VisibilityInner>(node) {
        Some(it) => seen(
            sheet,
            "VisibilityInner.kind",
            "VisibilityInner.kind.0",
            it.kind(),
        ),
        None => Ok(()),
    }
}

fn slice_pat(sheet: &mut Sheet, node: &SyntaxNode) -> Result<(), AllocError> {
    let Some(it) = cast_ref::<ast::SlicePat>(node) else {
        return Ok(());
    };
    let Ok(parts) = it.components(sheet.alloc()) else {
        return sheet.refused("SlicePat.components");
    };
    sheet.slice("SlicePat.components.prefix", parts.prefix.as_slice())?;
    sheet.slice("SlicePat.components.suffix", parts.suffix.as_slice())?;
    sheet.node("SlicePat.components.slice", parts.slice)
}

fn patterns(sheet: &mut Sheet, node: &SyntaxNode) -> Result<(), AllocError> {
    or_pat(sheet, node)?;
    ident_pat(sheet, node)
}

fn or_pat(sheet: &mut Sheet, node: &SyntaxNode) -> Result<(), AllocError> {
    match cast_ref::<ast::OrPat>(node) {
        Some(it) => sheet.token("OrPat.leading_pipe", it.leading_pipe()),
        None => Ok(()),
    }
}

fn ident_pat(sheet: &mut Sheet, node: &SyntaxNode) -> Result<(), AllocError> {
    match cast_ref::<ast::IdentPat>(node) {
        Some(it) => sheet.flag("IdentPat.is_simple_ident", it.is_simple_ident()),
        None => Ok(()),
    }
}

fn record_pat_field(sheet: &mut Sheet, node: &SyntaxNode) -> Result<(), AllocError> {
    field_of_record_pat(sheet, node)?;
    field_around_name_ref(sheet, node)?;
    field_around_name(sheet, node)
}

fn field_of_record_pat(sheet: &mut Sheet, node: &SyntaxNode) -> Result<(), AllocError> {
    let Some(it) = cast_ref::<ast::RecordPatField>(node) else {
        return Ok(());
    };
    sheet.node("RecordPatField.field_name", it.field_name())?;
    sheet.node("RecordPatField.parent_record_pat", it.parent_record_pat())
}

fn field_around_name_ref(sheet: &mut Sheet, node: &SyntaxNode) -> Result<(), AllocError> {
    match cast_ref::<ast::NameRef>(node) {
        Some(it) => sheet.node(
            "RecordPatField.for_field_name_ref",
            ast::RecordPatField::for_field_name_ref(&it),
        ),
        None => Ok(()),
    }
}

fn field_around_name(sheet: &mut Sheet, node: &SyntaxNode) -> Result<(), AllocError> {
    match cast_ref::<ast::Name>(node) {
        Some(it) => sheet.node(
            "RecordPatField.for_field_name",
            ast::RecordPatField::for_field_name(&it),
        ),
        None => Ok(()),
    }
}

fn type_bound(sheet: &mut Sheet, node: &SyntaxNode) -> Result<(), AllocError> {
    match cast_ref::<ast::TypeBound>(node) {
        Some(it) => bound_kind(sheet, it.kind()),
        None => Ok(()),
    }
}

fn bound_kind(sheet: &mut Sheet, found: Option<TypeBoundKind>) -> Result<(), AllocError> {
    match found {
        Some(TypeBoundKind::PathType(binder, path)) => path_bound(sheet, binder, path),
        Some(TypeBoundKind::Use(captured)) => one_bound(sheet, "Use", captured),
        Some(TypeBoundKind::Lifetime(lifetime)) => one_bound(sheet, "Lifetime", lifetime),
        None => sheet.word("TypeBound.kind", "-"),
    }
}

fn path_bound(
    sheet: &mut Sheet,
    binder: Option<ast::ForBinder>,
    path: ast::PathType,
) -> Result<(), AllocError> {
    sheet.word("TypeBound.kind", "PathType")?;
    sheet.node("TypeBound.kind.0", binder)?;
    sheet.node("TypeBound.kind.1", Some(path))
}

fn one_bound<N: AstNode + Drop>(sheet: &mut Sheet, kind: &str, bound: N) -> Result<(), AllocError> {
    sheet.word("TypeBound.kind", kind)?;
    sheet.node("TypeBound.kind.0", Some(bound))
}

fn types(sheet: &mut Sheet, node: &SyntaxNode) -> Result<(), AllocError> {
    match cast_ref::<ast::Type>(node) {
        Some(it) => type_parts(sheet, &it),
        None => Ok(()),
    }
}

fn type_parts(sheet: &mut Sheet, it: &ast::Type) -> Result<(), AllocError> {
    sheet.node("Type.generic_arg_list", it.generic_arg_list())?;
    sheet.flag("Type.needs_angles_in_path", it.needs_angles_in_path())
}
