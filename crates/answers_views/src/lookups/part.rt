// Plain lookups in parts of items. Made by `tools/views` from `views.txt`.
use crate::sheet::Sheet;
use ra_ap_syntax::SyntaxNode;
use ra_ap_syntax::ast::{self, AstNode, cast_ref};
use std::alloc::AllocError;

/// Prints the results, for a node, of the plain lookups in parts of items.
pub fn answers(sheet: &mut Sheet, node: &SyntaxNode) -> Result<(), AllocError> {
    of_abi(sheet, node)?;
    of_assoc_item_list(sheet, node)?;
    of_extern_item_list(sheet, node)?;
    of_item_list(sheet, node)?;
    of_macro_stmts(sheet, node)?;
    of_param(sheet, node)?;
    of_param_list(sheet, node)?;
    of_record_field(sheet, node)?;
    from_record_field_list(sheet, node)
}

fn from_record_field_list(sheet: &mut Sheet, node: &SyntaxNode) -> Result<(), AllocError> {
    of_record_field_list(sheet, node)?;
    of_self_param(sheet, node)?;
    of_tuple_field(sheet, node)?;
    of_tuple_field_list(sheet, node)?;
    of_use_tree(sheet, node)?;
    of_use_tree_list(sheet, node)?;
    of_variant(sheet, node)?;
    of_visibility(sheet, node)?;
    from_visibility_inner(sheet, node)
}

fn from_visibility_inner(sheet: &mut Sheet, node: &SyntaxNode) -> Result<(), AllocError> {
    of_visibility_inner(sheet, node)
}

fn of_abi(sheet: &mut Sheet, node: &SyntaxNode) -> Result<(), AllocError> {
    let Some(it) = cast_ref::<ast::Abi>(node) else {
        return Ok(());
    };
    sheet.token("Abi.extern_token", it.extern_token())?;
    sheet.token("Abi.string_token", it.string_token())
}

fn of_assoc_item_list(sheet: &mut Sheet, node: &SyntaxNode) -> Result<(), AllocError> {
    let Some(it) = cast_ref::<ast::AssocItemList>(node) else {
        return Ok(());
    };
    sheet.nodes("AssocItemList.assoc_items", it.assoc_items())?;
    sheet.token("AssocItemList.l_curly_token", it.l_curly_token())?;
    sheet.token("AssocItemList.r_curly_token", it.r_curly_token())
}

fn of_extern_item_list(sheet: &mut Sheet, node: &SyntaxNode) -> Result<(), AllocError> {
    let Some(it) = cast_ref::<ast::ExternItemList>(node) else {
        return Ok(());
    };
    sheet.nodes("ExternItemList.extern_items", it.extern_items())?;
    sheet.token("ExternItemList.l_curly_token", it.l_curly_token())?;
    sheet.token("ExternItemList.r_curly_token", it.r_curly_token())
}

fn of_item_list(sheet: &mut Sheet, node: &SyntaxNode) -> Result<(), AllocError> {
    let Some(it) = cast_ref::<ast::ItemList>(node) else {
        return Ok(());
    };
    sheet.token("ItemList.l_curly_token", it.l_curly_token())?;
    sheet.token("ItemList.r_curly_token", it.r_curly_token())
}

fn of_macro_stmts(sheet: &mut Sheet, node: &SyntaxNode) -> Result<(), AllocError> {
    let Some(it) = cast_ref::<ast::MacroStmts>(node) else {
        return Ok(());
    };
    sheet.node("MacroStmts.expr", it.expr())?;
    sheet.nodes("MacroStmts.statements", it.statements())
}

fn of_param(sheet: &mut Sheet, node: &SyntaxNode) -> Result<(), AllocError> {
    let Some(it) = cast_ref::<ast::Param>(node) else {
        return Ok(());
    };
    sheet.node("Param.pat", it.pat())?;
    sheet.node("Param.ty", it.ty())?;
    sheet.token("Param.colon_token", it.colon_token())?;
    sheet.token("Param.dotdotdot_token", it.dotdotdot_token())
}

fn of_param_list(sheet: &mut Sheet, node: &SyntaxNode) -> Result<(), AllocError> {
    let Some(it) = cast_ref::<ast::ParamList>(node) else {
        return Ok(());
    };
    sheet.nodes("ParamList.params", it.params())?;
    sheet.node("ParamList.self_param", it.self_param())?;
    sheet.token("ParamList.comma_token", it.comma_token())?;
    sheet.token("ParamList.l_paren_token", it.l_paren_token())?;
    rest_of_param_list(sheet, &it)
}

fn rest_of_param_list(sheet: &mut Sheet, it: &ast::ParamList) -> Result<(), AllocError> {
    sheet.token("ParamList.r_paren_token", it.r_paren_token())?;
    sheet.token("ParamList.pipe_token", it.pipe_token())
}

fn of_record_field(sheet: &mut Sheet, node: &SyntaxNode) -> Result<(), AllocError> {
    let Some(it) = cast_ref::<ast::RecordField>(node) else {
        return Ok(());
    };
    sheet.node("RecordField.default_val", it.default_val())?;
    sheet.node("RecordField.ty", it.ty())?;
    sheet.token("RecordField.colon_token", it.colon_token())?;
    sheet.token("RecordField.eq_token", it.eq_token())?;
    sheet.token("RecordField.unsafe_token", it.unsafe_token())
}

fn of_record_field_list(sheet: &mut Sheet, node: &SyntaxNode) -> Result<(), AllocError> {
    let Some(it) = cast_ref::<ast::RecordFieldList>(node) else {
        return Ok(());
    };
    sheet.nodes("RecordFieldList.fields", it.fields())?;
    sheet.token("RecordFieldList.l_curly_token", it.l_curly_token())?;
    sheet.token("RecordFieldList.r_curly_token", it.r_curly_token())
}

fn of_self_param(sheet: &mut Sheet, node: &SyntaxNode) -> Result<(), AllocError> {
    let Some(it) = cast_ref::<ast::SelfParam>(node) else {
        return Ok(());
    };
    sheet.node("SelfParam.lifetime", it.lifetime())?;
    sheet.token("SelfParam.amp_token", it.amp_token())?;
    sheet.token("SelfParam.mut_token", it.mut_token())?;
    sheet.node("SelfParam.ty", it.ty())?;
    sheet.token("SelfParam.colon_token", it.colon_token())
}

fn of_tuple_field(sheet: &mut Sheet, node: &SyntaxNode) -> Result<(), AllocError> {
    let Some(it) = cast_ref::<ast::TupleField>(node) else {
        return Ok(());
    };
    sheet.node("TupleField.ty", it.ty())
}

fn of_tuple_field_list(sheet: &mut Sheet, node: &SyntaxNode) -> Result<(), AllocError> {
    let Some(it) = cast_ref::<ast::TupleFieldList>(node) else {
        return Ok(());
    };
    sheet.nodes("TupleFieldList.fields", it.fields())?;
    sheet.token("TupleFieldList.l_paren_token", it.l_paren_token())?;
    sheet.token("TupleFieldList.r_paren_token", it.r_paren_token())
}

fn of_use_tree(sheet: &mut Sheet, node: &SyntaxNode) -> Result<(), AllocError> {
    let Some(it) = cast_ref::<ast::UseTree>(node) else {
        return Ok(());
    };
    sheet.node("UseTree.path", it.path())?;
    sheet.node("UseTree.use_tree_list", it.use_tree_list())?;
    sheet.token("UseTree.coloncolon_token", it.coloncolon_token())?;
    sheet.token("UseTree.star_token", it.star_token())
}

fn of_use_tree_list(sheet: &mut Sheet, node: &SyntaxNode) -> Result<(), AllocError> {
    let Some(it) = cast_ref::<ast::UseTreeList>(node) else {
        return Ok(());
    };
    sheet.nodes("UseTreeList.use_trees", it.use_trees())?;
    sheet.token("UseTreeList.l_curly_token", it.l_curly_token())?;
    sheet.token("UseTreeList.r_curly_token", it.r_curly_token())
}

fn of_variant(sheet: &mut Sheet, node: &SyntaxNode) -> Result<(), AllocError> {
    let Some(it) = cast_ref::<ast::Variant>(node) else {
        return Ok(());
    };
    sheet.node("Variant.const_arg", it.const_arg())?;
    sheet.token("Variant.eq_token", it.eq_token())
}

fn of_visibility(sheet: &mut Sheet, node: &SyntaxNode) -> Result<(), AllocError> {
    let Some(it) = cast_ref::<ast::Visibility>(node) else {
        return Ok(());
    };
    sheet.node("Visibility.visibility_inner", it.visibility_inner())?;
    sheet.token("Visibility.pub_token", it.pub_token())
}

fn of_visibility_inner(sheet: &mut Sheet, node: &SyntaxNode) -> Result<(), AllocError> {
    let Some(it) = cast_ref::<ast::VisibilityInner>(node) else {
        return Ok(());
    };
    sheet.node("VisibilityInner.path", it.path())?;
    sheet.token("VisibilityInner.in_token", it.in_token())?;
    sheet.token("VisibilityInner.l_paren_token", it.l_paren_token())?;
    sheet.token("VisibilityInner.r_paren_token", it.r_paren_token())
}
