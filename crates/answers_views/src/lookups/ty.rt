// Plain lookups in types. Made by `tools/views` from `views.txt`.
use crate::sheet::Sheet;
use ra_ap_syntax::SyntaxNode;
use ra_ap_syntax::ast::{self, AstNode, cast_ref};
use std::alloc::AllocError;

/// Prints the results, for a node, of the plain lookups in types.
pub fn answers(sheet: &mut Sheet, node: &SyntaxNode) -> Result<(), AllocError> {
    of_array_type(sheet, node)?;
    of_dyn_trait_type(sheet, node)?;
    of_fn_ptr_type(sheet, node)?;
    of_for_type(sheet, node)?;
    of_impl_trait_type(sheet, node)?;
    of_infer_type(sheet, node)?;
    of_macro_type(sheet, node)?;
    of_never_type(sheet, node)?;
    from_paren_type(sheet, node)
}

fn from_paren_type(sheet: &mut Sheet, node: &SyntaxNode) -> Result<(), AllocError> {
    of_paren_type(sheet, node)?;
    of_path_type(sheet, node)?;
    of_ptr_type(sheet, node)?;
    of_ref_type(sheet, node)?;
    of_ret_type(sheet, node)?;
    of_slice_type(sheet, node)?;
    of_tuple_type(sheet, node)
}

fn of_array_type(sheet: &mut Sheet, node: &SyntaxNode) -> Result<(), AllocError> {
    let Some(it) = cast_ref::<ast::ArrayType>(node) else {
        return Ok(());
    };
    sheet.node("ArrayType.const_arg", it.const_arg())?;
    sheet.node("ArrayType.ty", it.ty())?;
    sheet.token("ArrayType.l_brack_token", it.l_brack_token())?;
    sheet.token("ArrayType.r_brack_token", it.r_brack_token())?;
    sheet.token("ArrayType.semicolon_token", it.semicolon_token())
}

fn of_dyn_trait_type(sheet: &mut Sheet, node: &SyntaxNode) -> Result<(), AllocError> {
    let Some(it) = cast_ref::<ast::DynTraitType>(node) else {
        return Ok(());
    };
    sheet.node("DynTraitType.type_bound_list", it.type_bound_list())?;
    sheet.token("DynTraitType.dyn_token", it.dyn_token())
}

fn of_fn_ptr_type(sheet: &mut Sheet, node: &SyntaxNode) -> Result<(), AllocError> {
    let Some(it) = cast_ref::<ast::FnPtrType>(node) else {
        return Ok(());
    };
    sheet.token("FnPtrType.async_token", it.async_token())?;
    sheet.token("FnPtrType.const_token", it.const_token())?;
    sheet.node("FnPtrType.abi", it.abi())?;
    sheet.node("FnPtrType.param_list", it.param_list())?;
    rest_of_fn_ptr_type(sheet, &it)
}

fn rest_of_fn_ptr_type(sheet: &mut Sheet, it: &ast::FnPtrType) -> Result<(), AllocError> {
    sheet.node("FnPtrType.ret_type", it.ret_type())?;
    sheet.token("FnPtrType.fn_token", it.fn_token())?;
    sheet.token("FnPtrType.unsafe_token", it.unsafe_token())
}

fn of_for_type(sheet: &mut Sheet, node: &SyntaxNode) -> Result<(), AllocError> {
    let Some(it) = cast_ref::<ast::ForType>(node) else {
        return Ok(());
    };
    sheet.node("ForType.for_binder", it.for_binder())?;
    sheet.node("ForType.ty", it.ty())
}

fn of_impl_trait_type(sheet: &mut Sheet, node: &SyntaxNode) -> Result<(), AllocError> {
    let Some(it) = cast_ref::<ast::ImplTraitType>(node) else {
        return Ok(());
    };
    sheet.node("ImplTraitType.type_bound_list", it.type_bound_list())?;
    sheet.token("ImplTraitType.impl_token", it.impl_token())
}

fn of_infer_type(sheet: &mut Sheet, node: &SyntaxNode) -> Result<(), AllocError> {
    let Some(it) = cast_ref::<ast::InferType>(node) else {
        return Ok(());
    };
    sheet.token("InferType.underscore_token", it.underscore_token())
}

fn of_macro_type(sheet: &mut Sheet, node: &SyntaxNode) -> Result<(), AllocError> {
    let Some(it) = cast_ref::<ast::MacroType>(node) else {
        return Ok(());
    };
    sheet.node("MacroType.macro_call", it.macro_call())
}

fn of_never_type(sheet: &mut Sheet, node: &SyntaxNode) -> Result<(), AllocError> {
    let Some(it) = cast_ref::<ast::NeverType>(node) else {
        return Ok(());
    };
    sheet.token("NeverType.excl_token", it.excl_token())
}

fn of_paren_type(sheet: &mut Sheet, node: &SyntaxNode) -> Result<(), AllocError> {
    let Some(it) = cast_ref::<ast::ParenType>(node) else {
        return Ok(());
    };
    sheet.node("ParenType.ty", it.ty())?;
    sheet.token("ParenType.l_paren_token", it.l_paren_token())?;
    sheet.token("ParenType.r_paren_token", it.r_paren_token())
}

fn of_path_type(sheet: &mut Sheet, node: &SyntaxNode) -> Result<(), AllocError> {
    let Some(it) = cast_ref::<ast::PathType>(node) else {
        return Ok(());
    };
    sheet.node("PathType.path", it.path())
}

fn of_ptr_type(sheet: &mut Sheet, node: &SyntaxNode) -> Result<(), AllocError> {
    let Some(it) = cast_ref::<ast::PtrType>(node) else {
        return Ok(());
    };
    sheet.node("PtrType.ty", it.ty())?;
    sheet.token("PtrType.const_token", it.const_token())?;
    sheet.token("PtrType.star_token", it.star_token())?;
    sheet.token("PtrType.mut_token", it.mut_token())
}

fn of_ref_type(sheet: &mut Sheet, node: &SyntaxNode) -> Result<(), AllocError> {
    let Some(it) = cast_ref::<ast::RefType>(node) else {
        return Ok(());
    };
    sheet.node("RefType.lifetime", it.lifetime())?;
    sheet.node("RefType.ty", it.ty())?;
    sheet.token("RefType.amp_token", it.amp_token())?;
    sheet.token("RefType.mut_token", it.mut_token())
}

fn of_ret_type(sheet: &mut Sheet, node: &SyntaxNode) -> Result<(), AllocError> {
    let Some(it) = cast_ref::<ast::RetType>(node) else {
        return Ok(());
    };
    sheet.node("RetType.ty", it.ty())?;
    sheet.token("RetType.thin_arrow_token", it.thin_arrow_token())
}

fn of_slice_type(sheet: &mut Sheet, node: &SyntaxNode) -> Result<(), AllocError> {
    let Some(it) = cast_ref::<ast::SliceType>(node) else {
        return Ok(());
    };
    sheet.node("SliceType.ty", it.ty())?;
    sheet.token("SliceType.l_brack_token", it.l_brack_token())?;
    sheet.token("SliceType.r_brack_token", it.r_brack_token())
}

fn of_tuple_type(sheet: &mut Sheet, node: &SyntaxNode) -> Result<(), AllocError> {
    let Some(it) = cast_ref::<ast::TupleType>(node) else {
        return Ok(());
    };
    sheet.nodes("TupleType.fields", it.fields())?;
    sheet.token("TupleType.l_paren_token", it.l_paren_token())?;
    sheet.token("TupleType.r_paren_token", it.r_paren_token())
}
