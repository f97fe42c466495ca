// Plain lookups in generic parameters and arguments, bounds and where clauses. Made by
// `tools/views` from `views.txt`.
use crate::sheet::Sheet;
use ra_ap_syntax::SyntaxNode;
use ra_ap_syntax::ast::{self, AstNode, cast_ref};
use std::alloc::AllocError;

/// Prints the results, for a node, of the plain lookups in generic parameters and arguments, bounds
/// and where clauses.
pub fn answers(sheet: &mut Sheet, node: &SyntaxNode) -> Result<(), AllocError> {
    of_assoc_type_arg(sheet, node)?;
    of_const_arg(sheet, node)?;
    of_const_param(sheet, node)?;
    of_for_binder(sheet, node)?;
    of_generic_arg_list(sheet, node)?;
    of_generic_param_list(sheet, node)?;
    of_lifetime_arg(sheet, node)?;
    of_lifetime_param(sheet, node)?;
    from_type_arg(sheet, node)
}

fn from_type_arg(sheet: &mut Sheet, node: &SyntaxNode) -> Result<(), AllocError> {
    of_type_arg(sheet, node)?;
    of_type_bound(sheet, node)?;
    of_type_bound_list(sheet, node)?;
    of_type_param(sheet, node)?;
    of_use_bound_generic_args(sheet, node)?;
    of_where_clause(sheet, node)?;
    of_where_pred(sheet, node)
}

fn of_assoc_type_arg(sheet: &mut Sheet, node: &SyntaxNode) -> Result<(), AllocError> {
    let Some(it) = cast_ref::<ast::AssocTypeArg>(node) else {
        return Ok(());
    };
    sheet.node("AssocTypeArg.param_list", it.param_list())?;
    sheet.node("AssocTypeArg.name_ref", it.name_ref())?;
    sheet.node("AssocTypeArg.ty", it.ty())?;
    sheet.token("AssocTypeArg.eq_token", it.eq_token())?;
    rest_of_assoc_type_arg(sheet, &it)
}

fn rest_of_assoc_type_arg(sheet: &mut Sheet, it: &ast::AssocTypeArg) -> Result<(), AllocError> {
    sheet.node("AssocTypeArg.const_arg", it.const_arg())?;
    sheet.node("AssocTypeArg.ret_type", it.ret_type())
}

fn of_const_arg(sheet: &mut Sheet, node: &SyntaxNode) -> Result<(), AllocError> {
    let Some(it) = cast_ref::<ast::ConstArg>(node) else {
        return Ok(());
    };
    sheet.node("ConstArg.expr", it.expr())
}

fn of_const_param(sheet: &mut Sheet, node: &SyntaxNode) -> Result<(), AllocError> {
    let Some(it) = cast_ref::<ast::ConstParam>(node) else {
        return Ok(());
    };
    sheet.node("ConstParam.default_val", it.default_val())?;
    sheet.node("ConstParam.ty", it.ty())?;
    sheet.token("ConstParam.colon_token", it.colon_token())?;
    sheet.token("ConstParam.const_token", it.const_token())?;
    sheet.token("ConstParam.eq_token", it.eq_token())
}

fn of_for_binder(sheet: &mut Sheet, node: &SyntaxNode) -> Result<(), AllocError> {
    let Some(it) = cast_ref::<ast::ForBinder>(node) else {
        return Ok(());
    };
    sheet.node("ForBinder.generic_param_list", it.generic_param_list())?;
    sheet.token("ForBinder.for_token", it.for_token())
}

fn of_generic_arg_list(sheet: &mut Sheet, node: &SyntaxNode) -> Result<(), AllocError> {
    let Some(it) = cast_ref::<ast::GenericArgList>(node) else {
        return Ok(());
    };
    sheet.nodes("GenericArgList.generic_args", it.generic_args())?;
    sheet.token("GenericArgList.coloncolon_token", it.coloncolon_token())?;
    sheet.token("GenericArgList.l_angle_token", it.l_angle_token())?;
    sheet.token("GenericArgList.r_angle_token", it.r_angle_token())
}

fn of_generic_param_list(sheet: &mut Sheet, node: &SyntaxNode) -> Result<(), AllocError> {
    let Some(it) = cast_ref::<ast::GenericParamList>(node) else {
        return Ok(());
    };
    sheet.nodes("GenericParamList.generic_params", it.generic_params())?;
    sheet.token("GenericParamList.l_angle_token", it.l_angle_token())?;
    sheet.token("GenericParamList.r_angle_token", it.r_angle_token())
}

fn of_lifetime_arg(sheet: &mut Sheet, node: &SyntaxNode) -> Result<(), AllocError> {
    let Some(it) = cast_ref::<ast::LifetimeArg>(node) else {
        return Ok(());
    };
    sheet.node("LifetimeArg.lifetime", it.lifetime())
}

fn of_lifetime_param(sheet: &mut Sheet, node: &SyntaxNode) -> Result<(), AllocError> {
    let Some(it) = cast_ref::<ast::LifetimeParam>(node) else {
        return Ok(());
    };
    sheet.node("LifetimeParam.lifetime", it.lifetime())
}

fn of_type_arg(sheet: &mut Sheet, node: &SyntaxNode) -> Result<(), AllocError> {
    let Some(it) = cast_ref::<ast::TypeArg>(node) else {
        return Ok(());
    };
    sheet.node("TypeArg.ty", it.ty())
}

fn of_type_bound(sheet: &mut Sheet, node: &SyntaxNode) -> Result<(), AllocError> {
    let Some(it) = cast_ref::<ast::TypeBound>(node) else {
        return Ok(());
    };
    sheet.node("TypeBound.for_binder", it.for_binder())?;
    sheet.node("TypeBound.ty", it.ty())?;
    sheet.token("TypeBound.question_mark_token", it.question_mark_token())?;
    sheet.token("TypeBound.async_token", it.async_token())?;
    rest_of_type_bound(sheet, &it)
}

fn rest_of_type_bound(sheet: &mut Sheet, it: &ast::TypeBound) -> Result<(), AllocError> {
    sheet.token("TypeBound.const_token", it.const_token())?;
    sheet.token("TypeBound.l_brack_token", it.l_brack_token())?;
    sheet.token("TypeBound.r_brack_token", it.r_brack_token())?;
    sheet.token("TypeBound.tilde_token", it.tilde_token())?;
    sheet.node("TypeBound.lifetime", it.lifetime())?;
    sheet.node(
        "TypeBound.use_bound_generic_args",
        it.use_bound_generic_args(),
    )?;
    sheet.token("TypeBound.use_token", it.use_token())
}

fn of_type_bound_list(sheet: &mut Sheet, node: &SyntaxNode) -> Result<(), AllocError> {
    let Some(it) = cast_ref::<ast::TypeBoundList>(node) else {
        return Ok(());
    };
    sheet.nodes("TypeBoundList.bounds", it.bounds())
}

fn of_type_param(sheet: &mut Sheet, node: &SyntaxNode) -> Result<(), AllocError> {
    let Some(it) = cast_ref::<ast::TypeParam>(node) else {
        return Ok(());
    };
    sheet.node("TypeParam.default_type", it.default_type())?;
    sheet.token("TypeParam.eq_token", it.eq_token())
}

fn of_use_bound_generic_args(sheet: &mut Sheet, node: &SyntaxNode) -> Result<(), AllocError> {
    let Some(it) = cast_ref::<ast::UseBoundGenericArgs>(node) else {
        return Ok(());
    };
    sheet.token("UseBoundGenericArgs.l_angle_token", it.l_angle_token())?;
    sheet.token("UseBoundGenericArgs.r_angle_token", it.r_angle_token())
}

fn of_where_clause(sheet: &mut Sheet, node: &SyntaxNode) -> Result<(), AllocError> {
    let Some(it) = cast_ref::<ast::WhereClause>(node) else {
        return Ok(());
    };
    sheet.nodes("WhereClause.predicates", it.predicates())?;
    sheet.token("WhereClause.where_token", it.where_token())
}

fn of_where_pred(sheet: &mut Sheet, node: &SyntaxNode) -> Result<(), AllocError> {
    let Some(it) = cast_ref::<ast::WherePred>(node) else {
        return Ok(());
    };
    sheet.node("WherePred.for_binder", it.for_binder())?;
    sheet.node("WherePred.ty", it.ty())?;
    sheet.node("WherePred.lifetime", it.lifetime())
}
