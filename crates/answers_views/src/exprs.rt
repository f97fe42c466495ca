// Expressions: accessors that are not plain lookups.
use crate::sheet::Sheet;
use ra_ap_syntax::ast::{self, AstNode, BinaryOp, RangeItem, cast_ref};
use ra_ap_syntax::{SyntaxNode, SyntaxToken};
use std::alloc::AllocError;

/// Prints the results, for a node, of the accessors of expressions that are not plain lookups.
pub fn answers(sheet: &mut Sheet, node: &SyntaxNode) -> Result<(), AllocError> {
    expr(sheet, node)?;
    callable_expr(sheet, node)?;
    branches(sheet, node)?;
    loops(sheet, node)?;
    prefix(sheet, node)?;
    binary(sheet, node)?;
    range_expr(sheet, node)?;
    range_pat(sheet, node)?;
    answers_from_places(sheet, node)
}

fn answers_from_places(sheet: &mut Sheet, node: &SyntaxNode) -> Result<(), AllocError> {
    places(sheet, node)?;
    array(sheet, node)?;
    literal(sheet, node)?;
    block(sheet, node)?;
    arguments(sheet, node)?;
    field(sheet, node)?;
    record_field(sheet, node)?;
    name_ref_in_record_field(sheet, node)
}

fn expr(sheet: &mut Sheet, node: &SyntaxNode) -> Result<(), AllocError> {
    match cast_ref::<ast::Expr>(node) {
        Some(it) => sheet.flag("Expr.is_block_like", it.is_block_like()),
        None => Ok(()),
    }
}

fn callable_expr(sheet: &mut Sheet, node: &SyntaxNode) -> Result<(), AllocError> {
    match cast_ref::<ast::CallableExpr>(node) {
        Some(ast::CallableExpr::Call(_)) => sheet.word("CallableExpr", "Call"),
        Some(ast::CallableExpr::MethodCall(_)) => sheet.word("CallableExpr", "MethodCall"),
        None => Ok(()),
    }
}

fn else_branch(sheet: &mut Sheet, found: &Option<ast::ElseBranch>) -> Result<(), AllocError> {
    let variant = match found {
        Some(ast::ElseBranch::Block(_)) => "Block",
        Some(ast::ElseBranch::IfExpr(_)) => "IfExpr",
        None => "-",
    };
    sheet.word("IfExpr.else_branch", variant)
}

fn branches(sheet: &mut Sheet, node: &SyntaxNode) -> Result<(), AllocError> {
    let Some(it) = cast_ref::<ast::IfExpr>(node) else {
        return Ok(());
    };
    sheet.node("IfExpr.condition", it.condition())?;
    sheet.node("IfExpr.then_branch", it.then_branch())?;
    else_branch(sheet, &it.else_branch())?;
    sheet.node("IfExpr.else_branch.0", it.else_branch())
}

fn loops(sheet: &mut Sheet, node: &SyntaxNode) -> Result<(), AllocError> {
    while_expr(sheet, node)?;
    for_expr(sheet, node)?;
    match_arm(sheet, node)
}

fn while_expr(sheet: &mut Sheet, node: &SyntaxNode) -> Result<(), AllocError> {
    match cast_ref::<ast::WhileExpr>(node) {
        Some(it) => sheet.node("WhileExpr.condition", it.condition()),
        None => Ok(()),
    }
}

fn for_expr(sheet: &mut Sheet, node: &SyntaxNode) -> Result<(), AllocError> {
    match cast_ref::<ast::ForExpr>(node) {
        Some(it) => sheet.node("ForExpr.iterable", it.iterable()),
        None => Ok(()),
    }
}

fn match_arm(sheet: &mut Sheet, node: &SyntaxNode) -> Result<(), AllocError> {
    match cast_ref::<ast::MatchArm>(node) {
        Some(it) => sheet.node("MatchArm.parent_match", it.parent_match()),
        None => Ok(()),
    }
}

fn prefix(sheet: &mut Sheet, node: &SyntaxNode) -> Result<(), AllocError> {
    let Some(it) = cast_ref::<ast::PrefixExpr>(node) else {
        return Ok(());
    };
    sheet.token("PrefixExpr.op_token", it.op_token())?;
    sheet.value("PrefixExpr.op_kind", it.op_kind())
}

fn operator(sheet: &mut Sheet, found: Option<BinaryOp>) -> Result<(), AllocError> {
    sheet.value("BinExpr.op_kind", found)?;
    match found {
        Some(op) => sheet.shown("BinExpr.op_kind.text", op),
        None => Ok(()),
    }
}

fn sub_exprs<N: AstNode + Drop>(
    sheet: &mut Sheet,
    found: (Option<N>, Option<N>),
) -> Result<(), AllocError> {
    let (left, right) = found;
    sheet.node("BinExpr.sub_exprs.0", left)?;
    sheet.node("BinExpr.sub_exprs.1", right)
}

fn op_details(sheet: &mut Sheet, found: Option<(SyntaxToken, BinaryOp)>) -> Result<(), AllocError> {
    match found {
        Some((token, op)) => {
            sheet.token("BinExpr.op_details.0", Some(token))?;
            sheet.value("BinExpr.op_details.1", Some(op))
        }
        None => sheet.word("BinExpr.op_details.0", "-"),
    }
}

fn binary(sheet: &mut Sheet, node: &SyntaxNode) -> Result<(), AllocError> {
    let Some(it) = cast_ref::<ast::BinExpr>(node) else {
        return Ok(());
    };
    sheet.node("BinExpr.lhs", it.lhs())?;
    sheet.node("BinExpr.rhs", it.rhs())?;
    sub_exprs(sheet, it.sub_exprs())?;
    sheet.token("BinExpr.op_token", it.op_token())?;
    operator(sheet, it.op_kind())?;
    op_details(sheet, it.op_details())
}

fn range_expr_ends(sheet: &mut Sheet, it: &ast::RangeExpr) -> Result<(), AllocError> {
    sheet.node("RangeExpr.start", it.start())?;
    sheet.node("RangeExpr.end", it.end())
}

fn range_expr_operator(sheet: &mut Sheet, it: &ast::RangeExpr) -> Result<(), AllocError> {
    sheet.token("RangeExpr.op_token", it.op_token())?;
    sheet.value("RangeExpr.op_kind", it.op_kind())?;
    sheet.flag("RangeExpr.is_range_full", it.is_range_full())
}

fn range_expr(sheet: &mut Sheet, node: &SyntaxNode) -> Result<(), AllocError> {
    let Some(it) = cast_ref::<ast::RangeExpr>(node) else {
        return Ok(());
    };
    range_expr_ends(sheet, &it)?;
    range_expr_operator(sheet, &it)
}

fn range_pat_ends(sheet: &mut Sheet, it: &ast::RangePat) -> Result<(), AllocError> {
    sheet.node("RangePat.start", it.start())?;
    sheet.node("RangePat.end", it.end())
}

fn range_pat_operator(sheet: &mut Sheet, it: &ast::RangePat) -> Result<(), AllocError> {
    sheet.token("RangePat.op_token", it.op_token())?;
    sheet.value("RangePat.op_kind", it.op_kind())
}

fn range_pat(sheet: &mut Sheet, node: &SyntaxNode) -> Result<(), AllocError> {
    let Some(it) = cast_ref::<ast::RangePat>(node) else {
        return Ok(());
    };
    range_pat_ends(sheet, &it)?;
    range_pat_operator(sheet, &it)
}

fn places(sheet: &mut Sheet, node: &SyntaxNode) -> Result<(), AllocError> {
    let Some(it) = cast_ref::<ast::IndexExpr>(node) else {
        return Ok(());
    };
    sheet.node("IndexExpr.base", it.base())?;
    sheet.node("IndexExpr.index", it.index())
}

fn repeated<N: AstNode + Drop>(
    sheet: &mut Sheet,
    initializer: Option<N>,
    repeat: Option<N>,
) -> Result<(), AllocError> {
    sheet.word("ArrayExpr.kind", "Repeat")?;
    sheet.node("ArrayExpr.kind.initializer", initializer)?;
    sheet.node("ArrayExpr.kind.repeat", repeat)
}

fn listed(sheet: &mut Sheet, list: ast::AstChildren<ast::Expr>) -> Result<(), AllocError> {
    sheet.word("ArrayExpr.kind", "ElementList")?;
    sheet.nodes("ArrayExpr.kind.0", list)
}

fn array_kind(sheet: &mut Sheet, kind: ast::ArrayExprKind) -> Result<(), AllocError> {
    match kind {
        ast::ArrayExprKind::Repeat {
            initializer,
            repeat,
        } => repeated(sheet, initializer, repeat),
        ast::ArrayExprKind::ElementList(list) => listed(sheet, list),
    }
}

fn array(sheet: &mut Sheet, node: &SyntaxNode) -> Result<(), AllocError> {
    match cast_ref::<ast::ArrayExpr>(node) {
        Some(it) => array_kind(sheet, it.kind()),
        None => Ok(()),
    }
}

fn literal_kind(sheet: &mut Sheet, found: Option<ast::LiteralKind>) -> Result<(), AllocError> {
    let kind = match found {
        Some(ast::LiteralKind::String(_)) => "String",
        Some(ast::LiteralKind::ByteString(_)) => "ByteString",
        Some(ast::LiteralKind::CString(_)) => "CString",
        Some(ast::LiteralKind::IntNumber(_)) => "IntNumber",
        Some(ast::LiteralKind::FloatNumber(_)) => "FloatNumber",
        Some(ast::LiteralKind::Char(_)) => "Char",
        Some(ast::LiteralKind::Byte(_)) => "Byte",
        Some(ast::LiteralKind::Bool(true)) => "Bool(true)",
        Some(ast::LiteralKind::Bool(false)) => "Bool(false)",
        None => "-",
    };
    sheet.word("Literal.kind", kind)
}

fn literal(sheet: &mut Sheet, node: &SyntaxNode) -> Result<(), AllocError> {
    let Some(it) = cast_ref::<ast::Literal>(node) else {
        return Ok(());
    };
    sheet.token("Literal.token", it.token())?;
    literal_kind(sheet, it.kind())
}

fn modifier(sheet: &mut Sheet, name: &str, token: SyntaxToken) -> Result<(), AllocError> {
    sheet.word("BlockExpr.modifier", name)?;
    sheet.token("BlockExpr.modifier.0", Some(token))
}

fn try_modifier<N: AstNode + Drop>(
    sheet: &mut Sheet,
    try_token: SyntaxToken,
    bikeshed_token: Option<SyntaxToken>,
    result_type: Option<N>,
) -> Result<(), AllocError> {
    modifier(sheet, "Try", try_token)?;
    sheet.token("BlockExpr.modifier.bikeshed_token", bikeshed_token)?;
    sheet.node("BlockExpr.modifier.result_type", result_type)
}

fn label(sheet: &mut Sheet, label: ast::Label) -> Result<(), AllocError> {
    sheet.word("BlockExpr.modifier", "Label")?;
    sheet.node("BlockExpr.modifier.0", Some(label))
}

fn any_modifier(sheet: &mut Sheet, found: ast::BlockModifier) -> Result<(), AllocError> {
    match found {
        ast::BlockModifier::Async(token) => modifier(sheet, "Async", token),
        ast::BlockModifier::Unsafe(token) => modifier(sheet, "Unsafe", token),
        ast::BlockModifier::Try {
            try_token,
            bikeshed_token,
            result_type,
        } => try_modifier(sheet, try_token, bikeshed_token, result_type),
        ast::BlockModifier::Const(token) => modifier(sheet, "Const", token),
        ast::BlockModifier::AsyncGen(token) => modifier(sheet, "AsyncGen", token),
        ast::BlockModifier::Gen(token) => modifier(sheet, "Gen", token),
        ast::BlockModifier::Label(found) => label(sheet, found),
    }
}

fn block_modifier(sheet: &mut Sheet, it: &ast::BlockExpr) -> Result<(), AllocError> {
    match it.modifier() {
        Some(found) => any_modifier(sheet, found),
        None => sheet.word("BlockExpr.modifier", "-"),
    }
}

fn block_statements(sheet: &mut Sheet, it: &ast::BlockExpr) -> Result<(), AllocError> {
    sheet.nodes("BlockExpr.statements", it.statements())?;
    sheet.node("BlockExpr.tail_expr", it.tail_expr())
}

fn block(sheet: &mut Sheet, node: &SyntaxNode) -> Result<(), AllocError> {
    let Some(it) = cast_ref::<ast::BlockExpr>(node) else {
        return Ok(());
    };
    block_modifier(sheet, &it)?;
    sheet.flag("BlockExpr.is_standalone", it.is_standalone())?;
    sheet.flag("BlockExpr.may_carry_attributes", it.may_carry_attributes())?;
    block_statements(sheet, &it)
}

fn arguments(sheet: &mut Sheet, node: &SyntaxNode) -> Result<(), AllocError> {
    match cast_ref::<ast::ArgList>(node) {
        Some(it) => sheet.gaps("ArgList.args_maybe_empty", it.args_maybe_empty()),
        None => Ok(()),
    }
}

fn field_name(sheet: &mut Sheet, name: ast::NameRef) -> Result<(), AllocError> {
    sheet.word("FieldExpr.field_access", "Name")?;
    sheet.node("FieldExpr.field_access.0", Some(name))
}

fn field_index(sheet: &mut Sheet, token: SyntaxToken) -> Result<(), AllocError> {
    sheet.word("FieldExpr.field_access", "Index")?;
    sheet.token("FieldExpr.field_access.0", Some(token))
}

fn field_access(sheet: &mut Sheet, found: Option<ast::FieldKind>) -> Result<(), AllocError> {
    match found {
        Some(ast::FieldKind::Name(name)) => field_name(sheet, name),
        Some(ast::FieldKind::Index(token)) => field_index(sheet, token),
        None => sheet.word("FieldExpr.field_access", "-"),
    }
}

fn field(sheet: &mut Sheet, node: &SyntaxNode) -> Result<(), AllocError> {
    let Some(it) = cast_ref::<ast::FieldExpr>(node) else {
        return Ok(());
    };
    sheet.token("FieldExpr.index_token", it.index_token())?;
    field_access(sheet, it.field_access())
}

fn record_field(sheet: &mut Sheet, node: &SyntaxNode) -> Result<(), AllocError> {
    let Some(it) = cast_ref::<ast::RecordExprField>(node) else {
        return Ok(());
    };
    sheet.node("RecordExprField.field_name", it.field_name())?;
    sheet.node("RecordExprField.parent_record_lit", it.parent_record_lit())
}

fn name_ref_in_record_field(sheet: &mut Sheet, node: &SyntaxNode) -> Result<(), AllocError> {
    let Some(it) = cast_ref::<ast::NameRef>(node) else {
        return Ok(());
    };
    let around = ast::RecordExprField::for_name_ref(&it);
    sheet.node("RecordExprField.for_name_ref", around)?;
    let named = ast::RecordExprField::for_field_name(&it);
    sheet.node("RecordExprField.for_field_name", named)
}
