//! A codemod: `x == None` becomes `x.is_none()`, and `x != None` becomes `x.is_some()`, over a
//! whole file at once.
#![tactic(auto)]

use anyhow::Result;
use ra_ap_syntax::ast::{self, BinaryOp, CmpOp};
use ra_ap_syntax::{AstNode, Edition, NodeOrToken, SourceFile, SyntaxKind, SyntaxNode};
use rust_front::Rust;
use rust_make::Make;
use std::io;
use syntax_editor::{ChangeError, SyntaxEditor};

// The method that says what a comparison with `None` says. One with a comment beside its operator
// stays: the comment would be lost.
fn method_for(comparison: &ast::BinExpr) -> Option<&'static str> {
    let node = comparison.syntax();
    let has_comment = node
        .children_with_tokens()
        .any(|part| part.kind() == SyntaxKind::COMMENT);
    if has_comment || comparison.rhs()?.syntax().as_str() != "None" {
        return None;
    }
    match comparison.op_kind()? {
        BinaryOp::CmpOp(CmpOp::Eq { negated: false }) => Some("is_none"),
        BinaryOp::CmpOp(CmpOp::Eq { negated: true }) => Some("is_some"),
        _ => None,
    }
}

// Puts the call in the place of a comparison with `None`. One inside a comparison that is replaced
// stays: a second run changes it.
fn change(make: &Make<Rust>, editor: &mut SyntaxEditor, node: &SyntaxNode) -> Result<()> {
    let Some(comparison) = ast::BinExpr::cast(node.clone()?) else {
        return Ok(());
    };
    let (Some(method), Some(operand)) = (method_for(&comparison), comparison.lhs()) else {
        return Ok(());
    };
    let call = make.expr_method_call(&operand, &make.name_ref(method)?, &make.arg_list(&[])?)?;
    let (old, new) = (node.clone()?, call.syntax().clone()?);
    match editor.replace(&NodeOrToken::Node(old), &NodeOrToken::Node(new)) {
        Err(error) if error != ChangeError::InReplaced => Err(error.into()),
        _ => Ok(()),
    }
}

fn main(rt: HostRuntime) -> Result<()> {
    let input = io::read_to_string(rt.alloc(), rt.reader())?;
    let file = SourceFile::parse(rt.alloc(), input.as_str(), &Rust, Edition::CURRENT)?;
    let make = Make::new(rt.alloc(), &Rust, Edition::CURRENT);
    let root = file.syntax_node();
    let mut editor = SyntaxEditor::new(rt.alloc(), &root)?;
    for node in root.descendants() {
        change(&make, &mut editor, &node)?;
    }
    print!(rt; "{}", editor.finish()?.new_root().as_str())?;
    Ok(())
}
