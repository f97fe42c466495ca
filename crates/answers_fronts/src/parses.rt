//! Parses of files and expressions.

use crate::stopped::Stopped;
use ra_ap_syntax::ast::Expr;
use ra_ap_syntax::{
    AstNode, Edition, FrontEnd, OkError, Parse, SourceFile, SyntaxError, SyntaxNode,
};
use std::alloc::Global;
use std::fmt::Write;

fn push_error(out: &mut String, error: &SyntaxError) -> Result<(), Stopped> {
    Ok(writeln!(out, "error {}: {}", error.range(), error.message())?)
}

fn push_each(out: &mut String, errors: &[SyntaxError]) -> Result<(), Stopped> {
    for error in errors {
        push_error(out, error)?;
    }
    Ok(())
}

/// A line for each error.
pub fn push_errors<T>(alloc: Global, out: &mut String, parse: &Parse<T>) -> Result<(), Stopped> {
    let errors = parse.errors(alloc)?;
    push_each(out, errors.as_slice())
}

fn show_errors(out: &mut String, errors: usize, same: bool) -> Result<(), Stopped> {
    Ok(writeln!(out, "ok: errors {errors}, same {same}")?)
}

fn show_other_root(out: &mut String, same: bool) -> Result<(), Stopped> {
    Ok(writeln!(out, "ok: other root, same {same}")?)
}

// Why `ok` gives no tree, and whether the parse that it returns is the same as before.
fn show_no_tree<T>(
    out: &mut String,
    refusal: &OkError<T>,
    before: &Parse<T>,
) -> Result<(), Stopped> {
    match refusal {
        OkError::Errors(errors, parse) => show_errors(out, errors.len(), *parse == *before),
        OkError::OtherRoot(parse) => show_other_root(out, *parse == *before),
        OkError::Memory(_parse) => Ok(out.push_str("ok: memory\n")?),
    }
}

fn show_answer<T>(
    out: &mut String,
    answer: &Result<T, OkError<T>>,
    before: &Parse<T>,
) -> Result<(), Stopped> {
    match answer {
        Ok(_tree) => Ok(out.push_str("ok: the tree\n")?),
        Err(refusal) => show_no_tree(out, refusal, before),
    }
}

// The result of `ok`, and whether the parse that it returns is the same.
fn show_ok<T: AstNode + Drop>(
    alloc: Global,
    out: &mut String,
    parse: Parse<T>,
) -> Result<(), Stopped> {
    let before = parse.clone()?;
    let answer = parse.ok(alloc);
    show_answer(out, &answer, &before)
}

fn casts_to<T, N: AstNode + Drop>(parse: &Parse<T>) -> Result<bool, Stopped> {
    let copy = parse.clone()?;
    Ok(copy.to_syntax().cast::<N>().is_some())
}

// Whether there is a tree, and what the parse casts to.
fn show_tree<T: AstNode + Drop>(out: &mut String, parse: &Parse<T>) -> Result<(), Stopped> {
    let tree = parse.tree().is_some();
    let file = casts_to::<T, SourceFile>(parse)?;
    let expr = casts_to::<T, Expr>(parse)?;
    Ok(writeln!(
        out,
        "tree {tree}, as a file {file}, as an expression {expr}"
    )?)
}

// The results of `tree`, `cast` and `ok`.
fn show_answers<T: AstNode + Drop>(
    alloc: Global,
    out: &mut String,
    parse: Parse<T>,
) -> Result<(), Stopped> {
    show_tree(out, &parse)?;
    show_ok(alloc, out, parse)
}

fn show_file_dump(
    alloc: Global,
    out: &mut String,
    parse: &Parse<SourceFile>,
) -> Result<(), Stopped> {
    let dump = parse.debug_dump(alloc)?;
    Ok(out.push_str(dump.as_str())?)
}

fn show_dump(alloc: Global, out: &mut String, root: &SyntaxNode) -> Result<(), Stopped> {
    let dump = root.dump(alloc)?;
    Ok(out.push_str(dump.as_str())?)
}

// The tree, and then the errors.
fn show_dump_and_errors<T>(
    alloc: Global,
    out: &mut String,
    parse: &Parse<T>,
) -> Result<(), Stopped> {
    show_dump(alloc, out, &parse.syntax_node())?;
    push_errors(alloc, out, parse)
}

/// Prints the tree of a file, its errors, and the results of `tree`, `cast` and `ok`.
pub fn show_file<F: FrontEnd>(
    alloc: Global,
    out: &mut String,
    front: &F,
    text: &str,
) -> Result<(), Stopped> {
    let parse = SourceFile::parse(alloc, text, front, Edition::CURRENT)?;
    show_file_dump(alloc, out, &parse)?;
    show_answers(alloc, out, parse)
}

/// Prints the tree of an expression, its errors, and the results of `tree`, `cast` and `ok`.
pub fn show_expr<F: FrontEnd>(
    alloc: Global,
    out: &mut String,
    front: &F,
    text: &str,
) -> Result<(), Stopped> {
    let parse = Expr::parse(alloc, text, front, Edition::CURRENT)?;
    show_dump_and_errors(alloc, out, &parse)?;
    show_answers(alloc, out, parse)
}
