//! Copies and edits of trees, values, and the accessors that take memory.
use crate::asking::{First, Stopped, say};
use crate::samples::{
    ATTRIBUTE, ESCAPED, ESCAPED_BYTES, ESCAPED_C, Event, FLOAT, NUMBER, SLICE, SUM, built,
};
use ra_ap_syntax::ast::ValueError;
use ra_ap_syntax::ast::prec::needless_parens;
use ra_ap_syntax::{AstNode, AstToken, Edition, SyntaxKind, SyntaxNode, SyntaxToken, ast};
use std::alloc::{AllocError, Global};
use tiny_front::Tiny;

const PAIRS: &str = "((a)) + (b * c)";

fn sample(alloc: Global, events: &[Event]) -> Result<SyntaxNode, Stopped> {
    let (root, _) = crate::asked!("finish", built(alloc, events));
    Ok(root)
}

// Each call of a tree's root; `before` is a second cursor at it.
type Asked<'a> = (&'a SyntaxNode, &'a SyntaxNode);

fn copy(rt: &HostRuntime, (root, before): Asked) -> Result<(), Stopped> {
    let (copy, first) = crate::asked!("clone_subtree", root.clone_subtree(rt.alloc()));
    say(rt, "clone_subtree", first, root == before, copy.as_str())
}

fn replace(rt: &HostRuntime, (root, before): Asked, operand: &SyntaxNode) -> Result<(), Stopped> {
    let (new, first) = crate::asked!("replace_with", operand.replace_with(rt.alloc(), root));
    say(rt, "replace_with", first, root == before, new.as_str())
}

fn replace_token(
    rt: &HostRuntime,
    (root, before): Asked,
    token: &SyntaxToken,
) -> Result<(), Stopped> {
    let name = "replace_with of a token";
    let kind = SyntaxKind::INT_NUMBER;
    let (new, first) = crate::asked!(name, token.replace_with(rt.alloc(), kind, "23"));
    say(rt, name, first, root == before, new.as_str())
}

fn dump(rt: &HostRuntime, (root, before): Asked) -> Result<(), Stopped> {
    let (dump, first) = crate::asked!("dump", root.dump(rt.alloc()));
    say(rt, "dump", first, root == before, dump.len())
}

fn trees(rt: &HostRuntime, root: &SyntaxNode, before: &SyntaxNode) -> Result<(), Stopped> {
    copy(rt, (root, before))?;
    match root.first_child() {
        Some(operand) => replace(rt, (root, before), &operand)?,
        None => return Err(Stopped::Other("first_child")),
    }
    replace_token(rt, (root, before), &token(root)?)?;
    dump(rt, (root, before))
}

fn sum(rt: &HostRuntime) -> Result<(), Stopped> {
    let root = sample(rt.alloc(), &SUM)?;
    let before = root.clone()?;
    trees(rt, &root, &before)
}

fn token(root: &SyntaxNode) -> Result<SyntaxToken, Stopped> {
    root.first_token().ok_or(Stopped::Other("first_token"))
}

// Whether a string's value is this.
fn is_value(alloc: Global, string: &ast::String, wanted: &str) -> Result<bool, ValueError> {
    let value = string.value(alloc)?;
    Ok(value.as_str() == wanted)
}

fn value(rt: &HostRuntime, escaped: &ast::String) -> Result<(), Stopped> {
    let (same, first) = crate::asked!("value", is_value(rt.alloc(), escaped, "abcde"));
    let stands = escaped.text() == "\"\\x61bcde\"";
    say(rt, "value", first, stands, same)
}

// Whether a byte string's value is this.
fn is_value_of_bytes(
    alloc: Global,
    string: &ast::ByteString,
    wanted: &[u8],
) -> Result<bool, ValueError> {
    let value = string.value(alloc)?;
    Ok(*value.as_slice() == *wanted)
}

fn value_of_bytes(rt: &HostRuntime, escaped: &ast::ByteString) -> Result<(), Stopped> {
    let (same, first) = crate::asked!(
        "value of a byte string",
        is_value_of_bytes(rt.alloc(), escaped, b"abcde")
    );
    let stands = escaped.text() == "b\"\\x61bcde\"";
    say(rt, "value of a byte string", first, stands, same)
}

// Whether a C string's value is this.
fn is_value_of_c(alloc: Global, string: &ast::CString, wanted: &[u8]) -> Result<bool, ValueError> {
    let value = string.value(alloc)?;
    Ok(*value.as_slice() == *wanted)
}

fn value_of_c(rt: &HostRuntime, escaped: &ast::CString) -> Result<(), Stopped> {
    let (same, first) = crate::asked!(
        "value of a C string",
        is_value_of_c(rt.alloc(), escaped, b"abcde")
    );
    let stands = escaped.text() == "c\"\\x61bcde\"";
    say(rt, "value of a C string", first, stands, same)
}

fn value_string_of_float(rt: &HostRuntime, number: &ast::FloatNumber) -> Result<(), Stopped> {
    let (digits, first) = crate::asked!("value_string of a float", number.value_string(rt.alloc()));
    let stands = number.text() == "1_0.5f32";
    say(
        rt,
        "value_string of a float",
        first,
        stands,
        digits.as_str(),
    )
}

fn value_string(rt: &HostRuntime, number: &ast::IntNumber) -> Result<(), Stopped> {
    let (digits, first) = crate::asked!("value_string", number.value_string(rt.alloc()));
    let stands = number.text() == "1_000u8";
    say(rt, "value_string", first, stands, digits.as_str())
}

fn values(rt: &HostRuntime) -> Result<(), Stopped> {
    match ast::String::cast(token(&sample(rt.alloc(), &ESCAPED)?)?) {
        Some(escaped) => value(rt, &escaped)?,
        None => return Err(Stopped::Other("cast")),
    }
    match ast::ByteString::cast(token(&sample(rt.alloc(), &ESCAPED_BYTES)?)?) {
        Some(escaped) => value_of_bytes(rt, &escaped)?,
        None => return Err(Stopped::Other("cast")),
    }
    match ast::CString::cast(token(&sample(rt.alloc(), &ESCAPED_C)?)?) {
        Some(escaped) => value_of_c(rt, &escaped)?,
        None => return Err(Stopped::Other("cast")),
    }
    match ast::FloatNumber::cast(token(&sample(rt.alloc(), &FLOAT)?)?) {
        Some(number) => value_string_of_float(rt, &number)?,
        None => return Err(Stopped::Other("cast")),
    }
    match ast::IntNumber::cast(token(&sample(rt.alloc(), &NUMBER)?)?) {
        Some(number) => value_string(rt, &number),
        None => Err(Stopped::Other("cast")),
    }
}

// How many metas a `cfg_attr` opens to.
fn opened(alloc: Global, meta: &ast::Meta) -> Result<usize, AllocError> {
    let metas = meta.clone()?.skip_cfg_attrs(alloc)?;
    Ok(metas.len())
}

fn meta(rt: &HostRuntime, meta: &ast::Meta) -> Result<(), Stopped> {
    let (count, first) = crate::asked!("skip_cfg_attrs", opened(rt.alloc(), meta));
    let stands = meta.syntax().as_str() == "pab";
    say(rt, "skip_cfg_attrs", first, stands, count)
}

// How many patterns are before and after the rest.
fn around(alloc: Global, slice: &ast::SlicePat) -> Result<usize, AllocError> {
    let parts = slice.components(alloc)?;
    Ok(parts.prefix.len().wrapping_add(parts.suffix.len()))
}

fn slice(rt: &HostRuntime, slice: &ast::SlicePat) -> Result<(), Stopped> {
    let (count, first) = crate::asked!("components", around(rt.alloc(), slice));
    let stands = slice.syntax().as_str() == "a..b";
    say(rt, "components", first, stands, count)
}

fn accessors(rt: &HostRuntime) -> Result<(), Stopped> {
    match ast::Meta::cast(sample(rt.alloc(), &ATTRIBUTE)?) {
        Some(it) => meta(rt, &it)?,
        None => return Err(Stopped::Other("cast")),
    }
    match ast::SlicePat::cast(sample(rt.alloc(), &SLICE)?) {
        Some(it) => slice(rt, &it),
        None => Err(Stopped::Other("cast")),
    }
}

// How many pairs may go.
fn needless(alloc: Global, expr: &ast::Expr) -> Result<usize, AllocError> {
    let pairs = needless_parens(alloc, expr)?;
    Ok(pairs.map_or(0, |pairs| pairs.len()))
}

fn pairs(rt: &HostRuntime, expr: &ast::Expr) -> Result<(), Stopped> {
    let (count, first) = crate::asked!("needless_parens", needless(rt.alloc(), expr));
    let stands = expr.syntax().as_str() == PAIRS;
    say(rt, "needless_parens", first, stands, count)
}

fn parentheses(rt: &HostRuntime) -> Result<(), Stopped> {
    let alloc = rt.alloc();
    let (parse, _) = crate::asked!(
        "parse",
        ast::Expr::parse(alloc, PAIRS, &Tiny, Edition::CURRENT)
    );
    match parse.tree() {
        Some(expr) => pairs(rt, &expr),
        None => Err(Stopped::Other("tree")),
    }
}

/// Makes each call that makes a new tree, a value or a list, and repeats it if memory was refused.
pub fn ask(rt: &HostRuntime) -> Result<(), Stopped> {
    sum(rt)?;
    values(rt)?;
    accessors(rt)?;
    parentheses(rt)
}
