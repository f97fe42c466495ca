//! Edits of texts and of trees, and nodes from texts.
use crate::asking::{First, Stopped, say};
use ra_ap_syntax::{
    AstNode, Edition, FinishError, NodeOrToken, ParseError, SourceFile, SyntaxElement, SyntaxKind,
    SyntaxNode, TextRange, TextSize, ast,
};
use rust_front::Rust;
use std::alloc::{AllocError, Global};
use std::fmt::Display;
use syntax_editor::{ChangeError, Position, SyntaxEdit, SyntaxEditor};
use syntax_indent::{IndentLevel, dedent, indent, reset_indent};
use syntax_make::{MakeError, ReplaceExprError, in_pair, node, replace_expr};
use text_edit::{ApplyError, Indel, OverlapError, TextEdit};

const NOW: Edition = Edition::CURRENT;

const TEXT: &str = "fn f() { a * 2 }";

const LINES: &str = "fn f() {\n    a\n}\n";

// A call refused memory, or, if it does so twice, something else.
#[derive(Drop)]
struct Refused;

impl From<AllocError> for Refused {
    fn from(_error: AllocError) -> Refused {
        Refused
    }
}

impl From<OverlapError> for Refused {
    fn from(_error: OverlapError) -> Refused {
        Refused
    }
}

impl From<ApplyError> for Refused {
    fn from(_error: ApplyError) -> Refused {
        Refused
    }
}

impl From<ChangeError> for Refused {
    fn from(_error: ChangeError) -> Refused {
        Refused
    }
}

impl From<MakeError> for Refused {
    fn from(_error: MakeError) -> Refused {
        Refused
    }
}

// ---- texts

fn add(alloc: Global, edit: &mut TextEdit, from: u32, to: u32, text: &str) -> Result<(), Refused> {
    let text = String::from_str(alloc, text)?;
    if from > to {
        return Err(Refused);
    }
    let range = TextRange::new(TextSize::new(from), TextSize::new(to));
    edit.add(Indel::replace(range, text))?;
    Ok(())
}

fn unite(alloc: Global, edit: &mut TextEdit) -> Result<(), Refused> {
    let mut other = TextEdit::new(alloc);
    add(alloc, &mut other, 0, 0, "pub ")?;
    add(alloc, &mut other, 13, 14, "3")?;
    edit.union(alloc, other)?;
    Ok(())
}

fn texts(rt: &HostRuntime) -> Result<(), Stopped> {
    let alloc = rt.alloc();
    let mut edit = TextEdit::new(alloc);
    let (_, first) = crate::asked!("TextEdit::add", add(alloc, &mut edit, 3, 4, "main"));
    say(rt, "TextEdit::add", first, true, edit.len())?;
    let (_, first) = crate::asked!("TextEdit::union", unite(alloc, &mut edit));
    say(rt, "TextEdit::union", first, true, edit.len())?;
    let (new, first) = crate::asked!("TextEdit::apply", edit.apply(alloc, TEXT));
    say(rt, "TextEdit::apply", first, edit.len() == 3, new.as_str())?;
    let (back, first) = crate::asked!("TextEdit::invert", edit.invert(alloc, TEXT));
    let (old, _) = crate::asked!("apply of the inverse", back.apply(alloc, new.as_str()));
    say(rt, "TextEdit::invert", first, edit.len() == 3, old.as_str())
}

// ---- trees

fn found(root: &SyntaxNode, kind: SyntaxKind) -> Result<SyntaxNode, Refused> {
    root.descendants()
        .find(|it| it.kind() == kind)
        .ok_or(Refused)
}

fn element(root: &SyntaxNode, kind: SyntaxKind) -> Result<SyntaxElement, Refused> {
    Ok(NodeOrToken::Node(found(root, kind)?))
}

// A session with each call once; what it puts in is of the same tree.
fn session(alloc: Global, root: &SyntaxNode) -> Result<SyntaxEdit, Refused> {
    let mut editor = SyntaxEditor::new(alloc, root)?;
    let name = element(root, SyntaxKind::NAME)?;
    let item = element(root, SyntaxKind::FN)?;
    let sum = element(root, SyntaxKind::BIN_EXPR)?;
    let params = element(root, SyntaxKind::PARAM_LIST)?;
    let number = element(root, SyntaxKind::LITERAL)?;
    let mark = editor.new_annotation()?;
    editor.add_annotation(&item, mark)?;
    editor.insert(Position::after(&item), &item)?;
    editor.replace(&sum, &number)?;
    editor.delete(&params)?;
    let position = Position::before(&name);
    editor.insert_all(position, &[number, name])?;
    Ok(editor.finish()?)
}

fn edits(rt: &HostRuntime, root: &SyntaxNode) -> Result<(), Stopped> {
    let alloc = rt.alloc();
    let before = root.clone()?;
    let (edit, first) = crate::asked!("SyntaxEditor::finish", session(alloc, root));
    let text = edit.new_root().as_str();
    say(rt, "SyntaxEditor::finish", first, *root == before, text)?;
    let (changes, first) = crate::asked!("SyntaxEdit::text_edit", edit.text_edit(alloc));
    say(
        rt,
        "SyntaxEdit::text_edit",
        first,
        *root == before,
        changes.len(),
    )?;
    let (mapping, first) = crate::asked!("SyntaxEdit::mapping", edit.mapping(alloc));
    let kept = found(root, SyntaxKind::BLOCK_EXPR)
        .ok()
        .and_then(|it| mapping.old_to_new_node(&it))
        .map_or(0, |it| it.text_range().start().raw());
    say(rt, "SyntaxEdit::mapping", first, *root == before, kept)
}

fn node_line(
    rt: &HostRuntime,
    name: &'static str,
    first: First,
    answer: impl Display + Drop,
) -> Result<(), Stopped> {
    say(rt, name, first, true, answer)
}

fn indents(rt: &HostRuntime, root: &SyntaxNode) -> Result<(), Stopped> {
    let alloc = rt.alloc();
    let (more, first) = crate::asked!("indent", indent(alloc, root, IndentLevel { number: 1 }));
    node_line(rt, "indent", first, more.as_str().len())?;
    let (fewer, first) = crate::asked!("dedent", dedent(alloc, root, IndentLevel { number: 1 }));
    node_line(rt, "dedent", first, fewer.as_str().len())?;
    let (reset, first) = crate::asked!("reset_indent", reset_indent(alloc, &more));
    node_line(rt, "reset_indent", first, reset.as_str().len())
}

// ---- nodes

fn put(alloc: Global, root: &SyntaxNode, new: &SyntaxNode) -> Result<SyntaxNode, Refused> {
    let old = found(root, SyntaxKind::LITERAL)?;
    match replace_expr(alloc, &Rust, &old, new, NOW) {
        Ok(replaced) => Ok(replaced.root),
        Err(_) => Err(Refused),
    }
}

fn nodes(rt: &HostRuntime, root: &SyntaxNode) -> Result<(), Stopped> {
    let alloc = rt.alloc();
    let (sum, first) = crate::asked!("node", node::<ast::Expr, _>(alloc, &Rust, "b + c", NOW));
    node_line(rt, "node", first, sum.syntax().as_str())?;
    let (pair, first) = crate::asked!("in_pair", in_pair(alloc, sum.syntax()));
    node_line(rt, "in_pair", first, pair.as_str())?;
    let (new, first) = crate::asked!("replace_expr", put(alloc, root, sum.syntax()));
    node_line(rt, "replace_expr", first, new.as_str())
}

/// Makes each call that edits a text or a tree or makes a node from a text, and repeats it if
/// memory was refused.
pub fn ask(rt: &HostRuntime) -> Result<(), Stopped> {
    texts(rt)?;
    let (file, _) = crate::asked!("parse", SourceFile::parse(rt.alloc(), TEXT, &Rust, NOW));
    let (lines, _) = crate::asked!("parse", SourceFile::parse(rt.alloc(), LINES, &Rust, NOW));
    let root = file.syntax_node();
    edits(rt, &root)?;
    indents(rt, &lines.syntax_node())?;
    nodes(rt, &root)
}
