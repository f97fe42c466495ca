//! Trees by the builder, event by event.
use crate::asking::{First, Stopped, say};
use ra_ap_syntax::{
    Edition, FinishError, NodeOrToken, Parse, SourceFile, SyntaxElement, SyntaxError, SyntaxKind,
    SyntaxNode, SyntaxTreeBuilder, TreeBuilder, WalkEvent,
};
use std::alloc::{AllocError, Global};
use tiny_front::Tiny;

// A short file, one in the middle of its lines, and one that ends in a string without its quote.
const TEXTS: [&str; 3] = [
    "fn f() {}",
    "\n        fn foo() {\n            1 + 1\n        }\n    ",
    "fn foo() {          \"abcd",
];

// The outcome of the first call of each of the builder's methods.
#[derive(Clone, Copy)]
struct Calls {
    start_node: First,
    token: First,
    finish_node: First,
    error: First,
}

// A node begins, or a token comes.
fn enter(
    builder: &mut SyntaxTreeBuilder,
    calls: &mut Calls,
    element: &SyntaxElement,
) -> Result<(), Stopped> {
    match element {
        NodeOrToken::Node(node) => {
            let (_, first) = crate::asked!("start_node", builder.start_node(node.kind()));
            calls.start_node = calls.start_node.or(first);
        }
        NodeOrToken::Token(token) => {
            let (_, first) = crate::asked!("token", builder.token(token.kind(), token.text()));
            calls.token = calls.token.or(first);
        }
    }
    Ok(())
}

// A node ends.
fn leave(
    builder: &mut SyntaxTreeBuilder,
    calls: &mut Calls,
    element: &SyntaxElement,
) -> Result<(), Stopped> {
    if element.as_node().is_some() {
        let (_, first) = crate::asked!("finish_node", builder.finish_node());
        calls.finish_node = calls.finish_node.or(first);
    }
    Ok(())
}

fn add_event(
    builder: &mut SyntaxTreeBuilder,
    calls: &mut Calls,
    event: &WalkEvent<SyntaxElement>,
) -> Result<(), Stopped> {
    match event {
        WalkEvent::Enter(element) => enter(builder, calls, element),
        WalkEvent::Leave(element) => leave(builder, calls, element),
    }
}

fn add_error(
    alloc: Global,
    builder: &mut SyntaxTreeBuilder,
    error: &SyntaxError,
) -> Result<(), AllocError> {
    builder.error(error.message().to_string(alloc)?, error.range().start())
}

fn add_events(
    builder: &mut SyntaxTreeBuilder,
    calls: &mut Calls,
    root: &SyntaxNode,
) -> Result<(), Stopped> {
    for event in root.preorder_with_tokens() {
        add_event(builder, calls, &event)?;
    }
    Ok(())
}

fn add_errors(
    alloc: Global,
    builder: &mut SyntaxTreeBuilder,
    calls: &mut Calls,
    errors: &[SyntaxError],
) -> Result<(), Stopped> {
    for error in errors {
        let (_, first) = crate::asked!("error", add_error(alloc, builder, error));
        calls.error = calls.error.or(first);
    }
    Ok(())
}

fn errors_of<T>(alloc: Global, parse: &Parse<T>) -> Result<Vec<SyntaxError>, Stopped> {
    let (errors, _) = crate::asked!("errors", parse.errors(alloc));
    Ok(errors)
}

fn filled(
    alloc: Global,
    parse: &Parse<SourceFile>,
    calls: &mut Calls,
) -> Result<SyntaxTreeBuilder, Stopped> {
    let errors = errors_of(alloc, parse)?;
    let mut builder = SyntaxTreeBuilder::new(alloc);
    add_events(&mut builder, calls, &parse.syntax_node())?;
    add_errors(alloc, &mut builder, calls, errors.as_slice())?;
    Ok(builder)
}

// The parse built from the events of another parse's tree and its errors; `None` if `finish` ran
// out of memory.
fn rebuilt(
    alloc: Global,
    parse: &Parse<SourceFile>,
    calls: &mut Calls,
) -> Result<Option<Parse<SyntaxNode>>, Stopped> {
    match filled(alloc, parse, calls)?.finish() {
        Ok(built) => Ok(Some(built)),
        Err(FinishError::Memory) => Ok(None),
        Err(_refusal) => Err(Stopped::Other("finish")),
    }
}

fn dump_of(alloc: Global, root: &SyntaxNode) -> Result<String, Stopped> {
    let (dump, _) = crate::asked!("dump", root.dump(alloc));
    Ok(dump)
}

fn look_alike(alloc: Global, one: &SyntaxNode, other: &SyntaxNode) -> Result<bool, Stopped> {
    let dump = dump_of(alloc, one)?;
    Ok(dump == dump_of(alloc, other)?)
}

// Whether two parses have trees that look the same, and as many errors.
fn are_alike(
    alloc: Global,
    parse: &Parse<SourceFile>,
    built: &Parse<SyntaxNode>,
) -> Result<bool, Stopped> {
    let count = errors_of(alloc, parse)?.len();
    let same = errors_of(alloc, built)?.len() == count;
    Ok(same && look_alike(alloc, &parse.syntax_node(), &built.syntax_node())?)
}

// The lines of the calls of a builder.
fn report(
    rt: &HostRuntime,
    calls: &Calls,
    finish: First,
    parse: &Parse<SourceFile>,
    built: &Parse<SyntaxNode>,
) -> Result<(), Stopped> {
    let stands = are_alike(rt.alloc(), parse, built)?;
    let len = built.syntax_node().text_range().len().raw();
    say(rt, "start_node", calls.start_node, stands, len)?;
    say(rt, "token", calls.token, stands, len)?;
    say(rt, "finish_node", calls.finish_node, stands, len)?;
    say(rt, "error", calls.error, stands, len)?;
    say(rt, "finish of a parse", finish, stands, len)
}

// Builds the tree of a parse once more, with its errors; and once more where the end is refused,
// since the builder is given up then.
fn rebuild(rt: &HostRuntime, parse: &Parse<SourceFile>) -> Result<(), Stopped> {
    let mut calls = Calls {
        start_node: First::Answered,
        token: First::Answered,
        finish_node: First::Answered,
        error: First::Answered,
    };
    if let Some(built) = rebuilt(rt.alloc(), parse, &mut calls)? {
        return report(rt, &calls, First::Answered, parse, &built);
    }
    match rebuilt(rt.alloc(), parse, &mut calls)? {
        Some(built) => report(rt, &calls, First::Refused, parse, &built),
        None => Err(Stopped::Twice("finish")),
    }
}

fn parsed(alloc: Global, text: &str) -> Result<Parse<SourceFile>, Stopped> {
    let (parse, _) = crate::asked!(
        "parse",
        SourceFile::parse(alloc, text, &Tiny, Edition::CURRENT)
    );
    Ok(parse)
}

// A tree of one name.
fn name(alloc: Global) -> Result<SyntaxNode, Stopped> {
    let mut builder = TreeBuilder::new(alloc);
    builder.start_node(SyntaxKind::NAME)?;
    builder.token(SyntaxKind::IDENT, "foo")?;
    builder.finish_node()?;
    Ok(builder.finish()?)
}

/// Makes each call that builds a tree, and repeats it if memory was refused.
pub fn ask(rt: &HostRuntime) -> Result<(), Stopped> {
    for text in TEXTS {
        rebuild(rt, &parsed(rt.alloc(), text)?)?;
    }
    let (root, first) = crate::asked!("finish", name(rt.alloc()));
    say(rt, "finish", first, true, root.as_str())
}
