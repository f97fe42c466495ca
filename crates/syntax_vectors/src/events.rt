//! The command `events`: lines to a dump or a refusal, and what becomes of readers and writers that
//! fail.
use crate::streams::{Sink, Source};
use std::alloc::Global;
use std::fmt::Write;
use std::process::Abort;
use std::test::Fail;
use syntax_tool::run;

// A tree of three nodes and a token.
const STORED: &[u8] =
    b"enter PARAM\nenter IDENT_PAT\nenter NAME\ntoken IDENT name\nexit\nexit\nexit\n";

// Its dump.
const STORED_DUMP: &[u8] =
    b"PARAM@0..4\n  IDENT_PAT@0..4\n    NAME@0..4\n      IDENT@0..4 \"name\"\n";

// Runs a command over memory, all at once, and looks at what it wrote and at its status.
fn expect_run<R: Abort + AllocGlobal>(
    rt: &R,
    command: &str,
    input: &[u8],
    output: &[u8],
    status: u8,
) -> Result<(), Fail> {
    let mut reader = Source::new(input, usize::MAX, usize::MAX);
    let mut writer = Sink::new(Vec::new(rt.alloc()), usize::MAX, usize::MAX);
    let answered = run(rt.alloc(), &mut reader, &mut writer, command);
    assert!(rt; writer.bytes() == output);
    assert_eq!(rt; answered, status);
    Ok(())
}

// Event lines that make a tree, and its dump.
fn expect_dump<R: Abort + AllocGlobal>(rt: &R, input: &[u8], output: &[u8]) -> Result<(), Fail> {
    expect_run(rt, "events", input, output, 0)
}

// Event lines that are refused, and the output.
fn expect_refusal<R: Abort + AllocGlobal>(rt: &R, input: &[u8], output: &[u8]) -> Result<(), Fail> {
    expect_run(rt, "events", input, output, 1)
}

#[test]
fn dumps(rt: HostRuntime) -> Result<(), Fail> {
    expect_dump(&rt, STORED, STORED_DUMP)?;
    expect_dump(&rt, b"enter SOURCE_FILE\nexit\n", b"SOURCE_FILE@0..0\n")?;
    expect_dump(&rt, b"\n\nenter SOURCE_FILE\n\nexit", b"SOURCE_FILE@0..0\n")?;
    expect_dump(
        &rt,
        b"enter SOURCE_FILE\ntoken WHITESPACE \\n\ntoken COMMENT // \"q\"\nexit\n",
        b"SOURCE_FILE@0..7\n  WHITESPACE@0..1 \"\\n\"\n  COMMENT@1..7 \"// \\\"q\\\"\"\n",
    )?;
    expect_dump(
        &rt,
        b"enter NAME\ntoken IDENT\nexit\n",
        b"NAME@0..0\n  IDENT@0..0 \"\"\n",
    )?;
    expect_dump(
        &rt,
        b"enter NAME\ntoken IDENT \nexit\n",
        b"NAME@0..0\n  IDENT@0..0 \"\"\n",
    )?;
    expect_dump(
        &rt,
        b"enter NAME\ntoken IDENT  a b\nexit\n",
        b"NAME@0..4\n  IDENT@0..4 \" a b\"\n",
    )?;
    expect_dump(&rt, b"enter OTHER(65535)\nexit\n", b"OTHER(65535)@0..0\n")
}

#[test]
fn texts_in_dumps(rt: HostRuntime) -> Result<(), Fail> {
    expect_dump(
        &rt,
        b"enter NAME\ntoken COMMENT //abcdefghijklmnopqrstuvw\nexit\n",
        b"NAME@0..25\n  COMMENT@0..25 \"//abcdefghijklmnopqrs ...\"\n",
    )?;
    expect_dump(
        &rt,
        b"enter NAME\ntoken COMMENT //abcdefghijklmnopqrstuv\nexit\n",
        b"NAME@0..24\n  COMMENT@0..24 \"//abcdefghijklmnopqrstuv\"\n",
    )?;
    expect_dump(
        &rt,
        b"enter NAME\ntoken STRING \\r\\t\\\\\x00\x01\x1f\x7f\nexit\n",
        b"NAME@0..7\n  STRING@0..7 \"\\r\\t\\\\\\0\\u{1}\\u{1f}\\u{7f}\"\n",
    )?;
    // The boundary from byte 21 on is after a character of two, three and four bytes; such
    // characters are as they are.
    expect_dump(
        &rt,
        b"enter NAME\ntoken COMMENT aaaaaaaaaaaaaaaaaaaa\xc3\xa9bbbb\nexit\n",
        b"NAME@0..26\n  COMMENT@0..26 \"aaaaaaaaaaaaaaaaaaaa\xc3\xa9 ...\"\n",
    )?;
    expect_dump(
        &rt,
        b"enter NAME\ntoken COMMENT aaaaaaaaaaaaaaaaaaaa\xe2\x82\xacbbbb\nexit\n",
        b"NAME@0..27\n  COMMENT@0..27 \"aaaaaaaaaaaaaaaaaaaa\xe2\x82\xac ...\"\n",
    )?;
    expect_dump(
        &rt,
        b"enter NAME\ntoken COMMENT aaaaaaaaaaaaaaaaaaaa\xf0\x9f\x98\x80b\nexit\n",
        b"NAME@0..25\n  COMMENT@0..25 \"aaaaaaaaaaaaaaaaaaaa\xf0\x9f\x98\x80 ...\"\n",
    )
}

#[test]
fn refusals_of_finish(rt: HostRuntime) -> Result<(), Fail> {
    expect_refusal(&rt, b"", b"refused: Empty\n")?;
    expect_refusal(&rt, b"\n\n", b"refused: Empty\n")?;
    expect_refusal(&rt, b"exit\nenter NAME\n", b"refused: OverClosed\n")?;
    expect_refusal(&rt, b"token IDENT a\n", b"refused: TokenRoot\n")?;
    expect_refusal(&rt, b"enter NAME\n", b"refused: Unclosed\n")?;
    expect_refusal(
        &rt,
        b"enter NAME\nexit\nenter NAME\nexit\n",
        b"refused: ManyRoots\n",
    )?;
    expect_refusal(
        &rt,
        b"token IDENT a\nenter NAME\nexit\n",
        b"refused: ManyRoots\n",
    )?;
    expect_refusal(
        &rt,
        b"enter NAME\nexit\nenter NAME\n",
        b"refused: Unclosed\n",
    )
}

// The stack of the machine doesn't grow with the depth, where the tree is refused either.
#[test]
fn a_deep_input_is_refused(rt: HostRuntime) -> Result<(), Fail> {
    let mut lines = String::new(rt.alloc());
    for _depth in 0..100_000 {
        lines.push_str("enter NAME\n")?;
    }
    for _depth in 0..100_000 {
        lines.push_str("exit\n")?;
    }
    lines.push_str("enter NAME\nexit\n")?;
    expect_refusal(&rt, lines.as_bytes(), b"refused: ManyRoots\n")
}

#[test]
fn refusals_of_lines(rt: HostRuntime) -> Result<(), Fail> {
    for line in [
        "enter OTHER(65536)",
        "enter OTHER(07)",
        "enter name",
        "enter NAME\r",
        "token name",
    ] {
        expect_refusal(&rt, line.as_bytes(), b"refused: BadKind\n")?;
    }
    for line in [
        "enter NAME x",
        "token FOO \\q",
        "token FOO \\",
        "exit x",
        "exit ",
        "exit\r",
        "\r",
        "enter",
        "enter ",
        "enter NAME ",
        "token",
        "token ",
        "token  a",
        " exit",
        "leave",
    ] {
        expect_refusal(&rt, line.as_bytes(), b"refused: BadLine\n")?;
    }
    expect_refusal(&rt, b"\xff", b"refused: NotUtf8\n")?;
    expect_refusal(&rt, b"leave\n\xff", b"refused: NotUtf8\n")?;
    expect_refusal(&rt, b"enter foo\nexit x\n", b"refused: BadKind\n")?;
    expect_refusal(&rt, b"exit x\nenter foo\n", b"refused: BadLine\n")?;
    expect_refusal(&rt, b"exit\nenter foo\n", b"refused: BadKind\n")
}

#[test]
fn other_commands_read_nothing(rt: HostRuntime) -> Result<(), Fail> {
    let usage = b"usage: syntax_tool events|dump|parens|reparse\n";
    for command in ["print", "", "paren", "event", "events ", "dump "] {
        let mut reader = Source::new(STORED, usize::MAX, usize::MAX);
        let mut writer = Sink::new(Vec::new(rt.alloc()), usize::MAX, usize::MAX);
        let status = run(rt.alloc(), &mut reader, &mut writer, command);
        assert!(rt; writer.bytes() == usage.as_slice());
        assert_eq!(rt; status, 2);
        assert_eq!(rt; reader.reads(), 0);
    }
    Ok(())
}

#[test]
fn small_steps_change_nothing(rt: HostRuntime) -> Result<(), Fail> {
    let mut reader = Source::new(STORED, 1, usize::MAX);
    let mut writer = Sink::new(Vec::new(rt.alloc()), 1, usize::MAX);
    let status = run(rt.alloc(), &mut reader, &mut writer, "events");
    assert!(rt; writer.bytes() == STORED_DUMP);
    assert_eq!(rt; status, 0);
    Ok(())
}

// The lines of a node with `count` tokens of one letter, and their dump.
fn letters(alloc: Global, count: u32) -> Result<(String, String), Fail> {
    let mut lines = String::new(alloc);
    let mut dump = String::new(alloc);
    lines.push_str("enter NAME\n")?;
    write!(dump, "NAME@0..{count}\n")?;
    for at in 0..count {
        lines.push_str("token IDENT a\n")?;
        let end = at.saturating_add(1);
        write!(dump, "  IDENT@{at}..{end} \"a\"\n")?;
    }
    lines.push_str("exit\n")?;
    Ok((lines, dump))
}

#[test]
fn thousands_of_small_reads(rt: HostRuntime) -> Result<(), Fail> {
    let (lines, dump) = letters(rt.alloc(), 500)?;
    let mut reader = Source::new(lines.as_bytes(), 1, usize::MAX);
    let mut writer = Sink::new(Vec::new(rt.alloc()), usize::MAX, usize::MAX);
    let status = run(rt.alloc(), &mut reader, &mut writer, "events");
    assert!(rt; writer.bytes() == dump.as_bytes());
    assert_eq!(rt; status, 0);
    // Each byte, and the end once.
    assert_eq!(rt; reader.reads(), 7017);
    Ok(())
}

#[test]
fn the_end_is_read_once(rt: HostRuntime) -> Result<(), Fail> {
    for (step, reads) in [(usize::MAX, 2), (71, 2), (70, 3), (1, 72)] {
        let mut reader = Source::new(STORED, step, usize::MAX);
        let mut writer = Sink::new(Vec::new(rt.alloc()), usize::MAX, usize::MAX);
        let status = run(rt.alloc(), &mut reader, &mut writer, "events");
        assert!(rt; writer.bytes() == STORED_DUMP);
        assert_eq!(rt; status, 0);
        assert_eq!(rt; reader.reads(), reads);
    }
    Ok(())
}

// The reader could continue after the failure, but is not called again.
#[test]
fn each_read_fails_in_turn(rt: HostRuntime) -> Result<(), Fail> {
    let reads = STORED.len().div_ceil(7);
    for n in 0..reads + 1 {
        let mut reader = Source::new(STORED, 7, n);
        let mut writer = Sink::new(Vec::new(rt.alloc()), usize::MAX, usize::MAX);
        let status = run(rt.alloc(), &mut reader, &mut writer, "events");
        assert!(rt; writer.bytes() == b"refused: Read\n".as_slice());
        assert_eq!(rt; status, 1);
        assert_eq!(rt; reader.reads(), n + 1);
    }
    Ok(())
}

#[test]
fn each_write_fails_in_turn(rt: HostRuntime) -> Result<(), Fail> {
    for n in 0..STORED_DUMP.len() {
        let mut reader = Source::new(STORED, usize::MAX, usize::MAX);
        let mut writer = Sink::new(Vec::new(rt.alloc()), 1, n);
        let status = run(rt.alloc(), &mut reader, &mut writer, "events");
        assert!(rt; writer.bytes() == &STORED_DUMP[..n]);
        assert_eq!(rt; status, 1);
    }
    Ok(())
}

#[test]
fn a_writer_that_takes_nothing_has_failed(rt: HostRuntime) -> Result<(), Fail> {
    let mut reader = Source::new(STORED, usize::MAX, usize::MAX);
    let mut writer = Sink::new(Vec::new(rt.alloc()), 0, usize::MAX);
    let status = run(rt.alloc(), &mut reader, &mut writer, "events");
    assert!(rt; writer.bytes().is_empty());
    assert_eq!(rt; status, 1);
    Ok(())
}
