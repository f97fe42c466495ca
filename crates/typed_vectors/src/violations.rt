//! Faults of strings over several lines; all else that is wrong with trees is in
//! `tests/answer_cases`, whose trees are a line each.
use crate::trees::build;
use ras_validation::violations;
use std::alloc::Global;
use std::test::Fail;

// The violations of a tree, a line each.
fn lines(alloc: Global, words: &str) -> Result<String, Fail> {
    let root = build(alloc, words)?;
    let mut lines = String::new(alloc);
    for violation in violations(alloc, &root)?.iter() {
        let range = violation.range;
        let message = violation.message;
        let line = format!(in alloc; "{range} {message}\n")?;
        lines.push_str(line.as_str())?;
    }
    Ok(lines)
}

// A tree by its words, and the lines of its violations.
const ROWS: [(&str, &str); 3] = [
    (
        "LITERAL( STRING:\"a\r\" )",
        "2..2 Character must be escaped: `\r`\n",
    ),
    ("LITERAL( STRING:\"a\\\n~\nb\" )", ""),
    ("LITERAL( STRING:\"\\\n\u{a0}\" )", ""),
];

#[test]
fn strings_over_lines(rt: HostRuntime) -> Result<(), Fail> {
    for (words, expected) in &ROWS {
        let found = lines(rt.alloc(), words)?;
        assert_eq!(rt; found.as_str(), *expected, "in {words}");
    }
    Ok(())
}
