//! Rules from files, their refusals, and patches.
use rust_search::{RuleSet, RulesError, one_pattern, one_rule, rules_of, write_hunks};
use std::alloc::Global;
use std::test::Fail;
use text_edit::{Indel, TextEdit};
use text_size::{TextRange, TextSize};

// What is said of some rules: why they are refused, or their names and messages.
fn said(alloc: Global, read: Result<RuleSet, RulesError>) -> Result<String, Fail> {
    let mut out = String::new(alloc);
    match read {
        Err(error) => write!(out, "{error}")?,
        Ok(set) => {
            for number in 0..set.rules.len() {
                let (name, message) = set.note(number);
                write!(out, "[{name}|{message}]")?;
            }
        }
    }
    Ok(out)
}

#[test]
fn refusals_have_their_places(rt: HostRuntime) -> Result<(), Fail> {
    let rows = [
        (
            "a.rules",
            "# c\n$a + $a ==>> 2 * $a\n\n$b.c()\n",
            false,
            "[|][|]",
        ),
        (
            "a.rules",
            "$a + $a ==>> 2 * $a\n$b.c()\n",
            true,
            "2:1: rule 2: expected `==>>` and a template; only `search` takes a rule without one",
        ),
        (
            "a.rules",
            "# c\r\na ==>> b\r\n\r\n  c\r\n",
            true,
            "4:1: rule 2: expected `==>>` and a template; only `search` takes a rule without one",
        ),
        ("a.rules", "# c\n\n", false, "expected a rule"),
        ("a.toml", "# c\n", false, "1:1: expected a table `[[rule]]`"),
        (
            "a.toml",
            "# c\n[[rules]]\npattern = \"f()\"",
            false,
            "2:1: expected a table `[[rule]]`, not `[[rules]]`",
        ),
        (
            "a.toml",
            "[a]\nrule = 1\n[rule]\npattern = \"f()\"",
            false,
            "3:1: expected a table `[[rule]]`, not `[rule]`",
        ),
        (
            "a.toml",
            "\"a\" = \"\"\"\nrule = 1\"\"\"\nrule = \"f()\"",
            false,
            "3:1: expected a table `[[rule]]`, not `rule = ..`",
        ),
        (
            "a.toml",
            "rule = []",
            false,
            "1:1: expected a table `[[rule]]`, not `rule = ..`",
        ),
        (
            "a.toml",
            "[[rule]]\npattern = \"f()\"\ntemplate = \"g()\"\n[[rule]]\npattern = \"f()\"",
            true,
            "4:1: rule 2: expected a `template`; only `search` takes a rule without one",
        ),
        (
            "a.toml",
            "[[rule]]\npattern = \"f($, $a)\"\nwhere = \"$a:kind(literal)\"",
            false,
            "2:11: rule 1, 1:3 of `PATTERN ==>> TEMPLATE`: expected the name of a placeholder behind `$`",
        ),
        (
            "a.toml",
            "[[rule]]\npattern = 'f(\"$a\")'\nwhere = \"$a:kind(literal)\"",
            false,
            "3:9: rule 1: where: expected a placeholder of the pattern with a condition, as \"$a:kind(literal)\"",
        ),
        (
            "a.rules",
            "f($a)\n  f($) ==>> g\n",
            false,
            "2:5: expected the name of a placeholder behind `$`",
        ),
        (
            "a.toml",
            "[[rule]]\npattern = \"f($a)\"\ntemplate = \"g($a)\"\nname = \"n\"\nmessage = \"m\"",
            true,
            "[n|m]",
        ),
        (
            "a.toml",
            "[[rule]]\ntemplate = \"g\"",
            false,
            "1:1: rule 1: pattern: expected a text",
        ),
        (
            "a.toml",
            "[[rule]]\npattern = \"f()\"\nname = 1",
            false,
            "3:8: rule 1: name: expected a text",
        ),
        (
            "a.toml",
            "[[rule]]\npattern = \"f()\"\n\n[[rule]]\npattern = \"g()\"\nseverity = \"bad\"",
            false,
            "6:12: rule 2: severity: expected \"error\", \"warning\", \"note\" or \"help\"",
        ),
        (
            "a.toml",
            "[other]\nfiles = 1\n[[rule]] # one\npattern = \"\"\"\nf()\"\"\"\nfiles = [\"a\", '#']",
            false,
            "6:9: rule 1: files: expected a glob or a list of globs",
        ),
        (
            "a.toml",
            "rule = [{ pattern = \"f()\", files = [] }]",
            false,
            "1:1: rule 1: files: expected a glob or a list of globs",
        ),
        (
            "a.toml",
            "[[rule]]\npattern = \"f(\"",
            false,
            "2:11: rule 1, 1:3 of `PATTERN ==>> TEMPLATE`: this is no expression: expected `)`",
        ),
        (
            "a.toml",
            "[[rule]]\npattern = \"f($a)\"\nmesage = \"m\"",
            false,
            "3:10: rule 1: key: expected `name`, `message`, `pattern`, `where`, `template`, `severity`, `files`, `example` or `becomes`",
        ),
        (
            "a.toml",
            "[[rule]]\npattern = \"f($a, $ab, $$b)\"\nwhere = [\"$a: kind(literal)\", \"b:kind(literal)\"]",
            false,
            "3:9: rule 1: where: expected a placeholder of the pattern with a condition, as \"$a:kind(literal)\"",
        ),
    ];
    for (name, text, replaces, expected) in &rows {
        let told = said(rt.alloc(), rules_of(rt.alloc(), *name, *text, *replaces))?;
        assert_eq!(rt; told.as_str(), *expected);
    }
    let told = said(rt.alloc(), one_rule(rt.alloc(), "f($a)"))?;
    assert_eq!(rt;
        told.as_str(),
        "1:6: expected `==>>` between a pattern and a template"
    );
    let told = said(rt.alloc(), one_pattern(rt.alloc(), "f($a) ==>> g"))?;
    assert_eq!(rt;
        told.as_str(),
        "1:7: expected one pattern, without a further `==>>`"
    );
    Ok(())
}

#[test]
fn hunks_are_runs_of_changed_lines(rt: HostRuntime) -> Result<(), Fail> {
    let mut edit = TextEdit::new(rt.alloc());
    for (from, to, text) in [(0, 1, "x"), (2, 3, "y\nz"), (8, 9, "")] {
        let range = TextRange::new(TextSize::new(from), TextSize::new(to));
        edit.add(Indel::replace(range, String::from_str(rt.alloc(), text)?))?;
    }
    let mut out = Vec::new(rt.alloc());
    write_hunks(rt.alloc(), &mut out, "a\nb\nc\nd\ne", &edit)?;
    let expected =
        "@@ -1,2 +1,3 @@\n-a\n-b\n+x\n+y\n+z\n@@ -5,1 +6,0 @@\n-e\n\\ No newline at end of file\n";
    assert!(rt; out.as_slice() == expected.as_bytes());
    Ok(())
}
