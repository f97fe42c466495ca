//! Matches replaced in texts.
use ra_ap_syntax::{Edition, SourceFile};
use rust_front::Rust;
use rust_rewrite::{Rule, parse_rule, rewrite};
use std::alloc::Global;
use std::test::Fail;

const NOW: Edition = Edition::CURRENT;

// The text of a function's body with the matches of a rule replaced, or why they are not.
fn put(alloc: Global, rule: &str, body: &str) -> Result<String, Fail> {
    let rule = parse_rule(alloc, &Rust, NOW, rule)?;
    let rules = vec![in alloc; rule]?;
    let file = format!(in alloc; "fn f() {{ {body} }}")?;
    let text = changed(alloc, &rules, file.as_str())?;
    let inner = text
        .strip_prefix("fn f() { ")
        .and_then(|it| it.strip_suffix(" }"))
        .unwrap_or(text.as_str());
    Ok(String::from_str(alloc, inner)?)
}

// A file with the matches of rules replaced, or why they are not.
pub(crate) fn changed(alloc: Global, rules: &[Rule], file: &str) -> Result<String, Fail> {
    let parse = SourceFile::parse(alloc, file, &Rust, NOW)?;
    match rewrite(alloc, &Rust, NOW, rules, &parse.to_syntax()) {
        Ok(done) => Ok(done.text),
        Err(error) => Ok(format!(in alloc; "{error}")?),
    }
}

// Each rule on a body, and what that becomes.
pub(crate) fn run(alloc: Global, rows: &[(&str, &str, &str)]) -> Result<(), Fail> {
    for (rule, body, expected) in rows {
        let new = put(alloc, rule, body)?;
        if new.as_str() != *expected {
            return Err(Fail::from(format!(in alloc; "{rule}: {body} became {new}")?));
        }
    }
    Ok(())
}

#[test]
fn contexts(rt: HostRuntime) -> Result<(), Fail> {
    run(
        rt.alloc(),
        &[
            ("foo($a, $b) ==>> $a + $b", "foo(1, 2) * 3;", "(1 + 2) * 3;"),
            (
                "foo($a, $b) ==>> $a + $b",
                "let x = foo(1, 2);",
                "let x = 1 + 2;",
            ),
            (
                "foo($a, $b) ==>> $a * $b",
                "let x = foo(1 + 2, 3);",
                "let x = (1 + 2) * 3;",
            ),
            ("$a.clone() ==>> *$a", "x.clone().len();", "(*x).len();"),
            (
                "lt($a, $b) ==>> $a < $b",
                "lt(lt(a, b), c);",
                "(a < b) < c;",
            ),
            (
                "$a.eq(&$b) ==>> $a == $b",
                "a.eq(&b).eq(&c);",
                "(a == b) == c;",
            ),
            // One pair stays, the user's own if there is one.
            (
                "lt($a, $b) ==>> $a < $b",
                "(lt(a, b)) == c;",
                "(a < b) == c;",
            ),
            ("neg($a) ==>> $a.neg()", "neg((n - 1));", "(n - 1).neg();"),
            ("neg($a) ==>> -$a", "neg(neg(1));", "--1;"),
            ("neg($a) ==>> -$a", "neg(a + b).abs();", "(-(a + b)).abs();"),
            ("abs($a) ==>> $a.abs()", "abs(-1);", "(-1).abs();"),
            (
                "f($a) ==>> $a",
                "if f(S { a: 1 }) == x {}",
                "if (S { a: 1 }) == x {}",
            ),
            (
                "f($a) ==>> S { a: $a }",
                "if f(1) == x {}",
                "if (S { a: 1 }) == x {}",
            ),
            ("f($a) ==>> $a", "return f(1);", "return 1;"),
            ("f($a) ==>> return $a", "f(1) + 2;", "(return 1) + 2;"),
            ("f($a) ==>> $a as u8", "f(1) < 2;", "(1 as u8) < 2;"),
            ("f($a, $t) ==>> $a", "f(1, 2) as u8;", "1 as u8;"),
            ("f($a) ==>> $a..", "for i in f(1) {}", "for i in 1.. {}"),
            ("f($a, $b) ==>> $a..$b", "f(1, 2).len();", "(1..2).len();"),
            ("f($a) ==>> |x| x + $a", "f(1)(2);", "(|x| x + 1)(2);"),
            (
                "f($a) ==>> match $a { _ => 1 }",
                "f(1) + 2;",
                "(match 1 { _ => 1 }) + 2;",
            ),
            (
                "f($a) ==>> match $a { _ => 1 }",
                "let x = f(1) + 2;",
                "let x = match 1 { _ => 1 } + 2;",
            ),
        ],
    )
}

#[test]
fn placeholders(rt: HostRuntime) -> Result<(), Fail> {
    run(
        rt.alloc(),
        &[
            ("$a + $a ==>> 2 * $a", "x - (y + y);", "x - (2 * y);"),
            ("$a + $a ==>> 2 * $a", "(y) + y; z + y;", "2 * (y); z + y;"),
            ("$a + $a ==>> 2 * $a", "f(a, b) + f(a,b);", "2 * f(a, b);"),
            ("$_ + $_ ==>> 0", "x + y;", "0;"),
            ("f($a) ==>> g($a)", "f(f(f(1)));", "g(g(g(1)));"),
            (
                "f($a, $b) ==>> f($b, $a)",
                "f(f(1, 2), 3);",
                "f(3, f(2, 1));",
            ),
            ("f($a) ==>> $a + $a", "f(f(1));", "1 + 1 + (1 + 1);"),
            ("$x as $t ==>> cast::<$t>($x)", "1 as u8;", "cast::<u8>(1);"),
            ("f($a) ==>> $a", "f((1));", "(1);"),
            ("(f($a)) ==>> ($a)", "f(1);", "(1);"),
            ("f(1) ==>> 2", "(f)((1));", "2;"),
            (
                "if true { $a } ==>> { $a }",
                "if true { b } if true { c } d",
                "{ b } { c } d",
            ),
            ("f($x) ==>> $x", "m!(f(1));", "m!(f(1));"),
        ],
    )
}

// Examples of ast-grep's catalog for Rust, and what surrounds them.
#[test]
fn examples_of_ast_grep(rt: HostRuntime) -> Result<(), Fail> {
    run(
        rt.alloc(),
        &[
            (
                "$a.chars().enumerate() ==>> $a.char_indices()",
                "source.chars().enumerate().map(f);",
                "source.char_indices().map(f);",
            ),
            (
                "$n.to_string().chars().count() ==>> $n.checked_ilog10().unwrap_or(0) + 1",
                "let width = (lines + 1).to_string().chars().count();",
                "let width = (lines + 1).checked_ilog10().unwrap_or(0) + 1;",
            ),
            (
                "$n.to_string().chars().count() ==>> $n.checked_ilog10().unwrap_or(0) + 1",
                "pad(2 * n.to_string().chars().count());",
                "pad(2 * (n.checked_ilog10().unwrap_or(0) + 1));",
            ),
            (
                "$f.unwrap_or($e) ==>> $f.unwrap_or_else(|| $e)",
                "a.unwrap_or(b(1, 2));",
                "a.unwrap_or_else(|| b(1, 2));",
            ),
            (
                "unsafe { $$s } ==>> { $$s }",
                "unsafe { a(); *b }",
                "{ a(); *b }",
            ),
            (
                "log($$args) ==>> debug($$args)",
                "log(); log(1); log(1, a.b);",
                "debug(); debug(1); debug(1, a.b);",
            ),
        ],
    )
}

#[test]
fn commas_at_the_end(rt: HostRuntime) -> Result<(), Fail> {
    run(
        rt.alloc(),
        &[
            (
                "f($a, $b) ==>> g($b, $a)",
                "f(1, 2,); f(\n1,\n2,\n);",
                "g(2, 1); g(2, 1);",
            ),
            (
                "f($a, $b,) ==>> g($b, $a)",
                "f(1, 2); f(1, 2,);",
                "g(2, 1); g(2, 1);",
            ),
            (
                "[$a, $b] ==>> [$b, $a,]",
                "[1, 2,]; [1; 2];",
                "[2, 1,]; [1; 2];",
            ),
            (
                "S { a: $a } ==>> S { a: f($a) }",
                "S { a: 1, }; S { a: 1, ..b };",
                "S { a: f(1) }; S { a: 1, ..b };",
            ),
            (
                "|$p, $q| $e ==>> |$q, $p| $e",
                "f(|a, b,| a);",
                "f(|b, a| a);",
            ),
            (
                "f::<$t>($a) ==>> g::<$t>($a)",
                "f::<u8,>(1,);",
                "g::<u8>(1);",
            ),
            (
                "match $x { A => $a, B => $b } ==>> h($x, $a, $b)",
                "match x { A => 1, B => 2, }; match x { A => {} B => {} }",
                "h(x, 1, 2); h(x, {}, {})",
            ),
            (
                "let ($p, $q) = $e; ==>> let ($q, $p) = $e;",
                "let (a, b,) = (1, 2,);",
                "let (b, a) = (1, 2,);",
            ),
            ("$a + $a ==>> 2 * $a", "f(a,) + f(a);", "2 * f(a,);"),
            // A tuple of one element and a pair, and a comma that is not at the end.
            (
                "f(($a,)) ==>> $a",
                "f((1,)); f((1)); f(1);",
                "1; f((1)); f(1);",
            ),
            ("f(($a)) ==>> $a", "f((1,)); f((1));", "(1,); (1);"),
            ("f($a) ==>> $a", "f(1, 2); f(,);", "f(1, 2); f(,);"),
            // Commas of the arguments of a macro count, as all their tokens.
            (
                "f(m![1, 2]) ==>> 0",
                "f(m![1, 2]); f(m![1, 2,]); f(m![1, 2],);",
                "0; f(m![1, 2,]); 0;",
            ),
            (
                "$a + $a ==>> 2 * $a",
                "x = m!(a,) + m!(a);",
                "x = m!(a,) + m!(a);",
            ),
            // A comment beside the comma stays.
            (
                "f($a) ==>> $a",
                "f(1, /* c */); f(1 /* c */,);",
                "f(1, /* c */); f(1 /* c */,);",
            ),
        ],
    )
}

// A field without a `:` has its name from what would be replaced.
#[test]
fn fields(rt: HostRuntime) -> Result<(), Fail> {
    run(
        rt.alloc(),
        &[
            (
                "a ==>> b",
                "S { a, x: a, a: a, ..a };",
                "S { a, x: b, a: b, ..b };",
            ),
            ("a ==>> f(1)", "S { a, x: a };", "S { a, x: f(1) };"),
            (
                "a ==>> b",
                "let S { a, x: a, ref mut a, box a } = s;",
                "let S { a, x: b, ref mut a, box a } = s;",
            ),
            (
                "a ==>> b",
                "f(S { a }, |S { a }| a);",
                "f(S { a }, |S { a }| b);",
            ),
            ("S { $a } ==>> T { $a }", "S { a };", "T { a };"),
            ("S { a } ==>> T { b }", "S { a };", "T { b };"),
            // What is in an attribute of such a field stays, or the file is refused.
            (
                "g(1) ==>> 2",
                "S { #[x = g(1)] a, x: g(1) };",
                "the new text reads otherwise",
            ),
        ],
    )
}

#[test]
fn line_ends(rt: HostRuntime) -> Result<(), Fail> {
    run(
        rt.alloc(),
        &[
            (
                "f($a) ==>> {\n    $a\n}",
                "\r\n  f(1);\r\n",
                "\r\n  {\r\n      1\r\n  };\r\n",
            ),
            (
                "f($a) ==>> {\r\n    $a\r\n}",
                "\n  f(1);\n",
                "\n  {\n      1\n  };\n",
            ),
            ("f($a) ==>> {\n$a\n}", "f(1);", "{\n1\n};"),
        ],
    )
}

#[test]
fn comments(rt: HostRuntime) -> Result<(), Fail> {
    run(
        rt.alloc(),
        &[
            ("f($a) ==>> $a", "f(/* c */ 1);", "f(/* c */ 1);"),
            ("f($a) ==>> $a", "f(g(/* c */ 1));", "g(/* c */ 1);"),
            (
                "f($a) ==>> $a",
                "/* a */ f(1) /* b */;",
                "/* a */ 1 /* b */;",
            ),
            ("f($a) ==>> $a", "f((/* c */ 1));", "(/* c */ 1);"),
            (
                "f($a, $b) ==>> $a",
                "f(1, g(/* c */ 2));",
                "a comment would be lost",
            ),
        ],
    )
}

#[test]
fn conditions(rt: HostRuntime) -> Result<(), Fail> {
    run(
        rt.alloc(),
        &[
            (
                "f(${a:kind(literal)}) ==>> g($a)",
                "f(1); f((2)); f(x); f(-1);",
                "g(1); g((2)); f(x); f(-1);",
            ),
            (
                "f(${a:not(kind(literal))}) ==>> g($a)",
                "f(1); f((2)); f(x);",
                "f(1); f((2)); g(x);",
            ),
            (
                "f(${a:kind(PATH_EXPR):not(text(/^(self|Self)/))}) ==>> g($a)",
                "f(x); f(self); f(1); f((y));",
                "g(x); f(self); f(1); g((y));",
            ),
            (
                "f(${a:not(not(kind(Path_Expr)))}) ==>> g(${a})",
                "f(x); f(1);",
                "g(x); f(1);",
            ),
            (
                "$a + ${a:text(/^[a-m]$/)} ==>> 2 * $a",
                "b + b; z + z; bb + bb;",
                "2 * b; z + z; bb + bb;",
            ),
            (
                "f(${ a : text(/'\"\\/}/) }) ==>> g($a)",
                "f(x); f(\"'\\\"/}\");",
                "f(x); f(\"'\\\"/}\");",
            ),
            (
                "f(${_:text(/\"\\//)}, ${b:text(/'/)}) ==>> g($b)",
                "f(\"/\", 'c'); f(\"\", 'c'); f(\"/\", c);",
                "g('c'); f(\"\", 'c'); f(\"/\", c);",
            ),
            (
                "${x:kind(literal)} as ${t:text(/^u/)} ==>> cast::<$t>($x)",
                "1 as u8; 1 as i8; x as u8;",
                "cast::<u8>(1); 1 as i8; x as u8;",
            ),
        ],
    )
}

// The text of a literal of so many bytes.
fn long(alloc: Global, len: usize) -> Result<String, Fail> {
    let mut text = String::new(alloc);
    for _turn in 0..len {
        text.push('1')?;
    }
    Ok(text)
}

#[test]
fn long_texts_are_not_searched(rt: HostRuntime) -> Result<(), Fail> {
    let alloc = rt.alloc();
    for (len, is_found) in [(1000, true), (1001, false)] {
        let digits = long(alloc, len)?;
        let body = format!(in alloc; "f({digits});")?;
        let new = put(alloc, "f(${a:text(/1/)}) ==>> g($a)", body.as_str())?;
        if new.starts_with("g(") != is_found {
            return Err("a text of at most 1000 bytes is searched".into());
        }
        let new = put(alloc, "f(${a:not(text(/1/))}) ==>> g($a)", body.as_str())?;
        if new.starts_with("g(") == is_found {
            return Err("and a longer one is none in which something is found".into());
        }
    }
    Ok(())
}
