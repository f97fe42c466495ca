//! Placeholders for lists.
use crate::replaced::{changed, run};
use crate::rules::refusal;
use ra_ap_syntax::Edition;
use rust_front::Rust;
use rust_rewrite::parse_rule;
use std::alloc::Global;
use std::test::Fail;

const NOW: Edition = Edition::CURRENT;

#[test]
fn arguments(rt: HostRuntime) -> Result<(), Fail> {
    run(
        rt.alloc(),
        &[
            (
                "f($$a) ==>> g($$a)",
                "f(); f(1); f(1, 2,); f(f(3), x); h(1);",
                "g(); g(1); g(1, 2); g(g(3), x); h(1);",
            ),
            (
                "f($a, $$rest) ==>> g($$rest, $a)",
                "f(1); f(1,); f(1, 2); f(1, 2, 3); f();",
                "g(1); g(1); g(2, 1); g(2, 3, 1); f();",
            ),
            (
                "f($$init, $last) ==>> g($last, $$init)",
                "f(1); f(1, 2, 3,); f();",
                "g(1); g(3, 1, 2); f();",
            ),
            (
                "f($a, $$mid, $b) ==>> g($$mid)",
                "f(1, 2); f(1, 2, 3); f(1, 2, 3, 4); f(1);",
                "g(); g(2); g(2, 3); f(1);",
            ),
            (
                "f($$_) ==>> g()",
                "f(1, 2); f(); f(/* why */);",
                "g(); g(); f(/* why */);",
            ),
            // Comments between elements stay with the list.
            (
                "f($$a) ==>> g($$a)",
                "f(1, /* a */ 2); f(1, // x\n2);",
                "g(1, /* a */ 2); g(1, // x\n2);",
            ),
            (
                "f($$_) ==>> g()",
                "f(1, /* a */ 2);",
                "a comment would be lost",
            ),
            ("[$$_] ==>> v", "[]; [1, 2]; [0; 8];", "v; v; [0; 8];"),
            (
                "($$a,) ==>> [$$a]",
                "(1, 2); (1,); (1); ();",
                "[1, 2]; [1]; (1); [];",
            ),
            ("$x.f($$a) ==>> f($x, $$a)", "a.f().f(1);", "f(f(a), 1);"),
            (
                "f::<$$t>() ==>> g::<$$t>()",
                "f::<u8, A>();",
                "g::<u8, A>();",
            ),
            (
                "|$$p| $e ==>> f(|$$p| $e)",
                "x(|a, b| 1);",
                "x(f(|a, b| 1));",
            ),
        ],
    )
}

#[test]
fn statements_and_arms(rt: HostRuntime) -> Result<(), Fail> {
    run(
        rt.alloc(),
        &[
            (
                "if $c { $$s } ==>> when($c, || { $$s })",
                "if a { b(); c() }",
                "when(a, || { b(); c() })",
            ),
            (
                "if $c { $$s } ==>> when($c, || { $$s })",
                "if a {}",
                "when(a, || {  })",
            ),
            (
                "loop { $$s; break; } ==>> { $$s }",
                "loop { a(); b(); break; }",
                "{ a(); b(); }",
            ),
            (
                "match $x { $$arms, _ => $d } ==>> h($x, $d)",
                "match a { 1 => 2, 3 => {} _ => 4 }",
                "h(a, 4)",
            ),
            (
                "match $x { $$arms } ==>> match g($x) { $$arms }",
                "match a { 1 => 2, _ => {} }",
                "match g(a) { 1 => 2, _ => {} }",
            ),
            (
                "match $x { $$arms, _ => $d } ==>> match $x { $$arms, _ => g($d) }",
                "match a { 1 => 2, _ => 3 }",
                "match a { 1 => 2, _ => g(3) }",
            ),
            (
                "match $x { $$arms, _ => f($$a) } ==>> match $x { $$arms, _ => g($$a) }",
                "match a { 1 => 2, _ => f(3, 4) }",
                "match a { 1 => 2, _ => g(3, 4) }",
            ),
            (
                "S { $$f, ..$b } ==>> T { $$f, ..$b }",
                "S { a: 1, b, ..c }; S { ..c };",
                "T { a: 1, b, ..c }; T { ..c };",
            ),
            (
                "let ($$p, _) = $e; ==>> let [$$p] = $e;",
                "let (a, b, _) = x;",
                "let [a, b] = x;",
            ),
        ],
    )
}

// A file with the matches of a rule replaced.
fn put(alloc: Global, rule: &str, file: &str) -> Result<String, Fail> {
    let rules = vec![in alloc; parse_rule(alloc, &Rust, NOW, rule)?]?;
    changed(alloc, &rules, file)
}

#[test]
fn items(rt: HostRuntime) -> Result<(), Fail> {
    let alloc = rt.alloc();
    let rows = [
        (
            "fn $n($$p) {} ==>> fn $n($$p) -> u8 { 0 }",
            "fn g(a: u8, b: u8) {} fn h() {}",
            "fn g(a: u8, b: u8) -> u8 { 0 } fn h() -> u8 { 0 }",
        ),
        (
            "struct $n { $$f } ==>> union $n { $$f }",
            "struct S { a: u8, pub b: u8 }",
            "union S { a: u8, pub b: u8 }",
        ),
        (
            "struct $n { $$f, z: $t } ==>> struct $n { z: $t, $$f }",
            "struct S { a: u8, z: u8 } struct T { z: u8 }",
            "struct S { z: u8, a: u8 } struct T { z: u8 }",
        ),
        (
            "enum $n { $$v } ==>> enum $n { $$v, Z }",
            "enum E { A, B(u8), } enum F {}",
            "enum E { A, B(u8), Z } enum F { Z }",
        ),
        (
            "impl $t { $$i } ==>> impl T for $t { $$i }",
            "impl S { fn f() {} const C: u8 = 1; }",
            "impl T for S { fn f() {} const C: u8 = 1; }",
        ),
        (
            "impl $t { $$i } ==>> impl $t { $$i fn z() {} }",
            "impl S { fn f() {} } impl T {}",
            "impl S { fn f() {} fn z() {} } impl T {  fn z() {} }",
        ),
        (
            "impl $t { $$i fn z() {} } ==>> impl $t { $$i }",
            "impl S { fn f() {} fn z() {} } impl T { fn y() {} }",
            "impl S { fn f() {} } impl T { fn y() {} }",
        ),
        (
            "struct $s { $$f } ==>> struct $s {}",
            "struct S { /// doc\n a: u8 }",
            "a comment would be lost",
        ),
        (
            "f($a, $$r) ==>> h(\n    $$r,\n    $a,\n)",
            "fn m() {\n    f(1, 2);\n}",
            "fn m() {\n    h(\n        2,\n        1,\n    );\n}",
        ),
        (
            "use a::{$$t}; ==>> use b::{$$t};",
            "use a::{c, d::e};",
            "use b::{c, d::e};",
        ),
    ];
    for (rule, file, expected) in rows {
        let new = put(alloc, rule, file)?;
        if new.as_str() != expected {
            return Err(Fail::from(format!(in alloc; "{rule}: {file} became {new}")?));
        }
    }
    Ok(())
}

#[test]
fn refused(rt: HostRuntime) -> Result<(), Fail> {
    let alloc = rt.alloc();
    let rows = [
        (
            "f($$a, $$b) ==>> 1",
            "7: expected one placeholder for a list, which comes once, in each list",
        ),
        (
            "g(f($$a), h($$a)) ==>> 1",
            "4: expected one placeholder for a list, which comes once, in each list",
        ),
        (
            "f($$a) ==>> g($$a, $$a)",
            "2: expected one placeholder for a list, which comes once, in each list",
        ),
        (
            "f($a) ==>> g($$a)",
            "13: expected one `$` or two before this name, as where it stands first",
        ),
        (
            "$$a + 1 ==>> 1",
            "0: expected a place of an expression, a type, a pattern, a path or a name for this placeholder",
        ),
        (
            "f($$a) ==>> $$a",
            "2: expected a place of an expression, a type, a pattern, a path or a name for this placeholder",
        ),
        (
            "$$a ==>> 1",
            "0: expected a pattern that is more than a placeholder",
        ),
        (
            "f($$$a) ==>> 1",
            "2: expected the name of a placeholder behind `$`",
        ),
        (
            "f($$) ==>> 1",
            "2: expected the name of a placeholder behind `$`",
        ),
        (
            "f($${a:kind(literal)}) ==>> 1",
            "2: expected the name of a placeholder behind `$`",
        ),
        ("f($$a b) ==>> 1", "5: this is no expression: expected `,`"),
        ("f($$a ==>> 1", "5: this is no expression: expected `)`"),
        ("f($$a) b ==>> 1", "6: this is no type: expected `;`"),
    ];
    for (rule, expected) in rows {
        let told = refusal(alloc, rule)?;
        if told.as_str() != expected {
            return Err(Fail::from(format!(in alloc; "{rule}: {told}")?));
        }
    }
    Ok(())
}
