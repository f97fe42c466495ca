//! Rules of types, patterns, paths, statements and items.
use crate::replaced::changed;
use ra_ap_syntax::Edition;
use rust_front::Rust;
use rust_rewrite::parse_rule;
use std::alloc::Global;
use std::test::Fail;

const NOW: Edition = Edition::CURRENT;

// Each row is a rule, a file, and the file with the matches replaced.
fn run(alloc: Global, rows: &[(&str, &str, &str)]) -> Result<(), Fail> {
    for (rule, file, expected) in rows {
        let rules = vec![in alloc; parse_rule(alloc, &Rust, NOW, rule)?]?;
        let new = changed(alloc, &rules, file)?;
        if new.as_str() != *expected {
            return Err(Fail::from(format!(in alloc; "{rule}: {file} became {new}")?));
        }
    }
    Ok(())
}

#[test]
fn types(rt: HostRuntime) -> Result<(), Fail> {
    run(
        rt.alloc(),
        &[
            (
                "Vec<$t> ==>> Box<[$t]>",
                "struct S(Vec<u8>, Option<Vec<Vec<S>>>); fn f(v: &Vec<i8>) -> Vec<u8> { v as Vec<u8> }",
                "struct S(Box<[u8]>, Option<Box<[Box<[S]>]>>); fn f(v: &Box<[i8]>) -> Box<[u8]> { v as Box<[u8]> }",
            ),
            (
                "&mut $t ==>> Mut<$t>",
                "fn f(a: &mut A, b: &B) -> &mut (A, B) {}",
                "fn f(a: Mut<A>, b: &B) -> Mut<(A, B)> {}",
            ),
            (
                "[$t; $n] ==>> [Option<$t>; $n]",
                "type A = [u8; 1]; type B = [[u8; 1 + 1]; N];",
                "type A = [Option<u8>; 1]; type B = [Option<[Option<u8>; 1 + 1]>; N];",
            ),
            (
                "Box<$t> ==>> &$t",
                // A pair is wanted round `dyn A + B`, and types get none.
                "type A = Box<dyn A + B>;",
                "the new text reads otherwise",
            ),
            (
                "Box<$t> ==>> &($t)",
                "type A = Box<dyn A + B>;",
                "type A = &(dyn A + B);",
            ),
        ],
    )
}

// Patterns get no pairs. A file is refused in which rustc would want one round a pattern, unless it
// has such a pattern already.
#[test]
fn patterns_that_want_pairs(rt: HostRuntime) -> Result<(), Fail> {
    let files = [
        "fn f() { let Some(A | B) = x; }",
        "fn f(Some(A | B): T) {}",
        "fn f() { match x { &Some(1..=2) => 1 } }",
        "fn f() { match x { &mut Some(..=2) => 1 } }",
        "fn f() { match x { box Some(1..2) => 1 } }",
        "fn f() { match x { [Some(1..)] => 1 } }",
        "fn f() { match x { [a @ Some(1..)] => 1 } }",
    ];
    for file in &files {
        run(
            rt.alloc(),
            &[("Some($p) ==>> $p", *file, "the new text reads otherwise")],
        )?;
    }
    run(
        rt.alloc(),
        &[
            (
                "Some($p) ==>> $p",
                "fn f() { match x { [Some(1..=2), Some(..2)] | Some(1..) => 1, a @ Some(1..) => 2 } }",
                "fn f() { match x { [1..=2, ..2] | 1.. => 1, a @ 1.. => 2 } }",
            ),
            (
                "Some($p) ==>> $p",
                "fn f() { if let Some(A | B) = x {} for Some(A | B) in x {} }",
                "fn f() { if let A | B = x {} for A | B in x {} }",
            ),
            (
                "Some($p) ==>> $p",
                "fn f(Some((A | B)): T) { let Some((A | B)) = x; }",
                "fn f((A | B): T) { let (A | B) = x; }",
            ),
            (
                "Some($p) ==>> ($p)",
                "fn f(Some(A | B): T) { let &Some(1..=2) = x; }",
                "fn f((A | B): T) { let &(1..=2) = x; }",
            ),
            (
                "Some($p) ==>> $p",
                "fn f() { let C | D = y; let Some(A | B) = x; }",
                "fn f() { let C | D = y; let A | B = x; }",
            ),
        ],
    )
}

// To rustc `async {} (b)` is a call, `..` and `...` are the last in their lists, the path of a
// macro has no arguments, and a `let` is in no pair; the parser takes all of these.
#[test]
fn what_rustc_reads_otherwise(rt: HostRuntime) -> Result<(), Fail> {
    let refused = [
        (
            "unsafe { $$a } ==>> async { $$a }",
            "fn g() { unsafe { a() } (b) }",
        ),
        (
            "unsafe { $$a } ==>> async move { $$a }",
            "fn g() { unsafe { a() } /* c */ *p = 1; }",
        ),
        (
            "unsafe { $$a } ==>> gen { $$a }",
            "fn g() { unsafe { a() } let x = 1; }",
        ),
        (
            "unsafe { $$a } ==>> async { $$a }",
            "fn g() { match x { c => unsafe { 1 } b => 2 } }",
        ),
        (
            "S { $$f } ==>> T { $$f, x: 1 }",
            "fn g() { let S { a, .. } = b; }",
        ),
        (
            "fn $f($$p); ==>> fn $f($$p, x: u8);",
            "extern \"C\" { fn f(a: u8, ...); }",
        ),
        ("A ==>> B::<C>", "fn g() { A!() }"),
        ("A::a ==>> B::<C>::a", "fn g() { A::a!() }"),
        (
            "$a && $b ==>> $b && $a",
            "fn g() { if a && let Some(b) = c && d {} }",
        ),
        (
            "if $c { $$b } ==>> if ($c) { $$b }",
            "fn g() { if let Some(b) = c {} }",
        ),
    ];
    for (rule, file) in &refused {
        run(
            rt.alloc(),
            &[(*rule, *file, "the new text reads otherwise")],
        )?;
    }
    run(
        rt.alloc(),
        &[
            (
                "unsafe { $$a } ==>> async { $$a }",
                "fn g() { unsafe { a() }; (b); unsafe { c() } }",
                "fn g() { async { a() }; (b); async { c() } }",
            ),
            (
                "unsafe { $$a } ==>> async { $$a }",
                "fn g() { match x { c => unsafe { 1 }, b => unsafe { 2 } } }",
                "fn g() { match x { c => async { 1 }, b => async { 2 } } }",
            ),
            (
                "S { $$f } ==>> T { x: 1, $$f }",
                "fn g() { let S { a, .. } = b; }",
                "fn g() { let T { x: 1, a, .. } = b; }",
            ),
            (
                "fn $f($$p); ==>> fn $f(x: u8, $$p);",
                "extern \"C\" { fn f(a: u8, ...); }",
                "extern \"C\" { fn f(x: u8, a: u8, ...); }",
            ),
            (
                "A ==>> b::B",
                "fn g() { A!(); A::f() }",
                "fn g() { b::B!(); b::B::f() }",
            ),
            (
                "if $c { $$b } ==>> while $c { $$b }",
                "fn g() { if a && let Some(b) = (c && d) {} }",
                "fn g() { while a && let Some(b) = (c && d) {  } }",
            ),
        ],
    )
}

#[test]
fn patterns(rt: HostRuntime) -> Result<(), Fail> {
    run(
        rt.alloc(),
        &[
            (
                "Some($p) ==>> Ok($p)",
                "fn f() { match x { Some(Some(1)) => Some(y + 1), Some(ref y) | None => Some } }",
                "fn f() { match x { Ok(Ok(1)) => Ok(y + 1), Ok(ref y) | None => Some } }",
            ),
            (
                "S { $f: $p } ==>> T { $f: Some($p) }",
                "fn f() { let S { a: b } = S { a: 1 + 1 }; }",
                "fn f() { let T { a: Some(b) } = T { a: Some(1 + 1) }; }",
            ),
            (
                "S { $f: $f } ==>> S { $f }",
                "fn f() { let S { a: a } = S { b: b }; S { a: b }; }",
                "fn f() { let S { a } = S { b }; S { a: b }; }",
            ),
            (
                "$a | $a ==>> $a",
                "fn f() { match x { 1 | 1 => y | y, 1 | 2 => (z) | z } }",
                "fn f() { match x { 1 => y, 1 | 2 => (z) } }",
            ),
        ],
    )
}

#[test]
fn paths(rt: HostRuntime) -> Result<(), Fail> {
    run(
        rt.alloc(),
        &[
            (
                "foo::Bar ==>> foo::Baz",
                "use foo::Bar; fn f(b: foo::Bar) -> foo::Bar { match b { foo::Bar => foo::Bar::new(foo::Bar), _ => foo::bar } }",
                "use foo::Baz; fn f(b: foo::Baz) -> foo::Baz { match b { foo::Baz => foo::Baz::new(foo::Baz), _ => foo::bar } }",
            ),
            (
                "$p::new() ==>> $p::default()",
                "fn f() { a::B::new(); C::new(); Vec::<u8>::new(); C::new(1); }",
                "fn f() { a::B::default(); C::default(); Vec::<u8>::default(); C::new(1); }",
            ),
            (
                "old::$name ==>> new::$name",
                "use old::a; fn f() { old::b(); other::old::c(); old::d::e(); }",
                "use new::a; fn f() { new::b(); other::old::c(); new::d::e(); }",
            ),
        ],
    )
}

#[test]
fn statements(rt: HostRuntime) -> Result<(), Fail> {
    run(
        rt.alloc(),
        &[
            (
                "let $p = $e.unwrap(); ==>> let $p = $e?;",
                "fn f() { let x = g().unwrap(); let (a, b) = (x + 1).unwrap(); let y: u8 = g().unwrap(); }",
                "fn f() { let x = g()?; let (a, b) = (x + 1)?; let y: u8 = g().unwrap(); }",
            ),
            (
                "let mut $x = $e; ==>> let $x = Cell::new($e);",
                "fn f() { let mut x = 1 + 1; let y = 1; }",
                "fn f() { let x = Cell::new(1 + 1); let y = 1; }",
            ),
            (
                "drop($x); ==>> let _ = $x;",
                "fn f() { drop(a); if drop(b) { drop(a + b); } }",
                "fn f() { let _ = a; if drop(b) { let _ = a + b; } }",
            ),
            (
                "$s.$field = $e; ==>> $s.set($e);",
                "fn f() { a.b.c = 1 + 1; a.0 = 1; a = 2; }",
                "fn f() { a.b.set(1 + 1); a.set(1); a = 2; }",
            ),
            (
                "{ let $x = $e; $x } ==>> { $e }",
                "fn f() { let a = { let x = g(x) + 1; x }; let b = { let x = 1; y }; }",
                "fn f() { let a = { g(x) + 1 }; let b = { let x = 1; y }; }",
            ),
        ],
    )
}

#[test]
fn items(rt: HostRuntime) -> Result<(), Fail> {
    run(
        rt.alloc(),
        &[
            (
                "fn $f($p: $t) -> $r { $b } ==>> fn $f($p: &$t) -> $r { $f($b) }",
                "fn f(x: u8) -> u8 { x + 1 } impl S { fn g((a, b): (A, B)) -> A { a } fn h() {} }",
                "fn f(x: &u8) -> u8 { f(x + 1) } impl S { fn g((a, b): &(A, B)) -> A { g(a) } fn h() {} }",
            ),
            (
                "impl Default for $t { fn default() -> Self { Self::new() } } ==>> impl Default for $t { fn default() -> $t { <$t>::new() } }",
                "impl Default for a::S { fn default() -> Self { Self::new() } } impl Default for T {}",
                "impl Default for a::S { fn default() -> a::S { <a::S>::new() } } impl Default for T {}",
            ),
            (
                "const $n: $t = $e; ==>> static $n: $t = $e;",
                "const A: u8 = 1 + 1; mod m { const B: &str = \"\"; pub const C: u8 = 0; }",
                "static A: u8 = 1 + 1; mod m { static B: &str = \"\"; pub const C: u8 = 0; }",
            ),
        ],
    )
}

#[test]
fn words(rt: HostRuntime) -> Result<(), Fail> {
    run(
        rt.alloc(),
        &[
            (
                "$x.$m($x) ==>> twice($x.$m)",
                "fn f() { a.b(a); a.b(c); a.0(a); }",
                "fn f() { twice(a.b); a.b(c); a.0(a); }",
            ),
            (
                "$x.${m:text(/^get_/)}() ==>> $x[$m]",
                "fn f() { a.get_b(); a.b(); }",
                "fn f() { a[get_b]; a.b(); }",
            ),
            (
                "${x:kind(ident)}.$x ==>> $x",
                "fn f() { a.a; a.b; self.a; }",
                "fn f() { a; a.b; self.a; }",
            ),
        ],
    )
}
