//! `T!` from another crate, and names and numbers of kinds at their edges.
use lossless_tree::{KINDS, Language, RustLanguage, SyntaxKind, T};
use std::test::Fail;

// The name of each kind of punctuation that `T!` names.
fn punctuation(kind: SyntaxKind) -> Option<&'static str> {
    match kind {
        T![;] => Some("SEMICOLON"),
        T![,] => Some("COMMA"),
        T!['('] => Some("L_PAREN"),
        T![')'] => Some("R_PAREN"),
        T!['{'] => Some("L_CURLY"),
        T!['}'] => Some("R_CURLY"),
        T!['['] => Some("L_BRACK"),
        T![']'] => Some("R_BRACK"),
        T![<] => Some("L_ANGLE"),
        T![>] => Some("R_ANGLE"),
        T![@] => Some("AT"),
        T![#] => Some("POUND"),
        T!['$'] => Some("DOLLAR"),
        T![~] => Some("TILDE"),
        T![?] => Some("QUESTION"),
        T![&] => Some("AMP"),
        T![|] => Some("PIPE"),
        T![+] => Some("PLUS"),
        T![*] => Some("STAR"),
        T![/] => Some("SLASH"),
        T![^] => Some("CARET"),
        T![%] => Some("PERCENT"),
        T![_] => Some("UNDERSCORE"),
        T![.] => Some("DOT"),
        T![..] => Some("DOT2"),
        T![...] => Some("DOT3"),
        T![..=] => Some("DOT2EQ"),
        T![:] => Some("COLON"),
        T![::] => Some("COLON2"),
        T![=] => Some("EQ"),
        T![==] => Some("EQ2"),
        T![=>] => Some("FAT_ARROW"),
        T![!] => Some("BANG"),
        T![!=] => Some("NEQ"),
        T![-] => Some("MINUS"),
        T![->] => Some("THIN_ARROW"),
        T![<=] => Some("LTEQ"),
        T![>=] => Some("GTEQ"),
        T![+=] => Some("PLUSEQ"),
        T![-=] => Some("MINUSEQ"),
        T![|=] => Some("PIPEEQ"),
        T![&=] => Some("AMPEQ"),
        T![^=] => Some("CARETEQ"),
        T![/=] => Some("SLASHEQ"),
        T![*=] => Some("STAREQ"),
        T![%=] => Some("PERCENTEQ"),
        T![&&] => Some("AMP2"),
        T![||] => Some("PIPE2"),
        T![<<] => Some("SHL"),
        T![>>] => Some("SHR"),
        T![<<=] => Some("SHLEQ"),
        T![>>=] => Some("SHREQ"),
        _ => None,
    }
}

// The name of each keyword that `T!` names.
fn keyword(kind: SyntaxKind) -> Option<&'static str> {
    match kind {
        T![as] => Some("AS_KW"),
        T![async] => Some("ASYNC_KW"),
        T![auto] => Some("AUTO_KW"),
        T![await] => Some("AWAIT_KW"),
        T![become] => Some("BECOME_KW"),
        T![bikeshed] => Some("BIKESHED_KW"),
        T![break] => Some("BREAK_KW"),
        T![builtin] => Some("BUILTIN_KW"),
        T![const] => Some("CONST_KW"),
        T![continue] => Some("CONTINUE_KW"),
        T![crate] => Some("CRATE_KW"),
        T![default] => Some("DEFAULT_KW"),
        T![do] => Some("DO_KW"),
        T![dyn] => Some("DYN_KW"),
        T![else] => Some("ELSE_KW"),
        T![enum] => Some("ENUM_KW"),
        T![extern] => Some("EXTERN_KW"),
        T![false] => Some("FALSE_KW"),
        T![fn] => Some("FN_KW"),
        T![for] => Some("FOR_KW"),
        T![gen] => Some("GEN_KW"),
        T![if] => Some("IF_KW"),
        T![impl] => Some("IMPL_KW"),
        T![in] => Some("IN_KW"),
        T![let] => Some("LET_KW"),
        T![loop] => Some("LOOP_KW"),
        T![macro] => Some("MACRO_KW"),
        T![macro_rules] => Some("MACRO_RULES_KW"),
        T![match] => Some("MATCH_KW"),
        T![mod] => Some("MOD_KW"),
        T![move] => Some("MOVE_KW"),
        T![mut] => Some("MUT_KW"),
        T![pub] => Some("PUB_KW"),
        T![ref] => Some("REF_KW"),
        T![return] => Some("RETURN_KW"),
        T![self] => Some("SELF_KW"),
        T![Self] => Some("SELF_TYPE_KW"),
        T![static] => Some("STATIC_KW"),
        T![struct] => Some("STRUCT_KW"),
        T![super] => Some("SUPER_KW"),
        T![trait] => Some("TRAIT_KW"),
        T![true] => Some("TRUE_KW"),
        T![try] => Some("TRY_KW"),
        T![type] => Some("TYPE_KW"),
        T![union] => Some("UNION_KW"),
        T![unsafe] => Some("UNSAFE_KW"),
        T![use] => Some("USE_KW"),
        T![where] => Some("WHERE_KW"),
        T![while] => Some("WHILE_KW"),
        T![yeet] => Some("YEET_KW"),
        T![yield] => Some("YIELD_KW"),
        _ => None,
    }
}

#[test]
fn t_names_punctuation_and_keywords(rt: HostRuntime) {
    let mut named = 0u32;
    for kind in &KINDS {
        if let Some(name) = punctuation(*kind).or(keyword(*kind)) {
            assert_eq!(rt; kind.name(), Some(name));
            named = named.wrapping_add(1);
        }
    }
    assert_eq!(rt; named, 103);
}

#[test]
fn t_is_a_value(rt: HostRuntime) {
    assert_eq!(rt; T![+], SyntaxKind::PLUS);
    assert_eq!(rt; T!['('], SyntaxKind::L_PAREN);
    assert_eq!(rt; T!['$'], SyntaxKind::DOLLAR);
    assert_eq!(rt; T![_], SyntaxKind::UNDERSCORE);
    assert_eq!(rt; T![||], SyntaxKind::PIPE2);
    assert_eq!(rt; T![Self], SyntaxKind::SELF_TYPE_KW);
    assert!(rt; T![|] != T![||]);
}

#[test]
fn names_are_read_back(rt: HostRuntime) {
    for kind in &KINDS {
        if let Some(name) = kind.name() {
            assert_eq!(rt; SyntaxKind::from_name(name), Some(*kind));
        }
    }
    assert_eq!(rt; SyntaxKind::from_name("plus"), None);
    assert_eq!(rt; SyntaxKind::from_name("PLUS "), None);
    assert_eq!(rt; SyntaxKind::from_name(""), None);
}

#[test]
fn other_has_a_plain_number(rt: HostRuntime) {
    assert_eq!(rt;
        SyntaxKind::from_name("OTHER(0)"),
        Some(SyntaxKind::OTHER(0))
    );
    assert_eq!(rt;
        SyntaxKind::from_name("OTHER(65535)"),
        Some(SyntaxKind::OTHER(65_535))
    );
    assert_eq!(rt; SyntaxKind::from_name("OTHER(65536)"), None);
    assert_eq!(rt; SyntaxKind::from_name("OTHER(07)"), None);
    assert_eq!(rt; SyntaxKind::from_name("OTHER(+7)"), None);
    assert_eq!(rt; SyntaxKind::from_name("OTHER()"), None);
    assert_eq!(rt; SyntaxKind::from_name("OTHER(7"), None);
    assert_eq!(rt; SyntaxKind::from_name("OTHER"), None);
}

#[test]
fn kinds_print_their_names(rt: HostRuntime) -> Result<(), Fail> {
    let alloc = rt.alloc();
    let text = format!(in alloc;
        "{} {} {}",
        SyntaxKind::BIN_EXPR,
        T![match],
        SyntaxKind::OTHER(7)
    )?;
    assert_eq!(rt; text.as_str(), "BIN_EXPR MATCH_KW OTHER(7)");
    let text = format!(in alloc; "{:?} {:?}", SyntaxKind::BIN_EXPR, SyntaxKind::OTHER(7))?;
    assert_eq!(rt; text.as_str(), "BIN_EXPR OTHER(7)");
    Ok(())
}

// The kind of a number, in any language.
fn read<L: Language>(raw: u32) -> Option<SyntaxKind> {
    L::kind_from_raw(raw)
}

// The number of a kind, in any language.
fn written<L: Language>(kind: SyntaxKind) -> u32 {
    L::kind_to_raw(kind)
}

// Numbers at their edges, and the kind of each.
const NUMBERS: [(u32, Option<SyntaxKind>); 9] = [
    (0, Some(SyntaxKind::WHITESPACE)),
    (116, Some(SyntaxKind::YIELD_KW)),
    (117, Some(SyntaxKind::ARRAY_EXPR)),
    (263, Some(SyntaxKind::MACRO_STMTS)),
    (264, None),
    (65_535, None),
    (65_536, Some(SyntaxKind::OTHER(0))),
    (131_071, Some(SyntaxKind::OTHER(65_535))),
    (131_072, None),
];

#[test]
fn numbers_at_their_edges(rt: HostRuntime) {
    for row in &NUMBERS {
        assert_eq!(rt; read::<RustLanguage>(row.0), row.1);
        if let Some(kind) = row.1 {
            assert_eq!(rt; written::<RustLanguage>(kind), row.0);
        }
    }
}

#[test]
fn kinds_are_ordered_by_number(rt: HostRuntime) {
    let mut before = SyntaxKind::WHITESPACE;
    for raw in 1..264 {
        if let Some(kind) = read::<RustLanguage>(raw) {
            assert!(rt; before < kind);
            before = kind;
        }
    }
    assert_eq!(rt; before, SyntaxKind::MACRO_STMTS);
    assert!(rt; before < SyntaxKind::OTHER(0));
    assert!(rt; SyntaxKind::OTHER(0) < SyntaxKind::OTHER(65_535));
}

#[test]
fn trivia(rt: HostRuntime) {
    assert!(rt; SyntaxKind::WHITESPACE.is_trivia());
    assert!(rt; SyntaxKind::COMMENT.is_trivia());
    assert!(rt; !SyntaxKind::OUTER_DOC_COMMENT.is_trivia());
    assert!(rt; !SyntaxKind::DOC_COMMENT.is_trivia());
    assert!(rt; !SyntaxKind::OTHER(1).is_trivia());
}
