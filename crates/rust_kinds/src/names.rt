//! The names of the table. Written by tools/rust_kinds from kinds.txt.
ghost use Rattle.std.specs.Prelude.{◌≡◌, [], MatchOption};
ghost use Rattle.rust_kinds.specs.Names.{name_in_table, number_in_table, place_of};

// The name of `OTHER(number)`.
pub(crate) fn other_name(number: u16) -> Option<&'static str>
    ensures { MatchOption result (name_in_table number ≡ []) (λ s. name_in_table number ≡ s.now) }
{
    match number {
        0 => Some("FRONTMATTER"),
        1 => Some("SHEBANG"),
        2 => Some("ABSTRACT_KW"),
        3 => Some("BOX_KW"),
        4 => Some("FINAL_KW"),
        5 => Some("OVERRIDE_KW"),
        6 => Some("PRIV_KW"),
        7 => Some("TYPEOF_KW"),
        8 => Some("UNSIZED_KW"),
        9 => Some("VIRTUAL_KW"),
        10 => Some("ASM_KW"),
        11 => Some("ATT_SYNTAX_KW"),
        12 => Some("CLOBBER_ABI_KW"),
        13 => Some("FORMAT_ARGS_KW"),
        14 => Some("GLOBAL_ASM_KW"),
        15 => Some("INLATEOUT_KW"),
        16 => Some("INOUT_KW"),
        17 => Some("LABEL_KW"),
        18 => Some("LATEOUT_KW"),
        19 => Some("MAY_UNWIND_KW"),
        20 => Some("NAKED_ASM_KW"),
        21 => Some("NOMEM_KW"),
        22 => Some("NORETURN_KW"),
        23 => Some("NOSTACK_KW"),
        24 => Some("OFFSET_OF_KW"),
        25 => Some("OPTIONS_KW"),
        26 => Some("OUT_KW"),
        27 => Some("PRESERVES_FLAGS_KW"),
        28 => Some("PURE_KW"),
        29 => Some("RAW_KW"),
        30 => Some("READONLY_KW"),
        31 => Some("SAFE_KW"),
        32 => Some("SYM_KW"),
        33 => Some("CFG_KW"),
        34 => Some("CFG_ATTR_KW"),
        256 => Some("ASM_CLOBBER_ABI"),
        257 => Some("ASM_CONST"),
        258 => Some("ASM_DIR_SPEC"),
        259 => Some("ASM_LABEL"),
        260 => Some("ASM_OPERAND_EXPR"),
        261 => Some("ASM_OPERAND_NAMED"),
        262 => Some("ASM_OPTION"),
        263 => Some("ASM_OPTIONS"),
        264 => Some("ASM_REG_OPERAND"),
        265 => Some("ASM_REG_SPEC"),
        266 => Some("ASM_SYM"),
        267 => Some("CFG_COMPOSITE"),
        268 => Some("FORMAT_ARGS_ARG_NAME"),
        269 => Some("MACRO_ITEMS"),
        270 => Some("PARENTHESIZED_ARG_LIST"),
        271 => Some("RECORD_EXPR_FIELD_LIST"),
        272 => Some("RECORD_PAT_FIELD_LIST"),
        273 => Some("RENAME"),
        274 => Some("RETURN_TYPE_SYNTAX"),
        275 => Some("VARIANT_LIST"),
        _ => None,
    }
}

// The hash of a name; no two names of the table have one place.
fn place_of(name: &[u8]) -> usize
    ensures { result ≡ place_of name.now }
{
    let mut hash = 0u32;
    for byte in name {
        hash = (hash * 42 + *byte as u32) % 65_536;
    }
    (hash % 225) as usize
}

// The number n of the kind `OTHER(n)` that has this name.
pub(crate) fn other_number(name: &str) -> Option<u16>
    ensures { result ≡ number_in_table name.now }
{
    let number = NUMBERS[place_of(name.as_bytes())];
    if other_name(number)? == name {
        Some(number)
    } else {
        None
    }
}

// The number of the name that may have the place.
static NUMBERS: [u16; 225] = [
    0, 0, 0, 256, 0, 0, 20, 0, 23, 274, 0, 0, 0, 27, 0, 0, 0, 33, 264, 10, 0, 11, 0, 0, 0, 0, 0, 0,
    0, 0, 32, 14, 5, 8, 0, 0, 0, 0, 0, 0, 0, 0, 0, 0, 0, 0, 0, 0, 265, 31, 0, 270, 260, 0, 0, 0, 0,
    0, 0, 0, 0, 0, 0, 0, 0, 0, 0, 0, 0, 0, 0, 0, 4, 0, 0, 0, 0, 261, 272, 0, 0, 0, 0, 26, 258, 0,
    0, 0, 0, 0, 18, 0, 0, 0, 0, 0, 0, 0, 3, 0, 0, 0, 29, 0, 0, 275, 0, 0, 0, 0, 0, 0, 0, 0, 0, 0,
    0, 0, 0, 0, 0, 273, 0, 0, 17, 0, 0, 9, 0, 0, 0, 24, 0, 0, 0, 0, 0, 0, 0, 0, 0, 0, 0, 0, 0, 0,
    0, 0, 0, 0, 6, 0, 0, 266, 0, 0, 0, 268, 0, 0, 0, 12, 259, 0, 0, 1, 0, 0, 0, 0, 271, 0, 0, 0,
    262, 0, 0, 0, 0, 0, 267, 0, 15, 0, 0, 0, 0, 0, 28, 7, 269, 0, 0, 19, 0, 0, 16, 0, 0, 263, 0, 0,
    0, 0, 0, 0, 0, 22, 0, 25, 0, 0, 0, 0, 2, 257, 0, 0, 13, 0, 30, 34, 0, 21, 0,
];
