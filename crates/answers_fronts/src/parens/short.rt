//! Short words.

// Short words, and what they stand for.
const SHORT: [(&str, &str); 10] = [
    (
        "a",
        "PATH_EXPR( PATH( PATH_SEGMENT( NAME_REF( IDENT:a ) ) ) )",
    ),
    (
        "T",
        "PATH_TYPE( PATH( PATH_SEGMENT( NAME_REF( IDENT:T ) ) ) )",
    ),
    (
        "S{}",
        "RECORD_EXPR( PATH( PATH_SEGMENT( NAME_REF( IDENT:S ) ) ) L_CURLY:{ R_CURLY:} )",
    ),
    ("{}", "BLOCK_EXPR( STMT_LIST( L_CURLY:{ R_CURLY:} ) )"),
    (
        "let-else",
        "LET_ELSE( ELSE_KW:else BLOCK_EXPR( STMT_LIST( L_CURLY:{ R_CURLY:} ) ) )",
    ),
    ("pattern", "IDENT_PAT( NAME( IDENT:x ) )"),
    ("arms", "MATCH_ARM_LIST( L_CURLY:{ R_CURLY:} )"),
    ("()", "ARG_LIST( L_PAREN:( R_PAREN:) )"),
    (".f", "DOT:. NAME_REF( IDENT:f )"),
    ("return", "RETURN_EXPR( RETURN_KW:return )"),
];

/// What a word stands for, itself where it is no short word.
pub fn written_out(word: &str) -> &str {
    for (short, long) in SHORT {
        if word == short {
            return long;
        }
    }
    word
}
