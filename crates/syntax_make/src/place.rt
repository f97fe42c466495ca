//! The surroundings in which a text is parsed.
ghost use Rattle.std.specs.Prelude.{◌≡◌};
ghost use Rattle.syntax_make.specs.Places.{before_of, after_of, second_of, place_in, place_of};

use ras_node::AstNode;
use rust_kinds::kinds;
use syntax_kind::SyntaxKind;

/// Where a text stands when it is parsed: which texts are before and after it in a file.
#[derive(Clone, Copy, Debug, PartialEq, Eq, Drop)]
pub enum Place {
    /// A statement in a block. Its text stands in `fn f() { … 0 }`.
    Stmt,
    /// A whole file, or its one item. Its text stands in `…`.
    File,
    /// An expression, but for a `let`: the value of a constant. Also the name or the block that it
    /// is. Its text stands in `const C: () = …;`.
    Expr,
    /// A condition: a `let` too. Its text stands in `fn f() { while … {} }`.
    Condition,
    /// A type, and the path that it is. Its text stands in `type T = …;`.
    Ty,
    /// A pattern: that of an arm. Its text stands in `fn f() { match x { … => {} } }`.
    Pat,
    /// A name that is defined. Its text stands in `mod …;`.
    Name,
    /// A lifetime. Its text stands in `type T = &… T;`.
    Lifetime,
    /// The `for<'a>` of a type. Its text stands in `type T = … fn();`.
    Binder,
    /// Generic arguments with their angles. Its text stands in `type T = T…;`.
    GenericArgs,
    /// One generic argument. Its text stands in `type T = T<…>;`.
    GenericArg,
    /// Generic parameters with their angles. Its text stands in `fn f…() {}`.
    GenericParams,
    /// One generic parameter. Its text stands in `fn f<…>() {}`.
    GenericParam,
    /// The bounds of a type parameter. Its text stands in `fn f<T: …>() {}`.
    Bounds,
    /// Parameters with their parentheses. Its text stands in `fn f… {}`.
    Params,
    /// One parameter. Its text stands in `fn f(…) {}`.
    Param,
    /// One parameter of a closure, which may be without a type. Its text stands in
    /// `const C: () = |…| ();`.
    ClosureParam,
    /// What stands between a function's parameters and its body. Its text stands in `fn f() … {}`.
    Result,
    /// One predicate of a `where`. Its text stands in `fn f() where … {}`.
    WherePred,
    /// The fields of a struct with their braces. Its text stands in `struct S …`.
    RecordFields,
    /// One field with a name. Its text stands in `struct S { … }`.
    RecordField,
    /// The fields of a struct with their parentheses. Its text stands in `struct S…;`.
    TupleFields,
    /// One field without a name. Its text stands in `struct S(…);`.
    TupleField,
    /// A variant of an enum. Its text stands in `enum E { … }`.
    Variant,
    /// The variants of an enum with their braces. Its text stands in `enum E …`.
    Variants,
    /// What stands before a function's `fn`: an attribute, a visibility, an ABI. Its text stands in
    /// `… fn f() {}`.
    Head,
    /// The contents of an attribute. Its text stands in `#[…] fn f() {}`.
    Meta,
    /// The arms of a `match` with their braces. Its text stands in `fn f() { match x … }`.
    Arms,
    /// One arm. Its text stands in `fn f() { match x { … } }`.
    Arm,
    /// The guard of an arm. Its text stands in `fn f() { match x { _ … => {} } }`.
    Guard,
    /// Arguments with their parentheses. Its text stands in `const C: () = f…;`.
    Args,
    /// One field of a record expression. Its text stands in `const C: () = S { … };`.
    RecordExprField,
    /// The fields of a record expression with their braces. Its text stands in
    /// `const C: () = S …;`.
    RecordExprFields,
    /// One field of a record pattern. Its text stands in `fn f() { match x { S { … } => {} } }`.
    RecordPatField,
    /// The fields of a record pattern with their braces. Its text stands in
    /// `fn f() { match x { S … => {} } }`.
    RecordPatFields,
    /// What a `use` names. Its text stands in `use …;`.
    UseTree,
    /// What a `use` names in braces. Its text stands in `use a::…;`.
    UseTrees,
    /// The name that a `use` gives. Its text stands in `use a …;`.
    Rename,
    /// The `else` of a `let`. Its text stands in `fn f() { let x = y …; }`.
    LetElse,
    /// The label of a loop. Its text stands in `fn f() { … loop {} }`.
    Label,
    /// The items of a module with their braces. Its text stands in `mod m …`.
    Items,
    /// The items of an `impl` with their braces. Its text stands in `impl T …`.
    AssocItems,
    /// The items of an `extern` block with their braces. Its text stands in `extern "C" …`.
    ExternItems,
    /// The tokens of a macro call with their brackets. Its text stands in `const C: () = m!…;`.
    Tokens,
}

impl Place {
    /// The text before.
    pub fn before(self) -> &'static str
        ensures { result.now ≡ before_of self }
    {
        match self {
            Place::Stmt => "fn f() { ",
            Place::File => "",
            Place::Expr => "const C: () = ",
            Place::Condition => "fn f() { while ",
            Place::Ty => "type T = ",
            Place::Pat => "fn f() { match x { ",
            Place::Name => "mod ",
            Place::Lifetime => "type T = &",
            Place::Binder => "type T = ",
            Place::GenericArgs => "type T = T",
            Place::GenericArg => "type T = T<",
            Place::GenericParams => "fn f",
            Place::GenericParam => "fn f<",
            Place::Bounds => "fn f<T: ",
            Place::Params => "fn f",
            Place::Param => "fn f(",
            Place::ClosureParam => "const C: () = |",
            Place::Result => "fn f() ",
            Place::WherePred => "fn f() where ",
            Place::RecordFields => "struct S ",
            Place::RecordField => "struct S { ",
            Place::TupleFields => "struct S",
            Place::TupleField => "struct S(",
            Place::Variant => "enum E { ",
            Place::Variants => "enum E ",
            Place::Head => "",
            Place::Meta => "#[",
            Place::Arms => "fn f() { match x ",
            Place::Arm => "fn f() { match x { ",
            Place::Guard => "fn f() { match x { _ ",
            Place::Args => "const C: () = f",
            Place::RecordExprField => "const C: () = S { ",
            Place::RecordExprFields => "const C: () = S ",
            Place::RecordPatField => "fn f() { match x { S { ",
            Place::RecordPatFields => "fn f() { match x { S ",
            Place::UseTree => "use ",
            Place::UseTrees => "use a::",
            Place::Rename => "use a ",
            Place::LetElse => "fn f() { let x = y ",
            Place::Label => "fn f() { ",
            Place::Items => "mod m ",
            Place::AssocItems => "impl T ",
            Place::ExternItems => "extern \"C\" ",
            Place::Tokens => "const C: () = m!",
        }
    }

    /// The text after.
    pub fn after(self) -> &'static str
        ensures { result.now ≡ after_of self }
    {
        match self {
            Place::Stmt => " 0 }",
            Place::File => "",
            Place::Expr => ";",
            Place::Condition => " {} }",
            Place::Ty => ";",
            Place::Pat => " => {} } }",
            Place::Name => ";",
            Place::Lifetime => " T;",
            Place::Binder => " fn();",
            Place::GenericArgs => ";",
            Place::GenericArg => ">;",
            Place::GenericParams => "() {}",
            Place::GenericParam => ">() {}",
            Place::Bounds => ">() {}",
            Place::Params => " {}",
            Place::Param => ") {}",
            Place::ClosureParam => "| ();",
            Place::Result => " {}",
            Place::WherePred => " {}",
            Place::RecordFields => "",
            Place::RecordField => " }",
            Place::TupleFields => ";",
            Place::TupleField => ");",
            Place::Variant => " }",
            Place::Variants => "",
            Place::Head => "\nfn f() {}",
            Place::Meta => "]\nfn f() {}",
            Place::Arms => " }",
            Place::Arm => " } }",
            Place::Guard => " => {} } }",
            Place::Args => ";",
            Place::RecordExprField => " };",
            Place::RecordExprFields => ";",
            Place::RecordPatField => " } => {} } }",
            Place::RecordPatFields => " => {} } }",
            Place::UseTree => ";",
            Place::UseTrees => ";",
            Place::Rename => ";",
            Place::LetElse => "; }",
            Place::Label => " loop {} }",
            Place::Items => "",
            Place::AssocItems => "",
            Place::ExternItems => "",
            Place::Tokens => ";",
        }
    }

    /// Where a text is tried that reads otherwise in this place: that of an expression as a
    /// condition, which may have a `let`, and that of a parameter as one of a closure, which may be
    /// without a type. `None` for the other places.
    pub fn second(self) -> Option<Place>
        ensures { result ≡ second_of self }
    {
        match self {
            Place::Expr => Some(Place::Condition),
            Place::Param => Some(Place::ClosureParam),
            _ => None,
        }
    }
}

/// The kinds of nodes that can be made from a text, and where the text of each stands. For a view
/// of several kinds the first row with one of them counts.
pub static PLACES: [(SyntaxKind, Place); 145] = [
    (SyntaxKind::EXPR_STMT, Place::Stmt),
    (SyntaxKind::LET_STMT, Place::Stmt),
    (SyntaxKind::SOURCE_FILE, Place::File),
    (SyntaxKind::CONST, Place::File),
    (SyntaxKind::ENUM, Place::File),
    (SyntaxKind::EXTERN_BLOCK, Place::File),
    (SyntaxKind::EXTERN_CRATE, Place::File),
    (SyntaxKind::FN, Place::File),
    (SyntaxKind::IMPL, Place::File),
    (SyntaxKind::MACRO_CALL, Place::File),
    (SyntaxKind::MACRO_DEF, Place::File),
    (SyntaxKind::MACRO_RULES, Place::File),
    (SyntaxKind::MODULE, Place::File),
    (SyntaxKind::STATIC, Place::File),
    (SyntaxKind::STRUCT, Place::File),
    (SyntaxKind::TRAIT, Place::File),
    (SyntaxKind::TYPE_ALIAS, Place::File),
    (SyntaxKind::UNION, Place::File),
    (SyntaxKind::USE, Place::File),
    (SyntaxKind::ARRAY_EXPR, Place::Expr),
    (SyntaxKind::ASM_EXPR, Place::Expr),
    (SyntaxKind::AWAIT_EXPR, Place::Expr),
    (SyntaxKind::BECOME_EXPR, Place::Expr),
    (SyntaxKind::BIN_EXPR, Place::Expr),
    (SyntaxKind::BLOCK_EXPR, Place::Expr),
    (SyntaxKind::BREAK_EXPR, Place::Expr),
    (SyntaxKind::CALL_EXPR, Place::Expr),
    (SyntaxKind::CAST_EXPR, Place::Expr),
    (SyntaxKind::CFG_PRED_EXPR, Place::Expr),
    (SyntaxKind::CLOSURE_EXPR, Place::Expr),
    (SyntaxKind::CONTINUE_EXPR, Place::Expr),
    (SyntaxKind::FIELD_EXPR, Place::Expr),
    (SyntaxKind::FOR_EXPR, Place::Expr),
    (SyntaxKind::FORMAT_ARGS_EXPR, Place::Expr),
    (SyntaxKind::IF_EXPR, Place::Expr),
    (SyntaxKind::INCLUDE_BYTES_EXPR, Place::Expr),
    (SyntaxKind::INDEX_EXPR, Place::Expr),
    (SyntaxKind::LITERAL, Place::Expr),
    (SyntaxKind::LOOP_EXPR, Place::Expr),
    (SyntaxKind::MACRO_EXPR, Place::Expr),
    (SyntaxKind::MATCH_EXPR, Place::Expr),
    (SyntaxKind::METHOD_CALL_EXPR, Place::Expr),
    (SyntaxKind::OFFSET_OF_EXPR, Place::Expr),
    (SyntaxKind::PAREN_EXPR, Place::Expr),
    (SyntaxKind::PATH_EXPR, Place::Expr),
    (SyntaxKind::PREFIX_EXPR, Place::Expr),
    (SyntaxKind::RANGE_EXPR, Place::Expr),
    (SyntaxKind::RECORD_EXPR, Place::Expr),
    (SyntaxKind::REF_EXPR, Place::Expr),
    (SyntaxKind::RETURN_EXPR, Place::Expr),
    (SyntaxKind::TRY_EXPR, Place::Expr),
    (SyntaxKind::TUPLE_EXPR, Place::Expr),
    (SyntaxKind::UNDERSCORE_EXPR, Place::Expr),
    (SyntaxKind::WHILE_EXPR, Place::Expr),
    (SyntaxKind::YEET_EXPR, Place::Expr),
    (SyntaxKind::YIELD_EXPR, Place::Expr),
    (SyntaxKind::STMT_LIST, Place::Expr),
    (SyntaxKind::NAME_REF, Place::Expr),
    (SyntaxKind::LET_EXPR, Place::Condition),
    (SyntaxKind::ARRAY_TYPE, Place::Ty),
    (SyntaxKind::DYN_TRAIT_TYPE, Place::Ty),
    (SyntaxKind::FN_PTR_TYPE, Place::Ty),
    (SyntaxKind::FOR_TYPE, Place::Ty),
    (SyntaxKind::IMPL_TRAIT_TYPE, Place::Ty),
    (SyntaxKind::INFER_TYPE, Place::Ty),
    (SyntaxKind::MACRO_TYPE, Place::Ty),
    (SyntaxKind::NEVER_TYPE, Place::Ty),
    (SyntaxKind::PAREN_TYPE, Place::Ty),
    (SyntaxKind::PATH_TYPE, Place::Ty),
    (SyntaxKind::PTR_TYPE, Place::Ty),
    (SyntaxKind::REF_TYPE, Place::Ty),
    (SyntaxKind::SLICE_TYPE, Place::Ty),
    (SyntaxKind::TUPLE_TYPE, Place::Ty),
    (SyntaxKind::PATH, Place::Ty),
    (SyntaxKind::PATH_SEGMENT, Place::Ty),
    (SyntaxKind::BOX_PAT, Place::Pat),
    (SyntaxKind::CONST_BLOCK_PAT, Place::Pat),
    (SyntaxKind::IDENT_PAT, Place::Pat),
    (SyntaxKind::LITERAL_PAT, Place::Pat),
    (SyntaxKind::MACRO_PAT, Place::Pat),
    (SyntaxKind::OR_PAT, Place::Pat),
    (SyntaxKind::PAREN_PAT, Place::Pat),
    (SyntaxKind::PATH_PAT, Place::Pat),
    (SyntaxKind::RANGE_PAT, Place::Pat),
    (SyntaxKind::RECORD_PAT, Place::Pat),
    (SyntaxKind::REF_PAT, Place::Pat),
    (SyntaxKind::REST_PAT, Place::Pat),
    (SyntaxKind::SLICE_PAT, Place::Pat),
    (SyntaxKind::TUPLE_PAT, Place::Pat),
    (SyntaxKind::TUPLE_STRUCT_PAT, Place::Pat),
    (SyntaxKind::WILDCARD_PAT, Place::Pat),
    (SyntaxKind::NAME, Place::Name),
    (SyntaxKind::LIFETIME, Place::Lifetime),
    (SyntaxKind::FOR_BINDER, Place::Binder),
    (SyntaxKind::GENERIC_ARG_LIST, Place::GenericArgs),
    (kinds::PARENTHESIZED_ARG_LIST, Place::GenericArgs),
    (SyntaxKind::TYPE_ARG, Place::GenericArg),
    (SyntaxKind::ASSOC_TYPE_ARG, Place::GenericArg),
    (SyntaxKind::LIFETIME_ARG, Place::GenericArg),
    (SyntaxKind::CONST_ARG, Place::GenericArg),
    (SyntaxKind::GENERIC_PARAM_LIST, Place::GenericParams),
    (SyntaxKind::LIFETIME_PARAM, Place::GenericParam),
    (SyntaxKind::TYPE_PARAM, Place::GenericParam),
    (SyntaxKind::CONST_PARAM, Place::GenericParam),
    (SyntaxKind::TYPE_BOUND_LIST, Place::Bounds),
    (SyntaxKind::TYPE_BOUND, Place::Bounds),
    (SyntaxKind::PARAM_LIST, Place::Params),
    (SyntaxKind::PARAM, Place::Param),
    (SyntaxKind::SELF_PARAM, Place::Param),
    (SyntaxKind::RET_TYPE, Place::Result),
    (SyntaxKind::WHERE_CLAUSE, Place::Result),
    (SyntaxKind::WHERE_PRED, Place::WherePred),
    (SyntaxKind::RECORD_FIELD_LIST, Place::RecordFields),
    (SyntaxKind::RECORD_FIELD, Place::RecordField),
    (SyntaxKind::TUPLE_FIELD_LIST, Place::TupleFields),
    (SyntaxKind::TUPLE_FIELD, Place::TupleField),
    (SyntaxKind::VARIANT, Place::Variant),
    (kinds::VARIANT_LIST, Place::Variants),
    (SyntaxKind::ATTR, Place::Head),
    (SyntaxKind::DOC_COMMENT, Place::Head),
    (SyntaxKind::VISIBILITY, Place::Head),
    (SyntaxKind::ABI, Place::Head),
    (SyntaxKind::CFG_ATTR_META, Place::Meta),
    (SyntaxKind::CFG_META, Place::Meta),
    (SyntaxKind::KEY_VALUE_META, Place::Meta),
    (SyntaxKind::PATH_META, Place::Meta),
    (SyntaxKind::TOKEN_TREE_META, Place::Meta),
    (SyntaxKind::UNSAFE_META, Place::Meta),
    (SyntaxKind::MATCH_ARM_LIST, Place::Arms),
    (SyntaxKind::MATCH_ARM, Place::Arm),
    (SyntaxKind::MATCH_GUARD, Place::Guard),
    (SyntaxKind::ARG_LIST, Place::Args),
    (SyntaxKind::RECORD_EXPR_FIELD, Place::RecordExprField),
    (kinds::RECORD_EXPR_FIELD_LIST, Place::RecordExprFields),
    (SyntaxKind::RECORD_PAT_FIELD, Place::RecordPatField),
    (kinds::RECORD_PAT_FIELD_LIST, Place::RecordPatFields),
    (SyntaxKind::USE_TREE, Place::UseTree),
    (SyntaxKind::USE_TREE_LIST, Place::UseTrees),
    (kinds::RENAME, Place::Rename),
    (SyntaxKind::LET_ELSE, Place::LetElse),
    (SyntaxKind::LABEL, Place::Label),
    (SyntaxKind::ITEM_LIST, Place::Items),
    (SyntaxKind::ASSOC_ITEM_LIST, Place::AssocItems),
    (SyntaxKind::EXTERN_ITEM_LIST, Place::ExternItems),
    (SyntaxKind::TOKEN_TREE, Place::Tokens),
];

// The place of the first row whose kind an `N` can be.
fn place_in<N: AstNode>(rows: &[(SyntaxKind, Place)]) -> Option<Place>
    ensures { result ≡ place_in N.casts rows.now }
{
    for row in rows {
        if N::can_cast(row.0) {
            return Some(row.1);
        }
    }
    None
}

/// Where the text of an `N` stands: the place of the first row of [`PLACES`] whose kind an `N` can
/// be. Returns `None` if there is no such row; then no `N` can be made from a text.
#[tactic(auto, unfolding(crate::specs::Places::place_of))]
pub fn place_of<N: AstNode>() -> Option<Place>
    ensures { result ≡ place_of N.casts }
{
    place_in::<N>(&PLACES)
}
