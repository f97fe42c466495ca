//! The rules that a text can be read by. Written by tools/grammar from rust.grammar.
ghost use Rattle.std.specs.Prelude.{◌≡◌};
ghost use Rattle.rust_grammar.specs.Rules.{first_op};

/// A rule that a text can be read by. The grammar's text says what each one reads.
#[derive(Clone, Copy, Debug, PartialEq, Eq)]
pub enum Rule {
    /// The rule `source_file`.
    SourceFile,
    /// The rule `macro_items`.
    MacroItems,
    /// The rule `macro_stmts`.
    MacroStmts,
    /// The rule `whole_pattern`.
    WholePattern,
    /// The rule `whole_type`.
    WholeType,
    /// The rule `whole_expr`.
    WholeExpr,
    /// The rule `whole_meta`.
    WholeMeta,
    /// The rule `fragment_vis`.
    FragmentVis,
    /// The rule `block_expr`.
    BlockExpr,
    /// The rule `fragment_stmt`.
    FragmentStmt,
    /// The rule `pattern`.
    Pattern,
    /// The rule `pattern_single`.
    PatternSingle,
    /// The rule `type`.
    Type,
    /// The rule `fragment_expr`.
    FragmentExpr,
    /// The rule `fragment_path`.
    FragmentPath,
    /// The rule `fragment_item`.
    FragmentItem,
    /// The rule `fragment_meta`.
    FragmentMeta,
    /// The rule `record_fields`.
    RecordFields,
    /// The rule `record_expr_fields`.
    RecordExprFields,
    /// The rule `variants`.
    Variants,
    /// The rule `match_arms`.
    MatchArms,
    /// The rule `use_tree_list`.
    UseTreeList,
    /// The rule `item_list`.
    ItemList,
    /// The rule `assoc_item_list`.
    AssocItemList,
    /// The rule `extern_item_list`.
    ExternItemList,
    /// The rule `token_tree`.
    TokenTree,
    /// The rule `stmt_list`.
    StmtList,
}

/// The number of the rule's first operation.
pub fn rule_of(rule: Rule) -> usize
    ensures { result ≡ first_op rule }
{
    match rule {
        Rule::SourceFile => 0,
        Rule::MacroItems => 7100,
        Rule::MacroStmts => 7133,
        Rule::WholePattern => 7205,
        Rule::WholeType => 7212,
        Rule::WholeExpr => 7215,
        Rule::WholeMeta => 7218,
        Rule::FragmentVis => 7221,
        Rule::BlockExpr => 7222,
        Rule::FragmentStmt => 7225,
        Rule::Pattern => 5367,
        Rule::PatternSingle => 947,
        Rule::Type => 471,
        Rule::FragmentExpr => 7321,
        Rule::FragmentPath => 7322,
        Rule::FragmentItem => 7370,
        Rule::FragmentMeta => 7373,
        Rule::RecordFields => 7374,
        Rule::RecordExprFields => 7376,
        Rule::Variants => 7378,
        Rule::MatchArms => 7380,
        Rule::UseTreeList => 7382,
        Rule::ItemList => 7384,
        Rule::AssocItemList => 7386,
        Rule::ExternItemList => 7388,
        Rule::TokenTree => 7390,
        Rule::StmtList => 7392,
    }
}
