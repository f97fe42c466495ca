//! The rules that a text can be read by. Written by tools/grammar from tiny.grammar.
ghost use Rattle.std.specs.Prelude.{◌≡◌};
ghost use Rattle.tiny_front.specs.Rules.{first_op};

/// A rule that a text can be read by. The grammar's text says what each one reads.
#[derive(Clone, Copy, Debug, PartialEq, Eq)]
pub enum Rule {
    /// The rule `source_file`.
    SourceFile,
    /// The rule `whole_expr`.
    WholeExpr,
    /// The rule `body`.
    Body,
}

/// The number of the rule's first operation.
pub fn rule_of(rule: Rule) -> usize
    ensures { result ≡ first_op rule }
{
    match rule {
        Rule::SourceFile => 0,
        Rule::WholeExpr => 376,
        Rule::Body => 387,
    }
}
