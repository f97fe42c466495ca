//! The command `parens`: an expression's text to whether its tree reads back, and the pairs of
//! parentheses that may go.
ghost use Rattle.std.specs.Prelude.{◌≡◌, ◌⊎◌, ◌++◌, Ok, Err, IfOk, OnOk, MatchResult, string_bytes};
ghost use Rattle.syntax_tool.specs.Needless.{verdict_line, pair_lines, IsReport, AnswersParens};

use crate::refusal::Refusal;
use lossless_tree::SyntaxNode;
use operator_pairs::needless::{needless_parens, reads_back};
use ra_ap_syntax::ast::Expr;
use ra_ap_syntax::{AstNode, Edition};
use std::alloc::{AllocError, Global};
use std::fmt::Write;
use tiny_front::Tiny;

fn verdict_line(verdict: Option<bool>) -> &'static str
    ensures { result.now ≡ verdict_line verdict }
{
    match verdict {
        None => "reads_back none\n",
        Some(true) => "reads_back true\n",
        Some(false) => "reads_back false\n",
    }
}

fn push_pairs(out: &mut String, pairs: &[SyntaxNode]) -> Result<(), AllocError>
    ensures { OnOk result (string_bytes out.new ≡ string_bytes out.old ++ pair_lines pairs.now) }
{
    for pair in pairs {
        writeln!(out, "needless {}", pair.text_range())?;
    }
    Ok(())
}

// The answer for a tree.
fn report(alloc: Global, tree: &SyntaxNode) -> Result<String, AllocError>
    ensures { IfOk result (λ out. IsReport tree.now (string_bytes out)) }
{
    let mut out = String::new(alloc);
    out.push_str(verdict_line(reads_back(tree)))?;
    if let Some(pairs) = needless_parens(alloc, tree)? {
        push_pairs(&mut out, pairs.as_slice())?;
    }
    Ok(out)
}

// The answer for an expression's text.
pub(crate) fn parens(alloc: Global, text: &str) -> Result<String, Refusal>
    ensures { MatchResult result (λ out. AnswersParens text.now (Ok (string_bytes out)))
        (λ e. (e ≡ Refusal.Memory) ⊎ AnswersParens text.now (Err e)) }
{
    let parse = Expr::parse(alloc, text, &Tiny, Edition::CURRENT)?;
    let root = parse.syntax_node();
    if !Expr::can_cast(root.kind()) {
        return Err(Refusal::OtherRoot);
    }
    Ok(report(alloc, &root)?)
}
