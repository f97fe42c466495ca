//! Reads arithmetic by a front end over a grammar of its own: the first line of its input as an
//! expression, the rest as a file. It prints the tree and the errors of each.
#![tactic(auto)]

mod language;
mod tables;

use grammar_front::GrammarFront;
use language::Arithmetic;
use ra_ap_syntax::ast::Expr;
use ra_ap_syntax::{Edition, Parse, SourceFile};
use std::io;
use tiny_lexer::TinyLexer;

fn show<T>(rt: &HostRuntime, parse: &Parse<T>) -> anyhow::Result<()> {
    print!(rt; "{}", parse.syntax_node().dump(rt.alloc())?)?;
    for error in &parse.errors(rt.alloc())? {
        println!(rt; "error {}: {error}", error.range())?;
    }
    Ok(())
}

fn main(rt: HostRuntime) -> anyhow::Result<()> {
    let input = io::read_to_string(rt.alloc(), rt.reader())?;
    let (line, rest) = input.split_once('\n').unwrap_or((input.as_str(), ""));
    let (lexer, language) = (TinyLexer, Arithmetic);
    let front = GrammarFront { lexer, language };
    show(
        &rt,
        &Expr::parse(rt.alloc(), line, &front, Edition::CURRENT)?,
    )?;
    show(
        &rt,
        &SourceFile::parse(rt.alloc(), rest, &front, Edition::CURRENT)?,
    )
}
