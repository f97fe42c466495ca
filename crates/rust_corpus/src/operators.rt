//! Operator expressions of real files: whether their trees read back, and which parentheses may go.
use ra_ap_syntax::ast::{self, prec};
use ra_ap_syntax::{AstNode, Edition, SourceFile, SyntaxNode};
use rust_front::Rust;

/// Asks of each expression of a file, and counts the answers.
#[derive(Default, Drop)]
pub struct Operators {
    expressions: u64,
    terms: u64,
    misread: u64,
    needed: u64,
    needless: u64,
}

fn more(count: &mut u64) {
    *count = count.saturating_add(1);
}

impl Operators {
    /// Asks of each expression whether it reads back and needs parentheses where it is. Operands of
    /// an operator tree are part of it, and are not asked once more whether they read back.
    pub fn ask_file(
        &mut self,
        rt: &HostRuntime,
        path: &str,
        text: &str,
        edition: Edition,
    ) -> anyhow::Result<()> {
        let parse = SourceFile::parse(rt.alloc(), text, &Rust, edition)?;
        let root = parse.syntax_node();
        for node in root.descendants() {
            if let Some(expr) = ast::Expr::cast(node) {
                self.ask(rt, path, &expr)?;
            }
        }
        Ok(())
    }

    fn ask(&mut self, rt: &HostRuntime, path: &str, expr: &ast::Expr) -> anyhow::Result<()> {
        more(&mut self.expressions);
        let Some(parent) = expr.syntax().parent() else {
            return Ok(());
        };
        if expr.needs_parens_in(&parent) {
            more(&mut self.needed);
            show(rt, path, "needs parentheses in", expr.syntax(), &parent)?;
        }
        if ast::Expr::can_cast(parent.kind()) {
            return Ok(());
        }
        match prec::reads_back(expr) {
            None => {}
            Some(false) => {
                more(&mut self.terms);
                more(&mut self.misread);
                show(rt, path, "does not read back in", expr.syntax(), &parent)?;
            }
            Some(true) => {
                more(&mut self.terms);
                if let Some(pairs) = prec::needless_parens(rt.alloc(), expr)? {
                    self.needless = self.needless.saturating_add(pairs.len() as u64);
                }
            }
        }
        Ok(())
    }

    /// Prints the counts.
    pub fn tell(&self, rt: &HostRuntime) -> anyhow::Result<()> {
        println!(rt;
            "operators: {} expressions, {} need parentheses where they are; {} operator trees, {} do not read back; {} needless pairs",
            self.expressions, self.needed, self.terms, self.misread, self.needless
        )?;
        Ok(())
    }
}

// The first characters of a node's text.
fn start_of(node: &SyntaxNode) -> &str {
    node.as_str().get(..60).unwrap_or(node.as_str())
}

// The line of an expression: its offset, its kind and text, and those of its parent.
fn show(
    rt: &HostRuntime,
    path: &str,
    what: &str,
    node: &SyntaxNode,
    parent: &SyntaxNode,
) -> anyhow::Result<()> {
    println!(rt;
        "{path} {} {:?} {:?} {what} {:?} {:?}",
        node.text_range().start().raw(),
        node.kind(),
        start_of(node),
        parent.kind(),
        start_of(parent)
    )?;
    Ok(())
}
