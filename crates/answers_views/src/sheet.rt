// The output for a tree: a line for each answer.
ghost use Rattle.std.specs.Iterator.{IsFinite};

use ra_ap_syntax::ast::{AstNode, AstToken};
use ra_ap_syntax::{NodeOrToken, SyntaxKind, SyntaxNode, SyntaxToken, TextRange};
use std::alloc::{AllocError, Global};
use std::fmt::{Debug, Display, Write};

/// The lines that are written so far. An answer is `-` where there is none, and a list is in
/// brackets.
#[derive(Drop)]
pub struct Sheet {
    alloc: Global,
    text: String,
}

// The initial capacity in bytes: enough for the output of a few trees.
const ROOM: usize = 1_000_000;

impl Sheet {
    /// A sheet without lines.
    pub fn new(alloc: Global) -> Result<Sheet, AllocError> {
        Ok(Sheet {
            alloc,
            text: String::with_capacity(alloc, ROOM)?,
        })
    }

    /// The allocator, for calls that take memory.
    pub fn alloc(&self) -> Global {
        self.alloc
    }

    /// The whole output.
    pub fn as_str(&self) -> &str {
        self.text.as_str()
    }

    /// A line of its own.
    pub fn line(&mut self, text: &str) -> Result<(), AllocError> {
        self.text.push_str(text)?;
        self.text.push('\n')
    }

    /// The line above the answers about a node.
    pub fn head(&mut self, node: &SyntaxNode) -> Result<(), AllocError> {
        writeln!(&mut self.text, "{node:?}")
    }

    /// A rule that a piece of the text breaks.
    pub fn broken(&mut self, range: TextRange, message: &str) -> Result<(), AllocError> {
        writeln!(&mut self.text, "violation {range}: {message}")
    }

    fn call(&mut self, call: &str) -> Result<(), AllocError> {
        self.text.push_str("  ")?;
        self.text.push_str(call)?;
        self.text.push_str(" =")
    }

    fn list(&mut self, call: &str) -> Result<(), AllocError> {
        self.call(call)?;
        self.text.push_str(" [")
    }

    fn one_node(&mut self, node: &SyntaxNode) -> Result<(), AllocError> {
        write!(&mut self.text, " {node:?} \"{node}\"")
    }

    fn one_token(&mut self, token: &SyntaxToken) -> Result<(), AllocError> {
        write!(&mut self.text, " {token:?}")
    }

    fn node_line(&mut self, call: &str, node: &SyntaxNode) -> Result<(), AllocError> {
        self.call(call)?;
        self.one_node(node)?;
        self.text.push('\n')
    }

    fn token_line(&mut self, call: &str, token: &SyntaxToken) -> Result<(), AllocError> {
        self.call(call)?;
        self.one_token(token)?;
        self.text.push('\n')
    }

    /// The name of an answer.
    pub fn word(&mut self, call: &str, word: &str) -> Result<(), AllocError> {
        self.call(call)?;
        self.text.push(' ')?;
        self.line(word)
    }

    /// A call that was refused memory.
    pub fn refused(&mut self, call: &str) -> Result<(), AllocError> {
        self.word(call, "out of memory")
    }

    /// The answer of a call that returns a `bool`.
    pub fn flag(&mut self, call: &str, holds: bool) -> Result<(), AllocError> {
        self.word(call, if holds { "true" } else { "false" })
    }

    /// The answer of a call that gives a kind.
    pub fn kind(&mut self, call: &str, kind: SyntaxKind) -> Result<(), AllocError> {
        self.call(call)?;
        writeln!(&mut self.text, " {kind}")
    }

    /// The answer of a call that gives a value or none.
    pub fn value<D: Debug + Drop>(
        &mut self,
        call: &str,
        found: Option<D>,
    ) -> Result<(), AllocError> {
        let Some(it) = found else {
            return self.word(call, "-");
        };
        self.call(call)?;
        writeln!(&mut self.text, " {it:?}")
    }

    /// The text of an answer.
    pub fn shown<D: Display + Drop>(&mut self, call: &str, answer: D) -> Result<(), AllocError> {
        self.call(call)?;
        writeln!(&mut self.text, " \"{answer}\"")
    }

    /// The answer of a call that gives a text or none.
    pub fn text(&mut self, call: &str, found: Option<&str>) -> Result<(), AllocError> {
        let Some(text) = found else {
            return self.word(call, "-");
        };
        self.call(call)?;
        writeln!(&mut self.text, " \"{text}\"")
    }

    /// The answer of a call that gives an owned text.
    pub fn string(&mut self, call: &str, found: Option<String>) -> Result<(), AllocError> {
        match found {
            Some(text) => self.text(call, Some(text.as_str())),
            None => self.word(call, "-"),
        }
    }

    /// The same of a call that takes memory for it.
    pub fn asked(
        &mut self,
        call: &str,
        answer: Result<Option<String>, AllocError>,
    ) -> Result<(), AllocError> {
        match answer {
            Ok(found) => self.string(call, found),
            Err(_) => self.refused(call),
        }
    }

    /// The answer of a call that gives a token or none.
    pub fn token(&mut self, call: &str, found: Option<SyntaxToken>) -> Result<(), AllocError> {
        match found {
            Some(token) => self.token_line(call, &token),
            None => self.word(call, "-"),
        }
    }

    /// The same of a typed token.
    pub fn typed_token<T: AstToken + Drop>(
        &mut self,
        call: &str,
        found: Option<T>,
    ) -> Result<(), AllocError> {
        match found {
            Some(it) => self.token_line(call, it.syntax()),
            None => self.word(call, "-"),
        }
    }

    /// The answer of a call that gives a node or none.
    pub fn node<N: AstNode + Drop>(
        &mut self,
        call: &str,
        found: Option<N>,
    ) -> Result<(), AllocError> {
        match found {
            Some(it) => self.node_line(call, it.syntax()),
            None => self.word(call, "-"),
        }
    }

    /// The same of a node that stays where it is.
    pub fn borrowed<N: AstNode>(
        &mut self,
        call: &str,
        found: Option<&N>,
    ) -> Result<(), AllocError> {
        match found {
            Some(it) => self.node_line(call, it.syntax()),
            None => self.word(call, "-"),
        }
    }

    /// The same of a node that is not a view.
    pub fn plain(&mut self, call: &str, found: Option<SyntaxNode>) -> Result<(), AllocError> {
        match found {
            Some(node) => self.node_line(call, &node),
            None => self.word(call, "-"),
        }
    }

    /// The answer of a call that gives nodes, in order.
    pub fn nodes<N: AstNode + Drop, I: Iterator<Item = N> + Drop>(
        &mut self,
        call: &str,
        found: I,
    ) -> Result<(), AllocError>
        requires { I.can_next found × IsFinite (I.remaining found) }
    {
        self.list(call)?;
        for it in found {
            self.one_node(it.syntax())?;
        }
        self.text.push_str(" ]\n")
    }

    /// The answer of a call that gives a list of nodes.
    pub fn slice<N: AstNode + Drop>(&mut self, call: &str, found: &[N]) -> Result<(), AllocError> {
        self.list(call)?;
        for it in found {
            self.one_node(it.syntax())?;
        }
        self.text.push_str(" ]\n")
    }

    /// The same of a call that takes memory for it.
    pub fn asked_slice<N: AstNode + Drop>(
        &mut self,
        call: &str,
        answer: Result<Vec<N>, AllocError>,
    ) -> Result<(), AllocError> {
        match answer {
            Ok(found) => self.slice(call, found.as_slice()),
            Err(_) => self.refused(call),
        }
    }

    /// The answer of a call that gives tokens, in order.
    pub fn tokens<I: Iterator<Item = SyntaxToken> + Drop>(
        &mut self,
        call: &str,
        found: I,
    ) -> Result<(), AllocError>
        requires { I.can_next found × IsFinite (I.remaining found) }
    {
        self.list(call)?;
        for it in found {
            self.one_token(&it)?;
        }
        self.text.push_str(" ]\n")
    }

    fn one_or_gap<N: AstNode + Drop>(&mut self, found: Option<N>) -> Result<(), AllocError> {
        match found {
            Some(it) => self.one_node(it.syntax()),
            None => self.text.push_str(" -"),
        }
    }

    /// The answer of a call that gives nodes or gaps, in order.
    pub fn gaps<N: AstNode + Drop, I: Iterator<Item = Option<N>> + Drop>(
        &mut self,
        call: &str,
        found: I,
    ) -> Result<(), AllocError>
        requires { I.can_next found × IsFinite (I.remaining found) }
    {
        self.list(call)?;
        for it in found {
            self.one_or_gap(it)?;
        }
        self.text.push_str(" ]\n")
    }

    fn one_part<N: AstNode + Drop>(
        &mut self,
        found: NodeOrToken<N, SyntaxToken>,
    ) -> Result<(), AllocError> {
        match found {
            NodeOrToken::Node(it) => self.one_node(it.syntax()),
            NodeOrToken::Token(it) => self.one_token(&it),
        }
    }

    /// The answer of a call that gives nodes and tokens, in order.
    pub fn parts<N: AstNode + Drop, I: Iterator<Item = NodeOrToken<N, SyntaxToken>> + Drop>(
        &mut self,
        call: &str,
        found: I,
    ) -> Result<(), AllocError>
        requires { I.can_next found × IsFinite (I.remaining found) }
    {
        self.list(call)?;
        for it in found {
            self.one_part(it)?;
        }
        self.text.push_str(" ]\n")
    }
}
