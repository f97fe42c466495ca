//! A tree with errors, and the view that its root should be.
ghost use Rattle.std.specs.Prelude.{◌≡◌, ⊤, [], ◌<◌, ◌≤◌, ◌^◌, ◌↔◌, length, IfOk, IfErr, IfSome, OnOk, Some, None, is_some, if◌then◌else◌};
ghost use Rattle.tree_model.specs.Tree.{kind_of};
ghost use Rattle.tree_model.specs.Cursor.{IsRoot};
ghost use Rattle.tree_model.specs.Edit.{root_of};
ghost use Rattle.ras_front_end.specs.declared.parse_error.ParseError.TheVariants.{TooLong};
ghost use Rattle.ras_front_end.specs.Keeps.{IsRootOf, Keeps};
ghost use Rattle.ras_front_end.specs.Parsed.{IsParseOf, ErrorsLieIn};
ghost use Rattle.ras_front_end.specs.Reading.{reading_of};
ghost use Rattle.ras_parsing.specs.AllErrors.{all_errors};
ghost use Rattle.ras_parsing.specs.OkCases.{IsOkRefusal};

use crate::build::build_output;
use crate::error_list::{copies, push_violations};
use crate::ok_error::OkError;
use crate::sink::read_tree;
use lossless_tree::SyntaxNode;
use ras_front_end::{Edition, Entry, FrontEnd, Output, ParseError, SyntaxError};
use ras_node::AstNode;
use shared_pointer::Shared;
use std::alloc::{AllocError, Global};
use std::marker::{Model, PhantomData};

/// The result of parsing: a tree, whose root should be a `T`, and the errors that were found as it
/// was made.
///
/// There is a tree whatever the text is. Cloning a parse takes no memory and always succeeds. A
/// clause sees the tree and the stored errors, whose ranges are in its text.
#[derive(Drop)]
pub struct Parse<T> {
    root: SyntaxNode,
    errors: Shared<Vec<SyntaxError>>,
    view: PhantomData<T>,
}

impl<T> Model for Parse<T> {
    ghost use Rattle.tree_model.specs.Cursor.{IsRoot};
    ghost use Rattle.ras_front_end.specs.Parsed.{Parsed, parsed_code, ErrorsLieIn};

    ghost Value = { Parsed };

    ghost coded = { parsed_code };

    ghost view = { λ a. record { tree = a.root.tree; errors = a.errors.value.items } };

    ghost invariant = { λ a. IsRoot a.root
        × ErrorsLieIn (record { tree = a.root.tree; errors = a.errors.value.items }) };
}

impl<T> Parse<T> {
    // The parse of a whole tree, and the errors in its text.
    pub(crate) fn from_parts(
        alloc: Global,
        root: SyntaxNode,
        errors: Vec<SyntaxError>,
    ) -> Result<Parse<T>, AllocError>
        requires root { IsRoot root }
        requires errors { ErrorsLieIn (record { tree = root.tree; errors = errors.items }) }
        ensures { IfOk result (λ p. p ≡ record { tree = root.tree; errors = errors.items }) }
    {
        let errors = Shared::new(alloc, errors)?;
        Ok(Parse {
            root,
            errors,
            view: PhantomData,
        })
    }

    /// The parse of a text by the output that a parser made of it. The root should be a `T`.
    ///
    /// [`read`] makes that of a file or an expression by a front end. This is for a parser that
    /// also reads other parts of a file, such as types. Takes time linear in the text and the
    /// steps.
    pub fn of_output(alloc: Global, text: &str, output: Output) -> Result<Parse<T>, AllocError>
        requires short { length text.now < 2 ^ 32 }
        requires keeps { Keeps (λ root. ⊤) text.now (reading_of output) }
        ensures parsed { IfOk result (IsParseOf text.now (reading_of output)) }
        ensures in_text { IfOk result ErrorsLieIn }
    {
        let built = build_output(alloc, text, output)?;
        let parse = Parse::from_parts(alloc, built.root, built.errors)?;
        Ok(parse)
    }

    // The same parse, whose root should be a `U`.
    fn viewed<U>(self) -> Parse<U>
        ensures { result ≡ self }
    {
        let Parse {
            root,
            errors,
            view: _,
        } = self;
        Parse {
            root,
            errors,
            view: PhantomData,
        }
    }

    /// The root of the tree.
    pub fn syntax_node(&self) -> SyntaxNode
        ensures { result ≡ root_of self.now.tree }
    {
        match self.root.clone() {
            Ok(root) => root,
            Err(_) => unreachable!(),
        }
    }

    /// The root of the tree, borrowed.
    pub fn root(&self) -> &SyntaxNode
        ensures { result.now ≡ root_of self.now.tree }
    {
        &self.root
    }

    /// The root of the tree, without the errors.
    pub fn into_root(self) -> SyntaxNode
        ensures { result ≡ root_of self.tree }
    {
        self.root
    }

    /// The stored errors, in order: those of [`Parse::errors`] without the violations.
    pub fn stored(&self) -> &[SyntaxError]
        ensures errors { result.now ≡ self.now.errors }
        ensures in_text { ErrorsLieIn self.now }
    {
        self.errors.as_ref().as_slice()
    }

    /// All errors: the stored ones in their order, followed by the violations of the tree, in
    /// preorder of their nodes. After a full parse, and in a [`Document`](crate::Document), the
    /// stored errors are those of the parser, followed by those of the lexer; after a re-parse by a
    /// call of this type, the old errors that are kept come first.
    ///
    /// It copies the stored errors and walks the tree: the time is that of `violations`. The parse
    /// is unchanged, also if memory runs out.
    pub fn errors(&self, alloc: Global) -> Result<Vec<SyntaxError>, AllocError>
        ensures { IfOk result (λ errors. errors.items ≡ all_errors self.now) }
    {
        let stored = copies(alloc, self.stored())?;
        push_violations(alloc, stored, &self.root)
    }

    /// The same parse, whose root can be any node.
    pub fn to_syntax(self) -> Parse<SyntaxNode>
        ensures { result ≡ self }
    {
        self.viewed()
    }
}

impl<T: AstNode> Parse<T> {
    /// The root as a `T`, or `None` if it is of another kind, such as `ERROR`.
    pub fn tree(&self) -> Option<T>
        ensures exact { is_some result ≡ T.casts (kind_of self.now.tree) }
        ensures same { IfSome result (λ it. T.node it ≡ root_of self.now.tree) }
    {
        T::cast(self.syntax_node())
    }

    /// The root as a `T`, if the text has no errors at all.
    ///
    /// Otherwise the result is [`OkError::Errors`] with all errors, if there are any; then
    /// [`OkError::OtherRoot`], if the root is of another kind. Each contains the parse, and so does
    /// [`OkError::Memory`], which is returned as soon as memory runs out.
    pub fn ok(self, alloc: Global) -> Result<T, OkError<T>>
        ensures free { OnOk result (all_errors self ≡ []) }
        ensures same { IfOk result (λ it. T.node it ≡ root_of self.tree) }
        ensures refused { IfErr result (IsOkRefusal (T.casts (kind_of self.tree)) self) }
    {
        let errors = match self.errors(alloc) {
            Ok(errors) => errors,
            Err(_) => return Err(OkError::Memory(self)),
        };
        if !errors.is_empty() {
            return Err(OkError::Errors(errors, self));
        }
        match self.tree() {
            Some(tree) => Ok(tree),
            None => Err(OkError::OtherRoot(self)),
        }
    }
}

impl Parse<SyntaxNode> {
    /// The same parse, whose root should be an `N`, or `None` if the root is of another kind; the
    /// parse is then dropped.
    pub fn cast<N: AstNode>(self) -> Option<Parse<N>>
        ensures { result ≡ (if N.casts (kind_of self.tree) then Some self else None) }
    {
        if !N::can_cast(self.root.kind()) {
            return None;
        }
        Some(self.viewed())
    }
}

impl<T> Clone for Parse<T> {
    ghost use Rattle.std.specs.Prelude.{◌≡◌, ⊤};

    ghost is_clone = { λ p copy. copy ≡ p };

    ghost is_infallible = { λ _. ⊤ };

    fn clone(&self) -> Result<Parse<T>, AllocError> {
        Ok(Parse {
            root: self.syntax_node(),
            errors: self.errors.share(),
            view: PhantomData,
        })
    }
}

/// Equal where trees and stored errors are.
impl<T> PartialEq for Parse<T> {
    ghost use Rattle.ras_parsing.specs.ParsedEquality.{is_same_parsed, parsed_equivalence};
    ghost use Rattle.std.specs.Cmp.{partial_equiv_from_equiv};

    ghost eq = { is_same_parsed };

    ghost laws = { partial_equiv_from_equiv parsed_equivalence };

    fn eq(&self, other: &Parse<T>) -> bool {
        self.root == other.root && self.stored() == other.stored()
    }
}

impl<T> Eq for Parse<T> {
    ghost use Rattle.ras_parsing.specs.ParsedEquality.{parsed_equivalence};

    ghost laws = { parsed_equivalence };
}

/// Parses a text with a front end. The root should be a `T`.
///
/// Returns `TooLong` if the text is longer than 4,294,967,295 bytes; this is checked first. Takes
/// the time of the front end, and time linear in the text.
pub fn read<T, F: FrontEnd>(
    alloc: Global,
    front: &F,
    entry: Entry,
    text: &str,
    edition: Edition,
) -> Result<Parse<T>, ParseError>
    ensures parsed { IfOk result
        (IsParseOf text.now ((F.answers front.now).parsed entry edition text.now)) }
    ensures root { IfOk result (λ p. IsRootOf entry (kind_of p.tree)) }
    ensures in_text { IfOk result ErrorsLieIn }
    ensures accepted { OnOk result (length text.now < 2 ^ 32) }
    ensures refused { IfErr result (λ e. (e ≡ TooLong) ↔ (2 ^ 32 ≤ length text.now)) }
{
    if text.len() > u32::MAX as usize {
        return Err(ParseError::TooLong);
    }
    let read = read_tree(alloc, front, entry, text, edition)?;
    Ok(Parse::from_parts(alloc, read.root, read.errors)?)
}
