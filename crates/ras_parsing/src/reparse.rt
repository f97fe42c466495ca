//! Edits of a parse: re-parses one token, one block or the whole text.
ghost use Rattle.std.specs.Prelude.{◌≡◌, ◌↔◌, ◌+◌, ◌-◌, ◌<◌, ◌≤◌, ◌^◌, length, IfOk, IfErr, OnOk, IfSome, All, IsTrue, IsFalse, None, MatchOption, option_map, string_bytes, take, drop, Contains, ◌++◌, IsCharBoundary, ⊤};
ghost use Rattle.std.specs.Char.{encode_utf8};
ghost use Rattle.tree_model.specs.Tree.{text};
ghost use Rattle.tree_model.specs.Cursor.{IsRoot, first_child_of, parent_of};
ghost use Rattle.tree_model.specs.Edit.{splice};
ghost use Rattle.ras_front_end.specs.declared.parse_error.ParseError.TheVariants.{TooLong};
ghost use Rattle.ras_front_end.specs.Parsed.{ErrorsLieIn, IsParseOf};
ghost use Rattle.ras_front_end.specs.declared.edition.Entry.TheVariants.{SourceFile};
ghost use Rattle.ras_front_end.specs.ErrorModel.{LiesIn};
ghost use Rattle.ras_front_end.specs.Keeps.{Keeps};
ghost use Rattle.ras_front_end.specs.Reading.{reading_of};
ghost use Rattle.ras_parsing.specs.Edit.{IsEditOf, edited, covered, edited_at, replacing};
ghost use Rattle.ras_parsing.specs.Reparse.{merged, is_token_kind, IsContextualWord, kind_at, reparser_of, first_reparsable, token_faults, token_piece, with_piece, NoTokenPath, NoBlockPath, IsIncremental, IsReparse};
ghost use Rattle.ras_parsing.specs.Rereading.{IsAround, LosesNewline, MayStay, IsOneToken, NoOneToken, IsNewToken, IsNewBlock, IsBlockOf};

use crate::build::build_output;
use crate::file::FileView;
use crate::merge::merge;
use crate::parse::{Parse, read};
use lossless_tree::laws::{node_is_placed, token_is_placed};
use lossless_tree::{
    Ancestors, ReplaceError, SyntaxKind, SyntaxNode, SyntaxToken, TextRange, TextSize,
};
use ras_front_end::{Edition, Entry, FrontEnd, Output, ParseError, Reparser, SyntaxError};
use std::alloc::{AllocError, Global};

impl<T: FileView> Parse<T> {
    /// The parse after an edit that replaces the bytes in `delete` by `insert`. Only one token or
    /// one block is re-parsed if that is possible, otherwise the whole text. The old parse is
    /// unchanged.
    ///
    /// The range must be in the text, on character boundaries. Returns `TooLong` if the new text is
    /// longer than 4,294,967,295 bytes; this is checked first.
    pub fn reparse<F: FrontEnd>(
        &self,
        alloc: Global,
        front: &F,
        delete: TextRange,
        insert: &str,
        edition: Edition,
    ) -> Result<Parse<T>, ParseError>
        requires { IsEditOf (text self.now.tree) (replacing delete insert.now) }
        ensures answer { IfOk result (IsReparse (F.answers front.now) edition self.now
            (replacing delete insert.now)) }
        ensures same_text { IfOk result (λ p. text p.tree
            ≡ edited (text self.now.tree) (replacing delete insert.now)) }
        ensures in_text { IfOk result ErrorsLieIn }
        ensures accepted { OnOk result (length
            (edited (text self.now.tree) (replacing delete insert.now))
            < 2 ^ 32) }
        ensures refused { IfErr result (λ e. (e ≡ TooLong)
            ↔ (2 ^ 32
            ≤ length (edited (text self.now.tree) (replacing delete insert.now)))) }
    {
        match self.incremental_reparse(alloc, front, delete, insert, edition)? {
            Some((new, _)) => Ok(new),
            None => self.full_reparse(alloc, front, delete, insert, edition),
        }
    }

    /// The parse after an edit, where all of the new text is parsed as a file: the result of
    /// [`Parse::reparse`] if [`Parse::incremental_reparse`] returns `None`. The old parse is
    /// unchanged.
    ///
    /// The range must be in the text, on character boundaries. Returns `TooLong` if the new text is
    /// longer than 4,294,967,295 bytes; this is checked first.
    pub fn full_reparse<F: FrontEnd>(
        &self,
        alloc: Global,
        front: &F,
        delete: TextRange,
        insert: &str,
        edition: Edition,
    ) -> Result<Parse<T>, ParseError>
        requires { IsEditOf (text self.now.tree) (replacing delete insert.now) }
        ensures answer { IfOk result (IsParseOf
            (edited (text self.now.tree) (replacing delete insert.now))
            ((F.answers front.now).parsed SourceFile edition (edited (text self.now.tree)
            (replacing delete insert.now)))) }
        ensures same_text { IfOk result (λ p. text p.tree
            ≡ edited (text self.now.tree) (replacing delete insert.now)) }
        ensures in_text { IfOk result ErrorsLieIn }
        ensures accepted { OnOk result (length
            (edited (text self.now.tree) (replacing delete insert.now))
            < 2 ^ 32) }
        ensures refused { IfErr result (λ e. (e ≡ TooLong)
            ↔ (2 ^ 32
            ≤ length (edited (text self.now.tree) (replacing delete insert.now)))) }
    {
        if is_too_long(self.root(), delete, insert) {
            return Err(ParseError::TooLong);
        }
        let text = edited_text(
            alloc,
            self.root().as_str(),
            TextSize::new(0),
            delete,
            insert,
        )?;
        read(alloc, front, Entry::SourceFile, text.as_str(), edition)
    }

    /// The parse after an edit, if only one token or one block needs a re-parse, and the range in
    /// the old text that was replaced; `None` if the whole text has to be re-parsed. The old parse
    /// is unchanged.
    ///
    /// *One token* is re-parsed if the smallest element that covers the deleted range is a token of
    /// white space, a comment, a name, or a string (plain, byte or C); white space and comments
    /// must not lose a newline. The front end must see the token's new text as one token of the
    /// same kind, and not as one token together with the character after it, and a name must not
    /// become `auto`, `default` or `union`.
    ///
    /// *One block* is re-parsed otherwise, if a node around the edit has a reparser; the nearest
    /// one is used. The braces of its new text must balance: it begins with `{`, and the last token
    /// is the `}` that closes it.
    ///
    /// The range must be in the text, on character boundaries. Returns `TooLong` if the new text is
    /// longer than 4,294,967,295 bytes; this is checked first. The text is copied once. If one
    /// token is re-parsed, the nodes are shared with the old tree as in
    /// `SyntaxToken::replace_with`; if one block is re-parsed, they are copied.
    pub fn incremental_reparse<F: FrontEnd>(
        &self,
        alloc: Global,
        front: &F,
        delete: TextRange,
        insert: &str,
        edition: Edition,
    ) -> Result<Option<(Parse<T>, TextRange)>, ParseError>
        requires { IsEditOf (text self.now.tree) (replacing delete insert.now) }
        ensures answer { IfOk result (IsIncremental (F.answers front.now) edition self.now
            (replacing delete insert.now)) }
        ensures same_text { IfOk result (λ o.
            IfSome o (λ p. text p.0.tree
            ≡ edited (text self.now.tree) (replacing delete insert.now))) }
        ensures in_text { IfOk result (λ o. IfSome o (λ p. ErrorsLieIn p.0)) }
        ensures accepted { OnOk result (length
            (edited (text self.now.tree) (replacing delete insert.now))
            < 2 ^ 32) }
        ensures refused { IfErr result (λ e. (e ≡ TooLong)
            ↔ (2 ^ 32
            ≤ length (edited (text self.now.tree) (replacing delete insert.now)))) }
    {
        if is_too_long(self.root(), delete, insert) {
            return Err(ParseError::TooLong);
        }
        if let Some(new) = token_path(alloc, self.root(), front, delete, insert, edition)? {
            let range = new.token.text_range();
            let parse = with_token(alloc, self, new, delete, insert)?;
            return Ok(Some((parse, range)));
        }
        match block_path(alloc, self.root(), front, delete, insert, edition)? {
            Some(new) => {
                let range = new.node.text_range();
                let parse = with_block(alloc, self, new, delete, insert)?;
                Ok(Some((parse, range)))
            }
            None => Ok(None),
        }
    }
}

// The parse with a new token in place of the one that covers an edit.
fn with_token<T>(
    alloc: Global,
    old: &Parse<T>,
    new: NewToken,
    delete: TextRange,
    insert: &str,
) -> Result<Parse<T>, AllocError>
    requires edit { IsEditOf (text old.now.tree) (replacing delete insert.now) }
    requires short { length
        (edited (text old.now.tree) (replacing delete insert.now))
        < 2 ^ 32 }
    requires covers { new.token
        ≡ covered old.now.tree (replacing delete insert.now) }
    requires text { string_bytes new.text
        ≡ edited_at new.token (replacing delete insert.now) }
    ensures new { IfOk result (λ p. p
        ≡ with_piece old.now (replacing delete insert.now) new.token
        (token_piece new.token (replacing delete insert.now)
        (option_map string_bytes new.error))) }
    ensures same_text { IfOk result (λ p. text p.tree
        ≡ edited (text old.now.tree) (replacing delete insert.now)) }
    ensures in_text { IfOk result ErrorsLieIn }
{
    let NewToken { token, text, error } = new;
    token_is_placed(&token);
    let errors = token_errors(alloc, text.as_str(), error)?;
    let range = token.text_range();
    let root = match token.replace_with(alloc, token.kind(), text.as_str()) {
        Ok(root) => root,
        Err(refusal) => match refusal {
            ReplaceError::Memory => return Err(AllocError),
            ReplaceError::TooLong => unreachable!(),
        },
    };
    spliced(alloc, old, root, errors, range, delete, insert)
}

// The parse with a re-parsed block in place of the old one.
fn with_block<T>(
    alloc: Global,
    old: &Parse<T>,
    new: NewBlock,
    delete: TextRange,
    insert: &str,
) -> Result<Parse<T>, AllocError>
    requires edit { IsEditOf (text old.now.tree) (replacing delete insert.now) }
    requires short { length
        (edited (text old.now.tree) (replacing delete insert.now))
        < 2 ^ 32 }
    requires same_tree { new.node.tree ≡ old.now.tree }
    requires around { IsAround new.node (replacing delete insert.now) }
    requires new_text { string_bytes new.text
        ≡ edited_at new.node (replacing delete insert.now) }
    requires keeps { Keeps (λ root. ⊤) (string_bytes new.text) (reading_of new.output) }
    ensures new { IfOk result (IsBlockOf old.now (replacing delete insert.now) new.node
        (reading_of new.output)) }
    ensures same_text { IfOk result (λ p. text p.tree
        ≡ edited (text old.now.tree) (replacing delete insert.now)) }
    ensures in_text { IfOk result ErrorsLieIn }
{
    let NewBlock { node, text, output } = new;
    let built = build_output(alloc, text.as_str(), output)?;
    let range = node.text_range();
    let root = match node.replace_with(alloc, &built.root) {
        Ok(root) => root,
        Err(refusal) => match refusal {
            ReplaceError::Memory => return Err(AllocError),
            ReplaceError::TooLong => unreachable!(),
        },
    };
    spliced(alloc, old, root, built.errors, range, delete, insert)
}

// The parse of a new tree, in which a piece with these errors replaces a range.
fn spliced<T>(
    alloc: Global,
    old: &Parse<T>,
    root: SyntaxNode,
    errors: Vec<SyntaxError>,
    replaced: TextRange,
    delete: TextRange,
    insert: &str,
) -> Result<Parse<T>, AllocError>
    requires root { IsRoot root }
    requires text { text root.tree
        ≡ edited (text old.now.tree) (replacing delete insert.now) }
    requires short { length (text root.tree) < 2 ^ 32 }
    requires around { (replaced.start ≤ delete.start) × (delete.end ≤ replaced.end)
        × (replaced.end ≤ length (text old.now.tree)) }
    requires errors { All
        (LiesIn
        (((replaced.end - replaced.start) + length insert.now) - (delete.end - delete.start)))
        errors.items }
    ensures new { IfOk result (λ p. p
        ≡ record {
          tree = root.tree;
          errors
              = merged old.now.errors errors.items replaced (replacing delete insert.now);
        }) }
    ensures in_text { IfOk result ErrorsLieIn }
{
    // Opens the range's invariant for the proof: its start isn't past its end.
    let _start = delete.start();
    let errors = merge(alloc, old.stored(), errors, replaced, delete, insert)?;
    Parse::from_parts(alloc, root, errors)
}

// A token with its new text, and the lexer's error.
#[derive(Drop)]
struct NewToken {
    token: SyntaxToken,
    text: String,
    error: Option<String>,
}

// A node with its new text, and what the front end reads there.
#[derive(Drop)]
struct NewBlock {
    node: SyntaxNode,
    text: String,
    output: Output,
}

pub(crate) fn is_too_long(root: &SyntaxNode, delete: TextRange, insert: &str) -> bool
    requires root { IsRoot root.now }
    requires edit { IsEditOf (text root.now.tree) (replacing delete insert.now) }
    ensures { IsTrue result
        ↔ (2 ^ 32
        ≤ length (edited (text root.now.tree) (replacing delete insert.now))) }
{
    let kept = root.as_str().len() - delete.len().raw() as usize;
    kept + insert.len() > u32::MAX as usize
}

// The text of a node or token that starts at a byte of the whole text, after an edit of the whole
// text inside of it.
pub(crate) fn edited_text(
    alloc: Global,
    piece: &str,
    start: TextSize,
    delete: TextRange,
    insert: &str,
) -> Result<String, AllocError>
    requires begun { start ≤ delete.start }
    requires ended { delete.end ≤ start + length piece.now }
    requires start_boundary { IsCharBoundary piece.now (delete.start - start) }
    requires end_boundary { IsCharBoundary piece.now (delete.end - start) }
    ensures { IfOk result (λ s. string_bytes s
        ≡ splice piece.now (delete.start - start) (delete.end - start) insert.now) }
{
    let from = (delete.start().raw() - start.raw()) as usize;
    let to = (delete.end().raw() - start.raw()) as usize;
    let room = from
        .saturating_add(insert.len())
        .saturating_add(piece.len() - to);
    let mut edited = String::with_capacity(alloc, room)?;
    edited.push_str(&piece[..from])?;
    edited.push_str(insert)?;
    edited.push_str(&piece[to..])?;
    Ok(edited)
}

// The token that covers an edit, with its new text, if it may be re-parsed by itself.
fn token_path<F: FrontEnd>(
    alloc: Global,
    root: &SyntaxNode,
    front: &F,
    delete: TextRange,
    insert: &str,
    edition: Edition,
) -> Result<Option<NewToken>, AllocError>
    requires root { IsRoot root.now }
    requires edit { IsEditOf (text root.now.tree) (replacing delete insert.now) }
    ensures { IfOk result (λ o.
        MatchOption o
        (NoTokenPath (F.answers front.now) edition root.now.tree
        (replacing delete insert.now)) (λ n.
        IsNewToken (F.answers front.now) edition root.now.tree (replacing delete insert.now) n.token
        (string_bytes n.text) (option_map string_bytes n.error))) }
{
    let token = match root.covering_element(delete).into_token() {
        Some(token) => token,
        None => return Ok(None),
    };
    let kind = token.kind();
    if !may_be_reread(kind, root, delete) {
        return Ok(None);
    }
    token_is_placed(&token);
    let range = token.text_range();
    let mut text = edited_text(alloc, token.text(), range.start(), delete, insert)?;
    let next = root.text().char_at(range.end());
    match one_token(alloc, front, kind, &mut text, next, edition)? {
        Some(one) => Ok(Some(NewToken {
            token,
            text,
            error: one.error,
        })),
        None => Ok(None),
    }
}

// The kinds of tokens that may be re-parsed by themselves.
fn is_token_kind(kind: SyntaxKind) -> bool
    ensures { result ≡ is_token_kind kind }
{
    matches!(
        kind,
        SyntaxKind::WHITESPACE
            | SyntaxKind::COMMENT
            | SyntaxKind::IDENT
            | SyntaxKind::STRING
            | SyntaxKind::BYTE_STRING
            | SyntaxKind::C_STRING
    )
}

// Whether a token of a kind may be re-parsed if these bytes of the tree's text are deleted from it.
fn may_be_reread(kind: SyntaxKind, root: &SyntaxNode, delete: TextRange) -> bool
    requires root { IsRoot root.now }
    requires within { delete.end ≤ length (text root.now.tree) }
    ensures { IsTrue result ↔ MayStay kind (text root.now.tree) delete }
{
    if !is_token_kind(kind) {
        return false;
    }
    !(kind.is_trivia() && loses_newline(root, delete))
}

fn loses_newline(root: &SyntaxNode, delete: TextRange) -> bool
    requires root { IsRoot root.now }
    requires within { delete.end ≤ length (text root.now.tree) }
    ensures { IsTrue result ↔ LosesNewline (text root.now.tree) delete }
{
    let start = delete.start().raw() as usize;
    let end = delete.end().raw() as usize;
    root.as_str().as_bytes()[start..end].contains(&b'\n')
}

// A text that is one token.
#[derive(Drop)]
struct OneToken {
    // the lexer's error, if there is one
    error: Option<String>,
}

// Whether a text is one token of a kind, is not a word that is a keyword elsewhere, and is not one
// token together with the next character. The next character is appended to the text and removed
// again; if memory runs out, it may stay.
fn one_token<F: FrontEnd>(
    alloc: Global,
    front: &F,
    kind: SyntaxKind,
    text: &mut String,
    next: Option<char>,
    edition: Edition,
) -> Result<Option<OneToken>, AllocError>
    ensures answer { IfOk result (λ o.
        MatchOption o
        (NoOneToken (F.answers front.now) edition kind (string_bytes text.old) next) (λ e.
        IsOneToken (F.answers front.now) edition kind (string_bytes text.old) next
        (option_map string_bytes e.error))) }
    ensures text { OnOk result (string_bytes text.new ≡ string_bytes text.old) }
{
    match front.single_token(alloc, text.as_str(), edition)? {
        Some((found, error)) => {
            if !is_same_kind(found, kind)
                || (is_same_kind(kind, SyntaxKind::IDENT) && is_contextual_word(text.as_str()))
            {
                return Ok(None);
            }
            if let Some(next) = next {
                if is_token_with(alloc, front, text, next, edition)? {
                    return Ok(None);
                }
            }
            Ok(Some(OneToken { error }))
        }
        None => Ok(None),
    }
}

fn is_same_kind(a: SyntaxKind, b: SyntaxKind) -> bool
    ensures { IsTrue result ↔ (a ≡ b) }
{
    a.to_raw() == b.to_raw()
}

fn is_contextual_word(text: &str) -> bool
    ensures { IsTrue result ↔ IsContextualWord text.now }
{
    *text == *"auto" || *text == *"default" || *text == *"union"
}

// Whether a text and the character after it are one token. The character is appended to the text
// and removed again; if memory runs out, it may stay.
fn is_token_with<F: FrontEnd>(
    alloc: Global,
    front: &F,
    text: &mut String,
    next: char,
    edition: Edition,
) -> Result<bool, AllocError>
    ensures answer { IfOk result (λ b. IsFalse b
        ↔ ((F.answers front.now).single edition (string_bytes text.old ++ encode_utf8 next)
        ≡ None)) }
    ensures text { OnOk result (string_bytes text.new ≡ string_bytes text.old) }
{
    let length = text.len();
    text.push(next)?;
    let is_token = front.single_token(alloc, text.as_str(), edition)?.is_some();
    text.truncate(length);
    Ok(is_token)
}

// The nearest node around an edit that has a reparser, with its new text and what is read there,
// if the braces in that balance.
fn block_path<F: FrontEnd>(
    alloc: Global,
    root: &SyntaxNode,
    front: &F,
    delete: TextRange,
    insert: &str,
    edition: Edition,
) -> Result<Option<NewBlock>, AllocError>
    requires root { IsRoot root.now }
    requires edit { IsEditOf (text root.now.tree) (replacing delete insert.now) }
    requires short { length
        (edited (text root.now.tree) (replacing delete insert.now))
        < 2 ^ 32 }
    ensures { IfOk result (λ o.
        MatchOption o
        (NoBlockPath (F.answers front.now) edition root.now.tree
        (replacing delete insert.now)) (λ n.
        IsNewBlock (F.answers front.now) edition root.now.tree
        (replacing delete insert.now) n.node
        (string_bytes n.text) (reading_of n.output))) }
{
    let nodes = root.covering_element(delete).ancestors();
    let (node, reparser) = match first_reparsable(nodes, front) {
        Some(found) => found,
        None => return Ok(None),
    };
    node_is_placed(&node);
    let start = node.text_range().start();
    let text = edited_text(alloc, node.as_str(), start, delete, insert)?;
    match front.parse_balanced(alloc, reparser, text.as_str(), edition)? {
        Some(output) => Ok(Some(NewBlock { node, text, output })),
        None => Ok(None),
    }
}

// The first of the nodes that has a reparser.
fn first_reparsable<F: FrontEnd>(nodes: Ancestors, front: &F) -> Option<(SyntaxNode, Reparser)>
    ensures { result ≡ first_reparsable (F.answers front.now) nodes }
{
    for node in nodes {
        if let Some(reparser) = reparser_of(&node, front) {
            return Some((node, reparser));
        }
    }
    None
}

// The front end's reparser for a node.
fn reparser_of<F: FrontEnd>(node: &SyntaxNode, front: &F) -> Option<Reparser>
    ensures { result ≡ reparser_of (F.answers front.now) node.now }
{
    front.reparser(node.kind(), first_child_kind(node), parent_kind(node))
}

fn first_child_kind(node: &SyntaxNode) -> Option<SyntaxKind>
    ensures { result ≡ option_map kind_at (first_child_of node.now) }
{
    match node.first_child_or_token() {
        Some(child) => Some(child.kind()),
        None => None,
    }
}

fn parent_kind(node: &SyntaxNode) -> Option<SyntaxKind>
    ensures { result ≡ option_map kind_at (parent_of node.now) }
{
    match node.parent() {
        Some(parent) => Some(parent.kind()),
        None => None,
    }
}

// The error of a token has the whole token's range.
fn token_errors(
    alloc: Global,
    text: &str,
    error: Option<String>,
) -> Result<Vec<SyntaxError>, AllocError>
    requires { length text.now < 2 ^ 32 }
    ensures { IfOk result
        (λ errors. errors.items ≡ token_faults text.now (option_map string_bytes error)) }
{
    let mut errors = Vec::new(alloc);
    if let Some(message) = error {
        let range = TextRange::up_to(TextSize::new(text.len() as u32));
        errors.push(SyntaxError::new(message, range))?;
    }
    Ok(errors)
}
