//! From the steps of a parse to a tree, as they come.
ghost use Rattle.std.specs.Prelude.{◌≡◌, ◌<◌, ◌^◌, ◌++◌, ◌∷◌, [], List, length, IfOk, OnOk, string_bytes};
ghost use Rattle.tree_model.specs.Cursor.{IsRoot};
ghost use Rattle.ras_front_end.specs.Parsed.{IsParseOf, ErrorsLieIn};
ghost use Rattle.ras_front_end.specs.Reading.{FrontStep, step_faults, ends, reports};
ghost use Rattle.ras_parsing.specs.Sinks.{AreOf, started};

use crate::build::store;
use lossless_tree::{RowBuilder, RowKind, SyntaxNode, tree_of_rows};
use ras_front_end::{Edition, Entry, FrontEnd, StepSink, SyntaxError};
use std::alloc::{AllocError, Global};
use syntax_kind::SyntaxKind;
use text_size::TextSize;

/// A tree whose steps come in parts, and the parser's errors among them.
#[derive(Drop)]
pub(crate) struct TreeSink {
    rows: RowBuilder,
    errors: Vec<SyntaxError>,
}

impl TreeSink {
    fn add_error(&mut self, message: String, position: TextSize) -> Result<(), AllocError>
        ensures { OnOk result ((before : List FrontStep)
            → AreOf self.old.rows self.old.errors.items before
            → AreOf self.new.rows self.new.errors.items
            (before ++ reports (string_bytes message) position ∷ [])) }
    {
        store(
            &mut self.errors,
            SyntaxError::new_at_offset(message, position),
        )?;
        Ok(())
    }

    // One function for nodes and tokens, which is called in several places. Its arguments are in
    // registers: a `SyntaxKind` would be in memory, written in two parts and read as one.
    #[inline(never)]
    fn start(&mut self, kind: RowKind, len: TextSize) -> Result<(), AllocError>
        ensures { OnOk result ((before : List FrontStep)
            → AreOf self.old.rows self.old.errors.items before
            → AreOf self.new.rows self.new.errors.items
            (before ++ started kind.kind kind.is_token len ∷ [])) }
    {
        self.rows.start(kind, len.raw())
    }

    #[inline(always)]
    fn exit(&mut self) -> Result<(), AllocError>
        ensures { OnOk result ((before : List FrontStep)
            → AreOf self.old.rows self.old.errors.items before
            → AreOf self.new.rows self.new.errors.items (before ++ ends ∷ [])) }
    {
        self.rows.exit()
    }
}

impl StepSink for TreeSink {
    ghost use Rattle.ras_parsing.specs.Sinks.{AreOf};

    ghost took = { λ sink steps. AreOf sink.rows sink.errors.items steps };

    fn with_room(alloc: Global, elements: usize) -> Result<TreeSink, AllocError> {
        let rows = RowBuilder::with_capacity(alloc, elements)?;
        Ok(TreeSink {
            rows,
            errors: Vec::new(alloc),
        })
    }

    #[inline(always)]
    fn start_node(&mut self, kind: SyntaxKind) -> Result<(), AllocError> {
        self.start(RowKind::node(kind), TextSize::new(0))
    }

    #[inline(always)]
    fn token(&mut self, kind: SyntaxKind, len: TextSize) -> Result<(), AllocError> {
        self.start(RowKind::token(kind), len)
    }

    #[inline(always)]
    fn finish_node(&mut self) -> Result<(), AllocError> {
        self.exit()
    }

    fn error(
        &mut self,
        _alloc: Global,
        message: String,
        position: TextSize,
    ) -> Result<(), AllocError> {
        self.add_error(message, position)
    }
}

/// The root of a new tree, and the errors in its text, of which the first are the parser's.
#[derive(Drop)]
pub(crate) struct Read {
    /// The root.
    pub root: SyntaxNode,
    /// The errors: the parser's in the order of the steps, and then the lexer's.
    pub errors: Vec<SyntaxError>,
    /// How many of the errors are the parser's.
    pub parser_errors: usize,
}

// The C library's allocator gives free memory back to the system, unless it is less than twice the
// largest block that was ever freed, of at most 32 MiB. A parse takes some 20 bytes for each byte
// of the text, its largest list 7. Without a larger block each parse of a file of 190 KB would take
// its memory as 730 new pages, a fifth of its time.
const KEPT: usize = 12;

const MOST_KEPT: usize = 33_554_432;

// Has the memory of a parse kept for the next one. No page of the block is touched.
#[inline(never)]
fn keep_memory(alloc: Global, text: &str) -> Result<(), AllocError> {
    let bytes = text.len().saturating_mul(KEPT).min(MOST_KEPT);
    let block: Vec<u8> = Vec::with_capacity(alloc, bytes)?;
    drop(block);
    Ok(())
}

/// The tree that a front end makes of a text, and its errors. No list of all steps is made.
pub(crate) fn read_tree<F: FrontEnd>(
    alloc: Global,
    front: &F,
    entry: Entry,
    text: &str,
    edition: Edition,
) -> Result<Read, AllocError>
    requires short { length text.now < 2 ^ 32 }
    ensures root { IfOk result (λ r. IsRoot r.root) }
    ensures parsed { IfOk result (λ r.
        IsParseOf text.now ((F.answers front.now).parsed entry edition text.now)
        (record { tree = r.root.tree; errors = r.errors.items })) }
    ensures in_text { IfOk result
        (λ r. ErrorsLieIn (record { tree = r.root.tree; errors = r.errors.items })) }
    ensures counted { IfOk result (λ r. r.parser_errors
        ≡ length (step_faults ((F.answers front.now).parsed entry edition text.now).steps)) }
{
    keep_memory(alloc, text)?;
    let (sink, mut lexer_errors) = front.parse_into::<TreeSink>(alloc, entry, text, edition)?;
    let TreeSink { rows, mut errors } = sink;
    let parser_errors = errors.len();
    let root = tree_of_rows(alloc, text, rows)?;
    errors.append(&mut lexer_errors)?;
    Ok(Read {
        root,
        errors,
        parser_errors,
    })
}
