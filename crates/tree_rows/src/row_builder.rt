//! Rows that are made as the steps of a tree come.
ghost use Rattle.std.specs.Prelude.{◌≡◌, ◌<◌, ◌+◌, ◌^◌, List, [], ◌∷◌, filter_map, length, IfOk, OnOk};
ghost use Rattle.tree_model.specs.Events.{BuildsNode};
ghost use Rattle.tree_rows.specs.declared.builder_event.BuilderEvent.{BuilderEvent};
ghost use Rattle.tree_rows.specs.declared.builder_event.BuilderEvent.TheVariants.{Exit};
ghost use Rattle.tree_rows.specs.Builder.{events_from, IsOneTree};
ghost use Rattle.tree_rows.specs.Heads.{step_of};
ghost use Rattle.tree_rows.specs.Making.{after_step, run, nothing_made, MadeOf};
ghost use Rattle.tree_rows.specs.Run.{text_len};

use crate::builder_event::{BuilderEvent, TreeStep};
use crate::kept::Kept;
use crate::row_kind::RowKind;
use crate::rows::{HALF, Row, Rows};
use crate::table::Table;
use std::alloc::{AllocError, Global};
use std::marker::Model;

// A vector has fewer elements than this.
const NO_ROOM: usize = 1 << 63;

/// The rows of a tree whose steps come in parts.
///
/// A clause sees the rows so far, the row of the innermost open node, and how many bytes of the
/// text the tokens have so far.
#[derive(Drop)]
pub struct RowBuilder {
    rows: Rows,
    innermost: usize,
    at: u32,
}

impl Model for RowBuilder {
    ghost use Rattle.tree_rows.specs.Making.{Making, making, making_code};

    ghost Value = { Making };

    ghost coded = { making_code };

    ghost view = { λ a. making a.rows a.innermost a.at };
}

impl RowBuilder {
    /// A builder that has no steps yet, with room for this many nodes and tokens.
    pub fn with_capacity(alloc: Global, count: usize) -> Result<RowBuilder, AllocError>
        ensures { IfOk result (λ b. b ≡ nothing_made) }
    {
        Ok(RowBuilder {
            rows: Rows::with_capacity(alloc, count)?,
            innermost: 0,
            at: 0,
        })
    }

    /// Takes one more step: a node of this kind begins, or a token of it has the next `len` bytes.
    /// It ends before byte 2^32. The length of a node is not looked at. The only error is out of
    /// memory.
    #[inline(always)]
    pub fn start(&mut self, kind: RowKind, len: u32) -> Result<(), AllocError>
        ensures { OnOk result (self.old.at + text_len (step_of kind len ∷ []) < 2 ^ 32
            → self.new ≡ after_step (step_of kind len) self.old) }
    {
        let row = self.rows.len();
        let is_token = kind.is_token();
        if row + 1 < HALF {
            let end = if is_token { row as u32 + 1 } else { 0 };
            if self.rows.push_low(kind, self.at, end, self.innermost) {
                if is_token {
                    self.at = self.at.wrapping_add(len);
                } else {
                    self.innermost = row;
                }
                return Ok(());
            }
        }
        self.start_wide(kind, len)
    }

    // The same for a row that has no room yet, or with numbers of 2^32 or more.
    #[cold]
    #[inline(never)]
    fn start_wide(&mut self, kind: RowKind, len: u32) -> Result<(), AllocError>
        ensures { OnOk result (self.old.at + text_len (step_of kind len ∷ []) < 2 ^ 32
            → self.new ≡ after_step (step_of kind len) self.old) }
    {
        let row = self.rows.len();
        let is_token = kind.is_token();
        let end = if is_token { row + 1 } else { 0 };
        // No list has room for so many.
        if end >= NO_ROOM {
            return Err(AllocError);
        }
        let added = Row {
            kind: kind.kind(),
            is_token,
            start: self.at,
            end,
        };
        self.rows.push(added, self.innermost)?;
        if is_token {
            self.at = self.at.wrapping_add(len);
        } else {
            self.innermost = row;
        }
        Ok(())
    }

    /// Takes one more step: the innermost open node ends; if none is open, nothing is changed. No
    /// step of a tree ends more nodes than began. The only error is out of memory.
    #[inline(always)]
    pub fn exit(&mut self) -> Result<(), AllocError>
        ensures { OnOk result (self.new ≡ after_step Exit self.old) }
    {
        let row = self.innermost;
        let end = self.rows.len();
        if row < end {
            self.innermost = self.rows.close(row)?;
        }
        Ok(())
    }

    /// Takes one more step, whose token, if it is one, ends before byte 2^32.
    #[inline(always)]
    pub fn add(&mut self, event: BuilderEvent) -> Result<(), AllocError>
        ensures { OnOk result (self.old.at + text_len (event ∷ []) < 2 ^ 32
            → self.new ≡ after_step event self.old) }
    {
        match event {
            BuilderEvent::Enter(kind) => self.start(RowKind::node(kind), 0),
            BuilderEvent::Token(kind, len) => {
                self.start(RowKind::token(kind), (len % (1 << 32)) as u32)
            }
            BuilderEvent::Exit => self.exit(),
        }
    }

    /// Takes further steps, whose tokens have fewer than 2^32 bytes with those before.
    pub fn take<S: TreeStep>(&mut self, steps: &[S]) -> Result<(), AllocError>
        ensures { OnOk result
            (self.old.at + text_len (filter_map S.step_event steps.now) < 2 ^ 32
            → self.new ≡ run (filter_map S.step_event steps.now) self.old) }
    {
        for step in steps {
            if let Some(event) = step.event() {
                self.add(event)?;
            }
        }
        Ok(())
    }

    /// The rows, which nothing is added to any more.
    pub(crate) fn finish(self, alloc: Global) -> Result<Kept, AllocError>
        ensures { IfOk result (λ kept. kept ≡ self.kept) }
    {
        let RowBuilder {
            rows,
            innermost: _,
            at: _,
        } = self;
        let kept = Kept::new(alloc, rows)?;
        Ok(kept)
    }

    /// The table of the tree over a text that the steps build, by the rows that were made of them.
    /// The text is copied once.
    pub fn table(self, alloc: Global, text: &str) -> Result<Table, AllocError>
        requires short { length text.now < 2 ^ 32 }
        requires made { MadeOf text.now self }
        ensures { IfOk result (λ table. (steps : List BuilderEvent) → run steps nothing_made ≡ self
            → IsOneTree steps text.now → BuildsNode (events_from steps text.now) table) }
    {
        let rows = self.finish(alloc)?;
        let copy = String::from_str(alloc, text)?;
        Ok(Table::from_parts(copy, rows))
    }
}
