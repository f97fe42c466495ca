//! The steps of a tree that is being made.
ghost use Rattle.std.specs.Prelude.{◌≡◌, ◌↔◌, ◌≤◌, ◌<◌, ◌^◌, [], ◌∷◌, ◌++◌, OnOk, IfOk, IfErr, IsErrOf};
ghost use Rattle.tree_model.specs.Events.{enter, leaf, exit, events_of, text_len};
ghost use Rattle.std.specs.Prelude.{Some};
ghost use Rattle.tree_model.specs.Tree.{cons, nil, Place, IsNode};
ghost use Rattle.tree_model.specs.Rows.{tree_at, TextsAreUtf8};
ghost use Rattle.tree_rows.specs.Walks.{IsWalk};
ghost use Rattle.tree_edit_model.specs.Changes.{Change};
ghost use Rattle.tree_edits.specs.Walked.{IsOneNode, AreChangesOf, IsWalkedOn};
ghost use Rattle.tree_edits.specs.declared.error.ChangeError.TheVariants.{TooLong, Memory};

use crate::change::RowChanges;
use crate::error::ChangeError;
use crate::unchanged::{Reached, offset_of, push_rows};
use std::alloc::{AllocError, Global};
use std::marker::Model;
use syntax_kind::SyntaxKind;
use tree_rows::{BuilderEvent, Table};

/// Events and their texts, joined. A clause sees the list of events.
#[derive(Drop)]
pub(crate) struct Steps {
    steps: Vec<BuilderEvent>,
    text: String,
}

impl Model for Steps {
    ghost use Rattle.std.specs.Prelude.{List, string_bytes};
    ghost use Rattle.std.specs.Coded.{coded_list};
    ghost use Rattle.tree_model.specs.Events.{Event};
    ghost use Rattle.tree_model.specs.TreeCode.{event_code};
    ghost use Rattle.tree_rows.specs.Builder.{events_from, TextsFit};

    ghost Value = { List Event };

    ghost coded = { coded_list event_code };

    ghost view = { λ a. events_from a.steps.items (string_bytes a.text) };

    ghost invariant = { λ a. TextsFit a.steps.items (string_bytes a.text) };
}

impl Steps {
    /// No steps. It takes no memory.
    pub fn new(alloc: Global) -> Self
        ensures { result ≡ [] }
    {
        Steps {
            steps: Vec::new(alloc),
            text: String::new(alloc),
        }
    }

    /// Makes room for the steps of a tree of so many rows and bytes.
    pub fn reserve(&mut self, rows: usize, bytes: usize) -> Result<(), AllocError>
        ensures { self.new ≡ self.old }
    {
        self.steps.reserve(rows.saturating_mul(2))?;
        self.text.reserve(bytes)
    }

    /// Enters a node.
    #[inline(always)]
    pub fn enter(&mut self, kind: SyntaxKind) -> Result<(), AllocError>
        ensures { OnOk result (self.new ≡ self.old ++ enter kind ∷ []) }
    {
        self.steps.reserve(1)?;
        self.steps.push_reserved(BuilderEvent::Enter(kind));
        Ok(())
    }

    /// A token.
    #[inline(always)]
    pub fn token(&mut self, kind: SyntaxKind, text: &str) -> Result<(), AllocError>
        ensures { OnOk result (self.new ≡ self.old ++ leaf kind text.now ∷ []) }
    {
        self.steps.reserve(1)?;
        self.text.push_str(text)?;
        self.steps
            .push_reserved(BuilderEvent::Token(kind, text.len()));
        Ok(())
    }

    /// Appends the steps of a walk over rows of a table up to the next one with a change. Returns
    /// where it has come to.
    ///
    /// The texts of its tokens are appended at once: each by itself takes a third of the time.
    pub fn push_unchanged(
        &mut self,
        table: &Table,
        changes: &RowChanges,
        next: usize,
        innermost: usize,
    ) -> Result<Reached, AllocError>
        ghost at: { Place → Change }
        requires are_changes { AreChangesOf at table.now changes.now.marks.items
            changes.now.changes.items }
        requires walks { IsWalk table.now 0 next (Some innermost) }
        requires is_node { IsNode (tree_at table.now innermost) }
        requires utf8 { TextsAreUtf8 (cons table.now nil) }
        ensures { IfOk result (λ to.
            IsWalkedOn at table.now self.old self.new 0 next (Some innermost) to.next
            (Some to.innermost)) }
    {
        let kept = self.steps.len();
        let start = offset_of(table, next);
        if let Ok(reached) = push_rows(&mut self.steps, table, changes, next, innermost) {
            let text = &table.text_at(0)[start..reached.end];
            if self.text.push_str(text).is_ok() {
                return Ok(reached);
            }
        }
        // Steps without their texts are taken back.
        self.steps.truncate(kept);
        Err(AllocError)
    }

    /// Leaves the innermost node.
    #[inline(always)]
    pub fn exit(&mut self) -> Result<(), AllocError>
        ensures { OnOk result (self.new ≡ self.old ++ exit ∷ []) }
    {
        self.steps.reserve(1)?;
        self.steps.push_reserved(BuilderEvent::Exit);
        Ok(())
    }

    /// The table of the one tree that the steps are.
    #[inline(never)]
    pub fn finish(self, alloc: Global) -> Result<Table, ChangeError>
        requires { IsOneNode self }
        ensures ok { IfOk result (λ t. events_of (cons t nil) ≡ self) }
        ensures too_long { IsErrOf result TooLong ↔ (2 ^ 32 ≤ text_len self) }
        ensures short { OnOk result (text_len self < 2 ^ 32) }
        ensures only { IfErr result (λ e. (e ≡ TooLong → ⊥) → e ≡ Memory) }
    {
        if self.text.len() > u32::MAX as usize {
            return Err(ChangeError::TooLong);
        }
        match Table::over(alloc, self.text.as_str(), self.steps.as_slice()) {
            Ok(table) => Ok(table),
            Err(_) => Err(ChangeError::Memory),
        }
    }
}
