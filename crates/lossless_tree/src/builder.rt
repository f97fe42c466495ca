//! Builds trees from events.
ghost use Rattle.std.specs.Prelude.{◌≡◌, [], ◌∷◌, ◌++◌, OnOk, OnErr, IfOk, IfErr, None};
ghost use Rattle.tree_model.specs.Events.{enter, leaf, exit, BuildsNode, IsAccepted, IsFirstRefusal, first_refusal, refusal_of, text_len};
ghost use Rattle.tree_model.specs.Cursor.{IsRoot};

use crate::cursor::node::SyntaxNode;
use std::alloc::{AllocError, Global};
use std::marker::Model;
use syntax_kind::SyntaxKind;
use tree_model::FinishError;
use tree_rows::{BuilderEvent, Table, build_rows, first_refusal};

/// Builds a tree from events: a node starts, its tokens and nodes are added, the node is finished.
///
/// The three calls that append an event accept any event in any order. They fail only if memory
/// runs out, and the builder is then unchanged. `finish` checks that the events build one tree. The
/// calls have the names of those of `GreenNodeBuilder` in the crate `rowan`. In clauses, a builder
/// is its list of events.
///
/// ```text
/// let mut builder = TreeBuilder::new(alloc);
/// builder.start_node(SyntaxKind::NAME)?;
/// builder.token(SyntaxKind::IDENT, "foo")?;
/// builder.finish_node()?;
/// let root = builder.finish()?;
/// ```
#[derive(Drop)]
pub struct TreeBuilder {
    alloc: Global,
    steps: Vec<BuilderEvent>,
    text: String,
}

impl Model for TreeBuilder {
    ghost use Rattle.std.specs.Prelude.{List, string_bytes};
    ghost use Rattle.std.specs.Coded.{coded_list};
    ghost use Rattle.tree_model.specs.Events.{Event};
    ghost use Rattle.tree_model.specs.TreeCode.{event_code};
    ghost use Rattle.tree_rows.specs.Builder.{events_from, TextsFit};

    ghost Value = { List Event };

    ghost coded = { coded_list event_code };

    ghost view = { λ a. events_from a.steps.items (string_bytes a.text) };

    ghost invariant = { λ a. TextsFit a.steps.items (string_bytes a.text) };
}

impl TreeBuilder {
    /// A builder without events. It takes no memory yet.
    pub fn new(alloc: Global) -> Self
        ensures { result ≡ [] }
    {
        TreeBuilder {
            alloc,
            steps: Vec::new(alloc),
            text: String::new(alloc),
        }
    }

    /// Enters a node: what comes up to the matching `finish_node` is inside it.
    pub fn start_node(&mut self, kind: SyntaxKind) -> Result<(), AllocError>
        ensures ok { OnOk result (self.new ≡ self.old ++ enter kind ∷ []) }
        ensures err { OnErr result (self.new ≡ self.old) }
    {
        self.steps.push(BuilderEvent::Enter(kind))?;
        Ok(())
    }

    /// A token; its text may be empty.
    pub fn token(&mut self, kind: SyntaxKind, text: &str) -> Result<(), AllocError>
        ensures ok { OnOk result (self.new ≡ self.old ++ leaf kind text.now ∷ []) }
        ensures err { OnErr result (self.new ≡ self.old) }
    {
        self.steps.reserve(1)?;
        self.text.push_str(text)?;
        self.steps.push(BuilderEvent::Token(kind, text.len()))?;
        Ok(())
    }

    /// Leaves the node that was entered last and is still open.
    pub fn finish_node(&mut self) -> Result<(), AllocError>
        ensures ok { OnOk result (self.new ≡ self.old ++ exit ∷ []) }
        ensures err { OnErr result (self.new ≡ self.old) }
    {
        self.steps.push(BuilderEvent::Exit)?;
        Ok(())
    }

    /// The length of all tokens so far, in bytes. Takes constant time.
    pub fn text_len(&self) -> usize
        ensures { result ≡ text_len self.now }
    {
        self.text.as_str().len()
    }

    /// The error that [`TreeBuilder::finish`] would return now, other than `Memory`, or `None` if
    /// the events build a tree. It takes no memory, and time linear in the number of events.
    pub fn refusal(&self) -> Option<FinishError>
        ensures { result ≡ first_refusal self.now }
    {
        if self.text.as_str().len() > u32::MAX as usize {
            return Some(FinishError::TooLong);
        }
        first_refusal(self.steps.as_slice())
    }

    /// The root of the tree that the events build, in time linear in the number of events.
    ///
    /// If the events do not build one tree, returns the first error, in the order of
    /// [`FinishError`], and the builder is dropped. The text is not copied.
    #[tactic(auto, using(tree_model::proofs::Refusals::first_refusal_is, tree_model::proofs::Refusals::none_accepted))]
    pub fn finish(self) -> Result<SyntaxNode, FinishError>
        ensures ok { IfOk result (λ root. BuildsNode self root.tree × IsRoot root) }
        ensures accepted { OnOk result (IsAccepted self) }
        ensures refused { IfErr result (IsFirstRefusal self) }
    {
        let alloc = self.alloc;
        let table = self.build()?;
        SyntaxNode::root(alloc, table).map_err(|_| FinishError::Memory)
    }

    // The table of the tree.
    fn build(self) -> Result<Table, FinishError>
        ensures ok { IfOk result (BuildsNode self) }
        ensures accepted { OnOk result (first_refusal self ≡ None) }
        ensures refused { IfErr result (λ e. refusal_of e ≡ first_refusal self) }
    {
        let TreeBuilder { alloc, steps, text } = self;
        if text.len() > u32::MAX as usize {
            return Err(FinishError::TooLong);
        }
        match first_refusal(steps.as_slice()) {
            Some(refusal) => Err(refusal),
            None => match build_rows(alloc, steps.as_slice()) {
                Ok(rows) => Ok(Table::from_parts(text, rows)),
                Err(_) => Err(FinishError::Memory),
            },
        }
    }
}
