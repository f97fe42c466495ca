//! Builds a tree over a complete text.
ghost use Rattle.std.specs.Prelude.{◌≡◌, ◌<◌, ◌^◌, List, length, filter_map, IfOk};
ghost use Rattle.tree_model.specs.Events.{BuildsNode};
ghost use Rattle.tree_model.specs.Cursor.{IsRoot};
ghost use Rattle.tree_rows.specs.declared.builder_event.BuilderEvent.{BuilderEvent};
ghost use Rattle.tree_rows.specs.Builder.{events_from, IsOneTree};
ghost use Rattle.tree_rows.specs.Making.{run, nothing_made, MadeOf};

use crate::cursor::node::SyntaxNode;
use std::alloc::{AllocError, Global};
use tree_rows::{RowBuilder, Table, TreeStep};

/// Builds a tree from steps over a text: each token takes the bytes that follow those of the tokens
/// before it.
///
/// It is the tree that a [`TreeBuilder`](crate::TreeBuilder) builds from the same events, made in
/// one pass: no list of events is made, and the text is copied once. The steps are not checked,
/// since the caller has proved that they build one tree. Takes time linear in the steps and the
/// text.
pub fn tree_over<S: TreeStep>(
    alloc: Global,
    text: &str,
    steps: &[S],
) -> Result<SyntaxNode, AllocError>
    requires short { length text.now < 2 ^ 32 }
    requires one_tree { IsOneTree (filter_map S.step_event steps.now) text.now }
    ensures { IfOk result (λ root.
        BuildsNode (events_from (filter_map S.step_event steps.now) text.now) root.tree
        × IsRoot root) }
{
    let table = Table::over(alloc, text, steps)?;
    SyntaxNode::root(alloc, table)
}

/// Builds a tree over a text by the rows that were made of its steps as they came.
///
/// It is the tree that [`tree_over`] builds of the same steps. Takes time linear in the text.
pub fn tree_of_rows(alloc: Global, text: &str, rows: RowBuilder) -> Result<SyntaxNode, AllocError>
    requires short { length text.now < 2 ^ 32 }
    requires made { MadeOf text.now rows }
    ensures { IfOk result (λ root. (steps : List BuilderEvent)
        → run steps nothing_made ≡ rows → IsOneTree steps text.now
        → BuildsNode (events_from steps text.now) root.tree × IsRoot root) }
{
    let table = rows.table(alloc, text)?;
    let root = SyntaxNode::root(alloc, table)?;
    Ok(root)
}
