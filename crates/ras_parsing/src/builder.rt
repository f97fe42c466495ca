//! From events and errors to a parse.
ghost use Rattle.std.specs.Prelude.{◌≡◌, [], ◌∷◌, ◌++◌, OnOk, OnErr, IfOk, IfErr, None, string_bytes};
ghost use Rattle.std.specs.List.{list_any};
ghost use Rattle.tree_model.specs.Events.{enter, leaf, exit, BuildsNode, refusal_of};
ghost use Rattle.tree_model.specs.Cursor.{IsRoot};
ghost use Rattle.ras_front_end.specs.ErrorModel.{fault_at};
ghost use Rattle.ras_front_end.specs.Parsed.{ErrorsLieIn};
ghost use Rattle.ras_parsing.specs.Draft.{is_past, draft_refusal, IsAcceptedDraft, IsFirstDraftRefusal};

use crate::build::Built;
use crate::parse::Parse;
use lossless_tree::{FinishError, SyntaxNode, TreeBuilder};
use ras_front_end::SyntaxError;
use std::alloc::{AllocError, Global};
use std::marker::Model;
use syntax_kind::SyntaxKind;
use text_size::TextSize;

/// Builds a parse: a tree by the calls of `TreeBuilder`, and errors. A clause sees the list of
/// events and that of errors.
///
/// A call that fails leaves the builder unchanged.
#[derive(Drop)]
pub struct SyntaxTreeBuilder {
    alloc: Global,
    tree: TreeBuilder,
    errors: Vec<SyntaxError>,
}

impl Model for SyntaxTreeBuilder {
    ghost use Rattle.ras_parsing.specs.Draft.{Draft, draft_code, AllForwards};

    ghost Value = { Draft };

    ghost coded = { draft_code };

    ghost view = { λ b. record { events = b.tree; faults = b.errors.items } };

    ghost invariant = { λ b. AllForwards b.errors.items };
}

impl SyntaxTreeBuilder {
    /// A builder without events and errors. It takes no memory yet.
    pub fn new(alloc: Global) -> Self
        ensures { result ≡ record { events = []; faults = [] } }
    {
        SyntaxTreeBuilder {
            alloc,
            tree: TreeBuilder::new(alloc),
            errors: Vec::new(alloc),
        }
    }

    /// Enters a node.
    pub fn start_node(&mut self, kind: SyntaxKind) -> Result<(), AllocError>
        ensures ok { OnOk result (self.new
            ≡ record
            { events = self.old.events ++ enter kind ∷ []; faults = self.old.faults }) }
        ensures err { OnErr result (self.new ≡ self.old) }
    {
        self.tree.start_node(kind)
    }

    /// A token; its text may be empty.
    pub fn token(&mut self, kind: SyntaxKind, text: &str) -> Result<(), AllocError>
        ensures ok { OnOk result (self.new
            ≡ record {
              events = self.old.events ++ leaf kind text.now ∷ [];
              faults = self.old.faults;
            }) }
        ensures err { OnErr result (self.new ≡ self.old) }
    {
        self.tree.token(kind, text)
    }

    /// Leaves the node that was entered last and is still open.
    pub fn finish_node(&mut self) -> Result<(), AllocError>
        ensures ok { OnOk result (self.new
            ≡ record { events = self.old.events ++ exit ∷ []; faults = self.old.faults }) }
        ensures err { OnErr result (self.new ≡ self.old) }
    {
        self.tree.finish_node()
    }

    /// Adds an error at a position of the text, in bytes from its start. Errors keep the order of
    /// these calls; their position among the events does not matter. `finish` fails if a position
    /// is past the end of the text.
    pub fn error(&mut self, message: String, position: TextSize) -> Result<(), AllocError>
        ensures ok { OnOk result (self.new
            ≡ record {
              events = self.old.events;
              faults = self.old.faults ++ fault_at (string_bytes message) position
                  ∷ [];
            }) }
        ensures err { OnErr result (self.new ≡ self.old) }
    {
        self.errors
            .push(SyntaxError::new_at_offset(message, position))?;
        Ok(())
    }

    /// The parse, or the first error in the order of [`FinishError`]: those of the events, then
    /// `ErrorPastText` if the position of an error is after the end of the text, then `Memory`. The
    /// builder is dropped in each case. All errors except `Memory` are found without allocating, so
    /// they are also returned if no memory is left.
    #[tactic(auto, using(crate::proofs::DraftRefusals::draft_refusal_is, crate::proofs::DraftRefusals::draft_accepted))]
    pub fn finish(self) -> Result<Parse<SyntaxNode>, FinishError>
        ensures ok { IfOk result (λ p. BuildsNode self.events p.tree × (p.errors ≡ self.faults)) }
        ensures in_text { IfOk result ErrorsLieIn }
        ensures accepted { OnOk result (IsAcceptedDraft self) }
        ensures refused { IfErr result (IsFirstDraftRefusal self) }
    {
        let alloc = self.alloc;
        let built = self.finish_raw()?;
        match Parse::from_parts(alloc, built.root, built.errors) {
            Ok(parse) => Ok(parse),
            Err(_) => Err(FinishError::Memory),
        }
    }

    // The root and the errors.
    #[tactic(auto, using(tree_model::proofs::Refusals::is_first_refusal, tree_model::proofs::Refusals::accepted_none))]
    fn finish_raw(self) -> Result<Built, FinishError>
        ensures ok { IfOk result (λ b. IsRoot b.root × BuildsNode self.events b.root.tree
            × (b.errors.items ≡ self.faults)) }
        ensures in_text { IfOk result
            (λ b. ErrorsLieIn (record { tree = b.root.tree; errors = b.errors.items })) }
        ensures accepted { OnOk result (draft_refusal self ≡ None) }
        ensures refused { IfErr result (λ e. refusal_of e ≡ draft_refusal self) }
    {
        let SyntaxTreeBuilder {
            alloc: _,
            tree,
            errors,
        } = self;
        if let Some(refusal) = tree.refusal() {
            return Err(refusal);
        }
        if has_error_past(errors.as_slice(), tree.text_len()) {
            return Err(FinishError::ErrorPastText);
        }
        let root = tree.finish()?;
        Ok(Built { root, errors })
    }
}

// Whether an error ends past a text of that many bytes.
fn has_error_past(errors: &[SyntaxError], len: usize) -> bool
    ensures { result ≡ list_any (is_past len) errors.now }
{
    for error in errors {
        if len < error.range().end().raw() as usize {
            return true;
        }
    }
    false
}
