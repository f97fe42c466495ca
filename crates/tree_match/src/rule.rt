//! Rules: a pattern, and the template that replaces what it matches.
ghost use Rattle.std.specs.Prelude.{◌≡◌, [], ◌∷◌, ◌++◌, IfOk, OnOk, OnErr, length, map, option_map, slice_get};
ghost use Rattle.ras_node.specs.Nodes.{kind_at};
ghost use Rattle.tree_match.specs.Matching.{comments_by, sort_in, sort_by, is_expr_by};

use crate::bare::Comments;
use crate::compile::{compile, is_hole, misplaced};
use crate::condition::Hole;
use crate::part::{Part, Sort};
use lossless_tree::{SyntaxKind, SyntaxNode};
use ras_node::sets::{Exprs, KindSet};
use std::alloc::{AllocError, Global};

/// A piece of a template's text.
#[derive(Drop)]
pub enum Piece {
    /// A text between placeholders.
    Text(String),
    /// The placeholder with this number.
    Hole(usize),
    /// The comma before or behind a placeholder for a list, which goes where the one with this
    /// number has no elements.
    Comma(String, usize),
}

/// What a rule is for one kind of syntax, as for expressions: its pattern and its template.
#[derive(Drop)]
pub struct Form {
    pub(crate) kind: SyntaxKind,
    pub(crate) inside: Vec<Part>,
    pub(crate) template: Vec<Part>,
}

/// A pattern, and the template of what it matches, for each kind of syntax that both are. A pattern
/// without a template is searched for only.
#[derive(Drop)]
pub struct Rule {
    pub(crate) forms: Vec<Form>,
    pub(crate) holes: Vec<Hole>,
    pub(crate) pieces: Vec<Piece>,
}

/// Why a node is no pattern or template.
#[derive(Clone, Copy, Debug, PartialEq, Eq, Drop, thiserror::Error)]
pub enum RuleRefusal {
    /// The pattern is a placeholder, which each expression is.
    #[error("the pattern is only a placeholder")]
    Everything,
    /// The placeholder with this number stands where nothing of a sort can.
    #[error("a placeholder stands where nothing is that it can stand for")]
    Misplaced(usize),
    /// The placeholder with this number for a list comes twice, or beside another one in one list.
    #[error("a placeholder for a list comes twice, or two stand in one list")]
    Twice(usize),
    /// Out of memory.
    #[error("out of memory")]
    Memory,
}

impl From<AllocError> for RuleRefusal {
    ghost use Rattle.std.specs.Prelude.{◌≡◌};
    ghost use Rattle.tree_match.specs.declared.rule.RuleRefusal.TheVariants.{Memory};

    ghost from_gives = { λ _ r. r ≡ Memory };

    fn from(_error: AllocError) -> RuleRefusal {
        RuleRefusal::Memory
    }
}

// Refuses parts in which a placeholder stands where nothing of a sort can.
fn check_places(parts: &[Part], prefix: &str) -> Result<(), RuleRefusal> {
    match misplaced(parts, prefix) {
        None => Ok(()),
        Some(number) => Err(RuleRefusal::Misplaced(number)),
    }
}

impl Form {
    // The form of a pattern's node, and of its template's if it has one.
    fn of(
        alloc: Global,
        prefix: &str,
        holes: &[Hole],
        pattern: &SyntaxNode,
        template: Option<&SyntaxNode>,
    ) -> Result<Form, RuleRefusal>
        ensures { IfOk result (λ f. f.kind ≡ kind_at pattern.now) }
    {
        if is_hole(pattern, prefix) {
            return Err(RuleRefusal::Everything);
        }
        let compiled = compile(alloc, prefix, holes, pattern, template)?;
        check_places(&compiled.inside, prefix)?;
        check_places(&compiled.template, prefix)?;
        Ok(Form {
            kind: pattern.kind(),
            inside: compiled.inside,
            template: compiled.template,
        })
    }

    /// Whether comments between the tokens of a match do not count: they would be lost where the
    /// match is replaced.
    pub(crate) fn comments(&self) -> Comments
        ensures { result ≡ comments_by self.now.template.items }
    {
        if self.template.is_empty() {
            Comments::Passed
        } else {
            Comments::Kept
        }
    }

    // What the placeholder with a number stands for in the template.
    fn sort(&self, number: usize) -> Option<Sort>
        ensures { result ≡ sort_in number self.now.template.items }
    {
        for part in &self.template {
            match part {
                Part::Hole(other, sort) if *other == number => return Some(*sort),
                Part::List(other, ..) if *other == number => return Some(Sort::List),
                _ => {}
            }
        }
        None
    }
}

impl Rule {
    /// A rule without a form, which matches nothing yet: its placeholders, and the pieces of its
    /// template's text.
    pub fn new(alloc: Global, holes: Vec<Hole>, pieces: Vec<Piece>) -> Rule
        ensures forms { result.forms.items ≡ [] }
        ensures holes { result.holes.items ≡ holes.items }
        ensures pieces { result.pieces.items ≡ pieces.items }
    {
        Rule {
            forms: Vec::new(alloc),
            holes,
            pieces,
        }
    }

    /// Adds what the rule is for a further kind of syntax: the node of its pattern, and of its
    /// template if it has one. In them a word that is `prefix` and the number of a placeholder
    /// stands for the placeholder: any expression, type, pattern or path where the word is one, and
    /// a word where it is a name, or where it is of one kind here and of another one there.
    ///
    /// # Errors
    ///
    /// `Everything` if the pattern is such a word; `Misplaced` if one stands elsewhere, as in the
    /// arguments of a macro; `Twice` if one for a list comes twice, or beside another one in one
    /// list; `Memory`. The rule is then as before.
    #[tactic(auto, using(crate::proofs::ConditionLemmas::one_form_more))]
    pub fn add(
        &mut self,
        alloc: Global,
        prefix: &str,
        pattern: &SyntaxNode,
        template: Option<&SyntaxNode>,
    ) -> Result<(), RuleRefusal>
        ensures forms { OnOk result (map (λ f. f.kind) self.new.forms.items
            ≡ map (λ f. f.kind) self.old.forms.items ++ kind_at pattern.now ∷ []) }
        ensures kept { OnErr result (self.new.forms.items ≡ self.old.forms.items) }
        ensures holes { self.new.holes.items ≡ self.old.holes.items }
        ensures pieces { self.new.pieces.items ≡ self.old.pieces.items }
    {
        let form = Form::of(alloc, prefix, &self.holes, pattern, template)?;
        self.forms.push(form).map_err(AllocError::from)?;
        Ok(())
    }

    /// How many kinds of syntax the rule is for.
    pub fn forms(&self) -> usize
        ensures { result ≡ length self.now.forms.items }
    {
        self.forms.len()
    }

    // A form of the rule.
    pub(crate) fn form(&self, number: usize) -> Option<&Form>
        ensures { option_map (λ f. f.now) result ≡ slice_get self.now.forms.items number }
    {
        self.forms.get(number)
    }

    /// Whether a form of the rule is that of expressions.
    #[tactic(auto, using(crate::proofs::ConditionLemmas::no_expr, crate::proofs::ConditionLemmas::some_expr))]
    pub fn is_expr(&self, form: usize) -> bool
        ensures { result ≡ is_expr_by (slice_get self.now.forms.items form) }
    {
        match self.form(form) {
            None => false,
            Some(form) => Exprs::has(form.kind),
        }
    }

    /// What the placeholder with a number stands for in the template of a form; `None` if it is not
    /// in it.
    #[tactic(auto, using(crate::proofs::ConditionLemmas::no_sort, crate::proofs::ConditionLemmas::some_sort))]
    pub fn sort(&self, form: usize, number: usize) -> Option<Sort>
        ensures { result ≡ sort_by (slice_get self.now.forms.items form) number }
    {
        match self.form(form) {
            None => None,
            Some(form) => form.sort(number),
        }
    }

    /// The pieces of the template's text; none if there is no template.
    pub fn pieces(&self) -> &[Piece]
        ensures { result.now ≡ self.now.pieces.items }
    {
        &self.pieces
    }
}
