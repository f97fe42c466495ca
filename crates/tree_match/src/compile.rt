//! The parts of a pattern and its template, from the trees of their texts.

use crate::bare::Comments;
use crate::condition::Hole;
use crate::fit::fit_lists;
use crate::part::{Comma, Part, Sort};
use crate::rule::RuleRefusal;
use crate::run::Run;
use crate::walk::{Seen, Walk};
use lossless_tree::{SyntaxKind, SyntaxNode};
use rust_kinds::kinds;
use std::alloc::{AllocError, Global};

/// The parts of a pattern's node, without itself, and of its template's.
#[derive(Drop)]
pub(crate) struct Compiled {
    pub(crate) inside: Vec<Part>,
    pub(crate) template: Vec<Part>,
}

// What says which words are placeholders.
#[derive(Drop)]
struct Words<'a> {
    prefix: &'a str,
    holes: &'a [Hole],
    // Which of them are words wherever they stand.
    only_words: &'a [bool],
}

// The number of the placeholder that a word stands for: digits behind the prefix.
fn number_in(word: &str, prefix: &str) -> Option<usize> {
    word.strip_prefix(prefix)?.parse::<usize>().ok()
}

// What a node that is a word alone can stand for.
fn sort_of(kind: SyntaxKind) -> Option<Sort> {
    match kind {
        SyntaxKind::PATH_EXPR => Some(Sort::Expr),
        SyntaxKind::PATH_TYPE => Some(Sort::Ty),
        SyntaxKind::IDENT_PAT => Some(Sort::Pat),
        SyntaxKind::PATH => Some(Sort::Path),
        _ => None,
    }
}

// Whether a node of this kind has a list of nodes.
fn has_list(kind: SyntaxKind) -> bool {
    matches!(
        kind,
        SyntaxKind::ARG_LIST
            | SyntaxKind::ARRAY_EXPR
            | SyntaxKind::ASSOC_ITEM_LIST
            | SyntaxKind::EXTERN_ITEM_LIST
            | SyntaxKind::GENERIC_ARG_LIST
            | SyntaxKind::GENERIC_PARAM_LIST
            | SyntaxKind::ITEM_LIST
            | SyntaxKind::MATCH_ARM_LIST
            | SyntaxKind::PARAM_LIST
            | kinds::PARENTHESIZED_ARG_LIST
            | kinds::RECORD_EXPR_FIELD_LIST
            | SyntaxKind::RECORD_FIELD_LIST
            | kinds::RECORD_PAT_FIELD_LIST
            | SyntaxKind::SLICE_PAT
            | SyntaxKind::STMT_LIST
            | SyntaxKind::TUPLE_EXPR
            | SyntaxKind::TUPLE_FIELD_LIST
            | SyntaxKind::TUPLE_PAT
            | SyntaxKind::TUPLE_STRUCT_PAT
            | SyntaxKind::TUPLE_TYPE
            | SyntaxKind::USE_TREE_LIST
            | kinds::VARIANT_LIST
    )
}

/// What makes an arm of a `match` of a word: `p_0=>()`.
pub const ARM: &str = "=>()";

// The word of an element of a list that is a word alone, or an arm of it, also with the sign that
// ends it.
fn word_of(element: &str) -> &str {
    let word = match element.strip_suffix(';') {
        Some(word) => word,
        None => element.strip_suffix(',').unwrap_or(element),
    };
    word.strip_suffix(ARM).unwrap_or(word)
}

// The innermost of some kinds of nodes.
fn innermost(around: &[SyntaxKind]) -> SyntaxKind {
    match around.last() {
        Some(kind) => *kind,
        None => SyntaxKind::OTHER(0),
    }
}

/// Whether a node is a placeholder.
pub(crate) fn is_hole(node: &SyntaxNode, prefix: &str) -> bool {
    sort_of(node.kind()).is_some() && number_in(node.as_str(), prefix).is_some()
}

impl<'a> Words<'a> {
    // Whether a placeholder is one for a list.
    fn is_list(&self, number: usize) -> bool {
        match self.holes.get(number) {
            Some(hole) => hole.is_list,
            None => false,
        }
    }

    // The placeholder that a node is, with what it can stand for.
    fn hole_at(&self, kind: SyntaxKind, text: &str) -> Option<(usize, Sort)> {
        let sort = sort_of(kind)?;
        let number = number_in(text, self.prefix)?;
        if self.is_list(number) || matches!(self.only_words.get(number), Some(true)) {
            return None;
        }
        Some((number, sort))
    }

    // The placeholder for a list that is next in a walk of the children of a node of a kind; passes
    // over it.
    fn next_list(&self, walk: &mut Walk<'_>, parent: SyntaxKind) -> Option<usize> {
        let (_, text) = walk.peek()?;
        let number = number_in(word_of(text), self.prefix)?;
        if !self.is_list(number) || !has_list(parent) {
            return None;
        }
        walk.pass();
        Some(number)
    }

    // The placeholder that is next in a walk, with what it can stand for; passes over it.
    fn next_hole(&self, walk: &mut Walk<'_>) -> Option<(usize, Sort)> {
        let (kind, text) = walk.peek()?;
        let hole = self.hole_at(kind, text)?;
        walk.pass();
        Some(hole)
    }

    // The placeholder of a token behind some parts, if it is that of a name.
    fn word_at(&self, before: Option<&Part>, text: &str) -> Option<usize> {
        let Some(Part::Enter(SyntaxKind::NAME | SyntaxKind::NAME_REF)) = before else {
            return None;
        };
        let number = number_in(text, self.prefix)?;
        if self.is_list(number) {
            None
        } else {
            Some(number)
        }
    }

    // The part of a token behind some parts: a word if it is that of a name.
    fn token(
        &self,
        alloc: Global,
        before: Option<&Part>,
        kind: SyntaxKind,
        text: &str,
    ) -> Result<Part, AllocError> {
        match self.word_at(before, text) {
            Some(number) => Ok(Part::Hole(number, Sort::Word)),
            None => Ok(Part::Token(kind, String::from_str(alloc, text)?)),
        }
    }

    // The placeholder that is next in a walk of the children of a node of a kind, one for a list or
    // another; passes over it.
    fn next_placeholder(&self, walk: &mut Walk<'_>, parent: SyntaxKind) -> Option<Part> {
        if let Some(number) = self.next_list(walk, parent) {
            return Some(Part::List(number, Comma::Nowhere, 0));
        }
        let (number, sort) = self.next_hole(walk)?;
        Some(Part::Hole(number, sort))
    }

    // The part of a step, in a node in others of some kinds, the innermost last; `None` at the end.
    fn part_of(
        &self,
        alloc: Global,
        step: Seen<'_>,
        around: &mut Vec<SyntaxKind>,
        before: Option<&Part>,
    ) -> Result<Option<Part>, AllocError> {
        match step {
            Seen::Enter(kind) => {
                around.push(kind)?;
                Ok(Some(Part::Enter(kind)))
            }
            Seen::Leave => {
                around.pop();
                Ok(Some(Part::Leave))
            }
            Seen::Token(kind, text) => Ok(Some(self.token(alloc, before, kind, text)?)),
            Seen::End => Ok(None),
        }
    }

    // The part that is next in a walk, behind some parts; passes over it. `None` at the end.
    fn next_part(
        &self,
        alloc: Global,
        walk: &mut Walk<'_>,
        around: &mut Vec<SyntaxKind>,
        before: Option<&Part>,
    ) -> Result<Option<Part>, AllocError> {
        match self.next_placeholder(walk, innermost(around)) {
            Some(placeholder) => Ok(Some(placeholder)),
            None => self.part_of(alloc, walk.next()?, around, before),
        }
    }

    // Adds the part that is next in a walk, and passes over it. Returns false at the end.
    fn push_next(
        &self,
        alloc: Global,
        walk: &mut Walk<'_>,
        around: &mut Vec<SyntaxKind>,
        parts: &mut Vec<Part>,
    ) -> Result<bool, AllocError> {
        match self.next_part(alloc, walk, around, parts.last())? {
            Some(part) => {
                parts.push(part)?;
                Ok(true)
            }
            None => Ok(false),
        }
    }

    // Adds the parts that are left in a walk.
    fn push_all(
        &self,
        alloc: Global,
        walk: &mut Walk<'_>,
        around: &mut Vec<SyntaxKind>,
        parts: &mut Vec<Part>,
    ) -> Result<(), AllocError> {
        // Each turn takes a step, until memory runs out.
        for _turn in 0..u64::MAX {
            if !self.push_next(alloc, walk, around, parts)? {
                return Ok(());
            }
        }
        Ok(())
    }

    // Adds the parts of a node's children, up to its end.
    fn push_inside(
        &self,
        alloc: Global,
        node: &SyntaxNode,
        parts: &mut Vec<Part>,
    ) -> Result<(), AllocError> {
        let mut walk = Walk::new(alloc, Comments::Passed, &Run::of(node.trees()));
        let mut around = Vec::new(alloc);
        around.push(node.kind())?;
        self.push_all(alloc, &mut walk, &mut around, parts)
    }

    // Adds the parts of a node, itself included.
    fn push_node(
        &self,
        alloc: Global,
        node: &SyntaxNode,
        parts: &mut Vec<Part>,
    ) -> Result<(), AllocError> {
        if let Some((number, sort)) = self.hole_at(node.kind(), node.as_str()) {
            parts.push(Part::Hole(number, sort))?;
            return Ok(());
        }
        parts.push(Part::Enter(node.kind()))?;
        self.push_inside(alloc, node, parts)
    }

    // The parts of a pattern's node, without itself.
    fn pattern_parts(&self, alloc: Global, node: &SyntaxNode) -> Result<Vec<Part>, RuleRefusal> {
        let mut parts = Vec::new(alloc);
        self.push_inside(alloc, node, &mut parts)?;
        fit_lists(alloc, &mut parts)?;
        Ok(parts)
    }

    // The parts of a template's node; none if there is none.
    fn template_parts(
        &self,
        alloc: Global,
        node: Option<&SyntaxNode>,
    ) -> Result<Vec<Part>, RuleRefusal> {
        let mut parts = Vec::new(alloc);
        if let Some(node) = node {
            self.push_node(alloc, node, &mut parts)?;
            fit_lists(alloc, &mut parts)?;
        }
        Ok(parts)
    }

    // The parts of a pattern and of its template.
    fn compiled(
        &self,
        alloc: Global,
        pattern: &SyntaxNode,
        template: Option<&SyntaxNode>,
    ) -> Result<Compiled, RuleRefusal> {
        let inside = self.pattern_parts(alloc, pattern)?;
        let template = self.template_parts(alloc, template)?;
        Ok(Compiled { inside, template })
    }
}

// Notes the sort of a placeholder in a part; marks it if it stood for another one before.
fn mark_word(number: usize, sort: Sort, sorts: &mut [Option<Sort>], only_words: &mut [bool]) {
    let (Some(known), Some(mark)) = (sorts.get_mut(number), only_words.get_mut(number)) else {
        return;
    };
    match known {
        Some(other) if *other != sort => *mark = true,
        _ => {}
    }
    *known = Some(sort);
}

// Marks the placeholders that stand for one sort in a part and for another one in an earlier part.
fn mark_words(parts: &[Part], sorts: &mut [Option<Sort>], only_words: &mut [bool]) {
    for part in parts {
        if let Part::Hole(number, sort) = part {
            mark_word(*number, *sort, sorts, only_words);
        }
    }
}

// Of so many placeholders, marks those that stand for one sort here and for another one there.
fn only_words(alloc: Global, count: usize, parts: &Compiled) -> Result<Vec<bool>, AllocError> {
    let mut sorts = vec![in alloc; None; count]?;
    let mut marks = vec![in alloc; false; count]?;
    mark_words(&parts.inside, &mut sorts, &mut marks);
    mark_words(&parts.template, &mut sorts, &mut marks);
    Ok(marks)
}

/// The parts of a pattern and of its template, in which words of the prefix and the number of a
/// placeholder stand for it. One that is of one sort here and of another one there is a word
/// everywhere: the `$f` of `fn $f() { $f() }`.
pub(crate) fn compile(
    alloc: Global,
    prefix: &str,
    holes: &[Hole],
    pattern: &SyntaxNode,
    template: Option<&SyntaxNode>,
) -> Result<Compiled, RuleRefusal> {
    let first = Words {
        prefix,
        holes,
        only_words: &[],
    }
    .compiled(alloc, pattern, template)?;
    let only_words = only_words(alloc, holes.len(), &first)?;
    if !only_words.contains(&true) {
        return Ok(first);
    }
    Words {
        prefix,
        holes,
        only_words: &only_words,
    }
    .compiled(alloc, pattern, template)
}

// The placeholder of a token that is one in a place of nothing that it can stand for.
fn misplaced_in(part: &Part, prefix: &str) -> Option<usize> {
    match part {
        Part::Token(_, text) => number_in(text.as_str(), prefix),
        _ => None,
    }
}

/// The first placeholder that stands where nothing is that it can stand for.
pub(crate) fn misplaced(parts: &[Part], prefix: &str) -> Option<usize> {
    for part in parts {
        if let Some(number) = misplaced_in(part, prefix) {
            return Some(number);
        }
    }
    None
}
