//! Random sessions of changes of one tree, and of elements of another one that are put in.
use crate::model::{Model, Slot, count, new_rows, print, row_of};
use lossless_tree::{NodeOrToken, SyntaxElement, SyntaxNode};
use plain_trees::PlainTree;
use rand_core::Rng;
use rand_pcg::Pcg32;
use std::alloc::Global;
use std::test::Fail;
use syntax_editor::{ChangeError, Position, SyntaxAnnotation, SyntaxEdit, SyntaxEditor};

const TREE: &str =
    "SOURCE_FILE( FN( :fn :~ NAME( :f ) PARAM_LIST( :( PARAM( IDENT_PAT( NAME( :a ) ) ) :) ) :~ BLOCK_EXPR( STMT_LIST( :{ :} ) ) ) :~ STRUCT( :struct :~ NAME( ) :; ) NAME( NAME( NAME( :deep ) :x ) :y ) )";

const PARTS: &str =
    "NAME( IDENT:one LITERAL( :2 ) LITERAL( ) WHITESPACE:~ TUPLE_EXPR( :( LITERAL( :3 ) :) ) )";

const SLOTS: [Slot; 5] = [
    Slot::Before,
    Slot::Instead,
    Slot::First,
    Slot::Last,
    Slot::After,
];

#[derive(Drop)]
struct Chance {
    numbers: Pcg32,
}

impl Chance {
    fn below(&mut self, n: usize) -> usize {
        let word = self.numbers.next_u32() as usize;
        if n == 0 { 0 } else { word % n }
    }
}

fn position(element: &SyntaxElement, slot: Slot) -> Option<Position> {
    match (slot, element) {
        (Slot::Before, _) => Some(Position::before(element)),
        (Slot::After, _) => Some(Position::after(element)),
        (Slot::First, NodeOrToken::Node(node)) => Some(Position::first_child_of(node)),
        (Slot::Last, NodeOrToken::Node(node)) => Some(Position::last_child_of(node)),
        _ => None,
    }
}

// One change by the editor and by the model; whether it was taken.
fn change(
    alloc: Global,
    chance: &mut Chance,
    editor: &mut SyntaxEditor,
    model: &mut Model,
    root: &SyntaxNode,
    parts: &SyntaxNode,
) -> Result<bool, Fail> {
    let row = chance.below(model.len());
    let slot = *SLOTS.as_slice().get(chance.below(5)).ok_or("a slot")?;
    let element = root.element_at_row(row).ok_or("an element")?;
    let mut elements = Vec::new(alloc);
    let mut printed = String::new(alloc);
    let mut rows = 0;
    for _ in 0..chance.below(3) {
        let part = parts.element_at_row(chance.below(9)).ok_or("a part")?;
        print(alloc, &part, None, &mut printed)?;
        rows += count(&part);
        elements.push(part)?;
    }
    let result = match position(&element, slot) {
        Some(position) => editor.insert_all(position, elements.as_slice()),
        None if slot != Slot::Instead => Err(ChangeError::Token),
        None => match (elements.as_slice().first(), elements.len()) {
            (None, _) => editor.delete(&element),
            (Some(new), 1) => editor.replace(&element, new),
            _ => editor.replace_with_many(&element, elements.as_slice()),
        },
    };
    let expected = model.refusal(row, slot);
    match (result, expected) {
        (Ok(()), None) => {
            model.add(row, slot, printed.as_str(), rows)?;
            Ok(true)
        }
        (Err(error), Some(reason)) if error == reason => Ok(false),
        (result, expected) => {
            Err(Fail::from(format!(in alloc; "row {row}: {result:?}, not {expected:?}")?))
        }
    }
}

// The same for a run of siblings.
fn run_change(
    alloc: Global,
    chance: &mut Chance,
    editor: &mut SyntaxEditor,
    model: &mut Model,
    root: &SyntaxNode,
    parts: &SyntaxNode,
) -> Result<bool, Fail> {
    let first = chance.below(model.len());
    let start = root.element_at_row(first).ok_or("an element")?;
    let mut end = root.element_at_row(first).ok_or("an element")?;
    for _ in 0..chance.below(4) {
        if let Some(next) = end.next_sibling_or_token() {
            end = next;
        }
    }
    if chance.below(6) == 0 {
        end = root
            .element_at_row(chance.below(model.len()))
            .ok_or("an element")?;
    }
    let last = row_of(&end);
    let mut elements = Vec::new(alloc);
    let mut printed = String::new(alloc);
    let mut rows = 0;
    for _ in 0..chance.below(3) {
        let part = parts.element_at_row(chance.below(9)).ok_or("a part")?;
        print(alloc, &part, None, &mut printed)?;
        rows += count(&part);
        elements.push(part)?;
    }
    let result = if elements.is_empty() {
        editor.delete_all(&start, &end)
    } else {
        editor.replace_all(&start, &end, elements.as_slice())
    };
    let run = model.run(alloc, first, last)?;
    let expected = match &run {
        Some(run) => run
            .as_slice()
            .iter()
            .find_map(|row| model.refusal(*row, Slot::Instead)),
        None => Some(ChangeError::NotSiblings),
    };
    match (result, expected, run) {
        (Ok(()), None, Some(run)) => {
            for row in run.as_slice() {
                model.add(*row, Slot::Instead, "", 0)?;
            }
            model.add(first, Slot::Instead, printed.as_str(), rows)?;
            Ok(true)
        }
        (Err(error), Some(reason), _) if error == reason => Ok(false),
        (result, expected, _) => {
            Err(Fail::from(format!(in alloc;
                "rows {first} to {last}: {result:?}, not {expected:?}"
            )?))
        }
    }
}

// An annotated row, and which annotation it has.
#[derive(Clone, Copy)]
struct Marked {
    row: usize,
    which: usize,
}

// Each annotation finds the rows that the model says, in the order of the calls.
fn annotations_are_found(
    alloc: Global,
    edit: &SyntaxEdit,
    annotations: &[SyntaxAnnotation],
    marked: &[Marked],
    places: &[Option<usize>],
) -> Result<usize, Fail> {
    let mapping = edit.mapping(alloc)?;
    let mut sum = 0;
    for (which, annotation) in annotations.iter().enumerate() {
        let mut expected = Vec::new(alloc);
        for mark in marked {
            if mark.which == which
                && let Some(row) = *places.get(mark.row).ok_or("a row")?
            {
                expected.push(row)?;
            }
        }
        let mut found = Vec::new(alloc);
        for element in edit.find_annotation(alloc, *annotation)? {
            found.push(row_of(&element))?;
        }
        let mut again = Vec::new(alloc);
        for element in mapping.find_annotation(alloc, *annotation)? {
            again.push(row_of(&element))?;
        }
        if found.as_slice() != expected.as_slice() || again.as_slice() != expected.as_slice() {
            return Err(Fail::from(format!(in alloc;
                "annotation {which}: {found:?}, not {expected:?}"
            )?));
        }
        sum += expected.len();
    }
    Ok(sum)
}

// The edit of the text makes the new text from the old one, and its inverse the old one from the
// new one; no part of it changes nothing.
fn text_edit_is_the_difference(alloc: Global, edit: &SyntaxEdit) -> Result<(), Fail> {
    let text_edit = edit.text_edit(alloc)?;
    let old = edit.old_root().text().as_str();
    let new = text_edit.apply(alloc, old)?;
    if new.as_str() != edit.new_root().text().as_str() {
        return Err(Fail::from("the edited text is not the new one"));
    }
    let inverse = text_edit.invert(alloc, old)?;
    if inverse.apply(alloc, new.as_str())?.as_str() != old {
        return Err(Fail::from("the inverse does not give the old text"));
    }
    for indel in text_edit.iter() {
        if indel.deleted().is_empty() && indel.inserted().is_empty() {
            return Err(Fail::from("an indel changes nothing"));
        }
    }
    Ok(())
}

// Each element of the old tree is found in the new one where the model says, or not at all.
fn kept_elements_are_found(
    alloc: Global,
    edit: &SyntaxEdit,
    root: &SyntaxNode,
    model: &Model,
) -> Result<Vec<Option<usize>>, Fail> {
    let mut expected = Vec::new(alloc);
    let mut next = 0;
    new_rows(
        &NodeOrToken::Node(root.clone()?),
        model,
        true,
        &mut next,
        &mut expected,
    )?;
    let mapping = edit.mapping(alloc)?;
    for (row, place) in expected.as_slice().iter().enumerate() {
        let old = root.element_at_row(row).ok_or("an element")?;
        let new = mapping.old_to_new(&old);
        let found = new.as_ref().map(row_of);
        let again = match &old {
            NodeOrToken::Node(node) => mapping.old_to_new_node(node).map(|it| it.row()),
            NodeOrToken::Token(token) => mapping.old_to_new_token(token).map(|it| it.row()),
        };
        if found != again {
            return Err(Fail::from(format!(in alloc; "row {row}: {found:?}, then {again:?}")?));
        }
        if found != *place {
            return Err(Fail::from(format!(in alloc; "row {row}: {found:?}, not {place:?}")?));
        }
        if let Some(new) = new
            && new.kind() != old.kind()
        {
            return Err(Fail::from(format!(in alloc; "row {row}: another kind")?));
        }
    }
    Ok(expected)
}

// What the sessions did.
#[derive(Clone, Copy)]
struct Sums {
    taken: usize,
    refused: usize,
    runs: usize,
    found: usize,
}

fn session(alloc: Global, seed: u64, sums: &mut Sums) -> Result<(), Fail> {
    let mut chance = Chance {
        numbers: Pcg32::new(seed, 54),
    };
    let root = PlainTree::read(alloc, TREE)?.build(alloc)?;
    let parts = PlainTree::read(alloc, PARTS)?.build(alloc)?;
    let mut editor = SyntaxEditor::new(alloc, &root)?;
    let mut model = Model::new(alloc, &root)?;
    let mut annotations = Vec::new(alloc);
    for _ in 0..3 {
        annotations.push(editor.new_annotation()?)?;
    }
    let mut marked = Vec::new(alloc);
    for _ in 0..1 + chance.below(50) {
        if chance.below(3) == 0 {
            let row = chance.below(model.len());
            let which = chance.below(2);
            let element = root.element_at_row(row).ok_or("an element")?;
            let annotation = *annotations.as_slice().get(which).ok_or("an annotation")?;
            editor.add_annotation(&element, annotation)?;
            marked.push(Marked { row, which })?;
        }
        let is_run = chance.below(4) == 0;
        let taken = if is_run {
            run_change(alloc, &mut chance, &mut editor, &mut model, &root, &parts)?
        } else {
            change(alloc, &mut chance, &mut editor, &mut model, &root, &parts)?
        };
        if taken {
            sums.taken += 1;
            sums.runs += usize::from(is_run);
        } else {
            sums.refused += 1;
        }
    }
    let edit = editor.finish()?;
    text_edit_is_the_difference(alloc, &edit)?;
    let places = kept_elements_are_found(alloc, &edit, &root, &model)?;
    sums.found += annotations_are_found(
        alloc,
        &edit,
        annotations.as_slice(),
        marked.as_slice(),
        places.as_slice(),
    )?;
    let mut expected = String::new(alloc);
    print(alloc, &NodeOrToken::Node(root), Some(&model), &mut expected)?;
    let mut found = String::new(alloc);
    print(
        alloc,
        &NodeOrToken::Node(edit.new_root().clone()?),
        None,
        &mut found,
    )?;
    if expected.as_str() != found.as_str() {
        return Err(Fail::from(format!(in alloc; "seed {seed}: {found}, not {expected}")?));
    }
    Ok(())
}

#[test]
fn random_sessions_are_as_the_model_says(rt: HostRuntime) -> Result<(), Fail> {
    let mut sums = Sums {
        taken: 0,
        refused: 0,
        runs: 0,
        found: 0,
    };
    for seed in 0..60 {
        session(rt.alloc(), seed, &mut sums)?;
    }
    assert!(rt; sums.taken > 300 && sums.refused > 150);
    assert!(rt; sums.runs > 40 && sums.found > 100);
    Ok(())
}

#[test]
fn a_position_of_another_tree_is_refused(rt: HostRuntime) -> Result<(), Fail> {
    let alloc = rt.alloc();
    let root = PlainTree::read(alloc, TREE)?.build(alloc)?;
    let equal = PlainTree::read(alloc, TREE)?.build(alloc)?;
    let other = PlainTree::read(alloc, PARTS)?.build(alloc)?;
    let mut editor = SyntaxEditor::new(alloc, &root)?;
    let foreign = other.element_at_row(1).ok_or("an element")?;
    assert_eq!(rt; editor.delete(&foreign), Err(ChangeError::OtherTree));
    let twin = equal.element_at_row(1).ok_or("an element")?;
    let last = root.element_at_row(1).ok_or("an element")?;
    let annotation = editor.new_annotation()?;
    assert_eq!(rt;
        editor.replace_all(&foreign, &last, &[]),
        Err(ChangeError::OtherTree)
    );
    assert_eq!(rt;
        editor.delete_all(&last, &foreign),
        Err(ChangeError::OtherTree)
    );
    assert_eq!(rt;
        editor.add_annotation(&foreign, annotation),
        Err(ChangeError::OtherTree)
    );
    assert_eq!(rt; editor.add_annotation(&twin, annotation), Ok(()));
    let unchanged = editor.finish()?;
    assert_eq!(rt; unchanged.new_root().text().as_str(), root.text().as_str());
    assert_eq!(rt; unchanged.find_annotation(alloc, annotation)?.len(), 1);
    let mut editor = SyntaxEditor::new(alloc, &root)?;
    assert_eq!(rt; editor.delete(&twin), Ok(()));
    Ok(())
}

#[test]
fn annotations_of_an_editor_differ(rt: HostRuntime) -> Result<(), Fail> {
    let alloc = rt.alloc();
    let root = PlainTree::read(alloc, TREE)?.build(alloc)?;
    let mut editor = SyntaxEditor::new(alloc, &root)?;
    let first = editor.new_annotation()?;
    let second = editor.new_annotation()?;
    assert!(rt; first != second);
    let element = root.element_at_row(2).ok_or("an element")?;
    editor.add_annotation(&element, second)?;
    editor.add_annotation(&element, second)?;
    let edit = editor.finish()?;
    assert_eq!(rt; edit.find_annotation(alloc, first)?.len(), 0);
    assert_eq!(rt; edit.find_annotation(alloc, second)?.len(), 2);
    Ok(())
}
