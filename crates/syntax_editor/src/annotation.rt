//! Annotations of elements.
ghost use Rattle.std.specs.Prelude.{◌≡◌, ◌↔◌, IsTrue};
ghost use Rattle.syntax_editor.specs.Spot.{cursor_of_spot};

use crate::position::Place;
use std::marker::Model;

/// A mark for elements of a tree that is changed, by which they are found in the new one.
/// [`SyntaxEditor::new_annotation`] makes it, and no other of that editor equals it.
///
/// [`SyntaxEditor::new_annotation`]: crate::SyntaxEditor::new_annotation
#[derive(Clone, Copy, Debug, PartialEq, Eq, Hash)]
pub struct SyntaxAnnotation {
    pub(crate) number: usize,
}

/// An element of the tree that is changed, and its annotation. A clause sees the element's cursor.
#[derive(Drop)]
pub(crate) struct Note {
    annotation: usize,
    place: Place,
}

impl Model for Note {
    ghost use Rattle.syntax_editor.specs.Spot.{cursor_of_spot};
    ghost use Rattle.syntax_editor.specs.Annotated.{Note, note_code};

    ghost Value = { Note };

    ghost coded = { note_code };

    ghost view = { λ n. record { annotation = n.annotation; cursor = cursor_of_spot n.place } };
}

impl Note {
    /// The note that the element at a place has an annotation. An element may have several notes,
    /// and an annotation may be on several elements.
    pub fn new(annotation: SyntaxAnnotation, place: Place) -> Note
        ensures { result
            ≡ record { annotation = annotation.number; cursor = cursor_of_spot place } }
    {
        Note {
            annotation: annotation.number,
            place,
        }
    }

    /// Whether the note is one of this annotation. Only the number is compared, so the annotation
    /// has to be one of the same editor.
    pub fn has(&self, annotation: SyntaxAnnotation) -> bool
        ensures { IsTrue result ↔ (self.now.annotation ≡ annotation.number) }
    {
        self.annotation == annotation.number
    }

    /// The place of the element, in the tree as it was before the changes.
    pub fn place(&self) -> &Place
        ensures { cursor_of_spot result.now ≡ self.now.cursor }
    {
        &self.place
    }
}
