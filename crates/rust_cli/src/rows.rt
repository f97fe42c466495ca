//! The rows of the tables of commands.

/// What an argument takes.
#[derive(Clone, Copy)]
pub(crate) enum Takes {
    // One or more words, in their place.
    Words,
    // A word, in its place.
    Word,
    // Nothing: the argument is a flag.
    Nothing,
    // Nothing, and the flag also has a letter.
    Letter(char),
    // One of these words.
    OneOf(&'static [&'static str]),
    // One of these words, in its place.
    Choice(&'static [&'static str]),
    // A number.
    Number,
    // A text of this form.
    Text(&'static str),
    // A text of this form, each time that it is given.
    Texts(&'static str),
    // The same, and the option also has a letter.
    LetterTexts(char, &'static str),
}

/// An argument of a command.
#[derive(Clone, Copy)]
pub(crate) struct Row {
    pub name: &'static str,
    pub takes: Takes,
    pub default: Option<&'static str>,
    // The arguments that it cannot be given with.
    pub conflicts: &'static [&'static str],
    pub help: &'static str,
}

/// A command.
#[derive(Clone, Copy)]
pub(crate) struct Verb {
    pub name: &'static str,
    pub about: &'static str,
    pub example: &'static str,
    pub rows: &'static [Row],
}
