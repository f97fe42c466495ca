//! The commands and their arguments, as `clap` reads them.

use crate::arguments::{
    ALL, ALL_ERRORS, ANCESTORS, AT, CHECK_FORMAT, COLOR, COUNT, DEPTH, DIFF, DIFF_FORMAT, EDITION,
    ENTRY, EXCLUDE, FILE, FILES, FILES_WITH_MATCHES, FIX, FOLLOW, FORMAT, GLOB, GRAMMAR, HIDDEN,
    HYPERLINKS, IGNORE_TRIVIA, INK, INTERACTIVE, LIMIT, LOCALS, MACROS, MAX_ERRORS, MESSAGES,
    MIXED, NEW, NO_IGNORE, NO_TRIVIA, NO_VALIDATION, OLD, ONLY, PAIR_FORMAT, PATTERN, QUIET, RANGE,
    REPLACE, RULE_AND_FILES, RULES, SHELL, STATS, STDIN_FILENAME, TREE_FORMAT,
};
use crate::rows::{Row, Takes, Verb};
use clap::{Arg, ArgAction, Command, value_parser};
use std::alloc::{AllocError, Global};

static TREE_VERB: Verb = Verb {
    name: "tree",
    about: "Prints the tree of each file, and its errors",
    example: "Example: rust_tree tree --no-trivia --depth 3 src/main.rs",
    rows: &[
        TREE_FORMAT,
        ENTRY,
        NO_VALIDATION,
        AT,
        RANGE,
        ANCESTORS,
        GRAMMAR,
        DEPTH,
        NO_TRIVIA,
        STATS,
        FOLLOW,
        HIDDEN,
        NO_IGNORE,
        GLOB,
        EXCLUDE,
        EDITION,
        STDIN_FILENAME,
        COLOR,
        QUIET,
        FILES,
    ],
};

static CHECK_VERB: Verb = Verb {
    name: "check",
    about: "Lists the syntax errors of each file; the exit status is 1 if there is one",
    example: "Example: rust_tree check --format json src",
    rows: &[
        CHECK_FORMAT,
        ENTRY,
        NO_VALIDATION,
        MAX_ERRORS,
        ALL_ERRORS,
        COUNT,
        FILES_WITH_MATCHES,
        MESSAGES,
        FOLLOW,
        HIDDEN,
        NO_IGNORE,
        GLOB,
        EXCLUDE,
        EDITION,
        STDIN_FILENAME,
        COLOR,
        HYPERLINKS,
        QUIET,
        FILES,
    ],
};

static OUTLINE_VERB: Verb = Verb {
    name: "outline",
    about: "Lists the items of each file, with their variants and fields, each before what is in it",
    example: "Example: rust_tree outline src/lib.rs",
    rows: &[
        COUNT,
        FILES_WITH_MATCHES,
        FORMAT,
        LOCALS,
        FOLLOW,
        HIDDEN,
        NO_IGNORE,
        GLOB,
        EXCLUDE,
        EDITION,
        STDIN_FILENAME,
        COLOR,
        HYPERLINKS,
        QUIET,
        FILES,
    ],
};

static PARENS_VERB: Verb = Verb {
    name: "parens",
    about: "Lists the pairs of parentheses without which a file parses to the same tree; the exit status is 1 if there is one",
    example: "Example: rust_tree parens --diff src",
    rows: &[
        PAIR_FORMAT,
        DIFF,
        FIX,
        ALL,
        ONLY,
        MIXED,
        COUNT,
        FILES_WITH_MATCHES,
        FOLLOW,
        HIDDEN,
        NO_IGNORE,
        GLOB,
        EXCLUDE,
        EDITION,
        STDIN_FILENAME,
        COLOR,
        HYPERLINKS,
        QUIET,
        FILES,
    ],
};

static TOKENS_VERB: Verb = Verb {
    name: "tokens",
    about: "Lists the lexer's tokens of each file, and its errors",
    example: "Example: rust_tree tokens src/main.rs",
    rows: &[
        FORMAT,
        FOLLOW,
        HIDDEN,
        NO_IGNORE,
        GLOB,
        EXCLUDE,
        EDITION,
        STDIN_FILENAME,
        COLOR,
        QUIET,
        FILES,
    ],
};

static QUERY_VERB: Verb = Verb {
    name: "query",
    about: "Finds nodes and tokens by kind, place and text; the exit status is 1 if there is one",
    example: "Example: rust_tree query 'FN > NAME' src",
    rows: &[
        COUNT,
        FILES_WITH_MATCHES,
        FORMAT,
        PATTERN,
        FOLLOW,
        HIDDEN,
        NO_IGNORE,
        GLOB,
        EXCLUDE,
        EDITION,
        STDIN_FILENAME,
        COLOR,
        HYPERLINKS,
        QUIET,
        FILES,
    ],
};

static SEARCH_VERB: Verb = Verb {
    name: "search",
    about: "Finds code by code with placeholders; the exit status is 1 if there is one",
    example: "Example: rust_tree search '$a + $a' src",
    rows: &[
        RULES,
        MACROS,
        COUNT,
        FILES_WITH_MATCHES,
        CHECK_FORMAT,
        FOLLOW,
        HIDDEN,
        NO_IGNORE,
        GLOB,
        EXCLUDE,
        EDITION,
        STDIN_FILENAME,
        COLOR,
        HYPERLINKS,
        QUIET,
        RULE_AND_FILES,
    ],
};

static REWRITE_VERB: Verb = Verb {
    name: "rewrite",
    about: "Replaces code by code with placeholders; the exit status is 1 if there is one",
    example: "Example: rust_tree rewrite '$a.clone() ==>> *$a' --diff src",
    rows: &[
        RULES,
        MACROS,
        CHECK_FORMAT,
        DIFF,
        REPLACE,
        INTERACTIVE,
        COUNT,
        FILES_WITH_MATCHES,
        FOLLOW,
        HIDDEN,
        NO_IGNORE,
        GLOB,
        EXCLUDE,
        EDITION,
        STDIN_FILENAME,
        COLOR,
        HYPERLINKS,
        QUIET,
        RULE_AND_FILES,
    ],
};

static HIGHLIGHT_VERB: Verb = Verb {
    name: "highlight",
    about: "Prints a file with syntax highlighting",
    example: "Example: rust_tree highlight --format html src/main.rs > main.html",
    rows: &[INK, EDITION, STDIN_FILENAME, ENTRY, QUIET, FILE],
};

static DIFF_VERB: Verb = Verb {
    name: "diff",
    about: "Prints where the trees of two files differ; the exit status is 1 if they do",
    example: "Example: rust_tree diff --no-trivia old.rs new.rs",
    rows: &[
        DIFF_FORMAT,
        IGNORE_TRIVIA,
        LIMIT,
        EDITION,
        ENTRY,
        QUIET,
        OLD,
        NEW,
    ],
};

static COMPLETIONS_VERB: Verb = Verb {
    name: "completions",
    about: "Prints the completions of commands and options for a shell",
    example: "Example: rust_tree completions bash > ~/.local/share/bash-completion/completions/rust_tree",
    rows: &[SHELL],
};

static MAN_VERB: Verb = Verb {
    name: "man",
    about: "Prints the manual page, for man",
    example: "Example: rust_tree man > ~/.local/share/man/man1/rust_tree.1",
    rows: &[],
};

/// The commands, in the order of the help. A new one is a name here, in `NAMES` and in `verb_of`,
/// and its table above.
#[derive(Clone, Copy)]
pub(crate) enum Name {
    Tree,
    Check,
    Outline,
    Parens,
    Tokens,
    Query,
    Search,
    Rewrite,
    Highlight,
    Diff,
    Completions,
    Man,
}

pub(crate) static NAMES: [Name; 12] = [
    Name::Tree,
    Name::Check,
    Name::Outline,
    Name::Parens,
    Name::Tokens,
    Name::Query,
    Name::Search,
    Name::Rewrite,
    Name::Highlight,
    Name::Diff,
    Name::Completions,
    Name::Man,
];

// A call for each command: a check writes out the rows of a table that a function names, and those
// of all commands are too much for one.
fn tree() -> &'static Verb {
    &TREE_VERB
}

fn check() -> &'static Verb {
    &CHECK_VERB
}

fn outline() -> &'static Verb {
    &OUTLINE_VERB
}

fn parens() -> &'static Verb {
    &PARENS_VERB
}

fn tokens() -> &'static Verb {
    &TOKENS_VERB
}

fn query() -> &'static Verb {
    &QUERY_VERB
}

fn search() -> &'static Verb {
    &SEARCH_VERB
}

fn rewrite() -> &'static Verb {
    &REWRITE_VERB
}

fn highlight() -> &'static Verb {
    &HIGHLIGHT_VERB
}

fn diff() -> &'static Verb {
    &DIFF_VERB
}

fn completions() -> &'static Verb {
    &COMPLETIONS_VERB
}

fn man() -> &'static Verb {
    &MAN_VERB
}

pub(crate) fn verb_of(name: Name) -> &'static Verb {
    match name {
        Name::Tree => tree(),
        Name::Check => check(),
        Name::Outline => outline(),
        Name::Parens => parens(),
        Name::Tokens => tokens(),
        Name::Query => query(),
        Name::Search => search(),
        Name::Rewrite => rewrite(),
        Name::Highlight => highlight(),
        Name::Diff => diff(),
        Name::Completions => completions(),
        Name::Man => man(),
    }
}

fn flag<'a>(arg: Arg<'a>, name: &'a str) -> Arg<'a> {
    arg.long(name).action(ArgAction::SetTrue)
}

fn choice<'a>(arg: Arg<'a>, name: &'a str, words: &'a [&'a str]) -> Arg<'a> {
    arg.long(name).value_parser(words)
}

fn number<'a>(arg: Arg<'a>, name: &'a str) -> Arg<'a> {
    arg.long(name)
        .value_name("N")
        .value_parser(value_parser!(u32))
}

fn text<'a>(arg: Arg<'a>, name: &'a str, form: &'a str) -> Arg<'a> {
    arg.long(name).value_name(form)
}

fn texts<'a>(arg: Arg<'a>, name: &'a str, form: &'a str) -> Arg<'a> {
    arg.long(name).value_name(form).action(ArgAction::Append)
}

// An argument that takes this. Each form is made by a call of its own: a check takes far longer
// where an argument lives across several calls in one branch.
fn taking<'a>(arg: Arg<'a>, name: &'static str, takes: Takes) -> Arg<'a> {
    match takes {
        Takes::Words => arg.required(true).num_args(1..),
        Takes::Word => arg.required(true),
        Takes::Nothing => flag(arg, name),
        Takes::Letter(letter) => flag(arg, name).short(letter),
        Takes::OneOf(words) => choice(arg, name, words),
        Takes::Choice(words) => arg.required(true).value_parser(words),
        Takes::Number => number(arg, name),
        Takes::Text(form) => text(arg, name, form),
        Takes::Texts(form) => texts(arg, name, form),
        Takes::LetterTexts(letter, form) => texts(arg, name, form).short(letter),
    }
}

fn arg_of<'a>(alloc: Global, row: &Row) -> Result<Arg<'a>, AllocError> {
    let arg = Arg::new(alloc, row.name).help(row.help);
    let mut arg = taking(arg, row.name, row.takes);
    if let Some(default) = row.default {
        arg = arg.default_value(default);
    }
    for other in row.conflicts {
        arg = arg.conflicts_with(other)?;
    }
    Ok(arg)
}

fn command_of<'a>(alloc: Global, verb: &Verb) -> Result<Command<'a>, AllocError> {
    let mut command = Command::new(alloc, verb.name)
        .about(verb.about)
        .after_help(verb.example);
    for row in verb.rows {
        command = command.arg(arg_of(alloc, row)?)?;
    }
    Ok(command)
}

/// The name of the program.
pub(crate) const PROGRAM: &str = "rust_tree";

/// What the program does.
pub(crate) const ABOUT: &str = "Parses Rust files without losing a byte";

/// The version of the program.
pub(crate) const VERSION: &str = "0.1.0";

/// The program with its commands and their arguments.
pub fn program<'a>(alloc: Global) -> Result<Command<'a>, AllocError> {
    let mut program = Command::new(alloc, PROGRAM)
        .about(ABOUT)
        .version(VERSION)
        .subcommand_required(true);
    for &name in &NAMES {
        program = program.subcommand(command_of(alloc, verb_of(name))?)?;
    }
    Ok(program)
}
