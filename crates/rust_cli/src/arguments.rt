//! The arguments of the commands.

use crate::rows::{Row, Takes};

pub(crate) const FILES: Row = Row {
    name: "FILE",
    takes: Takes::Words,
    default: None,
    conflicts: &[],
    help: "Rust files, and folders, which are searched for `.rs` files; `-` is standard input",
};

pub(crate) const FILE: Row = Row {
    name: "FILE",
    takes: Takes::Word,
    default: None,
    conflicts: &[],
    help: "A Rust file; `-` is standard input",
};

pub(crate) const OLD: Row = Row {
    name: "A",
    takes: Takes::Word,
    default: None,
    conflicts: &[],
    help: "A Rust file; `-` is standard input",
};

pub(crate) const NEW: Row = Row {
    name: "B",
    takes: Takes::Word,
    default: None,
    conflicts: &[],
    help: "A Rust file; `-` is standard input",
};

pub(crate) const PATTERN: Row = Row {
    name: "PATTERN",
    takes: Takes::Word,
    default: None,
    conflicts: &[],
    help: "Kinds, such as `FN > NAME`; `>` precedes a child, `//` a descendant; `A|B`, `*`, `=\"text\"`, `~\"regex\"`, `@name`",
};

pub(crate) const RULE_AND_FILES: Row = Row {
    name: "FILE",
    takes: Takes::Words,
    default: None,
    conflicts: &[],
    help: "The rule, unless `--rules` is given, and then Rust files, and folders, which are searched for `.rs` files; `-` is standard input",
};

pub(crate) const RULES: Row = Row {
    name: "rules",
    takes: Takes::Text("FILE"),
    default: None,
    conflicts: &[],
    help: "The rules of this file: one a line, or TOML if its name ends with `.toml`",
};

pub(crate) const SHELL: Row = Row {
    name: "SHELL",
    takes: Takes::Choice(&["bash", "zsh", "fish"]),
    default: None,
    conflicts: &[],
    help: "The shell",
};

pub(crate) const EDITION: Row = Row {
    name: "edition",
    takes: Takes::OneOf(&["auto", "2015", "2018", "2021", "2024"]),
    default: Some("auto"),
    conflicts: &[],
    help: "The Rust edition; `auto`: that of the nearest Cargo.toml above each file, or 2024",
};

pub(crate) const ENTRY: Row = Row {
    name: "entry",
    takes: Takes::OneOf(&["file", "expr"]),
    default: Some("file"),
    conflicts: &[],
    help: "Whether a text is a file or an expression",
};

pub(crate) const NO_VALIDATION: Row = Row {
    name: "no-validation",
    takes: Takes::Nothing,
    default: None,
    conflicts: &[],
    help: "Reports only the errors of the lexer and the parser",
};

pub(crate) const STDIN_FILENAME: Row = Row {
    name: "stdin-filename",
    takes: Takes::Text("PATH"),
    default: None,
    conflicts: &[],
    help: "The path that standard input has in results, and for its edition and the rules of a file",
};

pub(crate) const QUIET: Row = Row {
    name: "quiet",
    takes: Takes::Letter('q'),
    default: None,
    conflicts: &[],
    help: "Suppresses standard output; the exit status is the result",
};

pub(crate) const COLOR: Row = Row {
    name: "color",
    takes: Takes::OneOf(&["auto", "always", "never"]),
    default: Some("auto"),
    conflicts: &[],
    help: "Whether check, outline, parens, query, search and rewrite use colours; `auto`: on a terminal",
};

pub(crate) const HYPERLINKS: Row = Row {
    name: "hyperlinks",
    takes: Takes::OneOf(&["auto", "always", "never"]),
    default: Some("auto"),
    conflicts: &[],
    help: "Whether names of files in results are links on a terminal; `auto`: as `--color auto` does",
};

pub(crate) const FOLLOW: Row = Row {
    name: "follow",
    takes: Takes::Nothing,
    default: None,
    conflicts: &[],
    help: "Follows links that are found in a folder; `--fix` then writes only below that folder",
};

pub(crate) const HIDDEN: Row = Row {
    name: "hidden",
    takes: Takes::Nothing,
    default: None,
    conflicts: &[],
    help: "Reads files and folders that are found in a folder and whose names begin with a dot",
};

pub(crate) const NO_IGNORE: Row = Row {
    name: "no-ignore",
    takes: Takes::Nothing,
    default: None,
    conflicts: &[],
    help: "Reads what `.gitignore` and `.ignore` name, and the folders `target` in which cargo builds",
};

pub(crate) const GLOB: Row = Row {
    name: "glob",
    takes: Takes::LetterTexts('g', "GLOB"),
    default: None,
    conflicts: &[],
    help: "Reads only the files of a folder that fit one of these; leaves out what fits one with `!` in front",
};

pub(crate) const EXCLUDE: Row = Row {
    name: "exclude",
    takes: Takes::Texts("GLOB"),
    default: None,
    conflicts: &[],
    help: "Leaves out the files and folders of a folder that fit one of these",
};

pub(crate) const MAX_ERRORS: Row = Row {
    name: "max-errors",
    takes: Takes::Number,
    default: None,
    conflicts: &[],
    help: "The number of errors of each file that are listed",
};

pub(crate) const ALL_ERRORS: Row = Row {
    name: "all-errors",
    takes: Takes::Nothing,
    default: None,
    conflicts: &[],
    help: "Gives each error a line, also those that follow from another",
};

pub(crate) const COUNT: Row = Row {
    name: "count",
    takes: Takes::Letter('c'),
    default: None,
    conflicts: &[],
    help: "Prints only how much was found in each file, if anything was",
};

pub(crate) const FILES_WITH_MATCHES: Row = Row {
    name: "files-with-matches",
    takes: Takes::Letter('l'),
    default: None,
    conflicts: &["count"],
    help: "Prints only the names of the files in which something was found",
};

pub(crate) const MESSAGES: Row = Row {
    name: "messages",
    takes: Takes::OneOf(&["plain", "upstream"]),
    default: Some("plain"),
    conflicts: &[],
    help: "The words of messages: `plain`, or those of rust-analyzer's parser, which names kinds",
};

pub(crate) const FORMAT: Row = Row {
    name: "format",
    takes: Takes::OneOf(&["text", "json"]),
    default: Some("text"),
    conflicts: &[],
    help: "The form of the output; `json` is one object on each line",
};

pub(crate) const CHECK_FORMAT: Row = Row {
    name: "format",
    takes: Takes::OneOf(&["text", "json", "github", "sarif"]),
    default: Some("text"),
    conflicts: &[],
    help: "The form of the output; `json` is one object on each line, `sarif` one object for all",
};

pub(crate) const PAIR_FORMAT: Row = Row {
    name: "format",
    takes: Takes::OneOf(&["text", "json", "sarif"]),
    default: Some("text"),
    conflicts: &[],
    help: "The form of the output; `json` is one object on each line, `sarif` one object for all",
};

pub(crate) const TREE_FORMAT: Row = Row {
    name: "format",
    takes: Takes::OneOf(&["text", "json", "sexp", "html"]),
    default: Some("text"),
    conflicts: &[],
    help: "The form of the output; `json` is one object on each line",
};

pub(crate) const DIFF_FORMAT: Row = Row {
    name: "format",
    takes: Takes::OneOf(&["text", "html"]),
    default: Some("text"),
    conflicts: &[],
    help: "The form of the output; `html` is a page with both texts side by side",
};

pub(crate) const INK: Row = Row {
    name: "format",
    takes: Takes::OneOf(&["html", "ansi"]),
    default: Some("ansi"),
    conflicts: &[],
    help: "A page of HTML, or terminal colours",
};

pub(crate) const AT: Row = Row {
    name: "at",
    takes: Takes::Text("LINE:COLUMN"),
    default: None,
    conflicts: &[],
    help: "Shows only the token at this place; both count from 1",
};

pub(crate) const RANGE: Row = Row {
    name: "range",
    takes: Takes::Text("START..END"),
    default: None,
    conflicts: &["at"],
    help: "Shows only the deepest node or token around this range of bytes",
};

pub(crate) const ANCESTORS: Row = Row {
    name: "ancestors",
    takes: Takes::Nothing,
    default: None,
    conflicts: &["format", "stats"],
    help: "Shows the nodes around the token of `--at` or the range of `--range`, outermost first",
};

pub(crate) const GRAMMAR: Row = Row {
    name: "grammar",
    takes: Takes::Text("URL"),
    default: None,
    conflicts: &["stats", "ancestors"],
    help: "In a page, kinds link to their rules in the page that is at this URL",
};

pub(crate) const DEPTH: Row = Row {
    name: "depth",
    takes: Takes::Number,
    default: None,
    conflicts: &[],
    help: "The number of levels that are shown",
};

pub(crate) const NO_TRIVIA: Row = Row {
    name: "no-trivia",
    takes: Takes::Nothing,
    default: None,
    conflicts: &[],
    help: "Omits white space and comments",
};

pub(crate) const STATS: Row = Row {
    name: "stats",
    takes: Takes::Nothing,
    default: None,
    conflicts: &["at", "range", "depth", "no-trivia"],
    help: "Shows the numbers of nodes, tokens, levels and errors instead of the tree",
};

pub(crate) const LOCALS: Row = Row {
    name: "locals",
    takes: Takes::Nothing,
    default: None,
    conflicts: &[],
    help: "Lists what `let` binds too",
};

pub(crate) const DIFF: Row = Row {
    name: "diff",
    takes: Takes::Nothing,
    default: None,
    conflicts: &["format"],
    help: "Prints a patch, without context lines",
};

pub(crate) const FIX: Row = Row {
    name: "fix",
    takes: Takes::Nothing,
    default: None,
    conflicts: &["diff", "format"],
    help: "Removes the pairs from each file; the exit status is 0 then",
};

pub(crate) const REPLACE: Row = Row {
    name: "fix",
    takes: Takes::Nothing,
    default: None,
    conflicts: &["diff", "format"],
    help: "Replaces the matches in each file; the exit status is 0 then",
};

pub(crate) const MACROS: Row = Row {
    name: "macros",
    takes: Takes::Nothing,
    default: None,
    conflicts: &[],
    help: "Looks into the arguments of macros too, where they are a list of expressions",
};

pub(crate) const INTERACTIVE: Row = Row {
    name: "interactive",
    takes: Takes::Nothing,
    default: None,
    conflicts: &[
        "diff",
        "fix",
        "format",
        "count",
        "files-with-matches",
        "quiet",
    ],
    help: "Asks on a terminal for each replacement whether it is made",
};

pub(crate) const ALL: Row = Row {
    name: "all",
    takes: Takes::Nothing,
    default: None,
    conflicts: &[],
    help: "Finds operands too, and pairs in all other places, but for those of `--mixed`",
};

pub(crate) const MIXED: Row = Row {
    name: "mixed",
    takes: Takes::Nothing,
    default: None,
    conflicts: &[],
    help: "Finds arithmetic below a shift too, where clippy's `precedence` asks for the pair",
};

pub(crate) const ONLY: Row = Row {
    name: "only",
    takes: Takes::OneOf(&["values", "operands", "others"]),
    default: None,
    conflicts: &["all"],
    help: "Finds the pairs in these places alone; without `--all` it is `values`",
};

pub(crate) const LIMIT: Row = Row {
    name: "limit",
    takes: Takes::Number,
    default: None,
    conflicts: &[],
    help: "The number of places that are printed, 10 if it is not given; of a page all are",
};

pub(crate) const IGNORE_TRIVIA: Row = Row {
    name: "no-trivia",
    takes: Takes::Nothing,
    default: None,
    conflicts: &[],
    help: "Ignores white space and comments",
};
