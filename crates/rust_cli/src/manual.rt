//! The manual page and the completions for shells, made of the table of commands.

use crate::rows::{Row, Takes, Verb};
use crate::verbs::{ABOUT, NAMES, PROGRAM, VERSION, verb_of};
use std::io::Write;
use std::{fmt, io};

// What a text is written for.
#[derive(Clone, Copy)]
enum Target {
    // A page for man.
    Man,
    // A description between brackets in single quotes, for zsh.
    Zsh,
    // A text in single quotes, for fish.
    Fish,
}

// A text that prints with what its target needs before or for a character.
#[derive(Clone, Copy)]
struct Quoted {
    text: &'static str,
    target: Target,
}

// What stands for a character.
fn sign_of(target: Target, sign: char) -> Option<&'static str> {
    match (target, sign) {
        (Target::Man, '\\') => Some("\\e"),
        (Target::Man, '-') => Some("\\-"),
        (Target::Man, '\'') => Some("\\(aq"),
        (Target::Man, '.') => Some("\\&."),
        (Target::Zsh, '\'') => Some("'\\''"),
        (Target::Zsh, '[') => Some("\\["),
        (Target::Zsh, ']') => Some("\\]"),
        (Target::Zsh, ':') => Some("\\:"),
        (Target::Zsh, '\\') => Some("\\\\"),
        (Target::Fish, '\'') => Some("\\'"),
        (Target::Fish, '\\') => Some("\\\\"),
        _ => None,
    }
}

impl fmt::Display for Quoted {
    fn fmt<W: fmt::Write>(&self, f: &mut fmt::Formatter<W>) -> fmt::Result {
        for sign in self.text.chars() {
            match sign_of(self.target, sign) {
                Some(text) => f.write_str(text)?,
                None => write!(f, "{sign}")?,
            }
        }
        Ok(())
    }
}

fn man(text: &'static str) -> Quoted {
    Quoted {
        text,
        target: Target::Man,
    }
}

fn zsh(text: &'static str) -> Quoted {
    Quoted {
        text,
        target: Target::Zsh,
    }
}

fn fish(text: &'static str) -> Quoted {
    Quoted {
        text,
        target: Target::Fish,
    }
}

// How an argument is given.
#[derive(Clone, Copy)]
struct Form {
    // Whether it has its place, and no name.
    is_placed: bool,
    // Whether it takes more than one word there.
    is_list: bool,
    letter: Option<char>,
    // The words that it takes, if these are all.
    words: &'static [&'static str],
    // What it takes, if it takes other words.
    value: Option<&'static str>,
}

const FLAG: Form = Form {
    is_placed: false,
    is_list: false,
    letter: None,
    words: &[],
    value: None,
};

fn form_of(row: &Row) -> Form {
    match row.takes {
        Takes::Words => Form {
            is_placed: true,
            is_list: true,
            ..FLAG
        },
        Takes::Word => Form {
            is_placed: true,
            ..FLAG
        },
        Takes::Choice(words) => Form {
            is_placed: true,
            words,
            ..FLAG
        },
        Takes::Nothing => FLAG,
        Takes::Letter(letter) => Form {
            letter: Some(letter),
            ..FLAG
        },
        Takes::OneOf(words) => Form { words, ..FLAG },
        Takes::Number => Form {
            value: Some("N"),
            ..FLAG
        },
        Takes::Text(form) | Takes::Texts(form) => Form {
            value: Some(form),
            ..FLAG
        },
        Takes::LetterTexts(letter, form) => Form {
            letter: Some(letter),
            value: Some(form),
            ..FLAG
        },
    }
}

// Writes words with a sign between them.
fn write_words<W: Write>(out: &mut W, words: &[&str], between: &str) -> io::Result<()> {
    let mut before = "";
    for word in words {
        write!(out, "{before}{word}")?;
        before = between;
    }
    Ok(())
}

// Writes the names of all commands.
fn write_names<W: Write>(out: &mut W) -> io::Result<()> {
    for &name in &NAMES {
        write!(out, "{} ", verb_of(name).name)?;
    }
    write!(out, "help")
}

// ---- the manual page

fn write_man_row<W: Write>(out: &mut W, row: &Row) -> io::Result<()> {
    let form = form_of(row);
    out.write_all(b".TP\n")?;
    if form.is_placed {
        write!(out, "\\fI{}\\fR", man(row.name))?;
    } else {
        if let Some(letter) = form.letter {
            write!(out, "\\fB\\-{letter}\\fR, ")?;
        }
        write!(out, "\\fB\\-\\-{}\\fR", man(row.name))?;
    }
    if let Some(value) = form.value {
        write!(out, " \\fI{}\\fR", man(value))?;
    }
    if !form.words.is_empty() {
        out.write_all(b" ")?;
        write_words(out, form.words, "|")?;
    }
    write!(out, "\n{}", man(row.help))?;
    if let Some(default) = row.default {
        write!(out, " [default: {}]", man(default))?;
    }
    out.write_all(b"\n")
}

fn write_man_verb<W: Write>(out: &mut W, verb: &Verb) -> io::Result<()> {
    writeln!(out, ".SS {PROGRAM} {}\n{}", verb.name, man(verb.about))?;
    for row in verb.rows {
        write_man_row(out, row)?;
    }
    writeln!(out, ".PP\n{}", man(verb.example))
}

static MAN_END: &str = ".SH EXIT STATUS
.TP
0
nothing was found
.TP
1
something was found: an error, a pair, a match or a difference
.TP
2
the command line is invalid, or a pattern is
.TP
3
a file could not be read or written, or memory ran out
.SH ENVIRONMENT
.TP
NO_COLOR
if it is not empty, \\-\\-color auto uses no colours and \\-\\-hyperlinks auto no links
.TP
TERM
if it is dumb, \\-\\-color auto uses no colours and \\-\\-hyperlinks auto no links
.SH FILES
.TP
\\&.gitignore, \\&.ignore, \\&.git/info/exclude
what is left out of a folder that is searched
.TP
Cargo.toml
the edition of the files below it
";

/// Writes the manual page, for man.
pub fn write_manual<W: Write>(out: &mut W) -> io::Result<()> {
    writeln!(
        out,
        ".TH RUST_TREE 1 \"\" \"{PROGRAM} {}\" \"User Commands\"",
        man(VERSION)
    )?;
    writeln!(out, ".SH NAME\n{PROGRAM} \\- {}", man(ABOUT))?;
    writeln!(
        out,
        ".SH SYNOPSIS\n.B {PROGRAM}\n\\fICOMMAND\\fR [\\fIOPTION\\fR..] [\\fIFILE\\fR..]"
    )?;
    writeln!(out, ".SH COMMANDS")?;
    for &name in &NAMES {
        write_man_verb(out, verb_of(name))?;
    }
    out.write_all(MAN_END.as_bytes())
}

// ---- bash

// Writes the words of an option that takes one of some.
fn write_bash_choice<W: Write>(out: &mut W, verb: &Verb, row: &Row) -> io::Result<()> {
    let form = form_of(row);
    if form.words.is_empty() {
        return Ok(());
    }
    let before = if form.is_placed { "" } else { "--" };
    // The word before one in its place is the command.
    let option = if form.is_placed { verb.name } else { row.name };
    write!(
        out,
        "        {}:{before}{option}) COMPREPLY=($(compgen -W '",
        verb.name
    )?;
    write_words(out, form.words, " ")?;
    writeln!(out, "' -- \"$word\")); return ;;")
}

fn write_bash_options<W: Write>(out: &mut W, verb: &Verb) -> io::Result<()> {
    write!(out, "        {}) options='--help", verb.name)?;
    for row in verb.rows {
        if !form_of(row).is_placed {
            write!(out, " --{}", row.name)?;
        }
    }
    writeln!(out, "' ;;")
}

fn write_bash<W: Write>(out: &mut W) -> io::Result<()> {
    out.write_all(
        b"_rust_tree() {
    local word=${COMP_WORDS[COMP_CWORD]} before=${COMP_WORDS[COMP_CWORD-1]} command=${COMP_WORDS[1]} options=
    COMPREPLY=()
    if [ \"$COMP_CWORD\" -eq 1 ]; then
        COMPREPLY=($(compgen -W '",
    )?;
    write_names(out)?;
    out.write_all(
        b"' -- \"$word\"))
        return
    fi
    # In `--format=json` the sign is a word by itself.
    [ \"$word\" = = ] && word=
    [ \"$before\" = = ] && before=${COMP_WORDS[COMP_CWORD-2]}
    case $command:$before in
",
    )?;
    for &name in &NAMES {
        let verb = verb_of(name);
        for row in verb.rows {
            write_bash_choice(out, verb, row)?;
        }
    }
    out.write_all(
        b"    esac
    case $command in
",
    )?;
    for &name in &NAMES {
        write_bash_options(out, verb_of(name))?;
    }
    out.write_all(
        b"    esac
    case $word in
        -*) COMPREPLY=($(compgen -W \"$options\" -- \"$word\")) ;;
    esac
}
complete -o default -F _rust_tree rust_tree
",
    )
}

// ---- zsh

fn write_zsh_value<W: Write>(out: &mut W, row: &Row, form: Form) -> io::Result<()> {
    if !form.words.is_empty() {
        write!(out, ":{}:(", row.name)?;
        write_words(out, form.words, " ")?;
        out.write_all(b")")?;
    } else if let Some(value) = form.value {
        write!(out, ":{}: ", zsh(value))?;
    }
    Ok(())
}

fn write_zsh_row<W: Write>(out: &mut W, row: &Row) -> io::Result<()> {
    let form = form_of(row);
    out.write_all(b" \\\n                ")?;
    if form.is_placed {
        if form.words.is_empty() {
            // A word in its place has no star: there is one `*:` at most.
            let more = if form.is_list { "*" } else { "" };
            return write!(out, "'{more}:{}:_files'", row.name);
        }
        write!(out, "'1:{}:(", row.name)?;
        write_words(out, form.words, " ")?;
        return out.write_all(b")'");
    }
    write!(out, "'--{}[{}]", row.name, zsh(row.help))?;
    write_zsh_value(out, row, form)?;
    out.write_all(b"'")
}

fn write_zsh<W: Write>(out: &mut W) -> io::Result<()> {
    out.write_all(
        b"#compdef rust_tree
_rust_tree() {
    local -a commands
    commands=(
",
    )?;
    for &name in &NAMES {
        let verb = verb_of(name);
        writeln!(out, "        '{}:{}'", verb.name, zsh(verb.about))?;
    }
    out.write_all(
        b"    )
    if (( CURRENT == 2 )); then
        _describe command commands
        return
    fi
    shift words
    (( CURRENT -= 1 ))
    case $words[1] in
",
    )?;
    for &name in &NAMES {
        let verb = verb_of(name);
        write!(out, "        {})\n            _arguments", verb.name)?;
        for row in verb.rows {
            write_zsh_row(out, row)?;
        }
        out.write_all(b"\n            ;;\n")?;
    }
    out.write_all(
        b"    esac
}
compdef _rust_tree rust_tree
",
    )
}

// ---- fish

fn write_fish_row<W: Write>(out: &mut W, verb: &Verb, row: &Row) -> io::Result<()> {
    let form = form_of(row);
    if form.is_placed && form.words.is_empty() {
        return Ok(());
    }
    write!(
        out,
        "complete -c {PROGRAM} -n '__fish_seen_subcommand_from {}'",
        verb.name
    )?;
    if !form.is_placed {
        write!(out, " -l {}", row.name)?;
    }
    if let Some(letter) = form.letter {
        write!(out, " -s {letter}")?;
    }
    if !form.words.is_empty() {
        out.write_all(b" -x -a '")?;
        write_words(out, form.words, " ")?;
        out.write_all(b"'")?;
    } else if form.value.is_some() {
        out.write_all(b" -x")?;
    }
    writeln!(out, " -d '{}'", fish(row.help))
}

fn write_fish<W: Write>(out: &mut W) -> io::Result<()> {
    for &name in &NAMES {
        let verb = verb_of(name);
        write!(
            out,
            "complete -c {PROGRAM} -n __fish_use_subcommand -f -a {}",
            verb.name
        )?;
        writeln!(out, " -d '{}'", fish(verb.about))?;
    }
    for &name in &NAMES {
        let verb = verb_of(name);
        for row in verb.rows {
            write_fish_row(out, verb, row)?;
        }
    }
    Ok(())
}

/// Writes the completions for a shell: `bash`, `zsh` or `fish`.
pub fn write_completions<W: Write>(out: &mut W, shell: &str) -> io::Result<()> {
    match shell {
        "zsh" => write_zsh(out),
        "fish" => write_fish(out),
        _ => write_bash(out),
    }
}
