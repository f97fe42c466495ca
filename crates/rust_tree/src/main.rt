//! The program `rust_tree`: parses Rust files and prints errors, items, tokens, trees and
//! differences.
#![tactic(auto)]

mod ask;
mod editions;
mod failure;
mod fix;
mod ignores;
mod inputs;
mod job;
mod session;

use clap::{ArgMatches, Error};
use editions::Manifests;
use failure::tell;
use inputs::{is_folder, text_of};
use job::Job;
use rust_cli::manual::{write_completions, write_manual};
use rust_cli::options::{Options, edition, globs_of, input_name_of, is_page, limit, reading};
use rust_cli::task::{Refusal, Task, Then, files_of, task_of, task_of_rules};
use rust_cli::verbs;
use rust_draw::sides;
use rust_print::differ;
use rust_print::failure::Failure;
use rust_print::shown::name;
use rust_print::source::Source;
use rust_print::style::Style;
use rust_report::Trivia;
use session::{FOUND, Session, UNREAD, USAGE};
use std::io::{BufWriter, ErrorKind, IsTerminal, Write};
use std::process::ExitCode;
use std::{env, fs, io};

// Whether the environment asks for a terminal without colours: `NO_COLOR` is set to any text but an
// empty one, or the terminal is `dumb`.
fn is_plain_terminal(rt: &HostRuntime) -> bool {
    env::var(rt, "NO_COLOR").is_ok_and(|it| !it.is_empty())
        || env::var(rt, "TERM").is_ok_and(|it| it.as_str() == "dumb")
}

// Whether the output gets escapes of a terminal: as an option says, and with `auto` on a terminal.
fn has_escapes(rt: &HostRuntime, option: Option<&str>) -> bool {
    match option {
        Some("always") => true,
        Some("auto") => rt.stdout().is_terminal() && !is_plain_terminal(rt),
        _ => false,
    }
}

// The path of the folder that the program runs in, if names of files are to be links. A folder
// without a path has no links.
fn links_of(rt: &HostRuntime, matches: &ArgMatches) -> io::Result<Option<String>> {
    if !has_escapes(rt, matches.get_str("hyperlinks")) {
        return Ok(None);
    }
    match fs::canonicalize(rt, ".") {
        Ok(folder) => Ok(Some(String::from_str(rt.alloc(), folder.as_str())?)),
        Err(_) => Ok(None),
    }
}

fn style_of(rt: &HostRuntime, matches: &ArgMatches) -> Style {
    if has_escapes(rt, matches.get_str("color")) {
        Style::Colours
    } else {
        Style::Plain
    }
}

fn run_job(
    rt: &HostRuntime,
    job: &Job,
    command: &str,
    matches: &ArgMatches,
) -> io::Result<Session> {
    let names = files_of(command, matches);
    if matches.get_flag("quiet") {
        job.run(rt, &mut io::sink(), names)
    } else {
        let mut out = BufWriter::new(rt.alloc(), io::writer(rt))?;
        job.run(rt, &mut out, names)
    }
}

// Whether the command line names more than one file, or a folder.
fn has_several(rt: &HostRuntime, command: &str, matches: &ArgMatches) -> bool {
    match files_of(command, matches) {
        [name] => is_folder(rt, name),
        _ => true,
    }
}

// Whether a task asks, and there is nobody who answers: standard input or output is no terminal, or
// standard input is a file to be read.
fn lacks_answers(rt: &HostRuntime, task: &Task, names: &[&str]) -> bool {
    match task {
        Task::Rewrite {
            then: Then::Ask,
            ..
        } => {
            !rt.stdin().is_terminal()
                || !rt.stdout().is_terminal()
                || names.iter().any(|name| *name == "-")
        }
        _ => false,
    }
}

// Runs a task on files. Returns the exit status.
fn run_task(rt: &HostRuntime, task: Task, command: &str, matches: &ArgMatches) -> io::Result<u8> {
    if lacks_answers(rt, &task, files_of(command, matches)) {
        eprintln!(rt;
            "rust_tree: --interactive asks on a terminal: standard input and output must be one"
        )?;
        return Ok(USAGE);
    }
    let options = Options::of(style_of(rt, matches), matches);
    let globs = globs_of(rt.alloc(), matches)?;
    let job = Job {
        task,
        options,
        globs,
        links: links_of(rt, matches)?,
        input_name: input_name_of(rt.alloc(), matches)?,
    };
    let session = run_job(rt, &job, command, matches)?;
    Ok(job.status(&session))
}

// Runs the task that a command line asks for, or reports why it is refused. Returns the exit
// status.
fn run_or_tell(
    rt: &HostRuntime,
    task: Result<Task, Refusal>,
    command: &str,
    matches: &ArgMatches,
) -> io::Result<u8> {
    match task {
        Ok(task) => run_task(rt, task, command, matches),
        Err(refusal) => {
            let refusal = format!(in rt.alloc(); "{refusal}")?;
            eprintln!(rt; "rust_tree: {}", name(refusal.as_str()))?;
            Ok(USAGE)
        }
    }
}

// Runs a command with the rules of a file on files. Returns the exit status.
fn run_with_rules(
    rt: &HostRuntime,
    command: &str,
    path: &str,
    matches: &ArgMatches,
) -> io::Result<u8> {
    let Some(text) = text_or_tell(rt, path)? else {
        return Ok(UNREAD);
    };
    // Some editors begin a text with the mark of its byte order.
    let text = text.as_str();
    let rules = text.strip_prefix('\u{feff}').unwrap_or(text);
    let task = task_of_rules(rt.alloc(), command, path, rules, matches);
    run_or_tell(rt, task, command, matches)
}

// Whether the rules of a command line are on standard input, and one of its files too, of which
// nothing would be left.
fn reads_input_twice(names: &[&str], rules: Option<&str>) -> bool {
    rules == Some("-") && names.iter().any(|name| *name == "-")
}

// Runs a command on files. Returns the exit status.
fn run_on_files(rt: &HostRuntime, command: &str, matches: &ArgMatches) -> io::Result<u8> {
    let rules = matches.get_str("rules");
    if reads_input_twice(files_of(command, matches), rules) {
        eprintln!(rt; "rust_tree: standard input cannot be both the rules and a file")?;
        return Ok(USAGE);
    }
    match rules {
        Some(path) => run_with_rules(rt, command, path, matches),
        None => {
            let several = has_several(rt, command, matches);
            let task = task_of(rt.alloc(), command, several, matches);
            run_or_tell(rt, task, command, matches)
        }
    }
}

// The text of a file. Returns `None` after reporting the error if it cannot be read.
fn text_or_tell(rt: &HostRuntime, path: &str) -> io::Result<Option<String>> {
    match text_of(rt, path) {
        Ok(text) => Ok(Some(text)),
        Err(error) => {
            eprintln!(rt; "rust_tree: {}: {error}", name(path))?;
            Ok(None)
        }
    }
}

// Writes where two texts differ. Returns the exit status.
fn write_differences<W: Write>(
    rt: &HostRuntime,
    out: &mut W,
    old: Source<'_>,
    new: Source<'_>,
    matches: &ArgMatches,
) -> Result<u8, Failure> {
    let mut manifests = Manifests::new(rt.alloc(), edition(matches));
    let mut readings = (reading(matches), reading(matches));
    readings.0.edition = manifests.edition_of(rt, old.name)?;
    readings.1.edition = manifests.edition_of(rt, new.name)?;
    let trivia = if matches.get_flag("no-trivia") {
        Trivia::Aside
    } else {
        Trivia::Kept
    };
    let limit = limit(matches);
    let told = if is_page(matches) {
        sides::show(rt.alloc(), out, old, new, readings, trivia, limit)?
    } else {
        differ::show(rt.alloc(), out, old, new, readings, trivia, limit)?
    };
    out.flush()?;
    if told.more {
        eprintln!(rt; "rust_tree: the trees differ at further places; --limit N shows more")?;
    }
    Ok(if told.places > 0 || told.more {
        FOUND
    } else {
        0
    })
}

// Runs `diff` on two texts. Returns the exit status.
fn run_diff_on(
    rt: &HostRuntime,
    old: Source<'_>,
    new: Source<'_>,
    matches: &ArgMatches,
) -> Result<u8, Failure> {
    if matches.get_flag("quiet") {
        return write_differences(rt, &mut io::sink(), old, new, matches);
    }
    let mut out = BufWriter::new(rt.alloc(), io::writer(rt))?;
    write_differences(rt, &mut out, old, new, matches)
}

// Runs `diff`. Returns the exit status.
fn run_diff(rt: &HostRuntime, matches: &ArgMatches) -> io::Result<u8> {
    let old = matches.get_str("A").unwrap_or("-");
    let new = matches.get_str("B").unwrap_or("-");
    if old == "-" && new == "-" {
        eprintln!(rt; "rust_tree: standard input can be only one of the two files")?;
        return Ok(USAGE);
    }
    let Some(old_text) = text_or_tell(rt, old)? else {
        return Ok(UNREAD);
    };
    let Some(new_text) = text_or_tell(rt, new)? else {
        return Ok(UNREAD);
    };
    let old = Source {
        name: old,
        folder: None,
        link: "",
        text: old_text.as_str(),
    };
    let new = Source {
        name: new,
        folder: None,
        link: "",
        text: new_text.as_str(),
    };
    match run_diff_on(rt, old, new, matches) {
        Ok(status) => Ok(status),
        Err(failure) => {
            tell(rt, failure, "diff")?;
            Ok(UNREAD)
        }
    }
}

// Prints the manual page, or the completions for a shell. Returns the exit status.
fn run_manual(rt: &HostRuntime, shell: Option<&str>) -> io::Result<u8> {
    let mut out = BufWriter::new(rt.alloc(), io::writer(rt))?;
    match shell {
        Some(shell) => write_completions(&mut out, shell)?,
        None => write_manual(&mut out)?,
    }
    out.flush()?;
    Ok(0)
}

// Prints the help or the error that a command line ends in. An error repeats words of the command
// line as they are, and a file may be named `--\u{1b}[2J`. So that of the same words is printed, in
// which control characters are symbols. Returns the exit status.
fn refuse(rt: &HostRuntime, error: &Error, words: &[String]) -> io::Result<u8> {
    let mut shown = Vec::with_capacity(rt.alloc(), words.len())?;
    for word in words {
        shown.push(format!(in rt.alloc(); "{}", name(word.as_str()))?)?;
    }
    match verbs::program(rt.alloc())?.try_get_matches_from(shown.as_slice()) {
        Err(error) => error.print(rt)?,
        Ok(_) => eprintln!(rt; "rust_tree: invalid arguments")?,
    }
    Ok(u8::try_from(error.exit_code()).unwrap_or(USAGE))
}

// Runs the command of the command line. Returns the exit status.
fn run(rt: &HostRuntime, words: &[String]) -> io::Result<u8> {
    let matches = match verbs::program(rt.alloc())?.try_get_matches_from(words) {
        Ok(matches) => matches,
        Err(error) => return refuse(rt, &error, words),
    };
    match matches.subcommand() {
        Some(("diff", matches)) => run_diff(rt, matches),
        Some(("man", _)) => run_manual(rt, None),
        Some(("completions", matches)) => run_manual(rt, matches.get_str("SHELL")),
        Some((name, matches)) => run_on_files(rt, name, matches),
        None => Ok(0),
    }
}

// Reads the command line and runs its command. Returns the exit status.
fn status(rt: &HostRuntime) -> io::Result<u8> {
    let Ok(args) = env::args(rt) else {
        eprintln!(rt; "rust_tree: an argument is not valid UTF-8")?;
        return Ok(USAGE);
    };
    let words: Vec<String> = args.collect(rt.alloc())?;
    run(rt, words.as_slice())
}

// If nobody reads the output any more, the run ends without a message.
fn main(rt: HostRuntime) -> ExitCode {
    match status(&rt) {
        Ok(status) => ExitCode::from(status),
        Err(error) => {
            if error.kind() != ErrorKind::BrokenPipe {
                let _told = eprintln!(&rt; "rust_tree: {error}");
            }
            ExitCode::from(UNREAD)
        }
    }
}
