//! Counts of a run, and its exit status.

use rust_report::{noun_for, with_commas};
use std::io;
use std::io::IsTerminal;
use std::time::Instant;

/// The exit status if something was found: an error, a difference, a pair of parentheses.
pub const FOUND: u8 = 1;
/// The exit status if the command line is invalid, or names a place that a file does not have.
pub const USAGE: u8 = 2;
/// The exit status if a file could not be read or written, or memory ran out.
pub const UNREAD: u8 = 3;

// From this number of files on, a run prints its totals.
const MANY: u64 = 100;

// A terminal shows the number of files each time that this many were read.
const SHOWN: u64 = 50;

// If standard error is no terminal, it gets a line each time that this many were read.
const NOTED: u64 = 1000;

/// The noun for what a command finds.
#[derive(Clone, Copy, Debug)]
pub struct Noun {
    /// For one.
    pub one: &'static str,
    /// For any other number.
    pub many: &'static str,
}

const FILES: Noun = Noun {
    one: "file",
    many: "files",
};

/// Counts of a run.
#[derive(Clone, Copy, Debug)]
pub struct Session {
    /// How many files were read.
    pub files: u64,
    /// How many bytes they have.
    pub bytes: u64,
    /// How much was found.
    pub found: u64,
    /// The highest exit status of a file without a report; 0 if there is none.
    pub failed: u8,
    // Whether standard error is a terminal.
    is_terminal: bool,
}

// Writes a number with commas between thousands, and its noun, to standard error.
fn write_number(rt: &HostRuntime, number: u64, noun: Noun) -> io::Result<()> {
    let digits = with_commas(rt.alloc(), number)?;
    eprint!(rt; "{digits} {}", noun_for(number, noun.one, noun.many))
}

// Writes a number of bytes in megabytes, and a time in seconds, to standard error.
fn write_costs(rt: &HostRuntime, bytes: u64, millis: u128) -> io::Result<()> {
    let (whole, tenths) = (bytes / 1_000_000, bytes % 1_000_000 / 100_000);
    let (seconds, hundredths) = (millis / 1000, millis % 1000 / 10);
    eprint!(rt; ", {whole}.{tenths} MB, {seconds}.{hundredths:02} s, ")
}

impl Session {
    /// The counts before the first file.
    pub fn new(rt: &HostRuntime) -> Session {
        Session {
            is_terminal: rt.stderr().is_terminal(),
            files: 0,
            bytes: 0,
            found: 0,
            failed: 0,
        }
    }

    /// Counts a file that was read, its bytes, and what was found in it.
    pub fn read(&mut self, bytes: usize, found: u64) {
        self.files = self.files.saturating_add(1);
        self.bytes = self.bytes.saturating_add(bytes as u64);
        self.found = self.found.saturating_add(found);
    }

    /// Notes the exit status of a file without a report.
    pub fn fail(&mut self, status: u8) {
        self.failed = self.failed.max(status);
    }

    /// The exit status. That of a file without a report takes precedence over that of something
    /// found.
    pub fn status(&self) -> u8 {
        if self.failed > 0 {
            self.failed
        } else if self.found > 0 {
            FOUND
        } else {
            0
        }
    }

    /// Prints the number of files read so far to standard error, if it is due.
    pub fn show_progress(&self, rt: &HostRuntime) -> io::Result<()> {
        if self.is_terminal && self.files % SHOWN == 0 {
            eprint!(rt; "\r")?;
            write_number(rt, self.files, FILES)?;
            eprint!(rt; "\r")
        } else if !self.is_terminal && self.files % NOTED == 0 {
            write_number(rt, self.files, FILES)?;
            eprintln!(rt; " so far")
        } else {
            Ok(())
        }
    }

    /// Prints the totals to standard error, if there were many files, or several on a terminal.
    pub fn tell(&self, rt: &HostRuntime, found: Noun, start: Instant) -> io::Result<()> {
        if self.files < MANY && !(self.is_terminal && self.files > 1) {
            return Ok(());
        }
        let millis = start.elapsed(rt)?.as_millis();
        if self.is_terminal {
            eprint!(rt; "\r")?;
        }
        write_number(rt, self.files, FILES)?;
        write_costs(rt, self.bytes, millis)?;
        write_number(rt, self.found, found)?;
        eprintln!(rt)
    }
}
