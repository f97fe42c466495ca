//! Pages of HTML.
ghost use Rattle.std.specs.Prelude.{◌≡◌};
ghost use Rattle.rust_report.specs.declared.escapes.Medium.TheVariants.{Html};

use rust_report::{Escaped, Medium};
use std::io;
use std::io::Write;

/// A text in a page.
pub fn in_html(text: &str) -> Escaped<'_>
    ensures text { result.text.now ≡ text.now }
    ensures medium { result.medium ≡ Html }
{
    Escaped {
        text,
        medium: Medium::Html,
    }
}

/// Writes the head of a page, whose title is the names of its files, up to the style.
pub fn write_head<W: Write>(out: &mut W, names: &[&str]) -> io::Result<()> {
    out.write_all(
        b"<!DOCTYPE html>\n<html lang=\"en\">\n<head>\n<meta charset=\"utf-8\">\n<title>",
    )?;
    for (number, name) in names.iter().enumerate() {
        if number > 0 {
            out.write_all(b" and ")?;
        }
        write!(out, "{}", in_html(name))?;
    }
    out.write_all(b"</title>\n")
}
