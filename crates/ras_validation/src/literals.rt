//! Faults of literals.
ghost use Rattle.std.specs.Prelude.{◌≡◌, true, ◌+◌, ◌<◌, ◌≤◌, ◌^◌, ◌++◌, length, flat_map, OnOk, IfSome, option_map};
ghost use Rattle.std.specs.Str.{chars};
ghost use Rattle.literal_escape.specs.Literal.{is_string};
ghost use Rattle.literal_escape.specs.Reading.{reports_in};
ghost use Rattle.tree_model.specs.Tree.{text};
ghost use Rattle.tree_model.specs.Cursor.{focus};
ghost use Rattle.ras_node.specs.Nodes.{kind_at};
ghost use Rattle.ras_validation.specs.Plain.{stands_for_itself, is_plain};
ghost use Rattle.ras_validation.specs.Violations.{fault_at, report_fault, content_faults, form_of, content_of, token_faults, literal_faults};

use crate::lookups::literal_token;
use crate::violation::{Violation, ViolationMessage};
use literal_escape::{EscapeError, MixedUnit, Mode, Units, unescape_unit};
use lossless_tree::{SyntaxKind, SyntaxNode, SyntaxToken};
use ras_token_ext::{cut, is_raw, last_place};
use std::alloc::AllocError;
use text_size::{TextRange, TextSize};

// A literal whose content is checked: its mode, the offset of the content, and the quote that ends
// it.
#[derive(Clone, Copy)]
pub struct LiteralForm {
    pub mode: Mode,
    pub start: usize,
    pub quote: u8,
}

// The form of a token by its kind and text; `None` for a token that is not such a literal, and for
// a raw string.
fn form(kind: SyntaxKind, text: &str) -> Option<LiteralForm>
    ensures { result ≡ form_of kind text.now }
{
    let (mode, start, quote) = match kind {
        SyntaxKind::STRING if !is_raw(text, "r") => (Mode::Str, 1, b'"'),
        SyntaxKind::BYTE_STRING if !is_raw(text, "br") => (Mode::ByteStr, 2, b'"'),
        SyntaxKind::C_STRING if !is_raw(text, "cr") => (Mode::CStr, 2, b'"'),
        SyntaxKind::CHAR => (Mode::Char, 1, b'\''),
        SyntaxKind::BYTE => (Mode::Byte, 2, b'\''),
        _ => return None,
    };
    Some(LiteralForm { mode, start, quote })
}

// The content of a literal of the form; `None` if the text does not have the form.
fn content(form: LiteralForm, text: &str) -> Option<&str>
    ensures value { option_map (λ s. s.now) result ≡ content_of form text.now }
    ensures within { IfSome result (λ s. form.start + length s.now ≤ length text.now) }
{
    let end = last_place(text, form.quote)?;
    cut(text, form.start, end)
}

// Appends the violation of a unit that starts at an offset, if it has a fatal fault.
fn add_fault(
    found: &mut Vec<Violation>,
    at: TextSize,
    unit: Result<MixedUnit, EscapeError>,
) -> Result<(), AllocError>
    ensures { OnOk result (found.new.items ≡ found.old.items ++ fault_at at unit) }
{
    if let Err(fault) = unit {
        if fault.is_fatal() {
            found.push(Violation {
                message: ViolationMessage::Escape(fault),
                range: TextRange::empty(at),
            })?;
        }
    }
    Ok(())
}

// Appends the faults of the units of a string's content that starts at an offset.
fn add_unit_faults(
    found: &mut Vec<Violation>,
    mode: Mode,
    start: u32,
    content: &str,
) -> Result<(), AllocError>
    requires { start + length content.now < 2 ^ 32 }
    ensures { OnOk result (found.new.items
        ≡ found.old.items
        ++ flat_map (report_fault start) (reports_in mode (chars content.now))) }
{
    let mut units = Units::new(mode, content);
    while let Some(report) = units.next() {
        let at = start + report.start as u32;
        add_fault(found, TextSize::new(at), report.unit)?;
    }
    Ok(())
}

// Whether a character stands for itself in a string, and may.
fn stands_for_itself(mode: Mode, c: char) -> bool
    ensures { result ≡ stands_for_itself mode c }
{
    c != '\\'
        && (c != '\r'
            && (c != '"'
                && (c != '\0' && !(matches!(mode, Mode::Byte | Mode::ByteStr) && !c.is_ascii()))))
}

fn is_plain(mode: Mode, content: &str) -> bool
    ensures { result ≡ is_plain mode (chars content.now) }
{
    content.chars().all(|c| stands_for_itself(mode, c))
}

// The same of a string, most of which have no escapes and need not be read unit by unit.
fn add_string_faults(
    found: &mut Vec<Violation>,
    mode: Mode,
    start: u32,
    content: &str,
) -> Result<(), AllocError>
    requires string { is_string mode ≡ true }
    requires fits { start + length content.now < 2 ^ 32 }
    ensures { OnOk result (found.new.items
        ≡ found.old.items
        ++ flat_map (report_fault start) (reports_in mode (chars content.now))) }
{
    if is_plain(mode, content) {
        return Ok(());
    }
    add_unit_faults(found, mode, start, content)
}

// Appends the faults of a content that starts at an offset.
fn add_content_faults(
    found: &mut Vec<Violation>,
    mode: Mode,
    start: u32,
    content: &str,
) -> Result<(), AllocError>
    requires { start + length content.now < 2 ^ 32 }
    ensures { OnOk result
        (found.new.items ≡ found.old.items ++ content_faults mode start content.now) }
{
    match mode {
        Mode::Str | Mode::ByteStr | Mode::CStr => add_string_faults(found, mode, start, content),
        Mode::Char | Mode::Byte => add_fault(
            found,
            TextSize::new(start),
            unescape_unit(content, mode),
        ),
    }
}

// Appends the faults of a token.
fn add_token_faults(found: &mut Vec<Violation>, token: &SyntaxToken) -> Result<(), AllocError>
    ensures { OnOk result (found.new.items ≡ found.old.items ++ token_faults token.now) }
{
    let text = token.text();
    let Some(form) = form(token.kind(), text) else {
        return Ok(());
    };
    let Some(content) = content(form, text) else {
        return Ok(());
    };
    let start = token.text_range().start().raw() + form.start as u32;
    add_content_faults(found, form.mode, start, content)
}

// Appends the faults of the token of a `LITERAL`: for a string, byte string or C string that is not
// raw each unit with a fatal fault, in order; for a character or a byte the first fault. If memory
// runs out, some of them may be missing.
pub(crate) fn add_literal_faults(
    found: &mut Vec<Violation>,
    literal: &SyntaxNode,
) -> Result<(), AllocError>
    ensures { OnOk result (found.new.items ≡ found.old.items ++ literal_faults literal.now) }
{
    match literal_token(literal) {
        Some(token) => add_token_faults(found, &token),
        None => Ok(()),
    }
}
