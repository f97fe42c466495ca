//! Edits without a test of what comes of them, so that their instructions can be counted.
ghost use Rattle.ra_ap_syntax.specs.Tree.{text};
ghost use Rattle.ra_ap_syntax.specs.TextEdit.{IsEditOf};

use crate::chance::{Chance, Edit, edited};
use crate::sessions::TYPED;
use ra_ap_syntax::{Document, Edition, Parse, SourceFile, TextRange, TextSize};
use rust_front::Rust;
use std::alloc::Global;

/// What makes the edits.
#[derive(Clone, Copy, PartialEq, Eq)]
pub enum By {
    Nothing,
    Reparse,
    Document,
}

/// Makes edits by chance, one after another, and nothing else.
#[derive(Drop)]
pub struct Turns {
    by: By,
    chance: Chance,
    edits: u64,
}

// The parse of a text after an edit of it, as `Parse::reparse` makes it.
fn reparsed(
    alloc: Global,
    parse: &Parse<SourceFile>,
    edit: &Edit,
    edition: Edition,
) -> anyhow::Result<Parse<SourceFile>> {
    let root = parse.syntax_node();
    let old = root.as_str();
    let (start, end) = (edit.start, edit.end);
    if start > end || !old.is_char_boundary(start as usize) || !old.is_char_boundary(end as usize) {
        return Ok(parse.clone()?);
    }
    let delete = TextRange::new(TextSize::new(start), TextSize::new(end));
    Ok(parse.reparse(alloc, &Rust, delete, edit.insert.as_str(), edition)?)
}

fn edit_document(alloc: Global, document: &mut Document<Rust>, edit: &Edit) -> anyhow::Result<()> {
    let old = document.text();
    let (start, end) = (edit.start, edit.end);
    if start > end || !old.is_char_boundary(start as usize) || !old.is_char_boundary(end as usize) {
        return Ok(());
    }
    let delete = TextRange::new(TextSize::new(start), TextSize::new(end));
    document.edit(alloc, delete, edit.insert.as_str())?;
    Ok(())
}

impl Turns {
    /// Edits by the numbers that follow a seed.
    pub fn new(by: By, seed: u64) -> Turns {
        Turns {
            by,
            chance: Chance::new(seed),
            edits: 0,
        }
    }

    /// Makes so many edits of one file, each of what the one before left. The text is edited
    /// beside, and a parse and a document are made first, whatever makes the edits.
    pub fn try_file(
        &mut self,
        rt: &HostRuntime,
        text: &str,
        edition: Edition,
        count: u64,
    ) -> anyhow::Result<()> {
        let alloc = rt.alloc();
        let mut now = format!(in alloc; "{text}")?;
        let mut parse = SourceFile::parse(alloc, text, &Rust, edition)?;
        let mut document = Document::new(alloc, Rust, text, edition)?;
        for _edit in 0..count {
            let edit = self.chance.edit(alloc, now.as_str(), &TYPED)?;
            self.edits = self.edits.saturating_add(1);
            match self.by {
                By::Nothing => {}
                By::Reparse => parse = reparsed(alloc, &parse, &edit, edition)?,
                By::Document => edit_document(alloc, &mut document, &edit)?,
            }
            now = edited(alloc, now.as_str(), &edit)?;
        }
        Ok(())
    }

    /// Prints how many edits were made.
    pub fn tell(&self, rt: &HostRuntime) -> anyhow::Result<()> {
        println!(rt; "turns: {} edits", self.edits)?;
        Ok(())
    }
}
