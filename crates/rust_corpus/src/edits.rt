//! Random edits of a text: what is typed, deleted and pasted.
use crate::chance::{Chance, Edit, edited};
use crate::sessions::TYPED;
use ra_ap_syntax::{Edition, NodeOrToken, Parse, SourceFile, TextRange, TextSize};
use rust_front::Rust;
use std::alloc::Global;

// How many of what a user types are typed letter by letter or at once, whatever the text is.
const LETTERS: usize = 40;

/// Makes edits and counts what came of them.
#[derive(Drop)]
pub struct Edits {
    chance: Chance,
    tokens: u64,
    blocks: u64,
    all: u64,
    different: u64,
    other_errors: u64,
    wrong_texts: u64,
}

// A number made of the errors of a parse, whatever their order.
fn errors(alloc: Global, parse: &Parse<SourceFile>) -> anyhow::Result<u64> {
    let mut all = 0u64;
    for error in &parse.errors(alloc)? {
        let mut one = 7u64;
        for byte in format!(in alloc; "{} {error}", error.range())?.as_bytes() {
            one = one.wrapping_mul(31).wrapping_add(*byte as u64);
        }
        all = all.wrapping_add(one);
    }
    Ok(all)
}

impl Edits {
    /// Edits by the numbers that follow a seed.
    pub fn new(seed: u64) -> Edits {
        Edits {
            chance: Chance::new(seed),
            tokens: 0,
            blocks: 0,
            all: 0,
            different: 0,
            other_errors: 0,
            wrong_texts: 0,
        }
    }

    /// Makes so many edits of one file, each of the text as it is.
    pub fn try_file(
        &mut self,
        rt: &HostRuntime,
        path: &str,
        text: &str,
        edition: Edition,
        count: u64,
    ) -> anyhow::Result<()> {
        let parse = SourceFile::parse(rt.alloc(), text, &Rust, edition)?;
        for _edit in 0..count {
            let edit = self.chance.edit(rt.alloc(), text, &TYPED[..LETTERS])?;
            if !self.is_kept(rt.alloc(), &parse, text, &edit, edition)? {
                println!(rt;
                    "{path} {edition:?} {}..{} {:?}",
                    edit.start, edit.end, edit.insert
                )?;
            }
        }
        Ok(())
    }

    // Whether an edit of one piece gives the tree and the errors of a new parse.
    fn is_kept(
        &mut self,
        alloc: Global,
        parse: &Parse<SourceFile>,
        text: &str,
        edit: &Edit,
        edition: Edition,
    ) -> anyhow::Result<bool> {
        let new_text = edited(alloc, text, edit)?;
        let root = parse.syntax_node();
        let old = root.as_str();
        let (start, end) = (edit.start, edit.end);
        if start > end
            || !old.is_char_boundary(start as usize)
            || !old.is_char_boundary(end as usize)
        {
            return Ok(true);
        }
        let delete = TextRange::new(TextSize::new(start), TextSize::new(end));
        let Some((piece, range)) = parse.incremental_reparse(
            alloc,
            &Rust,
            delete,
            edit.insert.as_str(),
            edition,
        )?
        else {
            self.all = self.all.saturating_add(1);
            return Ok(true);
        };
        match root.covering_element(range) {
            NodeOrToken::Token(_) => self.tokens = self.tokens.saturating_add(1),
            NodeOrToken::Node(_) => self.blocks = self.blocks.saturating_add(1),
        }
        if piece.syntax_node().as_str() != new_text.as_str() {
            self.wrong_texts = self.wrong_texts.saturating_add(1);
        }
        let whole = SourceFile::parse(alloc, new_text.as_str(), &Rust, edition)?;
        let is_same = piece.syntax_node().dump(alloc)? == whole.syntax_node().dump(alloc)?;
        if !is_same {
            self.different = self.different.saturating_add(1);
        }
        // The errors of a piece follow those that are kept, so their order is no matter.
        let has_errors = errors(alloc, &piece)? == errors(alloc, &whole)?;
        if is_same && !has_errors {
            self.other_errors = self.other_errors.saturating_add(1);
        }
        Ok(is_same && has_errors)
    }

    /// Prints the counts.
    pub fn tell(&self, rt: &HostRuntime) -> anyhow::Result<()> {
        println!(rt;
            "edits: {} of a token, {} of a block, {} of all; {} trees differ from those of a new parse, {} have other errors, {} texts are wrong",
            self.tokens, self.blocks, self.all, self.different, self.other_errors, self.wrong_texts
        )?;
        Ok(())
    }
}
