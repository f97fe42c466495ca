//! Sessions of edits of a document: after each, its tree and its errors are compared with those of
//! a new parse of its text.
ghost use Rattle.ra_ap_syntax.specs.Tree.{text};
ghost use Rattle.ra_ap_syntax.specs.TextEdit.{IsEditOf};

use crate::chance::{Chance, Edit, edited};
use ra_ap_syntax::{Document, Edition, NodeOrToken, Parse, SourceFile, TextRange, TextSize};
use rust_front::Rust;
use std::alloc::Global;
use text_edit::{Indel, OverlapError, TextEdit};

// What comes in place of every range of a short text.
const WORDS: [&str; 30] = [
    "", "a", " ", "\n", "\n\n", "{", "}", "{}", "(", ")", "[", "\"", "'", "'a", "#", "#[a]", "//",
    "/*", "*/", "1.", "+", ";", ",", "=>", "x\"a\"", "\"(//\"", "---\n", "union ", "dyn ", "r#\"",
];

/// What a user types, letter by letter and at once, and then what changes how other text is read.
pub const TYPED: [&str; 84] = [
    "a",
    "x1",
    "_",
    "é",
    " ",
    "\n",
    "\n\n",
    "(",
    ")",
    "{",
    "}",
    "[",
    "]",
    "<",
    ">",
    "\"",
    "'",
    "'a",
    "#",
    "!",
    ";",
    ",",
    ".",
    "..",
    ":",
    "::",
    "=",
    "==",
    "&",
    "|",
    "+",
    "-",
    "*",
    "/",
    "//",
    "/*",
    "*/",
    "r#\"",
    "fn f() {}",
    "let a = 1;",
    "auto ",
    "default ",
    "union ",
    "safe",
    "raw",
    "macro_rules",
    "dyn",
    "builtin",
    "yeet",
    "async ",
    "unsafe ",
    "const ",
    "r",
    "b",
    "0",
    "1e",
    "#[",
    "#![a]",
    "#[a]\n",
    "/// d\n",
    "//! d\n",
    "{}",
    "[]",
    "()",
    "=>",
    "else ",
    "if a {",
    "match a {",
    "'a: ",
    "#![",
    "\\",
    "pub ",
    "---\n",
    "#!/bin/sh\n",
    "x\"a\"",
    "\"(//\"",
    "k#a",
    "'r#a",
    "1.",
    "// c\n",
    "/* c */",
    "b'",
    "c\"",
    "\r\n",
];

/// Makes edits of documents, and counts what came of them.
#[derive(Drop)]
pub struct Sessions {
    chance: Chance,
    tokens: u64,
    blocks: u64,
    all: u64,
    // edits of several replacements
    several: u64,
    // edits after which `incremental_reparse` reads one token or block again
    reparsed: u64,
    trees: u64,
    errors: u64,
    texts: u64,
}

fn more(count: &mut u64) {
    *count = count.saturating_add(1);
}

// Whether a parse has the errors of another one in their order: those that are stored, and all.
fn has_errors(
    alloc: Global,
    found: &Parse<SourceFile>,
    whole: &Parse<SourceFile>,
) -> anyhow::Result<bool> {
    Ok(found.stored() == whole.stored() && found.errors(alloc)? == whole.errors(alloc)?)
}

impl Sessions {
    /// Edits by the numbers that follow a seed.
    pub fn new(seed: u64) -> Sessions {
        Sessions {
            chance: Chance::new(seed),
            tokens: 0,
            blocks: 0,
            all: 0,
            several: 0,
            reparsed: 0,
            trees: 0,
            errors: 0,
            texts: 0,
        }
    }

    /// Makes so many edits of a text, each of a new document; as many more, one after the other, of
    /// one document; and as many of several replacements, of another one.
    pub fn try_file(
        &mut self,
        rt: &HostRuntime,
        path: &str,
        text: &str,
        edition: Edition,
        count: u64,
    ) -> anyhow::Result<()> {
        for _edit in 0..count {
            let mut document = Document::new(rt.alloc(), Rust, text, edition)?;
            self.try_any(rt, path, &mut document)?;
        }
        let mut document = Document::new(rt.alloc(), Rust, text, edition)?;
        for _edit in 0..count {
            self.try_any(rt, path, &mut document)?;
        }
        let mut document = Document::new(rt.alloc(), Rust, text, edition)?;
        for _edit in 0..count {
            self.try_several(rt, path, &mut document)?;
        }
        Ok(())
    }

    /// Replaces every range of a text by every word.
    pub fn try_text(&mut self, rt: &HostRuntime, text: &str) -> anyhow::Result<()> {
        let len = u32::try_from(text.len())?;
        for start in 0..=len {
            for end in start..=len {
                for word in WORDS {
                    let edit = Edit {
                        start,
                        end,
                        insert: format!(in rt.alloc(); "{word}")?,
                    };
                    let mut document = Document::new(rt.alloc(), Rust, text, Edition::CURRENT)?;
                    self.try_edit(rt, "every edit", &mut document, &edit)?;
                }
            }
        }
        Ok(())
    }

    // Makes an edit by chance.
    fn try_any(
        &mut self,
        rt: &HostRuntime,
        path: &str,
        document: &mut Document<Rust>,
    ) -> anyhow::Result<()> {
        let edit = self.chance.edit(rt.alloc(), document.text(), &TYPED)?;
        self.try_edit(rt, path, document, &edit)
    }

    // Makes up to twelve replacements by chance at once, without those that overlap one before.
    fn try_several(
        &mut self,
        rt: &HostRuntime,
        path: &str,
        document: &mut Document<Rust>,
    ) -> anyhow::Result<()> {
        let alloc = rt.alloc();
        let mut edits = TextEdit::new(alloc);
        for _one in 0..=self.chance.below(12) {
            let edit = self.chance.edit(alloc, document.text(), &TYPED)?;
            if edit.start > edit.end {
                continue;
            }
            let delete = TextRange::new(TextSize::new(edit.start), TextSize::new(edit.end));
            match edits.add(Indel::replace(delete, edit.insert)) {
                Ok(()) | Err(OverlapError::Overlap) => {}
                Err(refused) => return Err(refused.into()),
            }
        }
        let before = format!(in alloc; "{}", document.text())?;
        let new = edits.apply(alloc, document.text())?;
        document.edits(alloc, &edits)?;
        more(&mut self.several);
        if !self.is_parse(alloc, document, new.as_str())? {
            println!(rt;
                "document: {path} {:?} {} replacements in {before:?} to {new:?}",
                document.edition(),
                edits.len()
            )?;
        }
        Ok(())
    }

    // Makes an edit on a document, and prints it if its parse is not that of its text.
    fn try_edit(
        &mut self,
        rt: &HostRuntime,
        path: &str,
        document: &mut Document<Rust>,
        edit: &Edit,
    ) -> anyhow::Result<()> {
        let old = document.text();
        let (start, end) = (edit.start, edit.end);
        if start > end
            || !old.is_char_boundary(start as usize)
            || !old.is_char_boundary(end as usize)
        {
            return Ok(());
        }
        let before = format!(in rt.alloc(); "{old}")?;
        let new = edited(rt.alloc(), old, edit)?;
        let delete = TextRange::new(TextSize::new(start), TextSize::new(end));
        self.count_reparse(rt.alloc(), document, delete, edit.insert.as_str())?;
        let range = document.edit(rt.alloc(), delete, edit.insert.as_str())?;
        self.count_edit(document, range, new.len());
        if !self.is_parse(rt.alloc(), document, new.as_str())? {
            println!(rt;
                "document: {path} {:?} {start}..{end} {:?} in {before:?}",
                document.edition(),
                edit.insert
            )?;
        }
        Ok(())
    }

    // Counts an edit if a reparse of one token or block would do.
    fn count_reparse(
        &mut self,
        alloc: Global,
        document: &Document<Rust>,
        delete: TextRange,
        insert: &str,
    ) -> anyhow::Result<()>
        requires { IsEditOf (text document.now.parse.tree)
            (record { delete = delete; insert = insert.now }) }
    {
        let parse = document.parse();
        let edition = document.edition();
        if parse
            .incremental_reparse(alloc, &Rust, delete, insert, edition)?
            .is_some()
        {
            more(&mut self.reparsed);
        }
        Ok(())
    }

    // Counts an edit by what was read again.
    fn count_edit(&mut self, document: &Document<Rust>, range: TextRange, len: usize) {
        if range.start().raw() == 0 && range.end().raw() as usize == len {
            more(&mut self.all);
            return;
        }
        let root = document.parse().syntax_node();
        let is_token = match root.covering_element(range) {
            NodeOrToken::Token(_) => true,
            NodeOrToken::Node(_) => false,
        };
        more(if is_token {
            &mut self.tokens
        } else {
            &mut self.blocks
        });
    }

    // Whether the parse of a document is that of its text, which has to be this one.
    fn is_parse(
        &mut self,
        alloc: Global,
        document: &Document<Rust>,
        text: &str,
    ) -> anyhow::Result<bool> {
        let whole = SourceFile::parse(alloc, text, &Rust, document.edition())?;
        let parse = document.parse();
        if document.text() != text {
            more(&mut self.texts);
            return Ok(false);
        }
        if parse.syntax_node() != whole.syntax_node() {
            more(&mut self.trees);
            return Ok(false);
        }
        if !has_errors(alloc, parse, &whole)? {
            more(&mut self.errors);
            return Ok(false);
        }
        Ok(true)
    }

    /// Whether a document had another parse than its text.
    pub fn is_wrong(&self) -> bool {
        self.trees > 0 || self.errors > 0 || self.texts > 0
    }

    /// Prints the counts, and to standard error those of what was read again.
    pub fn tell(&self, rt: &HostRuntime) -> anyhow::Result<()> {
        eprintln!(rt;
            "documents: {} edits of a token, {} of a block, {} of all, where a reparse reads {} tokens or blocks",
            self.tokens, self.blocks, self.all, self.reparsed
        )?;
        let edits = self
            .tokens
            .saturating_add(self.blocks)
            .saturating_add(self.all);
        println!(rt;
            "documents: {edits} edits, {} of several replacements; {} trees differ from those of a new parse, {} have other errors, {} texts are wrong",
            self.several, self.trees, self.errors, self.texts
        )?;
        Ok(())
    }
}
