//! Every edit of a short text: each range of it, with each of a few words in its place.

use ra_ap_syntax::{
    Edition, FrontEnd, NodeOrToken, Parse, SourceFile, SyntaxElement, SyntaxNode, SyntaxToken,
    SyntaxTreeBuilder, TextRange, TextSize, WalkEvent,
};
use std::alloc::Global;

// What comes in place of a range, and of a token's text.
const WORDS: [&str; 6] = ["", "a", " ", "{", "}", "\""];

/// Makes every edit of texts, and counts what came of them.
#[derive(Default, Drop)]
pub struct EveryEdit {
    texts: u64,
    pieces: u64,
    all: u64,
    different: u64,
    tokens: u64,
    wrong: u64,
}

// A parse, its text and its dump.
#[derive(Drop)]
struct Before<'t> {
    text: &'t str,
    parse: Parse<SourceFile>,
    dump: String,
}

// The first byte that goes, the byte after the last one, and what comes in their place.
#[derive(Clone, Copy)]
struct Edit {
    start: u32,
    end: u32,
    word: &'static str,
}

// What is parsed of the text after an edit.
#[derive(Drop)]
struct After {
    reparsed: Parse<SourceFile>,
    piece: Option<Parse<SourceFile>>,
    whole: Parse<SourceFile>,
}

// The text after an edit.
fn spliced(alloc: Global, text: &str, edit: Edit) -> anyhow::Result<String> {
    let front = text.get(..edit.start as usize).unwrap_or("");
    let back = text.get(edit.end as usize..).unwrap_or("");
    Ok(format!(in alloc; "{front}{}{back}", edit.word)?)
}

// The parses after an edit; `None` where its range is not one of the text.
fn edited<F: FrontEnd>(
    alloc: Global,
    front: &F,
    old: &Parse<SourceFile>,
    edit: Edit,
    new: &str,
) -> anyhow::Result<Option<After>> {
    let root = old.syntax_node();
    let text = root.as_str();
    let (start, end) = (edit.start, edit.end);
    if start > end
        || !text.is_char_boundary(start as usize)
        || !text.is_char_boundary(end as usize)
    {
        return Ok(None);
    }
    let delete = TextRange::new(TextSize::new(start), TextSize::new(end));
    let now = Edition::CURRENT;
    let found = old.incremental_reparse(alloc, front, delete, edit.word, now)?;
    Ok(Some(After {
        reparsed: old.reparse(alloc, front, delete, edit.word, now)?,
        piece: found.map(|(piece, _range)| piece),
        whole: SourceFile::parse(alloc, new, front, now)?,
    }))
}

// Whether two trees have one dump.
fn dump_alike(alloc: Global, one: &SyntaxNode, other: &SyntaxNode) -> anyhow::Result<bool> {
    Ok(one.dump(alloc)? == other.dump(alloc)?)
}

// Whether `reparse` returns what it has to: the piece, or else the parse of the whole text.
fn is_right(alloc: Global, after: &After, text: &str) -> anyhow::Result<bool> {
    let reparsed = &after.reparsed;
    if reparsed.syntax_node().as_str() != text {
        return Ok(false);
    }
    match &after.piece {
        Some(piece) => Ok(*piece == *reparsed),
        None => Ok(
            *reparsed == after.whole
                && reparsed.debug_dump(alloc)? == after.whole.debug_dump(alloc)?,
        ),
    }
}

// The tree with another text of one token, built from its events.
fn rebuilt(
    alloc: Global,
    root: &SyntaxNode,
    token: &SyntaxToken,
    word: &str,
) -> anyhow::Result<SyntaxNode> {
    let mut builder = SyntaxTreeBuilder::new(alloc);
    for event in root.preorder_with_tokens() {
        match event {
            WalkEvent::Enter(NodeOrToken::Node(node)) => builder.start_node(node.kind())?,
            WalkEvent::Leave(NodeOrToken::Node(_node)) => builder.finish_node()?,
            WalkEvent::Enter(NodeOrToken::Token(other)) => {
                let text = if other == *token { word } else { other.text() };
                builder.token(other.kind(), text)?;
            }
            WalkEvent::Leave(NodeOrToken::Token(_other)) => {}
        }
    }
    Ok(builder.finish()?.syntax_node())
}

// Whether the tree with another text of one token is the one that is built from its events.
fn is_replaced(
    alloc: Global,
    root: &SyntaxNode,
    token: &SyntaxToken,
    word: &'static str,
) -> anyhow::Result<bool> {
    let new = token.replace_with(alloc, token.kind(), word)?;
    let range = token.text_range();
    let edit = Edit {
        start: range.start().raw(),
        end: range.end().raw(),
        word,
    };
    let text = spliced(alloc, root.as_str(), edit)?;
    let other = rebuilt(alloc, root, token, word)?;
    Ok(new.as_str() == text.as_str() && new == other && dump_alike(alloc, &new, &other)?)
}

impl EveryEdit {
    /// Makes every edit of a text. It prints those that are wrong.
    pub fn try_text<F: FrontEnd>(
        &mut self,
        rt: &HostRuntime,
        front: &F,
        text: &str,
    ) -> anyhow::Result<()> {
        let parse = SourceFile::parse(rt.alloc(), text, front, Edition::CURRENT)?;
        let dump = parse.debug_dump(rt.alloc())?;
        let before = Before { text, parse, dump };
        let len = u32::try_from(text.len())?;
        for start in 0..=len {
            for end in start..=len {
                self.try_range(rt, front, &before, start, end)?;
            }
        }
        self.texts = self.texts.saturating_add(1);
        self.try_tokens(rt, &before)
    }

    fn try_range<F: FrontEnd>(
        &mut self,
        rt: &HostRuntime,
        front: &F,
        before: &Before,
        start: u32,
        end: u32,
    ) -> anyhow::Result<()> {
        for word in WORDS {
            let edit = Edit { start, end, word };
            if !self.try_edit(rt.alloc(), front, before, edit)? {
                self.wrong = self.wrong.saturating_add(1);
                println!(rt; "wrong: {start}..{end} {word:?} in {:?}", before.text)?;
            }
        }
        Ok(())
    }

    // Whether an edit gives what it has to, and leaves the old parse as it was.
    fn try_edit<F: FrontEnd>(
        &mut self,
        alloc: Global,
        front: &F,
        before: &Before,
        edit: Edit,
    ) -> anyhow::Result<bool> {
        let text = spliced(alloc, before.text, edit)?;
        let Some(after) = edited(alloc, front, &before.parse, edit, text.as_str())? else {
            return Ok(true);
        };
        self.count(alloc, &after)?;
        Ok(
            is_right(alloc, &after, text.as_str())?
                && before.parse.debug_dump(alloc)? == before.dump,
        )
    }

    // Counts an edit by what was parsed again.
    fn count(&mut self, alloc: Global, after: &After) -> anyhow::Result<()> {
        let Some(piece) = &after.piece else {
            self.all = self.all.saturating_add(1);
            return Ok(());
        };
        self.pieces = self.pieces.saturating_add(1);
        if !dump_alike(alloc, &piece.syntax_node(), &after.whole.syntax_node())? {
            self.different = self.different.saturating_add(1);
        }
        Ok(())
    }

    // Puts each word in place of each token's text.
    fn try_tokens(&mut self, rt: &HostRuntime, before: &Before) -> anyhow::Result<()> {
        let root = before.parse.syntax_node();
        for element in root.descendants_with_tokens() {
            if let NodeOrToken::Token(token) = element {
                self.try_token(rt, before, &root, &token)?;
            }
        }
        Ok(())
    }

    fn try_token(
        &mut self,
        rt: &HostRuntime,
        before: &Before,
        root: &SyntaxNode,
        token: &SyntaxToken,
    ) -> anyhow::Result<()> {
        for word in WORDS {
            self.tokens = self.tokens.saturating_add(1);
            if !is_replaced(rt.alloc(), root, token, word)?
                || before.parse.debug_dump(rt.alloc())? != before.dump
            {
                self.wrong = self.wrong.saturating_add(1);
                println!(rt; "wrong: {word:?} for {token:?} in {:?}", before.text)?;
            }
        }
        Ok(())
    }

    /// Prints the counts, if there was a text.
    pub fn tell(&self, rt: &HostRuntime) -> anyhow::Result<()> {
        if self.texts > 0 {
            println!(rt;
                "every edit of {} texts: {} of one piece, {} of all; {} trees of a piece differ from those of a new parse; {} tokens replaced; {} are wrong",
                self.texts, self.pieces, self.all, self.different, self.tokens, self.wrong
            )?;
        }
        Ok(())
    }

    /// Whether an edit was wrong.
    pub fn is_wrong(&self) -> bool {
        self.wrong > 0
    }
}
