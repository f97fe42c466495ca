//! Edits by chance: what goes of a text, and what comes in its place.
use rand_core::Rng;
use rand_pcg::Pcg32;
use std::alloc::Global;

/// The bytes that go, and the text that comes.
#[derive(Drop)]
pub struct Edit {
    pub start: u32,
    pub end: u32,
    pub insert: String,
}

/// Numbers that follow a seed.
#[derive(Drop)]
pub struct Chance {
    numbers: Pcg32,
}

// The nearest character boundary before or at an offset.
fn boundary(text: &str, offset: usize) -> usize {
    let mut at = offset.min(text.len());
    for _step in 0..4 {
        if text.is_char_boundary(at) {
            return at;
        }
        at = at.saturating_sub(1);
    }
    0
}

fn short(offset: usize) -> u32 {
    u32::try_from(offset).unwrap_or(u32::MAX)
}

// What comes in place of what goes, if anything does.
fn inserted<'a>(kind: usize, typed: &'a str, piece: &'a str) -> &'a str {
    match kind {
        0 | 1 => "",
        2 | 3 => piece,
        _ => typed,
    }
}

/// The text after an edit.
pub fn edited(alloc: Global, text: &str, edit: &Edit) -> anyhow::Result<String> {
    let mut new = String::new(alloc);
    new.push_str(text.get(..edit.start as usize).unwrap_or(""))?;
    new.push_str(edit.insert.as_str())?;
    new.push_str(text.get(edit.end as usize..).unwrap_or(""))?;
    Ok(new)
}

impl Chance {
    /// The numbers of a seed.
    pub fn new(seed: u64) -> Chance {
        Chance {
            numbers: Pcg32::new(seed, 54),
        }
    }

    /// A number below n; 0 where n is 0.
    pub fn below(&mut self, n: usize) -> usize {
        let word = self.numbers.next_u32() as usize;
        if n == 0 { 0 } else { word % n }
    }

    // A piece of the text of less than so many bytes, from any place on.
    fn span(&mut self, text: &str, most: usize) -> (usize, usize) {
        let start = boundary(text, self.below(text.len().saturating_add(1)));
        let end = boundary(text, start.saturating_add(self.below(most))).max(start);
        (start, end)
    }

    fn one_of(&mut self, words: &[&'static str]) -> &'static str {
        match words.get(self.below(words.len())) {
            Some(word) => word,
            None => "a",
        }
    }

    /// Half of all edits type one of the words, the others delete, paste a piece of the text, or
    /// put it in place of another.
    pub fn edit(
        &mut self,
        alloc: Global,
        text: &str,
        words: &[&'static str],
    ) -> anyhow::Result<Edit> {
        let kind = self.below(8);
        let (start, end) = self.span(text, if kind == 1 { 200 } else { 8 });
        let (from, to) = self.span(text, 80);
        let piece = text.get(from..to).unwrap_or("");
        let insert = inserted(kind, self.one_of(words), piece);
        Ok(Edit {
            start: short(start),
            end: short(if kind < 4 && kind != 2 { end } else { start }),
            insert: format!(in alloc; "{insert}")?,
        })
    }
}
