// Answers on the nodes of texts.
use crate::answers;
use crate::sheet::Sheet;
use ra_ap_syntax::{Edition, SourceFile};
use rust_front::Rust;
use std::alloc::AllocError;
use std::io;

fn answer_text(rt: &HostRuntime, sheet: &mut Sheet, line: &str) -> Result<(), AllocError> {
    let text = line.replace(rt.alloc(), "\\n", "\n")?;
    let Ok(parse) = SourceFile::parse(rt.alloc(), text.as_str(), &Rust, Edition::CURRENT) else {
        return Err(AllocError);
    };
    sheet.line(line)?;
    answers(sheet, &parse.syntax_node())
}

/// The results of every accessor on every node of the texts of standard input.
pub fn answers_of_texts(rt: &HostRuntime) -> Result<Sheet, AllocError> {
    let mut sheet = Sheet::new(rt.alloc())?;
    let Ok(list) = io::read_to_string(rt.alloc(), rt.reader()) else {
        return Ok(sheet);
    };
    for line in list.lines() {
        answer_text(rt, &mut sheet, line)?;
    }
    Ok(sheet)
}
