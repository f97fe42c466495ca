//! The README's first program, whole.
use ra_ap_syntax::ast::{self, HasModuleItem, HasName};
use ra_ap_syntax::{AstNode, Edition, ParseError, SourceFile};
use rust_front::Rust;
use std::alloc::{AllocError, Global};

/// The names of the functions of a file.
fn functions(alloc: Global, file: &SourceFile) -> Result<Vec<String>, AllocError> {
    let mut names = Vec::new(alloc);
    for item in file.items() {
        if let ast::Item::Fn(function) = item {
            if let Some(name) = function.name() {
                names.push(format!(in alloc; "{}", name.syntax().as_str())?)?;
            }
        }
    }
    Ok(names)
}

/// The names of the functions of a text, whatever else is in it.
fn functions_of(alloc: Global, text: &str) -> Result<Vec<String>, ParseError> {
    let parse = SourceFile::parse(alloc, text, &Rust, Edition::CURRENT)?;
    match parse.tree() {
        Some(file) => Ok(functions(alloc, &file)?),
        None => Ok(Vec::new(alloc)),
    }
}

use std::test::Fail;

#[test]
fn functions_have_names(rt: HostRuntime) -> Result<(), Fail> {
    let text = "use a::b;\n\n/// One.\nfn one<T>(t: T) -> T { t }\nfn two(\nstruct S;\n";
    let names = functions_of(rt.alloc(), text)?;
    assert_eq!(rt; names.len(), 2);
    assert_eq!(rt; names[0].as_str(), "one");
    assert_eq!(rt; names[1].as_str(), "two");
    Ok(())
}
