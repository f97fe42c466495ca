//! The examples by the parts of the language. Made by `tools/views` from `views.txt`.
#[cfg(test)]
mod attr;
#[cfg(test)]
mod control;
#[cfg(test)]
mod enums;
#[cfg(test)]
mod expr;
#[cfg(test)]
mod generic;
#[cfg(test)]
mod item;
#[cfg(test)]
mod part;
#[cfg(test)]
mod pat;
#[cfg(test)]
mod path;
#[cfg(test)]
mod rust_asm;
#[cfg(test)]
mod rust_expr;
#[cfg(test)]
mod rust_item;
#[cfg(test)]
mod rust_pat;
#[cfg(test)]
mod rust_path;
#[cfg(test)]
mod shared;
#[cfg(test)]
mod stmt;
#[cfg(test)]
mod ty;
