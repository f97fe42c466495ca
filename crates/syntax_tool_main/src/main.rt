//! The program `syntax_tool`.
#![tactic(auto)]

use std::process::ExitCode;
use std::{env, io};
use syntax_tool::run;

// The command: the one argument, `events` without one. More arguments, or ones that can't be read,
// are the empty word, which is no command.
fn main(rt: HostRuntime) -> ExitCode {
    let mut reader = rt.reader();
    let mut writer = io::writer(&rt);
    let status = match env::args(&rt) {
        Ok(mut words) => {
            let _program = words.next();
            match (words.next(), words.next()) {
                (None, _) => run(rt.alloc(), &mut reader, &mut writer, "events"),
                (Some(command), None) => run(
                    rt.alloc(),
                    &mut reader,
                    &mut writer,
                    command.as_str(),
                ),
                (Some(_), Some(_)) => run(rt.alloc(), &mut reader, &mut writer, ""),
            }
        }
        Err(_) => run(rt.alloc(), &mut reader, &mut writer, ""),
    };
    ExitCode::from(status)
}
