//! The commands.
ghost use Rattle.std.specs.Prelude.{◌≡◌};
ghost use Rattle.syntax_tool.specs.Output.{command_of};

/// A command of the program.
#[derive(Clone, Copy, Debug, PartialEq, Eq)]
pub enum Command {
    /// Event lines to the dump of the tree that they build.
    Events,
    /// A file's text to the dump of its tree, with its errors.
    Dump,
    /// An expression's text to whether its tree reads back, and its needless pairs of parentheses.
    Parens,
    /// An edit and a file's text to the dump of the tree after the edit, and what was parsed again.
    Reparse,
}

impl Command {
    /// The command of a name, or `None` if there is none of that name.
    pub fn named(name: &str) -> Option<Command>
        ensures { result ≡ command_of name.now }
    {
        match name {
            "events" => Some(Command::Events),
            "dump" => Some(Command::Dump),
            "parens" => Some(Command::Parens),
            "reparse" => Some(Command::Reparse),
            _ => None,
        }
    }
}
