//! How severe a match is.
ghost use Rattle.std.specs.Prelude.{◌≡◌};
ghost use Rattle.rule_plan.specs.Severities.{severity_named, name_of, command_of, level_of};

/// How severe a match of a rule is.
#[derive(Clone, Copy, Debug, PartialEq, Eq)]
pub enum Severity {
    /// What must be changed.
    Error,
    /// What should be changed.
    Warning,
    /// What should be known.
    Note,
    /// What could be better.
    Help,
}

impl Severity {
    /// The severity of a name, such as `warning`; `None` if it names none.
    pub fn named(name: &str) -> Option<Severity>
        ensures { result ≡ severity_named name.now }
    {
        match name {
            "error" => Some(Severity::Error),
            "warning" => Some(Severity::Warning),
            "note" => Some(Severity::Note),
            "help" => Some(Severity::Help),
            _ => None,
        }
    }

    /// Its name, as in rustc's messages.
    pub fn name(self) -> &'static str
        ensures { result.now ≡ name_of self }
    {
        match self {
            Severity::Error => "error",
            Severity::Warning => "warning",
            Severity::Note => "note",
            Severity::Help => "help",
        }
    }

    /// The command of a workflow on GitHub that makes such an annotation.
    pub fn command(self) -> &'static str
        ensures { result.now ≡ command_of self }
    {
        match self {
            Severity::Error => "error",
            Severity::Warning => "warning",
            Severity::Note | Severity::Help => "notice",
        }
    }

    /// The `level` of a result of SARIF.
    pub fn level(self) -> &'static str
        ensures { result.now ≡ level_of self }
    {
        match self {
            Severity::Error => "error",
            Severity::Warning => "warning",
            Severity::Note | Severity::Help => "note",
        }
    }
}
