//! Colours of a terminal.
ghost use Rattle.std.specs.Prelude.{◌≡◌, codes};
ghost use Rattle.rust_print.specs.Styles.{escape, in_style};

/// Whether the output has colours.
#[derive(Clone, Copy, Debug)]
pub enum Style {
    /// No colours.
    Plain,
    /// Escapes of a terminal.
    Colours,
}

impl Style {
    // The escape, or nothing without colours.
    fn pick(self, escape: &'static str) -> &'static str
        ensures { result.now ≡ in_style self escape.now }
    {
        match self {
            Style::Plain => "",
            Style::Colours => escape,
        }
    }

    /// Bold text.
    pub fn bold(self) -> &'static str
        ensures { result.now ≡ in_style self (escape (codes "[1m")) }
    {
        self.pick("\u{1b}[1m")
    }

    /// Red text.
    pub fn red(self) -> &'static str
        ensures { result.now ≡ in_style self (escape (codes "[1;31m")) }
    {
        self.pick("\u{1b}[1;31m")
    }

    /// Green text.
    pub fn green(self) -> &'static str
        ensures { result.now ≡ in_style self (escape (codes "[32m")) }
    {
        self.pick("\u{1b}[32m")
    }

    /// Blue text.
    pub fn blue(self) -> &'static str
        ensures { result.now ≡ in_style self (escape (codes "[34m")) }
    {
        self.pick("\u{1b}[34m")
    }

    /// The end of a style.
    pub fn plain(self) -> &'static str
        ensures { result.now ≡ in_style self (escape (codes "[0m")) }
    {
        self.pick("\u{1b}[0m")
    }
}
