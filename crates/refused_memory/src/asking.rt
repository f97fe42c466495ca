//! Makes a call, and repeats it if memory was refused.
use ra_ap_syntax::FinishError;
use std::alloc::AllocError;
use std::fmt::Display;
use std::io;

/// Why the run stops.
#[derive(Drop)]
pub enum Stopped {
    /// A call was refused twice.
    Twice(&'static str),
    /// A call returned a wrong result.
    Other(&'static str),
    /// The output failed.
    Output,
}

impl From<AllocError> for Stopped {
    fn from(_error: AllocError) -> Stopped {
        Stopped::Twice("a call without a name")
    }
}

impl From<FinishError> for Stopped {
    fn from(error: FinishError) -> Stopped {
        match error {
            FinishError::Memory => Stopped::Twice("finish"),
            _ => Stopped::Other("finish"),
        }
    }
}

impl From<io::Error> for Stopped {
    fn from(_error: io::Error) -> Stopped {
        Stopped::Output
    }
}

/// The outcome of the first call.
#[derive(Clone, Copy)]
pub enum First {
    /// It returned a result.
    Answered,
    /// Memory was refused.
    Refused,
}

impl First {
    /// `Refused` if either is.
    pub fn or(self, other: First) -> First {
        match self {
            First::Answered => other,
            First::Refused => First::Refused,
        }
    }

    fn is_refused(self) -> bool {
        match self {
            First::Answered => false,
            First::Refused => true,
        }
    }
}

/// The result of a call, made at most twice, and the outcome of the first call.
#[macro_export]
macro_rules! asked {
    ($name:expr, $call:expr) => {
        match $call {
            Ok(answer) => (answer, First::Answered),
            Err(_refusal) => match $call {
                Ok(answer) => (answer, First::Refused),
                Err(_refusal) => return Err(Stopped::Twice($name)),
            },
        }
    };
}

/// Prints the line of a call. `stands` states whether its receiver is unchanged since before the
/// first call.
pub fn say(
    rt: &HostRuntime,
    name: &str,
    first: First,
    stands: bool,
    answer: impl Display + Drop,
) -> Result<(), Stopped> {
    let between = if !stands {
        "changed; "
    } else if first.is_refused() {
        "refused; "
    } else {
        ""
    };
    println!(rt; "{name}: {between}{answer}")?;
    Ok(())
}
