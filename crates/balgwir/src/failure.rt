ghost use Rattle.std.specs.Prelude.{◌≡◌};
ghost use Rattle.balgwir.specs.declared.failure.Failure.TheVariants.{Usage, System};

use crate::command::UsageError;
use crate::usage::USAGE;
use std::{fmt, io};

// Why the program could not do what it was asked for.
#[derive(Drop)]
pub enum Failure<'a> {
    Usage(UsageError<'a>),
    Unreadable { file: &'a str, error: io::Error },
    // the arguments, memory or printing
    System(io::Error),
}

impl<'a> From<UsageError<'a>> for Failure<'a> {
    ghost from_gives = { λ error failure. failure ≡ Usage error };

    fn from(error: UsageError<'a>) -> Failure<'a> {
        Failure::Usage(error)
    }
}

impl<'a> From<io::Error> for Failure<'a> {
    ghost from_gives = { λ error failure. failure ≡ System error };

    fn from(error: io::Error) -> Failure<'a> {
        Failure::System(error)
    }
}

impl fmt::Display for Failure<'_> {
    fn fmt<W: fmt::Write>(&self, f: &mut fmt::Formatter<W>) -> fmt::Result {
        match self {
            Failure::Usage(error) => write!(f, "{error}\n{USAGE}"),
            Failure::Unreadable { file, error } => write!(f, "cannot read {file}: {error}"),
            Failure::System(error) => write!(f, "{error}"),
        }
    }
}
