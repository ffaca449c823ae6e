ghost use Rattle.balgwir.specs.Words.{Names, coverage_name};

use crate::command::UsageError;

// How a MAIL line came.
#[derive(Clone, Copy, PartialEq, Eq)]
pub enum Coverage {
    // under TLS
    Covered,
    // in the clear
    Clear,
}

// The word that stands for it.
impl<'a> TryFrom<&'a str> for Coverage {
    type Error = UsageError<'a>;

    ghost use Rattle.balgwir.specs.declared.command.UsageError.TheVariants.{NotCoverage};

    ghost try_from_gives = { λ word r. Names coverage_name word.now (NotCoverage word) r };

    fn try_from(word: &'a str) -> Result<Coverage, UsageError<'a>> {
        match word {
            "covered" => Ok(Coverage::Covered),
            "clear" => Ok(Coverage::Clear),
            _ => Err(UsageError::NotCoverage(word)),
        }
    }
}
