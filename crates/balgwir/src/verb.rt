ghost use Rattle.std.specs.Prelude.{◌≡◌, true, Some};
ghost use Rattle.balgwir.specs.Commands.{verb_name};
ghost use Rattle.balgwir.specs.Words.{Names, one_line};

use crate::command::UsageError;
use std::fmt;

// What the program can be asked for.
#[derive(Clone, Copy)]
pub enum Verb {
    Reply,
    Explain,
    Covers,
    Tag,
    Policy,
    Sheet,
    Help,
}

impl Verb {
    pub fn name(self) -> &'static str
        ensures { result.now ≡ verb_name self }
    {
        match self {
            Verb::Reply => "reply",
            Verb::Explain => "explain",
            Verb::Covers => "covers",
            Verb::Tag => "tag",
            Verb::Policy => "policy",
            Verb::Sheet => "sheet",
            Verb::Help => "help",
        }
    }

    // Which words stand behind the name, for people. As a text, whose clause says that it is one line.
    pub fn needs(self) -> &'static str
        ensures { one_line result.now ≡ true }
    {
        match self {
            Verb::Reply | Verb::Explain | Verb::Sheet => "exactly one file",
            Verb::Covers => "exactly a pattern and a name",
            Verb::Tag =>
                "exactly a file with a MAIL line, a file with a header section, and the word covered or clear",
            Verb::Policy => "exactly one file and a name",
            Verb::Help => "no more words",
        }
    }
}

// The verb of a name. By match: a new verb then needs no proof, while a search of a list of all needs one that each is listed.
impl<'a> TryFrom<&'a str> for Verb {
    type Error = UsageError<'a>;

    ghost use Rattle.balgwir.specs.declared.command.UsageError.TheVariants.{UnknownCommand};

    ghost try_from_gives = { λ name r. Names verb_name name.now (UnknownCommand name) r };

    fn try_from(name: &'a str) -> Result<Verb, UsageError<'a>> {
        match name {
            "reply" => Ok(Verb::Reply),
            "explain" => Ok(Verb::Explain),
            "covers" => Ok(Verb::Covers),
            "tag" => Ok(Verb::Tag),
            "policy" => Ok(Verb::Policy),
            "sheet" => Ok(Verb::Sheet),
            "help" => Ok(Verb::Help),
            _ => Err(UsageError::UnknownCommand(name)),
        }
    }
}

impl fmt::Display for Verb {
    ghost output = { λ verb. Some (verb_name verb) };

    fn fmt<W: fmt::Write>(&self, f: &mut fmt::Formatter<W>) -> fmt::Result {
        f.write_str(self.name())
    }
}
