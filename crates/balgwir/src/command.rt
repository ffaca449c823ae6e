ghost use Rattle.std.specs.Prelude.{◌∷◌, map, string_bytes};
ghost use Rattle.balgwir.specs.Commands.{verb_name, Asked};

use crate::verb::Verb;
use std::fmt;

// What the program is asked for: a verb, with the words behind it.
#[derive(Clone, Copy)]
pub enum Command<'a> {
    Reply {
        file: &'a str,
    },
    Explain {
        file: &'a str,
    },
    Covers {
        pattern: &'a str,
        name: &'a str,
    },
    Tag {
        line: &'a str,
        header: &'a str,
        coverage: &'a str,
    },
    Policy {
        file: &'a str,
        name: &'a str,
    },
    Sheet {
        file: &'a str,
    },
    Help,
}

// Why the words behind the program's name ask for nothing.
#[derive(Clone, Copy)]
pub enum UsageError<'a> {
    NoCommand,
    UnknownCommand(&'a str),
    // too few or too many words behind a command
    WrongOperands(Verb),
    // another word where `covered` or `clear` should stand
    NotCoverage(&'a str),
}

impl<'a> Command<'a> {
    // The command that the words behind the program's name ask for.
    pub fn parse(words: &'a [String]) -> Result<Command<'a>, UsageError<'a>>
        ensures { Asked (map string_bytes words.now) result }
    {
        let [name, operands @ ..] = words else {
            return Err(UsageError::NoCommand);
        };
        let verb = Verb::try_from(name.as_str())?;
        Command::with_operands(verb, operands)
    }

    // The command of a verb and the words behind it.
    fn with_operands(verb: Verb, operands: &'a [String]) -> Result<Command<'a>, UsageError<'a>>
        ensures { Asked (verb_name verb ∷ map string_bytes operands.now) result }
    {
        match (verb, operands) {
            (Verb::Reply, [file]) => Ok(Command::Reply {
                file: file.as_str(),
            }),
            (Verb::Explain, [file]) => Ok(Command::Explain {
                file: file.as_str(),
            }),
            (Verb::Covers, [pattern, name]) => Ok(Command::Covers {
                pattern: pattern.as_str(),
                name: name.as_str(),
            }),
            (Verb::Tag, [line, header, coverage]) => Ok(Command::Tag {
                line: line.as_str(),
                header: header.as_str(),
                coverage: coverage.as_str(),
            }),
            (Verb::Policy, [file, name]) => Ok(Command::Policy {
                file: file.as_str(),
                name: name.as_str(),
            }),
            (Verb::Sheet, [file]) => Ok(Command::Sheet {
                file: file.as_str(),
            }),
            (Verb::Help, []) => Ok(Command::Help),
            _ => Err(UsageError::WrongOperands(verb)),
        }
    }
}

impl fmt::Display for UsageError<'_> {
    fn fmt<W: fmt::Write>(&self, f: &mut fmt::Formatter<W>) -> fmt::Result {
        match *self {
            UsageError::NoCommand => f.write_str("no command"),
            UsageError::UnknownCommand(command) => write!(f, "unknown command: {command}"),
            UsageError::WrongOperands(verb) => write!(f, "{} needs {}", verb.name(), verb.needs()),
            UsageError::NotCoverage(word) => {
                write!(f, "tag needs the word covered or clear last, not {word}")
            }
        }
    }
}
