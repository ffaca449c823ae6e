// The program: finds out what is asked for, does it, and prints what it found.

#![tactic(auto)]

ghost use Rattle.std.specs.Prelude.{◌≡◌};

mod command;
mod coverage;
mod failure;
mod meaning;
mod policy_report;
mod reply_report;
mod report;
mod sheet_fault;
mod sheet_report;
mod tag_report;
mod text;
mod usage;
mod verb;

use command::Command;
use coverage::Coverage;
use failure::Failure;
use meaning::Meaning;
use policy_report::PolicyAnswer;
use reply_report::ReplyReport;
use report::Report;
use sheet_report::SheetReport;
use smtp::Reply;
use smtp::names::covers;
use std::fmt::Display;
use std::process::ExitCode;
use std::{env, fs, io};
use tag_report::MailAnswer;
use text::YesNo;
use usage::USAGE;

// The words behind the program's name.
fn words(rt: &HostRuntime) -> io::Result<Vec<String>> {
    let words = env::args(rt)?.skip(1).collect(rt.alloc())?;
    Ok(words)
}

// What a file holds. Here and below the handle is passed beside the file, since whatever reads or prints takes it.
fn contents<'a>(rt: &HostRuntime, file: &'a str) -> Result<Vec<u8>, Failure<'a>> {
    fs::read(rt, file).map_err(|error| Failure::Unreadable { file, error })
}

fn reply<'a>(rt: &HostRuntime, file: &'a str) -> Result<(), Failure<'a>> {
    let bytes = contents(rt, file)?;
    print!(rt; "{}", ReplyReport(Reply::read(bytes.as_slice())))?;
    Ok(())
}

fn explain<'a>(rt: &HostRuntime, file: &'a str) -> Result<(), Failure<'a>> {
    let bytes = contents(rt, file)?;
    let reply = Reply::read(bytes.as_slice());
    print!(rt; "{}{}", ReplyReport(reply), Meaning(reply))?;
    Ok(())
}

fn tag<'a>(
    rt: &HostRuntime,
    line: &'a str,
    header: &'a str,
    coverage: &'a str,
) -> Result<(), Failure<'a>> {
    let coverage = Coverage::try_from(coverage)?;
    let line = contents(rt, line)?;
    let section = contents(rt, header)?;
    let answer = MailAnswer::of(line.as_slice(), coverage, section.as_slice());
    print!(rt; "{}", Report(answer))?;
    Ok(())
}

fn policy<'a>(rt: &HostRuntime, file: &'a str, name: &str) -> Result<(), Failure<'a>> {
    let text = contents(rt, file)?;
    let answer = PolicyAnswer::of(text.as_slice(), name.as_bytes());
    print!(rt; "{}", Report(answer))?;
    Ok(())
}

fn sheet<'a>(rt: &HostRuntime, file: &'a str) -> Result<(), Failure<'a>> {
    let bytes = contents(rt, file)?;
    print!(rt; "{}", SheetReport(bytes.as_slice()))?;
    Ok(())
}

// Does what the words ask for. By match: the check sees that no command is missing.
fn run<'a>(rt: &HostRuntime, words: &'a [String]) -> Result<(), Failure<'a>> {
    match Command::parse(words)? {
        Command::Reply { file } => reply(rt, file)?,
        Command::Explain { file } => explain(rt, file)?,
        Command::Covers { pattern, name } => {
            let covered = YesNo(covers(pattern.as_bytes(), name.as_bytes())).word();
            println!(rt; "covered: {covered}")?;
        }
        Command::Tag {
            line,
            header,
            coverage,
        } => tag(rt, line, header, coverage)?,
        Command::Policy { file, name } => policy(rt, file, name)?,
        Command::Sheet { file } => sheet(rt, file)?,
        Command::Help => println!(rt; "{USAGE}")?,
    }
    Ok(())
}

// Says on standard error why the program failed, and gives the status of a failure.
fn failed(rt: &HostRuntime, why: impl Display + Drop) -> ExitCode
    ensures { result ≡ ExitCode.FAILURE }
{
    let _ = eprintln!(rt; "balgwir: {why}");
    ExitCode::FAILURE
}

fn main(rt: HostRuntime) -> ExitCode {
    match words(&rt) {
        Ok(words) => match run(&rt, words.as_slice()) {
            Ok(()) => ExitCode::SUCCESS,
            Err(failure) => failed(&rt, failure),
        },
        Err(error) => failed(&rt, error),
    }
}
