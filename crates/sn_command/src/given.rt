// What `clap` reads in the words.
ghost use Rattle.std.specs.Prelude.{◌≡◌, ℕ, List, IfOk, IfErr, Some, None, option_map};
ghost use Rattle.clap.specs.Matches.{found_of};
ghost use Rattle.clap.specs.Simple.{subcommand_rows_of};
ghost use Rattle.clap.specs.Values.{kind_of};
ghost use Rattle.clap.specs.Walk.{rows_of};
ghost use Rattle.sn_command.specs.Given.{IsGivenBy, IsNotTaken, IsOfKind};
ghost use Rattle.sn_command.specs.Syntax.{value_of};
ghost use Rattle.sn_command.specs.Words.{texts};

use crate::syntax::sn;
use clap::error::ErrorKind;
use clap::{ArgMatches, Error};
use std::alloc::Global;

/// The command that the words name, and its options.
#[derive(Drop)]
pub struct Given<'a> {
    pub command: &'a str,
    pub options: ArgMatches<'a>,
}

/// Why the words give no command.
#[derive(Drop)]
pub enum NotTaken {
    /// They ask for help; its text.
    Help(Error),
    /// They ask for the version; its text.
    Version(Error),
    /// They are no command line.
    Fault,
    Memory,
}

/// The command and the options that the words give.
pub fn read_words<'a>(alloc: Global, words: &'a [String]) -> Result<Given<'a>, NotTaken>
    ensures given { IfOk result (IsGivenBy (texts words.now)) }
    ensures not_taken { IfErr result (IsNotTaken (texts words.now)) }
{
    let Ok(command) = sn(alloc) else {
        return Err(NotTaken::Memory);
    };
    match command.try_get_matches_from(words) {
        Ok(matches) => given_by(matches),
        Err(error) => Err(not_taken(error)),
    }
}

fn given_by<'a>(mut matches: ArgMatches<'a>) -> Result<Given<'a>, NotTaken>
    ensures given { IfOk result (λ given. subcommand_rows_of matches.entry ≡ Some (given.command.now, rows_of (found_of given.options))) }
    ensures none { IfErr result (λ error. (error ≡ NotTaken.Fault) × (subcommand_rows_of matches.entry ≡ None)) }
{
    match matches.remove_subcommand() {
        Some((command, options)) => Ok(Given { command, options }),
        None => Err(NotTaken::Fault),
    }
}

fn not_taken(error: Error) -> NotTaken
    ensures { IsOfKind (kind_of error) result }
{
    match error.kind() {
        ErrorKind::DisplayHelp => NotTaken::Help(error),
        ErrorKind::DisplayVersion => NotTaken::Version(error),
        ErrorKind::OutOfMemory => NotTaken::Memory,
        _ => NotTaken::Fault,
    }
}

/// The value of the option with this name.
pub fn value<'a>(given: &Given<'a>, name: &str) -> Option<&'a str>
    ensures { (words : List (List ℕ)) → IsGivenBy words given.now
        → option_map (λ value. value.now) result ≡ value_of words name.now }
{
    given.options.get_str(name)
}
