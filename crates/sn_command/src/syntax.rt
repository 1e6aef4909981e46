// The program's command line, as `clap` takes it.
ghost use Rattle.std.specs.Prelude.{◌≡◌, IfOk, false, fold};
ghost use Rattle.clap.specs.Simple.{app_of, shape_of, with_subcommand};
ghost use Rattle.clap.specs.Walk.{rule_of};
ghost use Rattle.clap.specs.declared.builder.command.Command.TheViews.{out-Command as fields_of};
ghost use Rattle.sn_command.specs.Rows.{shape_of_row, with_command_row, with_option_row};
ghost use Rattle.sn_command.specs.Syntax.{option_rule, sn_app, sn_top};

use crate::commands::{CommandRow, OptionRow, command_rows};
use clap::{Arg, Command};
use std::alloc::{AllocError, Global};

const ABOUT: &str =
    "Keeps notes encrypted (encryption protocol 003) on devices and on a server: a device registers or signs in, puts, edits, deletes and lists notes, changes the account's password, and syncs with the server, which serves a store of accounts. Besides, it seals, opens and shows single strings, replays scripts of several devices and a server, and makes such scripts from a number.";

const AFTER: &str =
    "Passwords and contents come on standard input and never stand on the command line. Status 0 is success, 2 a faulty command line, 3 a refusal, 4 a failed disk, 5 a failed port or link, 6 and 7 a failed read or write, 8 want of memory, 9 a file that is no store or a damaged one, 10 the server's refusal, 11 an answer that may not be used; each but 0 has one line on standard error.";

/// The whole command.
pub fn sn<'a>(alloc: Global) -> Result<Command<'a>, AllocError>
    ensures { IfOk result (λ command. app_of command ≡ sn_app) }
{
    with_commands(alloc, top(alloc)?, &command_rows())
}

// The name is also that in the usage lines of the commands, since no word names the program.
#[tactic(auto, unfolding(crate::specs::Syntax::sn_top))]
fn top<'a>(alloc: Global) -> Result<Command<'a>, AllocError>
    ensures { IfOk result (λ command. app_of command ≡ sn_top) }
{
    Command::new(alloc, "sn")
        .version("0.1.0")
        .about(ABOUT)
        .after_help(AFTER)
        .no_binary_name(true)
        .subcommand_required(true)
        .disable_help_subcommand(true)
        .bin_name("sn")
}

fn with_commands<'a>(
    alloc: Global,
    start: Command<'a>,
    rows: &[&CommandRow],
) -> Result<Command<'a>, AllocError>
    ensures { IfOk result (λ command. app_of command ≡ fold with_command_row (app_of start.entry) rows.now) }
{
    let mut command = start;
    for row in rows {
        command = with_command(alloc, command, row)?;
    }
    Ok(command)
}

fn with_command<'a>(
    alloc: Global,
    command: Command<'a>,
    row: &CommandRow,
) -> Result<Command<'a>, AllocError>
    ensures { IfOk result (λ more. app_of more ≡ with_subcommand (app_of command.entry) (shape_of_row row.now)) }
{
    command.subcommand(declared(alloc, row)?)
}

fn declared<'a>(alloc: Global, row: &CommandRow) -> Result<Command<'a>, AllocError>
    ensures shape { IfOk result (λ command. shape_of command ≡ shape_of_row row.now) }
    ensures local { IfOk result (λ command. (fields_of command).has_globals ≡ false) }
{
    let command = Command::new(alloc, row.name).about(row.about);
    with_options(alloc, command, row.options)
}

fn with_options<'a>(
    alloc: Global,
    start: Command<'a>,
    rows: &[OptionRow],
) -> Result<Command<'a>, AllocError>
    requires { (fields_of start).has_globals ≡ false }
    ensures app { IfOk result (λ command. app_of command ≡ fold with_option_row (app_of start.entry) rows.now) }
    ensures local { IfOk result (λ command. (fields_of command).has_globals ≡ false) }
{
    let mut command = start;
    for row in rows {
        command = command.arg(option(alloc, row))?;
    }
    Ok(command)
}

fn option<'a>(alloc: Global, row: &OptionRow) -> Arg<'a>
    ensures rule { rule_of result ≡ option_rule row.now.name.now row.now.required }
    ensures local { result.global ≡ false }
{
    Arg::new(alloc, row.name)
        .long(row.name)
        .value_name(row.value)
        .help(row.help)
        .required(row.required)
}
