//! The subcommands of the command line, and the options of each.
use clap::builder::{Arg, ArgAction, Command};
use clap::{Error, value_parser};
use model::COUNTER_LIMIT;
use std::alloc::Global;
use version::VERSION;

/// The program's name in its own texts.
pub const PROGRAM: &str = "wbl-server";

pub const PRIMARY: &str = "primary";

pub const STANDBY: &str = "standby";

pub const NEWCOMER: &str = "newcomer";

/// The option that says which primary's a newcomer is.
pub const EPOCH: &str = "epoch";

/// The option by which the operator states that the old primary does nothing more.
pub const STOPPED: &str = "old-primary-stopped";

/// The option by which a file that is there is not formatted.
pub const NEW: &str = "new";

/// The option by which a new image gets a journal or none.
pub const JOURNAL: &str = "journal";

/// The option by which no image below a position is promoted.
pub const AT_LEAST: &str = "at-least";

/// The option by which a second image is told of.
pub const BEHIND: &str = "behind";

/// The option by which a standby takes links from one host alone.
pub const FROM: &str = "from";

/// The option by which a node tells now and then how far it is.
pub const REPORT: &str = "report";

/// The option by which a primary closes connections on which nothing comes.
pub const IDLE: &str = "idle";

/// The options that name where a node listens, and where it connects.
pub const LISTEN: &str = "listen";

pub const LINK: &str = "link";

/// The roles that an image is formatted for.
static ROLES: [&str; 3] = [PRIMARY, STANDBY, NEWCOMER];

/// Without a journal, and with one.
static JOURNALS: [&str; 2] = ["0", "1"];

/// The subcommands and the options of each.
pub fn grammar<'a>(alloc: Global) -> Result<Command<'a>, Error> {
    let command = Command::new(alloc, PROGRAM)
        .bin_name(PROGRAM)?
        .about("A durable key-value server; without arguments it serves standard input")
        .version(VERSION)
        .subcommand_required(true)
        .subcommand(format_command(alloc)?)?
        .subcommand(primary_command(alloc)?)?
        .subcommand(standby_command(alloc)?)?
        .subcommand(promote_command(alloc)?)?
        .subcommand(migrate_command(alloc)?)?
        .subcommand(journal_command(alloc)?)?
        .subcommand(settle_command(alloc)?)?
        .subcommand(inspect_command(alloc)?)?
        .subcommand(status_command(alloc)?)?;
    Ok(command)
}

fn format_command<'a>(alloc: Global) -> Result<Command<'a>, Error> {
    let lines = option(
        alloc,
        "lines",
        "N",
        "How many lines of 64 bytes the image has",
    )
    .value_parser(value_parser!(u64));
    let role = option(alloc, "role", "ROLE", "Which node the image is for").value_parser(
        ROLES.as_slice(),
    );
    let epoch = option(alloc, EPOCH, "E", "Which primary a newcomer is for")
        .value_parser(value_parser!(u64).range(1..COUNTER_LIMIT as i64))
        .required(false);
    let journal = option(
        alloc,
        JOURNAL,
        "0|1",
        "1: with a journal, one sync for each write (the default); 0: without",
    )
    .value_parser(JOURNALS.as_slice())
    .required(false);
    let new = flag(
        alloc,
        NEW,
        "Makes a new file, and refuses one that is there",
    );
    let command = Command::new(alloc, "format")
        .about("Writes a new image")
        .arg(image(alloc))?
        .arg(lines)?
        .arg(role)?
        .arg(epoch)?
        .arg(journal)?
        .arg(new)?;
    Ok(command)
}

fn primary_command<'a>(alloc: Global) -> Result<Command<'a>, Error> {
    let command = Command::new(alloc, PRIMARY)
        .about("Serves clients, and sends to the standby")
        .arg(image(alloc))?
        .arg(option(alloc, LISTEN, "ADDRESS", "Where clients connect"))?
        .arg(option(alloc, LINK, "ADDRESS", "Where the standby listens"))?
        .arg(report(alloc))?
        .arg(seconds(
            alloc,
            IDLE,
            "Closes a connection on which nothing came for so long",
        ))?;
    Ok(command)
}

fn standby_command<'a>(alloc: Global) -> Result<Command<'a>, Error> {
    let from = option(
        alloc,
        FROM,
        "HOST",
        "The one IP address that links are taken from",
    )
    .required(false);
    let command = Command::new(alloc, STANDBY)
        .about("Follows a primary")
        .arg(image(alloc))?
        .arg(option(alloc, LISTEN, "ADDRESS", "Where the primary connects"))?
        .arg(from)?
        .arg(report(alloc))?;
    Ok(command)
}

fn promote_command<'a>(alloc: Global) -> Result<Command<'a>, Error> {
    let stopped = flag(
        alloc,
        STOPPED,
        "States that the old primary is stopped and is not started again",
    );
    let at_least = option(alloc, AT_LEAST, "P", "Refuses an image below this position")
        .value_parser(value_parser!(u64))
        .required(false);
    let command = Command::new(alloc, "promote")
        .about("Makes a stopped standby's image a primary's")
        .arg(image(alloc))?
        .arg(stopped)?
        .arg(at_least)?;
    Ok(command)
}

fn migrate_command<'a>(alloc: Global) -> Result<Command<'a>, Error> {
    let command = Command::new(alloc, "migrate")
        .about("Brings an image of version 1 to version 2, with what it holds")
        .arg(image(alloc))?;
    Ok(command)
}

fn journal_command<'a>(alloc: Global) -> Result<Command<'a>, Error> {
    let command = Command::new(alloc, JOURNAL)
        .about("Gives an image a journal, where it has none")
        .arg(image(alloc))?;
    Ok(command)
}

fn settle_command<'a>(alloc: Global) -> Result<Command<'a>, Error> {
    let command = Command::new(alloc, "settle")
        .about("Takes the journal of an image away, with what it holds in its place")
        .arg(image(alloc))?;
    Ok(command)
}

fn inspect_command<'a>(alloc: Global) -> Result<Command<'a>, Error> {
    let command = Command::new(alloc, "inspect")
        .about("Prints what an image holds")
        .arg(image(alloc))?;
    Ok(command)
}

fn status_command<'a>(alloc: Global) -> Result<Command<'a>, Error> {
    let behind = option(alloc, BEHIND, "FILE", "Another image, told of as well").required(false);
    let command = Command::new(alloc, "status")
        .about("Prints how far an image is and how full, beside a node that has it open")
        .arg(image(alloc))?
        .arg(behind)?;
    Ok(command)
}

/// The option that names the image.
fn image<'a>(alloc: Global) -> Arg<'a> {
    option(alloc, "image", "FILE", "The file of the image")
}

/// The option for reports.
fn report<'a>(alloc: Global) -> Arg<'a> {
    seconds(alloc, REPORT, "Tells so often how far it is")
}

/// An option with a number of seconds, at least one, which may be left out.
fn seconds<'a>(alloc: Global, name: &'a str, help: &'a str) -> Arg<'a> {
    option(alloc, name, "SECONDS", help)
        .value_parser(value_parser!(u64).range(1..))
        .required(false)
}

/// An option with one value, which may not be left out.
fn option<'a>(alloc: Global, name: &'a str, value: &'a str, help: &'a str) -> Arg<'a> {
    Arg::new(alloc, name)
        .long(name)
        .value_name(value)
        .help(help)
        .required(true)
        .action(ArgAction::Set)
}

/// An option without a value, which may be left out.
fn flag<'a>(alloc: Global, name: &'a str, help: &'a str) -> Arg<'a> {
    Arg::new(alloc, name)
        .long(name)
        .help(help)
        .action(ArgAction::SetTrue)
}
