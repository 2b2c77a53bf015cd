//! What the words of the command line ask for.
use crate::grammar::{
    AT_LEAST, BEHIND, EPOCH, FROM, IDLE, JOURNAL, LINK, LISTEN, NEW, NEWCOMER, PRIMARY, REPORT,
    STANDBY, STOPPED,
};
use addresses::is_address;
use clap::{ArgMatches, Error};
use model::FIRST_EPOCH;
use std::net::{AddrParseError, IpAddr};
use wbl_engine::Role;

const NO_HOST: &str = "'--from <HOST>' takes an IP address, without a port";

const NO_LISTEN: &str = "'--listen <ADDRESS>' takes a host and a port, as 127.0.0.1:7000";

const NO_EPOCH: &str =
    "'--epoch <E>' takes digits, goes with '--role newcomer', and is not left out there";

const NO_LINK: &str = "'--link <ADDRESS>' takes a host and a port, as 127.0.0.1:7100";

/// What the program is asked to do. Names of images and addresses are as they were written.
#[derive(Drop)]
pub enum Task<'a> {
    /// To write a new image of so many lines for this role, under this epoch, with a journal or without, into a new file alone if that is asked for.
    Format {
        image: &'a str,
        lines: u64,
        role: Role,
        epoch: u64,
        has_journal: bool,
        is_new: bool,
    },
    /// To run a node.
    Run(Node<'a>),
    /// To make the image of a stopped standby a primary's, if the operator says that the old primary is stopped, and if it is at this position or above.
    Promote {
        image: &'a str,
        old_primary_stopped: bool,
        at_least: u64,
    },
    /// To bring an image to version 2 of the format.
    Migrate {
        image: &'a str,
    },
    /// To give an image a journal.
    AddJournal {
        image: &'a str,
    },
    /// To take the journal of an image away.
    Settle {
        image: &'a str,
    },
    /// To print what an image holds.
    Inspect {
        image: &'a str,
    },
    /// To print how far an image is and how full, and how far another one is behind it.
    Status {
        image: &'a str,
        behind: Option<&'a str>,
    },
    /// To print which program this is.
    Version,
    /// To print this help.
    Help(Error),
}

/// A node that is to be run.
#[derive(Clone, Copy)]
pub enum Node<'a> {
    /// To serve clients at one address, and send to the standby at the other. With a report it is told each so many seconds how far both nodes are; with an
    /// idle time a connection on which nothing came for so many seconds is closed.
    Primary {
        image: &'a str,
        listen: &'a str,
        link: &'a str,
        report: Option<u64>,
        idle: Option<u64>,
    },
    /// To follow a primary that dials this address, from this host alone if one is told. With a report it is told each so many seconds how far it is.
    Standby {
        image: &'a str,
        listen: &'a str,
        from: Option<IpAddr>,
        report: Option<u64>,
    },
}

/// The value of an option is none that it takes. What it takes.
#[derive(Clone, Copy)]
pub(crate) struct BadValue(pub(crate) &'static str);

/// What was asked for, if each option of the subcommand has its value.
pub(crate) fn asked<'a>(matches: &ArgMatches<'a>) -> Result<Option<Task<'a>>, BadValue> {
    let Some((name, found)) = matches.subcommand() else {
        return Ok(None);
    };
    match name {
        "format" => format_of(found),
        PRIMARY => primary_of(found),
        STANDBY => standby_of(found),
        name => Ok(task_of(name, found)),
    }
}

/// The new image that was asked for.
fn format_of<'a>(found: &ArgMatches<'a>) -> Result<Option<Task<'a>>, BadValue> {
    let (Some(image), Some(lines), Some(name)) = (
        found.get_str("image"),
        found.get_one("lines"),
        found.get_str("role"),
    ) else {
        return Ok(None);
    };
    let role = role_named(name);
    Ok(Some(Task::Format {
        image,
        lines,
        role,
        epoch: epoch_of(role, found)?,
        has_journal: found.get_str(JOURNAL) != Some("0"),
        is_new: found.get_flag(NEW),
    }))
}

/// The epoch of a new image for this role: a newcomer's is told, any other's is the first.
fn epoch_of(role: Role, found: &ArgMatches<'_>) -> Result<u64, BadValue> {
    match (role, found.get_str(EPOCH)) {
        (Role::Newcomer, Some(digits)) if digits.bytes().all(|byte| byte.is_ascii_digit()) => {
            found.get_one(EPOCH).ok_or(BadValue(NO_EPOCH))
        }
        (Role::Primary | Role::Standby, None) => Ok(FIRST_EPOCH),
        _ => Err(BadValue(NO_EPOCH)),
    }
}

/// The primary that was asked for.
fn primary_of<'a>(found: &ArgMatches<'a>) -> Result<Option<Task<'a>>, BadValue> {
    let (Some(image), Some(listen), Some(link)) = (
        found.get_str("image"),
        found.get_str(LISTEN),
        found.get_str(LINK),
    ) else {
        return Ok(None);
    };
    check(listen, NO_LISTEN)?;
    check(link, NO_LINK)?;
    Ok(Some(Task::Run(Node::Primary {
        image,
        listen,
        link,
        report: found.get_one(REPORT),
        idle: found.get_one(IDLE),
    })))
}

/// The standby that was asked for.
fn standby_of<'a>(found: &ArgMatches<'a>) -> Result<Option<Task<'a>>, BadValue> {
    let (Some(image), Some(listen)) = (found.get_str("image"), found.get_str(LISTEN)) else {
        return Ok(None);
    };
    check(listen, NO_LISTEN)?;
    let Ok(from) = host_of(found) else {
        return Err(BadValue(NO_HOST));
    };
    Ok(Some(Task::Run(Node::Standby {
        image,
        listen,
        from,
        report: found.get_one(REPORT),
    })))
}

/// Sees that the value of an option is an address.
fn check(value: &str, what: &'static str) -> Result<(), BadValue> {
    if is_address(value) {
        Ok(())
    } else {
        Err(BadValue(what))
    }
}

/// The host that links are taken from alone, if one was told.
fn host_of<'a>(found: &ArgMatches<'a>) -> Result<Option<IpAddr>, AddrParseError> {
    match found.try_get_one::<IpAddr>(FROM)? {
        Some(host) => Ok(Some(host.to_canonical())),
        None => Ok(None),
    }
}

/// What this subcommand over an image asks for, if each of its options has its value.
fn task_of<'a>(name: &str, found: &ArgMatches<'a>) -> Option<Task<'a>> {
    let image = found.get_str("image")?;
    match name {
        "promote" => Some(Task::Promote {
            image,
            old_primary_stopped: found.get_flag(STOPPED),
            at_least: found.get_one(AT_LEAST).unwrap_or(0),
        }),
        "migrate" => Some(Task::Migrate { image }),
        JOURNAL => Some(Task::AddJournal { image }),
        "settle" => Some(Task::Settle { image }),
        "inspect" => Some(Task::Inspect { image }),
        "status" => Some(Task::Status {
            image,
            behind: found.get_str(BEHIND),
        }),
        _ => None,
    }
}

/// The role of this name, which is one of the three.
fn role_named(name: &str) -> Role {
    match name {
        PRIMARY => Role::Primary,
        NEWCOMER => Role::Newcomer,
        _ => Role::Standby,
    }
}
