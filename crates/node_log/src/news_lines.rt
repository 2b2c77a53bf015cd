//! The line of each thing that a node tells.
use crate::link_error::LinkError;
use crate::log::{Lost, News};
use crate::texts::{
    COPIED, LARGER, LINK_LEFT, NO_DESCRIPTOR, NO_ROOM, NOT_GREETED, NOT_TAKEN, OTHER_PAIR,
    OTHER_RELEASE, SLOW, STANDBY_AHEAD, STANDBY_BEHIND, UNTIL_COPIED,
};
use kv_types::Refusal;
use pipes::MAX_SEATS;
use std::fmt;

impl<'a> fmt::Display for News<'a> {
    fn fmt<W: fmt::Write>(&self, f: &mut fmt::Formatter<W>) -> fmt::Result {
        match self {
            News::Begun { program, version } => write!(f, "{program} {version}"),
            News::Opened {
                position,
                epoch,
                keys,
            } => {
                write!(
                    f,
                    "opened at position {position}, epoch {epoch}, with {keys} keys"
                )
            }
            News::Listening { address } => write!(f, "listening on {address}"),
            News::LinkOpen { address, position } => {
                write!(f, "link open to {address} at position {position}")
            }
            News::LinkLost { address, why } => write!(f, "link to {address} lost: {why}"),
            News::NoLink { address, why } => write!(f, "no link to {address}: {why}"),
            News::NotTaken {
                address,
                position,
                links,
            } => {
                write!(
                    f,
                    "{address} at position {position} ended {links} links in a row and took nothing that was sent on them{NOT_TAKEN}"
                )
            }
            News::StandbyBehind { address } => write!(f, "{address}: {STANDBY_BEHIND}"),
            News::OtherPair { address } => write!(f, "{address}: {OTHER_PAIR}"),
            News::OtherRelease { address } => write!(f, "{address}: {OTHER_RELEASE}"),
            News::NotGreeted => f.write_str(NOT_GREETED),
            News::LinkEnded { why } => write!(f, "{} {why}", word_of(why)),
            News::LinkLeft => f.write_str(LINK_LEFT),
            News::Stranger { host } => {
                write!(
                    f,
                    "closed a connection from {host}: links are taken from another host alone"
                )
            }
            News::StandbyAhead => f.write_str(STANDBY_AHEAD),
            News::Waiting { seconds } => {
                write!(f, "waiting for the standby since {seconds} seconds")
            }
            News::Answered { seconds } => {
                write!(f, "the standby has answered after {seconds} seconds")
            }
            News::PrimaryAt {
                position,
                standby,
                usage,
                clients,
                requests,
                longest_wait,
            } => {
                write!(
                    f,
                    "at position {position}, standby at {standby}, {usage}, {clients} of {MAX_SEATS} clients, {requests} requests a second, longest wait {longest_wait} ms"
                )
            }
            News::StandbyAt {
                position,
                usage,
                frames,
            } => {
                write!(
                    f,
                    "at position {position}, {usage}, {frames} frames a second"
                )
            }
            News::Taking { seconds } => {
                write!(f, "taking a frame since {seconds} seconds: {SLOW}")
            }
            News::NewcomerOpen { address } => {
                write!(f, "link open to {address}: a newcomer, which wants a copy")
            }
            News::OtherEpoch { address, own } => {
                write!(
                    f,
                    "{address}: the standby is of another epoch: format a newcomer of epoch {own}, which this primary is of"
                )
            }
            News::CopyPinned {
                address,
                position,
                keys,
            } => {
                write!(f, "copy of position {position} for {address} begun")?;
                if let Some(keys) = keys {
                    write!(f, ", with {keys} keys")?;
                }
                write!(f, "{UNTIL_COPIED}")
            }
            News::CopySent {
                address,
                parts,
                bytes,
            } => {
                write!(
                    f,
                    "copy for {address}: {parts} parts of {bytes} bytes in all sent so far"
                )
            }
            News::CopyAcknowledged {
                address,
                position,
                seconds,
            } => {
                write!(
                    f,
                    "copy of position {position} taken by {address} in {seconds} seconds: it is the standby now{COPIED}"
                )
            }
            News::CopyRefused { address, links } => {
                write!(
                    f,
                    "the newcomer at {address} ended {links} links in a row before it had its copy{NOT_TAKEN}"
                )
            }
            News::CopyGivenUp { address, position } => {
                write!(
                    f,
                    "copy of position {position} given up: {address} is a standby, which needs none"
                )
            }
            News::CopyAwaited => write!(
                f,
                "has no copy yet: waits for one from the primary of its epoch"
            ),
            News::CopyBegun { position } => write!(f, "copy of position {position} begun"),
            News::CopyAt { parts, keys } => { write!(f, "copy: {parts} parts so far, {keys} keys") }
            News::CopyTaken {
                position,
                keys,
                seconds,
            } => {
                write!(
                    f,
                    "copy of position {position} taken in {seconds} seconds, with {keys} keys: this node is a standby now"
                )
            }
            News::Filling {
                what,
                share,
                percent,
            } => {
                write!(
                    f,
                    "{} {what} are taken, {share}: {LARGER}",
                    share_word(*percent)
                )
            }
            News::Stopped { why } => write!(f, "stopped: {why}"),
        }
    }
}

impl fmt::Display for Lost {
    fn fmt<W: fmt::Write>(&self, f: &mut fmt::Formatter<W>) -> fmt::Result {
        match self {
            Lost::Unreachable => f.write_str("nobody takes a connection"),
            Lost::Unresolved => f.write_str("the name of the host does not resolve"),
            Lost::NoDescriptor => f.write_str(NO_DESCRIPTOR),
            Lost::Silent => f.write_str("no standby says where it is"),
            Lost::Refused(refusal) => {
                let number = refusal.number();
                write!(f, "refusal {number}: {refusal}")
            }
            Lost::Ended => f.write_str("the connection ended"),
            Lost::Unwritten => f.write_str("a write failed"),
        }
    }
}

impl fmt::Display for LinkError {
    fn fmt<W: fmt::Write>(&self, f: &mut fmt::Formatter<W>) -> fmt::Result {
        match self {
            LinkError::Closed => f.write_str("a read or a write failed"),
            LinkError::Refused(refusal) | LinkError::Stops(refusal) => {
                let number = refusal.number();
                write!(f, "refusal {number}: {refusal}{}", advice(*refusal))
            }
        }
    }
}

/// How a line begins that says so of a link: the node left it, or it ended.
fn word_of(why: &LinkError) -> &'static str {
    match why {
        LinkError::Closed => "link ended:",
        LinkError::Refused(_) | LinkError::Stops(_) => "left the link:",
    }
}

/// How many are taken at least where 90 or 99 of 100 are.
fn share_word(percent: u64) -> &'static str {
    if percent >= 99 {
        "99 of 100"
    } else {
        "9 of 10"
    }
}

/// What there is to do about a refusal that comes again until somebody does it.
fn advice(refusal: Refusal) -> &'static str {
    match refusal {
        Refusal::Full => NO_ROOM,
        _ => "",
    }
}
