//! What a node tells of itself, a line at a time.
ghost use Rattle.std.specs.Prelude.{◌≡◌, ◌⊎◌, ◌↔◌, IsTrue};
ghost use Rattle.node_log.specs.declared.log.Lost.TheVariants.{Ended, Unwritten};

use crate::link_error::LinkError;
use crate::progress::Progress;
use crate::usage::{Share, Usage};
use kv_types::Refusal;
use std::alloc::Global;
use std::io::Write;
use std::net::IpAddr;
use std::sync::Arc;

/// Tells what a node does. A line is written whole by one call of the writer; one that cannot be written, or for which memory is refused, is let go.
#[derive(Drop)]
pub struct Log<W> {
    alloc: Global,
    to: W,
    /// Where a standby shows how far it is, for whoever tells of it now and then.
    progress: Option<Arc<Progress>>,
}

/// What happened.
#[derive(Clone, Copy)]
pub enum News<'a> {
    /// The program of this name, of this version, begins as a node.
    Begun {
        program: &'a str,
        version: &'a str,
    },
    /// An image was opened, with its record at this position, of this epoch, and holds so many keys.
    Opened {
        position: u64,
        epoch: u64,
        keys: u64,
    },
    /// Who connects at this address is served.
    Listening {
        address: &'a str,
    },
    /// The standby at this address said that it is at this position.
    LinkOpen {
        address: &'a str,
        position: u64,
    },
    /// A link to this address was open, and is no more.
    LinkLost {
        address: &'a str,
        why: Lost,
    },
    /// No link to this address comes up.
    NoLink {
        address: &'a str,
        why: Lost,
    },
    /// The standby at this address, which is at this position, ended so many links in a row without taking what was sent on them.
    NotTaken {
        address: &'a str,
        position: u64,
        links: u32,
    },
    /// The standby at this address is new, or older than it was, and lacks what this node cannot send.
    StandbyBehind {
        address: &'a str,
    },
    /// The standby at this address belongs to another pair.
    OtherPair {
        address: &'a str,
    },
    /// The standby at this address is of a release whose links this one does not speak.
    OtherRelease {
        address: &'a str,
    },
    /// Somebody connected as a primary does, and the connection ended before they said anything.
    NotGreeted,
    /// A link from a primary has ended that the primary did not close.
    LinkEnded {
        why: LinkError,
    },
    /// A link on which nothing came was left for another connection.
    LinkLeft,
    /// Somebody connected from a host whose links are not taken.
    Stranger {
        host: IpAddr,
    },
    /// The standby was once above this node, which takes no acknowledgement any more.
    StandbyAhead,
    /// Replies have waited for the standby so long.
    Waiting {
        seconds: u64,
    },
    /// It has acknowledged something, after replies had waited for it so long.
    Answered {
        seconds: u64,
    },
    /// A primary whose image is at this position, whose standby has acknowledged this one, that holds so much, and that has so many clients, which asked so
    /// much a second, and of which one waited so many milliseconds for a reply.
    PrimaryAt {
        position: u64,
        standby: u64,
        usage: Usage,
        clients: u64,
        requests: u64,
        longest_wait: u64,
    },
    /// A standby that is at this position, holds so much, and took so many frames a second.
    StandbyAt {
        position: u64,
        usage: Usage,
        frames: u64,
    },
    /// A standby has been taking what came for so long.
    Taking {
        seconds: u64,
    },
    /// The node at this address is a newcomer, which wants a copy.
    NewcomerOpen {
        address: &'a str,
    },
    /// The node at this address is of another epoch than the primary, which is of this one.
    OtherEpoch {
        address: &'a str,
        own: u64,
    },
    /// A copy of this position was pinned for the newcomer at this address, with so many keys where that is known.
    CopyPinned {
        address: &'a str,
        position: u64,
        keys: Option<u64>,
    },
    /// So many parts of a copy, of so many bytes in all, were sent to the newcomer at this address.
    CopySent {
        address: &'a str,
        parts: u64,
        bytes: u64,
    },
    /// The newcomer at this address has all of the copy of this position, so long after it was pinned, and is a standby.
    CopyAcknowledged {
        address: &'a str,
        position: u64,
        seconds: u64,
    },
    /// The newcomer at this address ended so many links in a row before it had its copy.
    CopyRefused {
        address: &'a str,
        links: u32,
    },
    /// A copy of this position is not sent any more: the node at this address is a standby, which needs none.
    CopyGivenUp {
        address: &'a str,
        position: u64,
    },
    /// A newcomer has no copy, and no part of one.
    CopyAwaited,
    /// A newcomer has the first part of a copy of this position.
    CopyBegun {
        position: u64,
    },
    /// A newcomer has so many parts of a copy, with so many keys.
    CopyAt {
        parts: u64,
        keys: u64,
    },
    /// A newcomer has all of a copy of this position, with so many keys, so long after its first part came, and is a standby.
    CopyTaken {
        position: u64,
        keys: u64,
        seconds: u64,
    },
    /// Of the versions or the lines of an image at least so many of 100 are taken.
    Filling {
        what: &'static str,
        share: Share,
        percent: u64,
    },
    /// The node has stopped.
    Stopped {
        why: Refusal,
    },
}

/// Why there is no link.
#[derive(Clone, Copy, Debug, PartialEq, Eq)]
pub enum Lost {
    /// Nobody takes a connection there.
    Unreachable,
    /// The name of the host leads to no address, or not now.
    Unresolved,
    /// This process, or the system, has no descriptor left for a connection.
    NoDescriptor,
    /// Nobody said there where a standby is.
    Silent,
    /// Where the standby is, or one of its acknowledgements, or a step of this side was refused so.
    Refused(Refusal),
    /// The connection ended, or what came on it was no acknowledgement that counts.
    Ended,
    /// A write failed.
    Unwritten,
}

impl Lost {
    /// Whether the connection was ended by the other side, or by what lies between.
    pub fn is_by_peer(self) -> bool
        ensures { IsTrue result ↔ ((self ≡ Ended) ⊎ (self ≡ Unwritten)) }
    {
        match self {
            Lost::Ended | Lost::Unwritten => true,
            Lost::Unreachable
            | Lost::Unresolved
            | Lost::NoDescriptor
            | Lost::Silent
            | Lost::Refused(_) => false,
        }
    }
}

impl<W: Write> Log<W> {
    /// One that writes its lines there.
    pub fn new(alloc: Global, to: W) -> Log<W> {
        Log {
            alloc,
            to,
            progress: None,
        }
    }

    /// The same, of a standby that shows there how far it is.
    pub fn showing(self, progress: Arc<Progress>) -> Log<W> {
        let Log { alloc, to, .. } = self;
        Log {
            alloc,
            to,
            progress: Some(progress),
        }
    }

    /// Where a standby shows how far it is, if it does.
    pub fn progress(&self) -> Option<Arc<Progress>> {
        match &self.progress {
            Some(progress) => Arc::try_clone(progress).ok(),
            None => None,
        }
    }

    /// Tells this.
    pub fn say(&mut self, news: News<'_>) {
        let mut line = Vec::new(self.alloc);
        if writeln!(line, "{news}").is_ok() {
            let _ = self.to.write_all(&line);
        }
    }
}
