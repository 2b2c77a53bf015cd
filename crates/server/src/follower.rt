//! What follows a primary: a standby, or a newcomer that is one once it has its copy.
ghost use Rattle.std.specs.Prelude.{◌≡◌, None, IfOk, IfErr};
ghost use Rattle.links.specs.declared.copied.Copied.TheVariants.{Standby as Became};
ghost use Rattle.server.specs.Follower.{IsReady, IsWhyNone};

use greeting::Greeting;
use links::{Copied, Left, follow, take_copy};
use mv_keyspace::Keyspace;
use node_log::{FillSetter, Log};
use placing::Fill;
use standby::{Newcomer, Standby};
use std::alloc::Global;
use std::io::{self, Write};
use std::net::{IpAddr, TcpListener};
use std::time::Clock;
use wbl_engine::Durable;

/// What an image was opened as.
#[derive(Drop)]
pub(crate) enum Follower<E: Durable, K: Keyspace> {
    Standby(Standby<E, K>),
    Newcomer(Newcomer<E, K>),
}

impl<E: Durable + Drop, K: Keyspace + Drop> Follower<E, K> {
    /// What the image is served by.
    pub(crate) fn engine(&self) -> &E {
        match self {
            Follower::Standby(node) => &node.engine,
            Follower::Newcomer(node) => &node.engine,
        }
    }

    /// How many keys it holds, and what of its image is free.
    pub(crate) fn fill(&self) -> Fill {
        match self {
            Follower::Standby(node) => node.fill(),
            Follower::Newcomer(node) => node.fill(),
        }
    }

    /// Takes one link at a time, as `take_copy` does until a newcomer has its copy, and as `follow` does with a standby, until no further one is taken. It says why.
    ///
    /// # Errors
    ///
    /// That of the listener, which takes no further link.
    pub(crate) fn take_links<C: Clock, W: Write>(
        self,
        clock: &C,
        alloc: Global,
        own: &Greeting,
        listener: &TcpListener,
        host: Option<IpAddr>,
        shown: &mut FillSetter,
        log: &mut Log<W>,
    ) -> io::Result<Left>
        requires { IsReady E.device E.contents E.is_faulted E.staged K.table self }
    {
        let mut node = match self {
            Follower::Standby(node) => node,
            Follower::Newcomer(node) => {
                match standby_of(take_copy(clock, alloc, own, node, listener, host, shown, log)?) {
                    Ok(node) => node,
                    Err(left) => return Ok(left),
                }
            }
        };
        follow(clock, alloc, own, &mut node, listener, host, shown, log)
    }
}

/// The standby that a newcomer has become, or why it takes no further link.
fn standby_of<E: Durable + Drop, K: Keyspace + Drop>(
    copied: Copied<E, K>,
) -> Result<Standby<E, K>, Left>
    ensures node { IfOk result (λ node. copied ≡ Became node None) }
    ensures left { IfErr result (λ left. IsWhyNone left copied) }
{
    match copied {
        Copied::Standby(node, None) => Ok(node),
        Copied::Standby(_, Some(left)) => Err(left),
        Copied::Stopped(why) => Err(Left::Stopped(why)),
    }
}
