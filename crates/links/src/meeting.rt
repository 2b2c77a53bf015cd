//! A standby's link from its greetings on, and the number that the node takes over there.
ghost use Rattle.std.specs.Prelude.{◌≡◌, ◌≢◌, ◌<◌, ℕ, Some, IfOk, IfErr, IsErrOf};
ghost use Rattle.std.specs.Option.{SomeIff};
ghost use Rattle.kv_types.specs.declared.refusal.Refusal.TheVariants.{Fault};
ghost use Rattle.greeting.specs.declared.greeting.Greeting.{Greeting as Said};
ghost use Rattle.standby.specs.Taking.{Stands};
ghost use Rattle.links.specs.Greeting.{IsUnmet, ServesGreeted, left_of};
ghost use Rattle.links.specs.Serving.{held};
ghost use Rattle.links.specs.declared.left.Left.TheVariants.{Adopts, Stopped};
ghost use Rattle.node_log.specs.declared.link_error.LinkError.TheVariants.{Stops};

use crate::following::serve_link;
use crate::greetings::{Unmet, greet};
use crate::left::Left;
use crate::stage::Stage;
use greeting::{Greeting, adopts};
use mv_keyspace::Keyspace;
use node_log::{FillSetter, LinkError};
use standby::Standby;
use std::alloc::Global;
use std::cell::Cell;
use std::io::{Read, Write};
use wbl_engine::Durable;

/// How a link ended whose sides had greeted.
#[derive(Clone, Copy, Debug, PartialEq, Eq)]
pub(crate) struct Met {
    /// As `serve_link` says.
    pub(crate) served: Result<(), LinkError>,
    /// The number that the node takes over, if it does.
    pub(crate) number: Option<u64>,
}

/// Greets, and then serves the link as `serve_link` does. A node without a number takes over that of a primary that has one and of which it took a frame on this
/// link; until then `stage` says that the link is to be left for that.
///
/// # Errors
///
/// Those of `greet`. The node is as it was.
pub(crate) fn serve_greeted<E: Durable, K: Keyspace, I: Read, O: Write>(
    alloc: Global,
    own: &Greeting,
    node: &mut Standby<E, K>,
    from: &mut I,
    to: &mut O,
    shown: &mut FillSetter,
    stage: &Cell<Stage>,
) -> Result<Met, Unmet>
    requires stands { Stands E.device E.contents E.is_faulted K.table node.old }
    ensures stands { IfOk result (λ met. ¬ IsErrOf met.served (Stops Fault) → Stands E.device E.contents E.is_faulted K.table node.new) }
    ensures greeted { IfOk result (λ met. (theirs : Said)
        × ServesGreeted own.now theirs (record { epoch = (E.contents node.old.engine).current.epoch; position = (E.contents node.old.engine).current.position }) met.served
        (held (E.contents node.old.engine) (K.table node.old.keyspace)) (I.remaining from.old) (O.contents to.old)
        (held (E.contents node.new.engine) (K.table node.new.keyspace)) (I.remaining from.new) (O.contents to.new)
        × SomeIff met.number ((own.now.pair ≡ 0) × (theirs.pair ≢ 0) × ((E.contents node.old.engine).current.position < (E.contents node.new.engine).current.position)) theirs.pair) }
    ensures unmet { IfErr result (λ why. (node.new ≡ node.old) × IsUnmet own.now why (I.remaining from.old) (I.remaining from.new) (O.contents to.old) (O.contents to.new)) }
{
    let theirs = match greet(own, from, to) {
        Ok(theirs) => theirs,
        Err(why) => return Err(why),
    };
    stage.set(Stage::met(adopts(own, &theirs)));
    let before = node.position();
    let served = serve_link(alloc, node, from, to, shown);
    let number = taken_over(own, &theirs, before, node.position());
    Ok(Met { served, number })
}

/// The number that a node of this greeting takes over from whom it served, who greeted it so, where a link brought it from one position to another.
fn taken_over(own: &Greeting, theirs: &Greeting, before: u64, after: u64) -> Option<u64>
    ensures { SomeIff result ((own.now.pair ≡ 0) × (theirs.now.pair ≢ 0) × (before < after)) theirs.now.pair }
{
    match adopts(own, theirs) {
        Some(number) if before < after => Some(number),
        _ => None,
    }
}

/// Why the node takes no further link after one that ended so, if it takes none.
pub(crate) fn left_by(met: &Met) -> Option<Left>
    ensures value { result ≡ left_of met.now.served met.now.number }
    ensures stopped { IsErrOf met.now.served (Stops Fault) → result ≡ Some (Stopped Fault) }
    ensures adopts { (number : ℕ) → result ≡ Some (Adopts number) → met.now.number ≡ Some number }
{
    match met.served {
        Err(LinkError::Stops(refusal)) => Some(Left::Stopped(refusal)),
        _ => match met.number {
            Some(number) => Some(Left::Adopts(number)),
            None => None,
        },
    }
}
