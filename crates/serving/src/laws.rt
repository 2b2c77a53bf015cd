//! What a round of the node's thread did, as events of the machine: the contract of a function that does nothing.
ghost use Rattle.serving.specs.Acts.{RoundsAreActs};

use wbl_engine::Durable;

/// What a round of the node's thread did, by `TakesRound`, is a list of acts, and the groups that they hand on are those that it offered to the link, or has in hand
/// and offers next. So are the steps of a job that was lent: they come where it comes back.
pub fn rounds_are_acts<E: Durable>()
    ensures { RoundsAreActs E.device E.contents E.is_faulted }
{}
