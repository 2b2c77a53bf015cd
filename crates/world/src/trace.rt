//! What a run reports.
use crate::history::History;
use kv_types::Refusal;

/// Where a run ended before its last event, and why: `Memory` where a growth was refused, `Fault` where a fence failed unasked, `Exhausted` where a
/// counter of an image would reach 2^62.
#[derive(Clone, Copy, Debug, PartialEq, Eq)]
pub enum EarlyEnd {
    /// Before the first event, while the nodes were made; also `WrongSize`, where a device has fewer than 4,096 lines or more than 2^31.
    AtFormatting(Refusal),
    /// At the event with this index, which was enabled. Each event before it did its step or was not enabled.
    AtEvent(usize, Refusal),
}

/// What a run did.
#[derive(Drop)]
pub struct Trace<P> {
    /// What was called, what was released, and what passed between the nodes.
    pub history: History,
    /// For each event that was reached, whether it did its step.
    pub done: Vec<bool>,
    /// Where the run ended early, if it did.
    pub ended: Option<EarlyEnd>,
    /// The devices, in the order in which they were given.
    pub devices: Vec<P>,
}
