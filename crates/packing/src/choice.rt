//! Places where a run might be made, the cheapest first.

/// How many places are tried.
const TRIES: usize = 16;

/// A place where a run might be made.
#[derive(Clone, Copy, PartialEq, Eq, PartialOrd, Ord)]
pub(crate) struct Choice {
    /// How many lines would have to be moved.
    pub(crate) cost: u64,
    /// The line where it begins.
    pub(crate) line: u64,
}

/// Leaves the cheapest, in order.
pub(crate) fn keep_cheapest(choices: &mut Vec<Choice>) {
    choices.sort_unstable();
    choices.truncate(TRIES);
}
