//! The replies of a history, and what of them was released.
use crate::report::text_of;
use std::alloc::{AllocError, Global};
use world::History;

/// The position of the list.
pub fn position_of(history: &History) -> u64 {
    history.transcript.positions.last().copied().unwrap_or(0)
}

/// How many bytes of the replies to this connection, to its calls in the list, were not released.
pub fn unreleased(alloc: Global, history: &History, connection: u64) -> Result<usize, AllocError> {
    let mut bytes: usize = 0;
    for call in history.calls() {
        if call.connection == connection {
            bytes = bytes.saturating_add(text_of(alloc, &call.reply)?.len());
        }
    }
    Ok(bytes.saturating_sub(history.released(connection).len()))
}

/// The position of the last call of which a byte was released to this connection; 0 if there is none.
pub fn position_released(
    alloc: Global,
    history: &History,
    connection: u64,
) -> Result<u64, AllocError> {
    let released = history.released(connection).len();
    let positions = history.transcript.positions.as_slice();
    let mut start: usize = 0;
    let mut last = 0;
    for (call, position) in history.calls().iter().zip(positions) {
        if call.connection == connection && start < released {
            start = start.saturating_add(text_of(alloc, &call.reply)?.len());
            last = *position;
        }
    }
    Ok(last)
}
