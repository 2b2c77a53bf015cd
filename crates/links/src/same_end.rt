//! What is known of a receiver that comes back from its thread.
use crate::receiver::AckReceiver;
use std::snapshot::Snapshot;
use std::thread::Promise;
use stream_codec::Decoder;

/// The promise that the receiver that comes back is this end of the link still: its epoch is the one that it had, where the standby was ahead it is so
/// for good, and it has heard what came behind the bytes that this decoder held.
#[derive(Drop)]
pub(crate) struct SameEnd {
    pub(crate) receiver: Snapshot<AckReceiver>,
    pub(crate) decoder: Snapshot<Decoder>,
}

impl Promise<AckReceiver> for SameEnd {
    ghost use Rattle.links.specs.Marking.{IsSameEnd};

    ghost kept_by = { λ promise after. IsSameEnd promise.receiver.value promise.decoder.value after };
}
