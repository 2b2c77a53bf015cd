//! What a pair of nodes was given and gave, which its caller keeps.
ghost use Rattle.std.specs.Prelude.{◌≡◌, ◌≤◌, [], IfOk, IfErr, slice_index_or, vec_capacity};
ghost use Rattle.connections.specs.Session.{TranscriptRefines, released_of};

use connections::Transcript;
use kv_types::Refusal;
use model::Call;
use std::alloc::Global;

/// All that happened to a pair, from its first event on: a step is lent it, and adds what the event gave. It grows for as long as the pair is stepped, and the pair
/// does not: what is kept of the past is here, and what the nodes need is in the pair. A step reads in it what the event names, so it is the one of
/// that very pair.
#[derive(Drop)]
pub struct History {
    /// What was called, and what was released to each connection.
    pub transcript: Transcript,
    /// The bytes of all frames that passed over the link, in the order of their sending.
    pub frames: Vec<Vec<u8>>,
    /// The bytes of the acknowledgements that the standby made, in order.
    pub acknowledgements: Vec<Vec<u8>>,
}

impl History {
    /// Nothing happens. It takes no memory.
    pub fn none(alloc: Global) -> History
        ensures calls { result.transcript.calls.items ≡ [] }
        ensures released { released_of result.transcript ≡ [] }
        ensures none_sent { (result.frames.items ≡ []) × (result.acknowledgements.items ≡ []) }
    {
        History {
            transcript: Transcript {
                calls: Vec::new(alloc),
                positions: Vec::new(alloc),
                released: Vec::new(alloc),
            },
            frames: Vec::new(alloc),
            acknowledgements: Vec::new(alloc),
        }
    }

    /// Nothing happened yet, and there is room for `calls` calls.
    ///
    /// `Memory` alone, where that room was refused.
    pub(crate) fn new(alloc: Global, calls: usize) -> Result<History, Refusal>
        ensures transcript { IfOk result (λ history. TranscriptRefines history.transcript [] []) }
        ensures none_sent { IfOk result (λ history. (history.frames.items ≡ []) × (history.acknowledgements.items ≡ [])) }
        ensures room { IfOk result (λ history. calls ≤ vec_capacity history.transcript.calls) }
        ensures cause { IfErr result (λ refusal. refusal ≡ Refusal.Memory) }
    {
        Ok(History {
            transcript: Transcript::new(alloc, calls)?,
            frames: Vec::new(alloc),
            acknowledgements: Vec::new(alloc),
        })
    }

    /// The list of calls.
    pub fn calls(&self) -> &[Call]
        ensures { result.now ≡ self.now.transcript.calls.items }
    {
        self.transcript.calls.as_slice()
    }

    /// The bytes that were released to connection `c`; none if it has not entered.
    pub fn released(&self, c: u64) -> &[u8]
        ensures { result.now ≡ slice_index_or (released_of self.now.transcript) c [] }
    {
        self.transcript.released(c)
    }

    /// The bytes of all frames that passed over the link, in the order of their sending.
    pub fn frames(&self) -> &[Vec<u8>]
        ensures { result.now ≡ self.now.frames.items }
    {
        self.frames.as_slice()
    }

    /// The bytes of the acknowledgements that the standby made, in order.
    pub fn acknowledgements(&self) -> &[Vec<u8>]
        ensures { result.now ≡ self.now.acknowledgements.items }
    {
        self.acknowledgements.as_slice()
    }
}
