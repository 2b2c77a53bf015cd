//! Frames read from bytes that come in pieces.
ghost use Rattle.std.specs.Prelude.{◌≡◌, ◌≢◌, ◌⊎◌, ◌++◌, [], IfOk, IfErr, OnOk, OnErr, Ok, Err, is_none};
ghost use Rattle.kv_types.specs.declared.refusal.Refusal.TheVariants.{FrameFault, Memory};
ghost use Rattle.stream_codec.specs.Stream.{fed};
ghost use Rattle.stream_codec.specs.Reading.{group_begun, group_in, group_of, head_at};
ghost use Rattle.stream_codec.specs.Scanning.{IsAt, sent_of_all, IsTaken};

use crate::head::{Head, head_at};
use crate::message::{GroupHead, Message};
use crate::scan::{Progress, START};
use crate::whole_frames::split_frames;
use bytes::{BufMut, BytesMut};
use kv_types::Refusal;
use std::alloc::{AllocError, Global};
use std::marker::Model;

/// How many bytes of room are kept for the frames to come, at most, once nothing is left to read.
const MOST_KEPT_BYTES: usize = 2 * 65_536;

/// The beginning of a frame.
#[derive(Drop)]
pub(crate) struct Begun {
    unread: BytesMut,
    /// A place in the frame, so that what is before it is not looked at again.
    progress: Progress,
}

/// What a piece gave.
#[derive(Drop)]
struct Taken {
    messages: Vec<Message>,
    /// No continuation of what follows them is a frame.
    is_broken: bool,
}

/// Gives up the room of bytes that were all read, where it is large: a long frame is not to keep it for as long as the decoder lives.
fn let_go(unread: &mut BytesMut)
    ensures { unread.new.items ≡ unread.old.items }
{
    if !unread.is_empty() {
        return;
    }
    // (all of it is spare then, so that the capacity tells of it)
    unread.clear();
    if unread.capacity() > MOST_KEPT_BYTES {
        *unread = BytesMut::new(*unread.allocator());
    }
}

/// Keeps a piece. (A single byte is stored without a call.)
fn keep(unread: &mut BytesMut, piece: &[u8]) -> Result<(), AllocError>
    ensures ok { OnOk result (unread.new.items ≡ unread.old.items ++ piece.now) }
    ensures err { OnErr result (unread.new.items ≡ unread.old.items) }
{
    match piece {
        [byte] => unread.put_u8(*byte),
        _ => unread.extend_from_slice(piece),
    }
}

impl Begun {
    /// Takes a piece, and gives the frames that are whole now. After an error nothing of the piece was taken. What is left behind a fault means nothing.
    fn take(&mut self, piece: &[u8]) -> Result<Taken, AllocError>
        requires { IsAt self.old.unread.items self.old.progress }
        ensures taken { IfOk result (λ t. IsTaken (self.old.unread.items ++ piece.now) t.messages.items t.is_broken self.new.unread.items self.new.progress) }
        ensures err { OnErr result ((self.new.unread.items ≡ self.old.unread.items) × (self.new.progress ≡ self.old.progress)) }
    {
        let before = self.unread.len();
        keep(&mut self.unread, piece)?;
        if self.unread.len() < self.progress.wanted {
            return Ok(Taken {
                messages: Vec::new(*self.unread.allocator()),
                is_broken: false,
            });
        }
        match self.split() {
            Ok(taken) => Ok(taken),
            Err(error) => {
                self.unread.truncate(before);
                Err(error)
            }
        }
    }

    /// Gives the frames that are whole. Few short pieces come so far, so it is not inlined into what each of them passes.
    #[inline(never)]
    fn split(&mut self) -> Result<Taken, AllocError>
        requires { IsAt self.old.unread.items self.old.progress }
        ensures taken { IfOk result (λ t. IsTaken self.old.unread.items t.messages.items t.is_broken self.new.unread.items self.new.progress) }
        ensures err { OnErr result ((self.new.unread.items ≡ self.old.unread.items) × (self.new.progress ≡ self.old.progress)) }
    {
        let alloc = *self.unread.allocator();
        let split = split_frames(alloc, self.unread.as_slice(), self.progress)?;
        let given = self.unread.len() - split.rest.len();
        let messages = split.messages;
        let progress = split.progress;
        self.unread.advance(given);
        let_go(&mut self.unread);
        if let Some(place) = progress {
            self.progress = place;
        }
        Ok(Taken {
            messages,
            is_broken: progress.is_none(),
        })
    }
}

/// The numbers of a group's frame, if they are one's.
fn group_in(head: Head) -> Option<GroupHead>
    ensures { result ≡ group_in head }
{
    match head {
        Head::Group(epoch, before, after, size) => Some(GroupHead {
            epoch,
            before,
            after,
            size,
        }),
        Head::Ack(_) | Head::Wanted(_) | Head::Part(_, _, _, _) | Head::End(_, _, _) => None,
    }
}

/// The numbers of the group's frame at the front, if all of them are there.
fn group_at(bytes: &[u8]) -> Option<GroupHead>
    ensures { result ≡ group_of (head_at bytes.now) }
{
    match head_at(bytes) {
        Ok((head, _)) => group_in(head),
        Err(_) => None,
    }
}

/// Reads frames from bytes that come in pieces. A clause sees the bytes that were fed and not yet given as frames, or `None` once no continuation
/// of them is a frame.
#[derive(Drop)]
pub struct Decoder {
    /// `None` after a fault: bytes are no longer read, so they are not kept either.
    begun: Option<Begun>,
}

impl Model for Decoder {
    ghost use Rattle.std.specs.Prelude.{ℕ, List, Option, option_map, IfSome};
    ghost use Rattle.stream_codec.specs.Scanning.{IsAt};

    ghost Value = { Option (List ℕ) };

    ghost view = { λ d. option_map (λ b. b.unread.items) d.begun };

    ghost invariant = { λ d. IfSome d.begun (λ b. IsAt b.unread.items b.progress) };
}

impl Decoder {
    /// A decoder that has been fed nothing.
    pub fn new(alloc: Global) -> Decoder
        ensures { result ≡ Some [] }
    {
        Decoder {
            begun: Some(Begun {
                unread: BytesMut::new(alloc),
                progress: START,
            }),
        }
    }

    /// Whether a byte was fed after which no continuation is a frame.
    pub fn is_broken(&self) -> bool
        ensures { result ≡ is_none self.now }
    {
        self.begun.is_none()
    }

    /// The numbers of the group's frame that is begun, once all of them were fed.
    pub fn group_begun(&self) -> Option<GroupHead>
        ensures { result ≡ group_begun self.now }
    {
        match &self.begun {
            Some(begun) => group_at(begun.unread.as_slice()),
            None => None,
        }
    }

    /// Takes the next piece, of any bytes, and gives the frames that are whole now, in order. Once a byte was fed after which no continuation is a
    /// frame, the frames before it have been given, and each later call is refused with 10. Refused with 14 when out of memory; then nothing of
    /// the piece is taken, and the call may be repeated.
    pub fn feed(&mut self, piece: &[u8]) -> Result<Vec<Message>, Refusal>
        ensures given { IfOk result (λ given. sent_of_all given.items ≡ (fed self.old piece.now).messages) }
        ensures ok { OnOk result (self.new ≡ (fed self.old piece.now).unread) }
        ensures err { OnErr result (self.new ≡ self.old) }
        ensures fault { self.old ≡ None → result ≡ Err FrameFault }
        ensures cause { IfErr result (λ refusal. (refusal ≡ FrameFault × self.old ≡ None) ⊎ (refusal ≡ Memory × self.old ≢ None)) }
    {
        let Some(begun) = &mut self.begun else {
            return Err(Refusal::FrameFault);
        };
        let taken = begun.take(piece)?;
        if taken.is_broken {
            self.begun = None;
        }
        Ok(taken.messages)
    }
}
