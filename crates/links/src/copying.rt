//! A newcomer's side of a link: it says that it wants a copy, and takes the frames of one until the copy has ended.
ghost use Rattle.std.specs.Prelude.{◌≡◌, ◌≢◌, ℕ, List, OnOk, None, Ok, IfOk, IfErr, IfSome};
ghost use Rattle.kv_types.specs.declared.refusal.Refusal.{Refusal as Cause};
ghost use Rattle.kv_types.specs.declared.refusal.Refusal.TheVariants.{Fault};
ghost use Rattle.placing.specs.Fill.{fill_of};
ghost use Rattle.standby.specs.Newcomers.{AwaitsCopy, HasCopy};
ghost use Rattle.stream_codec.specs.Message.{Sent, sent_of};
ghost use Rattle.stream_codec.specs.Scanning.{sent_of_all};
ghost use Rattle.stream_codec.specs.Stream.{fed};
ghost use Rattle.links.specs.Copying.{AsksAndBrings, AsksAndEnds, Brings, EndsHalf, IfCopy, IsAcknowledged, IsBrought, IsLast, IsLinkWith, IsPieceEnd, RefusesMessage, StopsShort, TakesEnd, TakesOneEnd, TakesOnePart, TakesParts, newcomer, refusal_of_epoch, wire};
ghost use Rattle.links.specs.Serving.{ends_by};
ghost use Rattle.node_log.specs.declared.link_error.LinkError.TheVariants.{Stops};

use crate::acknowledging::say;
use crate::copy_teller::CopyProgress;
use crate::following::{BLOCK_BYTES, Came, read_piece};
use crate::link_error::ends_by;
use crate::reading::new_block;
use crate::wanting::want_copy;
use frames::Ack;
use kv_types::Refusal;
use mv_keyspace::Keyspace;
use node_log::{FillSetter, LinkError};
use standby::Newcomer;
use std::alloc::Global;
use std::cell::Cell;
use std::io::{Read, Write};
use stream_codec::{Decoder, Message};
use wbl_engine::Durable;

/// What a newcomer's link came to.
#[derive(Drop)]
pub enum Brought {
    /// The primary closed the connection before the copy had ended.
    Closed,
    /// The node has its copy, and acknowledged it: the link is open, and this decoder holds what came behind. Or why the link has ended then.
    Copy(Result<Decoder, LinkError>),
}

/// Serves the link of a newcomer whose sides have greeted: says that it wants a copy of its epoch, and takes the parts that come, in order, until the
/// end of the copy, which it acknowledges at once. Nothing else is written. How much the node holds is shown from the beginning, and after each piece of the
/// bytes that are read, and how far it has come with its copy is put into `seen`.
///
/// # Errors
///
/// Why the link ended before the copy did. What was taken of the copy stays for the next link. A group or an acknowledgement is refused by `PositionGap` where
/// it is of the node's epoch, else by `WrongEpoch`, and by `FrameFault` that the other side wants a copy: the node is as it was.
pub fn serve_copy<E: Durable, K: Keyspace + Drop, I: Read, O: Write>(
    alloc: Global,
    node: &mut Newcomer<E, K>,
    from: &mut I,
    to: &mut O,
    shown: &mut FillSetter,
    seen: &Cell<Option<CopyProgress>>,
) -> Result<Brought, LinkError>
    requires awaits { AwaitsCopy E.device E.contents E.is_faulted E.staged K.table node.old }
    ensures awaits { IfErr result (λ end. end ≢ Stops Fault → AwaitsCopy E.device E.contents E.is_faulted E.staged K.table node.new) }
    ensures stays { IfOk result (λ came. IsBrought came (AwaitsCopy E.device E.contents E.is_faulted E.staged K.table node.new) (HasCopy E.device E.contents E.is_faulted E.staged K.table node.new)) }
    ensures brings { IfOk result (λ came. AsksAndBrings (newcomer E.device E.contents E.is_faulted E.staged K.table) came node.old (wire (I.remaining from.old) (O.contents to.old))
        node.new (wire (I.remaining from.new) (O.contents to.new))) }
    ensures ends { IfErr result (λ end. AsksAndEnds (newcomer E.device E.contents E.is_faulted E.staged K.table) end node.old (wire (I.remaining from.old) (O.contents to.old))
        node.new (wire (I.remaining from.new) (O.contents to.new))) }
    ensures shown { OnOk result (shown.new ≡ fill_of (K.table node.new.keyspace) node.new.heap) }
{
    let mut block = new_block(alloc, BLOCK_BYTES)?;
    want_copy(alloc, node.epoch(), to)?;
    gather(alloc, node, from, to, shown, seen, &mut block)
}

/// Takes the frames that come, until the copy has ended or the primary closes the connection.
///
/// # Errors
///
/// As at `serve_copy`.
fn gather<E: Durable, K: Keyspace + Drop, I: Read, O: Write>(
    alloc: Global,
    node: &mut Newcomer<E, K>,
    from: &mut I,
    to: &mut O,
    shown: &mut FillSetter,
    seen: &Cell<Option<CopyProgress>>,
    block: &mut Vec<u8>,
) -> Result<Brought, LinkError>
    requires awaits { AwaitsCopy E.device E.contents E.is_faulted E.staged K.table node.old }
    ensures awaits { IfErr result (λ end. end ≢ Stops Fault → AwaitsCopy E.device E.contents E.is_faulted E.staged K.table node.new) }
    ensures stays { IfOk result (λ came. IsBrought came (AwaitsCopy E.device E.contents E.is_faulted E.staged K.table node.new) (HasCopy E.device E.contents E.is_faulted E.staged K.table node.new)) }
    ensures brings { IfOk result (λ came. Brings (newcomer E.device E.contents E.is_faulted E.staged K.table) came node.old (wire (I.remaining from.old) (O.contents to.old))
        node.new (wire (I.remaining from.new) (O.contents to.new))) }
    ensures ends { IfErr result (λ end. EndsHalf (newcomer E.device E.contents E.is_faulted E.staged K.table) node.old (wire (I.remaining from.old) (O.contents to.old)) end
        node.new (wire (I.remaining from.new) (O.contents to.new))) }
    ensures shown { OnOk result (shown.new ≡ fill_of (K.table node.new.keyspace) node.new.heap) }
{
    let mut decoder = Decoder::new(alloc);
    show(node, shown, seen);
    for _ in 0..u64::MAX {
        let piece = match read_piece(from, block)? {
            Came::Piece(piece) => piece,
            Came::Nothing => continue,
            Came::End => return Ok(Brought::Closed),
        };
        let ended = take_piece(alloc, node, &mut decoder, piece, to)?;
        show(node, shown, seen);
        if let Some(link) = ended {
            return Ok(copied(link, decoder));
        }
    }
    Ok(Brought::Closed)
}

/// Shows how much the node holds, and how far it has come with its copy.
fn show<E: Durable, K: Keyspace + Drop>(
    node: &Newcomer<E, K>,
    shown: &mut FillSetter,
    seen: &Cell<Option<CopyProgress>>,
)
    ensures { shown.new ≡ fill_of (K.table node.now.keyspace) node.now.heap }
{
    let fill = node.fill();
    shown.show(&fill);
    seen.set(CopyProgress::of_half(&node.half, fill.keys));
}

/// That the copy has ended, with a link that is open or has ended so, and what came behind.
fn copied(link: Result<(), LinkError>, decoder: Decoder) -> Brought
    ensures { IfCopy result (λ found. IsLinkWith found link decoder) }
{
    match link {
        Ok(()) => Brought::Copy(Ok(decoder)),
        Err(end) => Brought::Copy(Err(end)),
    }
}

/// Takes the frames that are whole with this piece, in order. `None` where they are parts; else the copy has ended, and this is whether the link has.
///
/// # Errors
///
/// As at `serve_copy`; `Memory` too where there is none for what came.
fn take_piece<E: Durable, K: Keyspace + Drop, O: Write>(
    alloc: Global,
    node: &mut Newcomer<E, K>,
    decoder: &mut Decoder,
    piece: &[u8],
    to: &mut O,
) -> Result<Option<Result<(), LinkError>>, LinkError>
    requires awaits { AwaitsCopy E.device E.contents E.is_faulted E.staged K.table node.old }
    ensures awaits { IfErr result (λ end. end ≢ Stops Fault → AwaitsCopy E.device E.contents E.is_faulted E.staged K.table node.new) }
    ensures parts { result ≡ Ok None → AwaitsCopy E.device E.contents E.is_faulted E.staged K.table node.new × (to.new ≡ to.old)
        × TakesParts (newcomer E.device E.contents E.is_faulted E.staged K.table) node.old (fed decoder.old piece.now).messages node.new }
    ensures end { IfOk result (λ ended. IfSome ended (λ link. HasCopy E.device E.contents E.is_faulted E.staged K.table node.new
        × TakesEnd (newcomer E.device E.contents E.is_faulted E.staged K.table) node.old (fed decoder.old piece.now).messages link node.new (O.contents to.old) (O.contents to.new))) }
    ensures unread { OnOk result (decoder.new ≡ (fed decoder.old piece.now).unread) }
    ensures ends { IfErr result (λ end. (to.new ≡ to.old) × IsPieceEnd (newcomer E.device E.contents E.is_faulted E.staged K.table) node.old decoder.old piece.now end node.new) }
{
    let messages = match decoder.feed(piece) {
        Ok(messages) => messages,
        Err(refusal) => return Err(LinkError::Refused(refusal)),
    };
    let ended = take_all(alloc, node, messages, to)?;
    if ended.is_none() && decoder.is_broken() {
        return Err(LinkError::Refused(Refusal::FrameFault));
    }
    Ok(ended)
}

/// Takes what came, in order. `None` where all of it are parts; else the copy has ended, and this is whether the link has: what comes behind the end of a copy is
/// a fault of the primary.
///
/// # Errors
///
/// As at `serve_copy`.
fn take_all<E: Durable, K: Keyspace + Drop, O: Write>(
    alloc: Global,
    node: &mut Newcomer<E, K>,
    messages: Vec<Message>,
    to: &mut O,
) -> Result<Option<Result<(), LinkError>>, LinkError>
    requires awaits { AwaitsCopy E.device E.contents E.is_faulted E.staged K.table node.old }
    ensures awaits { IfErr result (λ end. end ≢ Stops Fault → AwaitsCopy E.device E.contents E.is_faulted E.staged K.table node.new) }
    ensures parts { result ≡ Ok None → AwaitsCopy E.device E.contents E.is_faulted E.staged K.table node.new × (to.new ≡ to.old)
        × TakesParts (newcomer E.device E.contents E.is_faulted E.staged K.table) node.old (sent_of_all messages.items) node.new }
    ensures end { IfOk result (λ ended. IfSome ended (λ link. HasCopy E.device E.contents E.is_faulted E.staged K.table node.new
        × TakesEnd (newcomer E.device E.contents E.is_faulted E.staged K.table) node.old (sent_of_all messages.items) link node.new (O.contents to.old) (O.contents to.new))) }
    ensures ends { IfErr result (λ end. (to.new ≡ to.old) × StopsShort (newcomer E.device E.contents E.is_faulted E.staged K.table) node.old (sent_of_all messages.items) end node.new) }
{
    let mut coming = messages.into_iter();
    while let Some(message) = coming.next() {
        if let Some(ack) = take(alloc, node, message)? {
            let is_last = coming.next().is_none();
            return Ok(Some(acknowledge(alloc, ack, is_last, to)));
        }
    }
    Ok(None)
}

/// Writes the acknowledgement of a copy, and tells whether the link has ended: it goes on where nothing came behind the end of the copy.
///
/// # Errors
///
/// Those of `say`; and `FrameFault`, with all of it written, where something came.
fn acknowledge<O: Write>(
    alloc: Global,
    ack: Ack,
    is_last: bool,
    to: &mut O,
) -> Result<(), LinkError>
    ensures { (behind : List Sent) → IsLast is_last behind → IsAcknowledged ack behind result (O.contents to.old) (O.contents to.new) }
{
    say(ack, to, &mut Vec::new(alloc))?;
    if is_last {
        Ok(())
    } else {
        Err(LinkError::Refused(Refusal::FrameFault))
    }
}

/// Takes what came, a part or the end of a copy, and answers by what it acknowledges an end.
///
/// # Errors
///
/// How the link ends where it is refused.
fn take<E: Durable, K: Keyspace + Drop>(
    alloc: Global,
    node: &mut Newcomer<E, K>,
    message: Message,
) -> Result<Option<Ack>, LinkError>
    requires awaits { AwaitsCopy E.device E.contents E.is_faulted E.staged K.table node.old }
    ensures awaits { IfErr result (λ end. end ≢ Stops Fault → AwaitsCopy E.device E.contents E.is_faulted E.staged K.table node.new) }
    ensures part { result ≡ Ok None → AwaitsCopy E.device E.contents E.is_faulted E.staged K.table node.new
        × TakesOnePart (newcomer E.device E.contents E.is_faulted E.staged K.table) node.old (sent_of message) node.new }
    ensures end { IfOk result (λ taken. IfSome taken (λ ack. HasCopy E.device E.contents E.is_faulted E.staged K.table node.new
        × TakesOneEnd (newcomer E.device E.contents E.is_faulted E.staged K.table) node.old (sent_of message) ack node.new)) }
    ensures refused { IfErr result (λ end. (refusal : Cause) × (end ≡ ends_by refusal)
        × RefusesMessage (newcomer E.device E.contents E.is_faulted E.staged K.table) node.old (sent_of message) refusal node.new) }
{
    match take_message(alloc, node, message) {
        Ok(taken) => Ok(taken),
        Err(refusal) => Err(ends_by(refusal)),
    }
}

/// Takes what came, a part or the end of a copy, and answers by what it acknowledges an end. Anything else is refused with nothing changed.
///
/// # Errors
///
/// Those of `Newcomer::take_part` and `Newcomer::end_copy`. `PositionGap` for a group or an acknowledgement of the node's epoch, `WrongEpoch` for one of another,
/// and `FrameFault` where the other side wants a copy.
fn take_message<E: Durable, K: Keyspace + Drop>(
    alloc: Global,
    node: &mut Newcomer<E, K>,
    message: Message,
) -> Result<Option<Ack>, Refusal>
    requires awaits { AwaitsCopy E.device E.contents E.is_faulted E.staged K.table node.old }
    ensures awaits { IfErr result (λ refusal. refusal ≢ Fault → AwaitsCopy E.device E.contents E.is_faulted E.staged K.table node.new) }
    ensures part { result ≡ Ok None → AwaitsCopy E.device E.contents E.is_faulted E.staged K.table node.new
        × TakesOnePart (newcomer E.device E.contents E.is_faulted E.staged K.table) node.old (sent_of message) node.new }
    ensures end { IfOk result (λ taken. IfSome taken (λ ack. HasCopy E.device E.contents E.is_faulted E.staged K.table node.new
        × TakesOneEnd (newcomer E.device E.contents E.is_faulted E.staged K.table) node.old (sent_of message) ack node.new)) }
    ensures refused { IfErr result (λ refusal. RefusesMessage (newcomer E.device E.contents E.is_faulted E.staged K.table) node.old (sent_of message) refusal node.new) }
{
    match message {
        Message::CopyPart(part) => match node.take_part(alloc, part) {
            Ok(()) => Ok(None),
            Err(refusal) => Err(refusal),
        },
        Message::CopyEnd(end) => match node.end_copy(alloc, end) {
            Ok(ack) => Ok(Some(ack)),
            Err(refusal) => Err(refusal),
        },
        Message::Group(frame) => Err(refusal_of_epoch(node.epoch(), frame.epoch)),
        Message::Ack(ack) => Err(refusal_of_epoch(node.epoch(), ack.epoch())),
        Message::CopyWanted(_) => Err(Refusal::FrameFault),
    }
}

/// Why a node of the own epoch refuses a group or an acknowledgement of this one.
fn refusal_of_epoch(own: u64, theirs: u64) -> Refusal
    ensures { result ≡ refusal_of_epoch own theirs }
{
    if theirs == own {
        Refusal::PositionGap
    } else {
        Refusal::WrongEpoch
    }
}
