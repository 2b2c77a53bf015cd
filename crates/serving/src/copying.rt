//! A copy of all records is made for a newcomer, frame by frame, while commands go on.
ghost use Rattle.std.specs.Prelude.{◌≡◌, ◌+◌, ◌<◌, ◌≤◌, ◌++◌, ◌∷◌, [], IfErr, IfOk, MatchOption, OnErr};
ghost use Rattle.rtrb.specs.Ring.{known_free};
ghost use Rattle.pipes.specs.Ring.{offered_at};
ghost use Rattle.serving.specs.Copying as spec;
ghost use Rattle.serving.specs.Serving.{HasRead};

use kv_types::Refusal;
use links::{CopyAsk, CopyStep};
use marks::ThreadMarks;
use mv_keyspace::Keyspace;
use pipes::{Inlet, Outlet, PIPE_ITEMS, RingInlet, RingOutlet};
use primary::{CopyFrame, Front};
use std::alloc::Global;
use wakes::Waker;

/// How far a copy for a newcomer has come.
#[derive(Clone, Copy)]
pub(crate) enum CopyStage {
    /// No newcomer wants one.
    Idle,
    /// The newcomer of this attempt waits for a copy to be pinned, or for the pinned one from its first frame on.
    Awaited(u64),
    /// The next frame goes to the newcomer of this attempt.
    Sending(u64),
    /// All frames went to the newcomer of this attempt.
    Ended(u64),
}

/// What came of a step of a copy.
#[derive(Clone, Copy)]
pub(crate) enum CopyCame {
    /// It was not its time.
    Nothing,
    /// The link was told.
    Told,
    /// Memory was refused: it is tried again in the next round.
    Lacks,
}

/// What came of a round's steps of a copy.
#[derive(Clone, Copy)]
pub(crate) struct CopyMade {
    /// Whether the link had asked for something.
    pub(crate) asked: bool,
    /// Whether the link was told where the copy is pinned.
    pub(crate) pinned: CopyCame,
    /// Whether it was given a frame.
    pub(crate) sent: CopyCame,
}

/// What makes a copy for a newcomer of which the link knows.
#[derive(Drop)]
pub(crate) struct CopyMaker {
    /// What the link asks for.
    pub(crate) asks: RingInlet<CopyAsk>,
    /// Where it is told which copy is pinned, and given the frames.
    pub(crate) copies: RingOutlet<CopyStep>,
    /// Wakes the link's sender.
    pub(crate) link: Waker,
    pub(crate) stage: CopyStage,
}

impl CopyStage {
    /// Which attempt waits for a copy, if one does.
    pub(crate) fn awaited_by(self) -> Option<u64>
        ensures { result ≡ spec.awaited_by self }
    {
        match self {
            CopyStage::Awaited(attempt) => Some(attempt),
            CopyStage::Idle | CopyStage::Sending(_) | CopyStage::Ended(_) => None,
        }
    }

    /// To which attempt the next frame goes, if one is to go.
    pub(crate) fn sent_to(self) -> Option<u64>
        ensures { result ≡ spec.sent_to self }
    {
        match self {
            CopyStage::Sending(attempt) => Some(attempt),
            CopyStage::Idle | CopyStage::Awaited(_) | CopyStage::Ended(_) => None,
        }
    }
}

impl CopyMade {
    /// Whether anything was done.
    pub(crate) fn is_busy(&self) -> bool
        ensures { result ≡ spec.did_make self.now }
    {
        let is_told = self.pinned.is_told() | self.sent.is_told();
        self.asked | is_told
    }
}

impl CopyCame {
    fn is_told(self) -> bool
        ensures { result ≡ spec.is_told self }
    {
        match self {
            CopyCame::Told => true,
            CopyCame::Nothing | CopyCame::Lacks => false,
        }
    }
}

impl CopyMaker {
    /// What is asked for here, and told there. No newcomer wants a copy.
    pub(crate) fn new(
        asks: RingInlet<CopyAsk>,
        copies: RingOutlet<CopyStep>,
        link: Waker,
    ) -> CopyMaker
        ensures { result ≡ record { asks = asks; copies = copies; link = link; stage = CopyStage.Idle } }
    {
        CopyMaker {
            asks,
            copies,
            link,
            stage: CopyStage::Idle,
        }
    }

    /// Takes what the link asks for next, pins a copy where one is awaited and no change waits to be in a group, and makes its next frame where the link has
    /// taken the last one and all that the copy is of is durable here. So no group of changes behind the pin is closed before the link is told of it, and no
    /// newcomer is told of what this node may still lose.
    ///
    /// Where memory is refused nothing is lost: it is tried again in the next round.
    pub(crate) fn tend<K: Keyspace>(
        &mut self,
        alloc: Global,
        front: &mut Front<K>,
        marks: &mut ThreadMarks,
    ) -> CopyMade
        ensures made { spec.MakesCopy marks.new.local self.old front.old.sequencer self.new front.new.sequencer result }
        ensures read { HasRead marks.old marks.new }
    {
        let asked = self.hear(front);
        let pinned = self.pin(front);
        let sent = self.send(alloc, front, marks);
        let made = CopyMade {
            asked,
            pinned,
            sent,
        };
        if made.is_busy() {
            self.link.wake();
        }
        made
    }

    /// Takes what the link asks for next, if it asks for anything: a copy, or that the pinned one be let go. Answers whether it did.
    fn hear<K: Keyspace>(&mut self, front: &mut Front<K>) -> bool
        ensures { spec.HearsAsk self.old front.old.sequencer self.new front.new.sequencer result }
    {
        let Some(ask) = self.asks.take() else {
            return false;
        };
        self.stage = match ask {
            CopyAsk::Wanted(attempt) => CopyStage::Awaited(attempt),
            CopyAsk::Over => {
                front.end_copy();
                CopyStage::Idle
            }
        };
        true
    }

    /// Tells the link of the copy that it awaits, once one is pinned.
    fn pin<K: Keyspace>(&mut self, front: &mut Front<K>) -> CopyCame
        ensures { spec.TellsPin self.old front.old.sequencer self.new front.new.sequencer result }
    {
        let Some(attempt) = self.stage.awaited_by() else {
            return CopyCame::Nothing;
        };
        if self.copies.room() == 0 {
            return CopyCame::Nothing;
        }
        match begin(front) {
            Ok(Some(position)) => {
                let _ = self.copies.offer(CopyStep::Pinned { attempt, position });
                self.stage = CopyStage::Sending(attempt);
                CopyCame::Told
            }
            Ok(None) => CopyCame::Nothing,
            Err(_) => CopyCame::Lacks,
        }
    }

    /// Gives the link the next frame of the copy, where it has taken all before it.
    fn send<K: Keyspace>(
        &mut self,
        alloc: Global,
        front: &mut Front<K>,
        marks: &mut ThreadMarks,
    ) -> CopyCame
        ensures sends { spec.SendsFrame marks.new.local self.old front.old.sequencer self.new front.new.sequencer result }
        ensures read { HasRead marks.old marks.new }
    {
        let Some(attempt) = self.stage.sent_to() else {
            return CopyCame::Nothing;
        };
        if self.copies.room() < PIPE_ITEMS {
            return CopyCame::Nothing;
        }
        match next_frame(alloc, front, marks) {
            Ok(Some(frame)) => {
                self.give(attempt, frame);
                CopyCame::Told
            }
            Ok(None) => CopyCame::Nothing,
            Err(_) => CopyCame::Lacks,
        }
    }

    /// Gives the link this frame for this attempt. Behind the end of the copy none comes.
    fn give(&mut self, attempt: u64, frame: CopyFrame)
        requires { 0 < known_free self.old.copies.producer }
        ensures stage { self.new.stage ≡ spec.stage_behind attempt frame }
        ensures offered { offered_at self.new.copies ≡ offered_at self.old.copies ++ spec.step_of attempt frame ∷ [] }
        ensures asks { self.new.asks ≡ self.old.asks }
        ensures room { known_free self.old.copies.producer ≤ known_free self.new.copies.producer + 1 }
    {
        self.stage = stage_behind(attempt, &frame);
        let step = step_of(attempt, frame);
        let _ = self.copies.offer(step);
    }
}

/// How a frame is given to the link for this attempt.
fn step_of(attempt: u64, frame: CopyFrame) -> CopyStep
    ensures { result ≡ spec.step_of attempt frame }
{
    match frame {
        CopyFrame::Part(part) => CopyStep::Part { attempt, part },
        CopyFrame::End(end) => CopyStep::End { attempt, end },
    }
}

/// Where the copy is behind this frame. Behind the end none comes.
fn stage_behind(attempt: u64, frame: &CopyFrame) -> CopyStage
    ensures { result ≡ spec.stage_behind attempt frame.now }
{
    match frame {
        CopyFrame::Part(_) => CopyStage::Sending(attempt),
        CopyFrame::End(_) => CopyStage::Ended(attempt),
    }
}

/// The position of the copy whose first frame comes next: of the one that is pinned, which begins again, or of one that is pinned now. None where none is, and
/// changes wait to be in a group.
///
/// # Errors
///
/// Only `Memory`, and then nothing changed.
fn begin<K: Keyspace>(front: &mut Front<K>) -> Result<Option<u64>, Refusal>
    ensures ok { IfOk result (λ found. MatchOption found (spec.IsBarred front.old.sequencer × (front.new.sequencer ≡ front.old.sequencer))
        (λ position. spec.PinsAt position front.old.sequencer front.new.sequencer)) }
    ensures cause { IfErr result (λ refusal. refusal ≡ Refusal.Memory) }
    ensures err { OnErr result (spec.MayPin front.old.sequencer × (front.new.sequencer ≡ front.old.sequencer)) }
{
    if let Some(position) = front.copy_at() {
        front.restart_copy();
        return Ok(Some(position));
    }
    if front.has_open() {
        return Ok(None);
    }
    let position = front.begin_copy()?;
    Ok(Some(position))
}

/// The next frame of the pinned copy, once all up to its position is durable on this node.
///
/// # Errors
///
/// Only `Memory`, and then nothing changed.
fn next_frame<K: Keyspace>(
    alloc: Global,
    front: &mut Front<K>,
    marks: &mut ThreadMarks,
) -> Result<Option<CopyFrame>, Refusal>
    ensures ok { IfOk result (λ found. MatchOption found ((¬ spec.IsDurableHere marks.new.local front.old.sequencer) × (front.new.sequencer ≡ front.old.sequencer))
        (λ frame. spec.IsDurableHere marks.new.local front.old.sequencer × spec.GivesFrame front.old.sequencer frame front.new.sequencer)) }
    ensures cause { IfErr result (λ refusal. refusal ≡ Refusal.Memory) }
    ensures err { OnErr result (spec.IsDurableHere marks.new.local front.old.sequencer × (front.new.sequencer ≡ front.old.sequencer)) }
    ensures read { HasRead marks.old marks.new }
{
    let Some(position) = front.copy_at() else {
        return Ok(None);
    };
    if marks.read().local < position {
        return Ok(None);
    }
    let frame = front.copy_part(alloc)?;
    Ok(Some(frame))
}
