//! What a primary sends to its standby: a delta where one is due, and then the frames of the groups.
ghost use Rattle.std.specs.Prelude.{◌≤◌, length};

use crate::copying::Copying;
use crate::link::{Link, judge};
use crate::opening::{Opening, delta};
use frames::{Ack, Frame};
use kv_types::Refusal;
use model::Group;
use pipes::Inlet;
use std::alloc::{AllocError, Global};

/// A link's frames, and what was in the image when the primary was opened, until no standby can be behind that.
#[derive(Drop)]
pub struct Outgoing {
    link: Link,
    /// Forgotten once its position was acknowledged.
    opening: Opening,
    // what is sent next is kept, or comes
    pub ghost within: { link.next ≤ length link.kept },
}

impl Outgoing {
    ghost use Rattle.std.specs.Prelude.{◌≡◌, ◌↔◌, ◌+◌, ◌<◌, slice_get, Ok, Err, Option, Some, None, OnOk, OnErr, IfOk, IfErr, IfSome, IsTrue, false, true, ℕ, [], ◌⊎◌};
    ghost use Rattle.kv_types.specs.declared.refusal.Refusal.TheVariants.{Memory, PositionGap, StandbyAhead, WrongEpoch};
    ghost use Rattle.model.specs.declared.group.Group.{Group as Item};
    ghost use Rattle.frames.specs.declared.frame.Frame.{Frame as Kept};
    ghost use Rattle.pipes.specs.declared.limits.TheConstants.{KEPT_GROUPS};
    ghost use Rattle.standby_stream.specs.Delta.{IsDelta, IsServed};
    ghost use Rattle.standby_stream.specs.Leading.{LeadsFrom, LeadsFromBehind, reaches_above};
    ghost use Rattle.standby_stream.specs.Outgoing.{Notes};
    ghost use Rattle.standby_stream.specs.Sent.{MaySend};
    ghost use Rattle.standby_stream.specs.Stream.{Adds, EndsCopy, IsDue, IsFull, Frames, MayPin, TakesNext, awaiting, counts, new_stream, opened, pinned_at};
    ghost use Rattle.standby_stream.specs.declared.copying.Copying.TheVariants as stages;

    /// What a primary of this epoch sends that was opened so. It has sent nothing, and nothing was acknowledged.
    ///
    /// # Errors
    ///
    /// `AllocError` alone, where the room for the link's frames was refused.
    pub fn new(alloc: Global, epoch: u64, opening: Opening) -> Result<Outgoing, AllocError>
        ensures link { IfOk result (λ outgoing. outgoing.link ≡ new_stream epoch) }
        ensures opening { IfOk result (λ outgoing. outgoing.opening ≡ opening) }
    {
        let link = Link::new(alloc, epoch)?;
        Ok(Outgoing { link, opening })
    }

    /// The epoch of its frames.
    pub fn epoch(&self) -> u64
        ensures { result ≡ (self.now.link).epoch }
    {
        self.link.epoch()
    }

    /// Its frames are of this epoch from now on: of a primary that is crashed, and has sent none in it.
    pub fn set_epoch(&mut self, epoch: u64)
        ensures link { self.new.link ≡ record (self.old.link) { epoch = epoch } }
        ensures opening { self.new.opening ≡ self.old.opening }
    {
        self.link.set_epoch(epoch);
    }

    /// The highest position that was acknowledged, 0 before the first.
    pub fn known(&self) -> u64
        ensures { result ≡ (self.now.link).known }
    {
        self.link.known()
    }

    /// A position from which on `open_at` refuses no standby: it needs no delta there, and lacks nothing that is forgotten.
    pub fn level(&self) -> u64
        ensures known { (self.now.link).known ≤ result }
        ensures opened { self.now.opening.position ≤ result }
    {
        self.link.known().max(self.opening.position)
    }

    /// Whether the position at which the primary was opened was acknowledged: then no standby can be behind it that follows.
    fn is_forgotten(&self) -> bool
        ensures { IsTrue result ↔ (self.now.opening.position ≤ (self.now.link).known) }
    {
        self.link.known() >= self.opening.position
    }

    /// Whether a standby follows, or a newcomer waits for its copy.
    pub fn copying(&self) -> Copying
        ensures { result ≡ (self.now.link).copying }
    {
        self.link.copying()
    }

    /// The link opens anew, with a standby at this position, and no copy is awaited or sent any more. Where that is behind the position at which the primary was
    /// opened, or frames are aside, a delta is sent first, which leads it over both; all frames that are kept then are sent again. Frames aside stay so until
    /// they are acknowledged, as the link may be lost before.
    ///
    /// # Errors
    ///
    /// `PositionGap` just where the standby cannot follow: it is behind what was acknowledged, and what led there is forgotten, as one that was formatted
    /// since; or a delta is due to it and may lack what was freed, as one that was put back from a copy. Else only `Memory`. Nothing changed then.
    pub fn open_at(&mut self, alloc: Global, position: u64) -> Result<(), Refusal>
        ensures behind { position < self.old.opening.position → (self.old.link).known < self.old.opening.position → (self.old.link).aside ≡ [] → OnOk result ((frame : Kept)
            × IsDelta (self.old.link).epoch self.old.opening position frame × (self.new.link ≡ opened (Some frame) self.old.link)) }
        ensures behind_aside { position < self.old.opening.position → (self.old.link).known < self.old.opening.position → OnOk result ((frame : Kept)
            × LeadsFromBehind (self.old.link).epoch self.old.opening (self.old.link).aside position frame × (self.new.link ≡ opened (Some frame) self.old.link)) }
        ensures forgotten { position < (self.old.link).known → self.old.opening.position ≤ (self.old.link).known → result ≡ Err PositionGap }
        ensures served { position < self.old.opening.position → OnOk result (IsServed self.old.opening.floor position) }
        ensures freed { position < self.old.opening.position → ¬ IsServed self.old.opening.floor position → result ≡ Err PositionGap }
        ensures level { self.old.opening.position ≤ position → (self.old.link).known ≤ position → reaches_above position (self.old.link).aside ≡ false
            → (result ≡ Ok tt) × (self.new.link ≡ opened None self.old.link) }
        ensures level_aside { self.old.opening.position ≤ position → (self.old.link).known ≤ position → reaches_above position (self.old.link).aside ≡ true → OnOk result ((frame : Kept)
            × LeadsFrom (self.old.link).epoch (self.old.link).aside position frame × (self.new.link ≡ opened (Some frame) self.old.link)) }
        ensures refused { OnErr result (self.new.link ≡ self.old.link) }
        ensures cause { (self.old.link).known < self.old.opening.position → IsServed self.old.opening.floor position → IfErr result (λ refusal. refusal ≡ Memory) }
        ensures level_cause { self.old.opening.position ≤ position → (self.old.link).known ≤ position → IfErr result (λ refusal. refusal ≡ Memory) }
        ensures opening { self.new.opening ≡ self.old.opening }
        ensures epoch { (self.new.link).epoch ≡ (self.old.link).epoch }
    {
        if self.is_forgotten() && position < self.link.known() {
            return Err(Refusal::PositionGap);
        }
        let delta = self.lead(alloc, position)?;
        self.link.reopen(delta);
        Ok(())
    }

    /// What leads a standby at this position to where the kept frames begin, if anything has to: from behind the position at which the primary was opened
    /// to there, and over what is aside.
    ///
    /// # Errors
    ///
    /// `PositionGap` just where the opening has to lead it and cannot serve it, and else only `Memory`.
    fn lead(&self, alloc: Global, position: u64) -> Result<Option<Frame>, Refusal>
        ensures behind { position < self.now.opening.position → IfOk result (λ delta. (frame : Kept) × (delta ≡ Some frame)
            × LeadsFromBehind (self.now.link).epoch self.now.opening (self.now.link).aside position frame) }
        ensures served { position < self.now.opening.position → OnOk result (IsServed self.now.opening.floor position) }
        ensures freed { position < self.now.opening.position → ¬ IsServed self.now.opening.floor position → result ≡ Err PositionGap }
        ensures level { self.now.opening.position ≤ position → reaches_above position (self.now.link).aside ≡ false → result ≡ Ok None }
        ensures over { self.now.opening.position ≤ position → reaches_above position (self.now.link).aside ≡ true
            → IfOk result (λ delta. (frame : Kept) × (delta ≡ Some frame) × LeadsFrom (self.now.link).epoch (self.now.link).aside position frame) }
        ensures cause { IsServed self.now.opening.floor position → IfErr result (λ refusal. refusal ≡ Memory) }
        ensures level_cause { self.now.opening.position ≤ position → IfErr result (λ refusal. refusal ≡ Memory) }
    {
        if position >= self.opening.position {
            return Ok(self.link.lead_from(alloc, position)?);
        }
        if !self.opening.serves(position) {
            return Err(Refusal::PositionGap);
        }
        let mut whole = delta(alloc, self.link.epoch(), &self.opening, position)?;
        self.link.lead_on(&mut whole)?;
        Ok(Some(whole))
    }

    /// A newcomer at the link's address asks for a copy, also where one is awaited or sent. What is kept goes aside, as the copy will have its changes, and
    /// nothing is sent as a frame until the copy's position is acknowledged, or the link opens to a standby.
    ///
    /// # Errors
    ///
    /// Only `Memory`. Nothing changed then.
    pub fn await_copy(&mut self) -> Result<(), Refusal>
        ensures awaits { OnOk result (self.new.link ≡ awaiting self.old.link) }
        ensures refused { OnErr result (self.new.link ≡ self.old.link) }
        ensures cause { IfErr result (λ refusal. refusal ≡ Memory) }
        ensures opening { self.new.opening ≡ self.old.opening }
    {
        self.link.await_copy()?;
        Ok(())
    }

    /// The copy that is awaited is of this position, at which the keyspace is pinned: what is aside and ends above it is kept again. Answers whether it is
    /// so: not where none is awaited, or where more than 256 frames aside end above the position, and nothing changed then.
    pub fn pin_copy(&mut self, position: u64) -> bool
        ensures pinned { MayPin position self.old.link → (result ≡ true) × (self.new.link ≡ pinned_at position self.old.link) }
        ensures refused { ¬ MayPin position self.old.link → (result ≡ false) × (self.new.link ≡ self.old.link) }
        ensures opening { self.new.opening ≡ self.old.opening }
    {
        self.link.pin_copy(position)
    }

    /// Takes the next group while a copy is awaited or sent, if there is one and fewer than 256 are kept: its frame goes aside where its changes are of the
    /// copy, and is kept where it ends above the pinned one. Answers whether it did; not where a standby follows.
    ///
    /// # Errors
    ///
    /// `Memory` alone, where room for the frame was refused. The group stays with the link, and its frame comes next.
    pub fn take_group<I: Inlet<Item = Group>>(
        &mut self,
        alloc: Global,
        groups: &mut I,
    ) -> Result<bool, Refusal>
        ensures follows { (self.old.link).copying ≡ stages.Follows → (result ≡ Ok false) × (self.new.link ≡ self.old.link) × (groups.new ≡ groups.old) }
        ensures full { KEPT_GROUPS ≤ length (self.old.link).kept → (result ≡ Ok false) × (self.new.link ≡ self.old.link) × (groups.new ≡ groups.old) }
        ensures next { ¬ ((self.old.link).copying ≡ stages.Follows) → length (self.old.link).kept < KEPT_GROUPS
            → IfOk result (λ did. (found : Option Item) × TakesNext I.take_gives (self.old.link).pending groups.old found groups.new × Adds self.old.link found did self.new.link) }
        ensures refused { IfErr result (λ refusal. (refusal ≡ Memory) × (length (self.old.link).kept < KEPT_GROUPS)
            × ((group : Item) × TakesNext I.take_gives (self.old.link).pending groups.old (Some group) groups.new × (self.new.link ≡ record self.old.link { pending = Some group }))) }
        ensures opening { self.new.opening ≡ self.old.opening }
    {
        self.link.take_group(alloc, groups)
    }

    /// Takes an acknowledgement, on a node whose own position is `own`, as `note` does.
    ///
    /// # Errors
    ///
    /// Those of `judge`. Nothing changed then.
    pub fn on_ack(&mut self, alloc: Global, ack: Ack, own: u64) -> Result<(), Refusal>
        ensures stale { counts (self.old.link).epoch ack ≡ false → (result ≡ Err WrongEpoch) × (self.new ≡ self.old) }
        ensures ahead { counts (self.old.link).epoch ack ≡ true → own < ack.position → (result ≡ Err StandbyAhead) × (self.new ≡ self.old) }
        ensures counted { counts (self.old.link).epoch ack ≡ true → ack.position ≤ own → (result ≡ Ok tt) × Notes ack.position self.old self.new }
        ensures ends { counts (self.old.link).epoch ack ≡ true → ack.position ≤ own → (pinned : ℕ) → (self.old.link).copying ≡ stages.Sending pinned → pinned ≤ ack.position → EndsCopy self.new.link }
    {
        judge(self.link.epoch(), ack, own)?;
        self.note(alloc, ack.position());
        Ok(())
    }

    /// The standby has acknowledged up to this position, and whoever calls has seen to it that this is no higher than the node's own: the frames up to
    /// it go, and so does what the opening tells, once its position was acknowledged. At a copy's position or above the copy is over: a standby follows,
    /// and gets the kept frames, from the first on.
    pub fn note(&mut self, alloc: Global, position: u64)
        ensures notes { Notes position self.old self.new }
        ensures ends { (pinned : ℕ) → (self.old.link).copying ≡ stages.Sending pinned → pinned ≤ position → EndsCopy self.new.link }
    {
        self.link.reach(position);
        if self.is_forgotten() {
            self.opening.forget(alloc);
        }
    }

    /// The delta, if one is to be sent, as `Link::take_delta` gives it.
    pub fn take_delta(&mut self) -> Option<Frame>
        ensures given { result ≡ (self.old.link).delta }
        ensures left { self.new.link ≡ record self.old.link { delta = None } }
        ensures opening { self.new.opening ≡ self.old.opening }
    {
        self.link.take_delta()
    }

    /// The frame that is sent next, by its index for `frame`, as `Link::next_frame` gives it.
    ///
    /// # Errors
    ///
    /// `Memory` alone, where room for the changes of the next group was refused. The group stays with the link, and its frame comes next.
    pub fn next_frame<I: Inlet<Item = Group>>(
        &mut self,
        alloc: Global,
        groups: &mut I,
    ) -> Result<Option<usize>, Refusal>
        ensures rests { ¬ ((self.old.link).copying ≡ stages.Follows) → (result ≡ Ok None) × (self.new.link ≡ self.old.link) × (groups.new ≡ groups.old) }
        ensures again { (self.old.link).copying ≡ stages.Follows → (self.old.link).next < length (self.old.link).kept
            → (result ≡ Ok (Some (self.old.link).next)) × (self.new.link ≡ record self.old.link { next = (self.old.link).next + 1 }) × (groups.new ≡ groups.old) }
        ensures full { IsFull self.old.link → (result ≡ Ok None) × (self.new.link ≡ self.old.link) × (groups.new ≡ groups.old) }
        ensures next { IsDue self.old.link
            → IfOk result (λ given. (found : Option Item) × TakesNext I.take_gives (self.old.link).pending groups.old found groups.new × Frames self.old.link found given self.new.link) }
        ensures sends { IfOk result (λ given. MaySend self.old.link given self.new.link) }
        ensures kept { IfOk result (λ given. IfSome given (λ index. index < length (self.new.link).kept)) }
        ensures refused { IfErr result (λ refusal. (refusal ≡ Memory) × IsDue self.old.link
            × ((group : Item) × TakesNext I.take_gives (self.old.link).pending groups.old (Some group) groups.new × (self.new.link ≡ record self.old.link { pending = Some group }))) }
        ensures opening { self.new.opening ≡ self.old.opening }
    {
        self.link.next_frame(alloc, groups)
    }

    /// A kept frame, by its index. An acknowledgement gives the frames other indices.
    pub fn frame(&self, index: usize) -> &Frame
        requires { index < length (self.now.link).kept }
        ensures { slice_get (self.now.link).kept index ≡ Some result.now }
    {
        self.link.frame(index)
    }
}
