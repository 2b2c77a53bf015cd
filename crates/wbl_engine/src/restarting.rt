//! Engines whose device crashes under them, and whose image is then opened again.
ghost use Rattle.std.specs.Prelude.{◌≡◌, ◌⊎◌, ◌<◌, ◌≤◌, ◌+◌, ◌==◌, if◌then◌else◌, ℕ, true, false, None, Some, Err, OnOk, IfOk, IfErr, IsErrOf};
ghost use Rattle.kv_types.specs.declared.refusal.Refusal.{Refusal as Cause};
ghost use Rattle.pmem.specs.Device.{Only, moment, newest_at};
ghost use Rattle.pmem.specs.Device.Fences.{Sure};
ghost use Rattle.pmem.specs.Crash.{IsImage, IsSettled, Keeps, MayLeave, image_of, picked, words_to_crash};
ghost use Rattle.pmem.specs.Runs.{LeavesOnly};
ghost use Rattle.model.specs.declared.image.TheConstants.{MAX_LINES, MIN_LINES};
ghost use Rattle.model.specs.declared.record.Record.{Record as CommitRecord};
ghost use Rattle.heap_layout.specs.Superblock.{super_refusal};
ghost use Rattle.wbl_engine.specs.Contents.{IsDurable};
ghost use Rattle.wbl_engine.specs.Lawful.{IsUndamaged};
ghost use Rattle.wbl_engine.specs.Reopening.{IsShown, RefusesReopening, Reopens, StaysReadable, layout_in};

use crate::durable::Durable;
use heap_layout::Versions;
use kv_types::Refusal;
use model::{Record, Role};
use std::alloc::Global;

/// An engine over a device that may crash, and whose image is opened again in its place.
pub trait Restarting: Durable {
    /// Makes the n-th fence of the device from now fail, counted from 1; this replaces an earlier request. With 0 no fence is asked to fail.
    fn fail_at(&mut self, n: u64)
        ensures asked { Self.device self.new ≡ record (Self.device self.old) { fences = Sure (if n == 0 then None else Some n) } }
        ensures contents { Self.contents self.new ≡ Self.contents self.old }
        ensures copying { Self.is_copying self.new ≡ Self.is_copying self.old }
        ensures staged { Self.staged self.new ≡ Self.staged self.old }
        ensures faulted { Self.is_faulted self.new ≡ Self.is_faulted self.old };

    /// Makes the next `crash_kept` pick from the candidates as they will be after `k` more calls of the device, if that many are made; this replaces an
    /// earlier request. If there is no memory for the copy, the device is starved.
    fn keep_at(&mut self, k: u64)
        ensures keeps { Keeps (Self.device self.old) (Self.device self.new) (moment (Self.device self.old) + k) }
        ensures contents { Self.contents self.new ≡ Self.contents self.old }
        ensures copying { Self.is_copying self.new ≡ Self.is_copying self.old }
        ensures staged { Self.staged self.new ≡ Self.staged self.old }
        ensures faulted { Self.is_faulted self.new ≡ Self.is_faulted self.old };

    /// Crashes the device as of the moment that it was asked to keep; now, if it was asked for none, or if that has not come. The picks are those of
    /// `pmem::Crashing::crash`. The engine is faulted until it is restarted.
    fn crash_kept(&mut self, picks: &[u64])
        ensures settled { IsSettled (Self.device self.new).words }
        // an image of that moment, or of a later one
        ensures left { (t : ℕ) → (Self.device self.old).kept ≡ Some t → MayLeave (Self.device self.old) t (image_of (Self.device self.new).words) }
        ensures unkept { (Self.device self.old).kept ≡ None → IsImage (Self.device self.old).words (image_of (Self.device self.new).words) }
        // where the device had the memory to do so
        ensures picked { (Self.device self.new).starved ≡ false → (word : ℕ)
            → newest_at (Self.device self.new) word ≡ picked (words_to_crash (Self.device self.old) (Self.device self.old).kept) picks.now word }
        ensures lines { (Self.device self.new).lines ≡ (Self.device self.old).lines }
        ensures failures { (Self.device self.new).failures ≡ (Self.device self.old).failures }
        ensures fences { (Self.device self.new).fences ≡ (Self.device self.old).fences }
        ensures forgotten { (Self.device self.new).kept ≡ None }
        ensures faulted { Self.is_faulted self.new ≡ true }
        // what could be left now may be, and then what was
        ensures moments { LeavesOnly (Self.device self.old) (Self.device self.new)
            (λ image. IsImage (Self.device self.old).words image ⊎ (image ≡ image_of (Self.device self.new).words)) };

    /// The record of the image, as loads return it; none where the image has none that obeys the rules.
    fn image_record(&self) -> Option<Record>
        ensures { (r : CommitRecord) → MIN_LINES ≤ (Self.device self.now).lines → (Self.device self.now).lines ≤ MAX_LINES
            → IsUndamaged (Self.device self.now).lines r (image_of (Self.device self.now).words) → result ≡ Some r };

    /// Crashes the device now, whatever it was asked to keep for its next crash. The picks are those of `pmem::Crashing::crash`. The engine is
    /// faulted until it is restarted.
    fn crash(&mut self, picks: &[u64])
        ensures settled { IsSettled (Self.device self.new).words }
        ensures image { IsImage (Self.device self.old).words (image_of (Self.device self.new).words) }
        // where the device had the memory to do so
        ensures picked { (Self.device self.new).starved ≡ false
            → (word : ℕ) → newest_at (Self.device self.new) word ≡ picked (Self.device self.old).words picks.now word }
        ensures lines { (Self.device self.new).lines ≡ (Self.device self.old).lines }
        ensures failures { (Self.device self.new).failures ≡ (Self.device self.old).failures }
        ensures faulted { Self.is_faulted self.new ≡ true }
        ensures moments { LeavesOnly (Self.device self.old) (Self.device self.new) (IsImage (Self.device self.old).words) };

    /// Opens the image of the device again, in the layout of its version and in its role, as `WblEngine::reopen` does, and returns all versions of the image.
    ///
    /// # Errors
    ///
    /// As at `WblEngine::reopen`: nothing is changed, but where a fence failed. Then the engine is faulted.
    fn restart(&mut self, alloc: Global, role: Role) -> Result<Versions, Refusal>
        requires settled { (word : ℕ) → Only ((Self.device self.old).words word) (image_of (Self.device self.old).words word) }
        ensures reopens { IfOk result (λ versions. Reopens (Self.device self.old).lines (image_of (Self.device self.old).words) role
            (Self.contents self.new) versions.counted.items versions.gapped.items) }
        ensures shown { IfOk result (λ versions.
            IsShown (Self.contents self.new) versions.counted.items versions.gapped.items (image_of (Self.device self.new).words)) }
        ensures durable { OnOk result (IsDurable (Self.device self.new) (Self.contents self.new)) }
        ensures sound { OnOk result ((Self.is_faulted self.new ≡ false) × ((Self.device self.new).failures ≡ (Self.device self.old).failures)) }
        ensures idle { OnOk result (Self.is_copying self.new ≡ false) }
        ensures stopped { IsErrOf result Refusal.Fault → Self.is_faulted self.new ≡ true }
        ensures refused { IfErr result (λ refusal. (refusal ≡ Refusal.Fault)
            ⊎ (RefusesReopening (layout_in (image_of (Self.device self.old).words)) (Self.device self.old).lines (image_of (Self.device self.old).words) role
            refusal × (self.new ≡ self.old))) }
        ensures fault { IsErrOf result Refusal.Fault → (Self.device self.old).failures < (Self.device self.new).failures }
        ensures superblock { (refusal : Cause)
            → super_refusal (layout_in (image_of (Self.device self.old).words)) (Self.device self.old).lines (image_of (Self.device self.old).words) ≡ Some refusal
            → result ≡ Err refusal }
        ensures lines { (Self.device self.new).lines ≡ (Self.device self.old).lines }
        ensures asked_moment { (Self.device self.new).kept ≡ (Self.device self.old).kept }
        ensures moments { (r : CommitRecord) → IsUndamaged (Self.device self.old).lines r (image_of (Self.device self.old).words)
            → LeavesOnly (Self.device self.old) (Self.device self.new) (StaysReadable (Self.device self.old).lines r (image_of (Self.device self.old).words)) };
}
