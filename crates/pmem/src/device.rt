// A device of persistent memory, as the layers above see it.
ghost use Rattle.std.specs.Prelude.{◌≡◌, ◌⊎◌, ℕ, suc, ◌+◌, ◌-◌, ◌*◌, ◌^◌, ◌<◌, ◌≤◌, ◌==◌, if◌then◌else◌, Some, None, false, true, min, length, IsTrue, codes, IsErr, OnOk, OnErr};
ghost use Rattle.pmem.specs.Device.{State, Fences, Steps, store_at, flush_at, fenced, fences_after, must_fail, may_fail, is_unsure, newest_at, moment};
ghost use Rattle.pmem.specs.Device.Fences.{Sure};
ghost use Rattle.pmem.specs.Crash.{IsImage, Keeps, Restarts, image_of, words_to_crash, picked};
ghost use Rattle.pmem.specs.Floor.{MayBeLeft};

use std::error::Error;
use std::fmt;

/// A fence or a sync failed. What it should have ordered or made durable may still be lost: the node stops, crashes and reopens.
#[derive(Clone, Copy, Debug, PartialEq, Eq)]
pub struct Fault;

impl fmt::Display for Fault {
    ghost output = { λ _. Some (codes "device fault") };

    fn fmt<W: fmt::Write>(&self, f: &mut fmt::Formatter<W>) -> fmt::Result {
        f.write_str("device fault")
    }
}

impl Error for Fault {}

/// Lines of eight 64-bit words behind a cache that writes lines back in any order.
///
/// A word is named by its number, 0 to 8 * lines - 1, and word w belongs to line w / 8. A store adds a candidate to its word; a crash leaves any
/// one candidate of each word; a flush of the line and then a fence that succeeds make the newest the only one.
///
/// A fence orders: no crash leaves what was stored behind it without what was fenced by it. That it is durable, so that a crash can no longer leave an
/// earlier moment, is known after a `sync` that succeeds.
pub trait Pmem {
    /// What the device has gone through: the candidates of each word now and at each earlier moment.
    ghost state: { Self → State };

    /// The moment from which on a crash may leave an image: that of the last sync, or a later one, since a device may make more durable than it was
    /// asked to.
    ghost floor: { Self → ℕ };

    /// The newest value of a word.
    fn load(&self, word: u64) -> u64
        requires { word < 8 * (state self.now).lines }
        ensures { result ≡ newest_at (state self.now) word };

    /// Stores a value, which a crash may or may not leave.
    fn store(&mut self, word: u64, value: u64)
        requires { word < 8 * (state self.old).lines }
        ensures steps { Steps (state self.old) (state self.new)
            (store_at word value (state self.old).words) (state self.old).failures (state self.old).fences }
        ensures rises { floor self.old ≤ floor self.new };

    /// Notes the newest candidate of each word of a line, for the next fence.
    fn flush(&mut self, line: u64)
        requires { line < (state self.old).lines }
        ensures steps { Steps (state self.old) (state self.new)
            (flush_at line (state self.old).words) (state self.old).failures (state self.old).fences }
        ensures rises { floor self.old ≤ floor self.new };

    /// Drops the candidates that are older than one noted by a flush. On `Err` none is dropped, and one more fence has failed.
    fn fence(&mut self) -> Result<(), Fault>
        ensures ok { OnOk result (Steps (state self.old) (state self.new)
            (fenced (state self.old).words) (state self.old).failures (fences_after (state self.old).fences)) }
        ensures err { OnErr result (Steps (state self.old) (state self.new)
            (state self.old).words (suc (state self.old).failures) (fences_after (state self.old).fences)) }
        ensures asked { IsTrue (must_fail (state self.old)) → IsErr result }
        ensures unasked { IsErr result → IsTrue (may_fail (state self.old)) }
        ensures rises { floor self.old ≤ floor self.new };

    /// Makes durable all that was fenced: no crash leaves an earlier moment than the present one. It is itself no moment of the device, and counts as no
    /// store, flush or fence. On `Err` one more has failed, and the floor may be where it was.
    fn sync(&mut self) -> Result<(), Fault>
        ensures ok { OnOk result (state self.new ≡ state self.old) }
        ensures durable { OnOk result (floor self.new ≡ moment (state self.new)) }
        ensures err { OnErr result (state self.new ≡ record (state self.old) { failures = suc (state self.old).failures }) }
        // what is asked to fail is a fence
        ensures unasked { IsErr result → IsTrue (is_unsure (state self.old).fences) }
        ensures rises { floor self.old ≤ floor self.new };

    /// How many lines the device has.
    fn lines(&self) -> u64
        ensures count { result ≡ (state self.now).lines }
        ensures bound { 8 * result < 2 ^ 64 };

    /// How many fences and syncs have failed, or 2^64 - 1 if more have.
    fn failures(&self) -> u64
        ensures { result ≡ min (state self.now).failures (2 ^ 64 - 1) };

    /// The words of a device can be counted in 64 bits.
    ghost countable: { (device : Self) → 8 * (state device).lines < 2 ^ 64 };

    /// The floor is a moment that has come.
    ghost reached: { (device : Self) → floor device ≤ moment (state device) };
}

/// A device that fails and crashes as told.
pub trait Crashing: Pmem {
    /// Whether growth of the device's own lists was ever refused. Loads are still right; each later fence fails, and a crash leaves one of
    /// the images that it may leave.
    fn starved(&self) -> bool
        ensures { result ≡ (Self.state self.now).starved };

    /// Makes the n-th fence from now fail, counted from 1; this replaces an earlier request. With 0 no fence is asked to fail.
    fn fail_at(&mut self, n: u64)
        ensures { Self.state self.new ≡ record (Self.state self.old) { fences = Sure (if n == 0 then None else Some n) } };

    /// Makes the next crash pick from the candidates as they will be after `k` more calls of `store`, `flush` and `fence`, if that many
    /// are made; this replaces an earlier request. If there is no memory for the copy, the device is starved.
    fn keep_at(&mut self, k: u64)
        ensures { Keeps (Self.state self.old) (Self.state self.new) (moment (Self.state self.old) + k) };

    /// Crashes: the i-th word with several candidates, in ascending order, gets candidate `picks[i]` modulo their number, where 0 is the
    /// oldest; past the end of the list, it gets the oldest.
    fn crash(&mut self, picks: &[u64])
        ensures restarts { Restarts (Self.state self.old) (Self.state self.new) }
        ensures picked { (Self.state self.old).starved ≡ false → (word : ℕ) →
            newest_at (Self.state self.new) word
            ≡ picked (words_to_crash (Self.state self.old) (Self.state self.old).kept) picks.now word }
        // starved or not
        ensures within { IsImage (words_to_crash (Self.state self.old) (Self.state self.old).kept) (image_of (Self.state self.new).words)
            ⊎ IsImage (Self.state self.old).words (image_of (Self.state self.new).words) }
        // at the present moment
        ensures left { (Self.state self.old).kept ≡ None
            → MayBeLeft (Self.state self.old) (Self.floor self.old) (image_of (Self.state self.new).words) };

    /// A fence fails only if it was asked to or the device is starved.
    ghost sure: { (device : Self) → is_unsure (Self.state device).fences ≡ false };

    /// Each call is durable as it returns: the floor is the present moment.
    ghost durable: { (device : Self) → Self.floor device ≡ moment (Self.state device) };
}
