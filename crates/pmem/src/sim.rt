// A simulated device, which fails and crashes as told.
ghost use Rattle.std.specs.Prelude.{◌≡◌, ◌*◌, ◌^◌, ◌<◌, ◌-◌, min, vec_len, IfOk};
ghost use Rattle.pmem.specs.Cell.{Holds};
ghost use Rattle.pmem.specs.Keep.{HoldsKept};
ghost use Rattle.pmem.specs.Known.{Holds-prop, HoldsKept-prop};
ghost use Rattle.pmem.specs.History.{words_of, failures_of};
ghost use Rattle.pmem.specs.Device.{is_asked, fences_after};
ghost use Rattle.pmem.specs.Device.Fences.{Sure};

use crate::cells::Cells;
use crate::device::{Crashing, Fault, Pmem};
use crate::history::History;
use crate::keep::Keep;
use std::alloc::{AllocError, Global};

/// A simulated device.
#[derive(Drop)]
pub struct SimPmem {
    cells: Cells,
    keep: Keep,
    /// Which fence was asked to fail, where 1 is the next one.
    fail_in: Option<u64>,
    starved: bool,
    failures: u64,
    history: History,
    ghost holds: { Holds cells (words_of history) starved } by { Holds-prop cells (words_of history) starved },
    ghost kept: { HoldsKept keep (vec_len cells.heads) history starved } by { HoldsKept-prop keep (vec_len cells.heads) history starved },
    ghost counted: { failures ≡ min (failures_of history) (2 ^ 64 - 1) },
    ghost countable: { 8 * vec_len cells.heads < 2 ^ 64 },
}

impl SimPmem {
    ghost use Rattle.pmem.specs.Sim.{state_of, fresh};

    /// A device with `lines` lines, all zero, that was not asked to fail or to keep anything.
    pub fn new(alloc: Global, lines: u64) -> Result<SimPmem, AllocError>
        requires { 8 * lines < 2 ^ 64 }
        ensures { IfOk result (λ device. state_of device ≡ fresh lines) }
    {
        Ok(SimPmem {
            cells: Cells::new(alloc, lines as usize)?,
            keep: Keep::Unasked,
            fail_in: None,
            starved: false,
            failures: 0,
            history: History::Zeros,
        })
    }
}

impl Pmem for SimPmem {
    ghost use Rattle.std.specs.Prelude.{◌≡◌, ◌⊎◌, ◌≤◌, true, suc, OnOk, OnErr, IsErr, IsTrue};
    ghost use Rattle.std.proofs.Common.{le_refl};
    ghost use Rattle.pmem.specs.Device.{Steps, store_at, flush_at, fenced, moment, must_fail, may_fail};
    ghost use Rattle.pmem.specs.Sim.{state_of, IsRefusedGrowth, IsRefusedCopy};

    ghost state = { state_of };

    ghost floor = { λ device. moment (state_of device) };

    fn load(&self, word: u64) -> u64 {
        self.cells.newest[word as usize]
    }

    fn store(&mut self, word: u64, value: u64)
        requires { word < 8 * (state_of self.old).lines }
        ensures steps { Steps (state_of self.old) (state_of self.new)
            (store_at word value (state_of self.old).words) (state_of self.old).failures (state_of self.old).fences }
        // it becomes starved only if it was refused memory
        ensures starves { (state_of self.new).starved ≡ true
            → ((state_of self.old).starved ≡ true) ⊎ (IsRefusedGrowth self.old self.new ⊎ IsRefusedCopy self.old self.new) }
        ensures rises { moment (state_of self.old) ≤ moment (state_of self.new) }
    {
        let refused = self.cells.store(word, value).is_err();
        self.history.stored(word, value);
        self.starved |= refused;
        self.starved |= self.keep.advance(&self.cells, &self.history);
    }

    fn flush(&mut self, line: u64)
        requires { line < (state_of self.old).lines }
        ensures steps { Steps (state_of self.old) (state_of self.new)
            (flush_at line (state_of self.old).words) (state_of self.old).failures (state_of self.old).fences }
        ensures starves { (state_of self.new).starved ≡ true
            → ((state_of self.old).starved ≡ true) ⊎ IsRefusedCopy self.old self.new }
        ensures rises { moment (state_of self.old) ≤ moment (state_of self.new) }
    {
        self.cells.flush(line);
        self.history.flushed(line);
        self.starved |= self.keep.advance(&self.cells, &self.history);
    }

    fn fence(&mut self) -> Result<(), Fault>
        ensures ok { OnOk result (Steps (state_of self.old) (state_of self.new)
            (fenced (state_of self.old).words) (state_of self.old).failures (fences_after (state_of self.old).fences)) }
        ensures err { OnErr result (Steps (state_of self.old) (state_of self.new)
            (state_of self.old).words (suc (state_of self.old).failures) (fences_after (state_of self.old).fences)) }
        ensures asked { IsTrue (must_fail (state_of self.old)) → IsErr result }
        ensures unasked { IsErr result → IsTrue (may_fail (state_of self.old)) }
        ensures starves { (state_of self.new).starved ≡ true
            → ((state_of self.old).starved ≡ true) ⊎ IsRefusedCopy self.old self.new }
        ensures rises { moment (state_of self.old) ≤ moment (state_of self.new) }
    {
        if pass_fence(&mut self.fail_in) | self.starved {
            self.history.failed();
            self.failures = self.failures.saturating_add(1);
            self.starved |= self.keep.advance(&self.cells, &self.history);
            Err(Fault)
        } else {
            self.cells.fence();
            self.history.fenced();
            self.starved |= self.keep.advance(&self.cells, &self.history);
            Ok(())
        }
    }

    /// Each fence is durable as it returns.
    fn sync(&mut self) -> Result<(), Fault> {
        Ok(())
    }

    fn lines(&self) -> u64 {
        self.cells.heads.len() as u64
    }

    fn failures(&self) -> u64 {
        self.failures
    }

    ghost countable = { λ device. device.countable };

    ghost reached = { λ device. le_refl (moment (state_of device)) };
}

/// Whether the next fence was asked to fail. Counts that fence.
fn pass_fence(fail_in: &mut Option<u64>) -> bool
    ensures asked { result ≡ is_asked (Sure fail_in.old) }
    ensures after { Sure fail_in.new ≡ fences_after (Sure fail_in.old) }
{
    match *fail_in {
        None => false,
        Some(1) => {
            *fail_in = None;
            true
        }
        Some(n) => {
            *fail_in = Some(n.saturating_sub(1));
            false
        }
    }
}

impl Crashing for SimPmem {
    ghost use Rattle.std.specs.Prelude.{◌≡◌, ◌⊎◌, ◌+◌, true, refl};
    ghost use Rattle.pmem.specs.Device.{moment};
    ghost use Rattle.pmem.specs.Crash.{Keeps};
    ghost use Rattle.pmem.specs.Sim.{state_of, LacksCopy};

    fn starved(&self) -> bool {
        self.starved
    }

    fn fail_at(&mut self, n: u64) {
        self.fail_in = if n == 0 { None } else { Some(n) };
    }

    fn keep_at(&mut self, k: u64)
        ensures keeps { Keeps (state_of self.old) (state_of self.new) (moment (state_of self.old) + k) }
        ensures starves { (state_of self.new).starved ≡ true
            → ((state_of self.old).starved ≡ true) ⊎ ((k ≡ 0) × LacksCopy self.new) }
    {
        self.keep = Keep::after(k, &self.cells, &self.history);
        self.starved |= self.keep.is_forgotten();
    }

    fn crash(&mut self, picks: &[u64]) {
        self.keep.restore(&mut self.cells);
        self.cells.crash(picks);
        self.history.crashed(&self.cells.newest);
    }

    ghost sure = { λ device. refl };

    ghost durable = { λ device. refl };
}
