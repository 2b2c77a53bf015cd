//! A simulated device that shows its words while a pair holds it.
ghost use Rattle.std.specs.Prelude.{◌≡◌, IfOk};

use pmem::{Crashing, Fault, Pmem};
use std::alloc::{AllocError, Global};
use std::cell::RefCell;
use std::rc::Rc;

/// The newest value of each word of a device.
#[derive(Drop)]
pub struct ShownWords {
    pub words: Vec<u64>,
    /// Whether one was stored, or the device crashed, since this was last looked at.
    pub is_changed: bool,
    /// Whether a fence or a sync failed since the device crashed last.
    pub is_torn: bool,
}

impl ShownWords {
    fn store(&mut self, word: u64, value: u64) {
        if let Some(own) = self.words.get_mut(word as usize) {
            *own = value;
        }
        self.is_changed = true;
    }
}

/// Where a device shows its words.
pub type Shown = Rc<RefCell<ShownWords>>;

/// A simulated device that makes each call on another one, and shows what it then holds.
#[derive(Drop)]
pub struct ShowingPmem<P> {
    device: P,
    shown: Shown,
}

impl<P: Pmem + Drop> ShowingPmem<P> {
    /// The device, and where it shows its words from now on.
    pub fn new(alloc: Global, device: P) -> Result<(ShowingPmem<P>, Shown), AllocError>
        ensures { IfOk result (λ made. P.state made.0.device ≡ P.state device) }
    {
        let mut words = Vec::new(alloc);
        for word in 0..8 * device.lines() {
            words.push(device.load(word))?;
        }
        let shown = ShownWords {
            words,
            is_changed: false,
            is_torn: false,
        };
        let shown = Rc::new(alloc, RefCell::new(shown))?;
        let other = shown.clone()?;
        Ok((ShowingPmem { device, shown }, other))
    }
}

impl<P: Pmem> ShowingPmem<P> {
    /// A fence or a sync failed.
    fn tear(&self) {
        if let Ok(mut shown) = self.shown.try_borrow_mut() {
            shown.is_torn = true;
        }
    }

    /// Shows all words anew, after a crash.
    fn show_all(&self) {
        let Ok(mut shown) = self.shown.try_borrow_mut() else {
            return;
        };
        shown.is_torn = false;
        for word in 0..8 * self.device.lines() {
            shown.store(word, self.device.load(word));
        }
    }
}

impl<P: Pmem> Pmem for ShowingPmem<P> {
    ghost state = { λ showing. P.state showing.device };

    ghost floor = { λ showing. P.floor showing.device };

    fn load(&self, word: u64) -> u64 {
        self.device.load(word)
    }

    fn store(&mut self, word: u64, value: u64) {
        self.device.store(word, value);
        if let Ok(mut shown) = self.shown.try_borrow_mut() {
            shown.store(word, value);
        }
    }

    fn flush(&mut self, line: u64) {
        self.device.flush(line);
    }

    fn fence(&mut self) -> Result<(), Fault> {
        let fenced = self.device.fence();
        if fenced.is_err() {
            self.tear();
        }
        fenced
    }

    fn sync(&mut self) -> Result<(), Fault> {
        let synced = self.device.sync();
        if synced.is_err() {
            self.tear();
        }
        synced
    }

    fn lines(&self) -> u64 {
        self.device.lines()
    }

    fn failures(&self) -> u64 {
        self.device.failures()
    }

    ghost countable = { λ showing. P.countable showing.device };

    ghost reached = { λ showing. P.reached showing.device };
}

impl<P: Crashing> Crashing for ShowingPmem<P> {
    fn starved(&self) -> bool {
        self.device.starved()
    }

    fn fail_at(&mut self, n: u64) {
        self.device.fail_at(n);
    }

    fn keep_at(&mut self, k: u64) {
        self.device.keep_at(k);
    }

    fn crash(&mut self, picks: &[u64]) {
        self.device.crash(picks);
        self.show_all();
    }

    ghost sure = { λ showing. P.sure showing.device };

    ghost durable = { λ showing. P.durable showing.device };
}
