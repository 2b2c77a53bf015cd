//! How much a node holds, as its thread shows it to the one that tells of the node.
ghost use Rattle.std.specs.Prelude.{◌≡◌, IfOk};

use marks::{GaugeReader, GaugeSetter, new_gauge};
use placing::Fill;
use std::alloc::{AllocError, Global};
use std::marker::Model;

/// The end of the thread that has the keyspace and the heap. A clause sees what is shown.
#[derive(Drop)]
pub struct FillSetter {
    keys: GaugeSetter,
    free_entries: GaugeSetter,
    free_lines: GaugeSetter,
}

impl Model for FillSetter {
    ghost use Rattle.placing.specs.declared.fill.Fill.{Fill};

    ghost Value = { Fill };

    ghost view = { λ s. record { keys = s.keys; free_entries = s.free_entries; free_lines = s.free_lines } };
}

/// The end of the thread that tells of it.
#[derive(Drop)]
pub struct FillReader {
    keys: GaugeReader,
    free_entries: GaugeReader,
    free_lines: GaugeReader,
}

/// The two ends, of which the first shows this.
///
/// # Errors
///
/// Only `AllocError`.
pub fn new_fill(alloc: Global, fill: &Fill) -> Result<(FillSetter, FillReader), AllocError>
    ensures { IfOk result (λ ends. ends.0 ≡ fill.now) }
{
    let keys = new_gauge(alloc, fill.keys)?;
    let free_entries = new_gauge(alloc, fill.free_entries)?;
    let free_lines = new_gauge(alloc, fill.free_lines)?;
    let setter = FillSetter {
        keys: keys.0,
        free_entries: free_entries.0,
        free_lines: free_lines.0,
    };
    let reader = FillReader {
        keys: keys.1,
        free_entries: free_entries.1,
        free_lines: free_lines.1,
    };
    Ok((setter, reader))
}

impl FillSetter {
    /// Shows this. A word is stored only where it is another one than before.
    pub fn show(&mut self, fill: &Fill)
        ensures { self.new ≡ fill.now }
    {
        self.keys.set(fill.keys);
        self.free_entries.set(fill.free_entries);
        self.free_lines.set(fill.free_lines);
    }
}

impl FillReader {
    /// What is shown, each number as it is then.
    pub fn read(&self) -> Fill {
        Fill {
            keys: self.keys.read(),
            free_entries: self.free_entries.read(),
            free_lines: self.free_lines.read(),
        }
    }
}
