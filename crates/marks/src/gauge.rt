//! A number that one thread shows to others.
ghost use Rattle.std.specs.Prelude.{◌≡◌, IfOk};
ghost use Rattle.std.specs.Arc.{arc_value};

use atomic_table::{Play, Seat, Table, TableRule};
use std::alloc::{AllocError, Global};
use std::marker::Model;
use std::sync::Arc;

const SHOWN: usize = 0;

/// What the end that sets a gauge knows of its word. No value of this type is made: it occurs only in clauses.
pub struct GaugeView {
    /// The number that is shown.
    pub shown: u64,
}

/// The rule that each step keeps: the word is what the end that sets it knows.
pub(crate) struct GaugeRule;

impl TableRule<(), GaugeView, u64> for GaugeRule {
    ghost use Rattle.marks.specs.Gauge.{IsShown, showing};

    ghost holds = { λ _. IsShown };

    ghost first = { showing };
}

pub(crate) struct Sets;

impl Play<(), GaugeView> for Sets {
    ghost use Rattle.marks.specs.Gauge.{SetsWord};

    ghost then = { SetsWord };
}

/// The end of the thread that sets the number, the only one that does. A clause sees the number that is shown.
#[derive(Drop)]
pub struct GaugeSetter {
    table: Arc<Table<(), GaugeView, u64, GaugeRule, Global>>,
    seat: Seat<(), GaugeView>,
    shown: u64,
}

impl Model for GaugeSetter {
    ghost use Rattle.std.specs.Prelude.{◌≡◌, ℕ, []};
    ghost use Rattle.std.specs.Arc.{arc_value};

    ghost Value = { ℕ };

    ghost view = { λ s. s.shown };

    ghost invariant = { λ s. (s.seat.table_id ≡ (arc_value s.table).shared.table_id) × (s.seat.table_id.words ≡ 1) × (s.seat.me.0.shown ≡ s.shown) × (s.seat.me.1 ≡ []) };
}

/// The end of a thread that reads it.
#[derive(Drop)]
pub struct GaugeReader {
    table: Arc<Table<(), GaugeView, u64, GaugeRule, Global>>,
    ghost word: { (arc_value table).shared.table_id.words ≡ 1 },
}

/// The two ends of a gauge that shows this number first.
///
/// # Errors
///
/// Only `AllocError`.
pub fn new_gauge(alloc: Global, value: u64) -> Result<(GaugeSetter, GaugeReader), AllocError>
    ensures { IfOk result (λ ends. ends.0 ≡ value) }
{
    let (table, seat) = Table::of_words(alloc, &[value], &value)?;
    let table = Arc::new(alloc, table)?;
    let another = Arc::try_clone(&table)?;
    let setter = GaugeSetter {
        table,
        seat,
        shown: value,
    };
    Ok((setter, GaugeReader { table: another }))
}

impl GaugeSetter {
    /// Shows this number. The word is stored only where it is another one than before.
    pub fn set(&mut self, value: u64)
        ensures { self.new ≡ value }
    {
        if value == self.shown {
            return;
        }
        let table = &*self.table;
        table.shared.store::<Sets>(&mut self.seat, SHOWN, value);
        self.shown = value;
    }
}

impl GaugeReader {
    /// The number that is shown, in one step.
    pub fn read(&self) -> u64 {
        let table = &*self.table;
        table.shared.peek(SHOWN)
    }
}
