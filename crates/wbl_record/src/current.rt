//! The current record, read from the slot that the root names, and the rules that it obeys.
ghost use Rattle.std.specs.Prelude.{◌≡◌, ◌≢◌, ◌↔◌, ◌+◌, ◌*◌, ◌<◌, ◌≤◌, IsTrue, MatchOption, length, IfOk, IfErr, OnErr};
ghost use Rattle.model.specs.declared.image.TheConstants.{MIN_LINES};
ghost use Rattle.model.specs.Layout.{first_word, max_gaps, slot_lines};
ghost use Rattle.pmem.specs.Crash.{image_of};
ghost use Rattle.model.specs.declared.record.Record.{Record as CommitRecord};
ghost use Rattle.model.specs.declared.record.Role.{Role as NodeRole};
ghost use Rattle.model.specs.Image.{role_number};
ghost use Rattle.model.specs.ReadImage.{gaps_from, AreZero, IsFilled, IsRecordOf};
ghost use Rattle.wbl_record.specs.Current.{AreGaps, IsLawful, IsCurrent};

use arrayvec::ArrayVec;
use kv_types::Refusal;
use model::{
    COUNTER_LIMIT, GAPS_WORD, Gap, LINE_WORDS, Layout, MAX_GAPS, Record, Role, STAMP_WINDOW,
};
use pmem::Pmem;

/// Reads the current record, which has the layout of the image's version. It allocates no memory.
///
/// # Errors
///
/// `Damaged` where the image has no version, the root's slot does not bear the root's number, or a word of the record breaks its rule.
pub fn read_current<P: Pmem>(device: &P) -> Result<Record, Refusal>
    requires { MIN_LINES ≤ (P.state device.now).lines }
    ensures ok { IfOk result (λ r. IsCurrent (P.state device.now).lines (image_of (P.state device.now).words) r) }
    ensures damaged { OnErr result ((r : CommitRecord) → ¬ IsCurrent (P.state device.now).lines (image_of (P.state device.now).words) r) }
    ensures cause { IfErr result (λ refusal. refusal ≡ Refusal.Damaged) }
{
    let Some(current) = read_record(device) else {
        return Err(Refusal::Damaged);
    };
    if is_lawful(&current) {
        Ok(current)
    } else {
        Err(Refusal::Damaged)
    }
}

/// The record that the root names, or `None` where the image has no version or the slot holds none. Whether the record obeys its rules is not looked at.
fn read_record<P: Pmem>(device: &P) -> Option<Record>
    requires { MIN_LINES ≤ (P.state device.now).lines }
    ensures { MatchOption result ((r : CommitRecord) → ¬ IsRecordOf (P.state device.now).lines (image_of (P.state device.now).words) r)
        (λ r. IsRecordOf (P.state device.now).lines (image_of (P.state device.now).words) r) }
{
    let layout = Layout::of_version(device.load(1))?;
    let number = device.load(layout.root_word());
    let first = LINE_WORDS * layout.slot_line(device.lines(), number);
    let gap_count = device.load(first + 5);
    let gaps = read_gaps(device, layout, first + GAPS_WORD, gap_count)?;
    let role_word = first + layout.role_word();
    let role = role_of(device.load(role_word))?;
    if !is_filled(device, layout, first, number, gap_count) {
        return None;
    }
    Some(Record {
        layout,
        number,
        position: device.load(first + 1),
        cp: device.load(first + 2),
        cd: device.load(first + 3),
        epoch: device.load(first + 4),
        role,
        gaps,
        floor: device.load(role_word + 1),
    })
}

/// `count` gaps, each a pair of words, from `first` on, or `None` where a record of this layout cannot hold that many.
fn read_gaps<P: Pmem>(
    device: &P,
    layout: Layout,
    first: u64,
    count: u64,
) -> Option<ArrayVec<Gap, MAX_GAPS>>
    requires { first + 2 * max_gaps layout ≤ 8 * (P.state device.now).lines }
    ensures { MatchOption result (max_gaps layout < count)
        (λ gaps. (count ≤ max_gaps layout) × (gaps.items ≡ gaps_from (image_of (P.state device.now).words) first count)) }
{
    let mut gaps = ArrayVec::new();
    if count > layout.max_gaps() {
        return None;
    }
    for k in 0..count {
        gaps.push(Gap {
            first: device.load(first + 2 * k),
            last: device.load(first + 2 * k + 1),
        });
    }
    Some(gaps)
}

/// Whether the slot has this number, and zeros in the room after `gaps` gaps.
fn is_filled<P: Pmem>(device: &P, layout: Layout, first: u64, number: u64, gaps: u64) -> bool
    requires slot { first + first_word (slot_lines layout) ≤ 8 * (P.state device.now).lines }
    requires few { gaps ≤ max_gaps layout }
    ensures { IsTrue result ↔ IsFilled layout (image_of (P.state device.now).words) first number gaps }
{
    let room = 2 * (layout.max_gaps() - gaps);
    device.load(first) == number && are_zero(device, first + GAPS_WORD + 2 * gaps, room)
}

/// Whether the `count` words from `first` on are zero.
fn are_zero<P: Pmem>(device: &P, first: u64, count: u64) -> bool
    requires { first + count ≤ 8 * (P.state device.now).lines }
    ensures { IsTrue result ↔ AreZero (image_of (P.state device.now).words) first count }
{
    for k in 0..count {
        if device.load(first + k) != 0 {
            return false;
        }
    }
    true
}

/// The role that an image stores by this number, or `None` where it stores none so.
fn role_of(number: u64) -> Option<Role>
    ensures { MatchOption result ((role : NodeRole) → role_number role ≢ number) (λ role. role_number role ≡ number) }
{
    match number {
        1 => Some(Role::Primary),
        2 => Some(Role::Standby),
        3 => Some(Role::Newcomer),
        _ => None,
    }
}

/// Whether a record obeys its rules: its counters are within their limits, a newcomer's position is 0, and its gaps rise and are below `cp`.
fn is_lawful(r: &Record) -> bool
    requires { length r.now.gaps.items ≤ max_gaps r.now.layout }
    ensures { IsTrue result ↔ IsLawful r.now }
{
    0 < r.number
        && r.number < COUNTER_LIMIT
        && r.position < COUNTER_LIMIT
        && r.cp < r.cd
        && r.cd - r.cp == 1 + STAMP_WINDOW
        && r.cd < COUNTER_LIMIT
        && 0 < r.epoch
        && r.epoch < COUNTER_LIMIT
        && (r.role != Role::Newcomer || r.position == 0)
        && are_gaps(r.gaps.as_slice(), r.cp)
}

/// Whether the gaps rise, each with at least one stamp and none shared, and are all above 0 and below `cp`.
fn are_gaps(gaps: &[Gap], cp: u64) -> bool
    ensures { IsTrue result ↔ AreGaps 0 gaps.now cp }
{
    let mut low = 0;
    for gap in gaps {
        if gap.first <= low || gap.last < gap.first || cp <= gap.last {
            return false;
        }
        low = gap.last;
    }
    true
}
