//! When the changes that wait become a group, and the versions that have ended a free list.
ghost use Rattle.std.specs.Prelude.{◌≡◌, ◌+◌, ◌-◌, false, min, if◌then◌else◌};
ghost use Rattle.serving.specs.Gathering as spec;
ghost use Rattle.serving.specs.declared.gathering.TheConstants.{IDLE_ROUNDS};

use crate::copying::CopyStage;
use crate::filling::MOST_LINES;
use crate::making::NODE_SPIN;
use model::MAX_PARTS;

/// So many versions that have ended are listed though nobody needs their room. Freeing a list takes a fence, however few it has, so that a list of each group
/// would cost the committer a fourth fence a group. Of an image of 65,536 lines it is an eighth of the entries.
pub(crate) const LISTED_AT_ONCE: usize = 1_024;

/// While so many changes are in groups that the standby has not acknowledged, no further group is closed, and so, behind `MAX_PARTS` changes more, no request is
/// turned: whoever asks next waits for the changes of seventeen groups at most, and its own group, however much others send and however slow the standby is. It
/// bounds what one sync of either node may be for. So 50 clients that each have 16 requests on their way find room for all 800 of them.
pub(crate) const MOST_ON_THE_WAY: u64 = 16 * MAX_PARTS as u64;

/// While so many are, no group is closed that takes more than `MOST_LIGHT` lines. So whoever asks beside values of 64 KiB, of which a group has 64, waits for four
/// groups at most, the one that waits, and its own. With two groups' changes in place of three the standby waits for the next group now and then.
pub(crate) const MOST_BEFORE_HEAVY: u64 = 3 * MAX_PARTS as u64;

/// So many lines of 64 bytes a group takes at most that may be one of seventeen on the way, 520 KiB: with values of 4 KiB, 64 changes take fewer.
pub(crate) const MOST_LIGHT: u64 = MOST_LINES / 8;

/// After so many rounds in a row without work the node is idle: its thread is about to sleep.
const IDLE_ROUNDS: u32 = NODE_SPIN;

/// How far the changes are closed into groups, how much the others take, and how long the node has had nothing to do.
#[derive(Clone, Copy)]
pub(crate) struct Gathering {
    /// The position of the last change that is in a group.
    pub(crate) closed: u64,
    /// How many lines the changes behind it may take at most, as was noted last.
    pub(crate) lines: u64,
    /// How many rounds in a row were without work, `IDLE_ROUNDS` at most.
    pub(crate) quiet_rounds: u32,
    /// Whether a newcomer waits for a copy of all records that is to be pinned.
    pub(crate) is_awaited: bool,
}

impl Gathering {
    /// All changes up to this position are in groups, the node has work, and no newcomer waits for a copy.
    pub(crate) fn new(closed: u64) -> Gathering
        ensures { result ≡ record { closed = closed; lines = 0; quiet_rounds = 0; is_awaited = false } }
    {
        Gathering {
            closed,
            lines: 0,
            quiet_rounds: 0,
            is_awaited: false,
        }
    }

    /// A round is over. In an idle one nothing was done.
    pub(crate) fn note_round(&mut self, is_busy: bool)
        ensures { self.new ≡ record self.old { quiet_rounds = if is_busy then 0 else min (self.old.quiet_rounds + 1) IDLE_ROUNDS } }
    {
        self.quiet_rounds = if is_busy {
            0
        } else {
            self.quiet_rounds.saturating_add(1).min(IDLE_ROUNDS)
        };
    }

    /// The changes that wait may take so many lines of 64 bytes.
    pub(crate) fn note_lines(&mut self, lines: u64)
        ensures { self.new ≡ record self.old { lines = lines } }
    {
        self.lines = lines;
    }

    /// A newcomer's copy has come so far.
    pub(crate) fn note_copy(&mut self, stage: CopyStage)
        ensures { self.new ≡ spec.with_copy stage self.old }
    {
        self.is_awaited = stage.awaited_by().is_some();
    }

    /// Whether the changes up to this position that wait become a group: fewer than `most_on_the_way` are in groups that the standby has not acknowledged, some
    /// wait, and as many as those, or as a group may have; or a request waits for room (`is_short`). So a lone client waits for nobody, and many clients' changes
    /// do not go out one by one while the fences and the link are busy with a few. Where a copy is awaited, whatever waits does, however much is on the way: a
    /// position can be pinned only where nothing waits, and the clients wait for a standby that is lost.
    pub(crate) fn is_group_due(&self, position: u64, remote: u64, is_short: bool) -> bool
        ensures { result ≡ spec.is_group_due self.now position remote is_short }
    {
        let waiting = self.waiting(position);
        let on_the_way = self.closed.saturating_sub(remote);
        let is_large = on_the_way.min(MAX_PARTS as u64) <= waiting;
        let is_usual = on_the_way < self.most_on_the_way() && (is_short || is_large);
        waiting > 0 && (self.is_awaited || is_usual)
    }

    /// While so many changes are on the way, those that wait are not closed.
    fn most_on_the_way(&self) -> u64
        ensures { result ≡ spec.most_on_the_way self.now }
    {
        if self.lines > MOST_LIGHT {
            MOST_BEFORE_HEAVY
        } else {
            MOST_ON_THE_WAY
        }
    }

    /// How many changes up to this position wait to be in a group.
    fn waiting(&self, position: u64) -> u64
        ensures { result ≡ position - self.now.closed }
    {
        position.saturating_sub(self.closed)
    }

    /// Whether the changes up to this position that wait become a group while the committer is at work: they are due, and as many as a group may have, so that
    /// no request is turned before.
    pub(crate) fn is_ahead_due(&self, position: u64, remote: u64) -> bool
        ensures { result ≡ spec.is_ahead_due self.now position remote }
    {
        self.waiting(position) >= MAX_PARTS as u64 && self.is_group_due(position, remote, false)
    }

    /// Whether so many versions that have ended become a free list: no change waits to be in a group before, some have ended, and room is short, or they are
    /// many, or the node is idle. So nobody waits for room that a list would give, and an idle node keeps none.
    pub(crate) fn is_list_due(
        &self,
        position: u64,
        remote: u64,
        is_short: bool,
        ended: usize,
    ) -> bool
        ensures { result ≡ spec.is_list_due self.now position remote is_short ended }
    {
        let is_wanted = is_short || ended >= LISTED_AT_ONCE || self.is_idle(remote);
        position <= self.closed && ended > 0 && is_wanted
    }

    /// Whether nothing was done for a while, and the standby has acknowledged all groups.
    fn is_idle(&self, remote: u64) -> bool
        ensures { result ≡ spec.is_idle self.now remote }
    {
        self.quiet_rounds >= IDLE_ROUNDS && self.closed <= remote
    }
}
