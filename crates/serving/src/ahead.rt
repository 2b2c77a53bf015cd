//! Groups that are closed while the committer's thread has the job.
ghost use Rattle.std.specs.Prelude.{◌≡◌, ◌-◌, [], length, if◌then◌else◌};
ghost use Rattle.pipes.specs.declared.limits.TheConstants.{PIPE_ITEMS};

use model::Work;
use pipes::LocalPipe;
use primary::Back;
use wbl_engine::Durable;

/// What was closed while the job is lent, and how much more may be.
#[derive(Drop)]
pub(crate) struct Ahead {
    /// The groups, the oldest first.
    pub(crate) groups: LocalPipe<Work>,
    /// How many more may be closed: as many as the back's queue will have room for, and none where the job is here, or was lent for a step that is no commit's.
    pub(crate) room: usize,
}

impl Ahead {
    /// Nothing is closed, nor may be.
    pub(crate) fn new(groups: LocalPipe<Work>) -> Ahead
        ensures { (result.groups ≡ groups) × (result.room ≡ 0) }
    {
        Ahead { groups, room: 0 }
    }

    /// While this back is lent, as much may be closed as its queue has room for, or nothing unless it is lent for commits alone.
    pub(crate) fn allow<E: Durable>(&mut self, back: &Back<E>, is_for_commits: bool)
        ensures { self.new ≡ record self.old { room = if is_for_commits then PIPE_ITEMS - length back.now.work.items else 0 } }
    {
        self.room = if is_for_commits { back.room() } else { 0 };
    }
}
