//! The pipe of the groups that a pair's committer hands on.
ghost use Rattle.std.specs.Prelude.{◌≡◌, ◌-◌, [], length, min, IfErr, IfOk};
ghost use Rattle.kv_types.specs.declared.refusal.Refusal.{Refusal as Cause};
ghost use Rattle.pipes.specs.declared.limits.TheConstants.{PIPE_ITEMS};

use kv_types::Refusal;
use model::Group;
use pipes::{Inlet, LocalPipe, Outlet};
use std::alloc::Global;
use std::marker::Model;

/// The pipe to the link. It tells the committer of room for one group at most, so that each commit is of one, as the event is. A clause sees the groups
/// that wait, oldest first.
#[derive(Drop)]
pub struct LinkPipe {
    groups: LocalPipe<Group>,
}

impl Model for LinkPipe {
    ghost use Rattle.model.specs.declared.group.Group.{Group};
    ghost use Rattle.pipes.specs.Waiting.{Waiting};

    ghost Value = { Waiting Group };

    ghost view = { λ pipe. pipe.groups };
}

impl LinkPipe {
    /// An empty pipe. Only `Memory`.
    pub(crate) fn new(alloc: Global) -> Result<LinkPipe, Refusal>
        ensures empty { IfOk result (λ pipe. pipe.items ≡ []) }
        ensures cause { IfErr result (λ refusal. refusal ≡ Cause.Memory) }
    {
        let groups = LocalPipe::new(alloc)?;
        Ok(LinkPipe { groups })
    }

    /// How many groups wait.
    pub(crate) fn len(&self) -> usize
        ensures { result ≡ length self.now.items }
    {
        self.groups.len()
    }
}

impl Outlet for LinkPipe {
    type Item = Group;

    ghost offered = { λ pipe. pipe.items };

    ghost known_room = { λ pipe. min 1 (PIPE_ITEMS - length pipe.items) };

    ghost may_offer = { λ _ _. Unit {0} };

    ghost is_same = { λ _ _. Unit {0} };

    fn room(&mut self) -> usize {
        self.groups.room().min(1)
    }

    fn offer(&mut self, group: Group) -> Result<(), Group> {
        self.groups.offer(group)
    }

    ghost same_refl = { λ _. tt };

    ghost same_trans = { λ _ _ _ _ _. tt };

    ghost may_still = { λ _ _ _ _ _ _. tt };
}

impl Inlet for LinkPipe {
    ghost use Rattle.pipes.specs.Waiting.{LocalTakes, LocalTakes-known};

    type Item = Group;

    ghost known_items = { λ pipe. pipe.items };

    ghost take_gives = { LocalTakes };

    fn take(&mut self) -> Option<Group> {
        self.groups.take()
    }

    ghost known_first = { LocalTakes-known };
}
