//! What a round of the node's thread comes to, as far as the committer's job goes.
ghost use Rattle.std.specs.Prelude.{◌≡◌};
ghost use Rattle.serving.specs.Tending.{did_fetch, did_step, did_tend};

use kv_types::Refusal;
use lending::NotYet;

/// Where the committer's job was looked for, and found.
#[derive(Drop)]
pub(crate) enum Fetched {
    /// It was here.
    Here,
    /// The committer's thread has not given it back.
    Away(NotYet),
    /// It has come back, and the front was told. Whether its steps did anything.
    Back(bool),
}

/// What was done for the committer.
#[derive(Clone, Copy)]
pub(crate) struct Tended {
    /// Whether anything was due to be closed, and was; or that memory for it was refused.
    pub(crate) closed: Result<bool, Refusal>,
    /// What came of the job then.
    pub(crate) job: JobCame,
}

/// What came of the committer's job once what is due is closed.
#[derive(Clone, Copy)]
pub(crate) enum JobCame {
    /// Its thread has it.
    Away,
    /// No step is due.
    Rests,
    /// It was lent.
    Lent,
    /// Its steps were taken here. Whether they did anything.
    Stepped(bool),
}

impl Fetched {
    /// Whether anything was done.
    pub(crate) fn is_busy(&self) -> bool
        ensures { result ≡ did_fetch self.now }
    {
        match self {
            Fetched::Back(did) => *did,
            Fetched::Here | Fetched::Away(_) => false,
        }
    }
}

impl Tended {
    /// Whether anything was done.
    pub(crate) fn is_busy(&self) -> bool
        ensures { result ≡ did_tend self.now }
    {
        let is_closed = matches!(self.closed, Ok(true));
        is_closed || self.job.is_busy()
    }
}

impl JobCame {
    fn is_busy(&self) -> bool
        ensures { result ≡ did_step self.now }
    {
        match self {
            JobCame::Lent => true,
            JobCame::Stepped(did) => *did,
            JobCame::Away | JobCame::Rests => false,
        }
    }
}
