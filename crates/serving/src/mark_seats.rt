//! The marks, with a seat for each thread of a primary.
ghost use Rattle.std.specs.Prelude.{◌≡◌, true, IfOk};
ghost use Rattle.std.specs.Arc.{arc_value};

use kv_types::Refusal;
use marks::{Committer, MarkSeat, Marks, Reader, ThreadMarks};
use std::alloc::{AllocError, Global};
use std::sync::Arc;
use wbl_engine::Committed;

/// The marks, as each thread has them.
#[derive(Drop)]
pub(crate) struct Seats {
    pub(crate) marks: Arc<Marks>,
    pub(crate) root: MarkSeat,
    /// The committer's.
    pub(crate) local: ThreadMarks,
    /// The node's.
    pub(crate) node: ThreadMarks,
    pub(crate) remote: ThreadMarks,
    pub(crate) watch: ThreadMarks,
    /// The watcher's.
    pub(crate) observer: ThreadMarks,
    pub(crate) ghost of_these: { root.marks ≡ arc_value marks },
    pub(crate) ghost raises: { remote.raises_remote ≡ true },
}

/// Marks that begin where the image is durable, with a seat for each thread.
pub(crate) fn new_seats(alloc: Global, committed: &Committed) -> Result<Seats, Refusal>
    ensures { IfOk result (λ seats. (seats.local.raises_local ≡ true) × (seats.local.local ≡ committed.now)) }
{
    let (marks, root) = Marks::new(alloc, committed)?;
    let mut root = root;
    let local = marks.split_seat::<Committer>(&mut root);
    let remote = marks.split_seat::<marks::Link>(&mut root);
    let watch = marks.split_seat::<Reader>(&mut root);
    let node = marks.split_seat::<Reader>(&mut root);
    let observer = marks.split_seat::<Reader>(&mut root);
    let marks = Arc::new(alloc, marks)?;
    let (local, node) = two_marks(&marks, local, node)?;
    let (remote, watch) = two_marks(&marks, remote, watch)?;
    let observer = ThreadMarks::new(Arc::try_clone(&marks)?, observer);
    Ok(Seats {
        marks,
        root,
        local,
        node,
        remote,
        watch,
        observer,
    })
}

/// The marks with one seat, and with another.
fn two_marks(
    marks: &Arc<Marks>,
    one: MarkSeat,
    other: MarkSeat,
) -> Result<(ThreadMarks, ThreadMarks), AllocError>
    requires { (one.marks ≡ arc_value marks.now) × (other.marks ≡ arc_value marks.now) }
    ensures { IfOk result (λ made. (made.0 ≡ one.knows) × (made.1 ≡ other.knows)) }
{
    let first = Arc::try_clone(marks)?;
    let second = Arc::try_clone(marks)?;
    Ok((
        ThreadMarks::new(first, one),
        ThreadMarks::new(second, other),
    ))
}
