//! Lines on their way, and the thread that writes them.
use crate::stamp::Stamp;
use crossbeam_queue::ArrayQueue;
use std::alloc::{AllocError, Global};
use std::io::{self, Write};
use std::sync::atomic::{AtomicU64, Ordering};
use std::sync::{Arc, Wait};
use std::thread;
use std::thread::Threads;
use std::time::{Clock, Duration};
use wakes::{Sleeper, Waker, new_sleeper};

/// How many lines wait at most to be written.
const MOST_LINES: usize = 128;

/// How long a program that ends waits at most until its lines are written: so often, for so many milliseconds.
const LAST_PAUSES: u32 = 100;

const PAUSE_MILLISECONDS: u64 = 10;

/// What those who tell share with the thread that writes.
#[derive(Drop)]
struct Queue {
    lines: ArrayQueue<Vec<u8>>,
    /// How many lines were put and are not written yet.
    waiting: AtomicU64,
    /// How many were dropped since the last one that was put.
    dropped: AtomicU64,
}

/// Where the threads of a program write lines, each by one write. A line gets its time in front and waits until a thread of its own has written it: whoever
/// tells goes on at once. Where too many wait, or memory is refused, a line is dropped, and how many were is told before the next one that is not.
#[derive(Drop)]
pub struct Lines<R> {
    rt: R,
    alloc: Global,
    queue: Arc<Queue>,
    writer: Waker,
}

impl<R: Threads + Wait + Clock + Copy + Send + 'static> Lines<R> {
    /// Starts the thread that writes lines there.
    ///
    /// # Errors
    ///
    /// Only `AllocError`, for a thread that the system refuses too.
    pub fn start<W: Write + Send + Drop + 'static>(
        rt: R,
        alloc: Global,
        to: W,
    ) -> Result<Lines<R>, AllocError> {
        let queue = Arc::new(alloc, new_queue(alloc)?)?;
        let (sleeper, writer) = new_sleeper(alloc)?;
        let theirs = Arc::try_clone(&queue)?;
        let writing = thread::spawn(&rt, move || write_all(&rt, &theirs, &sleeper, to));
        if writing.ok().is_none() {
            return Err(AllocError);
        }
        Ok(Lines {
            rt,
            alloc,
            queue,
            writer,
        })
    }

    /// The same for another thread.
    ///
    /// # Errors
    ///
    /// Only `AllocError`.
    pub fn another(&self) -> Result<Lines<R>, AllocError> {
        Ok(Lines {
            rt: self.rt,
            alloc: self.alloc,
            queue: Arc::try_clone(&self.queue)?,
            writer: self.writer.another()?,
        })
    }

    /// Waits until all lines are written, but no longer than a second: where nobody reads them they never are.
    pub fn finish(&self) {
        for _ in 0..LAST_PAUSES {
            if self.queue.waiting.load(Ordering::SeqCst) == 0 {
                return;
            }
            thread::sleep(&self.rt, Duration::from_millis(PAUSE_MILLISECONDS));
        }
    }
}

impl<R: Wait + Clock> Lines<R> {
    /// Puts a line. The answer is whether there was room for it.
    fn put(&self, line: &[u8]) -> bool {
        let dropped = self.queue.dropped.swap(0, Ordering::SeqCst);
        let stamp = Stamp::now(&self.rt);
        let is_put = match stamped(self.alloc, stamp, dropped, line) {
            Ok(text) => self.offer(text),
            Err(_) => false,
        };
        if !is_put {
            self.queue
                .dropped
                .fetch_add(dropped.saturating_add(1), Ordering::SeqCst);
        }
        is_put
    }

    /// Hands a text to the thread that writes. The answer is whether there was room for it.
    fn offer(&self, text: Vec<u8>) -> bool {
        self.queue.waiting.fetch_add(1, Ordering::SeqCst);
        let is_put = self.queue.lines.push(&self.rt, text).is_ok();
        if is_put {
            self.writer.wake();
        } else {
            self.queue.waiting.fetch_sub(1, Ordering::SeqCst);
        }
        is_put
    }
}

impl<R: Wait + Clock> Write for Lines<R> {
    fn write(&mut self, buf: &[u8]) -> io::Result<usize> {
        self.put(buf);
        Ok(buf.len())
    }

    fn flush(&mut self) -> io::Result<()> {
        Ok(())
    }
}

fn new_queue(alloc: Global) -> Result<Queue, AllocError> {
    Ok(Queue {
        lines: ArrayQueue::new(alloc, MOST_LINES)?,
        waiting: AtomicU64::new(0),
        dropped: AtomicU64::new(0),
    })
}

/// A line with its time in front, and before it how many were dropped, if some were.
fn stamped(alloc: Global, stamp: Stamp, dropped: u64, line: &[u8]) -> Result<Vec<u8>, AllocError> {
    let mut text = Vec::new(alloc);
    if dropped > 0
        && writeln!(
            text,
            "{stamp} {dropped} lines before this one were dropped: nobody took them"
        )
        .is_err()
    {
        return Err(AllocError);
    }
    if write!(text, "{stamp} ").is_err() {
        return Err(AllocError);
    }
    text.extend_from_slice(line)?;
    Ok(text)
}

/// Writes the lines that are put, each by one write, for ever. One that cannot be written is let go.
fn write_all<R: Wait + Clock, W: Write + Drop>(rt: &R, queue: &Queue, sleeper: &Sleeper, to: W) {
    let mut to = to;
    for _ in rt.forever() {
        write_put(rt, queue, &mut to);
        sleeper.sleep(rt);
    }
}

/// Writes the lines that are there.
fn write_put<R: Wait, W: Write>(rt: &R, queue: &Queue, to: &mut W) {
    for _ in rt.forever() {
        let Some(text) = queue.lines.pop(rt) else {
            return;
        };
        let _ = to.write_all(&text);
        queue.waiting.fetch_sub(1, Ordering::SeqCst);
    }
}
