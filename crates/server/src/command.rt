//! What the program does for the words of its command line.
ghost use Rattle.std.specs.Prelude.{◌≡◌, ◌≤◌, IfOk, OnOk, length};
ghost use Rattle.images.specs.Told.{IsStatus};
ghost use Rattle.server.specs.Served.{IsServed};

use crate::grammar::PROGRAM;
use crate::nodes::run_node;
use crate::options::options;
use crate::serve::serve;
use crate::tasks::Task;
use images::{
    DONE, Failure, Images, NewImage, ServeError, add_journal, format, inspect, migrate, new_pair,
    promote, settle, status, tell, tell_cause, tell_cause_of_giving, tell_cause_of_making,
    tell_cause_of_reading,
};
use pmem::Pmem;
use std::alloc::Global;
use std::io::{self, Read, Write};
use std::net::{Net, TcpListener, TcpStream};
use std::random::RandomSource;
use std::sync::Wait;
use std::thread::Threads;
use std::time::Clock;
use version::VERSION;

/// Does what the words ask for, the first of which is the program's name, and returns the exit status. Without any further word, serves one
/// connection over the reader and the writer. What went wrong is told to `errors`, and so is what a node does. With `is_asked` the reader is a terminal,
/// where a person is asked before something is lost.
pub fn command<
    S: RandomSource
        + Threads
        + Wait
        + Clock
        + Net<Listener = TcpListener, Stream = TcpStream>
        + Copy
        + Send
        + 'static,
    D: Pmem + Drop + Send + 'static,
    I: Images<Device = D>,
    R: Read,
    W: Write,
    E: Write + Copy + Send + Drop + 'static,
>(
    rt: &S,
    alloc: Global,
    words: &[String],
    images: &I,
    is_asked: bool,
    reader: &mut R,
    writer: &mut W,
    errors: E,
) -> u8
    ensures status { IsStatus result }
    ensures served { length words.now ≤ 1 → result ≡ 0
        → IsServed (R.remaining reader.old) (R.remaining reader.new) (W.contents writer.old) (W.contents writer.new) }
{
    let mut errors = errors;
    match run(rt, alloc, words, images, is_asked, reader, writer, errors) {
        Ok(status) => status,
        Err(failure) => tell(alloc, &failure, &mut errors),
    }
}

/// Does what the words ask for, and returns the exit status.
fn run<
    S: RandomSource
        + Threads
        + Wait
        + Clock
        + Net<Listener = TcpListener, Stream = TcpStream>
        + Copy
        + Send
        + 'static,
    D: Pmem + Drop + Send + 'static,
    I: Images<Device = D>,
    R: Read,
    W: Write,
    E: Write + Copy + Send + Drop + 'static,
>(
    rt: &S,
    alloc: Global,
    words: &[String],
    images: &I,
    is_asked: bool,
    reader: &mut R,
    writer: &mut W,
    errors: E,
) -> Result<u8, Failure>
    ensures status { IfOk result IsStatus }
    ensures served { length words.now ≤ 1 → OnOk result (IsServed (R.remaining reader.old) (R.remaining reader.new) (W.contents writer.old) (W.contents writer.new)) }
{
    if words.len() <= 1 {
        serve(rt, alloc, reader, writer)?;
        return Ok(DONE);
    }
    match options(alloc, words)? {
        Task::Run(node) => Ok(run_node(rt, alloc, images, node, errors)),
        task => {
            let mut errors = errors;
            work(
                rt,
                alloc,
                task,
                images,
                is_asked,
                reader,
                writer,
                &mut errors,
            )?;
            Ok(DONE)
        }
    }
}

/// Does what is asked of an image, or prints what the program says of itself. No node is run.
fn work<S: RandomSource, I: Images, R: Read, W: Write, E: Write>(
    rt: &S,
    alloc: Global,
    task: Task<'_>,
    images: &I,
    is_asked: bool,
    reader: &mut R,
    writer: &mut W,
    errors: &mut E,
) -> Result<(), Failure> {
    match task {
        Task::Format {
            image,
            lines,
            role,
            epoch,
            has_journal,
            is_new,
        } => {
            let new = NewImage {
                lines,
                role,
                epoch,
                pair: new_pair(rt, role)?,
                has_journal,
            };
            let done = format(
                alloc, images, image, new, is_new, is_asked, reader, writer, errors,
            );
            let is_held = tell_cause_of_making(
                alloc,
                images,
                image,
                lines,
                has_journal,
                &done,
                errors,
            );
            while_held(done, is_held)
        }
        Task::AddJournal { image } => {
            let done = add_journal(alloc, images, image, writer);
            let is_held = tell_cause_of_giving(alloc, images, image, &done, errors);
            while_held(done, is_held)
        }
        Task::Settle { image } => {
            let done = settle(alloc, images, image, writer);
            told(alloc, images, image, done, errors)
        }
        Task::Migrate { image } => {
            let done = migrate(alloc, images, image, writer);
            told(alloc, images, image, done, errors)
        }
        Task::Inspect { image } => {
            let done = inspect(alloc, images, image, writer);
            let is_held = tell_cause_of_reading(alloc, images, image, &done, errors);
            while_held(done, is_held)
        }
        Task::Status { image, behind } => status(alloc, images, image, behind, writer, errors),
        Task::Promote {
            image,
            old_primary_stopped,
            at_least,
        } => {
            let done = promote(
                alloc,
                images,
                image,
                old_primary_stopped,
                at_least,
                is_asked,
                reader,
                writer,
                errors,
            );
            told(alloc, images, image, done, errors)
        }
        Task::Version => printed(writeln!(writer, "{PROGRAM} {VERSION}")),
        Task::Help(text) => printed(write!(writer, "{text}")),
        Task::Run(_) => Ok(()),
    }
}

/// What came of a call over the image of this name. Where it was refused the cause is told.
fn told<I: Images, E: Write>(
    alloc: Global,
    images: &I,
    name: &str,
    done: Result<(), Failure>,
    errors: &mut E,
) -> Result<(), Failure> {
    let is_held = tell_cause(alloc, images, name, &done, errors);
    while_held(done, is_held)
}

/// The same, of an image that another process has open, if it has.
fn while_held(done: Result<(), Failure>, is_held: bool) -> Result<(), Failure> {
    match done {
        Ok(()) => Ok(()),
        Err(failure) => Err(failure.while_held(is_held)),
    }
}

/// What came of printing.
fn printed(done: io::Result<()>) -> Result<(), Failure> {
    match done {
        Ok(()) => Ok(()),
        Err(error) => Err(Failure::Stopped(ServeError::Write(error))),
    }
}
