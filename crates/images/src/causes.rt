//! Why an image is refused, in a line before the refusal that names its file.

use crate::failure::Failure;
use crate::images::Images;
use crate::serve_error::ServeError;
use crate::trouble::Trouble;
use crate::unfinished::is_left;
use kv_types::Refusal;
use std::alloc::Global;
use std::io::Write;

/// What is told of a file that is no image.
const NO_MAGIC: &str = "does not begin as an image";

/// Tells in a line why the image of this name was refused, where that is what came of a call that opens it to write there. The answer is whether it may pass,
/// as where another process has it open.
pub fn tell_cause<T, I: Images, E: Write>(
    alloc: Global,
    images: &I,
    name: &str,
    done: &Result<T, Failure>,
    errors: &mut E,
) -> bool {
    let Some(refusal) = refusal_in(done) else {
        return false;
    };
    let trouble = match refusal {
        Refusal::Fault => images.trouble_of_using(name),
        Refusal::Damaged => images.trouble(name),
        _ => Trouble::None,
    };
    tell_refused(alloc, images, name, refusal, trouble, errors)
}

/// The same of a call that reads it alone.
pub fn tell_cause_of_reading<T, I: Images, E: Write>(
    alloc: Global,
    images: &I,
    name: &str,
    done: &Result<T, Failure>,
    errors: &mut E,
) -> bool {
    let Some(refusal) = refusal_in(done) else {
        return false;
    };
    let trouble = match refusal {
        Refusal::Fault => images.trouble_of_reading(name),
        Refusal::Damaged => images.trouble(name),
        _ => Trouble::None,
    };
    tell_refused(alloc, images, name, refusal, trouble, errors)
}

/// The same of a call that makes an image of so many lines, with a journal or without, where it is not there.
pub fn tell_cause_of_making<T, I: Images, E: Write>(
    alloc: Global,
    images: &I,
    name: &str,
    lines: u64,
    has_journal: bool,
    done: &Result<T, Failure>,
    errors: &mut E,
) -> bool {
    let Some(refusal) = refusal_in(done) else {
        return false;
    };
    let trouble = match refusal {
        Refusal::Fault => images.trouble_of_making(name, lines, has_journal),
        Refusal::Damaged => images.trouble(name),
        _ => Trouble::None,
    };
    tell_refused(alloc, images, name, refusal, trouble, errors)
}

/// The same of a call that gives it a journal.
pub fn tell_cause_of_giving<T, I: Images, E: Write>(
    alloc: Global,
    images: &I,
    name: &str,
    done: &Result<T, Failure>,
    errors: &mut E,
) -> bool {
    let Some(refusal) = refusal_in(done) else {
        return false;
    };
    let trouble = match refusal {
        Refusal::Fault => images.trouble_of_giving(name),
        Refusal::Damaged => images.trouble(name),
        _ => Trouble::None,
    };
    tell_refused(alloc, images, name, refusal, trouble, errors)
}

/// The refusal that came of a call, if one did.
fn refusal_in<T>(done: &Result<T, Failure>) -> Option<Refusal> {
    match done {
        Err(Failure::Stopped(ServeError::Refused(refusal))) => Some(*refusal),
        _ => None,
    }
}

/// Tells in a line why the image of this name was refused so, and what keeps it from being opened or used. The answer is whether it may pass.
fn tell_refused<I: Images, E: Write>(
    alloc: Global,
    images: &I,
    name: &str,
    refusal: Refusal,
    trouble: Trouble,
    errors: &mut E,
) -> bool {
    match refusal {
        Refusal::Fault => tell_trouble(alloc, name, trouble, errors),
        Refusal::BadMagic => tell(alloc, name, what_it_is(images, name), errors),
        refusal => {
            if let Some(cause) = cause_of(refusal, trouble) {
                tell(alloc, name, cause, errors);
            }
        }
    }
    trouble.may_pass()
}

/// Tells a line by one write. Where memory is refused it is let go.
fn tell<E: Write>(alloc: Global, name: &str, cause: &str, errors: &mut E) {
    let mut line = Vec::new(alloc);
    if writeln!(line, "{name} {cause}").is_ok() {
        let _ = errors.write_all(&line);
    }
}

/// The same of what keeps an image from being opened or used.
fn tell_trouble<E: Write>(alloc: Global, name: &str, trouble: Trouble, errors: &mut E) {
    let mut line = Vec::new(alloc);
    if writeln!(line, "{name} {trouble}").is_ok() {
        let _ = errors.write_all(&line);
    }
}

/// What a file without the magic is.
fn what_it_is<I: Images>(images: &I, name: &str) -> &'static str {
    match images.read_only(name) {
        Ok(device) => {
            if is_left(&device) {
                "is what a format has left unfinished: give that again"
            } else {
                NO_MAGIC
            }
        }
        Err(_) => NO_MAGIC,
    }
}

/// Why an image was refused so, if that is of the image and not of its file.
fn cause_of(refusal: Refusal, trouble: Trouble) -> Option<&'static str> {
    match refusal {
        Refusal::BadVersion => Some(
            "is an image of another version; wbl-server migrate brings one of version 1 to version 2",
        ),
        Refusal::Full => Some("has no place for a version that has to move"),
        Refusal::WrongSize => Some("has not as many lines as an image, or as were asked for"),
        Refusal::Exhausted => Some("has come to the end of a counter"),
        Refusal::Damaged => Some(damage_of(trouble)),
        Refusal::WrongRole => Some("is an image of the other role"),
        Refusal::NotCopied => Some("is a newcomer's image, which has not got its copy"),
        _ => None,
    }
}

/// Why an image is damaged as it was read.
fn damage_of(trouble: Trouble) -> &'static str {
    match trouble {
        Trouble::Held => "is in use by another process, and changed while it was read",
        _ => "breaks a rule of an image",
    }
}
