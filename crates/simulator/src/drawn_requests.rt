//! Requests that are drawn.
use crate::dice::Dice;
use crate::spelling::spelled;
use bytes::Bytes;
use std::alloc::{AllocError, Global};

const STRINGS: [&str; 3] = ["a", "b", "c"];

const HASHES: [&str; 2] = ["g", "h"];

const FIELDS: [&str; 3] = ["f", "k", "l"];

const SHORT_VALUES: [&str; 5] = ["0", "7", "41", "x", "two words"];
/// More than the line of an extent holds.
const LONG_VALUE: &str =
    "0123456789012345678901234567890123456789012345678901234567890123456789012345678901234567890123456789";

/// What a command takes.
#[derive(Clone, Copy)]
enum Shape {
    Alone,
    Key,
    KeyAndValue,
    KeyAndField,
    KeyFieldAndValue,
}

/// The commands that are drawn, by the kind of their keys.
const OF_STRINGS: [(&str, Shape); 10] = [
    ("SET", Shape::KeyAndValue),
    ("SET", Shape::KeyAndValue),
    ("GET", Shape::Key),
    ("GET", Shape::Key),
    ("APPEND", Shape::KeyAndValue),
    ("INCR", Shape::Key),
    ("STRLEN", Shape::Key),
    ("DEL", Shape::Key),
    ("EXISTS", Shape::Key),
    ("TYPE", Shape::Key),
];

const OF_HASHES: [(&str, Shape); 6] = [
    ("HSET", Shape::KeyFieldAndValue),
    ("HSET", Shape::KeyFieldAndValue),
    ("HGET", Shape::KeyAndField),
    ("HDEL", Shape::KeyAndField),
    ("HLEN", Shape::Key),
    ("DEL", Shape::Key),
];

const OF_SESSIONS: [(&str, Shape); 9] = [
    ("WATCH", Shape::Key),
    ("WATCH", Shape::Key),
    ("UNWATCH", Shape::Alone),
    ("MULTI", Shape::Alone),
    ("EXEC", Shape::Alone),
    ("DISCARD", Shape::Alone),
    ("FLUSHDB", Shape::Alone),
    ("PING", Shape::Alone),
    ("NOPE", Shape::Alone),
];

/// Any request, as it is spelled.
pub fn draw_request(alloc: Global, dice: &mut Dice) -> Result<Bytes, AllocError> {
    match dice.below(8) {
        0 => draw_of(alloc, dice, &OF_SESSIONS, &STRINGS),
        1 | 2 => draw_of(alloc, dice, &OF_HASHES, &HASHES),
        // of the other kind of key
        3 if dice.is_one_of(4) => draw_of(alloc, dice, &OF_HASHES, &STRINGS),
        4 if dice.is_one_of(4) => draw_of(alloc, dice, &OF_STRINGS, &HASHES),
        _ => draw_of(alloc, dice, &OF_STRINGS, &STRINGS),
    }
}

/// A request that fits into a transaction.
pub fn draw_command(alloc: Global, dice: &mut Dice) -> Result<Bytes, AllocError> {
    match dice.below(3) {
        0 => draw_of(alloc, dice, &OF_HASHES, &HASHES),
        _ => draw_of(alloc, dice, &OF_STRINGS, &STRINGS),
    }
}

/// The request of this word alone.
pub fn alone(alloc: Global, name: &str) -> Result<Bytes, AllocError> {
    let mut words = Vec::new(alloc);
    add(alloc, &mut words, Some(&name))?;
    spelled(alloc, words)
}

/// One of these commands, of one of these keys.
fn draw_of(
    alloc: Global,
    dice: &mut Dice,
    commands: &[(&str, Shape)],
    keys: &[&str],
) -> Result<Bytes, AllocError> {
    let mut words = Vec::new(alloc);
    let Some((name, shape)) = dice.one_of(commands) else {
        return alone(alloc, "PING");
    };
    add(alloc, &mut words, Some(name))?;
    match shape {
        Shape::Alone => {}
        Shape::Key => add(alloc, &mut words, dice.one_of(keys))?,
        Shape::KeyAndValue => {
            add(alloc, &mut words, dice.one_of(keys))?;
            add_value(alloc, dice, &mut words)?;
        }
        Shape::KeyAndField => {
            add(alloc, &mut words, dice.one_of(keys))?;
            add(alloc, &mut words, dice.one_of(&FIELDS))?;
        }
        Shape::KeyFieldAndValue => {
            add(alloc, &mut words, dice.one_of(keys))?;
            add(alloc, &mut words, dice.one_of(&FIELDS))?;
            add_value(alloc, dice, &mut words)?;
        }
    }
    spelled(alloc, words)
}

fn add_value(alloc: Global, dice: &mut Dice, words: &mut Vec<Bytes>) -> Result<(), AllocError> {
    if dice.is_one_of(8) {
        return add(alloc, words, Some(&LONG_VALUE));
    }
    add(alloc, words, dice.one_of(&SHORT_VALUES))
}

/// Adds a word, if there is one.
fn add(alloc: Global, words: &mut Vec<Bytes>, word: Option<&&str>) -> Result<(), AllocError> {
    if let Some(word) = word {
        words.push(Bytes::copy_from_slice(alloc, word.as_bytes())?)?;
    }
    Ok(())
}
