//! The words of a line.
ghost use Rattle.std.specs.Prelude.{◌≡◌, ◌<◌, ◌≤◌, length};
ghost use Rattle.std.specs.Iterator.{at_most};

use crate::cause::Cause;
use crate::number::read_number;
use machine::{Mark, Node};

/// The words of a line that are not yet read. Words are separated by one or more spaces.
#[derive(Drop)]
pub struct LineWords<'a> {
    rest: &'a [u8],
}

impl<'a> Iterator for LineWords<'a> {
    type Item = &'a [u8];

    ghost remaining = { λ words. at_most (length words.rest.now) };

    fn next(&mut self) -> Option<&'a [u8]> {
        let line = without_spaces(self.rest);
        if line.is_empty() {
            self.rest = line;
            return None;
        }
        let (word, rest) = line.split_at(word_len(line));
        self.rest = rest;
        Some(word)
    }
}

impl<'a> LineWords<'a> {
    pub fn new(line: &'a [u8]) -> LineWords<'a> {
        LineWords { rest: line }
    }

    /// The next word, which has to be there.
    pub fn word(&mut self) -> Result<&'a [u8], Cause> {
        self.next().ok_or(Cause::MissingWord)
    }

    /// The next word, a number.
    pub fn number(&mut self) -> Result<u64, Cause> {
        read_number(self.word()?).ok_or(Cause::NotNumber)
    }

    /// The next word, a number; `missing` where there is no next word.
    pub fn number_or(&mut self, missing: u64) -> Result<u64, Cause> {
        match self.next() {
            Some(word) => read_number(word).ok_or(Cause::NotNumber),
            None => Ok(missing),
        }
    }

    /// The next word, a mark.
    pub fn mark(&mut self) -> Result<Mark, Cause> {
        match text_of(self.word()?) {
            "local" => Ok(Mark::Local),
            "remote" => Ok(Mark::Remote),
            _ => Err(Cause::NotMark),
        }
    }

    /// The next word, a node.
    pub fn node(&mut self) -> Result<Node, Cause> {
        match text_of(self.word()?) {
            "primary" => Ok(Node::Primary),
            "standby" => Ok(Node::Standby),
            _ => Err(Cause::NotNode),
        }
    }

    /// Checks that no word is left.
    pub fn end(&mut self) -> Result<(), Cause> {
        match self.next() {
            None => Ok(()),
            Some(_) => Err(Cause::NeedlessWord),
        }
    }
}

/// A word as text: empty, as no word is, if it is not UTF-8.
pub fn text_of(word: &[u8]) -> &str {
    str::from_utf8(word).unwrap_or("")
}

/// The line from its first word on.
fn without_spaces(line: &[u8]) -> &[u8]
    ensures { length result.now ≤ length line.now }
{
    match line.iter().position(|byte| *byte != b' ') {
        Some(index) => &line[index..],
        None => &[],
    }
}

/// The length of the first word, which begins with the first byte.
fn word_len(line: &[u8]) -> usize
    requires { 0 < length line.now }
    ensures some { 0 < result }
    ensures within { result ≤ length line.now }
{
    match line[1..].iter().position(|byte| *byte == b' ') {
        Some(index) => index + 1,
        None => line.len(),
    }
}
