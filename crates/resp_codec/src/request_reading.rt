//! Reading requests from bytes that come in pieces, a step at a time.
ghost use Rattle.std.specs.Prelude.{◌≡◌, ◌<◌, [], ◌++◌, None, Some, Ok, IfOk, OnOk, OnErr};
ghost use Rattle.kv_types.specs.declared.limits.TheConstants.{REQUEST_LIMITS};
ghost use Rattle.kv_types.specs.Reading.{items_at};
ghost use Rattle.resp_codec.specs.Parsing.{Advances};
ghost use Rattle.resp_codec.specs.RequestReading.{held, IsStanding, Steps, left_behind};

use crate::reading::Line;
use crate::unread::Unread;
use bytes::Bytes;
use kv_types::{Item, ProtocolFault, REQUEST_LIMITS, Request, Stop};
use std::alloc::{AllocError, Global};
use std::mem;

/// Where a parser stands: what it read of the begun request, and the bytes that it did not read yet.
#[derive(Drop)]
pub(crate) struct Reading {
    /// Requests of no words that were read since the last item. They ask for nothing, but were not given either.
    passed: u64,
    /// How many words the begun request has; 0 if none is begun.
    count: u64,
    /// Those of its words that were read, fewer than all.
    words: Vec<Bytes>,
    /// The length of the next word, if its line was read.
    len: Option<u64>,
    unread: Unread,
}

/// What one step did.
#[derive(Drop)]
enum Step {
    /// A part of a request was read, and it is not the last.
    Read,
    /// The last word of a request was read.
    Given(Request),
    /// The next part is not there, and nothing was read.
    Stopped(Stop<ProtocolFault>),
}

impl Reading {
    /// It has been fed nothing, and takes no memory.
    pub(crate) fn new(alloc: Global) -> Reading
        ensures standing { IsStanding result }
        ensures held { held result ≡ [] }
    {
        Reading {
            passed: 0,
            count: 0,
            words: Vec::new(alloc),
            len: None,
            unread: Unread::new(alloc),
        }
    }

    /// Another that stands where this one does. The bytes that lie in one piece are shared.
    pub(crate) fn copy(&self) -> Result<Reading, AllocError>
        requires { IsStanding self.now }
        ensures standing { IfOk result IsStanding }
        ensures held { IfOk result (λ copy. held copy ≡ held self.now) }
    {
        Ok(Reading {
            passed: self.passed,
            count: self.count,
            words: self.words.clone()?,
            len: self.len,
            unread: self.unread.copy()?,
        })
    }

    /// Takes the next piece whole, or nothing of it.
    pub(crate) fn feed(&mut self, piece: Bytes) -> Result<(), AllocError>
        requires standing { IsStanding self.old }
        ensures standing { IsStanding self.new }
        ensures ok { OnOk result (held self.new ≡ held self.old ++ piece) }
        ensures err { OnErr result (held self.new ≡ held self.old) }
    {
        self.unread.push(piece)
    }

    /// The first item of the bytes held, if there is one.
    pub(crate) fn next(&mut self) -> Result<Option<Item>, AllocError>
        requires standing { IsStanding self.old }
        ensures standing { IsStanding self.new }
        ensures given { IfOk result (λ item. Advances (Some (held self.old)) item (left_behind item (held self.new))) }
        ensures none { result ≡ Ok None → items_at REQUEST_LIMITS (held self.new) ≡ [] }
        ensures err { OnErr result (held self.new ≡ held self.old) }
    {
        loop {
            match self.step()? {
                Step::Read => {}
                Step::Given(request) => return Ok(Some(Item::Request(request))),
                Step::Stopped(Stop::Short) => return Ok(None),
                Step::Stopped(Stop::Broken(fault)) => return Ok(Some(Item::Fault(fault))),
            }
        }
    }

    /// Reads the next part.
    fn step(&mut self) -> Result<Step, AllocError>
        requires standing { IsStanding self.old }
        ensures standing { IsStanding self.new }
        ensures ok { IfOk result (λ step. Steps self.old step self.new) }
        ensures err { OnErr result (held self.new ≡ held self.old) }
    {
        if self.count == 0 {
            return self.read_count();
        }
        match self.len {
            None => self.read_len(),
            Some(len) => self.read_word(len),
        }
    }

    /// Reads how many words the next request has.
    fn read_count(&mut self) -> Result<Step, AllocError>
        requires standing { IsStanding self.old }
        requires between { self.old.count ≡ 0 }
        ensures standing { IsStanding self.new }
        ensures ok { IfOk result (λ step. Steps self.old step self.new) }
        ensures err { OnErr result (held self.new ≡ held self.old) }
    {
        // There is always a next number: each request of no words is four bytes that were fed.
        let passed = self.passed.checked_add(1).ok_or(AllocError)?;
        let count = match self.unread.line(Line::Count)? {
            Ok(count) => count,
            Err(stop) => return Ok(Step::Stopped(stop)),
        };
        if count == 0 {
            self.passed = passed;
            return Ok(Step::Read);
        }
        self.count = count;
        Ok(Step::Read)
    }

    /// Reads the length of the next word.
    fn read_len(&mut self) -> Result<Step, AllocError>
        requires standing { IsStanding self.old }
        requires begun { 0 < self.old.count }
        requires next { self.old.len ≡ None }
        ensures standing { IsStanding self.new }
        ensures ok { IfOk result (λ step. Steps self.old step self.new) }
        ensures err { OnErr result (held self.new ≡ held self.old) }
    {
        match self.unread.line(Line::Length)? {
            Ok(len) => {
                self.len = Some(len);
                Ok(Step::Read)
            }
            Err(stop) => Ok(Step::Stopped(stop)),
        }
    }

    /// Reads the bytes of the next word, and gives the request if it is the last.
    fn read_word(&mut self, len: u64) -> Result<Step, AllocError>
        requires standing { IsStanding self.old }
        requires begun { 0 < self.old.count }
        requires next { self.old.len ≡ Some len }
        ensures standing { IsStanding self.new }
        ensures ok { IfOk result (λ step. Steps self.old step self.new) }
        ensures err { OnErr result (held self.new ≡ held self.old) }
    {
        // Room first, so that no word is lost once it is taken.
        self.words.reserve(1)?;
        let word = match self.unread.word(len)? {
            Ok(word) => word,
            Err(stop) => return Ok(Step::Stopped(stop)),
        };
        self.words.push(word).unwrap();
        self.len = None;
        if (self.words.len() as u64) < self.count {
            return Ok(Step::Read);
        }
        self.passed = 0;
        self.count = 0;
        let next = Vec::new(self.unread.allocator());
        Ok(Step::Given(Request::new(mem::replace(&mut self.words, next))))
    }
}
