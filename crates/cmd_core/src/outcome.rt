//! What a command answers and what it changes.
ghost use Rattle.std.specs.Prelude.{◌≡◌, [], ◌∷◌, IfOk};
ghost use Rattle.kv_types.specs.declared.change.Change.TheVariants.{Put};
ghost use Rattle.cmd_core.specs.Outcome.{Answers, answer_now, outcome_now, changes_of, reads};
ghost use Rattle.cmd_core.specs.Reply.{status_text, bulk_or_null, reply_of_answer, reply_of};

use crate::error::CommandError;
use bytes::Bytes;
use kv_types::{Change, Listed, Payload, RecordId, Reply, Value};
use std::alloc::{AllocError, Global};

/// The word that a command answers as a simple string.
#[derive(Clone, Copy, Debug, PartialEq, Eq)]
pub enum Status {
    Ok,
    Pong,
    /// The key holds a string.
    String,
    /// The key holds a hash.
    Hash,
    /// There is no such key.
    None,
}

/// What a command that did not fail answers.
#[derive(Drop)]
pub enum Answer {
    Simple(Status),
    Integer(i64),
    /// A value, or none.
    Bulk(Option<Payload>),
    /// Values, or none, one after another.
    Bulks(Vec<Option<Payload>>),
}

/// What a command answers and what it changes, one change after another. One that fails changes nothing.
#[derive(Drop)]
pub enum Outcome {
    Answers {
        answer: Answer,
        changes: Vec<Change>,
    },
    Fails(CommandError),
}

impl Status {
    /// What stands between the `+` and the line end of the reply.
    pub fn text(self) -> &'static [u8]
        ensures { result.now ≡ status_text self }
    {
        match self {
            Status::Ok => b"OK",
            Status::Pong => b"PONG",
            Status::String => b"string",
            Status::Hash => b"hash",
            Status::None => b"none",
        }
    }
}

impl Answer {
    /// The reply that shows the answer. Only a list of values takes memory.
    pub fn into_reply(self, alloc: Global) -> Result<Reply, AllocError>
        ensures { IfOk result (λ reply. reply ≡ reply_of_answer (answer_now self)) }
    {
        Ok(match self {
            Answer::Simple(status) => Reply::Simple(Bytes::from_static(status.text())),
            Answer::Integer(number) => Reply::Int(number),
            Answer::Bulk(value) => bulk(value),
            Answer::Bulks(values) => bulks(alloc, values)?,
        })
    }
}

impl Outcome {
    /// An outcome that changes nothing. It takes no memory.
    pub fn reads(alloc: Global, answer: Answer) -> Outcome
        ensures { outcome_now result ≡ reads (answer_now answer) }
    {
        Outcome::Answers {
            answer,
            changes: Vec::new(alloc),
        }
    }

    /// An outcome whose one change puts a value at a record.
    pub fn puts(
        alloc: Global,
        answer: Answer,
        id: RecordId,
        value: Value,
    ) -> Result<Outcome, AllocError>
        ensures { IfOk result (λ o. outcome_now o ≡ Answers (answer_now answer) (Put id value ∷ [])) }
    {
        let changes = vec![in alloc; Change::Put(id, value)]?;
        Ok(Outcome::Answers { answer, changes })
    }

    /// The reply, and the changes to be made in order.
    pub fn into_parts(self, alloc: Global) -> Result<(Reply, Vec<Change>), AllocError>
        ensures reply { IfOk result (λ parts. parts.0 ≡ reply_of (outcome_now self)) }
        ensures changes { IfOk result (λ parts. parts.1.items ≡ changes_of (outcome_now self)) }
    {
        match self {
            Outcome::Answers { answer, changes } => Ok((answer.into_reply(alloc)?, changes)),
            Outcome::Fails(error) => {
                let text = Bytes::from_static(error.text());
                Ok((Reply::Error(text), Vec::new(alloc)))
            }
        }
    }
}

fn bulk(value: Option<Payload>) -> Reply
    ensures { result ≡ bulk_or_null value }
{
    match value {
        Some(value) => Reply::Bulk(value),
        None => Reply::NullBulk,
    }
}

fn bulks(alloc: Global, values: Vec<Option<Payload>>) -> Result<Reply, AllocError>
    ensures { IfOk result (λ reply. reply ≡ reply_of_answer (answer_now (Answer.Bulks values))) }
{
    let mut replies = Listed::new(alloc);
    for value in values {
        replies.push(bulk(value))?;
    }
    Ok(Reply::Array(replies))
}
