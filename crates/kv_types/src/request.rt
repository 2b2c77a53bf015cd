//! A request: the words of one command.
ghost use Rattle.std.specs.Prelude.{◌≡◌};
ghost use Rattle.kv_types.specs.CommandName.{named_by};

use crate::command_name::CommandName;
use bytes::Bytes;
use std::alloc::AllocError;
use std::marker::Model;

/// The words of one command: 1 to 1,024 words of at most 1,048,576 bytes each. A clause sees the list of the words. The first word is looked up once, when
/// the request is made.
#[derive(Debug, Drop)]
pub struct Request {
    words: Vec<Bytes>,
    /// The command that the first word names.
    name: Option<CommandName>,
}

impl Model for Request {
    ghost use Rattle.std.specs.Prelude.{◌≡◌, ℕ, List};

    ghost Value = { List (List ℕ) };

    ghost use Rattle.kv_types.specs.CommandName.{named_by};
    ghost use Rattle.kv_types.specs.Word.{AreWords};

    ghost view = { λ r. r.words.items };

    ghost invariant = { λ r. AreWords r.words.items × (r.name ≡ named_by r.words.items) };
}

impl Request {
    ghost use Rattle.kv_types.specs.Word.{AreWords};

    /// A request with the given words.
    pub fn new(words: Vec<Bytes>) -> Request
        requires { AreWords words.items }
        ensures { result ≡ words.items }
    {
        let name = name_in(&words);
        Request { words, name }
    }

    /// The command that the first word names, if it names one.
    pub fn name(&self) -> Option<CommandName>
        ensures { result ≡ named_by self.now }
    {
        self.name
    }

    /// The words of a request, in order.
    pub fn words(&self) -> &[Bytes]
        ensures value { result.now ≡ self.now }
        ensures lawful { AreWords result.now }
    {
        self.words.as_slice()
    }
}

impl Clone for Request {
    ghost use Rattle.std.specs.Prelude.{◌≡◌};

    ghost is_clone = { λ request copy. copy ≡ request };

    fn clone(&self) -> Result<Request, AllocError> {
        Ok(Request {
            words: self.words.clone()?,
            name: self.name,
        })
    }
}

/// The command that the first of these words names.
fn name_in(words: &[Bytes]) -> Option<CommandName>
    ensures { result ≡ named_by words.now }
{
    match words {
        [word, ..] => CommandName::of_word(word.as_slice()),
        [] => None,
    }
}
