//! The commands that look at no key.
ghost use Rattle.std.specs.Prelude.{◌≡◌, IfOk};
ghost use Rattle.cmd_core.specs.declared.shape.WordCount.TheVariants.{Exactly, AtLeast, Between};
ghost use Rattle.cmd_core.specs.declared.shape.Keys.TheVariants as keys;
ghost use Rattle.cmd_core.specs.Outcome.{outcome_now};
ghost use Rattle.cmd_core.specs.Shape.{Fits};
ghost use Rattle.cmd_string.specs.Connection as spec;

use bytes::Bytes;
use cmd_core::{Answer, Outcome, Status};
use kv_types::Payload;
use std::alloc::{AllocError, Global};

/// PING [text]: `PONG`, or the text, shared.
pub fn ping(alloc: Global, arguments: &[Bytes]) -> Result<Outcome, AllocError>
    requires { Fits (Between 1 2) keys.None arguments.now }
    ensures { IfOk result (λ o. outcome_now o ≡ spec.ping arguments.now) }
{
    let answer = match arguments {
        [text, ..] => Answer::Bulk(Some(Payload::new(text.clone()?))),
        [] => Answer::Simple(Status::Pong),
    };
    Ok(Outcome::reads(alloc, answer))
}

/// ECHO text: the text, shared.
pub fn echo(alloc: Global, arguments: &[Bytes]) -> Result<Outcome, AllocError>
    requires { Fits (Exactly 2) keys.None arguments.now }
    ensures { IfOk result (λ o. outcome_now o ≡ spec.echo arguments.now) }
{
    let [text] = arguments else {
        unreachable!();
    };
    Ok(Outcome::reads(alloc, Answer::Bulk(Some(Payload::new(text.clone()?)))))
}

/// QUIT: `OK`. That the connection closes then is not said here.
pub fn quit(alloc: Global, arguments: &[Bytes]) -> Outcome
    requires { Fits (AtLeast 1) keys.None arguments.now }
    ensures { outcome_now result ≡ spec.quit arguments.now }
{
    Outcome::reads(alloc, Answer::Simple(Status::Ok))
}
