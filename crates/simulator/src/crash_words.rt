//! The words of a crash.
ghost use Rattle.std.specs.Prelude.{◌≡◌, true, false, IfSome, IfNone};
ghost use Rattle.machine.specs.Event.{is_between};
ghost use Rattle.simulator.specs.Words.{name_of};

use crate::cause::{Cause, LineError};
use crate::line_words::{LineWords, text_of};
use crate::number::read_number;
use machine::{Cut, Event};
use std::alloc::Global;

/// The node, then the call in whose middle it crashes and after how many stores, flushes and fences of that call, unless it crashes between two events; and
/// the picks of its crash, one at least.
pub fn read_crash(alloc: Global, words: &mut LineWords<'_>) -> Result<Event, LineError> {
    let node = words.node()?;
    let word = words.word()?;
    let (cut, after, first) = match cut_named(text_of(word)) {
        Some(cut) => (cut, words.number()?, words.word()?),
        None => (Cut::Between, 0, word),
    };
    let picks = read_picks(alloc, first, words)?;
    Ok(Event::Crash(node, cut, after, picks))
}

/// The numbers of this word and of those that follow it.
fn read_picks(
    alloc: Global,
    first: &[u8],
    words: &mut LineWords<'_>,
) -> Result<Vec<u64>, LineError> {
    let mut picks = vec![in alloc; pick_of(first)?]?;
    for word in words {
        picks.push(pick_of(word)?)?;
    }
    Ok(picks)
}

fn pick_of(word: &[u8]) -> Result<u64, Cause> {
    read_number(word).ok_or(Cause::NotNumber)
}

/// The call of this name that a crash may cut.
pub fn cut_named(name: &str) -> Option<Cut>
    ensures named { IfSome result (λ cut. name.now ≡ name_of cut) }
    ensures cuts { IfSome result (λ cut. is_between cut ≡ false) }
{
    match name {
        "commit" => Some(Cut::Commit),
        "apply" => Some(Cut::Apply),
        "free" => Some(Cut::Free),
        "clear-gap" => Some(Cut::ClearGap),
        "reopen" => Some(Cut::Reopen),
        "promote" => Some(Cut::Promote),
        _ => None,
    }
}

/// The name of a call that a crash may cut. A crash between two events cuts none.
pub fn name_of_cut(cut: Cut) -> Option<&'static str>
    ensures name { IfSome result (λ name. name.now ≡ name_of cut) }
    ensures none { IfNone result (is_between cut ≡ true) }
{
    match cut {
        Cut::Between => None,
        Cut::Commit => Some("commit"),
        Cut::Apply => Some("apply"),
        Cut::Free => Some("free"),
        Cut::ClearGap => Some("clear-gap"),
        Cut::Reopen => Some("reopen"),
        Cut::Promote => Some("promote"),
    }
}
