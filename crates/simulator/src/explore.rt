//! Histories that are looked at after each event: those that are drawn, or one that is given.
use crate::breach::Breach;
use crate::case::{Case, Source, play_case};
use crate::dice::Dice;
use crate::drawing::Drawing;
use crate::error::SimulatorError;
use crate::found::Found;
use crate::options::{Exploration, Options};
use crate::restored::Restoring;
use crate::script::{Failure, Script};
use crate::tally::Tally;
use crate::teller::Teller;
use machine::Node;
use std::alloc::{AllocError, Global};
use std::hash::RandomState;
use std::io;
use std::io::Write;

/// Formatting makes as many fences.
const FORMATTING_FENCES: u64 = 3;

/// Which fence after those of formatting is to fail, at most.
const MOST_FENCES: u64 = 30;

/// A history that is drawn.
#[derive(Clone, Copy)]
struct Drawn {
    failure: Option<Failure>,
    restoring: Option<Restoring>,
    /// Of its events.
    seed: u64,
}

/// Plays histories that are drawn until so many events happened, tells of each if that is asked for, and prints how much that was. Where one breaks the
/// promise it is told in any case, and then what it breaks, and the error is `Broken`.
pub fn explore<W: Write>(
    alloc: Global,
    out: &mut W,
    options: &Options,
    exploration: Exploration,
    hash_builder: RandomState,
) -> Result<(), SimulatorError> {
    let seed = exploration.seed;
    let mut dice = Dice::new(seed);
    // (what is put back is drawn apart, so that the histories of a seed are what they are without it)
    let mut restores = Dice::new(!seed);
    let mut tally = Tally::new();
    for number in 0..exploration.events {
        if exploration.events <= tally.events {
            break;
        }
        let drawn = draw(alloc, &mut dice, &mut restores)?;
        let breach = if options.trace {
            writeln!(out, "# history {number}")?;
            play_drawn(alloc, out, options, drawn, &mut tally, hash_builder)?
        } else {
            play_drawn(
                alloc,
                &mut io::sink(),
                options,
                drawn,
                &mut tally,
                hash_builder,
            )?
        };
        if let Some(breach) = breach {
            return tell_drawn(alloc, out, options, drawn, breach, hash_builder);
        }
    }
    writeln!(out, "explored: seed {seed}, {tally}")?;
    Ok(())
}

/// Plays a history that is given, and tells of it. Where it breaks the promise, it is told what it breaks, and the error is `Broken`.
pub fn look<W: Write>(
    alloc: Global,
    out: &mut W,
    options: &Options,
    script: &Script,
    hash_builder: RandomState,
) -> Result<(), SimulatorError> {
    let restoring = match script.restore {
        Some(restore) => Some(Restoring {
            node: restore.kept.node,
            after: restore.kept.after as u64,
        }),
        None => None,
    };
    let case = Case {
        failures: script.failures.as_slice(),
        restoring,
        source: Source::Given(script.schedule.events()),
    };
    let mut tally = Tally::new();
    match play_through(alloc, out, options, case, &mut tally, hash_builder)? {
        Some(breach) => tell_breach(out, breach),
        None => Ok(()),
    }
}

fn draw(alloc: Global, dice: &mut Dice, restores: &mut Dice) -> Result<Drawn, AllocError> {
    let failure = draw_failure(dice);
    let seed = dice.number();
    let drawing = Drawing::new(alloc, seed)?;
    Ok(Drawn {
        failure,
        restoring: draw_restoring(restores, drawing.left()),
        seed,
    })
}

/// In one of four histories a fence fails.
fn draw_failure(dice: &mut Dice) -> Option<Failure> {
    let node = match dice.below(8) {
        0 => Node::Primary,
        1 => Node::Standby,
        _ => return None,
    };
    let fence = FORMATTING_FENCES + 1 + dice.below(MOST_FENCES);
    Some(Failure { node, fence })
}

/// At the end of one of four histories the image of a node is put back that was kept before one of its events.
fn draw_restoring(dice: &mut Dice, events: u64) -> Option<Restoring> {
    let node = match dice.below(8) {
        0 => Node::Primary,
        1 => Node::Standby,
        _ => return None,
    };
    let after = dice.below(events.max(1));
    Some(Restoring { node, after })
}

/// Plays a history that is drawn. Returns what it breaks.
fn play_drawn<W: Write>(
    alloc: Global,
    out: &mut W,
    options: &Options,
    drawn: Drawn,
    tally: &mut Tally,
    hash_builder: RandomState,
) -> Result<Option<Breach>, SimulatorError> {
    let mut failures = Vec::new(alloc);
    if let Some(failure) = drawn.failure {
        failures.push(failure)?;
    }
    let case = Case {
        failures: failures.as_slice(),
        restoring: drawn.restoring,
        source: Source::Drawn(Drawing::new(alloc, drawn.seed)?),
    };
    play_through(alloc, out, options, case, tally, hash_builder)
}

/// Plays a history. Returns what it breaks.
fn play_through<W: Write>(
    alloc: Global,
    out: &mut W,
    options: &Options,
    case: Case<'_>,
    tally: &mut Tally,
    hash_builder: RandomState,
) -> Result<Option<Breach>, SimulatorError> {
    let teller = Teller::new(alloc, out);
    match play_case(alloc, options, case, teller, hash_builder, tally) {
        Ok(()) => Ok(None),
        Err(Found::Breach(breach)) => Ok(Some(breach)),
        Err(Found::Failed(error)) => Err(error),
    }
}

/// Tells what a history breaks that was drawn, and the history, by playing it once more, if it was not told while it was played.
fn tell_drawn<W: Write>(
    alloc: Global,
    out: &mut W,
    options: &Options,
    drawn: Drawn,
    breach: Breach,
    hash_builder: RandomState,
) -> Result<(), SimulatorError> {
    if !options.trace {
        let mut again = Tally::new();
        let _ = play_drawn(alloc, out, options, drawn, &mut again, hash_builder)?;
    }
    tell_breach(out, breach)
}

/// Tells what the history breaks that was told last.
fn tell_breach<W: Write>(out: &mut W, breach: Breach) -> Result<(), SimulatorError> {
    writeln!(out, "# broken: {breach}")?;
    Err(SimulatorError::Broken)
}
