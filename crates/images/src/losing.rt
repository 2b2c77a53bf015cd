//! What is lost with an image that is formatted anew, or promoted although it holds nothing.
ghost use Rattle.std.specs.Prelude.{◌≡◌, ◌≤◌, None, Ok, IfOk, IfErr, IfSome};
ghost use Rattle.kv_types.specs.declared.refusal.Refusal.TheVariants.{Memory};
ghost use Rattle.model.specs.declared.image.TheConstants.{MIN_LINES};
ghost use Rattle.pmem.specs.Crash.{image_of};
ghost use Rattle.images.specs.Asked.{HoldsNothing, IsLoss};

use crate::images::Images;
use heap_layout::{Versions, read_versions};
use kv_types::{Key, Refusal};
use model::{Record, Role};
use pmem::Pmem;
use std::alloc::{AllocError, Global};
use std::fmt;
use wbl_engine::layout_in;

/// What an undamaged image above position 0 holds.
#[derive(Clone, Copy, Debug, PartialEq, Eq)]
pub struct Held {
    pub role: Role,
    pub position: u64,
    pub epoch: u64,
    pub keys: u64,
}

/// What is lost with an image.
#[derive(Clone, Copy, Debug, PartialEq, Eq)]
pub enum Loss {
    /// What it holds.
    Image(Held),
    /// What it may have held before it was damaged.
    Damaged,
}

impl fmt::Display for Loss {
    fn fmt<W: fmt::Write>(&self, f: &mut fmt::Formatter<W>) -> fmt::Result {
        match self {
            Loss::Image(held) => write!(
                f,
                "a {} image at position {}, epoch {}, {} keys",
                owner(held.role),
                held.position,
                held.epoch,
                held.keys
            ),
            Loss::Damaged => f.write_str("a damaged image"),
        }
    }
}

/// Whose an image of this role is.
fn owner(role: Role) -> &'static str {
    match role {
        Role::Primary => "primary's",
        Role::Standby => "standby's",
        // (which holds nothing, so that nothing is lost with it)
        Role::Newcomer => "newcomer's",
    }
}

/// What is lost where the file of this name becomes a new image of so many lines, with a journal or without: `None` where it is not there, has not the size of
/// such a file, or holds nothing.
/// Only `Memory`.
pub fn loss_of<I: Images>(
    alloc: Global,
    images: &I,
    name: &str,
    lines: u64,
    has_journal: bool,
) -> Result<Option<Loss>, Refusal>
    ensures cause { IfErr result (λ refusal. refusal ≡ Memory) }
{
    if !images.has_size(name, lines, has_journal) {
        return Ok(None);
    }
    match images.read_only(name) {
        Ok(device) => loss_on(alloc, &device),
        Err(Refusal::Memory) => Err(Refusal::Memory),
        _ => Ok(None),
    }
}

/// What is lost with the image of this device. Only `Memory`.
fn loss_on<P: Pmem>(alloc: Global, device: &P) -> Result<Option<Loss>, Refusal>
    requires { MIN_LINES ≤ (P.state device.now).lines }
    ensures some { IfOk result (λ found. IfSome found (IsLoss (P.state device.now).lines (image_of (P.state device.now).words))) }
    ensures none { result ≡ Ok None → HoldsNothing (P.state device.now).lines (image_of (P.state device.now).words) }
    ensures cause { IfErr result (λ refusal. refusal ≡ Memory) }
{
    // (one of an older version holds something too)
    match wbl_engine::inspect(alloc, device, layout_in(device)) {
        Ok((current, _)) if current.position == 0 => Ok(None),
        Ok((current, _)) => {
            let keys = count_keys(alloc, device, &current)?;
            Ok(Some(Loss::Image(Held {
                role: current.role,
                position: current.position,
                epoch: current.epoch,
                keys,
            })))
        }
        Err(Refusal::Damaged) => Ok(Some(Loss::Damaged)),
        Err(Refusal::BadMagic | Refusal::BadVersion | Refusal::WrongSize) => Ok(None),
        Err(_) => Err(Refusal::Memory),
    }
}

/// How many keys live in an undamaged image under its record. Only `Memory`.
pub fn count_keys<P: Pmem>(alloc: Global, device: &P, current: &Record) -> Result<u64, Refusal>
    requires { MIN_LINES ≤ (P.state device.now).lines }
    ensures cause { IfErr result (λ refusal. refusal ≡ Memory) }
{
    match read_versions(alloc, device, current) {
        Ok(versions) => Ok(distinct_keys(alloc, &versions)?),
        Err(_) => Err(Refusal::Memory),
    }
}

/// How many keys have a live version.
fn distinct_keys(alloc: Global, versions: &Versions) -> Result<u64, AllocError> {
    let mut keys: Vec<&Key> = Vec::new(alloc);
    for (_, entry) in &versions.counted {
        if entry.end == 0 {
            keys.push(entry.id.key())?;
        }
    }
    keys.sort_unstable();
    keys.dedup();
    Ok(keys.len() as u64)
}
