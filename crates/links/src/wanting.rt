//! A newcomer's first frame, as it is written.
ghost use Rattle.std.specs.Prelude.{◌≡◌, ◌⊎◌, ℕ, List, [], ◌++◌, OnOk, OnErr, IfErr};
ghost use Rattle.std.specs.Io.KnownBytes.{Appends};
ghost use Rattle.kv_types.specs.declared.refusal.Refusal.TheVariants.{Memory};
ghost use Rattle.links.specs.Copying.{wanted_text};
ghost use Rattle.node_log.specs.declared.link_error.LinkError.TheVariants.{Closed, Refused};

use crate::writing::write_whole;
use frames::CopyWanted;
use node_log::LinkError;
use std::alloc::Global;
use std::io::Write;
use stream_codec::write_wanted;

/// Writes that a node of this epoch wants a copy.
///
/// # Errors
///
/// `Closed` where a write failed: the beginning of the frame may have been written. `Refused` for want of memory, and then nothing was.
pub(crate) fn want_copy<O: Write>(alloc: Global, epoch: u64, to: &mut O) -> Result<(), LinkError>
    ensures said { OnOk result (Appends (O.contents to.old) (O.contents to.new) (wanted_text epoch)) }
    ensures begun { OnErr result ((part : List ℕ) × (rest : List ℕ) × (wanted_text epoch ≡ part ++ rest) × Appends (O.contents to.old) (O.contents to.new) part
        × IfErr result (λ end. (end ≡ Closed) ⊎ ((end ≡ Refused Memory) × (part ≡ [])))) }
{
    let mut out = Vec::new(alloc);
    put_wanted(epoch, &mut out)?;
    match write_whole(to, &out) {
        Ok(()) => Ok(()),
        Err(_) => Err(LinkError::Closed),
    }
}

/// Puts the frame last, or nothing where memory is refused.
#[tactic(auto, unfolding(crate::specs::Copying::wanted_text))]
fn put_wanted(epoch: u64, out: &mut Vec<u8>) -> Result<(), LinkError>
    ensures put { OnOk result (out.new.items ≡ out.old.items ++ wanted_text epoch) }
    ensures cause { IfErr result (λ end. end ≡ Refused Memory) }
{
    write_wanted(CopyWanted { epoch }, out)?;
    Ok(())
}
