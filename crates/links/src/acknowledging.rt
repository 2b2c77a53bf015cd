//! A standby's acknowledgements, as they are written.
ghost use Rattle.std.specs.Prelude.{◌≡◌, ◌⊎◌, ℕ, List, [], ◌++◌, OnOk, OnErr, IfErr, IsErrOf};
ghost use Rattle.std.specs.Io.KnownBytes.{Appends};
ghost use Rattle.kv_types.specs.declared.refusal.Refusal.TheVariants.{Memory};
ghost use Rattle.links.specs.Serving.{ack_text};
ghost use Rattle.node_log.specs.declared.link_error.LinkError.TheVariants.{Closed, Refused};

use crate::writing::write_put;
use frames::Ack;
use node_log::LinkError;
use std::io::Write;
use stream_codec::write_ack;

/// Writes an acknowledgement. Nothing is left in `out`.
///
/// # Errors
///
/// `Closed` where a write failed: the beginning of the acknowledgement may have been written. `Refused` for want of memory, and then nothing was. Nothing
/// else was written.
pub(crate) fn say<O: Write>(ack: Ack, to: &mut O, out: &mut Vec<u8>) -> Result<(), LinkError>
    requires empty { out.old.items ≡ [] }
    ensures said { OnOk result (Appends (O.contents to.old) (O.contents to.new) (ack_text ack)) }
    ensures begun { OnErr result ((part : List ℕ) × (rest : List ℕ) × (ack_text ack ≡ part ++ rest) × Appends (O.contents to.old) (O.contents to.new) part × (¬ IsErrOf result Closed → part ≡ [])) }
    ensures emptied { OnOk result (out.new.items ≡ []) }
    ensures cause { IfErr result (λ end. (end ≡ Closed) ⊎ (end ≡ Refused Memory)) }
{
    put_ack(ack, out)?;
    match write_put(to, out) {
        Ok(()) => Ok(()),
        Err(_) => Err(LinkError::Closed),
    }
}

/// Puts an acknowledgement last, or nothing where memory is refused.
#[tactic(auto, unfolding(crate::specs::Serving::ack_text))]
fn put_ack(ack: Ack, out: &mut Vec<u8>) -> Result<(), LinkError>
    ensures put { OnOk result (out.new.items ≡ out.old.items ++ ack_text ack) }
    ensures refused { OnErr result (out.new.items ≡ out.old.items) }
    ensures cause { IfErr result (λ end. end ≡ Refused Memory) }
{
    write_ack(ack, out)?;
    Ok(())
}
