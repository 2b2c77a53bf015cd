//! A standby's link from the frame on that comes next.
ghost use Rattle.std.specs.Prelude.{◌≡◌, ℕ, List, [], OnOk, OnErr, Option, IsErrOf};
ghost use Rattle.kv_types.specs.declared.refusal.Refusal.TheVariants.{Fault};
ghost use Rattle.placing.specs.Fill.{fill_of};
ghost use Rattle.standby.specs.Taking.{Stands};
ghost use Rattle.links.specs.Continuing.{HasSaidOn, ServedOn};
ghost use Rattle.links.specs.Copying.{wire};
ghost use Rattle.links.specs.Serving.{held};
ghost use Rattle.node_log.specs.declared.link_error.LinkError.TheVariants.{Closed, Stops};

use crate::following::{BLOCK_BYTES, Came, answer_piece, read_piece, tidy};
use crate::reading::new_block;
use mv_keyspace::Keyspace;
use node_log::{FillSetter, LinkError};
use standby::Standby;
use std::alloc::Global;
use std::io::{Read, Write};
use stream_codec::Decoder;
use wbl_engine::Durable;

/// Serves on a link over which the node got its copy, as `serve_link` does behind its first acknowledgement. The decoder holds what came behind the copy.
///
/// # Errors
///
/// As at `serve_link`.
pub(crate) fn serve_on<E: Durable, K: Keyspace, I: Read, O: Write>(
    alloc: Global,
    node: &mut Standby<E, K>,
    decoder: Decoder,
    from: &mut I,
    to: &mut O,
    shown: &mut FillSetter,
) -> Result<(), LinkError>
    requires stands { Stands E.device E.contents E.is_faulted K.table node.old }
    ensures stands { ¬ IsErrOf result (Stops Fault) → Stands E.device E.contents E.is_faulted K.table node.new }
    ensures served { OnOk result ((unread : Option (List ℕ)) × ServedOn decoder (held (E.contents node.old.engine) (K.table node.old.keyspace)) (wire (I.remaining from.old) (O.contents to.old))
        (held (E.contents node.new.engine) (K.table node.new.keyspace)) (wire (I.remaining from.new) (O.contents to.new)) unread) }
    ensures said { OnErr result ((part : List ℕ) × HasSaidOn decoder (held (E.contents node.old.engine) (K.table node.old.keyspace)) (wire (I.remaining from.old) (O.contents to.old))
        (held (E.contents node.new.engine) (K.table node.new.keyspace)) (wire (I.remaining from.new) (O.contents to.new)) part × (¬ IsErrOf result Closed → part ≡ [])) }
    ensures shown { OnOk result (shown.new ≡ fill_of (K.table node.new.keyspace) node.new.heap) }
{
    let mut block = new_block(alloc, BLOCK_BYTES)?;
    let mut out = Vec::new(alloc);
    answer_from(alloc, node, decoder, from, to, shown, &mut block, &mut out)
}

/// Answers the frames that come, until the primary closes the connection, and what this decoder holds of the first one.
///
/// # Errors
///
/// As at `serve_link`.
pub(crate) fn answer_from<E: Durable, K: Keyspace, I: Read, O: Write>(
    alloc: Global,
    node: &mut Standby<E, K>,
    decoder: Decoder,
    from: &mut I,
    to: &mut O,
    shown: &mut FillSetter,
    block: &mut Vec<u8>,
    out: &mut Vec<u8>,
) -> Result<(), LinkError>
    requires stands { Stands E.device E.contents E.is_faulted K.table node.old }
    requires empty { out.old.items ≡ [] }
    ensures stands { ¬ IsErrOf result (Stops Fault) → Stands E.device E.contents E.is_faulted K.table node.new }
    ensures served { OnOk result ((unread : Option (List ℕ)) × ServedOn decoder (held (E.contents node.old.engine) (K.table node.old.keyspace)) (wire (I.remaining from.old) (O.contents to.old))
        (held (E.contents node.new.engine) (K.table node.new.keyspace)) (wire (I.remaining from.new) (O.contents to.new)) unread) }
    ensures said { OnErr result ((part : List ℕ) × HasSaidOn decoder (held (E.contents node.old.engine) (K.table node.old.keyspace)) (wire (I.remaining from.old) (O.contents to.old))
        (held (E.contents node.new.engine) (K.table node.new.keyspace)) (wire (I.remaining from.new) (O.contents to.new)) part × (¬ IsErrOf result Closed → part ≡ [])) }
    ensures shown { OnOk result (shown.new ≡ fill_of (K.table node.new.keyspace) node.new.heap) }
{
    let mut decoder = decoder;
    shown.show(&node.fill());
    for _ in 0..u64::MAX {
        let piece = match read_piece(from, block)? {
            Came::Piece(piece) => piece,
            Came::Nothing => {
                tidy(alloc, node)?;
                shown.show(&node.fill());
                continue;
            }
            Came::End => return Ok(()),
        };
        answer_piece(alloc, node, &mut decoder, piece, out, to)?;
        shown.show(&node.fill());
    }
    Ok(())
}
