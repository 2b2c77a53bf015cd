//! What a primary holds beside its engine, made of the versions of an image.
ghost use Rattle.std.specs.Prelude.{◌≡◌, ◌<◌, ◌≤◌, [], length, IfOk, IfErr};
ghost use Rattle.cmd_core.specs.Contents.{keys_of};
ghost use Rattle.model.specs.declared.image.TheConstants.{COUNTER_LIMIT};
ghost use Rattle.model.specs.Group.{Contents};
ghost use Rattle.mv_keyspace.specs.Row.{numbers_of};
ghost use Rattle.mv_keyspace.specs.Table.{records};
ghost use Rattle.placing.specs.Read.{AreOf};
ghost use Rattle.placing.specs.Rebuilt.{AreEndedOf, IsRebuilt};
ghost use Rattle.standby_stream.specs.Delta.{AreIdsEnded, IsOpening};
ghost use Rattle.primary.specs.Resuming.{IsOver};

use kv_types::{RecordId, Refusal};
use model::Layout;
use mv_keyspace::Keyspace;
use placing::{Rebuilt, rebuild};
use redis_core::Sequencer;
use standby_stream::{Opening, records_ended};
use std::alloc::Global;
use std::hash::RandomState;
use wbl_engine::Versions;

/// What a primary holds beside its engine, once its image is opened again.
#[derive(Drop)]
pub(crate) struct Resumed<K: Keyspace> {
    /// The list of calls, at the engine's position. No seat is open, and nothing waits.
    pub(crate) sequencer: Sequencer<K>,
    /// What a standby is told that is behind that position.
    pub(crate) opening: Opening,
    /// How many keys there are.
    pub(crate) keys: u64,
}

/// What a primary holds beside its engine, made of the versions that were read of its image; `layout` and `lines` are the image's, `at` the position and the
/// epoch of its record, and `floor` that record's floor. Only `Memory`.
pub(crate) fn resume<K: Keyspace + Drop>(
    alloc: Global,
    layout: Layout,
    lines: u64,
    versions: Versions,
    at: (u64, u64),
    floor: u64,
    hash_builder: RandomState,
) -> Result<Resumed<K>, Refusal>
    requires read { (contents : Contents) × (contents.current.layout ≡ layout) × (contents.lines ≡ lines) × (contents.current.position ≡ at.0)
        × AreOf contents versions.counted.items versions.gapped.items }
    requires counted { at.0 < COUNTER_LIMIT }
    ensures sequencer { IfOk result (λ resumed. (contents : Contents) → contents.current.layout ≡ layout → contents.lines ≡ lines → contents.current.position ≡ at.0
        → contents.current.epoch ≡ at.1 → AreOf contents versions.counted.items versions.gapped.items → IsOver contents resumed.sequencer) }
    ensures opening { IfOk result (λ resumed. (resumed.opening.position ≡ at.0) × ((contents : Contents) → contents.current.layout ≡ layout → contents.lines ≡ lines
        → AreOf contents versions.counted.items versions.gapped.items → IsOpening contents resumed.opening)) }
    ensures floor { IfOk result (λ resumed. resumed.opening.floor ≡ floor) }
    ensures keys { IfOk result (λ resumed. resumed.keys ≡ length (keys_of (records (resumed.sequencer).table))) }
    ensures cause { IfErr result (λ refusal. refusal ≡ Refusal.Memory) }
{
    let (keyspace, room, ended): (K, Rebuilt, Vec<RecordId>) = read_versions(
        alloc, layout, lines, versions,
    )?;
    start(alloc, keyspace, room, ended, at, floor, hash_builder)
}

/// Makes a keyspace, a heap and the records with versions that have ended of the versions that were read of an image of this layout and `lines` lines. Only `Memory`.
fn read_versions<K: Keyspace + Drop>(
    alloc: Global,
    layout: Layout,
    lines: u64,
    versions: Versions,
) -> Result<(K, Rebuilt, Vec<RecordId>), Refusal>
    requires read { (contents : Contents) × (contents.current.layout ≡ layout) × (contents.lines ≡ lines) × AreOf contents versions.counted.items versions.gapped.items }
    ensures rebuilt { IfOk result (λ made. (contents : Contents) → contents.current.layout ≡ layout → contents.lines ≡ lines
        → AreOf contents versions.counted.items versions.gapped.items → IsRebuilt contents (K.table made.0) made.1.heap × AreEndedOf contents (numbers_of made.1.ended.items)) }
    ensures unpinned { IfOk result (λ made. K.pins made.0 ≡ []) }
    ensures last { IfOk result (λ made. (contents : Contents) → contents.current.layout ≡ layout → contents.lines ≡ lines
        → AreOf contents versions.counted.items versions.gapped.items → K.last made.0 ≤ contents.current.position) }
    ensures ids { IfOk result (λ made. (contents : Contents) → AreOf contents versions.counted.items versions.gapped.items → AreIdsEnded contents made.2.items) }
    ensures cause { IfErr result (λ refusal. refusal ≡ Refusal.Memory) }
{
    let ended = records_ended(alloc, &versions.counted)?;
    let mut keyspace = K::empty(alloc);
    let room = rebuild(
        alloc,
        &mut keyspace,
        layout,
        lines,
        versions.counted,
        &versions.gapped,
    )?;
    Ok((keyspace, room, ended))
}

/// What a primary holds beside its engine, over this keyspace and this room; `ended` are the records that have versions which ended, `at` is the position and
/// the epoch of the engine's record, and `floor` that record's floor. Nothing of the keyspace is pinned, and it changed last at that position or before.
/// Only `Memory`.
fn start<K: Keyspace + Drop>(
    alloc: Global,
    keyspace: K,
    room: Rebuilt,
    ended: Vec<RecordId>,
    at: (u64, u64),
    floor: u64,
    hash_builder: RandomState,
) -> Result<Resumed<K>, Refusal>
    requires rebuilt { (contents : Contents) × (contents.current.position ≡ at.0) × IsRebuilt contents (K.table keyspace) room.heap
        × AreEndedOf contents (numbers_of room.ended.items) × AreIdsEnded contents ended.items }
    requires counted { at.0 < COUNTER_LIMIT }
    requires unpinned { K.pins keyspace ≡ [] }
    requires last { K.last keyspace ≤ at.0 }
    ensures sequencer { IfOk result (λ resumed. (contents : Contents) → contents.current.position ≡ at.0 → contents.current.epoch ≡ at.1
        → IsRebuilt contents (K.table keyspace) room.heap → AreEndedOf contents (numbers_of room.ended.items) → IsOver contents resumed.sequencer) }
    ensures opening { IfOk result (λ resumed. (resumed.opening.position ≡ at.0) × ((contents : Contents) → IsRebuilt contents (K.table keyspace) room.heap
        → AreIdsEnded contents ended.items → IsOpening contents resumed.opening)) }
    ensures floor { IfOk result (λ resumed. resumed.opening.floor ≡ floor) }
    ensures keys { IfOk result (λ resumed. resumed.keys ≡ length (keys_of (records (resumed.sequencer).table))) }
    ensures cause { IfErr result (λ refusal. refusal ≡ Refusal.Memory) }
{
    let opening = Opening::new(alloc, &keyspace, ended, at.0, floor)?;
    let keys = keyspace.count_keys();
    Ok(Resumed {
        sequencer: Sequencer::new(alloc, keyspace, room, at.0, at.1, hash_builder)?,
        opening,
        keys,
    })
}
