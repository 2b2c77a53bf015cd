//! Laws of the definitions, each the contract of a function that does nothing.
ghost use Rattle.std.specs.Prelude.{◌≡◌, ℕ, List, None};
ghost use Rattle.std.specs.List.{AllByRecursion, flat_map};
ghost use Rattle.kv_types.specs.Keyspace.{IsKeyspace};
ghost use Rattle.mv_keyspace.specs.Table.{Table, records};
ghost use Rattle.redis_core.specs.Copying.{ArePartsOf, CopyOf, IsWithin};

/// A copy that is given from its first part to its last is all records as they were at its position, each once, in order. It has an end; each part has at
/// most so many bytes as puts of a frame, or one record; and the part of each number is the same whenever it is given, whatever was called between.
pub fn parts_are_the_copy()
    ensures whole { (bytes : ℕ) (copy : CopyOf) (parts : List Table) → IsKeyspace (records copy.rows) → copy.after ≡ None → ArePartsOf bytes copy parts
        → flat_map (λ part. part) parts ≡ copy.rows }
    ensures within { (bytes : ℕ) (copy : CopyOf) (parts : List Table) → ArePartsOf bytes copy parts → AllByRecursion (IsWithin bytes) parts }
    ensures ends { (bytes : ℕ) (copy : CopyOf) → IsKeyspace (records copy.rows) → (parts : List Table) × ArePartsOf bytes copy parts }
    ensures same { (bytes : ℕ) (copy : CopyOf) (parts others : List Table) → ArePartsOf bytes copy parts → ArePartsOf bytes copy others → parts ≡ others }
{}
