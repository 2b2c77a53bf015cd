//! What a command may read of a keyspace.
ghost use Rattle.std.specs.Prelude.{◌≡◌, ◌<◌, ◌^◌, length, IfOk};
ghost use Rattle.std.specs.Option.{option_copied};
ghost use Rattle.kv_types.specs.Keyspace.{Keyspace, value_at};
ghost use Rattle.kv_types.specs.declared.record_id.RecordId.TheVariants.{Str, Field};
ghost use Rattle.cmd_core.specs.Contents.{has_key, keys_of, fields_of};

use kv_types::{Field, Value};
use std::alloc::{AllocError, Global};

/// A keyspace that is read and not changed.
pub trait Lookup {
    ghost keyspace: { Self → Keyspace };

    /// The string at a key.
    fn string(&self, key: &[u8]) -> Option<&Value>
        ensures { option_copied result ≡ value_at (keyspace self.now) (Str key.now) };

    /// The value of a field of the hash at a key.
    fn field(&self, key: &[u8], field: &[u8]) -> Option<&Value>
        ensures { option_copied result ≡ value_at (keyspace self.now) (Field key.now field.now) };

    /// Whether there is a string or a hash at a key.
    fn has(&self, key: &[u8]) -> bool
        ensures { result ≡ has_key (keyspace self.now) key.now };

    /// How many keys there are.
    fn count_keys(&self) -> u64
        ensures value { result ≡ length (keys_of (keyspace self.now)) }
        ensures bound { result < 2 ^ 63 };

    /// How many fields the hash at a key has; 0 where there is none.
    fn count_fields(&self, key: &[u8]) -> u64
        ensures value { result ≡ length (fields_of (keyspace self.now) key.now) }
        ensures bound { result < 2 ^ 63 };

    /// The fields of the hash at a key with their values, which are shared, in ascending bytes of the field.
    fn fields(&self, alloc: Global, key: &[u8]) -> Result<Vec<(Field, Value)>, AllocError>
        ensures { IfOk result (λ fields. fields.items ≡ fields_of (keyspace self.now) key.now) };
}
