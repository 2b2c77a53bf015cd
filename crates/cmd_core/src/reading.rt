//! What a key holds, where the command asks for one kind.
ghost use Rattle.std.specs.Prelude.{◌≡◌, Ok, Err};
ghost use Rattle.cmd_core.specs.Contents as spec;
ghost use Rattle.cmd_core.specs.Contents.{string_now};

use crate::error::CommandError;
use crate::lookup::Lookup;
use kv_types::Value;

/// The string at a key, or none where the key is absent. A hash is of the wrong type.
pub fn string_at<'a, L: Lookup>(
    lookup: &'a L,
    key: &[u8],
) -> Result<Option<&'a Value>, CommandError>
    ensures { string_now result ≡ spec.string_at (L.keyspace lookup.now) key.now }
{
    match lookup.string(key) {
        Some(value) => Ok(Some(value)),
        None => if lookup.has(key) {
            Err(CommandError::WrongType)
        } else {
            Ok(None)
        },
    }
}

/// Whether a hash command may look at a key: it is absent or a hash. A string is of the wrong type.
pub fn check_hash<L: Lookup>(lookup: &L, key: &[u8]) -> Result<(), CommandError>
    ensures { result ≡ spec.check_hash (L.keyspace lookup.now) key.now }
{
    match lookup.string(key) {
        Some(_) => Err(CommandError::WrongType),
        None => Ok(()),
    }
}
