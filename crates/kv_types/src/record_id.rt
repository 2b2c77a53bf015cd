//! The name of a record: a string's key, or a key and a field of a hash.
use crate::bounded::{Field, Key};
use std::alloc::AllocError;
use std::cmp::Ordering;

/// The name of one record of the keyspace: a string, or one field of a hash.
///
/// The order is by key, then a string before fields, then by field, each by its bytes.
#[derive(Debug, Drop)]
pub enum RecordId {
    Str(Key),
    Field(Key, Field),
}

impl RecordId {
    ghost use Rattle.std.specs.Prelude.{◌≡◌};
    ghost use Rattle.std.specs.Option.{option_copied};
    ghost use Rattle.std.specs.Ordering.{eq_by_cmp};
    ghost use Rattle.kv_types.specs.Keyspace.{key_of, field_of, record_cmp};

    /// The key of the record.
    pub fn key(&self) -> &Key
        ensures { result.now ≡ key_of self.now }
    {
        match self {
            RecordId::Str(key) => key,
            RecordId::Field(key, _) => key,
        }
    }

    /// Whether the record is the string of this key.
    pub(crate) fn is_string_at(&self, key: &Key) -> bool
        ensures { result ≡ eq_by_cmp record_cmp self.now (Self.Str key.now) }
    {
        match self {
            RecordId::Str(own) => *own == *key,
            RecordId::Field(..) => false,
        }
    }

    /// The field of the record, or `None` for a string.
    pub fn field(&self) -> Option<&Field>
        ensures { option_copied result ≡ field_of self.now }
    {
        match self {
            RecordId::Str(_) => None,
            RecordId::Field(_, field) => Some(field),
        }
    }
}

impl Clone for RecordId {
    ghost use Rattle.std.specs.Prelude.{◌≡◌};

    ghost is_clone = { λ id copy. copy ≡ id };

    fn clone(&self) -> Result<RecordId, AllocError> {
        Ok(match self {
            RecordId::Str(key) => RecordId::Str(key.clone()?),
            RecordId::Field(key, field) => RecordId::Field(key.clone()?, field.clone()?),
        })
    }
}

impl PartialEq for RecordId {
    ghost use Rattle.std.specs.Ordering.{eq_by_cmp};
    ghost use Rattle.std.specs.Cmp.{eq_by_cmp_equiv, partial_equiv_from_equiv};
    ghost use Rattle.kv_types.specs.Keyspace.{record_cmp};
    ghost use Rattle.kv_types.specs.Order.{record_cmp_total};

    ghost eq = { eq_by_cmp record_cmp };

    ghost laws = { partial_equiv_from_equiv (eq_by_cmp_equiv record_cmp_total) };

    fn eq(&self, other: &RecordId) -> bool {
        self.cmp(other).is_eq()
    }
}

impl Eq for RecordId {
    ghost use Rattle.std.specs.Cmp.{eq_by_cmp_equiv};
    ghost use Rattle.kv_types.specs.Order.{record_cmp_total};

    ghost laws = { eq_by_cmp_equiv record_cmp_total };
}

impl PartialOrd for RecordId {
    ghost use Rattle.std.specs.Prelude.{Some};
    ghost use Rattle.std.specs.Cmp.{partial_order_from_total};
    ghost use Rattle.kv_types.specs.Keyspace.{record_cmp};
    ghost use Rattle.kv_types.specs.Order.{record_cmp_total};

    ghost partial_cmp = { λ x y. Some (record_cmp x y) };

    ghost laws = { partial_order_from_total record_cmp_total };

    fn partial_cmp(&self, other: &RecordId) -> Option<Ordering> {
        Some(self.cmp(other))
    }
}

impl Ord for RecordId {
    ghost use Rattle.std.specs.Prelude.{refl};
    ghost use Rattle.kv_types.specs.Keyspace.{record_cmp};
    ghost use Rattle.kv_types.specs.Order.{record_cmp_total};

    ghost cmp = { record_cmp };

    ghost total = { record_cmp_total };

    ghost matches_partial_cmp = { λ x y. refl };

    ghost matches_eq = { λ x y. refl };

    fn cmp(&self, other: &RecordId) -> Ordering {
        match self.key().cmp(other.key()) {
            Ordering::Equal => self.field().cmp(&other.field()),
            order => order,
        }
    }
}
