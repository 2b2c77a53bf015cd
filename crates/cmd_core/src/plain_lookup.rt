//! The plain, slow keyspace as a command reads it: each call goes through all records.
use crate::lookup::Lookup;
use crate::record::{count_fields_in, count_keys_in, field_in, fields_in, has_in, string_in};
use kv_types::{Field, PlainKeyspace, Value};
use std::alloc::{AllocError, Global};

impl Lookup for PlainKeyspace {
    ghost keyspace = { λ keyspace. keyspace };

    fn string(&self, key: &[u8]) -> Option<&Value> {
        string_in(self.records(), key)
    }

    fn field(&self, key: &[u8], field: &[u8]) -> Option<&Value> {
        field_in(self.records(), key, field)
    }

    fn has(&self, key: &[u8]) -> bool {
        has_in(self.records(), key)
    }

    fn count_keys(&self) -> u64 {
        count_keys_in(self.records())
    }

    fn count_fields(&self, key: &[u8]) -> u64 {
        count_fields_in(self.records(), key)
    }

    fn fields(&self, alloc: Global, key: &[u8]) -> Result<Vec<(Field, Value)>, AllocError> {
        fields_in(alloc, self.records(), key)
    }
}
