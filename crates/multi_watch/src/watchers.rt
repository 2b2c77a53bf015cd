//! The sessions that watch each key.
ghost use Rattle.std.specs.Prelude.{◌≡◌, ◌≤◌, ◌&&◌, ℕ, false, not, nat_eq, List, length, is_some, IsTrue, IfOk, OnOk, OnErr};
ghost use Rattle.std.specs.List.{list_any};
ghost use Rattle.multi_watch.specs.Watchers.{watches, numbers_at, has_number, SaysSame, Adds, Removes, AddsAll, RemovesAll, EachWatched};
ghost use Rattle.kv_types.specs.declared.limits.TheConstants.{MAX_KEY_BYTES};
ghost use Rattle.cmd_core.specs.Contents.{same_bytes, has_key};

use crate::watches::Watches;
use cmd_core::Lookup;
use kv_types::Key;
use std::alloc::{AllocError, Global};
use std::collections::HashMap;
use std::hash::RandomState;

// For the bytes of each key, copied, the numbers of the sessions that watch it.
type Table = HashMap<Vec<u8>, Vec<usize>, RandomState>;

/// For each key that is watched, the numbers of the sessions that watch it.
#[derive(Drop)]
pub(crate) struct Watchers {
    table: Table,
    // A key that nobody watches takes no room.
    ghost each_watched: { EachWatched table.entries },
}

impl Watchers {
    /// No key is watched. It takes no memory.
    pub(crate) fn new(alloc: Global, hash_builder: RandomState) -> Watchers
        ensures { (key : List ℕ) (number : ℕ) → watches result.table.entries key number ≡ false }
    {
        Watchers {
            table: HashMap::with_hasher(alloc, hash_builder),
        }
    }

    /// The sessions that watch a key.
    pub(crate) fn of(&self, key: &Key) -> &[usize]
        ensures { (number : ℕ) → has_number number result.now ≡ watches self.now.table.entries key.now number }
    {
        // Where nothing is watched no key is hashed.
        if self.table.is_empty() {
            return &[];
        }
        match self.table.get(key.as_slice()) {
            Some(numbers) => numbers.as_slice(),
            None => &[],
        }
    }

    /// The watched keys that a keyspace holds.
    pub(crate) fn held_in<L: Lookup>(
        &self,
        alloc: Global,
        lookup: &L,
    ) -> Result<Vec<Key>, AllocError>
        ensures { IfOk result (λ keys. (own : List ℕ) → list_any (λ key. same_bytes own key) keys.items ≡ (is_some (numbers_at self.now.table.entries own) && has_key (L.keyspace lookup.now) own)) }
    {
        let mut held = Vec::new(alloc);
        for key in self.table.keys() {
            if lookup.has(key.as_slice()) {
                held.push(key_of(alloc, key)?)?;
            }
        }
        Ok(held)
    }

    /// Adds a session to those that watch a key. Where memory is refused, nothing changes.
    pub(crate) fn add(&mut self, alloc: Global, key: &[u8], number: usize) -> Result<(), AllocError>
        requires { length key.now ≤ MAX_KEY_BYTES }
        ensures ok { OnOk result (Adds self.old.table.entries key.now number self.new.table.entries) }
        ensures err { OnErr result (SaysSame self.old.table.entries self.new.table.entries) }
    {
        if let Some(numbers) = self.table.get_mut(key) {
            numbers.push(number)?;
            return Ok(());
        }
        let numbers = vec![in alloc; number]?;
        self.table.insert(key.to_vec(alloc)?, numbers)?;
        Ok(())
    }

    /// Removes a session from those that watch a key. It takes no memory.
    pub(crate) fn remove(&mut self, key: &[u8], number: usize)
        ensures { Removes self.old.table.entries key.now number self.new.table.entries }
    {
        remove_from(&mut self.table, key, number);
    }

    /// Adds a session to those that watch each of the keys, which it does not watch yet. Where memory is refused, it watches none of them.
    pub(crate) fn add_all(
        &mut self,
        alloc: Global,
        watched: &Watches,
        number: usize,
    ) -> Result<(), AllocError>
        ensures ok { OnOk result (AddsAll self.old.table.entries watched.now number self.new.table.entries) }
        ensures err { OnErr result (RemovesAll self.old.table.entries watched.now number self.new.table.entries) }
    {
        for key in watched.keys() {
            if let Err(refused) = self.add(alloc, key, number) {
                self.remove_all(watched, number);
                return Err(refused);
            }
        }
        Ok(())
    }

    /// Removes a session from those that watch each of the keys. It takes no memory.
    pub(crate) fn remove_all(&mut self, watched: &Watches, number: usize)
        ensures { RemovesAll self.old.table.entries watched.now number self.new.table.entries }
    {
        for key in watched.keys() {
            self.remove(key, number);
        }
    }
}

/// Removes a session from those that watch a key, and the key where it was the last.
fn remove_from(table: &mut Table, key: &[u8], number: usize)
    requires { EachWatched table.old.entries }
    ensures removed { Removes table.old.entries key.now number table.new.entries }
    ensures watched { EachWatched table.new.entries }
{
    if take_out(table, key, number) {
        table.remove(key);
    }
}

/// Takes a session out of the list of a key, and returns whether the list is left empty.
fn take_out(table: &mut Table, key: &[u8], number: usize) -> bool
    requires { EachWatched table.old.entries }
    ensures removed { Removes table.old.entries key.now number table.new.entries }
    ensures empty { IsTrue result → (n : ℕ) → watches table.new.entries key.now n ≡ false }
    ensures others { (other : List ℕ) → same_bytes key.now other ≡ false → numbers_at table.new.entries other ≡ numbers_at table.old.entries other }
    ensures watched { result ≡ false → EachWatched table.new.entries }
{
    let Some(numbers) = table.get_mut(key) else {
        return false;
    };
    remove_number(numbers, number);
    numbers.is_empty()
}

fn remove_number(numbers: &mut Vec<usize>, number: usize)
    ensures { (n : ℕ) → has_number n numbers.new.items ≡ (has_number n numbers.old.items && not (nat_eq number n)) }
{
    numbers.retain(|other| *other != number);
}

/// The key of these bytes, which are copied.
fn key_of(alloc: Global, bytes: &[u8]) -> Result<Key, AllocError>
    requires { length bytes.now ≤ MAX_KEY_BYTES }
    ensures { IfOk result (λ key. key ≡ bytes.now) }
{
    Key::new(alloc, bytes)
}
