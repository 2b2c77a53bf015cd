//! The keys that one connection watches.
ghost use Rattle.std.specs.Prelude.{◌≡◌, ◌≤◌, false, [], ◌∷◌, ◌++◌, ℕ, List, length, map, OnOk, OnErr};
ghost use Rattle.std.specs.List.{list_any};
ghost use Rattle.kv_types.specs.declared.limits.TheConstants.{MAX_KEY_BYTES};
ghost use Rattle.multi_watch.specs.Session.{is_watched, marked, unmodified};
ghost use Rattle.multi_watch.specs.Watches.{AreShort, is_key_in};

use indexmap::IndexMap;
use indexmap::map::Keys;
use std::alloc::{AllocError, Global};
use std::hash::RandomState;
use std::marker::Model;

/// The keys that one connection watches, in the order of first naming. A clause sees a `Watch` of each.
#[derive(Drop)]
pub(crate) struct Watches {
    // The bytes of each key, copied, and whether a call has modified the key since it was watched.
    marks: IndexMap<Vec<u8>, bool, RandomState>,
}

impl Model for Watches {
    ghost use Rattle.std.specs.Prelude.{List};
    ghost use Rattle.multi_watch.specs.declared.watch.Watch.{Watch};
    ghost use Rattle.multi_watch.specs.Watches.{keys_of, watches_of, AreShort};

    ghost Value = { List Watch };

    ghost view = { λ w. watches_of w.marks.entries };

    ghost invariant = { λ w. AreShort (keys_of w.marks.entries) };
}

impl Watches {
    /// No key is watched. It takes no memory.
    pub(crate) fn new(alloc: Global, hash_builder: RandomState) -> Watches
        ensures { result ≡ [] }
    {
        Watches {
            marks: IndexMap::with_hasher(alloc, hash_builder),
        }
    }

    /// What the keys are hashed with.
    pub(crate) fn hash_builder(&self) -> RandomState {
        *self.marks.hasher()
    }

    /// Whether a key is watched.
    pub(crate) fn has(&self, key: &[u8]) -> bool
        ensures { result ≡ is_watched key.now self.now }
    {
        self.marks.contains_key(key)
    }

    /// The watched keys.
    pub(crate) fn keys(&self) -> Keys<'_, Vec<u8>, bool>
        ensures watched { (own : List ℕ) → is_key_in own result ≡ is_watched own self.now }
        ensures short { AreShort result }
    {
        self.marks.keys()
    }

    /// Whether some watched key was modified.
    pub(crate) fn has_modified(&self) -> bool
        ensures { result ≡ list_any (λ watch. watch.is_modified) self.now }
    {
        for is_modified in self.marks.values() {
            if *is_modified {
                return true;
            }
        }
        false
    }

    /// Marks a key, if it is watched. It takes no memory.
    pub(crate) fn mark(&mut self, key: &[u8])
        ensures { self.new ≡ map (marked key.now) self.old }
    {
        let Some(is_modified) = self.marks.get_mut(key) else {
            return;
        };
        *is_modified = true;
    }

    /// Watches a key that is not watched yet. Its bytes are copied. Where memory is refused, nothing changes.
    pub(crate) fn add(&mut self, alloc: Global, key: &[u8]) -> Result<(), AllocError>
        requires short { length key.now ≤ MAX_KEY_BYTES }
        requires new { is_watched key.now self.old ≡ false }
        ensures ok { OnOk result (self.new ≡ self.old ++ unmodified key.now ∷ []) }
        ensures err { OnErr result (self.new ≡ self.old) }
    {
        self.marks.insert(key.to_vec(alloc)?, false)?;
        Ok(())
    }

    /// Watches more keys, none of which is watched yet. Where memory is refused, nothing changes.
    pub(crate) fn append(&mut self, more: &mut Watches) -> Result<(), AllocError>
        requires new { list_any (λ watch. is_watched watch.key self.old) more.old ≡ false }
        ensures ok { OnOk result (self.new ≡ self.old ++ more.old) }
        ensures err { OnErr result ((self.new ≡ self.old) × (more.new ≡ more.old)) }
    {
        // A map's length comes with the fact that its keys differ.
        let _count = more.marks.len();
        self.marks.append(&mut more.marks)
    }
}
