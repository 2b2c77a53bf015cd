//! Laws of sessions, each the contract of a function that does nothing.
ghost use Rattle.std.specs.Prelude.{◌≡◌, ◌≢◌, ℕ, false, List};
ghost use Rattle.kv_types.specs.declared.change.Change.{Change};
ghost use Rattle.kv_types.specs.declared.record_id.RecordId.{RecordId};
ghost use Rattle.kv_types.specs.Keyspace.{Keyspace, key_of, value_at, play_all};
ghost use Rattle.multi_watch.specs.Session.{Session, modified};
ghost use Rattle.multi_watch.specs.Modified.{modifies};
ghost use Rattle.multi_watch.specs.Admission.{admit, RunAll};
ghost use Rattle.multi_watch.specs.Run.{Event, after_events, WatchesThrough};

/// A key that was modified while a session watched it keeps the session from running its transaction, whatever it asks and whatever
/// else is modified, for as long as it watches the key.
pub fn a_modified_key_stops_exec()
    ensures { (key : List ℕ) (session : Session) (events : List Event) (words : List (List ℕ)) (requests : List (List (List ℕ))) → WatchesThrough key (modified key session) events → admit (after_events (modified key session) events) words ≢ RunAll requests }
{}

/// A key that changes do not modify holds afterwards what it held before.
pub fn a_key_that_is_not_modified_stays()
    ensures { (s : Keyspace) (changes : List Change) (id : RecordId) → modifies s changes (key_of id) ≡ false → value_at (play_all s changes) id ≡ value_at s id }
{}
