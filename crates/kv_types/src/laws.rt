//! Laws of the definitions, each the contract of a function that does nothing.
ghost use Rattle.std.specs.Prelude.{◌≡◌, ◌↔◌, ℕ, List, [], ◌∷◌, ◌++◌, length, flat_map, Some, Contains, IsTrue};
ghost use Rattle.std.specs.Str.{str_to_ascii_lowercase};
ghost use Rattle.kv_types.specs.declared.change.Change.{Change};
ghost use Rattle.kv_types.specs.declared.command_name.CommandName.{CommandName};
ghost use Rattle.kv_types.specs.declared.command_name.TheConstants.{COMMANDS};
ghost use Rattle.kv_types.specs.declared.record_id.RecordId.{RecordId};
ghost use Rattle.kv_types.specs.declared.reply.Reply.{Reply, Array};
ghost use Rattle.kv_types.specs.CommandName.{text, is_named, find};
ghost use Rattle.kv_types.specs.Keyspace.{Keyspace, IsKeyspace, value_at, play, play_all};
ghost use Rattle.kv_types.specs.LookUp.{IsLookedUpAfter};
ghost use Rattle.kv_types.specs.Reply.{text_of};
ghost use Rattle.kv_types.specs.Request.{number_line};

/// Playing changes in two parts is the same as playing them at once.
pub fn play_in_two_parts()
    ensures { (s : Keyspace) (first second : List Change) → play_all s (first ++ second) ≡ play_all (play_all s first) second }
{}

/// The empty list is a keyspace, and playing one change or many on a keyspace leaves a keyspace.
pub fn keyspace_stays()
    ensures empty { IsKeyspace [] }
    ensures change { (s : Keyspace) (change : Change) → IsKeyspace s → IsKeyspace (play s change) }
    ensures changes { (s : Keyspace) (changes : List Change) → IsKeyspace s → IsKeyspace (play_all s changes) }
{}

/// What a look-up of any record finds after each change.
pub fn look_up_after_change()
    ensures { (s : Keyspace) (change : Change) → IsLookedUpAfter change s (play s change) }
{}

/// Two keyspaces in which every look-up finds the same are equal.
pub fn look_ups_tell_apart()
    ensures { (s t : Keyspace) → IsKeyspace s → IsKeyspace t → ((id : RecordId) → value_at s id ≡ value_at t id) → s ≡ t }
{}

/// A keyspace contains a record with a value exactly when the look-up of the record finds that value.
pub fn records_are_found()
    ensures { (s : Keyspace) (id : RecordId) (value : List ℕ) → IsKeyspace s → (value_at s id ≡ Some value) ↔ Contains s (id, value) }
{}

/// The text of an array is `*`, the number of its replies, and their texts.
pub fn array_text()
    ensures { (replies : List Reply) → text_of (Array replies) ≡ 42 ∷ number_line (length replies) ++ flat_map text_of replies }
{}

/// A word that is the name of a command, in any ASCII case, finds this command: no command is left out, and no two have one name. And a word
/// that finds a command is its whole name.
pub fn commands_are_found()
    ensures found { (command : CommandName) (word : List ℕ) → IsTrue (is_named (text command) word) → find COMMANDS word ≡ Some command }
    ensures named { (command : CommandName) (word : List ℕ) → find COMMANDS word ≡ Some command → str_to_ascii_lowercase word ≡ text command }
{}
