//! Laws of the definitions, each the contract of a function that does nothing.
ghost use Rattle.std.specs.Prelude.{◌≡◌, ◌≢◌, ℕ, ◌+◌, ◌-◌, ◌*◌, ◌/◌, ◌<◌, ◌≤◌, ◌⊎◌, min, true, false, if◌then◌else◌, List, [], ◌∷◌, ◌++◌, length, Option, None};
ghost use Rattle.kv_types.specs.declared.item.Item.TheVariants.{Request};
ghost use Rattle.kv_types.specs.declared.reply.Reply.{Reply, Error, Array};
ghost use Rattle.kv_types.specs.Keyspace.{Keyspace, IsKeyspace, play_all};
ghost use Rattle.kv_types.specs.Change.{changes_size};
ghost use Rattle.model.specs.declared.call.Call.{Call};
ghost use Rattle.model.specs.declared.group.Group.{Group};
ghost use Rattle.model.specs.declared.record.Record.{Record};
ghost use Rattle.multi_watch.specs.Session.{idle_session, modified_where};
ghost use Rattle.multi_watch.specs.Admission.{RunAll, session_after_request, session_after_refusal};
ghost use Rattle.multi_watch.specs.Modified.{modifies};
ghost use Rattle.model.specs.Command.{closes};
ghost use Rattle.model.specs.State.{State};
ghost use Rattle.model.specs.Call.{MayReply, MayAnswer, admission_at, memory_reply, replies_in, all_made, changes_for, changes_of, is_memory, after_call, is_changing, AreAlike};
ghost use Rattle.model.specs.Call.{IsLegal, state_after, keyspace_after, position_of, cut_at, items_of, IsPrefix};
ghost use Rattle.model.specs.Position.{changes_at, changes_since};
ghost use Rattle.model.specs.declared.layout.Layout.{Layout};
ghost use Rattle.model.specs.declared.layout.Layout.TheVariants.{Version1, Version2, Halfway};
ghost use Rattle.model.specs.Layout.{first_word, version, directory_room, entries_of_lines, entry_line, directory_end, first_extent_line, root_word, slot_line, slot_lines, slots_end, max_gaps, role_word};
ghost use Rattle.model.specs.Image.{Image, Version, IsMapOf, map_below, Holds};
ghost use Rattle.model.specs.Group.{Contents, IsGroup, IsConsistent, after_group, changes_of_group, entries_of};
ghost use Rattle.model.specs.Standing.{Holder, StandsAt};

use crate::call::MAX_CHANGE_TEXT_BYTES;
use crate::group::MAX_PARTS;
use crate::image::MIN_LINES;
use crate::layout::SUPERBLOCK_WORDS;
use crate::record::MAX_GAPS;

/// Where the parts of an image of 4,096 lines lie by each layout: the first of its entries, the slots of records 2 and 3, and the extents; and how many entries
/// there are, and which word of a record is its role. A record fills its slot. In any image an entry is in the directory, the root is behind the words that say
/// what the image is, and the slots are before the extents; and where there are 144 lines or more, the slots of version 2 lie between its directory and its
/// extents. Halfway, the root and the record are where they are in version 1, and the entries are those of version 2.
pub fn layouts_place_the_parts()
    ensures version_1 { (entries_of_lines Version1 4096 ≡ 512) × (entry_line 0 ≡ 8) × (slot_line Version1 4096 2 ≡ 1) × (slot_line Version1 4096 3 ≡ 4)
        × (slots_end Version1 4096 ≡ 7) × (first_extent_line 4096 ≡ 520) × (role_word Version1 ≡ 22) }
    ensures version_2 { (entries_of_lines Version2 4096 ≡ 494) × (entry_line 0 ≡ 8) × (slot_line Version2 4096 2 ≡ 502) × (slot_line Version2 4096 3 ≡ 511)
        × (slots_end Version2 4096 ≡ 520) × (first_extent_line 4096 ≡ 520) × (role_word Version2 ≡ 70) }
    ensures halfway { (version Halfway ≡ 3) × (root_word Halfway ≡ root_word Version1) × (max_gaps Halfway ≡ max_gaps Version1)
        × (role_word Halfway ≡ role_word Version1) × ((lines n : ℕ) → slot_line Halfway lines n ≡ slot_line Version1 lines n) }
    ensures records { (layout : Layout) → (role_word layout + 2 ≡ first_word (slot_lines layout)) × (max_gaps layout ≤ MAX_GAPS) }
    ensures versions { (layout other : Layout) → version layout ≡ version other → layout ≡ other }
    ensures entries { (lines : ℕ) → (entries_of_lines Version1 lines ≡ lines / 8) × (entries_of_lines Version2 lines ≡ lines / 8 - 18)
        × (entries_of_lines Halfway lines ≡ lines / 8 - 18) }
    ensures fit { (layout : Layout) (lines : ℕ) → entries_of_lines layout lines ≤ directory_room lines }
    ensures root { (layout : Layout) → (SUPERBLOCK_WORDS ≤ root_word layout) × (root_word layout < first_word 1) }
    ensures slots { (layout : Layout) (lines : ℕ) → MIN_LINES ≤ lines → slots_end layout lines ≤ first_extent_line lines }
    ensures behind { (lines : ℕ) → 18 ≤ lines / 8 → (slot_line Version2 lines 0 ≡ directory_end Version2 lines)
        × (slots_end Version2 lines ≡ first_extent_line lines) }
{}

/// A list with one more call: it is legal where the call's reply may be given at its end, its state is that after the call, its keyspace the one
/// that the call's changes lead to, and its position is higher by one exactly where there are any. A prefix of a legal list is legal.
pub fn list_grows()
    ensures legal { (calls : List Call) (call : Call) → IsLegal calls → MayReply (state_after calls) call → IsLegal (calls ++ call ∷ []) }
    ensures prefix { (prefix rest : List Call) → IsLegal (prefix ++ rest) → IsLegal prefix }
    ensures state { (calls : List Call) (call : Call) → state_after (calls ++ call ∷ []) ≡ after_call (state_after calls) call }
    ensures keyspace { (calls : List Call) (call : Call)
        → keyspace_after (calls ++ call ∷ []) ≡ play_all (keyspace_after calls) (changes_of (state_after calls) call) }
    ensures position { (calls : List Call) (call : Call)
        → position_of (calls ++ call ∷ []) ≡ position_of calls + (if is_changing (state_after calls) call then 1 else 0) }
{}

/// A call that is answered with an error changes nothing, and neither does one that the position does not count.
pub fn refused_calls_change_nothing()
    ensures error { (state : State) (call : Call) (text : List ℕ) → call.reply ≡ Error text → (after_call state call).keyspace ≡ state.keyspace }
    ensures uncounted { (state : State) (call : Call) → is_changing state call ≡ false → (after_call state call).keyspace ≡ state.keyspace }
{}

/// What a call may be answered, what it changes and how it leaves the session of its connection depend on the keyspace and on that session
/// alone: neither on the number that the connection has, nor on the other sessions.
pub fn calls_see_their_own_session()
    ensures reply { (s t : State) (a b : Call) → AreAlike s a t b → MayReply s a → MayReply t b }
    ensures changes { (s t : State) (a b : Call) → AreAlike s a t b → changes_of s a ≡ changes_of t b }
    ensures session { (s t : State) (a b : Call) → AreAlike s a t b → (after_call s a).sessions a.connection ≡ (after_call t b).sessions b.connection }
{}

/// Sessions are read off the list of calls. A connection that has made no call has an idle session. A call moves the session of its own connection:
/// as the request says, or, where memory was refused, as its refusal does; and one that closes the connection leaves nothing of it. In every session
/// the call marks the watched keys that it modified, and does nothing else to those of other connections.
pub fn sessions_are_read_off_the_list()
    ensures new { (calls : List Call) (connection : ℕ) → items_of connection calls ≡ [] → (state_after calls).sessions connection ≡ idle_session }
    ensures answered { (s : State) (call : Call) (words : List (List ℕ)) → call.item ≡ Request words → closes call.item ≡ false → is_memory call.reply ≡ false
        → (after_call s call).sessions call.connection ≡ modified_where (modifies s.keyspace (changes_of s call)) (session_after_request (s.sessions call.connection) words) }
    ensures refused { (s : State) (call : Call) (words : List (List ℕ)) → call.item ≡ Request words → closes call.item ≡ false → is_memory call.reply ≡ true
        → (after_call s call).sessions call.connection ≡ modified_where (modifies s.keyspace (changes_of s call)) (session_after_refusal (s.sessions call.connection) words) }
    ensures closed { (s : State) (call : Call) → closes call.item ≡ true → (after_call s call).sessions call.connection ≡ idle_session }
    ensures others { (s : State) (call : Call) (connection : ℕ) → call.connection ≢ connection
        → (after_call s call).sessions connection ≡ modified_where (modifies s.keyspace (changes_of s call)) (s.sessions connection) }
{}

/// A transaction that is run answers an array with one reply for each of its requests, or was refused memory for the array and changed nothing. What
/// its requests changed is what the one call changed.
pub fn transactions_answer_each_request()
    ensures each { (s : Keyspace) (requests : List (List (List ℕ))) (reply : Reply) → MayAnswer s (RunAll requests) reply
        → (reply ≡ memory_reply) ⊎ ((reply ≡ Array (replies_in reply)) × (length (replies_in reply) ≡ length requests)) }
    ensures refused { (s : Keyspace) (requests : List (List (List ℕ))) → changes_for s (RunAll requests) memory_reply ≡ [] }
    ensures changes { (s : State) (call : Call) (requests : List (List (List ℕ))) → admission_at s call.connection call.item ≡ RunAll requests
        → changes_of s call ≡ all_made s.keyspace requests (replies_in call.reply) }
{}

/// The cut at position `p` is the longest prefix of the list with at most `p` changing calls: it is such a prefix, and begins with every other.
pub fn cut_is_the_longest_prefix()
    ensures prefix { (calls : List Call) (p : ℕ) → IsPrefix (cut_at calls p) calls }
    ensures few { (calls : List Call) (p : ℕ) → position_of (cut_at calls p) ≤ p }
    ensures longest { (calls prefix : List Call) (p : ℕ) → IsPrefix prefix calls → position_of prefix ≤ p → IsPrefix prefix (cut_at calls p) }
{}

/// The keyspace at a position does not change while the list grows. At the position of the list it is the keyspace of the list.
pub fn keyspace_of_a_cut_is_stable()
    ensures stable { (calls more : List Call) (p : ℕ) → p ≤ position_of calls
        → keyspace_after (cut_at (calls ++ more) p) ≡ keyspace_after (cut_at calls p) }
    ensures newest { (calls : List Call) → keyspace_after (cut_at calls (position_of calls)) ≡ keyspace_after calls }
    ensures oldest { (calls : List Call) → keyspace_after (cut_at calls 0) ≡ [] }
    ensures position { (calls : List Call) (p : ℕ) → position_of (cut_at calls p) ≡ min p (position_of calls) }
{}

/// The changes of each position take the keyspace there to that of the next position, and stay while the list grows.
pub fn changes_lead_from_position_to_position()
    ensures next { (calls : List Call) (p : ℕ) → p < position_of calls
        → keyspace_after (cut_at calls (p + 1)) ≡ play_all (keyspace_after (cut_at calls p)) (changes_at calls p) }
    ensures stable { (calls more : List Call) (p : ℕ) → p < position_of calls → changes_at (calls ++ more) p ≡ changes_at calls p }
{}

/// The changes of a call that may be answered have at most `MAX_CHANGE_TEXT_BYTES` bytes as text: one that would have more is refused and makes none. So have,
/// in a legal list, those of each position; and those of as many positions as one group has have at most `MAX_PARTS` times as many.
pub fn changes_stay_within_limits()
    ensures call { (state : State) (call : Call) → MayReply state call → changes_size (changes_of state call) ≤ MAX_CHANGE_TEXT_BYTES }
    ensures position { (calls : List Call) (p : ℕ) → IsLegal calls → changes_size (changes_at calls p) ≤ MAX_CHANGE_TEXT_BYTES }
    ensures group { (calls : List Call) (p count : ℕ) → IsLegal calls → count ≤ MAX_PARTS
        → changes_size (changes_since calls p count) ≤ MAX_PARTS * MAX_CHANGE_TEXT_BYTES }
{}

/// A list of calls leaves a keyspace: its records are in order, each once, and no key is both a string and a hash.
pub fn lists_leave_keyspaces()
    ensures { (calls : List Call) → IsKeyspace (keyspace_after calls) }
{}

/// Versions have at most one map, and an image at most one record and one keyspace.
pub fn images_hold_one_keyspace()
    ensures map { (versions : ℕ → Option Version) (entries : ℕ) (s t : Keyspace) → IsKeyspace s → IsKeyspace t
        → IsMapOf versions entries s → IsMapOf versions entries t → s ≡ t }
    ensures current { (lines : ℕ) (a b : Record) (s t : Keyspace) (image : Image) → length a.gaps.items ≤ max_gaps a.layout
        → Holds lines a s image → Holds lines b t image → a ≡ b }
    ensures keyspace { (lines : ℕ) (r : Record) (s t : Keyspace) (image : Image) → IsKeyspace s → IsKeyspace t
        → Holds lines r s image → Holds lines r t image → s ≡ t }
{}

/// The map of versions is computed by adding the live ones, entry by entry. Where nothing was begun, it is empty.
pub fn map_is_computed()
    ensures computed { (versions : ℕ → Option Version) (entries : ℕ) (s : Keyspace) → IsKeyspace s → IsMapOf versions entries s
        → map_below versions entries ≡ s }
    ensures none { (versions : ℕ → Option Version) (entries : ℕ) → ((i : ℕ) → i < entries → versions i ≡ None)
        → IsMapOf versions entries [] }
{}

/// A group moves the map by exactly its changes, in their order, and free entries stay without versions.
pub fn map_moves_by_the_group()
    ensures map { (contents : Contents) (group : Group) (s : Keyspace) → IsConsistent contents → IsGroup contents group
        → IsMapOf contents.versions (entries_of contents) s
        → IsMapOf (after_group contents group).versions (entries_of contents) (play_all s (changes_of_group group)) }
    ensures consistent { (contents : Contents) (group : Group) → IsConsistent contents → IsGroup contents group
        → IsConsistent (after_group contents group) }
{}

/// An image that stands at a position of a list stands there while the list grows.
pub fn images_stand_while_the_list_grows()
    ensures { (holder : Holder) (calls more : List Call) (p : ℕ) (image : Image) → p ≤ position_of calls
        → StandsAt holder calls p image → StandsAt holder (calls ++ more) p image }
{}
