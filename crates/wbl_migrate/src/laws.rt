//! Laws of the definitions, each the contract of a function that does nothing.
ghost use Rattle.std.specs.Prelude.{◌≡◌, ℕ, ◌+◌, ◌<◌, ◌≤◌, false, []};
ghost use Rattle.kv_types.specs.Keyspace.{Keyspace};
ghost use Rattle.pmem.specs.Device.{State};
ghost use Rattle.pmem.specs.Crash.{IsSettled, image_of};
ghost use Rattle.model.specs.declared.image.TheConstants.{COUNTER_LIMIT, MIN_LINES};
ghost use Rattle.model.specs.declared.layout.Layout.{Layout};
ghost use Rattle.model.specs.declared.layout.Layout.TheVariants.{Version1, Version2};
ghost use Rattle.model.specs.declared.record.Record.{Record};
ghost use Rattle.model.specs.Image.{Image, counts, directory_end, entries_of_lines, entry_line, entry_word, first_extent_line, slot_line, slots_end};
ghost use Rattle.wbl_record.specs.Current.{IsLawful};
ghost use Rattle.wbl_migrate.specs.Migrating.{IsOldImage};
ghost use Rattle.wbl_migrate.specs.Stage.{HoldsAt, IsMovable};
ghost use Rattle.wbl_migrate.specs.Steps.{Leaves, renewed};

/// An image of version 1 can be migrated on where it breaks no rule, its record has no gap, and none of its last entries counts.
pub fn undamaged_images_are_movable()
    ensures { (lines : ℕ) (r : Record) (s : Keyspace) (image : Image) → IsOldImage lines r s image → r.gaps.items ≡ []
        → ((i : ℕ) → entries_of_lines Version2 lines ≤ i → i < entries_of_lines Version1 lines → counts r (image (entry_word i 0)) ≡ false)
        → IsMovable Version1 lines r s image }
{}

/// An image is at one stage, which its version tells.
pub fn images_are_at_one_stage()
    ensures { (a b : Layout) (lines : ℕ) (r q : Record) (s t : Keyspace) (image : Image) → HoldsAt a lines r s image → HoldsAt b lines q t image → a ≡ b }
{}

/// A device that has crashed leaves just what it holds. So where a crash left an image that can be migrated on, its device may be migrated on.
pub fn crashed_devices_go_on()
    ensures { (d : State) (stage : Layout) (lines : ℕ) (r : Record) (s : Keyspace) → IsSettled d.words → IsMovable stage lines r s (image_of d.words)
        → Leaves d (IsMovable stage lines r s) }
{}

/// In an image of a size that it may have, the slots of version 2 are the lines of the last entries of version 1, which are not read halfway: they begin
/// where these begin, and end where these end and the extents begin. There are 18.
pub fn new_slots_are_the_last_entries()
    ensures first { (lines : ℕ) → slot_line Version2 lines 0 ≡ entry_line (entries_of_lines Version2 lines) }
    ensures last { (lines : ℕ) → MIN_LINES ≤ lines → slots_end Version2 lines ≡ directory_end Version1 lines }
    ensures extents { (lines : ℕ) → MIN_LINES ≤ lines → slots_end Version2 lines ≡ first_extent_line lines }
    ensures count { (lines : ℕ) → MIN_LINES ≤ lines → entries_of_lines Version1 lines ≡ entries_of_lines Version2 lines + 18 }
{}

/// The record of version 2 obeys the rules that the one of version 1 does.
pub fn renewed_records_are_lawful()
    ensures { (r : Record) → IsLawful r → r.number + 1 < COUNTER_LIMIT → IsLawful (renewed r) }
{}
