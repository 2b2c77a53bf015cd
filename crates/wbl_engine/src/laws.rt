//! Laws of the definitions, each the contract of a function that does nothing.
ghost use Rattle.std.specs.Prelude.{◌≡◌, ◌⊎◌, ℕ, ◌+◌, ◌<◌, ◌≤◌, Bool, false, Option, None, IsTrue, List, length};
ghost use Rattle.std.specs.List.{AllByRecursion};
ghost use Rattle.kv_types.specs.declared.place.EntryNo.{EntryNo};
ghost use Rattle.kv_types.specs.declared.refusal.Refusal.{Refusal};
ghost use Rattle.kv_types.specs.declared.refusal.Refusal.TheVariants.{Exhausted, Memory};
ghost use Rattle.kv_types.specs.declared.record_id.RecordId.{RecordId};
ghost use Rattle.kv_types.specs.Keyspace.{Keyspace};
ghost use Rattle.heap_layout.specs.declared.entry.Entry.{Entry};
ghost use Rattle.model.specs.declared.group.Group.{Group};
ghost use Rattle.model.specs.declared.group.Part.{Part};
ghost use Rattle.model.specs.declared.group.Put.{Put};
ghost use Rattle.model.specs.declared.image.TheConstants.{COUNTER_LIMIT, MIN_LINES, MAX_LINES};
ghost use Rattle.model.specs.declared.record.Role.{Role};
ghost use Rattle.model.specs.declared.record.Role.TheVariants.{Primary};
ghost use Rattle.model.specs.Group.{Contents, IsConsistent, IsGroup, Versions, after_group, entries_of, is_ended_version, with_puts};
ghost use Rattle.model.specs.Image.{Image, IsMapOf};
ghost use Rattle.wbl_engine.specs.Contents.{Keeps, IsDurable, IsDurableFrom, IsNew, Same, Exhausts, SyncedIsDurable};
ghost use Rattle.wbl_engine.specs.Copying.{AreAllDistinct, AreRising, AreStageable, AreUpTo, ExhaustsCopy, IsCopy, IsFresh, after_copy, last_record};
ghost use Rattle.wbl_engine.specs.Freeing.{Clears, without};
ghost use Rattle.wbl_engine.specs.Lawful.{AreLawful, IsUndamaged};
ghost use Rattle.wbl_engine.specs.Promoting.{ExhaustsPromotion, promoted, promoted_record};
ghost use Rattle.wbl_engine.specs.Relocating.{ExhaustsRelocation, IsRelocation, KeepsKeyspace, after_relocation};
ghost use Rattle.wbl_engine.specs.Reopening.{ExhaustsReopening, KeepsThrough, RefusesReopening, Reopens};

use crate::durable::Durable;

/// The contents of a new image, of a size that an image may have, obey the rules.
pub fn new_contents_are_lawful()
    ensures { (lines : ℕ) (role : Role) (epoch : ℕ) (contents : Contents) → IsNew lines role epoch contents → MIN_LINES ≤ lines → lines ≤ MAX_LINES
        → 0 < epoch → epoch < COUNTER_LIMIT → AreLawful contents }
{}

/// A group takes contents that obey the rules to contents that do, unless a counter of the record would reach its limit.
pub fn groups_keep_contents_lawful()
    ensures { (contents : Contents) (group : Group) → AreLawful contents → IsGroup contents group
        → ¬ Exhausts contents group → AreLawful (after_group contents group) }
{}

/// Contents that say the same as contents that obey the rules obey them too.
pub fn same_contents_are_lawful()
    ensures { (old new : Contents) → Same old new → AreLawful old → AreLawful new }
{}

/// Contents that obey the rules do so without some of the versions that have ended, and the map is the one that it was. Free entries still have no
/// version.
pub fn freed_contents_are_lawful()
    ensures lawful { (contents : Contents) (gone : ℕ → Bool) → ((i : ℕ) → IsTrue (gone i) → IsTrue (is_ended_version (contents.versions i)))
        → AreLawful contents → AreLawful (without gone contents) }
    ensures map { (contents : Contents) (gone : ℕ → Bool) (s : Keyspace)
        → ((i : ℕ) → IsTrue (gone i) → IsTrue (is_ended_version (contents.versions i)))
        → IsMapOf contents.versions (entries_of contents) s
        → IsMapOf (without gone contents).versions (entries_of contents) s }
    ensures consistent { (contents : Contents) (gone : ℕ → Bool) → IsConsistent contents → IsConsistent (without gone contents) }
{}

/// Contents that obey the rules do so once their oldest gap is cleared, where the record is not the last. Free entries still have no version.
pub fn cleared_contents_are_lawful()
    ensures lawful { (old new : Contents) (cleared : List EntryNo) → Clears old cleared new → old.current.number + 1 < COUNTER_LIMIT
        → AreLawful old → AreLawful new }
    ensures consistent { (old new : Contents) (cleared : List EntryNo) → Clears old cleared new → IsConsistent old → IsConsistent new }
{}

/// Contents that obey the rules do so once versions were moved to other places, unless a counter of the record would reach its limit, and the live
/// versions make up the keyspace that they made up before. Free entries still have no version.
pub fn relocated_contents_are_lawful()
    ensures lawful { (contents : Contents) (parts : List Part) → AreLawful contents → IsRelocation contents parts
        → ¬ ExhaustsRelocation (length parts) contents.current → AreLawful (after_relocation contents parts) }
    ensures map { (contents : Contents) (parts : List Part) → IsConsistent contents → IsRelocation contents parts
        → KeepsKeyspace contents (after_relocation contents parts) }
    ensures consistent { (contents : Contents) (parts : List Part) → IsConsistent contents → IsRelocation contents parts
        → IsConsistent (after_relocation contents parts) }
{}

/// An image that holds contents that obey the rules breaks no rule of the format: it is never refused as damaged.
pub fn lawful_contents_are_undamaged()
    ensures { (contents : Contents) (image : Image) → AreLawful contents → Keeps contents image
        → IsUndamaged contents.lines contents.current image }
{}

/// A reopening keeps the versions of contents that obey the rules, and the position, epoch and role of their record; the contents still obey the rules.
pub fn reopening_keeps_contents()
    ensures keeps { (old new : Contents) (image : Image) (role : Role) (counted : List (EntryNo × Entry)) (gapped : List EntryNo)
        → AreLawful old → Keeps old image → Reopens old.lines image role new counted gapped → KeepsThrough old new }
    ensures lawful { (old new : Contents) (image : Image) (role : Role) (counted : List (EntryNo × Entry)) (gapped : List EntryNo)
        → AreLawful old → Keeps old image → Reopens old.lines image role new counted gapped → AreLawful new }
{}

/// An image with contents that obey the rules is reopened in its role, unless memory is refused, a counter of its record is at its limit, or a
/// fence fails.
pub fn lawful_contents_are_reopened()
    ensures { (contents : Contents) (image : Image) (refusal : Refusal) → AreLawful contents → Keeps contents image
        → RefusesReopening contents.current.layout contents.lines image contents.current.role refusal
        → (refusal ≡ Memory) ⊎ ((refusal ≡ Exhausted) × ExhaustsReopening contents.current) }
{}

/// Contents that obey the rules do so once they are promoted, unless a counter of the record would reach its limit: the versions are those that
/// they were. Free entries still have no version.
pub fn promoted_contents_are_lawful()
    ensures lawful { (contents : Contents) → AreLawful contents → ¬ ExhaustsPromotion contents.current → AreLawful (promoted contents) }
    ensures consistent { (contents : Contents) → IsConsistent contents → IsConsistent (promoted contents) }
{}

/// A promoted image is opened as a primary's, neither refused for its role nor as damaged, if the contents obeyed the rules before: unless memory
/// is refused, a counter of its record is at its limit, or a fence fails.
pub fn promoted_contents_are_reopened()
    ensures { (contents : Contents) (image : Image) (refusal : Refusal) → AreLawful contents → ¬ ExhaustsPromotion contents.current
        → Keeps (promoted contents) image → RefusesReopening contents.current.layout contents.lines image Primary refusal
        → (refusal ≡ Memory) ⊎ ((refusal ≡ Exhausted) × ExhaustsReopening (promoted_record contents.current)) }
{}

/// Parts of a copy stay one while parts go on with it, and are dropped; and once it has ended, the contents obey the rules, unless a counter of the record
/// would reach its limit. Free entries still have no version.
pub fn copies_are_lawful()
    ensures begins { (entries : ℕ) (staged : Versions) → ((i : ℕ) → staged i ≡ None) → IsCopy entries staged }
    ensures goes_on { (contents : Contents) (staged new : Versions) (puts : List Put) (position : ℕ) → IsCopy (entries_of contents) staged
        → AreStageable contents staged puts → ((i : ℕ) → new i ≡ with_puts position puts staged i) → IsCopy (entries_of contents) new }
    ensures lawful { (contents : Contents) (staged : Versions) (position : ℕ) → AreLawful contents → IsCopy (entries_of contents) staged
        → ¬ ExhaustsCopy contents.current position → AreLawful (after_copy contents staged position) }
    ensures consistent { (contents : Contents) (staged : Versions) (position : ℕ) → IsCopy (entries_of contents) staged
        → IsConsistent (after_copy contents staged position) }
{}

/// Where the records of a part rise above the last one that is staged, none of them clashes with another or with what is staged, and afterwards the last one
/// is the part's.
pub fn rising_parts_are_fresh()
    ensures fresh { (last : Option RecordId) (staged : Versions) (puts : List Put) → AreUpTo last staged → AreRising last puts
        → AllByRecursion (IsFresh staged) puts }
    ensures distinct { (last : Option RecordId) (puts : List Put) → AreRising last puts → AreAllDistinct puts }
    ensures goes_on { (last : Option RecordId) (staged new : Versions) (puts : List Put) (position : ℕ) → AreUpTo last staged → AreRising last puts
        → ((i : ℕ) → new i ≡ with_puts position puts staged i) → AreUpTo (last_record last puts) new }
{}

/// What is durable of a synced device is what a crash leaves.
pub fn synced_contents_are_durable()
    ensures { SyncedIsDurable }
{}

/// Of a sound engine whose contents are durable a crash leaves nothing but images that hold them, of whichever moment from the floor of its device on.
pub fn durable_contents_are_left<E: Durable>(engine: &E)
    requires sound { E.is_faulted engine.now ≡ false }
    requires durable { IsDurable (E.device engine.now) (E.contents engine.now) }
    ensures { IsDurableFrom (E.device_floor engine.now) (E.device engine.now) (E.contents engine.now) }
{}
