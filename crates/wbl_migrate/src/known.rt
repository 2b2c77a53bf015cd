//! Laws of what was read of an image, each the contract of a function that does nothing.
ghost use Rattle.std.specs.Prelude.{◌≡◌, ◌≤◌, ◌||◌, ℕ, List, []};
ghost use Rattle.kv_types.specs.declared.place.EntryNo.{EntryNo};
ghost use Rattle.heap_layout.specs.declared.entry.Entry.{Entry};
ghost use Rattle.model.specs.declared.image.TheConstants.{MIN_LINES, MAX_LINES};
ghost use Rattle.model.specs.declared.record.Role.{Role};
ghost use Rattle.model.specs.Group.{Contents, IsConsistent};
ghost use Rattle.model.specs.Image.{Image};
ghost use Rattle.wbl_engine.specs.Contents.{Keeps};
ghost use Rattle.wbl_engine.specs.Freeing.{is_listed};
ghost use Rattle.wbl_engine.specs.Lawful.{AreLawful};
ghost use Rattle.wbl_engine.specs.Reopening.{IsShown, Reopens};
ghost use Rattle.wbl_migrate.specs.Moving.{AreKnown, KeepsAllVersions};

/// What a reopening reads of an image, whoever wrote it, is what `move_live` asks for; the contents obey the rules of an image, and no free entry has a
/// version. Where gaps were cleared since, it still is.
pub fn read_versions_are_known()
    ensures known { (lines : ℕ) (before opened : Image) (role : Role) (contents : Contents) (counted : List (EntryNo × Entry)) (gapped : List EntryNo)
        → Reopens lines before role contents counted gapped → IsShown contents counted gapped opened → Keeps contents opened
        → AreKnown contents counted gapped [] }
    ensures consistent { (lines : ℕ) (before opened : Image) (role : Role) (contents : Contents) (counted : List (EntryNo × Entry)) (gapped : List EntryNo)
        → Reopens lines before role contents counted gapped → IsShown contents counted gapped opened → Keeps contents opened
        → IsConsistent contents }
    ensures lawful { (lines : ℕ) (before opened : Image) (role : Role) (contents : Contents) (counted : List (EntryNo × Entry)) (gapped : List EntryNo)
        → Reopens lines before role contents counted gapped → IsShown contents counted gapped opened → Keeps contents opened
        → MIN_LINES ≤ contents.lines → contents.lines ≤ MAX_LINES → AreLawful contents }
    ensures cleared { (old new : Contents) (counted : List (EntryNo × Entry)) (gapped cleared : List EntryNo) → AreKnown old counted gapped []
        → KeepsAllVersions old new → ((i : ℕ) → new.is_free i ≡ (old.is_free i || is_listed i cleared)) → AreKnown new counted gapped cleared }
{}
