//! Laws of the definitions, each the contract of a function that does nothing.
ghost use Rattle.std.specs.List.Sorted.{IsStrictlySortedBy};
ghost use Rattle.std.specs.Ordering.{nat_cmp};
ghost use Rattle.heap_layout.specs.Versions.{counted_below, gapped_below};
ghost use Rattle.model.specs.Group.{Contents, entries_of};
ghost use Rattle.model.specs.Image.{Image};
ghost use Rattle.placing.specs.Read.{AreOf, Shows, numbers_read};

/// What is read of an image, entry by entry, are the lists that `rebuild` asks for, with numbers that rise.
pub fn images_are_read_by_entries()
    ensures lists { (contents : Contents) (image : Image) → Shows contents image
        → AreOf contents (counted_below contents.current image (entries_of contents)) (gapped_below contents.current image (entries_of contents)) }
    ensures rising { (contents : Contents) (image : Image) → Shows contents image
        → IsStrictlySortedBy nat_cmp (numbers_read (counted_below contents.current image (entries_of contents))) }
{}
