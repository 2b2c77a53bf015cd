//! Laws of the definitions, each the contract of a function that does nothing.
ghost use Rattle.std.specs.Prelude.{◌≡◌, ℕ};
ghost use Rattle.model.specs.declared.record.Record.{Record};
ghost use Rattle.model.specs.Image.{Image};
ghost use Rattle.wbl_record.specs.Current.{IsCurrent};

/// An image has at most one current record.
pub fn images_have_one_current_record()
    ensures { (lines : ℕ) (image : Image) (r s : Record) → IsCurrent lines image r → IsCurrent lines image s → r ≡ s }
{}
