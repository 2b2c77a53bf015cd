// Laws, each the contract of a function that does nothing.
ghost use Rattle.journal.specs.Laws.{AllOrNothing, TakesAllThatWasSynced, AreToldByTheirWords, BringsItsLines, DoesNotMatter, OpensWithAllThatWasSynced, OpensOldOrNew};

/// A law: a record that passes is the one that was written.
pub fn a_record_that_passes_is_whole()
    ensures { AllOrNothing }
{}

/// A law: an opening takes all records that were synced, and of those written since some first ones, each whole.
pub fn an_opening_takes_all_that_was_synced()
    ensures { TakesAllThatWasSynced }
{}

/// A law: the words of a journal tell its records.
pub fn records_are_told_by_their_words()
    ensures { AreToldByTheirWords }
{}

/// A law: a record of some lines of an image brings them to another image, and nothing else.
pub fn a_record_brings_its_lines()
    ensures { BringsItsLines }
{}

/// A law: what an image holds in the lines of the records does not matter to their replay.
pub fn what_is_recorded_does_not_matter()
    ensures { DoesNotMatter }
{}

/// A law: what a crash leaves of a file while records are written opens with all records that were synced.
pub fn an_opening_has_all_that_was_synced()
    ensures { OpensWithAllThatWasSynced }
{}

/// A law: what a crash leaves of a file while the next generation begins opens with all records of the old one, or with what was put in place.
pub fn an_opening_has_the_old_generation_or_the_new_one()
    ensures { OpensOldOrNew }
{}
