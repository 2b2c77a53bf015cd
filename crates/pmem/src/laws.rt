//! Laws of what a device has gone through, each the contract of a function that does nothing.
ghost use Rattle.pmem.specs.Cuts.{NoCutPasses, CutsAreMoments};
ghost use Rattle.pmem.specs.Floor.{CallsChain, LeavesNoMore, LeavesPresentWords, MomentsAreEnough};

/// A device that fell back is not explained: where it held A, B, A and C, no state cuts that into what an event from A to B leaves and what one from
/// B to C leaves.
pub fn no_cut_explains_a_fall()
    ensures { NoCutPasses }
{}

/// A state that a device has passed is told by its moment alone.
pub fn passed_states_are_told_by_their_moments()
    ensures { CutsAreMoments }
{}

/// Where the floor is the present moment, a crash leaves an image of the present words.
pub fn the_present_floor_leaves_present_words()
    ensures { LeavesPresentWords }
{}

/// A higher floor leaves nothing that a lower one does not.
pub fn a_higher_floor_leaves_no_more()
    ensures { LeavesNoMore }
{}

/// What holds of each moment since a state holds of what a crash leaves, where the floor is no earlier.
pub fn moments_are_enough()
    ensures { MomentsAreEnough }
{}

/// Of two calls since the floor a crash leaves what one of them allows.
pub fn calls_chain()
    ensures { CallsChain }
{}
