//! Laws of frames that are taken, each the contract of a function that does nothing.
ghost use Rattle.std.specs.Prelude.{◌≡◌};
ghost use Rattle.kv_types.specs.Keyspace.{play_all};
ghost use Rattle.model.specs.declared.record.Record.{Record as Current};
ghost use Rattle.model.specs.Group.{Contents};
ghost use Rattle.mv_keyspace.specs.Table.{Table, records};
ghost use Rattle.frames.specs.declared.frame.Frame.{Frame};
ghost use Rattle.frames.specs.Joining.{IsJoined, JoinsOn};
ghost use Rattle.standby.specs.Following.{HasTaken, IsTakenNext};

/// Two frames of which the second follows the first are taken as one just as they are taken in turn. Where the first is due, so is the whole; it plays the
/// changes of both, in order; and what it comes to is what the second comes to, wherever the first was taken alone.
pub fn joined_frames_are_taken_in_turn()
    ensures due { (current : Current) (first next whole : Frame) → JoinsOn first next → IsJoined first next whole → IsTakenNext current first → IsTakenNext current whole }
    ensures plays { (first next whole : Frame) (before after : Contents) (old new : Table) → IsJoined first next whole → HasTaken whole before after old new
        → records new ≡ play_all (play_all (records old) first.changes.items) next.changes.items }
    ensures in_turn { (first next whole : Frame) (before middle after : Contents) (old between new : Table) → JoinsOn first next → IsJoined first next whole
        → HasTaken first before middle old between → HasTaken whole before after old new
        → IsTakenNext middle.current next × HasTaken next middle after between new }
{}
