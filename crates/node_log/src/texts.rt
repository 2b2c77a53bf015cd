//! Longer texts of what a node tells.

/// What a node tells whose standby holds what it never had itself.
pub(crate) const STANDBY_AHEAD: &str =
    "standby ahead: this node takes no acknowledgement any more, and answers nothing that waits for one; it was not formatted with this standby, or was restored from an older copy: see \"A standby that is ahead\" in docs/server.md";

/// What a node tells whose standby is another one than before, and empty.
pub(crate) const STANDBY_BEHIND: &str =
    "the standby lacks what this primary cannot send: put a newcomer in its place: see \"A lost standby\" in docs/operating.md";

/// What a node tells whose standby belongs to another pair.
pub(crate) const OTHER_PAIR: &str =
    "the standby belongs to another pair: it takes nothing from this primary: see \"A standby of another pair\" in docs/operating.md";

/// What a node tells whose standby speaks other links.
pub(crate) const OTHER_RELEASE: &str =
    "the standby is of a release that this one does not link with: see \"From one release to the next\" in docs/operating.md";

/// What a standby tells of one who said nothing.
pub(crate) const NOT_GREETED: &str =
    "a connection was closed before it greeted: it is no primary, or one of a release before 22";

/// What a standby tells that takes the next link.
pub(crate) const LINK_LEFT: &str =
    "left the link: nothing came on it, and another connection waits";

/// What follows the refusal of a frame for which there is no room.
pub(crate) const NO_ROOM: &str =
    ": this standby has no room for a frame: see \"A standby without room\" in docs/server.md";

/// What there is to do about an image that fills.
pub(crate) const LARGER: &str = "see \"A larger image\" in docs/operating.md";

/// Why a standby may need long for a frame.
pub(crate) const SLOW: &str = "its disk is slow, or it moves versions to make room";

/// Why a node that has used up its descriptors has no link.
pub(crate) const NO_DESCRIPTOR: &str =
    "no descriptor is left for a connection: see \"A connection that cannot be taken\" in docs/server.md";

/// What follows where a standby does not take what is sent.
pub(crate) const NOT_TAKEN: &str =
    ": its own standard error says by which refusal; where that is \"refusal 5: full\", see \"A standby without room\" in docs/server.md";

/// What follows where a copy begins.
pub(crate) const UNTIL_COPIED: &str =
    ": no reply that waits for the standby leaves before the newcomer has all of it";

/// What follows where a newcomer has its copy.
pub(crate) const COPIED: &str = ", and the image of any other is worth nothing any more";
