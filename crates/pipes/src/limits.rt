//! The limits of pipes, of a link and of a lobby, each defined once.

/// How many items a pipe can hold.
pub const PIPE_ITEMS: usize = 256;

/// How many groups a link keeps until they are acknowledged.
pub const KEPT_GROUPS: usize = 256;

/// How many seats a lobby has. They are numbered from 0.
pub const MAX_SEATS: usize = 1_024;
