//! What a visit of a connection came to.

/// What a visit came to.
#[derive(Clone, Copy)]
pub(crate) struct Visited {
    /// Whether the connection was answered anything, took all turns that it may, or is over.
    pub(crate) did: bool,
    /// Whether it waits, and was answered nothing: then it keeps where it stands in the list.
    pub(crate) is_passed: bool,
}

impl Visited {
    /// Nobody was there.
    pub(crate) const NOBODY: Visited = Visited {
        did: false,
        is_passed: false,
    };

    /// It was answered something, or is over.
    pub(crate) const ANSWERED: Visited = Visited {
        did: true,
        is_passed: false,
    };

    /// It was passed over.
    pub(crate) const PASSED: Visited = Visited {
        did: false,
        is_passed: true,
    };
}
