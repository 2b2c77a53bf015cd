//! How the standby stands to this node.

/// How the standby stands to this node, by what it has acknowledged so far.
#[derive(Clone, Copy, Debug, PartialEq, Eq)]
pub enum Standing {
    /// It was never above the local mark.
    Behind,
    /// It was once above the local mark: it holds what this node never had, so nothing that it acknowledges is of this node's groups.
    Ahead,
}
