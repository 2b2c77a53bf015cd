//! What is agreed of a value that is lent.

/// What is agreed of a value that is lent.
pub trait Terms<T> {
    /// What is said of each value that is lent.
    ghost offers: { T → Type 0 };

    /// What may become of a value: of the one that was lent, and the one that comes back.
    ghost keeps: { T → T → Type 0 };
}
