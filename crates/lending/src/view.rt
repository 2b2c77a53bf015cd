//! What a seat knows.

/// What a seat knows of the value. No value of this type is made: it occurs only in clauses.
pub struct LendingView<T> {
    /// Whether the seat is the lender's.
    pub lends: bool,
    /// Whether the seat is the borrower's.
    pub borrows: bool,
    /// Whether nobody has the place yet, as the lender knows it.
    pub new: bool,
    /// The value that the lender has lent and not taken back, as it lent it.
    pub lent: Option<T>,
    /// The value that the borrower has taken and not given back, as it took it.
    pub taken: Option<T>,
    /// How often it has asked for the value of the other end.
    pub asked: u64,
    /// The word that it found when it asked last.
    pub found: u64,
}

/// What a clause sees of an end. No value of this type is made.
pub struct EndView<T> {
    /// Of a lender the value that is out, as it was lent. Of a borrower the value that it has taken and not given back, as it took it.
    pub value: Option<T>,
    /// How often it has asked for the value of the other end.
    pub asked: u64,
    /// The word that it found when it asked last: where the value was.
    pub found: u64,
}
