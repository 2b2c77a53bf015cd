//! The two ends of a pipe, as seen by an actor that never blocks.
ghost use Rattle.std.specs.Prelude.{◌≡◌, ℕ, ◌+◌, ◌≤◌, List, [], ◌∷◌, ◌++◌, Option, MatchOption, IfErr, OnOk, OnErr};
ghost use mathlib.Core.List.{IsPrefix};

/// The end of a pipe at which items go in. An offered item goes last.
pub trait Outlet {
    /// What the pipe holds.
    type Item;

    /// The items offered here, in order: for a pipe that is one object, those that still wait in it; for an end in a thread of its own, all
    /// that it ever pushed.
    ghost offered: { Self → List Self.Item };

    /// How many more items this end knows that the pipe has room for.
    ghost known_room: { Self → ℕ };

    /// Which item may be offered next. The other end may rely on it.
    ghost may_offer: { Self → Self.Item → Type 0 };

    /// The second value is the same end of the same pipe as the first.
    ghost is_same: { Self → Self → Type 0 };

    /// Checks how many items there is room for. The other end may make more room at any time, and never takes any away.
    fn room(&mut self) -> usize
        ensures value { result ≡ known_room self.new }
        ensures kept { known_room self.old ≤ known_room self.new }
        ensures unchanged { offered self.new ≡ offered self.old }
        ensures same { is_same self.old self.new };

    /// Puts an item last. An `Err` gives it back, and comes only if this end neither knew of room nor found any.
    fn offer(&mut self, item: Self::Item) -> Result<(), Self::Item>
        requires { may_offer self.old item }
        ensures last { OnOk result (offered self.new ≡ offered self.old ++ item ∷ []) }
        ensures room { OnOk result (known_room self.old ≤ known_room self.new + 1) }
        ensures full { OnErr result ((known_room self.old ≡ 0) × (known_room self.new ≡ 0)) }
        ensures returned { IfErr result (λ back. back ≡ item) }
        ensures unchanged { OnErr result (offered self.new ≡ offered self.old) }
        ensures same { is_same self.old self.new };

    /// Being the same end is reflexive and transitive.
    ghost same_refl: { (end : Self) → is_same end end };

    ghost same_trans: { (first middle last : Self) → is_same first middle → is_same middle last → is_same first last };

    /// Where nothing was offered in between, the same items may be offered.
    ghost may_still: { (before after : Self) (item : Self.Item) → is_same before after → offered after ≡ offered before → may_offer before item → may_offer after item };
}

/// The end of a pipe at which items come out. An item that this end knows of is taken first.
pub trait Inlet {
    /// What the pipe holds.
    type Item;

    /// The items that this end knows are waiting, oldest first.
    ghost known_items: { Self → List Self.Item };

    /// How the end before one call of `take`, what the call returns and the end after it are related.
    ghost take_gives: { Self → Option Self.Item → Self → Type 0 };

    /// Takes the oldest item. A `None` comes only if this end neither knew of an item nor found one.
    fn take(&mut self) -> Option<Self::Item>
        ensures { take_gives self.old result self.new };

    /// A known item is taken first, and the known items after it stay known.
    ghost known_first: { (before after : Self) (taken : Option Self.Item) → take_gives before taken after
        → MatchOption taken (known_items before ≡ []) (λ item. IsPrefix (known_items before) (item ∷ known_items after)) };
}
