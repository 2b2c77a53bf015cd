//! An inlet whose next item is looked at before it is taken.
ghost use Rattle.std.specs.Prelude.{◌≡◌, None};
ghost use Rattle.std.specs.Option.{option_copied};
ghost use Rattle.clients.specs.LookAhead.{Looks};

use pipes::Inlet;

/// An inlet that may hold one item, which was looked at: that one is taken next, and no other. So an item that comes between a look and the take has to be
/// looked at first, and whatever a look was to find out holds of the item that is taken.
#[derive(Drop)]
pub struct LookAhead<T, I> {
    pub(crate) inlet: I,
    pub(crate) next: Option<T>,
}

impl<T: Drop, I: Inlet<Item = T>> LookAhead<T, I> {
    /// One that holds nothing yet.
    pub fn new(inlet: I) -> LookAhead<T, I>
        ensures inlet { result.inlet ≡ inlet }
        ensures none { result.next ≡ None }
    {
        LookAhead { inlet, next: None }
    }

    /// Looks at the next item: takes it early, unless one is held already. None is held then only if the inlet neither knew of an item nor found one.
    pub fn look(&mut self)
        ensures { Looks I.take_gives self.old self.new }
    {
        if self.next.is_none() {
            self.next = self.inlet.take();
        }
    }

    /// The item that is held: the next one to be taken.
    pub fn next(&self) -> Option<&T>
        ensures { option_copied result ≡ self.now.next }
    {
        self.next.as_ref()
    }
}

impl<T, I: Inlet<Item = T>> Inlet for LookAhead<T, I> {
    ghost use Rattle.clients.specs.LookAhead.{GivesHeld, GivesHeld-known, held_items};

    type Item = T;

    ghost known_items = { held_items };

    ghost take_gives = { GivesHeld };

    fn take(&mut self) -> Option<T> {
        self.next.take()
    }

    ghost known_first = { GivesHeld-known };
}
