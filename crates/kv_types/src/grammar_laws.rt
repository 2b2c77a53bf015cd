//! Laws of the grammar of requests, whatever parser reads it.
ghost use Rattle.std.specs.Prelude.{◌≡◌, ◌↔◌, ℕ, ◌^◌, ◌<◌, List, [], ◌++◌, Contains};
ghost use Rattle.kv_types.specs.declared.limits.Limits.{Limits};
ghost use Rattle.kv_types.specs.declared.item.ProtocolFault.{ProtocolFault};
ghost use Rattle.kv_types.specs.declared.item.Item.{Item};
ghost use Rattle.kv_types.specs.declared.item.Item.TheVariants.{Fault};
ghost use Rattle.kv_types.specs.Word.{IsWithin};
ghost use Rattle.kv_types.specs.Request.{spelling, AsksFor};
ghost use Rattle.kv_types.specs.Reading.{items_at};

/// No spelling begins another: a spelling can be read back in only one way, whatever follows it.
pub fn one_spelling()
    ensures { (limits : Limits) → limits.words < 2 ^ 64 → limits.word_bytes < 2 ^ 64 →
        (a b : List (List ℕ)) (x y : List ℕ) → IsWithin limits a → IsWithin limits b →
        spelling a ++ x ≡ spelling b ++ y → (a ≡ b) × (x ≡ y) }
{}

/// The items computed from a text are those that the grammar asks for, its fault included, and it asks for no others.
pub fn items_are_asked_for()
    ensures { (limits : Limits) → limits.words < 2 ^ 64 → limits.word_bytes < 2 ^ 64 →
        (text : List ℕ) (items : List Item) → AsksFor limits text items ↔ (items ≡ items_at limits text) }
{}

/// The items that bytes ask for remain when more bytes come. After a fault nothing more is asked for; without one, further items come from
/// the bytes that are not yet a whole request, followed by the new bytes.
pub fn items_grow()
    ensures stays { (limits : Limits) (text more : List ℕ) →
        (later : List Item) × (items_at limits (text ++ more) ≡ items_at limits text ++ later) }
    ensures ends { (limits : Limits) (text more : List ℕ) (fault : ProtocolFault) →
        Contains (items_at limits text) (Fault fault) → items_at limits (text ++ more) ≡ items_at limits text }
    ensures continues { (limits : Limits) (text : List ℕ) →
        ((fault : ProtocolFault) → ¬ Contains (items_at limits text) (Fault fault)) →
        (given unread : List ℕ) × (text ≡ given ++ unread) × (items_at limits unread ≡ [])
        × ((more : List ℕ) → items_at limits (text ++ more) ≡ items_at limits text ++ items_at limits (unread ++ more)) }
{}
