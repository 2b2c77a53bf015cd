//! Laws of greetings and their bytes.
ghost use Rattle.std.specs.Prelude.{◌≡◌, ◌^◌, ◌<◌, ◌++◌, ℕ, List, Ok};
ghost use Rattle.greeting.specs.Greeting.{greeting_text};
ghost use Rattle.greeting.specs.declared.greeting.Greeting.{Greeting as Said};

use crate::greeting::Greeting;
use kv_types::Refusal;

/// No greeting's bytes begin another's: it can be read back in only one way, whatever follows it.
pub fn one_spelling()
    ensures { (a b : Said) (x y : List ℕ) → a.version < 2 ^ 64 → a.pair < 2 ^ 64 → b.version < 2 ^ 64 → b.pair < 2 ^ 64
        → greeting_text a ++ x ≡ greeting_text b ++ y → (a ≡ b) × (x ≡ y) }
{}

/// What was written is read back.
pub fn written_is_read(greeting: &Greeting) -> Result<Greeting, Refusal>
    ensures { result ≡ Ok greeting.now }
{
    one_spelling();
    Greeting::read(&greeting.to_bytes())
}
