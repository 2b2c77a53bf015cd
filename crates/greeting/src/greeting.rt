//! The greeting of a link, its bytes, and who may link.
ghost use Rattle.std.specs.Prelude.{◌≡◌, ◌≢◌, ◌↔◌, ◌^◌, ◌<◌, ℕ, Ok, Err, IfOk, IfErr, IsErr, get_or};
ghost use Rattle.std.specs.Option.{SomeIff};
ghost use Rattle.std.specs.Int.{w64, to_be_bytes};
ghost use Rattle.kv_types.specs.declared.refusal.Refusal.TheVariants.{WrongLink, WrongPair};
ghost use Rattle.greeting.specs.Greeting.{MayLink, SpeaksAsOther, IsOfOtherPair, greeting_text};

use kv_types::Refusal;

/// The version of the links that this release speaks. Two nodes link only where they speak the same.
pub const LINK_VERSION: u64 = 1;

/// How many bytes a greeting has: the first one, the version and the pair.
pub const GREETING_BYTES: usize = 1 + 8 + 8;

/// The first byte of a greeting. No frame and no acknowledgement begins with it.
const FIRST_BYTE: u8 = 8;

/// What a node says first on a link, before anything else goes either way.
#[derive(Clone, Copy, Debug, PartialEq, Eq)]
pub struct Greeting {
    /// The version of the links that it speaks.
    pub version: u64,
    /// The number of its pair, or 0 where its image has none yet.
    pub pair: u64,
}

impl Greeting {
    /// What a node of this release says whose image has this number of a pair, or 0.
    pub fn of_pair(pair: u64) -> Greeting
        ensures version { result.version ≡ LINK_VERSION }
        ensures pair { result.pair ≡ pair }
    {
        Greeting {
            version: LINK_VERSION,
            pair,
        }
    }

    /// Its bytes: the first one, and each number as eight bytes, the highest first.
    pub fn to_bytes(&self) -> [u8; GREETING_BYTES]
        ensures text { result ≡ greeting_text self.now }
        ensures fits { (self.now.version < 2 ^ 64) × (self.now.pair < 2 ^ 64) }
    {
        let Greeting { version, pair } = *self;
        let [a, b, c, d, e, f, g, h] = version.to_be_bytes();
        let [i, j, k, l, m, n, o, p] = pair.to_be_bytes();
        [FIRST_BYTE, a, b, c, d, e, f, g, h, i, j, k, l, m, n, o, p]
    }

    /// The greeting whose bytes these are.
    ///
    /// # Errors
    ///
    /// `WrongLink` just where the first of them is not that of a greeting.
    pub fn read(bytes: &[u8; GREETING_BYTES]) -> Result<Greeting, Refusal>
        ensures read { IfOk result (λ greeting. bytes.now ≡ greeting_text greeting) }
        ensures fits { IfOk result (λ greeting. (greeting.version < 2 ^ 64) × (greeting.pair < 2 ^ 64)) }
        ensures refused { IsErr result ↔ (get_or bytes.now 0 0 ≢ 8) }
        ensures cause { IfErr result (λ refusal. refusal ≡ WrongLink) }
    {
        let (first, numbers) = bytes.split_first().unwrap();
        if *first != FIRST_BYTE {
            return Err(Refusal::WrongLink);
        }
        let version = numbers.first_chunk::<8>().unwrap();
        let pair = numbers.last_chunk::<8>().unwrap();
        Ok(Greeting {
            version: number_of(version),
            pair: number_of(pair),
        })
    }
}

/// Whether a node of this greeting links with one of the other.
///
/// # Errors
///
/// `WrongLink` just where their versions differ. Else `WrongPair` just where both have a number, and not the same.
pub fn judge(own: &Greeting, theirs: &Greeting) -> Result<(), Refusal>
    ensures links { (result ≡ Ok tt) ↔ MayLink own.now theirs.now }
    ensures version { (result ≡ Err WrongLink) ↔ SpeaksAsOther own.now theirs.now }
    ensures pair { (result ≡ Err WrongPair) ↔ IsOfOtherPair own.now theirs.now }
{
    if own.version != theirs.version {
        return Err(Refusal::WrongLink);
    }
    if own.pair != 0 && theirs.pair != 0 && own.pair != theirs.pair {
        return Err(Refusal::WrongPair);
    }
    Ok(())
}

/// The number that a node of this greeting may take over from one of the other: theirs, just where it has none itself and they have one.
pub fn adopts(own: &Greeting, theirs: &Greeting) -> Option<u64>
    ensures { SomeIff result ((own.now.pair ≡ 0) × (theirs.now.pair ≢ 0)) theirs.now.pair }
{
    if own.pair == 0 && theirs.pair != 0 {
        Some(theirs.pair)
    } else {
        None
    }
}

/// The number whose bytes these are, the highest first.
fn number_of(bytes: &[u8; 8]) -> u64
    ensures { to_be_bytes w64 result ≡ bytes.now }
{
    u64::from_be_bytes(*bytes)
}
