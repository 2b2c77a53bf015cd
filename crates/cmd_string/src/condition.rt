//! The options of SET.
ghost use Rattle.std.specs.Prelude.{◌≡◌};
ghost use Rattle.std.specs.List.{list_all};
ghost use Rattle.cmd_core.specs.Contents.{has_key};
ghost use Rattle.cmd_string.specs.Condition as spec;

use bytes::Bytes;
use cmd_core::Lookup;

/// When SET writes.
#[derive(Clone, Copy, Debug, PartialEq, Eq)]
pub(crate) enum Condition {
    Always,
    /// Only where the key is absent.
    IfAbsent,
    /// Only where the key is present.
    IfPresent,
}

impl Condition {
    /// What these options ask for: none, NX alone or XX alone, as often as wanted and in any ASCII case. `None` where they are no options of SET.
    pub(crate) fn of(options: &[Bytes]) -> Option<Condition>
        ensures { result ≡ spec.condition_of options.now }
    {
        if options.is_empty() {
            Some(Condition::Always)
        } else if are_all(options, b"nx") {
            Some(Condition::IfAbsent)
        } else if are_all(options, b"xx") {
            Some(Condition::IfPresent)
        } else {
            None
        }
    }

    /// Whether to write to a key. It is looked up only where that decides.
    pub(crate) fn allows<L: Lookup>(self, lookup: &L, key: &[u8]) -> bool
        ensures { result ≡ spec.allows self (has_key (L.keyspace lookup.now) key.now) }
    {
        match self {
            Condition::Always => true,
            Condition::IfAbsent => !lookup.has(key),
            Condition::IfPresent => lookup.has(key),
        }
    }
}

fn are_all(options: &[Bytes], name: &[u8]) -> bool
    ensures { result ≡ list_all (spec.is_option name.now) options.now }
{
    for option in options {
        if !is_option(name, option.as_slice()) {
            return false;
        }
    }
    true
}

fn is_option(name: &[u8], word: &[u8]) -> bool
    ensures { result ≡ spec.is_option name.now word.now }
{
    word.eq_ignore_ascii_case(name)
}
