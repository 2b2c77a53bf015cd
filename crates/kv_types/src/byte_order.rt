//! The order of runs of bytes, read several at a time.
ghost use Rattle.std.specs.Prelude.{◌≡◌, ◌≤◌, drop, length};
ghost use Rattle.std.specs.Ordering.{nat_cmp};
ghost use Rattle.std.specs.Cmp.Lexicographic.{slice_cmp};
ghost use Rattle.kv_types.specs.ByteOrder.{IsReadOff};

use std::cmp::Ordering;

/// The order of two runs of bytes, as slices have it. The first sixteen bytes are compared as numbers, so that short keys take few steps.
pub fn compare_bytes(a: &[u8], b: &[u8]) -> Ordering
    ensures { result ≡ slice_cmp nat_cmp a.now b.now }
{
    if a.len() < 8 || b.len() < 8 {
        return compare_few(a, b);
    }
    let (x, y) = (read_eight(a), read_eight(b));
    if x == y {
        compare_later(&a[8..], &b[8..])
    } else {
        x.cmp(&y)
    }
}

/// The same of what comes after eight equal bytes.
fn compare_later(a: &[u8], b: &[u8]) -> Ordering
    ensures { result ≡ slice_cmp nat_cmp a.now b.now }
{
    if a.len() < 8 || b.len() < 8 {
        return compare_few(a, b);
    }
    let (x, y) = (read_eight(a), read_eight(b));
    if x == y {
        a[8..].cmp(&b[8..])
    } else {
        x.cmp(&y)
    }
}

/// The same where one of the runs is shorter than eight bytes.
fn compare_few(a: &[u8], b: &[u8]) -> Ordering
    ensures { result ≡ slice_cmp nat_cmp a.now b.now }
{
    if a.len() < 4 || b.len() < 4 {
        return a.cmp(b);
    }
    let (x, y) = (read_four(a), read_four(b));
    if x == y {
        a[4..].cmp(&b[4..])
    } else {
        x.cmp(&y)
    }
}

/// The number that the first eight bytes spell, the greatest first.
#[inline]
fn read_eight(bytes: &[u8]) -> u64
    requires { 8 ≤ length bytes.now }
    ensures { IsReadOff 8 bytes.now result (drop 8 bytes.now) }
{
    u64::from_be_bytes([
        bytes[0], bytes[1], bytes[2], bytes[3], bytes[4], bytes[5], bytes[6], bytes[7],
    ])
}

/// The number that the first four bytes spell, the greatest first.
#[inline]
fn read_four(bytes: &[u8]) -> u32
    requires { 4 ≤ length bytes.now }
    ensures { IsReadOff 4 bytes.now result (drop 4 bytes.now) }
{
    u32::from_be_bytes([bytes[0], bytes[1], bytes[2], bytes[3]])
}
