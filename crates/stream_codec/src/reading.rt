//! Reading numbers and runs of bytes from the front of bytes of which more may come.
ghost use Rattle.std.specs.Prelude.{◌≡◌, ◌+◌, ◌^◌, ◌≤◌, length};
ghost use Rattle.kv_types.specs.Reader.{Gives};
ghost use Rattle.stream_codec.specs.Bytes.{span, ArePlaces, two_places, four_places, eight_places, number_at, bytes_at, counted_at};

use kv_types::Stop;

/// The big-endian number at the front, of as many bytes as `places` tells what they count. It is broken at the first byte with which no
/// number from `least` to `most` begins.
fn number_at<'a>(
    bytes: &'a [u8],
    places: &[u64],
    least: u64,
    most: u64,
) -> Result<(u64, &'a [u8]), Stop<()>>
    requires places { ArePlaces places.now }
    requires fits { span places.now ≤ 2 ^ 64 }
    ensures { Gives (λ x. (x.0, x.1.now)) result (number_at places.now least most bytes.now) }
{
    let mut sum = 0;
    let mut rest = bytes;
    for place in places {
        let Some((byte, after)) = rest.split_first() else {
            return Err(Stop::Short);
        };
        let lowest = sum + u64::from(*byte) * *place;
        let highest = lowest + (*place - 1);
        if lowest <= most && least <= highest {
            sum = lowest;
            rest = after;
        } else {
            return Err(Stop::Broken(()));
        }
    }
    Ok((sum, rest))
}

/// A number of two bytes, at most `most`.
pub(crate) fn u16_at(bytes: &[u8], most: u64) -> Result<(u64, &[u8]), Stop<()>>
    ensures { Gives (λ x. (x.0, x.1.now)) result (number_at two_places 0 most bytes.now) }
{
    number_at(bytes, &[1 << 8, 1], 0, most)
}

/// A number of four bytes, at most `most`.
pub(crate) fn u32_at(bytes: &[u8], most: u64) -> Result<(u64, &[u8]), Stop<()>>
    ensures { Gives (λ x. (x.0, x.1.now)) result (number_at four_places 0 most bytes.now) }
{
    number_at(bytes, &[1 << 24, 1 << 16, 1 << 8, 1], 0, most)
}

/// This number, in four bytes.
pub(crate) fn u32_of(bytes: &[u8], number: u64) -> Result<(u64, &[u8]), Stop<()>>
    ensures { Gives (λ x. (x.0, x.1.now)) result (number_at four_places number number bytes.now) }
{
    number_at(bytes, &[1 << 24, 1 << 16, 1 << 8, 1], number, number)
}

/// A number of eight bytes, from `least` to `most`.
pub(crate) fn u64_at(bytes: &[u8], least: u64, most: u64) -> Result<(u64, &[u8]), Stop<()>>
    ensures { Gives (λ x. (x.0, x.1.now)) result (number_at eight_places least most bytes.now) }
{
    let places = [
        1 << 56,
        1 << 48,
        1 << 40,
        1 << 32,
        1 << 24,
        1 << 16,
        1 << 8,
        1,
    ];
    number_at(bytes, &places, least, most)
}

/// The first `count` bytes.
pub(crate) fn bytes_at(bytes: &[u8], count: u64) -> Result<(&[u8], &[u8]), Stop<()>>
    ensures { Gives (λ x. (x.0.now, x.1.now)) result (bytes_at count bytes.now) }
{
    let count = count as usize;
    if bytes.len() < count {
        return Err(Stop::Short);
    }
    Ok(bytes.split_at(count))
}
