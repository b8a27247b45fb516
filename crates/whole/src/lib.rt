// Whole octets of a message, from an octet's first bit on: a fetch that has nothing to cut, and the numbers that it reads.
#![tactic(auto)]

ghost use Rattle.std.specs.Prelude.{◌≡◌, ◌+◌, ◌*◌, ◌%◌, ◌<◌, ◌≤◌, ◌^◌, pos, length, take, drop, set};
ghost use Rattle.bits.specs.Access.{most_octets, fetched};
ghost use Rattle.bits.specs.Bits.{number_of, unpack};
ghost use Rattle.values.specs.Values.{set_value};
ghost use Rattle.whole.specs.Sized.{number_sized};
ghost use Rattle.read_steps.specs.Reads.{Reads, state_at, kept_step, kept_in};

use answer::{Reason, Refusal};
use bits::BitPlace;
use read_steps::Cursor;

// The number that one octet, two or three spell, all of them there.
fn spelt(message: &[u8], at: usize, octets: usize) -> u64
    requires { (length message.now ≤ most_octets) × (1 ≤ octets) × (octets ≤ 3) × (at + octets ≤ length message.now) }
    ensures { (result ≡ number_of (take (8 * octets) (drop (8 * at) (unpack message.now)))) × (result < 2 ^ 24) }
{
    let one = window::octet_inside(message, at);
    if octets == 1 {
        return one;
    }
    let two = 256 * one + window::octet_inside(message, at + 1);
    if octets == 2 {
        return two;
    }
    256 * two + window::octet_inside(message, at + 2)
}

// One octet, two or three from a place on, as a number.
pub fn fetch(message: &[u8], place: BitPlace, octets: usize) -> Option<(u32, BitPlace)>
    requires { (length message.now ≤ most_octets) × (place.0 % 8 ≡ 0) × (1 ≤ octets) × (octets ≤ 3) }
    ensures { result ≡ fetched message.now place.0 (8 * octets) }
{
    let from = place.0;
    let first = place.octets_before();
    let at = first.0;
    if message.len() < at + octets {
        return None;
    }
    let number = spelt(message, at, octets);
    Some((number as u32, BitPlace(from + 8 * octets)))
}

// A number that was read is kept, where there is room for it.
pub fn keep(
    number: u32,
    next: BitPlace,
    values: &mut [i64],
    packed: &mut [u8],
    room: usize,
    cursor: Cursor,
) -> Result<Cursor, Refusal>
    ensures { (result ≡ kept_step (Ok (pos number, next)) room cursor) × (values.new ≡ kept_in set (Ok (pos number, next)) room cursor.count values.old) × (packed.new ≡ kept_in set_value (Ok (pos number, next)) room cursor.count packed.old) }
{
    read_steps::keep(i64::from(number), next, values, packed, room, cursor)
}

// A number of one octet or two, kept.
pub fn number(
    octets: usize,
    message: &[u8],
    values: &mut [i64],
    packed: &mut [u8],
    room: usize,
    cursor: Cursor,
) -> Result<Cursor, Refusal>
    requires { (length message.now ≤ most_octets) × (cursor.place.0 % 8 ≡ 0) × (1 ≤ octets) × (octets ≤ 2) }
    ensures { Reads message.now room (number_sized octets) (state_at cursor values.old packed.old) values.new packed.new result }
{
    let f = fetch(&*message, cursor.place, octets);
    let Some((number, next)) = f else {
        return Err(Reason::MessageEnds.at_place(cursor.place.0));
    };
    keep(number, next, values, packed, room, cursor)
}
