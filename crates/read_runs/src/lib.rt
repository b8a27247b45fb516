// Runs of octets of a message into values. What a run needs is tested once, for all of its octets; the loops over them have no
// test of their own, and take four at a time, the last few one by one.
#![tactic(auto)]

ghost use Rattle.std.specs.Prelude.{◌≡◌, ◌+◌, ◌-◌, ◌*◌, ◌/◌, ◌<◌, ◌≤◌, length, drop, set};
ghost use Rattle.bits.specs.Access.{most_octets};
ghost use Rattle.bits.specs.Bits.{unpack};
ghost use Rattle.values.specs.Values.{set_value, store_all};
ghost use Rattle.read_runs.specs.Runs.{octet_values};

use bits::BitPlace;

// Keeps four octets that begin so many bits into an octet of the message as numbers. Where that is none, each is stored before
// the next is loaded, so that the compiler keeps plain loads and stores: its vector code, which widens octets to 64 bits in steps,
// takes longer. Otherwise they are cut out of the five octets that they lie in, which one shift serves.
fn read_four(message: &[u8], from: usize, into: u32, values: &mut [i64], at: usize)
    requires { (into < 8) × (8 * from + into + 32 ≤ 8 * length message.now) × (length message.now ≤ most_octets) × (at + 4 ≤ length values.old) }
    ensures { values.new ≡ store_all set values.old at (octet_values 4 (drop (8 * from + into) (unpack message.now))) }
{
    if into == 0 {
        values[at] = access::octet_at(message, from, into) as i64;
        values[at + 1] = access::octet_at(message, from + 1, into) as i64;
        values[at + 2] = access::octet_at(message, from + 2, into) as i64;
        values[at + 3] = access::octet_at(message, from + 3, into) as i64;
        return;
    }
    let window = window::window_inside(message, from) >> (8 - into);
    values[at] = (window / 16777216 % 256) as i64;
    values[at + 1] = (window / 65536 % 256) as i64;
    values[at + 2] = (window / 256 % 256) as i64;
    values[at + 3] = (window % 256) as i64;
}

// So many times four octets.
fn read_fours(message: &[u8], from: usize, into: u32, fours: usize, values: &mut [i64], at: usize)
    requires { (into < 8) × (32 * fours ≤ 8 * length message.now - (8 * from + into)) × (length message.now ≤ most_octets) × (4 * fours ≤ length values.old - at) }
    ensures { values.new ≡ store_all set values.old at (octet_values (4 * fours) (drop (8 * from + into) (unpack message.now))) }
{
    for done in 0..fours {
        read_four(message, from + 4 * done, into, values, at + 4 * done);
    }
}

// Keeps the octets that begin so many bits into an octet of the message as numbers, as far as the slice reaches.
pub fn read_numbers(
    message: &[u8],
    from: usize,
    into: u32,
    count: usize,
    values: &mut [i64],
    at: usize,
)
    requires { (into < 8) × (8 * count ≤ 8 * length message.now - (8 * from + into)) × (length message.now ≤ most_octets) }
    ensures { values.new ≡ store_all set values.old at (octet_values count (drop (8 * from + into) (unpack message.now))) }
{
    let fit = values::fitting(values.len(), at, count);
    let fours = fit / 4;
    read_fours(message, from, into, fours, values, at);
    for done in fours * 4..fit {
        values[at + done] = access::octet_at(message, from + done, into) as i64;
    }
}

// As read_four, each as eight octets.
fn packed_four(message: &[u8], from: usize, into: u32, packed: &mut [u8], at: usize)
    requires { (into < 8) × (8 * from + into + 32 ≤ 8 * length message.now) × (length message.now ≤ most_octets) × (at + 4 ≤ length packed.old / 8) }
    ensures { packed.new ≡ store_all set_value packed.old at (octet_values 4 (drop (8 * from + into) (unpack message.now))) }
{
    if into == 0 {
        let first = access::octet_at(message, from, into);
        values::store_value(packed, at, first as i64);
        let second = access::octet_at(message, from + 1, into);
        values::store_value(packed, at + 1, second as i64);
        let third = access::octet_at(message, from + 2, into);
        values::store_value(packed, at + 2, third as i64);
        let fourth = access::octet_at(message, from + 3, into);
        values::store_value(packed, at + 3, fourth as i64);
        return;
    }
    let window = window::window_inside(message, from) >> (8 - into);
    values::store_value(packed, at, (window / 16777216 % 256) as i64);
    values::store_value(packed, at + 1, (window / 65536 % 256) as i64);
    values::store_value(packed, at + 2, (window / 256 % 256) as i64);
    values::store_value(packed, at + 3, (window % 256) as i64);
}

// As read_fours, each as eight octets.
fn packed_fours(message: &[u8], from: usize, into: u32, fours: usize, packed: &mut [u8], at: usize)
    requires { (into < 8) × (32 * fours ≤ 8 * length message.now - (8 * from + into)) × (length message.now ≤ most_octets) × (4 * fours ≤ length packed.old / 8 - at) }
    ensures { packed.new ≡ store_all set_value packed.old at (octet_values (4 * fours) (drop (8 * from + into) (unpack message.now))) }
{
    for done in 0..fours {
        packed_four(message, from + 4 * done, into, packed, at + 4 * done);
    }
}

// As read_numbers, each as eight octets.
pub fn read_packed(
    message: &[u8],
    from: usize,
    into: u32,
    count: usize,
    packed: &mut [u8],
    at: usize,
)
    requires { (into < 8) × (8 * count ≤ 8 * length message.now - (8 * from + into)) × (length message.now ≤ most_octets) }
    ensures { packed.new ≡ store_all set_value packed.old at (octet_values count (drop (8 * from + into) (unpack message.now))) }
{
    let fit = values::fitting(packed.len() / 8, at, count);
    let fours = fit / 4;
    packed_fours(message, from, into, fours, packed, at);
    for done in fours * 4..fit {
        let octet = access::octet_at(message, from + done, into);
        values::store_value(packed, at + done, octet as i64);
    }
}

// Keeps the octets from a place of the message on, all of them there, in either slice that has places for them.
pub fn read(
    message: &[u8],
    place: BitPlace,
    count: usize,
    values: &mut [i64],
    packed: &mut [u8],
    at: usize,
)
    requires { (8 * count ≤ 8 * length message.now - place.0) × (length message.now ≤ most_octets) }
    ensures { (values.new ≡ store_all set values.old at (octet_values count (drop place.0 (unpack message.now)))) × (packed.new ≡ store_all set_value packed.old at (octet_values count (drop place.0 (unpack message.now)))) }
{
    let first = place.octets_before();
    let into = place.bits_into_octet();
    read_numbers(message, first.0, into, count, values, at);
    read_packed(message, first.0, into, count, packed, at);
}
