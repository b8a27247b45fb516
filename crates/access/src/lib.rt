// Bits of a message fetched as a number, up to 32 of them, and up to 32 stored. Both take whole octets, one, two or five at a
// time, and no step for each bit.
#![tactic(auto)]

ghost use Rattle.std.specs.Prelude.{◌≡◌, ◌+◌, ◌-◌, ◌*◌, ◌%◌, ◌<◌, ◌≤◌, ◌^◌, leb, length, get_or, take, drop};
ghost use Rattle.bits.specs.Bits.{number_of, bits_of, unpack};
ghost use Rattle.bits.specs.Access.{most_octets, fetched, stored, overwritten};

use bits::BitPlace;

// Whether the k bits from a place on lie within so many octets. They do where four octets follow the place's; else the octets
// that hold them are counted.
fn inside(octets: usize, place: BitPlace, k: u32) -> bool
    requires { (octets ≤ most_octets) × (k ≤ 32) }
    ensures { result ≡ leb (place.0 + k) (8 * octets) }
{
    let first = place.octets_before();
    if first.0 + 4 < octets {
        return true;
    }
    let end = place.bits_into_octet() + k;
    first.0 + end.div_ceil(8) as usize <= octets
}

// How many bits follow the k from a place on in the five octets that begin with the place's.
fn bits_behind(place: BitPlace, k: u32) -> u32
    requires { k ≤ 32 }
    ensures { result ≡ 40 - place.0 % 8 - k }
{
    40 - place.bits_into_octet() - k
}

// The k bits from a place on, as a number.
pub fn fetch(message: &[u8], place: BitPlace, k: u32) -> Option<(u32, BitPlace)>
    requires { (length message.now ≤ most_octets) × (k ≤ 32) }
    ensures { result ≡ fetched message.now place.0 k }
{
    if !inside(message.len(), place, k) {
        return None;
    }
    let first = place.octets_before();
    let window = window::window(message, first.0);
    let into = place.bits_into_octet();
    let next = BitPlace(place.0 + k as usize);
    Some((window::cut(window, into, k), next))
}

// The eight bits that begin so many bits into an octet, all of them there. Without a test for each octet, so that a loop over
// a run of them has none.
pub fn octet_at(message: &[u8], at: usize, into: u32) -> u64
    requires { (into < 8) × (8 * at + into + 8 ≤ 8 * length message.now) }
    ensures { (result ≡ number_of (take 8 (drop (8 * at + into) (unpack message.now)))) × (result < 256) }
{
    let first = window::octet_inside(message, at);
    if into == 0 {
        return first;
    }
    let second = window::octet_inside(message, at + 1);
    ((256 * first + second) >> (8 - into)) % 256
}

// The last k bits of a message, all of them in its last octet.
pub fn last_bits(message: &[u8], k: u32) -> u64
    requires { (0 < length message.now) × (k ≤ 8) }
    ensures { result ≡ number_of (drop (8 * length message.now - k) (unpack message.now)) }
{
    let last = window::octet_inside(message, message.len() - 1);
    last % window::power(k)
}

// Replaces k bits of an octet, with so many bits below them, by those of v; every other bit stays.
pub fn replace_in_octet(output: &mut [u8], at: usize, below: u32, k: u32, v: u32)
    requires { (k + below ≤ 8) × (v < 2 ^ k) × (at < length output.old) }
    ensures { unpack output.new ≡ overwritten (unpack output.old) (8 * at + (8 - below - k)) (bits_of k v) }
{
    let octet = window::octet_inside(output, at);
    output[at] = (window::replace(octet, below, k, v) % 256) as u8;
}

// Replaces k bits of an octet, which the caller knows, and the one after it, with so many bits below them, by those of v; every
// other bit stays. Tells the second octet as it is then.
fn replace_in_pair(output: &mut [u8], at: usize, first: u64, below: u32, k: u32, v: u32) -> u64
    requires { (k + below ≤ 16) × (v < 2 ^ k) × (at + 1 < length output.old) × (first ≡ get_or output.old at 0) }
    ensures { (unpack output.new ≡ overwritten (unpack output.old) (8 * at + (16 - below - k)) (bits_of k v)) × (result ≡ get_or output.new (at + 1) 0) }
{
    let second = window::octet_inside(output, at + 1);
    let pair = window::replace(256 * first + second, below, k, v);
    output[at] = (pair / 256 % 256) as u8;
    output[at + 1] = (pair % 256) as u8;
    pair % 256
}

// Stores the k bits of v from a place on, in two octets where they lie in two, else in the five that begin with the place's;
// every other bit stays. Kept a call, so that the way for one octet, in front of it, is small enough to be compiled into its callers.
#[inline(never)]
fn store_wide(output: &mut [u8], place: BitPlace, k: u32, v: u32) -> Option<BitPlace>
    requires { (length output.old ≤ most_octets) × (k ≤ 32) × (v < 2 ^ k) }
    ensures { (result ≡ stored output.old place.0 k) × (unpack output.new ≡ overwritten (unpack output.old) place.0 (bits_of k v)) }
{
    if !inside(output.len(), place, k) {
        return None;
    }
    let next = BitPlace(place.0 + k as usize);
    let first = place.octets_before();
    let at = first.0;
    let end = place.bits_into_octet() + k;
    if end <= 16 && at + 1 < output.len() {
        replace_in_pair(output, at, window::octet_inside(output, at), 16 - end, k, v);
        return Some(next);
    }
    let window = window::window(output, at);
    window::put_window(
        output,
        at,
        window::replace(window, bits_behind(place, k), k, v),
    );
    Some(next)
}

// Stores the k bits of v from a place on; every other bit stays. One load and one store where they lie in one octet.
pub fn store(output: &mut [u8], place: BitPlace, k: u32, v: u32) -> Option<BitPlace>
    requires { (length output.old ≤ most_octets) × (k ≤ 32) × (v < 2 ^ k) }
    ensures { (result ≡ stored output.old place.0 k) × (unpack output.new ≡ overwritten (unpack output.old) place.0 (bits_of k v)) }
{
    let first = place.octets_before();
    let end = place.bits_into_octet() + k;
    if output.len() <= first.0 || 8 < end {
        return store_wide(output, place, k, v);
    }
    replace_in_octet(output, first.0, 8 - end, k, v);
    Some(BitPlace(place.0 + k as usize))
}

// Stores an octet that begins so many bits into an octet of the output, all of it there; every other bit stays. Without a
// test for each octet, as `octet_at`. Where it lies across two, the caller knows the first, and is told the second as it is then:
// so a run of them never waits for what it has just stored.
pub fn put_octet(output: &mut [u8], at: usize, into: u32, first: u64, octet: u8) -> u64
    requires { (into < 8) × (8 * at + into + 8 ≤ 8 * length output.old) × (0 < into → first ≡ get_or output.old at 0) }
    ensures { (unpack output.new ≡ overwritten (unpack output.old) (8 * at + into) (bits_of 8 octet)) × (0 < into → result ≡ get_or output.new (at + 1) 0) }
{
    if into == 0 {
        output[at] = octet;
        return 0;
    }
    replace_in_pair(output, at, first, 8 - into, 8, u32::from(octet))
}
