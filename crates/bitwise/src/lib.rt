// Bits of a message fetched one at a time: the contract of `access::fetch` with another body, for the benchmark alone.
#![tactic(auto)]

ghost use Rattle.std.specs.Prelude.{◌≡◌, ◌+◌, ◌*◌, ◌<◌, ◌≤◌, length, take, drop};
ghost use Rattle.bits.specs.Bits.{number_of, unpack};
ghost use Rattle.bits.specs.Access.{most_octets, fetched};

use bits::BitPlace;

// The bit at a place, as 0 or 1.
fn bit_at(message: &[u8], at: usize) -> u64
    requires { at < 8 * length message.now }
    ensures { (result ≡ number_of (take 1 (drop at (unpack message.now)))) × (result < 2) }
{
    (window::octet_inside(message, at / 8) >> (7 - at % 8)) % 2
}

// The k bits from a place on, all of them there, as a number.
fn bits_from(message: &[u8], from: usize, k: u32) -> u32
    requires { (from + k ≤ 8 * length message.now) × (length message.now ≤ most_octets) × (k ≤ 32) }
    ensures { result ≡ number_of (take k (drop from (unpack message.now))) }
{
    let mut number = 0;
    for done in 0..k as usize {
        number = 2 * number + bit_at(message, from + done);
    }
    number as u32
}

// The k bits from a place on, as a number.
pub fn fetch(message: &[u8], place: BitPlace, k: u32) -> Option<(u32, BitPlace)>
    requires { (length message.now ≤ most_octets) × (k ≤ 32) }
    ensures { result ≡ fetched message.now place.0 k }
{
    let end = place.0.checked_add(k as usize)?;
    if 8 * message.len() < end {
        return None;
    }
    Some((bits_from(message, place.0, k), BitPlace(end)))
}
