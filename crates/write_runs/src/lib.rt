// Runs of values into octets of an output. What a run needs is tested once, for all of its octets; the loop over them has one
// test alone, whether a value is an octet.
#![tactic(auto)]

ghost use Rattle.std.specs.Prelude.{false, ◌++◌, ◌≡◌, ◌+◌, ◌-◌, ◌*◌, ◌/◌, ◌<◌, ◌≤◌, pos, length, get_or};
ghost use Rattle.bits.specs.Access.{most_octets};
ghost use Rattle.values.specs.Values.{values_in};
ghost use Rattle.write_runs.specs.Runs.{is_octet, reach, Puts, Written};

use bits::{BitPlace, OctetSize};

// Puts values into the output, the first so many bits into an octet, up to the first that is no octet; tells how many.
fn write_numbers(
    values: &[i64],
    index: usize,
    count: usize,
    output: &mut [u8],
    at: usize,
    into: u32,
) -> usize
    requires { (into < 8) × (count ≤ length values.now - index) × (8 * count ≤ 8 * length output.old - (8 * at + into)) }
    ensures { (result ≤ count) × (result < count → is_octet (get_or values.now (index + result) (pos 0)) ≡ false) × Puts values.now index result output.old (8 * at + into) output.new }
{
    let mut last = window::octet(output, at);
    for done in 0..count {
        let Ok(octet) = u8::try_from(values[index + done]) else {
            return done;
        };
        last = access::put_octet(output, at + done, into, last, octet);
    }
    count
}

// The same, of values that are eight octets each.
fn write_packed(
    packed: &[u8],
    index: usize,
    count: usize,
    output: &mut [u8],
    at: usize,
    into: u32,
) -> usize
    requires { (into < 8) × (count ≤ length packed.now / 8 - index) × (8 * count ≤ 8 * length output.old - (8 * at + into)) }
    ensures { (result ≤ count) × (result < count → is_octet (get_or (values_in packed.now) (index + result) (pos 0)) ≡ false) × Puts (values_in packed.now) index result output.old (8 * at + into) output.new }
{
    let mut last = window::octet(output, at);
    for done in 0..count {
        let Ok(octet) = u8::try_from(values::value_in(packed, index + done)) else {
            return done;
        };
        last = access::put_octet(output, at + done, into, last, octet);
    }
    count
}

// Puts up to count values into the output from a place on: as many as there are and there is room for, up to the first that is
// no octet. Tells how many; the next one, if any, is for the caller to judge.
pub fn write(
    values: &[i64],
    packed: &[u8],
    index: usize,
    count: usize,
    output: &mut [u8],
    place: BitPlace,
) -> usize
    requires { length output.old ≤ most_octets }
    ensures { Written (values.now ++ values_in packed.now) (reach values.now packed.now) index count output.old place.0 result output.new }
{
    let first = place.octets_before();
    let into = place.bits_into_octet();
    let end = BitPlace::after(OctetSize(output.len()));
    let there = OctetSize::between(place, end);
    let room = values::fitting(there.0, 0, count);
    if values.is_empty() {
        let listed = values::fitting(packed.len() / 8, index, room);
        return write_packed(packed, index, listed, output, first.0, into);
    }
    let listed = values::fitting(values.len(), index, room);
    write_numbers(values, index, listed, output, first.0, into)
}
