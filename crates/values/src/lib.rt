// Values in memory, as a slice of 64-bit numbers or as octets, eight for each value. Every call lends both slices, and a
// caller that has one of them lends the other empty: so that one engine serves both, and one that keeps nothing.
#![tactic(auto)]

ghost use Rattle.std.specs.Prelude.{◌≡◌, ◌++◌, ◌+◌, ◌-◌, ◌*◌, ◌/◌, ◌<◌, ◌≤◌, min, pos, length, get_or, set, take, drop, replicate};
ghost use Rattle.std.proofs.Math.Seq.{paste};
ghost use Rattle.values.specs.Values.{set_value, values_in};

// Keeps a value at an index of a slice of numbers that has it.
fn keep_number(values: &mut [i64], at: usize, value: i64)
    ensures { values.new ≡ set values.old at value }
{
    if at < values.len() {
        values[at] = value;
    }
}

// Stores a value at an index of octets, in the eight that are the index's, all of them there.
pub fn store_value(octets: &mut [u8], at: usize, value: i64)
    requires { 8 * at + 8 ≤ length octets.old }
    ensures { octets.new ≡ set_value octets.old at value }
{
    let from = 8 * at;
    for (i, octet) in value.to_le_bytes().iter().enumerate() {
        octets[from + i] = *octet;
    }
}

// Keeps a value at an index of octets that has it.
fn keep_octets(octets: &mut [u8], at: usize, value: i64)
    ensures { octets.new ≡ set_value octets.old at value }
{
    if at < octets.len() / 8 {
        store_value(octets, at, value);
    }
}

// Keeps a value at an index of either slice that has it.
pub fn keep(values: &mut [i64], octets: &mut [u8], at: usize, value: i64)
    ensures { (values.new ≡ set values.old at value) × (octets.new ≡ set_value octets.old at value) }
{
    keep_number(values, at, value);
    keep_octets(octets, at, value);
}

// How many values the two slices hold.
pub fn count(values: &[i64], octets: &[u8]) -> usize
    ensures { result ≡ length values.now + length octets.now / 8 }
{
    values.len() + octets.len() / 8
}

// The value at an index of octets.
pub fn value_in(octets: &[u8], at: usize) -> i64
    requires { at < length octets.now / 8 }
    ensures { result ≡ get_or (values_in octets.now) at (pos 0) }
{
    let from = 8 * at;
    i64::from_le_bytes([
        octets[from],
        octets[from + 1],
        octets[from + 2],
        octets[from + 3],
        octets[from + 4],
        octets[from + 5],
        octets[from + 6],
        octets[from + 7],
    ])
}

// The value at an index: those of the first slice, then those of the octets.
pub fn value_at(values: &[i64], octets: &[u8], at: usize) -> i64
    requires { at < length values.now + length octets.now / 8 }
    ensures { result ≡ get_or (values.now ++ values_in octets.now) at (pos 0) }
{
    match values.get(at) {
        Some(value) => *value,
        None => value_in(octets, at - values.len()),
    }
}

// How many of count there are places for, from one of so many places on.
pub fn fitting(length: usize, at: usize, count: usize) -> usize
    ensures { result ≡ min count (length - at) }
{
    count.min(length.saturating_sub(at))
}

// Zeroes a slice from an index on, of values or of octets.
pub fn clear<T: Copy>(slice: &mut [T], from: usize, zero: T)
    requires { from ≤ length slice.old }
    ensures { slice.new ≡ take from slice.old ++ replicate (length slice.old - from) zero }
{
    for item in &mut slice[from..] {
        *item = zero;
    }
}

// Copies octets into a slice, from an index on.
pub fn copy_octets(octets: &mut [u8], from: usize, copied: &[u8])
    requires { from + length copied.now ≤ length octets.old }
    ensures { octets.new ≡ paste octets.old from copied.now (length copied.now) }
{
    for (at, octet) in copied.iter().enumerate() {
        octets[from + at] = *octet;
    }
}
