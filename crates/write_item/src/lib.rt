// Writing one item into an output. Each function answers before it stores anything whether the item allows the value.
#![tactic(auto)]

ghost use Rattle.std.specs.Prelude.{◌≡◌, ◌+◌, ◌*◌, ◌≤◌, ◌<◌, ◌^◌, ◌-ℤ◌, length};
ghost use Rattle.std.specs.Int.Signed.{mag};
ghost use Rattle.bits.specs.Bits.{bits_of, unpack};
ghost use Rattle.bits.specs.Access.{most_octets, overwritten};
ghost use Rattle.item.specs.Code.{Code, variable_ones, length_ones};
ghost use Rattle.item.specs.Answers.{put_at, bits_after, branches_at};
ghost use Rattle.write_item.specs.Steps.{distance_of, put_of};

use answer::Reason;
use bits::BitPlace;
use item::Form;

// A value's distance above the lowest, which is at most a span. Compares before it subtracts, so that no value overflows.
fn distance(value: i64, low: i64, span: u32) -> Result<u32, Reason>
    requires { mag low ≤ 2147483648 }
    ensures { result ≡ distance_of span (value -ℤ low) }
{
    let high = low + i64::from(span);
    if value < low || high < value {
        return Err(Reason::WrongValue);
    }
    Ok((value - low) as u32)
}

// Stores the k bits of n from a place on.
fn put_bits(output: &mut [u8], place: BitPlace, k: u32, n: u32) -> Result<BitPlace, Reason>
    requires { (length output.old ≤ most_octets) × (k ≤ 32) × (n < 2 ^ k) }
    ensures { (result ≡ put_of output.old place.0 k) × (unpack output.new ≡ overwritten (unpack output.old) place.0 (bits_of k n)) }
{
    access::store(output, place, k, n).ok_or(Reason::NoRoom)
}

// A number: its distance above low, in the fewest bits for the span.
pub fn number(
    output: &mut [u8],
    place: BitPlace,
    low: i64,
    span: u32,
    value: i64,
) -> Result<BitPlace, Reason>
    requires { (length output.old ≤ most_octets) × (mag low ≤ 2147483648) }
    ensures { (result ≡ put_at (Code.number low span) output.old place.0 value) × (unpack output.new ≡ bits_after (Code.number low span) (unpack output.old) place.0 value) }
{
    let n = distance(value, low, span)?;
    put_bits(output, place, item::width(span), n)
}

// How many ones a variable number has in front.
fn variable_ones(n: u32) -> u32
    ensures { (result ≡ variable_ones n) × (result ≤ 3) }
{
    if n < Form::TWO_OCTETS {
        0
    } else if n < Form::THREE_OCTETS {
        1
    } else if n < Form::FOUR_OCTETS {
        2
    } else {
        3
    }
}

// A variable number.
pub fn variable(output: &mut [u8], place: BitPlace, value: i64) -> Result<BitPlace, Reason>
    requires { length output.old ≤ most_octets }
    ensures { (result ≡ put_at Code.variable output.old place.0 value) × (unpack output.new ≡ bits_after Code.variable (unpack output.old) place.0 value) }
{
    let n = distance(value, 0, Form::LARGEST)?;
    let form = Form::after_ones(variable_ones(n));
    put_bits(output, place, form.bits, form.leading + (n - form.base))
}

// How many ones a length has in front.
fn length_ones(n: u32) -> u32
    ensures { (result ≡ length_ones n) × (result ≤ 1) }
{
    if n < Form::TWO_OCTETS { 0 } else { 1 }
}

// A length, from least to most.
pub fn length(
    output: &mut [u8],
    place: BitPlace,
    least: u32,
    most: u32,
    value: i64,
) -> Result<BitPlace, Reason>
    requires { length output.old ≤ most_octets }
    ensures { (result ≡ put_at (Code.length_within least most) output.old place.0 value) × (unpack output.new ≡ bits_after (Code.length_within least most) (unpack output.old) place.0 value) }
{
    let n = distance(value, 0, Form::LARGEST_LENGTH)?;
    if n < least || most < n {
        return Err(Reason::WrongValue);
    }
    let form = Form::after_ones(length_ones(n));
    put_bits(output, place, form.bits, form.leading + n)
}

// The index of a choice of m branches, whose references stand in a table from an offset on.
pub fn index(
    output: &mut [u8],
    place: BitPlace,
    table: &[u8],
    from: usize,
    m: usize,
    value: i64,
) -> Result<BitPlace, Reason>
    requires { (length output.old ≤ most_octets) × (1 ≤ m) × (m ≤ 128) × (from + 2 * m ≤ length table.now) }
    ensures { (result ≡ put_at (Code.index (branches_at table.now from m)) output.old place.0 value) × (unpack output.new ≡ bits_after (Code.index (branches_at table.now from m)) (unpack output.old) place.0 value) }
{
    let last = (m - 1) as u32;
    let n = distance(value, 0, last)?;
    if !item::has_branch(table, from, m, n as usize) {
        return Err(Reason::WrongValue); // a reserved branch
    }
    put_bits(output, place, item::width(last), n)
}
