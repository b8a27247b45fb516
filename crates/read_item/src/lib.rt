// Reads one item of a message. The tests come in document 01's order; the answer is the value with the place after it, or the
// refusal at the item's own place.
#![tactic(auto)]

ghost use Rattle.std.specs.Prelude.{◌≡◌, ◌+◌, ◌*◌, ◌≤◌, ◌<◌, length, drop};
ghost use Rattle.std.specs.Int.Signed.{mag};
ghost use Rattle.bits.specs.Access.{most_octets};
ghost use Rattle.bits.specs.Bits.{bits_of, unpack};
ghost use Rattle.item.specs.Code.{Code, ones_up_to};
ghost use Rattle.item.specs.Answers.{item_at, branches_at};
ghost use Rattle.read_item.specs.Steps.{front_read, bounded_length};

use answer::{Reason, Refusal};
use bits::BitPlace;
use item::Form;

// The k bits from a place on. No bits are there at every place.
fn bits_at(message: &[u8], place: BitPlace, k: u32) -> Result<(u32, BitPlace), Refusal>
    requires { (length message.now ≤ most_octets) × (k ≤ 32) }
    ensures { result ≡ front_read (drop place.0 (unpack message.now)) place.0 k }
{
    if k == 0 {
        return Ok((0, place));
    }
    access::fetch(message, place, k).ok_or(Reason::MessageEnds.at_place(place.0))
}

// The eight bits from a place on: one load where they are an octet of the message.
fn octet_at(message: &[u8], place: BitPlace) -> Result<(u32, BitPlace), Refusal>
    requires { length message.now ≤ most_octets }
    ensures { result ≡ front_read (drop place.0 (unpack message.now)) place.0 8 }
{
    if place.bits_into_octet() != 0 {
        return bits_at(message, place, 8);
    }
    match message.get(place.octets_before().0) {
        Some(octet) => Ok((u32::from(*octet), BitPlace(place.0 + 8))),
        None => Err(Reason::MessageEnds.at_place(place.0)),
    }
}

// A number: its distance above low, in the fewest bits for the span.
pub fn number(
    message: &[u8],
    place: BitPlace,
    low: i64,
    span: u32,
) -> Result<(i64, BitPlace), Refusal>
    requires { (length message.now ≤ most_octets) × (mag low ≤ 2147483648) }
    ensures { result ≡ item_at (Code.number low span) message.now place.0 }
{
    let (n, next) = bits_at(message, place, item::width(span))?;
    if span < n {
        return Err(Reason::AboveSpan.at_place(place.0));
    }
    let value = low + i64::from(n);
    Ok((value, next))
}

// How many ones stand in front of an octet, counted up to 4.
fn ones_of(first: u32) -> u32
    requires { first < 256 }
    ensures { result ≡ ones_up_to 4 (bits_of 8 first) }
{
    if first < 128 {
        0
    } else if first < 192 {
        1
    } else if first < 224 {
        2
    } else if first < 240 {
        3
    } else {
        4
    }
}

// A variable number.
pub fn variable(message: &[u8], place: BitPlace) -> Result<(i64, BitPlace), Refusal>
    requires { length message.now ≤ most_octets }
    ensures { result ≡ item_at Code.variable message.now place.0 }
{
    let (first, next) = octet_at(message, place)?;
    let ones = ones_of(first);
    if ones == 0 {
        return Ok((i64::from(first), next));
    }
    if 3 < ones {
        return Err(Reason::BadVariable.at_place(place.0));
    }
    let form = Form::after_ones(ones);
    let (n, after) = bits_at(message, place, form.bits)?;
    Ok((i64::from(form.base + (n - form.leading)), after))
}

// A length at a place, in a form whose shortest length is given: whether it is that long, and within its row.
fn bounded(
    place: BitPlace,
    n: u32,
    next: BitPlace,
    shortest: u32,
    least: u32,
    most: u32,
) -> Result<(i64, BitPlace), Refusal>
    ensures { result ≡ bounded_length place.0 n next shortest least most }
{
    if n < shortest {
        return Err(Reason::BadLength.at_place(place.0)); // the long form of a short length
    }
    if n < least {
        return Err(Reason::OutsideLimits.at_place(place.0)); // below its least
    }
    if most < n {
        return Err(Reason::OutsideLimits.at_place(place.0)); // above its most
    }
    Ok((i64::from(n), next))
}

// A length, from least to most. Its tests come in document 01's order, which each refusal names.
pub fn length(
    message: &[u8],
    place: BitPlace,
    least: u32,
    most: u32,
) -> Result<(i64, BitPlace), Refusal>
    requires { length message.now ≤ most_octets }
    ensures { result ≡ item_at (Code.length_within least most) message.now place.0 }
{
    let (first, next) = octet_at(message, place)?; // its first octet
    let ones = ones_of(first);
    if ones == 0 {
        return bounded(place, first, next, 0, least, most);
    }
    if 1 < ones {
        return Err(Reason::BadLength.at_place(place.0)); // its first two bits
    }
    let form = Form::after_ones(ones);
    let (n, after) = bits_at(message, place, form.bits)?; // its second octet
    let length = n - form.leading;
    bounded(place, length, after, Form::TWO_OCTETS, least, most)
}

// The index of a choice of m branches, whose references stand in a table from an offset on.
pub fn index(
    message: &[u8],
    place: BitPlace,
    table: &[u8],
    from: usize,
    m: usize,
) -> Result<(i64, BitPlace), Refusal>
    requires { (length message.now ≤ most_octets) × (1 ≤ m) × (m ≤ 128) × (from + 2 * m ≤ length table.now) }
    ensures { result ≡ item_at (Code.index (branches_at table.now from m)) message.now place.0 }
{
    let (n, next) = bits_at(message, place, item::width((m - 1) as u32))?;
    if item::has_branch(table, from, m, n as usize) {
        return Ok((i64::from(n), next));
    }
    Err(Reason::NoBranch.at_place(place.0))
}
