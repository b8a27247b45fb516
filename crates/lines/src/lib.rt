// Text of the programs' lines, put into a lent slice from an index on: numbers in decimal, values with a sign, and the line of an
// answer. Every function gives the index after its text; the octets before it stay, and those behind it mean nothing.
// A number takes at most 20 octets, and a value with its space and sign 22.
#![tactic(auto)]

ghost use Rattle.std.specs.Prelude.{◌+◌, ◌*◌, ◌<◌, ◌≤◌, [], ◌∷◌, ◌≡◌, length, take};
ghost use Rattle.lines.specs.Text.{Appended, decimal, number_line, placed_line, signed, listed, accepted_line, refused_line, answer_line, last_line};

use answer::{Answer, Refusal};

// Octets as they are.
pub fn put_text(out: &mut [u8], at: usize, text: &[u8]) -> usize
    requires { at + length text.now ≤ length out.old }
    ensures { Appended out.old at text.now out.new result }
{
    let end = at + text.len();
    out[at..end].copy_from_slice(text);
    end
}

// A digit.
fn put_digit(out: &mut [u8], at: usize, digit: u64) -> usize
    requires { (at < length out.old) × (digit < 10) }
    ensures { Appended out.old at ((48 + digit) ∷ []) out.new result }
{
    out[at] = (48 + digit) as u8;
    at + 1
}

// A number below 100.
fn put_small(out: &mut [u8], at: usize, number: u64) -> usize
    requires { (at + 2 ≤ length out.old) × (number < 100) }
    ensures appended { Appended out.old at (decimal number) out.new result }
    ensures upper_bound { result ≤ at + 2 }
{
    if number < 10 {
        put_digit(out, at, number)
    } else {
        let next = put_digit(out, at, number / 10);
        put_digit(out, next, number % 10)
    }
}

// A number of any size.
fn put_large(out: &mut [u8], at: usize, number: u64) -> usize
    requires { at + 20 ≤ length out.old }
    ensures appended { Appended out.old at (decimal number) out.new result }
    ensures upper_bound { result ≤ at + 20 }
{
    let mut digits = [0u8; 20];
    let count = io::decimal(number, &mut digits);
    put_text(out, at, &digits[..count])
}

// A number in decimal. Most values are octets, which need no search for the first digit.
pub fn put_number(out: &mut [u8], at: usize, number: u64) -> usize
    requires { at + 20 ≤ length out.old }
    ensures appended { Appended out.old at (decimal number) out.new result }
    ensures upper_bound { result ≤ at + 20 }
{
    if number < 100 {
        return put_small(out, at, number);
    }
    if number < 1000 {
        let next = put_small(out, at, number / 10);
        return put_digit(out, next, number % 10);
    }
    put_large(out, at, number)
}

// A line of words and a number.
pub fn put_line(out: &mut [u8], at: usize, words: &[u8], number: u64) -> usize
    requires { at + length words.now + 21 ≤ length out.old }
    ensures appended { Appended out.old at (number_line words.now number) out.new result }
    ensures upper_bound { result ≤ at + length words.now + 21 }
{
    let first = put_text(out, at, words);
    let end = put_number(out, first, number);
    put_text(out, end, b"\n")
}

// A value in decimal, with a minus sign where it is negative.
pub fn put_value(out: &mut [u8], at: usize, value: i64) -> usize
    requires { at + 21 ≤ length out.old }
    ensures appended { Appended out.old at (signed value) out.new result }
    ensures upper_bound { result ≤ at + 21 }
{
    if value < 0 {
        let next = put_text(out, at, b"-");
        put_number(out, next, value.unsigned_abs())
    } else {
        put_number(out, at, value.unsigned_abs())
    }
}

// A space and a value.
fn put_item(out: &mut [u8], at: usize, value: i64) -> usize
    requires { at + 22 ≤ length out.old }
    ensures appended { Appended out.old at (32 ∷ signed value) out.new result }
    ensures upper_bound { result ≤ at + 22 }
{
    let next = put_text(out, at, b" ");
    put_value(out, next, value)
}

// The first values of a slice, a space before each.
fn put_values(out: &mut [u8], at: usize, values: &[i64], count: usize) -> usize
    requires { at + 22 * length values.now ≤ length out.old }
    ensures appended { Appended out.old at (listed (take count values.now)) out.new result }
    ensures upper_bound { result ≤ at + 22 * length values.now }
{
    let mut next = at;
    for value in values.iter().take(count) {
        next = put_item(out, next, *value);
    }
    next
}

// The line of an accepted answer: the count of its values, then the values.
fn put_accepted(out: &mut [u8], at: usize, count: usize, values: &[i64]) -> usize
    requires { at + 22 * length values.now + 25 ≤ length out.old }
    ensures appended { Appended out.old at (accepted_line count (take count values.now)) out.new result }
    ensures upper_bound { result ≤ at + 22 * length values.now + 25 }
{
    let number = put_text(out, at, b"ok ");
    let colon = put_number(out, number, count as u64);
    let list = put_text(out, colon, b":");
    let end = put_values(out, list, values, count);
    put_text(out, end, b"\n")
}

// A line of words, a number and the place that it is told for.
pub fn put_placed(out: &mut [u8], at: usize, words: &[u8], number: u64, place: u64) -> usize
    requires { at + length words.now + 45 ≤ length out.old }
    ensures appended { Appended out.old at (placed_line words.now number place) out.new result }
    ensures upper_bound { result ≤ at + length words.now + 45 }
{
    let first = put_text(out, at, words);
    let middle = put_number(out, first, number);
    put_line(out, middle, b" at ", place)
}

// The line of a refusal: its number and its place.
pub fn put_refusal(out: &mut [u8], at: usize, refusal: Refusal) -> usize
    requires { at + 48 ≤ length out.old }
    ensures appended { Appended out.old at (refused_line refusal) out.new result }
    ensures upper_bound { result ≤ at + 48 }
{
    put_placed(
        out,
        at,
        b"no ",
        u64::from(refusal.number),
        refusal.place as u64,
    )
}

// The line of an answer to reading into a slice of values.
pub fn put_answer(out: &mut [u8], at: usize, answer: Answer, values: &[i64]) -> usize
    requires { at + 22 * length values.now + 48 ≤ length out.old }
    ensures appended { Appended out.old at (answer_line answer values.now) out.new result }
    ensures upper_bound { result ≤ at + 22 * length values.now + 48 }
{
    match answer {
        Ok(counts) => put_accepted(out, at, counts.values, values),
        Err(refusal) => put_refusal(out, at, refusal),
    }
}

// `frames N`.
pub fn put_last(out: &mut [u8], at: usize, frames: u64) -> usize
    requires { at + 28 ≤ length out.old }
    ensures appended { Appended out.old at (last_line frames) out.new result }
    ensures upper_bound { result ≤ at + 28 }
{
    put_line(out, at, b"frames ", frames)
}
