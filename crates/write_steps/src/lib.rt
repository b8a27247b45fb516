// The steps of a writer that know no table: the next value of a list is given and put, numbers and octets are written in runs,
// and zero bits end a message.
#![tactic(auto)]

ghost use Rattle.std.specs.Prelude.{◌≡◌, ◌*◌, ◌≤◌, min, pos, length};
ghost use Rattle.std.specs.Int.Signed.{mag};
ghost use Rattle.bits.specs.Access.{most_octets};
ghost use Rattle.item.specs.Code.{Code};
ghost use Rattle.items.specs.Items.{one, times};
ghost use Rattle.write_steps.specs.Writes.{Writes, list_in, state_at, Gives, missing_at, moved_step};
ghost use Rattle.write_steps.specs.Ends.{Ended, ended_answer, written_count};

use answer::{Answer, Counts, Reason, Refusal};
use bits::{BitPlace, OctetSize};

// Where a writer stands: the next bit of the output, and the index of the next value.
#[derive(Clone, Copy, Debug, PartialEq, Eq)]
pub struct Cursor {
    pub place: BitPlace,
    pub index: usize,
}

// The value at an index of the list, and the index after it. One that is missing is refused as a wrong one.
pub fn next_value(values: &[i64], packed: &[u8], index: usize) -> Result<(i64, usize), Refusal>
    ensures { Gives (list_in values.now packed.now) index result }
{
    if values::count(values, packed) <= index {
        return Err(missing(index));
    }
    Ok((values::value_at(values, packed, index), index + 1))
}

// The refusal of a value that is missing.
fn missing(index: usize) -> Refusal
    ensures { result ≡ missing_at index }
{
    Reason::WrongValue.at_place(index)
}

// The cursor after a value that was put; or the refusal, at the value's index.
pub fn moved(put: Result<BitPlace, Reason>, index: usize, after: usize) -> Result<Cursor, Refusal>
    ensures { result ≡ moved_step put index after }
{
    match put {
        Ok(place) => Ok(Cursor {
            place,
            index: after,
        }),
        Err(reason) => Err(reason.at_place(index)),
    }
}

// So many numbers of one low and one span.
pub fn write_numbers(
    count: usize,
    low: i64,
    span: u32,
    values: &[i64],
    packed: &[u8],
    output: &mut [u8],
    cursor: Cursor,
) -> Result<Cursor, Refusal>
    requires { (length output.old ≤ most_octets) × (mag low ≤ 2147483648) }
    ensures { Writes (list_in values.now packed.now) (times count (one (Code.number low span))) (state_at cursor output.old) output.new result }
{
    let mut here = cursor;
    for _ in 0..count {
        let (value, after) = next_value(&*values, &*packed, here.index)?;
        let put = write_item::number(output, here.place, low, span, value);
        here = moved(put, here.index, after)?;
    }
    Ok(here)
}

// So many octets, each a value: those that are octets, with room for them, at once. What is left is refused at its first.
pub fn write_octets(
    count: usize,
    values: &[i64],
    packed: &[u8],
    output: &mut [u8],
    cursor: Cursor,
) -> Result<Cursor, Refusal>
    requires { length output.old ≤ most_octets }
    ensures { Writes (list_in values.now packed.now) (times count (one (Code.number (pos 0) 255))) (state_at cursor output.old) output.new result }
{
    let done = write_runs::write(
        &*values,
        &*packed,
        cursor.index,
        count,
        output,
        cursor.place,
    );
    let next = Cursor {
        place: cursor.place.further(OctetSize(done)),
        index: cursor.index + done,
    };
    if done == count {
        return Ok(next);
    }
    write_numbers(count - done, 0, 255, &*values, &*packed, output, next)
}

// The end of a message of so many values whose root ends at a cursor: left over values, an output with no octet, then zero bits
// to the octet's end.
pub fn finish(count: usize, output: &mut [u8], end: Cursor) -> Answer
    requires { (length output.old ≤ most_octets) × (end.place.0 ≤ 8 * length output.old) }
    ensures { (result ≡ ended_answer count (length output.old) end) × Ended count output.old output.new end }
{
    let index = end.index;
    if index < count {
        return Err(Reason::WrongValue.at_place(index));
    }
    if output.len() == 0 {
        return Err(Reason::NoRoom.at_place(count));
    }
    let place = end.place;
    let size = OctetSize::holding(place);
    let all = BitPlace::after(size);
    access::replace_in_octet(output, size.0 - 1, 0, (all.0 - place.0) as u32, 0);
    Ok(Counts::new(0, BitPlace(0), size))
}

// How many octets an answer says were written.
pub fn written_count(answer: Answer) -> usize
    ensures { result ≡ written_count answer }
{
    match answer {
        Ok(counts) => counts.octets.0,
        Err(_) => 0,
    }
}

// The length that an output counts as.
pub fn counted_length(length: usize) -> usize
    ensures { result ≡ min length most_octets }
{
    length.min(OctetSize::MOST)
}
