// The steps of a reader that know no table: an item that was read is kept, numbers and octets are read in runs, and the padding
// closes a message.
#![tactic(auto)]

ghost use Rattle.std.specs.Prelude.{◌≡◌, ◌*◌, ◌≤◌, pos, length, set};
ghost use Rattle.std.specs.Int.Signed.{mag};
ghost use Rattle.bits.specs.Access.{most_octets};
ghost use Rattle.item.specs.Code.{Code};
ghost use Rattle.values.specs.Values.{set_value};
ghost use Rattle.items.specs.Items.{one, times};
ghost use Rattle.read_steps.specs.Reads.{Reads, state_at, kept_step, kept_in};
ghost use Rattle.read_steps.specs.Ends.{closed, kept_count};

use answer::{Answer, Counts, Reason, Refusal};
use bits::{BitPlace, OctetSize};

// Where a reader stands: the next bit of the message, and how many values were read.
#[derive(Clone, Copy, Debug, PartialEq, Eq)]
pub struct Cursor {
    pub place: BitPlace,
    pub count: usize,
}

// A value that was read is kept, where there is room for it, and the reader moves on to the place after its bits.
pub fn keep(
    value: i64,
    next: BitPlace,
    values: &mut [i64],
    packed: &mut [u8],
    room: usize,
    cursor: Cursor,
) -> Result<Cursor, Refusal>
    ensures { (result ≡ kept_step (Ok (value, next)) room cursor) × (values.new ≡ kept_in set (Ok (value, next)) room cursor.count values.old) × (packed.new ≡ kept_in set_value (Ok (value, next)) room cursor.count packed.old) }
{
    let at = cursor.count;
    if room <= at {
        return Err(Reason::NoRoom.at_place(cursor.place.0));
    }
    values::keep(values, packed, at, value);
    Ok(Cursor {
        place: next,
        count: at + 1,
    })
}

// So many numbers of one low and one span.
pub fn read_numbers(
    count: usize,
    low: i64,
    span: u32,
    message: &[u8],
    values: &mut [i64],
    packed: &mut [u8],
    room: usize,
    cursor: Cursor,
) -> Result<Cursor, Refusal>
    requires { (length message.now ≤ most_octets) × (mag low ≤ 2147483648) }
    ensures { Reads message.now room (times count (one (Code.number low span))) (state_at cursor values.old packed.old) values.new packed.new result }
{
    let mut here = cursor;
    for _ in 0..count {
        let (value, next) = read_item::number(message, here.place, low, span)?;
        here = keep(value, next, values, packed, room, here)?;
    }
    Ok(here)
}

// So many octets, each a value: those that are there, with room for their values, at once. What is left is refused at its first.
pub fn read_octets(
    count: usize,
    message: &[u8],
    values: &mut [i64],
    packed: &mut [u8],
    room: usize,
    cursor: Cursor,
) -> Result<Cursor, Refusal>
    requires { length message.now ≤ most_octets }
    ensures { Reads message.now room (times count (one (Code.number (pos 0) 255))) (state_at cursor values.old packed.old) values.new packed.new result }
{
    let free = values::fitting(room, cursor.count, count);
    let end = BitPlace::after(OctetSize(message.len()));
    let there = OctetSize::between(cursor.place, end);
    let ready = values::fitting(there.0, 0, free);
    read_runs::read(message, cursor.place, ready, values, packed, cursor.count);
    let next = Cursor {
        place: cursor.place.further(OctetSize(ready)),
        count: cursor.count + ready,
    };
    if ready == count {
        return Ok(next);
    }
    read_numbers(count - ready, 0, 255, &*message, values, packed, room, next)
}

// The close of a message whose root ends at a cursor: its last octet ends the message, and zero bits fill it.
pub fn close(message: &[u8], end: Cursor) -> Answer
    requires { (length message.now ≤ most_octets) × (end.place.0 ≤ 8 * length message.now) }
    ensures { result ≡ closed message.now end }
{
    let place = end.place;
    let after = place.0;
    let size = OctetSize::holding(place);
    if message.len() != size.0 {
        return Err(Reason::NotPadding.at_place(after));
    }
    let all = BitPlace::after(size);
    if access::last_bits(message, (all.0 - after) as u32) != 0 {
        return Err(Reason::NotPadding.at_place(after));
    }
    Ok(Counts::new(end.count, place, OctetSize(0)))
}

// How many values an answer says were kept.
pub fn kept_count(answer: Answer) -> usize
    ensures { result ≡ kept_count answer }
{
    match answer {
        Ok(counts) => counts.values,
        Err(_) => 0,
    }
}
