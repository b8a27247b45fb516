// Octets behind their length, from an octet's first bit of the message on.
#![tactic(auto)]

ghost use Rattle.std.specs.Prelude.{◌≡◌, ◌%◌, ◌≤◌, pos, length};
ghost use Rattle.bits.specs.Access.{most_octets};
ghost use Rattle.item.specs.Code.{Code};
ghost use Rattle.item.specs.Answers.{item_at};
ghost use Rattle.items.specs.Items.{one, times};
ghost use Rattle.encoding.specs.Rows.{octets_within};
ghost use Rattle.read_steps.specs.Reads.{Reads, state_at};

use answer::Refusal;
use bits::BitPlace;
use read_steps::Cursor;

// A length. One that an octet tells, as most are, is taken at once; whatever else stands there goes the general way.
fn length(
    message: &[u8],
    place: BitPlace,
    least: u32,
    most: u32,
) -> Result<(i64, BitPlace), Refusal>
    requires { (length message.now ≤ most_octets) × (place.0 % 8 ≡ 0) × (127 ≤ most) }
    ensures { result ≡ item_at (Code.length_within least most) message.now place.0 }
{
    let f = whole::fetch(message, place, 1);
    if let Some((octet, next)) = f {
        if least <= octet {
            if octet < 128 {
                return Ok((octet as i64, next));
            }
        }
    }
    read_item::length(message, place, least, most)
}

// So many octets. Where all are there, with room for their values, they are kept at once; else as the general step answers.
fn run(
    count: usize,
    message: &[u8],
    values: &mut [i64],
    packed: &mut [u8],
    room: usize,
    cursor: Cursor,
) -> Result<Cursor, Refusal>
    requires { (length message.now ≤ most_octets) × (cursor.place.0 % 8 ≡ 0) }
    ensures { Reads message.now room (times count (one (Code.number (pos 0) 255))) (state_at cursor values.old packed.old) values.new packed.new result }
{
    let first = cursor.place.octets_before();
    let at = first.0;
    let free = values::fitting(room, cursor.count, count);
    let ready = values::fitting(message.len(), at, free);
    if ready < count {
        return read_steps::read_octets(count, &*message, values, packed, room, cursor);
    }
    read_runs::read_numbers(&*message, at, 0, count, values, cursor.count);
    read_runs::read_packed(&*message, at, 0, count, packed, cursor.count);
    Ok(Cursor {
        place: BitPlace(8 * (at + count)),
        count: cursor.count + count,
    })
}

// Octets behind their length.
pub fn octets(
    least: u32,
    message: &[u8],
    values: &mut [i64],
    packed: &mut [u8],
    room: usize,
    cursor: Cursor,
) -> Result<Cursor, Refusal>
    requires { (length message.now ≤ most_octets) × (cursor.place.0 % 8 ≡ 0) }
    ensures { Reads message.now room (octets_within least 16383) (state_at cursor values.old packed.old) values.new packed.new result }
{
    let (length, first) = length(&*message, cursor.place, least, 16383)?;
    let next = read_steps::keep(length, first, values, packed, room, cursor)?;
    let count = item::count_of(length);
    run(count, &*message, values, packed, room, next)
}
