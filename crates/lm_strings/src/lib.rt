// The strings of octets in an LM: its extension elements, each an ID and contents, and its user data (ISO 16460, clause 5).
#![tactic(auto)]

ghost use Rattle.std.specs.Prelude.{◌≡◌, ◌%◌, ◌≤◌, length};
ghost use Rattle.bits.specs.Access.{most_octets};
ghost use Rattle.items.specs.Items.{times};
ghost use Rattle.read_steps.specs.Reads.{Reads, state_at};
ghost use Rattle.lm_items.specs.Asked.{id_items, string_items, strings_items};
ghost use Rattle.lm_strings.specs.Counts.{Counts};

use answer::Refusal;
use lm_items::Kind;
use read_steps::Cursor;

// What stands in front of a string's length: an extension element's ID, and nothing before user data.
fn id(
    kind: Kind,
    message: &[u8],
    values: &mut [i64],
    packed: &mut [u8],
    room: usize,
    cursor: Cursor,
) -> Result<Cursor, Refusal>
    requires { (length message.now ≤ most_octets) × (cursor.place.0 % 8 ≡ 0) }
    ensures { Reads message.now room (id_items kind) (state_at cursor values.old packed.old) values.new packed.new result }
{
    if lm_items::is_content(kind) {
        return Ok(cursor);
    }
    whole::number(1, &*message, values, packed, room, cursor)
}

// A string.
fn string(
    kind: Kind,
    message: &[u8],
    values: &mut [i64],
    packed: &mut [u8],
    room: usize,
    cursor: Cursor,
) -> Result<Cursor, Refusal>
    requires { (length message.now ≤ most_octets) × (cursor.place.0 % 8 ≡ 0) }
    ensures { Reads message.now room (string_items kind) (state_at cursor values.old packed.old) values.new packed.new result }
{
    let next = id(kind, &*message, values, packed, room, cursor)?;
    let least = lm_items::least(kind);
    strings::octets(least, &*message, values, packed, room, next)
}

// So many strings.
fn strings(
    kind: Kind,
    count: usize,
    message: &[u8],
    values: &mut [i64],
    packed: &mut [u8],
    room: usize,
    cursor: Cursor,
) -> Result<Cursor, Refusal>
    requires { (length message.now ≤ most_octets) × (cursor.place.0 % 8 ≡ 0) }
    ensures { Reads message.now room (times count (string_items kind)) (state_at cursor values.old packed.old) values.new packed.new result }
{
    let mut here = cursor;
    for _ in 0..count {
        here = string(kind, &*message, values, packed, room, here)?;
    }
    Ok(here)
}

// How many strings a section has: the user data is one, and the extension elements are counted where the flag says that there are
// some.
fn count(
    kind: Kind,
    extended: bool,
    message: &[u8],
    values: &mut [i64],
    packed: &mut [u8],
    room: usize,
    cursor: Cursor,
) -> Result<(usize, Cursor), Refusal>
    requires { (length message.now ≤ most_octets) × (cursor.place.0 % 8 ≡ 0) }
    ensures { Counts kind extended message.now room (state_at cursor values.old packed.old) values.new packed.new result }
{
    if lm_items::is_content(kind) {
        return Ok((1, cursor));
    }
    if !extended {
        return Ok((0, cursor));
    }
    let (length, first) = read_item::length(&*message, cursor.place, 0, 255)?;
    let next = read_steps::keep(length, first, values, packed, room, cursor)?;
    Ok((item::count_of(length), next))
}

// All strings of a section.
pub fn section_strings(
    kind: Kind,
    extended: bool,
    message: &[u8],
    values: &mut [i64],
    packed: &mut [u8],
    room: usize,
    cursor: Cursor,
) -> Result<Cursor, Refusal>
    requires { (length message.now ≤ most_octets) × (cursor.place.0 % 8 ≡ 0) }
    ensures { Reads message.now room (strings_items kind extended) (state_at cursor values.old packed.old) values.new packed.new result }
{
    let (left, first) = count(kind, extended, &*message, values, packed, room, cursor)?;
    strings(kind, left, &*message, values, packed, room, first)
}
