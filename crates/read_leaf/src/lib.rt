// The rows that refer to no other: a number, a variable number, octets. Each item is read, and kept where there is room for its
// value.
#![tactic(auto)]

ghost use Rattle.std.specs.Prelude.{◌+◌, ◌≤◌, length};
ghost use Rattle.bits.specs.Access.{most_octets};
ghost use Rattle.octets.specs.Numbers.{u16, u32, signed};
ghost use Rattle.row.specs.Kinds.{least_length};
ghost use Rattle.item.specs.Code.{Code};
ghost use Rattle.items.specs.Items.{one, times};
ghost use Rattle.encoding.specs.Rows.{octets_within};
ghost use Rattle.read_steps.specs.Reads.{Reads, state_at};

use answer::Refusal;
use read_steps::Cursor;
use row::Row;

// A number row.
pub fn number(
    table: &[u8],
    at: usize,
    message: &[u8],
    values: &mut [i64],
    packed: &mut [u8],
    room: usize,
    cursor: Cursor,
) -> Result<Cursor, Refusal>
    requires { (at + 12 ≤ length table.now) × (length message.now ≤ most_octets) }
    ensures { Reads message.now room (one (Code.number (signed (u32 table.now (at + 4))) (u32 table.now (at + 8)))) (state_at cursor values.old packed.old) values.new packed.new result }
{
    let low = Row::low_at(table, at);
    let span = Row::span_at(table, at);
    let (value, next) = read_item::number(&*message, cursor.place, low, span as u32)?;
    read_steps::keep(value, next, values, packed, room, cursor)
}

// So many numbers of one number row. Where they are octets, as a run of octets.
pub fn numbers(
    table: &[u8],
    at: usize,
    count: usize,
    message: &[u8],
    values: &mut [i64],
    packed: &mut [u8],
    room: usize,
    cursor: Cursor,
) -> Result<Cursor, Refusal>
    requires { (at + 12 ≤ length table.now) × (length message.now ≤ most_octets) }
    ensures { Reads message.now room (times count (one (Code.number (signed (u32 table.now (at + 4))) (u32 table.now (at + 8))))) (state_at cursor values.old packed.old) values.new packed.new result }
{
    let low = Row::low_at(table, at);
    let span = Row::span_at(table, at);
    if span == 255 {
        if low == 0 {
            return read_steps::read_octets(count, &*message, values, packed, room, cursor);
        }
    }
    read_steps::read_numbers(
        count,
        low,
        span as u32,
        &*message,
        values,
        packed,
        room,
        cursor,
    )
}

// A variable number row.
pub fn variable(
    message: &[u8],
    values: &mut [i64],
    packed: &mut [u8],
    room: usize,
    cursor: Cursor,
) -> Result<Cursor, Refusal>
    requires { length message.now ≤ most_octets }
    ensures { Reads message.now room (one Code.variable) (state_at cursor values.old packed.old) values.new packed.new result }
{
    let (value, next) = read_item::variable(&*message, cursor.place)?;
    read_steps::keep(value, next, values, packed, room, cursor)
}

// A row of octets: a length within the row's limits, then each octet.
pub fn octets(
    table: &[u8],
    at: usize,
    message: &[u8],
    values: &mut [i64],
    packed: &mut [u8],
    room: usize,
    cursor: Cursor,
) -> Result<Cursor, Refusal>
    requires { (at + 6 ≤ length table.now) × (length message.now ≤ most_octets) }
    ensures { Reads message.now room (octets_within (least_length (u16 table.now (at + 2))) (u16 table.now (at + 4))) (state_at cursor values.old packed.old) values.new packed.new result }
{
    let kind = Row::kind_at(table, at);
    let least = Row::least_length(kind);
    let most = Row::count_at(table, at);
    let (length, first) = read_item::length(&*message, cursor.place, least, most as u32)?;
    let next = read_steps::keep(length, first, values, packed, room, cursor)?;
    let count = item::count_of(length);
    read_steps::read_octets(count, &*message, values, packed, room, next)
}
