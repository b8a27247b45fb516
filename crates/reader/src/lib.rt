// Reads the items that a row asks for from a message, and keeps their values in the slices that are lent. Choices are followed to a
// row, whose own items come first (read_begin); then the rows that it refers to, each earlier. The row is one of a table that passed
// the check, or of a state of any octets, whose rows are tested before they are read (guard): the reader is one for both.
#![tactic(auto)]

ghost use Rattle.std.specs.Prelude.{◌≡◌, ◌+◌, ◌<◌, ◌≤◌, ◌^◌, length};
ghost use Rattle.bits.specs.Access.{most_octets};
ghost use Rattle.octets.specs.Numbers.{u16};
ghost use Rattle.items.specs.Items.{times};
ghost use Rattle.read_steps.specs.Reads.{Reads, state_at};
ghost use Rattle.parts.specs.Parts.{NoChoice, marked_fields, field_if};
ghost use Rattle.guard.specs.Readable.{asks_at, asks_from, Readable, Opened, Tested};

use answer::Refusal;
use parts::Left;
use read_steps::Cursor;
use row::Row;

// The row at an offset. Whether the rows that it refers to are known to be readable is told: those of a table are.
#[cycle(read_chosen_read_field_read_fields_read_row_read_run)]
pub fn read_row(
    table: &[u8],
    at: usize,
    tested: bool,
    message: &[u8],
    values: &mut [i64],
    packed: &mut [u8],
    room: usize,
    cursor: Cursor,
) -> Result<Cursor, Refusal>
    requires { Readable table.now at × Tested tested table.now at × (length message.now ≤ most_octets) }
    ensures { Reads message.now room (asks_at table.now at) (state_at cursor values.old packed.old) values.new packed.new result }
{
    let (row, next) = read_begin::follow(&*table, at, &*message, values, packed, room, cursor)?;
    read_chosen(&*table, row, tested, &*message, values, packed, room, next)
}

// The row at an offset, which is no choice. The rows that it refers to are tested, if they are not known to be readable.
#[cycle(read_chosen_read_field_read_fields_read_row_read_run)]
fn read_chosen(
    table: &[u8],
    at: usize,
    tested: bool,
    message: &[u8],
    values: &mut [i64],
    packed: &mut [u8],
    room: usize,
    cursor: Cursor,
) -> Result<Cursor, Refusal>
    requires { Readable table.now at × NoChoice table.now at × Tested tested table.now at × (length message.now ≤ most_octets) }
    ensures { Reads message.now room (asks_at table.now at) (state_at cursor values.old packed.old) values.new packed.new result }
{
    if !tested && !guard::opens(table, at) {
        return Err(guard::unreadable(cursor.place));
    }
    let (left, next) = read_begin::begin(&*table, at, &*message, values, packed, room, cursor)?;
    match left {
        Left::Nothing => Ok(next),
        Left::Run(count, row) => read_run(
            &*table, at, row, count, &*message, values, packed, room, next,
        ),
        Left::Numbers(count, row) => read_leaf::numbers(
            &*table, row, count, &*message, values, packed, room, next,
        ),
        Left::Fields(mask) => read_fields(&*table, at, mask, &*message, values, packed, room, next),
    }
}

// So many times the row at an offset before `at`. What it refers to is tested once for all of them.
#[cycle(read_chosen_read_field_read_fields_read_row_read_run)]
fn read_run(
    table: &[u8],
    at: usize,
    row: usize,
    count: usize,
    message: &[u8],
    values: &mut [i64],
    packed: &mut [u8],
    room: usize,
    cursor: Cursor,
) -> Result<Cursor, Refusal>
    requires { Readable table.now row × (row < at) × (length message.now ≤ most_octets) }
    ensures { Reads message.now room (times count (asks_at table.now row)) (state_at cursor values.old packed.old) values.new packed.new result }
{
    let tested = guard::settled(table, row);
    let mut here = cursor;
    for _ in 0..count {
        here = read_row(&*table, row, tested, &*message, values, packed, room, here)?;
    }
    Ok(here)
}

// The fields of the record at an offset that are marked as present.
#[cycle(read_chosen_read_field_read_fields_read_row_read_run)]
fn read_fields(
    table: &[u8],
    at: usize,
    mask: u32,
    message: &[u8],
    values: &mut [i64],
    packed: &mut [u8],
    room: usize,
    cursor: Cursor,
) -> Result<Cursor, Refusal>
    requires { Opened table.now at × (u16 table.now (at + 2) ≡ 5) × (mask < 2 ^ u16 table.now (at + 4)) × (length message.now ≤ most_octets) }
    ensures { Reads message.now room (marked_fields (asks_from table.now at) table.now at mask) (state_at cursor values.old packed.old) values.new packed.new result }
{
    let fields = Row::count_at(table, at);
    let mut here = cursor;
    for field in 0..fields {
        let row = Row::field_at(table, at, field);
        let present = parts::is_marked(mask, fields, field);
        here = read_field(
            &*table, at, row, present, &*message, values, packed, room, here,
        )?;
    }
    Ok(here)
}

// A field, where it is present: the row at an offset before `at`. One that refers to no other row is read here: most fields are
// such, and a call for each of them takes longer than reading it.
#[cycle(read_chosen_read_field_read_fields_read_row_read_run)]
fn read_field(
    table: &[u8],
    at: usize,
    row: usize,
    present: bool,
    message: &[u8],
    values: &mut [i64],
    packed: &mut [u8],
    room: usize,
    cursor: Cursor,
) -> Result<Cursor, Refusal>
    requires { Readable table.now row × (row < at) × (length message.now ≤ most_octets) }
    ensures { Reads message.now room (field_if present (asks_at table.now row)) (state_at cursor values.old packed.old) values.new packed.new result }
{
    if !present {
        return Ok(cursor);
    }
    let kind = Row::kind_at(table, row);
    match kind {
        Row::NUMBER => read_leaf::number(&*table, row, &*message, values, packed, room, cursor),
        Row::VARIABLE => read_leaf::variable(&*message, values, packed, room, cursor),
        Row::OCTETS | Row::OPEN_OCTETS => read_leaf::octets(
            &*table, row, &*message, values, packed, room, cursor,
        ),
        _ => {
            let tested = table.len() <= Row::MOST_TABLE;
            read_row(
                &*table, row, tested, &*message, values, packed, room, cursor,
            )
        }
    }
}
