// Writes the items that a row of a passed table asks for into an output, from the values of a list in the slices that are lent.
// Choices are followed to a row, whose own items come first (write_begin); then the rows that it refers to, each earlier in the table.
#![tactic(auto)]

ghost use Rattle.std.specs.Prelude.{◌≡◌, ◌+◌, ◌<◌, ◌≤◌, ◌^◌, length};
ghost use Rattle.bits.specs.Access.{most_octets};
ghost use Rattle.octets.specs.Numbers.{u16};
ghost use Rattle.rules.specs.Rules.{Obeys, Starts, Earlier};
ghost use Rattle.items.specs.Items.{times};
ghost use Rattle.encoding.specs.Rows.{items};
ghost use Rattle.parts.specs.Parts.{NoChoice, marked_fields, field_if};
ghost use Rattle.write_steps.specs.Writes.{Writes, list_in, state_at};

use answer::Refusal;
use parts::Left;
use row::Row;
use write_steps::Cursor;

// The row at an offset.
#[cycle(write_chosen_write_field_write_fields_write_row_write_run)]
pub fn write_row(
    table: &[u8],
    at: usize,
    values: &[i64],
    packed: &[u8],
    output: &mut [u8],
    cursor: Cursor,
) -> Result<Cursor, Refusal>
    requires { Obeys table.now × Starts table.now at × (length output.old ≤ most_octets) }
    ensures { Writes (list_in values.now packed.now) (items table.now at) (state_at cursor output.old) output.new result }
{
    let (row, next) = write_begin::follow(&*table, at, &*values, &*packed, output, cursor)?;
    write_chosen(&*table, row, &*values, &*packed, output, next)
}

// The row at an offset, which is no choice.
#[cycle(write_chosen_write_field_write_fields_write_row_write_run)]
fn write_chosen(
    table: &[u8],
    at: usize,
    values: &[i64],
    packed: &[u8],
    output: &mut [u8],
    cursor: Cursor,
) -> Result<Cursor, Refusal>
    requires { Obeys table.now × Starts table.now at × NoChoice table.now at × (length output.old ≤ most_octets) }
    ensures { Writes (list_in values.now packed.now) (items table.now at) (state_at cursor output.old) output.new result }
{
    let (left, next) = write_begin::begin(&*table, at, &*values, &*packed, output, cursor)?;
    match left {
        Left::Nothing => Ok(next),
        Left::Run(count, row) => write_run(
            &*table, at, row, count, &*values, &*packed, output, next,
        ),
        Left::Numbers(count, row) => write_leaf::numbers(
            &*table, row, count, &*values, &*packed, output, next,
        ),
        Left::Fields(mask) => write_fields(&*table, at, mask, &*values, &*packed, output, next),
    }
}

// So many times the row at an offset before `at`.
#[cycle(write_chosen_write_field_write_fields_write_row_write_run)]
fn write_run(
    table: &[u8],
    at: usize,
    row: usize,
    count: usize,
    values: &[i64],
    packed: &[u8],
    output: &mut [u8],
    cursor: Cursor,
) -> Result<Cursor, Refusal>
    requires { Obeys table.now × Starts table.now at × Earlier table.now at row × (length output.old ≤ most_octets) }
    ensures { Writes (list_in values.now packed.now) (times count (items table.now row)) (state_at cursor output.old) output.new result }
{
    let mut here = cursor;
    for _ in 0..count {
        here = write_row(&*table, row, &*values, &*packed, output, here)?;
    }
    Ok(here)
}

// The fields of the record at an offset that are marked as present.
#[cycle(write_chosen_write_field_write_fields_write_row_write_run)]
fn write_fields(
    table: &[u8],
    at: usize,
    mask: u32,
    values: &[i64],
    packed: &[u8],
    output: &mut [u8],
    cursor: Cursor,
) -> Result<Cursor, Refusal>
    requires { Obeys table.now × Starts table.now at × (u16 table.now (at + 2) ≡ 5) × (mask < 2 ^ u16 table.now (at + 4)) × (length output.old ≤ most_octets) }
    ensures { Writes (list_in values.now packed.now) (marked_fields (items table.now) table.now at mask) (state_at cursor output.old) output.new result }
{
    let fields = Row::count_at(table, at);
    let mut here = cursor;
    for field in 0..fields {
        let row = Row::field_at(table, at, field);
        let present = parts::is_marked(mask, fields, field);
        here = write_field(&*table, at, row, present, &*values, &*packed, output, here)?;
    }
    Ok(here)
}

// A field, where it is present: the row at an offset before `at`. One that refers to no other row is written here, as in reading.
#[cycle(write_chosen_write_field_write_fields_write_row_write_run)]
fn write_field(
    table: &[u8],
    at: usize,
    row: usize,
    present: bool,
    values: &[i64],
    packed: &[u8],
    output: &mut [u8],
    cursor: Cursor,
) -> Result<Cursor, Refusal>
    requires { Obeys table.now × Starts table.now at × Earlier table.now at row × (length output.old ≤ most_octets) }
    ensures { Writes (list_in values.now packed.now) (field_if present (items table.now row)) (state_at cursor output.old) output.new result }
{
    if !present {
        return Ok(cursor);
    }
    let kind = Row::kind_at(table, row);
    match kind {
        Row::NUMBER => write_leaf::number(&*table, row, &*values, &*packed, output, cursor),
        Row::VARIABLE => write_leaf::variable(&*values, &*packed, output, cursor),
        Row::OCTETS | Row::OPEN_OCTETS => write_leaf::octets(
            &*table, row, &*values, &*packed, output, cursor,
        ),
        _ => write_row(&*table, row, &*values, &*packed, output, cursor),
    }
}
