// The rows that refer to no other: a number, a variable number, octets. Each item takes the next value of the list; a value that
// is missing is refused as a wrong one.
#![tactic(auto)]

ghost use Rattle.std.specs.Prelude.{true, ◌≡◌, ◌+◌, ◌≤◌, length};
ghost use Rattle.bits.specs.Access.{most_octets};
ghost use Rattle.octets.specs.Numbers.{u16, u32, signed};
ghost use Rattle.row.specs.Kinds.{is_octets};
ghost use Rattle.item.specs.Code.{Code};
ghost use Rattle.rules.specs.Rules.{Obeys, Starts};
ghost use Rattle.items.specs.Items.{one, times};
ghost use Rattle.encoding.specs.Rows.{items};
ghost use Rattle.write_steps.specs.Writes.{Writes, list_in, state_at};

use answer::Refusal;
use row::Row;
use write_steps::Cursor;

// A number row.
pub fn number(
    table: &[u8],
    at: usize,
    values: &[i64],
    packed: &[u8],
    output: &mut [u8],
    cursor: Cursor,
) -> Result<Cursor, Refusal>
    requires { (at + 12 ≤ length table.now) × (length output.old ≤ most_octets) }
    ensures { Writes (list_in values.now packed.now) (one (Code.number (signed (u32 table.now (at + 4))) (u32 table.now (at + 8)))) (state_at cursor output.old) output.new result }
{
    let (value, after) = write_steps::next_value(&*values, &*packed, cursor.index)?;
    let low = Row::low_at(table, at);
    let span = Row::span_at(table, at);
    let put = write_item::number(output, cursor.place, low, span as u32, value);
    write_steps::moved(put, cursor.index, after)
}

// So many numbers of one number row. Where they are octets, as a run of octets.
pub fn numbers(
    table: &[u8],
    at: usize,
    count: usize,
    values: &[i64],
    packed: &[u8],
    output: &mut [u8],
    cursor: Cursor,
) -> Result<Cursor, Refusal>
    requires { (at + 12 ≤ length table.now) × (length output.old ≤ most_octets) }
    ensures { Writes (list_in values.now packed.now) (times count (one (Code.number (signed (u32 table.now (at + 4))) (u32 table.now (at + 8))))) (state_at cursor output.old) output.new result }
{
    let low = Row::low_at(table, at);
    let span = Row::span_at(table, at);
    if span == 255 {
        if low == 0 {
            return write_steps::write_octets(count, &*values, &*packed, output, cursor);
        }
    }
    write_steps::write_numbers(count, low, span as u32, &*values, &*packed, output, cursor)
}

// A variable number row.
pub fn variable(
    values: &[i64],
    packed: &[u8],
    output: &mut [u8],
    cursor: Cursor,
) -> Result<Cursor, Refusal>
    requires { length output.old ≤ most_octets }
    ensures { Writes (list_in values.now packed.now) (one Code.variable) (state_at cursor output.old) output.new result }
{
    let (value, after) = write_steps::next_value(&*values, &*packed, cursor.index)?;
    let put = write_item::variable(output, cursor.place, value);
    write_steps::moved(put, cursor.index, after)
}

// A row of octets: a length within the row's limits, then each octet.
pub fn octets(
    table: &[u8],
    at: usize,
    values: &[i64],
    packed: &[u8],
    output: &mut [u8],
    cursor: Cursor,
) -> Result<Cursor, Refusal>
    requires { Obeys table.now × Starts table.now at × (is_octets (u16 table.now (at + 2)) ≡ true) × (length output.old ≤ most_octets) }
    ensures { Writes (list_in values.now packed.now) (items table.now at) (state_at cursor output.old) output.new result }
{
    let (value, after) = write_steps::next_value(&*values, &*packed, cursor.index)?;
    let kind = Row::kind_at(table, at);
    let least = Row::least_length(kind);
    let most = Row::count_at(table, at);
    let put = write_item::length(output, cursor.place, least, most as u32, value);
    let next = write_steps::moved(put, cursor.index, after)?;
    let count = item::count_of(value);
    write_steps::write_octets(count, &*values, &*packed, output, next)
}
