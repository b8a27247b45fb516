// The beginning of a row. Choices come first: each is an index, which leaves the row of its branch. Then the items that are the
// row's own: all of them where it is a variable number or octets (write_leaf), none where it is a number, which is left as a run of
// one, else the length of a counted run or the presence values of a record; and what they leave to be written.
#![tactic(auto)]

ghost use Rattle.std.specs.Prelude.{◌≡◌, ◌+◌, ◌<◌, ◌≤◌, length};
ghost use Rattle.bits.specs.Access.{most_octets};
ghost use Rattle.octets.specs.Numbers.{u16};
ghost use Rattle.rules.specs.Rules.{Obeys, Starts};
ghost use Rattle.encoding.specs.Rows.{items};
ghost use Rattle.write_steps.specs.Writes.{list_in, state_at};
ghost use Rattle.parts.specs.Parts.{NoChoice};
ghost use Rattle.write_begin.specs.Begins.{Begins, Marks, Chooses, Leads};

use answer::Refusal;
use parts::Left;
use row::Row;
use write_steps::Cursor;

// A counted run: a length, which leaves that many items of the row that it refers to.
fn begin_counted(
    table: &[u8],
    at: usize,
    values: &[i64],
    packed: &[u8],
    output: &mut [u8],
    cursor: Cursor,
) -> Result<(Left, Cursor), Refusal>
    requires { Obeys table.now × Starts table.now at × (u16 table.now (at + 2) ≡ 4) × (length output.old ≤ most_octets) }
    ensures { Begins table.now at (list_in values.now packed.now) (items table.now at) (state_at cursor output.old) output.new result }
{
    let (value, after) = write_steps::next_value(values, packed, cursor.index)?;
    let most = Row::count_at(table, at);
    let row = Row::run_at(table, at);
    let put = write_item::length(output, cursor.place, 0, most as u32, value);
    let next = write_steps::moved(put, cursor.index, after)?;
    Ok((parts::run_of(table, item::count_of(value), row), next))
}

// A choice: an index, which leaves the row of its branch.
fn choose(
    table: &[u8],
    at: usize,
    values: &[i64],
    packed: &[u8],
    output: &mut [u8],
    cursor: Cursor,
) -> Result<(usize, Cursor), Refusal>
    requires { Obeys table.now × Starts table.now at × (u16 table.now (at + 2) ≡ 6) × (length output.old ≤ most_octets) }
    ensures { Chooses table.now at (list_in values.now packed.now) (state_at cursor output.old) output.new result }
{
    let (value, after) = write_steps::next_value(values, packed, cursor.index)?;
    let branches = Row::count_at(table, at);
    let put = write_item::index(output, cursor.place, table, at + Row::HEAD, branches, value);
    let next = write_steps::moved(put, cursor.index, after)?;
    Ok((Row::branch_at(table, at, item::count_of(value)), next))
}

// The row that the choices from an offset on lead to: the row there, where it is no choice.
pub fn follow(
    table: &[u8],
    at: usize,
    values: &[i64],
    packed: &[u8],
    output: &mut [u8],
    cursor: Cursor,
) -> Result<(usize, Cursor), Refusal>
    requires { Obeys table.now × Starts table.now at × (length output.old ≤ most_octets) }
    ensures { Leads table.now at (list_in values.now packed.now) (state_at cursor output.old) output.new result }
{
    let mut row = at;
    let mut here = cursor;
    while Row::kind_at(table, row) == Row::CHOICE {
        let (branch, next) = choose(table, row, values, packed, output, here)?;
        row = branch;
        here = next;
    }
    Ok((row, here))
}

// A field's mark behind those before it: set where the field is always there, else by its presence value, whose bit is written.
fn mark(
    flag: usize,
    mask: u32,
    values: &[i64],
    packed: &[u8],
    output: &mut [u8],
    cursor: Cursor,
) -> Result<(u32, Cursor), Refusal>
    requires { (mask < 2147483648) × (length output.old ≤ most_octets) }
    ensures { Marks flag mask (list_in values.now packed.now) (state_at cursor output.old) output.new result }
{
    if flag == 0 {
        return Ok((mask * 2 + 1, cursor));
    }
    let (value, after) = write_steps::next_value(values, packed, cursor.index)?;
    let put = write_item::number(output, cursor.place, 0, 1, value);
    let next = write_steps::moved(put, cursor.index, after)?;
    if item::count_of(value) == 1 {
        return Ok((mask * 2 + 1, next));
    }
    Ok((mask * 2, next))
}

// A record: a presence value for each optional field, which leave the fields that are present.
fn begin_record(
    table: &[u8],
    at: usize,
    values: &[i64],
    packed: &[u8],
    output: &mut [u8],
    cursor: Cursor,
) -> Result<(Left, Cursor), Refusal>
    requires { Obeys table.now × Starts table.now at × (u16 table.now (at + 2) ≡ 5) × (length output.old ≤ most_octets) }
    ensures { Begins table.now at (list_in values.now packed.now) (items table.now at) (state_at cursor output.old) output.new result }
{
    let fields = Row::count_at(table, at);
    let mut mask = 0u32;
    let mut here = cursor;
    for field in 0..fields {
        let flag = Row::flag_at(table, at, field);
        let (marked, next) = mark(flag, mask, values, packed, output, here)?;
        mask = marked;
        here = next;
    }
    Ok((Left::Fields(mask), here))
}

// The row at an offset, which is no choice: its own items, and what they leave.
pub fn begin(
    table: &[u8],
    at: usize,
    values: &[i64],
    packed: &[u8],
    output: &mut [u8],
    cursor: Cursor,
) -> Result<(Left, Cursor), Refusal>
    requires { Obeys table.now × Starts table.now at × NoChoice table.now at × (length output.old ≤ most_octets) }
    ensures { Begins table.now at (list_in values.now packed.now) (items table.now at) (state_at cursor output.old) output.new result }
{
    let kind = Row::kind_at(table, at);
    match kind {
        Row::NUMBER => Ok((Left::Numbers(1, at), cursor)), // a run of one
        Row::VARIABLE => {
            let next = write_leaf::variable(values, packed, output, cursor)?;
            Ok((Left::Nothing, next))
        }
        Row::FIXED_RUN => {
            let count = Row::count_at(table, at);
            let row = Row::run_at(table, at);
            Ok((parts::run_of(table, count, row), cursor))
        }
        Row::COUNTED_RUN => begin_counted(table, at, values, packed, output, cursor),
        Row::RECORD => begin_record(table, at, values, packed, output, cursor),
        _ => {
            let next = write_leaf::octets(table, at, values, packed, output, cursor)?;
            Ok((Left::Nothing, next))
        }
    }
}
