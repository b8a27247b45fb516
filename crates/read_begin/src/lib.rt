// The beginning of a row. Choices come first: each is an index, which leaves the row of its branch. Then the items that are the
// row's own: all of them where it is a variable number or octets (read_leaf), none where it is a number, which is left as a run of
// one, else the length of a counted run or the presence bits of a record; and what they leave to be read.
#![tactic(auto)]

ghost use Rattle.std.specs.Prelude.{◌≡◌, ◌+◌, ◌<◌, ◌≤◌, length};
ghost use Rattle.bits.specs.Access.{most_octets};
ghost use Rattle.octets.specs.Numbers.{u16};
ghost use Rattle.guard.specs.Readable.{asks_at, Readable, Opened};
ghost use Rattle.read_steps.specs.Reads.{state_at};
ghost use Rattle.parts.specs.Parts.{NoChoice};
ghost use Rattle.read_begin.specs.Begins.{Begins, Marks, Chooses, Leads};

use answer::Refusal;
use parts::Left;
use read_steps::Cursor;
use row::Row;

// A counted run: a length, which leaves that many items of the row that it refers to.
fn begin_counted(
    table: &[u8],
    at: usize,
    message: &[u8],
    values: &mut [i64],
    packed: &mut [u8],
    room: usize,
    cursor: Cursor,
) -> Result<(Left, Cursor), Refusal>
    requires { Opened table.now at × (u16 table.now (at + 2) ≡ 4) × (length message.now ≤ most_octets) }
    ensures { Begins table.now at message.now room (asks_at table.now at) (state_at cursor values.old packed.old) values.new packed.new result }
{
    let most = Row::count_at(table, at);
    let row = Row::run_at(table, at);
    let (length, first) = read_item::length(message, cursor.place, 0, most as u32)?;
    let next = read_steps::keep(length, first, values, packed, room, cursor)?;
    Ok((parts::run_of(table, item::count_of(length), row), next))
}

// A choice: an index, which leaves the row of its branch.
fn choose(
    table: &[u8],
    at: usize,
    message: &[u8],
    values: &mut [i64],
    packed: &mut [u8],
    room: usize,
    cursor: Cursor,
) -> Result<(usize, Cursor), Refusal>
    requires { Readable table.now at × (u16 table.now (at + 2) ≡ 6) × (length message.now ≤ most_octets) }
    ensures { Chooses table.now at message.now room (state_at cursor values.old packed.old) values.new packed.new result }
{
    let branches = Row::count_at(table, at);
    let (index, first) = read_item::index(message, cursor.place, table, at + Row::HEAD, branches)?;
    let next = read_steps::keep(index, first, values, packed, room, cursor)?;
    Ok((Row::branch_at(table, at, item::count_of(index)), next))
}

// The row that the choices from an offset on lead to: the row there, where it is no choice. In a state each branch is tested.
pub fn follow(
    table: &[u8],
    at: usize,
    message: &[u8],
    values: &mut [i64],
    packed: &mut [u8],
    room: usize,
    cursor: Cursor,
) -> Result<(usize, Cursor), Refusal>
    requires { Readable table.now at × (length message.now ≤ most_octets) }
    ensures { Leads table.now at message.now room (state_at cursor values.old packed.old) values.new packed.new result }
{
    let mut row = at;
    let mut here = cursor;
    while Row::kind_at(table, row) == Row::CHOICE {
        let (branch, next) = choose(table, row, message, values, packed, room, here)?;
        if Row::MOST_TABLE < table.len() && !guard::leads(table, row, branch) {
            return Err(guard::unreadable(next.place));
        }
        row = branch;
        here = next;
    }
    Ok((row, here))
}

// A field's mark behind those before it: set where the field is always there, else its presence bit, which is a value.
fn mark(
    flag: usize,
    mask: u32,
    message: &[u8],
    values: &mut [i64],
    packed: &mut [u8],
    room: usize,
    cursor: Cursor,
) -> Result<(u32, Cursor), Refusal>
    requires { (mask < 2147483648) × (length message.now ≤ most_octets) }
    ensures { Marks flag mask message.now room (state_at cursor values.old packed.old) values.new packed.new result }
{
    if flag == 0 {
        return Ok((mask * 2 + 1, cursor));
    }
    let (bit, first) = read_item::number(message, cursor.place, 0, 1)?;
    let next = read_steps::keep(bit, first, values, packed, room, cursor)?;
    if item::count_of(bit) == 1 {
        return Ok((mask * 2 + 1, next));
    }
    Ok((mask * 2, next))
}

// A record: a presence bit for each optional field, which leave the fields that are present.
fn begin_record(
    table: &[u8],
    at: usize,
    message: &[u8],
    values: &mut [i64],
    packed: &mut [u8],
    room: usize,
    cursor: Cursor,
) -> Result<(Left, Cursor), Refusal>
    requires { Opened table.now at × (u16 table.now (at + 2) ≡ 5) × (length message.now ≤ most_octets) }
    ensures { Begins table.now at message.now room (asks_at table.now at) (state_at cursor values.old packed.old) values.new packed.new result }
{
    let fields = Row::count_at(table, at);
    let mut mask = 0u32;
    let mut here = cursor;
    for field in 0..fields {
        let flag = Row::flag_at(table, at, field);
        let (marked, next) = mark(flag, mask, message, values, packed, room, here)?;
        mask = marked;
        here = next;
    }
    Ok((Left::Fields(mask), here))
}

// The row at an offset, which is no choice: its own items, and what they leave.
pub fn begin(
    table: &[u8],
    at: usize,
    message: &[u8],
    values: &mut [i64],
    packed: &mut [u8],
    room: usize,
    cursor: Cursor,
) -> Result<(Left, Cursor), Refusal>
    requires { Opened table.now at × NoChoice table.now at × (length message.now ≤ most_octets) }
    ensures { Begins table.now at message.now room (asks_at table.now at) (state_at cursor values.old packed.old) values.new packed.new result }
{
    let kind = Row::kind_at(table, at);
    match kind {
        Row::NUMBER => Ok((Left::Numbers(1, at), cursor)), // a run of one
        Row::VARIABLE => {
            let next = read_leaf::variable(message, values, packed, room, cursor)?;
            Ok((Left::Nothing, next))
        }
        Row::FIXED_RUN => {
            let count = Row::count_at(table, at);
            let row = Row::run_at(table, at);
            Ok((parts::run_of(table, count, row), cursor))
        }
        Row::COUNTED_RUN => begin_counted(table, at, message, values, packed, room, cursor),
        Row::RECORD => begin_record(table, at, message, values, packed, room, cursor),
        _ => {
            let next = read_leaf::octets(table, at, message, values, packed, room, cursor)?;
            Ok((Left::Nothing, next))
        }
    }
}
