// What reading and writing the rows of a table share: what a row's own items leave, and the mask of a record's fields.
#![tactic(auto)]

ghost use Rattle.std.specs.Prelude.{◌≡◌, false, ◌+◌, ◌<◌, ◌≤◌, ◌^◌, length, get_or};
ghost use Rattle.bits.specs.Bits.{bits_of};
ghost use Rattle.parts.specs.Left.{run_of};

use row::Row;

// What a row's own items leave to be read or written: nothing, a run of the row at an offset, numbers of the number row at an offset, or
// the fields of the record that a mask marks as present (the first field on top).
#[derive(Clone, Copy, Debug, PartialEq, Eq)]
pub enum Left {
    Nothing,
    Run(usize, usize),
    Numbers(usize, usize),
    Fields(u32),
}

// A run of the row at an offset: of numbers, where it is a number row.
pub fn run_of(table: &[u8], count: usize, row: usize) -> Left
    requires { row + 4 ≤ length table.now }
    ensures { result ≡ run_of table.now count row }
{
    if Row::kind_at(table, row) == Row::NUMBER {
        return Left::Numbers(count, row);
    }
    Left::Run(count, row)
}

// Whether a mask of so many fields marks a field, the first field on top.
pub fn is_marked(mask: u32, fields: usize, field: usize) -> bool
    requires { (field < fields) × (fields ≤ 32) × (mask < 2 ^ fields) }
    ensures { result ≡ get_or (bits_of fields mask) field false }
{
    let below = (fields - 1 - field) as u32;
    (mask >> below) % 2 == 1
}
