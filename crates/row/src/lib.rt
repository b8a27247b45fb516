// The row type: what document 01's table of rows ("Row layout"), with document 02's kind 8, says by kind, and the numbers that stand in
// a row, which is told by the offset of its first octet.
#![tactic(auto)]

ghost use Rattle.std.specs.Prelude.{◌≡◌, ◌+◌, ◌*◌, ◌≤◌, ◌<◌, length};
ghost use Rattle.std.specs.Int.Signed.{mag};
ghost use Rattle.octets.specs.Numbers.{u16, u32, signed};
ghost use Rattle.row.specs.Rows.{within};
ghost use Rattle.row.specs.Kinds.{length_of, has_count, least_count, most_count, count_of, least_length, reference_count, reference_step, may_reserve, flag_count, least_below};

// A row (document 01's term); no value of it is made.
#[derive(Clone, Copy)]
pub struct Row;

impl Row {
    // The kinds.
    pub const NUMBER: usize = 1;

    pub const VARIABLE: usize = 2;

    pub const FIXED_RUN: usize = 3;

    pub const COUNTED_RUN: usize = 4;

    pub const RECORD: usize = 5;

    pub const CHOICE: usize = 6;

    pub const OCTETS: usize = 7;

    pub const OPEN_OCTETS: usize = 8;

    // The sizes that a table may have.
    pub const LEAST_TABLE: usize = 4;

    pub const MOST_TABLE: usize = 4096;

    // The depth that a row may have.
    pub const MOST_DEPTH: u8 = 32;

    // The reference of a reserved branch.
    pub const RESERVED: usize = item::RESERVED;

    // The flag of an optional field.
    pub const OPTIONAL: usize = 1;

    // The length and the kind of a row, with which each starts.
    pub const START: usize = 4;

    // These and the count.
    pub const HEAD: usize = 6;

    // One field of a record: a reference and a flag.
    pub const FIELD: usize = 4;

    // One branch of a choice.
    pub const BRANCH: usize = 2;

    // Where the first flag of a record stands.
    pub const FIRST_FLAG: usize = 8;

    // Where the span of a number stands.
    pub const SPAN: usize = 8;

    // The lengths of whole rows.
    pub const NUMBER_LENGTH: usize = 12;

    pub const VARIABLE_LENGTH: usize = 4;

    pub const RUN_LENGTH: usize = 8;

    pub const OCTETS_LENGTH: usize = 6;

    // Whether a number is in bounds.
    fn between(least: usize, most: usize, n: usize) -> bool
        ensures { result ≡ within least most n }
    {
        least <= n && n <= most
    }

    // The length of a row of a kind, with that count: 0 if there is no such kind.
    pub fn length(kind: usize, count: usize) -> usize
        requires { count < 65536 }
        ensures { result ≡ length_of kind count }
    {
        match kind {
            Row::NUMBER => Row::NUMBER_LENGTH,
            Row::VARIABLE => Row::VARIABLE_LENGTH,
            Row::FIXED_RUN => Row::RUN_LENGTH,
            Row::COUNTED_RUN => Row::RUN_LENGTH,
            Row::RECORD => Row::HEAD + Row::FIELD * count,
            Row::CHOICE => Row::HEAD + Row::BRANCH * count,
            Row::OCTETS => Row::OCTETS_LENGTH,
            Row::OPEN_OCTETS => Row::OCTETS_LENGTH,
            _ => 0,
        }
    }

    // Whether a count stands after the kind: a run's count or most, how many fields or branches, the most of octets.
    fn has_count(kind: usize) -> bool
        ensures { result ≡ has_count kind }
    {
        Row::between(Row::FIXED_RUN, Row::OPEN_OCTETS, kind)
    }

    pub fn least_count(kind: usize) -> usize
        ensures { result ≡ least_count kind }
    {
        match kind {
            Row::FIXED_RUN => 1,
            Row::COUNTED_RUN => 1,
            Row::RECORD => 1,
            Row::CHOICE => 2,
            Row::OPEN_OCTETS => 1,
            _ => 0,
        }
    }

    pub fn most_count(kind: usize) -> usize
        ensures { result ≡ most_count kind }
    {
        match kind {
            Row::FIXED_RUN => 1024,
            Row::COUNTED_RUN => 16383,
            Row::RECORD => 32,
            Row::CHOICE => 128,
            Row::OCTETS => 16383,
            Row::OPEN_OCTETS => 16383,
            _ => 0,
        }
    }

    // The least length of octets; the most is their count.
    pub fn least_length(kind: usize) -> u32
        ensures { result ≡ least_length kind }
    {
        if kind == Row::OPEN_OCTETS { 1 } else { 0 }
    }

    // How many references a row has, reserved branches too.
    pub fn reference_count(kind: usize, count: usize) -> usize
        ensures { result ≡ reference_count kind count }
    {
        match kind {
            Row::FIXED_RUN => 1,
            Row::COUNTED_RUN => 1,
            Row::RECORD => count,
            Row::CHOICE => count,
            _ => 0,
        }
    }

    // From one reference to the next.
    pub fn reference_step(kind: usize) -> usize
        ensures { result ≡ reference_step kind }
    {
        if kind == Row::RECORD {
            Row::FIELD
        } else {
            Row::BRANCH
        }
    }

    // Whether branches of a row may be reserved.
    pub fn may_reserve(kind: usize) -> bool
        ensures { result ≡ may_reserve kind }
    {
        kind == Row::CHOICE
    }

    // How deep the deepest row that a row refers to is at least: every choice has a branch that isn't reserved.
    pub fn least_below(kind: usize) -> u8
        ensures { result ≡ least_below kind }
    {
        if kind == Row::CHOICE { 1 } else { 0 }
    }

    // How many flags a row has.
    pub fn flag_count(kind: usize, count: usize) -> usize
        ensures { result ≡ flag_count kind count }
    {
        if kind == Row::RECORD { count } else { 0 }
    }

    // The length that stands in the row at an offset.
    pub fn length_at(table: &[u8], at: usize) -> usize
        requires { at + 4 ≤ length table.now }
        ensures { (result ≡ u16 table.now at) × (result < 65536) }
    {
        octets::u16_at(table, at)
    }

    pub fn kind_at(table: &[u8], at: usize) -> usize
        requires { at + 4 ≤ length table.now }
        ensures { (result ≡ u16 table.now (at + 2)) × (result < 65536) }
    {
        octets::u16_at(table, at + 2)
    }

    // The count of a row that has one.
    pub fn count_at(table: &[u8], at: usize) -> usize
        requires { at + 6 ≤ length table.now }
        ensures { (result ≡ u16 table.now (at + 4)) × (result < 65536) }
    {
        octets::u16_at(table, at + Row::START)
    }

    // The count of a row of a kind, or 0 where the kind has none.
    pub fn count_of(table: &[u8], at: usize, kind: usize) -> usize
        requires { at + length_of kind 0 ≤ length table.now }
        ensures { (result ≡ count_of table.now at kind) × (result < 65536) }
    {
        if Row::has_count(kind) {
            Row::count_at(table, at)
        } else {
            0
        }
    }

    // The low of a number.
    pub fn low_at(table: &[u8], at: usize) -> i64
        requires { at + 12 ≤ length table.now }
        ensures { (result ≡ signed (u32 table.now (at + 4))) × (mag result ≤ 2147483648) }
    {
        octets::signed_of(octets::u32_at(table, at + Row::START))
    }

    // The span of a number.
    pub fn span_at(table: &[u8], at: usize) -> usize
        requires { at + 12 ≤ length table.now }
        ensures { (result ≡ u32 table.now (at + 8)) × (result < 4294967296) }
    {
        octets::u32_at(table, at + Row::SPAN)
    }

    // The reference of a run.
    pub fn run_at(table: &[u8], at: usize) -> usize
        requires { at + 8 ≤ length table.now }
        ensures { (result ≡ u16 table.now (at + 6)) × (result < 65536) }
    {
        octets::u16_at(table, at + Row::HEAD)
    }

    // The reference of the i-th field of a record.
    pub fn field_at(table: &[u8], at: usize, i: usize) -> usize
        requires { at + 10 + 4 * i ≤ length table.now }
        ensures { (result ≡ u16 table.now (at + 6 + 4 * i)) × (result < 65536) }
    {
        octets::u16_at(table, at + Row::HEAD + Row::FIELD * i)
    }

    // The flag of the i-th field of a record.
    pub fn flag_at(table: &[u8], at: usize, i: usize) -> usize
        requires { at + 10 + 4 * i ≤ length table.now }
        ensures { (result ≡ u16 table.now (at + 8 + 4 * i)) × (result < 65536) }
    {
        octets::u16_at(table, at + Row::FIRST_FLAG + Row::FIELD * i)
    }

    // The reference of the i-th branch of a choice.
    pub fn branch_at(table: &[u8], at: usize, i: usize) -> usize
        requires { at + 8 + 2 * i ≤ length table.now }
        ensures { (result ≡ u16 table.now (at + 6 + 2 * i)) × (result < 65536) }
    {
        octets::u16_at(table, at + Row::HEAD + Row::BRANCH * i)
    }
}
