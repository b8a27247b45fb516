// One value's bits: a number, a variable number, a length, the index of a choice (document 01, "Bits and values"). What reading
// and writing such an item share; reading is in read_item, writing in write_item.
#![tactic(auto)]

ghost use Rattle.std.specs.Prelude.{◌≡◌, false, suc, ◌+◌, ◌*◌, ◌≤◌, length, get_or};
ghost use Rattle.bits.specs.Bits.{width};
ghost use Rattle.item.specs.Code.{base, natural};
ghost use Rattle.item.specs.Answers.{branches_at};
ghost use Rattle.item.specs.Steps.{leading_worth};

// The form of an item of whole octets, which has ones and a zero in front: its bits in all, what its leading bits are worth,
// and what is added to the others in a variable number.
#[derive(Clone, Copy, Debug, PartialEq, Eq)]
pub struct Form {
    pub bits: u32,
    pub leading: u32,
    pub base: u32,
}

impl Form {
    // The least variable numbers that take two, three and four octets, and the largest.
    pub const TWO_OCTETS: u32 = 128;

    pub const THREE_OCTETS: u32 = 16512;

    pub const FOUR_OCTETS: u32 = 2113664;

    pub const LARGEST: u32 = 270549119;

    // The largest length.
    pub const LARGEST_LENGTH: u32 = 16383;

    // The form with that many ones.
    pub fn after_ones(ones: u32) -> Form
        requires { ones ≤ 3 }
        ensures { (result.bits ≡ 8 * suc ones) × (result.leading ≡ leading_worth ones) × (result.base ≡ base ones) }
    {
        match ones {
            0 => Form {
                bits: 8,
                leading: 0,
                base: 0,
            },
            1 => Form {
                bits: 16,
                leading: 32768,
                base: Form::TWO_OCTETS,
            },
            2 => Form {
                bits: 24,
                leading: 12582912,
                base: Form::THREE_OCTETS,
            },
            _ => Form {
                bits: 32,
                leading: 3758096384,
                base: Form::FOUR_OCTETS,
            },
        }
    }
}

// The smallest k with 2 ^ k above a span.
pub fn width(span: u32) -> u32
    ensures { (result ≡ width span) × (result ≤ 32) }
{
    32 - span.leading_zeros()
}

// Stands in a choice for the reference of a reserved branch.
pub const RESERVED: usize = 65535;

// Whether a choice of m branches, whose references stand in a table from an offset on, has a branch that is not reserved.
pub fn has_branch(table: &[u8], from: usize, m: usize, i: usize) -> bool
    requires { from + 2 * m ≤ length table.now }
    ensures { result ≡ get_or (branches_at table.now from m) i false }
{
    if m <= i {
        return false;
    }
    octets::u16_at(table, from + 2 * i) != RESERVED
}

// A value as a count, 0 where it is negative.
pub fn count_of(value: i64) -> usize
    ensures { result ≡ natural value }
{
    if value < 0 { 0 } else { value as usize }
}
