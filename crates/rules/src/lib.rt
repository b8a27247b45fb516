// The rules of a table (specs/Rules.antt) for one row, tested against the rows before it, part by part, in the order in which their
// numbers are answered.
#![tactic(auto)]

ghost use Rattle.std.specs.Prelude.{◌≡◌, true, ◌&&◌, [], ◌∷◌, ◌+◌, ◌*◌, ◌≤◌, ◌<◌, eqb, length, get_or};
ghost use Rattle.octets.specs.Numbers.{u16s};
ghost use Rattle.row.specs.Rows.{within};
ghost use Rattle.row.specs.Kinds.{length_of, least_count, most_count, count_of, flag_count};
ghost use Rattle.rules.specs.Rules.{flags_in_bounds};
ghost use Rattle.rules.specs.Steps.{spread, Headed, kept, deepest_from, row_tested};

use answer::Reason;
use row::Row;

// Whether a row of a known kind has the length that its kind asks for, with the count that stands in it.
fn length_right(table: &[u8], at: usize, size: usize, kind: usize) -> bool
    requires { (at + size ≤ length table.now) × (within 1 8 kind ≡ true) }
    ensures { result ≡ eqb size (length_of kind (count_of table.now at kind)) }
{
    Row::length(kind, 0) <= size && size == Row::length(kind, Row::count_of(table, at, kind))
}

// Whether n flags, the first at an offset, are 0 or 1.
fn flags_sound(table: &[u8], from: usize, n: usize) -> bool
    requires { 0 < n → from + 4 * n ≤ length table.now + 2 }
    ensures { result ≡ flags_in_bounds (u16s table.now from 4 n) }
{
    for i in 0..n {
        if Row::OPTIONAL < octets::u16_at(table, from + Row::FIELD * i) {
            return false;
        }
    }
    true
}

// Whether the numbers of a row of a kind, its count and its flags, are in bounds.
fn numbers_right(table: &[u8], at: usize, kind: usize, count: usize) -> bool
    requires { (at + length_of kind count ≤ length table.now) × (length table.now ≤ 4096) }
    ensures { result ≡ within (least_count kind) (most_count kind) count && flags_in_bounds (u16s table.now (at + 8) 4 (flag_count kind count)) }
{
    Row::least_count(kind) <= count
        && count <= Row::most_count(kind)
        && flags_sound(table, at + Row::FIRST_FLAG, Row::flag_count(kind, count))
}

// The depth of the row at an offset, or 0 if none that starts there has passed. No row starts at an odd offset.
fn depth_at(depths: &[u8], at: usize) -> u8
    ensures { result ≡ get_or (spread depths.now) at 0 }
{
    if at % 2 != 0 {
        return 0;
    }
    depths.get(at / 2).copied().unwrap_or(0)
}

// Whether a reference is that of a reserved branch, where there may be one.
fn is_reserved(reserved: bool, reference: usize) -> bool
    ensures { result ≡ reserved && eqb reference 65535 }
{
    reserved && reference == Row::RESERVED
}

// A depth or that of the row referred to, the deeper of the two. A reserved branch changes nothing.
fn deeper(depth: u8, reference: usize, reserved: bool, depths: &[u8]) -> Option<u8>
    ensures { result ≡ deepest_from (spread depths.now) depth (kept reserved (reference ∷ [])) }
{
    if is_reserved(reserved, reference) {
        return Some(depth);
    }
    let other = depth_at(depths, reference);
    if other == 0 {
        return None;
    }
    Some(depth.max(other))
}

// The deepest row that n references refer to, the first at an offset and each a step after the one before.
fn deepest(
    table: &[u8],
    from: usize,
    step: usize,
    n: usize,
    reserved: bool,
    depths: &[u8],
) -> Option<u8>
    requires { (2 ≤ step) × (0 < n → from + step * n ≤ length table.now) }
    ensures { result ≡ deepest_from (spread depths.now) 0 (kept reserved (u16s table.now from step n)) }
{
    let mut depth = 0;
    for i in 0..n {
        depth = deeper(
            depth,
            octets::u16_at(table, from + step * i),
            reserved,
            depths,
        )?;
    }
    Some(depth)
}

// The row at an offset against every rule but those for its end and its kind, which it keeps. `depths` has the depth of each row
// before it at half the row's offset, and 0 elsewhere.
fn kind_test(
    table: &[u8],
    at: usize,
    size: usize,
    kind: usize,
    depths: &[u8],
) -> Result<(usize, u8), Reason>
    requires { (length table.now ≤ 4096) × Headed table.now at size kind }
    ensures { result ≡ row_tested table.now at (spread depths.now) }
{
    if !length_right(table, at, size, kind) {
        return Err(Reason::WrongRowLength);
    }
    let count = Row::count_of(table, at, kind);
    if !numbers_right(table, at, kind, count) {
        return Err(Reason::WrongRowNumber);
    }
    let step = Row::reference_step(kind);
    let n = Row::reference_count(kind, count);
    let reserved = Row::may_reserve(kind);
    let depth = deepest(table, at + Row::HEAD, step, n, reserved, depths).ok_or(
        Reason::WrongReference,
    )?;
    if depth < Row::least_below(kind) {
        return Err(Reason::OnlyReserved);
    }
    if Row::MOST_DEPTH <= depth {
        return Err(Reason::TooDeep);
    }
    Ok((size, depth + 1))
}

// The row at an offset, where so many octets of the table are left: room for a row, its end, its kind, then the other rules. An arm
// for each kind lets the compiler settle what goes by the kind.
#[tactic(auto, unfolding(row::specs::Rows::within))]
pub fn row_test(table: &[u8], at: usize, left: usize, depths: &[u8]) -> Result<(usize, u8), Reason>
    requires { (at + left ≡ length table.now) × (length table.now ≤ 4096) }
    ensures { result ≡ row_tested table.now at (spread depths.now) }
{
    if left < Row::START {
        return Err(Reason::RowPastEnd);
    }
    let size = Row::length_at(table, at);
    if left < size {
        return Err(Reason::RowPastEnd);
    }
    let kind = Row::kind_at(table, at);
    match kind {
        Row::NUMBER => kind_test(table, at, size, Row::NUMBER, depths),
        Row::VARIABLE => kind_test(table, at, size, Row::VARIABLE, depths),
        Row::FIXED_RUN => kind_test(table, at, size, Row::FIXED_RUN, depths),
        Row::COUNTED_RUN => kind_test(table, at, size, Row::COUNTED_RUN, depths),
        Row::RECORD => kind_test(table, at, size, Row::RECORD, depths),
        Row::CHOICE => kind_test(table, at, size, Row::CHOICE, depths),
        Row::OCTETS => kind_test(table, at, size, Row::OCTETS, depths),
        Row::OPEN_OCTETS => kind_test(table, at, size, Row::OPEN_OCTETS, depths),
        _ => Err(Reason::UnknownKind),
    }
}
