// The tests by which a row of a loaded state is read, whatever octets the state holds (encoding's specs/Guarded.antt): 4,096 octets of
// rows, and behind them the depth of each row at half its offset. They look at no more than a row and those that it refers to. A slice
// of rows that is longer than any table is a state; the rows of a table that passed the check are not tested (specs/Readable.antt).
#![tactic(auto)]

ghost use Rattle.std.specs.Prelude.{true, ◌≡◌, ◌+◌, ◌≤◌, ◌<◌, length};
ghost use Rattle.octets.specs.Numbers.{u16};
ghost use Rattle.answer.specs.Numbers.{no_branch, refusal_at};
ghost use Rattle.row.specs.Rows.{within, row_at};
ghost use Rattle.encoding.specs.Guarded.{fits_as, fits, held_depth, leads, opens, enters};
ghost use Rattle.guard.specs.Readable.{Readable, Tested};

use answer::{Reason, Refusal};
use bits::BitPlace;
use row::Row;

// Whether a row of a kind can be read: it ends inside, and its count is one of its kind's.
fn kind_fits(state: &[u8], at: usize, kind: usize) -> bool
    requires { (6144 ≤ length state.now) × (at + 4 ≤ 4096) × (within 1 8 kind ≡ true) }
    ensures { result ≡ fits_as state.now at kind }
{
    let count = Row::count_of(state, at, kind);
    if Row::MOST_TABLE < at + Row::length(kind, count) {
        return false;
    }
    if count < Row::least_count(kind) {
        return false;
    }
    count <= Row::most_count(kind)
}

// Whether the row at an offset can be read. An arm for each kind lets the compiler settle what goes by the kind.
#[tactic(auto, unfolding(row::specs::Rows::within))]
pub fn fits(state: &[u8], at: usize) -> bool
    requires { 6144 ≤ length state.now }
    ensures { result ≡ fits state.now at }
{
    if Row::MOST_TABLE - Row::START < at {
        return false;
    }
    let kind = Row::kind_at(state, at);
    match kind {
        Row::NUMBER => kind_fits(state, at, Row::NUMBER),
        Row::VARIABLE => kind_fits(state, at, Row::VARIABLE),
        Row::FIXED_RUN => kind_fits(state, at, Row::FIXED_RUN),
        Row::COUNTED_RUN => kind_fits(state, at, Row::COUNTED_RUN),
        Row::RECORD => kind_fits(state, at, Row::RECORD),
        Row::CHOICE => kind_fits(state, at, Row::CHOICE),
        Row::OCTETS => kind_fits(state, at, Row::OCTETS),
        Row::OPEN_OCTETS => kind_fits(state, at, Row::OPEN_OCTETS),
        _ => false,
    }
}

// The depth that a state has of the row at an offset.
fn depth_at(state: &[u8], at: usize) -> u8
    requires { (6144 ≤ length state.now) × (at < 4096) }
    ensures { result ≡ held_depth state.now at }
{
    state[Row::MOST_TABLE + at / 2]
}

// Whether the row at one offset leads to that at another: it stands earlier, has a depth, a lower one, and can be read.
pub fn leads(state: &[u8], at: usize, row: usize) -> bool
    requires { (6144 ≤ length state.now) × (at < 4096) }
    ensures { result ≡ leads state.now at row }
{
    if at <= row {
        return false;
    }
    let depth = depth_at(state, row);
    if depth == 0 {
        return false;
    }
    if depth_at(state, at) <= depth {
        return false;
    }
    fits(state, row)
}

// Whether the rows that the record at an offset refers to can be read.
fn record_opens(state: &[u8], at: usize) -> bool
    requires { (6144 ≤ length state.now) × (fits state.now at ≡ true) × (u16 state.now (at + 2) ≡ 5) }
    ensures { result ≡ opens state.now at (row_at state.now at) }
{
    let fields = Row::count_at(state, at);
    for field in 0..fields {
        if !leads(state, at, Row::field_at(state, at, field)) {
            return false;
        }
    }
    true
}

// Whether the rows that a run or a record at an offset refers to can be read.
pub fn opens(state: &[u8], at: usize) -> bool
    requires { (6144 ≤ length state.now) × (fits state.now at ≡ true) }
    ensures { result ≡ opens state.now at (row_at state.now at) }
{
    let kind = Row::kind_at(state, at);
    match kind {
        Row::FIXED_RUN => leads(state, at, Row::run_at(state, at)),
        Row::COUNTED_RUN => leads(state, at, Row::run_at(state, at)),
        Row::RECORD => record_opens(state, at),
        _ => true,
    }
}

// Whether the rows that the row at an offset refers to are known to be readable, so that they aren't tested again each time that it is
// read. Those of a table are; in a state those of a choice aren't, and of any other row they are if they pass the test here.
pub fn settled(table: &[u8], at: usize) -> bool
    requires { Readable table.now at }
    ensures { Tested result table.now at }
{
    if table.len() <= Row::MOST_TABLE {
        return true;
    }
    if Row::kind_at(table, at) == Row::CHOICE {
        return false;
    }
    opens(table, at)
}

// The refusal of a row that can't be read, at a place.
pub fn unreadable(place: BitPlace) -> Refusal
    ensures { result ≡ refusal_at no_branch place.0 }
{
    Reason::NoBranch.at_place(place.0)
}

// Whether the row at an offset can be the root: it can be read, and its depth is one that a row may have.
pub fn enters(state: &[u8], at: usize) -> bool
    requires { 6144 ≤ length state.now }
    ensures { result ≡ enters state.now at }
{
    if !fits(state, at) {
        return false;
    }
    let depth = depth_at(state, at);
    if depth == 0 {
        return false;
    }
    depth <= Row::MOST_DEPTH
}
