// A table that is checked once, and not for each message (document 02, ticket 3): it is loaded into a state that the caller lends, with
// the outcome of the check, its row count, its root and the depth of every row start. What a state holds is specs/State.antt.
#![tactic(auto)]

ghost use Rattle.std.specs.Prelude.{◌≡◌, ◌++◌, ◌-◌, ◌≤◌, length, take, drop, replicate};
ghost use Rattle.table.specs.Verdict.{verdict, checked};
ghost use Rattle.loading.specs.State.{numbers_of, state_with, loaded_by};

use answer::{Answer, Counts};
use row::Row;

// The octets of a state. They are all 0 in a fresh one, which holds no table.
pub const STATE: usize = 6160;

// Where the depths start, behind the table and its zeros; then, of two octets each, the table's length, its row count and its root.
pub const DEPTHS: usize = Row::MOST_TABLE;

pub const LENGTH: usize = 6144;

pub const ROWS: usize = 6146;

pub const ROOT: usize = 6148;

// Where the outcome of the check is, and what it is of a table that passed.
pub const OUTCOME: usize = 6150;

pub const PASSED: u8 = 1;

// The octets from LENGTH on: a length, a row count, a root, and that the check passed.
fn numbers(size: usize, rows: usize, root: usize) -> [u8; STATE - LENGTH]
    ensures { result ≡ numbers_of size rows root }
{
    let [size_low, size_high, ..] = size.to_le_bytes();
    let [rows_low, rows_high, ..] = rows.to_le_bytes();
    let [root_low, root_high, ..] = root.to_le_bytes();
    [
        size_low, size_high, rows_low, rows_high, root_low, root_high, PASSED, 0, 0, 0, 0, 0, 0, 0,
        0, 0,
    ]
}

// Stores a table with its depths, its row count and its root. Nothing of what the state held is left.
fn store(state: &mut [u8], table: &[u8], depths: &[u8], rows: usize, root: usize)
    requires { (length state.old ≡ 6160) × (length table.now ≤ 4096) × (length depths.now ≡ 2048) }
    ensures { state.new ≡ state_with table.now depths.now rows root }
{
    values::copy_octets(&mut state[..table.len()], 0, table);
    state[table.len()..DEPTHS].fill(0);
    state[DEPTHS..LENGTH].copy_from_slice(depths);
    state[LENGTH..].copy_from_slice(&numbers(table.len(), rows, root));
}

// Checks a table and, if it obeys the rules, loads it: it replaces all that the state held. If not, the state stays as it was.
pub fn load(state: &mut [u8; STATE], table: &[u8]) -> Answer
    ensures { (result ≡ checked (verdict table.now)) × (state.new ≡ loaded_by state.old table.now) }
{
    let mut depths = [0u8; Row::MOST_TABLE / 2];
    let found = table::pass::pass(table, &mut depths)?;
    store(state, table, &depths, found.rows, found.root);
    Ok(Counts::default())
}
