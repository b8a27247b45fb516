// The one pass over a table's rows, which decides the rules and keeps the depth of each row: a part, for the crates above.
ghost use Rattle.std.specs.Prelude.{◌≡◌, replicate};
ghost use Rattle.table.specs.Verdict.{verdict, passed};
ghost use Rattle.table.specs.Summary.{depths_of};
ghost use Rattle.table.specs.Found.{pass_of};

use answer::{Reason, Refusal};
use row::Row;

// What the pass over a table finds: how many rows there are, and the offset of the last, the root.
#[derive(Clone, Copy, Debug, PartialEq, Eq)]
pub struct Found {
    pub rows: usize,
    pub root: usize,
}

// Whether a table obeys the rules, with its rows and its root, or what is the first that it breaks. The depth of each row that passes is
// kept at half its offset, which is even.
pub fn pass(table: &[u8], depths: &mut [u8]) -> Result<Found, Refusal>
    requires { depths.old ≡ replicate 2048 0 }
    ensures { (result ≡ pass_of table.now) × (verdict table.now ≡ passed → depths.new ≡ depths_of table.now) }
{
    if table.len() < Row::LEAST_TABLE || Row::MOST_TABLE < table.len() {
        return Err(Reason::TableSize.at_place(0));
    }
    let mut rows = 0;
    let mut root = 0;
    let mut at = 0;
    let mut left = table.len();
    while 0 < left {
        let test = rules::row_test(table, at, left, depths);
        let (length, depth) = test.map_err(|reason| reason.at_place(at))?;
        depths[at / 2] = depth;
        rows += 1;
        root = at;
        at += length;
        left -= length;
    }
    Ok(Found { rows, root })
}
