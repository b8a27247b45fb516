// Tables: the check against document 01's rules ("Row layout"), which tells the first that is broken (document 02, ticket 1), and what
// a table that passed it tells.
#![tactic(auto)]

pub mod pass;
pub mod passed;

ghost use Rattle.std.specs.Prelude.{◌≡◌};
ghost use Rattle.table.specs.Verdict.{verdict, checked};

use answer::{Answer, Counts};
use row::Row;

// Whether a table obeys the rules, or what is the first that it breaks. A check counts nothing.
pub fn check(table: &[u8]) -> Answer
    ensures { result ≡ checked (verdict table.now) }
{
    let mut depths = [0u8; Row::MOST_TABLE / 2];
    pass::pass(table, &mut depths)?;
    Ok(Counts::default())
}
