// What may be asked of a table that passed the check: a part, for the crates above.
ghost use Rattle.std.specs.Prelude.{◌≡◌};
ghost use Rattle.table.specs.Verdict.{verdict, passed};
ghost use Rattle.table.specs.Root.{root};

use row::Row;

// The offset of the root, the last row, of a table that obeys the rules.
pub fn root(table: &[u8]) -> usize
    requires { verdict table.now ≡ passed }
    ensures { result ≡ root table.now }
{
    let mut at = 0;
    let mut next = Row::length_at(table, at);
    while next < table.len() {
        at = next;
        next = at + Row::length_at(table, at);
    }
    at
}
