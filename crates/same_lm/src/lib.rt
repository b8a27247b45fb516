// An LM read by name, under its table, and read plainly, without one (document 02, ticket 4): a program that does both and compares,
// and is proved to find no difference.
#![tactic(auto)]

ghost use Rattle.std.specs.Prelude.{◌≡◌, true, ◌↔◌, length};
ghost use Rattle.items.specs.Slices.{values_after};
ghost use Rattle.lm.specs.ByName.{read_lm_outcome};

// Whether two value slices are the same.
fn same_values(one: &[i64], other: &[i64]) -> bool
    ensures { (result ≡ true) ↔ (one.now ≡ other.now) }
{
    one == other
}

// Reads a message as an LM by name into one slice and plainly into another, and tells whether the answers and the slices are the same:
// they are exactly if the slices have one length.
pub fn same(message: &[u8], named: &mut [i64], plainly: &mut [i64]) -> bool
    ensures { ((result ≡ true) ↔ (length named.old ≡ length plainly.old)) × (named.new ≡ values_after (length named.old) (read_lm_outcome message.now (length named.old))) × (plainly.new ≡ values_after (length plainly.old) (read_lm_outcome message.now (length plainly.old))) }
{
    let first = messages::read_lm(message, named);
    let second = plain::read_lm(message, plainly);
    first == second && same_values(&*named, &*plainly)
}
