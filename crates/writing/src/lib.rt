// Writes a list as one message under a table that is known to pass: the root, its end, and zeros to the output's real end.
#![tactic(auto)]

ghost use Rattle.std.specs.Prelude.{◌≡◌, ◌≤◌, length};
ghost use Rattle.bits.specs.Access.{most_octets};
ghost use Rattle.rules.specs.Rules.{Obeys};
ghost use Rattle.table.specs.Root.{root};
ghost use Rattle.encoding.specs.Rows.{asks};
ghost use Rattle.items.specs.Writing.{encode, write_answer};
ghost use Rattle.encoding.specs.Writing.{write_outcome};
ghost use Rattle.encoding.specs.Calls.{write_call};
ghost use Rattle.items.specs.Slices.{output_after};
ghost use Rattle.write_steps.specs.Writes.{list_in};
ghost use Rattle.write_steps.specs.Ends.{WrittenBy};

use answer::Answer;
use bits::BitPlace;
use write_steps::Cursor;

// A list under a passed table whose root is at an offset, into at most 65,535 octets: the root, then its end.
fn write_root(table: &[u8], at: usize, values: &[i64], packed: &[u8], output: &mut [u8]) -> Answer
    requires { Obeys table.now × (at ≡ root table.now) × (length output.old ≤ most_octets) }
    ensures { (result ≡ write_answer (encode (asks table.now) (list_in values.now packed.now) (length output.old))) × WrittenBy (encode (asks table.now) (list_in values.now packed.now) (length output.old)) output.new }
{
    let start = Cursor {
        place: BitPlace(0),
        index: 0,
    };
    let end = writer::write_row(table, at, values, packed, output, start)?;
    write_steps::finish(values::count(values, packed), output, end)
}

// A list under a table that is known to pass, whose root is at an offset, into any output; then zeros to its real end.
pub fn write_known(
    table: &[u8],
    at: usize,
    values: &[i64],
    packed: &[u8],
    output: &mut [u8],
) -> Answer
    requires { Obeys table.now × (at ≡ root table.now) }
    ensures { (result ≡ write_call table.now (list_in values.now packed.now) (length output.old)) × (output.new ≡ output_after (length output.old) (write_outcome table.now (list_in values.now packed.now) (length output.old))) }
{
    let most = write_steps::counted_length(output.len());
    let answer = write_root(table, at, values, packed, &mut output[..most]);
    let written = write_steps::written_count(answer);
    values::clear(output, written, 0);
    answer
}
