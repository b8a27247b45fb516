// Reading and writing under a lent table: the check, the root, the padding, and zeros after the answer. No call here asks
// anything of its arguments.
#![tactic(auto)]

ghost use Rattle.std.specs.Prelude.{◌≡◌, ◌/◌, length};
ghost use Rattle.values.specs.Values.{values_in};
ghost use Rattle.encoding.specs.Reading.{read_outcome};
ghost use Rattle.encoding.specs.Writing.{write_outcome};
ghost use Rattle.encoding.specs.Calls.{read_call, write_call};
ghost use Rattle.items.specs.Slices.{values_after, packed_after, output_after};
ghost use Rattle.write_steps.specs.Writes.{list_in};

use answer::Answer;

// Reads all lent octets as one message under a lent table, into the value slice.
pub fn read(table: &[u8], message: &[u8], values: &mut [i64]) -> Answer
    ensures { (result ≡ read_call table.now message.now (length values.old)) × (values.new ≡ values_after (length values.old) (read_outcome table.now message.now (length values.old))) }
{
    if let Err(refusal) = table::check(table) {
        values::clear(values, 0, 0);
        return Err(refusal);
    }
    reading::read_known(table, table::passed::root(table), message, values)
}

// The same with the values as octets, eight for each.
pub fn read_packed(table: &[u8], message: &[u8], packed: &mut [u8]) -> Answer
    ensures { (result ≡ read_call table.now message.now (length packed.old / 8)) × (packed.new ≡ packed_after (length packed.old) (read_outcome table.now message.now (length packed.old / 8))) }
{
    if let Err(refusal) = table::check(table) {
        values::clear(packed, 0, 0);
        return Err(refusal);
    }
    let root = table::passed::root(table);
    let mut none = [0i64; 0];
    let room = packed.len() / 8;
    let answer = reading::read_passed(table, root, message, &mut none, packed, room);
    let kept = read_steps::kept_count(answer);
    values::clear(packed, kept * 8, 0);
    answer
}

// Writes a list under a lent table into the output.
pub fn write(table: &[u8], values: &[i64], output: &mut [u8]) -> Answer
    ensures { (result ≡ write_call table.now values.now (length output.old)) × (output.new ≡ output_after (length output.old) (write_outcome table.now values.now (length output.old))) }
{
    let none = [0u8; 0];
    write_lent(table, values, &none, output)
}

// The same with the values as octets, eight for each.
pub fn write_packed(table: &[u8], packed: &[u8], output: &mut [u8]) -> Answer
    ensures { (result ≡ write_call table.now (values_in packed.now) (length output.old)) × (output.new ≡ output_after (length output.old) (write_outcome table.now (values_in packed.now) (length output.old))) }
{
    let none = [0i64; 0];
    write_lent(table, &none, packed, output)
}

// A list in either slice under a lent table.
fn write_lent(table: &[u8], values: &[i64], packed: &[u8], output: &mut [u8]) -> Answer
    ensures { (result ≡ write_call table.now (list_in values.now packed.now) (length output.old)) × (output.new ≡ output_after (length output.old) (write_outcome table.now (list_in values.now packed.now) (length output.old))) }
{
    if let Err(refusal) = table::check(table) {
        values::clear(output, 0, 0);
        return Err(refusal);
    }
    writing::write_known(table, table::passed::root(table), values, packed, output)
}
