// What a host written in Rust or C calls: check, read and write under a lent table, load a table once and read through the state
// that it was loaded into, and forward a message, on plain numbers, octet slices and a list of records. A value is eight octets, little-endian, two's complement; octets after the
// last whole eight of a value slice hold none.
#![tactic(auto)]

ghost use Rattle.std.specs.Prelude.{◌≡◌, ◌/◌, length};
ghost use Rattle.values.specs.Values.{values_in};
ghost use Rattle.table.specs.Verdict.{verdict, checked};
ghost use Rattle.encoding.specs.Reading.{read_outcome};
ghost use Rattle.encoding.specs.Writing.{write_outcome};
ghost use Rattle.encoding.specs.Calls.{read_call, write_call};
ghost use Rattle.items.specs.Reading.{read_answer};
ghost use Rattle.items.specs.Slices.{packed_after, output_after};
ghost use Rattle.loading.specs.State.{loaded_by, through_state};
ghost use Rattle.forward.specs.Forward.{forward_answer, seen_after, forward_output};
ghost use Rattle.told.specs.Told.{told};

use loading::STATE;
use seen::Seen;

#[unsafe(no_mangle)]
pub extern "C" fn teyolxan_check(table: &[u8], numbers: &mut [u64; 6])
    ensures { numbers.new ≡ told (checked (verdict table.now)) }
{
    *numbers = told::told(table::check(table));
}

#[unsafe(no_mangle)]
pub extern "C" fn teyolxan_read(
    table: &[u8],
    message: &[u8],
    values: &mut [u8],
    numbers: &mut [u64; 6],
)
    ensures { (numbers.new ≡ told (read_call table.now message.now (length values.old / 8))) × (values.new ≡ packed_after (length values.old) (read_outcome table.now message.now (length values.old / 8))) }
{
    let answer = codec::read_packed(table, message, values);
    *numbers = told::told(answer);
}

#[unsafe(no_mangle)]
pub extern "C" fn teyolxan_write(
    table: &[u8],
    values: &[u8],
    output: &mut [u8],
    numbers: &mut [u64; 6],
)
    ensures { (numbers.new ≡ told (write_call table.now (values_in values.now) (length output.old))) × (output.new ≡ output_after (length output.old) (write_outcome table.now (values_in values.now) (length output.old))) }
{
    let answer = codec::write_packed(table, values, output);
    *numbers = told::told(answer);
}

#[unsafe(no_mangle)]
pub extern "C" fn teyolxan_load(state: &mut [u8; STATE], table: &[u8], numbers: &mut [u64; 6])
    ensures { (numbers.new ≡ told (checked (verdict table.now))) × (state.new ≡ loaded_by state.old table.now) }
{
    let answer = loading::load(state, table);
    *numbers = told::told(answer);
}

#[unsafe(no_mangle)]
pub extern "C" fn teyolxan_read_loaded(
    state: &[u8; STATE],
    message: &[u8],
    values: &mut [u8],
    numbers: &mut [u64; 6],
)
    ensures { (numbers.new ≡ told (read_answer (through_state state.now message.now (length values.old / 8)))) × (values.new ≡ packed_after (length values.old) (through_state state.now message.now (length values.old / 8))) }
{
    let answer = loaded::read_packed(state, message, values);
    *numbers = told::told(answer);
}

#[unsafe(no_mangle)]
pub extern "C" fn teyolxan_forward(
    message: &[u8],
    time: u32,
    seen: &mut [Seen],
    output: &mut [u8],
    numbers: &mut [u64; 6],
)
    ensures { (numbers.new ≡ told (forward_answer message.now time seen.old (length output.old))) × (seen.new ≡ seen_after message.now time seen.old (length output.old)) × (output.new ≡ forward_output message.now time seen.old (length output.old)) }
{
    let answer = forwarding::forward(message, time, seen, output);
    told::tell(answer, numbers);
}
