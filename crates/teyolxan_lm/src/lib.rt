// What the smallest unit of a host calls (document 02, ticket 4): an LM read with no table, on octet slices, with the answers of an LM by
// name. A value is eight octets, little-endian, two's complement; octets after the last whole eight of a value slice hold none.
#![tactic(auto)]

ghost use Rattle.std.specs.Prelude.{◌≡◌, ◌/◌, length};
ghost use Rattle.items.specs.Slices.{packed_after};
ghost use Rattle.lm.specs.ByName.{read_lm_outcome, read_lm_call};
ghost use Rattle.told.specs.Told.{told};

#[unsafe(no_mangle)]
pub extern "C" fn teyolxan_lm_read(message: &[u8], values: &mut [u8], numbers: &mut [u64; 6])
    ensures { (numbers.new ≡ told (read_lm_call message.now (length values.old / 8))) × (values.new ≡ packed_after (length values.old) (read_lm_outcome message.now (length values.old / 8))) }
{
    let answer = plain::read_lm_packed(message, values);
    *numbers = told::told(answer);
}
