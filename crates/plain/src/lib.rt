// An LM read without a table (document 02, ticket 4), straight from the layout of ISO 16460, clause 5: section after section, by whole
// octets. Answers, values and zeros are those of an LM by name.
#![tactic(auto)]

ghost use Rattle.std.specs.Prelude.{◌≡◌, ◌/◌, length, set};
ghost use Rattle.values.specs.Values.{set_value};
ghost use Rattle.items.specs.Reading.{read_answer};
ghost use Rattle.items.specs.Slices.{values_after, packed_after};
ghost use Rattle.read_steps.specs.Ends.{KeptBy};
ghost use Rattle.lm.specs.ByName.{read_lm_outcome, read_lm_call};

use answer::Answer;
use bits::BitPlace;
use read_steps::Cursor;

// An LM into either slice.
fn lm_message(message: &[u8], values: &mut [i64], packed: &mut [u8], room: usize) -> Answer
    ensures { (result ≡ read_answer (read_lm_outcome message.now room)) × KeptBy set (read_lm_outcome message.now room) values.old values.new × KeptBy set_value (read_lm_outcome message.now room) packed.old packed.new }
{
    lm_guard::lm_tested(message)?;
    let start = Cursor {
        place: BitPlace(0),
        count: 0,
    };
    let end = lm_sections::read_sections(message, values, packed, room, start)?;
    read_steps::close(message, end)
}

// Reads an LM into the value slice.
pub fn read_lm(message: &[u8], values: &mut [i64]) -> Answer
    ensures { (result ≡ read_lm_call message.now (length values.old)) × (values.new ≡ values_after (length values.old) (read_lm_outcome message.now (length values.old))) }
{
    let mut none = [0u8; 0];
    let room = values.len();
    let answer = lm_message(message, values, &mut none, room);
    let kept = read_steps::kept_count(answer);
    values::clear(values, kept, 0);
    answer
}

// Reads an LM into a value slice of octets, eight for each value.
pub fn read_lm_packed(message: &[u8], values: &mut [u8]) -> Answer
    ensures { (result ≡ read_lm_call message.now (length values.old / 8)) × (values.new ≡ packed_after (length values.old) (read_lm_outcome message.now (length values.old / 8))) }
{
    let mut none = [0i64; 0];
    let room = values.len() / 8;
    let answer = lm_message(message, &mut none, values, room);
    let kept = read_steps::kept_count(answer);
    values::clear(values, 8 * kept, 0);
    answer
}
