// Reading an LM into either slice: a part, for the calls by name and those for the user data.
ghost use Rattle.std.specs.Prelude.{◌≡◌, set};
ghost use Rattle.values.specs.Values.{set_value};
ghost use Rattle.items.specs.Reading.{read_answer};
ghost use Rattle.read_steps.specs.Ends.{KeptBy};
ghost use Rattle.lm.specs.ByName.{read_lm_outcome};

use answer::Answer;

// An LM into either slice.
pub fn lm_message(message: &[u8], values: &mut [i64], packed: &mut [u8], room: usize) -> Answer
    ensures { (result ≡ read_answer (read_lm_outcome message.now room)) × KeptBy set (read_lm_outcome message.now room) values.old values.new × KeptBy set_value (read_lm_outcome message.now room) packed.old packed.new }
{
    lm_guard::lm_tested(message)?;
    reading::read_message(
        &builtin::LM,
        builtin::LM_ROOT,
        message,
        values,
        packed,
        room,
    )
}
