// LM, SAM and SRM by name. Their tables are proved to pass, so no check runs. An LM has two tests of its own before every item
// (document 01: 10 on the version, 11 on the subtype).
#![tactic(auto)]

pub mod either;

ghost use Rattle.std.specs.Prelude.{◌≡◌, length};
ghost use Rattle.encoding.specs.Reading.{read_outcome};
ghost use Rattle.encoding.specs.Writing.{write_outcome};
ghost use Rattle.encoding.specs.Calls.{read_call, write_call};
ghost use Rattle.items.specs.Slices.{values_after, output_after};
ghost use Rattle.builtin.specs.Tables.{sam, srm};
ghost use Rattle.lm.specs.ByName.{read_lm_outcome, read_lm_call, write_lm_outcome, write_lm_call};

use answer::Answer;

// Reads an LM into the value slice.
pub fn read_lm(message: &[u8], values: &mut [i64]) -> Answer
    ensures { (result ≡ read_lm_call message.now (length values.old)) × (values.new ≡ values_after (length values.old) (read_lm_outcome message.now (length values.old))) }
{
    let mut none = [0u8; 0];
    let room = values.len();
    let answer = either::lm_message(message, values, &mut none, room);
    let kept = read_steps::kept_count(answer);
    values::clear(values, kept, 0);
    answer
}

// Reads a SAM into the value slice.
pub fn read_sam(message: &[u8], values: &mut [i64]) -> Answer
    ensures { (result ≡ read_call sam message.now (length values.old)) × (values.new ≡ values_after (length values.old) (read_outcome sam message.now (length values.old))) }
{
    reading::read_known(&builtin::SAM, builtin::SAM_ROOT, message, values)
}

// Reads an SRM into the value slice.
pub fn read_srm(message: &[u8], values: &mut [i64]) -> Answer
    ensures { (result ≡ read_call srm message.now (length values.old)) × (values.new ≡ values_after (length values.old) (read_outcome srm message.now (length values.old))) }
{
    reading::read_known(&builtin::SRM, builtin::SRM_ROOT, message, values)
}

// Writes an LM into the output.
pub fn write_lm(values: &[i64], output: &mut [u8]) -> Answer
    ensures { (result ≡ write_lm_call values.now (length output.old)) × (output.new ≡ output_after (length output.old) (write_lm_outcome values.now (length output.old))) }
{
    if let Err(refusal) = lm_guard::lm_list_tested(values) {
        values::clear(output, 0, 0);
        return Err(refusal);
    }
    let none = [0u8; 0];
    writing::write_known(&builtin::LM, builtin::LM_ROOT, values, &none, output)
}

// Writes a SAM into the output.
pub fn write_sam(values: &[i64], output: &mut [u8]) -> Answer
    ensures { (result ≡ write_call sam values.now (length output.old)) × (output.new ≡ output_after (length output.old) (write_outcome sam values.now (length output.old))) }
{
    let none = [0u8; 0];
    writing::write_known(&builtin::SAM, builtin::SAM_ROOT, values, &none, output)
}

// Writes an SRM into the output.
pub fn write_srm(values: &[i64], output: &mut [u8]) -> Answer
    ensures { (result ≡ write_call srm values.now (length output.old)) × (output.new ≡ output_after (length output.old) (write_outcome srm values.now (length output.old))) }
{
    let none = [0u8; 0];
    writing::write_known(&builtin::SRM, builtin::SRM_ROOT, values, &none, output)
}
