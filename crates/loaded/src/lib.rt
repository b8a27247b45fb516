// Reading through a state that a table was loaded into (document 02, ticket 3): no check and no walk to the root. What comes of it is said
// for any octets that a state may hold (loading's specs/State.antt): no call here asks anything of its arguments.
#![tactic(auto)]

ghost use Rattle.std.specs.Prelude.{◌≡◌, ◌/◌, ◌≤◌, ◌<◌, length, set};
ghost use Rattle.bits.specs.Access.{most_octets};
ghost use Rattle.values.specs.Values.{set_value};
ghost use Rattle.items.specs.Reading.{decode, read_answer};
ghost use Rattle.items.specs.Slices.{values_after, packed_after};
ghost use Rattle.encoding.specs.Guarded.{guarded_root};
ghost use Rattle.read_steps.specs.Reads.{Reads, state_at, cursor_at};
ghost use Rattle.read_steps.specs.Ends.{KeptBy};
ghost use Rattle.loading.specs.State.{held_root, through_state};

use answer::{Answer, Reason, Refusal};
use bits::{BitPlace, OctetSize};
use loading::{OUTCOME, PASSED, ROOT, STATE};
use read_steps::Cursor;

// The root of a state, where it can be read.
fn read_root(
    state: &[u8],
    message: &[u8],
    values: &mut [i64],
    packed: &mut [u8],
    room: usize,
) -> Result<Cursor, Refusal>
    requires { (length state.now ≡ 6160) × (length message.now ≤ most_octets) }
    ensures { Reads message.now room (guarded_root state.now (held_root state.now)) (state_at (cursor_at 0 0) values.old packed.old) values.new packed.new result }
{
    let at = octets::u16_at(state, ROOT);
    let start = Cursor {
        place: BitPlace(0),
        count: 0,
    };
    if !guard::enters(state, at) {
        return Err(guard::unreadable(start.place));
    }
    reader::read_row(state, at, false, message, values, packed, room, start)
}

// A message that isn't empty: the root, then the padding.
fn read_message(
    state: &[u8],
    message: &[u8],
    values: &mut [i64],
    packed: &mut [u8],
    room: usize,
) -> Answer
    requires { (length state.now ≡ 6160) × (0 < length message.now) × (length message.now ≤ most_octets) }
    ensures { (result ≡ read_answer (decode (guarded_root state.now (held_root state.now)) message.now room)) × KeptBy set (decode (guarded_root state.now (held_root state.now)) message.now room) values.old values.new × KeptBy set_value (decode (guarded_root state.now (held_root state.now)) message.now room) packed.old packed.new }
{
    let end = read_root(state, message, values, packed, room)?;
    read_steps::close(message, end)
}

// Any octets through a state, into either slice: 27 where it holds no table, 13, then 2 where there are no octets, then the message.
fn read_either(
    state: &[u8],
    message: &[u8],
    values: &mut [i64],
    packed: &mut [u8],
    room: usize,
) -> Answer
    requires { length state.now ≡ 6160 }
    ensures { (result ≡ read_answer (through_state state.now message.now room)) × KeptBy set (through_state state.now message.now room) values.old values.new × KeptBy set_value (through_state state.now message.now room) packed.old packed.new }
{
    if state[OUTCOME] != PASSED {
        return Err(Reason::NoTable.at_place(0));
    }
    if OctetSize::MOST < message.len() {
        return Err(Reason::TooLong.at_place(0));
    }
    if message.len() == 0 {
        return Err(Reason::MessageEnds.at_place(0));
    }
    read_message(state, message, values, packed, room)
}

// The same into the value slice, and zeros to its end.
fn read_values(state: &[u8], message: &[u8], values: &mut [i64]) -> Answer
    requires { length state.now ≡ 6160 }
    ensures { (result ≡ read_answer (through_state state.now message.now (length values.old))) × (values.new ≡ values_after (length values.old) (through_state state.now message.now (length values.old))) }
{
    let mut none = [0u8; 0];
    let room = values.len();
    let answer = read_either(state, message, values, &mut none, room);
    let kept = read_steps::kept_count(answer);
    values::clear(values, kept, 0);
    answer
}

// The same into a slice of octets, eight for each value, and zeros to its end.
fn read_octets(state: &[u8], message: &[u8], packed: &mut [u8]) -> Answer
    requires { length state.now ≡ 6160 }
    ensures { (result ≡ read_answer (through_state state.now message.now (length packed.old / 8))) × (packed.new ≡ packed_after (length packed.old) (through_state state.now message.now (length packed.old / 8))) }
{
    let mut none = [0i64; 0];
    let room = packed.len() / 8;
    let answer = read_either(state, message, &mut none, packed, room);
    let kept = read_steps::kept_count(answer);
    values::clear(packed, kept * 8, 0);
    answer
}

// Reads all lent octets as one message through a state, into the value slice.
pub fn read(state: &[u8; STATE], message: &[u8], values: &mut [i64]) -> Answer
    ensures { (result ≡ read_answer (through_state state.now message.now (length values.old))) × (values.new ≡ values_after (length values.old) (through_state state.now message.now (length values.old))) }
{
    read_values(state, message, values)
}

// The same with the values as octets, eight for each.
pub fn read_packed(state: &[u8; STATE], message: &[u8], packed: &mut [u8]) -> Answer
    ensures { (result ≡ read_answer (through_state state.now message.now (length packed.old / 8))) × (packed.new ≡ packed_after (length packed.old) (through_state state.now message.now (length packed.old / 8))) }
{
    read_octets(state, message, packed)
}
