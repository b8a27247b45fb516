// Reads all lent octets as one message under a table that is known to pass: 13, 2 for no octets, the root, the padding, and zeros
// after the values.
#![tactic(auto)]

ghost use Rattle.std.specs.Prelude.{◌≡◌, ◌≤◌, ◌<◌, length, set};
ghost use Rattle.bits.specs.Access.{most_octets};
ghost use Rattle.values.specs.Values.{set_value};
ghost use Rattle.rules.specs.Rules.{Obeys};
ghost use Rattle.table.specs.Root.{root};
ghost use Rattle.encoding.specs.Rows.{asks};
ghost use Rattle.items.specs.Reading.{decode, read_answer};
ghost use Rattle.encoding.specs.Reading.{read_outcome};
ghost use Rattle.encoding.specs.Calls.{read_call};
ghost use Rattle.items.specs.Slices.{values_after};
ghost use Rattle.read_steps.specs.Ends.{KeptBy};
ghost use Rattle.reading.specs.Outcome.{message_outcome};

use answer::{Answer, Reason};
use bits::{BitPlace, OctetSize};
use read_steps::Cursor;

// A message that isn't empty, under a passed table whose root is at an offset: the root, then the padding.
pub fn read_message(
    table: &[u8],
    at: usize,
    message: &[u8],
    values: &mut [i64],
    packed: &mut [u8],
    room: usize,
) -> Answer
    requires { Obeys table.now × (at ≡ root table.now) × (0 < length message.now) × (length message.now ≤ most_octets) }
    ensures { (result ≡ read_answer (decode (asks table.now) message.now room)) × KeptBy set (decode (asks table.now) message.now room) values.old values.new × KeptBy set_value (decode (asks table.now) message.now room) packed.old packed.new }
{
    let start = Cursor {
        place: BitPlace(0),
        count: 0,
    };
    let end = reader::read_row(table, at, true, message, values, packed, room, start)?;
    read_steps::close(message, end)
}

// Any octets under a passed table whose root is at an offset: 13, then 2 where there are none, then the message.
pub fn read_passed(
    table: &[u8],
    at: usize,
    message: &[u8],
    values: &mut [i64],
    packed: &mut [u8],
    room: usize,
) -> Answer
    requires { Obeys table.now × (at ≡ root table.now) }
    ensures { (result ≡ read_answer (message_outcome table.now message.now room)) × KeptBy set (message_outcome table.now message.now room) values.old values.new × KeptBy set_value (message_outcome table.now message.now room) packed.old packed.new }
{
    if OctetSize::MOST < message.len() {
        return Err(Reason::TooLong.at_place(0));
    }
    if message.len() == 0 {
        return Err(Reason::MessageEnds.at_place(0));
    }
    read_message(table, at, message, values, packed, room)
}

// Any octets into the value slice, under a table that is known to pass, whose root is at an offset; then zeros to its end.
pub fn read_known(table: &[u8], at: usize, message: &[u8], values: &mut [i64]) -> Answer
    requires { Obeys table.now × (at ≡ root table.now) }
    ensures { (result ≡ read_call table.now message.now (length values.old)) × (values.new ≡ values_after (length values.old) (read_outcome table.now message.now (length values.old))) }
{
    let mut none = [0u8; 0];
    let room = values.len();
    let answer = read_passed(table, at, message, values, &mut none, room);
    let kept = read_steps::kept_count(answer);
    values::clear(values, kept, 0);
    answer
}
