// The bench program (document 01, "The bench program"): its frames, their lines and its last lines. A frame is the length of the whole
// of it and a kind, two octets each, little-endian, and then a message.
#![tactic(auto)]

ghost use Rattle.std.specs.Prelude.{◌+◌, ◌*◌, ◌<◌, ◌≤◌, ◌≡◌, length};
ghost use Rattle.machine.specs.declared.Front.TheVariants.{Part};
ghost use Rattle.lines.specs.Text.{Appended};
ghost use Rattle.frames.specs.Frames.{first_frame, message_line, frame_line, bad_line, stop_lines, end_lines};

use machine::{Before, Front};

// The octets before a frame's message.
const HEADER: usize = 4;

const LM: usize = 1;

const SAM: usize = 2;

const SRM: usize = 3;

// What octets begin with. Behind any part of a frame a buffer of 65,536 octets has room.
pub fn front(octets: &[u8]) -> Front
    ensures value { result ≡ first_frame octets.now }
    ensures octets_len_bound { result ≡ Part → length octets.now < 65535 }
{
    if octets.len() < HEADER {
        return Front::Part;
    }
    let length = octets::u16_at(octets, 0);
    if length < HEADER {
        return Front::Wrong;
    }
    if octets.len() < length {
        return Front::Part;
    }
    Front::Whole(length)
}

// The line of a message of a kind, whose values are read into a lent slice.
fn put_message(out: &mut [u8], at: usize, kind: usize, message: &[u8], values: &mut [i64]) -> usize
    requires { at + 22 * length values.old + 48 ≤ length out.old }
    ensures appended { Appended out.old at (message_line kind message.now (length values.old)) out.new result }
    ensures upper_bound { result ≤ at + 22 * length values.old + 48 }
{
    let answer = match kind {
        LM => messages::read_lm(message, values),
        SAM => messages::read_sam(message, values),
        SRM => messages::read_srm(message, values),
        _ => return lines::put_line(out, at, b"no kind ", kind as u64),
    };
    lines::put_answer(out, at, answer, values)
}

// The line of a whole frame.
pub fn put_frame(out: &mut [u8], at: usize, frame: &[u8], values: &mut [i64]) -> usize
    requires { (4 ≤ length frame.now) × (at + 22 * length values.old + 48 ≤ length out.old) }
    ensures appended { Appended out.old at (frame_line frame.now (length values.old)) out.new result }
    ensures upper_bound { result ≤ at + 22 * length values.old + 48 }
{
    put_message(out, at, octets::u16_at(frame, 2), &frame[HEADER..], values)
}

// `bad frame at N`: the input's octets before the frame.
fn put_bad(out: &mut [u8], at: usize, offset: u64) -> usize
    requires { at + 34 ≤ length out.old }
    ensures appended { Appended out.old at (bad_line offset) out.new result }
    ensures upper_bound { result ≤ at + 34 }
{
    lines::put_line(out, at, b"bad frame at ", offset)
}

// The last lines where octets are no frame: where they begin, and how many frames came before.
pub fn put_stopped(out: &mut [u8], at: usize, before: Before) -> usize
    requires { at + 62 ≤ length out.old }
    ensures appended { Appended out.old at (stop_lines before) out.new result }
    ensures upper_bound { result ≤ at + 62 }
{
    let last = put_bad(out, at, before.octets);
    lines::put_last(out, last, before.units)
}

// The last lines where the input ends with these octets left: those of a bad frame where there are any.
pub fn put_ended(out: &mut [u8], at: usize, before: Before, left: &[u8]) -> usize
    requires { at + 62 ≤ length out.old }
    ensures appended { Appended out.old at (end_lines before left.now) out.new result }
    ensures upper_bound { result ≤ at + 62 }
{
    if left.is_empty() {
        lines::put_last(out, at, before.units)
    } else {
        put_stopped(out, at, before)
    }
}
