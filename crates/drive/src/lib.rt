// Replaying a drive (document 02, ticket 8): house frames of kind 16, each the time and a message that was heard, are forwarded one after
// another with one list of seen records, and each has a line of text.
#![tactic(auto)]

ghost use Rattle.std.specs.Prelude.{◌+◌, ◌*◌, ◌≤◌, ◌≡◌, length, take, drop};
ghost use Rattle.lines.specs.Text.{Appended};
ghost use Rattle.drive.specs.Replay.{step_line, heard_line, heard_after, bad_frame, frame_line, list_after, left_line, empty_list};

use answer::Answer;
use forwarding::Forwarded;
use seen::Seen;

// The kind of a message that was heard.
const HEARD: usize = 16;

// The octets before its message: length, kind and time.
const HEADER: usize = 8;

// A list of which no record is in use: a recording is replayed from this one.
pub fn empty_list() -> [Seen; 64]
    ensures { result ≡ empty_list }
{
    [Seen::default(); 64]
}

// The list after a frame, and the end of its line.
#[derive(Clone, Copy, Debug, PartialEq, Eq)]
pub struct Played {
    pub seen: [Seen; 64],
    pub end: usize,
}

// The line of a step. The octets that were forwarded, of a count, stand behind as much room as they have.
fn put_step(out: &mut [u8], at: usize, answer: Answer, count: usize) -> usize
    requires { at + 2 * count + 48 ≤ length out.old }
    ensures { Appended out.old at (step_line answer (take count (drop (at + count) out.old))) out.new result }
{
    match answer {
        Ok(_) => {
            let end = hexadecimal::put_hex(out, at, count);
            lines::put_text(out, end, b"\n")
        }
        Err(refusal) => lines::put_refusal(out, at, refusal),
    }
}

// The line of a message that was heard at a time, and the list after it.
fn put_heard(out: &mut [u8], at: usize, message: &[u8], time: u32, seen: [Seen; 64]) -> Played
    requires { (length message.now ≤ 65535) × (at + 2 * length message.now + 48 ≤ length out.old) }
    ensures { (result.seen ≡ heard_after message.now time seen) × Appended out.old at (heard_line message.now time seen) out.new result.end }
{
    let count = message.len();
    let from = at + count;
    let to = from + count;
    let Forwarded { seen, answer } = forwarding::forward_in(
        message,
        time,
        seen,
        &mut out[from..to],
    );
    let end = put_step(out, at, answer, count);
    Played { seen, end }
}

// `bad frame`.
pub fn put_bad(out: &mut [u8], at: usize) -> usize
    requires { at + 10 ≤ length out.old }
    ensures appended { Appended out.old at bad_frame out.new result }
    ensures value { result ≡ at + 10 }
{
    lines::put_text(out, at, b"bad frame\n")
}

// The line of a whole frame, and the list after it.
pub fn play(out: &mut [u8], at: usize, frame: &[u8], seen: [Seen; 64]) -> Played
    requires { (4 ≤ length frame.now) × (length frame.now ≤ 65535) × (at + 2 * length frame.now + 48 ≤ length out.old) }
    ensures seen_value { (result.seen ≡ list_after seen frame.now) × Appended out.old at (frame_line seen frame.now) out.new result.end }
    ensures end_bound { result.end ≤ at + 2 * length frame.now + 8 }
{
    let kind = octets::u16_at(frame, 2);
    if kind != HEARD {
        let end = house::put_kind(out, at, kind);
        return Played { seen, end };
    }
    if frame.len() < HEADER {
        let end = put_bad(out, at);
        return Played { seen, end };
    }
    let time = octets::u32_at(frame, 4) as u32;
    put_heard(out, at, &frame[HEADER..], time, seen)
}

// Where the frames that can be played end: nothing, or `bad frame` where octets are left.
pub fn put_left(out: &mut [u8], at: usize, left: &[u8]) -> usize
    requires { at + 10 ≤ length out.old }
    ensures appended { Appended out.old at (left_line left.now) out.new result }
    ensures upper_bound { result ≤ at + 10 }
{
    if left.is_empty() {
        at
    } else {
        put_bad(out, at)
    }
}
