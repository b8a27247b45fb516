// Replaying one part of a recording (document 02, ticket 8), from a list that is handed over and given back, so that a caller can go on.
#![tactic(auto)]

ghost use Rattle.std.specs.Prelude.{◌+◌, ◌*◌, ◌≤◌, ◌≡◌, leb, length};
ghost use Rattle.items.specs.Slices.{filled};
ghost use Rattle.machine.specs.Machine.{given};
ghost use Rattle.drive.specs.Replay.{replay};
ghost use Rattle.recording.specs.Frames.{PlayedUp};
ghost use Rattle.recording.specs.Part.{replayed_whole, replayed_in, text_left};

use answer::{Answer, Counts, Reason};
use bits::{BitPlace, OctetSize};
use machine::Front;
use seen::Seen;

// The list after the whole frames of a part, how many octets they take, and the end of their lines.
#[derive(Clone, Copy, Debug, PartialEq, Eq)]
struct Frames {
    seen: [Seen; 64],
    taken: usize,
    end: usize,
}

// Plays the whole frames of a part, up to one that is wrong or isn't whole.
fn play_frames(octets: &[u8], start: [Seen; 64], text: &mut [u8]) -> Frames
    requires { 4 * length octets.now + 64 ≤ length text.old }
    ensures { PlayedUp start octets.now result.seen result.taken text.new result.end }
{
    let mut seen = start;
    let mut taken = 0;
    let mut end = 0;
    while let Front::Whole(size) = house::front(&octets[taken..]) {
        let behind = taken + size;
        let played = drive::play(text, end, &octets[taken..behind], seen);
        seen = played.seen;
        end = played.end;
        taken = behind;
    }
    Frames { seen, taken, end }
}

// The list after a part of a recording, and the answer.
#[derive(Clone, Copy, Debug, PartialEq, Eq)]
pub struct Replayed {
    pub seen: [Seen; 64],
    pub answer: Answer,
}

// Replays a part that the text has room for.
fn replay_whole(octets: &[u8], seen: [Seen; 64], text: &mut [u8]) -> Replayed
    requires { 4 * length octets.now + 64 ≤ length text.old }
    ensures { (result ≡ replayed_whole octets.now seen) × (text.new ≡ filled 0 (length text.old) (given replay seen octets.now).text) }
{
    let Frames { seen, taken, end } = play_frames(octets, seen, text);
    let end = drive::put_left(text, end, &octets[taken..]);
    values::clear(text, end, 0);
    let answer = Ok(Counts::new(taken, BitPlace(0), OctetSize(end)));
    Replayed { seen, answer }
}

// Whether a text has room for four octets for each of a part, and 64 more.
fn has_room(octets: usize, text: usize) -> bool
    ensures { result ≡ leb (4 * octets + 64) text }
{
    64 <= text && octets <= (text - 64) / 4
}

// Replays one part of a recording, from a list that is handed over and given back: its text, and zeros after it.
pub fn replay(octets: &[u8], seen: [Seen; 64], text: &mut [u8]) -> Replayed
    ensures { (result ≡ replayed_in octets.now seen (length text.old)) × (text.new ≡ text_left octets.now seen (length text.old)) }
{
    if has_room(octets.len(), text.len()) {
        return replay_whole(octets, seen, text);
    }
    text.fill(0);
    let answer = Err(Reason::NoRoom.at_place(0));
    Replayed { seen, answer }
}
