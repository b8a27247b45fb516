// The tests of a forwarding step and its output (document 02, ticket 7), apart from the list of seen records: what a message and an
// output ask of the list, what the list's answer decides, and the octets that go out. Every test of the step is here, in the ticket's
// order, but that of a record, which is in seen; crate forwarding asks the list and stores into it.
#![tactic(auto)]

ghost use Rattle.std.specs.Prelude.{◌≡◌, ◌≤◌, ◌<◌, length};
ghost use Rattle.answer.specs.Numbers.{reason_number, refusal_at};
ghost use Rattle.items.specs.Slices.{filled};
ghost use Rattle.forward.specs.Forward.{subtype, version, message_id, hop_count, lowered, output_by};
ghost use Rattle.forward.specs.Parts.{refused_head, head_of, ask_of, wants_id, wants_free, stays, chosen, decided, stored_by, Emits};

use answer::{Answer, Counts, Reason, Refusal};
use bits::{BitPlace, OctetSize};
use seen::{Seen, Sought, Want};

// What a call asks of the list: the head of its message, the time, the message's octets, and whether the output has room for them.
#[derive(Clone, Copy, Debug, PartialEq, Eq)]
pub struct Ask {
    pub head: Result<u32, Refusal>,
    pub time: u32,
    pub octets: OctetSize,
    pub fits: bool,
}

// What a call does: its answer, and the index of the record that it stores into. An index past the end is none.
#[derive(Clone, Copy, Debug, PartialEq, Eq)]
pub struct Step {
    pub at: usize,
    pub answer: Answer,
}

// The octets of the head, and the version and the subtype that it has to have.
const HEAD: usize = 4;

const VERSION: u32 = 3;

const N_HOP: u32 = 2;

fn refused(reason: Reason, place: usize) -> Result<u32, Refusal>
    ensures { result ≡ refused_head (refusal_at (reason_number reason) place) }
{
    Err(reason.at_place(place))
}

// The fields of a head, out of its whole octets.
fn version_of(message: &[u8]) -> u32
    requires { 4 ≤ length message.now }
    ensures { result ≡ version message.now }
{
    u32::from(message[0]) % 8
}

fn subtype_of(message: &[u8]) -> u32
    requires { 4 ≤ length message.now }
    ensures { result ≡ subtype message.now }
{
    u32::from(message[0]) / 16
}

fn hops_of(message: &[u8]) -> u32
    requires { 4 ≤ length message.now }
    ensures { result ≡ hop_count message.now }
{
    u32::from(message[3]) % 4
}

fn id_of(message: &[u8]) -> u32
    requires { 4 ≤ length message.now }
    ensures { result ≡ message_id message.now }
{
    u32::from(message[1]) * 16384 + u32::from(message[2]) * 64 + u32::from(message[3]) / 4
}

// The tests that need no list, in their order: 13, 2, 10, 11 and 40.
pub fn head_of(message: &[u8]) -> Result<u32, Refusal>
    ensures { result ≡ head_of message.now }
{
    if OctetSize::MOST < message.len() {
        return refused(Reason::TooLong, 0);
    }
    if message.len() < HEAD {
        return refused(Reason::MessageEnds, 0);
    }
    if version_of(message) != VERSION {
        return refused(Reason::WrongVersion, 5);
    }
    if subtype_of(message) != N_HOP {
        return refused(Reason::WrongSubtype, 0);
    }
    if hops_of(message) == 0 {
        return refused(Reason::NoHops, 30);
    }
    Ok(id_of(message))
}

// What a call asks, with an output of so many octets.
pub fn asked(message: &[u8], time: u32, room: usize) -> Ask
    ensures { result ≡ ask_of message.now time room }
{
    Ask {
        head: head_of(message),
        time,
        octets: OctetSize(message.len()),
        fits: message.len() <= room,
    }
}

// The search for a live record with the ID. If the head is refused, it ends at once.
pub fn by_id(ask: Ask) -> Want
    ensures { result ≡ wants_id ask.head ask.time }
{
    let Ok(id) = ask.head else {
        return Want::any(ask.time);
    };
    Want {
        time: ask.time,
        sought: Sought::Id(id),
    }
}

// The search for a record that is not live, once that for the ID has given an index. If the head is refused or the ID is held, it ends
// at once.
pub fn by_free(ask: Ask, held: usize, count: usize) -> Want
    ensures { result ≡ wants_free ask.head ask.time held count }
{
    if ask.head.is_err() {
        return Want::any(ask.time);
    }
    let sought = if count <= held {
        Sought::Free
    } else {
        Sought::Any
    };
    Want {
        time: ask.time,
        sought,
    }
}

fn stay(count: usize, reason: Reason, place: usize) -> Step
    ensures { result ≡ stays count (refusal_at (reason_number reason) place) }
{
    Step {
        at: count,
        answer: Err(reason.at_place(place)),
    }
}

// The tests of a head that asks, in their order, 41, 42 and 8: by what the two searches gave, and the count of the records.
fn choose(octets: OctetSize, fits: bool, held: usize, free: usize, count: usize) -> Step
    ensures { result ≡ chosen octets fits held free count }
{
    if held < count {
        return stay(count, Reason::Seen, 8);
    }
    if count <= free {
        return stay(count, Reason::NoRecord, 0);
    }
    if !fits {
        return stay(count, Reason::NoRoom, 0);
    }
    Step {
        at: free,
        answer: Ok(Counts::new(0, BitPlace(0), octets)),
    }
}

// What a call does, by what the two searches gave, and the count of the records.
pub fn decide(ask: Ask, held: usize, free: usize, count: usize) -> Step
    ensures { result ≡ decided ask.head ask.octets ask.fits held free count }
{
    match ask.head {
        Ok(_) => choose(ask.octets, ask.fits, held, free, count),
        Err(refusal) => Step {
            at: count,
            answer: Err(refusal),
        },
    }
}

// The record that is stored. Of a refused head it is stored nowhere.
pub fn stored(ask: Ask) -> Seen
    ensures { result ≡ stored_by ask.head ask.time }
{
    Seen::stored(ask.head.unwrap_or(0), ask.time)
}

// The message with its hop count one lower, and zeros to the output's end. The hop count is the lowest two bits of an octet, and not 0:
// no other bit of that octet changes.
fn lower(message: &[u8], output: &mut [u8])
    requires { (4 ≤ length message.now) × (1 ≤ hop_count message.now) × (length message.now ≤ length output.old) }
    ensures { output.new ≡ filled 0 (length output.old) (lowered message.now) }
{
    values::copy_octets(output, 0, message);
    values::clear(output, message.len(), 0);
    output[3] = message[3] - 1;
}

// The output of an answer, which is told again.
pub fn emit(message: &[u8], answer: Answer, output: &mut [u8]) -> Answer
    requires { Emits answer message.now (length output.old) }
    ensures { (result ≡ answer) × (output.new ≡ output_by answer message.now (length output.old)) }
{
    match answer {
        Ok(_) => lower(message, output),
        Err(_) => output.fill(0),
    }
    answer
}
