// An opened message: the lent octets and a bit place, held together (document 01, "Refusal numbers"). The functions over
// the struct are thin: the work is done on a slice and a place.
#![tactic(auto)]

ghost use Rattle.std.specs.Prelude.{◌≡◌, ◌≤◌, length};
ghost use Rattle.bits.specs.Access.{most_octets};
ghost use Rattle.opened.specs.Opened.{kept, opening, taken, place_of};

use answer::{Answer, Counts, Reason, Refusal};
use bits::{BitPlace, OctetSize};

// One that `open` made holds at most 65,535 octets. Taking bits from any other is as if its octets were opened anew.
#[derive(Clone, Copy)]
pub struct Opened<'a> {
    pub message: &'a [u8],
    pub place: BitPlace,
}

// The most bits that are taken at once.
const MOST_BITS: u32 = 32;

// The octets that an opened message holds: the lent ones themselves, or none of them where they are too many.
fn held(message: &[u8]) -> &[u8]
    ensures { (result.now ≡ kept message.now) × (result.ref_ptr ≡ message.entry.ref_ptr) × (length result.now ≤ most_octets) }
{
    if message.len() <= OctetSize::MOST {
        return message;
    }
    &message[..0]
}

// What opening answers: nothing to count, or 13 at place 0.
pub fn opening(message: &[u8]) -> Answer
    ensures { result ≡ opening message.now }
{
    if OctetSize::MOST < message.len() {
        return Err(Reason::TooLong.at_place(0));
    }
    Ok(Counts::default())
}

// Takes k bits at a place of the octets that are held. A place beyond the end is 2 at that place, for k from 1 to 32; of no bits
// none is missing anywhere. A refusal's place is the one that stays.
pub fn take_from(message: &[u8], place: BitPlace, k: u32) -> Result<(u32, BitPlace), Refusal>
    ensures { result ≡ taken (kept message.now) place.0 k }
{
    if MOST_BITS < k {
        return Err(Reason::OutsideLimits.at_place(place.0));
    }
    if k == 0 {
        return Ok((0, place));
    }
    access::fetch(held(message), place, k).ok_or_else(|| Reason::MessageEnds.at_place(place.0))
}

// Where taking leaves an opened message: k on, or where it was.
fn place_after(taken: Result<(u32, BitPlace), Refusal>) -> BitPlace
    ensures { result.0 ≡ place_of taken }
{
    match taken {
        Ok((_, next)) => next,
        Err(refusal) => BitPlace(refusal.place),
    }
}

// Opens a message, at its first bit. The octets are not copied: they stay where they were lent.
pub fn open<'a>(message: &'a [u8]) -> Opened<'a>
    ensures { (result.message.now ≡ kept message.now) × (result.message.ref_ptr ≡ message.entry.ref_ptr) × (result.place.0 ≡ 0) }
{
    Opened {
        message: held(message),
        place: BitPlace(0),
    }
}

// Takes k bits and moves on behind them; a refusal leaves the message where it was.
pub fn take<'s, 'a>(opened: &'s mut Opened<'a>, k: u32) -> Result<(u32, BitPlace), Refusal>
    ensures { (result ≡ taken (kept opened.old.message.now) opened.old.place.0 k) × (opened.new.message ≡ opened.old.message) × (opened.new.place.0 ≡ place_of result) }
{
    let taken = take_from(opened.message, opened.place, k);
    opened.place = place_after(taken);
    taken
}
