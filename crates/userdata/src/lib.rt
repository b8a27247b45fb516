// The user data of an LM: the part of the lent message that it is, and where that part stands. Nothing is kept of the values,
// so that neither call has a value slice.
#![tactic(auto)]

ghost use Rattle.std.specs.Prelude.{◌≡◌, ◌+◌, ◌≤◌, length};
ghost use Rattle.bits.specs.Access.{most_octets};
ghost use Rattle.userdata.specs.UserData.{user_data_found, part_of, start_of};
ghost use Rattle.userdata.specs.Headers.{header_count};

use answer::Refusal;
use bits::{BitPlace, OctetSize};
use read_steps::Cursor;

// A part of a message, in octets.
#[derive(Clone, Copy, Debug, PartialEq, Eq)]
pub struct Span {
    pub start: OctetSize,
    pub length: OctetSize,
}

// Room for a value for each bit of the longest message: no item of an LM takes no bits, so it is never used up.
const ROOM: usize = 8 * OctetSize::MOST;

// The rows of the two headers in the table of LM.
const N_HEADER: usize = 204;

const T_HEADER: usize = 278;

// How many values the two headers of a message have, 0 where one of them is refused.
fn header_values(message: &[u8]) -> usize
    requires { length message.now ≤ most_octets }
    ensures { result ≡ header_count message.now }
{
    let mut values = [0i64; 0];
    let mut packed = [0u8; 0];
    let start = Cursor {
        place: BitPlace(0),
        count: 0,
    };
    let network = reader::read_row(
        &builtin::LM,
        N_HEADER,
        true,
        message,
        &mut values,
        &mut packed,
        ROOM,
        start,
    );
    let Ok(between) = network else {
        return 0;
    };
    let transport = reader::read_row(
        &builtin::LM,
        T_HEADER,
        true,
        message,
        &mut values,
        &mut packed,
        ROOM,
        between,
    );
    let Ok(end) = transport else {
        return 0;
    };
    end.count
}

// Where the user data of an LM stands: it is the last of the message, and of its values all after the headers' and its length.
pub fn user_data_place(message: &[u8]) -> Result<Span, Refusal>
    ensures { result ≡ user_data_found message.now }
{
    let mut values = [0i64; 0];
    let mut packed = [0u8; 0];
    let counts = messages::either::lm_message(message, &mut values, &mut packed, ROOM)?;
    let length = counts.values - header_values(message) - 1;
    let start = message.len() - length;
    Ok(Span {
        start: OctetSize(start),
        length: OctetSize(length),
    })
}

// The user data of an LM, a part of the lent message; empty and from its start on a refusal.
pub fn user_data(message: &[u8]) -> &[u8]
    ensures { (result.now ≡ part_of message.now (user_data_found message.now)) × (result.ref_ptr.0 ≡ message.entry.ref_ptr.0) × (result.ref_ptr.1 ≡ message.entry.ref_ptr.1 + start_of (user_data_found message.now)) }
{
    let Ok(span) = user_data_place(message) else {
        return &message[..0];
    };
    let start = span.start.0;
    &message[start..]
}
