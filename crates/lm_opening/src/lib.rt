// The openings of an LM's sections: the first octet of an N-Header holds its subtype, its extensions flag and its version, that of a
// T-Header its feature selector and its extensions flag (ISO 16460, clause 5).
#![tactic(auto)]

ghost use Rattle.std.specs.Prelude.{◌≡◌, ◌%◌, ◌<◌, ◌≤◌, length};
ghost use Rattle.bits.specs.Access.{most_octets};
ghost use Rattle.read_steps.specs.Reads.{state_at};
ghost use Rattle.lm_items.specs.Asked.{rank};
ghost use Rattle.lm_items.specs.declared.Section.TheVariants.{Transport};
ghost use Rattle.lm_opening.specs.Opens.{Opens, network_kind, transport_kind, network_section};

use answer::{Reason, Refusal};
use bits::BitPlace;
use lm_items::{Kind, Section};
use read_steps::Cursor;

// The kind of an N-Header by its subtype.
fn network_kind(subtype: u32) -> Kind
    ensures { result ≡ network_kind subtype }
{
    match subtype {
        0 => Kind::NullNetworking,
        1 => Kind::InternalForwarding,
        _ => Kind::NHopForwarding,
    }
}

// The kind of a T-Header by its feature selector.
fn transport_kind(selector: u32) -> Kind
    ensures { result ≡ transport_kind selector }
{
    match selector {
        0 => Kind::Dissemination,
        _ => Kind::Session,
    }
}

// An N-Header: the first, or the original one, which has no subtype 1.
fn network(
    original: bool,
    message: &[u8],
    values: &mut [i64],
    packed: &mut [u8],
    room: usize,
    cursor: Cursor,
) -> Result<(Kind, bool, Cursor), Refusal>
    requires { (length message.now ≤ most_octets) × (cursor.place.0 % 8 ≡ 0) }
    ensures { Opens (network_section original) message.now room (state_at cursor values.old packed.old) values.new packed.new result }
{
    let from = cursor.place.0;
    let f = whole::fetch(&*message, cursor.place, 1);
    let Some((octet, next)) = f else {
        return Err(Reason::MessageEnds.at_place(from));
    };
    let subtype = octet / 16;
    if 2 < subtype {
        return Err(Reason::NoBranch.at_place(from));
    }
    if original && subtype == 1 {
        return Err(Reason::NoBranch.at_place(from));
    }
    let second = whole::keep(subtype, BitPlace(from + 4), values, packed, room, cursor)?;
    let flag = octet / 8 % 2;
    let third = whole::keep(flag, BitPlace(from + 5), values, packed, room, second)?;
    let end = whole::keep(octet % 8, next, values, packed, room, third)?;
    Ok((network_kind(subtype), flag == 1, end))
}

// The T-Header.
fn transport(
    message: &[u8],
    values: &mut [i64],
    packed: &mut [u8],
    room: usize,
    cursor: Cursor,
) -> Result<(Kind, bool, Cursor), Refusal>
    requires { (length message.now ≤ most_octets) × (cursor.place.0 % 8 ≡ 0) }
    ensures { Opens (Transport) message.now room (state_at cursor values.old packed.old) values.new packed.new result }
{
    let from = cursor.place.0;
    let f = whole::fetch(&*message, cursor.place, 1);
    let Some((octet, next)) = f else {
        return Err(Reason::MessageEnds.at_place(from));
    };
    let selector = octet / 2;
    if 1 < selector {
        return Err(Reason::NoBranch.at_place(from));
    }
    let second = whole::keep(selector, BitPlace(from + 7), values, packed, room, cursor)?;
    let flag = octet % 2;
    let end = whole::keep(flag, next, values, packed, room, second)?;
    Ok((transport_kind(selector), flag == 1, end))
}

// A section that is there. User data has no opening.
pub fn open(
    section: Section,
    message: &[u8],
    values: &mut [i64],
    packed: &mut [u8],
    room: usize,
    cursor: Cursor,
) -> Result<(Kind, bool, Cursor), Refusal>
    requires { (length message.now ≤ most_octets) × (cursor.place.0 % 8 ≡ 0) × (0 < rank section) }
    ensures { Opens (section) message.now room (state_at cursor values.old packed.old) values.new packed.new result }
{
    match section {
        Section::Network => network(false, &*message, values, packed, room, cursor),
        Section::Original => network(true, &*message, values, packed, room, cursor),
        Section::Transport => transport(&*message, values, packed, room, cursor),
        Section::Content => Ok((Kind::UserData, false, cursor)),
        Section::End => Ok((Kind::UserData, false, cursor)),
    }
}
