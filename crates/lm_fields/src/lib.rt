// The fields of an LM's sections, by their kind (ISO 16460, clause 5).
#![tactic(auto)]

ghost use Rattle.std.specs.Prelude.{◌≡◌, ◌%◌, ◌≤◌, length};
ghost use Rattle.bits.specs.Access.{most_octets};
ghost use Rattle.items.specs.Items.{◌then◌, times};
ghost use Rattle.read_steps.specs.Reads.{Reads, state_at};
ghost use Rattle.whole.specs.Sized.{number_sized};
ghost use Rattle.lm_items.specs.Asked.{octet, field_items};
ghost use Rattle.lm_items.specs.declared.Kind.TheVariants.{InternalForwarding, NHopForwarding, Dissemination};

use answer::{Reason, Refusal};
use bits::BitPlace;
use lm_items::Kind;
use read_steps::Cursor;

// Two numbers, of one octet or two each.
fn pair(
    early: usize,
    late: usize,
    message: &[u8],
    values: &mut [i64],
    packed: &mut [u8],
    room: usize,
    cursor: Cursor,
) -> Result<Cursor, Refusal>
    requires { (length message.now ≤ most_octets) × (cursor.place.0 % 8 ≡ 0) × (1 ≤ early) × (early ≤ 2) × (1 ≤ late) × (late ≤ 2) }
    ensures { Reads message.now room (number_sized early then number_sized late) (state_at cursor values.old packed.old) values.new packed.new result }
{
    let next = whole::number(early, &*message, values, packed, room, cursor)?;
    whole::number(late, &*message, values, packed, room, next)
}

// The eight octets of the Link-ID, and the counter.
fn link(
    message: &[u8],
    values: &mut [i64],
    packed: &mut [u8],
    room: usize,
    cursor: Cursor,
) -> Result<Cursor, Refusal>
    requires { (length message.now ≤ most_octets) × (cursor.place.0 % 8 ≡ 0) }
    ensures { Reads message.now room (times 8 octet then octet) (state_at cursor values.old packed.old) values.new packed.new result }
{
    let next = read_steps::read_octets(8, &*message, values, packed, room, cursor)?;
    whole::number(1, &*message, values, packed, room, next)
}

// Internal forwarding: direction and ITS-SCU-ID; then the Link-ID and the counter.
fn forwarding(
    message: &[u8],
    values: &mut [i64],
    packed: &mut [u8],
    room: usize,
    cursor: Cursor,
) -> Result<Cursor, Refusal>
    requires { (length message.now ≤ most_octets) × (cursor.place.0 % 8 ≡ 0) }
    ensures { Reads message.now room (field_items InternalForwarding) (state_at cursor values.old packed.old) values.new packed.new result }
{
    let next = pair(1, 2, &*message, values, packed, room, cursor)?;
    link(&*message, values, packed, room, next)
}

// N-hop forwarding: message ID and hop count, which three octets hold.
fn hops(
    message: &[u8],
    values: &mut [i64],
    packed: &mut [u8],
    room: usize,
    cursor: Cursor,
) -> Result<Cursor, Refusal>
    requires { (length message.now ≤ most_octets) × (cursor.place.0 % 8 ≡ 0) }
    ensures { Reads message.now room (field_items NHopForwarding) (state_at cursor values.old packed.old) values.new packed.new result }
{
    let from = cursor.place.0;
    let f = whole::fetch(&*message, cursor.place, 3);
    let Some((number, next)) = f else {
        return Err(Reason::MessageEnds.at_place(from));
    };
    let second = whole::keep(
        number / 4,
        BitPlace(from + 22),
        values,
        packed,
        room,
        cursor,
    )?;
    whole::keep(number % 4, next, values, packed, room, second)
}

// Dissemination: the destination address.
fn address(
    message: &[u8],
    values: &mut [i64],
    packed: &mut [u8],
    room: usize,
    cursor: Cursor,
) -> Result<Cursor, Refusal>
    requires { (length message.now ≤ most_octets) × (cursor.place.0 % 8 ≡ 0) }
    ensures { Reads message.now room (field_items Dissemination) (state_at cursor values.old packed.old) values.new packed.new result }
{
    let (value, next) = read_item::variable(&*message, cursor.place)?;
    read_steps::keep(value, next, values, packed, room, cursor)
}

// The fields of a kind.
pub fn fields(
    kind: Kind,
    message: &[u8],
    values: &mut [i64],
    packed: &mut [u8],
    room: usize,
    cursor: Cursor,
) -> Result<Cursor, Refusal>
    requires { (length message.now ≤ most_octets) × (cursor.place.0 % 8 ≡ 0) }
    ensures { Reads message.now room (field_items kind) (state_at cursor values.old packed.old) values.new packed.new result }
{
    match kind {
        Kind::NullNetworking => Ok(cursor),
        Kind::InternalForwarding => forwarding(&*message, values, packed, room, cursor),
        Kind::NHopForwarding => hops(&*message, values, packed, room, cursor),
        Kind::Dissemination => address(&*message, values, packed, room, cursor),
        // source address, destination address
        Kind::Session => pair(2, 2, &*message, values, packed, room, cursor),
        Kind::UserData => Ok(cursor),
    }
}
