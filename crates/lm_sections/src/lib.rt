// The sections of an LM, one after the other (ISO 16460, clause 5).
#![tactic(auto)]

ghost use Rattle.std.specs.Prelude.{◌≡◌, ◌%◌, ◌<◌, ◌≤◌, length};
ghost use Rattle.bits.specs.Access.{most_octets};
ghost use Rattle.read_steps.specs.Reads.{Reads, state_at};
ghost use Rattle.lm_items.specs.Asked.{rank, asked};
ghost use Rattle.lm_items.specs.declared.Section.TheVariants.{Network};
ghost use Rattle.lm_sections.specs.Passes.{Passes};

use answer::Refusal;
use lm_items::Section;
use read_steps::Cursor;

// A section: its opening, its fields, its strings.
fn read_section(
    section: Section,
    message: &[u8],
    values: &mut [i64],
    packed: &mut [u8],
    room: usize,
    cursor: Cursor,
) -> Result<(Section, Cursor), Refusal>
    requires { (length message.now ≤ most_octets) × (cursor.place.0 % 8 ≡ 0) × (0 < rank section) }
    ensures { Passes section message.now room (state_at cursor values.old packed.old) values.new packed.new result }
{
    let (kind, extended, next) = lm_opening::open(
        section, &*message, values, packed, room, cursor,
    )?;
    let far = lm_fields::fields(kind, &*message, values, packed, room, next)?;
    let end = lm_strings::section_strings(kind, extended, &*message, values, packed, room, far)?;
    Ok((lm_items::following(kind), end))
}

// Section after section, from the first on.
pub fn read_sections(
    message: &[u8],
    values: &mut [i64],
    packed: &mut [u8],
    room: usize,
    cursor: Cursor,
) -> Result<Cursor, Refusal>
    requires { (length message.now ≤ most_octets) × (cursor.place.0 % 8 ≡ 0) }
    ensures { Reads message.now room (asked Network) (state_at cursor values.old packed.old) values.new packed.new result }
{
    let mut section = Section::Network;
    let mut here = cursor;
    while 0 < lm_items::rank(section) {
        let (following, next) = read_section(section, &*message, values, packed, room, here)?;
        section = following;
        here = next;
    }
    Ok(here)
}
