// The tests that an LM by name has before every item and every value: its version, 10, and its subtype, 11 (document 01, "Refusal
// numbers"). They need no table.
#![tactic(auto)]

ghost use Rattle.std.specs.Prelude.{◌≡◌};
ghost use Rattle.lm_guard.specs.Tested.{lm_tested, lm_list_tested};

use answer::{Answer, Counts, Reason};
use bits::{BitPlace, OctetSize};

// The tests before an LM's items: 13, 2 where there are no octets, 10 on the version, 11 on the subtype. What passes them is
// accepted, and counts nothing.
pub fn lm_tested(message: &[u8]) -> Answer
    ensures { result ≡ lm_tested message.now }
{
    if OctetSize::MOST < message.len() {
        return Err(Reason::TooLong.at_place(0));
    }
    let ends = Reason::MessageEnds.at_place(0);
    let (version, _) = access::fetch(message, BitPlace(5), 3).ok_or(ends)?;
    if version != 3 {
        return Err(Reason::WrongVersion.at_place(5));
    }
    let (subtype, _) = access::fetch(message, BitPlace(0), 4).ok_or(ends)?;
    if 2 < subtype {
        return Err(Reason::WrongSubtype.at_place(0));
    }
    Ok(Counts::default())
}

// The tests before an LM's values: 12 on a list shorter than 3, 10 on the third value, 11 on the first. What passes them is
// accepted, and counts nothing.
pub fn lm_list_tested(values: &[i64]) -> Answer
    ensures { result ≡ lm_list_tested values.now }
{
    let [subtype, _, version, ..] = values else {
        return Err(Reason::WrongValue.at_place(values.len()));
    };
    if *version != 3 {
        return Err(Reason::WrongVersion.at_place(2));
    }
    if *subtype < 0 || 2 < *subtype {
        return Err(Reason::WrongSubtype.at_place(0));
    }
    Ok(Counts::default())
}
