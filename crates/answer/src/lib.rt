// What a call answers: accepted with its counts, or refused with a number and a place (document 01, "Refusal numbers").
#![tactic(auto)]

ghost use Rattle.std.specs.Prelude.{◌≡◌};
ghost use Rattle.answer.specs.Numbers.{reason_number, refusal_at, accepted};

use bits::{BitPlace, OctetSize};

// What an accepted call counts. Reading tells the values and the bits of the root, which is the place after it; writing
// tells the octets; a check tells nothing, so that each count is 0.
#[derive(Clone, Copy, Debug, Default, PartialEq, Eq)]
pub struct Counts {
    pub values: usize,
    pub bits: BitPlace,
    pub octets: OctetSize,
}

// Why a call refuses. Each reason is a number of document 01, or of a ticket of document 02.
#[derive(Clone, Copy, Debug, PartialEq, Eq)]
pub enum Reason {
    // A table of under 4 or above 4,096 octets.
    TableSize = 1,
    // The message ends inside an item, or is empty.
    MessageEnds = 2,
    // A number above its span.
    AboveSpan = 3,
    // An index of no branch, or of a reserved one.
    NoBranch = 4,
    // A length in a form that is not its own.
    BadLength = 5,
    // A count or a length outside its limits.
    OutsideLimits = 6,
    // A variable number that starts 1111.
    BadVariable = 7,
    // No place for the next value, the next bits, or a message that is forwarded.
    NoRoom = 8,
    // Padding that is not zero, or octets left.
    NotPadding = 9,
    // An LM whose version is not 3.
    WrongVersion = 10,
    // An LM whose subtype is not one that the call takes: 0, 1 or 2; in forwarding 2.
    WrongSubtype = 11,
    // A value missing, outside its row, or left over.
    WrongValue = 12,
    // A message above 65,535 octets.
    TooLong = 13,

    // The first row of a table that breaks a rule, by the first part that does (document 02, ticket 1).

    // Under 4 octets remain for the row, or its length runs past the table.
    RowPastEnd = 20,
    // Its kind is none.
    UnknownKind = 21,
    // Its length is not the one that its kind asks for.
    WrongRowLength = 22,
    // A number or a flag in it is out of bounds.
    WrongRowNumber = 23,
    // It refers to what is not the first octet of an earlier row.
    WrongReference = 24,
    // A choice with no branch that isn't reserved.
    OnlyReserved = 25,
    // It is deeper than 32.
    TooDeep = 26,

    // No table is loaded (document 02, ticket 3).
    NoTable = 27,

    // Of forwarding (document 02, ticket 7).

    // A hop count of 0.
    NoHops = 40,
    // A message ID that stands in a live record.
    Seen = 41,
    // No record that isn't live.
    NoRecord = 42,
}

// A refusal: its number, and its place, counted in what the number asks for (bits of a message, values of a list, octets of a
// table). It holds the number and no `Reason`: the theorems `Inverse` and `SixNumbers` speak of every number.
#[derive(Clone, Copy, Debug, PartialEq, Eq)]
pub struct Refusal {
    pub number: u32,
    pub place: usize,
}

// What a call answers.
pub type Answer = Result<Counts, Refusal>;

impl Counts {
    // So many values, bits and octets.
    pub fn new(values: usize, bits: BitPlace, octets: OctetSize) -> Counts
        ensures { Ok result ≡ accepted values bits.0 octets.0 }
    {
        Counts {
            values,
            bits,
            octets,
        }
    }
}

impl Reason {
    // The number that a host is told.
    pub fn number(self) -> u32
        ensures { result ≡ reason_number self }
    {
        self as u32
    }

    // The refusal for this reason at a place.
    pub fn at_place(self, place: usize) -> Refusal
        ensures { result ≡ refusal_at (reason_number self) place }
    {
        Refusal::new(self.number(), place)
    }
}

impl Refusal {
    // A refusal of a number at a place. No other function makes one.
    pub fn new(number: u32, place: usize) -> Refusal
        ensures { result ≡ refusal_at number place }
    {
        Refusal { number, place }
    }
}
