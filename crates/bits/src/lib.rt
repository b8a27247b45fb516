// Places and sizes: bits of a message, counted from the top bit of each octet, and octets. Definitions of what bits are, and of
// what fetching and storing them means, are in specs/.
#![tactic(auto)]

ghost use Rattle.std.specs.Prelude.{◌≡◌, ◌+◌, ◌-◌, ◌*◌, ◌/◌, ◌%◌, ◌<◌, ◌≤◌, max};
ghost use Rattle.bits.specs.Access.{most_octets};

// A place in a message, counted in bits from its first (document 01: place).
#[derive(Clone, Copy, Debug, Default, PartialEq, Eq)]
pub struct BitPlace(pub usize);

// A size in octets.
#[derive(Clone, Copy, Debug, Default, PartialEq, Eq)]
pub struct OctetSize(pub usize);

impl BitPlace {
    // The place after that many octets.
    pub fn after(size: OctetSize) -> BitPlace
        requires { size.0 ≤ most_octets }
        ensures { result.0 ≡ size.0 * 8 }
    {
        BitPlace(size.0 * 8)
    }

    // The place so many octets further on.
    pub fn further(self, size: OctetSize) -> BitPlace
        requires { self.0 + 8 * size.0 < 18446744073709551616 }
        ensures { result.0 ≡ self.0 + 8 * size.0 }
    {
        BitPlace(self.0 + 8 * size.0)
    }

    // The whole octets before a place.
    pub fn octets_before(self) -> OctetSize
        ensures { result.0 ≡ self.0 / 8 }
    {
        OctetSize(self.0 / 8)
    }

    // How many bits of the octet that a place stands in come before it.
    pub fn bits_into_octet(self) -> u32
        ensures { result ≡ self.0 % 8 }
    {
        (self.0 % 8) as u32
    }
}

impl OctetSize {
    // The most octets that a message has, and that an output counts as (document 01).
    pub const MOST: usize = 65535;

    // The whole octets from a place up to another.
    pub fn between(from: BitPlace, to: BitPlace) -> OctetSize
        ensures { result.0 ≡ (to.0 - from.0) / 8 }
    {
        OctetSize(to.0.saturating_sub(from.0) / 8)
    }

    // The octets that hold every bit before a place, and one where there are none.
    pub fn holding(place: BitPlace) -> OctetSize
        requires { place.0 ≤ 8 * most_octets }
        ensures { result.0 ≡ max 1 ((place.0 + 7) / 8) }
    {
        OctetSize(place.0.div_ceil(8).max(1))
    }
}
