// A program that takes one unit after another from its input, such as a frame or a record of a capture: what octets begin with, and how
// much of the input came before.
#![tactic(auto)]

ghost use Rattle.std.specs.Prelude.{◌≡◌};
ghost use Rattle.machine.specs.Counts.{nothing, after_unit};

// What octets begin with: a whole unit of a size, the beginning of one, or none whatever follows.
#[derive(Clone, Copy, Debug, PartialEq, Eq)]
pub enum Front {
    Whole(usize),
    Part,
    Wrong,
}

// How many octets and units of the input came before.
#[derive(Clone, Copy, Debug, Default, PartialEq, Eq)]
pub struct Before {
    pub octets: u64,
    pub units: u64,
}

impl Before {
    pub fn none() -> Self
        ensures { result ≡ nothing }
    {
        Self::default()
    }

    // What came before the unit behind one of a size. A count stops at the largest number: no input is that long.
    pub fn after(self, size: usize) -> Self
        ensures { result ≡ after_unit self size }
    {
        let octets = self.octets.saturating_add(size as u64);
        let units = self.units.saturating_add(1);
        Self { octets, units }
    }
}
