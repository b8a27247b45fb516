// Known extension elements (document 01, "LM, SAM and SRM"): the constant list of 16, searched for where an ID belongs.
#![tactic(auto)]

ghost use Rattle.std.specs.Prelude.{◌≡◌};
ghost use Rattle.elements.specs.Elements.{element_home};

// An element ID and its home: 0 N-Header, 1 T-Header, 2 service info.
#[derive(Clone, Copy, Debug, PartialEq, Eq)]
pub struct Known {
    pub id: u8,
    pub home: u8,
}

// Whether an ID is known at the home asked about, at another home, or at none.
#[derive(Clone, Copy, Debug, PartialEq, Eq)]
pub enum Home {
    Here,
    Elsewhere,
    Unknown,
}

impl Known {
    // The homes are the numbers below this.
    pub const HOMES: u32 = 3;
}

pub const KNOWN: [Known; 16] = [
    // N-Header
    Known { id: 4, home: 0 },
    Known { id: 15, home: 0 },
    Known { id: 16, home: 0 },
    Known { id: 80, home: 0 },
    Known { id: 81, home: 0 },
    Known { id: 82, home: 0 },
    // T-Header
    Known { id: 83, home: 1 },
    // service info
    Known { id: 8, home: 2 },
    Known { id: 9, home: 2 },
    Known { id: 10, home: 2 },
    Known { id: 11, home: 2 },
    Known { id: 19, home: 2 },
    Known { id: 20, home: 2 },
    Known { id: 22, home: 2 },
    Known { id: 24, home: 2 },
    Known { id: 85, home: 2 },
];

// Where an element ID belongs, asked about a home. Any two numbers may be asked about.
pub fn element(id: u32, home: u32) -> Home
    ensures { result ≡ element_home id home }
{
    if Known::HOMES <= home {
        return Home::Unknown;
    }
    for k in &KNOWN {
        if u32::from(k.id) == id {
            if u32::from(k.home) == home {
                return Home::Here;
            }
            return Home::Elsewhere;
        }
    }
    Home::Unknown
}
