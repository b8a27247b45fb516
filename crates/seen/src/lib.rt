// Records of the IDs that were seen, in a lent slice (document 02, ticket 7): when a record is live, the first record that a search
// is for, and storing one. The two functions over the slice test no record themselves: `Want::is_for` does.
#![tactic(auto)]

ghost use Rattle.std.specs.Prelude.{◌≡◌, set};
ghost use Rattle.seen.specs.Records.{live_at, record_of, first_with};
ghost use Rattle.seen.specs.Search.{any_record, wanted_by};

// A record: an ID, the time at which it was stored, in milliseconds, and whether the record is in use. It lies in memory as C lays
// it out, so that a host lends a list of its own.
#[repr(C)]
#[derive(Clone, Copy, Debug, Default, PartialEq, Eq)]
pub struct Seen {
    pub id: u32,
    pub time: u32,
    pub used: bool,
}

impl Seen {
    // How long a record is live, in milliseconds.
    pub const LIFE: u64 = 5000;

    // The record of an ID that is stored at a time.
    pub fn stored(id: u32, time: u32) -> Seen
        ensures { result ≡ record_of id time }
    {
        Seen {
            id,
            time,
            used: true,
        }
    }

    // Whether it is live at a time: it is in use, and its own time is later, or less than its life before. The end of its life is
    // counted in 64 bits, so that nothing wraps.
    pub fn is_live(self, time: u32) -> bool
        ensures { result ≡ live_at time self }
    {
        self.used && u64::from(time) < u64::from(self.time) + Seen::LIFE
    }
}

// What a search is for: a live record with an ID; a record that is not live; or any record, so that the search ends at once.
#[derive(Clone, Copy, Debug, PartialEq, Eq)]
pub enum Sought {
    Id(u32),
    Free,
    Any,
}

// What a search is for, at a time.
#[derive(Clone, Copy, Debug, PartialEq, Eq)]
pub struct Want {
    pub time: u32,
    pub sought: Sought,
}

impl Want {
    // Any record: the search ends at once.
    pub fn any(time: u32) -> Want
        ensures { result ≡ any_record time }
    {
        Want {
            time,
            sought: Sought::Any,
        }
    }

    // Whether a record is what the search is for. The ID is compared first: of most records nothing else is looked at.
    pub fn is_for(self, one: Seen) -> bool
        ensures { result ≡ wanted_by self one }
    {
        match self.sought {
            Sought::Id(id) => one.id == id && one.is_live(self.time),
            Sought::Free => !one.is_live(self.time),
            Sought::Any => true,
        }
    }
}

// The index of the first record that a search is for, or the count.
pub fn first(seen: &[Seen], want: Want) -> usize
    ensures { result ≡ first_with (wanted_by want) seen.now }
{
    for (i, one) in seen.iter().enumerate() {
        if want.is_for(*one) {
            return i;
        }
    }
    seen.len()
}

// Stores a record at an index; past the end, nothing.
pub fn put(seen: &mut [Seen], at: usize, one: Seen)
    ensures { seen.new ≡ set seen.old at one }
{
    if at < seen.len() {
        seen[at] = one;
    }
}
