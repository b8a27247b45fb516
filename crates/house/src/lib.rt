// House frames (document 01, "The bench program"), for every program that takes them: the length of the whole frame and its kind, two
// octets each, little-endian, and then what the kind says.
#![tactic(auto)]

ghost use Rattle.std.specs.Prelude.{ℕ, ◌+◌, ◌<◌, ◌≤◌, ◌≡◌, length};
ghost use Rattle.machine.specs.declared.Front.TheVariants.{Whole, Part};
ghost use Rattle.lines.specs.Text.{Appended};
ghost use Rattle.house.specs.House.{first_frame, kind_line, whole_frames};

use machine::Front;

// The octets of a frame's length and kind.
const HEADER: usize = 4;

// What octets begin with. A frame has at most 65,535 octets, and behind any part of one a buffer of 65,536 octets has room.
pub fn front(octets: &[u8]) -> Front
    ensures value { result ≡ first_frame octets.now }
    ensures octets_len_bound { (result ≡ Part → length octets.now < 65535) × ((size : ℕ) → result ≡ Whole size → size ≤ 65535) }
{
    if octets.len() < HEADER {
        return Front::Part;
    }
    let length = octets::u16_at(octets, 0);
    if length < HEADER {
        return Front::Wrong;
    }
    if octets.len() < length {
        return Front::Part;
    }
    Front::Whole(length)
}

// How many octets whole frames take, from the first on: a recording may be cut there.
pub fn whole(octets: &[u8]) -> usize
    ensures { (result ≡ whole_frames octets.now) × (result ≤ length octets.now) }
{
    let mut at = 0;
    while let Front::Whole(size) = front(&octets[at..]) {
        at += size;
    }
    at
}

// `no kind K`.
pub fn put_kind(out: &mut [u8], at: usize, kind: usize) -> usize
    requires { at + 29 ≤ length out.old }
    ensures appended { Appended out.old at (kind_line kind) out.new result }
    ensures upper_bound { result ≤ at + 29 }
{
    lines::put_line(out, at, b"no kind ", kind as u64)
}
