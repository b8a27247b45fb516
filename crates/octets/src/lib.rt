// Little-endian numbers in octets, as the rows of a table hold them.
#![tactic(auto)]

ghost use Rattle.std.specs.Prelude.{◌≡◌, ◌+◌, ◌<◌, length};
ghost use Rattle.octets.specs.Numbers.{u16, u32, signed};

// Two octets.
pub fn u16_at(s: &[u8], at: usize) -> usize
    requires { at + 1 < length s.now }
    ensures { (result ≡ u16 s.now at) × (result < 65536) }
{
    usize::from(u16::from_le_bytes([s[at], s[at + 1]]))
}

// Four octets.
pub fn u32_at(s: &[u8], at: usize) -> usize
    requires { at + 3 < length s.now }
    ensures { (result ≡ u32 s.now at) × (result < 4294967296) }
{
    u32::from_le_bytes([s[at], s[at + 1], s[at + 2], s[at + 3]]) as usize
}

// A number of 32 bits read as signed.
pub fn signed_of(n: usize) -> i64
    requires { n < 4294967296 }
    ensures { result ≡ signed n }
{
    i64::from((n as u32).cast_signed())
}
