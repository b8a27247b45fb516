// Five octets of a slice as one number of 40 bits, the first octet on top. Octets past the end read as 0, and nothing is
// stored there.
#![tactic(auto)]

ghost use Rattle.std.specs.Prelude.{◌≡◌, ◌+◌, ◌-◌, ◌*◌, ◌/◌, ◌%◌, ◌<◌, ◌≤◌, ◌^◌, length, get_or, set};
ghost use Rattle.bits.specs.Access.{most_octets};
ghost use Rattle.window.specs.Window.{four_at, window_at, with_window, placed};

// The octet at i, or 0 past the end.
pub fn octet(s: &[u8], i: usize) -> u64
    ensures { (result ≡ get_or s.now i 0) × (result < 256) }
{
    match s.get(i) {
        Some(octet) => u64::from(*octet),
        None => 0,
    }
}

// An octet that is there.
pub fn octet_inside(s: &[u8], i: usize) -> u64
    requires { i < length s.now }
    ensures { (result ≡ get_or s.now i 0) × (result < 256) }
{
    u64::from(s[i])
}

// Five octets as one number, a on top.
fn joined(a: u64, b: u64, c: u64, d: u64, e: u64) -> u64
    requires { (a < 256) × (b < 256) × (c < 256) × (d < 256) × (e < 256) }
    ensures { (result ≡ a * 4294967296 + b * 16777216 + c * 65536 + d * 256 + e) × (result < 2 ^ 40) }
{
    a * 4294967296 + b * 16777216 + c * 65536 + d * 256 + e
}

// Four octets from i on, all of them there: the compiler makes one load of this sum.
fn four_inside(s: &[u8], i: usize) -> u64
    requires { (i ≤ most_octets) × (i + 3 < length s.now) }
    ensures { (result ≡ four_at s.now i) × (result < 2 ^ 32) }
{
    u64::from(u32::from_be_bytes([s[i], s[i + 1], s[i + 2], s[i + 3]]))
}

// Five octets from i on, all of them there.
pub fn window_inside(s: &[u8], i: usize) -> u64
    requires { (i ≤ most_octets) × (i + 4 < length s.now) }
    ensures { (result ≡ window_at s.now i) × (result < 2 ^ 40) }
{
    let four = four_inside(s, i);
    four * 256 + octet_inside(s, i + 4)
}

// Five octets from i on.
pub fn window(s: &[u8], i: usize) -> u64
    requires { i ≤ most_octets }
    ensures { (result ≡ window_at s.now i) × (result < 2 ^ 40) }
{
    if i + 4 < s.len() {
        return window_inside(s, i);
    }
    let a = octet(s, i);
    let b = octet(s, i + 1);
    let c = octet(s, i + 2);
    let d = octet(s, i + 3);
    let e = octet(s, i + 4);
    joined(a, b, c, d, e)
}

// Stores an octet at i, or nothing past the end.
fn set_octet(s: &mut [u8], i: usize, b: u8)
    ensures { s.new ≡ set s.old i b }
{
    if i < s.len() {
        s[i] = b;
    }
}

// Stores the five octets of a number from i on.
pub fn put_window(s: &mut [u8], i: usize, window: u64)
    requires { i ≤ most_octets }
    ensures { s.new ≡ with_window s.old i window }
{
    let [_, _, _, a, b, c, d, e] = window.to_be_bytes();
    if i + 4 < s.len() {
        s[i] = a;
        s[i + 1] = b;
        s[i + 2] = c;
        s[i + 3] = d;
        s[i + 4] = e;
    } else {
        set_octet(s, i, a);
        set_octet(s, i + 1, b);
        set_octet(s, i + 2, c);
        set_octet(s, i + 3, d);
        set_octet(s, i + 4, e);
    }
}

// A power of two.
pub fn power(k: u32) -> u64
    requires { k ≤ 40 }
    ensures { (result ≡ 2 ^ k) × (0 < result) }
{
    1 << k
}

// The k bits of a number of 40 bits that follow its first few. Two shifts, whatever the width: the first drops the bits before
// them, the second those behind.
pub fn cut(window: u64, into: u32, k: u32) -> u32
    requires { (into < 8) × (k ≤ 32) }
    ensures { result ≡ window / 2 ^ (40 - into - k) % 2 ^ k }
{
    if k == 0 {
        return 0;
    }
    ((window << (24 + into)) >> (64 - k)) as u32
}

// A number below 2 ^ k with so many bits below it.
fn raised(x: u64, k: u32, below: u32) -> u64
    requires { (x < 2 ^ k) × (k + below ≤ 40) }
    ensures { result ≡ x * 2 ^ below }
{
    x << below
}

// A number of 40 bits, with the k above the lowest `below` replaced by those of v.
pub fn replace(window: u64, below: u32, k: u32, v: u32) -> u64
    requires { (window < 2 ^ 40) × (k + below ≤ 40) × (v < 2 ^ k) }
    ensures { result ≡ placed window below k v }
{
    let replaced = window & raised(power(k) - 1, k, below);
    window - replaced + raised(u64::from(v), k, below)
}
