// Octets in hexadecimal, two upper-case digits each (document 02, ticket 8).
#![tactic(auto)]

ghost use Rattle.std.specs.Prelude.{◌+◌, ◌*◌, ◌<◌, ◌≤◌, ◌≡◌, length, take, drop};
ghost use Rattle.lines.specs.Text.{Appended};
ghost use Rattle.hexadecimal.specs.Hex.{hex_digit, hex};

const DIGITS: &[u8; 16] = b"0123456789ABCDEF";

// A digit.
fn digit(number: u8) -> u8
    requires { number < 16 }
    ensures { result ≡ hex_digit number }
{
    DIGITS[usize::from(number)]
}

// The digits of a count of octets, from an index on. The octets stand behind the first half of the room for their digits, so that each is
// read before a digit is put in its place.
pub fn put_hex(out: &mut [u8], at: usize, count: usize) -> usize
    requires { at + 2 * count ≤ length out.old }
    ensures appended { Appended out.old at (hex (take count (drop (at + count) out.old))) out.new result }
    ensures value { result ≡ at + 2 * count }
{
    for i in 0..count {
        let octet = out[at + count + i];
        out[at + 2 * i] = digit(octet / 16);
        out[at + 2 * i + 1] = digit(octet % 16);
    }
    at + 2 * count
}
