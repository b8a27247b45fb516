// Document 01's messages P4, P5 and P6: variable numbers and lengths on the edges of their forms. Each line has a message's
// octets and its value, with the octets that the value is written as, or `no` and the refusal's number.
#![tactic(auto)]

ghost use Rattle.std.specs.Prelude.{◌<◌};

use answer::Reason;
use bits::{BitPlace, OctetSize};

fn digit(n: u8) -> u8
    requires { n < 16 }
{
    if n < 10 { b'0' + n } else { b'A' + (n - 10) }
}

fn print_octet(octet: u8) {
    let text = [digit(octet / 16), digit(octet % 16), b' '];
    io::write_all(1, &text);
}

// The first n octets of a slice, in hexadecimal, a space after each.
fn print_octets(octets: &[u8], n: usize) {
    for octet in octets.iter().take(n) {
        print_octet(*octet);
    }
}

fn print_refusal(number: u32) {
    io::write_all(1, b"no ");
    io::print_decimal(1, u64::from(number));
    io::write_all(1, b"\n");
}

// A value, which is not negative, as every variable number and length, and what it was written as.
fn print_value(value: i64, output: &[u8], put: Result<BitPlace, Reason>) {
    io::print_decimal(1, value.unsigned_abs());
    io::write_all(1, b" ");
    let Ok(end) = put else {
        io::write_all(1, b"not written\n");
        return;
    };
    print_octets(output, end.octets_before().0);
    io::write_all(1, b"written\n");
}

fn variable(message: &[u8]) {
    if OctetSize::MOST < message.len() {
        return;
    }
    print_octets(message, message.len());
    match read_item::variable(message, BitPlace(0)) {
        Ok((value, _)) => {
            let mut output = [0u8; 4];
            let put = write_item::variable(&mut output, BitPlace(0), value);
            print_value(value, &output, put);
        }
        Err(refusal) => print_refusal(refusal.number),
    }
}

fn length(message: &[u8]) {
    if OctetSize::MOST < message.len() {
        return;
    }
    print_octets(message, message.len());
    match read_item::length(message, BitPlace(0), 0, 16383) {
        Ok((value, _)) => {
            let mut output = [0u8; 4];
            let put = write_item::length(&mut output, BitPlace(0), 0, 16383, value);
            print_value(value, &output, put);
        }
        Err(refusal) => print_refusal(refusal.number),
    }
}

fn main() {
    io::write_all(1, b"P4\n");
    variable(b"\x7F");
    variable(b"\x80\x00");
    variable(b"\xBF\xFF");
    variable(b"\xC0\x00\x00");
    io::write_all(1, b"P5\n");
    variable(b"\xDF\xFF\xFF");
    variable(b"\xE0\x00\x00\x00");
    variable(b"\xEF\xFF\xFF\xFF");
    variable(b"\xF0");
    io::write_all(1, b"P6\n");
    length(b"\x7F");
    length(b"\x80\x80");
    length(b"\xBF\xFF");
    length(b"\x80\x7F");
    length(b"\xC1");
}
