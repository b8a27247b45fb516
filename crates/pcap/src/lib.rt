// The headers of a classic capture file (document 02, ticket 6). The file's own header has 24 octets, and a record's 16, with its octets
// behind it. Numbers stand in the file's octet order, which the first four octets tell; an EtherType is big-endian in every file.
#![tactic(auto)]

ghost use Rattle.std.specs.Prelude.{◌+◌, ◌<◌, ◌≤◌, ◌≡◌, length};
ghost use Rattle.machine.specs.declared.Front.TheVariants.{Whole, Part};
ghost use Rattle.pcap.specs.Pcap.{word, headed, order_of, file_front, record_front, record_of};

use machine::Front;

// The octet order of a file's numbers.
#[derive(Clone, Copy, Debug, PartialEq, Eq)]
pub enum Order {
    Little,
    Big,
}

// What a whole record is for: cut short when it was captured, an LM, or anything else.
#[derive(Clone, Copy, Debug, PartialEq, Eq)]
pub enum Record {
    Cut,
    Lm,
    Other,
}

// The octets of the file's header, of a record's, and of both headers before an LM: the record's and Ethernet's.
pub const FILE_HEADER: usize = 24;

const RECORD_HEADER: usize = 16;

pub const LM_HEADERS: usize = 30;

// The mark of a file with microseconds, and the link type of Ethernet.
const MICROSECONDS: u32 = 0xa1b2c3d4;

const ETHERNET: u32 = 1;

// The largest record, in octets kept.
const KEPT: u32 = 2048;

// The EtherType of an LM, 0x88DC, and where it stands in a record.
const HIGH: u8 = 0x88;

const LOW: u8 = 0xdc;

const HIGH_AT: usize = 28;

const LOW_AT: usize = 29;

// Four octets as a number, in an order.
fn word_at(order: Order, s: &[u8], at: usize) -> u32
    requires { at + 3 < length s.now }
    ensures { result ≡ word order s.now at }
{
    let octets = [s[at], s[at + 1], s[at + 2], s[at + 3]];
    match order {
        Order::Little => u32::from_le_bytes(octets),
        Order::Big => u32::from_be_bytes(octets),
    }
}

// The mark and the link type, by an order. Nothing else of the file's header is looked at.
fn is_headed(order: Order, file: &[u8]) -> bool
    requires { 24 ≤ length file.now }
    ensures { result ≡ headed order file.now }
{
    word_at(order, file, 0) == MICROSECONDS && word_at(order, file, 20) == ETHERNET
}

// What the octets of a file begin with: its header, in one order or the other.
pub fn file_front(file: &[u8]) -> Front
    ensures value { result ≡ file_front file.now }
    ensures file_len_bound { result ≡ Part → length file.now < 24 }
{
    if file.len() < FILE_HEADER {
        return Front::Part;
    }
    if is_headed(Order::Little, file) || is_headed(Order::Big, file) {
        Front::Whole(FILE_HEADER)
    } else {
        Front::Wrong
    }
}

// The order of a file whose header is as asked.
pub fn order_of(file: &[u8]) -> Order
    requires { 24 ≤ length file.now }
    ensures { result ≡ order_of file.now }
{
    if is_headed(Order::Little, file) {
        Order::Little
    } else {
        Order::Big
    }
}

// What octets begin with, from a record's header on. Its length is tested once the header is whole, and before the octets that it
// tells of.
pub fn record_front(order: Order, octets: &[u8]) -> Front
    ensures value { result ≡ record_front order octets.now }
    ensures octets_len_bound { result ≡ Part → length octets.now < 2064 }
{
    if octets.len() < RECORD_HEADER {
        return Front::Part;
    }
    let kept = word_at(order, octets, 8);
    if KEPT < kept {
        return Front::Wrong;
    }
    let size = RECORD_HEADER + kept as usize;
    if octets.len() < size {
        return Front::Part;
    }
    Front::Whole(size)
}

// What a whole record is for.
pub fn record_of(order: Order, octets: &[u8]) -> Record
    requires { 16 ≤ length octets.now }
    ensures { result ≡ record_of order octets.now }
{
    let kept = word_at(order, octets, 8);
    let original = word_at(order, octets, 12);
    if kept < original {
        return Record::Cut;
    }
    if octets.len() < LM_HEADERS {
        return Record::Other;
    }
    if octets[HIGH_AT] == HIGH && octets[LOW_AT] == LOW {
        Record::Lm
    } else {
        Record::Other
    }
}
