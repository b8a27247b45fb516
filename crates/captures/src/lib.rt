// The capture program (document 02, ticket 6): the line of each record of a capture file.
#![tactic(auto)]

ghost use Rattle.std.specs.Prelude.{◌+◌, ◌*◌, ◌≤◌, length};
ghost use Rattle.lines.specs.Text.{Appended};
ghost use Rattle.stages.specs.Stages.{header_of};
ghost use Rattle.captures.specs.Captures.{lm_line, record_line, unit_line};

use pcap::{Order, Record};
use stages::Stage;

// A record's number and the line of its LM.
fn put_lm(out: &mut [u8], at: usize, number: u64, lm: &[u8], values: &mut [i64]) -> usize
    requires { at + 22 * length values.old + 69 ≤ length out.old }
    ensures appended { Appended out.old at (lm_line number lm.now (length values.old)) out.new result }
    ensures upper_bound { result ≤ at + 22 * length values.old + 69 }
{
    let space = lines::put_number(out, at, number);
    let line = lines::put_text(out, space, b" ");
    let answer = messages::read_lm(lm, values);
    lines::put_answer(out, line, answer, values)
}

// The line of a record, where it has one.
fn put_record(
    out: &mut [u8],
    at: usize,
    order: Order,
    number: u64,
    octets: &[u8],
    values: &mut [i64],
) -> usize
    requires { (16 ≤ length octets.now) × (at + 22 * length values.old + 69 ≤ length out.old) }
    ensures appended { Appended out.old at (record_line order number octets.now (length values.old)) out.new result }
    ensures upper_bound { result ≤ at + 22 * length values.old + 69 }
{
    match pcap::record_of(order, octets) {
        Record::Cut => {
            let word = lines::put_number(out, at, number);
            lines::put_text(out, word, b" cut\n")
        }
        Record::Lm => put_lm(out, at, number, &octets[pcap::LM_HEADERS..], values),
        Record::Other => at,
    }
}

// The line of a unit: of a record, or none.
pub fn put_unit(out: &mut [u8], at: usize, stage: Stage, unit: &[u8], values: &mut [i64]) -> usize
    requires { (header_of stage ≤ length unit.now) × (at + 22 * length values.old + 69 ≤ length out.old) }
    ensures appended { Appended out.old at (unit_line stage unit.now (length values.old)) out.new result }
    ensures upper_bound { result ≤ at + 22 * length values.old + 69 }
{
    match stage {
        Stage::Opening => at,
        Stage::Records(order, before) => put_record(out, at, order, before.units, unit, values),
    }
}
