// A capture file from its beginning to its end (document 02, ticket 6): where a reader of it is, what comes next, and the last lines. What
// is printed of a record is not known here.
#![tactic(auto)]

ghost use Rattle.std.specs.Prelude.{◌+◌, ◌<◌, ◌≤◌, ◌≡◌, length};
ghost use Rattle.machine.specs.declared.Front.TheVariants.{Part};
ghost use Rattle.lines.specs.Text.{Appended};
ghost use Rattle.stages.specs.Stages.{header_of, front_of, stage_after, stop_lines, stopped_lines, ended_lines};

use machine::{Before, Front};
use pcap::Order;

// Where a reader is in a file: before the file's header, or at a record, by the file's order and what came before.
#[derive(Clone, Copy, Debug, PartialEq, Eq)]
pub enum Stage {
    Opening,
    Records(Order, Before),
}

// The refusals that stop a run: of the file's header; of a record's length; where the file ends inside a record.
const FILE: u64 = 30;

const LENGTH: u64 = 31;

const END: u64 = 32;

// What octets begin with. Behind any part of a unit a buffer of 65,536 octets has room.
pub fn front(stage: Stage, octets: &[u8]) -> Front
    ensures value { result ≡ front_of stage octets.now }
    ensures octets_len_bound { result ≡ Part → length octets.now < 65535 }
{
    match stage {
        Stage::Opening => pcap::file_front(octets),
        Stage::Records(order, _) => pcap::record_front(order, octets),
    }
}

// Where it is behind a unit: the file's header, which is no record, or a record.
pub fn next(stage: Stage, unit: &[u8]) -> Stage
    requires { header_of stage ≤ length unit.now }
    ensures { result ≡ stage_after stage unit.now }
{
    match stage {
        Stage::Opening => {
            let order = pcap::order_of(unit);
            let before = Before {
                octets: pcap::FILE_HEADER as u64,
                units: 0,
            };
            Stage::Records(order, before)
        }
        Stage::Records(order, before) => Stage::Records(order, before.after(unit.len())),
    }
}

// `stop R at P`, and the count of records.
fn put_stop(out: &mut [u8], at: usize, refusal: u64, before: Before) -> usize
    requires { at + 78 ≤ length out.old }
    ensures appended { Appended out.old at (stop_lines refusal before) out.new result }
    ensures upper_bound { result ≤ at + 78 }
{
    let last = lines::put_placed(out, at, b"stop ", refusal, before.octets);
    lines::put_last(out, last, before.units)
}

// The last lines where octets are no unit: no file's header, or a record that is too long.
pub fn put_stopped(out: &mut [u8], at: usize, stage: Stage) -> usize
    requires { at + 78 ≤ length out.old }
    ensures appended { Appended out.old at (stopped_lines stage) out.new result }
    ensures upper_bound { result ≤ at + 78 }
{
    match stage {
        Stage::Opening => put_stop(out, at, FILE, Before::none()),
        Stage::Records(_, before) => put_stop(out, at, LENGTH, before),
    }
}

// The last lines where the file ends with these octets left: inside its header; inside a record; or where one would begin.
pub fn put_ended(out: &mut [u8], at: usize, stage: Stage, left: &[u8]) -> usize
    requires { at + 78 ≤ length out.old }
    ensures appended { Appended out.old at (ended_lines stage left.now) out.new result }
    ensures upper_bound { result ≤ at + 78 }
{
    match stage {
        Stage::Opening => put_stop(out, at, FILE, Before::none()),
        Stage::Records(_, before) if left.is_empty() => lines::put_last(out, at, before.units),
        Stage::Records(_, before) => put_stop(out, at, END, before),
    }
}
