// The programs that take units from their input, each by its own rules: the bench program's frames, and the records of a capture. Turns
// and buffers are written once for all of them: `Progress` tells which one runs, and how far it is.
#![tactic(auto)]

ghost use Rattle.std.specs.Prelude.{◌+◌, ◌<◌, ◌≤◌, ◌≡◌, length};
ghost use Rattle.machine.specs.declared.Front.TheVariants.{Part};
ghost use Rattle.lines.specs.Text.{Appended};
ghost use Rattle.programs.specs.Programs.{header_of, front_of, line_of, progress_after, stopped_lines, ended_lines};

use machine::{Before, Front};
use stages::Stage;

// Which program runs, and how far it is.
#[derive(Clone, Copy, Debug, PartialEq, Eq)]
pub enum Progress {
    Bench(Before),
    Capture(Stage),
}

// The room for the values of a message.
pub const VALUES: usize = 1024;

// What octets begin with. Behind any part of a unit a buffer of 65,536 octets has room.
pub fn front(progress: Progress, octets: &[u8]) -> Front
    ensures value { result ≡ front_of progress octets.now }
    ensures octets_len_bound { result ≡ Part → length octets.now < 65535 }
{
    match progress {
        Progress::Bench(_) => frames::front(octets),
        Progress::Capture(stage) => stages::front(stage, octets),
    }
}

// How far the program is behind a unit.
pub fn next(progress: Progress, unit: &[u8]) -> Progress
    requires { header_of progress ≤ length unit.now }
    ensures { result ≡ progress_after progress unit.now }
{
    match progress {
        Progress::Bench(before) => Progress::Bench(before.after(unit.len())),
        Progress::Capture(stage) => Progress::Capture(stages::next(stage, unit)),
    }
}

// The line of a unit, where it has one. With 1,024 values, and a record's number before it, it has at most 22,597 octets.
pub fn put_unit(
    out: &mut [u8],
    at: usize,
    progress: Progress,
    unit: &[u8],
    values: &mut [i64],
) -> usize
    requires { (header_of progress ≤ length unit.now) × (length values.old ≡ 1024) × (at + 22597 ≤ length out.old) }
    ensures appended { Appended out.old at (line_of progress unit.now) out.new result }
    ensures upper_bound { result ≤ at + 22597 }
{
    match progress {
        Progress::Bench(_) => frames::put_frame(out, at, unit, values),
        Progress::Capture(stage) => captures::put_unit(out, at, stage, unit, values),
    }
}

// The last lines where octets are no unit.
pub fn put_stopped(out: &mut [u8], at: usize, progress: Progress) -> usize
    requires { at + 78 ≤ length out.old }
    ensures appended { Appended out.old at (stopped_lines progress) out.new result }
    ensures upper_bound { result ≤ at + 78 }
{
    match progress {
        Progress::Bench(before) => frames::put_stopped(out, at, before),
        Progress::Capture(stage) => stages::put_stopped(out, at, stage),
    }
}

// The last lines where the input ends with these octets left.
pub fn put_ended(out: &mut [u8], at: usize, progress: Progress, left: &[u8]) -> usize
    requires { at + 78 ≤ length out.old }
    ensures appended { Appended out.old at (ended_lines progress left.now) out.new result }
    ensures upper_bound { result ≤ at + 78 }
{
    match progress {
        Progress::Bench(before) => frames::put_ended(out, at, before, left),
        Progress::Capture(stage) => stages::put_ended(out, at, stage, left),
    }
}
