// The buffers of a program that takes units from its input: the input is read as a stream into one that holds any unit whole, and lines
// stand in the other until they are written. Lines are written before the program waits for input.
#![tactic(auto)]

ghost use Rattle.std.specs.Prelude.{◌+◌, ◌-◌, ◌<◌, ◌≤◌, ◌≡◌, length, take, drop};
ghost use Rattle.buffers.specs.Held.{Held, HeldAfter, held_behind};
ghost use Rattle.buffers.specs.InputOutput.{Wrote, Read, after_write, after_read};

use std::io::{Read, Stdin};

// The sizes of the buffers: a unit has at most 65,535 octets, and a line of 1,024 values fewer than 22,600.
pub const INPUT: usize = 65536;

pub const OUTPUT: usize = 65536;

// What a program holds: the octets read and not used, which are those from `from` up to `end`; the lines not written, up to `lines`.
#[derive(Clone, Copy, Debug, PartialEq, Eq)]
pub struct State {
    pub from: usize,
    pub end: usize,
    pub lines: usize,
}

// What a turn leads to: the next one, the end of the input, a stop before it, or an output that takes no more.
#[derive(Clone, Copy, Debug, PartialEq, Eq)]
pub enum Led {
    Next(State),
    End(State),
    Stop(State),
    Lost,
}

// What is held after a unit of a size, whose line ends at an index of the output.
pub fn after(s: State, size: usize, lines: usize) -> State
    requires { s.from + size ≤ s.end }
    ensures { result ≡ held_behind s size lines }
{
    State {
        from: s.from + size,
        end: s.end,
        lines,
    }
}

// Writes the first octets of the output.
pub fn write(output: &[u8], lines: usize) -> bool
    requires { lines ≤ length output.now }
{
    io::write_all(1, &output[..lines])
}

// What follows once the lines that are held were handed to the output: it took them all, or it takes no more.
fn after_write(written: bool, s: State) -> Led
    ensures { result ≡ after_write written s }
{
    let next = State { lines: 0, ..s };
    if written { Led::Next(next) } else { Led::Lost }
}

// Writes the lines that are held.
pub fn flush(output: &[u8], s: State) -> Led
    requires { Held s × (length output.now ≡ 65536) }
    ensures { HeldAfter result × Wrote s result }
{
    after_write(write(output, s.lines), s)
}

// What follows once a count of octets was read behind those at hand, which stand at the front and are `have`.
fn after_read(s: State, have: usize, count: usize) -> Led
    requires { have + count ≤ 65536 }
    ensures { result ≡ after_read s have count }
{
    let next = State {
        from: 0,
        end: have + count,
        ..s
    };
    if 0 < count {
        Led::Next(next)
    } else {
        Led::End(next)
    }
}

// Reads octets of the input behind the first so many, and tells how many: none at the input's end, and none where it can't be read.
fn read_behind(mut source: Stdin, input: &mut [u8], have: usize) -> usize
    requires { have ≤ length input.old }
    ensures kept { take have input.new ≡ take have input.old }
    ensures within { have + result ≤ length input.old }
{
    source.read(&mut input[have..]).unwrap_or(0)
}

// Writes the lines that are held and, where the output took them, reads more of the input behind the octets at hand. There is
// room for some, so that none read is the input's end.
pub fn more(source: Stdin, input: &mut [u8], output: &[u8], s: State) -> Led
    requires { Held s × (s.end < s.from + 65535) × (length input.old ≡ 65536) × (length output.now ≡ 65536) }
    ensures { HeldAfter result × Read s input.old input.new result }
{
    let flushed = flush(output, s);
    let Led::Next(next) = flushed else {
        return flushed;
    };
    // the octets at hand, moved to the front
    input.copy_within(s.from..s.end, 0);
    let have = s.end - s.from;
    let count = read_behind(source, input, have);
    after_read(next, have, count)
}
