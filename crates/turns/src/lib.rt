// A turn of a program that takes units from its input: lines are written, a unit's line is put, or input is read. Every program turns here.
#![tactic(auto)]

ghost use Rattle.std.specs.Prelude.{◌+◌, ◌≤◌, ◌≡◌, length, take};
ghost use Rattle.buffers.specs.Held.{Held, HeldAfter, at_hand};
ghost use Rattle.programs.specs.Programs.{header_of, programs};
ghost use Rattle.turns.specs.Turns.{Took, Turned};

use buffers::{Led, State};
use machine::Front;
use programs::Progress;
use std::io::Stdin;

// What a turn led to, and how far the program then is.
#[derive(Clone, Copy, Debug, PartialEq, Eq)]
pub struct Outcome {
    pub led: Led,
    pub progress: Progress,
}

// Lines are written once so many octets of them are held.
const MANY: usize = 32768;

// Takes the whole unit at hand, of a size: its line is put behind the others.
fn take(
    input: &[u8],
    output: &mut [u8],
    values: &mut [i64],
    s: State,
    progress: Progress,
    size: usize,
) -> Outcome
    requires held { Held s × (s.from + size ≤ s.end) × (header_of progress ≤ size) × (s.lines ≤ 32768) }
    requires input_len { (length input.now ≡ 65536) × (length output.old ≡ 65536) × (length values.old ≡ 1024) }
    ensures { HeldAfter result.led × Took programs progress (take size (at_hand s input.now)) s output.old output.new result.led result.progress }
{
    let unit = &input[s.from..s.from + size];
    let lines = programs::put_unit(output, s.lines, progress, unit, values);
    Outcome {
        led: Led::Next(buffers::after(s, size, lines)),
        progress: programs::next(progress, unit),
    }
}

// One turn: lines are written where there are many; else it goes by what the octets at hand begin with.
pub fn turn(
    source: Stdin,
    input: &mut [u8],
    output: &mut [u8],
    values: &mut [i64],
    s: State,
    progress: Progress,
) -> Outcome
    requires { Held s × (length input.old ≡ 65536) × (length output.old ≡ 65536) × (length values.old ≡ 1024) }
    ensures { HeldAfter result.led × Turned programs s progress input.old output.old input.new output.new result.led result.progress }
{
    if MANY < s.lines {
        let led = buffers::flush(output, s);
        return Outcome { led, progress };
    }
    match programs::front(progress, &input[s.from..s.end]) {
        Front::Whole(size) => take(input, output, values, s, progress, size),
        Front::Part => {
            let led = buffers::more(source, input, output, s);
            Outcome { led, progress }
        }
        Front::Wrong => Outcome {
            led: Led::Stop(s),
            progress,
        },
    }
}
