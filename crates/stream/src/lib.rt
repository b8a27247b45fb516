// A program's input as a whole: turns until the input ends or the program stops, and then the last lines.
#![tactic(auto)]

ghost use Rattle.std.specs.Prelude.{◌≤◌, ◌≡◌, length};
ghost use Rattle.lines.specs.Text.{Appended};
ghost use Rattle.machine.specs.Counts.{nothing};
ghost use Rattle.frames.specs.Frames.{bench};
ghost use Rattle.stages.specs.declared.Stage.TheVariants.{Opening};
ghost use Rattle.captures.specs.Captures.{capture};
ghost use Rattle.programs.specs.Programs.{programs};
ghost use Rattle.buffers.specs.Held.{HeldAfter};
ghost use Rattle.stream.specs.LastLines.{lines_of, last_text};
ghost use Rattle.stream.specs.Program.{Finished, Answered};

use buffers::{Led, State};
use machine::Before;
use programs::Progress;
use stages::Stage;
use std::io::Stdin;
use turns::Outcome;

// Puts the last lines behind those that are held.
fn put_last_lines(input: &[u8], output: &mut [u8], last: Outcome) -> usize
    requires { HeldAfter last.led × (length input.now ≡ 65536) × (length output.old ≡ 65536) }
    ensures appended { Appended output.old (lines_of last.led) (last_text programs last.progress input.now last.led) output.new result }
    ensures upper_bound { result ≤ 65536 }
{
    let Outcome { led, progress } = last;
    match led {
        Led::Next(s) => programs::put_ended(output, s.lines, progress, &[]),
        Led::End(s) => programs::put_ended(output, s.lines, progress, &input[s.from..s.end]),
        Led::Stop(s) => programs::put_stopped(output, s.lines, progress),
        Led::Lost => 0,
    }
}

// Turns until the input ends. A proved loop has to end, and nothing says that the input does: so the turns are counted up
// to a number that no run reaches, and one that did would answer `Next`.
fn run(
    source: Stdin,
    input: &mut [u8],
    output: &mut [u8],
    values: &mut [i64],
    start: Progress,
) -> Outcome
    requires { (length input.old ≡ 65536) × (length output.old ≡ 65536) × (length values.old ≡ 1024) }
    ensures { HeldAfter result.led × Finished programs start input.new output.new result.led result.progress }
{
    let mut s = State {
        from: 0,
        end: 0,
        lines: 0,
    };
    let mut progress = start;
    for _ in 0..u64::MAX {
        let turned = turns::turn(source, input, output, values, s, progress);
        let Led::Next(next) = turned.led else {
            return turned;
        };
        s = next;
        progress = turned.progress;
    }
    Outcome {
        led: Led::Next(s),
        progress,
    }
}

// Answers the input of a program: turns until it ends, and then the last lines. The result is the end of the lines that are left to
// write.
fn answer(
    source: Stdin,
    input: &mut [u8],
    output: &mut [u8],
    values: &mut [i64],
    start: Progress,
) -> usize
    requires { (length input.old ≡ 65536) × (length output.old ≡ 65536) × (length values.old ≡ 1024) }
    ensures answered { Answered programs start output.new result }
    ensures upper_bound { result ≤ 65536 }
{
    let last = run(source, input, output, values, start);
    put_last_lines(input, output, last)
}

// The bench program: frames.
pub fn answer_frames(
    source: Stdin,
    input: &mut [u8],
    output: &mut [u8],
    values: &mut [i64],
) -> usize
    requires { (length input.old ≡ 65536) × (length output.old ≡ 65536) × (length values.old ≡ 1024) }
    ensures answered { Answered bench nothing output.new result }
    ensures upper_bound { result ≤ 65536 }
{
    let start = Progress::Bench(Before::none());
    answer(source, input, output, values, start)
}

// The capture program: a capture file.
pub fn answer_capture(
    source: Stdin,
    input: &mut [u8],
    output: &mut [u8],
    values: &mut [i64],
) -> usize
    requires { (length input.old ≡ 65536) × (length output.old ≡ 65536) × (length values.old ≡ 1024) }
    ensures answered { Answered capture Opening output.new result }
    ensures upper_bound { result ≤ 65536 }
{
    let start = Progress::Capture(Stage::Opening);
    answer(source, input, output, values, start)
}
