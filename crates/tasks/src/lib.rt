// What a run does with its input: a program that reads messages, or the replay of a drive. Turns, buffers and the run are written once for
// both. The list of a replay is no part of the task: the run keeps it, so that the other programs don't carry it along.
#![tactic(auto)]

ghost use Rattle.std.specs.Prelude.{ℕ, ◌+◌, ◌<◌, ◌≤◌, ◌≡◌, length};
ghost use Rattle.machine.specs.declared.Front.TheVariants.{Whole, Part};
ghost use Rattle.lines.specs.Text.{Appended};
ghost use Rattle.tasks.specs.declared.Task.TheVariants.{Replay};
ghost use Rattle.tasks.specs.Tasks.{front_of, stopped_lines, ended_lines};

use machine::Front;
use programs::Progress;

#[derive(Clone, Copy, Debug, PartialEq, Eq)]
pub enum Task {
    Read(Progress),
    Replay,
}

// What octets begin with. Behind any part of a unit a buffer of 65,536 octets has room, and a frame that is replayed has fewer.
pub fn front(task: Task, octets: &[u8]) -> Front
    ensures value { result ≡ front_of task octets.now }
    ensures octets_len_bound { (result ≡ Part → length octets.now < 65535) × ((size : ℕ) → task ≡ Replay → result ≡ Whole size → size ≤ 65535) }
{
    match task {
        Task::Read(progress) => programs::front(progress, octets),
        Task::Replay => house::front(octets),
    }
}

// The last lines where octets are no unit.
pub fn put_stopped(out: &mut [u8], at: usize, task: Task) -> usize
    requires { at + 78 ≤ length out.old }
    ensures appended { Appended out.old at (stopped_lines task) out.new result }
    ensures upper_bound { result ≤ at + 78 }
{
    match task {
        Task::Read(progress) => programs::put_stopped(out, at, progress),
        Task::Replay => drive::put_bad(out, at),
    }
}

// The last lines where the input ends with these octets left.
pub fn put_ended(out: &mut [u8], at: usize, task: Task, left: &[u8]) -> usize
    requires { at + 78 ≤ length out.old }
    ensures appended { Appended out.old at (ended_lines task left.now) out.new result }
    ensures upper_bound { result ≤ at + 78 }
{
    match task {
        Task::Read(progress) => programs::put_ended(out, at, progress, left),
        Task::Replay => drive::put_left(out, at, left),
    }
}
