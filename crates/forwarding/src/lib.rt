// The forwarding step over a lent list of seen records (document 02, ticket 7), and over a list of 64 that is handed over and given
// back. The functions over the lent list are straight lines: every test is in the functions that they call.
#![tactic(auto)]

ghost use Rattle.std.specs.Prelude.{◌≡◌, length};
ghost use Rattle.forward.specs.Forward.{forward_answer, seen_after, forward_output};
ghost use Rattle.forward.specs.Parts.{step_of, kept_by};
ghost use Rattle.forwarding.specs.Forwarded.{taken_in, forwarded_in};

use answer::Answer;
use forward::{Ask, Step};
use seen::Seen;

// What a call does with a list, by two searches of it.
fn find(seen: &[Seen], ask: Ask) -> Step
    ensures { result ≡ step_of ask seen.now }
{
    let held = seen::first(seen, forward::by_id(ask));
    let free = seen::first(seen, forward::by_free(ask, held, seen.len()));
    forward::decide(ask, held, free, seen.len())
}

// Takes the step: where the call is accepted, its ID is stored.
fn remember(seen: &mut [Seen], ask: Ask) -> Answer
    ensures { (result ≡ (step_of ask seen.old).answer) × (seen.new ≡ kept_by ask seen.old) }
{
    let step = find(seen, ask);
    seen::put(seen, step.at, forward::stored(ask));
    step.answer
}

// Forwards a message at a time, if nothing refuses it.
pub fn forward(message: &[u8], time: u32, seen: &mut [Seen], output: &mut [u8]) -> Answer
    ensures { (result ≡ forward_answer message.now time seen.old (length output.old)) × (seen.new ≡ seen_after message.now time seen.old (length output.old)) × (output.new ≡ forward_output message.now time seen.old (length output.old)) }
{
    let ask = forward::asked(message, time, output.len());
    let answer = remember(seen, ask);
    forward::emit(message, answer, output)
}

// A list of 64 records and the answer of a call on it.
#[derive(Clone, Copy, Debug, PartialEq, Eq)]
pub struct Forwarded {
    pub seen: [Seen; 64],
    pub answer: Answer,
}

// `remember` on a list that is handed over and given back. Whoever calls this one lends no slice of records.
fn remember_in(mut seen: [Seen; 64], ask: Ask) -> Forwarded
    ensures { result ≡ taken_in ask seen }
{
    let answer = remember(&mut seen, ask);
    Forwarded { seen, answer }
}

// Forwards a message at a time, if nothing refuses it, with a list that is handed over and given back.
pub fn forward_in(message: &[u8], time: u32, seen: [Seen; 64], output: &mut [u8]) -> Forwarded
    ensures { (result ≡ forwarded_in message.now time seen (length output.old)) × (output.new ≡ forward_output message.now time seen (length output.old)) }
{
    let ask = forward::asked(message, time, output.len());
    let Forwarded { seen, answer } = remember_in(seen, ask);
    let answer = forward::emit(message, answer, output);
    Forwarded { seen, answer }
}
