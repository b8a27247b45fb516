// An answer as the numbers that a host is told: a part, for the calls and for the tests in host/.
#![tactic(auto)]

ghost use Rattle.std.specs.Prelude.{◌≡◌};
ghost use Rattle.told.specs.Told.{told};

use answer::Answer;

// The answer as six numbers: the refusal's number, its place, the values, the bits, the octets, and 0.
pub fn told(answer: Answer) -> [u64; 6]
    ensures { result ≡ told answer }
{
    match answer {
        Ok(counts) => [
            0,
            0,
            counts.values as u64,
            counts.bits.0 as u64,
            counts.octets.0 as u64,
            0,
        ],
        Err(refusal) => [u64::from(refusal.number), refusal.place as u64, 0, 0, 0, 0],
    }
}

// The same into the numbers that a host lends: for a call whose proof is a walk by hand, which then passes them on whole.
pub fn tell(answer: Answer, numbers: &mut [u64; 6])
    ensures { numbers.new ≡ told answer }
{
    *numbers = told(answer);
}
