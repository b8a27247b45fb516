// For the tests in host/ alone and no part of the product, so that nothing here has a contract: the calls by name and
// those with values as numbers, which the host's calls do not reach.
#![tactic(auto)]

use bits::{BitPlace, OctetSize};
use elements::Home;
use loading::STATE;

// Reads an LM.
#[unsafe(no_mangle)]
pub extern "C" fn probe_read_lm(message: &[u8], values: &mut [i64], numbers: &mut [u64; 6]) {
    *numbers = told::told(messages::read_lm(message, values));
}

// Reads a SAM.
#[unsafe(no_mangle)]
pub extern "C" fn probe_read_sam(message: &[u8], values: &mut [i64], numbers: &mut [u64; 6]) {
    *numbers = told::told(messages::read_sam(message, values));
}

// Reads an SRM.
#[unsafe(no_mangle)]
pub extern "C" fn probe_read_srm(message: &[u8], values: &mut [i64], numbers: &mut [u64; 6]) {
    *numbers = told::told(messages::read_srm(message, values));
}

// Writes an LM.
#[unsafe(no_mangle)]
pub extern "C" fn probe_write_lm(values: &[i64], output: &mut [u8], numbers: &mut [u64; 6]) {
    *numbers = told::told(messages::write_lm(values, output));
}

// Writes a SAM.
#[unsafe(no_mangle)]
pub extern "C" fn probe_write_sam(values: &[i64], output: &mut [u8], numbers: &mut [u64; 6]) {
    *numbers = told::told(messages::write_sam(values, output));
}

// Writes an SRM.
#[unsafe(no_mangle)]
pub extern "C" fn probe_write_srm(values: &[i64], output: &mut [u8], numbers: &mut [u64; 6]) {
    *numbers = told::told(messages::write_srm(values, output));
}

// Reads through a state, with the values as numbers.
#[unsafe(no_mangle)]
pub extern "C" fn probe_read_loaded(
    state: &[u8; STATE],
    message: &[u8],
    values: &mut [i64],
    numbers: &mut [u64; 6],
) {
    *numbers = told::told(loaded::read(state, message, values));
}

// A known element: 0 here, 1 elsewhere, 2 unknown.
#[unsafe(no_mangle)]
pub extern "C" fn probe_element(id: u32, home: u32) -> u32 {
    let answer = elements::element(id, home);
    match answer {
        Home::Here => 0,
        Home::Elsewhere => 1,
        Home::Unknown => 2,
    }
}

// The user data of an LM: the refusal's number and place, or the part's start and length; and the length of the part itself.
#[unsafe(no_mangle)]
pub extern "C" fn probe_user_data(message: &[u8], numbers: &mut [u64; 6]) {
    let part = userdata::user_data(message).len() as u64;
    let found = userdata::user_data_place(message);
    *numbers = match found {
        Ok(span) => [0, 0, span.start.0 as u64, span.length.0 as u64, part, 0],
        Err(refusal) => [refusal.number as u64, refusal.place as u64, 0, 0, part, 0],
    };
}

// What opening a message answers.
#[unsafe(no_mangle)]
pub extern "C" fn probe_open(message: &[u8], numbers: &mut [u64; 6]) {
    *numbers = told::told(opened::opening(message));
}

// Bits taken at a place of an opened message: the refusal's number, the place after, the bits' number.
#[unsafe(no_mangle)]
pub extern "C" fn probe_take(message: &[u8], place: usize, k: u32, numbers: &mut [u64; 6]) {
    let taken = opened::take_from(message, BitPlace(place), k);
    *numbers = match taken {
        Ok((number, next)) => [0, next.0 as u64, number as u64, 0, 0, 0],
        Err(refusal) => [refusal.number as u64, refusal.place as u64, 0, 0, 0, 0],
    };
}

// The same with the bits fetched one at a time, for the benchmark.
#[unsafe(no_mangle)]
pub extern "C" fn probe_take_bitwise(message: &[u8], place: usize, k: u32, numbers: &mut [u64; 6]) {
    *numbers = [2, place as u64, 0, 0, 0, 0];
    if 32 < k {
        numbers[0] = 6;
        return;
    }
    if k == 0 {
        numbers[0] = 0;
        return;
    }
    if OctetSize::MOST < message.len() {
        return;
    }
    let Some((number, next)) = bitwise::fetch(message, BitPlace(place), k) else {
        return;
    };
    *numbers = [0, next.0 as u64, number as u64, 0, 0, 0];
}
