// For the tests in host/ alone and no part of the product, so that nothing here has a contract: the call without a table, with values as
// numbers, which the host's call does not reach. Apart from probe, so that neither is compiled otherwise for the other's sake.
#![tactic(auto)]

// Reads an LM without a table, with the values as numbers.
#[unsafe(no_mangle)]
pub extern "C" fn probe_read_lm_plain(message: &[u8], values: &mut [i64], numbers: &mut [u64; 6]) {
    *numbers = told::told(plain::read_lm(message, values));
}
