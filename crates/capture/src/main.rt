// The capture program (document 02, ticket 6): a classic capture file from standard input, a line for each LM and each cut record on
// standard output, and the count of records last.
#![tactic(auto)]

fn main(rt: HostRuntime) {
    let mut input = [0u8; buffers::INPUT];
    let mut output = [0u8; buffers::OUTPUT];
    let mut values = [0i64; programs::VALUES];
    let end = stream::answer_capture(rt.stdin(), &mut input, &mut output, &mut values);
    buffers::write(&output, end);
}
