// The bench program (document 01): frames from standard input, a line for each on standard output, and the count of frames last.
#![tactic(auto)]

fn main(rt: HostRuntime) {
    let mut input = [0u8; buffers::INPUT];
    let mut output = [0u8; buffers::OUTPUT];
    let mut values = [0i64; programs::VALUES];
    let end = stream::answer_frames(rt.stdin(), &mut input, &mut output, &mut values);
    buffers::write(&output, end);
}
