// The program: text from standard input, the reduced program and its steps to standard output. It ends in 0 whatever it read; the crate
// `reduce_status` is the same with an exit status.
#![tactic(auto)]

fn main(rt: HostRuntime) {
    reduce_streams::gambrolt_reduce_main(&mut rt.stdin(), &mut rt.stdout());
}
