// The program `gambrolt-reduce`: text from standard input, the reduced program and its steps to standard output, and an exit status: 0 done,
// 1 the text is refused, 2 reading or writing failed.
#![tactic(auto)]

use std::process::ExitCode;

fn main(rt: HostRuntime) -> ExitCode {
    let status = reduce_streams::gambrolt_reduce_main(&mut rt.stdin(), &mut rt.stdout());
    ExitCode::from(status as u8)
}
