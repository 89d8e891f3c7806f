// The program's work for C, as `uint32_t gambrolt_reduce_main(void)`. The two handles stand for the leave to read standard input and to write
// standard output. They take no bytes, so C passes nothing for them.
#![tactic(auto)]

ghost use Rattle.std.specs.Prelude.{◌≤◌};

use std::io::{Stdin, Stdout};

// Reads text from standard input, writes what it comes to, and gives the exit status: 0 done, 1 the text is refused, 2 reading or writing failed.
#[unsafe(no_mangle)]
pub extern "C" fn gambrolt_reduce_main(input: Stdin, output: Stdout) -> u32
    ensures { result ≤ 2 }
{
    let mut from = input;
    let mut to = output;
    reduce_streams::gambrolt_reduce_main(&mut from, &mut to)
}
