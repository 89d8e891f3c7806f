// The program between a reader and a writer, with what it has to report as its exit status.
#![tactic(auto)]

ghost use Rattle.std.specs.Prelude.{◌≡◌, ◌≢◌, ◌≤◌, length, take, IfOk, IfSome};
ghost use Rattle.std.specs.Io.KnownBytes.{Appends};
ghost use Rattle.reduce_filter.specs.Output.{output_of};
ghost use Rattle.reduce_streams.specs.Streams.{text_read, status_of};

use std::io;
use std::io::{Read, Write};

// A loop by hand: a read may give fewer bytes than there is room for, and `read_exact` doesn't tell how many came before the end.
// Reads until the slice is full or the input ends; how many bytes. An error where a read fails.
fn read_input<R: Read>(input: &mut R, text: &mut [u8]) -> io::Result<usize>
    ensures bound { IfOk result (λ n. n ≤ length text.new) }
    ensures bytes { IfOk result (λ n. IfSome (R.remaining input.old) (λ xs. take n text.new ≡ take (length text.new) xs)) }
{
    let mut got = 0;
    while got < text.len() {
        let n = input.read(&mut text[got..])?;
        if n == 0 {
            return Ok(got);
        }
        got += n;
    }
    Ok(got)
}

// Reads text, writes what it comes to, and gives the exit status: 0 done, 1 the text is refused, 2 reading or writing failed. Where it gives
// 0 or 1, the output is that of the text, and the status says whether the text is refused.
pub fn gambrolt_reduce_main<R: Read, W: Write>(input: &mut R, output: &mut W) -> u32
    ensures bound { result ≤ 2 }
    ensures done { result ≢ 2 → IfSome (R.remaining input.old) (λ xs. (result ≡ status_of (text_read xs)) × Appends (W.contents output.old) (W.contents output.new) (output_of (text_read xs))) }
{
    let mut text = reduce_filter::input_buffer();
    let mut out = reduce_filter::output_buffer();
    let Ok(got) = read_input(input, &mut text) else {
        return 2;
    };
    let printed = reduce_filter::filter_text(&text[..got], &mut out);
    let n = printed.bytes;
    let Ok(()) = output.write_all(&out[..n]) else {
        return 2;
    };
    if printed.refused { 1 } else { 0 }
}
