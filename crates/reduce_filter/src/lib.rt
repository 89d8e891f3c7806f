// The program's whole work as one function on slices: text in, the reduced program and its steps out.
#![tactic(auto)]

ghost use Rattle.std.specs.Prelude.{◌≡◌, [], ◌∷◌, ◌+◌, ◌*◌, ◌≤◌, length};
ghost use Rattle.text_form.specs.Digits.{commas};
ghost use Rattle.text_form.specs.Writer.{text_of};
ghost use Rattle.text_writer.specs.Outputs.{HasRoom, Writes};
ghost use Rattle.reduced_sizes.specs.Leaves.{reduced};
ghost use Rattle.reduced_marks.specs.Spans.{MarksReady};
ghost use Rattle.answers.specs.Refusals.{refusal_place};
ghost use Rattle.table.specs.Questions.{Passed};
ghost use Rattle.reduce_filter.specs.Output.{step_lines, list_lines, refusal_text, reduced_text, output_bytes, Prints};
ghost use Rattle.reduce_filter.specs.Input.{input_bytes};

use answers::Refusal;
use text_writer::Output;

// One byte more than a text may have, and bytes that are enough for every output.
pub const INPUT_BYTES: usize = 65537;

pub const OUTPUT_BYTES: usize = 262144;

// Zeros for the input, and for the output.
pub fn input_buffer() -> [u8; INPUT_BYTES]
    ensures { input_bytes ≡ length result }
{
    [0; INPUT_BYTES]
}

pub fn output_buffer() -> [u8; OUTPUT_BYTES]
    ensures { output_bytes ≡ length result }
{
    [0; OUTPUT_BYTES]
}

// The number of bytes printed, and whether the input was refused. No Result: a refusal prints bytes too, which `Prints` counts in both cases.
#[derive(Clone, Copy)]
pub struct Printed {
    pub bytes: usize,
    pub refused: bool,
}

// Two numbers joined by a comma.
fn put_pair(output: &mut Output<'_>, a: usize, b: usize)
    requires first { a ≤ 65536 }
    requires second { b ≤ 65536 }
    requires room { HasRoom output.old (commas (a ∷ b ∷ [])) }
    ensures same_reference { output.new.bytes.ghost_name ≡ output.old.bytes.ghost_name }
    ensures written { Writes output.old output.new (commas (a ∷ b ∷ [])) }
{
    output.put_number(a);
    output.put_next(b);
}

// The line of a refusal: its number and place.
fn put_refused(output: &mut Output<'_>, refusal: Refusal)
    requires near { refusal_place refusal ≤ 65536 }
    requires room { HasRoom output.old (refusal_text refusal) }
    ensures same_reference { output.new.bytes.ghost_name ≡ output.old.bytes.ghost_name }
    ensures written { Writes output.old output.new (refusal_text refusal) }
{
    // The cast loses nothing, which the check proves.
    let number = answers::refusal_number(refusal);
    output.put_bytes(b"refused=");
    put_pair(output, number as usize, answers::refusal_place(refusal));
    output.put_bytes(b"\n");
}

// A line for each of the first s steps of the list.
fn put_steps(output: &mut Output<'_>, list: &[u16], s: usize)
    requires inside { 4 * s ≤ length list.now }
    requires room { HasRoom output.old (step_lines list.now 0 s) }
    ensures same_reference { output.new.bytes.ghost_name ≡ output.old.bytes.ghost_name }
    ensures written { Writes output.old output.new (step_lines list.now 0 s) }
{
    for step in list[..4 * s].chunks_exact(4) {
        output.put_line(b"step=", step);
    }
}

// The count of steps, and a line for each.
fn put_list(output: &mut Output<'_>, list: &[u16], s: usize)
    requires few { s ≤ 65536 }
    requires inside { 4 * s ≤ length list.now }
    requires room { HasRoom output.old (list_lines list.now s) }
    ensures same_reference { output.new.bytes.ghost_name ≡ output.old.bytes.ghost_name }
    ensures written { Writes output.old output.new (list_lines list.now s) }
{
    output.put_number_line(b"steps=", s);
    put_steps(output, list, s);
}

// The text of the reduced table.
fn put_left(output: &mut Output<'_>, words: &[u16], marks: &[u8])
    requires ready { MarksReady words.now marks.now }
    requires room { output.old.len + 43022 ≤ length output.old.bytes.now }
    ensures same_reference { output.new.bytes.ghost_name ≡ output.old.bytes.ghost_name }
    ensures written { Writes output.old output.new (text_of (reduced words.now marks.now)) }
{
    let mut reduced = [0u16; 8192];
    let k = reduced_sizes::left_size(words, marks);
    reduced_copying::write_reduced(words, marks, &mut reduced);
    output.put_text(&reduced[..k]);
}

// The output for a table that passed questions 1 to 8: its program reduced, and the steps. In a frame of its own on the stack, so that a text that is
// refused needs no room for what a reduction needs.
#[inline(never)]
fn put_reduced(output: &mut Output<'_>, words: &[u16])
    requires passed { Passed words.now }
    requires room { output.old.len + 223170 ≤ length output.old.bytes.now }
    ensures same_reference { output.new.bytes.ghost_name ≡ output.old.bytes.ghost_name }
    ensures written { Writes output.old output.new (reduced_text words.now) }
{
    let mut marks = [0u8; 8192];
    let mut list = [0u16; 32768];
    let answer = reducer::reduce_table(words, &mut marks, &mut list);
    let Ok(s) = answer else {
        // Never: the marks and the list have room for every table.
        return;
    };
    put_left(output, words, &marks);
    put_list(output, &list, s);
}

// The whole output for an input; the number of its bytes.
pub fn filter_text(text: &[u8], out: &mut [u8]) -> Printed
    requires { output_bytes ≤ length out.old }
    ensures { Prints text.now out.old out.new result }
{
    let mut words = [0u16; 8192];
    let mut output = Output::new(out);
    match text_reader::read_text(text, &mut words) {
        Ok(n) => {
            put_reduced(&mut output, &words[..n]);
            Printed {
                bytes: output.len,
                refused: false,
            }
        }
        Err(refusal) => {
            put_refused(&mut output, refusal);
            Printed {
                bytes: output.len,
                refused: true,
            }
        }
    }
}
