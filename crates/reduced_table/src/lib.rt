// The reduced table: questions 9, 10 and 18, then the words that the marks leave.
#![tactic(auto)]

ghost use Rattle.std.specs.Prelude.{◌≡◌};
ghost use Rattle.table.specs.Questions.{Passed};
ghost use Rattle.answers.specs.Answers.{written_if};
ghost use Rattle.reduced_table.specs.Reduced.{marked_answer, reduced_answer, reduced_out};
ghost use Rattle.reduced_sizes.specs.Leaves.{reduced};

use answers::{Answer, CallQuestion, Refusal};

// Questions 9, 10 and 18, then the reduced table.
fn compact(words: &[u16], marks: &[u8], out: &mut [u16]) -> Answer
    requires { Passed words.now }
    ensures answer { result ≡ marked_answer words.now marks.now out.old }
    ensures out { out.new ≡ written_if (marked_answer words.now marks.now out.old) (reduced words.now marks.now) out.old }
{
    if marks.len() < words.len() {
        return Err(Refusal::Call(CallQuestion::MarksLength));
    }
    reduced_marks::check_marks(words, marks)?;
    let size = reduced_sizes::left_size(words, marks);
    if out.len() < size {
        return Err(Refusal::Call(CallQuestion::TableRoom));
    }
    reduced_copying::write_reduced(words, marks, out);
    Ok(size)
}

// The reduced table. A refused call changes nothing.
pub fn reduced_table(words: &[u16], marks: &[u8], out: &mut [u16]) -> Answer
    ensures { (result ≡ reduced_answer words.now marks.now out.old) × (out.new ≡ reduced_out words.now marks.now out.old) }
{
    let checked = table_questions::check_table(words);
    let Ok(_) = checked else {
        return checked.map(|_| 0);
    };
    compact(words, marks, out)
}
