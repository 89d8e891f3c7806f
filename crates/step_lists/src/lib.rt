// Checking a list of steps: questions 9, 11 to 16, 29 and 32, and the marks that the list leaves.
#![tactic(auto)]

ghost use Rattle.std.specs.Prelude.{◌≡◌, ◌/◌, ◌≤◌, length};
ghost use Rattle.table.specs.Questions.{Passed};
ghost use Rattle.step_lists.specs.Lists.{steps_from, list_fits, check_list};
ghost use Rattle.step_lists.specs.Leaves.{Leaves};

use answers::{Answer, CallQuestion, Refusal};
use step_parts::Indexed;
use step_questions::Memory;

// The steps of the list, four words each, from the marks as they stand.
fn take_steps(table: &Indexed, marks: &mut [u8], list: &[u16]) -> Answer
    requires { length table.now.words.now ≤ length marks.old }
    ensures { Leaves (steps_from table.now.words.now marks.old list.now 0 (length list.now / 4)) result marks.new }
{
    let mut heads = [0u16; 1024];
    let mut reached = [0u8; 1024];
    let mut memory = Memory::new(&mut heads, &mut reached);
    let (steps, _) = list.as_chunks::<4>();
    for (k, step) in steps.iter().enumerate() {
        // By hand: of what a closure under map_err makes of k, the proof learns nothing.
        if let Err(q) = step_questions::take_step(table, marks, &mut memory, *step) {
            return Err(Refusal::Step(q, k));
        }
    }
    Ok(steps.len())
}

// A list whose length is right, on a table that passed, from the marks as they stand.
pub fn check_steps(words: &[u16], marks: &mut [u8], list: &[u16]) -> Answer
    requires passed { Passed words.now }
    requires marked { length words.now ≤ length marks.old }
    ensures { Leaves (steps_from words.now marks.old list.now 0 (length list.now / 4)) result marks.new }
{
    let mut index = [0u16; step_parts::INDEX];
    take_steps(&Indexed::new(words, &mut index), marks, list)
}

// Question 11.
pub fn list_fits(list: &[u16]) -> bool
    ensures { result ≡ list_fits list.now }
{
    list.len() % 4 == 0 && list.len() <= 32760
}

// Checks a list: its answer, and the marks of its steps up to the first that is refused.
pub fn check_list(words: &[u16], marks: &mut [u8], list: &[u16]) -> Answer
    ensures { Leaves (check_list words.now marks.old list.now) result marks.new }
{
    let checked = table_questions::check_table(words);
    let Ok(_) = checked else {
        return checked.map(|_| 0);
    };
    if marks.len() < words.len() {
        return Err(Refusal::Call(CallQuestion::MarksLength));
    }
    if !list_fits(list) {
        return Err(Refusal::Call(CallQuestion::ListLength));
    }
    step_conditions::keep_all(words, marks);
    check_steps(words, marks, list)
}
