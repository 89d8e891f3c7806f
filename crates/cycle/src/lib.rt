// The cycle answer: does some atom lead back to itself?
#![tactic(auto)]

ghost use Rattle.std.specs.Prelude.{◌≡◌};
ghost use Rattle.cycle.specs.Answer.{cycle_of};

use answers::Answer;

mod search;

// Questions 1 to 8, then the search.
pub fn has_cycle(words: &[u16]) -> Answer
    ensures { result ≡ cycle_of words.now }
{
    let checked = table_questions::check_table(words);
    let Ok(_) = checked else {
        return checked.map(|_| 0);
    };
    Ok(usize::from(search::find_cycle(words)))
}
