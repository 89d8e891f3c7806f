// The test of a set: is it a stable model of the table's program?
#![tactic(auto)]

ghost use Rattle.std.specs.Prelude.{◌≡◌};
ghost use Rattle.models_test.specs.Answer.{set_of, test_of};

use answers::{Answer, CallQuestion, EntryQuestion, Refusal};

mod kept;

// Questions 19 to 21.
pub fn check_set(set: &[u16], atoms: u16) -> Result<usize, Refusal>
    ensures { result ≡ set_of set.now atoms }
{
    if models_masks::MAX_SET < set.len() {
        return Err(Refusal::Call(CallQuestion::SetLength));
    }
    let mut low: u16 = 0;
    for (i, a) in set.iter().enumerate() {
        if atoms <= *a {
            return Err(Refusal::Entry(EntryQuestion::EntryBelow, i));
        }
        if *a < low {
            return Err(Refusal::Entry(EntryQuestion::EntryAscending, i));
        }
        low = *a + 1;
    }
    Ok(set.len())
}

// Questions 1 to 8 and 19 to 21, then the test.
pub fn test_set(words: &[u16], set: &[u16]) -> Answer
    ensures { result ≡ test_of words.now set.now }
{
    let checked = table_questions::check_table(words);
    let Ok(table) = checked else {
        return checked.map(|_| 0);
    };
    check_set(set, table.atoms)?;
    Ok(usize::from(kept::is_stable(words, set)))
}
