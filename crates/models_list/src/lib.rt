// The call that lists all stable models of a program of at most 16 atoms.
#![tactic(auto)]

ghost use Rattle.std.specs.Prelude.{◌≡◌, length};
ghost use Rattle.models_list.specs.Answer.{models_answer, models_out};

use answers::{Answer, CallQuestion, Refusal};
use models_masks::upto::UpTo;

mod masks;
mod search;

// Question 30.
const MAX_ATOMS: u16 = 16;

// As many stable models as 16 atoms can have.
pub const MAX_MODELS: usize = 12870;

// Questions 1 to 8 and 30, the stable models, then 31. A refusal changes nothing.
pub fn list_models(words: &[u16], out: &mut [u16]) -> Answer
    ensures { (result ≡ models_answer words.now (length out.old)) × (out.new ≡ models_out words.now out.old) }
{
    let checked = table_questions::check_table(words);
    let Ok(_) = checked else {
        return checked.map(|_| 0);
    };
    if MAX_ATOMS < words[0] {
        return Err(Refusal::Call(CallQuestion::FewAtoms));
    }
    let mut found: UpTo<u16, MAX_MODELS> = UpTo::new(0);
    search::all_models(words, &mut found);
    let models = found.as_slice();
    if out.len() < models.len() {
        return Err(Refusal::Call(CallQuestion::ModelsRoom));
    }
    out[..models.len()].copy_from_slice(models);
    Ok(models.len())
}
