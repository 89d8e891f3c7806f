// The library's calls: numbers and slices in, one number out. The crate `gambrolt_c` exports each to C.
#![tactic(auto)]

ghost use Rattle.std.specs.Prelude.{◌≡◌, Ok, Err, length};
ghost use Rattle.answers.specs.Answers.{answer_code};
ghost use Rattle.table.specs.Questions.{table_of, on_table};
ghost use Rattle.step_lists.specs.Lists.{check_list};
ghost use Rattle.reducer_results.specs.Reductions.{reduction};
ghost use Rattle.reduced_table.specs.Reduced.{reduced_answer, reduced_out};
ghost use Rattle.cycle.specs.Answer.{cycle_of};
ghost use Rattle.models_test.specs.Answer.{test_of};
ghost use Rattle.models_list.specs.Answer.{models_answer, models_out};
ghost use Rattle.text_form.specs.Reader.{read_answer, table_after};
ghost use Rattle.text_form.specs.Writer.{write_answer, out_after};

// Questions 1 to 8.
pub fn gambrolt_check_table(words: &[u16]) -> u64
    ensures { result ≡ answer_code (on_table Err (table_of words.now) (Ok 0)) }
{
    let checked = table_questions::check_table(words);
    let Err(r) = checked else {
        return 0;
    };
    answers::refusal_code(r)
}

// Questions 1 to 9, 11 to 16, 29 and 32, and the marks of the steps that are taken.
pub fn gambrolt_check(words: &[u16], marks: &mut [u8], list: &[u16]) -> u64
    ensures { (result ≡ answer_code (check_list words.now marks.old list.now).answer) × (marks.new ≡ (check_list words.now marks.old list.now).marks) }
{
    answers::answer_code(step_lists::check_list(words, marks, list))
}

// Questions 1 to 9 and 17, then the smallest step again and again: the list of steps, and the marks that they leave.
pub fn gambrolt_reduce(words: &[u16], marks: &mut [u8], list: &mut [u16]) -> u64
    ensures { (result ≡ answer_code (reduction words.now marks.old list.old).answer) × ((marks.new ≡ (reduction words.now marks.old list.old).marks) × (list.new ≡ (reduction words.now marks.old list.old).list)) }
{
    answers::answer_code(reducer::reduce_table(words, marks, list))
}

// Questions 1 to 10 and 18, then the table that the marks leave.
pub fn gambrolt_reduced_table(words: &[u16], marks: &[u8], out: &mut [u16]) -> u64
    ensures { (result ≡ answer_code (reduced_answer words.now marks.now out.old)) × (out.new ≡ reduced_out words.now marks.now out.old) }
{
    answers::answer_code(reduced_table::reduced_table(words, marks, out))
}

// Questions 1 to 8 and 19 to 21, then whether the set is a stable model.
pub fn gambrolt_test(words: &[u16], set: &[u16]) -> u64
    ensures { result ≡ answer_code (test_of words.now set.now) }
{
    answers::answer_code(models_test::test_set(words, set))
}

// Questions 1 to 8, 30 and 31, then the words of all stable models.
pub fn gambrolt_models(words: &[u16], out: &mut [u16]) -> u64
    ensures { (result ≡ answer_code (models_answer words.now (length out.old))) × (out.new ≡ models_out words.now out.old) }
{
    answers::answer_code(models_list::list_models(words, out))
}

// Questions 1 to 8, then whether some atom leads back to itself.
pub fn gambrolt_cycle(words: &[u16]) -> u64
    ensures { result ≡ answer_code (cycle_of words.now) }
{
    answers::answer_code(cycle::has_cycle(words))
}

// Questions 22 to 27, then the table of a text.
pub fn gambrolt_read_text(text: &[u8], words: &mut [u16]) -> u64
    ensures { (result ≡ answer_code (read_answer text.now (length words.old))) × (words.new ≡ table_after text.now words.old) }
{
    answers::answer_code(text_reader::read_text(text, words))
}

// Questions 1 to 8 and 28, then the text of a table.
pub fn gambrolt_write_text(words: &[u16], out: &mut [u8]) -> u64
    ensures { (result ≡ answer_code (write_answer words.now (length out.old))) × (out.new ≡ out_after words.now out.old) }
{
    answers::answer_code(text_writer::write_text(words, out))
}
