// Question 10: which marks of a table are allowed. In this crate and those above it each function takes the words and the marks as they came: one that held
// both would be made for a call and taken apart in it. A clause starts where the one before ends, so the loops over clauses count them and carry the place.
#![tactic(auto)]

ghost use Rattle.std.specs.Prelude.{◌≡◌, ◌-◌, ◌≤◌, length};
ghost use Rattle.table.specs.Places.{next_at};
ghost use Rattle.reduced_marks.specs.Allowed.{allowed_where, clearable_in, allowed, marks_from};
ghost use Rattle.reduced_marks.specs.Spans.{between, ClauseFits, MarksReady};

use answers::{Refusal, WordQuestion};

// Question 10 where each mark from `at` up to `end` is to be `least` or 1; `least` is 0 or 1.
fn check_span(marks: &[u8], at: usize, end: usize, least: u8) -> Result<usize, Refusal>
    requires order { at ≤ end }
    requires within { end ≤ length marks.now }
    ensures { result ≡ marks_from (between marks.now least) at (end - at) }
{
    match marks[at..end]
        .iter()
        .position(|mark| *mark < least || 1 < *mark)
    {
        None => Ok(end),
        Some(i) => Err(Refusal::Word(WordQuestion::MarkAllowed, at + i)),
    }
}

// Question 10 for a clause: 0 is allowed at its first word and at its atoms, not at its counts.
fn check_clause_marks(words: &[u16], marks: &[u8], at: usize) -> Result<usize, Refusal>
    requires { ClauseFits words.now marks.now at }
    ensures { result ≡ marks_from (allowed_where (clearable_in words.now at) marks.now) at (next_at words.now at - at) }
{
    let atoms = at + 3;
    check_span(marks, at, at + 1, 0)?;
    check_span(marks, at + 1, atoms, 1)?;
    check_span(marks, atoms, table::next_clause(words, at), 0)
}

// Question 10.
pub fn check_marks(words: &[u16], marks: &[u8]) -> Result<usize, Refusal>
    requires { MarksReady words.now marks.now }
    ensures { result ≡ marks_from (allowed words.now marks.now) 0 (length words.now) }
{
    check_span(marks, 0, 2, 1)?;
    let mut at: usize = 2;
    for k in 0..words[1] {
        at = check_clause_marks(words, marks, at)?;
    }
    Ok(at)
}
