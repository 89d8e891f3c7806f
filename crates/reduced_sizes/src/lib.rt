// How much the marks leave of a table: atoms of a part, words of a clause, clauses, words in all.
#![tactic(auto)]

ghost use Rattle.std.specs.Prelude.{◌≡◌, ◌==◌, ◌≤◌, ◌<◌, length, count_by};
ghost use Rattle.rewriting.specs.Marked.{left};
ghost use Rattle.table.specs.View.{entry_at, view};
ghost use Rattle.reduced_sizes.specs.Leaves.{reduced};
ghost use Rattle.reduced_sizes.specs.Parts.{entry_words};
ghost use Rattle.reduced_marks.specs.Spans.{ClauseFits, MarksReady};

// How many of the marks are 1. `as`: there are fewer than 65,536.
pub fn kept_in(marks: &[u8]) -> u16
    requires { length marks.now < 65536 }
    ensures { result ≡ count_by (λ mark. mark == 1) marks.now }
{
    marks.iter().filter(|mark| **mark == 1).count() as u16
}

// The number of words of a clause as left.
fn entry_size(words: &[u16], marks: &[u8], at: usize) -> usize
    requires { ClauseFits words.now marks.now at }
    ensures { result ≡ length (entry_words (entry_at words.now marks.now at)) }
{
    if marks[at] != 1 {
        return 0;
    }
    let atoms = &marks[at + 3..table::next_clause(words, at)];
    3 + usize::from(kept_in(atoms))
}

// The number of words of the reduced table.
pub fn left_size(words: &[u16], marks: &[u8]) -> usize
    requires { MarksReady words.now marks.now }
    ensures { result ≡ length (reduced words.now marks.now) }
{
    let mut at: usize = 2;
    let mut size: usize = 2;
    for k in 0..words[1] {
        size += entry_size(words, marks, at);
        at = table::next_clause(words, at);
    }
    size
}

// The number of clauses kept.
pub fn left_count(words: &[u16], marks: &[u8]) -> u16
    requires { MarksReady words.now marks.now }
    ensures { result ≡ length (left (view words.now marks.now)) }
{
    let mut at: usize = 2;
    let mut count: u16 = 0;
    for k in 0..words[1] {
        count += u16::from(marks[at] == 1);
        at = table::next_clause(words, at);
    }
    count
}
