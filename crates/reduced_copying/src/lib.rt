// What the marks leave of a table's program, copied as a table of its own. The words come one behind the other: `to` is the place of the next, and
// each function gives the place past what it wrote; slices from there on would be cut anew in each caller, and say no more.
#![tactic(auto)]

ghost use Rattle.std.specs.Prelude.{◌≡◌, ◌+◌, ◌≤◌, length};
ghost use Rattle.std.proofs.lemmas.List.Edits.{sets};
ghost use Rattle.rewriting.specs.Marked.{left};
ghost use Rattle.table.specs.Encoding.{clause_words, clauses_words};
ghost use Rattle.table.specs.Slices.{kept_of};
ghost use Rattle.table.specs.View.{entry_at, view};
ghost use Rattle.reduced_sizes.specs.Leaves.{reduced};
ghost use Rattle.reduced_sizes.specs.Parts.{counts, entry_words, ClauseRoom, Fits};
ghost use Rattle.reduced_marks.specs.Spans.{ClauseFits};

// The words whose mark is 1, written from `to` on; the place past them.
fn copy_part(words: &[u16], marks: &[u8], out: &mut [u16], to: usize) -> usize
    requires { to + length (kept_of words.now marks.now) ≤ length out.old }
    ensures place { result ≡ to + length (kept_of words.now marks.now) }
    ensures written { out.new ≡ sets out.old to (kept_of words.now marks.now) }
{
    let mut n = to;
    for (word, mark) in words.iter().zip(marks) {
        if *mark != 1 {
            continue;
        }
        out[n] = *word;
        n += 1;
    }
    n
}

// The three counts of a clause as left, written from `to` on.
fn write_counts(words: &[u16], marks: &[u8], at: usize, out: &mut [u16], to: usize)
    requires fits { ClauseFits words.now marks.now at }
    requires room { to + 3 ≤ length out.old }
    ensures { out.new ≡ sets out.old to (counts (entry_at words.now marks.now at).clause) }
{
    let head = at + 3;
    let pos = head + usize::from(words[at]);
    let neg = pos + usize::from(words[at + 1]);
    let end = neg + usize::from(words[at + 2]);
    out[to] = reduced_sizes::kept_in(&marks[head..pos]);
    out[to + 1] = reduced_sizes::kept_in(&marks[pos..neg]);
    out[to + 2] = reduced_sizes::kept_in(&marks[neg..end]);
}

// The words of a clause that is kept, written from `to` on; the place past them.
fn copy_clause(words: &[u16], marks: &[u8], at: usize, out: &mut [u16], to: usize) -> usize
    requires fits { ClauseFits words.now marks.now at }
    requires room { to + length (clause_words (entry_at words.now marks.now at).clause) ≤ length out.old }
    ensures place { result ≡ to + length (clause_words (entry_at words.now marks.now at).clause) }
    ensures written { out.new ≡ sets out.old to (clause_words (entry_at words.now marks.now at).clause) }
{
    let atoms = at + 3;
    let end = table::next_clause(words, at);
    write_counts(words, marks, at, out, to);
    copy_part(&words[atoms..end], &marks[atoms..end], out, to + 3)
}

// The words of a clause as left, written from `to` on; the place past them.
fn copy_entry(words: &[u16], marks: &[u8], at: usize, out: &mut [u16], to: usize) -> usize
    requires { ClauseRoom words.now marks.now out.old at to }
    ensures place { result ≡ to + length (entry_words (entry_at words.now marks.now at)) }
    ensures written { out.new ≡ sets out.old to (entry_words (entry_at words.now marks.now at)) }
{
    if marks[at] != 1 {
        return to;
    }
    copy_clause(words, marks, at, out, to)
}

// The words of the clauses kept, written from the third word on.
fn copy_clauses(words: &[u16], marks: &[u8], out: &mut [u16])
    requires { Fits words.now marks.now out.old }
    ensures { out.new ≡ sets out.old 2 (clauses_words (left (view words.now marks.now))) }
{
    let mut at: usize = 2;
    let mut to: usize = 2;
    for k in 0..words[1] {
        to = copy_entry(words, marks, at, out, to);
        at = table::next_clause(words, at);
    }
}

// The words of the reduced table.
pub fn write_reduced(words: &[u16], marks: &[u8], out: &mut [u16])
    requires { Fits words.now marks.now out.old }
    ensures { out.new ≡ sets out.old 0 (reduced words.now marks.now) }
{
    out[0] = words[0];
    out[1] = reduced_sizes::left_count(words, marks);
    copy_clauses(words, marks, out);
}
