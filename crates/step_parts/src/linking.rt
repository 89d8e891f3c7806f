// The index of a table: where clauses start, and the places of an atom in a part from the last one down.

ghost use Rattle.std.specs.Prelude.{◌≡◌, ℕ, ◌+◌, ◌≤◌, ◌<◌, length, get_or};
ghost use Rattle.table.specs.Questions.{Passed};
ghost use Rattle.table.specs.Places.{start_of};
ghost use Rattle.step_parts.specs.Parts.{span_of, Stands, last_at, Indexed, Placed};

use crate::{Part, part_at};

// The words of an index. The first are the clauses' starts; then, by part and atom, the last place where it stands; by place, the one before
// it of the same atom and part; by place, its clause. One array and no struct of four: `Placed`, a definition, has its layout, and callers lend it.
pub const INDEX: usize = 21505;

const LAST: usize = 2049;

pub const BEFORE: usize = 5121;

pub const OWNER: usize = 13313;

// Where the last place of an atom in a part is kept.
pub fn last_at(part: Part, atom: u16) -> usize
    ensures { result ≡ last_at part atom }
{
    let a = usize::from(atom);
    match part {
        Part::Head => LAST + a,
        Part::Pos => LAST + 1024 + a,
        Part::Neg => LAST + 2048 + a,
    }
}

// No atom stands anywhere yet.
fn clear_last(index: &mut [u16])
    requires { 21505 ≤ length index.old }
    ensures { (i : ℕ) → 2049 ≤ i → i < 5121 → get_or index.new i 0 ≡ 0 }
{
    index[LAST..BEFORE].fill(0);
}

// Place i, in a part of clause t, is the last of its atom there.
fn link(words: &[u16], index: &mut [u16], part: Part, t: usize, i: usize)
    requires indexed { Indexed words.now index.old t i }
    requires stands { Stands words.now part (get_or words.now i 0) t i }
    ensures { Indexed words.now index.new t (i + 1) }
{
    let at = last_at(part, words[i]);
    index[BEFORE + i] = index[at];
    index[at] = i as u16;
    index[OWNER + i] = t as u16;
}

// Every place of a part of clause t, whose first word is at `at`.
fn link_part(words: &[u16], index: &mut [u16], part: Part, t: usize, at: usize)
    requires indexed { Indexed words.now index.old t (span_of words.now at part).from }
    requires clause { t < get_or words.now 1 0 }
    requires start { at ≡ start_of words.now t }
    ensures { Indexed words.now index.new t (span_of words.now at part).end }
{
    let s = part_at(words, at, part);
    // The places themselves are what is linked, so no iterator over the words says it more plainly.
    for i in s.from..s.end {
        link(words, index, part, t, i);
    }
}

// Clause t, whose first word is at `at`. The first word of the next.
fn index_clause(words: &[u16], index: &mut [u16], t: usize, at: usize) -> usize
    requires indexed { Indexed words.now index.old t at }
    requires clause { t < get_or words.now 1 0 }
    requires start { at ≡ start_of words.now t }
    ensures start { result ≡ start_of words.now (t + 1) }
    ensures indexed { Indexed words.now index.new (t + 1) result }
{
    link_part(words, index, Part::Head, t, at);
    link_part(words, index, Part::Pos, t, at);
    link_part(words, index, Part::Neg, t, at);
    let next = table::next_clause(words, at);
    index[t + 1] = next as u16;
    next
}

// The index of a table.
pub fn build_index(words: &[u16], index: &mut [u16])
    requires passed { Passed words.now }
    requires long { 21505 ≤ length index.old }
    ensures { Placed words.now index.new }
{
    clear_last(index);
    index[0] = 2;
    let mut at: usize = 2;
    for t in 0..usize::from(words[1]) {
        at = index_clause(words, index, t, at);
    }
}
