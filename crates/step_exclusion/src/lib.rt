// Kind 9 on the words and the marks of a table that passed: the consequences of an atom as bytes, the condition, and the marks after the step.
#![tactic(auto)]

ghost use Rattle.std.specs.Prelude.{◌≡◌, ◌-◌, ◌≤◌, ◌<◌, ℕ, length, get_or};
ghost use Rattle.std.proofs.Math.Bool.{So};
ghost use Rattle.semantics.specs.Lists.{any, all};
ghost use Rattle.rewriting.specs.Marked.{left};
ghost use Rattle.rewriting.specs.Consequences.{definite};
ghost use Rattle.rewriting.specs.Exclusion.{plain_constraint, occurs, excludes};
ghost use Rattle.table.specs.Places.{start_of};
ghost use Rattle.table.specs.Clearing.{clear_part, clear_clause, marks_without};
ghost use Rattle.step_parts.specs.Reading.{atom_count, clause_count, clause_of, program_of, words_of, marks_of};
ghost use Rattle.step_reach.specs.Bytes.{in_bytes};
ghost use Rattle.step_reach.specs.Counts.{CountRoom};
ghost use Rattle.step_reach.specs.Growing.{HasJoined, IsSameSet};
ghost use Rattle.step_exclusion.specs.Exclusions.{Narrowed, ConsequencesIn, Occurring, part_without};

use step_parts::{Indexed, Marked, Part};
use step_reach::{AtomSet, Closure, Count};

// ---- the consequences of an atom

// Whether clause t has one head atom and no negative atoms.
pub fn is_definite(program: &Marked, t: usize) -> bool
    requires { t < clause_count program.now.table }
    ensures { result ≡ definite (clause_of program.now t) }
{
    program.only(t, Part::Head).is_some() && program.empty(t, Part::Neg)
}

// The marks of the table's words.
// Index loop: one slice is read and another written at the same place. No `copy_from_slice`: with it the library would need `memmove` from its caller.
fn copy_marks(program: &Marked, only: &mut [u8])
    requires { length (words_of program.now) ≤ length only.old }
    ensures { (i : ℕ) → i < length (words_of program.now) → get_or only.new i 0 ≡ get_or (marks_of program.now) i 0 }
{
    let n = program.table.words.len();
    for i in 0..n {
        only[i] = program.marks[i];
    }
}

// The marks with those clauses alone: the consequences of an atom are the reach of what they leave, with the atom.
pub fn narrow(program: &Marked, only: &mut [u8])
    requires { length (words_of program.now) ≤ length only.old }
    ensures { Narrowed (words_of program.now) (marks_of program.now) only.new }
{
    copy_marks(program, only);
    for t in 0..program.table.clause_count() {
        if is_definite(program, t) {
            continue;
        }
        let at = program.table.first_word(t);
        only[at] = 0;
    }
}

// The consequences of the atom, as a set in arrays that are lent: the byte of an atom is 1 exactly where the atom is one.
pub fn find_consequences<'a>(
    program: &Marked,
    atom: u16,
    bytes: &'a mut [u8],
    missing: &'a mut [Count],
    queue: &'a mut [u16],
) -> AtomSet<'a>
    requires atom { atom < atom_count program.now.table }
    requires room { CountRoom (words_of program.now) bytes.old missing.old }
    requires queue { 1024 ≤ length queue.old }
    ensures same_bytes { result.bytes.ghost_name ≡ bytes.entry.ghost_name }
    ensures same_queue { result.queue.ghost_name ≡ queue.entry.ghost_name }
    ensures consequences { ConsequencesIn (words_of program.now) (marks_of program.now) atom result.bytes.now }
{
    let mut marks = [0u8; 8192];
    narrow(program, &mut marks);
    let definite = Marked {
        table: program.table,
        marks: &marks,
    };
    let mut closure = Closure::new(&definite, bytes, missing, queue);
    closure.close_with(&definite, atom);
    AtomSet {
        bytes: closure.bytes,
        queue: closure.queue,
        top: closure.top,
    }
}

// The bytes of that set alone. All arrays come first: one that is made after a call is cleared twice.
pub fn fill_consequences(program: &Marked, atom: u16, bytes: &mut [u8])
    requires atom { atom < atom_count program.now.table }
    requires room { atom_count program.now.table ≤ length bytes.old }
    ensures { ConsequencesIn (words_of program.now) (marks_of program.now) atom bytes.new }
{
    let mut missing: [Count; 2048] = [0; 2048];
    let mut queue = [0u16; 1024];
    find_consequences(program, atom, bytes, &mut missing, &mut queue);
}

// ---- the condition

// Whether clause t is a constraint with positive atoms and no negative ones: where it is kept, it can be a target.
pub fn is_plain(program: &Marked, t: usize) -> bool
    requires { t < clause_count program.now.table }
    ensures { result ≡ plain_constraint (clause_of program.now t) }
{
    program.empty(t, Part::Head) && program.empty(t, Part::Neg) && !program.empty(t, Part::Pos)
}

// The atoms of clause t join the set.
fn join_clause(program: &Marked, t: usize, set: &mut AtomSet)
    requires clause { t < clause_count program.now.table }
    requires room { atom_count program.now.table ≤ length set.old.bytes.now }
    ensures same_reference { IsSameSet set.old set.new }
    ensures joined { HasJoined (λ a. So (occurs a (clause_of program.now t))) set.old set.new }
{
    set.join_part(program, t, Part::Head);
    set.join_part(program, t, Part::Pos);
    set.join_part(program, t, Part::Neg);
}

// The atoms that occur, as a set in arrays that are lent: the byte of an atom is 1 exactly where the atom is in a kept clause.
// It works on a copy of the program: what is lent would be read again after every byte that is written.
pub fn find_present<'a>(program: &Marked, bytes: &'a mut [u8], queue: &'a mut [u16]) -> AtomSet<'a>
    requires room { atom_count program.now.table ≤ length bytes.old }
    requires queue { 1024 ≤ length queue.old }
    ensures same_bytes { result.bytes.ghost_name ≡ bytes.entry.ghost_name }
    ensures same_queue { result.queue.ghost_name ≡ queue.entry.ghost_name }
    ensures present { Occurring (words_of program.now) (marks_of program.now) result.bytes.now }
{
    let program = *program;
    let mut present = AtomSet::new(bytes, queue);
    for t in 0..program.table.clause_count() {
        if !program.kept(t) {
            continue;
        }
        join_clause(&program, t, &mut present);
    }
    present
}

// The bytes of that set alone.
pub fn fill_present(program: &Marked, bytes: &mut [u8])
    requires { atom_count program.now.table ≤ length bytes.old }
    ensures { Occurring (words_of program.now) (marks_of program.now) bytes.new }
{
    let mut queue = [0u16; 1024];
    find_present(program, bytes, &mut queue);
}

// Whether every positive atom of clause t is in the set.
pub fn body_in(program: &Marked, t: usize, bytes: &[u8]) -> bool
    requires { t < clause_count program.now.table }
    ensures { result ≡ all (in_bytes bytes.now) (clause_of program.now t).pos }
{
    program
        .atoms(t, Part::Pos)
        .all(|atom| step_reach::is_in(bytes, atom))
}

// Kind 9's condition for the target t and the atom: question 16.
pub fn excluded(program: &Marked, t: usize, atom: u16) -> bool
    requires target { t < clause_count program.now.table }
    requires atom { atom < atom_count program.now.table }
    ensures { result ≡ excludes (left (program_of program.now)) (clause_of program.now t) atom }
{
    if !is_plain(program, t) {
        return false;
    }
    let mut bytes = [0u8; 1024];
    fill_present(program, &mut bytes);
    if !step_reach::is_in(&bytes, atom) {
        return false;
    }
    fill_consequences(program, atom, &mut bytes);
    body_in(program, t, &bytes)
}

// ---- the step

// The marks of the atom among the words of a part.
// Index loop: a word is read and the mark beside it is written, in two slices at the same place.
fn clear_part(words: &[u16], marks: &mut [u8], atom: u16, from: usize, end: usize)
    requires order { from ≤ end }
    requires words { end ≤ length words.now }
    requires marks { length words.now ≤ length marks.old }
    ensures { marks.new ≡ clear_part words.now atom from (end - from) marks.old }
{
    for i in from..end {
        if words[i] != atom {
            continue;
        }
        marks[i] = 0;
    }
}

// Those of a part of clause t.
fn clear_in(table: &Indexed, marks: &mut [u8], t: usize, part: Part, atom: u16)
    requires marks { length table.now.words.now ≤ length marks.old }
    requires clause { t < clause_count table.now }
    ensures { marks.new ≡ part_without table.now.words.now atom t part marks.old }
{
    let span = table.span(t, part);
    clear_part(table.words, marks, atom, span.from, span.end);
}

// Clause t is deleted where the atom is in its positive body, and else loses it.
fn clear_clause(table: &Indexed, marks: &mut [u8], t: usize, atom: u16)
    requires marks { length table.now.words.now ≤ length marks.old }
    requires clause { t < clause_count table.now }
    ensures { marks.new ≡ clear_clause table.now.words.now atom (start_of table.now.words.now t) marks.old }
{
    let program = Marked {
        table: *table,
        marks,
    };
    if !program.kept(t) {
        return;
    }
    if program.has(t, Part::Pos, atom) {
        marks[table.first_word(t)] = 0;
        return;
    }
    clear_in(table, marks, t, Part::Head, atom);
    clear_in(table, marks, t, Part::Neg, atom);
}

// The step's effect on the marks.
pub fn remove_atom(table: &Indexed, marks: &mut [u8], atom: u16)
    requires { length table.now.words.now ≤ length marks.old }
    ensures { marks.new ≡ marks_without table.now.words.now marks.old atom }
{
    for t in 0..table.clause_count() {
        clear_clause(table, marks, t, atom);
    }
}

#[cfg(test)]
mod tests {
    use super::*;

    // 0 or 1. 2 if 0. Not 0 and 2. Of the atoms 0 to 3 the last one occurs nowhere, and 0 and 2 follow from 0.
    const WORDS: [u16; 17] = [4, 3, 2, 0, 0, 0, 1, 1, 1, 0, 2, 0, 0, 2, 0, 0, 2];

    #[test]
    fn finds(rt: HostRuntime) {
        let mut index = [0u16; step_parts::INDEX];
        let table = Indexed::new(&WORDS, &mut index);
        let program = Marked {
            table,
            marks: &[1; 17],
        };
        let mut bytes = [7u8; 4];
        let mut missing: [Count; 2048] = [0; 2048];
        let mut queue = [0u16; 1024];
        let present = find_present(&program, &mut bytes, &mut queue);
        assert_eq!(rt; present.top, 3);
        assert_eq!(rt; bytes, [1, 1, 1, 0]);
        let follows = find_consequences(&program, 0, &mut bytes, &mut missing, &mut queue);
        assert_eq!(rt; follows.top, 2);
        assert_eq!(rt; bytes, [1, 0, 1, 0]);
    }
}
