// The closure of the facts, grown by an atom, is taken back: so trying an atom costs what follows from it.
// The new atoms leave the queue from the last one on. Each is counted on again in every clause in whose positive body it stands, along the index, and its
// byte is cleared; on the way the first clause asked for is found that lacked no positive atom.
#![tactic(auto)]

ghost use Rattle.std.specs.Prelude.{◌≡◌, ◌+◌, ◌≤◌, ◌<◌, length, get_or, take};
ghost use Rattle.std.proofs.Math.Bool.{So};
ghost use Rattle.step_parts.specs.Parts.{owner_at};
ghost use Rattle.step_parts.specs.Reading.{clause_count, words_of, marks_of};
ghost use Rattle.step_reach.specs.Bytes.{in_bytes};
ghost use Rattle.step_reach.specs.Growing.{taken, IsQueued, HasRoom, IsSameClosure};
ghost use Rattle.search_closure.specs.Back.{Counted, Full, First, Lowest, Lesser, CountedOn, Cleared};

use step_parts::{Indexed, Marked, Part};
use step_reach::{Closure, Count};

// ---- the first clause that lacks no atom

// The first clause asked for whose count is 0, or the number of clauses.
pub fn first_full(table: &Indexed, can: &[u8], missing: &[Count]) -> usize
    requires can { 2048 ≤ length can.now }
    requires missing { 2048 ≤ length missing.now }
    ensures { First (λ t. So (in_bytes can.now t) × (get_or missing.now t 0 ≡ 0)) (clause_count table.now) result }
{
    let clauses = table.clause_count();
    can[..clauses]
        .iter()
        .zip(missing)
        .position(|(asked, left)| *asked == 1 && *left == 0)
        .unwrap_or(clauses)
}

// The lesser of `first` and clause t where that is asked for and its count is 0; else `first`.
fn lesser(can: &[u8], t: usize, left: Count, first: usize) -> usize
    requires { t < length can.now }
    ensures { Lesser can.now t left first result }
{
    if left != 0 {
        return first;
    }
    if can[t] != 1 {
        return first;
    }
    first.min(t)
}

// ---- an atom is put back

// The atom at place i, if it is kept, is counted on again in its clause. The lesser of that clause, by the count before, and `first`.
fn count_on(program: &Marked, i: usize, can: &[u8], first: usize, missing: &mut [Count]) -> usize
    requires place { i < length (words_of program.now) }
    requires clause { get_or program.now.table.index.now (owner_at i) 0 < clause_count program.now.table }
    requires can { 2048 ≤ length can.now }
    requires room { 2048 ≤ length missing.old }
    requires few { get_or (marks_of program.now) i 0 ≡ 1 → get_or missing.old (get_or program.now.table.index.now (owner_at i) 0) 0 ≤ 1024 }
    ensures { CountedOn (marks_of program.now) can.now missing.old (get_or program.now.table.index.now (owner_at i) 0) i first missing.new result }
{
    if program.marks[i] != 1 {
        return first;
    }
    let t = program.table.owner(i);
    let left = missing[t];
    missing[t] = left + 1;
    lesser(can, t, left, first)
}

// The atom that joined last leaves the set, and is counted on again wherever it stands in a positive body. The lesser of `first` and the first clause
// asked for in whose positive body it stands and that lacked no atom.
fn put_back(closure: &mut Closure, program: &Marked, can: &[u8], first: usize) -> usize
    requires queued { IsQueued closure.old }
    requires some { 0 < closure.old.top }
    requires can { 2048 ≤ length can.now }
    requires room { HasRoom program.now closure.old }
    requires counted { Counted (words_of program.now) (marks_of program.now) (taken closure.old) closure.old.missing.now }
    ensures same_reference { IsSameClosure closure.old closure.new }
    ensures queued { IsQueued closure.new }
    ensures top { closure.old.top ≡ closure.new.top + 1 }
    ensures queue { closure.new.queue.now ≡ closure.old.queue.now }
    ensures room { HasRoom program.now closure.new }
    ensures counted { Counted (words_of program.now) (marks_of program.now) (taken closure.new) closure.new.missing.now }
    ensures lowest { Lowest (words_of program.now) (marks_of program.now) can.now (taken closure.old) (taken closure.new) first result }
{
    let atom = closure.leave();
    let missing = &mut *closure.missing;
    let mut least = first;
    for i in program.table.places(Part::Pos, atom) {
        least = count_on(program, i, can, least, missing);
    }
    least
}

// ---- all that followed is put back

// The atoms of the queue from `from` on are put back, the last one first; they leave the set and `todo`. The first clause asked for that lacked no atom,
// where `first` is that with the atoms before `from` alone.
pub fn take_back(
    closure: &mut Closure,
    program: &Marked,
    can: &[u8],
    first: usize,
    from: usize,
    todo: &mut [u8],
) -> usize
    requires can { 2048 ≤ length can.now }
    requires todo { 1024 ≤ length todo.old }
    requires from { from ≤ closure.old.top }
    requires queued { IsQueued closure.old }
    requires room { HasRoom program.now closure.old }
    requires counted { Counted (words_of program.now) (marks_of program.now) (taken closure.old) closure.old.missing.now }
    requires first { First (Full (words_of program.now) (marks_of program.now) can.now (take from closure.old.queue.now)) (clause_count program.now.table) first }
    ensures same_reference { IsSameClosure closure.old closure.new }
    ensures queued { IsQueued closure.new }
    ensures top { closure.new.top ≡ from }
    ensures queue { closure.new.queue.now ≡ closure.old.queue.now }
    ensures room { HasRoom program.now closure.new }
    ensures counted { Counted (words_of program.now) (marks_of program.now) (taken closure.new) closure.new.missing.now }
    ensures first { First (Full (words_of program.now) (marks_of program.now) can.now (taken closure.old)) (clause_count program.now.table) result }
    ensures cleared { Cleared (taken closure.old) todo.old todo.new }
{
    let mut least = first;
    while from < closure.top {
        least = put_back(closure, program, can, least);
        let atom = closure.queue[closure.top];
        todo[usize::from(atom)] = 0;
    }
    least
}
