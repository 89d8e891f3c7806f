// What the search of kind 9 remembers from step to step: the constraints that exclude no atom stay so, but where a clause gets definite, by which more may follow.
// Then what may follow by it is found, from its head on: the constraints with such an atom are no longer known to be idle.
#![tactic(auto)]

ghost use Rattle.std.specs.Prelude.{◌≡◌, false, ◌≤◌, ◌<◌, length, get_or};
ghost use Rattle.rewriting.specs.Marked.{entry};
ghost use Rattle.table.specs.View.{view};
ghost use Rattle.table.specs.Clearing.{marks_without};
ghost use Rattle.step_parts.specs.Parts.{owner_at};
ghost use Rattle.step_parts.specs.Reading.{atom_count, clause_count, program_of, words_of};
ghost use Rattle.step_reach.specs.Bytes.{in_bytes};
ghost use Rattle.search_exclusion.specs.Smallest.{Idle};
ghost use Rattle.search_exclusion.specs.Tries.{Unset};
ghost use Rattle.search_idle.specs.Forgets.{definite_kept, Heads, HasGrown, Forgot, GoesOn, Met, MetAt, Spread, HeadsWith, Forgets};

use step_parts::{Indexed, Marked, Part};
use step_reach::AtomSet;

// ---- clauses that are met

// Whether clause t is kept and has one head atom and no negative atoms.
fn fires(program: &Marked, t: usize) -> bool
    requires { t < clause_count program.now.table }
    ensures { result ≡ definite_kept (entry (program_of program.now) t) }
{
    program.kept(t) && step_exclusion::is_definite(program, t)
}

// The head of clause t joins where the clause is kept and definite.
fn join_head(set: &mut AtomSet, program: &Marked, t: usize)
    requires clause { t < clause_count program.now.table }
    requires room { atom_count program.now.table ≤ length set.old.bytes.now }
    ensures grown { HasGrown set.old set.new }
    ensures head { Heads (in_bytes set.new.bytes.now) (entry (program_of program.now) t) }
{
    if !fires(program, t) {
        return;
    }
    set.join_part(program, t, Part::Head);
}

// Clause t is no longer known to be idle.
fn forget(idle: &mut [u8], t: usize)
    ensures { Forgot idle.old t idle.new }
{
    if t < idle.len() {
        idle[t] = 0;
    }
}

// The clause of place i is forgotten, and its head joins.
fn meet(set: &mut AtomSet, program: &Marked, i: usize, idle: &mut [u8])
    requires place { i < length (words_of program.now) }
    requires clause { get_or program.now.table.index.now (owner_at i) 0 < clause_count program.now.table }
    requires room { atom_count program.now.table ≤ length set.old.bytes.now }
    ensures onward { GoesOn set.old idle.old set.new idle.new }
    ensures met { Met (program_of program.now) (in_bytes set.new.bytes.now) idle.new (get_or program.now.table.index.now (owner_at i) 0) }
{
    let t = program.table.owner(i);
    forget(idle, t);
    join_head(set, program, t);
}

// ---- the places of an atom, and of those that may follow

// So with each clause that has the atom in that part, also where it was dropped.
fn spread_atom(set: &mut AtomSet, program: &Marked, part: Part, atom: u16, idle: &mut [u8])
    requires atom { atom < 1024 }
    requires room { atom_count program.now.table ≤ length set.old.bytes.now }
    ensures onward { GoesOn set.old idle.old set.new idle.new }
    ensures met { MetAt (words_of program.now) (program_of program.now) part atom set.new.bytes.now idle.new }
{
    for i in program.table.places(part, atom) {
        meet(set, program, i, idle);
    }
}

// So with each clause that has an atom of the queue in its positive body: each atom that joins is taken once.
fn spread(set: &mut AtomSet, program: &Marked, idle: &mut [u8])
    requires { atom_count program.now.table ≤ length set.old.bytes.now }
    ensures { Spread (program_of program.now) set.old.bytes.now idle.old set.new.bytes.now idle.new }
{
    let mut k: usize = 0;
    while k < set.top {
        let atom = set.queue[k];
        spread_atom(set, program, Part::Pos, atom, idle);
        k += 1;
    }
}

// ---- the steps

// Whether some constraint is idle: each byte is looked at, so that the machine may look at many at once.
fn any_idle(idle: &[u8]) -> bool
    ensures { result ≡ false → Unset idle.now (length idle.now) }
{
    let mut any = false;
    for byte in idle {
        any |= *byte == 1;
    }
    any
}

// What may follow now that the atom is dropped from heads and negative bodies, and did not before: the constraints with such an atom are no longer known to be idle.
fn forget_without(program: &Marked, atom: u16, idle: &mut [u8])
    ensures { Forgets (HeadsWith (words_of program.now) (program_of program.now) atom) (program_of program.now) idle.old idle.new }
{
    if 1024 <= atom {
        return;
    }
    let mut bytes = [0u8; 1024];
    let mut queue = [0u16; 1024];
    let mut set = AtomSet::new(&mut bytes, &mut queue);
    spread_atom(&mut set, program, Part::Head, atom, idle);
    spread_atom(&mut set, program, Part::Neg, atom, idle);
    spread(&mut set, program, idle);
}

// The same from the head of clause t on.
fn forget_from(program: &Marked, t: usize, idle: &mut [u8])
    requires { t < clause_count program.now.table }
    ensures { Forgets (λ F. Heads F (entry (program_of program.now) t)) (program_of program.now) idle.old idle.new }
{
    let mut bytes = [0u8; 1024];
    let mut queue = [0u16; 1024];
    let mut set = AtomSet::new(&mut bytes, &mut queue);
    set.join_part(program, t, Part::Head);
    spread(&mut set, program, idle);
}

// After a drop in clause t, which alone may have got definite by it.
pub fn forget_at(program: &Marked, t: usize, idle: &mut [u8])
    requires { t < clause_count program.now.table }
    ensures { Forgets (λ F. Heads F (entry (program_of program.now) t)) (program_of program.now) idle.old idle.new }
{
    if !fires(program, t) {
        return;
    }
    if !any_idle(idle) {
        return;
    }
    forget_from(program, t, idle);
}

// The step's effect on the marks. What is idle stays so, but for the constraints that a clause which gets definite may concern.
pub fn exclude_atom(table: &Indexed, marks: &mut [u8], atom: u16, idle: &mut [u8])
    requires marks { length table.now.words.now ≤ length marks.old }
    requires known { Idle (atom_count table.now) (view table.now.words.now marks.old) idle.old }
    ensures marks { marks.new ≡ marks_without table.now.words.now marks.old atom }
    ensures known { Idle (atom_count table.now) (view table.now.words.now marks.new) idle.new }
{
    step_exclusion::remove_atom(table, marks, atom);
    if !any_idle(idle) {
        return;
    }
    let program = Marked {
        table: *table,
        marks,
    };
    forget_without(&program, atom, idle);
}
