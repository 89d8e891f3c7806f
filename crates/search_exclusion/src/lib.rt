// The smallest step of kind 9, by target, then atom, with a memory of the constraints that exclude no atom.
// The atoms are tried in order. The closure of the facts is made once a search, grown by each atom and taken back. An atom among the consequences of an
// earlier one can't be better and is passed over; and once the best target is the first clause that can be one, no other atom is tried.
#![tactic(auto)]

ghost use Rattle.std.specs.Prelude.{◌≡◌, not, ◌&&◌, cond, Option, IfSome, ◌≤◌, ◌<◌, eqb, ltb, length};
ghost use Rattle.rewriting.specs.Marked.{entry};
ghost use Rattle.step_parts.specs.Reading.{atom_count, clause_count, program_of, words_of, marks_of};
ghost use Rattle.step_reach.specs.Bytes.{in_bytes};
ghost use Rattle.step_reach.specs.Growing.{HasRoom, IsSameClosure, IsSettled, taken};
ghost use Rattle.search_closure.specs.Back.{Full, First};
ghost use Rattle.step_exclusion.specs.Exclusions.{Narrowed};
ghost use Rattle.search_exclusion.specs.Smallest.{Smallest, Idle};
ghost use Rattle.search_exclusion.specs.Tries.{plain_kept, Targets, Unset, best_of, Trial, BestOf, Remembered};

use step_parts::Marked;
use step_reach::{Closure, Count};

// What the search finds: a constraint, and an atom that it excludes.
#[derive(Clone, Copy)]
pub struct Exclusion {
    pub target: u16,
    pub atom: u16,
}

// ---- the clauses that can be targets

// Whether clause t is not idle, is kept, and is a constraint with positive atoms and no negative ones.
fn is_target(program: &Marked, idle: &[u8], t: usize) -> bool
    requires clause { t < clause_count program.now.table }
    requires idle { 2048 ≤ length idle.now }
    ensures { result ≡ (not (in_bytes idle.now t) && plain_kept (entry (program_of program.now) t)) }
{
    idle[t] != 1 && program.kept(t) && step_exclusion::is_plain(program, t)
}

// Those clauses as bytes.
fn find_targets(program: &Marked, idle: &[u8], can: &mut [u8])
    requires idle { 2048 ≤ length idle.now }
    requires can { 2048 ≤ length can.old }
    requires known { Idle (atom_count program.now.table) (program_of program.now) idle.now }
    ensures { Targets (atom_count program.now.table) (program_of program.now) can.new }
{
    for t in 0..program.table.clause_count() {
        can[t] = u8::from(is_target(program, idle, t));
    }
}

// The place of the first byte that is 1, or the end.
fn first_set(bytes: &[u8], end: usize) -> usize
    requires { end ≤ length bytes.now }
    ensures { Unset bytes.now result }
{
    bytes[..end]
        .iter()
        .position(|byte| *byte == 1)
        .unwrap_or(end)
}

// ---- one atom

// The pair's target, or the number of clauses where there is none.
fn target_or(best: Option<Exclusion>, clauses: usize) -> usize
    ensures { result ≡ (best_of clauses best).target }
{
    match best {
        Some(pair) => usize::from(pair.target),
        None => clauses,
    }
}

// The better of the pair and clause t with the atom, where t is not the number of clauses.
fn better(t: usize, atom: u16, best: Option<Exclusion>, clauses: usize) -> Option<Exclusion>
    requires clauses { clauses < 65536 }
    requires known { IfSome best (λ pair. pair.target < clauses) }
    ensures better { best_of clauses result ≡ cond (ltb t (best_of clauses best).target) (record { target = t; atom = atom }) (best_of clauses best) }
    ensures known { IfSome result (λ pair. pair.target < clauses) }
{
    if t < target_or(best, clauses) {
        return Some(Exclusion {
            target: t as u16,
            atom,
        });
    }
    best
}

// The atom is tried: all that follows from it joins the closure of the facts, and is taken back. The better of the pair and the first target that fits;
// `full` is the first that fits the facts alone.
fn try_atom(
    closure: &mut Closure,
    definite: &Marked,
    can: &[u8],
    full: usize,
    atom: u16,
    best: Option<Exclusion>,
    todo: &mut [u8],
) -> Option<Exclusion>
    requires can { 2048 ≤ length can.now }
    requires todo { 1024 ≤ length todo.old }
    requires atom { atom < atom_count definite.now.table }
    requires known { IfSome best (λ pair. pair.target < clause_count definite.now.table) }
    requires room { HasRoom definite.now closure.old }
    requires settled { IsSettled definite.now closure.old }
    requires first { First (Full (words_of definite.now) (marks_of definite.now) can.now (taken closure.old)) (clause_count definite.now.table) full }
    ensures same_reference { IsSameClosure closure.old closure.new }
    ensures room { HasRoom definite.now closure.new }
    ensures trial { Trial (words_of definite.now) (marks_of definite.now) can.now atom (best_of (clause_count definite.now.table) best) todo.old todo.new (best_of (clause_count definite.now.table) result) }
    ensures known { IfSome result (λ pair. pair.target < clause_count definite.now.table) }
    ensures settled { IsSettled definite.now closure.new }
    ensures taken { taken closure.new ≡ taken closure.old }
{
    let top = closure.top;
    closure.close_with(definite, atom);
    let t = search_closure::take_back(closure, definite, can, full, top, todo);
    better(t, atom, best, definite.table.clause_count())
}

// ---- all atoms

// The best pair: the atoms in order, each with the first target that fits.
fn by_atoms(
    program: &Marked,
    definite: &Marked,
    can: &[u8],
    low: usize,
    full: usize,
    closure: &mut Closure,
) -> Option<Exclusion>
    requires table { definite.now.table ≡ program.now.table }
    requires narrowed { Narrowed (words_of program.now) (marks_of program.now) (marks_of definite.now) }
    requires can { 2048 ≤ length can.now }
    requires targets { Targets (atom_count program.now.table) (program_of program.now) can.now }
    requires low { Unset can.now low }
    requires room { HasRoom definite.now closure.old }
    requires settled { IsSettled definite.now closure.old }
    requires first { First (Full (words_of definite.now) (marks_of definite.now) can.now (taken closure.old)) (clause_count definite.now.table) full }
    ensures best { BestOf (atom_count program.now.table) (program_of program.now) (best_of (clause_count program.now.table) result) }
    ensures known { IfSome result (λ pair. pair.target < clause_count program.now.table) }
{
    let mut todo = [0u8; 1024];
    step_exclusion::fill_present(program, &mut todo);
    let mut best = None;
    for atom in 0..program.table.atom_count() {
        if target_or(best, program.table.clause_count()) <= low {
            return best;
        }
        if !step_reach::is_in(&todo, atom) {
            continue;
        }
        best = try_atom(closure, definite, can, full, atom, best, &mut todo);
    }
    best
}

// The same, with the closure of the facts. All arrays come first: one that is made after a call is cleared twice.
fn best_pair(program: &Marked, can: &[u8], low: usize) -> Option<Exclusion>
    requires can { 2048 ≤ length can.now }
    requires targets { Targets (atom_count program.now.table) (program_of program.now) can.now }
    requires low { Unset can.now low }
    ensures best { BestOf (atom_count program.now.table) (program_of program.now) (best_of (clause_count program.now.table) result) }
    ensures known { IfSome result (λ pair. pair.target < clause_count program.now.table) }
{
    let mut bytes = [0u8; 1024];
    let mut missing: [Count; 2048] = [0; 2048];
    let mut queue = [0u16; 1024];
    let mut marks = [0u8; 8192];
    step_exclusion::narrow(program, &mut marks);
    let definite = Marked {
        table: program.table,
        marks: &marks,
    };
    let mut closure = Closure::new(&definite, &mut bytes, &mut missing, &mut queue);
    let missing = &mut *closure.missing;
    let full = search_closure::first_full(&program.table, can, missing);
    by_atoms(program, &definite, can, low, full, &mut closure)
}

// ---- the search

// The targets before the end are idle from now on.
// Index loop: one slice is read and the other is written at the same place.
fn remember(can: &[u8], end: usize, idle: &mut [u8])
    requires can { end ≤ length can.now }
    requires idle { end ≤ length idle.old }
    ensures { Remembered can.now end idle.old idle.new }
{
    for t in 0..end {
        if can[t] != 1 {
            continue;
        }
        idle[t] = 1;
    }
}

// The smallest step of kind 9, by target, then atom. Afterwards the constraints before its target are idle.
pub fn first_exclusion(program: &Marked, idle: &mut [u8]) -> Option<Exclusion>
    requires room { 2048 ≤ length idle.old }
    requires known { Idle (atom_count program.now.table) (program_of program.now) idle.old }
    ensures smallest { Smallest (atom_count program.now.table) (program_of program.now) result }
    ensures known { Idle (atom_count program.now.table) (program_of program.now) idle.new }
{
    let mut can = [0u8; 2048];
    find_targets(program, idle, &mut can);
    let clauses = program.table.clause_count();
    let low = first_set(&can, clauses);
    if clauses <= low {
        return None;
    }
    let best = best_pair(program, &can, low);
    remember(&can, target_or(best, clauses), idle);
    best
}
