// The reach with its counts and its queue, to go on from.

use crate::AtomSet;
use step_parts::{Marked, Part};

// A count of the positive atoms of a clause. A byte is too small: a clause may have more than 255.
pub type Count = u16;

// A set of atoms in lent arrays, and for each clause how many of its positive atoms are not yet taken from the queue.
// The set's arrays are fields beside the counts, and no AtomSet within: so a caller's proof sees that they are those which it lent.
#[derive(Drop)]
pub struct Closure<'a> {
    pub bytes: &'a mut [u8],
    pub queue: &'a mut [u16],
    pub top: usize,
    pub missing: &'a mut [Count],
}

impl<'a> Closure<'a> {
    ghost use Rattle.std.specs.Prelude.{◌≡◌, ℕ, ◌+◌, ◌≤◌, ◌<◌, length, get_or, set};
    ghost use Rattle.std.proofs.Math.Bool.{So};
    ghost use Rattle.semantics.specs.Lists.{◌∈◌};
    ghost use Rattle.rewriting.specs.Marked.{entry};
    ghost use Rattle.step_parts.specs.Parts.{owner_at};
    ghost use Rattle.step_parts.specs.Reading.{atom_count, clause_count, clause_of, program_of, words_of, marks_of};
    ghost use Rattle.step_reach.specs.Bytes.{in_bytes};
    ghost use Rattle.step_reach.specs.Counts.{CountRoom, Fired, Due};
    ghost use Rattle.step_reach.specs.Growing.{IsQueued, HasRoom, HasGained, HasSpread, IsSameClosure, Leaves, HasLowered, IsSettled, IsSettledWith};

    // The reach, with every atom of it taken.
    // It works on a copy of the program: what is lent would be read again after every byte that is written.
    pub fn new(
        program: &Marked,
        bytes: &'a mut [u8],
        missing: &'a mut [Count],
        queue: &'a mut [u16],
    ) -> Closure<'a>
        requires room { CountRoom (words_of program.now) bytes.old missing.old }
        requires queue { 1024 ≤ length queue.old }
        ensures same_bytes { result.bytes.ghost_name ≡ bytes.entry.ghost_name }
        ensures same_missing { result.missing.ghost_name ≡ missing.entry.ghost_name }
        ensures same_queue { result.queue.ghost_name ≡ queue.entry.ghost_name }
        ensures room { HasRoom program.now result }
        ensures settled { IsSettled program.now result }
    {
        bytes.fill(0);
        let mut closure = Closure {
            bytes,
            queue,
            top: 0,
            missing,
        };
        let program = *program;
        closure.begin(&program);
        closure.close(&program, 0);
        closure
    }

    // How many positive atoms clause t has.
    fn count_pos(program: &Marked, t: usize) -> Count
        requires { t < clause_count program.now.table }
        ensures { result ≡ length (clause_of program.now t).pos }
    {
        program.atoms(t, Part::Pos).count() as Count
    }

    // The atom joins the set, and the queue if it is new.
    fn join(&mut self, atom: u16)
        requires queued { IsQueued self.old }
        requires small { atom < 1024 }
        requires room { atom < length self.old.bytes.now }
        ensures same_reference { IsSameClosure self.old self.new }
        ensures joined { HasGained (λ a. a ≡ atom) self.old self.new }
        ensures missing { self.new.missing.now ≡ self.old.missing.now }
    {
        let mut set = AtomSet {
            bytes: &mut *self.bytes,
            queue: &mut *self.queue,
            top: self.top,
        };
        set.join(atom);
        self.top = set.top;
    }

    // The head of clause t joins.
    fn join_head(&mut self, program: &Marked, t: usize)
        requires queued { IsQueued self.old }
        requires clause { t < clause_count program.now.table }
        requires room { atom_count program.now.table ≤ length self.old.bytes.now }
        ensures same_reference { IsSameClosure self.old self.new }
        ensures joined { HasGained (λ a. a ∈ (clause_of program.now t).head) self.old self.new }
        ensures missing { self.new.missing.now ≡ self.old.missing.now }
    {
        let mut set = AtomSet {
            bytes: &mut *self.bytes,
            queue: &mut *self.queue,
            top: self.top,
        };
        set.join_part(program, t, Part::Head);
        self.top = set.top;
    }

    // The head of clause t joins where the clause is kept and its count is 0.
    fn settle(&mut self, program: &Marked, t: usize, left: Count)
        requires queued { IsQueued self.old }
        requires clause { t < clause_count program.now.table }
        requires room { atom_count program.now.table ≤ length self.old.bytes.now }
        requires last { left ≡ 0 → (a : ℕ) → a ∈ (clause_of program.now t).pos → So (in_bytes self.old.bytes.now a) }
        ensures same_reference { IsSameClosure self.old self.new }
        ensures spread { HasSpread program.now self.old self.new }
        ensures fired { Fired self.new.bytes.now (entry (program_of program.now) t) left }
        ensures missing { self.new.missing.now ≡ self.old.missing.now }
    {
        if left != 0 {
            return;
        }
        if !program.kept(t) {
            return;
        }
        self.join_head(program, t);
    }

    // Clause t is counted.
    fn enter(&mut self, program: &Marked, t: usize)
        requires clause { t < clause_count program.now.table }
        requires room { HasRoom program.now self.old }
        requires counted { Leaves program.now t 0 self.old }
        ensures same_reference { IsSameClosure self.old self.new }
        ensures spread { HasSpread program.now self.old self.new }
        ensures counted { Leaves program.now (t + 1) 0 self.new }
        ensures room { HasRoom program.now self.new }
    {
        let left = Self::count_pos(program, t);
        self.missing[t] = left;
        self.settle(program, t, left);
    }

    // Every clause is counted.
    fn begin(&mut self, program: &Marked)
        requires room { HasRoom program.now self.old }
        requires counted { Leaves program.now 0 0 self.old }
        ensures same_reference { IsSameClosure self.old self.new }
        ensures spread { HasSpread program.now self.old self.new }
        ensures counted { Leaves program.now (clause_count program.now.table) 0 self.new }
        ensures room { HasRoom program.now self.new }
    {
        for t in 0..program.table.clause_count() {
            self.enter(program, t);
        }
    }

    // The atom at place i, if it is kept, is counted off in its clause.
    fn lower(&mut self, program: &Marked, i: usize)
        requires queued { IsQueued self.old }
        requires place { i < length (words_of program.now) }
        requires clause { get_or program.now.table.index.now (owner_at i) 0 < clause_count program.now.table }
        requires room { HasRoom program.now self.old }
        requires due { Due (words_of program.now) (marks_of program.now) self.old.bytes.now self.old.missing.now (get_or program.now.table.index.now (owner_at i) 0) i }
        ensures same_reference { IsSameClosure self.old self.new }
        ensures lowered { HasLowered program.now (get_or program.now.table.index.now (owner_at i) 0) i self.old self.new }
        ensures room { HasRoom program.now self.new }
    {
        if program.marks[i] != 1 {
            return;
        }
        let t = program.table.owner(i);
        let left = self.missing[t] - 1;
        self.missing[t] = left;
        self.settle(program, t, left);
    }

    // Atom k of the queue is taken: it is counted off wherever it stands in a positive body.
    fn take_atom(&mut self, program: &Marked, k: usize)
        requires there { k < self.old.top }
        requires room { HasRoom program.now self.old }
        requires taken { Leaves program.now (clause_count program.now.table) k self.old }
        ensures same_reference { IsSameClosure self.old self.new }
        ensures spread { HasSpread program.now self.old self.new }
        ensures taken { Leaves program.now (clause_count program.now.table) (k + 1) self.new }
        ensures room { HasRoom program.now self.new }
    {
        for i in program.table.places(Part::Pos, self.queue[k]) {
            self.lower(program, i);
        }
    }

    // The queue is worked off from atom `from` on.
    fn close(&mut self, program: &Marked, from: usize)
        requires room { HasRoom program.now self.old }
        requires taken { Leaves program.now (clause_count program.now.table) from self.old }
        ensures same_reference { IsSameClosure self.old self.new }
        ensures spread { HasSpread program.now self.old self.new }
        ensures taken { Leaves program.now (clause_count program.now.table) self.new.top self.new }
        ensures room { HasRoom program.now self.new }
    {
        let mut k = from;
        while k < self.top {
            self.take_atom(program, k);
            k += 1;
        }
    }

    // One atom more, and all that follows from it.
    pub fn close_with(&mut self, program: &Marked, atom: u16)
        requires atom { atom < atom_count program.now.table }
        requires room { HasRoom program.now self.old }
        requires settled { IsSettled program.now self.old }
        ensures same_reference { IsSameClosure self.old self.new }
        ensures settled { IsSettledWith program.now atom self.old self.new }
        ensures room { HasRoom program.now self.new }
    {
        let top = self.top;
        self.join(atom);
        self.close(program, top);
    }

    // The atom that joined last leaves.
    pub fn leave(&mut self) -> u16
        requires queued { IsQueued self.old }
        requires some { 0 < self.old.top }
        ensures same_reference { IsSameClosure self.old self.new }
        ensures queued { IsQueued self.new }
        ensures atom { result ≡ get_or self.old.queue.now self.new.top 0 }
        ensures top { self.old.top ≡ self.new.top + 1 }
        ensures bytes { self.new.bytes.now ≡ set self.old.bytes.now result 0 }
        ensures queue { self.new.queue.now ≡ self.old.queue.now }
        ensures missing { self.new.missing.now ≡ self.old.missing.now }
    {
        let mut set = AtomSet {
            bytes: &mut *self.bytes,
            queue: &mut *self.queue,
            top: self.top,
        };
        let atom = set.leave();
        self.top = set.top;
        atom
    }
}
