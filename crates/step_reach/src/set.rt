// A set of atoms that grows, and the order in which its atoms joined.

ghost use Rattle.std.proofs.Props.{props};
ghost use Rattle.step_reach.specs.Counts.{Queued};

use step_parts::{Marked, Part};

// A set of atoms in lent arrays: a byte for each, and its atoms in the order in which they joined.
#[derive(Drop)]
pub struct AtomSet<'a> {
    pub bytes: &'a mut [u8],
    pub queue: &'a mut [u16],
    pub top: usize,
    pub ghost queued: { Queued bytes.now queue.now top } by { Prim.hlevel props },
}

impl<'a> AtomSet<'a> {
    ghost use Rattle.std.specs.Prelude.{◌≡◌, ◌+◌, ◌≤◌, ◌<◌, length, get_or, replicate, set};
    ghost use Rattle.semantics.specs.Lists.{◌∈◌};
    ghost use Rattle.step_parts.specs.Parts.{part_of};
    ghost use Rattle.step_parts.specs.Reading.{atom_count, clause_count, clause_of};
    ghost use Rattle.step_reach.specs.Growing.{HasJoined, IsSameSet};

    // The set that has no atom: every byte is cleared.
    pub fn new(bytes: &'a mut [u8], queue: &'a mut [u16]) -> AtomSet<'a>
        requires { 1024 ≤ length queue.old }
        ensures same_bytes { result.bytes.ghost_name ≡ bytes.entry.ghost_name }
        ensures same_queue { result.queue.ghost_name ≡ queue.entry.ghost_name }
        ensures bytes { result.bytes.now ≡ replicate (length bytes.old) 0 }
        ensures top { result.top ≡ 0 }
    {
        bytes.fill(0);
        AtomSet {
            bytes,
            queue,
            top: 0,
        }
    }

    // The atom joins the set, and the queue if it is new.
    pub fn join(&mut self, atom: u16)
        requires small { atom < 1024 }
        requires room { atom < length self.old.bytes.now }
        ensures same_reference { IsSameSet self.old self.new }
        ensures joined { HasJoined (λ a. a ≡ atom) self.old self.new }
    {
        let a = usize::from(atom);
        if self.bytes[a] == 1 {
            return;
        }
        let top = self.top;
        self.queue[top] = atom;
        self.bytes[a] = 1;
        self.top = top + 1;
    }

    // The atoms of a part of clause t join.
    pub fn join_part(&mut self, program: &Marked, t: usize, part: Part)
        requires clause { t < clause_count program.now.table }
        requires room { atom_count program.now.table ≤ length self.old.bytes.now }
        ensures same_reference { IsSameSet self.old self.new }
        ensures joined { HasJoined (λ a. a ∈ part_of part (clause_of program.now t)) self.old self.new }
    {
        for atom in program.atoms(t, part) {
            self.join(atom);
        }
    }

    // The atom that joined last leaves.
    pub fn leave(&mut self) -> u16
        requires { 0 < self.old.top }
        ensures same_reference { IsSameSet self.old self.new }
        ensures atom { result ≡ get_or self.old.queue.now self.new.top 0 }
        ensures top { self.old.top ≡ self.new.top + 1 }
        ensures bytes { self.new.bytes.now ≡ set self.old.bytes.now result 0 }
        ensures queue { self.new.queue.now ≡ self.old.queue.now }
    {
        let last = self.top - 1;
        let atom = self.queue[last];
        self.bytes[usize::from(atom)] = 0;
        self.top = last;
        atom
    }
}
