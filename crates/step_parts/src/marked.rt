// A table that passed, with its index and its marks, and tests on its clauses.

ghost use Rattle.std.specs.Prelude.{◌≤◌, length};
ghost use Rattle.std.proofs.Props.{props};
ghost use Rattle.step_parts.specs.Parts.{Placed};

use crate::linking::{BEFORE, OWNER, build_index, last_at};
use crate::{Atoms, Bounds, Kept, Part, Places, part_at, part_empty, part_single};

// A table that passed, and its index.
#[derive(Clone, Copy)]
pub struct Indexed<'a> {
    pub words: &'a [u16],
    pub index: &'a [u16],
    pub ghost placed: { Placed words.now index.now } by { Prim.hlevel props },
}

// The same with a mark for each word.
#[derive(Clone, Copy)]
pub struct Marked<'a> {
    pub table: Indexed<'a>,
    pub marks: &'a [u8],
    pub ghost long: { length table.words.now ≤ length marks.now },
}

impl<'a> Indexed<'a> {
    ghost use Rattle.std.specs.Prelude.{◌≡◌, ℕ, ◌<◌, get_or};
    ghost use Rattle.table.specs.Questions.{Passed};
    ghost use Rattle.table.specs.Places.{next_at, start_of};
    ghost use Rattle.step_parts.specs.Parts.{Spanned, Stands, owner_at, Latest};
    ghost use Rattle.step_parts.specs.declared.Part.{Part};
    ghost use Rattle.step_parts.specs.Reading.{atom_count, clause_count};

    // A table with the index that is built for it.
    pub fn new(words: &'a [u16], index: &'a mut [u16]) -> Indexed<'a>
        requires passed { Passed words.now }
        requires long { 21505 ≤ length index.old }
        ensures { result.words.now ≡ words.now }
    {
        build_index(words, index);
        Indexed { words, index }
    }

    // How many clauses the table has.
    pub fn clause_count(&self) -> usize
        ensures { result ≡ clause_count self.now }
    {
        usize::from(self.words[1])
    }

    // How many atoms the table has.
    pub fn atom_count(&self) -> u16
        ensures { result ≡ atom_count self.now }
    {
        self.words[0]
    }

    // The last place where the atom stands in such a part, 0 for none.
    pub fn last_place(&self, part: Part, atom: u16) -> usize
        requires { atom < 1024 }
        ensures { Latest self.now.words.now self.now.index.now part atom (length self.now.words.now) result }
    {
        usize::from(self.index[last_at(part, atom)])
    }

    // The place before place i of the same atom in the same part, 0 for none.
    pub fn place_before(&self, i: usize) -> usize
        requires { i < length self.now.words.now }
        ensures { (x : Part) (a t : ℕ) → Stands self.now.words.now x a t i → Latest self.now.words.now self.now.index.now x a i result }
    {
        usize::from(self.index[BEFORE + i])
    }

    // The places of the atom in such a part, from the last one down.
    pub fn places(&self, part: Part, atom: u16) -> Places<'a>
        requires { atom < 1024 }
        ensures of { (result.table ≡ self.now) × (result.part ≡ part) × (result.atom ≡ atom) }
        ensures last { Latest self.now.words.now self.now.index.now part atom (length self.now.words.now) result.at }
    {
        Places {
            table: *self,
            part,
            atom,
            at: self.last_place(part, atom),
        }
    }

    // The clause of place i.
    pub fn owner(&self, i: usize) -> usize
        requires { i < length self.now.words.now }
        ensures { result ≡ get_or self.now.index.now (owner_at i) 0 }
    {
        usize::from(self.index[OWNER + i])
    }

    // The first word of clause t.
    pub fn first_word(&self, t: usize) -> usize
        requires { t < clause_count self.now }
        ensures is { result ≡ start_of self.now.words.now t }
        ensures fits { next_at self.now.words.now result ≤ length self.now.words.now }
    {
        usize::from(self.index[t])
    }

    // The words of a part of clause t.
    pub fn span(&self, t: usize, part: Part) -> Bounds
        requires { t < clause_count self.now }
        ensures { Spanned self.now.words.now t part result }
    {
        part_at(self.words, self.first_word(t), part)
    }
}

impl<'a> Marked<'a> {
    ghost use Rattle.std.specs.Prelude.{◌≡◌, ◌<◌};
    ghost use Rattle.semantics.specs.Lists.{mem, within, null};
    ghost use Rattle.table.specs.Slices.{kept_of};
    ghost use Rattle.step_parts.specs.Parts.{part_of, single_of};
    ghost use Rattle.step_parts.specs.Reading.{clause_count, clause_of, is_kept};

    // Whether clause t is kept.
    pub fn kept(&self, t: usize) -> bool
        requires { t < clause_count self.now.table }
        ensures { result ≡ is_kept self.now t }
    {
        self.marks[self.table.first_word(t)] == 1
    }

    // A part of clause t: its words and its marks.
    pub fn part(&self, t: usize, part: Part) -> Atoms<'a>
        requires { t < clause_count self.now.table }
        ensures { kept_of result.words.now result.marks.now ≡ part_of part (clause_of self.now t) }
    {
        let s = self.table.span(t, part);
        let a = s.from;
        let b = s.end;
        Atoms {
            words: &self.table.words[a..b],
            marks: &self.marks[a..b],
        }
    }

    // The kept atoms of a part of clause t, one after the other.
    pub fn atoms(&self, t: usize, part: Part) -> Kept<'a>
        requires { t < clause_count self.now.table }
        ensures { kept_of result.words.now result.marks.now ≡ part_of part (clause_of self.now t) }
    {
        self.part(t, part).kept()
    }

    // Whether the part of clause t has the atom.
    pub fn has(&self, t: usize, part: Part, atom: u16) -> bool
        requires { t < clause_count self.now.table }
        ensures { result ≡ mem atom (part_of part (clause_of self.now t)) }
    {
        self.part(t, part).has(atom)
    }

    // Whether the part of clause t has no atom.
    pub fn empty(&self, t: usize, part: Part) -> bool
        requires { t < clause_count self.now.table }
        ensures { result ≡ null (part_of part (clause_of self.now t)) }
    {
        let atoms = self.part(t, part);
        part_empty(atoms.words, atoms.marks)
    }

    // The only atom of the part of clause t.
    pub fn only(&self, t: usize, part: Part) -> Option<u16>
        requires { t < clause_count self.now.table }
        ensures { result ≡ single_of (part_of part (clause_of self.now t)) }
    {
        let atoms = self.part(t, part);
        part_single(atoms.words, atoms.marks)
    }

    // Whether every atom of a part of clause p is in a part of clause t.
    pub fn inside(&self, p: usize, of_p: Part, t: usize, of_t: Part) -> bool
        requires partner { p < clause_count self.now.table }
        requires target { t < clause_count self.now.table }
        ensures { result ≡ within (part_of of_p (clause_of self.now p)) (part_of of_t (clause_of self.now t)) }
    {
        self.part(p, of_p).within(&self.part(t, of_t))
    }
}
