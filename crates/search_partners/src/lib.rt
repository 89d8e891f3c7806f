// One clause's atoms stamped in an array, and whether a partner of kind 3, 5 or 8 fits the clause that is stamped.
#![tactic(auto)]

ghost use Rattle.std.specs.Prelude.{◌≡◌, ◌≢◌, ◌&&◌, ◌+◌, ◌≤◌, ◌<◌, List, ℕ, length, set, replicate};
ghost use Rattle.std.proofs.Math.Bool.{So};
ghost use Rattle.semantics.specs.Lists.{all, single};
ghost use Rattle.rewriting.specs.Steps.{fact, condition_holds};
ghost use Rattle.rewriting.specs.Reducer.{eligible};
ghost use Rattle.rewriting.specs.Search.{step_with};
ghost use Rattle.rewriting.specs.Kinds.{subsumed};
ghost use Rattle.step_parts.specs.Parts.{part_of};
ghost use Rattle.step_parts.specs.declared.Part.{Part};
ghost use Rattle.step_parts.specs.Reading.{atom_count, clause_count, program_of, clause_of, is_kept};
ghost use Rattle.search_partners.specs.Stamps.{offset_of, stamped, is_stamped, all_stamped, Stamps};
ghost use Rattle.step_kinds.specs.Kinds.{PartnerKind};

use rewriting::Kind;
use std::marker::Model;
use step_parts::{Marked, Part};

// ---- the atoms of a clause, stamped

// A byte for each part and atom, 1 where the part has the atom. Clauses see the bytes.
#[derive(Drop)]
pub struct Stamped {
    pub bytes: [u8; 3072],
}

impl Model for Stamped {
    ghost Value = { List ℕ };

    ghost view = { λ s. s.bytes };
}

// Where the stamp of an atom in a part is kept.
fn place_of(part: Part, atom: u16) -> usize
    ensures { result ≡ offset_of part + atom }
{
    let a = usize::from(atom);
    match part {
        Part::Head => a,
        Part::Pos => 1024 + a,
        Part::Neg => 2048 + a,
    }
}

impl Stamped {
    // No atom is stamped.
    pub fn new() -> Self
        ensures { result ≡ replicate 3072 0 }
    {
        Stamped { bytes: [0; 3072] }
    }

    // Stamps the three parts of clause t, where no atom is stamped yet. The stamps are filled where they stand: those of a clause, returned, would be copied.
    pub fn stamp_clause(&mut self, program: &Marked, t: usize)
        requires clause { t < clause_count program.now.table }
        requires none { self.old ≡ replicate 3072 0 }
        ensures stamps { Stamps (clause_of program.now t) self.new }
        ensures long { length self.new ≡ 3072 }
    {
        self.stamp(program, t, Part::Head);
        self.stamp(program, t, Part::Pos);
        self.stamp(program, t, Part::Neg);
    }

    // Stamps an atom of a part.
    fn set(&mut self, part: Part, atom: u16)
        ensures { self.new ≡ set self.old (offset_of part + atom) 1 }
    {
        let at = place_of(part, atom);
        if at < self.bytes.len() {
            self.bytes[at] = 1;
        }
    }

    // Stamps a part of clause t.
    fn stamp(&mut self, program: &Marked, t: usize, part: Part)
        requires { t < clause_count program.now.table }
        ensures { self.new ≡ stamped self.old (offset_of part) (part_of part (clause_of program.now t)) }
    {
        for atom in program.atoms(t, part) {
            self.set(part, atom);
        }
    }

    // Whether the atom is stamped in that part.
    fn has(&self, part: Part, atom: u16) -> bool
        ensures { result ≡ is_stamped self.now (offset_of part) atom }
    {
        self.bytes
            .get(place_of(part, atom))
            .is_some_and(|byte| *byte == 1)
    }

    // Whether every atom of a part of clause p is stamped in such a part.
    fn has_all(&self, part: Part, program: &Marked, p: usize, of_p: Part) -> bool
        requires { p < clause_count program.now.table }
        ensures { result ≡ all (is_stamped self.now (offset_of part)) (part_of of_p (clause_of program.now p)) }
    {
        program.atoms(p, of_p).all(|atom| self.has(part, atom))
    }

    // ---- a partner by its stamps

    // Whether all three parts of clause p are stamped.
    fn has_clause(&self, program: &Marked, p: usize) -> bool
        requires { p < clause_count program.now.table }
        ensures { result ≡ all_stamped self.now (clause_of program.now p) }
    {
        self.has_all(Part::Head, program, p, Part::Head)
            && self.has_all(Part::Pos, program, p, Part::Pos)
            && self.has_all(Part::Neg, program, p, Part::Neg)
    }

    // Whether clause p has exactly one head atom, which is stamped as a positive one.
    fn has_single(&self, program: &Marked, p: usize) -> bool
        requires { p < clause_count program.now.table }
        ensures { result ≡ single (is_stamped self.now 1024) (clause_of program.now p).head }
    {
        match program.only(p, Part::Head) {
            Some(atom) => self.has(Part::Pos, atom),
            None => false,
        }
    }

    // Whether clause p, if it is a fact, serves kind 3 or 5 at the target that is stamped.
    fn fact_fits(&self, program: &Marked, kind: Kind, t: usize, p: usize) -> bool
        requires partner { p < clause_count program.now.table }
        requires stamped { Stamps (clause_of program.now t) self.now }
        requires kind { PartnerKind kind }
        requires not_eight { kind ≢ subsumed }
        ensures { (fact (clause_of program.now p) && result) ≡ condition_holds (program_of program.now) (step_with (program_of program.now) kind t p) }
    {
        match kind {
            Kind::Success => self.has_single(program, p),
            _ => self.has_all(Part::Neg, program, p, Part::Head),
        }
    }

    // Whether the condition of kind 3, 5 or 8 holds of the target that is stamped and the partner p.
    fn partner_fits(&self, program: &Marked, kind: Kind, t: usize, p: usize) -> bool
        requires partner { p < clause_count program.now.table }
        requires stamped { Stamps (clause_of program.now t) self.now }
        requires kind { PartnerKind kind }
        ensures { result ≡ condition_holds (program_of program.now) (step_with (program_of program.now) kind t p) }
    {
        match kind {
            Kind::Subsumed => self.has_clause(program, p),
            _ => self.fact_fits(program, kind, t, p) && step_conditions::is_fact(program, p),
        }
    }

    // Whether the step of kind 3, 5 or 8 with the kept target that is stamped and the partner p, which settles its atom, applies and is not passed over.
    pub fn partner_eligible(&self, program: &Marked, kind: Kind, t: usize, p: usize) -> bool
        requires partner { p < clause_count program.now.table }
        requires stamped { Stamps (clause_of program.now t) self.now }
        requires kind { PartnerKind kind }
        requires kept { So (is_kept program.now t) }
        ensures { result ≡ eligible (atom_count program.now.table) (program_of program.now) (step_with (program_of program.now) kind t p) }
    {
        if p == t {
            return false;
        }
        if !program.kept(p) {
            return false;
        }
        if !self.partner_fits(program, kind, t, p) {
            return false;
        }
        !search_passed::passed_over(program, kind, t, p)
    }
}
