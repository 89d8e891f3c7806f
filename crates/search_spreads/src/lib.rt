// Which targets a partner or an atom flags: all that have a step with it, found by an atom that each of them has.
#![tactic(auto)]

ghost use Rattle.std.specs.Prelude.{◌≡◌, false, ◌+◌, ◌≤◌, ◌<◌, IsTrue};
ghost use Rattle.std.proofs.Math.Bool.{So};
ghost use Rattle.rewriting.specs.Steps.{step};
ghost use Rattle.rewriting.specs.Reducer.{eligible};
ghost use Rattle.rewriting.specs.Kinds.{on_target, uses_partner, number, subsumed};
ghost use Rattle.step_parts.specs.Reading.{atom_count, clause_count, words_of, marks_of, program_of};
ghost use Rattle.search_flags.specs.Flags.{Covered, Raising};
ghost use Rattle.step_kinds.specs.Kinds.{PartnerKind};
ghost use Rattle.search_spreads.specs.Spreads.{Clue, NoPartner, NoTarget, Spread, PartnerSpread};
ghost use Rattle.search_spreads.specs.Keys.{KnownFor, KeySpread};

use rewriting::Kind;
use search_flags::{Flags, Row};
use step_parts::{Marked, Part};

// A program, and what is known of it: the kept heads of each atom, and the reach.
#[derive(Clone, Copy)]
pub struct Facts<'a> {
    pub program: &'a Marked<'a>,
    pub heads: &'a [u16],
    pub reach: &'a [u8],
}

// The steps of a kind with a partner and an atom, one for each target: what a step names beside it.
#[derive(Clone, Copy)]
pub struct Key {
    pub kind: Kind,
    pub partner: usize,
    pub atom: u16,
}

// Whether the kind has a partner, and the target is it.
fn is_itself(kind: Kind, t: usize, p: usize) -> bool
    ensures { IsTrue result → (So (uses_partner kind)) × (p ≡ t) }
{
    kind.uses_partner() && p == t
}

// Whether clause t can be a target of the key: it is kept and, for a kind with a partner, another clause.
fn may_target(program: &Marked, key: Key, t: usize) -> bool
    requires target { t < clause_count program.now.table }
    ensures { result ≡ false → NoTarget (words_of program.now) (marks_of program.now) key.kind t key.partner }
{
    if is_itself(key.kind, t, key.partner) {
        return false;
    }
    program.kept(t)
}

// Whether the condition of the kind holds for target t, the partner and the atom, and the reducer does not pass the step over.
fn may_take(facts: &Facts, key: Key, t: usize) -> bool
    requires target { t < clause_count facts.now.program.now.table }
    requires partner { key.partner < clause_count facts.now.program.now.table }
    requires kind { So (on_target key.kind) }
    requires known { KnownFor facts.now key.kind }
    ensures { result ≡ false → ¬ So (eligible (atom_count facts.now.program.now.table) (program_of facts.now.program.now) (step key.kind t key.partner key.atom)) }
{
    if !step_conditions::holds(
        facts.program,
        facts.heads,
        facts.reach,
        key.kind,
        t,
        key.partner,
        key.atom,
    ) {
        return false;
    }
    !search_passed::passed_over(facts.program, key.kind, t, key.partner)
}

// Flags the target t of the key, if its step applies and is not passed over.
fn spread_one(facts: &Facts, flags: &mut Flags, key: Key, t: usize)
    requires target { t < clause_count facts.now.program.now.table }
    requires partner { key.partner < clause_count facts.now.program.now.table }
    requires kind { So (on_target key.kind) }
    requires known { KnownFor facts.now key.kind }
    ensures raising { Raising flags.old flags.new (number key.kind) (t + 1) }
    ensures covered { So (eligible (atom_count facts.now.program.now.table) (program_of facts.now.program.now) (step key.kind t key.partner key.atom)) → Covered flags.new (number key.kind) t key.partner }
{
    if flags.covered(Row::Target(key.kind), t, key.partner) {
        return;
    }
    if !may_target(facts.program, key, t) {
        return;
    }
    if !may_take(facts, key, t) {
        return;
    }
    flags.cover(Row::Target(key.kind), t, key.partner);
}

// Flags every target of the key.
fn spread(facts: &Facts, flags: &mut Flags, key: Key)
    requires partner { key.partner < clause_count facts.now.program.now.table }
    requires kind { So (on_target key.kind) }
    requires known { KnownFor facts.now key.kind }
    ensures { KeySpread facts.now.program.now flags.old flags.new key }
{
    // A loop over clauses: the number is what `spread_one` takes, and no element is indexed here.
    for t in 0..facts.program.table.clause_count() {
        spread_one(facts, flags, key, t);
    }
}

// The same as `spread`, where every target has atom a in a part: its places are walked.
pub fn spread_along(facts: &Facts, flags: &mut Flags, key: Key, part: Part, a: u16)
    requires partner { key.partner < clause_count facts.now.program.now.table }
    requires kind { So (on_target key.kind) }
    requires known { KnownFor facts.now key.kind }
    requires atom { a < 1024 }
    requires clue { Clue (words_of facts.now.program.now) (marks_of facts.now.program.now) key.kind key.partner key.atom part a }
    ensures { KeySpread facts.now.program.now flags.old flags.new key }
{
    for i in facts.program.table.places(part, a) {
        spread_one(facts, flags, key, facts.program.table.owner(i));
    }
}

// Whether clause x may be a partner of the kind: it is kept and, for kinds 3 and 5, a fact.
pub fn may_partner(program: &Marked, kind: Kind, x: usize) -> bool
    requires clause { x < clause_count program.now.table }
    requires kind { PartnerKind kind }
    ensures { result ≡ false → NoPartner (words_of program.now) (marks_of program.now) kind x }
{
    if !program.kept(x) {
        return false;
    }
    match kind {
        Kind::Subsumed => true,
        _ => step_conditions::is_fact(program, x),
    }
}

// Kind 8: the targets of a partner without a head, by an atom of its body.
fn spread_body(facts: &Facts, flags: &mut Flags, x: usize)
    requires { x < clause_count facts.now.program.now.table }
    ensures { Spread (words_of facts.now.program.now) (marks_of facts.now.program.now) flags.old flags.new subsumed x 0 }
{
    let key = Key {
        kind: Kind::Subsumed,
        partner: x,
        atom: 0,
    };
    if !facts.program.empty(x, Part::Pos) {
        let a = step_conditions::first_atom(facts.program, x, Part::Pos);
        spread_along(facts, flags, key, Part::Pos, a);
        return;
    }
    if !facts.program.empty(x, Part::Neg) {
        let a = step_conditions::first_atom(facts.program, x, Part::Neg);
        spread_along(facts, flags, key, Part::Neg, a);
        return;
    }
    spread(facts, flags, key);
}

// The targets of a partner, by its first head atom.
pub fn spread_partner(facts: &Facts, flags: &mut Flags, kind: Kind, x: usize)
    requires clause { x < clause_count facts.now.program.now.table }
    requires kind { PartnerKind kind }
    ensures { PartnerSpread (words_of facts.now.program.now) (marks_of facts.now.program.now) flags.old flags.new kind x }
{
    if !facts.program.empty(x, Part::Head) {
        let a = step_conditions::first_atom(facts.program, x, Part::Head);
        let key = Key {
            kind,
            partner: x,
            atom: step_kinds::named_atom(kind, a),
        };
        spread_along(facts, flags, key, step_kinds::target_part(kind), a);
        return;
    }
    let key = Key {
        kind,
        partner: x,
        atom: 0,
    };
    match kind {
        Kind::Subsumed => spread_body(facts, flags, x),
        Kind::Success => {}
        _ => spread(facts, flags, key),
    }
}
