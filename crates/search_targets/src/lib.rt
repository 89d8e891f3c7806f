// The search of one kind: its flagged targets in order, each with its atoms or partners, left at the first applicable step.
#![tactic(auto)]

ghost use Rattle.std.specs.Prelude.{◌≡◌, ◌≤◌, ◌<◌};
ghost use Rattle.rewriting.specs.Marked.{left};
ghost use Rattle.rewriting.specs.Kinds.{number};
ghost use Rattle.rewriting.specs.Search.{partner_atom, first_target};
ghost use Rattle.rewriting.proofs.Order.{asked};
ghost use Rattle.table.specs.Slices.{kept_of};
ghost use Rattle.step_parts.specs.Reading.{atom_count, clause_count, words_of, marks_of, program_of, clause_of};
ghost use Rattle.step_kinds.specs.Kinds.{PartnerKind, AtomKind};
ghost use Rattle.search_flags.specs.Flags.{Inside};
ghost use Rattle.search_keys.specs.State.{Calm, Swept};
ghost use Rattle.search_targets.specs.Searches.{ArraysOf, PartWalk, Partners, found_of, stopped_at};

use rewriting::Kind;
use search_flags::{Flags, Row};
use search_partners::Stamped;
use search_spreads::Facts;
use step_conditions::Step;
use step_parts::{Kept, Marked, Part};

// ---- a kind with an atom

// The atoms that the search walks in clause t: none where the clause is gone.
fn walk<'a>(program: &Marked<'a>, kind: Kind, t: usize) -> Kept<'a>
    requires target { t < clause_count program.now.table }
    requires kind { AtomKind kind }
    ensures { PartWalk program.now kind t (kept_of result.words.now result.marks.now) }
{
    if !program.kept(t) {
        return Kept {
            words: &[],
            marks: &[],
        };
    }
    program.atoms(t, step_kinds::walked_part(kind))
}

// Whether an atom of the walked part makes the kind's condition hold.
fn passes(facts: &Facts, kind: Kind, t: usize, atom: u16) -> bool
    requires arrays { ArraysOf facts.now kind }
    requires target { t < clause_count facts.now.program.now.table }
    requires kind { AtomKind kind }
    ensures { result ≡ asked kind (left (program_of facts.now.program.now)) (clause_of facts.now.program.now t) atom }
{
    match kind {
        Kind::Tautology => facts.program.has(t, Part::Pos, atom),
        Kind::Contradiction => facts.program.has(t, Part::Neg, atom),
        Kind::Loop => step_conditions::loop_atom(facts.heads, facts.reach, atom),
        _ => step_conditions::no_head(facts.heads, atom),
    }
}

// The smallest step of a kind with an atom: only flagged targets are looked at, and the flag of one that has none is cleared.
pub fn first_by_atom(
    facts: &Facts,
    flags: &mut Flags,
    kind: Kind,
    low: usize,
    end: usize,
) -> Option<Step<Kind>>
    requires arrays { ArraysOf facts.now kind }
    requires end { end ≤ clause_count facts.now.program.now.table }
    requires kind { AtomKind kind }
    requires calm { Calm (words_of facts.now.program.now) (marks_of facts.now.program.now) flags.old kind }
    requires inside { Inside flags.old (number kind) low end }
    ensures found { result ≡ found_of (first_target (atom_count facts.now.program.now.table) (program_of facts.now.program.now) kind) }
    ensures swept { Swept (words_of facts.now.program.now) (marks_of facts.now.program.now) flags.old flags.new kind }
    ensures inside { Inside flags.new (number kind) (stopped_at result end) end }
{
    let row = Row::Target(kind);
    let mut found = None;
    // Nested loops over targets and atoms, left by a label at the first step: the search's form is fixed.
    'search: for t in low..end {
        if flags.flag_at(row, t) != 0 {
            for atom in walk(facts.program, kind, t) {
                if passes(facts, kind, t, atom) {
                    found = Some(Step::new(kind, t as u16, 0, atom));
                    break 'search;
                }
            }
            flags.set_flag(row, t, 0);
        }
    }
    found
}

// ---- a kind with a partner

// The partners that the search tries for the target t end here: none where it is gone, and for kind 3 up to the greatest.
fn partners_end(program: &Marked, flags: &Flags, kind: Kind, t: usize) -> usize
    requires target { t < clause_count program.now.table }
    requires kind { PartnerKind kind }
    requires calm { Calm (words_of program.now) (marks_of program.now) flags.now kind }
    ensures { Partners (words_of program.now) (marks_of program.now) kind t result }
{
    if !program.kept(t) {
        return 0;
    }
    let m = program.table.clause_count();
    match kind {
        Kind::Success => m.min(flags.most(t)),
        _ => m,
    }
}

// The step of a kind with target t and partner p, which settles its atom.
fn step_with(program: &Marked, kind: Kind, t: usize, p: usize) -> Step<Kind>
    requires target { t < clause_count program.now.table }
    requires partner { p < clause_count program.now.table }
    requires kind { PartnerKind kind }
    ensures { result ≡ record { kind = kind; target = t; partner = p; atom = partner_atom kind (clause_of program.now p) } }
{
    let first = step_conditions::first_atom(program, p, Part::Head);
    let atom = step_kinds::named_atom(kind, first);
    Step::new(kind, t as u16, p as u16, atom)
}

// The smallest step of a kind with a partner, in the same way; the target's atoms are stamped for the tests.
// The flag of the target found goes up to the partner found: none before it makes a step.
pub fn first_by_partner(
    program: &Marked,
    flags: &mut Flags,
    kind: Kind,
    low: usize,
    end: usize,
) -> Option<Step<Kind>>
    requires end { end ≤ clause_count program.now.table }
    requires kind { PartnerKind kind }
    requires calm { Calm (words_of program.now) (marks_of program.now) flags.old kind }
    requires inside { Inside flags.old (number kind) low end }
    ensures found { result ≡ found_of (first_target (atom_count program.now.table) (program_of program.now) kind) }
    ensures swept { Swept (words_of program.now) (marks_of program.now) flags.old flags.new kind }
    ensures inside { Inside flags.new (number kind) (stopped_at result end) end }
{
    let row = Row::Target(kind);
    let mut found = None;
    // Nested loops over targets and partners, left by a label at the first step: the search's form is fixed.
    'search: for t in low..end {
        if flags.flag_at(row, t) != 0 {
            search_gaps::lift(program, flags, kind, t);
            let e = partners_end(program, flags, kind, t);
            let from = flags.flag_at(row, t) - 1;
            if e <= from {
                flags.set_flag(row, t, 0);
                continue;
            }
            let mut stamps = Stamped::new();
            stamps.stamp_clause(program, t);
            for p in from..e {
                if stamps.partner_eligible(program, kind, t, p) {
                    flags.set_flag(row, t, p + 1);
                    found = Some(step_with(program, kind, t, p));
                    break 'search;
                }
            }
            flags.set_flag(row, t, 0);
        }
    }
    found
}
