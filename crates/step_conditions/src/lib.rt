// For each kind whether it applies, on the words and the marks of a table that passed, and the mark that a step clears.
#![tactic(auto)]

ghost use Rattle.std.specs.Prelude.{◌≡◌, ◌&&◌, not, ℕ, ◌+◌, ◌-◌, ◌≤◌, ◌<◌, eqb, length, get_or, set, replicate};
ghost use Rattle.std.proofs.Math.Bool.{So};
ghost use Rattle.semantics.specs.Lists.{mem, single};
ghost use Rattle.semantics.specs.Programs.{Clause};
ghost use Rattle.rewriting.specs.Marked.{entry, left};
ghost use Rattle.rewriting.specs.Steps.{fact, in_no_head, condition, applies};
ghost use Rattle.rewriting.specs.Kinds.{success, blocked, loop, subsumed, row_of, on_target};
ghost use Rattle.table.specs.Places.{start_of};
ghost use Rattle.table.specs.View.{view, all_kept};
ghost use Rattle.table.specs.Effects.{find, cleared_by, marks_after};
ghost use Rattle.step_parts.specs.Parts.{part_of};
ghost use Rattle.step_parts.specs.Reading.{atom_count, clause_count, words_of, marks_of, program_of, clause_of, is_kept};
ghost use Rattle.step_reach.specs.Bytes.{in_bytes, Reached};
ghost use Rattle.step_conditions.specs.Known.{Heads, Tallied, Positive, Known, place_in, step_of};

use rewriting::Kind;
use step_parts::{Indexed, Marked, Part};

// A step: its kind, as any number or as one of the nine, and the clauses and the atom that it names.
#[derive(Clone, Copy)]
pub struct Step<K> {
    pub kind: K,
    pub target: u16,
    pub partner: u16,
    pub atom: u16,
}

impl<K> Step<K> {
    pub fn new(kind: K, target: u16, partner: u16, atom: u16) -> Step<K>
        ensures { result ≡ record { kind = kind; target = target; partner = partner; atom = atom } }
    {
        Step {
            kind,
            target,
            partner,
            atom,
        }
    }
}

// All marks of the table's words are 1, and those past them stay.
pub fn keep_all(words: &[u16], marks: &mut [u8])
    requires { length words.now ≤ length marks.old }
    ensures { marks.new ≡ all_kept words.now marks.old }
{
    marks[..words.len()].fill(1);
}

// ---- heads
//
// Counts are written by index: of what `get_mut` lends, the contract of the library says too little for the clauses here.

// One more at the atom.
fn bump(heads: &mut [u16], atom: u16)
    requires { get_or heads.old atom 0 < 65535 }
    ensures { heads.new ≡ set heads.old atom (get_or heads.old atom 0 + 1) }
{
    let a = usize::from(atom);
    if a < heads.len() {
        heads[a] += 1;
    }
}

// One more at each head atom of clause t.
fn tally_head(program: &Marked, t: usize, heads: &mut [u16])
    requires clause { t < clause_count program.now.table }
    requires room { (a : ℕ) → get_or heads.old a 0 < 65535 }
    ensures { Tallied (clause_of program.now t).head heads.old heads.new }
{
    for atom in program.atoms(t, Part::Head) {
        bump(heads, atom);
    }
}

// For each atom the number of kept clauses with the atom in their head.
pub fn count_heads(program: &Marked, heads: &mut [u16])
    requires { atom_count program.now.table ≤ length heads.old }
    ensures { Heads (words_of program.now) (marks_of program.now) heads.new }
{
    heads.fill(0);
    for t in 0..program.table.clause_count() {
        if !program.kept(t) {
            continue;
        }
        tally_head(program, t, heads);
    }
}

// One less at the atom.
fn lower(heads: &mut [u16], atom: u16)
    requires { 0 < get_or heads.old atom 0 }
    ensures { heads.new ≡ set heads.old atom (get_or heads.old atom 0 - 1) }
{
    let a = usize::from(atom);
    if a < heads.len() {
        heads[a] -= 1;
    }
}

// One less at each head atom of clause t, which is about to be deleted.
pub fn lower_heads(program: &Marked, t: usize, heads: &mut [u16])
    requires clause { t < clause_count program.now.table }
    requires heads { Heads (words_of program.now) (marks_of program.now) heads.old }
    requires kept { So (is_kept program.now t) }
    ensures { Tallied (clause_of program.now t).head heads.new heads.old }
{
    for atom in program.atoms(t, Part::Head) {
        lower(heads, atom);
    }
}

// Whether no kept clause has the atom in its head.
pub fn no_head(heads: &[u16], atom: u16) -> bool
    ensures { result ≡ eqb (get_or heads.now atom 0) 0 }
{
    match heads.get(usize::from(atom)) {
        Some(count) => *count == 0,
        None => true,
    }
}

// ---- conditions

// Whether two parts of clause t have the atom: kinds 1 and 2.
pub fn in_both(program: &Marked, t: usize, one: Part, other: Part, atom: u16) -> bool
    requires { t < clause_count program.now.table }
    ensures { result ≡ (mem atom (part_of one (clause_of program.now t)) && mem atom (part_of other (clause_of program.now t))) }
{
    program.has(t, one, atom) && program.has(t, other, atom)
}

// Whether the part of clause t has the atom, which is in the head of no kept clause: kinds 4 and 6.
#[tactic(auto, using(crate::proofs::Heads::no_head_is))]
pub fn headless(program: &Marked, heads: &[u16], t: usize, part: Part, atom: u16) -> bool
    requires clause { t < clause_count program.now.table }
    requires heads { Heads (words_of program.now) (marks_of program.now) heads.now }
    ensures { result ≡ (mem atom (part_of part (clause_of program.now t)) && in_no_head (left (program_of program.now)) atom) }
{
    program.has(t, part, atom) && no_head(heads, atom)
}

// Whether the atom is in a kept head and outside the reach: kind 7.
pub fn loop_atom(heads: &[u16], reached: &[u8], atom: u16) -> bool
    ensures { result ≡ (not (eqb (get_or heads.now atom 0) 0) && not (in_bytes reached.now atom)) }
{
    !no_head(heads, atom) && !step_reach::is_in(reached, atom)
}

// Whether the positive body of clause t has the atom, which is in a kept head and outside the reach: kind 7.
#[tactic(auto, using(crate::proofs::Heads::loop_atom_is), unfolding(rewriting::specs::Steps::condition))]
pub fn loop_holds(program: &Marked, heads: &[u16], reached: &[u8], t: usize, atom: u16) -> bool
    requires clause { t < clause_count program.now.table }
    requires heads { Heads (words_of program.now) (marks_of program.now) heads.now }
    requires reached { Reached (words_of program.now) (marks_of program.now) reached.now }
    ensures { (d : Clause) → result ≡ condition loop (left (program_of program.now)) (clause_of program.now t) d atom }
{
    program.has(t, Part::Pos, atom) && loop_atom(heads, reached, atom)
}

// Whether clause t is a fact.
pub fn is_fact(program: &Marked, t: usize) -> bool
    requires { t < clause_count program.now.table }
    ensures { result ≡ fact (clause_of program.now t) }
{
    program.empty(t, Part::Pos) && program.empty(t, Part::Neg)
}

// Whether the atom is the only one of the part of clause p.
fn is_only(program: &Marked, p: usize, part: Part, atom: u16) -> bool
    requires { p < clause_count program.now.table }
    ensures { result ≡ single (eqb atom) (part_of part (clause_of program.now p)) }
{
    program.only(p, part) == Some(atom)
}

// Kind 3: clause p is a fact whose only head atom is the atom, which is in the positive body of clause t.
#[tactic(auto, unfolding(rewriting::specs::Steps::condition))]
pub fn success_holds(program: &Marked, t: usize, p: usize, atom: u16) -> bool
    requires target { t < clause_count program.now.table }
    requires partner { p < clause_count program.now.table }
    ensures { result ≡ condition success (left (program_of program.now)) (clause_of program.now t) (clause_of program.now p) atom }
{
    is_fact(program, p) && is_only(program, p, Part::Head, atom) && program.has(t, Part::Pos, atom)
}

// Kind 5: clause p is a fact whose head atoms are all in the negative body of clause t.
#[tactic(auto, unfolding(rewriting::specs::Steps::condition))]
pub fn blocked_holds(program: &Marked, t: usize, p: usize) -> bool
    requires target { t < clause_count program.now.table }
    requires partner { p < clause_count program.now.table }
    ensures { (a : ℕ) → result ≡ condition blocked (left (program_of program.now)) (clause_of program.now t) (clause_of program.now p) a }
{
    is_fact(program, p) && program.inside(p, Part::Head, t, Part::Neg)
}

// Kind 8: each part of clause p is within the same part of clause t.
#[tactic(auto, unfolding(rewriting::specs::Steps::condition))]
pub fn subsumed_holds(program: &Marked, t: usize, p: usize) -> bool
    requires target { t < clause_count program.now.table }
    requires partner { p < clause_count program.now.table }
    ensures { (a : ℕ) → result ≡ condition subsumed (left (program_of program.now)) (clause_of program.now t) (clause_of program.now p) a }
{
    program.inside(p, Part::Head, t, Part::Head)
        && program.inside(p, Part::Pos, t, Part::Pos)
        && program.inside(p, Part::Neg, t, Part::Neg)
}

// Whether the condition of the kind, another than 9, holds for target t, partner p and the atom.
pub fn holds(
    program: &Marked,
    heads: &[u16],
    reached: &[u8],
    kind: Kind,
    t: usize,
    p: usize,
    atom: u16,
) -> bool
    requires target { t < clause_count program.now.table }
    requires partner { p < clause_count program.now.table }
    requires kind { So (on_target kind) }
    requires known { Known kind (words_of program.now) (marks_of program.now) heads.now reached.now }
    ensures { result ≡ condition kind (left (program_of program.now)) (clause_of program.now t) (clause_of program.now p) atom }
{
    match kind {
        Kind::Tautology => in_both(program, t, Part::Head, Part::Pos, atom),
        Kind::Contradiction => in_both(program, t, Part::Pos, Part::Neg, atom),
        Kind::Success => success_holds(program, t, p, atom),
        Kind::NoHead => headless(program, heads, t, Part::Neg, atom),
        Kind::Blocked => blocked_holds(program, t, p),
        Kind::Failure => headless(program, heads, t, Part::Pos, atom),
        Kind::Loop => loop_holds(program, heads, reached, t, atom),
        Kind::Subsumed => subsumed_holds(program, t, p),
        Kind::Excluded => unreachable!(),
    }
}

// ---- the mark that a step clears

// The place of the atom in a part of clause t.
pub fn place_of(table: &Indexed, t: usize, part: Part, atom: u16) -> usize
    requires { t < clause_count table.now }
    ensures { result ≡ place_in table.now.words.now (start_of table.now.words.now t) part atom }
{
    let s = table.span(t, part);
    let words = &table.words[s.from..s.end];
    s.from
        + words
            .iter()
            .position(|word| *word == atom)
            .unwrap_or(words.len())
}

// The first atom of a part of clause p, as left.
pub fn first_atom(program: &Marked, p: usize, part: Part) -> u16
    requires { p < clause_count program.now.table }
    ensures { result ≡ get_or (part_of part (clause_of program.now p)) 0 0 }
{
    program.atoms(p, part).next().unwrap_or(0)
}

// The place of the mark that a step of the kind clears at clause t, with the atom that it names.
fn cleared(table: &Indexed, kind: Kind, t: usize, atom: u16) -> usize
    requires { t < clause_count table.now }
    ensures { result ≡ cleared_by table.now.words.now (row_of kind).deed (start_of table.now.words.now t) atom }
{
    match kind {
        Kind::Success => place_of(table, t, Part::Pos, atom),
        Kind::NoHead => place_of(table, t, Part::Neg, atom),
        _ => table.first_word(t),
    }
}

// A step of another kind than 9 is made: its mark is cleared.
pub fn make_step(table: &Indexed, marks: &mut [u8], s: Step<Kind>)
    requires long { length table.now.words.now ≤ length marks.old }
    requires kind { So (on_target s.kind) }
    requires applies { So (applies (atom_count table.now) (view table.now.words.now marks.old) (step_of s)) }
    ensures { marks.new ≡ marks_after table.now.words.now marks.old (step_of s) }
{
    let at = cleared(table, s.kind, usize::from(s.target), s.atom);
    marks[at] = 0;
}
