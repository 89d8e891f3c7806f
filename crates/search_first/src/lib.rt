// The search for the smallest step that is not passed over: kinds 1 to 8, one after the other, at flagged targets only; then kind 9.
#![tactic(auto)]

ghost use Rattle.std.specs.Prelude.{◌≡◌, ◌≤◌, length};
ghost use Rattle.std.proofs.Math.Bool.{So};
ghost use Rattle.rewriting.specs.Kinds.{number, excluded, on_target};
ghost use Rattle.rewriting.specs.Search.{first_target, first_step};
ghost use Rattle.step_parts.specs.Reading.{atom_count, clause_count, words_of, marks_of, program_of};
ghost use Rattle.search_flags.specs.Flags.{Inside};
ghost use Rattle.search_keys.specs.State.{Calm, Swept};
ghost use Rattle.search_keys.specs.States.{StateOf};
ghost use Rattle.search_targets.specs.Searches.{ArraysOf, found_of, stopped_at};
ghost use Rattle.search_exclusion.specs.Smallest.{Idle};
ghost use Rattle.search_first.specs.First.{first_flagged};

use rewriting::Kind;
use search_flags::{Flags, Row};
use search_spreads::Facts;
use step_conditions::Step;
use step_parts::Marked;

// The kinds that change their target alone, in the order of their numbers.
const KINDS: [Kind; 8] = [
    Kind::Tautology,
    Kind::Contradiction,
    Kind::Success,
    Kind::NoHead,
    Kind::Blocked,
    Kind::Failure,
    Kind::Loop,
    Kind::Subsumed,
];

// Where a search stopped: at the target found, or at the end.
fn stopped_at(found: Option<Step<Kind>>, end: usize) -> usize
    ensures { result ≡ stopped_at found end }
{
    match found {
        Some(step) => usize::from(step.target),
        None => end,
    }
}

// The search of a kind between its row's bounds.
fn search_row(
    facts: &Facts,
    flags: &mut Flags,
    kind: Kind,
    low: usize,
    end: usize,
) -> Option<Step<Kind>>
    requires arrays { ArraysOf facts.now kind }
    requires end { end ≤ clause_count facts.now.program.now.table }
    requires kind { So (on_target kind) }
    requires calm { Calm (words_of facts.now.program.now) (marks_of facts.now.program.now) flags.old kind }
    requires inside { Inside flags.old (number kind) low end }
    ensures found { result ≡ found_of (first_target (atom_count facts.now.program.now.table) (program_of facts.now.program.now) kind) }
    ensures swept { Swept (words_of facts.now.program.now) (marks_of facts.now.program.now) flags.old flags.new kind }
    ensures inside { Inside flags.new (number kind) (stopped_at result end) end }
{
    if kind.uses_partner() {
        return search_targets::first_by_partner(facts.program, flags, kind, low, end);
    }
    search_targets::first_by_atom(facts, flags, kind, low, end)
}

// The smallest step of a kind.
fn first_of_kind(
    program: &Marked,
    heads: &[u16],
    reach: &mut [u8],
    flags: &mut Flags,
    kind: Kind,
) -> Option<Step<Kind>>
    requires state { StateOf program.now heads.now reach.old flags.old }
    requires kind { So (on_target kind) }
    ensures found { result ≡ found_of (first_target (atom_count program.now.table) (program_of program.now) kind) }
    ensures state { StateOf program.now heads.now reach.new flags.new }
{
    search_keys::prepare(program, heads, reach, flags, kind);
    let row = Row::Target(kind);
    let low = flags.lowest(row);
    let end = flags.highest(row);
    let facts = Facts {
        program,
        heads,
        reach,
    };
    let found = search_row(&facts, flags, kind, low, end);
    flags.fence(row, stopped_at(found, end), end);
    found
}

// The smallest step of kinds 1 to 8: kind after kind.
fn first_flagged(
    program: &Marked,
    heads: &[u16],
    reach: &mut [u8],
    flags: &mut Flags,
) -> Option<Step<Kind>>
    requires { StateOf program.now heads.now reach.old flags.old }
    ensures found { result ≡ found_of (first_flagged (atom_count program.now.table) (program_of program.now)) }
    ensures state { StateOf program.now heads.now reach.new flags.new }
{
    for kind in &KINDS {
        if let Some(step) = first_of_kind(program, heads, reach, flags, *kind) {
            return Some(step);
        }
    }
    None
}

// The smallest step of kind 9.
fn first_excluded(program: &Marked, idle: &mut [u8]) -> Option<Step<Kind>>
    requires room { 2048 ≤ length idle.old }
    requires idle { Idle (atom_count program.now.table) (program_of program.now) idle.old }
    ensures found { result ≡ found_of (first_target (atom_count program.now.table) (program_of program.now) excluded) }
    ensures idle { Idle (atom_count program.now.table) (program_of program.now) idle.new }
{
    let found = search_exclusion::first_exclusion(program, idle)?;
    Some(Step::new(Kind::Excluded, found.target, 0, found.atom))
}

// The smallest step: of kinds 1 to 8, and where there is none, of kind 9.
// Heads, reach and flags stand side by side: a struct of arrays would ask for lengths that no caller needs to have.
pub fn first_step(
    program: &Marked,
    heads: &[u16],
    reach: &mut [u8],
    flags: &mut Flags,
    idle: &mut [u8],
) -> Option<Step<Kind>>
    requires state { StateOf program.now heads.now reach.old flags.old }
    requires room { 2048 ≤ length idle.old }
    requires idle { Idle (atom_count program.now.table) (program_of program.now) idle.old }
    ensures found { result ≡ found_of (first_step (atom_count program.now.table) (program_of program.now)) }
    ensures state { StateOf program.now heads.now reach.new flags.new }
    ensures idle { Idle (atom_count program.now.table) (program_of program.now) idle.new }
{
    if let Some(step) = first_flagged(program, heads, reach, flags) {
        return Some(step);
    }
    first_excluded(program, idle)
}
