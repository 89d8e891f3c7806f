// The steps that the reducer passes over: of two equal clauses the earlier one stays.
#![tactic(auto)]

ghost use Rattle.std.specs.Prelude.{◌≡◌, ℕ, ◌≤◌, ◌<◌};
ghost use Rattle.rewriting.specs.Steps.{step};
ghost use Rattle.rewriting.specs.Reducer.{equal, passed_over};
ghost use Rattle.step_parts.specs.Reading.{clause_count, program_of, clause_of};

use rewriting::Kind;
use step_parts::Marked;

// Whether clauses t and p are equal in all three parts: each is within the other, since parts ascend.
fn equal_clauses(program: &Marked, t: usize, p: usize) -> bool
    requires target { t < clause_count program.now.table }
    requires partner { p < clause_count program.now.table }
    ensures { result ≡ equal (clause_of program.now t) (clause_of program.now p) }
{
    if !step_conditions::subsumed_holds(program, p, t) {
        return false;
    }
    step_conditions::subsumed_holds(program, t, p)
}

// Whether the reducer passes over the step of the kind with target t and partner p: it is of kind 5 or 8, the target is the lower number, and the two are equal.
pub fn passed_over(program: &Marked, kind: Kind, t: usize, p: usize) -> bool
    requires target { t < clause_count program.now.table }
    requires partner { p < clause_count program.now.table }
    ensures { (a : ℕ) → result ≡ passed_over (program_of program.now) (step kind t p a) }
{
    if p <= t {
        return false;
    }
    match kind {
        Kind::Blocked | Kind::Subsumed => equal_clauses(program, t, p),
        _ => false,
    }
}
