// One step of a list: questions 12 to 16 with 29 and 32 before 16, then the step made; what is known of the program is kept from step to step.
#![tactic(auto)]

ghost use Rattle.std.specs.Prelude.{◌≡◌, Ok, ◌≤◌, length};
ghost use Rattle.std.proofs.Math.Bool.{So};
ghost use Rattle.rewriting.specs.Kinds.{success};
ghost use Rattle.rewriting.specs.Steps.{partner_kept, atom_known, atom_matches};
ghost use Rattle.step_parts.specs.Reading.{atom_count, program_of, is_kept};
ghost use Rattle.step_conditions.specs.Known.{step_of};
ghost use Rattle.step_questions.specs.Verdicts.{shape_of};

mod conditions;
mod memory;

use answers::StepQuestion;
pub use conditions::take_step;
pub use memory::{Memo, Memory};
use rewriting::Kind;
use step_conditions::Step;
use step_parts::{Indexed, Marked, Part};

// Whether the clause of that number is there and kept.
fn clause_kept(program: &Marked, t: u16) -> bool
    ensures { result ≡ is_kept program.now t }
{
    let t = usize::from(t);
    t < program.table.clause_count() && program.kept(t)
}

// Question 14.
fn partner_kept(program: &Marked, s: Step<Kind>) -> bool
    ensures { result ≡ partner_kept (program_of program.now) (step_of s) }
{
    if !s.kind.uses_partner() {
        return s.partner == 0;
    }
    if s.partner == s.target {
        return false;
    }
    clause_kept(program, s.partner)
}

// Question 15.
fn atom_known(table: &Indexed, s: Step<Kind>) -> bool
    ensures { result ≡ atom_known (atom_count table.now) (step_of s) }
{
    if s.kind.uses_atom() {
        s.atom < table.atom_count()
    } else {
        s.atom == 0
    }
}

// Question 29: for kind 3, where the partner has exactly one head atom, whether the step names it.
fn atom_matches(program: &Marked, s: Step<Kind>) -> bool
    requires { So (partner_kept (program_of program.now) (step_of s)) }
    ensures { result ≡ atom_matches (program_of program.now) (step_of s) }
{
    match s.kind {
        Kind::Success => match program.only(usize::from(s.partner), Part::Head) {
            Some(b) => s.atom == b,
            None => true,
        },
        _ => true,
    }
}

// Questions 13 to 15 and 29.
#[tactic(auto, using(crate::proofs::Laws::kind_has_number), unfolding(crate::specs::Questions::shape_questions, answers::specs::Answers::ask))]
fn shape(program: &Marked, s: Step<Kind>) -> Result<(), StepQuestion>
    ensures { result ≡ shape_of (atom_count program.now.table) (program_of program.now) (step_of s) (Ok tt) }
{
    if !clause_kept(program, s.target) {
        return Err(StepQuestion::TargetKept);
    }
    if !partner_kept(program, s) {
        return Err(StepQuestion::PartnerKept);
    }
    if !atom_known(&program.table, s) {
        return Err(StepQuestion::AtomKnown);
    }
    if !atom_matches(program, s) {
        return Err(StepQuestion::AtomMatches);
    }
    Ok(())
}
