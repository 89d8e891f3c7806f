// Questions 32 and 16, and the step made.

ghost use Rattle.std.specs.Prelude.{◌≡◌, Ok, List, ℕ, ◌≤◌, length, get_or};
ghost use Rattle.std.proofs.Math.Bool.{So};
ghost use Rattle.rewriting.specs.Kinds.{excluded, number, on_target};
ghost use Rattle.rewriting.specs.Uses.{drops};
ghost use Rattle.rewriting.specs.Steps.{atom_headed, condition_holds, applies};
ghost use Rattle.table.specs.View.{view};
ghost use Rattle.table.specs.Effects.{marks_after};
ghost use Rattle.step_parts.specs.Reading.{atom_count, words_of, marks_of, program_of};
ghost use Rattle.step_conditions.specs.Known.{step_of, Known};
ghost use Rattle.step_questions.specs.Verdicts.{Shaped, condition_of, Taken, WordsTaken};
ghost use Rattle.step_questions.specs.Remembered.{Holding, IsSameMemory};

use crate::memory::Memory;
use crate::shape;
use answers::StepQuestion;
use rewriting::Kind;
use step_conditions::Step;
use step_parts::{Indexed, Marked};

// Question 32: for kind 7, whether a kept head has the atom.
fn atom_headed(memory: &Memory, s: Step<Kind>) -> bool
    ensures { (ws ms : List ℕ) → Known s.kind ws ms memory.now.heads.now memory.now.reached.now → result ≡ atom_headed (view ws ms) (step_of s) }
{
    match s.kind {
        Kind::Loop => !step_conditions::no_head(memory.heads, s.atom),
        _ => true,
    }
}

// Question 16, once 12 to 15 and 29 are answered yes.
fn condition_holds(program: &Marked, memory: &Memory, s: Step<Kind>) -> bool
    requires shaped { Shaped (atom_count program.now.table) (program_of program.now) (step_of s) }
    requires known { Known s.kind (words_of program.now) (marks_of program.now) memory.now.heads.now memory.now.reached.now }
    ensures { result ≡ condition_holds (program_of program.now) (step_of s) }
{
    let t = usize::from(s.target);
    let p = usize::from(s.partner);
    match s.kind {
        Kind::Excluded => step_exclusion::excluded(program, t, s.atom),
        kind => step_conditions::holds(program, memory.heads, memory.reached, kind, t, p, s.atom),
    }
}

// Questions 32 and 16, once 12 to 15 and 29 are answered yes.
#[tactic(auto, unfolding(crate::specs::Questions::condition_questions, answers::specs::Answers::ask))]
fn condition(program: &Marked, memory: &Memory, s: Step<Kind>) -> Result<(), StepQuestion>
    requires shaped { Shaped (atom_count program.now.table) (program_of program.now) (step_of s) }
    requires known { Known s.kind (words_of program.now) (marks_of program.now) memory.now.heads.now memory.now.reached.now }
    ensures { result ≡ condition_of (program_of program.now) (step_of s) }
{
    if !atom_headed(memory, s) {
        return Err(StepQuestion::AtomHeaded);
    }
    if !condition_holds(program, memory, s) {
        return Err(StepQuestion::ConditionHolds);
    }
    Ok(())
}

// ---- the step made, and what is known after it

// That what is known is right of the marks is a clause of each and no ghost field: it does not hold between their writes to the marks and the memory.

// An atom is excluded: nothing is known any more.
fn exclude(table: &Indexed, marks: &mut [u8], memory: &mut Memory, s: Step<Kind>)
    requires marked { length table.now.words.now ≤ length marks.old }
    requires kind { s.kind ≡ excluded }
    requires holding { Holding table.now.words.now marks.old memory.old }
    ensures marks { marks.new ≡ marks_after table.now.words.now marks.old (step_of s) }
    ensures same_reference { IsSameMemory memory.old memory.new }
    ensures holding { Holding table.now.words.now marks.new memory.new }
{
    step_exclusion::remove_atom(table, marks, s.atom);
    memory.forget();
}

// A clause is deleted: the kept heads stay known, and the reach unless the clause may have fired.
fn delete(table: &Indexed, marks: &mut [u8], memory: &mut Memory, s: Step<Kind>)
    requires marked { length table.now.words.now ≤ length marks.old }
    requires kind { So (on_target s.kind) }
    requires deletes { ¬ So (drops s.kind) }
    requires applies { So (applies (atom_count table.now) (view table.now.words.now marks.old) (step_of s)) }
    requires holding { Holding table.now.words.now marks.old memory.old }
    ensures marks { marks.new ≡ marks_after table.now.words.now marks.old (step_of s) }
    ensures same_reference { IsSameMemory memory.old memory.new }
    ensures holding { Holding table.now.words.now marks.new memory.new }
{
    memory.lose_heads(
        &Marked {
            table: *table,
            marks,
        },
        usize::from(s.target),
    );
    step_conditions::make_step(table, marks, s);
    // The clause that a failure or a loop step deletes did not fire, so that the reach stays.
    if !s.kind.asks_heads() {
        memory.known.reached = false;
    }
}

// The step is made. A literal that is dropped leaves all known that was.
fn make(table: &Indexed, marks: &mut [u8], memory: &mut Memory, s: Step<Kind>)
    requires marked { length table.now.words.now ≤ length marks.old }
    requires applies { So (applies (atom_count table.now) (view table.now.words.now marks.old) (step_of s)) }
    requires holding { Holding table.now.words.now marks.old memory.old }
    ensures marks { marks.new ≡ marks_after table.now.words.now marks.old (step_of s) }
    ensures same_reference { IsSameMemory memory.old memory.new }
    ensures holding { Holding table.now.words.now marks.new memory.new }
{
    match s.kind {
        Kind::Excluded => exclude(table, marks, memory, s),
        kind if kind.drops_literal() => step_conditions::make_step(table, marks, s),
        _ => delete(table, marks, memory, s),
    }
}

// ---- a step

// A step is asked, and made if no question is answered no.
fn take(
    table: &Indexed,
    marks: &mut [u8],
    memory: &mut Memory,
    s: Step<Kind>,
) -> Result<(), StepQuestion>
    requires marked { length table.now.words.now ≤ length marks.old }
    requires holding { Holding table.now.words.now marks.old memory.old }
    ensures taken { Taken table.now.words.now marks.old marks.new (number s.kind) (step_of s) result }
    ensures same_reference { IsSameMemory memory.old memory.new }
    ensures holding { Holding table.now.words.now marks.new memory.new }
{
    let program = Marked {
        table: *table,
        marks,
    };
    shape(&program, s)?;
    memory.refresh(&program, s.kind);
    condition(&program, memory, s)?;
    make(table, marks, memory, s);
    Ok(())
}

// The same of a step given as its four words, with question 12 before the others.
pub fn take_step(
    table: &Indexed,
    marks: &mut [u8],
    memory: &mut Memory,
    words: [u16; 4],
) -> Result<(), StepQuestion>
    requires marked { length table.now.words.now ≤ length marks.old }
    requires holding { Holding table.now.words.now marks.old memory.old }
    ensures taken { WordsTaken table.now.words.now marks.old marks.new words result }
    ensures same_reference { IsSameMemory memory.old memory.new }
    ensures holding { Holding table.now.words.now marks.new memory.new }
{
    let [kind, target, partner, atom] = words;
    let Ok(kind) = Kind::try_from(kind) else {
        return Err(StepQuestion::KindKnown);
    };
    take(table, marks, memory, Step::new(kind, target, partner, atom))
}
