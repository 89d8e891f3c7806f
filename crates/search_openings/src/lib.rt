// A step made, and what it opens: the keys that it makes fresh, and whether the reach is to be found anew.
#![tactic(auto)]

ghost use Rattle.std.specs.Prelude.{◌≡◌, ◌≤◌, ◌<◌, IsTrue, length};
ghost use Rattle.std.proofs.Math.Bool.{So};
ghost use Rattle.table.specs.Effects.{marks_after};
ghost use Rattle.step_parts.specs.Reading.{clause_count, words_of, marks_of, program_of, clause_of};
ghost use Rattle.step_reach.specs.Bytes.{Reached};
ghost use Rattle.search_flags.specs.Flags.{flag_at};
ghost use Rattle.step_conditions.specs.Known.{step_of};
ghost use Rattle.search_keys.specs.States.{StateAt};
ghost use Rattle.rewriting.specs.Uses.{drops};
ghost use Rattle.rewriting.proofs.Reopen.{SameHead};
ghost use Rattle.search_openings.specs.Opened.{Opened, PartnerFresh, AtomFresh, AllFresh, StepMade, Lost};

use rewriting::Kind;
use search_flags::{Flags, Row};
use step_conditions::Step;
use step_parts::{Indexed, Marked, Part};

// ---- what a step opens

// A clause lost a literal: it is a fresh key of the kinds with a partner, 3, 5 and 8.
pub fn open_partner(flags: &mut Flags, t: usize)
    requires { t < 2048 }
    ensures opened { Opened flags.old flags.new }
    ensures fresh { PartnerFresh flags.new t }
{
    flags.flag(Row::Key(Kind::Success), t, 0);
    flags.flag(Row::Key(Kind::Blocked), t, 0);
    flags.flag(Row::Key(Kind::Subsumed), t, 0);
}

// An atom lost a head: it is a fresh key of kinds 4 and 6.
pub fn open_atom(flags: &mut Flags, atom: usize)
    requires { atom < 2048 }
    ensures opened { Opened flags.old flags.new }
    ensures fresh { AtomFresh flags.new atom }
{
    flags.flag(Row::Key(Kind::NoHead), atom, 0);
    flags.flag(Row::Key(Kind::Failure), atom, 0);
}

// So is every head atom of a clause that was deleted.
pub fn open_head(program: &Marked, flags: &mut Flags, t: usize)
    requires { t < clause_count program.now.table }
    ensures opened { Opened flags.old flags.new }
    ensures fresh { AllFresh flags.new (clause_of program.now t).head }
{
    for atom in program.atoms(t, Part::Head) {
        open_atom(flags, usize::from(atom));
    }
}

// ---- whether a deletion takes the reach with it

// Whether the clause that a step deletes has a partner that fires in its place.
fn same_head(program: &Marked, step: Step<Kind>) -> bool
    requires { StepMade (words_of program.now) (marks_of program.now) step }
    ensures { IsTrue result → SameHead (program_of program.now) (step_of step) }
{
    match step.kind {
        Kind::Subsumed => program.inside(
            usize::from(step.target),
            Part::Head,
            usize::from(step.partner),
            Part::Head,
        ),
        _ => false,
    }
}

// A deletion: the reach is to be found anew, unless the clause did not fire or its partner fires in its place.
fn lose_reach(program: &Marked, reach: &[u8], flags: &mut Flags, step: Step<Kind>)
    requires reached { flag_at flags.old 0 0 ≡ 0 → Reached (words_of program.now) (marks_of program.now) reach.now }
    requires made { StepMade (words_of program.now) (marks_of program.now) step }
    ensures { Lost (words_of program.now) (marks_of program.now) flags.old flags.new (step_of step) }
{
    if !step_exclusion::body_in(program, usize::from(step.target), reach) {
        return;
    }
    if same_head(program, step) {
        return;
    }
    flags.flag(Row::Reach, 0, 0);
}

// ---- a step

// Kinds 3 and 4: a literal is dropped.
fn drop_literal(
    table: &Indexed,
    marks: &mut [u8],
    heads: &[u16],
    reach: &[u8],
    flags: &mut Flags,
    step: Step<Kind>,
)
    requires state { StateAt table.now marks.old heads.now reach.now flags.old }
    requires made { StepMade table.now.words.now marks.old step }
    requires drops { So (drops step.kind) }
    ensures marks { marks.new ≡ marks_after table.now.words.now marks.old (step_of step) }
    ensures state { StateAt table.now marks.new heads.now reach.now flags.new }
{
    step_conditions::make_step(table, marks, step);
    open_partner(flags, usize::from(step.target));
}

// The other kinds: the clause is deleted.
fn delete_clause(
    table: &Indexed,
    marks: &mut [u8],
    heads: &mut [u16],
    reach: &[u8],
    flags: &mut Flags,
    step: Step<Kind>,
)
    requires state { StateAt table.now marks.old heads.old reach.now flags.old }
    requires made { StepMade table.now.words.now marks.old step }
    requires deletes { ¬ So (drops step.kind) }
    ensures marks { marks.new ≡ marks_after table.now.words.now marks.old (step_of step) }
    ensures state { StateAt table.now marks.new heads.new reach.now flags.new }
{
    let t = usize::from(step.target);
    let before = Marked {
        table: *table,
        marks,
    };
    lose_reach(&before, reach, flags, step);
    step_conditions::lower_heads(&before, t, heads);
    step_conditions::make_step(table, marks, step);
    let after = Marked {
        table: *table,
        marks,
    };
    open_head(&after, flags, t);
}

// A step is made, and what it opens is flagged.
// Heads, reach and flags stand side by side: a struct of arrays would ask for lengths that no caller needs to have.
pub fn apply_step(
    table: &Indexed,
    marks: &mut [u8],
    heads: &mut [u16],
    reach: &[u8],
    flags: &mut Flags,
    step: Step<Kind>,
)
    requires state { StateAt table.now marks.old heads.old reach.now flags.old }
    requires made { StepMade table.now.words.now marks.old step }
    ensures marks { marks.new ≡ marks_after table.now.words.now marks.old (step_of step) }
    ensures state { StateAt table.now marks.new heads.new reach.now flags.new }
{
    if step.kind.drops_literal() {
        drop_literal(table, marks, heads, reach, flags, step);
    } else {
        delete_clause(table, marks, heads, reach, flags, step);
    }
}
