// Clauses that are gone are passed once: the flag of a target goes up past them.
#![tactic(auto)]

ghost use Rattle.std.specs.Prelude.{◌≡◌, ℕ, ◌≤◌, ◌<◌, ◌≢◌};
ghost use Rattle.std.proofs.Math.Bool.{So};
ghost use Rattle.rewriting.specs.Kinds.{number};
ghost use Rattle.step_parts.specs.Reading.{clause_count, words_of, marks_of, is_kept};
ghost use Rattle.search_flags.specs.Flags.{flag_at};
ghost use Rattle.step_kinds.specs.Kinds.{PartnerKind};
ghost use Rattle.search_keys.specs.State.{Gaps, Calm, Skipped, Lifted};

use rewriting::Kind;
use search_flags::{Flags, Row};
use step_parts::Marked;

// The first clause from a number on that is kept, or the end.
fn kept_from(program: &Marked, from: usize, e: usize) -> usize
    requires end { e ≤ clause_count program.now.table }
    ensures within { result ≤ e }
    ensures gone { (j : ℕ) → from ≤ j → j < result → ¬ So (is_kept program.now j) }
{
    // A loop over clauses: the number is the answer, and no element is indexed here.
    for i in from..e {
        if program.kept(i) {
            return i;
        }
    }
    e
}

// The same from clause q on, where the clauses that were passed before are not passed again.
fn first_kept(program: &Marked, flags: &mut Flags, q: usize, e: usize) -> usize
    requires end { e ≤ clause_count program.now.table }
    requires clause { q < 2048 }
    requires gaps { Gaps (words_of program.now) (marks_of program.now) flags.old }
    ensures { Skipped (words_of program.now) (marks_of program.now) flags.old flags.new q e result }
{
    let from = flags.next(q).max(q);
    let r = kept_from(program, from, e);
    if r <= from {
        return r;
    }
    flags.set_next(q, r);
    r
}

// The flag of a target goes up past clauses that are gone.
pub fn lift(program: &Marked, flags: &mut Flags, kind: Kind, t: usize)
    requires target { t < clause_count program.now.table }
    requires kind { PartnerKind kind }
    requires flagged { flag_at flags.old (number kind) t ≢ 0 }
    requires calm { Calm (words_of program.now) (marks_of program.now) flags.old kind }
    ensures { Lifted (words_of program.now) (marks_of program.now) flags.old flags.new kind t }
{
    let m = program.table.clause_count();
    let row = Row::Target(kind);
    let q = flags.flag_at(row, t) - 1;
    if m <= q {
        return;
    }
    let r = first_kept(program, flags, q, m);
    flags.set_flag(row, t, r + 1);
}
