// What is known of the program from step to step: for each atom the number of kept heads, and the reach.

ghost use Rattle.std.specs.Prelude.{◌≡◌, true, List, ℕ, ◌<◌, ◌≤◌, length, get_or};
ghost use Rattle.std.proofs.Math.Bool.{So};
ghost use Rattle.step_parts.specs.Reading.{clause_count, words_of, marks_of, clause_of, is_kept};
ghost use Rattle.step_conditions.specs.Known.{Heads, Tallied, Known};
ghost use Rattle.step_questions.specs.Remembered.{Holding, IsSameMemory};

use rewriting::Kind;
use step_parts::Marked;

// Whether the numbers of kept heads, and the reach, are known: those of the marks as they stand.
#[derive(Clone, Copy)]
pub struct Memo {
    pub heads: bool,
    pub reached: bool,
}

// The numbers of kept heads and the reach, and of each whether it is known.
// A flag beside each array and no Option: an array that is not known stays, to be filled again.
#[derive(Drop)]
pub struct Memory<'a> {
    pub heads: &'a mut [u16],
    pub reached: &'a mut [u8],
    pub known: Memo,
}

impl<'a> Memory<'a> {
    // Nothing is known.
    pub fn new(heads: &'a mut [u16], reached: &'a mut [u8]) -> Memory<'a>
        ensures same_heads { result.heads.ghost_name ≡ heads.entry.ghost_name }
        ensures same_reached { result.reached.ghost_name ≡ reached.entry.ghost_name }
        ensures holding { (ws ms : List ℕ) → get_or ws 0 0 ≤ length heads.old → get_or ws 0 0 ≤ length reached.old → Holding ws ms result }
    {
        Memory {
            heads,
            reached,
            known: Memo {
                heads: false,
                reached: false,
            },
        }
    }

    // Nothing is known any more.
    pub(crate) fn forget(&mut self)
        ensures same_reference { IsSameMemory self.old self.new }
        ensures holding { (ws ms ms' : List ℕ) → Holding ws ms self.old → Holding ws ms' self.new }
    {
        self.known.heads = false;
        self.known.reached = false;
    }

    // What the kind asks for is found anew, unless it is known.
    pub(crate) fn refresh(&mut self, program: &Marked, kind: Kind)
        requires { Holding (words_of program.now) (marks_of program.now) self.old }
        ensures same_reference { IsSameMemory self.old self.new }
        ensures holding { Holding (words_of program.now) (marks_of program.now) self.new }
        ensures known { Known kind (words_of program.now) (marks_of program.now) self.new.heads.now self.new.reached.now }
    {
        if kind.asks_heads() && !self.known.heads {
            step_conditions::count_heads(program, self.heads);
            self.known.heads = true;
        }
        if kind.asks_reach() && !self.known.reached {
            step_reach::find_reach(program, self.reached);
            self.known.reached = true;
        }
    }

    // The numbers of kept heads, where they are known, without those of clause t, which is about to be deleted.
    pub(crate) fn lose_heads(&mut self, program: &Marked, t: usize)
        requires target { t < clause_count program.now.table }
        requires kept { So (is_kept program.now t) }
        requires holding { self.old.known.heads ≡ true → Heads (words_of program.now) (marks_of program.now) self.old.heads.now }
        ensures same_reference { IsSameMemory self.old self.new }
        ensures heads { self.old.known.heads ≡ true → Tallied (clause_of program.now t).head self.new.heads.now self.old.heads.now }
        ensures heads_known { self.new.known.heads ≡ self.old.known.heads }
        ensures length { length self.new.heads.now ≡ length self.old.heads.now }
        ensures reached { self.new.reached.now ≡ self.old.reached.now }
        ensures reach_known { self.new.known.reached ≡ self.old.known.reached }
    {
        if self.known.heads {
            step_conditions::lower_heads(program, t, self.heads);
        }
    }
}
