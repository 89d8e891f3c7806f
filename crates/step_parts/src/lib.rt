// The clauses of a table that passed: where they start, and tests on their parts, read through the marks.
#![tactic(auto)]

ghost use Rattle.std.specs.Prelude.{◌≡◌, ◌≤◌, length};
ghost use Rattle.table.specs.Places.{next_at};
ghost use Rattle.step_parts.specs.Parts.{span_of};

mod atoms;
mod linking;
mod marked;
mod places;

pub use atoms::{Atoms, Kept, part_empty, part_single, seek, skip, stands};
pub use linking::{INDEX, build_index};
pub use marked::{Indexed, Marked};
pub use places::Places;

// A part of a clause.
#[derive(Clone, Copy)]
pub enum Part {
    Head,
    Pos,
    Neg,
}

// The words of a part: the place of the first, and the place past the last.
#[derive(Clone, Copy)]
pub struct Bounds {
    pub from: usize,
    pub end: usize,
}

// The words of a part of the clause whose first word is at `at`.
fn part_at(words: &[u16], at: usize, part: Part) -> Bounds
    requires { next_at words.now at ≤ length words.now }
    ensures { result ≡ span_of words.now at part }
{
    let a = at + 3;
    let b = a + usize::from(words[at]);
    let c = b + usize::from(words[at + 1]);
    match part {
        Part::Head => Bounds { from: a, end: b },
        Part::Pos => Bounds { from: b, end: c },
        Part::Neg => Bounds {
            from: c,
            end: c + usize::from(words[at + 2]),
        },
    }
}
