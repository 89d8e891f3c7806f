// The reach of the clauses that the marks leave, as a byte for each atom.
// Each clause has a count of its positive atoms that are not yet taken from the queue, and its head joins the set when the count is 0. An atom that joins
// is put on the queue, once; taken from it, it is counted off in every clause in whose positive body it stands, along the index. So each positive
// literal is visited twice at most: to be counted, and to be counted off; and each head is walked once.
#![tactic(auto)]

ghost use Rattle.std.specs.Prelude.{◌≡◌, ◌≤◌, length};
ghost use Rattle.step_parts.specs.Reading.{atom_count, words_of, marks_of};
ghost use Rattle.step_reach.specs.Bytes.{in_bytes, Reached};

use step_parts::Marked;

mod closure;
mod set;

pub use closure::{Closure, Count};
pub use set::AtomSet;

// Whether the atom is in the set.
pub fn is_in(bytes: &[u8], atom: u16) -> bool
    ensures { result ≡ in_bytes bytes.now atom }
{
    bytes.get(usize::from(atom)) == Some(&1)
}

// The reach: afterwards the byte of an atom is 1 exactly where the atom is in the reach of the kept clauses.
pub fn find_reach(program: &Marked, bytes: &mut [u8])
    requires { atom_count program.now.table ≤ length bytes.old }
    ensures { Reached (words_of program.now) (marks_of program.now) bytes.new }
{
    let mut missing: [Count; 2048] = [0; 2048];
    let mut queue = [0u16; 1024];
    Closure::new(program, bytes, &mut missing, &mut queue);
}
