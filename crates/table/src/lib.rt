// The table of a ground program: its limits, and questions 1 to 8 as definitions.
#![tactic(auto)]

ghost use Rattle.std.specs.Prelude.{◌≡◌, ◌≤◌, ◌<◌, length};
ghost use Rattle.table.specs.Places.{next_at};

// A table that passed questions 1 to 8: its numbers.
#[derive(Clone, Copy)]
pub struct Table {
    pub atoms: u16,
    pub clauses: u16,
    pub words: usize,
}

impl Table {
    pub const MAX_ATOMS: u16 = 1024;

    pub const MAX_CLAUSES: u16 = 2048;

    pub const MAX_WORDS: usize = 8192;

    pub fn new(atoms: u16, clauses: u16, words: usize) -> Table
        ensures { result ≡ record { atoms = atoms; clauses = clauses; words = words } }
    {
        Table {
            atoms,
            clauses,
            words,
        }
    }
}

// The first word of the clause after the one at `at`.
pub fn next_clause(words: &[u16], at: usize) -> usize
    requires { next_at words.now at ≤ length words.now }
    ensures { result ≡ next_at words.now at }
{
    at + 3 + usize::from(words[at]) + usize::from(words[at + 1]) + usize::from(words[at + 2])
}
