// What a step of kind 9 opens among kinds 1 to 8, along the places of its atom in the index: the clauses that lost the atom are fresh partners, the atom and the heads of the
// clauses that went with it are fresh keys of kinds 4 and 6, and the reach is to be found anew.
#![tactic(auto)]

ghost use Rattle.std.specs.Prelude.{◌<◌};
ghost use Rattle.step_parts.specs.Reading.{clause_count, words_of, program_of};
ghost use Rattle.search_openings.specs.Opened.{Opened};
ghost use Rattle.search_removal.specs.Removed.{OpenAt, OpenAll, OpenParts, RemovalOpen};

use search_flags::{Flags, Row};
use step_parts::{Marked, Part};

// Clause t had the atom in that part: in its positive body, and it is gone, or in another, and it lost it.
fn open_clause(program: &Marked, flags: &mut Flags, part: Part, t: usize)
    requires { t < clause_count program.now.table }
    ensures opened { Opened flags.old flags.new }
    ensures fresh { OpenAt (program_of program.now) flags.new part t }
{
    match part {
        Part::Head => search_openings::open_partner(flags, t),
        Part::Pos => search_openings::open_head(program, flags, t),
        Part::Neg => search_openings::open_partner(flags, t),
    }
}

// So with each clause that has the atom in that part, also where it was dropped.
fn open_clauses(program: &Marked, flags: &mut Flags, part: Part, atom: u16)
    requires { atom < 1024 }
    ensures opened { Opened flags.old flags.new }
    ensures fresh { OpenAll (words_of program.now) (program_of program.now) flags.new part atom }
{
    for i in program.table.places(part, atom) {
        open_clause(program, flags, part, program.table.owner(i));
    }
}

// So with each part.
fn open_parts(program: &Marked, flags: &mut Flags, atom: u16)
    requires { atom < 1024 }
    ensures opened { Opened flags.old flags.new }
    ensures fresh { OpenParts (words_of program.now) (program_of program.now) flags.new atom }
{
    open_clauses(program, flags, Part::Head, atom);
    open_clauses(program, flags, Part::Pos, atom);
    open_clauses(program, flags, Part::Neg, atom);
}

// What the removal of the atom opens is flagged; the marks are those after it.
pub fn open_removal(program: &Marked, flags: &mut Flags, atom: u16)
    ensures opened { Opened flags.old flags.new }
    ensures fresh { RemovalOpen (words_of program.now) (program_of program.now) flags.new atom }
{
    flags.flag(Row::Reach, 0, 0);
    if 1024 <= atom {
        return;
    }
    search_openings::open_atom(flags, usize::from(atom));
    open_parts(program, flags, atom);
}
