// The search for a cycle: one chain is followed as far as it goes, then back. Each head word and each word of a positive body is passed once.
// `as u16`: a place is below 8,192, which is proved; `try_from` would have an error that cannot come.
ghost use Rattle.std.specs.Prelude.{◌≡◌, ◌<◌, get_or, is_err};
ghost use Rattle.table.specs.Programs.{program_of};
ghost use Rattle.table.specs.Questions.{Passed};
ghost use Rattle.dependency.specs.Decide.{cyclic};

use step_parts::{INDEX, Indexed, Part};

// Where an atom is in the search.
#[derive(Clone, Copy)]
pub enum State {
    // It was not met.
    Unmet,
    // It is on the chain that is followed.
    OnChain,
    // Every chain from it ends.
    Ended,
}

// Some atom leads back to itself.
#[derive(Clone, Copy)]
pub struct Cycle;

// How far the search has come: for each atom the place in a head at which it is, its state, and the atom before it on the chain that is followed; for
// each clause, 8,192 less the atoms of its positive body that end.
#[derive(Drop)]
pub struct Trail {
    places: [u16; 1024],
    states: [State; 1024],
    parents: [Option<u16>; 1024],
    left: [u16; 2048],
}

impl Trail {
    ghost use Rattle.cycle.specs.Search.{none, At, Start, MovedTo, ExploredTo, VisitedTo, LookedAt};
    ghost use Rattle.step_parts.specs.Reading.{atom_count};

    // Nothing is searched: each atom is at its last place in a head.
    fn new(table: &Indexed) -> Trail
        ensures { Start table.now result }
    {
        let mut places = [0u16; 1024];
        // By the atom's number: the places past the table's atoms stay 0.
        for atom in 0..table.words[0] {
            places[usize::from(atom)] = table.last_place(Part::Head, atom) as u16;
        }
        Trail {
            places,
            states: [State::Unmet; 1024],
            parents: [None; 1024],
            left: [8192; 2048],
        }
    }

    // At the last atom of the chain, whose clause has the atom `next` in its positive body.
    fn look(&mut self, last: u16, clause: usize, next: u16) -> Result<Option<u16>, Cycle>
        requires next { next < 1024 }
        requires clause { clause < 2048 }
        requires left { 0 < get_or self.old.left clause 0 }
        ensures { LookedAt self.old self.new last clause next result }
    {
        let i = usize::from(next);
        match self.states[i] {
            State::OnChain => Err(Cycle),
            State::Ended => {
                self.left[clause] -= 1;
                Ok(Some(last))
            }
            State::Unmet => {
                self.states[i] = State::OnChain;
                self.parents[i] = Some(last);
                Ok(Some(next))
            }
        }
    }

    // One move from the last atom of the chain that is followed; the last atom then, if there is one.
    fn advance(&mut self, table: &Indexed, last: u16) -> Result<Option<u16>, Cycle>
        requires { At table.now self.old last }
        ensures { MovedTo table.now self.old self.new result }
    {
        let a = usize::from(last);
        let place = usize::from(self.places[a]);
        if place == 0 {
            self.states[a] = State::Ended;
            return Ok(self.parents[a]);
        }
        let clause = table.owner(place);
        let passed = 8192 - usize::from(self.left[clause]);
        let pos = table_clauses::pos_of(table.words, table.first_word(clause));
        if pos.len() <= passed {
            self.places[a] = table.place_before(place) as u16;
            return Ok(Some(last));
        }
        self.look(last, clause, pos[passed])
    }

    // All moves from the atom on, until the chain is empty or a cycle is found.
    fn explore(&mut self, table: &Indexed, root: u16) -> Result<(), Cycle>
        requires { At table.now self.old root }
        ensures { ExploredTo table.now self.old self.new result }
    {
        let mut last = Some(root);
        while let Some(atom) = last {
            last = self.advance(table, atom)?;
        }
        Ok(())
    }

    // The search from the atom, if it does not end already.
    fn visit(&mut self, table: &Indexed, atom: u16) -> Result<(), Cycle>
        requires idle { At table.now self.old none }
        requires below { atom < atom_count table.now }
        ensures { VisitedTo table.now self.old self.new atom result }
    {
        let i = usize::from(atom);
        if let State::Ended = self.states[i] {
            return Ok(());
        }
        self.states[i] = State::OnChain;
        self.parents[i] = None;
        self.explore(table, atom)
    }

    // The search from every atom.
    fn sweep(&mut self, table: &Indexed) -> Result<(), Cycle>
        requires { Start table.now self.old }
        ensures { is_err result ≡ cyclic (program_of table.now.words.now).clauses }
    {
        for atom in 0..table.words[0] {
            self.visit(table, atom)?;
        }
        Ok(())
    }
}

// Whether some atom leads back to itself.
pub fn find_cycle(words: &[u16]) -> bool
    requires { Passed words.now }
    ensures { result ≡ cyclic (program_of words.now).clauses }
{
    let mut index = [0u16; INDEX];
    let table = Indexed::new(words, &mut index);
    Trail::new(&table).sweep(&table).is_err()
}
