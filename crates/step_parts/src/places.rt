// The places of an atom in such a part of any clause, from the last one down, along the index.

ghost use Rattle.std.specs.Prelude.{◌≡◌, ℕ, ◌≤◌, ◌<◌, length, get_or};
ghost use Rattle.std.proofs.Props.{props};
ghost use Rattle.step_parts.specs.Parts.{Stands, owner_at};

use crate::{Indexed, Part};

// Where the walk is: at a place where the atom stands in the part, or at 0, past the first.
#[derive(Clone, Copy)]
pub struct Places<'a> {
    pub table: Indexed<'a>,
    pub part: Part,
    pub atom: u16,
    pub at: usize,
    pub ghost stands: { 0 < at → (at < length table.words.now) × Stands table.words.now part atom (get_or table.index.now (owner_at at) 0) at } by { Prim.hlevel props },
}

impl<'a> Iterator for Places<'a> {
    ghost use Rattle.std.specs.Iterator.{at_most};
    ghost use Rattle.step_parts.specs.Reading.{PlaceBefore};

    type Item = usize;

    ghost next_gives = { PlaceBefore };

    ghost remaining = { λ s. at_most s.at };

    fn next(&mut self) -> Option<usize> {
        let place = self.at;
        if place == 0 {
            return None;
        }
        self.at = self.table.place_before(place);
        Some(place)
    }
}
