// The clauses of a table as masks, three a clause, bit a for atom a.
ghost use Rattle.std.specs.Prelude.{◌≡◌, ◌≤◌, length, map, take};
ghost use Rattle.table.specs.Questions.{Passed};
ghost use Rattle.table.specs.Places.{next_at};
ghost use Rattle.table.specs.Programs.{clause_of, program_of};
ghost use Rattle.models_list.specs.Masks.{part_mask, masks_of, enters_mask, reduct_holds};

// A clause as the masks of its head, its positive and its negative body.
#[derive(Clone, Copy)]
pub struct Masks {
    pub head: u16,
    pub pos: u16,
    pub neg: u16,
}

impl Masks {
    // The masks of the clause whose first word is at `at`.
    fn of(words: &[u16], at: usize) -> Masks
        requires { next_at words.now at ≤ length words.now }
        ensures { result ≡ masks_of (clause_of words.now at) }
    {
        Masks {
            head: part_mask(table_clauses::head_of(words, at)),
            pos: part_mask(table_clauses::pos_of(words, at)),
            neg: part_mask(table_clauses::neg_of(words, at)),
        }
    }

    // Whether the reduct by the set m keeps the clause, and m holds its positive atoms.
    pub fn enters(&self, m: u16) -> bool
        ensures { result ≡ enters_mask self.now m }
    {
        ((self.neg & m) | (self.pos - (self.pos & m))) == 0
    }

    // Whether the set m satisfies what the reduct by it leaves of the clause.
    pub fn holds(&self, m: u16) -> bool
        ensures { result ≡ reduct_holds self.now m m }
    {
        ((self.neg & m) | (self.pos - (self.pos & m)) | (self.head & m)) != 0
    }
}

// The mask of a part.
fn part_mask(part: &[u16]) -> u16
    ensures { result ≡ part_mask part.now }
{
    let atoms = [0u16, 1, 2, 3, 4, 5, 6, 7, 8, 9, 10, 11, 12, 13, 14, 15];
    models_masks::mask_of(&atoms, part)
}

// The masks of all clauses; how many clauses there are.
pub fn fill(words: &[u16], masks: &mut [Masks]) -> usize
    requires passed { Passed words.now }
    requires room { 2048 ≤ length masks.old }
    ensures count { result ≤ length masks.new }
    ensures masked { take result masks.new ≡ map masks_of (program_of words.now).clauses }
{
    let clauses = usize::from(words[1]);
    let mut at: usize = 2;
    // Index loop: where a clause starts comes from the one before, and a proof knows nothing of what is written through `iter_mut`.
    for k in 0..clauses {
        masks[k] = Masks::of(words, at);
        at = table::next_clause(words, at);
    }
    clauses
}
