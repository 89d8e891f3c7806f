// A part of a clause as slices from the table's middle: its kept atoms, and tests on them.

ghost use Rattle.std.specs.Prelude.{◌≡◌, ℕ, ◌≤◌, ◌<◌, length, get_or};
ghost use Rattle.std.specs.Iterator.{YieldsFirst, item_count};
ghost use Rattle.std.proofs.Props.{props};
ghost use Rattle.semantics.specs.Lists.{mem, within, null};
ghost use Rattle.table.specs.Slices.{kept_of};
ghost use Rattle.step_parts.specs.Parts.{Ascends, Sought, single_of};

// ---- tests on the words of a part

// The place of the first word that is not below the atom: by halves.
pub fn seek(part: &[u16], atom: u16) -> usize
    requires { Ascends part.now }
    ensures { Sought part.now atom result }
{
    part.partition_point(|word| *word < atom)
}

// The same from a place before which every word is below the atom: one word after the other.
pub fn skip(part: &[u16], from: usize, atom: u16) -> usize
    requires ascends { Ascends part.now }
    requires within { from ≤ length part.now }
    requires below { (i : ℕ) → i < from → get_or part.now i 0 < atom }
    ensures { Sought part.now atom result }
{
    let rest = &part[from..];
    from + rest
        .iter()
        .position(|word| atom <= *word)
        .unwrap_or(rest.len())
}

// Whether the atom, which was sought and would stand at `at`, stands there and is kept.
pub fn stands(part: &[u16], marks: &[u8], at: usize, atom: u16) -> bool
    requires long { length part.now ≤ length marks.now }
    requires ascends { Ascends part.now }
    requires sought { Sought part.now atom at }
    ensures { result ≡ mem atom (kept_of part.now marks.now) }
{
    if part.len() <= at {
        return false;
    }
    if part[at] != atom {
        return false;
    }
    marks[at] == 1
}

// Whether no atom of the part is kept.
pub fn part_empty(part: &[u16], marks: &[u8]) -> bool
    requires { length part.now ≤ length marks.now }
    ensures { result ≡ null (kept_of part.now marks.now) }
{
    let mut kept = Kept { words: part, marks };
    kept.next().is_none()
}

// The part's only kept atom.
pub fn part_single(part: &[u16], marks: &[u8]) -> Option<u16>
    requires { length part.now ≤ length marks.now }
    ensures { result ≡ single_of (kept_of part.now marks.now) }
{
    let mut kept = Kept { words: part, marks };
    let first = kept.next()?;
    if kept.next().is_some() {
        return None;
    }
    Some(first)
}

// ---- a part with its marks

// The kept atoms of a part, one after the other.
#[derive(Clone, Copy)]
pub struct Kept<'a> {
    pub words: &'a [u16],
    pub marks: &'a [u8],
    pub ghost long: { length words.now ≤ length marks.now },
}

impl<'a> Iterator for Kept<'a> {
    type Item = u16;

    ghost next_gives = { YieldsFirst (λ s. kept_of s.words.now s.marks.now) };

    ghost remaining = { item_count (λ s. kept_of s.words.now s.marks.now) };

    fn next(&mut self) -> Option<u16> {
        while let Some((word, words)) = self.words.split_first() {
            let mark = self.marks[0];
            self.words = words;
            self.marks = &self.marks[1..];
            if mark == 1 {
                return Some(*word);
            }
        }
        None
    }
}

// The words of a part, which ascend, and their marks.
#[derive(Clone, Copy)]
pub struct Atoms<'a> {
    pub words: &'a [u16],
    pub marks: &'a [u8],
    pub ghost long: { length words.now ≤ length marks.now },
    pub ghost ascends: { Ascends words.now } by { Prim.hlevel props },
}

impl<'a> Atoms<'a> {
    // The kept atoms, one after the other.
    pub fn kept(&self) -> Kept<'a>
        ensures words { result.words ≡ self.now.words }
        ensures marks { result.marks ≡ self.now.marks }
    {
        Kept {
            words: self.words,
            marks: self.marks,
        }
    }

    // Whether the atom is a kept one of the part.
    pub fn has(&self, atom: u16) -> bool
        ensures { result ≡ mem atom (kept_of self.now.words.now self.now.marks.now) }
    {
        stands(self.words, self.marks, seek(self.words, atom), atom)
    }

    // Whether each kept atom of the part is a kept one of the other: one walk of both.
    pub fn within(&self, other: &Atoms) -> bool
        ensures { result ≡ within (kept_of self.now.words.now self.now.marks.now) (kept_of other.now.words.now other.now.marks.now) }
    {
        let mut at: usize = 0;
        for atom in self.kept() {
            at = skip(other.words, at, atom);
            if !stands(other.words, other.marks, at, atom) {
                return false;
            }
        }
        true
    }
}
