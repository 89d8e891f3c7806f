// Questions 1 to 8 asked of a table.
#![tactic(auto)]

ghost use Rattle.std.specs.Prelude.{◌≡◌, ◌-◌, ◌≤◌, length};
ghost use Rattle.table.specs.Questions.{part_from, parts_from, clause_from, table_of};

use answers::{CallQuestion, Refusal, WordQuestion};
use table::Table;

// Questions 6 and 7 for the words from `at` up to `end`.
pub fn check_part(words: &[u16], at: usize, end: usize, atoms: u16) -> Result<usize, Refusal>
    requires { (at ≤ end) × (end ≤ length words.now) }
    ensures { result ≡ part_from words.now atoms 0 at (end - at) }
{
    // The place is what a refusal names, so the loop goes by it.
    let mut low: u16 = 0;
    for i in at..end {
        let w = words[i];
        if atoms <= w {
            return Err(Refusal::Word(WordQuestion::AtomBelow, i));
        }
        if w < low {
            return Err(Refusal::Word(WordQuestion::Ascending, i));
        }
        low = w + 1;
    }
    Ok(end)
}

// The three parts of a clause: the words from `a` to `b`, from `b` to `c` and from `c` to `d`.
pub fn check_parts(
    words: &[u16],
    a: usize,
    b: usize,
    c: usize,
    d: usize,
    atoms: u16,
) -> Result<usize, Refusal>
    requires { (a ≤ b) × ((b ≤ c) × ((c ≤ d) × (d ≤ length words.now))) }
    ensures { result ≡ parts_from words.now atoms a b c d }
{
    check_part(words, a, b, atoms)?;
    check_part(words, b, c, atoms)?;
    check_part(words, c, d, atoms)
}

// Questions 4 to 7 for the clause whose first word is at `at`.
pub fn check_clause(words: &[u16], at: usize, atoms: u16) -> Result<usize, Refusal>
    requires { at ≤ length words.now }
    ensures { result ≡ clause_from words.now atoms at }
{
    let left = words.len() - at;
    if left < 3 {
        return Err(Refusal::Word(WordQuestion::CountsLeft, at));
    }
    let h = usize::from(words[at]);
    let p = usize::from(words[at + 1]);
    let q = usize::from(words[at + 2]);
    if left - 3 < h + p + q {
        return Err(Refusal::Word(WordQuestion::LiteralsLeft, at));
    }
    let a = at + 3;
    let b = a + h;
    let c = b + p;
    check_parts(words, a, b, c, c + q, atoms)
}

// Questions 1 to 8.
pub fn check_table(words: &[u16]) -> Result<Table, Refusal>
    ensures { result ≡ table_of words.now }
{
    let len = words.len();
    if len < 2 {
        return Err(Refusal::Call(CallQuestion::TableLength));
    }
    if Table::MAX_WORDS < len {
        return Err(Refusal::Call(CallQuestion::TableLength));
    }
    let atoms = words[0];
    if Table::MAX_ATOMS < atoms {
        return Err(Refusal::Word(WordQuestion::AtomLimit, 0));
    }
    let clauses = words[1];
    if Table::MAX_CLAUSES < clauses {
        return Err(Refusal::Word(WordQuestion::ClauseLimit, 1));
    }
    let mut at: usize = 2;
    for k in 0..clauses {
        at = check_clause(words, at, atoms)?;
    }
    if at < len {
        return Err(Refusal::Word(WordQuestion::AllUsed, at));
    }
    Ok(Table::new(atoms, clauses, len))
}
