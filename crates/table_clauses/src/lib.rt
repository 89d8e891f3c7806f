// The clauses of a table: their parts, and the next one.
#![tactic(auto)]

ghost use Rattle.std.specs.Prelude.{◌≡◌, ◌+◌, ◌≤◌, length};
ghost use Rattle.table.specs.Places.{next_at};
ghost use Rattle.table.specs.Programs.{clause_of};

// The head of the clause whose first word is at `at`.
pub fn head_of(words: &[u16], at: usize) -> &[u16]
    requires { next_at words.now at ≤ length words.now }
    ensures { result.now ≡ (clause_of words.now at).head }
{
    let a = at + 3;
    let b = a + usize::from(words[at]);
    &words[a..b]
}

// Its positive body.
pub fn pos_of(words: &[u16], at: usize) -> &[u16]
    requires { next_at words.now at ≤ length words.now }
    ensures { result.now ≡ (clause_of words.now at).pos }
{
    let a = at + 3 + usize::from(words[at]);
    let b = a + usize::from(words[at + 1]);
    &words[a..b]
}

// Its negative body.
pub fn neg_of(words: &[u16], at: usize) -> &[u16]
    requires { next_at words.now at ≤ length words.now }
    ensures { result.now ≡ (clause_of words.now at).neg }
{
    let a = at + 3 + usize::from(words[at]) + usize::from(words[at + 1]);
    let b = a + usize::from(words[at + 2]);
    &words[a..b]
}
