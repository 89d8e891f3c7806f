// What a call answers: the questions of documents 01 and 02, the refusal that holds the first one answered no, the answer of every call, and the one
// number that it is for a caller in C.
#![tactic(auto)]

ghost use Rattle.std.specs.Prelude.{◌≡◌, ◌≤◌};
ghost use Rattle.answers.specs.Refusals.{refusal_number, refusal_place};
ghost use Rattle.answers.specs.Answers.{refusal_code, answer_code, Small};

// Questions about a call as a whole, by their numbers: their place is 0.
#[derive(Clone, Copy)]
pub enum CallQuestion {
    // 2 to 8,192 words.
    TableLength = 1,
    // As many marks as words.
    MarksLength = 9,
    // A list of whole steps, of at most 32,760 words.
    ListLength = 11,
    // Room for the reducer's list.
    ListRoom = 17,
    // Room for the reduced table.
    TableRoom = 18,
    // At most 16 entries.
    SetLength = 19,
    // At most 65,536 bytes.
    TextLength = 22,
    // A table slice of at least 8,192 words.
    TableSlice = 23,
    // Room for the text.
    TextRoom = 28,
    // At most 16 atoms.
    FewAtoms = 30,
    // Room for every stable model.
    ModelsRoom = 31,
}

// Questions about a word of the table, by their numbers: their place is its index, or that of its clause's first word.
#[derive(Clone, Copy)]
pub enum WordQuestion {
    // At most 1,024 atoms.
    AtomLimit = 2,
    // At most 2,048 clauses.
    ClauseLimit = 3,
    // Three count words are left.
    CountsLeft = 4,
    // As many words are left as the counts say.
    LiteralsLeft = 5,
    // An atom below n.
    AtomBelow = 6,
    // An atom above the one before it in its part.
    Ascending = 7,
    // No word is left over.
    AllUsed = 8,
    // A mark of 0 or 1, and 0 only at a clause's first word or a body atom.
    MarkAllowed = 10,
}

// Questions about a step of a list, by their numbers: their place is its number.
#[derive(Clone, Copy)]
pub enum StepQuestion {
    // A kind from 1 to 8.
    KindKnown = 12,
    // A target that is kept.
    TargetKept = 13,
    // A partner that is kept and another clause, or 0 where unused.
    PartnerKept = 14,
    // An atom below n, or 0 where unused.
    AtomKnown = 15,
    // For kind 3, the partner's head atom, where it has exactly one.
    AtomMatches = 29,
    // For kind 7, an atom in the head of a kept clause.
    AtomHeaded = 32,
    // The kind's condition.
    ConditionHolds = 16,
}

// Questions about an entry of a set, by their numbers: their place is its index.
#[derive(Clone, Copy)]
pub enum EntryQuestion {
    // An atom below n.
    EntryBelow = 20,
    // An entry above the one before it.
    EntryAscending = 21,
}

// Questions about a text, by their numbers: their place is the first byte of a line, or the first byte left over.
#[derive(Clone, Copy)]
pub enum ByteQuestion {
    // At most 1,024 atoms.
    TextAtomLimit = 2,
    // At most 2,048 clauses.
    TextClauseLimit = 3,
    // Atoms below n.
    TextAtomBelow = 6,
    // The line is there, with its key, "=" and a line feed.
    LineThere = 24,
    // The value is in form.
    ValueInForm = 25,
    // At most 8,192 words so far.
    WordLimit = 26,
    // No byte is left.
    TextAllUsed = 27,
}

// The first question that is answered no, with the place of what it asks about.
#[derive(Clone, Copy)]
pub enum Refusal {
    Call(CallQuestion),
    Word(WordQuestion, usize),
    Step(StepQuestion, usize),
    Entry(EntryQuestion, usize),
    Byte(ByteQuestion, usize),
}

// The answer of a call: the value of one that is taken, or the first question that is answered no.
pub type Answer = Result<usize, Refusal>;

// ---- numbers and places

// The number of a refusal's question.
pub fn refusal_number(x: Refusal) -> u64
    ensures { result ≡ refusal_number x }
{
    match x {
        Refusal::Call(q) => q as u64,
        Refusal::Word(q, _) => q as u64,
        Refusal::Step(q, _) => q as u64,
        Refusal::Entry(q, _) => q as u64,
        Refusal::Byte(q, _) => q as u64,
    }
}

// Its place, 0 where it has none.
pub fn refusal_place(x: Refusal) -> usize
    ensures { result ≡ refusal_place x }
{
    match x {
        Refusal::Call(_) => 0,
        Refusal::Word(_, at) => at,
        Refusal::Step(_, at) => at,
        Refusal::Entry(_, at) => at,
        Refusal::Byte(_, at) => at,
    }
}

// ---- one number

// What a question's number counts in an answer: places are below it.
const PLACES: u64 = 1 << 48;

// Number times 2^48 plus place. Every call's places are at most 65,536.
pub fn refusal_code(x: Refusal) -> u64
    requires { refusal_place x ≤ 65536 }
    ensures { result ≡ refusal_code x }
{
    refusal_number(x) * PLACES + refusal_place(x) as u64
}

// An answer as one number.
pub fn answer_code(x: Answer) -> u64
    requires { Small x }
    ensures { result ≡ answer_code x }
{
    match x {
        Ok(k) => k as u64,
        Err(r) => refusal_code(r),
    }
}
