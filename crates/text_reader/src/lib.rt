// The reader of the text form, line by line: questions 22, 23 and 27, with 2 and 3.
#![tactic(auto)]

ghost use Rattle.std.specs.Prelude.{◌≡◌, ◌+◌, ◌≤◌, ◌<◌, length, set};
ghost use Rattle.table.specs.Encoding.{clause_words, clauses_words, encode};
ghost use Rattle.text_form.specs.Reader.{count_at, clause_at, clauses_at, rest_at, program_at, read_answer, table_after};
ghost use Rattle.text_form.specs.Stored.{Numbers, Stores};

// Casts by `as` lose nothing, which the check proves: `try_from` would give an error that never comes.

use answers::{Answer, ByteQuestion, CallQuestion, Refusal};
use table::Table;
use text_form::{Cursor, Line, Unread};

// A line whose value is a number up to a limit, which question 2 or 3 asks.
pub fn read_count<'a>(
    c: Unread<'a>,
    key: &[u8],
    limit: u16,
    q: ByteQuestion,
) -> Result<Line<'a>, Refusal>
    ensures { Numbers (count_at c.entry.text.now key.now limit q c.entry.at) c.entry.text.now result }
{
    let line = text_lines::read_number(c, key)?;
    if usize::from(limit) < line.count {
        return Err(Refusal::Byte(q, c.at));
    }
    Ok(line)
}

// The three counts of a clause.
fn put_counts(words: &mut [u16; Table::MAX_WORDS], at: usize, h: usize, p: usize, q: usize)
    requires place { at + 2 < 8192 }
    requires head { h ≤ 8192 }
    requires pos { p ≤ 8192 }
    requires neg { q ≤ 8192 }
    ensures { words.new ≡ set (set (set words.old at h) (at + 1) p) (at + 2) q }
{
    words[at] = h as u16;
    words[at + 1] = p as u16;
    words[at + 2] = q as u16;
}

// The words and the place `used` stay two parameters: the counts, which stand before the lists, are stored last, so that a struct of both would be wound back.
// The text is handed on as it was lent: out of an answer it would be copied in one piece right after it was stored in two, which takes as long as a short line.
// A clause: its three lines. Its words are stored from the place `used` on.
pub fn read_clause<'a>(
    c: Unread<'a>,
    atoms: u16,
    words: &mut [u16; Table::MAX_WORDS],
    used: usize,
) -> Result<Line<'a>, Refusal>
    requires { used ≤ 8192 }
    ensures { Stores clause_words (clause_at c.entry.text.now atoms used c.entry.at) c.entry.text.now result used words.old words.new }
{
    let a = used + 3;
    let head = text_lines::read_list(c, b"head=", atoms, words, a)?;
    let b = a + head.count;
    let at_pos = Unread {
        text: c.text,
        at: head.next.at,
    };
    let pos = text_lines::read_list(at_pos, b"pos=", atoms, words, b)?;
    let d = b + pos.count;
    let at_neg = Unread {
        text: c.text,
        at: pos.next.at,
    };
    let neg = text_lines::read_list(at_neg, b"neg=", atoms, words, d)?;
    put_counts(words, used, head.count, pos.count, neg.count);
    Ok(Line {
        count: 3 + head.count + pos.count + neg.count,
        next: neg.next,
    })
}

// The lines of the clauses: their words are stored from word 2 on.
fn read_clauses<'a>(
    c: Unread<'a>,
    atoms: u16,
    clauses: u16,
    words: &mut [u16; Table::MAX_WORDS],
) -> Result<Line<'a>, Refusal>
    ensures { Stores clauses_words (clauses_at c.entry.text.now atoms clauses 2 c.entry.at) c.entry.text.now result 2 words.old words.new }
{
    let mut used: usize = 2;
    let mut here = c;
    for k in 0..clauses {
        let line = read_clause(here, atoms, words, used)?;
        used += line.count;
        here = line.next;
    }
    Ok(Line {
        count: used - 2,
        next: here,
    })
}

// What follows the first two lines, and question 27: the whole table's words are stored from word 0 on.
fn read_rest<'a>(
    c: Unread<'a>,
    atoms: u16,
    clauses: u16,
    words: &mut [u16; Table::MAX_WORDS],
) -> Result<Line<'a>, Refusal>
    ensures { Stores encode (rest_at c.entry.text.now atoms clauses c.entry.at) c.entry.text.now result 0 words.old words.new }
{
    words[0] = atoms;
    words[1] = clauses;
    let line = read_clauses(c, atoms, clauses, words)?;
    let end = line.next.at;
    if end < c.text.len() {
        return Err(Refusal::Byte(ByteQuestion::TextAllUsed, end));
    }
    Ok(Line {
        count: 2 + line.count,
        next: line.next,
    })
}

// The lines of a whole text.
fn read_program<'a>(
    text: &'a [u8],
    words: &mut [u16; Table::MAX_WORDS],
) -> Result<Line<'a>, Refusal>
    ensures { Stores encode (program_at text.now) text.now result 0 words.old words.new }
{
    let start = Cursor::new(0);
    let all = Unread::new(text, start);
    let atoms = read_count(
        all,
        b"atoms=",
        Table::MAX_ATOMS,
        ByteQuestion::TextAtomLimit,
    )?;
    let clauses = read_count(
        atoms.next,
        b"clauses=",
        Table::MAX_CLAUSES,
        ByteQuestion::TextClauseLimit,
    )?;
    read_rest(
        clauses.next,
        atoms.count as u16,
        clauses.count as u16,
        words,
    )
}

// A text is read into the table slice: questions 22 and 23, then the lines. A refusal changes nothing.
pub fn read_text(text: &[u8], table: &mut [u16]) -> Answer
    ensures { (result ≡ read_answer text.now (length table.old)) × (table.new ≡ table_after text.now table.old) }
{
    if 65536 < text.len() {
        return Err(Refusal::Call(CallQuestion::TextLength));
    }
    if table.len() < Table::MAX_WORDS {
        return Err(Refusal::Call(CallQuestion::TableSlice));
    }
    let mut words = [0u16; Table::MAX_WORDS];
    match read_program(text, &mut words) {
        Ok(line) => {
            let n = line.count;
            table[..n].copy_from_slice(&words[..n]);
            Ok(n)
        }
        Err(r) => Err(r),
    }
}
