// The writer of the text form: questions 1 to 8, then 28. Its parts write numbers and lines one after the other into a lent slice.
#![tactic(auto)]

ghost use Rattle.std.specs.Prelude.{◌≡◌, ◌∷◌, [], ◌+◌, ◌%◌, ◌^◌, ◌≤◌, ◌<◌, length, drop, get_or};
ghost use Rattle.table.specs.Questions.{Passed};
ghost use Rattle.table.specs.Places.{next_at};
ghost use Rattle.table.specs.Programs.{clause_of, clauses_of};
ghost use Rattle.text_form.specs.Digits.{width, digits, others, commas};
ghost use Rattle.text_form.specs.Render.{line_text, clause_text, clauses_text};
ghost use Rattle.text_form.specs.Writer.{text_of, write_answer, out_after};
ghost use Rattle.text_form.specs.Stored.{Puts};
ghost use Rattle.text_writer.specs.Outputs.{HasRoom, Writes};

use answers::{Answer, CallQuestion, Refusal};

// How many digits a number has: one to four in a text, five for the place of a refusal.
pub fn number_width(v: usize) -> usize
    ensures { result ≡ width v }
{
    match v {
        0..=9 => 1,
        10..=99 => 2,
        100..=999 => 3,
        1000..=9999 => 4,
        10000..=65536 => 5,
        _ => 0,
    }
}

// The byte of the last decimal place.
fn digit(x: usize) -> u8
    ensures { result ≡ 48 + x % 10 }
{
    b'0' + (x % 10) as u8
}

// Bytes are put from a place on; the place past them.
// Index loop: one slice is read and another written at the same place. No `copy_from_slice`: with it an archive for C would need `memmove` from its caller.
fn put_at(out: &mut [u8], at: usize, bytes: &[u8]) -> usize
    requires { at + length bytes.now ≤ length out.old }
    ensures { Puts out.old out.new at result bytes.now }
{
    for i in 0..bytes.len() {
        out[at + i] = bytes[i];
    }
    at + bytes.len()
}

// What is written so far: the first `len` bytes of a lent slice.
#[derive(Drop)]
pub struct Output<'a> {
    pub bytes: &'a mut [u8],
    pub len: usize,
}

impl<'a> Output<'a> {
    // Nothing is written yet.
    pub fn new(bytes: &'a mut [u8]) -> Output<'a>
        ensures same_reference { result.bytes.ghost_name ≡ bytes.entry.ghost_name }
        ensures lent { result.bytes.now ≡ bytes.old }
        ensures empty { result.len ≡ 0 }
    {
        Output { bytes, len: 0 }
    }

    // A number's digits, the last one first. Index loop: each has its own place, counted down, which `iter_mut().rev()` says no more plainly.
    pub fn put_number(&mut self, v: usize)
        requires small { v ≤ 65536 }
        requires room { HasRoom self.old (digits v) }
        ensures same_reference { self.new.bytes.ghost_name ≡ self.old.bytes.ghost_name }
        ensures written { Writes self.old self.new (digits v) }
    {
        let w = number_width(v);
        let at = self.len;
        let mut left = v;
        for j in (0..w).rev() {
            self.bytes[at + j] = digit(left);
            left /= 10;
        }
        self.len = at + w;
    }

    // Bytes as they are.
    pub fn put_bytes(&mut self, bytes: &[u8])
        requires room { HasRoom self.old bytes.now }
        ensures same_reference { self.new.bytes.ghost_name ≡ self.old.bytes.ghost_name }
        ensures written { Writes self.old self.new bytes.now }
    {
        self.len = put_at(self.bytes, self.len, bytes);
    }

    // A comma and a number.
    pub fn put_next(&mut self, v: usize)
        requires small { v ≤ 65536 }
        requires room { HasRoom self.old (44 ∷ digits v) }
        ensures same_reference { self.new.bytes.ghost_name ≡ self.old.bytes.ghost_name }
        ensures written { Writes self.old self.new (44 ∷ digits v) }
    {
        self.put_bytes(b",");
        self.put_number(v);
    }

    // Numbers, each after a comma.
    fn put_others(&mut self, numbers: &[u16])
        requires room { HasRoom self.old (others numbers.now) }
        ensures same_reference { self.new.bytes.ghost_name ≡ self.old.bytes.ghost_name }
        ensures written { Writes self.old self.new (others numbers.now) }
    {
        for v in numbers {
            self.put_next(usize::from(*v));
        }
    }

    // Numbers joined by commas.
    pub fn put_list(&mut self, numbers: &[u16])
        requires room { HasRoom self.old (commas numbers.now) }
        ensures same_reference { self.new.bytes.ghost_name ≡ self.old.bytes.ghost_name }
        ensures written { Writes self.old self.new (commas numbers.now) }
    {
        if let Some((first, others)) = numbers.split_first() {
            self.put_number(usize::from(*first));
            self.put_others(others);
        }
    }

    // A line of a list: its key, its numbers, a line feed.
    pub fn put_line(&mut self, key: &[u8], numbers: &[u16])
        requires room { HasRoom self.old (line_text key.now (commas numbers.now)) }
        ensures same_reference { self.new.bytes.ghost_name ≡ self.old.bytes.ghost_name }
        ensures written { Writes self.old self.new (line_text key.now (commas numbers.now)) }
    {
        self.put_bytes(key);
        self.put_list(numbers);
        self.put_bytes(b"\n");
    }

    // A line of one number: its key, the number, a line feed.
    pub fn put_number_line(&mut self, key: &[u8], v: usize)
        requires small { v ≤ 65536 }
        requires room { HasRoom self.old (line_text key.now (digits v)) }
        ensures same_reference { self.new.bytes.ghost_name ≡ self.old.bytes.ghost_name }
        ensures written { Writes self.old self.new (line_text key.now (digits v)) }
    {
        self.put_bytes(key);
        self.put_number(v);
        self.put_bytes(b"\n");
    }

    // The three lines of the clause whose first word is at a place.
    fn put_clause(&mut self, words: &[u16], place: usize)
        requires inside { next_at words.now place ≤ length words.now }
        requires room { HasRoom self.old (clause_text (clause_of words.now place)) }
        ensures same_reference { self.new.bytes.ghost_name ≡ self.old.bytes.ghost_name }
        ensures written { Writes self.old self.new (clause_text (clause_of words.now place)) }
    {
        let head = place + 3;
        let pos = head + usize::from(words[place]);
        let neg = pos + usize::from(words[place + 1]);
        let end = neg + usize::from(words[place + 2]);
        self.put_line(b"head=", &words[head..pos]);
        self.put_line(b"pos=", &words[pos..neg]);
        self.put_line(b"neg=", &words[neg..end]);
    }

    // The lines of the table's clauses.
    fn put_clauses(&mut self, words: &[u16])
        requires passed { Passed words.now }
        requires room { HasRoom self.old (clauses_text (clauses_of words.now (get_or words.now 1 0) 2)) }
        ensures same_reference { self.new.bytes.ghost_name ≡ self.old.bytes.ghost_name }
        ensures written { Writes self.old self.new (clauses_text (clauses_of words.now (get_or words.now 1 0) 2)) }
    {
        let mut place: usize = 2;
        for k in 0..words[1] {
            self.put_clause(words, place);
            place = table::next_clause(words, place);
        }
    }

    // The text of a table that passed questions 1 to 8.
    pub fn put_text(&mut self, words: &[u16])
        requires passed { Passed words.now }
        requires room { HasRoom self.old (text_of words.now) }
        ensures same_reference { self.new.bytes.ghost_name ≡ self.old.bytes.ghost_name }
        ensures written { Writes self.old self.new (text_of words.now) }
    {
        self.put_number_line(b"atoms=", usize::from(words[0]));
        self.put_number_line(b"clauses=", usize::from(words[1]));
        self.put_clauses(words);
    }
}

// A table is written as text: questions 1 to 8, then 28. A refusal changes nothing.
pub fn write_text(words: &[u16], out: &mut [u8]) -> Answer
    ensures { (result ≡ write_answer words.now (length out.old)) × (out.new ≡ out_after words.now out.old) }
{
    let checked = table_questions::check_table(words);
    let Ok(_) = checked else {
        return checked.map(|_| 0);
    };
    let mut text = [0u8; 43022];
    let mut output = Output::new(&mut text);
    output.put_text(words);
    let n = output.len;
    if out.len() < n {
        return Err(Refusal::Call(CallQuestion::TextRoom));
    }
    out[..n].copy_from_slice(&output.bytes[..n]);
    Ok(n)
}
