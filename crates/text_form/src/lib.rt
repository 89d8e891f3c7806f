// The text form of a program: the types of its reader and writer. The definitions are in specs/, the theorems in proofs/.
#![tactic(auto)]

ghost use Rattle.std.specs.Prelude.{◌≡◌, ◌≤◌, length};

// Why the numbers of a value are not stored as they stand: one is not above the one before it, or the value is not in form.
#[derive(Clone, Copy)]
pub enum Disorder {
    Unordered,
    Malformed,
}

// A number of a value, and what stands behind its comma, if one follows.
#[derive(Clone, Copy)]
pub struct Item<'a> {
    pub number: u16,
    pub rest: Option<&'a [u8]>,
}

// A place in a text.
#[derive(Clone, Copy)]
pub struct Cursor {
    pub at: usize,
}

impl Cursor {
    // That place.
    pub fn new(at: usize) -> Cursor
        ensures { result ≡ record { at = at } }
    {
        Cursor { at }
    }
}

// A text that is read as far as a place in it.
#[derive(Clone, Copy)]
pub struct Unread<'a> {
    pub text: &'a [u8],
    pub at: usize,
    pub ghost inside: { at ≤ length text.now },
}

impl<'a> Unread<'a> {
    // The text from the cursor on.
    pub fn new(text: &'a [u8], from: Cursor) -> Unread<'a>
        requires { from.at ≤ length text.now }
        ensures place { result.at ≡ from.at }
        ensures same_text { result.text.now ≡ text.now }
    {
        Unread { text, at: from.at }
    }
}

// What a line or several come to: a number or how many words, with the text that is left.
#[derive(Clone, Copy)]
pub struct Line<'a> {
    pub count: usize,
    pub next: Unread<'a>,
}
