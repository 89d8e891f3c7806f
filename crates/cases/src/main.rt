// Runs the cases that standard input gives, one a line, and prints a line for each: the call's answer, then the memory lent for writing with
// two elements past it. A line that begins with # is printed as it is. A case is the call's name and numbers, then a colon and more:
//
//   table WORDS              the check of a table; taken, its numbers of atoms, clauses and words
//   cycle WORDS              the cycle answer
//   set WORDS : ENTRIES      the test of a set
//   models WORDS : L         all stable models, with room for L words, each 9
//   list WORDS : K LIST      the check of a list, with K marks, each 7
//   reduce WORDS : K L       the reducer, with K marks, each 7, and L list words, each 9
//   kept WORDS : L MARKS     the reduced table, with room for L words, each 9
//   write WORDS : L          the text of a table, with room for L bytes, each a dot
//   parse L:TEXT             the table of a text, with room for L words, each 7
//   digits V W               the digits of the numbers from V to V + W, as far as 65,536: how many numbers and bytes, a sum over
//                            the bytes in their order, and the last number's bytes, written over dots
//
// In a text a slash stands for a line feed, a tilde for a carriage return, a caret for NUL and an underscore for a tab.
// At most 128 numbers before and after the colon, and 128 bytes of a text, are read.
#![tactic(auto)]

use cases_lines::{SIZE, WORDS};

// The descriptor of standard input.
const STDIN_FILENO: i32 = 0;

// What a case calls, by the first byte of its line.
#[derive(Clone, Copy)]
enum Call {
    Table,
    Cycle,
    Set,
    Models,
    List,
    Reduce,
    Kept,
    Digits,
    Write,
}

impl From<u8> for Call {
    fn from(name: u8) -> Call {
        match name {
            b't' => Call::Table,
            b'c' => Call::Cycle,
            b's' => Call::Set,
            b'm' => Call::Models,
            b'l' => Call::List,
            b'r' => Call::Reduce,
            b'k' => Call::Kept,
            b'd' => Call::Digits,
            _ => Call::Write,
        }
    }
}

// ---- the calls
//
// Each that lends arrays has a frame of its own on the stack, so that a line needs room for what it calls alone.

fn run_table(words: &[u16]) {
    cases_lines::print_answer(gambrolt::gambrolt_check_table(words));
    let Ok(t) = table_questions::check_table(words) else {
        return;
    };
    cases_lines::print(b" table=");
    cases_lines::print_word(t.atoms);
    cases_lines::print(b",");
    cases_lines::print_word(t.clauses);
    cases_lines::print(b",");
    cases_lines::print_number(t.words);
}

#[inline(never)]
fn run_list(words: &[u16], rest: &[u16]) {
    let Some((_, list)) = rest.split_first() else {
        return;
    };
    let k = cases_lines::room(rest, 0);
    let mut marks = [7u8; SIZE];
    cases_lines::print_answer(gambrolt::gambrolt_check(words, &mut marks[..k], list));
    cases_lines::print_marks(&marks, k + 2);
}

#[inline(never)]
fn run_reduce(words: &[u16], rest: &[u16]) {
    let k = cases_lines::room(rest, 0);
    let l = cases_lines::room(rest, 1);
    let mut marks = [7u8; SIZE];
    let mut list = [9u16; SIZE];
    cases_lines::print_answer(gambrolt::gambrolt_reduce(words, &mut marks[..k], &mut list[..l]));
    cases_lines::print_marks(&marks, k + 2);
    cases_lines::print_words(&list, l + 2);
}

#[inline(never)]
fn run_kept(words: &[u16], rest: &[u16]) {
    let mut given = [0u8; SIZE];
    let n = cases_lines::to_marks(rest, &mut given).min(SIZE);
    let Some((_, marks)) = given[..n].split_first() else {
        return;
    };
    let l = cases_lines::room(rest, 0);
    let mut left = [9u16; SIZE];
    cases_lines::print_answer(gambrolt::gambrolt_reduced_table(words, marks, &mut left[..l]));
    cases_lines::print_words(&left, l + 2);
}

#[inline(never)]
fn run_models(words: &[u16], rest: &[u16]) {
    let l = cases_lines::room(rest, 0);
    let mut models = [9u16; SIZE];
    cases_lines::print_answer(gambrolt::gambrolt_models(words, &mut models[..l]));
    cases_lines::print_words(&models, l + 2);
}

#[inline(never)]
fn run_write(words: &[u16], rest: &[u16]) {
    let l = cases_lines::room(rest, 0);
    let mut text = [b'.'; SIZE];
    cases_lines::print_answer(gambrolt::gambrolt_write_text(words, &mut text[..l]));
    cases_lines::print_text(&text, l + 2);
}

// A table of any size, and two words past it.
#[inline(never)]
fn run_parse(text: &[u8], room: u16) {
    let mut words = [7u16; WORDS];
    let answer = gambrolt::gambrolt_read_text(text, &mut words[..usize::from(room).min(WORDS - 2)]);
    cases_lines::print_answer(answer);
    cases_lines::print_words(&words, cases_lines::shown(answer));
}

// ---- the lines

fn run(call: Call, words: &[u16], rest: &[u16]) {
    match call {
        Call::Table => run_table(words),
        Call::Cycle => cases_lines::print_answer(gambrolt::gambrolt_cycle(words)),
        Call::Set => cases_lines::print_answer(gambrolt::gambrolt_test(words, rest)),
        Call::Models => run_models(words, rest),
        Call::List => run_list(words, rest),
        Call::Reduce => run_reduce(words, rest),
        Call::Kept => run_kept(words, rest),
        Call::Digits => cases_lines::run_digits(words),
        Call::Write => run_write(words, rest),
    }
}

// A case whose parts are numbers.
fn run_numbers(call: Call, before: &[u8], after: &[u8]) {
    let mut words = [0u16; SIZE];
    let mut rest = [0u16; SIZE];
    run(
        call,
        cases_lines::read_numbers(before, &mut words),
        cases_lines::read_numbers(after, &mut rest),
    );
}

// A case whose second part is a text; none where there is no colon.
fn run_text(before: &[u8], after: &[u8]) {
    let Some((_, signs)) = after.split_first() else {
        return;
    };
    let mut room = [0u16; 1];
    let mut text = [0u8; SIZE];
    cases_lines::numbers(before, &mut room);
    let n = cases_lines::exchange(signs, &mut text).min(SIZE);
    run_parse(&text[..n], room[0]);
}

// A line: a heading, or a case with a colon between its parts.
fn run_line(line: &[u8]) {
    let Some(first) = line.first() else {
        return;
    };
    let colon = line.iter().position(|b| *b == b':');
    let (before, after) = line.split_at(colon.unwrap_or(line.len()));
    match *first {
        b'#' => cases_lines::print(line),
        b'p' => run_text(before, after),
        name => run_numbers(Call::from(name), before, after),
    }
}

// A line feed ends each line; the last one may lack it.
fn run_lines(text: &[u8]) {
    if text.is_empty() {
        return;
    }
    let lines = text.strip_suffix(b"\n").unwrap_or(text);
    for line in lines.split(|b| *b == b'\n') {
        run_line(line);
        cases_lines::print(b"\n");
    }
}

fn main() {
    let mut text = io::large_buffer();
    let n = io::read_full(STDIN_FILENO, &mut text);
    run_lines(&text[..n]);
}
