// What the lines of cases are made of: printing, numbers and bytes read from a line, and sums over digits. It uses no call of the library.
#![tactic(auto)]

ghost use Rattle.std.specs.Prelude.{◌≡◌, ℕ, ◌<◌, ◌≤◌, length, get_or, min};
ghost use Rattle.cases_lines.specs.Signs.{sign_of, mark_of};

use text_writer::Output;

mod displays;

pub use displays::{Answered, Marks, Text, Words};

// The descriptor of standard output.
const STDOUT_FILENO: i32 = 1;

// Elements of most arrays: how many numbers before and after the colon, and how many bytes of a text, are read.
pub const SIZE: usize = 128;

// Elements of those that hold any table.
pub const WORDS: usize = 8200;

// What a question's number counts in the answer of a call.
const PLACES: u64 = 1 << 48;

// ---- printing

// A write that fails is passed over.
pub fn print(bytes: &[u8]) {
    io::write_all(STDOUT_FILENO, bytes);
}

fn print_decimal(x: u64) {
    io::print_decimal(STDOUT_FILENO, x);
}

pub fn print_number(x: usize) {
    print_decimal(x as u64);
}

pub fn print_word(w: u16) {
    print_decimal(u64::from(w));
}

// The first n words, each with a comma behind it.
pub fn print_words(words: &[u16], n: usize) {
    print(b" words=");
    for word in words.iter().take(n) {
        print_word(*word);
        print(b",");
    }
}

// The first n marks.
pub fn print_marks(marks: &[u8], n: usize) {
    print(b" marks=");
    for mark in marks.iter().take(n) {
        print_decimal(u64::from(*mark));
    }
}

// The first n bytes, a line feed as a slash.
pub fn print_text(text: &[u8], n: usize) {
    print(b" text=");
    for byte in text.iter().take(n) {
        print(&[exchanged(*byte)]);
    }
}

// The answer of a call: its value, or the number and place of the question that refuses it.
pub fn print_answer(a: u64) {
    match a / PLACES {
        0 => print(b"taken="),
        number => {
            print(b"refused=");
            print_decimal(number);
            print(b",");
        }
    }
    print_decimal(a % PLACES);
}

// As many of the words as were written and two more; two for a refusal.
pub fn shown(a: u64) -> usize {
    if a < 8198 { a as usize + 2 } else { 2 }
}

// ---- reading

// A number of a text, or 0 where it is above 65,535.
fn number(digits: &[u8]) -> u16 {
    let mut value: u16 = 0;
    for digit in digits {
        let Some(next) = value
            .checked_mul(10)
            .and_then(|v| v.checked_add(u16::from(*digit & 15)))
        else {
            return 0;
        };
        value = next;
    }
    value
}

// The numbers that stand in a text between other bytes, as far as there is room; how many.
pub fn numbers(text: &[u8], out: &mut [u16]) -> usize
    ensures { result ≤ length out.new }
{
    let mut n = 0;
    for digits in text
        .split(|b| !b.is_ascii_digit())
        .filter(|digits| !digits.is_empty())
    {
        if n == out.len() {
            break;
        }
        out[n] = number(digits);
        n += 1;
    }
    n
}

// The numbers of one part of a case.
pub fn read_numbers<'a>(text: &[u8], out: &'a mut [u16; SIZE]) -> &'a [u16]
    ensures { length result.now ≤ 128 }
{
    let n = numbers(text, out);
    &out[..n]
}

// How many elements are lent: the number of the case at that place, at most two fewer than are printed.
pub fn room(rest: &[u16], i: usize) -> usize
    ensures { result ≡ min (get_or rest.now i 0) 126 }
{
    usize::from(given(rest, i)).min(SIZE - 2)
}

// A number of the case, or 0.
pub fn given(words: &[u16], i: usize) -> u16
    ensures { result ≡ get_or words.now i 0 }
{
    words.get(i).copied().unwrap_or(0)
}

// The byte that a sign of a text stands for, and a slash for a line feed.
fn exchanged(b: u8) -> u8
    ensures { result ≡ sign_of b }
{
    match b {
        b'/' => b'\n',
        b'\n' => b'/',
        b'~' => b'\r',
        b'^' => 0,
        b'_' => b'\t',
        _ => b,
    }
}

// The bytes that the signs of a text stand for, as far as there is room; how many there are.
// Index loop: each byte is written at its own place.
pub fn exchange(text: &[u8], out: &mut [u8]) -> usize
    ensures count { result ≡ length text.now }
    ensures read { (k : ℕ) → k < length text.now → k < length out.old → get_or out.new k 0 ≡ sign_of (get_or text.now k 0) }
{
    for i in 0..text.len().min(out.len()) {
        out[i] = exchanged(text[i]);
    }
    text.len()
}

// A number as a mark, 0 for one that is no byte.
fn mark(w: u16) -> u8
    ensures { result ≡ mark_of w }
{
    u8::try_from(w).unwrap_or(0)
}

// The numbers as marks, as far as there is room; how many there are. Index loop: each mark is written at its own place.
pub fn to_marks(rest: &[u16], marks: &mut [u8]) -> usize
    ensures count { result ≡ length rest.now }
    ensures read { (k : ℕ) → k < length rest.now → k < length marks.old → get_or marks.new k 0 ≡ mark_of (get_or rest.now k 0) }
{
    for i in 0..rest.len().min(marks.len()) {
        marks[i] = mark(rest[i]);
    }
    rest.len()
}

// ---- digits

// A sum over bytes, after a byte more: 31 times as much and the byte, modulo 65,521.
fn mixed(sum: usize, byte: u8) -> usize {
    (sum % 65521 * 31 + usize::from(byte)) % 65521
}

// The digits of a number, at the beginning; how many.
fn put_digits(text: &mut [u8; SIZE], v: usize) -> usize
    requires { v ≤ 65536 }
    ensures { result ≤ 5 }
{
    let mut output = Output::new(text);
    output.put_number(v);
    output.len
}

// How many numbers, how many bytes they have, and the sum over these.
fn print_sums(count: usize, bytes: usize, sum: usize) {
    print(b"numbers=");
    print_number(count);
    print(b" bytes=");
    print_number(bytes);
    print(b" sum=");
    print_number(sum);
}

// Each number is written over the one before it, which has no more digits.
pub fn run_digits(words: &[u16]) {
    let first = usize::from(given(words, 0));
    let last = (first + usize::from(given(words, 1))).min(65536);
    let mut text = [b'.'; SIZE];
    let mut shown = 0;
    let mut bytes: usize = 0;
    let mut sum = 0;
    for v in first..last + 1 {
        let n = put_digits(&mut text, v);
        bytes = bytes.saturating_add(n);
        sum = text[..n].iter().fold(sum, |s, b| mixed(s, *b));
        shown = n;
    }
    print_sums(last + 1 - first, bytes, sum);
    print_text(&text, shown.min(5) + 2);
}
