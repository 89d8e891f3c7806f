// Flags: rows of numbers, each row with bounds that its flags stand within.
#![tactic(auto)]

ghost use Rattle.std.specs.Prelude.{◌≡◌, ◌+◌, ◌*◌, ◌≤◌, ◌<◌, ◌↔◌, ◌≢◌, ◌++◌, List, ℕ, set, replicate, length, IsTrue};
ghost use Rattle.search_flags.specs.Flags.{flag_at, most, next, Flagged, Covered, lowest, highest, Raising, AllFlagged, Fenced, all_flags, highests, lowests, mosts, nexts};

use rewriting::Kind;
use std::marker::Model;

// A row: the single flag of the reach, those of the targets of a kind, or those of its keys.
#[derive(Clone, Copy)]
pub enum Row {
    Reach,
    Target(Kind),
    Key(Kind),
}

impl Row {
    ghost use Rattle.search_flags.specs.Numbers.{row_number};

    // The row's number.
    fn number(self) -> usize
        ensures { result ≡ row_number self }
    {
        match self {
            Row::Reach => 0,
            Row::Target(kind) => usize::from(kind.number()),
            Row::Key(kind) => 8 + usize::from(kind.number()),
        }
    }
}

// The flags of 17 rows, the rows' bounds, and what is known of each target and each clause. Clauses see one list, with the five one after the other.
#[derive(Drop)]
pub struct Flags {
    // By row and place one above the least key, or 0 for none.
    pub keys: [u16; 34816],
    // By row the place from which on it may have flags, and the place before which they end.
    pub lows: [u16; 17],
    pub ends: [u16; 17],
    // By target one above the greatest partner of kind 3 that it was flagged for.
    pub tops: [u16; 2048],
    // By clause a number up to which all clauses from it on are gone.
    pub gaps: [u16; 2048],
}

impl Model for Flags {
    ghost Value = { List ℕ };

    ghost view = { λ f. f.keys ++ f.lows ++ f.ends ++ f.tops ++ f.gaps };
}

// One above the least key of a flag, with one key more.
fn least_key(old: usize, key: usize) -> usize
    requires { key < 2048 }
    ensures some { 0 < result }
    ensures key { result ≤ key + 1 }
    ensures least { old ≢ 0 → result ≤ old }
{
    if old == 0 {
        return key + 1;
    }
    old.min(key + 1)
}

impl Flags {
    ghost use Rattle.search_flags.specs.Numbers.{row_number};

    // No flag at all.
    pub fn new() -> Self
        ensures { result ≡ replicate all_flags 0 }
    {
        Flags {
            keys: [0; 34816],
            lows: [0; 17],
            ends: [0; 17],
            tops: [0; 2048],
            gaps: [0; 2048],
        }
    }

    // ---- what is read

    // The flag at a place of a row: one above its least key, or 0.
    pub fn flag_at(&self, row: Row, i: usize) -> usize
        requires row { row_number row ≤ 16 }
        requires place { i < 2048 }
        ensures { result ≡ flag_at self.now (row_number row) i }
    {
        usize::from(self.keys[row.number() * 2048 + i])
    }

    // The place from which on a row may have flags.
    pub fn lowest(&self, row: Row) -> usize
        requires { row_number row ≤ 16 }
        ensures lowest { result ≡ lowest self.now (row_number row) }
        ensures word { result < 65536 }
        ensures long { length self.now ≡ all_flags }
    {
        usize::from(self.lows[row.number()])
    }

    // The place before which a row's flags end.
    pub fn highest(&self, row: Row) -> usize
        requires { row_number row ≤ 16 }
        ensures highest { result ≡ highest self.now (row_number row) }
        ensures word { result < 65536 }
    {
        usize::from(self.ends[row.number()])
    }

    // One above the greatest partner of kind 3 that the target was flagged for.
    pub fn most(&self, t: usize) -> usize
        requires { t < 2048 }
        ensures most { result ≡ most self.now t }
        ensures word { result < 65536 }
        ensures long { length self.now ≡ all_flags }
    {
        usize::from(self.tops[t])
    }

    // The number up to which all clauses from this one on are known to be gone.
    pub fn next(&self, p: usize) -> usize
        requires { p < 2048 }
        ensures next { result ≡ next self.now p }
        ensures long { length self.now ≡ all_flags }
    {
        usize::from(self.gaps[p])
    }

    // ---- what is written

    // Another flag at a place of a row.
    pub fn set_flag(&mut self, row: Row, i: usize, flag: usize)
        requires row { row_number row ≤ 16 }
        requires place { i < 2048 }
        requires word { flag < 65536 }
        ensures { self.new ≡ set self.old (row_number row * 2048 + i) flag }
    {
        self.keys[row.number() * 2048 + i] = flag as u16;
    }

    // Another number up to which the clauses from this one on are gone.
    pub fn set_next(&mut self, p: usize, end: usize)
        requires clause { p < 2048 }
        requires word { end < 65536 }
        ensures { self.new ≡ set self.old (nexts + p) end }
    {
        self.gaps[p] = end as u16;
    }

    // Other bounds of a row.
    fn set_bounds(&mut self, row: Row, low: usize, end: usize)
        requires row { row_number row ≤ 16 }
        requires low { low < 65536 }
        requires end { end < 65536 }
        ensures set { self.new ≡ set (set self.old (lowests + row_number row) low) (highests + row_number row) end }
        ensures long { length self.old ≡ all_flags }
    {
        self.lows[row.number()] = low as u16;
        self.ends[row.number()] = end as u16;
    }

    // A greater partner of the target of kind 3.
    fn set_most(&mut self, t: usize, top: usize)
        requires target { t < 2048 }
        requires word { top < 65536 }
        ensures { self.new ≡ set self.old (mosts + t) top }
    {
        self.tops[t] = top as u16;
    }

    // ---- a flag more

    // One flag more, or a lesser key for it, within the row's bounds.
    pub fn flag(&mut self, row: Row, i: usize, key: usize)
        requires row { row_number row ≤ 16 }
        requires place { i < 2048 }
        requires key { key < 2048 }
        ensures raising { Raising self.old self.new (row_number row) (i + 1) }
        ensures flagged { Flagged self.new (row_number row) i key }
    {
        let low = self.lowest(row).min(i);
        let end = self.highest(row).max(i + 1);
        let least = least_key(self.flag_at(row, i), key);
        self.set_flag(row, i, least);
        self.set_bounds(row, low, end);
    }

    // Every place of a row below a number is flagged.
    pub fn flag_all(&mut self, row: Row, top: usize)
        requires row { row_number row ≤ 16 }
        requires top { top ≤ 2048 }
        ensures raising { Raising self.old self.new (row_number row) top }
        ensures flagged { AllFlagged self.new (row_number row) top }
    {
        // A loop over places: the number is what `flag` takes, and no element is indexed here.
        for i in 0..top {
            self.flag(row, i, 0);
        }
    }

    // A row's bounds are drawn closer.
    pub fn fence(&mut self, row: Row, low: usize, end: usize)
        requires row { row_number row ≤ 16 }
        requires end { end ≤ 2048 }
        ensures { Fenced self.old self.new (row_number row) low end }
    {
        if end <= low {
            self.set_bounds(row, 2048, 0);
            return;
        }
        self.set_bounds(row, low, end);
    }

    // ---- a target that is covered

    // Whether the place of a row is flagged with no greater key.
    fn flagged(&self, row: Row, i: usize, key: usize) -> bool
        requires row { row_number row ≤ 16 }
        requires place { i < 2048 }
        requires key { key < 2048 }
        ensures { IsTrue result → Flagged self.now (row_number row) i key }
    {
        let old = self.flag_at(row, i);
        old != 0 && old <= key + 1
    }

    // Whether the target is covered for the key: flagged with no greater one, and in the row of kind 3 with the greatest no less.
    pub fn covered(&self, row: Row, t: usize, key: usize) -> bool
        requires row { row_number row ≤ 16 }
        requires target { t < 2048 }
        requires key { key < 2048 }
        ensures { IsTrue result → Covered self.now (row_number row) t key }
    {
        self.flagged(row, t, key) && (row.number() != 3 || key < self.most(t))
    }

    // A partner more for the target of kind 3.
    fn raise_most(&mut self, t: usize, p: usize)
        requires target { t < 2048 }
        requires partner { p < 2048 }
        ensures raising { (row : ℕ) → Raising self.old self.new row (t + 1) }
        ensures most { p + 1 ≤ most self.new t }
    {
        self.set_most(t, self.most(t).max(p + 1));
    }

    // The target is covered for the key.
    pub fn cover(&mut self, row: Row, t: usize, key: usize)
        requires row { row_number row ≤ 16 }
        requires target { t < 2048 }
        requires key { key < 2048 }
        ensures raising { Raising self.old self.new (row_number row) (t + 1) }
        ensures covered { Covered self.new (row_number row) t key }
    {
        self.flag(row, t, key);
        if row.number() == 3 {
            self.raise_most(t, key);
        }
    }
}
