// The state between two steps, and its fresh keys: before a search each is spread to its targets.
#![tactic(auto)]

ghost use Rattle.std.specs.Prelude.{◌≡◌, ◌≢◌, ◌≤◌, ◌<◌, IsTrue};
ghost use Rattle.std.proofs.Math.Bool.{So};
ghost use Rattle.rewriting.specs.Kinds.{on_target, success, loop};
ghost use Rattle.step_parts.specs.Reading.{clause_count, words_of, marks_of};
ghost use Rattle.search_flags.specs.Flags.{flag_at};
ghost use Rattle.step_kinds.specs.Kinds.{PartnerKind, NoHeadKind};
ghost use Rattle.search_keys.specs.State.{Subsumer, KeySpread, KeyPassed, Settled};
ghost use Rattle.search_keys.specs.States.{StateWith, StateOf, PreparedOf};
ghost use Rattle.search_spreads.specs.Spreads.{Spread, PartnerSpread};

use rewriting::Kind;
use search_flags::{Flags, Row};
use search_spreads::{Facts, Key};
use step_parts::Marked;

// ---- the targets of a key

// The least key of the flag of x as a target of the kind, or x where it is none before x.
fn least_before(flags: &Flags, kind: Kind, x: usize) -> usize
    requires { x < 2048 }
    ensures { result ≤ x }
{
    let old = flags.flag_at(Row::Target(kind), x);
    if old == 0 {
        return x;
    }
    x.min(old - 1)
}

// Whether the kind is 5 or 8 and the clause q, which stands before x, subsumes it and is spread already.
fn is_subsumed(program: &Marked, flags: &Flags, kind: Kind, x: usize, q: usize) -> bool
    requires clause { x < clause_count program.now.table }
    requires before { q ≤ x }
    requires kind { PartnerKind kind }
    ensures { IsTrue result → (kind ≢ success) × Subsumer (words_of program.now) (marks_of program.now) flags.now kind x q }
{
    if kind == Kind::Success {
        return false;
    }
    if q == x {
        return false;
    }
    if flags.flag_at(Row::Key(kind), q) != 0 {
        return false;
    }
    if !program.kept(q) {
        return false;
    }
    step_conditions::subsumed_holds(program, x, q)
}

// The targets of a partner. Where a clause before it subsumes it, they are flagged already.
fn spread_clause(facts: &Facts, flags: &mut Flags, kind: Kind, x: usize)
    requires state { StateWith facts.now flags.old }
    requires clause { x < clause_count facts.now.program.now.table }
    requires kind { PartnerKind kind }
    ensures { PartnerSpread (words_of facts.now.program.now) (marks_of facts.now.program.now) flags.old flags.new kind x }
{
    let q = least_before(flags, kind, x);
    if is_subsumed(facts.program, flags, kind, x, q) {
        return;
    }
    search_spreads::spread_partner(facts, flags, kind, x);
}

// The targets of kind 4 or 6 that have an atom, where it is in no kept head.
fn spread_atom(facts: &Facts, flags: &mut Flags, kind: Kind, atom: u16)
    requires state { StateWith facts.now flags.old }
    requires some { 0 < clause_count facts.now.program.now.table }
    requires atom { atom < 1024 }
    requires kind { NoHeadKind kind }
    ensures { Spread (words_of facts.now.program.now) (marks_of facts.now.program.now) flags.old flags.new kind 0 atom }
{
    if !step_conditions::no_head(facts.heads, atom) {
        return;
    }
    let key = Key {
        kind,
        partner: 0,
        atom,
    };
    search_spreads::spread_along(facts, flags, key, step_kinds::walked_part(kind), atom);
}

// Flags every target of the kind that has an eligible step with the key.
fn spread_key(facts: &Facts, flags: &mut Flags, kind: Kind, x: usize)
    requires state { StateWith facts.now flags.old }
    requires kind { So (on_target kind) }
    requires key { x < 2048 }
    ensures { KeySpread (words_of facts.now.program.now) (marks_of facts.now.program.now) flags.old flags.new kind x }
{
    let m = facts.program.table.clause_count();
    if kind.uses_partner() {
        if m <= x {
            return;
        }
        if !search_spreads::may_partner(facts.program, kind, x) {
            return;
        }
        spread_clause(facts, flags, kind, x);
        return;
    }
    if !kind.asks_no_head() {
        flags.flag_all(Row::Target(kind), m);
        return;
    }
    if m == 0 {
        return;
    }
    if 1024 <= x {
        return;
    }
    spread_atom(facts, flags, kind, x as u16);
}

// ---- the keys of a kind

// A key that is fresh is spread, and is fresh no more.
fn pass_key(facts: &Facts, flags: &mut Flags, kind: Kind, x: usize)
    requires state { StateWith facts.now flags.old }
    requires kind { So (on_target kind) }
    requires key { x < 2048 }
    ensures { KeyPassed (words_of facts.now.program.now) (marks_of facts.now.program.now) facts.now.program.now.table.index.now facts.now.heads.now facts.now.reach.now flags.old flags.new kind x }
{
    if flags.flag_at(Row::Key(kind), x) == 0 {
        return;
    }
    spread_key(facts, flags, kind, x);
    flags.set_flag(Row::Key(kind), x, 0);
}

// Every fresh key of the kind is spread.
fn settle(facts: &Facts, flags: &mut Flags, kind: Kind)
    requires state { StateWith facts.now flags.old }
    requires kind { So (on_target kind) }
    ensures state { StateWith facts.now flags.new }
    ensures settled { Settled flags.new kind }
    ensures known { flag_at flags.old 0 0 ≡ 0 → flag_at flags.new 0 0 ≡ 0 }
{
    let row = Row::Key(kind);
    let low = flags.lowest(row);
    let end = flags.highest(row);
    // A loop over keys: the number is what `pass_key` takes, and no element is indexed here.
    for x in low..end {
        pass_key(facts, flags, kind, x);
    }
    flags.fence(row, end, end);
}

// ---- what a search asks for first

// For kind 7 the reach, where it is to be found anew; then every target of the kind is flagged.
fn refresh(program: &Marked, heads: &[u16], reach: &mut [u8], flags: &mut Flags, kind: Kind)
    requires { StateOf program.now heads.now reach.old flags.old }
    ensures state { StateOf program.now heads.now reach.new flags.new }
    ensures known { kind ≡ loop → flag_at flags.new 0 0 ≡ 0 }
{
    if !kind.asks_reach() {
        return;
    }
    if flags.flag_at(Row::Reach, 0) == 0 {
        return;
    }
    step_reach::find_reach(program, reach);
    flags.flag_all(Row::Target(Kind::Loop), program.table.clause_count());
    flags.set_flag(Row::Reach, 0, 0);
}

// What the search of a kind asks for first: no key is fresh, and for kind 7 the reach.
pub fn prepare(program: &Marked, heads: &[u16], reach: &mut [u8], flags: &mut Flags, kind: Kind)
    requires state { StateOf program.now heads.now reach.old flags.old }
    requires kind { So (on_target kind) }
    ensures { PreparedOf program.now heads.now reach.new flags.new kind }
{
    refresh(program, heads, reach, flags, kind);
    let facts = Facts {
        program,
        heads,
        reach,
    };
    settle(&facts, flags, kind);
}
