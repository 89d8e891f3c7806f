// A set of at most 16 atoms as a mask, and clauses as two masks: whether a set satisfies the clauses, and whether no subset does.
#![tactic(auto)]

ghost use Rattle.std.specs.Prelude.{◌≡◌, ◌&&◌, ◌≤◌, true, length, MatchOption};
ghost use Rattle.semantics.specs.Programs.{among};
ghost use Rattle.models_masks.specs.Masks as masks;
ghost use Rattle.models_masks.specs.Failed.{Fails};

use upto::UpTo;

pub mod parts;
pub mod upto;

// How many atoms a set can have.
pub const MAX_SET: usize = 16;

// A clause over a list of at most 16 atoms, as the masks of its positive body and of its head.
#[derive(Clone, Copy)]
pub struct Rule {
    pub body: u16,
    pub head: u16,
}

impl Rule {
    // Whether the set x satisfies the clause: an atom of the body is missing, or one of the head is there.
    fn holds(&self, x: u16) -> bool
        ensures { result ≡ masks.holds self.now.body self.now.head x }
    {
        ((self.body - (self.body & x)) | (self.head & x)) != 0
    }
}

// The mask over the set of those of its atoms that are in the part.
pub fn mask_of(set: &[u16], part: &[u16]) -> u16
    requires { length set.now ≤ 16 }
    ensures { result ≡ masks.mask_of set.now (among part.now) }
{
    let mut mask: u16 = 0;
    let mut i = set.len();
    // An index counted down: by an iterator from the back the masks of small parts took twice the time.
    while 0 < i {
        i -= 1;
        mask = mask * 2 + u16::from(parts::has(part, set[i]));
    }
    mask
}

// Whether the set x satisfies the clauses.
pub fn modelled(rules: &[Rule], x: u16) -> bool
    ensures { result ≡ masks.modelled rules.now x }
{
    rules.iter().all(|rule| rule.holds(x))
}

// The first clause that the set x fails.
fn first_failed(rules: &[Rule], x: u16) -> Option<&Rule>
    ensures { MatchOption result (masks.modelled rules.now x ≡ true) (λ rule. Fails rules.now rule.now x) }
{
    rules.iter().find(|rule| !rule.holds(x))
}

// Whether no proper subset of the set m satisfies the clauses: all subsets, from the largest number down. A clause that one subset fails is likely to be
// failed by the next, so those that were failed are kept apart, in a list that is lent, and asked first.
pub fn minimal_by(rules: &[Rule], m: u16, failed: &mut UpTo<Rule, 64>) -> bool
    ensures { result ≡ masks.minimal rules.now m }
{
    failed.clear();
    let mut x = m;
    // `while`: from one subset to the next below is a step on bits, which no range takes.
    while 0 < x {
        x = (x - 1) & m;
        if !modelled(failed.as_slice(), x) {
            continue;
        }
        let Some(rule) = first_failed(rules, x) else {
            return false;
        };
        if failed.is_full() {
            continue;
        }
        failed.push(*rule);
    }
    true
}

// Whether no proper subset of the set m satisfies the clauses.
pub fn minimal(rules: &[Rule], m: u16) -> bool
    ensures { result ≡ masks.minimal rules.now m }
{
    let mut failed: UpTo<Rule, 64> = UpTo::new(Rule { body: 0, head: 0 });
    minimal_by(rules, m, &mut failed)
}

// Whether the set m satisfies the clauses, and no proper subset does.
pub fn stable(rules: &[Rule], m: u16) -> bool
    ensures { result ≡ (masks.modelled rules.now m && masks.minimal rules.now m) }
{
    modelled(rules, m) && minimal(rules, m)
}
