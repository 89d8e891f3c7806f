// The search for all stable models: every set is asked whether it satisfies its reduct, and of those that do, whether a proper subset does too.
ghost use Rattle.std.specs.Prelude.{◌≡◌, ◌^◌, ◌≤◌, [], length};
ghost use Rattle.table.specs.Programs.{program_of};
ghost use Rattle.models_masks.specs.UpTo.{items};
ghost use Rattle.models_words.specs.Words.{models_of};
ghost use Rattle.models_list.specs.Masks.{stable_mask};
ghost use Rattle.models_list.specs.Gathered.{Gathers};
ghost use Rattle.models_list.specs.Listed.{Listable, Searchable};

use crate::MAX_MODELS;
use crate::masks::Masks;
use models_masks::Rule;
use models_masks::upto::UpTo;

// The clauses that enter, one behind the other, and how many they are; `None` where m fails one. The others hold of every subset of m. Each clause is written, and the next
// one over it where it does not enter: a branch here would be guessed wrong too often.
fn gather(clauses: &[Masks], m: u16, rules: &mut [Rule]) -> Option<usize>
    requires { length clauses.now ≤ length rules.old }
    ensures { Gathers clauses.now m rules.new result }
{
    // The rules stay a slice with a count: a list would be written by `push`, behind a branch.
    let mut count: usize = 0;
    for clause in clauses {
        if !clause.holds(m) {
            return None;
        }
        rules[count] = Rule {
            body: clause.pos,
            head: clause.head,
        };
        count += usize::from(clause.enters(m));
    }
    Some(count)
}

// Whether the set m satisfies its reduct, and no proper subset does.
fn is_stable(clauses: &[Masks], m: u16, rules: &mut [Rule], failed: &mut UpTo<Rule, 64>) -> bool
    requires { length clauses.now ≤ length rules.old }
    ensures { result ≡ stable_mask clauses.now m }
{
    match gather(clauses, m, rules) {
        None => false,
        Some(count) => models_masks::minimal_by(&rules[..count], m, failed),
    }
}

// How many sets of atoms there are.
fn all_sets(atoms: u16) -> usize
    requires { atoms ≤ 16 }
    ensures { result ≡ 2 ^ atoms }
{
    1 << usize::from(atoms)
}

// The words of all stable models, ascending, by the masks of the clauses. The list is lent: one returned would be copied.
fn find_all(words: &[u16], clauses: &[Masks], rules: &mut [Rule], found: &mut UpTo<u16, MAX_MODELS>)
    requires searchable { Searchable words.now clauses.now rules.old }
    requires none { items found.old ≡ [] }
    ensures { items found.new ≡ models_of (program_of words.now) }
{
    let mut failed = UpTo::new(Rule { body: 0, head: 0 });
    let end = all_sets(words[0]);
    for x in 0..end {
        // `as`: x is below 65,536, which is proved.
        let m = x as u16;
        if !is_stable(clauses, m, rules, &mut failed) {
            continue;
        }
        found.push(m);
    }
}

// The words of all stable models of a table, ascending.
pub fn all_models(words: &[u16], found: &mut UpTo<u16, MAX_MODELS>)
    requires listable { Listable words.now }
    requires none { items found.old ≡ [] }
    ensures { items found.new ≡ models_of (program_of words.now) }
{
    let none = Masks {
        head: 0,
        pos: 0,
        neg: 0,
    };
    let mut masks = [none; 2048];
    let count = crate::masks::fill(words, &mut masks);
    let mut rules = [Rule { body: 0, head: 0 }; 2048];
    find_all(words, &masks[..count], &mut rules, found);
}
