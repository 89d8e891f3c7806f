// The clauses that the reduct by a set keeps, as masks over the set.
ghost use Rattle.std.specs.Prelude.{◌≡◌, ◌≤◌, ◌<◌, [], length};
ghost use Rattle.semantics.specs.Decide.{stable_test};
ghost use Rattle.table.specs.Questions.{Passed};
ghost use Rattle.table.specs.Places.{next_at};
ghost use Rattle.table.specs.Programs.{clause_of, program_of};
ghost use Rattle.models_masks.specs.Masks.{enters};
ghost use Rattle.models_masks.specs.UpTo.{items};
ghost use Rattle.models_test.specs.Kept.{RuleOf, Added, Filled, Testable};

use models_masks::upto::UpTo;
use models_masks::{Rule, parts};

// As many clauses as a table can have.
const MAX_CLAUSES: usize = 2048;

// Whether the reduct by the set keeps the clause, and its positive body is within the set.
fn enters(words: &[u16], at: usize, set: &[u16]) -> bool
    requires { next_at words.now at ≤ length words.now }
    ensures { result ≡ enters set.now (clause_of words.now at) }
{
    !parts::meets(table_clauses::neg_of(words, at), set)
        && parts::inside(table_clauses::pos_of(words, at), set)
}

// The masks of a clause over the set.
fn rule_of(words: &[u16], at: usize, set: &[u16]) -> Rule
    requires fits { next_at words.now at ≤ length words.now }
    requires small { length set.now ≤ 16 }
    ensures { RuleOf set.now (clause_of words.now at) result }
{
    Rule {
        body: models_masks::mask_of(set, table_clauses::pos_of(words, at)),
        head: models_masks::mask_of(set, table_clauses::head_of(words, at)),
    }
}

// The masks of a clause, where it enters, behind the others.
fn add_clause(words: &[u16], at: usize, set: &[u16], rules: &mut UpTo<Rule, MAX_CLAUSES>)
    requires fits { next_at words.now at ≤ length words.now }
    requires small { length set.now ≤ 16 }
    requires room { length (items rules.old) < 2048 }
    ensures { Added set.now (clause_of words.now at) (items rules.old) (items rules.new) }
{
    if enters(words, at, set) {
        rules.push(rule_of(words, at, set));
    }
}

// The masks of all clauses that enter. The list is lent: one returned would be copied.
fn fill(words: &[u16], set: &[u16], rules: &mut UpTo<Rule, MAX_CLAUSES>)
    requires passed { Passed words.now }
    requires small { length set.now ≤ 16 }
    requires none { items rules.old ≡ [] }
    ensures { Filled words.now set.now (items rules.new) }
{
    let mut at: usize = 2;
    for k in 0..words[1] {
        add_clause(words, at, set, rules);
        at = table::next_clause(words, at);
    }
}

// Whether the set is a stable model.
pub fn is_stable(words: &[u16], set: &[u16]) -> bool
    requires { Testable words.now set.now }
    ensures { result ≡ stable_test (program_of words.now) set.now }
{
    let mut rules = UpTo::new(Rule { body: 0, head: 0 });
    fill(words, set, &mut rules);
    models_masks::stable(rules.as_slice(), models_masks::mask_of(set, set))
}
