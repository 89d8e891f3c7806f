// The reducer: the smallest applicable step that it does not pass over, again and again, until none applies. After each step what it opens is looked at again.
#![tactic(auto)]

ghost use Rattle.std.specs.Prelude.{◌≡◌, ◌+◌, ◌*◌, ◌≤◌, ◌<◌, length, replicate, ◌∷◌, []};
ghost use Rattle.search_flags.specs.Flags.{all_flags};
ghost use Rattle.std.proofs.lemmas.List.Edits.{sets};
ghost use Rattle.rewriting.specs.Kinds.{number};
ghost use Rattle.table.specs.Questions.{Passed};
ghost use Rattle.table.specs.View.{view};
ghost use Rattle.table.specs.Clearing.{marks_without};
ghost use Rattle.table.specs.Effects.{marks_after};
ghost use Rattle.step_parts.specs.Reading.{atom_count, marks_of};
ghost use Rattle.step_conditions.specs.Known.{step_of};
ghost use Rattle.search_exclusion.specs.Smallest.{Idle};
ghost use Rattle.search_openings.specs.Opened.{StepMade};
ghost use Rattle.reducer_results.specs.Reductions.{room};
ghost use Rattle.reducer_results.specs.Answered.{Answered};
ghost use Rattle.reducer.specs.Memories.{StateIn};
ghost use Rattle.reducer.specs.Runs.{AllOpen, Begun, Reduced, StepFound};

use answers::{Answer, CallQuestion, Refusal};
use rewriting::Kind;
use search_flags::{Flags, Row};
use step_conditions::Step;
use step_parts::{Indexed, Marked};

// What the reducer remembers beside the marks: the kept heads of each atom, the reach, and the flags.
#[derive(Drop)]
struct Memory {
    heads: [u16; 1024],
    reach: [u8; 1024],
    flags: Flags,
}

// How many steps a reduction can have: the clauses plus all literals, which are the words but the first two and two of each clause.
fn most_steps(words: &[u16]) -> usize
    requires { Passed words.now }
    ensures room { result ≡ room words.now }
    ensures within { result ≤ 8192 }
{
    words.len() - 2 - 2 * usize::from(words[1])
}

// The step number s is written to the list.
fn write_step(list: &mut [u16], s: usize, step: Step<Kind>)
    requires { 4 * s + 3 < length list.old }
    ensures { list.new ≡ sets list.old (4 * s) (number step.kind ∷ step.target ∷ step.partner ∷ step.atom ∷ []) }
{
    let at = 4 * s;
    list[at] = step.kind.number();
    list[at + 1] = step.target;
    list[at + 2] = step.partner;
    list[at + 3] = step.atom;
}

// ---- what is known at first

// Every target of kinds 1 and 2 is flagged, every key of kinds 3, 4, 5, 6 and 8 is fresh, and the reach is to be found.
fn flag_kinds(flags: &mut Flags, clauses: usize)
    requires none { flags.old ≡ replicate all_flags 0 }
    requires clauses { clauses ≤ 2048 }
    ensures { AllOpen flags.new clauses }
{
    flags.flag(Row::Reach, 0, 0);
    flags.flag_all(Row::Target(Kind::Tautology), clauses);
    flags.flag_all(Row::Target(Kind::Contradiction), clauses);
    flags.flag_all(Row::Key(Kind::Success), 2048);
    flags.flag_all(Row::Key(Kind::NoHead), 2048);
    flags.flag_all(Row::Key(Kind::Blocked), 2048);
    flags.flag_all(Row::Key(Kind::Failure), 2048);
    flags.flag_all(Row::Key(Kind::Subsumed), 2048);
}

// What is known of a program that no step was made in. It fills a memory that is lent: one returned would be copied, and stand on the stack again.
fn begin(program: &Marked, memory: &mut Memory)
    requires none { memory.old.flags ≡ replicate all_flags 0 }
    requires heads { 1024 ≤ length memory.old.heads }
    requires reach { 1024 ≤ length memory.old.reach }
    ensures { StateIn program.now.table (marks_of program.now) memory.new }
{
    flag_kinds(&mut memory.flags, program.table.clause_count());
    step_conditions::count_heads(program, &mut memory.heads);
}

// ---- the steps

// A step of kind 9 is made: heads are counted anew, and what it opens is flagged.
fn exclude(table: &Indexed, marks: &mut [u8], memory: &mut Memory, idle: &mut [u8], atom: u16)
    requires state { StateIn table.now marks.old memory.old }
    requires idle { Idle (atom_count table.now) (view table.now.words.now marks.old) idle.old }
    ensures marks { marks.new ≡ marks_without table.now.words.now marks.old atom }
    ensures state { StateIn table.now marks.new memory.new }
    ensures idle { Idle (atom_count table.now) (view table.now.words.now marks.new) idle.new }
{
    search_idle::exclude_atom(table, marks, atom, idle);
    let after = Marked {
        table: *table,
        marks,
    };
    step_conditions::count_heads(&after, &mut memory.heads);
    search_removal::open_removal(&after, &mut memory.flags, atom);
}

// A step of another kind is made, and what it opens is flagged.
fn apply_step(table: &Indexed, marks: &mut [u8], memory: &mut Memory, step: Step<Kind>)
    requires state { StateIn table.now marks.old memory.old }
    requires made { StepMade table.now.words.now marks.old step }
    ensures marks { marks.new ≡ marks_after table.now.words.now marks.old (step_of step) }
    ensures state { StateIn table.now marks.new memory.new }
{
    search_openings::apply_step(
        table,
        marks,
        &mut memory.heads,
        &memory.reach,
        &mut memory.flags,
        step,
    );
}

// A step that was found is made.
fn make_step(
    table: &Indexed,
    marks: &mut [u8],
    memory: &mut Memory,
    idle: &mut [u8],
    step: Step<Kind>,
)
    requires state { StateIn table.now marks.old memory.old }
    requires idle { Idle (atom_count table.now) (view table.now.words.now marks.old) idle.old }
    requires found { StepFound table.now.words.now marks.old step }
    ensures marks { marks.new ≡ marks_after table.now.words.now marks.old (step_of step) }
    ensures state { StateIn table.now marks.new memory.new }
    ensures idle { Idle (atom_count table.now) (view table.now.words.now marks.new) idle.new }
{
    match step.kind {
        Kind::Excluded => exclude(table, marks, memory, idle, step.atom),
        Kind::NoHead => {
            apply_step(table, marks, memory, step);
            let after = Marked {
                table: *table,
                marks,
            };
            search_idle::forget_at(&after, usize::from(step.target), idle);
        }
        _ => apply_step(table, marks, memory, step),
    }
}

// Steps until none applies, and their number.
fn run_steps(
    table: &Indexed,
    marks: &mut [u8],
    list: &mut [u16],
    memory: &mut Memory,
    idle: &mut [u8],
) -> usize
    requires state { StateIn table.now marks.old memory.old }
    requires begun { Begun table.now.words.now marks.old list.old }
    requires room { 2048 ≤ length idle.old }
    requires idle { Idle (atom_count table.now) (view table.now.words.now marks.old) idle.old }
    ensures { Reduced table.now.words.now marks.old list.old marks.new list.new result }
{
    let mut s: usize = 0;
    // No range: the loop ends where no step is found.
    loop {
        let program = Marked {
            table: *table,
            marks,
        };
        let found = search_first::first_step(
            &program,
            &memory.heads,
            &mut memory.reach,
            &mut memory.flags,
            idle,
        );
        let Some(step) = found else {
            return s;
        };
        write_step(list, s, step);
        make_step(table, marks, memory, idle, step);
        s += 1;
    }
}

// The reduction of a table all of whose marks are 1.
fn reduce_kept(words: &[u16], marks: &mut [u8], list: &mut [u16]) -> usize
    requires passed { Passed words.now }
    requires marks { length words.now ≤ length marks.old }
    requires begun { Begun words.now marks.old list.old }
    ensures { Reduced words.now marks.old list.old marks.new list.new result }
{
    let mut index = [0u16; step_parts::INDEX];
    let table = Indexed::new(words, &mut index);
    let program = Marked { table, marks };
    let mut memory = Memory {
        heads: [0; 1024],
        reach: [0; 1024],
        flags: Flags::new(),
    };
    begin(&program, &mut memory);
    let mut idle = [0u8; 2048];
    run_steps(&table, marks, list, &mut memory, &mut idle)
}

// Reduces a table: questions 1 to 9 and 17, then the smallest applicable step that is not passed over, until none applies.
pub fn reduce_table(words: &[u16], marks: &mut [u8], list: &mut [u16]) -> Answer
    ensures { Answered words.now marks.old list.old marks.new list.new result }
{
    let checked = table_questions::check_table(words);
    let Ok(_) = checked else {
        return checked.map(|_| 0);
    };
    if marks.len() < words.len() {
        return Err(Refusal::Call(CallQuestion::MarksLength));
    }
    let steps = most_steps(words);
    if list.len() < 4 * steps {
        return Err(Refusal::Call(CallQuestion::ListRoom));
    }
    step_conditions::keep_all(words, marks);
    Ok(reduce_kept(words, marks, list))
}
