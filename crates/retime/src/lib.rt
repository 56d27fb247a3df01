// Retiming, document 02's CR 9: the time of one block of a table, previewed and committed.
#![tactic(auto)]

ghost use Rattle.std.specs.Prelude.{◌≡◌, ◌+◌, ◌*◌, ◌≤◌, length};
ghost use Rattle.refusals.specs.Refusals.{answer, refused};
ghost use Rattle.table.specs.Checking.{refusal};
ghost use Rattle.table.specs.Numbers.{most_records, record_length};
ghost use Rattle.writing.specs.Fields.{with_value};
ghost use Rattle.quoting.specs.Answers.{figure_answer};
ghost use Rattle.retime.specs.Answers.{commit_answer, commit_leaves, commit_refusal, is_time, preview_answer, question17};
ghost use Rattle.retime.specs.Promises.{CommitPromises, PreviewPromises};

use quoting::Quote;
use refusals::Refusal;
use table::{Kind, MOST_RECORDS, MOST_TIME, Number, RECORD_LENGTH};

// Figure and branch of the table, and of the one that commit would leave.
#[derive(Clone, Copy)]
pub struct Previewed {
    pub before: Quote,
    pub after: Quote,
}

// ---- Question 17

// Is this a block of that plain time?
fn is_time(kind: Kind, old: u64) -> bool
    ensures { result ≡ is_time old kind }
{
    kind == Kind::Block(Number::Plain(old))
}

// Question 17: a block with that plain old time at record `place`, and the new time in range?
fn time_allowed(table: &[u8], place: u64, old: u64, new: u64) -> bool
    ensures { result ≡ question17 table.now place old new }
{
    let n = table.len() / RECORD_LENGTH;
    if n as u64 <= place {
        return false;
    }
    let node = table::node_at(table, place as usize);
    let kind = node.kind;
    is_time(kind, old) & (new <= MOST_TIME)
}

// Questions 1 to 7, then 17.
fn accept(table: &[u8], place: u64, old: u64, new: u64) -> Result<(), Refusal>
    ensures { refused (answer result) ≡ commit_refusal table.now place old new }
{
    table::accept(table)?;
    if time_allowed(table, place, old, new) {
        Ok(())
    } else {
        Err(Refusal::Time)
    }
}

// ---- The calls

// What the figure call answers for the table with that time at record `place`, in a copy.
fn quote_after(table: &[u8], place: usize, new: u64, values: &[u64]) -> Result<Quote, Refusal>
    requires fact_1 { (record_length * (place + 1) ≤ length table.now) × (length table.now ≤ record_length * most_records) }
    requires fact_2 { refusal (with_value table.now place new) ≡ 0 }
    ensures { answer result ≡ figure_answer (with_value table.now place new) values.now }
{
    let len = table.len();
    let mut work = [0; RECORD_LENGTH * MOST_RECORDS];
    writing::write_front(table, len, &mut work);
    writing::put_value(&mut work, place, new);
    quoting::quote_checked(&work[0..len], values)
}

// The figures before and after retiming, with their branches: questions 1 to 7 and 17, then a figure call's for the old tree and for the new one. It changes
// nothing.
pub fn preview(
    table: &[u8],
    place: u64,
    old: u64,
    new: u64,
    values: &[u64],
) -> Result<Previewed, Refusal>
    ensures answer { answer result ≡ preview_answer table.now place old new values.now }
    ensures promise { PreviewPromises table.now place old new values.now (answer result) }
{
    accept(table, place, old, new)?;
    let before = quoting::quote_checked(table, values)?;
    let after = quote_after(table, place as usize, new, values)?;
    Ok(Previewed { before, after })
}

// Writes the new time into the table itself, where the block at record `place` still has the old one, and answers the table's length: questions 1 to 7 and 17.
pub fn commit(table: &mut [u8], place: u64, old: u64, new: u64) -> Result<usize, Refusal>
    ensures answer { answer result ≡ commit_answer table.old place old new }
    ensures written { table.new ≡ commit_leaves table.old place old new }
    ensures promise { CommitPromises table.old place old new table.new (refused (answer result)) }
{
    accept(table, place, old, new)?;
    writing::put_value(table, place as usize, new);
    Ok(table.len())
}
