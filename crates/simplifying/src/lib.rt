// Simplifying, and demand 3: one claim about checking, simplifying and the figure call together.
#![tactic(auto)]

ghost use Rattle.std.specs.Prelude.{◌≡◌, ◌≤◌, length};
ghost use Rattle.refusals.specs.Refusals.{answer, refused};
ghost use Rattle.table.specs.Table.{encode};
ghost use Rattle.subtrees.specs.Parts.{Simplifiable};
ghost use Rattle.writing.specs.Over.{over};
ghost use Rattle.simplifying.specs.Demand.{Asked, Demand3, quoted_numbers, simplified_numbers};
ghost use Rattle.simplifying.specs.Answers.{ending_of, finished_number, made, made_answer, simplify_answer, simplify_writes};

use lists::List;
use quoting::Quote;
use refusals::Refusal;
use subtrees::Facts;
use table::{MOST_RECORDS, RECORD_LENGTH};

// No rule fits what was written, or the allowance is used and a rule fits. An enum and no flag: C and the sales line read it by its two names.
#[derive(Clone, Copy)]
pub enum Ending {
    Finished,
    Spent,
}

impl From<bool> for Ending {
    ghost from_gives = { λ finished ending. ending ≡ ending_of finished };

    fn from(finished: bool) -> Ending {
        if finished {
            Ending::Finished
        } else {
            Ending::Spent
        }
    }
}

// Document 01's number for an ending.
impl From<Ending> for u64 {
    ghost from_gives = { λ ending n. n ≡ finished_number ending };

    fn from(ending: Ending) -> u64 {
        match ending {
            Ending::Finished => 1,
            Ending::Spent => 0,
        }
    }
}

// The length of the table that was written, the steps taken, and how they ended.
#[derive(Clone, Copy)]
pub struct Simplified {
    pub length: usize,
    pub steps: u64,
    pub ending: Ending,
}

// Steps on a table that simplifying accepts. They are made in a copy, and only the answer's length of `out` is written.
fn make_steps(table: &[u8], allowance: u64, out: &mut [u8]) -> Simplified
    requires fact_1 { Simplifiable table.now }
    requires fact_2 { length table.now ≤ length out.old }
    ensures { (result ≡ made_answer table.now allowance) × (out.new ≡ over (encode (made table.now allowance).tree) out.old) }
{
    let len = table.len();
    let mut work = [0; RECORD_LENGTH * MOST_RECORDS];
    let mut spare = [0; RECORD_LENGTH * MOST_RECORDS];
    let mut facts = [Facts::NONE; MOST_RECORDS];
    writing::write_front(table, len, &mut work);
    let run = stepping::steps_in(&mut work, len, allowance, &mut facts, &mut spare);
    let n = run.len;
    writing::write_front(&work, n, out);
    Simplified {
        length: n,
        steps: run.steps,
        ending: Ending::from(run.finished),
    }
}

// The table of a tree after as many steps of simplification as the allowance has, or until no rule fits, written over the front of `out`: questions 1
// to 8, then 10 with every value 0.
pub fn simplify(table: &[u8], allowance: u64, out: &mut [u8]) -> Result<Simplified, Refusal>
    ensures answer { answer result ≡ simplify_answer table.now allowance out.old }
    ensures written { out.new ≡ over (simplify_writes table.now allowance out.old) out.old }
{
    table::accept(table)?;
    if out.len() < table.len() {
        return Err(Refusal::Room);
    }
    let zeros = [0; 0];
    let mut list = List::zero();
    let Some(_) = walking::evaluate(table, &zeros, &mut list) else {
        return Err(Refusal::Ceiling);
    };
    Ok(make_steps(table, allowance, out))
}

// ---- The calls together

// What checking, simplifying and the figure call answer both desks.
#[derive(Clone, Copy)]
pub struct BothDesks {
    pub checked: Result<usize, Refusal>,
    pub simplified: Result<Simplified, Refusal>,
    pub reception: Result<Quote, Refusal>,
    pub sales: Result<Quote, Refusal>,
}

// Demand 3. Checks a table and simplifies it into `out`. Reception quotes the table with its values; sales quote with theirs and are lent the written
// bytes alone.
pub fn both_desks(
    table: &[u8],
    allowance: u64,
    out: &mut [u8],
    reception: &[u64],
    sales: &[u64],
) -> BothDesks
    ensures demand { Demand3 table.now allowance reception.now sales.now out.new (refused (answer result.checked)) (simplified_numbers (answer result.simplified)) (quoted_numbers (answer result.reception)) (quoted_numbers (answer result.sales)) }
    ensures answers { Asked table.now allowance reception.now sales.now out.old out.new (answer result.checked) (answer result.simplified) (answer result.reception) (answer result.sales) }
{
    let checked = quoting::check(table);
    let simplified = simplify(table, allowance, out);
    let n = simplified.map_or(0, |written| written.length);
    let quoted = quoting::figure(table, reception);
    let sold = quoting::figure(&out[0..n], sales);
    BothDesks {
        checked: checked,
        simplified: simplified,
        reception: quoted,
        sales: sold,
    }
}
