// Grafting, document 02's CR 1: the table of a sent tree put in place of a time symbol of the host's.
#![tactic(auto)]

ghost use Rattle.std.specs.Prelude.{◌≡◌, ◌*◌, length};
ghost use Rattle.refusals.specs.Refusals.{answer};
ghost use Rattle.table.specs.Numbers.{most_records, record_length};
ghost use Rattle.table.specs.Checking.{IsTable};
ghost use Rattle.writing.specs.Over.{over};
ghost use Rattle.graft.specs.Answers.{graft_answer, graft_writes, question11};
ghost use Rattle.graft.specs.Promises.{GraftPromises};
ghost use Rattle.graft.specs.Making.{Allowed, GraftMade};

use refusals::Refusal;
use table::{FIRST_PAIRED_SYMBOL, FIRST_TIME_SYMBOL, MOST_RECORDS, RECORD_LENGTH};

// Question 11: is the symbol 16 to 23, a time's and not paired, and does the sent table use neither it nor a paired one?
fn symbol_allowed(sent: &[u8], symbol: u64) -> bool
    requires { IsTable sent.now }
    ensures { result ≡ question11 sent.now symbol }
{
    let sendable = splice::sendable(sent, symbol);
    (FIRST_TIME_SYMBOL <= symbol) & (symbol < FIRST_PAIRED_SYMBOL) & sendable
}

// Makes the grafted table at the front of `work`; answers how many records it has, unless they are more than a table may have.
fn make_graft(host: &[u8], sent: &[u8], symbol: u64, work: &mut [u8]) -> Option<usize>
    requires fact_1 { IsTable host.now }
    requires fact_2 { IsTable sent.now }
    requires fact_3 { length work.old ≡ record_length * most_records }
    ensures { GraftMade host.now sent.now symbol result work.new }
{
    let n = host.len() / RECORD_LENGTH;
    let size = sent.len() / RECORD_LENGTH;
    let count = splice::count_occurrences(host, symbol);
    if MOST_RECORDS < n + count * (size + 1) {
        return None;
    }
    Some(splice::put_all(host, symbol, count, sent, work))
}

// Question 12, then 8, of what grafting makes of accepted tables; and the result, written over the front of `out`.
fn put_graft(host: &[u8], sent: &[u8], symbol: u64, out: &mut [u8]) -> Result<usize, Refusal>
    requires { Allowed host.now sent.now symbol }
    ensures { (answer result ≡ graft_answer host.now sent.now symbol out.old) × (out.new ≡ over (graft_writes host.now sent.now symbol out.old) out.old) }
{
    // Fixed memory, no heap: the result can be the longest table, and only its front is lent on.
    let mut work = [0; RECORD_LENGTH * MOST_RECORDS];
    let Some(n) = make_graft(host, sent, symbol, &mut work) else {
        return Err(Refusal::Graft);
    };
    let len = RECORD_LENGTH * n;
    // The walk asks question 6 too, which always says yes here.
    if table::accept_tree(&work[0..len]).is_err() {
        return Err(Refusal::Graft);
    }
    if out.len() < len {
        return Err(Refusal::Room);
    }
    writing::write_front(&work, len, out);
    Ok(len)
}

// The host's table with the sent table in place of a time symbol, written over the front of `out`: how long it is. Questions 1 to 7 of the host, then of the
// sent table, then 11, 12 and 8.
pub fn graft(host: &[u8], sent: &[u8], symbol: u64, out: &mut [u8]) -> Result<usize, Refusal>
    ensures answer { answer result ≡ graft_answer host.now sent.now symbol out.old }
    ensures written { out.new ≡ over (graft_writes host.now sent.now symbol out.old) out.old }
    ensures promise { GraftPromises host.now sent.now symbol out.new (answer result) }
{
    table::accept(host)?;
    table::accept(sent)?;
    if !symbol_allowed(sent, symbol) {
        return Err(Refusal::Symbol);
    }
    put_graft(host, sent, symbol, out)
}
