// Filling one symbol of a table, and opening it again: document 02's CR 8.
#![tactic(auto)]

ghost use Rattle.std.specs.Prelude.{◌≡◌, ◌≤◌, length};
ghost use Rattle.refusals.specs.Refusals.{answer, refused};
ghost use Rattle.table.specs.Numbers.{record_length};
ghost use Rattle.table.specs.Asking.{first_no};
ghost use Rattle.table.specs.Checking.{IsTable};
ghost use Rattle.writing.specs.Over.{over};
ghost use Rattle.marking.specs.Marks.{mark_length, marks_of};
ghost use Rattle.fill.specs.Answers.{both_ask, fill_answer, fill_marks, fill_writes, filled, fillable, not_under_four, open_answer, open_writes, opened, question15, record_free};
ghost use Rattle.fill.specs.Promises.{FillPromises, OpenPromises};

use marking::MARK_LENGTH;
use refusals::Refusal;
use table::{FIRST_PAIRED_SYMBOL, Limit, Most, Number, RECORD_LENGTH};

// ---- Question 15

// May the symbol be filled?
fn is_fillable(symbol: u64) -> bool
    ensures { result ≡ fillable symbol }
{
    symbol < FIRST_PAIRED_SYMBOL
}

// Is the limit of the record at the front of `b` not the symbol under flag 4?
fn record_free(b: &[u8], symbol: u64) -> bool
    requires { record_length ≤ length b.now }
    ensures { result ≡ record_free symbol b.now }
{
    match table::read_limit(b) {
        Limit::Unlimited => true,
        Limit::AtMost(_, most) => most != Most::Triangular(symbol),
    }
}

// May the symbol be filled with this number, and is it not used under flag 4 in this table?
fn may_fill(table: &[u8], symbol: u64, number: u64) -> bool
    ensures { result ≡ question15 table.now symbol number }
{
    let most = values::ceiling_of(symbol as usize);
    if !(is_fillable(symbol) & (number <= most)) {
        return false;
    }
    table::every_record(table, |b| record_free(b, symbol))
}

// Questions 1 to 8, then 15: the first that says no.
fn accept_both(table: &[u8], roomy: bool, symbol: u64, number: u64) -> Result<(), Refusal>
    ensures { refused (answer result) ≡ first_no (both_ask table.now roomy symbol number) }
{
    table::accept(table)?;
    if !roomy {
        return Err(Refusal::Room);
    }
    if !may_fill(table, symbol, number) {
        return Err(Refusal::Fill);
    }
    Ok(())
}

// ---- The tables written

// Writes the filled table over the front of `out`, and its marks over the front of `marks`.
fn write_filled(table: &[u8], symbol: u64, number: u64, out: &mut [u8], marks: &mut [u8])
    requires fact_1 { IsTable table.now }
    requires fact_2 { (length table.now ≤ length out.old) × (mark_length ≤ length marks.old) }
    ensures { (out.new ≡ over (filled table.now symbol number) out.old) × (marks.new ≡ over (marks_of symbol table.now) marks.old) }
{
    let n = table.len();
    let bytes = marking::marks_of(table, symbol);
    let value = Number::Plain(number);
    let most = Most::Plain(number);
    filling::put_marked(table, &bytes, value, most, &mut out[0..n]);
    writing::write_front(&bytes, MARK_LENGTH, marks);
}

// Writes the opened table over the front of `out`. It and the one before are one call each of the pass that they share.
fn write_opened(table: &[u8], marks: &[u8], symbol: u64, out: &mut [u8])
    requires fact_1 { IsTable table.now }
    requires fact_2 { (length table.now ≤ length out.old) × (length marks.now ≡ mark_length) }
    ensures { out.new ≡ over (opened table.now marks.now symbol) out.old }
{
    let n = table.len();
    let value = Number::Symbol(symbol);
    let most = Most::Symbol(symbol);
    filling::put_marked(table, marks, value, most, &mut out[0..n]);
}

// ---- The calls

// The table with the plain number in every field that has the symbol, written over the front of `out`, and 128 bytes that mark these fields, written over
// the front of `marks`: how long the table is. Questions 1 to 8, then 15.
pub fn fill(
    table: &[u8],
    symbol: u64,
    number: u64,
    out: &mut [u8],
    marks: &mut [u8],
) -> Result<usize, Refusal>
    ensures answer { answer result ≡ fill_answer table.now symbol number out.old marks.old }
    ensures written { out.new ≡ over (fill_writes table.now symbol number out.old marks.old) out.old }
    ensures marked { marks.new ≡ over (fill_marks table.now symbol number out.old marks.old) marks.old }
    ensures promise { FillPromises table.now symbol number out.new marks.new (answer result) }
{
    let n = table.len();
    let roomy = (n <= out.len()) & (MARK_LENGTH <= marks.len());
    accept_both(table, roomy, symbol, number)?;
    write_filled(table, symbol, number, out, marks);
    Ok(n)
}

// The table with the symbol put back in each marked field, written over the front of `out`: how long it is. Questions 1 to 8, then 15 and 16.
pub fn open(
    table: &[u8],
    marks: &[u8],
    symbol: u64,
    number: u64,
    out: &mut [u8],
) -> Result<usize, Refusal>
    ensures answer { answer result ≡ open_answer table.now marks.now symbol number out.old }
    ensures written { out.new ≡ over (open_writes table.now marks.now symbol number out.old) out.old }
    ensures promise { OpenPromises table.now symbol number out.new (answer result) }
{
    let roomy = table.len() <= out.len();
    accept_both(table, roomy, symbol, number)?;
    if !marking::marks_allowed(table, marks, symbol, number) {
        return Err(Refusal::Marks);
    }
    write_opened(table, marks, symbol, out);
    Ok(table.len())
}
