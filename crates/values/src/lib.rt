// The questions about a desk's values: questions 9 and 14, and 13, which looks at the table too.
#![tactic(auto)]

ghost use Rattle.std.specs.Prelude.{◌≡◌, ◌≤◌, length};
ghost use Rattle.refusals.specs.Refusals.{answer, refused};
ghost use Rattle.table.specs.Numbers.{record_length};
ghost use Rattle.evaluate.specs.Evaluate.{values_of};
ghost use Rattle.values.specs.Flags.{flag_free};
ghost use Rattle.values.specs.Values.{ceiling, question13, question14, question9, record_small, triangle_small, values_refusal};

use refusals::Refusal;
use table::{
    FIRST_PAIRED_SYMBOL, FIRST_TIME_SYMBOL, HOW_MANY_SYMBOLS, HOW_MANY_VALUES, LATER_PLACE, Limit,
    MOST_COUNT, MOST_TIME, Most,
};
use triangular::MOST_TRIANGULAR;

// The ceiling of value i.
pub fn ceiling_of(i: usize) -> u64
    ensures { result ≡ ceiling i }
{
    if (i as u64) < FIRST_TIME_SYMBOL {
        MOST_COUNT
    } else {
        MOST_TIME
    }
}

// Question 9: exactly 40 values, each within its ceiling, used or not?
fn values_allowed(values: &[u64]) -> bool
    ensures { result ≡ question9 values.now }
{
    if values.len() != HOW_MANY_VALUES {
        return false;
    }
    for (i, value) in values.iter().enumerate() {
        if ceiling_of(i) < *value {
            return false;
        }
    }
    true
}

// Question 13 of a limit's number: where its symbol stands under flag 4, is the symbol's value at most 1,000?
fn triangle_small(most: Most, values: &[u64]) -> bool
    ensures { result ≡ triangle_small (values_of values.now) most }
{
    match most {
        Most::Plain(_) | Most::Symbol(_) => true,
        Most::Triangular(symbol) => evaluate::value_of(symbol, values) <= MOST_TRIANGULAR,
    }
}

// Question 13 of the record at the front of `b`. One without flag 4 is not read any further.
fn record_small(b: &[u8], values: &[u64]) -> bool
    requires { record_length ≤ length b.now }
    ensures { result ≡ record_small (values_of values.now) b.now }
{
    if table::without_four(b) {
        return true;
    }
    let limit = table::read_limit(b);
    match limit {
        Limit::Unlimited => true,
        Limit::AtMost(_, most) => triangle_small(most, values),
    }
}

// Has no record flag 4? Then question 13 has nothing to ask, and the walk needs no triangular number.
pub fn flag_free(table: &[u8]) -> bool
    ensures { result ≡ flag_free table.now }
{
    table::every_record(table, table::without_four)
}

// Question 13 of a table. Whether it is free is lent beside it, not found again: the walk's callers know it, and a struct would be made for this call alone.
fn triangles_small(table: &[u8], values: &[u64], free: bool) -> bool
    requires { free ≡ flag_free table.now }
    ensures { result ≡ question13 table.now values.now }
{
    free || table::every_record(table, |record| record_small(record, values))
}

// Question 14: is no later value of a paired symbol above its first, used or not?
fn laters_low(values: &[u64]) -> bool
    ensures { result ≡ question14 values.now }
{
    for s in FIRST_PAIRED_SYMBOL..HOW_MANY_SYMBOLS {
        let later = evaluate::value_of(s + LATER_PLACE as u64, values);
        if evaluate::value_of(s, values) < later {
            return false;
        }
    }
    true
}

// The first question about a desk's values for a table that says no: each call that is lent both asks here.
pub fn accept(table: &[u8], values: &[u64], free: bool) -> Result<(), Refusal>
    requires { free ≡ flag_free table.now }
    ensures { refused (answer result) ≡ values_refusal table.now values.now }
{
    if !values_allowed(values) {
        return Err(Refusal::Values);
    }
    if !triangles_small(table, values, free) {
        return Err(Refusal::Triangle);
    }
    if !laters_low(values) {
        return Err(Refusal::Later);
    }
    Ok(())
}
