// Document 02's CR 8: the marks of the fields that have a symbol, and whether marks stand where the symbol may be put back.
#![tactic(auto)]

ghost use Rattle.std.specs.Prelude.{◌≡◌, ◌/◌, ◌<◌, ◌≤◌, length};
ghost use Rattle.table.specs.Numbers.{most_records};
ghost use Rattle.table.specs.Table.{limit_num};
ghost use Rattle.marking.specs.Marks.{bit, digit_at, digit_of, mark_byte, mark_digit, mark_length, mark_node, marks_of, most_has};
ghost use Rattle.marking.specs.Opening.{digit_opens, kind_opens, limit_opens, most_is, node_opens, number_is, question16};

use std::array;
use table::{Kind, Limit, MOST_RECORDS, Most, Node, Number, RECORD_LENGTH};

// Bytes of marks: four records a byte.
pub const MARK_LENGTH: usize = 128;

// ---- Marks written

// Has a node's limit the symbol, and not its triangular number?
#[tactic(auto, unfolding(table::specs::Table::limit_num, crate::specs::Marks::most_has))]
fn limit_has(limit: Limit, symbol: u64) -> bool
    ensures { result ≡ most_has symbol (limit_num limit) }
{
    match limit {
        Limit::Unlimited => false,
        Limit::AtMost(_, most) => most == Most::Symbol(symbol),
    }
}

// A node's two marks: 1 where its value has the symbol, 2 where its limit has it.
fn mark_node(node: Node, symbol: u64) -> u8
    ensures { (result ≡ mark_node symbol node) × (result < 4) }
{
    let value = table::number_has(writing::value_of(node.kind), symbol);
    u8::from(value) + 2 * u8::from(limit_has(node.limit, symbol))
}

// The two marks of record i: none past the last record.
fn mark_digit(table: &[u8], i: usize, symbol: u64) -> u8
    requires { i < most_records }
    ensures { (result ≡ mark_digit symbol table.now i) × (result < 4) }
{
    let n = table.len() / RECORD_LENGTH;
    if n <= i {
        return 0;
    }
    mark_node(table::node_at(table, i), symbol)
}

// Four records' marks, as the format has them: a loop over the four would say no more.
fn mark_byte(table: &[u8], j: usize, symbol: u64) -> u8
    requires { j < mark_length }
    ensures { result ≡ mark_byte (mark_digit symbol table.now) j }
{
    let first = mark_digit(table, 4 * j, symbol);
    let second = mark_digit(table, 4 * j + 1, symbol);
    let third = mark_digit(table, 4 * j + 2, symbol);
    let fourth = mark_digit(table, 4 * j + 3, symbol);
    first + 4 * second + 16 * third + 64 * fourth
}

// All records' marks.
pub fn marks_of(table: &[u8], symbol: u64) -> [u8; MARK_LENGTH]
    ensures { result ≡ marks_of symbol table.now }
{
    array::from_fn(|j| mark_byte(table, j, symbol))
}

// ---- Marks read

// The digit of a byte at place k.
fn digit_of(byte: u8, k: usize) -> u8
    requires { k < 4 }
    ensures { result ≡ digit_of byte k }
{
    (byte >> (2 * k)) % 4
}

// Record i's two marks.
pub fn digit_at(marks: &[u8], i: usize) -> u8
    requires { i / 4 < length marks.now }
    ensures { result ≡ digit_at marks.now i }
{
    digit_of(marks[i / 4], i % 4)
}

// ---- Question 16

// Is a time or bound this plain number?
pub fn number_is(value: Number, number: u64) -> bool
    ensures { result ≡ number_is number value }
{
    value == Number::Plain(number)
}

// May the symbol be put back in a node's value: is it this number, and does question 3 allow the symbol there?
#[tactic(auto, unfolding(crate::specs::Opening::kind_opens))]
fn kind_opens(kind: Kind, symbol: u64, number: u64) -> bool
    ensures { result ≡ kind_opens symbol number kind }
{
    match kind {
        Kind::Block(time) => number_is(time, number) & table::time_in_range(Number::Symbol(symbol)),
        Kind::Sequence | Kind::Choice => false,
        Kind::Loop(bound) => {
            number_is(bound, number) & table::count_in_range(Number::Symbol(symbol))
        }
    }
}

// May it in a node's limit? It and the value's test share no more than that a number is compared and the symbol's range asked, each by functions of its own.
fn limit_opens(limit: Limit, symbol: u64, number: u64) -> bool
    ensures { result ≡ limit_opens symbol number limit }
{
    match limit {
        Limit::Unlimited => false,
        Limit::AtMost(_, most) => {
            (most == Most::Plain(number)) & table::most_in_range(Most::Symbol(symbol))
        }
    }
}

// May it in each field of a node that is marked?
fn node_opens(node: Node, digit: u8, symbol: u64, number: u64) -> bool
    ensures { result ≡ node_opens symbol number digit node }
{
    let value = kind_opens(node.kind, symbol, number);
    let most = limit_opens(node.limit, symbol, number);
    ((digit % 2 == 0) | value) & ((digit / 2 == 0) | most)
}

// May it in each marked field of record i? Without a mark, as most records are, the node is not read; past the last record none may be.
fn digit_opens(table: &[u8], marks: &[u8], i: usize, symbol: u64, number: u64) -> bool
    requires { i / 4 < length marks.now }
    ensures { result ≡ digit_opens symbol number table.now marks.now i }
{
    let n = table.len() / RECORD_LENGTH;
    let digit = digit_at(marks, i);
    if (n <= i) | (digit == 0) {
        return digit == 0;
    }
    node_opens(table::node_at(table, i), digit, symbol, number)
}

// Are there 128 bytes of marks, each mark where it may stand?
pub fn marks_allowed(table: &[u8], marks: &[u8], symbol: u64, number: u64) -> bool
    ensures { result ≡ question16 table.now marks.now symbol number }
{
    if marks.len() != MARK_LENGTH {
        return false;
    }
    (0..MOST_RECORDS).all(|i| digit_opens(table, marks, i, symbol, number))
}
