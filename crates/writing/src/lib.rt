// Records written to a buffer: copied from a table or from the buffer itself, or made of a node and its number of children.
#![tactic(auto)]

ghost use Rattle.std.specs.Prelude.{◌≡◌, ◌++◌, ◌*◌, ◌+◌, ◌-◌, ◌≤◌, drop, length, set, take};
ghost use Rattle.table.specs.Numbers.{record_length};
ghost use Rattle.table.specs.Table.{flag, kind_byte, limit_num, loop_byte, most_field, most_flags, raw, record_bytes, record_count, value_num};
ghost use Rattle.writing.specs.Fields.{with_value};
ghost use Rattle.writing.specs.Over.{over};
ghost use Rattle.writing.specs.Records.{Appended, slice};

use table::{FILL, Kind, Limit, Most, Node, Number, RECORD_LENGTH};

// ---- Elements copied

// Writes the first n elements of a slice over the front of a buffer.
pub fn write_front<T: Copy>(from: &[T], n: usize, out: &mut [T])
    requires { (n ≤ length from.now) × (n ≤ length out.old) }
    ensures { out.new ≡ over (take n from.now) out.old }
{
    out[..n].copy_from_slice(&from[..n]);
}

// Copies n bytes from byte `start` on to the buffer's byte `at` and on. One by one: where it isn't seen that the two are apart, `copy_from_slice` is compiled to
// a call of memmove, which is more than a caller from C is asked for.
pub fn copy_bytes(from: &[u8], start: usize, n: usize, out: &mut [u8], at: usize)
    requires { (start + n ≤ length from.now) × (at + n ≤ length out.old) }
    ensures { (take (at + n) out.new ≡ take at out.old ++ take n (drop start from.now)) × (drop (at + n) out.new ≡ drop (at + n) out.old) }
{
    for k in 0..n {
        out[at + k] = from[start + k];
    }
}

// ---- Records copied

// A buffer and its record `at` are no struct: a caller lends the buffer for one call and goes on from the record that it answers, so that each call would make
// the struct and take it apart.

// Copies n records from record i on to the buffer's record `at` and on; answers the record after them.
pub fn copy_records(table: &[u8], i: usize, n: usize, out: &mut [u8], at: usize) -> usize
    requires { (record_length * (i + n) ≤ length table.now) × (record_length * (at + n) ≤ length out.old) }
    ensures { Appended at out.old n (slice table.now i n) result out.new }
{
    copy_bytes(
        table,
        RECORD_LENGTH * i,
        RECORD_LENGTH * n,
        out,
        RECORD_LENGTH * at,
    );
    at + n
}

// Copies n records of the buffer itself, from record i on, to its record `at` and on, behind them; answers the record after them.
pub fn repeat_records(out: &mut [u8], i: usize, n: usize, at: usize) -> usize
    requires { (i + n ≤ at) × (record_length * (at + n) ≤ length out.old) }
    ensures { Appended at out.old n (slice out.old i n) result out.new }
{
    let (front, back) = out.split_at_mut(RECORD_LENGTH * at);
    copy_records(front, i, n, back, 0);
    at + n
}

// Copies the records from record i to the table's end to the buffer's record `at` and on; answers the record after them.
pub fn copy_rest(table: &[u8], i: usize, out: &mut [u8], at: usize) -> usize
    requires { (i ≤ record_count table.now) × (record_length * (at + (record_count table.now - i)) ≤ length out.old) }
    ensures { Appended at out.old (record_count table.now - i) (slice table.now i (record_count table.now - i)) result out.new }
{
    copy_records(table, i, table.len() / RECORD_LENGTH - i, out, at)
}

// ---- The record of a node

// The flag of a time or bound, and its field. A kind, a number and a limit have several bytes in a record, of which none is the value's own number: so each is
// a function with the byte's name, and no From.
#[tactic(auto, unfolding(table::specs::Table::flag))]
pub fn flag_of(number: Number) -> u8
    ensures { (result ≡ flag number) × (result ≤ 1) }
{
    match number {
        Number::Plain(_) => 0,
        Number::Symbol(_) => 1,
    }
}

pub fn raw_of(number: Number) -> u64
    ensures { result ≡ raw number }
{
    match number {
        Number::Plain(n) | Number::Symbol(n) => n,
    }
}

// A limit's flags, halved, and its field.
#[tactic(auto, unfolding(table::specs::Table::most_flags))]
fn most_flags(most: Most) -> u8
    ensures { (result ≡ most_flags most) × (result ≤ 3) }
{
    match most {
        Most::Plain(_) => 0,
        Most::Symbol(_) => 1,
        Most::Triangular(_) => 3,
    }
}

fn most_field(most: Most) -> u64
    ensures { result ≡ most_field most }
{
    match most {
        Most::Plain(n) | Most::Symbol(n) | Most::Triangular(n) => n,
    }
}

#[tactic(auto, unfolding(table::specs::Table::kind_byte))]
pub fn kind_byte(kind: Kind) -> u8
    ensures { result ≡ kind_byte kind }
{
    match kind {
        Kind::Block(_) => 0,
        Kind::Sequence => 1,
        Kind::Choice => 2,
        Kind::Loop(_) => 3,
    }
}

// A block's time, a loop's bound.
#[tactic(auto, unfolding(table::specs::Table::value_num))]
pub fn value_of(kind: Kind) -> Number
    ensures { result ≡ value_num kind }
{
    match kind {
        Kind::Block(value) | Kind::Loop(value) => value,
        Kind::Sequence | Kind::Choice => Number::Plain(0),
    }
}

#[tactic(auto, unfolding(table::specs::Table::loop_byte))]
fn loop_byte(limit: Limit) -> u8
    ensures { result ≡ loop_byte limit }
{
    match limit {
        Limit::Unlimited => 0,
        Limit::AtMost(name, _) => name,
    }
}

#[tactic(auto, unfolding(table::specs::Table::limit_num))]
fn most_of(limit: Limit) -> Most
    ensures { result ≡ limit_num limit }
{
    match limit {
        Limit::Unlimited => Most::Plain(0),
        Limit::AtMost(_, most) => most,
    }
}

// A record's bytes.
fn record_of(node: Node, count: u8) -> [u8; RECORD_LENGTH]
    ensures { result ≡ record_bytes node count }
{
    let value = value_of(node.kind);
    let most = most_of(node.limit);
    let mut record = [FILL; RECORD_LENGTH];
    record[0] = kind_byte(node.kind);
    record[1] = flag_of(value) + 2 * most_flags(most);
    record[2] = count;
    record[3] = loop_byte(node.limit);
    record[4..8].copy_from_slice(&most_field(most).to_le_bytes()[..4]);
    record[8..16].copy_from_slice(&raw_of(value).to_le_bytes());
    record[16..20].copy_from_slice(&node.address.to_le_bytes());
    record
}

// Writes the loop that a limit names over that of the buffer's record `at`, and nothing else of the record.
pub fn put_name(out: &mut [u8], at: usize, name: u8)
    requires { record_length * (at + 1) ≤ length out.old }
    ensures { out.new ≡ set out.old (record_length * at + 3) name }
{
    out[RECORD_LENGTH * at + 3] = name;
}

// Writes a value, a block's time or a loop's bound, over that of the buffer's record `at`, and nothing else of the record.
pub fn put_value(out: &mut [u8], at: usize, value: u64)
    requires { record_length * (at + 1) ≤ length out.old }
    ensures { out.new ≡ with_value out.old at value }
{
    let start = RECORD_LENGTH * at + 8;
    out[start..start + 8].copy_from_slice(&value.to_le_bytes());
}

// Puts the record of a node with so many children at the buffer's record `at`; answers the record after it. Every record that is not copied is
// written here.
pub fn put_node(out: &mut [u8], at: usize, node: Node, count: u8) -> usize
    requires { record_length * (at + 1) ≤ length out.old }
    ensures { Appended at out.old 1 (record_bytes node count) result out.new }
{
    copy_records(&record_of(node, count), 0, 1, out, at)
}
