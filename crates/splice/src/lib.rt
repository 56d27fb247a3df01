// Grafting's passes over records, document 02's CR 1: the sent table renamed, and put in place of the blocks with a time symbol.
#![tactic(auto)]

ghost use Rattle.std.specs.Prelude.{◌≡◌, ◌++◌, ◌*◌, ◌+◌, ◌-◌, ◌^◌, ◌<◌, ◌≤◌, drop, length};
ghost use Rattle.table.specs.Numbers.{most_loops, record_length};
ghost use Rattle.table.specs.Table.{child_byte, each, first_node, record_count};
ghost use Rattle.table.specs.Checking.{IsTable};
ghost use Rattle.writing.specs.Records.{Appended, front};
ghost use Rattle.splice.specs.Graft.{is_symbol, renamed_name};
ghost use Rattle.splice.specs.Renaming.{entered, loop_room, renamed_record, renamed_table, still_around, stack};
ghost use Rattle.splice.specs.Splice.{NoPlace, Stands, occurs_first, occurrences_in, place_bytes, sendable_first, splice, splice_records};

use table::{Kind, Limit, MOST_LOOPS, Node, Number, RECORD_LENGTH, WHOLE_RUN};

// Room for a count of each loop around a node, and one more: `enter` writes the next place before it knows whether it is used.
const LOOP_ROOM: usize = 9;

// ---- The symbol

// Is this a block whose time is the symbol?
fn is_symbol(kind: Kind, symbol: u64) -> bool
    ensures { result ≡ is_symbol symbol kind }
{
    kind == Kind::Block(Number::Symbol(symbol))
}

// Is record i a block with the symbol?
fn is_place(table: &[u8], i: usize, symbol: u64) -> bool
    requires { i < record_count table.now }
    ensures { result ≡ is_symbol symbol (first_node (drop (record_length * i) table.now)).kind }
{
    is_symbol(table::node_at(table, i).kind, symbol)
}

// How many records are blocks with the symbol.
pub fn count_occurrences(table: &[u8], symbol: u64) -> usize
    ensures { (result ≡ occurrences_in symbol (record_count table.now) table.now) × (result ≤ record_count table.now) }
{
    let n = table.len() / RECORD_LENGTH;
    (0..n).filter(|i| is_place(table, *i, symbol)).count()
}

// Is the record at the front of `b` neither a block with the symbol nor one with a paired symbol?
fn may_be_sent(b: &[u8], symbol: u64) -> bool
    requires { record_length ≤ length b.now }
    ensures { result ≡ sendable_first symbol b.now }
{
    let kind = table::read_kind(b);
    !is_symbol(kind, symbol) & !table::is_paired_block(kind)
}

// May the table be sent for the symbol: has it no block with that or a paired one?
pub fn sendable(table: &[u8], symbol: u64) -> bool
    ensures { result ≡ each (sendable_first symbol) (record_count table.now) table.now }
{
    table::every_record(table, |b| may_be_sent(b, symbol))
}

// ---- The sent table, renamed

// The loop that a limit of the sent table names once it is grafted, with `outer` of the sent table's loops around its node.
fn renamed(name: u8, outer: u8) -> u8
    requires { outer ≤ most_loops }
    ensures { result ≡ renamed_name name outer }
{
    if name == WHOLE_RUN { outer + 1 } else { name }
}

// What a pass over the sent table's records knows of the loops around each of them. `wanted` is question 4's count of the trees still to come; `ends` has, for
// each of the `outer` loops around, the count at the loop's record, the innermost last: where it is met again the loop's body has ended.
#[derive(Drop)]
struct Around {
    ends: [usize; LOOP_ROOM],
    outer: u8,
    wanted: usize,
    ghost nested: { outer ≤ most_loops },
    ghost roomy: { length ends ≡ loop_room },
}

impl Around {
    // Before a table's first record.
    const FIRST: Around = Around {
        ends: [0; LOOP_ROOM],
        outer: 0,
        wanted: 1,
    };

    // The loops around the record that comes now, of those before it: the innermost is left where its body has ended.
    fn leave(&mut self)
        ensures { (stack self.new.ends self.new.outer ≡ still_around self.old.wanted (stack self.old.ends self.old.outer)) × (self.new.wanted ≡ self.old.wanted) }
    {
        if self.outer == 0 {
            return;
        }
        let last = self.outer - 1;
        if self.ends[last as usize] == self.wanted {
            self.outer = last;
        }
    }

    // The loops around what follows the record of a node of this kind. The place behind them is written for every kind, and counts for a loop alone.
    fn enter(&mut self, kind: Kind)
        ensures { (stack self.new.ends self.new.outer ≡ entered kind self.old.wanted (stack self.old.ends self.old.outer)) × (self.new.wanted ≡ self.old.wanted) }
    {
        self.ends[self.outer as usize] = self.wanted;
        let inside = table::loops_inside(kind, self.outer);
        if inside <= MOST_LOOPS {
            self.outer = inside;
        }
    }
}

// Puts record i of the sent table, renamed, at the buffer's record `at`. Renaming changes byte 3 alone, so the record is copied and not written anew from its
// node.
fn rename_next(sent: &[u8], i: usize, around: &mut Around, out: &mut [u8], at: usize)
    requires fact_1 { i < record_count sent.now }
    requires fact_2 { (0 < around.old.wanted) × (around.old.wanted + 256 < 2 ^ 64) }
    requires fact_3 { record_length * (at + 1) ≤ length out.old }
    ensures around_after { (stack around.new.ends around.new.outer ≡ entered (first_node (drop (record_length * i) sent.now)).kind around.old.wanted (still_around around.old.wanted (stack around.old.ends around.old.outer))) × (around.new.wanted ≡ around.old.wanted - 1 + child_byte (drop (record_length * i) sent.now)) }
    ensures out_after { front (at + 1) out.new ≡ front at out.old ++ renamed_record (length (still_around around.old.wanted (stack around.old.ends around.old.outer))) (drop (record_length * i) sent.now) }
{
    around.leave();
    writing::copy_records(sent, i, 1, out, at);
    writing::put_name(out, at, renamed(table::name_at(sent, i), around.outer));
    around.enter(table::node_at(sent, i).kind);
    around.wanted = around.wanted - 1 + table::children_at(sent, i);
}

// Puts the sent table, renamed, at the buffer's record `at`; answers the record after it.
fn put_renamed(sent: &[u8], out: &mut [u8], at: usize) -> usize
    requires fact_1 { IsTable sent.now }
    requires fact_2 { record_length * (at + record_count sent.now) ≤ length out.old }
    ensures { Appended at out.old (record_count sent.now) (renamed_table sent.now) result out.new }
{
    let n = sent.len() / RECORD_LENGTH;
    let mut around = Around::FIRST;
    for i in 0..n {
        rename_next(sent, i, &mut around, out, at + i);
    }
    at + n
}

// ---- The host, with the renamed sent table in place of the symbol

// Puts the renamed sent table at the buffer's record `at`; answers the record after it. Where it was put before, it is copied from the record at which it was
// put last.
fn put_sent(sent: &[u8], last: Option<usize>, out: &mut [u8], at: usize) -> usize
    requires fact_1 { IsTable sent.now }
    requires fact_2 { Stands (renamed_table sent.now) last (front at out.old) }
    requires fact_3 { record_length * (at + record_count sent.now) ≤ length out.old }
    ensures { Appended at out.old (record_count sent.now) (renamed_table sent.now) result out.new }
{
    match last {
        None => put_renamed(sent, out, at),
        Some(place) => writing::repeat_records(out, place, sent.len() / RECORD_LENGTH, at),
    }
}

// Puts what stands in place of a block at the buffer's record `at`: a loop with the block's limit and address, the renamed sent table, the zero block.
// Answers the record after it.
fn put_place(block: Node, sent: &[u8], last: Option<usize>, out: &mut [u8], at: usize) -> usize
    requires fact_1 { IsTable sent.now }
    requires fact_2 { Stands (renamed_table sent.now) last (front at out.old) }
    requires fact_3 { record_length * (at + (record_count sent.now + 2)) ≤ length out.old }
    ensures { Appended at out.old (record_count sent.now + 2) (place_bytes (renamed_table sent.now) block.limit block.address) result out.new }
{
    let once = Node {
        kind: Kind::Loop(Number::Plain(1)),
        limit: block.limit,
        address: block.address,
    };
    let zero = Node {
        kind: Kind::Block(Number::Plain(0)),
        limit: Limit::Unlimited,
        address: 0,
    };
    let first = writing::put_node(out, at, once, 2);
    let end = put_sent(sent, last, out, first);
    writing::put_node(out, end, zero, 0)
}

// The first record from record i on that is a block with the symbol; there is one.
fn next_place(host: &[u8], i: usize, symbol: u64) -> usize
    requires { 0 < occurrences_in symbol (record_count host.now - i) (drop (record_length * i) host.now) }
    ensures { NoPlace symbol host.now i result × (result < record_count host.now) × (occurs_first symbol (drop (record_length * result) host.now) ≡ 1) }
{
    let n = host.len() / RECORD_LENGTH;
    (i..n).find(|k| is_place(host, *k, symbol)).unwrap()
}

// Puts the host's records at the buffer's front, with what stands in place of the `count` blocks with the symbol; answers how many records that makes. The
// records between two such blocks are copied at once.
pub fn put_all(host: &[u8], symbol: u64, count: usize, sent: &[u8], out: &mut [u8]) -> usize
    requires fact_1 { count ≡ occurrences_in symbol (record_count host.now) host.now }
    requires fact_2 { IsTable sent.now }
    requires fact_3 { record_length * splice_records symbol (record_count sent.now) (record_count host.now) host.now ≤ length out.old }
    ensures { (result ≡ splice_records symbol (record_count sent.now) (record_count host.now) host.now) × (front result out.new ≡ splice symbol (renamed_table sent.now) (record_count host.now) host.now) }
{
    let mut last = None;
    let mut at: usize = 0;
    let mut i: usize = 0;
    for _k in 0..count {
        let place = next_place(host, i, symbol);
        let end = writing::copy_records(host, i, place - i, out, at);
        at = put_place(table::node_at(host, place), sent, last, out, end);
        last = Some(end + 1);
        i = place + 1;
    }
    writing::copy_rest(host, i, out, at)
}
