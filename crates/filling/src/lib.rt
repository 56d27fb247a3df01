// Document 02's CR 8: a table written with a number or a symbol put in its marked fields, in one pass over its records.
#![tactic(auto)]

ghost use Rattle.std.specs.Prelude.{◌≡◌, ◌+◌, ◌*◌, ◌%◌, ◌/◌, ◌<◌, ◌≤◌, drop, length};
ghost use Rattle.table.specs.Numbers.{most_records, record_length};
ghost use Rattle.table.specs.Table.{record_count};
ghost use Rattle.writing.specs.Records.{Appended, front};
ghost use Rattle.marking.specs.Marks.{digit_at, mark_length};
ghost use Rattle.filling.specs.Fill.{on_kind, on_limit, on_node, put};
ghost use Rattle.filling.specs.Records.{put_record, put_records};

use table::{Kind, Limit, Most, Node, Number, RECORD_LENGTH};

// ---- A node

// What stands in a field afterwards: where it has a mark, what is put there.
#[tactic(auto, unfolding(crate::specs::Fill::put))]
fn put<T: Copy>(mark: u8, new: T, old: T) -> T
    ensures { result ≡ put mark new old }
{
    if mark == 0 { old } else { new }
}

#[tactic(auto, unfolding(crate::specs::Fill::on_kind))]
fn put_value(kind: Kind, mark: u8, new: Number) -> Kind
    ensures { result ≡ on_kind (put mark new) kind }
{
    match kind {
        Kind::Block(time) => Kind::Block(put(mark, new, time)),
        Kind::Loop(bound) => Kind::Loop(put(mark, new, bound)),
        Kind::Sequence | Kind::Choice => kind,
    }
}

#[tactic(auto, unfolding(crate::specs::Fill::on_limit))]
fn put_limit(limit: Limit, mark: u8, new: Most) -> Limit
    ensures { result ≡ on_limit (put mark new) limit }
{
    match limit {
        Limit::Unlimited => Limit::Unlimited,
        Limit::AtMost(name, most) => Limit::AtMost(name, put(mark, new, most)),
    }
}

// The node with these in the fields that its digit marks: 1 the value, 2 the limit. Its address stays.
fn put_fields(node: Node, digit: u8, value: Number, most: Most) -> Node
    ensures { result ≡ on_node (put (digit % 2) value) (put (digit / 2) most) node }
{
    Node {
        kind: put_value(node.kind, digit % 2, value),
        limit: put_limit(node.limit, digit / 2, most),
        address: node.address,
    }
}

// ---- A table

// Puts record i, with these in the fields that its digit marks, at the buffer's record i.
fn put_next(table: &[u8], i: usize, digit: u8, value: Number, most: Most, out: &mut [u8])
    requires { (i < record_count table.now) × (record_length * record_count table.now ≤ length out.old) }
    ensures { Appended i out.old 1 (put_record value most digit (drop (record_length * i) table.now)) (i + 1) out.new }
{
    let count = table::children_at(table, i) as u8;
    let node = table::node_at(table, i);
    writing::put_node(out, i, put_fields(node, digit, value, most), count);
}

// Puts all of the table's records, with these in the marked fields, at the buffer's front. A limit has numbers that a time has not, so there are two of them.
pub fn put_marked(table: &[u8], marks: &[u8], value: Number, most: Most, out: &mut [u8])
    requires { (record_length * record_count table.now ≤ length out.old) × (length marks.now ≡ mark_length) × (record_count table.now ≤ most_records) }
    ensures { front (record_count table.now) out.new ≡ put_records value most (digit_at marks.now) (record_count table.now) 0 table.now }
{
    for i in 0..table.len() / RECORD_LENGTH {
        put_next(table, i, marking::digit_at(marks, i), value, most, out);
    }
}
