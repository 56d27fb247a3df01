// Rules 8 and 9 of document 01's simplification, each as a rewrite of a table's bytes from a node's record on into a second buffer. Each answers how many
// records it wrote there, where it fits.
#![tactic(auto)]

ghost use Rattle.std.specs.Prelude.{◌≡◌, ◌*◌, ◌+◌, ◌<◌, ◌≤◌, length};
ghost use Rattle.table.specs.Numbers.{record_length};
ghost use Rattle.table.specs.Table.{record_count};
ghost use Rattle.writing.specs.Records.{front};
ghost use Rattle.simplify.specs.Rules.{all_pairs, children, is_pair, rule8, rule9};
ghost use Rattle.simplify.specs.Same.{same};
ghost use Rattle.subtrees.specs.Facts.{Surveyed};
ghost use Rattle.subtrees.specs.Parts.{subtree, trees_at};
ghost use Rattle.rewrite.specs.Wrote.{Wrote, rule_at};
ghost use Rattle.rules8and9.specs.Sharing.{PairsAt, RoomFor, RowAppended, fields_at, firsts_at, idle, records_from, same_bytes, same_records, shared_at, sharing, top_bytes};

use subtrees::View;
use table::{FIELDS_LENGTH, Kind, Limit, Node, Number, RECORD_LENGTH, WHOLE_RUN};

// ---- Rule 8

// Are the records a and b the same but for their addresses? What stands before an address is two words.
fn same_fields(table: &[u8], a: usize, b: usize) -> bool
    requires { (a < record_count table.now) × (b < record_count table.now) }
    ensures { result ≡ same_bytes (fields_at table.now a) (fields_at table.now b) }
{
    let one = RECORD_LENGTH * a;
    let other = RECORD_LENGTH * b;
    let differing = words::compare(
        &table[one..one + FIELDS_LENGTH],
        &table[other..other + FIELDS_LENGTH],
    );
    differing.is_none()
}

// Are the n records from record a on the same, but for their addresses, as those from record b on?
fn same_records(table: &[u8], a: usize, b: usize, n: usize) -> bool
    requires { (a + n ≤ record_count table.now) × (b + n ≤ record_count table.now) }
    ensures { result ≡ same_records n (records_from table.now a) (records_from table.now b) }
{
    for k in 0..n {
        if !same_fields(table, a + k, b + k) {
            return false;
        }
    }
    true
}

// Are the subtrees at records a and b the same but for their addresses? Nothing is read of one and the same subtree, nor where their lengths differ.
fn same_subtrees(view: View, a: usize, b: usize) -> bool
    requires one { a < record_count view.table.now }
    requires other { b < record_count view.table.now }
    ensures { result ≡ same (subtree view.entry.table.now a) (subtree view.entry.table.now b) }
{
    if a == b {
        return true;
    }
    let n = view.facts[a].records;
    if n != view.facts[b].records {
        return false;
    }
    same_records(view.table, a, b, n)
}

// Is the tree at record p an unlimited sequence of two children?
fn is_pair(view: View, p: usize) -> bool
    requires { p < record_count view.table.now }
    ensures { result ≡ is_pair (subtree view.entry.table.now p) }
{
    let node = table::node_at(view.table, p);
    (node.kind == Kind::Sequence)
        & rewrite::is_unlimited(node.limit)
        & (table::children_at(view.table, p) == 2)
}

// Is it one whose second child is the same, but for its addresses, as the subtree at record `second`?
fn pair_shares(view: View, p: usize, second: usize) -> bool
    requires pair { p < record_count view.table.now }
    requires second { second < record_count view.table.now }
    ensures { result ≡ sharing (subtree view.entry.table.now second) (subtree view.entry.table.now p) }
{
    if !is_pair(view, p) {
        return false;
    }
    let first = p + 1;
    same_subtrees(view, first + view.facts[first].records, second)
}

// Are all children of the node at record i such?
fn all_share(view: View, i: usize, second: usize) -> bool
    requires inside { i < record_count view.table.now }
    requires second { second < record_count view.table.now }
    ensures { result ≡ all_pairs (subtree view.entry.table.now second) (children (subtree view.entry.table.now i)) }
{
    let other = view.first_child(i, |p| !pair_shares(view, p, second));
    other.is_none()
}

// The record of the second child that the children of the node at record i share, where rule 8 fits.
fn shared_child(view: View, i: usize) -> Option<usize>
    requires inside { i < record_count view.table.now }
    requires surveyed { Surveyed view.table.now view.facts.now }
    ensures { result ≡ shared_at i (trees_at view.entry.table.now i) }
{
    let node = table::node_at(view.table, i);
    if (node.kind != Kind::Choice) | (table::children_at(view.table, i) < 2) {
        return None;
    }
    let p = i + 1;
    if !is_pair(view, p) {
        return None;
    }
    let first = p + 1;
    let second = first + view.facts[first].records;
    if view.facts[second].reach != 0 {
        return None;
    }
    if !all_share(view, i, second) {
        return None;
    }
    Some(second)
}

// Copies the first children of n pairs, of which the first stands at record p, to the buffer's record `at` and on; answers the record after them.
fn copy_firsts(view: View, p: usize, n: usize, out: &mut [u8], at: usize) -> usize
    requires pairs { PairsAt view.table.now p n }
    requires room { RoomFor at (firsts_at view.table.now p n) out.old }
    ensures { RowAppended at out.old (firsts_at view.entry.table.now p n) result out.new }
{
    let mut q = p;
    let mut to = at;
    // no closure: what it wrote would not be known after it
    for _ in 0..n {
        let first = q + 1;
        to = writing::copy_records(view.table, first, view.facts[first].records, out, to);
        q += view.facts[q].records;
    }
    to
}

// Puts the records of a sequence of two with the limit and the address of the node at record i, and of an unlimited choice with its number of children and
// address 0.
fn put_tops(view: View, i: usize, out: &mut [u8]) -> usize
    requires inside { i < record_count view.table.now }
    requires room { record_length * 2 ≤ length out.old }
    ensures { (result ≡ 2) × (front result out.new ≡ top_bytes (subtree view.entry.table.now i)) }
{
    let node = table::node_at(view.table, i);
    let count = table::children_at(view.table, i);
    let sequence = Node {
        kind: Kind::Sequence,
        limit: node.limit,
        address: node.address,
    };
    let choice = Node {
        kind: Kind::Choice,
        limit: Limit::Unlimited,
        address: 0,
    };
    let next = writing::put_node(out, 0, sequence, 2);
    writing::put_node(out, next, choice, count as u8)
}

// 8. A choice of at least two unlimited two-child sequences with the same closed second child, but for its addresses, becomes a sequence of a choice of
// the first children and the first of the second children.
pub fn rule8_at(view: View, i: usize, out: &mut [u8]) -> Option<usize>
    requires inside { i < record_count view.table.now }
    requires room { length view.table.now ≤ length out.old }
    requires surveyed { Surveyed view.table.now view.facts.now }
    ensures { Wrote (rule_at rule8 (trees_at view.entry.table.now i)) result out.new }
{
    let table = view.table;
    let second = shared_child(view, i)?;
    let count = table::children_at(table, i);
    let tops = put_tops(view, i, out);
    let firsts = copy_firsts(view, i + 1, count, out, tops);
    let at = writing::copy_records(table, second, view.facts[second].records, out, firsts);
    let from = i + view.facts[i].records;
    Some(writing::copy_rest(table, from, out, at))
}

// ---- Rule 9

// Is the tree at record p an unlimited loop of plain bound 0?
fn is_idle(view: View, p: usize) -> bool
    requires { p < record_count view.table.now }
    ensures { result ≡ idle (subtree view.entry.table.now p) }
{
    let node = table::node_at(view.table, p);
    (node.kind == Kind::Loop(Number::Plain(0))) & rewrite::is_unlimited(node.limit)
}

// 9. An unlimited loop of plain bound 0, whose body's list names this loop or the whole run, becomes its exit.
pub fn rule9_at(view: View, i: usize, out: &mut [u8]) -> Option<usize>
    requires inside { i < record_count view.table.now }
    requires room { length view.table.now ≤ length out.old }
    requires surveyed { Surveyed view.table.now view.facts.now }
    ensures { Wrote (rule_at rule9 (trees_at view.entry.table.now i)) result out.new }
{
    if !is_idle(view, i) {
        return None;
    }
    let body = i + 1;
    let kept = view.facts[body];
    if (kept.named == 1) | (kept.named == WHOLE_RUN) {
        let from = body + kept.records;
        return Some(writing::copy_rest(view.table, from, out, 0));
    }
    None
}
