// Rules 2 to 7 of document 01's simplification, each as a rewrite of a table's bytes from a node's record on into a second buffer. Each answers how many
// records it wrote there, where it fits.
#![tactic(auto)]

ghost use Rattle.std.specs.Prelude.{◌≡◌, false, ◌*◌, ◌+◌, ◌<◌, ◌≤◌, suc, leb, length, Some};
ghost use Rattle.std.proofs.Math.Option.{some};
ghost use Rattle.table.specs.Numbers.{most_children, most_time, record_length};
ghost use Rattle.table.specs.Table.{encodes, record_bytes, record_count};
ghost use Rattle.table.specs.Trees.{records_in};
ghost use Rattle.writing.specs.Records.{Appended};
ghost use Rattle.simplify.specs.Rules.{gives, is_zero, rule2, rule3, rule4, rule5, rule6, rule7};
ghost use Rattle.subtrees.specs.Facts.{Surveyed};
ghost use Rattle.subtrees.specs.Parts.{Simplifiable, subtree, trees_at};
ghost use Rattle.rewrite.specs.Wrote.{Wrote, rule_at};
ghost use Rattle.rules2to7.specs.Children.{Left, relimited};
ghost use Rattle.rules2to7.specs.Settled.{before_at, block_at};
ghost use Rattle.rules2to7.specs.Blocks.{Parted, Standing, bares_at, kept_records, merged, others_up_to, two_bares, with_child};

use lists::List;
use subtrees::View;
use table::{Kind, Limit, MOST_DEPTH, Node, Number, RECORD_LENGTH};

// ---- Children

// Has a node of this many children room for those of one of them in its place?
fn has_room(count: usize, more: usize) -> bool
    requires { more < 256 }
    ensures { result ≡ leb (count + more) (suc most_children) }
{
    if 256 < count {
        return false;
    }
    count + more <= 256
}

// Does the tree at record p, a child of a node of this kind and this many children, give way to its own children?
fn gives_way(view: View, p: usize, kind: Kind, count: usize) -> bool
    requires { p < record_count view.table.now }
    ensures { result ≡ gives kind count (subtree view.entry.table.now p) }
{
    let own = table::node_at(view.table, p);
    let more = table::children_at(view.table, p);
    (own.kind == kind) & rewrite::is_unlimited(own.limit) & has_room(count, more)
}

// Is the tree at record p an unlimited plain block of time 0?
fn is_zero(view: View, p: usize) -> bool
    requires { p < record_count view.table.now }
    ensures { result ≡ is_zero (subtree view.entry.table.now p) }
{
    match rewrite::bare_time(view.table, p) {
        Some(time) => time == 0,
        None => false,
    }
}

// What the table becomes from record i on where the child at record p gives way to its own children: the node's record, with another number of
// children, and the others without record p. Answers how many records that is.
fn dissolve_at(table: &[u8], i: usize, p: usize, node: Node, count: u8, out: &mut [u8]) -> usize
    requires { (i < p) × (p < record_count table.now) × (length table.now ≤ length out.old) }
    ensures { Left table.now i p (record_bytes node count) result out.new }
{
    let first = i + 1;
    let after = p + 1;
    let next = writing::put_node(out, 0, node, count);
    let end = writing::copy_records(table, first, p - first, out, next);
    writing::copy_rest(table, after, out, end)
}

// ---- Rule 2

// 2. The first unlimited child of the same kind gives way to its children.
pub fn rule2_at(view: View, i: usize, out: &mut [u8]) -> Option<usize>
    requires inside { i < record_count view.table.now }
    requires room { length view.table.now ≤ length out.old }
    ensures { Wrote (rule_at rule2 (trees_at view.entry.table.now i)) result out.new }
{
    let table = view.table;
    let node = table::node_at(table, i);
    if !rewrite::is_sum(node.kind) {
        return None;
    }
    let count = table::children_at(table, i);
    let p = view.first_child(i, |p| gives_way(view, p, node.kind, count))?;
    let more = table::children_at(table, p);
    let all = (count + more - 1) as u8;
    Some(dissolve_at(table, i, p, node, all, out))
}

// ---- Rule 3

// What the table becomes from record p on where the unlimited tree there takes this limit: answers how many records that is, where it has no limit.
fn relimit_at(view: View, p: usize, limit: Limit, out: &mut [u8]) -> Option<usize>
    requires inside { p < record_count view.table.now }
    requires room { length view.table.now ≤ length out.old }
    ensures { Wrote (relimited limit (trees_at view.entry.table.now p)) result out.new }
{
    let table = view.table;
    let own = table::node_at(table, p);
    if !rewrite::is_unlimited(own.limit) {
        return None;
    }
    let count = table::children_at(table, p);
    let top = Node {
        kind: own.kind,
        limit: limit,
        address: own.address,
    };
    let next = writing::put_node(out, 0, top, count as u8);
    Some(writing::copy_rest(table, p + 1, out, next))
}

// 3. A sequence or choice of one child becomes the child, if at most one of the two has a limit.
pub fn rule3_at(view: View, i: usize, out: &mut [u8]) -> Option<usize>
    requires inside { i < record_count view.table.now }
    requires room { length view.table.now ≤ length out.old }
    ensures { Wrote (rule_at rule3 (trees_at view.entry.table.now i)) result out.new }
{
    let table = view.table;
    let node = table::node_at(table, i);
    if !rewrite::is_sum(node.kind) {
        return None;
    }
    if table::children_at(table, i) != 1 {
        return None;
    }
    let first = i + 1;
    if rewrite::is_unlimited(node.limit) {
        return Some(writing::copy_rest(table, first, out, 0));
    }
    relimit_at(view, first, node.limit, out)
}

// ---- Rule 4

// The first member of the node at record i, no block, before its own limit and with every value 0.
fn settled_value(table: &[u8], i: usize) -> u64
    requires fact_1 { Simplifiable table.now }
    requires fact_2 { i < record_count table.now }
    requires fact_3 { block_at (trees_at table.now i) ≡ false }
    ensures { result ≡ before_at (trees_at table.now i) }
{
    let node = table::node_at(table, i);
    let kind = node.kind;
    let count = table::children_at(table, i);
    let next = RECORD_LENGTH * i + RECORD_LENGTH;
    let zeros = [0; 0];
    let mut list = List::zero();
    let mut spare = List::zero();
    walking::evaluate_children(
        &table[next..],
        &zeros,
        MOST_DEPTH,
        kind,
        count,
        &mut list,
        &mut spare,
    );
    list.value_at(0)
}

// 4. A symbol-free node, not a block, whose children are each closed once limits naming that node itself are set aside, becomes a block of its first
// member before its own limit, keeping that limit.
pub fn rule4_at(view: View, i: usize, out: &mut [u8]) -> Option<usize>
    requires inside { i < record_count view.table.now }
    requires room { length view.table.now ≤ length out.old }
    requires surveyed { Surveyed view.table.now view.facts.now }
    requires simplifiable { Simplifiable view.table.now }
    ensures { Wrote (rule_at rule4 (trees_at view.entry.table.now i)) result out.new }
{
    let table = view.table;
    let node = table::node_at(table, i);
    let kept = view.facts[i];
    let settled = kept.symbol_free & (kept.reach_below == 0);
    if !settled {
        return None;
    }
    if rewrite::is_block(node.kind) {
        return None;
    }
    let time = Number::Plain(settled_value(table, i));
    let block = Node {
        kind: Kind::Block(time),
        limit: node.limit,
        address: 0,
    };
    let at = writing::put_node(out, 0, block, 0);
    Some(writing::copy_rest(table, i + kept.records, out, at))
}

// ---- Rule 5

// 5. In a sequence or choice of at least two children, the first unlimited plain block of time 0 goes. As in rule 2 a child is found and dissolved, by the same
// two functions: the tests before and the number of children that is left are others.
pub fn rule5_at(view: View, i: usize, out: &mut [u8]) -> Option<usize>
    requires inside { i < record_count view.table.now }
    requires room { length view.table.now ≤ length out.old }
    ensures { Wrote (rule_at rule5 (trees_at view.entry.table.now i)) result out.new }
{
    let table = view.table;
    let node = table::node_at(table, i);
    if !rewrite::is_sum(node.kind) {
        return None;
    }
    let count = table::children_at(table, i);
    if count < 2 {
        return None;
    }
    let p = view.first_child(i, |p| is_zero(view, p))?;
    let fewer = (count - 1) as u8;
    Some(dissolve_at(table, i, p, node, fewer, out))
}

// ---- Rules 6 and 7

// What a walk over a node's children finds of unlimited plain blocks: how many, the sum of their times and the largest.
#[derive(Clone, Copy)]
pub struct Bares {
    pub count: usize,
    pub total: u64,
    pub largest: u64,
}

// What was found so far, and the child at record p.
fn with_child(found: Bares, view: View, p: usize) -> Bares
    requires inside { p < record_count view.table.now }
    requires few { (found.count < p) × (found.total ≤ most_time * found.count) }
    ensures { (result ≡ with_child found (subtree view.entry.table.now p)) × (result.count ≤ p) × (result.total ≤ most_time * result.count) }
{
    let Some(time) = rewrite::bare_time(view.table, p) else {
        return found;
    };
    Bares {
        count: found.count + 1,
        total: found.total + time,
        largest: found.largest.max(time),
    }
}

// The unlimited plain blocks among the children of the node at record i.
fn bares_in(view: View, i: usize) -> Bares
    requires { i < record_count view.table.now }
    ensures { result ≡ bares_at (trees_at view.entry.table.now i) }
{
    let end = i + view.facts[i].records;
    let mut p = i + 1;
    let mut found = Bares {
        count: 0,
        total: 0,
        largest: 0,
    };
    // no `for`: the children's extents are the steps, and no closure: it would change what was found
    while p < end {
        found = with_child(found, view, p);
        p += view.facts[p].records;
    }
    found
}

// The same, where the node is of this kind and has two or more of them.
fn two_bares_in(view: View, i: usize, kind: Kind) -> Option<Bares>
    requires { i < record_count view.table.now }
    ensures { result ≡ two_bares kind (trees_at view.entry.table.now i) }
{
    if table::node_at(view.table, i).kind != kind {
        return None;
    }
    let found = bares_in(view, i);
    if found.count < 2 {
        return None;
    }
    Some(found)
}

// How many records of the tree at record p stay: none of an unlimited plain block.
fn kept(view: View, p: usize) -> usize
    requires { p < record_count view.table.now }
    ensures { result ≡ kept_records (subtree view.entry.table.now p) }
{
    if rewrite::is_bare(view.table, p) {
        return 0;
    }
    view.facts[p].records
}

// Copies the trees from record `start` up to `end` that are no unlimited plain blocks to the buffer's record `at` and on; answers the record after them.
fn copy_others(view: View, start: usize, end: usize, out: &mut [u8], at: usize) -> usize
    requires standing { Standing view.table.now start end }
    requires end_in_bounds { record_length * (at + records_in (others_up_to view.table.now start end)) ≤ length out.old }
    ensures { Appended at out.old (records_in (others_up_to view.entry.table.now start end)) (encodes (others_up_to view.entry.table.now start end)) result out.new }
{
    let mut p = start;
    let mut to = at;
    // no `for`: the trees' extents are the steps, and no closure: what it wrote would not be known after it
    while p < end {
        let n = kept(view, p);
        to = writing::copy_records(view.table, p, n, out, to);
        p += view.facts[p].records;
    }
    to
}

// Writes what the table becomes from record i on where the unlimited plain blocks among the node's children, none of which stands before record q, give way
// to one at q of this time; answers how many records that is.
fn merge_bares(view: View, i: usize, q: usize, time: u64, bares: usize, out: &mut [u8]) -> usize
    requires inside { i < record_count view.table.now }
    requires room { length view.table.now ≤ length out.old }
    requires parted { Parted view.table.now i q bares }
    ensures { (s : Parted view.entry.table.now i q bares) → Wrote (some (merged time s)) (Some result) out.new }
{
    let table = view.table;
    let node = table::node_at(table, i);
    let count = table::children_at(table, i) - bares + 1;
    let first = writing::put_node(out, 0, node, count as u8);
    let block = writing::copy_records(table, i + 1, q - i - 1, out, first);
    let plain = Node {
        kind: Kind::Block(Number::Plain(time)),
        limit: Limit::Unlimited,
        address: 0,
    };
    let second = writing::put_node(out, block, plain, 0);
    let end = i + view.facts[i].records;
    let later = copy_others(view, q, end, out, second);
    writing::copy_rest(table, end, out, later)
}

// 6. In a sequence, two or more unlimited plain blocks become one of their sum, as first child.
pub fn rule6_at(view: View, i: usize, out: &mut [u8]) -> Option<usize>
    requires inside { i < record_count view.table.now }
    requires room { length view.table.now ≤ length out.old }
    ensures { Wrote (rule_at rule6 (trees_at view.entry.table.now i)) result out.new }
{
    let found = two_bares_in(view, i, Kind::Sequence)?;
    Some(merge_bares(view, i, i + 1, found.total, found.count, out))
}

// 7. In a choice, two or more unlimited plain blocks become the largest, at the first one's place.
pub fn rule7_at(view: View, i: usize, out: &mut [u8]) -> Option<usize>
    requires inside { i < record_count view.table.now }
    requires room { length view.table.now ≤ length out.old }
    ensures { Wrote (rule_at rule7 (trees_at view.entry.table.now i)) result out.new }
{
    let found = two_bares_in(view, i, Kind::Choice)?;
    let first = view.first_child(i, |p| rewrite::is_bare(view.table, p))?;
    Some(merge_bares(view, i, first, found.largest, found.count, out))
}
