// One step of document 01's simplification on a table's bytes: found, then made.
#![tactic(auto)]

ghost use Rattle.std.specs.Prelude.{◌≡◌, ◌+◌, ◌*◌, ◌≤◌, length, take};
ghost use Rattle.table.specs.Checking.{IsTable};
ghost use Rattle.table.specs.Numbers.{record_length};
ghost use Rattle.table.specs.Table.{decode};
ghost use Rattle.table.specs.Trees.{◌▸◌, nil};
ghost use Rattle.simplify.specs.Rules.{rule1};
ghost use Rattle.simplify.specs.Steps.{also};
ghost use Rattle.subtrees.specs.Facts.{Surveyed, extent_at};
ghost use Rattle.subtrees.specs.Parts.{Simplifiable};
ghost use Rattle.rewrite.specs.Wrote.{Wrote};
ghost use Rattle.searching.specs.Rewritten.{Rewritten};
ghost use Rattle.searching.specs.Found.{Found, Placed, Settled};
ghost use Rattle.onestep.specs.Step.{edited, stepped};

use lists::List;
use searching::Spot;
use subtrees::{Facts, View};
use table::{Kind, Limit, Node, Number, RECORD_LENGTH};

// 1. A symbol-free table becomes one unlimited block of its figure, unless it is that already.
fn rule1_at(view: View, out: &mut [u8]) -> Option<usize>
    requires surveyed { Surveyed view.table.now view.facts.now }
    requires simplifiable { Simplifiable view.table.now }
    requires room { length view.table.now ≤ length out.old }
    ensures { Wrote (also (λ u. u ▸ nil) (rule1 (decode view.entry.table.now))) result out.new }
{
    let table = view.table;
    if !view.facts[0].symbol_free {
        return None;
    }
    if rewrite::is_bare(table, 0) {
        return None;
    }
    let zeros = [0; 0];
    let mut list = List::zero();
    walking::evaluate(table, &zeros, &mut list);
    let time = Number::Plain(list.value_at(0));
    let block = Node {
        kind: Kind::Block(time),
        limit: Limit::Unlimited,
        address: 0,
    };
    Some(writing::put_node(out, 0, block, 0))
}

// A step: rule 1 for the whole table, or the earliest record where a rule fits and there the lowest. `at` is the record from which on the last step changed
// the table, 0 before the first.
pub fn step_onto(view: View, at: usize, out: &mut [u8]) -> Option<Spot>
    requires surveyed { Surveyed view.table.now view.facts.now }
    requires simplifiable { Simplifiable view.table.now }
    requires settled { Settled view.table.now view.facts.now at }
    requires room { length view.table.now ≤ length out.old }
    ensures rewritten { Rewritten (stepped (decode view.entry.table.now)) view.entry.table.now result out.new }
    ensures found { Found view.entry.table.now view.entry.facts.now result out.new }
{
    if let Some(len) = rule1_at(view, out) {
        return Some(Spot { at: 0, len: len });
    }
    searching::find(view, at, out)
}

// Makes the step at a spot of the table in the first `len` bytes of `work`, and finds the facts of what it becomes; answers its length.
pub fn make_step(
    work: &mut [u8],
    len: usize,
    spot: Spot,
    spare: &[u8],
    facts: &mut [Facts],
) -> usize
    requires surveyed_1 { Surveyed (take len work.old) facts.old }
    requires surveyed_2 { len ≤ length work.old }
    requires surveyed_3 { record_length * spot.len ≤ length spare.now }
    requires placed { Placed (take len work.old) spot.at (spot.at + extent_at facts.old spot.at) spot.len spare.now }
    requires table_1 { IsTable (edited (take len work.old) spot spare.now) }
    requires table_2 { record_length * (spot.at + spot.len) ≤ len }
    ensures value { (result ≡ record_length * (spot.at + spot.len)) × (take result work.new ≡ edited (take len work.old) spot spare.now) }
    ensures surveyed_2_1 { Surveyed (take result work.new) facts.new }
    ensures surveyed_2_2 { Settled (take result work.new) facts.new spot.at }
{
    let at = spot.at;
    let end = at + facts[at].records;
    let rest = len / RECORD_LENGTH - end;
    let n = RECORD_LENGTH * writing::copy_records(spare, 0, spot.len, work, at);
    subtrees::resurvey(&work[0..n], at, end, rest, facts);
    n
}
