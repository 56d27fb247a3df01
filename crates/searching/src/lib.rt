// The search for a step of document 01's simplification: the earliest record where one of rules 2 to 9 fits, and there the lowest.
#![tactic(auto)]

ghost use Rattle.std.specs.Prelude.{◌<◌, ◌≤◌, length};
ghost use Rattle.table.specs.Table.{record_count};
ghost use Rattle.simplify.specs.Steps.{inside_in, rule};
ghost use Rattle.subtrees.specs.Facts.{Surveyed};
ghost use Rattle.subtrees.specs.Parts.{Simplifiable, trees_at};
ghost use Rattle.rewrite.specs.Wrote.{Wrote, rule_at};
ghost use Rattle.searching.specs.Found.{Found, Settled};
ghost use Rattle.searching.specs.Rewritten.{Rewritten, later_rule};

use subtrees::View;
use table::RECORD_LENGTH;

// What a step changes: the table from record `at` on, which becomes `len` records.
#[derive(Clone, Copy)]
pub struct Spot {
    pub at: usize,
    pub len: usize,
}

// The lowest of rules 2 to 9 that fits the subtree at record i. None fits a block. One `if let` after the other and no `or_else`: its closures would write
// `out`, and of what a closure writes a proof learns nothing.
fn rule_at(view: View, i: usize, out: &mut [u8]) -> Option<usize>
    requires inside { i < record_count view.table.now }
    requires room { length view.table.now ≤ length out.old }
    requires surveyed { Surveyed view.table.now view.facts.now }
    requires simplifiable { Simplifiable view.table.now }
    ensures { Wrote (rule_at rule (trees_at view.entry.table.now i)) result out.new }
{
    if rewrite::is_block(table::node_at(view.table, i).kind) {
        return None;
    }
    if let Some(len) = rules2to7::rule2_at(view, i, out) {
        return Some(len);
    }
    if let Some(len) = rules2to7::rule3_at(view, i, out) {
        return Some(len);
    }
    if let Some(len) = rules2to7::rule4_at(view, i, out) {
        return Some(len);
    }
    later_rule_at(view, i, out)
}

// The lowest of rules 5 to 9.
fn later_rule_at(view: View, i: usize, out: &mut [u8]) -> Option<usize>
    requires inside { i < record_count view.table.now }
    requires room { length view.table.now ≤ length out.old }
    requires surveyed { Surveyed view.table.now view.facts.now }
    ensures { Wrote (rule_at later_rule (trees_at view.entry.table.now i)) result out.new }
{
    if let Some(len) = rules2to7::rule5_at(view, i, out) {
        return Some(len);
    }
    if let Some(len) = rules2to7::rule6_at(view, i, out) {
        return Some(len);
    }
    if let Some(len) = rules2to7::rule7_at(view, i, out) {
        return Some(len);
    }
    if let Some(len) = rules8and9::rule8_at(view, i, out) {
        return Some(len);
    }
    rules8and9::rule9_at(view, i, out)
}

// The earliest record where one of rules 2 to 9 fits. `at` is the record from which on the last step changed the table: a subtree that ends there or before is
// passed over, so none is before the first step, where it is 0.
pub fn find(view: View, at: usize, out: &mut [u8]) -> Option<Spot>
    requires room { length view.table.now ≤ length out.old }
    requires surveyed { Surveyed view.table.now view.facts.now }
    requires simplifiable { Simplifiable view.table.now }
    requires settled { Settled view.table.now view.facts.now at }
    ensures rewritten { Rewritten (inside_in (trees_at view.entry.table.now 0)) view.entry.table.now result out.new }
    ensures found { Found view.entry.table.now view.entry.facts.now result out.new }
{
    let n = view.table.len() / RECORD_LENGTH;
    let mut i = 0;
    // no `for`: a subtree that is passed over is one step
    while i < n {
        let end = i + view.facts[i].records;
        if end <= at {
            i = end;
        } else {
            if let Some(len) = rule_at(view, i, out) {
                return Some(Spot { at: i, len: len });
            }
            i += 1;
        }
    }
    None
}
