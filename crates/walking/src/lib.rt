// The evaluator's walk of a table's tree (document 01, "Evaluation").
#![tactic(auto)]

ghost use Rattle.std.specs.Prelude.{◌*◌, ◌≤◌, length};
ghost use Rattle.table.specs.Numbers.{most_depth, most_records, record_length};
ghost use Rattle.evaluate.specs.Evaluate.{values_of};
ghost use Rattle.evaluate.specs.Evaluator.{evaluate_node};
ghost use Rattle.evaluate.specs.Shown.{Shows, evaluate_children};

use evaluate::Valued;
use lists::List;
use table::{Kind, MOST_DEPTH, RECORD_LENGTH, WHOLE_RUN};

// The node at the front of `table` with everything below it, at most `depth` nodes deep.
#[cycle(evaluate_children_evaluate_node)]
fn evaluate_node(
    table: &[u8],
    values: &[u64],
    depth: usize,
    out: &mut List,
    spare: &mut List,
) -> Option<Valued>
    requires { length table.now ≤ record_length * most_records }
    ensures { Shows result out.new (evaluate_node (values_of values.now) depth table.now) }
{
    if depth == 0 {
        return None;
    }
    if table.len() < RECORD_LENGTH {
        return None;
    }
    let kind = table::read_kind(table);
    if let Kind::Block(time) = kind {
        let below = evaluate::block_in(time, values, out);
        return evaluate::limit_in(table::read_limit(table), values, below, out);
    }
    let count = table::child_count(table);
    let below = evaluate_children(
        &table[RECORD_LENGTH..],
        values,
        depth - 1,
        kind,
        count,
        out,
        spare,
    );
    evaluate::limit_in(table::read_limit(table), values, below, out)
}

// The `count` children at the front of `table` of a node of this kind, each at most `depth` nodes deep.
// Their list grows in `out`, and each child's own stands in a list of this call.
// A child that does not fit ends the walk: it tells no place for the next, and so no record is read twice.
#[cycle(evaluate_children_evaluate_node)]
pub fn evaluate_children(
    table: &[u8],
    values: &[u64],
    depth: usize,
    kind: Kind,
    count: usize,
    out: &mut List,
    spare: &mut List,
) -> Option<Valued>
    requires { length table.now ≤ record_length * most_records }
    ensures { Shows result out.new (evaluate_children (values_of values.now) depth kind count table.now) }
{
    let mut list = List::zero();
    out.repeat(0);
    let mut done = Valued {
        named: WHOLE_RUN,
        records: 0,
        branch: 0,
    };
    let mut seen_as = kind;
    for number in 0..count {
        let at = RECORD_LENGTH * done.records;
        let child = evaluate_node(&table[at..], values, depth, &mut list, spare);
        done = evaluate::take_child(seen_as, values, number, done, out, child, &mut list, spare)?;
        seen_as = evaluate::rest_of(seen_as);
    }
    Some(done)
}

// The tree of a table, as deep as question 5 allows.
pub fn evaluate(table: &[u8], values: &[u64], out: &mut List) -> Option<Valued>
    requires { length table.now ≤ record_length * most_records }
    ensures { Shows result out.new (evaluate_node (values_of values.now) most_depth table.now) }
{
    let mut spare = List::zero();
    evaluate_node(table, values, MOST_DEPTH, out, &mut spare)
}
