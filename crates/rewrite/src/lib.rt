// What the rules of document 01's simplification share: tests of a node. What a rule writes of a table is defined in specs/Wrote.antt.
#![tactic(auto)]

ghost use Rattle.std.specs.Prelude.{◌≡◌, ◌<◌, ◌≤◌, IfSome};
ghost use Rattle.table.specs.Numbers.{most_time};
ghost use Rattle.table.specs.Table.{record_count};
ghost use Rattle.table.specs.Checking.{IsTable};
ghost use Rattle.evaluate.specs.Closed.{is_unlimited};
ghost use Rattle.simplify.specs.Rules.{bare, is_block, is_sum};
ghost use Rattle.subtrees.specs.Parts.{subtree};
ghost use Rattle.rewrite.specs.Bare.{bare_time, plain_time};

use table::{Kind, Limit, Number};

#[tactic(auto, unfolding(simplify::specs::Rules::is_block))]
pub fn is_block(kind: Kind) -> bool
    ensures { result ≡ is_block kind }
{
    matches!(kind, Kind::Block(_))
}

#[tactic(auto, unfolding(simplify::specs::Rules::is_sum))]
pub fn is_sum(kind: Kind) -> bool
    ensures { result ≡ is_sum kind }
{
    matches!(kind, Kind::Sequence | Kind::Choice)
}

#[tactic(auto, unfolding(evaluate::specs::Closed::is_unlimited))]
pub fn is_unlimited(limit: Limit) -> bool
    ensures { result ≡ is_unlimited limit }
{
    matches!(limit, Limit::Unlimited)
}

#[tactic(auto, unfolding(crate::specs::Bare::plain_time))]
fn plain_time(kind: Kind) -> Option<u64>
    ensures { result ≡ plain_time kind }
{
    let Kind::Block(time) = kind else {
        return None;
    };
    match time {
        Number::Plain(n) => Some(n),
        Number::Symbol(_) => None,
    }
}

// The time of the tree at record p, where that is an unlimited plain block.
pub fn bare_time(table: &[u8], p: usize) -> Option<u64>
    requires fact_1 { IsTable table.now }
    requires fact_2 { p < record_count table.now }
    ensures value { result ≡ bare_time (subtree table.now p) }
    ensures low { IfSome result (λ x. x ≤ most_time) }
{
    let node = table::node_at(table, p);
    if !is_unlimited(node.limit) {
        return None;
    }
    plain_time(node.kind)
}

// Is it one?
pub fn is_bare(table: &[u8], p: usize) -> bool
    requires fact_1 { IsTable table.now }
    requires fact_2 { p < record_count table.now }
    ensures { result ≡ bare (subtree table.now p) }
{
    bare_time(table, p).is_some()
}
