// The evaluator's steps (document 01, "Evaluation"), each on the list that is lent.
#![tactic(auto)]

ghost use Rattle.std.specs.Prelude.{◌≡◌, IfSome, min, get_or};
ghost use Rattle.table.specs.Numbers.{whole_run};
ghost use Rattle.table.specs.Trees.{rest};
ghost use Rattle.lists.specs.Pairs.{ever};
ghost use Rattle.lists.specs.Reading.{Addable, Is, Mergeable, Proper, pairs_of};
ghost use Rattle.evaluate.specs.Evaluate.{amount, later, no_branch, outward, values_of};
ghost use Rattle.evaluate.specs.Evaluator.{and_then, checked, gone_round, join_pairs, joined, limited, looked, looped, next_holder, time_pairs, triangle_in};
ghost use Rattle.evaluate.specs.Shown.{Limitable, Ready, Shows, answered_in, found_in, with_next};

use lists::{List, MOST_PAIRS};
use table::{
    FIRST_PAIRED_SYMBOL, HOW_MANY_SYMBOLS, HOW_MANY_VALUES, Kind, LATER_PLACE, Limit, MOST_COUNT,
    MOST_TIME, Most, Number, WHOLE_RUN,
};

// The branch of a node that is no choice: a choice has at most 255 children, so that no child has this number.
pub const NO_BRANCH: usize = 255;

// What evaluating finds of a tree, or of a node's children so far, beside its list, which stands in what was lent: the loop that the list names, how many
// records (of at most 512), and which child of a choice holds the largest first member. Where question 10 says no, a step answers None, and nothing is found.
#[derive(Clone, Copy)]
pub struct Valued {
    pub records: usize,
    pub branch: usize,
    pub named: u8,
}

// ---- Numbers

// The number at a place of what is lent: the values of all symbols and, where a limit is under flag 4, their triangular numbers behind them. Past these it
// is 0, and so are all where simplifying lends none.
pub fn value_of(symbol: u64, values: &[u64]) -> u64
    ensures { result ≡ get_or values.now symbol 0 }
{
    values.get(symbol as usize).copied().unwrap_or(0)
}

// What a time or bound comes to. `later_of` and `looked_up` have the like, each with a look-up of its own: one function would be lent that and be longer.
pub fn amount_of(number: Number, values: &[u64]) -> u64
    ensures { result ≡ amount (values_of values.now) number }
{
    match number {
        Number::Plain(n) => n,
        Number::Symbol(s) => value_of(s, values),
    }
}

// A symbol's value at the later passes of its block: of a paired symbol the lower of its two, which is the later one where question 14 says yes.
fn later_value(symbol: u64, values: &[u64]) -> u64
    ensures { result ≡ later (values_of values.now) (Number.Symbol symbol) }
{
    let first = value_of(symbol, values);
    if symbol < FIRST_PAIRED_SYMBOL {
        return first;
    }
    if HOW_MANY_SYMBOLS <= symbol {
        return first;
    }
    first.min(value_of(symbol + LATER_PLACE as u64, values))
}

// What a time comes to at the later passes of its block.
fn later_of(time: Number, values: &[u64]) -> u64
    ensures { result ≡ later (values_of values.now) time }
{
    match time {
        Number::Plain(n) => n,
        Number::Symbol(s) => later_value(s, values),
    }
}

// The triangular number of a symbol, which stands behind the values.
fn triangle_of(symbol: u64, values: &[u64]) -> u64
    ensures { result ≡ triangle_in (values_of values.now) symbol }
{
    if symbol < HOW_MANY_SYMBOLS {
        value_of(HOW_MANY_VALUES as u64 + symbol, values)
    } else {
        0
    }
}

// What a limit comes to.
fn looked_up(most: Most, values: &[u64]) -> u64
    ensures { result ≡ looked (values_of values.now) most }
{
    match most {
        Most::Plain(n) => n,
        Most::Symbol(s) => value_of(s, values),
        Most::Triangular(s) => triangle_of(s, values),
    }
}

// A loop named inside a loop's body, counted from outside.
pub fn outward_of(named: u8) -> u8
    ensures { result ≡ outward named }
{
    if named <= 1 {
        return WHOLE_RUN;
    }
    if WHOLE_RUN <= named {
        return WHOLE_RUN;
    }
    named - 1
}

// The kind as which the children after the first are taken: a loop's exit is added as in a sequence.
pub fn rest_of(kind: Kind) -> Kind
    ensures { result ≡ rest kind }
{
    match kind {
        Kind::Choice => Kind::Choice,
        _ => Kind::Sequence,
    }
}

// ---- Steps, each on the list that was lent

// Question 10: is the list's first value within the ceiling?
fn check_top(list: &List, found: Valued) -> Option<Valued>
    requires { Proper list.now }
    ensures { Shows result list.now (checked (pairs_of list.now) found.named found.records found.branch) }
{
    if list.value_at(0) <= MOST_TIME {
        Some(found)
    } else {
        None
    }
}

// The list that repeats one value.
pub fn repeat_in(value: u64, found: Valued, out: &mut List) -> Option<Valued>
    ensures { Shows result out.new (checked (ever value) found.named found.records found.branch) }
{
    out.repeat(value);
    check_top(out, found)
}

// A block's list: its value for ever or, of a paired symbol, its first value, then its later one for ever.
pub fn block_in(time: Number, values: &[u64], out: &mut List) -> Option<Valued>
    ensures { Shows result out.new (checked (time_pairs (values_of values.now) time) whole_run 0 no_branch) }
{
    let found = Valued {
        named: WHOLE_RUN,
        records: 0,
        branch: NO_BRANCH,
    };
    let first = amount_of(time, values);
    if !table::is_paired(time) {
        return repeat_in(first, found, out);
    }
    out.once_then(first, later_of(time, values));
    check_top(out, found)
}

// A loop over its body: the first sum for ever where the body names this very loop, else groups, which may double the pairs.
fn loop_in(bound: u64, body: Valued, list: &mut List, spare: &mut List) -> Option<Valued>
    requires { Ready body list.old }
    ensures { Shows result list.new (looped bound (found_in body list.old)) }
{
    if MOST_COUNT < bound {
        return None;
    }
    let found = Valued {
        named: outward_of(body.named),
        ..body
    };
    if body.named <= 1 {
        let total = list.total_of(bound);
        return repeat_in(total, found, list);
    }
    if MOST_PAIRS < 2 * list.len - 1 {
        return None;
    }
    grouping::group_onto(list, bound, spare);
    list.copy_from(spare);
    check_top(list, found)
}

// The first child, as its parent takes it: a loop goes round its body.
fn go_round(
    kind: Kind,
    values: &[u64],
    child: Valued,
    list: &mut List,
    spare: &mut List,
) -> Option<Valued>
    requires { Ready child list.old }
    ensures { Shows result list.new (gone_round (values_of values.now) kind (found_in child list.old)) }
{
    let Kind::Loop(bound) = kind else {
        return Some(child);
    };
    loop_in(amount_of(bound, values), child, list, spare)
}

// A choice takes the lists' members together; the others are added.
fn join_lists(kind: Kind, list: &mut List, other: &List, spare: &mut List)
    requires fact_1 { Addable list.old other.now }
    requires fact_2 { Mergeable list.old other.now }
    ensures { Is list.new (join_pairs kind (pairs_of list.old) (pairs_of other.now)) }
{
    match kind {
        Kind::Choice => inplace::merge_in(list, other, spare),
        _ => inplace::add_in(list, other, spare),
    }
}

// Which of a choice's children holds the largest first member: the next one, where its first member is larger than `largest`, which child `holder` has.
// A node of another kind has no branch, whatever its children have.
fn next_holder(kind: Kind, holder: usize, largest: u64, number: usize, first: u64) -> usize
    ensures { result ≡ next_holder kind holder largest number first }
{
    match kind {
        Kind::Choice => { if first <= largest { holder } else { number } }
        _ => NO_BRANCH,
    }
}

// The children so far, whose list is replaced, and the next one, child `number`, where there is room for the pairs of both.
fn join_in(
    kind: Kind,
    number: usize,
    done: Valued,
    out: &mut List,
    child: Valued,
    list: &List,
    spare: &mut List,
) -> Option<Valued>
    requires fact_1 { Ready done out.old }
    requires fact_2 { Ready child list.now }
    ensures { Shows result out.new (joined kind number (found_in done out.old) (found_in child list.now)) }
{
    if MOST_PAIRS < out.len + list.len - 1 {
        return None;
    }
    let branch = next_holder(kind, done.branch, out.value_at(0), number, list.value_at(0));
    let found = Valued {
        named: done.named.min(child.named),
        records: done.records + child.records,
        branch: branch,
    };
    join_lists(kind, out, list, spare);
    check_top(out, found)
}

// The children so far and the next one, child `number`, if that fits.
pub fn take_child(
    kind: Kind,
    values: &[u64],
    number: usize,
    done: Valued,
    out: &mut List,
    child: Option<Valued>,
    list: &mut List,
    spare: &mut List,
) -> Option<Valued>
    requires fact_1 { Ready done out.old }
    requires fact_2 { IfSome child (λ child. Ready child list.old) }
    ensures { Shows result out.new (with_next (values_of values.now) kind number (found_in done out.old) (answered_in child list.old)) }
{
    let turned = go_round(kind, values, child?, list, spare)?;
    join_in(kind, number, done, out, turned, list, spare)
}

// A node's record, and its own limit, which may add a pair to the list below, if what is below fits. Inlined, or what is found would go through memory once more
// for each node.
#[inline(always)]
pub fn limit_in(
    limit: Limit,
    values: &[u64],
    below: Option<Valued>,
    list: &mut List,
) -> Option<Valued>
    requires { IfSome below (λ below. Limitable below list.old) }
    ensures { Shows result list.new (and_then (answered_in below list.old) (limited (values_of values.now) limit)) }
{
    let below = below?;
    let found = Valued {
        records: below.records + 1,
        ..below
    };
    let Limit::AtMost(name, number) = limit else {
        return Some(found);
    };
    let most = looked_up(number, values);
    if MOST_COUNT < most {
        return None;
    }
    if MOST_PAIRS < list.len + 1 {
        return None;
    }
    list.cap(most);
    Some(Valued {
        named: name.min(below.named),
        ..found
    })
}
