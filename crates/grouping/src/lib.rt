// Loop (document 01, "Evaluation"): a list cut into groups, each summed, run by run.
#![tactic(auto)]

ghost use Rattle.std.specs.Prelude.{◌≡◌, ◌<◌};
ghost use Rattle.lists.specs.Operations.{group_from, group_pairs, turn_of};
ghost use Rattle.lists.specs.Reading.{Groupable, Is, pairs_of};
ghost use Rattle.grouping.specs.Steps.{Turns};

use lists::{List, Turn};

// A run of c times v comes to a group of n that is begun with m members of the sum a.
fn group_turn(n: u64, m: u64, a: u64, v: u64, c: u64) -> Turn
    requires { Turns n m a v }
    ensures { result ≡ turn_of n m a v c }
{
    if m == 0 {
        let held = c % n;
        return Turn {
            mixed: 0,
            ends: 0,
            times: c / n,
            held: held,
            sum: held * v,
        };
    }
    let need = n - m;
    if c < need {
        return Turn {
            mixed: 0,
            ends: 0,
            times: 0,
            held: m + c,
            sum: a + c * v,
        };
    }
    let over = c - need;
    let held = over % n;
    Turn {
        mixed: a + need * v,
        ends: 1,
        times: over / n,
        held: held,
        sum: held * v,
    }
}

// Loop: groups of n, each summed; n is not 0. Both pairs of a turn are stored always: one that does not count is written over by the next.
fn group_from(list: &List, n: u64, out: &mut List)
    requires fact_1 { Groupable list.now n }
    requires fact_2 { 0 < n }
    ensures { Is out.new (group_from n 0 0 (pairs_of list.now)) }
{
    let last = list.len - 1;
    let mut o = 0;
    let mut held = 0;
    let mut sum = 0;
    for k in 0..last {
        let v = list.value_at(k);
        let t = group_turn(n, held, sum, v, list.count_at(k));
        out.put_pair(o, t.mixed, 1);
        o += t.ends;
        out.put_pair(o, n * v, t.times);
        o += lists::some_of(t.times);
        held = t.held;
        sum = t.sum;
    }
    let v = list.value_at(last);
    out.put_pair(o, sum + (n - held) * v, 1);
    o += lists::some_of(held);
    out.put_pair(o, n * v, 0);
    out.len = o + 1;
}

// Loop: groups of n, each summed; an empty group sums to 0.
pub fn group_onto(list: &List, n: u64, out: &mut List)
    requires { Groupable list.now n }
    ensures { Is out.new (group_pairs n (pairs_of list.now)) }
{
    if n == 0 {
        out.repeat(0);
        return;
    }
    group_from(list, n, out);
}
