// Sequence and choice in place (document 01, "Evaluation"): the other list is most often short, and then the list so far is changed where it stands.
#![tactic(auto)]

ghost use Rattle.std.specs.Prelude.{◌≡◌, ◌+◌, ◌-◌, ◌<◌, ◌^◌, ◌≤◌};
ghost use Rattle.lists.specs.Pairs.{ever, places, run, top};
ghost use Rattle.lists.specs.Operations.{add_pairs, merge_pairs};
ghost use Rattle.lists.specs.Reading.{Addable, Is, Mergeable, Proper, most_pairs, pairs_of, value_at};
ghost use Rattle.inplace.specs.Steps.{Inserted, Parted, Under, is_run};

use lists::List;

// Sequence with one value for ever.
fn raise_in(list: &mut List, v: u64)
    requires fact_1 { Proper list.old }
    requires fact_2 { top (pairs_of list.old) + v < 2 ^ 64 }
    ensures { Is list.new (add_pairs (pairs_of list.old) (ever v)) }
{
    let last = list.len - 1;
    for k in 0..last {
        let x = list.value_at(k);
        let c = list.count_at(k);
        list.put_pair(k, x + v, c);
    }
    let x = list.value_at(last);
    list.put_pair(last, x + v, 0);
}

// The first pair whose value is at most v, as the last one's is.
fn find_in(list: &List, v: u64) -> usize
    requires fact_1 { Proper list.now }
    requires fact_2 { value_at list.now.pairs (list.now.len - 1) ≤ v }
    ensures { Under list.now.pairs list.now.len v result }
{
    let last = list.len - 1;
    for k in 0..last {
        if list.value_at(k) <= v {
            return k;
        }
    }
    last
}

// Choice with one value for ever.
fn floor_in(list: &mut List, v: u64)
    requires { Proper list.old }
    ensures { Is list.new (merge_pairs (pairs_of list.old) (ever v)) }
{
    if v <= list.value_at(list.len - 1) {
        return;
    }
    let k = find_in(list, v);
    list.put_pair(k, v, 0);
    list.len = k + 1;
}

// One more pair in front of pair k.
fn insert_in(list: &mut List, k: usize, v: u64, c: u64)
    requires fact_1 { k < list.old.len }
    requires fact_2 { list.old.len < most_pairs }
    ensures fact_1 { Inserted list.old.pairs list.new.pairs list.old.len k v c }
    ensures fact_2 { list.new.len ≡ list.old.len + 1 }
{
    for j in (k..list.len).rev() {
        let x = list.value_at(j);
        let y = list.count_at(j);
        list.put_pair(j + 1, x, y);
    }
    list.put_pair(k, v, c);
    list.len += 1;
}

// Is a list one run, and 0 after?
fn is_run(list: &List) -> bool
    ensures { result ≡ is_run list.now.pairs list.now.len }
{
    (list.len == 2) & (list.value_at(1) == 0)
}

// The first `left` members of pair k, none or not all of them, raised by v.
fn raise_part(list: &mut List, k: usize, v: u64, left: u64)
    requires fact_1 { k < list.old.len }
    requires fact_2 { list.old.len < most_pairs }
    requires fact_3 { value_at list.old.pairs k + v < 2 ^ 64 }
    ensures { Parted list.old list.new k v left }
{
    if left == 0 {
        return;
    }
    let x = list.value_at(k);
    let c = list.count_at(k);
    list.put_pair(k, x, c.saturating_sub(left));
    insert_in(list, k, x + v, left);
}

// Sequence with m times v, and 0 after.
fn raise_front(list: &mut List, v: u64, m: u64)
    requires fact_1 { Proper list.old }
    requires fact_2 { list.old.len < most_pairs }
    requires fact_3 { top (pairs_of list.old) + v < 2 ^ 64 }
    requires fact_4 { 0 < m }
    requires fact_5 { 0 < v }
    ensures { Is list.new (add_pairs (pairs_of list.old) (run v m (ever 0))) }
{
    let last = list.len - 1;
    let mut left = m;
    for k in 0..last {
        let c = list.count_at(k);
        if left < c {
            raise_part(list, k, v, left);
            return;
        }
        let x = list.value_at(k);
        list.put_pair(k, x + v, c);
        left -= c;
    }
    raise_part(list, last, v, left);
}

// Choice with m times v, and 0 after.
fn insert_run(list: &mut List, v: u64, m: u64)
    requires fact_1 { Proper list.old }
    requires fact_2 { list.old.len < most_pairs }
    requires fact_3 { places (pairs_of list.old) + m < 2 ^ 64 }
    requires fact_4 { 0 < m }
    requires fact_5 { 0 < v }
    ensures { Is list.new (merge_pairs (pairs_of list.old) (run v m (ever 0))) }
{
    if v <= list.value_at(list.len - 1) {
        return;
    }
    let k = find_in(list, v);
    if list.value_at(k) == v {
        let c = list.count_at(k);
        list.put_pair(k, v, c + m);
        return;
    }
    insert_in(list, k, v, m);
}

// Sequence, in place; the spare list is for another that is not short.
pub fn add_in(list: &mut List, other: &List, spare: &mut List)
    requires { Addable list.old other.now }
    ensures { Is list.new (add_pairs (pairs_of list.old) (pairs_of other.now)) }
{
    let v = other.value_at(0);
    if other.len == 1 {
        raise_in(list, v);
        return;
    }
    if is_run(other) {
        raise_front(list, v, other.count_at(0));
        return;
    }
    list.add_onto(other, spare);
    list.copy_from(spare);
}

// Choice, in place; the spare list is for another that is not short.
pub fn merge_in(list: &mut List, other: &List, spare: &mut List)
    requires { Mergeable list.old other.now }
    ensures { Is list.new (merge_pairs (pairs_of list.old) (pairs_of other.now)) }
{
    let v = other.value_at(0);
    if other.len == 1 {
        floor_in(list, v);
        return;
    }
    if is_run(other) {
        insert_run(list, v, other.count_at(0));
        return;
    }
    list.merge_onto(other, spare);
    list.copy_from(spare);
}
