// The endless list that never rises (document 01, "Evaluation"), as pairs of value and count in an array, and its operations.
#![tactic(auto)]

ghost use Rattle.std.specs.Prelude.{◌≡◌, ◌*◌, ◌+◌, ◌<◌, ◌^◌, ◌≤◌, suc, length};
ghost use Rattle.lists.specs.Pairs.{ever, in_front};
ghost use Rattle.lists.specs.Operations.{add_pairs, cap_pairs, first, joined, merge_pairs, shorter, some};
ghost use Rattle.lists.specs.Reading.{
  Addable,
  Cappable,
  Is,
  Mergeable,
  Proper,
  Summable,
  count_at,
  ended,
  head_of,
  lasts_of,
  list_in,
  most_pairs,
  pairs_of,
  passed,
  stored,
  value_at,
};

// Question 7 of document 01 keeps every list to so many pairs.
pub const MOST_PAIRS: usize = 256;

// Pair k is at 2 * k, a value, and 2 * k + 1, how often it comes. Values fall strictly, and the last count is 0, for ever.
// No struct for a pair: the list call hands these numbers out as they stand.
pub type Numbers = [u64; 2 * MOST_PAIRS];

// The first `len` pairs are the list. No invariant says that they are one: what an operation writes over may hold anything.
#[derive(Clone, Copy)]
pub struct List {
    pub pairs: Numbers,
    pub len: usize,
}

// A place in a list: a pair, and how much of its count is left.
#[derive(Clone, Copy)]
pub struct Place {
    pub at: usize,
    pub left: u64,
}

// The first pair of a union, and how many pairs of each list it uses up.
#[derive(Clone, Copy)]
pub struct Head {
    pub value: u64,
    pub count: u64,
    pub left: usize,
    pub right: usize,
}

// What a run comes to in groups, of which `turn_of` speaks: the sum of the group that was begun, whether that ends, how many whole groups, and the group begun then.
#[derive(Clone, Copy)]
pub struct Turn {
    pub mixed: u64,
    pub ends: usize,
    pub times: u64,
    pub held: u64,
    pub sum: u64,
}

// ---- Pairs

impl List {
    // The list of zeros.
    pub const ZERO: List = List {
        pairs: [0; 2 * MOST_PAIRS],
        len: 1,
    };

    // The zero list by a call: its contract spares a caller's proof the zeros.
    pub fn zero() -> List
        ensures { Is result (ever 0) }
    {
        List::ZERO
    }

    // The value of pair k. A call for this and its count, told apart by an argument, would want a number for which of the two.
    pub fn value_at(&self, k: usize) -> u64
        requires { k < most_pairs }
        ensures { result ≡ value_at self.now.pairs k }
    {
        self.pairs[2 * k]
    }

    // How often it comes.
    pub fn count_at(&self, k: usize) -> u64
        requires { k < most_pairs }
        ensures { result ≡ count_at self.now.pairs k }
    {
        self.pairs[2 * k + 1]
    }

    // Stores pair k.
    pub fn put_pair(&mut self, k: usize, v: u64, c: u64)
        requires { k < most_pairs }
        ensures { self.new ≡ list_in (stored self.old.pairs k v c) self.old.len }
    {
        self.pairs[2 * k] = v;
        self.pairs[2 * k + 1] = c;
    }

    // Becomes the list that repeats one value.
    pub fn repeat(&mut self, v: u64)
        ensures { Is self.new (ever v) }
    {
        self.put_pair(0, v, 0);
        self.len = 1;
    }

    // Becomes one value once, and another, which is not above it, for ever: a single pair where they are the same.
    pub fn once_then(&mut self, first: u64, later: u64)
        requires { later ≤ first }
        ensures { Is self.new (in_front first (ever later)) }
    {
        let k = some_of(first - later);
        self.put_pair(0, first, 1);
        self.put_pair(k, later, 0);
        self.len = k + 1;
    }

    // Becomes the same list as another: as much is copied as that has pairs. Pair by pair: `copy_from_slice` is compiled to a call of memmove here, which is
    // more than a caller from C is asked for.
    pub fn copy_from(&mut self, other: &List)
        requires { Proper other.now }
        ensures { Is self.new (pairs_of other.now) }
    {
        for k in 0..other.len {
            self.put_pair(k, other.value_at(k), other.count_at(k));
        }
        self.len = other.len;
    }
}

// One, or none of none: how many pairs, by which an index moves on, and no yes or no. So are the numbers of `Head` and `Turn` that are 0 or 1.
pub fn some_of(x: u64) -> usize
    ensures { result ≡ some x }
{
    usize::from(x != 0)
}

// ---- Sequence

// The shorter of two counts, 0 meaning for ever.
fn shorter_of(c: u64, d: u64) -> u64
    ensures { result ≡ shorter c d }
{
    if c == 0 {
        return d;
    }
    if d == 0 {
        return c;
    }
    c.min(d)
}

impl List {
    // The place after m members, which lie within a pair.
    fn pass(&self, at: usize, left: u64, m: u64) -> Place
        requires { 0 < left → suc at < most_pairs }
        ensures { result ≡ passed self.now.pairs at left m }
    {
        if left == 0 {
            return Place { at: at, left: 0 };
        }
        if left <= m {
            return Place {
                at: at + 1,
                left: self.count_at(at + 1),
            };
        }
        Place {
            at: at,
            left: left - m,
        }
    }

    // Sequence: place by place. A list ends at its count of 0; its length is for the contract, here and below.
    // A turn moves on in one list or in both, as far as the counts say, so no `for` over either list's pairs serves.
    pub fn add_onto(&self, other: &List, out: &mut List)
        requires { Addable self.now other.now }
        ensures { Is out.new (add_pairs (pairs_of self.now) (pairs_of other.now)) }
    {
        let mut n = 0;
        let mut i = 0;
        let mut j = 0;
        let mut x = self.count_at(0);
        let mut y = other.count_at(0);
        let mut m = shorter_of(x, y);
        while m != 0 {
            out.put_pair(n, self.value_at(i) + other.value_at(j), m);
            n += 1;
            let p = self.pass(i, x, m);
            let q = other.pass(j, y, m);
            i = p.at;
            x = p.left;
            j = q.at;
            y = q.left;
            m = shorter_of(x, y);
        }
        out.put_pair(n, self.value_at(i) + other.value_at(j), 0);
        out.len = n + 1;
    }
}

// ---- Choice

// How often a value comes that comes x times in one list and y times in the other: for ever where either is.
fn joined_of(x: u64, y: u64) -> u64
    requires { x + y < 2 ^ 64 }
    ensures { result ≡ joined x y }
{
    if x == 0 {
        return 0;
    }
    if y == 0 {
        return 0;
    }
    x + y
}

// The first pair of the union of two lists from these pairs on. Two tests: a match on how the values compare has these three arms too.
fn first_pair(a: &List, i: usize, b: &List, j: usize) -> Head
    requires fact_1 { i < most_pairs }
    requires fact_2 { j < most_pairs }
    requires fact_3 { count_at a.now.pairs i + count_at b.now.pairs j < 2 ^ 64 }
    ensures { result ≡ head_of (value_at a.now.pairs i) (count_at a.now.pairs i) (value_at b.now.pairs j) (count_at b.now.pairs j) }
{
    let v = a.value_at(i);
    let c = a.count_at(i);
    let w = b.value_at(j);
    let d = b.count_at(j);
    if w < v {
        return Head {
            value: v,
            count: c,
            left: 1,
            right: 0,
        };
    }
    if v < w {
        return Head {
            value: w,
            count: d,
            left: 0,
            right: 1,
        };
    }
    Head {
        value: v,
        count: joined_of(c, d),
        left: 1,
        right: 1,
    }
}

impl List {
    // Choice: the members of both lists, largest first.
    // A turn moves on in one list or in both, as their values say, so no `for` over either list's pairs serves, and no turn of `add_onto`, which ends within pairs.
    pub fn merge_onto(&self, other: &List, out: &mut List)
        requires { Mergeable self.now other.now }
        ensures { Is out.new (merge_pairs (pairs_of self.now) (pairs_of other.now)) }
    {
        let mut n = 0;
        let mut i = 0;
        let mut j = 0;
        let mut h = first_pair(self, 0, other, 0);
        while h.count != 0 {
            out.put_pair(n, h.value, h.count);
            n += 1;
            i += h.left;
            j += h.right;
            h = first_pair(self, i, other, j);
        }
        out.put_pair(n, h.value, 0);
        out.len = n + 1;
    }
}

// ---- Limit, and the first members

// Does a pair remain of a limit?
fn lasts(v: u64, left: u64) -> usize
    ensures { (result ≡ lasts_of v left) × (result ≤ 1) }
{
    if v == 0 {
        return 0;
    }
    some_of(left)
}

impl List {
    // The list ends in pair k, whose value comes `left` times, and is 0 after.
    fn end_at(&mut self, k: usize, left: u64)
        requires { suc k < most_pairs }
        ensures { self.new ≡ ended self.old k left }
    {
        let v = self.value_at(k);
        self.put_pair(k, v, left);
        let end = k + lasts(v, left);
        self.put_pair(end, 0, 0);
        self.len = end + 1;
    }

    // Limit: the first m members, and 0 after.
    pub fn cap(&mut self, m: u64)
        requires { Cappable self.old }
        ensures { Is self.new (cap_pairs m (pairs_of self.old)) }
    {
        let last = self.len - 1;
        let mut left = m;
        for k in 0..last {
            let c = self.count_at(k);
            if left <= c {
                self.end_at(k, left);
                return;
            }
            left -= c;
        }
        self.end_at(last, left);
    }

    // The sum of the first n members: the first group of n, and the whole of a loop that its body names.
    pub fn total_of(&self, n: u64) -> u64
        requires { Summable self.now n }
        ensures { result ≡ first (pairs_of self.now) n }
    {
        let last = self.len - 1;
        let mut left = n;
        let mut sum = 0;
        for k in 0..last {
            let c = self.count_at(k);
            if left <= c {
                return sum + left * self.value_at(k);
            }
            sum += c * self.value_at(k);
            left -= c;
        }
        sum + left * self.value_at(last)
    }
}
