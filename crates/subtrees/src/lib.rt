// Facts of a table's subtrees, each given by its record: one pass over the table finds those of all, and after a change another those that it outdated.
#![tactic(auto)]

ghost use Rattle.std.specs.Prelude.{◌≡◌, Bool, ℕ, ◌+◌, ◌<◌, ◌≤◌, max, length};
ghost use Rattle.table.specs.Numbers.{most_records};
ghost use Rattle.table.specs.Table.{record_count};
ghost use Rattle.table.specs.Checking.{IsTable};
ghost use Rattle.table.specs.Trees.{Tree};
ghost use Rattle.subtrees.specs.Parts.{trees_at};
ghost use Rattle.subtrees.specs.Facts.{Known, Moved, Outdated, OwnBefore, Sized, Surveyed, Unchanged, below_at, child_in, is_loop, limited_name, outer, paired_reach};
ghost use Rattle.subtrees.specs.Children.{Tells, child_at};

use table::{Kind, RECORD_LENGTH, WHOLE_RUN};

// What is kept of a subtree: how many records it has, whether no symbol stands in it, the loop that its list names, the outermost loop that a limit in it
// names, and the same without its top's own limit and time. Loops are numbered as in a table's byte 3, 0 for none, 1 and on outward, 255 for the whole run: so
// the outermost is the largest number, with no case of its own for none.
#[derive(Clone, Copy)]
pub struct Facts {
    pub records: usize,
    pub symbol_free: bool,
    pub named: u8,
    pub reach: u8,
    pub reach_below: u8,
}

impl Facts {
    // What stands in a buffer of facts before a survey.
    pub const NONE: Facts = Facts {
        records: 0,
        symbol_free: false,
        named: 0,
        reach: 0,
        reach_below: 0,
    };
}

// A table and the facts of its records, as the rules read them. That the facts say how many records each subtree has is known of every view; a function that
// reads more of them asks for it.
#[derive(Clone, Copy)]
pub struct View<'a> {
    pub table: &'a [u8],
    pub facts: &'a [Facts],
    pub ghost sized: { Sized table.now facts.now },
}

// What a node's children come to: their records, whether no symbol stands in them, the innermost loop that a child's list names, and the outermost that a
// limit in them names, both counted from the node.
#[derive(Clone, Copy)]
pub struct Below {
    pub records: usize,
    pub symbol_free: bool,
    pub named: u8,
    pub reach: u8,
}

impl Below {
    // Of no child at all.
    const NONE: Below = Below {
        records: 0,
        symbol_free: true,
        named: WHOLE_RUN,
        reach: 0,
    };
}

// ---- Children

#[tactic(auto, unfolding(crate::specs::Facts::is_loop))]
fn is_loop(kind: Kind) -> bool
    ensures { result ≡ is_loop kind }
{
    matches!(kind, Kind::Loop(_))
}

// The outermost loop that a limit names, counted from outside a loop.
#[tactic(auto, unfolding(crate::specs::Facts::outer))]
fn outer_of(reach: u8) -> u8
    ensures { result ≡ outer reach }
{
    if reach < WHOLE_RUN {
        reach.saturating_sub(1)
    } else {
        WHOLE_RUN
    }
}

// The children so far, and the next one by its facts: a loop sees its body from outside.
fn next_child(found: Below, body: bool, child: Facts) -> Below
    requires { found.records + child.records ≤ most_records }
    ensures { result ≡ child_in body found child }
{
    let named = if body {
        evaluate::outward_of(child.named)
    } else {
        child.named
    };
    let reach = if body {
        outer_of(child.reach)
    } else {
        child.reach
    };
    Below {
        records: found.records + child.records,
        symbol_free: found.symbol_free & child.symbol_free,
        named: found.named.min(named),
        reach: found.reach.max(reach),
    }
}

// The children of the node at record i, by their facts.
fn below_of(table: &[u8], i: usize, facts: &[Facts]) -> Below
    requires table_1 { IsTable table.now }
    requires table_2 { i < record_count table.now }
    requires table_3 { Known table.now facts.now (i + 1) }
    requires table_in_bounds { record_count table.now ≤ length facts.now }
    ensures { result ≡ below_at (trees_at table.now i) }
{
    let mut found = Below::NONE;
    let mut body = is_loop(table::node_at(table, i).kind);
    let mut p = i + 1;
    // no view: the facts of this record and of earlier ones are still to be found
    for _ in 0..table::children_at(table, i) {
        let child = facts[p];
        found = next_child(found, body, child);
        p += child.records;
        body = false;
    }
    found
}

impl<'a> View<'a> {
    // The record of the node's first child that is wanted, of the node at record i.
    pub fn first_child<F: Fn(usize) -> bool>(self, i: usize, wanted: F) -> Option<usize>
        requires inside { i < record_count self.table.now }
        requires callable { (p : ℕ) → p < record_count self.table.now → F.pre wanted p }
        ensures { (q : Tree → Bool) → Tells self.entry.table.now (F.post wanted) q → result ≡ child_at q i (trees_at self.entry.table.now i) }
    {
        let mut p = i + 1;
        for _ in 0..table::children_at(self.table, i) {
            if wanted(p) {
                return Some(p);
            }
            p += self.facts[p].records;
        }
        None
    }
}

// ---- Records

// The loop that a list names, by the one that the node's limit names, 0 for none, and by its children.
fn with_name(name: u8, named: u8) -> u8
    ensures { result ≡ limited_name name named }
{
    if name == 0 {
        return named;
    }
    name.min(named)
}

// The outermost loop that the node's own limit names, 0 for none: a block of a paired symbol stands as a limit on the whole run does.
fn own_reach(kind: Kind, name: u8) -> u8
    ensures { result ≡ max name (paired_reach kind) }
{
    if table::is_paired_block(kind) {
        WHOLE_RUN
    } else {
        name
    }
}

// Keeps the facts of record i, where those of all later records are kept.
fn mark_record(table: &[u8], i: usize, facts: &mut [Facts])
    requires table_1 { IsTable table.now }
    requires table_2 { i < record_count table.now }
    requires table_3 { Known table.now facts.old (i + 1) }
    requires table_in_bounds { record_count table.now ≤ length facts.old }
    ensures known { Known table.now facts.new i }
    ensures unchanged { Unchanged i facts.old facts.new }
{
    let below = below_of(table, i, facts);
    let name = table::name_at(table, i);
    let kind = table::node_at(table, i).kind;
    facts[i] = Facts {
        records: below.records + 1,
        symbol_free: table::flagless_at(table, i) & below.symbol_free,
        named: with_name(name, below.named),
        reach: own_reach(kind, name).max(below.reach),
        reach_below: below.reach,
    };
}

// Keeps those of the records from `at` up to `end`, from the last to the first: each record is read once for itself and once as a child.
fn mark_records(table: &[u8], at: usize, end: usize, facts: &mut [Facts])
    requires table_1 { IsTable table.now }
    requires table_2 { (at ≤ end) × (end ≤ record_count table.now) }
    requires table_3 { Known table.now facts.old end }
    requires table_in_bounds { record_count table.now ≤ length facts.old }
    ensures known { Known table.now facts.new at }
    ensures unchanged { Unchanged at facts.old facts.new }
{
    for i in (at..end).rev() {
        mark_record(table, i, facts);
    }
}

// The facts of every record.
pub fn survey(table: &[u8], facts: &mut [Facts])
    requires fact_1 { IsTable table.now }
    requires fact_2 { record_count table.now ≤ length facts.old }
    ensures { Surveyed table.now facts.new }
{
    mark_records(table, 0, table.len() / RECORD_LENGTH, facts);
}

// ---- Records of a table that changed

// Moves the facts of n records from place `from` on to place `to` and on, which is not behind it. No `copy_within`: it may be compiled to the C library's
// `memmove`.
fn move_facts(from: usize, to: usize, n: usize, facts: &mut [Facts])
    requires { (to ≤ from) × (from + n ≤ length facts.old) }
    ensures moved { Moved from to n facts.old facts.new }
    ensures unchanged { Unchanged to facts.old facts.new }
{
    for k in 0..n {
        facts[to + k] = facts[from + k];
    }
}

// Keeps the facts of the nodes around record `at`: where what stands as a record's extent reaches no further, its facts are still right.
fn mark_around(table: &[u8], at: usize, facts: &mut [Facts])
    requires table_1 { IsTable table.now }
    requires table_2 { at ≤ record_count table.now }
    requires table_3 { Known table.now facts.old at }
    requires table_4 { OwnBefore table.now facts.old at at }
    requires table_in_bounds { record_count table.now ≤ length facts.old }
    ensures { Surveyed table.now facts.new }
{
    for i in (0..at).rev() {
        if at - i < facts[i].records {
            mark_record(table, i, facts);
        }
    }
}

// The facts of every record of a table that changed from record `at` on, but for its last `rest` records, whose facts stand from place `end` on. Only the
// changed records are read again and the nodes around them.
pub fn resurvey(table: &[u8], at: usize, end: usize, rest: usize, facts: &mut [Facts])
    requires fact_1 { IsTable table.now }
    requires fact_2 { Outdated table.now facts.old at end rest }
    ensures { Surveyed table.now facts.new }
{
    let first = table.len() / RECORD_LENGTH - rest;
    move_facts(end, first, rest, facts);
    mark_records(table, at, first, facts);
    mark_around(table, at, facts);
}
