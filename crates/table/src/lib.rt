// The reader of tree tables: the node of a record, and questions 1 to 7 of document 01.
#![tactic(auto)]

ghost use Rattle.std.specs.Prelude.{◌≡◌, Bool, IfSome, List, ℕ, ◌+◌, ◌*◌, ◌^◌, ◌<◌, ◌≤◌, drop, length};
ghost use Rattle.refusals.specs.Refusals.{answer, refused};
ghost use Rattle.table.specs.Numbers.{record_length, most_records};
ghost use Rattle.table.specs.Table.{child_byte, field, first_node, flagless, kind_from, limit_from, loop_byte, most_from, num_from, record_count, without_four, each};
ghost use Rattle.table.specs.Passes.{TakesRecords, TestsRecords};
ghost use Rattle.table.specs.Questions.{time_in_range, count_in_range, kind_in_range, most_in_range};
ghost use Rattle.table.specs.Checking.{fill_listed, flags_listed, kind_listed, limit_count, limit_listed, question1, question2, question3, question4, record_in_range, record_listed, refusal};
ghost use Rattle.table.specs.Numbers.{most_loops, most_depth};
ghost use Rattle.table.specs.Trees.{around};
ghost use Rattle.table.specs.Questions.{name_ok, number_has, paired, paired_block, paired_share};
ghost use Rattle.table.specs.Survey.{most_share, node_share, name_share, listed_share, with_next, with_parent, Small, survey_node, survey_children, fitting_refusal, survey_refusal};

use refusals::Refusal;

// ---- Numbers, as in specs/Numbers.antt

pub const RECORD_LENGTH: usize = 24;

pub const FIELDS_LENGTH: usize = 16;

pub const FILL: u8 = 255;

pub const MOST_RECORDS: usize = 512;

pub const HOW_MANY_VALUES: usize = 40;

pub const HOW_MANY_SYMBOLS: u64 = 32;

pub const FIRST_TIME_SYMBOL: u64 = 16;

pub const FIRST_PAIRED_SYMBOL: u64 = 24;

pub const LATER_PLACE: usize = 8;

pub const MOST_TIME: u64 = 1_000_000_000_000;

pub const MOST_COUNT: u64 = 1_000_000;

pub const WHOLE_RUN: u8 = 255;

pub const MOST_LOOPS: u8 = 8;

pub const MOST_WEIGHT: u64 = 255;

pub const MOST_DEPTH: usize = 32;

// ---- The node: a record without its number of children

// A time or bound: a plain number, or a symbol by its number.
#[derive(Clone, Copy, PartialEq, Eq)]
pub enum Number {
    Plain(u64),
    Symbol(u64),
}

// A limit's number: plain, a symbol's value, or the triangular number of a symbol's value.
#[derive(Clone, Copy, PartialEq, Eq)]
pub enum Most {
    Plain(u64),
    Symbol(u64),
    Triangular(u64),
}

// No limit, or the loop that it names (byte 3) and its number. No Option of a pair, which would not say which part is the loop.
#[derive(Clone, Copy, PartialEq, Eq)]
pub enum Limit {
    Unlimited,
    AtMost(u8, Most),
}

// A block with its time, a sequence, a choice, a loop with its bound.
#[derive(Clone, Copy, PartialEq, Eq)]
pub enum Kind {
    Block(Number),
    Sequence,
    Choice,
    Loop(Number),
}

#[derive(Clone, Copy, PartialEq, Eq)]
pub struct Node {
    pub kind: Kind,
    pub limit: Limit,
    pub address: u32,
}

// Is a time or bound the symbol?
pub fn number_has(number: Number, symbol: u64) -> bool
    ensures { result ≡ number_has symbol number }
{
    number == Number::Symbol(symbol)
}

// Has this time two values, one for its block's first pass and one for the later ones?
pub fn is_paired(time: Number) -> bool
    ensures { result ≡ paired time }
{
    matches!(time, Number::Symbol(FIRST_PAIRED_SYMBOL..HOW_MANY_SYMBOLS))
}

// Is it a block with such a time?
pub fn is_paired_block(kind: Kind) -> bool
    ensures { result ≡ paired_block kind }
{
    matches!(kind, Kind::Block(time) if is_paired(time))
}

// ---- Fields

// The field of four bytes that starts at `at`.
pub fn read_u32(b: &[u8], at: usize) -> u64
    requires { at + 4 ≤ length b.now }
    ensures { (result ≡ field b.now at 4) × (result < 2 ^ 32) }
{
    u64::from(u32::from_le_bytes([b[at], b[at + 1], b[at + 2], b[at + 3]]))
}

// The field of eight bytes that starts at `at`. Its bytes one by one, which the compiler makes one load: by `first_chunk` checking a table takes a fifth
// more instructions.
pub fn read_u64(b: &[u8], at: usize) -> u64
    requires { at + 8 ≤ length b.now }
    ensures { result ≡ field b.now at 8 }
{
    u64::from_le_bytes([
        b[at],
        b[at + 1],
        b[at + 2],
        b[at + 3],
        b[at + 4],
        b[at + 5],
        b[at + 6],
        b[at + 7],
    ])
}

// ---- The node of a record

// The readers are lent a table from a record on, as `&table[at..]`: a struct that knew it to be long enough would have to be made for each call.

// A field with its flag, which is 0 for a plain number. Flags and kinds are numbers in the bytes that C lends, and no further than here.
fn number_from(flag: u8, x: u64) -> Number
    ensures { result ≡ num_from flag x }
{
    if flag == 0 {
        Number::Plain(x)
    } else {
        Number::Symbol(x)
    }
}

// A limit's field with its flags, halved: 0 for a plain number, 1 for a symbol, any other for a symbol's triangular number.
fn most_from(flags: u8, x: u64) -> Most
    ensures { result ≡ most_from flags x }
{
    match flags {
        0 => Most::Plain(x),
        1 => Most::Symbol(x),
        _ => Most::Triangular(x),
    }
}

// The kind by byte 0, with the value that a block or a loop has.
fn kind_from(byte: u8, value: Number) -> Kind
    ensures { result ≡ kind_from byte value }
{
    match byte {
        0 => Kind::Block(value),
        1 => Kind::Sequence,
        2 => Kind::Choice,
        _ => Kind::Loop(value),
    }
}

// The kind of the record at the front of `b`, the part of the table that starts there.
pub fn read_kind(b: &[u8]) -> Kind
    requires { record_length ≤ length b.now }
    ensures { result ≡ (first_node b.now).kind }
{
    kind_from(b[0], number_from(b[1] % 2, read_u64(b, 8)))
}

// Its limit, whose number is read only where there is one: most nodes have none.
pub fn read_limit(b: &[u8]) -> Limit
    requires { record_length ≤ length b.now }
    ensures { result ≡ (first_node b.now).limit }
{
    let name = b[3];
    if name == 0 {
        return Limit::Unlimited;
    }
    let most = most_from(b[1] / 2, read_u32(b, 4));
    Limit::AtMost(name, most)
}

// Its address.
pub fn read_address(b: &[u8]) -> u32
    requires { record_length ≤ length b.now }
    ensures { result ≡ (first_node b.now).address }
{
    read_u32(b, FIELDS_LENGTH) as u32
}

// All of them.
pub fn read_node(b: &[u8]) -> Node
    requires { record_length ≤ length b.now }
    ensures { result ≡ first_node b.now }
{
    Node {
        kind: read_kind(b),
        limit: read_limit(b),
        address: read_address(b),
    }
}

// How many children the record at the front of `b` announces.
pub fn child_count(b: &[u8]) -> usize
    requires { record_length ≤ length b.now }
    ensures { (result ≡ child_byte b.now) × (result < 256) }
{
    usize::from(b[2])
}

// Has the record at the front of `b` no flag 4, where question 2 says yes of it?
pub fn without_four(b: &[u8]) -> bool
    requires { record_length ≤ length b.now }
    ensures { result ≡ without_four b.now }
{
    b[1] < 4
}

// The node of record i.
pub fn node_at(table: &[u8], i: usize) -> Node
    requires { i < record_count table.now }
    ensures { result ≡ first_node (drop (record_length * i) table.now) }
{
    let at = RECORD_LENGTH * i;
    read_node(&table[at..])
}

// How many children it announces.
pub fn children_at(table: &[u8], i: usize) -> usize
    requires { i < record_count table.now }
    ensures { (result ≡ child_byte (drop (record_length * i) table.now)) × (result < 256) }
{
    let at = RECORD_LENGTH * i;
    child_count(&table[at..])
}

// The loop that its limit names, 0 for none.
pub fn name_at(table: &[u8], i: usize) -> u8
    requires { i < record_count table.now }
    ensures { result ≡ loop_byte (first_node (drop (record_length * i) table.now)).limit }
{
    table[RECORD_LENGTH * i + 3]
}

// Has it no flag?
pub fn flagless_at(table: &[u8], i: usize) -> bool
    requires { i < record_count table.now }
    ensures { result ≡ flagless (drop (record_length * i) table.now) }
{
    table[RECORD_LENGTH * i + 1] == 0
}

// ---- Question 1

// Is the length a multiple of the record's, from one record to the most?
pub fn length_allowed(table: &[u8]) -> bool
    ensures { result ≡ question1 table.now }
{
    let n = table.len();
    (n % RECORD_LENGTH == 0) & (RECORD_LENGTH <= n) & (n <= RECORD_LENGTH * MOST_RECORDS)
}

// ---- Question 2

// Of bytes, since question 2 is put where they may be no kind and no limit.
fn kind_listed(kind: u8, children: u8, flag: u8, value: u64) -> bool
    ensures { result ≡ kind_listed kind children flag value }
{
    match kind {
        0 => children == 0,
        1 | 2 => (1 <= children) & (flag == 0) & (value == 0),
        3 => children == 2,
        _ => false,
    }
}

fn limit_listed(named: u8, flags: u8, most: u64) -> bool
    ensures { result ≡ limit_listed named flags most }
{
    match named {
        0 => (flags == 0) & (most == 0),
        1..=MOST_LOOPS | WHOLE_RUN => true,
        _ => false,
    }
}

fn flags_listed(flags: u8) -> bool
    ensures { result ≡ flags_listed flags }
{
    matches!(flags, 0 | 1 | 3)
}

fn fill_listed(b20: u8, b21: u8, b22: u8, b23: u8) -> bool
    ensures { result ≡ fill_listed b20 b21 b22 b23 }
{
    (b20 == FILL) & (b21 == FILL) & (b22 == FILL) & (b23 == FILL)
}

// Are the fields of the record at the front of `b` as listed?
fn record_listed(b: &[u8]) -> bool
    requires { record_length ≤ length b.now }
    ensures { result ≡ record_listed b.now }
{
    let flags = b[1];
    let kind = kind_listed(b[0], b[2], flags % 2, read_u64(b, 8));
    let limit = limit_listed(b[3], flags / 2, read_u32(b, 4));
    let fill = fill_listed(b[20], b[21], b[22], b[23]);
    kind & limit & flags_listed(flags / 2) & fill
}

// Does every record pass the test? It is lent the part of the table that starts with its record.
pub fn every_record<F: Fn(&[u8]) -> bool>(table: &[u8], test: F) -> bool
    requires { TakesRecords F.Fn test }
    ensures { (p : List ℕ → Bool) → TestsRecords F.Fn test p → result ≡ each p (record_count table.now) table.now }
{
    for i in 0..table.len() / RECORD_LENGTH {
        let at = RECORD_LENGTH * i;
        if !test(&table[at..]) {
            return false;
        }
    }
    true
}

// Are the fields of every record as listed?
pub fn records_listed(table: &[u8]) -> bool
    ensures { result ≡ question2 table.now }
{
    every_record(table, record_listed)
}

// ---- Question 3

pub fn time_in_range(time: Number) -> bool
    ensures { result ≡ time_in_range time }
{
    match time {
        Number::Plain(n) => n <= MOST_TIME,
        Number::Symbol(s) => (FIRST_TIME_SYMBOL <= s) & (s < HOW_MANY_SYMBOLS),
    }
}

pub fn count_in_range(count: Number) -> bool
    ensures { result ≡ count_in_range count }
{
    match count {
        Number::Plain(n) => n <= MOST_COUNT,
        Number::Symbol(s) => s < FIRST_TIME_SYMBOL,
    }
}

pub fn most_in_range(most: Most) -> bool
    ensures { result ≡ most_in_range most }
{
    match most {
        Most::Plain(n) => n <= MOST_COUNT,
        Most::Symbol(s) => s < FIRST_TIME_SYMBOL,
        Most::Triangular(s) => s < FIRST_TIME_SYMBOL,
    }
}

fn kind_in_range(kind: Kind) -> bool
    ensures { result ≡ kind_in_range kind }
{
    match kind {
        Kind::Block(time) => time_in_range(time),
        Kind::Sequence | Kind::Choice => true,
        Kind::Loop(bound) => count_in_range(bound),
    }
}

// Of a limit by its byte 3 and its number, which is tested also where there is no limit: that is faster than to branch on it.
fn limit_in_range(named: u8, most: Most) -> bool
    ensures { result ≡ limit_count (limit_from named most) }
{
    let small = most_in_range(most);
    (named == 0) | small
}

// Are the numbers of the record at the front of `b` in range?
fn record_in_range(b: &[u8]) -> bool
    requires { record_length ≤ length b.now }
    ensures { result ≡ record_in_range b.now }
{
    let kind = read_kind(b);
    let most = most_from(b[1] / 2, read_u32(b, 4));
    kind_in_range(kind) & limit_in_range(b[3], most)
}

// Are the numbers of every record in range?
pub fn records_in_range(table: &[u8]) -> bool
    ensures { result ≡ question3 table.now }
{
    every_record(table, record_in_range)
}

// ---- Question 4

// Do the records form exactly one tree? Each takes the place of one wanted tree and wants its children.
pub fn one_tree(table: &[u8]) -> bool
    requires { length table.now ≤ record_length * most_records }
    ensures { result ≡ question4 table.now }
{
    let mut wanted: usize = 1;
    for i in 0..table.len() / RECORD_LENGTH {
        if wanted == 0 {
            return false;
        }
        wanted = wanted - 1 + children_at(table, i);
    }
    wanted == 0
}

// ---- Questions 5 to 7

// What a walk finds of a tree that is as question 5 asks, or of several in a row: how many records, whether question 6 says yes, and question 7's sum.
// A limit that question 6 refuses does not end the walk, since question 5 is answered of the whole tree first.
#[derive(Clone, Copy)]
pub struct Survey {
    pub records: usize,
    pub named: bool,
    pub weight: u64,
}

// The loops around a node's first child: a loop is around its body alone.
pub fn loops_inside(kind: Kind, outer: u8) -> u8
    requires { outer ≤ most_loops }
    ensures { result ≡ around kind outer }
{
    match kind {
        Kind::Block(_) | Kind::Sequence | Kind::Choice => outer,
        Kind::Loop(_) => outer + 1,
    }
}

// Question 6 of a limit, with `outer` loops around its node.
fn names_loop(limit: Limit, outer: u8) -> bool
    ensures { result ≡ name_ok limit outer }
{
    match limit {
        Limit::Unlimited => true,
        Limit::AtMost(name, _) => (name <= outer) | (name == WHOLE_RUN),
    }
}

fn power_of_two(n: u8) -> u64
    requires { n ≤ most_loops }
    ensures { (result ≡ 2 ^ n) × (result ≤ most_share) }
{
    1 << n
}

// What a limit that names this loop adds to question 7's sum.
fn name_share(name: u8, outer: u8) -> u64
    requires { outer ≤ most_loops }
    ensures { (result ≡ name_share name outer) × (result ≤ most_share) }
{
    match name {
        WHOLE_RUN => power_of_two(outer),
        1..=MOST_LOOPS => power_of_two(name - 1),
        _ => 0,
    }
}

fn limit_share(limit: Limit, outer: u8) -> u64
    requires { outer ≤ most_loops }
    ensures { (result ≡ listed_share limit outer) × (result ≤ most_share) }
{
    match limit {
        Limit::Unlimited => 0,
        Limit::AtMost(name, _) => name_share(name, outer),
    }
}

// What a block of a paired symbol adds, beside its limit.
fn paired_share(kind: Kind, outer: u8) -> u64
    requires { outer ≤ most_loops }
    ensures { (result ≡ paired_share kind outer) × (result ≤ most_share) }
{
    if is_paired_block(kind) {
        power_of_two(outer)
    } else {
        0
    }
}

impl Survey {
    // Of no tree at all.
    const EMPTY: Survey = Survey {
        records: 0,
        named: true,
        weight: 0,
    };

    // Trees, and the next one.
    fn with_next(self, next: Survey) -> Survey
        requires { (self.records + next.records ≤ most_records) × (self.weight + next.weight ≤ node_share * most_records) }
        ensures { result ≡ with_next self next }
    {
        Survey {
            records: self.records + next.records,
            named: self.named & next.named,
            weight: self.weight + next.weight,
        }
    }

    // Children, and the node that they belong to.
    fn with_parent(self, node: Node, outer: u8) -> Survey
        requires { (outer ≤ most_loops) × (self.records ≤ most_records) × (self.weight ≤ node_share * self.records) }
        ensures { (result ≡ with_parent node outer self) × (result.records ≤ self.records + 1) × (result.weight ≤ node_share * result.records) }
    {
        Survey {
            records: self.records + 1,
            named: names_loop(node.limit, outer) & self.named,
            weight: limit_share(node.limit, outer) + paired_share(node.kind, outer) + self.weight,
        }
    }

    // Questions 6 and 7: the first that says no.
    pub fn accept(self) -> Result<(), Refusal>
        ensures { refused (answer result) ≡ fitting_refusal self }
    {
        if !self.named {
            return Err(Refusal::Names);
        }
        if MOST_WEIGHT < self.weight {
            return Err(Refusal::Weight);
        }
        Ok(())
    }
}

// The node at the front of `table` with everything below it, at most `depth` nodes deep, with `outer` loops around it.
#[cycle(survey_children_survey_node)]
fn survey_node(table: &[u8], depth: usize, outer: u8) -> Option<Survey>
    requires { length table.now ≤ record_length * most_records }
    ensures value { result ≡ survey_node depth outer table.now }
    ensures small { IfSome result (Small table.now) }
{
    if depth == 0 {
        return None;
    }
    if table.len() < RECORD_LENGTH {
        return None;
    }
    if MOST_LOOPS < outer {
        return None;
    }
    let node = read_node(table);
    let count = child_count(table);
    let first = loops_inside(node.kind, outer);
    let below = survey_children(&table[RECORD_LENGTH..], depth - 1, first, outer, count)?;
    Some(below.with_parent(node, outer))
}

// The `count` children at the front of `table`, each at most `depth` nodes deep, with `first` loops around the first and `others` around the others.
// A child that does not fit ends the walk: it tells no place for the next, and so no record is read twice.
#[cycle(survey_children_survey_node)]
fn survey_children(
    table: &[u8],
    depth: usize,
    first: u8,
    others: u8,
    count: usize,
) -> Option<Survey>
    requires { length table.now ≤ record_length * most_records }
    ensures value { result ≡ survey_children depth first others count table.now }
    ensures small { IfSome result (Small table.now) }
{
    let mut found = Survey::EMPTY;
    let mut outer = first;
    for _i in 0..count {
        let at = RECORD_LENGTH * found.records;
        let child = survey_node(&table[at..], depth, outer)?;
        found = found.with_next(child);
        outer = others;
    }
    Some(found)
}

// The tree of a table. Where questions 1 to 4 say yes, this answers 5 to 7.
pub fn survey_table(table: &[u8]) -> Option<Survey>
    requires { length table.now ≤ record_length * most_records }
    ensures { result ≡ survey_node most_depth 0 table.now }
{
    survey_node(table, MOST_DEPTH, 0)
}

// Questions 5 to 7 of a table of which 1 to 4 say yes: the first that says no.
pub fn accept_tree(table: &[u8]) -> Result<(), Refusal>
    requires { length table.now ≤ record_length * most_records }
    ensures { refused (answer result) ≡ survey_refusal (survey_node most_depth 0 table.now) }
{
    let survey = survey_table(table).ok_or(Refusal::Depth)?;
    survey.accept()
}

// ---- Questions 1 to 7

// The first question that says no: each is put to the whole table before the next.
pub fn accept(table: &[u8]) -> Result<(), Refusal>
    ensures { refused (answer result) ≡ refusal table.now }
{
    if !length_allowed(table) {
        return Err(Refusal::Length);
    }
    if !records_listed(table) {
        return Err(Refusal::Fields);
    }
    if !records_in_range(table) {
        return Err(Refusal::Range);
    }
    if !one_tree(table) {
        return Err(Refusal::Tree);
    }
    accept_tree(table)
}
