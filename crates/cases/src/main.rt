// Runs document 01's cases that are not starred, L, M and N, and prints what the library answers. data/ holds their tables; an absent one is empty.
#![tactic(auto)]

ghost use Rattle.std.specs.Prelude.{◌+◌, ◌≤◌, length};
ghost use Rattle.text.specs.Texts.{longest_line, most_digits};

use quoting::Quote;
use std::rt::Files;
use table::{HOW_MANY_VALUES, MOST_RECORDS, RECORD_LENGTH};
use text::{LONGEST_LINE, Text};

// One record more than a table may have.
const ROOM: usize = RECORD_LENGTH * (MOST_RECORDS + 1);

fn say(rt: &(impl Print + Eprint), name: &[u8], word: &[u8], number: u64)
    requires { length name.now + length word.now + most_digits + 1 ≤ longest_line }
{
    let mut line = Text::<LONGEST_LINE>::new();
    line.put_word(name);
    line.put_line(word, number);
    text::say(rt, line.as_bytes());
}

fn say_figure(rt: &(impl Print + Eprint), name: &[u8], quote: Quote)
    requires { length name.now ≤ 32 }
{
    let mut line = Text::<LONGEST_LINE>::new();
    line.put_word(name);
    line.put_two_numbers(b" figure ", quote.figure, b" branch ", quote.branch, b"\n");
    text::say(rt, line.as_bytes());
}

// The figure of a case's table, with every value 0.
fn quote(rt: &(impl Files + Print + Eprint), path: &[u8])
    requires { length path.now ≤ 32 }
{
    let mut table = [0u8; ROOM];
    let Some(len) = files::load(rt, path, &mut table) else {
        return;
    };
    match quoting::figure(&table[..len], &[0; HOW_MANY_VALUES]) {
        Ok(quote) => say_figure(rt, path, quote),
        Err(refusal) => say(rt, path, b" refused ", u64::from(refusal)),
    }
}

fn check(rt: &(impl Files + Print + Eprint), path: &[u8])
    requires { length path.now ≤ 32 }
{
    let mut table = [0u8; ROOM];
    let Some(len) = files::load(rt, path, &mut table) else {
        return;
    };
    match quoting::check(&table[..len]) {
        Ok(records) => say(rt, path, b" accepted ", records as u64),
        Err(refusal) => say(rt, path, b" refused ", u64::from(refusal)),
    }
}

fn main(rt: HostRuntime) {
    quote(&rt, b"L-ceiling");
    quote(&rt, b"L-exit");
    quote(&rt, b"L-block");
    check(&rt, b"M-seven-loops");
    check(&rt, b"M-eight-loops");
    check(&rt, b"M-nine-loops");
    check(&rt, b"N-empty");
    check(&rt, b"N-long");
}
