// The sales desk's program: simplifies tree.tab to simple.tab, both in the folder that it runs in, and says so on one line. Its one argument is the allowance of steps; without it there is no end to them.
#![tactic(auto)]

ghost use Rattle.std.specs.Prelude.{◌+◌, ◌≤◌, length};
ghost use Rattle.io.specs.Counts.{IsPrefixLen};
ghost use Rattle.sales.specs.Lines.{Line};
ghost use Rattle.text.specs.Texts.{longest_line};

use refusals::Refusal;
use simplifying::{Ending, Simplified};
use std::env::{Env, FillError};
use std::random::RandomSource;
use std::rt::Files;
use table::{MOST_RECORDS, RECORD_LENGTH};
use text::{LONGEST_LINE, Text};

// One record more than a table may have, so that a longer file shows.
const ROOM: usize = RECORD_LENGTH * (MOST_RECORDS + 1);

// The file that is written.
const SIMPLE: [u8; 10] = *b"simple.tab";

// Linux passes no longer argument.
const LONGEST_ARGUMENT: usize = 131_072;

// The allowance that the arguments give: the largest where there is none. More than one, or one that does not fit the buffer, is no number.
fn allowance(rt: &impl Env) -> Option<u64> {
    let mut argument = [0u8; LONGEST_ARGUMENT];
    match rt.arg(2, &mut argument) {
        Err(FillError::NotPresent) => {}
        _ => return None,
    }
    match rt.arg(1, &mut argument) {
        Ok(len) => arguments::allowance_of(&argument[..len]),
        Err(FillError::NotPresent) => Some(u64::MAX),
        Err(FillError::TooLong) => None,
    }
}

// The line of a written table. The bytes before its ending are at most 58: two words of 11 and 7, and two numbers of 20 digits.
fn put_line<const N: usize>(len: u64, steps: u64, ending: &[u8]) -> Text<N>
    requires { 58 + length ending.now ≤ N }
    ensures within { length result ≤ N }
    ensures line { Line len steps ending.now result }
{
    let mut line = Text::new();
    line.put_two_numbers(b"simplified ", len, b" steps ", steps, ending);
    line
}

fn say(rt: &(impl Print + Eprint), len: u64, steps: u64, ending: &[u8])
    requires { 58 + length ending.now ≤ longest_line }
{
    let line: Text<LONGEST_LINE> = put_line(len, steps, ending);
    text::say(rt, line.as_bytes());
}

// Saves what was written into the buffer, and says so once it is saved.
fn deliver(rt: &(impl Files + RandomSource + Print + Eprint), simple: &[u8], simplified: Simplified)
    requires { IsPrefixLen simplified.length simple.now }
{
    let length = simplified.length;
    if files::save(rt, &SIMPLE, &simple[..length]) {
        match simplified.ending {
            Ending::Finished => say(rt, length as u64, simplified.steps, b" finished\n"),
            Ending::Spent => say(rt, length as u64, simplified.steps, b" spent\n"),
        }
    }
}

// Removes an older simple.tab, which is not this tree's, and says so once it is gone: a sister house would quote from it.
fn refuse(rt: &(impl Files + Print + Eprint), refusal: Refusal) {
    if files::remove(rt, &SIMPLE) {
        text::say_number(rt, b"refused ", u64::from(refusal));
    }
}

// Simplifies the tree into the lent buffer, and delivers what was written there.
fn simplify_into(
    rt: &(impl Files + RandomSource + Print + Eprint),
    tree: &[u8],
    allowance: u64,
    simple: &mut [u8],
) {
    match simplifying::simplify(tree, allowance, simple) {
        Ok(simplified) => deliver(rt, simple, simplified),
        Err(refusal) => refuse(rt, refusal),
    }
}

fn complain(rt: &impl Eprint) {
    let _ = rt.eprintln(
        "sales: the one argument, if any, is a number of steps, at most 18446744073709551615",
    );
}

fn run(rt: &(impl Files + RandomSource + Print + Eprint), allowance: u64) {
    let mut tree = [0u8; ROOM];
    let mut simple = [0u8; ROOM];
    if let Some(len) = files::load(rt, b"tree.tab", &mut tree) {
        simplify_into(rt, &tree[..len], allowance, &mut simple);
    }
}

fn main(rt: HostRuntime) {
    match allowance(&rt) {
        Some(steps) => run(&rt, steps),
        None => complain(&rt),
    }
}
