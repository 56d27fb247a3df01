// Text put together in a buffer, so that a program writes its line by one call, and the lines of programs that write at once stay whole.
#![tactic(auto)]

ghost use Rattle.std.specs.Prelude.{◌≡◌, ℕ, List, [], ◌++◌, ◌+◌, ◌≤◌, length, take};
ghost use Rattle.io.specs.Counts.{IsPrefixLen};
ghost use Rattle.text.specs.Texts.{Line, Numbered, TwoNumbers, longest_line, most_digits};

use std::io::Error;
use std::marker::Model;

// The most digits that a number has.
pub const MOST_DIGITS: usize = 20;

// ---- Text in a lent buffer

// Puts a word after the buffer's first bytes, which are text already; answers the text's length. Each of these functions puts its text so.
pub fn put_word(out: &mut [u8], at: usize, word: &[u8]) -> usize
    requires { at + length word.now ≤ length out.old }
    ensures prefix_len { IsPrefixLen result out.new }
    ensures value { result ≡ at + length word.now }
    ensures out_after { take result out.new ≡ take at out.old ++ word.now }
{
    let n = word.len();
    writing::write_front(word, n, &mut out[at..]);
    at + n
}

// Puts a number's decimal digits there.
pub fn put_number(out: &mut [u8], at: usize, number: u64) -> usize
    requires { at + most_digits ≤ length out.old }
    ensures prefix_len { IsPrefixLen result out.new }
    ensures upper_bound { result ≤ at + most_digits }
    ensures numbered { Numbered (take at out.old) number (take result out.new) }
{
    let mut digits = [0u8; MOST_DIGITS];
    let k = io::decimal(number, &mut digits);
    put_word(out, at, &digits[..k])
}

// Puts a word and a number there.
fn put_numbered(out: &mut [u8], at: usize, word: &[u8], number: u64) -> usize
    requires { at + length word.now + most_digits ≤ length out.old }
    ensures prefix_len { IsPrefixLen result out.new }
    ensures upper_bound { result ≤ at + length word.now + most_digits }
    ensures numbered { Numbered (take at out.old ++ word.now) number (take result out.new) }
{
    let named = put_word(out, at, word);
    put_number(out, named, number)
}

// Puts a line there: a word, a number and the line's end.
pub fn put_line(out: &mut [u8], at: usize, word: &[u8], number: u64) -> usize
    requires { at + length word.now + most_digits + 1 ≤ length out.old }
    ensures prefix_len { IsPrefixLen result out.new }
    ensures line { Line (take at out.old ++ word.now) number (take result out.new) }
{
    let numbered = put_numbered(out, at, word, number);
    put_word(out, numbered, b"\n")
}

// Puts two numbers there, each after its word, and then an ending.
pub fn put_two_numbers(
    out: &mut [u8],
    at: usize,
    word: &[u8],
    first: u64,
    between: &[u8],
    second: u64,
    ending: &[u8],
) -> usize
    requires { at + length word.now + most_digits + length between.now + most_digits + length ending.now ≤ length out.old }
    ensures prefix_len { IsPrefixLen result out.new }
    ensures two_numbers { TwoNumbers (take at out.old ++ word.now) first between.now second ending.now (take result out.new) }
{
    let front = put_numbered(out, at, word, first);
    let numbers = put_numbered(out, front, between, second);
    put_word(out, numbers, ending)
}

// ---- Text in a buffer of its own

// A text that is put together in a fixed buffer of N bytes.
#[derive(Drop)]
pub struct Text<const N: usize> {
    bytes: [u8; N],
    len: usize,
}

// Clauses see the bytes that are put.
impl<const N: usize> Model for Text<N> {
    ghost Value = { List ℕ };

    ghost view = { λ text. take text.len text.bytes };

    ghost invariant = { λ text. text.len ≤ N };
}

impl<const N: usize> Text<N> {
    pub fn new() -> Self
        ensures { result ≡ [] }
    {
        Text {
            bytes: [0; N],
            len: 0,
        }
    }

    pub fn as_bytes(&self) -> &[u8]
        ensures value { result.now ≡ self.now }
        ensures within { length result.now ≤ N }
    {
        &self.bytes[..self.len]
    }

    // Puts a word. Each method puts its text behind what was put before.
    pub fn put_word(&mut self, word: &[u8])
        requires { length self.old + length word.now ≤ N }
        ensures { self.new ≡ self.old ++ word.now }
    {
        self.len = put_word(&mut self.bytes, self.len, word);
    }

    // Puts a number's decimal digits.
    pub fn put_number(&mut self, number: u64)
        requires { length self.old + most_digits ≤ N }
        ensures upper_bound { length self.new ≤ length self.old + most_digits }
        ensures numbered { Numbered self.old number self.new }
    {
        self.len = put_number(&mut self.bytes, self.len, number);
    }

    // Puts a line: a word, a number and the line's end.
    pub fn put_line(&mut self, word: &[u8], number: u64)
        requires { length self.old + length word.now + most_digits + 1 ≤ N }
        ensures within { length self.new ≤ N }
        ensures line { Line (self.old ++ word.now) number self.new }
    {
        self.len = put_line(&mut self.bytes, self.len, word, number);
    }

    // Puts two numbers, each after its word, and then an ending.
    pub fn put_two_numbers(
        &mut self,
        word: &[u8],
        first: u64,
        between: &[u8],
        second: u64,
        ending: &[u8],
    )
        requires { length self.old + length word.now + most_digits + length between.now + most_digits + length ending.now ≤ N }
        ensures within { length self.new ≤ N }
        ensures two_numbers { TwoNumbers (self.old ++ word.now) first between.now second ending.now self.new }
    {
        self.len = put_two_numbers(
            &mut self.bytes,
            self.len,
            word,
            first,
            between,
            second,
            ending,
        );
    }
}

// ---- Lines that are said

// Writes a line to standard output, or says on standard error why it cannot. The whole line goes to the system in one call: in pieces, another program's could come between.
pub fn say(rt: &(impl Print + Eprint), line: &[u8]) {
    if let Err(error) = rt.write_all(line) {
        fail(rt, b"standard output", error);
    }
}

// Says on standard error what failed and why, on one line. Where that cannot be written either, there is nobody left to tell.
pub fn fail(rt: &impl Eprint, what: &[u8], error: Error) {
    let _ = eprintln!(rt; "{}: {error}", what.escape_ascii());
}

// Room for any line that the programs say.
pub const LONGEST_LINE: usize = 96;

// Says a line of a word and a number.
pub fn say_number(rt: &(impl Print + Eprint), word: &[u8], number: u64)
    requires { length word.now + most_digits + 1 ≤ longest_line }
{
    let mut line = Text::<LONGEST_LINE>::new();
    line.put_line(word, number);
    say(rt, line.as_bytes());
}

// Says a line of two words, each before its number.
pub fn say_two_numbers(
    rt: &(impl Print + Eprint),
    word: &[u8],
    first: u64,
    between: &[u8],
    second: u64,
)
    requires { length word.now + most_digits + length between.now + most_digits + 1 ≤ longest_line }
{
    let mut line = Text::<LONGEST_LINE>::new();
    line.put_two_numbers(word, first, between, second, b"\n");
    say(rt, line.as_bytes());
}
