// What the desk program decides from the bytes of its two files.
#![tactic(auto)]

ghost use Rattle.std.specs.Prelude.{◌≡◌, ◌<◌, ◌%◌, ◌*◌, drop, length};
ghost use Rattle.refusals.specs.Refusals.{answer};
ghost use Rattle.table.specs.Numbers.{how_many_values};
ghost use Rattle.deskfiles.specs.Files.{FilesPromise, file_value, file_values, files_answer, symbol_value, value_length, value_or, values_whole};

use quoting::Quote;
use refusals::Refusal;
use std::array;
use table::{HOW_MANY_SYMBOLS, HOW_MANY_VALUES, LATER_PLACE};

// Bytes that a value takes in a file.
pub const VALUE_LENGTH: usize = 8;

// The bytes of a file of whole values.
#[derive(Clone, Copy)]
struct ValuesFile<'a> {
    bytes: &'a [u8],
    ghost whole: { length bytes.now % value_length ≡ 0 },
}

impl<'a> ValuesFile<'a> {
    // Value i, or what an absent one counts.
    fn value_or(self, absent: u64, i: usize) -> u64
        requires { i < how_many_values }
        ensures { result ≡ value_or absent (drop (value_length * i) self.entry.bytes.now) }
    {
        let at = VALUE_LENGTH * i;
        if at < self.bytes.len() {
            table::read_u64(self.bytes, at)
        } else {
            absent
        }
    }

    // A symbol's value, its first where it has two. An absent one counts its ceiling, so that a blank never flatters a quote.
    fn symbol_value(self, i: usize) -> u64
        requires { i < how_many_values }
        ensures { result ≡ symbol_value self.entry.bytes.now i }
    {
        self.value_or(values::ceiling_of(i), i)
    }

    // Any value: an absent later one equals its first.
    fn value(self, i: usize) -> u64
        requires { i < how_many_values }
        ensures { result ≡ file_value self.entry.bytes.now i }
    {
        if (i as u64) < HOW_MANY_SYMBOLS {
            return self.symbol_value(i);
        }
        let first = self.symbol_value(i - LATER_PLACE);
        self.value_or(first, i)
    }

    // All the values: those of the file, then what the absent ones count.
    fn values(self) -> [u64; HOW_MANY_VALUES]
        ensures { result ≡ file_values self.entry.bytes.now }
    {
        array::from_fn(|i| self.value(i))
    }
}

// Does a file hold whole values, and no more than there are?
fn values_whole(bytes: &[u8]) -> bool
    ensures { result ≡ values_whole bytes.now }
{
    let n = bytes.len();
    (n % VALUE_LENGTH == 0) & (n <= VALUE_LENGTH * HOW_MANY_VALUES)
}

// What the desk program decides from the bytes of tree.tab and values.tab.
pub fn quote_files(tree: &[u8], values: &[u8]) -> Result<Quote, Refusal>
    ensures answer { answer result ≡ files_answer tree.now values.now }
    ensures promise { FilesPromise tree.now values.now (answer result) }
{
    if values_whole(values) {
        let file = ValuesFile { bytes: values };
        return quoting::figure(tree, &file.values());
    }
    table::accept(tree)?;
    Err(Refusal::Values)
}
