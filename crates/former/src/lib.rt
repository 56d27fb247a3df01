// Tables as they were before firmware addresses, of records of 16 bytes, made into tables with address 0 (document 02, CR 6).
#![tactic(auto)]

ghost use Rattle.std.specs.Prelude.{◌≡◌, ◌++◌, ◌*◌, ◌+◌, ◌≤◌, drop, length, take};
ghost use Rattle.refusals.specs.Refusals.{answer};
ghost use Rattle.table.specs.Numbers.{record_length};
ghost use Rattle.writing.specs.Over.{over};
ghost use Rattle.writing.specs.Records.{front};
ghost use Rattle.former.specs.Former.{former_length, former_question1};
ghost use Rattle.former.specs.Converted.{Converts, new_record, convert_answer, convert_writes, converted};

use refusals::Refusal;
use table::{FILL, MOST_RECORDS, RECORD_LENGTH};

// The bytes of a former record, as in specs/Former.antt.
pub const FORMER_LENGTH: usize = 16;

// Question 1 of former tables: the one line of tables with another length, which a const parameter would make no shorter.
fn length_allowed(old: &[u8]) -> bool
    ensures { result ≡ former_question1 old.now }
{
    let n = old.len();
    (n % FORMER_LENGTH == 0) & (FORMER_LENGTH <= n) & (n <= FORMER_LENGTH * MOST_RECORDS)
}

// Puts the record of former record i at the buffer's record i.
fn convert_record(old: &[u8], i: usize, out: &mut [u8])
    requires { (former_length * (i + 1) ≤ length old.now) × (record_length * (i + 1) ≤ length out.old) }
    ensures { (front (i + 1) out.new ≡ front i out.old ++ new_record (drop (former_length * i) old.now)) × (drop (record_length * (i + 1)) out.new ≡ drop (record_length * (i + 1)) out.old) }
{
    let at = RECORD_LENGTH * i;
    let added = [0, 0, 0, 0, FILL, FILL, FILL, FILL];
    writing::copy_bytes(old, FORMER_LENGTH * i, FORMER_LENGTH, out, at);
    writing::copy_bytes(&added, 0, 8, out, at + FORMER_LENGTH);
}

// Puts the records of the first n former ones at the buffer's front.
fn convert_records(old: &[u8], n: usize, out: &mut [u8])
    requires { (former_length * n ≤ length old.now) × (record_length * n ≤ length out.old) }
    ensures { out.new ≡ over (converted n old.now) out.old }
{
    for i in 0..n {
        convert_record(old, i, out);
    }
}

// Writes the table of a former one over the front of `out`: how long it is, or question 1 or 8 where one says no. Nothing but question 1 is asked of the former
// one, so every byte of its records stays as it is.
pub fn convert(old: &[u8], out: &mut [u8]) -> Result<usize, Refusal>
    ensures answer { answer result ≡ convert_answer old.now out.old }
    ensures written { out.new ≡ over (convert_writes old.now out.old) out.old }
    ensures promise { Converts old.now }
{
    if !length_allowed(old) {
        return Err(Refusal::Length);
    }
    let n = old.len() / FORMER_LENGTH;
    if out.len() < RECORD_LENGTH * n {
        return Err(Refusal::Room);
    }
    convert_records(old, n, out);
    Ok(RECORD_LENGTH * n)
}
