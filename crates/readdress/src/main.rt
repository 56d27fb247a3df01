// Turns old.tab, a table of records of 16 bytes, into tree.tab, the same table with address 0 at every record; both are in the folder that it runs in. Where
// old.tab's length is not one that such a table had, nothing is written, and a tree.tab that is there stays as it is. It prints nothing.
#![tactic(auto)]

use former::FORMER_LENGTH;
use std::random::RandomSource;
use std::rt::Files;
use table::{MOST_RECORDS, RECORD_LENGTH};

// Makes the table in the lent buffer, and saves what was written there as tree.tab, in place of one that is there.
fn convert_into(rt: &(impl Files + RandomSource + Eprint), old: &[u8], tree: &mut [u8]) {
    if let Ok(len) = former::convert(old, tree) {
        files::save(rt, b"tree.tab", &tree[..len]);
    }
}

fn main(rt: HostRuntime) {
    // One record more than a table may have, so that a longer file shows.
    let mut old = [0u8; FORMER_LENGTH * (MOST_RECORDS + 1)];
    let mut tree = [0u8; RECORD_LENGTH * MOST_RECORDS];
    if let Some(len) = files::load(&rt, b"old.tab", &mut old) {
        convert_into(&rt, &old[..len], &mut tree);
    }
}
