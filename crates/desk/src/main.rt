// The desk program: quotes tree.tab with values.tab, both in the folder that it runs in, on one line.
#![tactic(auto)]

use deskfiles::VALUE_LENGTH;
use table::{HOW_MANY_VALUES, MOST_RECORDS, RECORD_LENGTH};

fn main(rt: HostRuntime) {
    // Each buffer is longer than the longest file that is accepted, so that a longer file shows.
    let mut tree = [0u8; RECORD_LENGTH * (MOST_RECORDS + 1)];
    let mut values = [0u8; VALUE_LENGTH * (HOW_MANY_VALUES + 1)];
    let Some(tree_len) = files::load(&rt, b"tree.tab", &mut tree) else {
        return;
    };
    let Some(values_len) = files::load(&rt, b"values.tab", &mut values) else {
        return;
    };
    match deskfiles::quote_files(&tree[..tree_len], &values[..values_len]) {
        Ok(quote) => text::say_two_numbers(
            &rt,
            b"figure ",
            quote.figure,
            b" branch ",
            quote.branch,
        ),
        Err(refusal) => text::say_number(&rt, b"refused ", u64::from(refusal)),
    }
}
