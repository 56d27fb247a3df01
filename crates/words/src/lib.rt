// The comparison of two stretches of bytes, eight bytes at a time.
#![tactic(auto)]

ghost use Rattle.words.specs.Words.{Compared, SameWords};

// The bytes of a word, as in specs/Words.antt.
pub const WORD_LENGTH: usize = 8;

// The first word in which two stretches of the same number of whole words differ, counted from 0, or that none does. A word is read as one number a side,
// so each byte is read once, and none behind the first difference.
pub fn compare(a: &[u8], b: &[u8]) -> Option<usize>
    requires { SameWords a.now b.now }
    ensures { Compared a.now b.now result }
{
    for k in 0..a.len() / WORD_LENGTH {
        let at = WORD_LENGTH * k;
        if table::read_u64(a, at) != table::read_u64(b, at) {
            return Some(k);
        }
    }
    None
}
