// What the programs read from their arguments.
#![tactic(auto)]

ghost use Rattle.std.specs.Prelude.{◌≡◌};
ghost use Rattle.arguments.specs.Allowances.{allowance_answer};

// Reads an allowance of steps: decimal digits, at least one, that stand for a number of 64 bits. Std's `parse` would take a sign too.
pub fn allowance_of(characters: &[u8]) -> Option<u64>
    ensures { result ≡ allowance_answer characters.now }
{
    if characters.is_empty() {
        return None;
    }
    let mut number: u64 = 0;
    for &c in characters {
        if !c.is_ascii_digit() {
            return None;
        }
        let digit = u64::from(c - b'0');
        number = number.checked_mul(10)?.checked_add(digit)?;
    }
    Some(number)
}
