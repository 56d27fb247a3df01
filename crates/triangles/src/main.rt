// Prints the triangular numbers of 0 to 1,000, one a line, by the rule. It leans on no crate of the library, so what it prints is no copy of the library's table.
#![tactic(auto)]

ghost use Rattle.std.specs.Prelude.{◌≡◌, ◌+◌, ◌*◌, ◌/◌, ◌≤◌};

// The n-th triangular number.
fn triangular(n: u64) -> u64
    requires { n ≤ 1_000 }
    ensures { result ≡ n * (n + 1) / 2 }
{
    n * (n + 1) / 2
}

// Writes a line to standard output and answers true, or says on standard error why it cannot.
fn say(rt: &(impl Print + Eprint), number: u64) -> bool {
    if let Err(error) = rt.println(number) {
        let _ = eprintln!(rt; "standard output: {error}");
        return false;
    }
    true
}

fn main(rt: HostRuntime) {
    for n in 0..=1_000 {
        if !say(&rt, triangular(n)) {
            return;
        }
    }
}
