// Inner functions for the tests and the benchmark to call: exports that are no part of the library.
#![tactic(auto)]

ghost use Rattle.probes.specs.Probes.{Probed, ProbedBytes};

// What C gets is two numbers, the first by specs/Probes.antt; each probe's struct names the second as C does.
#[repr(C)]
#[derive(Clone, Copy)]
pub struct ProbeComparison {
    pub verdict: u64,
    pub word: u64,
}

const NOT_COMPARED: ProbeComparison = ProbeComparison {
    verdict: 2,
    word: 0,
};

#[unsafe(no_mangle)]
pub extern "C" fn probe_compare(a: &[u8], b: &[u8]) -> ProbeComparison
    ensures { Probed a.now b.now result.verdict result.word }
{
    if a.len() != b.len() {
        return NOT_COMPARED;
    }
    if a.len() % words::WORD_LENGTH != 0 {
        return NOT_COMPARED;
    }
    match words::compare(a, b) {
        Some(k) => ProbeComparison {
            verdict: 1,
            word: k as u64,
        },
        None => ProbeComparison {
            verdict: 0,
            word: 0,
        },
    }
}

#[repr(C)]
#[derive(Clone, Copy)]
pub struct ProbeByteComparison {
    pub verdict: u64,
    pub byte: u64,
}

// The same byte by byte, as rule 8 compared before: what the benchmark measures the comparison by words against.
#[unsafe(no_mangle)]
pub extern "C" fn probe_compare_bytes(a: &[u8], b: &[u8]) -> ProbeByteComparison
    ensures { ProbedBytes a.now b.now result.verdict result.byte }
{
    if a.len() != b.len() {
        return ProbeByteComparison {
            verdict: 2,
            byte: 0,
        };
    }
    for k in 0..a.len() {
        if a[k] != b[k] {
            return ProbeByteComparison {
                verdict: 1,
                byte: k as u64,
            };
        }
    }
    ProbeByteComparison {
        verdict: 0,
        byte: 0,
    }
}
