// Why a call refuses what it is lent: an error for each numbered question.
#![tactic(auto)]

ghost use Rattle.std.specs.Prelude.{◌≡◌};
ghost use Rattle.refusals.specs.Refusals.{number};

// The question that says no. Each has the number that the desk program prints and C gets.
#[derive(Clone, Copy, Debug, PartialEq, Eq)]
pub enum Refusal {
    // Of a table, 1 to 7: its length, its records' fields, their numbers, whether they form one tree, how deep that is, the loops that limits name, their weight.
    Length,
    Fields,
    Range,
    Tree,
    Depth,
    Names,
    Weight,
    // Of an output buffer, 8.
    Room,
    // Of a desk's values, 9, and of what they come to, 10.
    Values,
    Ceiling,
    // Of a graft: its symbol, 11, and what it makes, 12.
    Symbol,
    Graft,
    // Of values again: those under flag 4, 13, and the later ones, 14.
    Triangle,
    Later,
    // Of a symbol that is filled, 15, and of its marks, 16.
    Fill,
    Marks,
    // Of a block that is retimed, 17.
    Time,
}

impl From<Refusal> for u64 {
    ghost from_gives = { λ refusal n. n ≡ number refusal };

    fn from(refusal: Refusal) -> u64 {
        match refusal {
            Refusal::Length => 1,
            Refusal::Fields => 2,
            Refusal::Range => 3,
            Refusal::Tree => 4,
            Refusal::Depth => 5,
            Refusal::Names => 6,
            Refusal::Weight => 7,
            Refusal::Room => 8,
            Refusal::Values => 9,
            Refusal::Ceiling => 10,
            Refusal::Symbol => 11,
            Refusal::Graft => 12,
            Refusal::Triangle => 13,
            Refusal::Later => 14,
            Refusal::Fill => 15,
            Refusal::Marks => 16,
            Refusal::Time => 17,
        }
    }
}
