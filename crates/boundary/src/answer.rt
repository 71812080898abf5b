// The answer of a call as one number: docs/BOUNDARY.md, "The answer". The number stands in bits 0 to 7, whose entry a table's number
// names in bits 8 to 15, the value in bits 32 to 63.
// The functions assume that the value fits there; specs/NumberLaws.antt proves that every call's does.
ghost use Rattle.std.specs.Prelude.{◌≡◌, ◌^◌, ◌<◌};
ghost use Rattle.rules.specs.Answers.{answer as answer_of, refused as refused_of, verdict_answer, table_answer};
ghost use Rattle.boundary.specs.Word.{word as word_of};

use rules::Verdict;
use tables::{Index, Refusal};

// A number that names no entry.
#[tactic(auto, unfolding(crate::specs::Word::word))]
pub(crate) fn word(number: u8, value: u32) -> u64
    ensures { result ≡ word_of (answer_of number value) }
{
    number as u64 + ((value as u64) << 32)
}

// A refusal, with the table and the index of the entry that it names.
#[tactic(auto, unfolding(crate::specs::Word::word))]
pub(crate) fn of_refusal(refusal: Refusal) -> u64
    requires { refusal.index.entry < 2 ^ 32 }
    ensures { result ≡ word_of (refused_of refusal.number refusal.index) }
{
    let index = refusal.index;
    refusal.number as u64 + ((index.table as u64) << 8) + ((index.entry as u64) << 32)
}

// "accept, or done: the extension"; "pass"; a drop's number; where a table is refused, with "the entry's index" and whose entry it is.
#[tactic(auto, unfolding(rules::specs::Answers::verdict_answer))]
pub(crate) fn of_verdict(verdict: Verdict, index: Index) -> u64
    requires { index.entry < 2 ^ 32 }
    ensures { result ≡ word_of (verdict_answer verdict index) }
{
    match verdict {
        Verdict::Accept(extension) => word(0, extension),
        Verdict::Pass => word(1, 0),
        Verdict::Drop(number) => of_refusal(Refusal { number, index }),
    }
}

// "of `check_table` how many key entries", of `prepare` and `sign` how many bytes were written, 0 of a call that gives no number of its
// own; or the refusal with the entry's table and index.
#[tactic(auto, unfolding(rules::specs::Answers::table_answer))]
pub(crate) fn of_result(answer: Result<usize, Refusal>) -> u64
    requires { (table_answer answer).value < 2 ^ 32 }
    ensures { result ≡ word_of (table_answer answer) }
{
    match answer {
        Ok(n) => word(0, n as u32),
        Err(refusal) => of_refusal(refusal),
    }
}
