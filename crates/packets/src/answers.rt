// The answers of the calls as a number and a value, as the crate `rules` sets them out (specs/Answers.antt),
// and whether one is what was expected. Assumes nothing.
ghost use Rattle.std.specs.Prelude.{◌≡◌, ◌&&◌, eqb};

use rules::{SignedSegment, Verdict};
use std::fmt;
use std::io::Print;
use tables::Refusal;

// 0 with the extension or the signed length, 1 for pass, else document 01's number.
// Kept (may not change): the clause of `compared` compares a number and a value, as the record Answer of rules/specs/Answers.antt has them.
#[derive(Clone, Copy, PartialEq, Eq)]
pub struct Answer {
    pub number: u8,
    pub value: u64,
}

impl Answer {
    pub fn good(value: u64) -> Self
        ensures { (result.number ≡ 0) × (result.value ≡ value) }
    {
        Answer { number: 0, value }
    }

    pub fn bad(number: u8) -> Self
        ensures { (result.number ≡ number) × (result.value ≡ 0) }
    {
        Answer { number, value: 0 }
    }
}

#[tactic(auto, unfolding(rules::specs::Answers::verdict_answer))]
impl From<Verdict> for Answer {
    ghost use Rattle.tables.specs.Tables.{no_index};
    ghost use Rattle.rules.specs.Answers.{verdict_answer};

    ghost from_gives = { λ v a. (a.number ≡ (verdict_answer v no_index).number) × (a.value ≡ (verdict_answer v no_index).value) };

    fn from(v: Verdict) -> Answer {
        match v {
            Verdict::Accept(extension) => Answer::good(u64::from(extension)),
            Verdict::Pass => Answer::bad(1),
            Verdict::Drop(n) => Answer::bad(n),
        }
    }
}

// Whatever the state is that signing began with.
#[tactic(auto, unfolding(rules::specs::Answers::signing_answer))]
impl From<Result<SignedSegment, Refusal>> for Answer {
    ghost use Rattle.rules.specs.declared.State.{State};
    ghost use Rattle.tables.specs.Tables.{no_index};
    ghost use Rattle.rules.specs.Answers.{signing_answer};
    ghost use Rattle.rules.specs.Results.{signed_as};

    ghost from_gives = { λ signing a. (q : State) → (a.number ≡ (signing_answer (signed_as q signing).answer no_index).number)
        × (a.value ≡ (signing_answer (signed_as q signing).answer no_index).value) };

    fn from(signing: Result<SignedSegment, Refusal>) -> Answer {
        match signing {
            Ok(signed) => Answer::good(signed.len as u64),
            Err(refusal) => Answer::bad(refusal.number),
        }
    }
}

// An answer as it is printed, with what the value beside 0 is.
#[derive(Drop)]
struct Shown<'a>(&'a str, Answer);

impl fmt::Display for Shown<'_> {
    fn fmt<W: fmt::Write>(&self, f: &mut fmt::Formatter<W>) -> fmt::Result {
        let answer = self.1;
        if answer.number == 0 {
            write!(f, "{}{}", self.0, answer.value)
        } else {
            write!(f, "number {}", answer.number)
        }
    }
}

// What came out beside what was expected.
pub fn compared(rt: &impl Print, what: &str, got: Answer, want: Answer) -> bool
    ensures { result ≡ (eqb got.number want.number && eqb got.value want.value) }
{
    let ok = got == want;
    let how = if ok { "ok" } else { "DIFFERS" };
    let _ = println!(rt;
        "{}, expected {} {how}",
        Shown(what, got),
        Shown(what, want)
    );
    ok
}
