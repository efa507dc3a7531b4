// What the calls answer; and, as laws on lists alone (proofs/), that what a call does to the rows, cells and ends is the definitions' step. Crate `lent` has the calls.
#![tactic(auto)]

ghost use Rattle.std.specs.Prelude.{◌≡◌};
ghost use Rattle.moves.specs.Answers.{check_answer};

use near_field::Judgment;
use table::Refusal;
use verdicts::{CheckState, Verdict};

// What an accepted call says: a claim its row's generation and the key that it pushed out, a judging its judgment, check the state, take-out and drop-oldest the
// key freed; the others only that they were accepted.
#[derive(Clone, Copy)]
pub enum Word {
    Generation {
        generation: u32,
        pushed: Option<[u8; 32]>,
    },
    Judged(Judgment),
    Says(CheckState),
    Freed([u8; 32]),
    Done,
}

pub type Answer = Result<Word, Refusal>;

// Question 7, and what check says of a verdict.
pub fn check_answer(verdict: Option<Verdict>) -> Answer
    ensures { result ≡ check_answer verdict }
{
    let v = verdict.ok_or(Refusal::NeverJudged)?;
    Ok(Word::Says(verdicts::says(v)))
}
