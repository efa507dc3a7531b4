// A key and the answers of the seven calls as numbers, since no enum crosses to C: four for a key, and nine for an answer, whose codes are include/siting.h's.
// Each arm of a `match` puts what its case holds: no table would be plainer (d).
#![tactic(auto)]

ghost use Rattle.std.specs.Prelude.{◌≡◌};
ghost use Rattle.moves.specs.Answers.{answer_is};
ghost use Rattle.replies.specs.Replies.{plain, keyed, judgment_words, state_words, generation_words, answer_words};
ghost use Rattle.packing.specs.Words.{key_of};

use moves::{Answer, Word};
use near_field::Judgment;
use scans::Key;
use verdicts::CheckState;

// A key of four words. No `From`: neither type is of this crate (d).
pub fn key_by(key: &[u64; 4]) -> Key
    ensures { result.bytes ≡ key_of key.now }
{
    Key {
        bytes: packing::key_at(key),
    }
}

// What an answer is, its value, a distance and the evidence; it has no key. What it is comes as siting.h's number, since `siting` puts its own by this (a).
pub fn put(answer: &mut [u64; 9], what: u64, value: u64, off: u64, by: u64)
    ensures { answer.new ≡ plain what value off by }
{
    *answer = [what, value, off, by, 0, 0, 0, 0, 0];
}

#[tactic(auto, unfolding(packing::specs::Words::key_words))]
fn put_keyed(answer: &mut [u64; 9], what: u64, value: u64, pushed: u64, key: [u8; 32])
    ensures { answer.new ≡ keyed what value pushed key }
{
    let k = packing::key_words(key);
    *answer = [what, value, 0, 0, pushed, k[0], k[1], k[2], k[3]];
}

fn put_judgment(answer: &mut [u64; 9], j: Judgment)
    ensures { answer.new ≡ judgment_words j }
{
    match j {
        Judgment::Unjudged => put(answer, 2, 0, 0, 0),
        Judgment::Fits => put(answer, 2, 1, 0, 0),
        Judgment::Wrong { off_km, by } => put(answer, 2, 2, off_km as u64, by as u64),
    }
}

fn put_state(answer: &mut [u64; 9], s: CheckState)
    ensures { answer.new ≡ state_words s }
{
    match s {
        CheckState::Unjudged => put(answer, 3, 0, 0, 0),
        CheckState::Fits => put(answer, 3, 1, 0, 0),
        CheckState::Wrong(off_km) => put(answer, 3, 2, off_km as u64, 0),
    }
}

fn put_generation(answer: &mut [u64; 9], g: u32, pushed: Option<[u8; 32]>)
    ensures { answer.new ≡ generation_words pushed g }
{
    match pushed {
        Some(key) => put_keyed(answer, 1, g as u64, 1, key),
        None => put(answer, 1, g as u64, 0, 0),
    }
}

// An answer's nine numbers.
pub fn tell(answer: &mut [u64; 9], a: Answer)
    ensures { answer.new ≡ answer_words (answer_is a) }
{
    match a {
        Ok(Word::Generation { generation, pushed }) => put_generation(answer, generation, pushed),
        Ok(Word::Judged(j)) => put_judgment(answer, j),
        Ok(Word::Says(s)) => put_state(answer, s),
        Ok(Word::Freed(key)) => put_keyed(answer, 4, 0, 0, key),
        Ok(Word::Done) => put(answer, 5, 0, 0, 0),
        Err(r) => put(answer, 0, r.number() as u64, 0, 0),
    }
}
