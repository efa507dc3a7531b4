// The text of an answer, part by part. Each arm of a `match` puts what its case holds: no closure or table would be plainer (d).
// Functions and no `Display`, since `put_reply` cannot fail: see `print::Text` (c).
#![tactic(auto, using(crate::proofs::Writing::adds_none, crate::proofs::Writing::adds_then, crate::proofs::Writing::adds_both))]

ghost use Rattle.std.specs.Prelude.{◌≡◌};
ghost use Rattle.print.specs.Print.{decimal_text, bits_text, Adds};
ghost use Rattle.fields.specs.Text.{spell};
ghost use Rattle.answers.specs.Words.{◌then◌};
ghost use Rattle.answers.specs.Answers.{judgment_text, state_text, claim_text, key_text, call_text, wrong_text, reply_text, text_of};

use crate::put::{put_counted, put_hex, put_key, put_no, put_number};
use crate::{Reply, fault, words};
use moves::{Answer, Word};
use near_field::{Evidence, Judgment};
use print::Text;
use readers::Fault;
use verdicts::CheckState;

// A word, 16 hex digits and the line's end.
fn put_hexed(to: &mut Text<'_>, word: &[u8], v: u64)
    ensures { Adds to.old (word.now then bits_text v then spell "\n") to.new }
{
    put_hex(to, word, v);
    to.put(b"\n");
}

fn put_wrong(to: &mut Text<'_>, off_km: u32, by: Evidence)
    ensures { Adds to.old (judgment_text (Judgment.Wrong off_km by)) to.new }
{
    put_number(to, b"ok wrong ", u64::from(off_km));
    to.put(words::of_evidence(by));
    to.put(b"\n");
}

fn put_judgment(to: &mut Text<'_>, j: Judgment)
    ensures { Adds to.old (judgment_text j) to.new }
{
    match j {
        Judgment::Unjudged => to.put(b"ok unjudged\n"),
        Judgment::Fits => to.put(b"ok fits\n"),
        Judgment::Wrong { off_km, by } => put_wrong(to, off_km, by),
    }
}

fn put_state(to: &mut Text<'_>, s: CheckState)
    ensures { Adds to.old (state_text s) to.new }
{
    match s {
        CheckState::Unjudged => to.put(b"ok unjudged\n"),
        CheckState::Fits => to.put(b"ok fits\n"),
        CheckState::Wrong(off_km) => put_counted(to, b"ok wrong ", u64::from(off_km)),
    }
}

// A key and the line's end.
fn put_key_end(to: &mut Text<'_>, word: &[u8], key: &[u8; 32])
    ensures { Adds to.old (word.now then key_text key.now then spell "\n") to.new }
{
    to.put(word);
    put_key(to, key);
    to.put(b"\n");
}

// A claim's generation, and the key that it pushed out, if any.
fn put_claim(to: &mut Text<'_>, generation: u32, pushed: Option<[u8; 32]>)
    ensures { Adds to.old (claim_text generation pushed) to.new }
{
    put_number(to, b"ok ", u64::from(generation));
    match pushed {
        Some(key) => put_key_end(to, b" ", &key),
        None => to.put(b" -\n"),
    }
}

fn put_answer(to: &mut Text<'_>, a: Answer)
    ensures { Adds to.old (call_text a) to.new }
{
    match a {
        Ok(Word::Generation { generation, pushed }) => put_claim(to, generation, pushed),
        Ok(Word::Judged(j)) => put_judgment(to, j),
        Ok(Word::Says(s)) => put_state(to, s),
        Ok(Word::Freed(key)) => put_key_end(to, b"ok ", &key),
        Ok(Word::Done) => to.put(b"ok\n"),
        Err(r) => put_no(to, r),
    }
}

// The line of that number is wrong.
#[tactic(auto, using(crate::proofs::Writing::wrong_put))]
fn put_error(to: &mut Text<'_>, fault: Fault, number: u64, line: &[u8])
    ensures { Adds to.old (wrong_text fault number line.now) to.new }
{
    put_number(to, b"error ", number);
    to.put(b": ");
    fault::put_fault(to, fault, line);
    to.put(b"\n");
}

fn put_said(to: &mut Text<'_>, reply: Reply)
    ensures { Adds to.old (reply_text reply) to.new }
{
    match reply {
        Reply::Answered(a) => put_answer(to, a),
        Reply::Place(p) => put_counted(to, b"place ", u64::from(p)),
        Reply::Same(same) => put_counted(to, b"same ", u64::from(same)),
        Reply::Horizon(km) => put_hexed(to, b"horizon ", print::bits_of(km)),
        Reply::Bucket(b) => put_counted(to, b"bucket ", u64::from(b)),
        Reply::Bit(k) => put_counted(to, b"bit ", u64::from(k)),
        Reply::Digest(d) => put_hexed(to, b"digest ", d),
    }
}

#[tactic(auto, using(crate::proofs::Writing::adds_none), unfolding(crate::specs::Answers::text_of))]
pub fn put_text(to: &mut Text<'_>, reply: Result<Option<Reply>, Fault>, number: u64, line: &[u8])
    ensures { Adds to.old (text_of reply number line.now) to.new }
{
    match reply {
        Ok(Some(said)) => put_said(to, said),
        Ok(None) => {}
        Err(fault) => put_error(to, fault, number, line),
    }
}
