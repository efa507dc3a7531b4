// What a line is answered, as a value and as text, put into a buffer that is lent. Which answer a line has is said above, in `session`.
#![tactic(auto)]

mod fault;
pub mod put;
mod text;
mod words;

ghost use Rattle.std.specs.Prelude.{◌≡◌};
ghost use Rattle.print.specs.Print.{SameBuffer};
ghost use Rattle.answers.specs.Answers.{text_of, answered_in, answered_end};

use moves::Answer;
use print::Text;
use readers::Fault;

// What there is to say of a line. A line comes to a Result<Option<Reply>, Fault>: where there is nothing to say, or something is wrong, there is no reply.
#[derive(Clone, Copy)]
pub enum Reply {
    Answered(Answer),
    // 65,535 where a degree is out of range, as `siting_place` answers and the line prints (a).
    Place(u16),
    Same(bool),
    Horizon(f64),
    Bucket(u8),
    Bit(u32),
    Digest(u64),
}

// Puts the answer to the line of that number and those bytes. The buffer has to have 128 bytes free, which is more than any answer has.
// The number is counted with the answers, the bytes lie in the reader's buffer: the two meet here (d).
pub fn put_reply(to: &mut Text<'_>, reply: Result<Option<Reply>, Fault>, number: u64, line: &[u8])
    ensures put { (to.new.n ≡ answered_end to.old.out.now to.old.n (text_of reply number line.now)) × (to.new.out.now ≡ answered_in to.old.out.now to.old.n (text_of reply number line.now)) }
    ensures buffer { SameBuffer to.old to.new }
{
    let free = to.out.len().saturating_sub(to.n);
    if free < 128 {
        return;
    }
    text::put_text(to, reply, number, line);
}
