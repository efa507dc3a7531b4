// An answer's parts, each put behind the one before. Functions and no `Display`: see `print::Text` (c).
#![tactic(auto, using(crate::proofs::Writing::adds_none, crate::proofs::Writing::adds_then, crate::proofs::Writing::adds_both, crate::proofs::Writing::bytes_none, crate::proofs::Writing::bytes_on))]

ghost use Rattle.std.specs.Prelude.{◌≡◌, get_or};
ghost use Rattle.print.specs.Print.{decimal_text, bits_text, Adds};
ghost use Rattle.fields.specs.Text.{spell};
ghost use Rattle.answers.specs.Words.{◌then◌};
ghost use Rattle.answers.specs.Answers.{key_text, no_text};

use print::Text;
use table::Refusal;

// A word and a number, here and below: a struct of both would be made for the one call (d).
pub fn put_number(to: &mut Text<'_>, word: &[u8], v: u64)
    ensures { Adds to.old (word.now then decimal_text v) to.new }
{
    to.put(word);
    to.put_decimal(v);
}

// A word and a number of 16 hex digits. Not one function with `put_number`: each caller knows which digits it puts, and a parameter for them would be a flag (d).
pub fn put_hex(to: &mut Text<'_>, word: &[u8], v: u64)
    ensures { Adds to.old (word.now then bits_text v) to.new }
{
    to.put(word);
    to.put_bits(v);
}

// A word, a number and the line's end.
pub fn put_counted(to: &mut Text<'_>, word: &[u8], v: u64)
    ensures { Adds to.old (word.now then decimal_text v then spell "\n") to.new }
{
    put_number(to, word, v);
    to.put(b"\n");
}

// The question that was answered no.
pub fn put_no(to: &mut Text<'_>, r: Refusal)
    ensures { Adds to.old (no_text r) to.new }
{
    put_counted(to, b"no ", u64::from(r.number()));
}

// The key at the front of these bytes; a byte behind their end is 0. Of any bytes, as its clause promises: so no array and no `for` over it (d).
pub fn put_key(to: &mut Text<'_>, key: &[u8])
    ensures { Adds to.old (key_text key.now) to.new }
{
    for j in 0..32 {
        to.put_byte(key.get(j).copied().unwrap_or(0));
    }
}
