// Answers printed: bytes and numbers put into a buffer that is lent. The digits of a number are the library's (`itoa`, `hex`).
#![tactic(auto, using(crate::proofs::Printing::adds_put, crate::proofs::Printing::decimal_put, crate::proofs::Printing::bits_put, crate::proofs::Printing::byte_put))]

ghost use Rattle.std.specs.Prelude.{◌≡◌};
ghost use Rattle.std.specs.Float.{binary64};
ghost use Rattle.std.specs.Float.Ieee.{to_bits};
ghost use Rattle.fields.specs.Text.{part_of};
ghost use Rattle.print.specs.Print.{digits, decimal_text, bits_text, put_in, put_end, SameBuffer, Adds};

// A buffer that is lent, since there is no heap, and the place where the next bytes go. Nothing is asked of the place: past the buffer's end nothing fits.
// That a put leaves the same buffer relates two states of it, so no field holds it: `Adds` has it for the crates above, and here each clause stands by its name (d).
#[derive(Drop)]
pub struct Text<'a> {
    pub out: &'a mut [u8],
    pub n: usize,
}

// No `fmt::Write` with `write!` and `Display` (c): the impl proves, but `write!` ensures its bytes only where it answers Ok, in parts, and nothing ensures
// that it does. Tried for `put_decimal`, which cannot fail: both its clauses stayed open, for of an Err nothing is known, not even that the buffer is the same.
impl<'a> Text<'a> {
    // The bytes in front of the place.
    pub fn bytes(&self) -> &[u8]
        ensures { result.now ≡ part_of self.now.out.now 0 self.now.n }
    {
        fields::part(self.out, 0, self.n)
    }

    // Puts bytes where they fit whole.
    pub fn put(&mut self, s: &[u8])
        ensures put { (self.new.n ≡ put_end self.old.out.now self.old.n s.now) × (self.new.out.now ≡ put_in self.old.out.now self.old.n s.now) }
        ensures buffer { SameBuffer self.old self.new }
        ensures adds { Adds self.old s.now self.new }
    {
        let at = self.n;
        if at > self.out.len() || s.len() > self.out.len() - at {
            return;
        }
        let end = at + s.len();
        self.out[at..end].copy_from_slice(s);
        self.n = end;
    }

    // Puts a number in decimal.
    pub fn put_decimal(&mut self, n: u64)
        ensures put { (self.new.n ≡ put_end self.old.out.now self.old.n (decimal_text n)) × (self.new.out.now ≡ put_in self.old.out.now self.old.n (decimal_text n)) }
        ensures buffer { SameBuffer self.old self.new }
        ensures adds { Adds self.old (decimal_text n) self.new }
    {
        self.put(itoa::Buffer::new().format(n).as_bytes());
    }

    // Puts a byte as two hex digits.
    pub fn put_byte(&mut self, b: u8)
        ensures put { (self.new.n ≡ put_end self.old.out.now self.old.n (digits 16 2 b)) × (self.new.out.now ≡ put_in self.old.out.now self.old.n (digits 16 2 b)) }
        ensures buffer { SameBuffer self.old self.new }
        ensures adds { Adds self.old (digits 16 2 b) self.new }
    {
        let mut pair = [0u8; 2];
        hex::encode_to_slice([b], &mut pair).unwrap();
        self.put(&pair);
    }

    // Puts a number as 16 hex digits.
    pub fn put_bits(&mut self, n: u64)
        ensures put { (self.new.n ≡ put_end self.old.out.now self.old.n (bits_text n)) × (self.new.out.now ≡ put_in self.old.out.now self.old.n (bits_text n)) }
        ensures buffer { SameBuffer self.old self.new }
        ensures adds { Adds self.old (bits_text n) self.new }
    {
        let mut all = [0u8; 16];
        hex::encode_to_slice(n.to_be_bytes(), &mut all).unwrap();
        self.put(&all);
    }
}

// A float's bits; those of a NaN are 0x7ff8000000000000. The library's `to_bits` asks that it is no NaN (d).
pub fn bits_of(x: f64) -> u64
    ensures { result ≡ to_bits binary64 x }
{
    if x.is_nan() {
        0x7ff8_0000_0000_0000
    } else {
        x.to_bits()
    }
}
