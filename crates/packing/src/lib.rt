// The fields of a row as words of 64 bits: key, site, epoch id, clock and verdict, each made into words, tested there and read from there, whatever words
// follow. Crate `flat` puts them together to a row.
#![tactic(auto)]

ghost use Rattle.std.specs.Prelude.{◌≡◌, ℕ, Bool, List, ◌≤◌, ◌+◌, ◌%◌, leb, length, T, IfSome, ⊤};
ghost use Rattle.std.specs.Float.{binary64};
ghost use Rattle.std.specs.Float.Ieee.{to_bits, fits};
ghost use Rattle.std.specs.Int.{w32, w64, from_le_bytes};
ghost use Rattle.std.proofs.lemmas.List.Edits.{sets};
ghost use Rattle.std.proofs.Common.{of_z, SFits};
ghost use Rattle.packing.specs.Words as row;
ghost use Rattle.packing.specs.Words.{most32, most64, eight, key_words, key_of, zeros, maybe_words, maybe_of, maybe_fits, altitude_at, low32, byte, site_words, site_of, site_fits, last_word, last_of, flag_word, flag_of, verdict_words, run_of, verdict_of, run_fits, verdict_fits};
ghost use Rattle.packing.specs.Ranges.{Bytes, KeyIn, SiteIn, VerdictIn};
ghost use Rattle.packing.specs.Laws.{WordLaws, whole_laws, wide_laws, signed_laws, byte_laws, flag_laws, last_laws};

use sites::Site;
use verdicts::{Last, Verdict};

// ---- a value that one word holds

// Each type says how its word is made, tested and read, in however few words: what holds a value or none is generic over it. Each of these tests and conversions is
// one of the trait's methods, so it stands once for its type, and no derive knows it (d).
pub trait Word: Copy {
    // The largest word of such a value.
    ghost most: { ℕ };

    ghost to_word: { Self → ℕ };

    ghost of_word: { ℕ → Self };

    // The values that the type has.
    ghost InType: { Self → Type 0 };

    fn word(self) -> u64
        ensures word { result ≡ to_word self }
        ensures in_type { InType self };

    fn fits(w: u64) -> bool
        ensures { result ≡ leb w most };

    // Of a word that fits; any other is cut to one.
    fn from_word(w: u64) -> Self
        ensures { result ≡ of_word w };

    ghost laws: { WordLaws most to_word of_word InType };
}

impl Word for u64 {
    ghost most = { most64 };

    ghost to_word = { λ n. n };

    ghost of_word = { λ w. w };

    ghost InType = { λ n. n ≤ most64 };

    ghost laws = { whole_laws };

    #[tactic(auto, unfolding(crate::specs::Words::most64))]
    fn word(self) -> u64 {
        self
    }

    #[tactic(auto, unfolding(crate::specs::Words::most64))]
    fn fits(_w: u64) -> bool {
        true
    }

    fn from_word(w: u64) -> u64 {
        w
    }
}

impl Word for u32 {
    ghost most = { most32 };

    ghost to_word = { λ n. n };

    ghost of_word = { low32 };

    ghost InType = { λ n. n ≤ most32 };

    ghost laws = { wide_laws };

    #[tactic(auto, unfolding(crate::specs::Words::most32))]
    fn word(self) -> u64 {
        u64::from(self)
    }

    #[tactic(auto, unfolding(crate::specs::Words::most32))]
    fn fits(w: u64) -> bool {
        w <= u32::MAX as u64
    }

    fn from_word(w: u64) -> u32 {
        (w % 0x1_0000_0000) as u32
    }
}

impl Word for i32 {
    ghost most = { most32 };

    ghost to_word = { of_z w32 };

    ghost of_word = { altitude_at };

    ghost InType = { SFits w32 };

    ghost laws = { signed_laws };

    fn word(self) -> u64 {
        self.cast_unsigned() as u64
    }

    fn fits(w: u64) -> bool {
        u32::fits(w)
    }

    fn from_word(w: u64) -> i32 {
        u32::from_word(w).cast_signed()
    }
}

impl Word for u8 {
    ghost most = { 255 };

    ghost to_word = { λ n. n };

    ghost of_word = { byte };

    ghost InType = { λ n. n ≤ 255 };

    ghost laws = { byte_laws };

    fn word(self) -> u64 {
        u64::from(self)
    }

    fn fits(w: u64) -> bool {
        w <= u8::MAX as u64
    }

    fn from_word(w: u64) -> u8 {
        (w % 256) as u8
    }
}

impl Word for bool {
    ghost most = { 1 };

    ghost to_word = { flag_word };

    ghost of_word = { flag_of };

    ghost InType = { λ b. ⊤ };

    ghost laws = { flag_laws };

    fn word(self) -> u64 {
        self as u64
    }

    fn fits(w: u64) -> bool {
        w <= 1
    }

    fn from_word(w: u64) -> bool {
        w != 0
    }
}

impl Word for Last {
    ghost most = { 2 };

    ghost to_word = { last_word };

    ghost of_word = { last_of };

    ghost InType = { λ l. ⊤ };

    ghost laws = { last_laws };

    // The numbers are those of siting.h and of a row line: they stand here, with the words, and `verdicts` knows none (a).
    fn word(self) -> u64 {
        match self {
            Last::Unjudged => 0,
            Last::Fits => 1,
            Last::Wrong => 2,
        }
    }

    fn fits(w: u64) -> bool {
        w <= 2
    }

    fn from_word(w: u64) -> Last {
        match w {
            0 => Last::Unjudged,
            1 => Last::Fits,
            _ => Last::Wrong,
        }
    }
}

// ---- a value that several words hold

// What `Word` is for one word: N words, whatever words follow them. No `From`: Rust refuses one between an Option and an array, which are both the library's (d).
pub trait Words<const N: usize>: Copy {
    ghost to_words: { Self → List ℕ };

    ghost of_words: { List ℕ → Self };

    ghost words_fit: { List ℕ → Bool };

    // The values that the type has.
    ghost InTypes: { Self → Type 0 };

    fn words(self) -> [u64; N]
        ensures words { result ≡ to_words self }
        ensures in_types { InTypes self };

    fn fit(words: &[u64]) -> bool
        requires { N ≤ length words.now }
        ensures { result ≡ words_fit words.now };

    // Of words that fit; any others are cut to such.
    fn from_words(words: &[u64]) -> Self
        requires { N ≤ length words.now }
        ensures { result ≡ of_words words.now };
}

// A value of one word or none: 1 and its word, or two zeros.
impl<T: Word> Words<2> for Option<T> {
    ghost to_words = { maybe_words T.to_word };

    ghost of_words = { maybe_of T.of_word };

    ghost words_fit = { maybe_fits T.most };

    ghost InTypes = { λ x. IfSome x T.InType };

    fn words(self) -> [u64; 2] {
        match self {
            Some(v) => [1, v.word()],
            None => [0, 0],
        }
    }

    fn fit(words: &[u64]) -> bool {
        match words[0] {
            0 => words[1] == 0,
            1 => T::fits(words[1]),
            _ => false,
        }
    }

    fn from_words(words: &[u64]) -> Option<T> {
        if words[0] == 0 {
            return None;
        }
        Some(T::from_word(words[1]))
    }
}

// Are these words those of none?
fn zeros(words: &[u64]) -> bool
    ensures { result ≡ zeros (length words.now) words.now }
{
    for w in words {
        if *w != 0 {
            return false;
        }
    }
    true
}

// ---- key

// Eight bytes from the i-th on, the first lowest. By where they begin, since `key_word` promises them of any place (d).
fn word_at(bytes: &[u8], i: usize) -> u64
    requires { i + 8 ≤ length bytes.now }
    ensures { (result ≡ from_le_bytes w64 (eight bytes.now i)) × Bytes bytes.now }
{
    u64::from_le_bytes(*bytes[i..].first_chunk().unwrap())
}

// `word_at` of a key, whose length its type says: the clause asks of the place alone (d).
pub fn key_word(key: [u8; 32], i: usize) -> u64
    requires { i + 8 ≤ 32 }
    ensures { (result ≡ from_le_bytes w64 (eight key i)) × (Bytes (eight key i) × (length key ≡ 32)) }
{
    word_at(&key, i)
}

// Written out: a loop would fill an array of zeros, in as many lines (d).
pub fn key_words(key: [u8; 32]) -> [u64; 4]
    ensures { (result ≡ key_words key) × KeyIn key }
{
    [
        word_at(&key, 0),
        word_at(&key, 8),
        word_at(&key, 16),
        word_at(&key, 24),
    ]
}

// Of `array::from_fn` it stayed open that its 32 answers are `key_of` (c).
pub fn key_at(words: &[u64]) -> [u8; 32]
    requires { 4 ≤ length words.now }
    ensures { result ≡ key_of words.now }
{
    let mut key = [0u8; 32];
    for i in 0..4 {
        key[8 * i..8 * i + 8].copy_from_slice(&words[i].to_le_bytes());
    }
    key
}

// ---- site

fn bits(x: f64) -> u64
    ensures { (result ≡ to_bits binary64 x) × T (fits binary64 x) }
{
    print::bits_of(x)
}

impl Words<5> for Option<Site> {
    ghost to_words = { site_words };

    ghost of_words = { site_of };

    ghost words_fit = { site_fits };

    ghost InTypes = { SiteIn };

    #[tactic(auto, unfolding(crate::specs::Words::site_words))]
    fn words(self) -> [u64; 5] {
        match self {
            Some(s) => {
                let alt = s.alt_m.words();
                [1, bits(s.lat), bits(s.lon), alt[0], alt[1]]
            }
            None => [0; 5],
        }
    }

    fn fit(words: &[u64]) -> bool {
        match words[0] {
            0 => zeros(&words[1..5]),
            1 => <Option<i32>>::fit(&words[3..]),
            _ => false,
        }
    }

    #[tactic(auto, unfolding(crate::specs::Words::site_of))]
    fn from_words(words: &[u64]) -> Option<Site> {
        if words[0] == 0 {
            return None;
        }
        Some(Site {
            lat: reals::float_of(words[1]),
            lon: reals::float_of(words[2]),
            alt_m: Words::from_words(&words[3..]),
        })
    }
}

// ---- verdict

// Seven words of a longer slice: an array would ask callers for no more than seven (d).
#[tactic(auto, unfolding(crate::specs::Words::run_fits))]
fn run_fits(words: &[u64]) -> bool
    requires { 7 ≤ length words.now }
    ensures { result ≡ run_fits words.now }
{
    words[0] == 1
        && Last::fits(words[1])
        && u8::fits(words[2])
        && u8::fits(words[3])
        && <Option<u32>>::fit(&words[4..])
        && bool::fits(words[6])
}

impl Words<7> for Option<Verdict> {
    ghost to_words = { verdict_words };

    ghost of_words = { verdict_of };

    ghost words_fit = { verdict_fits };

    ghost InTypes = { VerdictIn };

    #[tactic(auto, unfolding(crate::specs::Words::verdict_words))]
    fn words(self) -> [u64; 7] {
        match self {
            Some(v) => {
                let by = v.wrong_by.words();
                [
                    1,
                    v.last.word(),
                    v.wrong_run.word(),
                    v.other_run.word(),
                    by[0],
                    by[1],
                    v.moved.word(),
                ]
            }
            None => [0; 7],
        }
    }

    fn fit(words: &[u64]) -> bool {
        if words[0] == 0 {
            return zeros(&words[1..7]);
        }
        run_fits(words)
    }

    #[tactic(auto, unfolding(crate::specs::Words::verdict_of, crate::specs::Words::run_of))]
    fn from_words(words: &[u64]) -> Option<Verdict> {
        if words[0] == 0 {
            return None;
        }
        Some(Verdict {
            last: Last::from_word(words[1]),
            wrong_run: u8::from_word(words[2]),
            other_run: u8::from_word(words[3]),
            wrong_by: Words::from_words(&words[4..]),
            moved: bool::from_word(words[6]),
        })
    }
}

// ---- stores

// A run of words from a place on: a caller says where it begins, and the run itself where it ends (d).
pub fn put(words: &mut [u64], at: usize, run: &[u64])
    requires { at + length run.now ≤ length words.old }
    ensures { words.new ≡ sets words.old at run.now }
{
    words[at..at + run.len()].copy_from_slice(run);
}
