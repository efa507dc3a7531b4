// The fields of a line, read in turn: one field, or a group of them. The first that is wrong is what reading comes to.
// The kinds of lines stand above, in `grammar`.
#![tactic(auto)]

ghost use Rattle.std.specs.Prelude.{◌≡◌, ◌≤◌, ◌^◌, ◌-◌, ℕ, List, Option, IfOk, IfSome};
ghost use Rattle.numbers.specs.Numbers.{whole_of, signed_of};
ghost use Rattle.reals.specs.Reals.{real_of};
ghost use Rattle.readers.specs.declared.Fault.TheVariants.{Stray};
ghost use Rattle.readers.specs.Fields.{start_at, parts_of, left, left_bytes, left_some, as_last, as_flag, as_row, piece, past, unless_dash, field, optional, feet, key, ended, two, four, site_from, claim, site_parts, site, verdict_parts, verdict, heard, part, link, links, clock};

use fields::Stray;
use heard::Heard;
use sites::Site;
use std::marker::Model;
use verdicts::{Last, Verdict};

// A field's name, for what is said of a line that cannot be read.
#[derive(Clone, Copy, Debug, PartialEq, Eq)]
pub enum Name {
    A,
    Address,
    After,
    Aircraft,
    Alt,
    AtMs,
    B,
    Before,
    Word,
    Cells,
    Distance,
    Even,
    Feet,
    First,
    Free,
    Generation,
    K,
    Key,
    Last,
    Lat,
    Lat1,
    Lat2,
    Lon,
    Lon1,
    Lon2,
    Moved,
    Next,
    NowMs,
    Number,
    Odd,
    Others,
    Room,
    Rows,
    Site,
    Value,
    Verdict,
    Wrongs,
    Now,
}

// Why a line cannot be read, or not be done.
#[derive(Clone, Copy, Debug, PartialEq, Eq)]
pub enum Fault {
    Missing(Name),
    NotNumber(Name),
    NotKey,
    Extra(Name),
    Stray { sep: u8 },
    StrayReturn,
    TooLong,
    // The word that is no call ends at `end`.
    Unknown { end: usize },
    TooManyRows,
    TooManyCells,
    NoSuchRow,
    NoSuchCell,
}

impl From<Stray> for Fault {
    ghost from_gives = { λ s e. e ≡ Stray s.sep };

    fn from(s: Stray) -> Fault {
        Fault::Stray { sep: s.sep }
    }
}

// Where reading stands in a text: the next field starts at `at`, and a `sep` ends it.
#[derive(Drop)]
pub struct Reader<'a> {
    text: &'a [u8],
    at: usize,
    sep: u8,
}

impl<'a> Model for Reader<'a> {
    ghost use Rattle.readers.specs.Reading.{Reading};

    ghost Value = { Reading };

    ghost view = { λ r. record { text = r.text.now; at = r.at; sep = r.sep } };
}

// What one field can be read into.
pub trait FromField {
    ghost reads: { List ℕ → Option Self };

    fn from_field(s: &[u8]) -> Option<Self>
        ensures { result ≡ reads s.now };
}

impl FromField for u8 {
    ghost reads = { whole_of 255 };

    #[tactic(auto, using(numbers::proofs::Values::whole_within))]
    fn from_field(s: &[u8]) -> Option<u8> {
        let n = numbers::read_whole(s, 255)?;
        Some(n as u8)
    }
}

impl FromField for u32 {
    ghost reads = { whole_of (2 ^ 32 - 1) };

    #[tactic(auto, using(numbers::proofs::Values::whole_within))]
    fn from_field(s: &[u8]) -> Option<u32> {
        let n = numbers::read_whole(s, 4294967295)?;
        Some(n as u32)
    }
}

impl FromField for u64 {
    ghost reads = { whole_of (2 ^ 64 - 1) };

    fn from_field(s: &[u8]) -> Option<u64> {
        numbers::read_whole(s, u64::MAX)
    }
}

impl FromField for i32 {
    ghost reads = { signed_of };

    fn from_field(s: &[u8]) -> Option<i32> {
        numbers::read_signed(s)
    }
}

impl FromField for f64 {
    ghost reads = { real_of };

    fn from_field(s: &[u8]) -> Option<f64> {
        reals::read_real(s)
    }
}

// 0, 1, 2: what a row keeps of its last judging. As in `packing`: the numbers are the line's and the words', and `verdicts` knows none (d).
impl FromField for Last {
    ghost reads = { as_last };

    fn from_field(s: &[u8]) -> Option<Last> {
        match numbers::read_whole(s, 2)? {
            0 => Some(Last::Unjudged),
            1 => Some(Last::Fits),
            _ => Some(Last::Wrong),
        }
    }
}

// 0 or 1
impl FromField for bool {
    ghost reads = { as_flag };

    fn from_field(s: &[u8]) -> Option<bool> {
        let n = numbers::read_whole(s, 1)?;
        Some(n == 1)
    }
}

// A row's number: the largest u32 is no row's.
pub struct RowNumber(pub u32);

impl FromField for RowNumber {
    ghost reads = { as_row };

    #[tactic(auto, using(numbers::proofs::Values::whole_within))]
    fn from_field(s: &[u8]) -> Option<RowNumber> {
        let n = numbers::read_whole(s, 4294967294)?;
        Some(RowNumber(n as u32))
    }
}

impl<'a> Reader<'a> {
    pub fn new(text: &'a [u8], at: usize, sep: u8) -> Self
        ensures { result ≡ start_at text.now at sep }
    {
        Reader { text, at, sep }
    }

    // The parts of a field, which commas separate.
    fn parts(text: &'a [u8]) -> Self
        ensures { result ≡ parts_of text.now }
    {
        Reader::new(text, 0, b',')
    }

    // The next field's bytes.
    #[tactic(auto, unfolding(crate::specs::Fields::piece))]
    fn piece(&mut self, name: Name) -> Result<&'a [u8], Fault>
        ensures comes_to { left_bytes result self.new ≡ piece name self.old }
        ensures stands { self.new ≡ past self.old }
    {
        let Some(f) = fields::next_field(self.text, self.at, self.sep)? else {
            return Err(Fault::Missing(name));
        };
        self.at = f.next;
        Ok(f.bytes)
    }

    // The same, none where they are `-`.
    #[tactic(auto, using(fields::proofs::Lines::same_is), unfolding(crate::specs::Fields::unless_dash))]
    fn unless_dash(&mut self, name: Name) -> Result<Option<&'a [u8]>, Fault>
        ensures comes_to { left_some result self.new ≡ unless_dash name self.old }
        ensures stands { self.new ≡ past self.old }
    {
        let s = self.piece(name)?;
        if s == b"-".as_slice() {
            return Ok(None);
        }
        Ok(Some(s))
    }

    // What the next field says.
    #[tactic(auto, unfolding(crate::specs::Fields::field))]
    pub fn field<T: FromField>(&mut self, name: Name) -> Result<T, Fault>
        ensures comes_to { left result self.new ≡ field T.reads name self.old }
        ensures stands { self.new ≡ past self.old }
    {
        let said = self.piece(name)?;
        T::from_field(said).ok_or(Fault::NotNumber(name))
    }

    // The same, none where it is `-`.
    #[tactic(auto, unfolding(crate::specs::Fields::optional))]
    pub fn optional<T: FromField>(&mut self, name: Name) -> Result<Option<T>, Fault>
        ensures comes_to { left result self.new ≡ optional T.reads name self.old }
        ensures stands { self.new ≡ past self.old }
    {
        let Some(s) = self.unless_dash(name)? else {
            return Ok(None);
        };
        Ok(Some(T::from_field(s).ok_or(Fault::NotNumber(name))?))
    }

    // A decimal number up to `most`, and the same or none where it is `-`.
    #[tactic(auto, using(numbers::proofs::Values::whole_within), unfolding(crate::specs::Fields::field))]
    pub fn whole(&mut self, most: u64, name: Name) -> Result<u64, Fault>
        ensures comes_to { left result self.new ≡ field (whole_of most) name self.old }
        ensures most { IfOk result (λ n. n ≤ most) }
        ensures stands { self.new ≡ past self.old }
    {
        let digits = self.piece(name)?;
        numbers::read_whole(digits, most).ok_or(Fault::NotNumber(name))
    }

    #[tactic(auto, using(numbers::proofs::Values::whole_within), unfolding(crate::specs::Fields::optional))]
    pub fn maybe(&mut self, most: u64, name: Name) -> Result<Option<u64>, Fault>
        ensures comes_to { left result self.new ≡ optional (whole_of most) name self.old }
        ensures most { IfOk result (λ m. IfSome m (λ n. n ≤ most)) }
        ensures stands { self.new ≡ past self.old }
    {
        let Some(written) = self.unless_dash(name)? else {
            return Ok(None);
        };
        let n = numbers::read_whole(written, most).ok_or(Fault::NotNumber(name))?;
        Ok(Some(n))
    }

    // FEET, or none.
    pub fn feet(&mut self) -> Result<Option<i32>, Fault>
        ensures comes_to { left result self.new ≡ feet self.old }
        ensures stands { self.new ≡ past self.old }
    {
        self.optional(Name::Feet)
    }

    #[tactic(auto, unfolding(crate::specs::Fields::key))]
    pub fn key(&mut self) -> Result<[u8; 32], Fault>
        ensures comes_to { left result self.new ≡ key self.old }
        ensures stands { self.new ≡ past self.old }
    {
        let s = self.piece(Name::Key)?;
        keys::read_key(s).ok_or(Fault::NotKey)
    }

    // Nothing follows the last field.
    #[tactic(auto, unfolding(crate::specs::Fields::ended))]
    pub fn ended(&mut self, last: Name) -> Result<(), Fault>
        ensures comes_to { left result self.new ≡ ended last self.old }
        ensures stands { self.new ≡ self.old }
    {
        match fields::next_field(self.text, self.at, self.sep)? {
            Some(_) => Err(Fault::Extra(last)),
            None => Ok(()),
        }
    }

    // ---- several fields

    // Two real numbers. Not one with `links`: a link is a row number or `-` (d).
    #[tactic(auto, unfolding(crate::specs::Fields::two))]
    pub fn two(&mut self, first: Name, second: Name) -> Result<(f64, f64), Fault>
        ensures comes_to { left result self.new ≡ two first second self.old }
        ensures kept { (self.new.text ≡ self.old.text) × (self.new.sep ≡ self.old.sep) }
    {
        let a = self.field(first)?;
        let b = self.field(second)?;
        Ok((a, b))
    }

    // LAT1 LON1 LAT2 LON2: four, as `sites::place` takes them (a).
    #[tactic(auto, unfolding(crate::specs::Fields::four))]
    pub fn four(&mut self) -> Result<(f64, f64, f64, f64), Fault>
        ensures comes_to { left result self.new ≡ four self.old }
        ensures kept { (self.new.text ≡ self.old.text) × (self.new.sep ≡ self.old.sep) }
    {
        let (a, b) = self.two(Name::Lat1, Name::Lon1)?;
        let (c, d) = self.two(Name::Lat2, Name::Lon2)?;
        Ok((a, b, c, d))
    }

    // LON ALT|-, behind LAT
    #[tactic(auto, unfolding(crate::specs::Fields::site_from))]
    fn site_from(&mut self, lat: f64) -> Result<Site, Fault>
        ensures comes_to { left result self.new ≡ site_from lat self.old }
        ensures kept { (self.new.text ≡ self.old.text) × (self.new.sep ≡ self.old.sep) }
    {
        let lon = self.field(Name::Lon)?;
        let alt_m = self.optional(Name::Alt)?;
        Ok(Site { lat, lon, alt_m })
    }

    // A claim's site: `-`, or LAT LON ALT|-.
    #[tactic(auto, unfolding(crate::specs::Fields::claim))]
    pub fn claim(&mut self) -> Result<Option<Site>, Fault>
        ensures comes_to { left result self.new ≡ claim self.old }
        ensures kept { (self.new.text ≡ self.old.text) × (self.new.sep ≡ self.old.sep) }
    {
        let Some(lat) = self.optional(Name::Lat)? else {
            return Ok(None);
        };
        Ok(Some(self.site_from(lat)?))
    }

    // LAT,LON,ALT|- and no more.
    #[tactic(auto, unfolding(crate::specs::Fields::site_parts))]
    fn site_parts(&mut self) -> Result<Site, Fault>
        ensures { left result self.new ≡ site_parts self.old }
    {
        let lat = self.field(Name::Lat)?;
        let site = self.site_from(lat)?;
        self.ended(Name::Alt)?;
        Ok(site)
    }

    // A row's site. Not one with `verdict`: what reads the parts would come as a closure with its contract (d).
    #[tactic(auto, unfolding(crate::specs::Fields::site))]
    pub fn site(&mut self) -> Result<Option<Site>, Fault>
        ensures comes_to { left result self.new ≡ site self.old }
        ensures stands { self.new ≡ past self.old }
    {
        let Some(s) = self.unless_dash(Name::Site)? else {
            return Ok(None);
        };
        Ok(Some(Reader::parts(s).site_parts()?))
    }

    // LAST,WRONGS,OTHERS,DISTANCE|-,MOVED and no more.
    #[tactic(auto, unfolding(crate::specs::Fields::verdict_parts))]
    fn verdict_parts(&mut self) -> Result<Verdict, Fault>
        ensures { left result self.new ≡ verdict_parts self.old }
    {
        let last = self.field(Name::Last)?;
        let wrong_run = self.field(Name::Wrongs)?;
        let other_run = self.field(Name::Others)?;
        let wrong_by = self.optional(Name::Distance)?;
        let moved = self.field(Name::Moved)?;
        self.ended(Name::Moved)?;
        Ok(Verdict {
            last,
            wrong_run,
            other_run,
            wrong_by,
            moved,
        })
    }

    // A row's verdict.
    #[tactic(auto, unfolding(crate::specs::Fields::verdict))]
    pub fn verdict(&mut self) -> Result<Option<Verdict>, Fault>
        ensures comes_to { left result self.new ≡ verdict self.old }
        ensures stands { self.new ≡ past self.old }
    {
        let Some(s) = self.unless_dash(Name::Verdict)? else {
            return Ok(None);
        };
        Ok(Some(Reader::parts(s).verdict_parts()?))
    }

    // SITE GEN EVEN ODD
    #[tactic(auto, unfolding(crate::specs::Fields::heard))]
    fn heard(&mut self) -> Result<Heard, Fault>
        ensures comes_to { left result self.new ≡ heard self.old }
        ensures kept { (self.new.text ≡ self.old.text) × (self.new.sep ≡ self.old.sep) }
    {
        let site = self.site()?;
        let generation = self.field(Name::Generation)?;
        let even = self.optional(Name::Even)?;
        let odd = self.optional(Name::Odd)?;
        Ok(Heard {
            site,
            generation,
            even,
            odd,
        })
    }

    // SITE GEN EVEN ODD VERDICT
    #[tactic(auto, unfolding(crate::specs::Fields::part))]
    pub fn part(&mut self) -> Result<(Heard, Option<Verdict>), Fault>
        ensures comes_to { left result self.new ≡ part self.old }
        ensures kept { (self.new.text ≡ self.old.text) × (self.new.sep ≡ self.old.sep) }
    {
        let heard = self.heard()?;
        let verdict = self.verdict()?;
        Ok((heard, verdict))
    }

    // A row number, or the largest u32 for none, as it is lent (a).
    #[tactic(auto, unfolding(crate::specs::Fields::link))]
    pub fn link(&mut self, name: Name) -> Result<u32, Fault>
        ensures comes_to { left result self.new ≡ link name self.old }
        ensures stands { self.new ≡ past self.old }
    {
        match self.optional(name)? {
            Some(RowNumber(n)) => Ok(n),
            None => Ok(u32::MAX),
        }
    }

    // BEFORE AFTER
    #[tactic(auto, unfolding(crate::specs::Fields::links))]
    pub fn links(&mut self) -> Result<(u32, u32), Fault>
        ensures comes_to { left result self.new ≡ links self.old }
        ensures kept { (self.new.text ≡ self.old.text) × (self.new.sep ≡ self.old.sep) }
    {
        let prev = self.link(Name::Before)?;
        let next = self.link(Name::After)?;
        Ok((prev, next))
    }

    // NOW, which may be missing.
    #[tactic(auto, unfolding(crate::specs::Fields::clock))]
    pub fn clock(&mut self) -> Result<Option<u64>, Fault>
        ensures comes_to { left result self.new ≡ clock self.old }
        ensures stands { self.new ≡ past self.old }
    {
        match fields::next_field(self.text, self.at, self.sep) {
            Ok(None) => Ok(None),
            _ => self.optional(Name::Now),
        }
    }
}
