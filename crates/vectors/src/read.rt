// The words of a line, and what a vector's words say.
ghost use Rattle.std.specs.Prelude.{◌≡◌, ◌<◌, IfOk};
ghost use Rattle.vectors.specs.Lines.{first_word, rest_words, noted, whole_in, number_in, metres_in, ended, word_of, cell_of, row_of};

use probes::row;
use sites::Site;

// A line that cannot be read.
#[derive(Clone, Copy)]
pub struct Unread;

// What a line sets a cell to.
#[derive(Clone, Copy)]
pub struct Setting {
    pub at: usize,
    pub word: u32,
}

// What is judged beside the cells, and the stored answer: the list stores the number that C is given (a).
#[derive(Clone, Copy)]
pub struct Row {
    pub even: Option<u64>,
    pub odd: Option<u64>,
    pub site: Option<Site>,
    pub now_ms: u64,
    pub aircraft: u64,
    pub answer: u64,
}

// The words of a line that were not taken yet. They are separated by single spaces; past the last one they are empty.
// Not `readers::Reader`: a stray space is no fault here, and no fault is named (d).
// What a method takes off relates two states of them, so each says it: no field holds it (d).
#[derive(Clone, Copy)]
struct Words<'a> {
    rest: &'a [u8],
}

// A number that was read, or `-` for none.
#[tactic(auto, using(fields::proofs::Lines::same_is), unfolding(crate::specs::Lines::noted))]
fn noted<T: Copy>(word: &[u8], read: Option<T>) -> Result<Option<T>, Unread>
    ensures { result ≡ noted word.now read }
{
    if word == b"-".as_slice() {
        return Ok(None);
    }
    Ok(Some(read.ok_or(Unread)?))
}

pub fn whole_in(word: &[u8]) -> Result<Option<u64>, Unread>
    ensures { result ≡ whole_in word.now }
{
    noted(word, numbers::read_whole(word, u64::MAX))
}

fn metres_in(word: &[u8]) -> Result<Option<i32>, Unread>
    ensures { result ≡ metres_in word.now }
{
    noted(word, numbers::read_signed(word))
}

impl<'a> Words<'a> {
    fn of(line: &'a [u8]) -> Words<'a>
        ensures { result.rest.now ≡ line.now }
    {
        Words { rest: line }
    }

    #[tactic(auto, using(fields::proofs::Lines::find_le))]
    fn next(&mut self) -> &'a [u8]
        ensures word { result.now ≡ first_word self.old.rest.now }
        ensures rest { self.new.rest.now ≡ rest_words self.old.rest.now }
    {
        let line = self.rest;
        let space = fields::find(line, b' ');
        self.rest = fields::part(line, space + 1, line.len());
        fields::part(line, 0, space)
    }

    fn whole(&mut self) -> Result<Option<u64>, Unread>
        ensures word { result ≡ whole_in (first_word self.old.rest.now) }
        ensures rest { self.new.rest.now ≡ rest_words self.old.rest.now }
    {
        whole_in(self.next())
    }

    // A number, where `-` stands for 0.
    fn number(&mut self) -> Result<u64, Unread>
        ensures word { result ≡ number_in (first_word self.old.rest.now) }
        ensures rest { self.new.rest.now ≡ rest_words self.old.rest.now }
    {
        Ok(self.whole()?.unwrap_or(0))
    }

    // No word is left.
    fn end(&mut self) -> Result<(), Unread>
        ensures { result ≡ ended (first_word self.old.rest.now) }
    {
        if self.next().len() == 0 {
            Ok(())
        } else {
            Err(Unread)
        }
    }
}

// The first word of a line, which says what it is.
#[tactic(auto, unfolding(crate::specs::Lines::word_of))]
pub fn first(t: &[u8]) -> &[u8]
    ensures { result.now ≡ word_of 0 t.now }
{
    Words::of(t).next()
}

// cell I WORD, and no more
#[tactic(auto, unfolding(crate::specs::Lines::word_of))]
pub fn cell_in(t: &[u8]) -> Result<Setting, Unread>
    ensures is { result ≡ cell_of t.now }
    ensures inside { IfOk result (λ s. s.at < 3344) }
{
    let mut words = Words::of(t);
    words.next();
    let at = words.number()?;
    let word = words.number()?;
    words.end()?;
    if at >= 3344 || word >= 4294967296 {
        return Err(Unread);
    }
    Ok(Setting {
        at: at as usize,
        word: word as u32,
    })
}

// judging EVEN ODD SITE ALT NOW_MS AIRCRAFT ANSWER, and no more
#[tactic(auto, unfolding(crate::specs::Lines::word_of))]
pub fn row_in(t: &[u8]) -> Result<Row, Unread>
    ensures { result ≡ row_of t.now }
{
    let mut words = Words::of(t);
    words.next();
    let even = words.whole()?;
    let odd = words.whole()?;
    let site = words.whole()?;
    let alt_m = metres_in(words.next())?;
    let now_ms = words.number()?;
    let aircraft = words.number()?;
    let answer = words.number()?;
    words.end()?;
    Ok(Row {
        even,
        odd,
        site: site.and(Some(row::without_degrees(alt_m))),
        now_ms,
        aircraft,
        answer,
    })
}
