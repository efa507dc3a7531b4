// Rows lent as plain numbers: 25 words of 64 bits each, so that they cross to C and Rust. A row is opened from its words and closed into them, field by
// field with crate `packing`. `count`, `outside`, `get` and `put` ask nothing of the slice: words that no row was closed as open as a row that question 2 refuses.
// The slice and a row's number in it come together, here and above: so rows are lent, and so links name them (a).
#![tactic(auto)]

ghost use Rattle.std.specs.Prelude.{◌≡◌, ◌&&◌, ◌∷◌, ◌<◌, ◌≤◌, ◌+◌, ◌*◌, leb, length, set, get_or, take, drop};
ghost use Rattle.std.proofs.lemmas.List.Edits.{sets};
ghost use Rattle.rows.specs.Links.{blank};
ghost use Rattle.flat.specs.Words as row;
ghost use Rattle.flat.specs.Words.{words_of_row, closed_of, row_fits, head_fits, row_of, opened_of};
ghost use Rattle.flat.specs.Ranges.{HeardIn, RowIn};
ghost use Rattle.flat.specs.Table.{rows_of};
ghost use Rattle.packing.specs.Words.{most32, id_words};
ghost use Rattle.packing.specs.Ranges.{IdIn};

use heard::Heard;
use packing::{Word, Words};
use receiver::Part;
use rows::Row;
use scans::Links;
use sites::Site;
use verdicts::Verdict;

// ---- a row

// Into a slice that is no shorter than a row, as `put_clock` does: an array would ask more of callers (d).
pub fn put_heard(words: &mut [u64], heard: Heard)
    requires { 25 ≤ length words.old }
    ensures { (words.new ≡ sets words.old 4 (row.heard_words heard)) × HeardIn heard }
{
    packing::put(words, 4, &heard.site.words());
    words[9] = heard.generation.word();
    packing::put(words, 10, &heard.even.words());
    packing::put(words, 12, &heard.odd.words());
}

pub fn put_clock(words: &mut [u64], kept: Option<u64>)
    requires { 25 ≤ length words.old }
    ensures { (words.new ≡ sets words.old 23 (id_words kept)) × IdIn kept }
{
    packing::put(words, 23, &kept.words());
}

// The links, and the clock behind them.
fn put_tail(words: &mut [u64; 25], links: Links, kept: Option<u64>)
    ensures { (words.new ≡ sets words.old 21 (links.prev ∷ links.next ∷ id_words kept)) × (links.prev ≤ most32) × (links.next ≤ most32) × IdIn kept }
{
    words[21] = links.prev.word();
    words[22] = links.next.word();
    put_clock(words, kept);
}

fn close(words: &mut [u64; 25], row: Row)
    ensures { (words.new ≡ closed_of row) × RowIn row }
{
    packing::put(words, 0, &packing::key_words(row.key));
    put_heard(words, row.part.heard);
    packing::put(words, 14, &row.part.verdict.words());
    put_tail(words, Links::from(row), row.part.judged_ms);
}

// A row's generation and links. Here and below a slice of 25 words or more, as in `packing`: an array would ask callers for no more than 25 (d).
fn links_fit(words: &[u64]) -> bool
    requires { 25 ≤ length words.now }
    ensures { result ≡ (leb (get_or words.now 9 0) most32 && (leb (get_or words.now 21 0) most32 && leb (get_or words.now 22 0) most32)) }
{
    u32::fits(words[9]) && u32::fits(words[21]) && u32::fits(words[22])
}

// Its ids and its clock. Asked of a slice that is no shorter than a row, as `row_fits` is: an array would ask more of callers (d).
pub fn numbers_fit(words: &[u64]) -> bool
    requires { 25 ≤ length words.now }
    ensures { result ≡ row.numbers_fit words.now }
{
    <Option<u64>>::fit(&words[10..])
        && <Option<u64>>::fit(&words[12..])
        && <Option<u64>>::fit(&words[23..])
}

// Its key, site, generation and links: any two words are degrees, and any four a key.
pub fn head_fits(words: &[u64]) -> bool
    requires { 25 ≤ length words.now }
    ensures { result ≡ head_fits words.now }
{
    links_fit(words) && <Option<Site>>::fit(&words[4..])
}

pub fn row_fits(words: &[u64]) -> bool
    requires { 25 ≤ length words.now }
    ensures { result ≡ row_fits words.now }
{
    head_fits(words) && numbers_fit(words) && <Option<Verdict>>::fit(&words[14..])
}

// No `From`: `Heard` and `Row` are other crates', so none can stand here or below (d).
fn heard_of(words: &[u64; 25]) -> Heard
    ensures { result ≡ row.heard_of words.now }
{
    Heard {
        site: Words::from_words(&words[4..]),
        generation: u32::from_word(words[9]),
        even: Words::from_words(&words[10..]),
        odd: Words::from_words(&words[12..]),
    }
}

fn row_of(words: &[u64; 25]) -> Row
    ensures { result ≡ row_of words.now }
{
    Row {
        key: packing::key_at(words),
        part: Part {
            heard: heard_of(words),
            verdict: Words::from_words(&words[14..]),
            judged_ms: Words::from_words(&words[23..]),
        },
        prev: u32::from_word(words[21]),
        next: u32::from_word(words[22]),
    }
}

fn junk() -> Row
    ensures { result ≡ row.junk }
{
    Row {
        key: [0u8; 32],
        part: Part {
            heard: Heard {
                site: Some(Site {
                    lat: f64::NAN,
                    lon: f64::NAN,
                    alt_m: None,
                }),
                generation: 0,
                even: None,
                odd: None,
            },
            verdict: None,
            judged_ms: None,
        },
        prev: u32::MAX,
        next: u32::MAX,
    }
}

fn open(words: &[u64; 25]) -> Row
    ensures { result ≡ opened_of words.now }
{
    if row_fits(words) {
        row_of(words)
    } else {
        junk()
    }
}

// ---- the rows of a slice

pub fn count(rows: &[u64]) -> usize
    ensures { result ≡ length (rows_of rows.now) }
{
    let (whole, rest) = rows.as_chunks::<25>();
    if rest.is_empty() { whole.len() } else { 0 }
}

pub fn start_of(at: u32) -> usize
    ensures { result ≡ words_of_row * at }
{
    25 * (at as usize)
}

pub fn end_of(at: u32) -> usize
    ensures { result ≡ words_of_row * at + words_of_row }
{
    25 * (at as usize) + 25
}

// Is this no row's number? Asked of every row of a pass, so without a division.
pub fn outside(rows: &[u64], at: u32) -> bool
    ensures { result ≡ leb (length (rows_of rows.now)) at }
{
    let n = rows.len();
    n % 25 != 0 || n < end_of(at)
}

// A row's words, by both ends: from the first on, a look at a row takes 7 % more (b).
pub fn words_at(rows: &[u64], at: u32) -> &[u64; 25]
    requires { at < length (rows_of rows.now) }
    ensures { result.now ≡ take words_of_row (drop (words_of_row * at) rows.now) }
{
    let a = start_of(at);
    let z = end_of(at);
    rows[a..z].first_chunk().unwrap()
}

// A link's row; the unmade one for a link that is no row's number.
pub fn get(rows: &[u64], at: u32) -> Row
    ensures { result ≡ get_or (rows_of rows.now) at blank }
{
    if outside(rows, at) {
        return rows::unmade();
    }
    open(words_at(rows, at))
}

// A store at a link; none for a link that is no row's number. The row's words are lent here and in `glances`: a function that
// lends them got no proof of what the slice becomes of them (c). That the slice keeps its length, here and in `glances`, relates two states of it: no type holds that (d).
pub fn put(rows: &mut [u64], at: u32, row: Row)
    ensures { (rows_of rows.new ≡ set (rows_of rows.old) at row) × (length rows.new ≡ length rows.old) }
{
    if outside(rows, at) {
        return;
    }
    let (_, rest) = rows.split_at_mut(start_of(at));
    close(rest.first_chunk_mut().unwrap(), row);
}
