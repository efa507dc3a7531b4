// One row of the lent words without opening it: its links, and what the search for a key asks of it, read from the words that hold them; and stores of
// its links or its part alone. A row with a word out of range is opened whole, and stored whole. A link that is none is the largest u32, as in the words, and rows are a
// slice and a number in it, as in `flat` (a).
#![tactic(auto)]

ghost use Rattle.std.specs.Prelude.{◌≡◌, true, ◌<◌, ◌≤◌, length, set, get_or, drop};
ghost use Rattle.table.specs.Machine.{same};
ghost use Rattle.heard.specs.Heard.{site_fits};
ghost use Rattle.verdicts.specs.Verdict.{verdict_fits};
ghost use Rattle.rows.specs.Read.{fits};
ghost use Rattle.rows.specs.Links.{blank, with_links, with_part, nexted, preved, parted_rows};
ghost use Rattle.flat.specs.Words.{row_fits, row_of, junk, opened_of};
ghost use Rattle.flat.specs.Table.{rows_of};
ghost use Rattle.glances.specs.Glances.{fits_at, links_of, glance_of};
ghost use Rattle.packing.specs.Words.{key_of, site_of, verdict_of};

use measures::degrees;
use packing::{Word, Words};
use receiver::Part;
use rows::Row;
pub use scans::Links;

// What a step along a chain asks of a row: its links, whether its part is sound, and whether it has the key. Flat, since a step takes each of them by itself (d).
#[derive(Clone, Copy)]
pub struct Glance {
    pub prev: u32,
    pub next: u32,
    pub sound: bool,
    pub same: bool,
}

// Is this a row's number, and is every word of the row within its range?
fn fits_at(rows: &[u64], at: u32) -> bool
    ensures { result ≡ fits_at rows.now at }
{
    if flat::outside(rows, at) {
        return false;
    }
    flat::row_fits(flat::words_at(rows, at))
}

// No `From`: `Links` is another crate's, so none can stand here (d).
fn links_of(words: &[u64; 25]) -> Links
    ensures { result ≡ links_of (row_of words.now) }
{
    Links {
        prev: u32::from_word(words[21]),
        next: u32::from_word(words[22]),
    }
}

pub fn links_at(rows: &[u64], at: u32) -> Links
    ensures { result ≡ links_of (get_or (rows_of rows.now) at blank) }
{
    if fits_at(rows, at) {
        return links_of(flat::words_at(rows, at));
    }
    let none = scans::no_row();
    Links {
        prev: none,
        next: none,
    }
}

// Of most rows the first word tells. Both are slices, so that a word is known to be of 64 bits. Of `key[..4] == words[..4]` it stayed open that the words are the
// same where their bytes are (c).
fn has_key(words: &[u64], key: &[u64]) -> bool
    requires { (4 ≤ length key.now) × (4 ≤ length words.now) }
    ensures { result ≡ same (key_of key.now) (key_of words.now) }
{
    key[0] == words[0] && key[1] == words[1] && key[2] == words[2] && key[3] == words[3]
}

// Question 2 of the site and of the verdict, by the words: no site is opened, and no float made of its degrees.
fn site_sound(words: &[u64; 25]) -> bool
    ensures { result ≡ site_fits (site_of (drop 4 words.now)) }
{
    words[4] == 0 || degrees::bits_in_degrees(words[5], words[6])
}

fn verdict_sound(words: &[u64; 25]) -> bool
    ensures { result ≡ verdict_fits (verdict_of (drop 14 words.now)) }
{
    words[14] == 0 || words[18] == 0 || verdicts::is_step(u32::from_word(words[19]))
}

fn sound_at(words: &[u64; 25]) -> bool
    ensures { result ≡ fits (row_of words.now).part }
{
    site_sound(words) && verdict_sound(words)
}

// The four words of a key: `packing::key_words` by the clause that a look asks for (d).
pub fn words_of(key: [u8; 32]) -> [u64; 4]
    ensures { key_of result ≡ key }
{
    packing::key_words(key)
}

fn glance_of(words: &[u64; 25], key: &[u64; 4]) -> Glance
    ensures { result ≡ glance_of (key_of key.now) (row_of words.now) }
{
    let Links { prev, next } = links_of(words);
    Glance {
        prev,
        next,
        sound: sound_at(words),
        same: has_key(words, key),
    }
}

// The same of what a row with a word out of its range opens as.
fn junk_glance(key: &[u64; 4]) -> Glance
    ensures { result ≡ glance_of (key_of key.now) junk }
{
    let none = scans::no_row();
    Glance {
        prev: none,
        next: none,
        sound: false,
        same: has_key(&[0; 4], key),
    }
}

// A look at one row for the key of these four words. The pass of question 2 takes one at every row.
pub fn look_at(rows: &[u64], at: u32, key: &[u64; 4]) -> Glance
    requires { at < length (rows_of rows.now) }
    ensures { result ≡ glance_of (key_of key.now) (get_or (rows_of rows.now) at blank) }
{
    let words = flat::words_at(rows, at);
    if flat::row_fits(words) {
        return glance_of(words, key);
    }
    junk_glance(key)
}

// The length is said, here and below, since a proof of a caller found it in no fact of the array that was lent (c).
fn store_links(words: &mut [u64; 25], links: Links)
    requires { row_fits words.old ≡ true }
    ensures { (opened_of words.new ≡ with_links (opened_of words.old) links.prev links.next) × (length words.new ≡ 25) }
{
    words[21] = links.prev.word();
    words[22] = links.next.word();
}

fn store_part(words: &mut [u64; 25], part: Part)
    requires { row_fits words.old ≡ true }
    ensures { (opened_of words.new ≡ with_part (opened_of words.old) part) × (length words.new ≡ 25) }
{
    flat::put_heard(words, part.heard);
    packing::put(words, 14, &part.verdict.words());
    flat::put_clock(words, part.judged_ms);
}

// A link that is none is no row: nothing is stored there, and nothing opened.
pub fn set_links(rows: &mut [u64], at: u32, links: Links)
    ensures { (rows_of rows.new ≡ set (rows_of rows.old) at (with_links (get_or (rows_of rows.old) at blank) links.prev links.next)) × (length rows.new ≡ length rows.old) }
{
    if flat::outside(rows, at) {
        return;
    }
    if fits_at(rows, at) {
        let (_, rest) = rows.split_at_mut(flat::start_of(at));
        store_links(rest.first_chunk_mut().unwrap(), links);
        return;
    }
    let row = flat::get(rows, at);
    let Links { prev, next } = links;
    flat::put(rows, at, Row { prev, next, ..row });
}

pub fn set_part(rows: &mut [u64], at: u32, part: Part)
    ensures { (rows_of rows.new ≡ parted_rows (rows_of rows.old) at part) × (length rows.new ≡ length rows.old) }
{
    if fits_at(rows, at) {
        let (_, rest) = rows.split_at_mut(flat::start_of(at));
        store_part(rest.first_chunk_mut().unwrap(), part);
        return;
    }
    let row = flat::get(rows, at);
    flat::put(rows, at, Row { part, ..row });
}

pub fn set_next(rows: &mut [u64], at: u32, n: u32)
    ensures { (rows_of rows.new ≡ nexted (rows_of rows.old) at n) × (length rows.new ≡ length rows.old) }
{
    let links = links_at(rows, at);
    set_links(rows, at, Links { next: n, ..links });
}

pub fn set_prev(rows: &mut [u64], at: u32, n: u32)
    ensures { (rows_of rows.new ≡ preved (rows_of rows.old) at n) × (length rows.new ≡ length rows.old) }
{
    let links = links_at(rows, at);
    set_links(rows, at, Links { prev: n, ..links });
}
