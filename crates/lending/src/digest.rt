// The digest of a watch, word by word.
ghost use Rattle.std.specs.Prelude.{◌≡◌, map, length};
ghost use Rattle.rows.specs.Read.{row_is, watch_is};
ghost use Rattle.scans.specs.Ends.{ends_is};
ghost use Rattle.flat.specs.Words.{heard_words};
ghost use Rattle.flat.specs.Table.{rows_of};
ghost use Rattle.lending.specs.Digests as digests;
ghost use Rattle.lending.specs.Digests.{mixed, mixed_all, link_word, distance_of, verdict_six, row_words, rows_words, ends_words, first_hash, digest_of};

use heard::Heard;
use packing::{Word, Words};
use rows::Row;
use verdicts::Verdict;

// h × 1,099,511,628,211 mod 2^64.
#[tactic(auto, unfolding(crate::specs::Digests::times))]
fn times(h: u64) -> u64
    ensures { result ≡ digests.times h }
{
    h.wrapping_mul(1099511628211)
}

fn mix(h: u64, w: u64) -> u64
    ensures { result ≡ mixed h w }
{
    times(h ^ w)
}

// Words one after the other.
fn mix_all(h: u64, words: &[u64]) -> u64
    ensures { result ≡ mixed_all h words.now }
{
    let mut g = h;
    for w in words {
        g = mix(g, *w);
    }
    g
}

// None, the largest u32 as in the words that are lent (a), is 2^64 − 1 in a digest.
#[tactic(auto, unfolding(crate::specs::Digests::link_word))]
fn link_word(n: u32) -> u64
    ensures { result ≡ link_word n }
{
    if scans::is_none(n) {
        return u64::MAX;
    }
    n as u64
}

// ---- a row

fn mix_heard(h: u64, heard: Heard) -> u64
    ensures { result ≡ mixed_all h (heard_words heard) }
{
    let a = mix_all(h, &heard.site.words());
    let b = mix(a, heard.generation.word());
    mix_all(mix_all(b, &heard.even.words()), &heard.odd.words())
}

fn distance(by: Option<u32>) -> u64
    ensures { result ≡ distance_of by }
{
    match by {
        Some(d) => d.word(),
        None => 0,
    }
}

#[tactic(auto, unfolding(crate::specs::Digests::verdict_six))]
fn verdict_six(j: Option<Verdict>) -> [u64; 6]
    ensures { result ≡ verdict_six j }
{
    match j {
        Some(v) => [
            1,
            v.last.word(),
            v.wrong_run.word(),
            v.other_run.word(),
            distance(v.wrong_by),
            v.moved.word(),
        ],
        None => [0; 6],
    }
}

fn mix_row(h: u64, row: Row) -> u64
    ensures { result ≡ mixed_all h (row_words (row_is row)) }
{
    let a = mix_all(h, &packing::key_words(row.key));
    let b = mix_heard(a, row.part.heard);
    let c = mix_all(b, &verdict_six(row.part.verdict));
    let d = mix_all(c, &[link_word(row.prev), link_word(row.next)]);
    mix_all(d, &row.part.judged_ms.words())
}

// ---- the watch

// n is how many rows these are: `flat::count` answers a usize, which a u32, as a row's number is, need not hold. The clause would stay, as a bound (d).
fn mix_rows(h: u64, rows: &[u64], n: u32) -> u64
    requires { n ≡ length (rows_of rows.now) }
    ensures { result ≡ mixed_all h (rows_words (map row_is (rows_of rows.now))) }
{
    let mut g = h;
    for i in 0..n {
        g = mix_row(g, flat::get(rows, i));
    }
    g
}

fn mix_cells(h: u64, cells: &[u32]) -> u64
    ensures { result ≡ mixed_all h cells.now }
{
    let mut g = h;
    for w in cells {
        g = mix(g, w.word());
    }
    g
}

fn mix_ends(h: u64, ends: &[u32; 3]) -> u64
    ensures { result ≡ mixed_all h (ends_words (ends_is ends.now)) }
{
    mix_all(
        h,
        &[link_word(ends[0]), link_word(ends[1]), link_word(ends[2])],
    )
}

#[tactic(auto, unfolding(crate::specs::Digests::first_hash))]
fn first_hash() -> u64
    ensures { result ≡ first_hash }
{
    14695981039346656037
}

// Of n rows, with their cells and ends: the parts of the watch that are in use, cut out of it for this call (d).
pub fn of_all(n: u32, rows: &[u64], cells: &[u32], ends: &[u32; 3]) -> u64
    requires { n ≡ length (rows_of rows.now) }
    ensures { result ≡ digest_of (watch_is (rows_of rows.now) cells.now ends.now) }
{
    let a = mix(first_hash(), n.word());
    let b = mix_ends(a, ends);
    let c = mix_rows(b, rows, n);
    mix_cells(c, cells)
}
