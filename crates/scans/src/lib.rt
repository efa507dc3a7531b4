// The two chains of a watch by row numbers alone: their ends, and a scan along a chain, as far as neither asks what a row holds. Crate `rows` adds the row.
#![tactic(auto)]

ghost use Rattle.std.specs.Prelude.{◌≡◌, true, false, cond, ◌-◌, eqb};
ghost use Rattle.table.specs.Rows.{NONE};
ghost use Rattle.scans.specs.Ends.{no_key, ends_of, ends_is, out_ends, linked_ends, with_free, fresh_ends};
ghost use Rattle.scans.specs.Scan.{back_fits, more_of, start_of, came_through, chains_of, look_of, claimable};

use table::Refusal;

// The key that a call is of. A row holds the 32 bytes themselves, as it is lent (a).
#[derive(Clone, Copy)]
pub struct Key {
    pub bytes: [u8; 32],
}

// The key of a look that asks of no row in particular.
pub fn zero_key() -> Key
    ensures { result ≡ no_key }
{
    Key { bytes: [0u8; 32] }
}

// The least and the most recently used row, and the first free one; or none, as `no_row` says it.
#[derive(Clone, Copy)]
pub struct Ends {
    pub head: u32,
    pub tail: u32,
    pub free: u32,
}

// As they are lent: three numbers, in this order.
impl From<[u32; 3]> for Ends {
    ghost from_gives = { λ lent e. ends_of e ≡ ends_is lent };

    fn from(lent: [u32; 3]) -> Ends {
        Ends {
            head: lent[0],
            tail: lent[1],
            free: lent[2],
        }
    }
}

impl From<Ends> for [u32; 3] {
    ghost from_gives = { λ e lent. ends_is lent ≡ ends_of e };

    fn from(e: Ends) -> [u32; 3] {
        [e.head, e.tail, e.free]
    }
}

// A row's links, here and above as they are lent: row numbers, none the largest u32 (a).
#[derive(Clone, Copy)]
pub struct Links {
    pub prev: u32,
    pub next: u32,
}

// ---- numbers of rows: none is the largest u32 here and above, as in the words that are lent and in the Rust (a)

#[tactic(auto, unfolding(table::specs::Rows::NONE))]
pub fn no_row() -> u32
    ensures { result ≡ NONE }
{
    u32::MAX
}

#[tactic(auto, unfolding(table::specs::Rows::NONE))]
pub fn is_none(x: u32) -> bool
    ensures { result ≡ eqb x NONE }
{
    x == u32::MAX
}

// ---- the ends, by value

// x where a is none, else y
fn pick(a: u32, x: u32, y: u32) -> u32
    ensures { result ≡ cond (eqb a NONE) x y }
{
    if is_none(a) { x } else { y }
}

// Without the row that has these links.
pub fn out_ends(e: Ends, out: Links) -> Ends
    ensures { result ≡ out_ends e out.prev out.next }
{
    Ends {
        head: pick(out.prev, out.next, e.head),
        tail: pick(out.next, out.prev, e.tail),
        ..e
    }
}

pub fn linked_ends(e: Ends, i: u32) -> Ends
    ensures { result ≡ linked_ends e i }
{
    Ends {
        head: pick(e.tail, i, e.head),
        tail: i,
        ..e
    }
}

pub fn with_free(e: Ends, n: u32) -> Ends
    ensures { result ≡ with_free e n }
{
    Ends { free: n, ..e }
}

pub fn fresh_ends() -> Ends
    ensures { result ≡ fresh_ends }
{
    let none = no_row();
    Ends {
        head: none,
        tail: none,
        free: 0,
    }
}

// ---- the scan of a chain, and questions 2 and 3

// Where a scan stands, on how many rows it may go, and what it has seen: do the back links fit (asked if `back`), is every part sound, and
// the first row with the key.
#[derive(Clone, Copy)]
pub struct Cursor {
    pub at: u32,
    pub prev: u32,
    pub left: usize,
    pub back: bool,
    pub fits: bool,
    pub sound: bool,
    pub found: Option<u32>,
    pub key: [u8; 32],
}

pub fn more(s: Cursor, n: usize) -> bool
    ensures { result ≡ more_of s n }
{
    s.fits && s.left != 0 && (s.at as usize) < n
}

pub fn back_fits(b: bool, x: u32, p: u32) -> bool
    ensures { result ≡ back_fits b x p }
{
    !b || x == p
}

fn start(n: usize, at: u32, back: bool, key: Key) -> Cursor
    ensures { result ≡ start_of n at back key }
{
    let bytes = key.bytes;
    Cursor {
        at,
        prev: no_row(),
        left: n,
        back,
        fits: true,
        sound: true,
        found: None,
        key: bytes,
    }
}

// Of n rows with these ends, here and below: `chains::look_up` alone has both, and would make a struct of them for its three calls (d).
pub fn used_start(n: usize, e: Ends, key: Key) -> Cursor
    ensures { result ≡ start_of n e.head true key }
{
    start(n, e.head, true, key)
}

pub fn free_start(n: usize, e: Ends, key: Key) -> Cursor
    ensures { result ≡ start_of n e.free false key }
{
    start(n, e.free, false, key)
}

fn came_through(s: Cursor) -> bool
    ensures { result ≡ came_through s }
{
    s.fits && is_none(s.at)
}

// How many of n rows a scan has seen.
fn seen(n: usize, left: usize) -> usize
    ensures { result ≡ n - left }
{
    n.saturating_sub(left)
}

// Question 2, of what both scans have seen.
fn chains_fit(n: usize, tail: u32, a: Cursor, b: Cursor) -> bool
    ensures { result ≡ chains_of n tail a b }
{
    let na = seen(n, a.left);
    let nb = seen(n, b.left);
    came_through(a)
        && came_through(b)
        && na <= n
        && n - na == nb
        && a.prev == tail
        && (na == 0 || nb == 0 || a.prev != b.prev)
        && a.sound
        && b.sound
}

pub fn look_of(n: usize, e: Ends, a: Cursor, b: Cursor) -> Result<u32, Refusal>
    ensures { result ≡ look_of n e.tail a b }
{
    if !chains_fit(n, e.tail, a, b) {
        return Err(Refusal::NotInOrder);
    }
    a.found.ok_or(Refusal::NotHeld)
}

// For calls that are not asked 3 of a key: a claim goes on with the row that has it, or with none; drop-oldest and a tick ask of no key.
pub fn claimable(look: Result<u32, Refusal>) -> Result<Option<u32>, Refusal>
    ensures { result ≡ claimable look }
{
    match look {
        Ok(i) => Ok(Some(i)),
        Err(Refusal::NotHeld) => Ok(None),
        Err(r) => Err(r),
    }
}
