// What is kept around the site that a row claims: which site, how often it moved, and the positions counted in two halves of 12 hours. A claim and a
// position, decided by value; the cells are a slice that is lent.
#![tactic(auto)]

ghost use Rattle.std.specs.Prelude.{◌≡◌, ℕ, ◌≤◌, true, not, List, length, replicate, Ok};
ghost use Rattle.cells.specs.Cells.{empty_word};
ghost use Rattle.measures.specs.Degrees.{in_degrees};
ghost use Rattle.sites.specs.Sites.{held};
ghost use Rattle.heard.specs.Heard as heard;
ghost use Rattle.heard.specs.Answers.{claiming_is, half_before, counting_is, hearing_is};

mod counting;

pub use counting::Counting;
use sites::Site;
use table::Refusal;

// What is kept around the site that a row claims: which site, how often it moved, whose positions each half of the cells counts. A lent row may hold any site: that
// it is within degrees stands in clauses (a).
#[derive(Clone, Copy)]
pub struct Heard {
    pub site: Option<Site>,
    pub generation: u32,
    pub even: Option<u64>,
    pub odd: Option<u64>,
}

// An aircraft's position, as a receiver reports it.
#[derive(Clone, Copy)]
pub struct Position {
    pub lat: f64,
    pub lon: f64,
    pub feet: Option<i32>,
    pub address: u32,
    pub at_ms: u64,
}

// What an accepted claim comes to: what is kept then, and whether it is a move.
#[derive(Clone, Copy)]
pub struct Claiming {
    pub heard: Heard,
    pub moved: bool,
}

// A fresh row's.
pub fn unheard() -> Heard
    ensures { result ≡ heard.unheard }
{
    Heard {
        site: None,
        generation: 0,
        even: None,
        odd: None,
    }
}

// Question 2: the held site is within degrees.
pub fn fits(site: Option<Site>) -> bool
    ensures { result ≡ heard.site_fits site }
{
    site.is_none_or(sites::in_degrees)
}

// The same place: only a given altitude changes.
fn kept_site(h: Heard, old: Site, site: Site) -> Heard
    ensures { result ≡ heard.kept_site h old site }
{
    Heard {
        site: Some(Site {
            alt_m: site.alt_m.or(old.alt_m),
            ..old
        }),
        ..h
    }
}

fn stayed(h: Heard) -> Claiming
    ensures { (l : List ℕ) → claiming_is (Ok result) l ≡ heard.stay h l }
{
    Claiming {
        heard: h,
        moved: false,
    }
}

// Another site, or none: what is kept starts over.
fn moved_to(h: Heard, site: Option<Site>) -> Claiming
    ensures { (l : List ℕ) → claiming_is (Ok result) l ≡ heard.move h site }
{
    Claiming {
        heard: Heard {
            site,
            generation: h.generation.wrapping_add(1),
            even: None,
            odd: None,
        },
        moved: true,
    }
}

fn to_site(h: Heard, site: Site) -> Claiming
    requires { (heard.site_fits h.site ≡ true) × (held site ≡ true) }
    ensures { (l : List ℕ) → claiming_is (Ok result) l ≡ heard.claimed_site h l site h.site }
{
    match h.site {
        Some(old) => {
            if sites::same_place(old, site) {
                return stayed(kept_site(h, old, site));
            }
            moved_to(h, Some(site))
        }
        None => moved_to(h, Some(site)),
    }
}

// No site is claimed: a move, if one was kept. Each arm comes to something else (d).
fn to_none(h: Heard) -> Claiming
    ensures { (l : List ℕ) → claiming_is (Ok result) l ≡ heard.claimed_none h l h.site }
{
    match h.site {
        Some(_) => moved_to(h, None),
        None => stayed(h),
    }
}

// The site claimed now: one more than a kilometre from the one kept for starts what is kept over.
pub fn set_site(h: Heard, site: Option<Site>) -> Result<Claiming, Refusal>
    requires { heard.site_fits h.site ≡ true }
    ensures { (l : List ℕ) → claiming_is result l ≡ heard.claimed h l site }
{
    let Some(s) = site else {
        return Ok(to_none(h));
    };
    if !sites::in_degrees(s) {
        return Err(Refusal::Degrees);
    }
    Ok(to_site(h, s))
}

fn is_even(id: u64) -> bool
    ensures { result ≡ heard.is_even id }
{
    id % 2 == 0
}

fn held_id(even: bool, h: Heard) -> Option<u64>
    ensures { result ≡ heard.held_id even h }
{
    if even { h.even } else { h.odd }
}

fn with_id(even: bool, id: u64, h: Heard) -> Heard
    ensures { result ≡ heard.with_id even id h }
{
    if even {
        Heard {
            even: Some(id),
            ..h
        }
    } else {
        Heard { odd: Some(id), ..h }
    }
}

fn not_older(held: Option<u64>, id: u64) -> bool
    ensures { result ≡ heard.not_older held id }
{
    held.is_none_or(|n| n <= id)
}

fn is_newer(held: Option<u64>, id: u64) -> bool
    ensures { result ≡ not (heard.holds_id held id) }
{
    held != Some(id)
}

// Where a half of a row's cells starts: one of two places, which no conversion of a truth says plainer (d).
fn start_of(even: bool) -> u16
    ensures { (result ≡ heard.start_of even) × (result ≤ 1672) }
{
    if even { 0 } else { 1672 }
}

// A position heard around the site: too late for its half, or counted there.
#[tactic(auto, using(crate::proofs::SiteLaws::counted_is))]
fn heard_at(h: Heard, s: Site, p: Position) -> Result<Counting, Refusal>
    requires { (held s ≡ true) × (in_degrees p.lat p.lon ≡ true) }
    ensures { (l : List ℕ) → hearing_is result l ≡ heard.on_site h l s p (heard.epoch_of p.at_ms) }
{
    let id = p.at_ms / 43200000;
    let even = is_even(id);
    let held = held_id(even, h);
    if not_older(held, id) {
        return Ok(Counting {
            heard: with_id(even, id, h),
            newer: is_newer(held, id),
            start: start_of(even),
            place: sites::place_in(s, p.lat, p.lon),
            low: cells::bucket(p.feet),
            bit: cells::aircraft_bit(p.address),
        });
    }
    Err(Refusal::TooOld)
}

// A position that the receiver heard.
pub fn hear(h: Heard, p: Position) -> Result<Counting, Refusal>
    requires { heard.site_fits h.site ≡ true }
    ensures { (l : List ℕ) → hearing_is result l ≡ heard.positioned h l p }
{
    if measures::degrees::in_degrees(p.lat, p.lon) {
        let s = h.site.ok_or(Refusal::NoSite)?;
        return heard_at(h, s, p);
    }
    Err(Refusal::Degrees)
}

// All cells become empty.
pub fn empty(cells: &mut [u32])
    ensures { cells.new ≡ replicate (length cells.old) empty_word }
{
    cells.fill(cells::empty_word());
}

#[tactic(auto, using(crate::proofs::SiteLaws::half_emptied, crate::proofs::SiteLaws::half_kept))]
fn empty_half(cells: &mut [u32], c: Counting)
    requires { length cells.old ≡ heard.width }
    ensures { cells.new ≡ half_before c cells.old }
{
    if c.newer {
        let a = c.start as usize;
        empty(&mut cells[a..a + 1672]);
    }
}

// One position more in a row's cells.
#[tactic(auto, using(crate::proofs::SiteLaws::place_room, crate::proofs::SiteLaws::counting_is_lem))]
pub fn count(cells: &mut [u32], c: Counting)
    requires { length cells.old ≡ heard.width }
    ensures { cells.new ≡ counting_is c cells.old }
{
    empty_half(cells, c);
    let at = c.start as usize + c.place as usize;
    cells[at] = cells::add_word(cells[at], c.low, c.bit);
}
