// The turn keeper (02, Item 1), once for whatever rows are lent as (`chains::Lent`): each tick names the next k rows in ascending number, going round to 0, and gives the keys of
// those that are used. A row alone does not tell whether it is used, so the used chain is walked once and its rows are marked; then the k rows are passed over.
// The marks are a bool for each number: a lent row has no room for one, and there is no heap (a). Rows, cells, ends and a tick's words come one by one, as C hands them
// over: a struct made for one tick would have to say at its end that it still lends the same three (d); a row is named by its number among those that are lent (a).
#![tactic(auto)]

ghost use Rattle.std.specs.Prelude.{◌≡◌, List, map, ℕ, ◌+◌, ◌*◌, ◌<◌, ◌≤◌, length, get_or, true, Some, Ok};
ghost use Rattle.std.proofs.lemmas.List.Edits.{sets};
ghost use Rattle.table.specs.Questions.{chain};
ghost use Rattle.receiver.specs.Calls.{unmade_part};
ghost use Rattle.rows.specs.Links.{blank};
ghost use Rattle.rows.specs.Read.{form, row_is, watch_is};
ghost use Rattle.turns.specs.Turn.{start_of, following, question8, turn_on};
ghost use Rattle.turns.specs.Passes.{mark_all, count_after, list_after, passed, keys_long};

use chains::Lent;
use scans::Ends;
use table::Refusal;

// How many keys a tick gave, and the next row number.
#[derive(Clone, Copy)]
pub struct Turned {
    pub count: u32,
    pub next: u32,
}

// ---- row numbers

pub fn start(n: usize, next: u32) -> u32
    ensures { result ≡ start_of n next }
{
    if (next as usize) < n { next } else { 0 }
}

// No remainder by n: of a number past the rows the next is past them too (d).
pub fn following_row(n: usize, at: u32) -> u32
    requires { at < 4096 }
    ensures { result ≡ following n at }
{
    let t = at + 1;
    if t as usize == n { 0 } else { t }
}

// Question 8: k rows of n, and a list of so many bytes.
#[tactic(auto, unfolding(crate::specs::Turn::question8))]
pub fn may_turn(n: usize, k: u32, bytes: usize) -> bool
    ensures { (list : List ℕ) → length list ≡ bytes → result ≡ question8 n k list }
{
    let most = k as usize;
    1 <= most && most <= n && most <= bytes / 32
}

// ---- the passes

// The rows of the used chain are marked: a walk along it, where the row that is read names the next. n is their number: `count` divides (d).
fn mark_used<W: Lent>(rows: &[W], n: usize, head: u32, marks: &mut [bool; 4096])
    requires { (n ≡ length (W.rows_in rows.now)) × (n ≤ 4096) }
    ensures { (used : List ℕ) → chain unmade_part (map row_is (W.rows_in rows.now)) n head ≡ Some used → marks.new ≡ mark_all used marks.old }
{
    let mut at = head;
    for done in 0..n {
        if W::outside(rows, at) {
            return;
        }
        marks[at as usize] = true;
        at = W::links_at(rows, at).next;
    }
}

// A key in the list, from this byte on: C lends one slice of bytes for all keys (a).
pub fn put_key(list: &mut [u8], at: usize, key: [u8; 32])
    requires { at + 32 ≤ length list.old }
    ensures { list.new ≡ sets list.old at key }
{
    list[at..at + 32].copy_from_slice(&key);
}

// The key of row `at`, if it is used, after the first `count` keys of the list; how many there are then.
fn give<W: Lent>(rows: &[W], at: u32, used: bool, count: u32, list: &mut [u8]) -> u32
    requires { (count < 4294967295) × (32 * count + 32 ≤ length list.old) }
    ensures { (result ≡ count_after used count) × (list.new ≡ list_after used (get_or (W.rows_in rows.now) at blank).key count list.old) × (used ≡ true → length (get_or (W.rows_in rows.now) at blank).key ≡ 32) }
{
    if used {
        let row = W::get(rows, at);
        let key = row.key;
        put_key(list, 32 * (count as usize), key);
        return count + 1;
    }
    count
}

// k rows of n from number `first` on: the keys of the marked ones, from the start of the list. A walk round the rows, which may pass the last and go on at 0.
fn pass<W: Lent>(
    rows: &[W],
    marks: &[bool; 4096],
    n: usize,
    first: u32,
    k: u32,
    list: &mut [u8],
) -> Turned
    requires { (n ≤ 4096) × (first < n) × (32 * k ≤ length list.old) }
    ensures { (record { answer = Ok result; list = list.new } ≡ passed marks.now (W.rows_in rows.now) n k first 0 list.old) × keys_long marks.now (W.rows_in rows.now) n k first }
{
    let mut at = first;
    let mut count: u32 = 0;
    for done in 0..k {
        count = give(rows, at, marks[at as usize], count, list);
        at = following_row(n, at);
    }
    Turned { count, next: at }
}

// ---- a tick

// A tick: the next k rows from number `next` on, and the keys of the used ones in the list, 32 bytes each.
pub fn turn<W: Lent>(
    rows: &[W],
    cells: &[u32],
    ends: &[u32; 3],
    next: u32,
    k: u32,
    list: &mut [u8],
) -> Result<Turned, Refusal>
    ensures { record { answer = result; list = list.new } ≡ turn_on form (watch_is (W.rows_in rows.now) cells.now ends.now) next k list.old }
{
    let e = Ends::from(*ends);
    let look = chains::look_up(rows, cells.len(), e, scans::zero_key());
    scans::claimable(look)?;
    let n = W::count(rows);
    if !may_turn(n, k, list.len()) {
        return Err(Refusal::Turn);
    }
    let mut marks = [false; 4096];
    mark_used(rows, n, e.head, &mut marks);
    Ok(pass(rows, &marks, n, start(n, next), k, list))
}
