// A cell of the siting watch: how many positions fell in it, the lowest altitude bucket, which aircraft. How a cell
// is packed into a word is known here alone, but that `view::heard_among` lays words over each other and asks that for its count.
#![tactic(auto, unfolding(crate::specs::Cells::packed, crate::specs::Cells::count_of, crate::specs::Cells::low_of, crate::specs::Cells::bits_of, crate::specs::Cells::empty_word, crate::specs::Cells::added, crate::specs::Cells::added_word, crate::specs::Cells::merge, crate::specs::Cells::merged_word, crate::specs::Cells::aircraft_bit, crate::specs::Cells::ceiling))]

ghost use Rattle.std.specs.Prelude.{◌≡◌, ltb};
ghost use Rattle.cells.specs.Cells.{count_of, low_of, bits_of, occupied_word, unpacked, packed, empty_word, added, added_word, merge, merged_word, bucket_of, aircraft_bit, ceiling};

use floats::horizon;

#[derive(Clone, Copy)]
pub struct Cell {
    pub count: u8,
    pub low: u8,
    pub aircraft: u16,
}

impl Cell {
    // 01 names the constant among its forms (a), and `empty` gives it; rows hold packed cells, which ask `empty_word` and `occupied`.
    pub const EMPTY: Cell = Cell {
        count: 0,
        low: 255,
        aircraft: 0,
    };

    pub fn empty() -> Cell
        ensures { result ≡ unpacked empty_word }
    {
        Cell::EMPTY
    }

    // No `From<u32>`, nor its way back: a word is a packed cell, and the names say so (d).
    pub fn unpack(w: u32) -> Cell
        ensures { result ≡ unpacked w }
    {
        Cell {
            count: count_of(w) as u8,
            low: low_of(w) as u8,
            aircraft: bits_of(w) as u16,
        }
    }

    // As 01 writes it. Put together of bytes, the aircraft bits would have to be cut in two first (d).
    pub fn pack(self) -> u32
        ensures { result ≡ packed self }
    {
        (self.count as u32) + 256 * (self.low as u32) + 65536 * (self.aircraft as u32)
    }

    // One position more, of an aircraft bit, in a bucket.
    pub fn add(self, low: u8, aircraft: u16) -> Cell
        ensures { result ≡ added self low aircraft }
    {
        self.merged(Cell {
            count: 1,
            low,
            aircraft,
        })
    }

    pub fn merged(self, other: Cell) -> Cell
        ensures { result ≡ merge self other }
    {
        Cell {
            count: self.count.saturating_add(other.count),
            low: self.low.min(other.low),
            aircraft: self.aircraft | other.aircraft,
        }
    }

    pub fn occupied(self) -> bool
        ensures { result ≡ ltb 0 self.count }
    {
        self.count > 0
    }

    // A bucket of 255 is none. It is above every other, so the lower of two is `min`: an Option in the cell would need a case more (d).
    pub fn ceiling_m(self) -> Option<f64>
        ensures { result ≡ ceiling self.low }
    {
        if self.low == 255 {
            return None;
        }
        Some(horizon::ceiling_m(self.low))
    }
}

// The empty cell, packed.
pub fn empty_word() -> u32
    ensures { result ≡ empty_word }
{
    65280
}

// The positions of a packed cell.
pub fn count_of(w: u32) -> u32
    ensures { result ≡ count_of w }
{
    w % 256
}

// The lowest bucket of a packed cell.
pub fn low_of(w: u32) -> u32
    ensures { result ≡ low_of w }
{
    w / 256 % 256
}

// The aircraft bits of a packed cell.
pub fn bits_of(w: u32) -> u32
    ensures { result ≡ bits_of w }
{
    w / 65536 % 65536
}

pub fn occupied(w: u32) -> bool
    ensures { result ≡ occupied_word w }
{
    count_of(w) > 0
}

// One position more in a packed cell.
pub fn add_word(w: u32, low: u8, aircraft: u16) -> u32
    ensures { result ≡ added_word w low aircraft }
{
    Cell::unpack(w).add(low, aircraft).pack()
}

// Two packed cells merged.
pub fn merged_word(a: u32, b: u32) -> u32
    ensures { result ≡ merged_word a b }
{
    Cell::unpack(a).merged(Cell::unpack(b)).pack()
}

// The altitude bucket of `feet`: steps of 500, the last one for all above, and one more, 255, for none: 01 gives it 8 bits of a cell (a).
pub fn bucket(feet: Option<i32>) -> u8
    ensures { result ≡ bucket_of feet }
{
    match feet {
        Some(f) => (f.max(0) / 500).min(254) as u8,
        None => 255,
    }
}

// The one of sixteen bits that an aircraft's address is kept as.
pub fn aircraft_bit(address: u32) -> u16
    ensures { result ≡ aircraft_bit address }
{
    1u16 << (address.wrapping_mul(0x9E3779B1) >> 28)
}
