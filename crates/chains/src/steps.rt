// The steps of crate `rows` on the chains of a watch. An end or a link that is none is the largest u32, as it is lent (a).
ghost use Rattle.std.specs.Prelude.{◌≡◌};
ghost use Rattle.rows.specs.Links.{unlinked_rows, unlinked_ends, linked_rows, released_rows, released_ends, touched_rows, touched_ends, marked_rows, marked_ends, room_rows, room_ends, taken_rows, taken_ends, entered_rows, entered_ends, seat_of, seated_rows};
ghost use Rattle.scans.specs.Ends.{linked_ends};
ghost use Rattle.chains.specs.Lent.{Become};

use crate::Lent;
use receiver::Part;
use rows::Seat;
use scans::{Ends, Key, Links};

// The chains of a watch: its rows, and where the chains begin and end. A step that reads a row takes the rows out of the field first: of rows read through
// the field the check knew how many there are, and not what they hold (c).
#[derive(Drop)]
pub struct Chains<'a, W> {
    pub rows: &'a mut [W],
    pub ends: Ends,
}

impl<'a, W: Lent> Chains<'a, W> {
    // Takes row i out of the used chain, leaving its part.
    fn unlink(&mut self, i: u32)
        ensures ends { self.new.ends ≡ unlinked_ends (W.rows_in self.old.rows.now) self.old.ends i }
        ensures rows { Become W.rows_in self.old.rows self.new.rows (unlinked_rows (W.rows_in self.old.rows.now) i) }
    {
        let rows = &mut *self.rows;
        let l = W::links_at(rows, i);
        W::set_next(rows, l.prev, l.next);
        W::set_prev(rows, l.next, l.prev);
        self.ends = scans::out_ends(self.ends, l);
    }

    // Puts row i last in the used chain: the most recently used.
    fn link_last(&mut self, i: u32)
        ensures ends { self.new.ends ≡ linked_ends self.old.ends i }
        ensures rows { Become W.rows_in self.old.rows self.new.rows (linked_rows (W.rows_in self.old.rows.now) self.old.ends i) }
    {
        let links = Links {
            prev: self.ends.tail,
            next: scans::no_row(),
        };
        W::set_links(self.rows, i, links);
        W::set_next(self.rows, self.ends.tail, i);
        self.ends = scans::linked_ends(self.ends, i);
    }

    // Takes row i out of the used chain and frees it: it becomes as fresh, and heads the free chain.
    pub fn release(&mut self, i: u32)
        ensures ends { self.new.ends ≡ released_ends (W.rows_in self.old.rows.now) self.old.ends i }
        ensures rows { Become W.rows_in self.old.rows self.new.rows (released_rows (W.rows_in self.old.rows.now) self.old.ends i) }
    {
        self.unlink(i);
        W::put(self.rows, i, rows::unmade_row(self.ends.free));
        self.ends = scans::with_free(self.ends, i);
    }

    // Marks row i: it is freed after every row marked longer ago.
    fn touch(&mut self, i: u32)
        ensures ends { self.new.ends ≡ touched_ends (W.rows_in self.old.rows.now) self.old.ends i }
        ensures rows { Become W.rows_in self.old.rows self.new.rows (touched_rows (W.rows_in self.old.rows.now) self.old.ends i) }
    {
        self.unlink(i);
        self.link_last(i);
    }

    // Row i gets a part, and is marked.
    pub fn mark(&mut self, i: u32, part: Part)
        ensures ends { self.new.ends ≡ marked_ends (W.rows_in self.old.rows.now) self.old.ends i part }
        ensures rows { Become W.rows_in self.old.rows self.new.rows (marked_rows (W.rows_in self.old.rows.now) self.old.ends i part) }
    {
        W::set_part(self.rows, i, part);
        self.touch(i);
    }

    // With no row free, frees the least recently used.
    fn make_room(&mut self)
        ensures ends { self.new.ends ≡ room_ends (W.rows_in self.old.rows.now) self.old.ends }
        ensures rows { Become W.rows_in self.old.rows self.new.rows (room_rows (W.rows_in self.old.rows.now) self.old.ends) }
    {
        if scans::is_none(self.ends.free) {
            self.release(self.ends.head);
        }
    }

    // The first free row is taken for the key, and is the most recently used. Key and part, here and wherever a row is made, are two fields of it beside its links: a
    // struct of the two would be taken apart there (d).
    fn take_free(&mut self, key: Key, part: Part)
        ensures ends { self.new.ends ≡ taken_ends (W.rows_in self.old.rows.now) self.old.ends }
        ensures rows { Become W.rows_in self.old.rows self.new.rows (taken_rows (W.rows_in self.old.rows.now) self.old.ends key part) }
    {
        let i = self.ends.free;
        let rows = &mut *self.rows;
        let old = W::get(rows, i);
        W::put(rows, i, rows::made_row(old, key, part));
        self.ends = scans::with_free(self.ends, old.next);
        self.link_last(i);
    }

    // A row is made for the key, where no row is free in place of the least recently used.
    fn enter(&mut self, key: Key, part: Part)
        ensures ends { self.new.ends ≡ entered_ends (W.rows_in self.old.rows.now) self.old.ends }
        ensures rows { Become W.rows_in self.old.rows self.new.rows (entered_rows (W.rows_in self.old.rows.now) self.old.ends key part) }
    {
        self.make_room();
        self.take_free(key, part);
    }

    // Writes the key's part and marks its row, in one step: the row that has the key, or one that is made.
    pub fn insert_active(&mut self, at: Option<u32>, key: Key, part: Part) -> Seat
        ensures seat { result ≡ seat_of (W.rows_in self.old.rows.now) self.old.ends at part }
        ensures rows { Become W.rows_in self.old.rows self.new.rows (seated_rows (W.rows_in self.old.rows.now) self.old.ends at key part) }
        ensures ends { self.new.ends ≡ result.ends }
    {
        let before = self.ends;
        match at {
            Some(i) => {
                self.mark(i, part);
                rows::kept_seat(self.ends, i)
            }
            None => {
                let rows = &mut *self.rows;
                let old = W::get(rows, before.head);
                self.enter(key, part);
                rows::made_seat(before, old, self.ends)
            }
        }
    }
}
