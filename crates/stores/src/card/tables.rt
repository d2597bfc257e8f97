// The tables of a card: plain records, of which the first `count` are in use. A contract sees the list of these.
ghost use Rattle.std.specs.Prelude.{◌≡◌, ◌<◌, ◌++◌, [], ◌∷◌, length, slice_set};
ghost use Rattle.std.specs.List.{remove};

use program::{Move, Stage};
use std::marker::Model;

pub const CARD_STAGES: usize = 64;

pub const CARD_MOVES: usize = 256;

// A plain struct and no vector of a crate, of which `mark` lends a record: the form that the project asks for.
#[derive(Clone, Copy)]
pub struct Records<T: Copy, const N: usize> {
    pub count: usize,
    pub records: [T; N],
}

pub type StageTable = Records<Stage, CARD_STAGES>;

pub type MoveTable = Records<Move, CARD_MOVES>;

// A card's own records, which a contract sees as the list of those in use.
#[derive(Drop)]
pub(crate) struct Table<T: Copy, const N: usize> {
    pub(crate) table: Records<T, N>,
}

impl<T: Copy, const N: usize> Model for Table<T, N> {
    ghost use Rattle.std.specs.Prelude.{◌≡◌, ◌≤◌, List, length, take};

    ghost Value = { List T };

    ghost view = { λ t. take t.table.count t.table.records };

    ghost invariant = { λ t. (length t.table.records ≡ N) × (t.table.count ≤ N) };
}

impl<T: Copy, const N: usize> Table<T, N> {
    // A table with no record in use; every place holds `none`.
    pub(crate) fn new(none: T) -> Table<T, N>
        ensures { result ≡ [] }
    {
        Table {
            table: Records {
                count: 0,
                records: [none; N],
            },
        }
    }

    // How many records are in use.
    pub(crate) fn count(&self) -> usize
        ensures { result ≡ length self.now }
    {
        self.table.count
    }

    // The records in use.
    pub(crate) fn in_use(&self) -> &[T]
        ensures { result.now ≡ self.now }
    {
        &self.table.records[..self.table.count]
    }

    // Appends a record, and answers its number.
    pub(crate) fn push(&mut self, added: T) -> usize
        requires { length self.old < N }
        ensures number { result ≡ length self.old }
        ensures appended { self.new ≡ self.old ++ added ∷ [] }
    {
        let n = self.table.count;
        self.table.records[n] = added;
        self.table.count = n + 1;
        n
    }

    // Writes a record over the one of number k.
    pub(crate) fn replace(&mut self, k: usize, new: T)
        requires { k < length self.old }
        ensures { self.new ≡ slice_set self.old k new }
    {
        let in_use = &mut self.table.records[..self.table.count];
        in_use[k] = new;
    }

    // Takes record k out; later records stand one place lower.
    pub(crate) fn take_out(&mut self, k: usize)
        requires { k < length self.old }
        ensures { self.new ≡ remove self.old k }
    {
        self.table.records.copy_within(k + 1..self.table.count, k);
        self.table.count -= 1;
    }
}
