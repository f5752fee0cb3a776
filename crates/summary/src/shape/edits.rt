// Facts that come to a table and go from it.
ghost use Rattle.std.specs.Prelude.{◌≡◌, ◌<◌, ◌≤◌, take, if◌then◌else◌, slice_set};
ghost use Rattle.std.specs.List.{insert, remove};
ghost use Rattle.totals.specs.Tables.{take_out};
ghost use Rattle.summary.specs.Memory.{count_in, table_in, Whole, has_room, Sound, holding, cell_of, held, Found, put_in, can_put, PutFits};

use super::Shape;
use crate::group::Group;

impl Shape {
    // So many facts with such a sum come to a place: the group there grows, or a new one is made, if the row has room for it.
    pub fn put(self, row: &mut [u64], group: Group) -> bool
        requires sound { Sound self.width row.old }
        requires fits { PutFits self.width group row.old }
        ensures told { result ≡ can_put self.width group row.old }
        ensures after { row.new ≡ (if result then holding self.width (put_in self.width group row.old) row.old else row.old) }
        ensures sound { 0 < group.count → Sound self.width row.new }
    {
        let at = self.find(row, group.place);
        self.put_at(row, at, group)
    }

    // As `put`, where groups mostly come in order. The search alone differs: a closure for it would
    // owe the search's contract as one clause more, so that it is no plainer.
    pub fn append(self, row: &mut [u64], group: Group) -> bool
        requires sound { Sound self.width row.old }
        requires fits { PutFits self.width group row.old }
        ensures told { result ≡ can_put self.width group row.old }
        ensures after { row.new ≡ (if result then holding self.width (put_in self.width group row.old) row.old else row.old) }
        ensures sound { 0 < group.count → Sound self.width row.new }
    {
        let at = self.find_from_end(row, group.place);
        self.put_at(row, at, group)
    }

    fn put_at(self, row: &mut [u64], at: Result<usize, usize>, group: Group) -> bool
        requires sound { Sound self.width row.old }
        requires found { Found (take self.width group.place) (table_in self.width row.old) at }
        requires fits { PutFits self.width group row.old }
        ensures told { result ≡ can_put self.width group row.old }
        ensures after { row.new ≡ (if result then holding self.width (put_in self.width group row.old) row.old else row.old) }
        ensures sound { 0 < group.count → Sound self.width row.new }
    {
        match at {
            Ok(i) => {
                let old = self.group(row, i);
                self.replace(row, i, old.joined(group));
                true
            }
            Err(i) => self.insert(row, i, group),
        }
    }

    // One fact with an amount goes from a place, if there is a group; a group of no facts goes.
    pub fn take(self, row: &mut [u64], place: [u64; 4], amount: u64) -> bool
        requires { Sound self.width row.old }
        ensures told { result ≡ held (take self.width place) (table_in self.width row.old) }
        ensures after { row.new ≡ (if result then holding self.width (take_out (take self.width place) amount (table_in self.width row.old)) row.old else row.old) }
        ensures sound { Sound self.width row.new }
    {
        let Ok(i) = self.find(row, place) else {
            return false;
        };
        let old = self.group(row, i);
        if old.count <= 1 {
            self.remove(row, i);
        } else {
            self.replace(row, i, old.without(amount));
        }
        true
    }

    // Writes a group over the i-th.
    fn replace(self, row: &mut [u64], i: usize, group: Group)
        requires { (Whole self.width row.old) × (i < count_in self.width row.old) }
        ensures { row.new ≡ holding self.width (slice_set (table_in self.width row.old) i (cell_of self.width group)) row.old }
    {
        self.write(row, i, group);
    }

    // Makes room for a group at i and writes it there, if the row has room for one more.
    fn insert(self, row: &mut [u64], i: usize, group: Group) -> bool
        requires { (Whole self.width row.old) × (i ≤ count_in self.width row.old) }
        ensures told { result ≡ has_room self.width row.old }
        ensures after { row.new ≡ (if result then holding self.width (insert (table_in self.width row.old) i (cell_of self.width group)) row.old else row.old) }
    {
        let n = self.count(row);
        let end = self.start(n);
        let stride = self.stride();
        if row.len() - end < stride {
            return false;
        }
        let at = self.start(i);
        row.copy_within(at..end, at + stride);
        self.write(row, i, group);
        row[self.width] = n as u64 + 1;
        true
    }

    // Takes the i-th group away.
    fn remove(self, row: &mut [u64], i: usize)
        requires { (Whole self.width row.old) × (i < count_in self.width row.old) }
        ensures { row.new ≡ holding self.width (remove (table_in self.width row.old) i) row.old }
    {
        let n = self.count(row);
        let at = self.start(i);
        let end = self.start(n);
        row.copy_within(at + self.stride()..end, at);
        row[self.width] = n as u64 - 1;
    }
}
