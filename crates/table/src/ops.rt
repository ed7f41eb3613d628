ghost use Rattle.std.specs.Prelude.{◌≡◌, ◌+◌, ◌<◌, ◌≤◌, [], ◌∷◌, ◌++◌, length, is_ok, if◌then◌else◌, MatchOption, nat_lt, slice_index_or, slice_set, take};
ghost use Rattle.table.specs.Contents.{all_places, contents};

use super::{Full, Rows, Table};

// Writes one place and no other.
fn put<T: Copy>(places: &mut [T], at: usize, item: T)
    requires { at < length places.old }
    ensures written { places.new ≡ slice_set places.old at item }
{
    places[at] = item;
}

// The first places.
fn first<T>(places: &[T], count: usize) -> &[T]
    requires { count ≤ length places.now }
    ensures first { result.now ≡ take count places.now }
{
    &places[..count]
}

impl<'a, T: Copy> Rows<'a, T> {
    // Hands the places on for writing.
    fn write(&mut self, at: usize, item: T)
        requires { at < length self.old.places.now }
        ensures written { self.new.places.now ≡ slice_set self.old.places.now at item }
    {
        put(self.places, at, item);
    }
}

impl<'a, T: Copy> Table<'a, T> {
    // A table with no record; the places hold what they held.
    pub fn new(places: &'a mut [T]) -> Table<'a, T>
        ensures empty { contents result ≡ [] }
        ensures places { all_places result ≡ places.old }
    {
        Table {
            rows: Rows { places },
            count: 0,
        }
    }

    // How many records there are.
    pub fn count(&self) -> usize
        ensures count { result ≡ length (contents self.now) }
    {
        let records = self.count;
        records
    }

    // How many places there are.
    pub fn places(&self) -> usize
        ensures places { result ≡ length (all_places self.now) }
    {
        let all = self.rows.places.len();
        all
    }

    // Forgets the records and touches no place.
    pub fn clear(&mut self)
        ensures empty { contents self.new ≡ [] }
        ensures places { all_places self.new ≡ all_places self.old }
    {
        self.count = 0;
    }

    // The records, in the order in which they were added.
    pub fn records(&self) -> &[T]
        ensures shown { result.now ≡ contents self.now }
    {
        first(self.rows.places, self.count)
    }

    // The record at a number below the count, otherwise none.
    pub fn get(&self, i: usize) -> Option<T>
        ensures shown { MatchOption result (length (contents self.now) ≤ i) (λ x. (i < length (contents self.now)) × (x ≡ slice_index_or (contents self.now) i x)) }
    {
        self.records().get(i).copied()
    }

    // Adds a record at the end; full exactly when the count equals the places. No other place is touched.
    pub fn add(&mut self, item: T) -> Result<(), Full>
        ensures full { is_ok result ≡ nat_lt (length (contents self.old)) (length (all_places self.old)) }
        ensures records { contents self.new ≡ (if is_ok result then contents self.old ++ item ∷ [] else contents self.old) }
        ensures places { all_places self.new ≡ (if is_ok result then slice_set (all_places self.old) (length (contents self.old)) item else all_places self.old) }
    {
        let count = self.count();
        if count >= self.places() {
            return Err(Full);
        }
        self.rows.write(count, item);
        self.count = count + 1;
        Ok(())
    }
}
