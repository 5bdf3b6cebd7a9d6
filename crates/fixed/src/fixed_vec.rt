ghost use Rattle.std.specs.Prelude.{◌≡◌, ◌+◌, ◌-◌, ◌<◌, ◌≤◌, ◌==◌, [], ◌∷◌, ◌++◌, length, take, if◌then◌else◌, nat_lt, nat_le, is_ok, MatchResult, slice_get, slice_set, insert, remove, ⊤};

use crate::full::Full;
use std::alloc::AllocError;

// A list of at most N items that lies in the value itself: it never allocates, and it is Copy where its items are, as
// the library's `ArrayVec` is not.
// The places past its length hold whatever stood there before, and no call tells what.
pub struct FixedVec<T, const N: usize> {
    items: [T; N],
    len: usize,
    ghost fits: { len ≤ N },
}

// By hand, since a derived one would clone wherever T does, and beside a ghost field only what is Copy is cloned.
impl<T: Copy, const N: usize> Clone for FixedVec<T, N> {
    ghost is_clone = { λ x y. y ≡ x };

    ghost is_infallible = { λ _. ⊤ };

    fn clone(&self) -> Result<FixedVec<T, N>, AllocError> {
        Ok(*self)
    }
}

impl<T: Copy, const N: usize> Copy for FixedVec<T, N> {}

impl<T: Copy, const N: usize> FixedVec<T, N> {
    ghost use Rattle.fixed.specs.Fixed.{listed};

    // The empty list; the blank fills its unused places.
    pub fn new(blank: T) -> Self
        ensures { listed result ≡ [] }
    {
        FixedVec {
            items: [blank; N],
            len: 0,
        }
    }

    // The list of these items, unless there are more than N; the blank fills its unused places.
    pub fn from_slice(blank: T, items: &[T]) -> Result<Self, Full>
        ensures { MatchResult result (λ v. listed v ≡ items.now) (λ _. N < length items.now) }
    {
        let mut list = Self::new(blank);
        list.extend_from_slice(items)?;
        Ok(list)
    }

    // How many items there are.
    pub fn len(&self) -> usize
        ensures many { result ≡ length (listed self.now) }
        ensures most { result ≤ N }
    {
        self.as_slice().len()
    }

    pub fn is_empty(&self) -> bool
        ensures { result ≡ (length (listed self.now) == 0) }
    {
        self.len == 0
    }

    pub fn as_slice(&self) -> &[T]
        ensures items { result.now ≡ listed self.now }
        ensures most { length result.now ≤ N }
    {
        &self.items[..self.len]
    }

    // The item at a place, if there is one.
    pub fn get(&self, place: usize) -> Option<T>
        ensures { result ≡ slice_get (listed self.now) place }
    {
        self.as_slice().get(place).copied()
    }

    pub fn last(&self) -> Option<T>
        ensures { result ≡ slice_get (listed self.now) (length (listed self.now) - 1) }
    {
        self.as_slice().last().copied()
    }

    // Adds an item behind the others, unless there are N.
    pub fn push(&mut self, item: T) -> Result<(), Full>
        ensures room { is_ok result ≡ nat_lt (length (listed self.old)) N }
        ensures after { listed self.new ≡ (if is_ok result then listed self.old ++ item ∷ [] else listed self.old) }
    {
        if self.len >= N {
            return Err(Full);
        }
        self.items[self.len] = item;
        self.len += 1;
        Ok(())
    }

    // Takes the last item away.
    pub fn pop(&mut self) -> Option<T>
        ensures told { result ≡ slice_get (listed self.old) (length (listed self.old) - 1) }
        ensures after { listed self.new ≡ take (length (listed self.old) - 1) (listed self.old) }
    {
        let item = self.last()?;
        self.len -= 1;
        Some(item)
    }

    // Adds items behind the others, unless there would be more than N; then none of them.
    pub fn extend_from_slice(&mut self, more: &[T]) -> Result<(), Full>
        ensures room { is_ok result ≡ nat_le (length (listed self.old) + length more.now) N }
        ensures after { listed self.new ≡ (if is_ok result then listed self.old ++ more.now else listed self.old) }
    {
        if more.len() > N - self.len {
            return Err(Full);
        }
        let len = self.len + more.len();
        let items = &mut self.items[..];
        items[self.len..len].copy_from_slice(more);
        self.len = len;
        Ok(())
    }

    // Puts an item before the one at a place, or behind all where there is none at that place, unless there are N.
    pub fn insert(&mut self, place: usize, item: T) -> Result<(), Full>
        ensures room { is_ok result ≡ nat_lt (length (listed self.old)) N }
        ensures after { listed self.new ≡ (if is_ok result then insert (listed self.old) place item else listed self.old) }
    {
        if self.len >= N {
            return Err(Full);
        }
        put(&mut self.items, self.len, place, item);
        self.len += 1;
        Ok(())
    }

    // Takes the item at a place away, if there is one.
    pub fn remove(&mut self, place: usize) -> Option<T>
        ensures told { result ≡ slice_get (listed self.old) place }
        ensures after { listed self.new ≡ remove (listed self.old) place }
    {
        if place >= self.len {
            return None;
        }
        let item = self.items[place];
        cut(&mut self.items, self.len, place);
        self.len -= 1;
        Some(item)
    }

    // Puts an item in place of the one at a place, if there is one, and tells that one.
    pub fn replace(&mut self, place: usize, item: T) -> Option<T>
        ensures told { result ≡ slice_get (listed self.old) place }
        ensures after { listed self.new ≡ slice_set (listed self.old) place item }
    {
        if place >= self.len {
            return None;
        }
        let before = self.items[place];
        self.items[place] = item;
        Some(before)
    }

    // Keeps the first items, at most so many.
    pub fn truncate(&mut self, len: usize)
        ensures { listed self.new ≡ take len (listed self.old) }
    {
        self.len = self.len.min(len);
    }
}

// Puts an item among the first ones, those from that place on one further, or behind them. (A free function over the
// whole room and a count, since parts of an array whose length is a parameter are not lent.)
fn put<T: Copy>(items: &mut [T], count: usize, place: usize, item: T)
    requires { count < length items.old }
    ensures { take (count + 1) items.new ≡ insert (take count items.old) place item }
{
    let place = place.min(count);
    items.copy_within(place..count, place + 1);
    items[place] = item;
}

// Leaves one of the first items out, those behind it one further to the front.
fn cut<T: Copy>(items: &mut [T], count: usize, place: usize)
    requires { (place < count) × (count ≤ length items.old) }
    ensures { take (count - 1) items.new ≡ remove (take count items.old) place }
{
    items.copy_within(place + 1..count, place);
}
