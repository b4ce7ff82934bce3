// The items of a list, read and changed.
ghost use Rattle.std.specs.Prelude.{◌≡◌, ◌+◌, ◌-◌, ◌<◌, ◌≤◌, ◌↔◌, [], ◌∷◌, ◌++◌, length, take, max, slice_get, IsOk, OnOk, OnErr};
ghost use Rattle.std.specs.List.{remove_range};
ghost use Rattle.std.specs.Bool.{MatchBool};
ghost use Rattle.fixed.specs.Items.{items_of, with_last};

use crate::full::Full;
use crate::list::FixedList;

impl<T: Copy, const N: usize> FixedList<T, N> {
    // With no items. Each slot holds `unused` until there is an item for it.
    // Kept: a value that the caller gives, and not a default. Not everything that is listed has one, an event for one.
    pub fn new(unused: T) -> Self
        ensures { items_of result ≡ [] }
    {
        FixedList {
            slots: [unused; N],
            len: 0,
        }
    }

    // How many items there are.
    pub fn len(&self) -> usize
        ensures count { result ≡ length (items_of self.now) }
        ensures few { result ≤ N }
    {
        self.as_slice().len()
    }

    // Whether there is room for no item more.
    pub fn is_full(&self) -> bool
        ensures { MatchBool result (length (items_of self.now) ≡ N) (length (items_of self.now) < N) }
    {
        self.len == N
    }

    // The items, in their order.
    pub fn as_slice(&self) -> &[T]
        ensures { result.now ≡ items_of self.now }
    {
        &self.slots[..self.len]
    }

    // Adds an item behind the others, if there is room.
    pub fn push(&mut self, item: T) -> Result<(), Full>
        ensures room { IsOk result ↔ (length (items_of self.old) < N) }
        ensures added { OnOk result (items_of self.new ≡ items_of self.old ++ (item ∷ [])) }
        ensures kept { OnErr result (self.new ≡ self.old) }
    {
        if self.is_full() {
            return Err(Full);
        }
        self.slots[self.len] = item;
        self.len += 1;
        Ok(())
    }

    // Adds items behind the others, all of them or none.
    pub fn extend_from_slice(&mut self, items: &[T]) -> Result<(), Full>
        ensures room { IsOk result ↔ (length (items_of self.old) + length items.now ≤ N) }
        ensures added { OnOk result (items_of self.new ≡ items_of self.old ++ items.now) }
        ensures kept { OnErr result (self.new ≡ self.old) }
    {
        if items.len() > N - self.len {
            return Err(Full);
        }
        let end = self.len + items.len();
        let slots = &mut self.slots[..];
        slots[self.len..end].copy_from_slice(items);
        self.len = end;
        Ok(())
    }

    // Keeps the first items only, as many as are asked for.
    pub fn truncate(&mut self, len: usize)
        ensures { items_of self.new ≡ take len (items_of self.old) }
    {
        self.len = self.len.min(len);
    }

    // Takes everything out.
    pub fn clear(&mut self)
        ensures { items_of self.new ≡ [] }
    {
        self.len = 0;
    }

    // Takes out the items from `start` up to `end`. There are none where `end` is not above `start`.
    pub fn remove_range(&mut self, start: usize, end: usize)
        ensures { items_of self.new ≡ remove_range (items_of self.old) start (max start end) }
    {
        let end = end.min(self.len);
        if start < end {
            let slots = &mut self.slots[..];
            slots.copy_within(end..self.len, start);
            self.len -= end - start;
        }
    }

    // The last item, if there is one.
    pub fn last(&self) -> Option<T>
        ensures { result ≡ slice_get (items_of self.now) (length (items_of self.now) - 1) }
    {
        self.as_slice().last().copied()
    }

    // Puts an item in the place of the last, if there is one.
    // Kept: in place of a `&mut` to the last. What a lent item leaves would take more words than a copy put back.
    pub fn replace_last(&mut self, item: T)
        ensures { items_of self.new ≡ with_last item (items_of self.old) }
    {
        if self.len > 0 {
            self.slots[self.len - 1] = item;
        }
    }
}
