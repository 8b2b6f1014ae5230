// Lists in fixed memory, as slices and with one item more.
ghost use Rattle.std.specs.Prelude.{◌≡◌, ◌+◌, ◌<◌, [], length, take, replicate, slice_set};

use crate::records::FixedList;

impl<T: Copy, const N: usize> FixedList<T, N> {
    // No item, with `nothing` in the unused places.
    pub(crate) fn empty(nothing: T) -> FixedList<T, N>
        ensures { result ≡ record { items = replicate N nothing; len = 0 } }
    {
        FixedList {
            items: [nothing; N],
            len: 0,
        }
    }

    pub fn as_slice(&self) -> &[T]
        ensures { result.now ≡ take self.now.len self.now.items }
    {
        &self.items[..self.len.min(N)]
    }

    pub(crate) fn push(&mut self, item: T)
        requires { self.old.len < N }
        ensures { self.new ≡ record { items = slice_set self.old.items self.old.len item; len = self.old.len + 1 } }
    {
        // the length is a field, and counts no loop
        self.items[self.len] = item;
        self.len += 1;
    }
}
