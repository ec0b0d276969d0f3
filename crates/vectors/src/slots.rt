// Reading and writing an entry of a list, where an index past the end reads a default and writes nothing.
ghost use Rattle.std.specs.Prelude.{◌≡◌, slice_index_or, slice_set};

// The library's way to read an entry is three calls: three places read so, so they have a name.
pub(crate) fn entry<T: Copy>(items: &[T], at: usize, default: T) -> T
    ensures { result ≡ slice_index_or items.now at default }
{
    items.get(at).copied().unwrap_or(default)
}

// Written by its index: a proof knows nothing of the elements after a write through `get_mut`.
pub(crate) fn put<T: Copy>(items: &mut [T], at: usize, to: T)
    ensures { items.new ≡ slice_set items.old at to }
{
    if at < items.len() {
        items[at] = to;
    }
}
