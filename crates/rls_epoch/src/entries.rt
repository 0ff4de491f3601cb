//! One number of a list.

ghost use Rattle.std.specs.Prelude.{◌≡◌, ◌<◌, length, slice_index, slice_set};

pub(crate) fn entry(list: &[usize], i: usize) -> usize
    requires within { i < length list.now }
    ensures entry { result ≡ slice_index list.now i }
{
    list[i]
}

pub(crate) fn set_entry(list: &mut [usize], i: usize, value: usize)
    requires within { i < length list.old }
    ensures set { list.new ≡ slice_set list.old i value }
{
    list[i] = value;
}
