//! Marked places.

ghost use Rattle.std.specs.Prelude.{◌≡◌, length, slice_index_or, false};

/// Whether the place is marked.
pub(crate) fn is_marked(marks: &[bool], place: usize) -> bool
    ensures { result ≡ slice_index_or marks.now place false }
{
    match marks.get(place) {
        Some(mark) => *mark,
        None => false,
    }
}

/// Marks the place, or no longer. False where it was so already, or is none.
pub(crate) fn put(marks: &mut [bool], place: usize, mark: bool) -> bool
    ensures { length marks.new ≡ length marks.old }
{
    match marks.get_mut(place) {
        Some(marked) => {
            let is_new = *marked != mark;
            *marked = mark;
            is_new
        }
        None => false,
    }
}
