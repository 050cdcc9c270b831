// Writing one element into a lent slice at a place that never runs past its end: what falls past the end is dropped and the place counts on,
// so the same functions measure on an empty part and write on the real one. Each is defined for every slice, place and element; the place
// stays at the largest number that it can hold. What a slice holds afterwards is said by `Written` of specs/store/Text.antt.
ghost use Rattle.std.specs.Prelude.{[], ◌∷◌};
ghost use Rattle.writer.specs.store.Text.{Written};

// One element.
pub fn put<T: Copy>(out: &mut [T], at: usize, x: T) -> usize
    ensures { Written out.old at (x ∷ []) out.new result }
{
    if at < out.len() {
        out[at] = x;
        return at + 1;
    }
    at.saturating_add(1)
}
