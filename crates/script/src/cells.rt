// Elements at any index: past the end every element is 0, and nothing is stored.
ghost use Rattle.std.specs.Prelude.{◌≡◌, ◌<◌, ◌≤◌, length, get_or};

pub fn item<T: Copy + Default>(s: &[T], i: usize) -> T
    ensures there { i < length s.now → result ≡ get_or s.now i result }
    ensures past { length s.now ≤ i → T.is_default result }
{
    s.get(i).copied().unwrap_or_default()
}

pub fn put<T: Copy>(s: &mut [T], i: usize, x: T) {
    if let Some(cell) = s.get_mut(i) {
        *cell = x;
    }
}

// The elements from one place to another: none where there are no such places.
pub fn between<T>(s: &[T], from: usize, to: usize) -> &[T] {
    s.get(from..to).unwrap_or_default()
}
