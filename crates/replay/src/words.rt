// Words of a table and their places. Each function is total: what is past an end is 0, nothing, or dropped.
ghost use Rattle.std.specs.Prelude.{◌≡◌, ◌≤◌, length, slice_index};

// A word past the end counts as 0.
pub(crate) fn word_at(words: &[u32], place: usize) -> u32
    ensures { result ≡ slice_index words.now place }
{
    words.get(place).copied().unwrap_or(0)
}

// Words of a table; none where they are not all there.
pub(crate) fn part(words: &[u32], from: usize, count: usize) -> &[u32]
    ensures { length result.now ≤ count }
{
    words
        .get(from..)
        .and_then(|rest| rest.get(..count))
        .unwrap_or(&[])
}

// The first word, and after each word the next number; they wrap.
pub(crate) fn count_from(first: u32, words: &mut [u32])
    ensures { length words.new ≡ length words.old }
{
    let mut next = first;
    for word in words {
        *word = next;
        next = next.wrapping_add(1);
    }
}
