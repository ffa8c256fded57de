// Words of a line, and the parts of a word that colons separate.
ghost use Rattle.std.specs.Prelude.{◌≡◌, [], length, get_or, drop};
ghost use Rattle.words.specs.Words.{split, words_of, is_byte, place, word_at, part_of, Holds, same_bytes};

// A word or a part: the bytes from `from` to before `to`.
#[derive(Clone, Copy)]
pub struct Word {
    pub from: usize,
    pub to: usize,
}

// Where the first byte at or after `at` is that is `byte`, or with `is` false another one; the text's
// end where there is no such byte. A closure in the place of `is` would ask something of callers.
pub fn next(s: &[u8], at: usize, byte: u8, is: bool) -> usize
    ensures { result ≡ place (is_byte byte is) s.now at }
{
    let start = at.min(s.len());
    match s[start..].iter().position(|b| (*b == byte) == is) {
        Some(k) => start + k,
        None => s.len(),
    }
}

// The word at or after `at`; it is empty at the line's end. A line and a place are passed apart here, since
// who reads on keeps the place alone; `calls` has both in one struct.
pub fn word_at(line: &[u8], at: usize) -> Word
    ensures { result ≡ word_at line.now at }
{
    let from = next(line, at, b' ', false);
    let to = next(line, from, b' ', true);
    Word { from, to }
}

// The bytes of the word at or after `at`, none at the line's end, and where the words behind it are
// looked for.
pub fn first_at(line: &[u8], at: usize) -> (&[u8], usize)
    ensures word { result.0.now ≡ get_or (words_of (drop at line.now)) 0 [] }
    ensures rest { words_of (drop result.1 line.now) ≡ drop 1 (words_of (drop at line.now)) }
{
    let w = word_at(line, at);
    (&line[w.from..w.to], w.to)
}

// How many parts a word has.
pub fn parts(w: &[u8]) -> usize
    ensures { result ≡ length (split 58 w.now) }
{
    w.iter().filter(|b| **b == b':').count() + 1
}

// The part behind `k` colons; it is empty where there are fewer.
pub fn part(w: &[u8], k: usize) -> &[u8]
    ensures { result.now ≡ part_of w.now k }
{
    w.split(|b| *b == b':').nth(k).unwrap_or(&[])
}

// Where that part stands; it is empty, at the word's end, where there are fewer colons.
pub fn part_at(w: &[u8], k: usize) -> Word
    ensures { Holds w.now result (part_of w.now k) }
{
    let mut from = 0;
    let mut to = next(w, from, b':', true);
    for _i in 0..k {
        if to == w.len() {
            return Word { from: to, to };
        }
        from = to + 1;
        to = next(w, from, b':', true);
    }
    Word { from, to }
}

// Are the bytes those of `name`? A `==` with the clause that the readers of names are proved by.
pub fn is_name(w: &[u8], name: &[u8]) -> bool
    ensures { result ≡ same_bytes w.now name.now }
{
    w == name
}
