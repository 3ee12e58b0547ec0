// Lines, and the words in them.
ghost use Rattle.std.specs.Prelude.{◌≡◌, ◌<◌, ◌≤◌, take, drop, length};
ghost use Rattle.std.specs.Iterator.{YieldsFirstRef, item_count};
ghost use Rattle.std.specs.Option.{option_map};
ghost use Rattle.text.specs.Lines.{before, after, line_end, next_line, word_end, after_word, lines_of, lines_left};

// What stands before the first such byte, or all; and what follows that byte, if there is one.
fn split_at_byte(bytes: &[u8], byte: u8) -> (&[u8], Option<&[u8]>)
    ensures before { result.0.now ≡ take (before byte bytes.now) bytes.now }
    ensures after { option_map (λ s. s.now) result.1 ≡ after byte bytes.now }
{
    match bytes.iter().position(|b| *b == byte) {
        Some(i) => (&bytes[..i], Some(&bytes[i + 1..])),
        None => (bytes, None),
    }
}

/// The first line, which goes up to a line feed, or to the end; and what follows the line feed.
#[tactic(auto, using(crate::proofs::Cuts::next_within))]
pub fn next_line(bytes: &[u8]) -> (&[u8], &[u8])
    ensures line { result.0.now ≡ take (line_end bytes.now) bytes.now }
    ensures rest { result.1.now ≡ drop (next_line bytes.now) bytes.now }
    ensures bound { (line_end bytes.now ≤ next_line bytes.now) × (next_line bytes.now ≤ length bytes.now) }
    ensures advances { 0 < length bytes.now → length result.1.now < length bytes.now }
{
    let (line, rest) = split_at_byte(bytes, b'\n');
    (line, rest.unwrap_or(&[]))
}

/// The first word, which goes up to a space, or to the end; and what follows the space, if there is one.
#[tactic(auto, using(crate::proofs::Cuts::before_within))]
pub fn word(bytes: &[u8]) -> (&[u8], Option<&[u8]>)
    ensures word { result.0.now ≡ take (word_end bytes.now) bytes.now }
    ensures rest { option_map (λ s. s.now) result.1 ≡ after_word bytes.now }
    ensures bound { word_end bytes.now ≤ length bytes.now }
{
    split_at_byte(bytes, b' ')
}

/// The lines of bytes, one after another.
// `split_inclusive` tells one part at a time, with its line feed; this says at once which lines there are.
#[derive(Drop)]
pub struct Lines<'a> {
    rest: &'a [u8],
}

impl<'a> Lines<'a> {
    /// All lines of the bytes, at most one for each byte.
    #[tactic(auto, using(crate::proofs::Cuts::lines_few))]
    pub fn of(bytes: &'a [u8]) -> Lines<'a>
        ensures lines { lines_left result ≡ lines_of bytes.now }
        ensures few { length (lines_of bytes.now) ≤ length bytes.now }
    {
        Lines { rest: bytes }
    }
}

impl<'a> Iterator for Lines<'a> {
    type Item = &'a [u8];

    ghost next_gives = { YieldsFirstRef lines_left };

    ghost remaining = { item_count lines_left };

    #[tactic(auto, using(crate::proofs::Cuts::lines_more))]
    fn next(&mut self) -> Option<&'a [u8]> {
        if self.rest.is_empty() {
            return None;
        }
        let (line, rest) = next_line(self.rest);
        self.rest = rest;
        Some(line)
    }
}
