// The bits of a word of 64 bits: a board's places, a record's marks.
ghost use Rattle.std.specs.Prelude.{◌≡◌};
ghost use Rattle.std.specs.Iterator.{at_most};
ghost use Rattle.words.specs.rules.Bits.{bit_at, with_bit, without_bit, without_lowest, ones_in, clear_in, count_trailing_zeros, TakesLowest};

// Bit i of a word. A word has no bit from 64 on.
pub fn test(w: u64, i: usize) -> bool
    ensures { result ≡ bit_at w i }
{
    if i < 64 { (w >> i) & 1 == 1 } else { false }
}

// Mark bit i of a record.
pub fn mark(marks: u8, i: usize) -> bool
    ensures { result ≡ bit_at marks i }
{
    test(u64::from(marks), i)
}

// The word with bit i set.
pub fn with_bit(w: u64, i: usize) -> u64
    ensures { result ≡ with_bit w i }
{
    if i < 64 { w | (1u64 << i) } else { w }
}

// The word with bit i clear.
pub fn without_bit(w: u64, i: usize) -> u64
    ensures { result ≡ without_bit w i }
{
    if i < 64 { w & !(1u64 << i) } else { w }
}

// How many bits are set.
pub fn ones(w: u64) -> u32
    ensures { result ≡ ones_in 64 w }
{
    u64::count_ones(w)
}

// The lowest bit that is clear, and 64 where all are set.
pub fn first_clear(w: u64) -> u32
    ensures { result ≡ clear_in 64 w }
{
    u64::trailing_zeros(!w)
}

// The lowest bit that is set, and 64 where none is.
pub fn first_set(w: u64) -> u32
    ensures { result ≡ count_trailing_zeros 64 w }
{
    u64::trailing_zeros(w)
}

// The word with its lowest set bit clear; 0 has none.
pub fn without_lowest(w: u64) -> u64
    ensures { result ≡ without_lowest w }
{
    if w == 0 { 0 } else { w & (w - 1) }
}

// The places of a word whose bits are set, from the lowest on.
#[derive(Drop)]
pub struct Places {
    left: u64,
}

impl Places {
    // Those of this word.
    pub fn of(word: u64) -> Places
        ensures { result ≡ record { left = word } }
    {
        Places { left: word }
    }
}

impl Iterator for Places {
    type Item = usize;

    ghost next_gives = { λ s r t. TakesLowest s.left r t.left };

    ghost remaining = { λ s. at_most s.left };

    fn next(&mut self) -> Option<usize> {
        if self.left == 0 {
            return None;
        }
        let i = first_set(self.left) as usize;
        self.left = without_lowest(self.left);
        Some(i)
    }
}
