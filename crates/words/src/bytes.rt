// A u32 in bytes, the lowest byte first.
ghost use Rattle.std.specs.Prelude.{◌≡◌};
ghost use Rattle.words.specs.rules.Bytes.{joined, word_at, with_words};

// The number that four bytes say.
pub fn join(a: u8, b: u8, c: u8, d: u8) -> u32
    ensures { result ≡ joined a b c d }
{
    u32::from_le_bytes([a, b, c, d])
}

// The word at `at`; 0 where the bytes end before it does.
#[tactic(auto, unfolding(crate::specs::rules::Bytes::word_at))]
pub fn read_word(s: &[u8], at: usize) -> u32
    ensures { result ≡ word_at s.now at }
{
    let Some([a, b, c, d, ..]) = s.get(at..) else {
        return 0;
    };
    join(*a, *b, *c, *d)
}

// The words from `at` on become `ws`; nothing changes where the bytes end before the last does.
pub fn write_words(out: &mut [u8], at: usize, ws: &[u32])
    ensures { out.new ≡ with_words out.old at ws.now }
{
    if out.len().saturating_sub(at) / 4 < ws.len() {
        return;
    }
    for (i, w) in ws.iter().enumerate() {
        let place = at + i * 4;
        let word = w.to_le_bytes();
        out[place..place + 4].copy_from_slice(&word);
    }
}
