// Text into lent bytes: words, and numbers in plain decimal.
ghost use Rattle.std.specs.Prelude.{◌≡◌, ◌++◌, length};
ghost use Rattle.listing.specs.rules.Text.{digit, decimal};
ghost use Rattle.listing.specs.inside.Writes.{Fits, Writes};

// Lent bytes, and the place of the next byte.
#[derive(Drop)]
pub(crate) struct Writer<'a> {
    out: &'a mut [u8],
    pub(crate) at: usize,
}

// The last digit of a number.
fn last_digit(n: u64) -> u8
    ensures { result ≡ digit n }
{
    48 + (n % 10) as u8
}

// How many digits a number has.
fn count_digits(n: u64) -> usize
    ensures { result ≡ length (decimal n) }
{
    match n.checked_ilog10() {
        Some(power) => power as usize + 1,
        None => 1,
    }
}

// The digits of a number into as many bytes, from the last on, two at a time.
fn fill_digits(out: &mut [u8], n: u64)
    requires { length out.old ≡ length (decimal n) }
    ensures { out.new ≡ decimal n }
{
    let mut at = out.len();
    let mut rest = n;
    while 100 <= rest {
        let pair = rest % 100;
        let last = at - 1;
        out[last] = last_digit(pair);
        at = last - 1;
        out[at] = last_digit(pair / 10);
        rest /= 100;
    }
    if 10 <= rest {
        out[1] = last_digit(rest);
        out[0] = last_digit(rest / 10);
        return;
    }
    out[0] = last_digit(rest);
}

// By itself, since std's copy_from_slice costs a dozen instructions more for each text.
fn copy(out: &mut [u8], s: &[u8])
    requires { length out.old ≡ length s.now }
    ensures { out.new ≡ s.now }
{
    for i in 0..s.len() {
        out[i] = s[i];
    }
}

impl<'a> Writer<'a> {
    // From the start of lent bytes.
    pub(crate) fn new(out: &'a mut [u8]) -> Writer<'a>
        ensures same { result.out.ghost_name ≡ out.entry.ghost_name }
        ensures bytes { result.out.now ≡ out.old }
        ensures place { result.at ≡ 0 }
    {
        Writer { out, at: 0 }
    }

    pub(crate) fn text(&mut self, s: &[u8])
        requires { Fits self.old s.now }
        ensures { Writes self.old self.new s.now }
    {
        let end = self.at + s.len();
        copy(&mut self.out[self.at..end], s);
        self.at = end;
    }

    pub(crate) fn number(&mut self, n: u64)
        requires { Fits self.old (decimal n) }
        ensures { Writes self.old self.new (decimal n) }
    {
        let end = self.at + count_digits(n);
        fill_digits(&mut self.out[self.at..end], n);
        self.at = end;
    }

    // A text, and a number after it.
    pub(crate) fn field(&mut self, s: &[u8], n: u32)
        requires { Fits self.old (s.now ++ decimal n) }
        ensures { Writes self.old self.new (s.now ++ decimal n) }
    {
        self.text(s);
        self.number(u64::from(n));
    }
}
