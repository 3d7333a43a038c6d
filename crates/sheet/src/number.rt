// A number on the sheet and the byte that ends it.
ghost use Rattle.std.specs.Prelude.{◌≡◌, ◌<◌, ◌≤◌};
ghost use Rattle.sheet.specs.Numbers.{digits, natural, number};
ghost use Rattle.sheet.specs.Answers.{got_in};

// A byte place on the sheet: the bytes from there on.
#[derive(Clone, Copy)]
pub struct Cursor<'a> {
    pub rest: &'a [u8],
}

// What was read and the cursor after it, or the cursor at the first byte that cannot stand there.
pub type Read<'a, T> = Result<(T, Cursor<'a>), Cursor<'a>>;

// A number's size is below this.
const SIZES: u64 = 2147483648;

impl<'a> Cursor<'a> {
    // Further digits after those of `first`, below `max`, up to the byte `end`.
    fn more_digits(self, first: u64, max: u64, end: u8) -> Read<'a, u64>
        requires { (first < max) × (max ≤ 2147483648) }
        ensures { got_in result ≡ digits max end first self.entry.rest.now }
    {
        let mut n = first;
        let mut rest = self.rest;
        // Not a `for` over the bytes: each step needs those that are left, too.
        while let Some((b, after)) = rest.split_first() {
            if *b == end {
                return Ok((n, Cursor { rest: after }));
            }
            if !b.is_ascii_digit() || n == 0 {
                return Err(Cursor { rest });
            }
            n = n * 10 + u64::from(*b - b'0');
            if max <= n {
                return Err(Cursor { rest });
            }
            rest = after;
        }
        Err(Cursor { rest })
    }

    // A number from `low` (0 or 1) and below `max`, with no sign, and the byte `end`.
    pub fn natural(self, low: u64, max: u64, end: u8) -> Read<'a, u64>
        requires { (low ≤ 1) × (max ≤ 2147483648) }
        ensures { got_in result ≡ natural low max end self.entry.rest.now }
    {
        let Some((b, rest)) = self.rest.split_first() else {
            return Err(self);
        };
        if !b.is_ascii_digit() {
            return Err(self);
        }
        let digit = u64::from(*b - b'0');
        if digit < low || max <= digit {
            return Err(self);
        }
        Cursor { rest }.more_digits(digit, max, end)
    }

    // A number with an optional minus, and the byte `end`.
    pub fn number(self, end: u8) -> Read<'a, i64>
        requires { end < 48 }
        ensures { got_in result ≡ number end self.entry.rest.now }
    {
        let Some((b, rest)) = self.rest.split_first() else {
            return Err(self);
        };
        if *b == b'-' {
            let (size, next) = Cursor { rest }.natural(1, SIZES, end)?;
            return Ok((-(size as i64), next));
        }
        let (size, next) = self.natural(0, SIZES, end)?;
        Ok((size as i64, next))
    }
}
