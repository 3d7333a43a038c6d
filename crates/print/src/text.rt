// Bytes and numbers put into a lent list of bytes at a place. Each function answers the place
// after what it put.
// Not methods of a struct that holds the list and the place: each would have to promise too that the
// struct keeps its loan of the list.
ghost use Rattle.std.specs.Prelude.{◌+◌, ◌≤◌, [], ◌∷◌, length};
ghost use Rattle.model.specs.Sheets.{digits_of};
ghost use Rattle.print.specs.Texts.{Puts};

// One byte.
pub fn put_byte(b: u8, out: &mut [u8], at: usize) -> usize
    requires { at + 1 ≤ length out.old }
    ensures { Puts (b ∷ []) out.old at out.new result }
{
    out[at] = b;
    at + 1
}

// A number in base ten: its last digit stands after those of a tenth of it.
pub fn put_number(n: u64, out: &mut [u8], at: usize) -> usize
    requires { at + length (digits_of n) ≤ length out.old }
    ensures { Puts (digits_of n) out.old at out.new result }
{
    if n < 10 {
        return put_byte(b'0' + n as u8, out, at);
    }
    let end = put_number(n / 10, out, at);
    put_byte(b'0' + (n % 10) as u8, out, end)
}

// A blank and a number.
pub fn put_next(n: u64, out: &mut [u8], at: usize) -> usize
    requires { at + length (32 ∷ digits_of n) ≤ length out.old }
    ensures { Puts (32 ∷ digits_of n) out.old at out.new result }
{
    let after = put_byte(b' ', out, at);
    put_number(n, out, after)
}
