// The questions about a section of a grid on whatever numbers and lists a caller passes, 17 before and
// after those of each dimension; and the sections of the dimensions where it passes them.
ghost use Rattle.std.specs.Prelude.{◌≡◌, ◌*◌, ◌≤◌};
ghost use Rattle.model.specs.Refusals.{by_number};
ghost use Rattle.section.specs.Strides.{Bounded};
ghost use Rattle.grid_section.specs.Lines.{line_on, limited_by, asked_of, Sound};

use grid::ranks::{products_fit, single_section};
use mapping::questions::within;
use model::{Dealing, GridSection, Refusal, Section, Three};
use section::questions::{Strided, ask_section};

// An accepted section of one dimension, and how it is dealt.
#[derive(Clone, Copy)]
pub struct Line {
    pub section: Strided,
    pub dealing: Dealing,
}

// No type of its own that says that it passed (`Limited`): `lines_with` makes one of any section.
pub type Lines = Three<Line>;

fn line_of(w: Strided, x: Section) -> Line
    ensures { result ≡ line_on w x }
{
    Line {
        section: w,
        dealing: x.mapping.dealing,
    }
}

// Question 17 of the products.
fn limited(x: Lines) -> Result<Lines, Refusal>
    requires { Bounded x.first.section × Bounded x.second.section × Bounded x.third.section }
    ensures { by_number result ≡ limited_by x.first x.second x.third }
{
    if !products_fit(
        x.first.section.layout,
        x.second.section.layout,
        x.third.section.layout,
    ) {
        return Err(Refusal::Grid);
    }
    Ok(x)
}

// Questions 1 to 7, 15 and 16 of each dimension, between the two times of 17.
pub fn ask_lines(x: GridSection, sizes: Three<&[u8]>) -> Result<Lines, Refusal>
    ensures value { by_number result ≡ asked_of x sizes.entry.first.now sizes.entry.second.now sizes.entry.third.now }
    ensures sound { Sound (by_number result) }
{
    if !within(1, 3, x.rank) {
        return Err(Refusal::Grid);
    }
    let three = x.dimensions.up_to(x.rank, single_section());
    let k = ask_section(three.first, sizes.first)?;
    let l = ask_section(three.second, sizes.second)?;
    let m = ask_section(three.third, sizes.third)?;
    limited(Three {
        first: line_of(k, three.first),
        second: line_of(l, three.second),
        third: line_of(m, three.third),
    })
}

// The product of three numbers where it is in range; the second and the third alone may be as large as
// two sizes are.
pub fn product_of(m: u64, n: u64, o: u64) -> u64
    requires { (n ≤ 2147483647) × (o ≤ 2147483647) × (m * (n * o) ≤ 2147483647) }
    ensures { result ≡ m * (n * o) }
{
    m * (n * o)
}
