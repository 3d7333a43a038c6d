// What stands in the place of a dimension past the rank, so that what comes after has three
// dimensions; and question 17 of the products.
ghost use Rattle.std.specs.Prelude.{◌≡◌, ◌&&◌, ◌*◌, ◌≤◌, leb};
ghost use Rattle.grid.specs.Ranks.{single_numbers, single_triplet};

use model::{Dealing, Layout, MOST, MOST_PROCESSORS, Mapping, Section, Triplet};

// ---- dimensions past the rank

// One element on one processor.
pub fn single() -> Mapping
    ensures { result ≡ single_numbers }
{
    Mapping {
        cells: 1,
        processors: 1,
        dealing: Dealing::Cyclic(1),
        origin: 0,
        stride: 1,
        offset: 0,
        size: 1,
        lower: 0,
    }
}

// The section of it.
pub fn single_section() -> Section
    ensures { result ≡ record { mapping = single_numbers; triplet = single_triplet } }
{
    Section {
        mapping: single(),
        triplet: Triplet {
            lower: 0,
            upper: 0,
            stride: 1,
        },
    }
}

// ---- the products

// Question 17, of three accepted dimensions. With an array of no elements the product is 0, however
// large the other two: they are multiplied only where the product of the three is no smaller.
pub fn products_fit(a: Layout, b: Layout, c: Layout) -> bool
    requires processors_bound { (a.processors ≤ 1024) × (b.processors ≤ 1024) × (c.processors ≤ 1024) }
    requires size_bound { (a.size ≤ 2147483647) × (b.size ≤ 2147483647) × (c.size ≤ 2147483647) }
    ensures { result ≡ (leb (a.processors * (b.processors * c.processors)) 1024 && leb (a.size * (b.size * c.size)) 2147483647) }
{
    let most = MOST as u64;
    // Not 'checked_mul': it divides.
    let rest = b.size * c.size;
    a.processors * (b.processors * c.processors) <= MOST_PROCESSORS as u64
        && (a.size == 0 || rest <= most && a.size * rest <= most)
}
