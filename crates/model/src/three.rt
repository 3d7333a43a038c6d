// What each of three dimensions has: a mapping, a section, a list of sizes, an index.
ghost use Rattle.std.specs.Prelude.{◌≡◌};
ghost use Rattle.model.specs.Grids.{up_to};

#[derive(Clone, Copy)]
pub struct Three<T> {
    pub first: T,
    pub second: T,
    pub third: T,
}

impl<T: Copy> Three<T> {
    // The same with `past` for the dimensions past the rank, which are not looked at.
    pub fn up_to(self, rank: i64, past: T) -> Three<T>
        ensures { result ≡ up_to rank past self }
    {
        Three {
            first: self.first,
            second: if 2 <= rank { self.second } else { past },
            third: if 3 <= rank { self.third } else { past },
        }
    }
}

// A rank, and one for each dimension, of which those past the rank are not looked at.
#[derive(Clone, Copy)]
pub struct Ranked<T> {
    pub rank: i64,
    pub dimensions: Three<T>,
}
