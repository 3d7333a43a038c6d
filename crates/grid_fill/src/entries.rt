// Entries of a list of bytes put again, each so much higher: how a row's addresses become another's.
ghost use Rattle.std.specs.Prelude.{◌≡◌, ◌⊎◌, ◌+◌, ◌/◌, ◌≤◌, ◌<◌, length, take, drop};
ghost use Rattle.numbers.specs.Words.{words_of};
ghost use Rattle.model.specs.ByteFills.{store_entries};
ghost use Rattle.grid_fill.specs.Entries.{higher};

use numbers::words::word_at;
use walk::bytes::put_entry;
use walk::moves;

// The n entries from entry `from` on, put from entry `to` on with so much added; in place, or after them.
pub(crate) fn put_higher(list: &mut [u8], from: usize, to: usize, n: usize, add: u64)
    requires { (to + n ≤ length list.old / 4) × ((from ≡ to) ⊎ (from + n ≤ to)) × (add < 4294967296) }
    ensures { list.new ≡ store_entries list.old to (higher add (take n (drop from (words_of 4 list.old)))) }
{
    for i in 0..n {
        let x = word_at(list, from + i) as u64;
        put_entry(list, to + i, ((x + add) % moves::ADDRESSES) as u32);
    }
}
