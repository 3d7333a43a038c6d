// Fills of a list of 32-bit words. The loops along a walk fill bytes; a list of words is
// filled chunk by chunk, each by a fill of bytes.
ghost use Rattle.std.specs.Prelude.{◌≡◌, ◌++◌, ◌+◌, ◌*◌, ◌/◌, ◌≤◌, ◌<◌, length, take, drop};
ghost use Rattle.numbers.specs.Words.{words_of};
ghost use Rattle.fill.specs.Ready.{Accepted, FillsFrom};

use crate::ready::Start;
use crate::runs::fill_bytes_from;
use model::LEAST_TRIES;
use numbers::words::word_at;
use walk::moves::Report;

// The most entries of a chunk, whose bytes a local array holds.
const CHUNK: usize = 1024;

// The first n words, put into a list.
fn put_words(bytes: &[u8], n: usize, list: &mut [u32])
    requires { (n ≤ length bytes.now / 4) × (n ≤ length list.old) }
    ensures { list.new ≡ take n (words_of 4 bytes.now) ++ drop n list.old }
{
    for i in 0..n {
        list[i] = word_at(bytes, i);
    }
}

// The fill of a list by that of its bytes, 4 to an entry. What they held before is not read.
fn fill_through(s: Start, bytes: &mut [u8], list: &mut [u32]) -> Report
    requires { Accepted s × (length bytes.old ≡ 4 * length list.old) }
    ensures { FillsFrom s list.old list.new result }
{
    let r = fill_bytes_from(s, bytes);
    put_words(bytes, r.entries, list);
    r
}

// The fill of a list that is no longer than a chunk.
fn fill_chunk(s: Start, list: &mut [u32]) -> Report
    requires { Accepted s × (length list.old ≤ 1024) }
    ensures { FillsFrom s list.old list.new result }
{
    let mut bytes = [0u8; 4 * CHUNK];
    let end = 4 * list.len();
    fill_through(s, &mut bytes[..end], list)
}

// Where the chunk from entry n on ends, in a list of so many entries.
fn chunk_end(n: usize, entries: usize) -> usize
    requires { n < entries }
    ensures { (n < result) × (result ≤ entries) × (result ≤ n + 1024) }
{
    n + CHUNK.min(entries - n)
}

// The fill of a list, one chunk after another, each from the place and with the tries that the
// one before it left.
pub fn fill_from(s: Start, list: &mut [u32]) -> Report
    requires { Accepted s }
    ensures { FillsFrom s list.old list.new result }
{
    let mut place = s.place;
    let mut paid: u64 = 0;
    let mut n: usize = 0;
    // Not a 'for' over chunks: one may end early, and the next begins where it ended.
    while n < list.len() {
        if place.0 == s.section.count {
            break;
        }
        if s.quota - paid < LEAST_TRIES {
            break;
        }
        let chunk = Start {
            place,
            quota: s.quota - paid,
            ..s
        };
        let end = chunk_end(n, list.len());
        let r = fill_chunk(chunk, &mut list[n..end]);
        place = r.place;
        paid += r.tries;
        n += r.entries;
    }
    Report {
        entries: n,
        tries: paid,
        place,
    }
}
