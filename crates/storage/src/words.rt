// Words copied from one list into another, from consecutive places to consecutive places.
ghost use Rattle.std.specs.Prelude.{◌≡◌, ◌+◌, ◌*◌, ◌≤◌, length};
ghost use Rattle.storage.specs.Copying.{copied_run};

// The n words from place `at` on, into the places from `start` on, one by one.
pub fn copy_few(from: &[u64], at: usize, to: &mut [u64], start: usize, n: usize)
    requires { (at + n ≤ length from.now) × (start + n ≤ length to.old) }
    ensures { to.new ≡ copied_run at start n from.now to.old }
{
    for j in 0..n {
        to[start + j] = from[at + j];
    }
}

// So many blocks of W words. The words of a block are all read before the first is written, so that no read waits for a write.
fn copy_blocks<const W: usize>(from: &[u64], at: usize, to: &mut [u64], start: usize, blocks: usize)
    requires { (at + blocks * W ≤ length from.now) × (start + blocks * W ≤ length to.old) }
    ensures { to.new ≡ copied_run at start (blocks * W) from.now to.old }
{
    for b in 0..blocks {
        let mut between = [0u64; W];
        copy_few(from, at + b * W, &mut between, 0, W);
        copy_few(&between, 0, to, start + b * W, W);
    }
}

// By sixteens, by fours, and the rest one by one. Not `copy_from_slice`, for which the archive would need `memmove` from
// outside.
pub fn copy_run(from: &[u64], at: usize, to: &mut [u64], start: usize, n: usize)
    requires { (at + n ≤ length from.now) × (start + n ≤ length to.old) }
    ensures { to.new ≡ copied_run at start n from.now to.old }
{
    let long = n / 16 * 16;
    let done = n / 4 * 4;
    copy_blocks::<16>(from, at, to, start, n / 16);
    copy_blocks::<4>(from, at + long, to, start + long, (n - long) / 4);
    copy_few(from, at + done, to, start + done, n - done);
}
