// The entries of an accepted pair in the three lists, if they have room.
ghost use Rattle.std.specs.Prelude.{◌≡◌, ◌≤◌, length, map, take};
ghost use Rattle.model.specs.Transfers.{fronted};
ghost use Rattle.section.specs.Shares.{address_by};
ghost use Rattle.transfer.specs.Pairs.{Fit, places};
ghost use Rattle.transfer.specs.Walks.{Along, Addressable};
ghost use Rattle.transfer.specs.Answers.{lists_of, listed_in, lists_in};

use crate::questions::Pair;
use crate::walk::{Walk, places_of, walk_of};
use model::{ListError, Position};
use section::shares::{Share, address_of};

// The share's addresses of the first n positions, at the front of a list.
fn write_addresses(s: Share, positions: &[u32], n: usize, list: &mut [u32])
    requires { Addressable s positions.now n list.old }
    ensures { list.new ≡ fronted (map (address_by s) (take n positions.now)) list.old }
{
    for i in 0..n {
        let t = Position(u64::from(positions[i]));
        list[i] = address_of(s, t).0 as u32;
    }
}

// The positions of a walk, at the front of a list. Called, since within its caller the number of the entry would stand in
// memory: transfers between lists of sizes took 1.3 times as long.
#[inline(never)]
fn write_positions(w: Walk, list: &mut [u32])
    requires { Along w × (length (places w.walked w.tested) ≤ length list.old) }
    ensures { list.new ≡ fronted (places w.walked w.tested) list.old }
{
    for (i, t) in places_of(w).enumerate() {
        list[i] = t.0 as u32;
    }
}

// Question 13, the lists, and how many entries they have now. Nothing is written before these are
// counted.
pub(crate) fn list_pair(
    p: Pair,
    positions: &mut [u32],
    sent: &mut [u32],
    received: &mut [u32],
) -> Result<usize, ListError>
    requires { Fit p }
    ensures value { result ≡ listed_in p (lists_of positions.old sent.old received.old) }
    ensures received_after { lists_of positions.new sent.new received.new
        ≡ lists_in p (lists_of positions.old sent.old received.old) }
{
    let w = walk_of(p);
    let n = places_of(w).count();
    if positions.len() < n || sent.len() < n || received.len() < n {
        return Err(ListError::Needs(n as u64));
    }
    write_positions(w, positions);
    let s = p.sender;
    let r = p.receiver;
    write_addresses(s, positions, n, sent);
    write_addresses(r, positions, n, received);
    Ok(n)
}
