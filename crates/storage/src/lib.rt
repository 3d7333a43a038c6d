// Checkpoints in element order: an array's 64-bit words between the processors' storage, laid end to
// end by processor number, and index order. Of a cyclic template runs.rt has the runs of elements in
// one block, row.rt the pointers at which each processor's words go on, and laps.rt goes through the
// runs; words.rt has copies of words, which is all that a GEN_BLOCK template takes. Here are the
// calls, which take whatever numbers and lists.
#![tactic(auto)]

ghost use Rattle.std.specs.Prelude.{◌≡◌};
ghost use Rattle.model.specs.Mappings.{mapping_with};
ghost use Rattle.model.specs.Calls.{ToldApart};
ghost use Rattle.model.specs.Checkpoints.{copy_of, copying, saved, loaded};
ghost use Rattle.model.specs.Sized.{Sized};
ghost use Rattle.storage.specs.Copying.{copied_on, copied_by, Roomy};
ghost use Rattle.storage.specs.Answers.{copied_as, copied_refusals, written, copied_in, written_in};

use mapping::questions::{ask_mapping, list_fits};
use model::{Dealing, Layout, ListError, MOST_PROCESSORS, Mapping};

mod laps;
mod row;
mod runs;
mod words;

// The words of a cyclic template's array, run by run, with each processor's at its pointer.
fn copy_cyclic(loading: bool, l: Layout, from: &[u64], to: &mut [u64])
    requires { Roomy l from.now to.old }
    ensures { to.new ≡ copied_on loading l 0 l.size from.now to.old }
{
    let mut pointers = [0u32; MOST_PROCESSORS as usize];
    row::set_starts(l, &mut pointers);
    laps::copy_all(loading, l, &mut pointers, from, to);
}

// The words by the dealing. Of a GEN_BLOCK template the storages laid end to end are in index order:
// load and save are the same copy.
fn copy_dealt(loading: bool, l: Layout, d: Dealing, from: &[u64], to: &mut [u64])
    requires { Roomy l from.now to.old }
    ensures { to.new ≡ copied_by loading l d from.now to.old }
{
    let n = l.size as usize;
    match d {
        Dealing::Cyclic(_) => copy_cyclic(loading, l, from, to),
        Dealing::GenBlock => words::copy_run(from, 0, to, 0, n),
    }
}

// Question 13, and the copy, of an accepted layout. Nothing is written before both lists are asked.
fn copy_in(
    loading: bool,
    l: Layout,
    d: Dealing,
    from: &[u64],
    to: &mut [u64],
) -> Result<(), ListError>
    requires { Sized l }
    ensures value { result ≡ copied_in l from.now to.old }
    ensures to_after { to.new ≡ written_in loading l d from.now to.old }
    ensures told_apart { ToldApart (copied_refusals result) }
{
    let n = l.size as usize;
    if from.len() < n {
        return Err(ListError::Needs(l.size));
    }
    if to.len() < n {
        return Err(ListError::Needs(l.size));
    }
    copy_dealt(loading, l, d, from, to);
    Ok(())
}

// Load, or save. Once the sizes are asked about, no word's place depends on them.
fn copy_by(
    m: Mapping,
    sizes: &[u8],
    loading: bool,
    from: &[u64],
    to: &mut [u64],
) -> Result<(), ListError>
    ensures result_value { copied_as result ≡ copying (copy_of (mapping_with m sizes.now) from.now to.old) }
    ensures to_after { to.new ≡ written loading (copy_of (mapping_with m sizes.now) from.now to.old) }
    ensures told_apart { ToldApart (copied_refusals result) }
{
    let listed = list_fits(m, sizes);
    let x = ask_mapping(m, sizes, listed)?;
    copy_in(loading, x.layout, m.dealing, from, to)
}

// Writes the words in index order, from the processors' storage.
pub fn save(m: Mapping, sizes: &[u8], storage: &[u64], words: &mut [u64]) -> Result<(), ListError>
    ensures result_value { copied_as result ≡ copying (copy_of (mapping_with m sizes.now) storage.now words.old) }
    ensures words_after { words.new ≡ saved (copy_of (mapping_with m sizes.now) storage.now words.old) }
    ensures storage_value { storage.exit.now ≡ storage.entry.now }
    ensures told_apart { ToldApart (copied_refusals result) }
{
    copy_by(m, sizes, false, storage, words)
}

// Writes the processors' storage, from the words in index order.
pub fn load(m: Mapping, sizes: &[u8], words: &[u64], storage: &mut [u64]) -> Result<(), ListError>
    ensures result_value { copied_as result ≡ copying (copy_of (mapping_with m sizes.now) words.now storage.old) }
    ensures storage_after { storage.new ≡ loaded (copy_of (mapping_with m sizes.now) words.now storage.old) }
    ensures words_value { words.exit.now ≡ words.entry.now }
    ensures told_apart { ToldApart (copied_refusals result) }
{
    copy_by(m, sizes, true, words, storage)
}
