// How many different items a list has.
ghost use Rattle.std.specs.Prelude.{◌≡◌, map, vec_items};
ghost use Rattle.std.specs.List.Sorted.{IsPermutation, IsSorted};
ghost use Rattle.text.specs.Distinct.{distinct_of};

use std::collections::BinaryHeap;

// The same items in order, equal ones together. By a heap, since the library's sorts of slices recurse.
fn sorted(items: Vec<Vec<u8>>) -> Vec<Vec<u8>>
    ensures permutation { IsPermutation items.items result.items }
    ensures sorted { IsSorted ⟦<Vec<u8> as Ord>⟧.cmp result.items }
    ensures count { distinct_of (map vec_items result.items) ≡ distinct_of (map vec_items items.items) }
{
    BinaryHeap::from(items).into_sorted_vec()
}

/// How many different items there are.
#[tactic(auto, using(crate::proofs::Counts::kept_differ))]
pub fn distinct(items: Vec<Vec<u8>>) -> usize
    ensures { result ≡ distinct_of (map vec_items items.items) }
{
    let mut together = sorted(items);
    together.dedup();
    together.len()
}
