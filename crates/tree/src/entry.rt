// What a tree holds, and tests of it.
ghost use Rattle.std.specs.Prelude.{◌≡◌, Bool, List, [], ◌∷◌, ◌++◌};
ghost use Rattle.std.specs.List.{list_any};
ghost use Rattle.std.specs.Cmp.{IsTotalOrder};
ghost use Rattle.std.specs.declared.cmp.Ordering.{Ordering};
ghost use Rattle.std.specs.declared.cmp.Ordering.TheVariants.{Equal};

use std::cmp::Ordering;

/// An entry of a tree: it has a key, the tree stands in the order of the keys, and each subtree has a summary.
pub trait Entry: Copy {
    /// What entries are found by and stand in the order of.
    type Key: Copy;

    /// What is known of the entries of a subtree together; `()` where nothing is wanted.
    type Summary: Copy;

    // The key of each entry.
    ghost key: { Self → Self.Key };

    // How two keys stand to each other. The order is the entry's own, so that keys of one type can stand in several.
    ghost compare: { Self.Key → Self.Key → Ordering };

    // The summary is right for these entries, in their order.
    ghost sums: { Self.Summary → List Self → Type 0 };

    /// The entry's key.
    fn key(self) -> Self::Key
        ensures { result ≡ key self };

    /// How the one key stands to the other.
    fn compare(a: Self::Key, b: Self::Key) -> Ordering
        ensures { result ≡ compare a b };

    /// The summary of no entries.
    fn nothing() -> Self::Summary
        ensures { sums result [] };

    /// The summary of this entry alone.
    fn summary(self) -> Self::Summary
        ensures { sums result (self ∷ []) };

    /// The summary of two lists of entries end to end, from theirs.
    fn join(a: Self::Summary, b: Self::Summary) -> Self::Summary
        ensures { (xs ys : List Self) → sums a xs → sums b ys → sums result (xs ++ ys) };

    // A total order, in which keys that compare as equal are one.
    ghost total: { IsTotalOrder compare };

    ghost apart: { (a b : Self.Key) → compare a b ≡ Equal → a ≡ b };
}

/// A test of entries that a summary answers for all those that it is right for.
pub trait Probe<E: Entry> {
    ghost passes: { Self → E → Bool };

    /// Whether the entry passes.
    fn entry_passes(&self, entry: E) -> bool
        ensures { result ≡ passes self.now entry };

    /// Whether some entry passes of any list that the summary is right for.
    fn some_pass(&self, summary: E::Summary) -> bool
        ensures { (es : List E) → E.Entry.sums summary es → result ≡ list_any (passes self.now) es };
}
