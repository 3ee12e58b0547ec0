// The links in a record, each of one word.
ghost use Rattle.std.specs.Prelude.{◌≡◌, ◌+◌, ◌<◌, ◌^◌, Option, IfSome};

use std::marker::Model;

// The slot of a record, or none. An `Option<usize>` has two words, and a table has two links for each record, so the
// word is 0 for no slot, and else one more than the slot.
#[derive(Clone, Copy)]
pub(crate) struct Link {
    word: usize,
}

impl Model for Link {
    ghost use Rattle.std.specs.Prelude.{ℕ, Option};
    ghost use Rattle.std.proofs.Common.{ap};
    ghost use Rattle.tree.specs.Links.{slot_of, word_of, word_of_slot};

    ghost Value = { Option ℕ };

    ghost view = { λ a. slot_of a.word };

    ghost inverse = { λ k. record { word = word_of k } };

    ghost inverse_ok = { λ a h. ap (λ n. record { word = n }) (word_of_slot a.word) };
}

impl Link {
    // The link to a slot. Each slot of a table has one, since a table's length fits a `usize`.
    pub(crate) fn to(slot: Option<usize>) -> Link
        requires { IfSome slot (λ k. k + 1 < 2 ^ 64) }
        ensures { result ≡ slot }
    {
        Link {
            word: slot.map_or(0, |k| k + 1),
        }
    }

    pub(crate) fn slot(self) -> Option<usize>
        ensures { result ≡ self }
    {
        self.word.checked_sub(1)
    }
}
