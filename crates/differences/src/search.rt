// The search under both calls: how many places of two shown screens differ, the next that does, and its record.
ghost use Rattle.std.specs.Prelude.{◌≡◌, ◌-◌, ◌≤◌, ◌<◌, true, false, not, length, get_or, eqb, MatchResult};
ghost use Rattle.differences.specs.declared.Refusal.TheVariants.{StoreSize};
ghost use Rattle.differences.specs.Answers.{sized};
ghost use Rattle.differences.specs.Differences.{record_at, differences, sought};

use super::{Difference, Refusal};
use model::SHOWN;

// Two shown screens.
#[derive(Clone, Copy)]
pub(crate) struct Screens<'a> {
    first: &'a [u8; SHOWN],
    second: &'a [u8; SHOWN],
}

impl<'a> Screens<'a> {
    // "takes two shown screens of 640 bytes".
    pub(crate) fn new(first: &'a [u8], second: &'a [u8]) -> Result<Screens<'a>, Refusal>
        ensures { MatchResult result (λ s. (sized first.now second.now ≡ true) × ((s.first.now ≡ first.now) × (s.second.now ≡ second.now))) (λ e. (sized first.now second.now ≡ false) × (e ≡ StoreSize)) }
    {
        let Some(first) = first.as_array() else {
            return Err(Refusal::StoreSize);
        };
        let Some(second) = second.as_array() else {
            return Err(Refusal::StoreSize);
        };
        Ok(Screens { first, second })
    }

    // How many places differ. No turn stops early, and the number has no more bits than it needs, so that a compiler compares many bytes at
    // once: a chain of `filter` and `count` does not.
    pub(crate) fn count(self) -> usize
        ensures { result ≡ length (differences self.entry.first.now self.entry.second.now) }
    {
        let mut n = 0u16;
        for place in 0..SHOWN {
            if self.differ(place) {
                n += 1;
            }
        }
        usize::from(n)
    }

    // Whether a place differs.
    pub(crate) fn differ(self, place: usize) -> bool
        requires { place < 640 }
        ensures { result ≡ not (eqb (get_or self.entry.first.now place 0) (get_or self.entry.second.now place 0)) }
    {
        self.first[place] != self.second[place]
    }

    // The first place from `from` on that differs, or 640.
    pub(crate) fn seek(self, from: usize) -> usize
        requires { from ≤ 640 }
        ensures { result ≡ sought (640 - from) from self.entry.first.now self.entry.second.now }
    {
        for place in from..SHOWN {
            if self.differ(place) {
                return place;
            }
        }
        SHOWN
    }

    // The record of a place.
    pub(crate) fn record_at(self, place: usize) -> Difference
        requires { place < 640 }
        ensures { result ≡ record_at self.entry.first.now self.entry.second.now place }
    {
        Difference {
            row: (place / 80 + 1) as u8,
            column: (place % 80 + 1) as u8,
            first: self.first[place],
            second: self.second[place],
        }
    }
}
