//! Removals that an entry keeps beside its block of states, without memory of their own.

ghost use Rattle.std.specs.Prelude.{◌≡◌, ◌==◌, ℕ, [], ◌∷◌, IsTrue, length, if◌then◌else◌};
ghost use Rattle.std.specs.List.{AllByRecursion};
ghost use Rattle.cg_types.specs.Numbers.{IsVersionHeld};
ghost use Rattle.cg_entry.specs.Removals.{removal_at, version_if_any};

use cg_types::{Shows, StateKey, Version};
use std::marker::Model;

// The version of each key's removal, in the order of the keys; 0 at a key that was not removed.
#[derive(Debug, Drop)]
pub(crate) struct Removals {
    // So that a test for none reads one word.
    any: bool,
    versions: [u32; 16],
}

impl Model for Removals {
    ghost use Rattle.std.specs.Prelude.{List, ℕ, [], ◌∷◌, if◌then◌else◌};
    ghost use Rattle.std.specs.List.{AllByRecursion};
    ghost use Rattle.std.specs.Coded.{coded_list, coded_ℕ};
    ghost use Rattle.cg_types.specs.Numbers.{IsVersionHeld};

    ghost Value = { List ℕ };

    ghost coded = { coded_list coded_ℕ };

    // (0 is no key)
    ghost view = { λ r. if r.any then 0 ∷ r.versions else [] };

    ghost invariant = { λ r. AllByRecursion IsVersionHeld r.versions };
}

// Each version is in range.
impl Shows for Removals {
    ghost use Rattle.std.specs.List.{AllByRecursion};
    ghost use Rattle.cg_types.specs.Numbers.{IsVersionHeld};

    ghost Shown = { AllByRecursion IsVersionHeld };

    #[inline(always)]
    fn show(&self) {
        self.any;
    }
}

impl Removals {
    pub(crate) fn none() -> Removals
        ensures { result ≡ [] }
    {
        Removals {
            any: false,
            versions: [0; 16],
        }
    }

    // Tests whether there is no removal.
    pub(crate) fn is_none(&self) -> bool
        ensures { IsTrue result → self.now ≡ [] }
    {
        !self.any
    }

    pub(crate) fn copy(&self) -> Removals
        ensures { result ≡ self.now }
    {
        Removals {
            any: self.any,
            versions: self.versions,
        }
    }

    // The version of a key's removal, if there is one.
    pub(crate) fn get(&self, key: StateKey) -> Option<Version>
        ensures { result ≡ version_if_any (removal_at self.now key) }
    {
        if !self.any {
            return None;
        }
        Version::new(self.versions[usize::from(key.get()) - 1])
    }

    // The version of each key's removal, or 0.
    fn by_key(&self) -> [u32; 16]
        ensures value { (k : ℕ) → removal_at (0 ∷ result) k ≡ removal_at self.now k }
        ensures valid { AllByRecursion IsVersionHeld result }
        ensures long { length result ≡ 16 }
    {
        if !self.any {
            return [0; 16];
        }
        self.versions
    }

    // Puts the version of a key's removal.
    pub(crate) fn put(&mut self, key: StateKey, version: Version)
        ensures { (k : ℕ) → removal_at self.new k ≡ if k == key then version else removal_at self.old k }
    {
        let mut versions = self.by_key();
        versions[usize::from(key.get()) - 1] = version.get();
        *self = Removals {
            any: true,
            versions,
        };
    }
}
