//! Names of one run with those of the other.

ghost use Rattle.std.specs.Prelude.{◌≡◌, IfOk, option_map};
ghost use Rattle.std.proofs.lemmas.Map.Lookups.{CmpEqualImpliesEq};
ghost use Rattle.iscsi_compare.specs.SameJob.{OneToOne};
ghost use Rattle.iscsi_compare.specs.inner.SameJobLearning.{AgreesWithKnown, IsSound, IsFresh, JoinsNames};

use std::alloc::{AllocError, Global};
use std::collections::BTreeMap;

/// Names of one run with those of the other, found from either side. It grows with the number of
/// distinct names.
#[derive(Drop)]
pub(crate) struct Names<K: Ord> {
    pub(crate) there: BTreeMap<K, K>,
    pub(crate) back: BTreeMap<K, K>,
}

impl<K: Ord + Copy + Drop> Names<K> {
    /// No name is known. It takes no memory.
    pub(crate) fn new(alloc: Global) -> Names<K>
        ensures sound { IsSound K.cmp result.there result.back }
        ensures fresh { IsFresh K.cmp result.there }
    {
        Names {
            there: BTreeMap::new(alloc),
            back: BTreeMap::new(alloc),
        }
    }

    /// One name is known, which stands for itself. Returns `AllocError` where memory runs out.
    pub(crate) fn fixed(alloc: Global, name: K) -> Result<Names<K>, AllocError>
        requires exact { CmpEqualImpliesEq K.cmp }
        ensures sound { IfOk result (λ names. IsSound K.cmp names.there names.back) }
        ensures kept { IfOk result (λ names. (f : OneToOne K) → f.to name ≡ name
            → AgreesWithKnown K.cmp names.there f) }
        ensures said { IfOk result (λ names. (f : OneToOne K) → AgreesWithKnown K.cmp names.there f
            → f.to name ≡ name) }
    {
        let mut names = Names::new(alloc);
        names.join(name, name)?;
        Ok(names)
    }

    /// Whether a name of the one run and a name of the other may be of one thing; if so, they are
    /// from now on. It looks both up, in a time that grows with the logarithm of the number of
    /// names. After `AllocError` the names are of no use.
    pub(crate) fn join(&mut self, mine: K, other: K) -> Result<bool, AllocError>
        requires exact { CmpEqualImpliesEq K.cmp }
        requires sound { IsSound K.cmp self.old.there self.old.back }
        ensures { IfOk result (JoinsNames K.cmp self.old.there self.new.there self.new.back
            (λ f. f.to mine ≡ other)) }
    {
        if let Some(name) = self.there.get(&mine) {
            return Ok(name.cmp(&other).is_eq());
        }
        if self.back.contains_key(&other) {
            return Ok(false);
        }
        self.there.insert(mine, other)?;
        self.back.insert(other, mine)?;
        Ok(true)
    }

    /// The same of names that are there in both runs or in neither.
    pub(crate) fn join_some(
        &mut self,
        mine: Option<K>,
        other: Option<K>,
    ) -> Result<bool, AllocError>
        requires exact { CmpEqualImpliesEq K.cmp }
        requires sound { IsSound K.cmp self.old.there self.old.back }
        ensures { IfOk result (JoinsNames K.cmp self.old.there self.new.there self.new.back
            (λ f. option_map f.to mine ≡ other)) }
    {
        match (mine, other) {
            (None, None) => Ok(true),
            (Some(mine), Some(other)) => self.join(mine, other),
            (Some(_), None) => Ok(false),
            (None, Some(_)) => Ok(false),
        }
    }
}
