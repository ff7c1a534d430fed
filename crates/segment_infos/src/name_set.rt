//! A set of Lucene names.
ghost use Rattle.std.specs.Prelude.{◌≡◌, ◌↔◌, true, Contains, IfOk};
ghost use Rattle.segment_infos.specs.Keeping.{HasNames};

use crate::naming::LuceneName;
use lu_prims::OutOfMemory;
use std::alloc::Global;
use std::collections::BTreeSet;
use std::marker::Model;

/// A set of names, in which a name is found in time by the logarithm of their number.
#[derive(Drop)]
pub struct NameSet {
    names: BTreeSet<LuceneName>,
}

impl Model for NameSet {
    ghost use Rattle.std.specs.Prelude.{List};
    ghost use Rattle.std.specs.BTreeSet.{keys};
    ghost use Rattle.segment_infos.specs.declared.naming.LuceneName.{LuceneName};

    ghost Value = { List LuceneName };

    ghost view = { λ s. keys s.names };
}

impl NameSet {
    /// The set of these names.
    pub fn of(alloc: Global, names: &[LuceneName]) -> Result<NameSet, OutOfMemory>
        ensures { IfOk result (λ set. HasNames set names.now) }
    {
        let mut set = BTreeSet::new(alloc);
        for name in names {
            set.insert(*name)?;
        }
        Ok(NameSet { names: set })
    }

    /// Whether the name is in the set.
    pub fn has(&self, name: &LuceneName) -> bool
        ensures { (result ≡ true) ↔ Contains self.now name.now }
    {
        self.names.contains(name)
    }
}
