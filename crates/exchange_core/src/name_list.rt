//! Names in the order in which they came, each found in logarithmic time.
ghost use Rattle.std.specs.Prelude.{◌≡◌, ◌∷◌, ◌++◌, [], IfOk, OnOk, OnErr};
ghost use Rattle.partition_table.specs.Tables.{is_in};

use clash_record::Name;
use std::alloc::{AllocError, Global};
use std::collections::BTreeSet;
use std::marker::Model;

// Names in the order in which they came, and the set of them.
//
// A contract sees the list.
#[derive(Debug, Drop)]
pub(crate) struct NameList {
    listed: Vec<Name>,
    set: BTreeSet<Name>,
}

impl Model for NameList {
    ghost use Rattle.std.specs.Prelude.{List};
    ghost use Rattle.clash_record.specs.Name.{Name};
    ghost use Rattle.exchange_core.specs.Codings.{coded_names};
    ghost use Rattle.exchange_core.specs.model.Listing.{IsSetOf};

    ghost Value = { List Name };

    ghost coded = { coded_names };

    ghost view = { λ l. l.listed.items };

    ghost invariant = { λ l. IsSetOf l.set l.listed.items };
}

impl NameList {
    // Returns an empty list. Allocates nothing.
    pub(crate) fn new(alloc: Global) -> NameList
        ensures { result ≡ [] }
    {
        NameList {
            listed: Vec::new(alloc),
            set: BTreeSet::new(alloc),
        }
    }

    // Checks whether the name is in the list.
    pub(crate) fn contains(&self, name: &Name) -> bool
        ensures { result ≡ is_in name.now self.now }
    {
        self.set.contains(name)
    }

    // Returns the names in the order in which they came.
    pub(crate) fn names(&self) -> &[Name]
        ensures { result.now ≡ self.now }
    {
        &self.listed
    }

    // Adds a name at the end.
    pub(crate) fn push(&mut self, name: Name) -> Result<(), AllocError>
        ensures pushed { OnOk result (self.new ≡ self.old ++ name ∷ []) }
        ensures unchanged { OnErr result (self.new ≡ self.old) }
    {
        self.listed.reserve(1)?;
        self.set.insert(name)?;
        self.listed.push_reserved(name);
        Ok(())
    }

    // Copies the names in the order in which they came.
    pub(crate) fn copy(&self) -> Result<Vec<Name>, AllocError>
        ensures { IfOk result (λ names. names.items ≡ self.now) }
    {
        self.listed.clone()
    }

    // Returns the names in the order in which they came.
    pub(crate) fn into_names(self) -> Vec<Name>
        ensures { result.items ≡ self }
    {
        self.listed
    }
}
