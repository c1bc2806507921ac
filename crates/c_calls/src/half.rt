//! One half: its side of exchanges, and the programs uploaded for it.
ghost use Rattle.std.specs.Prelude.{◌≡◌, None};
ghost use Rattle.c_calls.specs.Halves.{side_and_store};

use exchange_core::Side;
use partition_table::Agreement;
use std::marker::Model;
use upload_store::UploadStore;

/// One half's side of exchanges, and the programs that its registrations may name. Contracts see these two.
///
/// It remembers which of the programs are known to agree with the side's table, so that registrations don't compare their
/// code again.
#[derive(Debug, Drop)]
pub struct Half {
    pub(crate) side: Side,
    pub(crate) store: UploadStore,
    pub(crate) agreement: Option<Agreement>,
}

impl Model for Half {
    ghost use Rattle.std.specs.Prelude.{◌≡◌, IfSome};
    ghost use Rattle.exchange_core.specs.Shown.{shown};
    ghost use Rattle.c_calls.specs.Halves.{SideAndStore, coded_side_and_store};

    ghost Value = { SideAndStore };

    ghost coded = { coded_side_and_store };

    ghost view = { λ h. record { side = h.side; store = h.store } };

    ghost invariant = { λ h. IfSome h.agreement (λ a. a ≡ record { table = (shown h.side).table; store = h.store }) };
}

impl Half {
    /// Returns the half of this side and these programs. Allocates nothing.
    pub fn of(side: Side, store: UploadStore) -> Half
        ensures { result ≡ side_and_store side store }
    {
        Half {
            side,
            store,
            agreement: None,
        }
    }

    /// Returns the side. Allocates nothing.
    pub fn side(&self) -> &Side
        ensures { result.now ≡ self.now.side }
    {
        &self.side
    }
}

// Forgets the agreement, before the table or the programs change.
pub(crate) fn forget(agreement: &mut Option<Agreement>)
    ensures { agreement.new ≡ None }
{
    *agreement = None;
}
