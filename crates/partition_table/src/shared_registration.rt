//! A registration that tables and clashes share.
ghost use Rattle.std.specs.Prelude.{◌≡◌, IfOk};
ghost use Rattle.std.specs.Option.{option_map};

use clash_record::Registration;
use std::alloc::{AllocError, Global};
use std::marker::Model;
use std::ops::Deref;
use std::sync::Arc;

// A registration that tables and clashes share. Contracts see it as the registration.
#[derive(Debug, Drop)]
pub(crate) struct SharedRegistration {
    shared: Arc<Registration>,
}

impl Model for SharedRegistration {
    ghost use Rattle.std.specs.Arc.{arc_value};
    ghost use Rattle.clash_record.specs.declared.registrations.Registration.{Registration};
    ghost use Rattle.clash_record.specs.laws.Codings.{coded_registration};

    ghost Value = { Registration };

    ghost coded = { coded_registration };

    ghost view = { λ r. arc_value r.shared };
}

impl SharedRegistration {
    // Lets tables and clashes share the registration.
    pub(crate) fn new(
        alloc: Global,
        registration: Registration,
    ) -> Result<SharedRegistration, AllocError>
        ensures { IfOk result (λ shared. shared ≡ registration) }
    {
        Ok(SharedRegistration {
            shared: Arc::new(alloc, registration)?,
        })
    }
}

// Lends the registration that was found, if any.
#[inline]
pub(crate) fn lent(found: Option<&SharedRegistration>) -> Option<&Registration>
    ensures { option_map (λ r. r.now) result ≡ option_map (λ r. r.now) found.entry }
{
    let registration = found?;
    Some(registration)
}

// Adds an owner of the registration. Copies nothing.
impl Clone for SharedRegistration {
    ghost is_clone = { λ registration copy. copy ≡ registration };

    fn clone(&self) -> Result<SharedRegistration, AllocError> {
        Ok(SharedRegistration {
            shared: self.shared.clone()?,
        })
    }
}

impl Deref for SharedRegistration {
    type Target = Registration;

    ghost deref_gives = { λ shared registration. registration ≡ shared };

    fn deref(&self) -> &Registration
        ensures { result.now ≡ self.now }
    {
        &self.shared
    }
}
