//! Names, registered and unregistered.
ghost use Rattle.std.specs.Prelude.{◌≡◌};
ghost use Rattle.scripts.specs.Machines as machines;
ghost use Rattle.scripts.specs.Machines.{machine_of};
ghost use Rattle.scripts.specs.Steps.{UnlessMemory, RegisterStep, UnregisterStep};

use crate::fault::WordFault;
use crate::labels::resolver_of;
use crate::machine::Machine;
use crate::reply::Reply;
use clash_record::{Name, SideId, Terms};

impl Machine {
    /// Registers a name on a side. The resolver is a built-in resolver's word or a label.
    ///
    /// Returns 41 for any other resolver, then the refusals of the side, and 90 when out of memory. A refusal changes
    /// nothing.
    #[inline]
    pub fn register(&mut self, side: SideId, name: Name, terms: Terms, resolver: &[u8]) -> Reply
        ensures { UnlessMemory (RegisterStep (machine_of self.old) side name terms
            (machines.resolver_named (machine_of self.old).labels resolver.now)) (machine_of self.old) result
            (machine_of self.new) }
    {
        let Some(resolver) = resolver_of(&self.labels, resolver) else {
            return Reply::refused(&WordFault::NoResolver);
        };
        let registration = terms.with_resolver(resolver);
        let answer = self
            .agreements
            .register(&mut self.cluster, side, name, registration, &self.store);
        match answer {
            Ok(()) => Reply::Registered,
            Err(fault) => Reply::refused(&fault),
        }
    }

    /// Unregisters a name from a side.
    ///
    /// Returns the refusals of the side. A refusal changes nothing. Needs no memory.
    pub fn unregister(&mut self, side: SideId, name: &Name) -> Reply
        ensures { UnregisterStep (machine_of self.old) side name.now result (machine_of self.new) }
    {
        let answer = self
            .agreements
            .unregister(&mut self.cluster, side, name, &self.store);
        match answer {
            Ok(_) => Reply::Unregistered,
            Err(refusal) => Reply::refused(&refusal),
        }
    }
}
