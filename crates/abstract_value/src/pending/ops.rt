//! Operations on pending states.
ghost use Rattle.std.specs.Prelude.{◌≡◌, ℕ, ◌<◌, ◌≤◌, ◌^◌, max, None, Some, IfOk, replicate};
ghost use Rattle.abstract_value.specs.States.{view, put};
ghost use Rattle.abstract_value.specs.Pending.{room, held, size, peak_of, boxed_view, nothing, with_joined};

use super::Pending;
use crate::{Domain, State};
use std::alloc::{AllocError, Global};

// Returns `slots` empty places.
fn no_states<D: Domain>(
    alloc: Global,
    slots: usize,
) -> Result<Vec<Option<Box<State<D>>>>, AllocError>
    ensures { IfOk result (λ states. states.items ≡ replicate slots None) }
{
    let mut states = Vec::with_capacity(alloc, slots)?;
    for _ in 0..slots {
        states.push(None)?;
    }
    Ok(states)
}

impl<D: Domain> Pending<D> {
    /// Creates a map without states, with room for `slots` slots.
    pub fn new(alloc: Global, slots: usize) -> Result<Pending<D>, AllocError>
        requires { slots < 2 ^ 32 }
        ensures room { IfOk result (λ p. room p ≡ slots) }
        ensures states { IfOk result (λ p. held p ≡ nothing) }
        ensures peak { IfOk result (λ p. peak_of p ≡ 0) }
    {
        Ok(Pending {
            states: no_states(alloc, slots)?,
            count: 0,
            peak: 0,
        })
    }

    /// Returns the peak number of states.
    pub fn peak(&self) -> u32
        ensures peak { result ≡ peak_of self.now }
        ensures least { size self.now ≤ result }
    {
        self.peak
    }

    /// Takes the state of a slot, if it has one.
    pub fn take(&mut self, at: usize) -> Option<Box<State<D>>>
        requires { at < room self.old }
        ensures state { boxed_view result ≡ held self.old at }
        ensures states { held self.new ≡ put (held self.old) at None }
        ensures room { room self.new ≡ room self.old }
        ensures peak { peak_of self.new ≡ peak_of self.old }
    {
        let state = self.states[at].take();
        if state.is_some() {
            self.count -= 1;
        }
        state
    }

    // Inserts a state for a slot that has none.
    fn insert(&mut self, at: usize, state: Box<State<D>>)
        requires place { at < room self.old }
        requires none { held self.old at ≡ None }
        ensures states { held self.new ≡ put (held self.old) at (Some (view state.value)) }
        ensures room { room self.new ≡ room self.old }
        ensures peak { peak_of self.new ≡ max (peak_of self.old) (size self.new) }
    {
        self.states[at] = Some(state);
        self.count += 1;
        self.peak = self.peak.max(self.count);
    }

    /// Joins a state to the slot's state, or inserts it if the slot has none.
    pub fn put(&mut self, at: usize, state: Box<State<D>>)
        requires { at < room self.old }
        ensures states { held self.new
            ≡ put (held self.old) at (Some (with_joined D.ops (held self.old at) (view state.value))) }
        ensures room { room self.new ≡ room self.old }
        ensures peak { peak_of self.new ≡ max (peak_of self.old) (size self.new) }
    {
        let joined = match self.take(at) {
            Some(mut old) => {
                old.join(&state);
                old
            }
            None => state,
        };
        self.insert(at, joined);
    }
}
