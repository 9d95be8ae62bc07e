use crate::setup::Setup;
use gate_base::NoCount;
use std::alloc::Global;

/// What answers the requests of `swiftd`: a store over a shelf that is lent.
#[derive(Drop)]
pub(crate) struct LentStore<'a, S> {
    pub(crate) alloc: Global,
    pub(crate) setup: &'a Setup,
    pub(crate) shelf: &'a mut S,
    pub(crate) none: NoCount,
}
