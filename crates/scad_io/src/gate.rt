//! The gate round the work on a layer, by which a test can hold a worker.

/// What stands before and after the work on each layer, in the worker that does it.
/// Its calls change nothing that a contract speaks of.
pub trait Gate: Sync {
    /// Called before the work on a layer.
    fn before(&self, layer: u32);

    /// Called when the work on a layer is done.
    fn after(&self, layer: u32);
}

/// A gate that does nothing.
#[derive(Clone, Copy)]
pub struct Open;

impl Gate for Open {
    /// Called before the work on a layer.
    fn before(&self, _layer: u32) {}

    /// Called when the work on a layer is done.
    fn after(&self, _layer: u32) {}
}
