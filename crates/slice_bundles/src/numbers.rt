//! The numbers of a bundle.

/// The numbers of a bundle's edges. One alone takes no memory of its own.
#[derive(Drop)]
pub(crate) enum Numbers {
    One(u32),
    Many(Vec<u32>),
}
