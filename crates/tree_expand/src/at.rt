// What a value and the entries of a map are expanded with, and where they stand.

use expand_types::{MapScope, Scope, Trail};

/// What a value is expanded with, and where it stands.
#[derive(Clone, Copy)]
pub struct At<'a> {
    /// The active context, the active property, and the flag from map.
    pub scope: Scope<'a>,
    /// The way to the value.
    pub trail: &'a Trail<'a>,
}

/// What the entries of a map are expanded with, and where the map stands.
#[derive(Clone, Copy)]
pub(crate) struct Inside<'a> {
    /// The contexts of the map, its input type, and its active property.
    pub scope: MapScope<'a>,
    /// The way to the map.
    pub trail: &'a Trail<'a>,
}
