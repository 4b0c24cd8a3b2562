/// What a check is made over.
#[derive(Drop)]
pub struct CheckDevices<S, L, E> {
    /// The source whose tree is the store.
    pub source: S,
    /// The log that is told.
    pub log: L,
    /// What says why the source failed.
    pub explains: E,
}
