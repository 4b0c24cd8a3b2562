/// What an audit is made over.
#[derive(Drop)]
pub struct ExtraDevices<S, R, L, E> {
    /// The store.
    pub store: S,
    /// The destination, in which the storage root stands.
    pub root: R,
    /// The log.
    pub log: L,
    /// What says why the destination failed to list a folder.
    pub explains: E,
}
