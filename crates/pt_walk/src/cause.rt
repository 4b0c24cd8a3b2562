ghost use Rattle.std.specs.Prelude.{◌≡◌};
ghost use Rattle.pt_walk.specs.Cause.{cause_number, cause_word};

/// Why a site, or a shorty that is no site, is passed over.
#[derive(Clone, Copy, Debug, PartialEq, Eq)]
pub enum Cause {
    /// The top directory holds more than shorties.
    Root,
    /// A site other than the top directory holds nothing.
    Empty,
    /// A site other than the top directory holds more than shorties and one directory.
    Split,
    /// A shorty stands below one whose name has one byte.
    Past,
    /// The names of the shorties on the way to a site are no cleaned identifier.
    Name,
    /// The names of the shorties on the way to a site read bytes that are no UTF-8.
    Utf8,
    /// The object holds what is neither a file nor a directory.
    Other,
    /// A limit is passed.
    Limit,
    /// The place of the identifier is kept for the storage root's own use.
    Reserved,
}

impl Cause {
    /// The cause's number: 1 `Root`, 2 `Empty`, 3 `Split`, 4 `Past`, 5 `Name`, 6 `Utf8`, 7 `Other`,
    /// 8 `Limit`, 9 `Reserved`.
    pub fn number(&self) -> u8
        ensures { result ≡ cause_number self.now }
    {
        match self {
            Cause::Root => 1,
            Cause::Empty => 2,
            Cause::Split => 3,
            Cause::Past => 4,
            Cause::Name => 5,
            Cause::Utf8 => 6,
            Cause::Other => 7,
            Cause::Limit => 8,
            Cause::Reserved => 9,
        }
    }

    /// The cause's word in the log: `root`, `empty`, `split`, `past`, `name`, `utf8`, `other`,
    /// `limit`, `reserved`.
    pub fn word(&self) -> &'static str
        ensures { result.now ≡ cause_word self.now }
    {
        match self {
            Cause::Root => "root",
            Cause::Empty => "empty",
            Cause::Split => "split",
            Cause::Past => "past",
            Cause::Name => "name",
            Cause::Utf8 => "utf8",
            Cause::Other => "other",
            Cause::Limit => "limit",
            Cause::Reserved => "reserved",
        }
    }
}
