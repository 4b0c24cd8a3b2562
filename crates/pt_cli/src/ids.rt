// The words of the commands, and the ids of what they take: an option or a flag goes by its id, as
// `--id`.

pub(crate) const NAMES: &str = "names";

pub(crate) const ID: &str = "ID";

pub(crate) const MIGRATE: &str = "migrate";

pub(crate) const AUDIT: &str = "audit";

pub(crate) const CHECK: &str = "check";

pub(crate) const CREATED: &str = "created";

pub(crate) const NAME: &str = "name";

pub(crate) const ADDRESS: &str = "address";

pub(crate) const MESSAGE: &str = "message";

pub(crate) const DIGEST: &str = "digest";

pub(crate) const TUPLE_SIZE: &str = "tuple-size";

pub(crate) const TUPLES: &str = "tuples";

pub(crate) const GATHER: &str = "gather";

pub(crate) const SHARE: &str = "share";

pub(crate) const BY_FOLDERS: &str = "by-folders";

pub(crate) const ONLY: &str = "only";

pub(crate) const LIST: &str = "list";

pub(crate) const IGNORE: &str = "ignore";

pub(crate) const SYNC: &str = "sync";

pub(crate) const REHEARSE: &str = "dry-run";

pub(crate) const PRESENT_OK: &str = "present-ok";

pub(crate) const SKIPS_OK: &str = "skips-ok";

pub(crate) const EXTRA: &str = "extra";

pub(crate) const QUICK: &str = "quick";

pub(crate) const VERBOSE: &str = "verbose";

pub(crate) const QUIET: &str = "quiet";

pub(crate) const PROGRESS: &str = "progress";

pub(crate) const INTERVAL: &str = "interval";

pub(crate) const EXPECT: &str = "expect";

pub(crate) const EVENT: &str = "event";

pub(crate) const READ: &str = "read";

pub(crate) const INTO: &str = "dest";

pub(crate) const PREFIX: &str = "prefix";

pub(crate) const SOURCE: &str = "SOURCE";

pub(crate) const DEST: &str = "DEST";
