//! What follows of a check from its promises. Each law is the contract of a function that does
//! nothing.
ghost use Rattle.pt_check.specs.Clean.{NoRunFailsForSource, NoRunSkipsForLimit, NoRunSkipsForOther};
ghost use Rattle.pt_check.specs.Clean.{NoRunSkipsForReserved};
ghost use Rattle.pt_check.specs.Clean.{QuietCheckMeansCleanStore, QuietCheckMeansReadableStore};
ghost use Rattle.pt_check.specs.ShareLaws.{CheckDoesItsSteps, CheckSharesAddUp};
ghost use Rattle.pt_check.specs.ShareLaws.{CheckOwnsAsRun, CheckSharesDoTheWhole};

/// Where a check ended well and told nothing there is nothing to tell of its store, as its source
/// told it; and no call of that failed.
pub fn quiet_check_means_clean_store()
    ensures { QuietCheckMeansCleanStore }
{}

/// And where it read files whole, that source, if it tells where it fails, fails at nothing that a
/// run asks it for.
pub fn quiet_check_means_readable_store()
    ensures { QuietCheckMeansReadableStore }
{}

/// So a run, which fails only where it asks, raises no count of failures of such a source in which
/// no file is open at which it fails.
pub fn no_run_fails_for_source()
    ensures { NoRunFailsForSource }
{}

/// No run over a store of which there is nothing to tell passes an object over for `other`.
pub fn no_run_skips_for_other()
    ensures { NoRunSkipsForOther }
{}

/// No run with the limits of a check passes anything over for `limit` in a store of which there is
/// nothing to tell, its files read whole.
pub fn no_run_skips_for_limit()
    ensures { NoRunSkipsForLimit }
{}

/// No run with the tuples of a check passes anything over for `reserved` in a store of which there
/// is nothing to tell.
pub fn no_run_skips_for_reserved()
    ensures { NoRunSkipsForReserved }
{}

/// Where the check of a share ended well, and its source failed at nothing, its log has the lines
/// of its steps (`steps_of`), and its numbers count them.
pub fn check_does_its_steps()
    ensures { CheckDoesItsSteps }
{}

/// Over any number of shares, by identifiers or by folders so deep, of whatever is chosen, each
/// step of a check of the whole is one of the check of just one share, and there is no other.
pub fn check_shares_do_the_whole()
    ensures { CheckSharesDoTheWhole }
{}

/// So each number of its last line is the sum of those of the shares, up to the greatest count; the
/// largest object and the longest path are the greatest of those.
pub fn check_shares_add_up()
    ensures { CheckSharesAddUp }
{}

/// The object of a site is a share's own to its check where a run of the share tells of it.
pub fn check_owns_as_run()
    ensures { CheckOwnsAsRun }
{}
