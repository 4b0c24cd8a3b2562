//! The worked stores, computed from the definitions by the prover.
ghost use Rattle.pt_run_tests.specs.WorkedRuns.{BadNamesLog, BoundOfEmptyStore};
ghost use Rattle.pt_run_tests.specs.WorkedRuns.{BoundOfEqualContents, BoundOfGathering};
ghost use Rattle.pt_run_tests.specs.WorkedRuns.{DepthsAreLimited};
ghost use Rattle.pt_run_tests.specs.WorkedRuns.{DepthsOfChains, DividedLog};
ghost use Rattle.pt_run_tests.specs.WorkedRuns.{DividedSitesAreGathered};
ghost use Rattle.pt_run_tests.specs.WorkedRuns.{EmptyDirectoriesAreCounted, EmptyStoreLog};
ghost use Rattle.pt_run_tests.specs.WorkedRuns.{ExtensionsLog, FirstBadEntryCounts};
ghost use Rattle.pt_run_tests.specs.WorkedRuns.{LengthsAreLimited, LineFeedLog, LinesComeInOrder};
ghost use Rattle.pt_run_tests.specs.WorkedRuns.{OneIdentifierFlatLog, OneObjectFlatLog};
ghost use Rattle.pt_run_tests.specs.WorkedRuns.{OneObjectIsCarried, OneObjectIsNamed, OneObjectLog};
ghost use Rattle.pt_run_tests.specs.WorkedRuns.{PrefixIsRead, PresentComesFirst};
ghost use Rattle.pt_run_tests.specs.WorkedRuns.{SecondRunCarriesNothing, StoresAreKnown, StraysLog};
ghost use Rattle.pt_run_tests.specs.WorkedRuns.{UsableRootsAreTold, WaysAreTold, WorkOfFirstRuns};
ghost use Rattle.pt_run_tests.specs.WorkedRuns.{WorkOfGathering, WorkOfSecondRun, WorkOfSkips};
ghost use Rattle.pt_run_tests.specs.WorkedRuns.{WorkWithOtherTuples};
ghost use Rattle.pt_run_tests.specs.WorkedTurns.{EmptyStoreTurns, OneObjectTurns};

use pt_invariant::laws as invariant_laws;
use pt_plan::laws;

fn stores()
    ensures { StoresAreKnown }
{}

fn verdicts()
    ensures object { OneObjectIsNamed }
    ensures prefix { PrefixIsRead }
{}

fn logs()
    ensures empty { EmptyStoreLog }
    ensures strays { StraysLog }
    ensures names { BadNamesLog }
    ensures divided { DividedLog }
    ensures reserved { ExtensionsLog }
{}

fn object_logs()
    ensures object { OneObjectLog }
    ensures flat { OneObjectFlatLog }
    ensures order { LinesComeInOrder }
    ensures escaped { LineFeedLog }
    ensures present { OneIdentifierFlatLog }
{}

fn limits()
    ensures first { FirstBadEntryCounts }
    ensures lengths { LengthsAreLimited }
    ensures depths { DepthsAreLimited }
    ensures chains { DepthsOfChains }
{}

fn objects()
    ensures empty { EmptyDirectoriesAreCounted }
    ensures gathered { DividedSitesAreGathered }
    ensures carried { OneObjectIsCarried }
    ensures again { SecondRunCarriesNothing }
    ensures taken { PresentComesFirst }
    ensures ways { WaysAreTold }
    ensures roots { UsableRootsAreTold }
{}

fn turns()
    ensures first { WorkOfFirstRuns }
    ensures second { WorkOfSecondRun }
    ensures tuples { WorkWithOtherTuples }
    ensures skips { WorkOfSkips }
    ensures gathering { WorkOfGathering }
{}

fn single_turns()
    ensures empty { EmptyStoreTurns }
    ensures object { OneObjectTurns }
{}

fn records()
    ensures equal { BoundOfEqualContents }
    ensures gathering { BoundOfGathering }
    ensures none { BoundOfEmptyStore }
{}

#[test]
fn worked_stores_follow_from_the_definitions() {
    stores();
    verdicts();
    logs();
    object_logs();
    limits();
    objects();
    turns();
    single_turns();
    records();
}

#[test]
fn each_law_can_be_called() {
    laws::files_come_in_order();
    laws::carried_files_come_in_order();
    laws::taken_against_earlier();
    laws::carried_grows();
    laws::text_grows();
    laws::all_items_are_all();
    laws::begins_with_the_base();
    laws::what_stands_stays();
    laws::named_is_not_reserved();
    laws::place_stands_where_taken();
    laws::next_place_stands_where_taken();
    laws::lines_tell_numbers();
    laws::end_line_tells_numbers();
    laws::each_line_is_counted();
    laws::counts_grow();
    laws::rerun_ends_alike();
    laws::root_stays_without_staging();
    laws::roots_have_no_gaps();
    laws::after_grows();
    laws::after_stays();
    laws::folders_grow();
    laws::root_is_made_in_place();
    laws::object_is_moved_in();
    laws::root_is_moved_in();
    laws::root_is_its_own();
    laws::faults_leave_what_is_kept();
    laws::rows_make_whole_objects();
    laws::turns_have_no_part();
    laws::way_stays_free();
    laws::shares_tell_the_whole();
    laws::shares_leave_the_whole();
    laws::shares_meet_in_folders();
    laws::folder_shares_tell_the_whole();
    laws::folder_shares_leave_the_whole();
    laws::folder_shares_meet_in_folders();
}

#[test]
fn each_law_of_a_run_in_progress_can_be_called() {
    invariant_laws::new_run_holds_invariant();
    invariant_laws::invariant_enables();
    invariant_laws::turn_keeps_invariant();
    invariant_laws::turn_ends_invariant();
    invariant_laws::ends_well();
    invariant_laws::invariant_is_within_bound();
    invariant_laws::refuses_rightly();
    invariant_laws::finds_staging();
    invariant_laws::starting_keeps_source();
    invariant_laws::walking_keeps_source();
    invariant_laws::scanning_keeps_source();
    invariant_laws::making_keeps_source();
    invariant_laws::placing_keeps_source();
    invariant_laws::starting_keeps_dest();
    invariant_laws::walking_keeps_dest();
    invariant_laws::scanning_keeps_dest();
    invariant_laws::making_keeps_dest();
    invariant_laws::placing_keeps_dest();
    invariant_laws::starting_keeps_held();
    invariant_laws::walking_keeps_held();
    invariant_laws::scanning_keeps_held();
    invariant_laws::making_keeps_held();
    invariant_laws::placing_keeps_held();
    invariant_laws::starting_keeps_items();
    invariant_laws::walking_keeps_items();
    invariant_laws::scanning_keeps_items();
    invariant_laws::making_keeps_items();
    invariant_laws::placing_keeps_items();
}
