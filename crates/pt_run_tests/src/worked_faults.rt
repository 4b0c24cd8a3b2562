//! What a fault leaves of the worked stores, computed from the definitions by the prover.
ghost use Rattle.pt_run_tests.specs.WorkedFaults.{EmptyStoreTells, OneIdentifierCounts};
ghost use Rattle.pt_run_tests.specs.WorkedFaults.{OneObjectHasTuples, RerunCarriesTheObject};
ghost use Rattle.pt_run_tests.specs.WorkedFaults.{TwoTuplesStand};

fn faults()
    ensures tuples { OneObjectHasTuples }
    ensures stand { TwoTuplesStand }
    ensures rerun { RerunCarriesTheObject }
    ensures told { EmptyStoreTells }
    ensures counts { OneIdentifierCounts }
{}

#[test]
fn worked_faults_follow_from_the_definitions() {
    faults();
}
