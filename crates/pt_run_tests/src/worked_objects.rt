//! The worked objects, computed from the definitions by the prover.
ghost use Rattle.pt_run_tests.specs.WorkedObjects.{EqualContentsPaths, FourFilesStored};
ghost use Rattle.pt_run_tests.specs.WorkedObjects.{NoFilesPaths, OneFileObject, OneFileScript};
ghost use Rattle.pt_run_tests.specs.WorkedObjects.{RootStands, SharedFolders};

fn one_file()
    ensures object { OneFileObject }
    ensures script { OneFileScript }
{}

fn equal_contents()
    ensures { EqualContentsPaths }
{}

fn no_files()
    ensures { NoFilesPaths }
{}

fn four_files()
    ensures { FourFilesStored }
{}

fn shared_folders()
    ensures { SharedFolders }
{}

fn root()
    ensures { RootStands }
{}

#[test]
fn worked_objects_follow_from_the_definitions() {
    one_file();
    equal_contents();
    no_files();
    four_files();
    shared_folders();
    root();
}
