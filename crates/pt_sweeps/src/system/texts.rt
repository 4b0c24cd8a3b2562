//! Texts of every storage root.

/// The name of an object's declaration.
pub const DECLARATION: &str = "0=ocfl_object_1.1";

/// The files of a storage root of three tuples of three digits.
pub const OF_ROOT: &[(&str, &str)] = &[
    ("ocfl/0=ocfl_1.1", "ocfl_1.1\n"),
    (
        "ocfl/extensions/0003-hash-and-id-n-tuple-storage-layout/config.json",
        r#"{"digestAlgorithm":"sha256","extensionName":"0003-hash-and-id-n-tuple-storage-layout","numberOfTuples":3,"tupleSize":3}"#,
    ),
    (
        "ocfl/ocfl_layout.json",
        r#"{"description":"SHA-256 of the identifier in tuples, then the encoded identifier","extension":"0003-hash-and-id-n-tuple-storage-layout"}"#,
    ),
];
