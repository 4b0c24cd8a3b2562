//! A store of one object of one file, and what runs over it must tell and leave.
use crate::system::case::{Case, Met, Object};

pub const CASE: Case = Case {
    name: "one object of one file",
    store: STORE,
    met: &[Met::Object(&ABC)],
};

// The entries of the store.
const STORE: &[(&str, &str)] = &[
    ("pairtree_version0_1", ""),
    ("pairtree_root/ab/c/obj/a.txt", "abc"),
];

// The object.
const ABC: Object = Object {
    place: "ba7/816/bf8/abc",
    done: "{\"as\":\"done\",\"at\":\"ab/c/obj\",\"bytes\":3,\"empty\":0,\"files\":1,\"id\":\"abc\",\"to\":\"ba7/816/bf8/abc\"}\n",
    present: "{\"as\":\"present\",\"at\":\"ab/c/obj\",\"id\":\"abc\",\"to\":\"ba7/816/bf8/abc\"}\n",
    contents: &[("a.txt", "abc")],
    inventory: r#"{"digestAlgorithm":"sha512","head":"v1","id":"abc","manifest":{"ddaf35a193617abacc417349ae20413112e6fa4e89a97ea20a9eeee64b55d39a2192992a274fc1a836ba3c23a3feebbd454d4423643ce80e2a9ac94fa54ca49f":["v1/content/a.txt"]},"type":"https://ocfl.io/1.1/spec/#inventory","versions":{"v1":{"created":"2024-05-01T12:00:00Z","message":"Migrated from Pairtree","state":{"ddaf35a193617abacc417349ae20413112e6fa4e89a97ea20a9eeee64b55d39a2192992a274fc1a836ba3c23a3feebbd454d4423643ce80e2a9ac94fa54ca49f":["a.txt"]},"user":{"name":"Ada"}}}}"#,
    sidecar: "1eb21c66539478d2c419e0d996719da1e26c4c3d1ae2836137bbb99f412ba2fa2877b301344d7d7303197c96be4dbc6520706609ea235ea04f41f4f087a2d28c inventory.json\n",
};
