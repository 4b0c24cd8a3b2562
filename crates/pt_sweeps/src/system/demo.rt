//! The store in demo/, and what runs over it must tell and leave.
use crate::system::case::{Case, Met, Object};

pub const CASE: Case = Case {
    name: "the store in demo/",
    store: STORE,
    met: MET,
};

// The entries of the store.
const STORE: &[(&str, &str)] = &[
    (
        "pairtree_version0_1",
        "This directory conforms to Pairtree Version 0.1.\n",
    ),
    ("pairtree_prefix", "ark:/13030/\n"),
    (
        "pairtree_root/README.txt",
        "A file that somebody left in the root.\n",
    ),
    (
        "pairtree_root/xt/12/t3/xt12t3/data/page1-again.txt",
        "The first page.\n",
    ),
    (
        "pairtree_root/xt/12/t3/xt12t3/data/page1.txt",
        "The first page.\n",
    ),
    (
        "pairtree_root/xt/12/t3/xt12t3/data/page2.txt",
        "The second page.\n",
    ),
    (
        "pairtree_root/xt/12/t3/xt12t3/mets.xml",
        "<mets><page>data/page1.txt</page><page>data/page2.txt</page></mets>\n",
    ),
    ("pairtree_root/xt/12/t4/letters/drafts/", ""),
    ("pairtree_root/xt/12/t4/letters/letter.txt", "Dear Ada,\n"),
    ("pairtree_root/xt/33/pictures/cover.txt", "picture.txt"),
    ("pairtree_root/xt/33/pictures/picture.txt", "A picture.\n"),
    (
        "pairtree_root/xt/56/q8/scans/scan.txt",
        "One of two folders.\n",
    ),
    (
        "pairtree_root/xt/56/q8/texts/text.txt",
        "The other of two folders.\n",
    ),
    ("pairtree_root/xt/77/", ""),
    (
        "pairtree_root/xt/90/k/ab/extra/note.txt",
        "Below a name of one letter no identifier goes on.\n",
    ),
    ("pairtree_root/xt/90/k/kite/kite.txt", "A kite.\n"),
    (
        "pairtree_root/xt/^z/broken/file.txt",
        "The names above read nothing.\n",
    ),
];

// What is carried and what is passed over, in the order of the walk.
const MET: &[Met] = &[
    Met::Skip("{\"as\":\"skip\",\"at\":\"\",\"cause\":\"root\"}\n"),
    Met::Object(&PAGES),
    Met::Object(&LETTERS),
    Met::Object(&PICTURES),
    Met::Skip("{\"as\":\"skip\",\"at\":\"xt/56/q8\",\"cause\":\"split\"}\n"),
    Met::Skip("{\"as\":\"skip\",\"at\":\"xt/77\",\"cause\":\"empty\"}\n"),
    Met::Object(&KITE),
    Met::Skip("{\"as\":\"skip\",\"at\":\"xt/90/k/ab\",\"cause\":\"past\"}\n"),
    Met::Skip("{\"as\":\"skip\",\"at\":\"xt/^z\",\"cause\":\"name\"}\n"),
];

// Four files; of two equal pages one is stored.
const PAGES: Object = Object {
    place: "4b8/4fe/385/ark%3a%2f13030%2fxt12t3",
    done: "{\"as\":\"done\",\"at\":\"xt/12/t3/xt12t3\",\"bytes\":117,\"empty\":0,\"files\":4,\"id\":\"ark:/13030/xt12t3\",\"to\":\"4b8/4fe/385/ark%3a%2f13030%2fxt12t3\"}\n",
    present: "{\"as\":\"present\",\"at\":\"xt/12/t3/xt12t3\",\"id\":\"ark:/13030/xt12t3\",\"to\":\"4b8/4fe/385/ark%3a%2f13030%2fxt12t3\"}\n",
    contents: &[
        ("data/page1-again.txt", "The first page.\n"),
        ("data/page2.txt", "The second page.\n"),
        (
            "mets.xml",
            "<mets><page>data/page1.txt</page><page>data/page2.txt</page></mets>\n",
        ),
    ],
    inventory: r#"{"digestAlgorithm":"sha512","head":"v1","id":"ark:/13030/xt12t3","manifest":{"5a896b0732dddf9c12ba6d746b9068f59d15382af7c5cd265c835394b4c4094d8e095a5eae80dca1946e628587c134c57a46ec6af3a1b45b6bea4c74e621dc2a":["v1/content/data/page2.txt"],"6b5469fa97d2ee1323dcbf9164b5ed25bed051b53c0f49bfcd5b9ff4906affdfaf025f1f9ab5a030316a456a24e1451425a13f07ac7a4b73e32c192258c3b5fe":["v1/content/mets.xml"],"d946326774b10abf5700f30b5f24d2ffffa8c692a7ec5c4c0fd248c34e4b10982efed9f96d92c18419f9200b9f78670830e79199439e14ffbba48e808f9cce90":["v1/content/data/page1-again.txt"]},"type":"https://ocfl.io/1.1/spec/#inventory","versions":{"v1":{"created":"2024-05-01T12:00:00Z","message":"Migrated from Pairtree","state":{"5a896b0732dddf9c12ba6d746b9068f59d15382af7c5cd265c835394b4c4094d8e095a5eae80dca1946e628587c134c57a46ec6af3a1b45b6bea4c74e621dc2a":["data/page2.txt"],"6b5469fa97d2ee1323dcbf9164b5ed25bed051b53c0f49bfcd5b9ff4906affdfaf025f1f9ab5a030316a456a24e1451425a13f07ac7a4b73e32c192258c3b5fe":["mets.xml"],"d946326774b10abf5700f30b5f24d2ffffa8c692a7ec5c4c0fd248c34e4b10982efed9f96d92c18419f9200b9f78670830e79199439e14ffbba48e808f9cce90":["data/page1-again.txt","data/page1.txt"]},"user":{"name":"Ada"}}}}"#,
    sidecar: "869f6811fbabb9b15524299cfa404719d41cf70987593cd2ad9ab354c7c29d20b1637195551e20edc1c2535a29c1829655bba54b823b3cb93b2937fd8d236f0f inventory.json\n",
};

// A file, and an empty folder that isn't carried.
const LETTERS: Object = Object {
    place: "58e/6c9/6be/ark%3a%2f13030%2fxt12t4",
    done: "{\"as\":\"done\",\"at\":\"xt/12/t4/letters\",\"bytes\":10,\"empty\":1,\"files\":1,\"id\":\"ark:/13030/xt12t4\",\"to\":\"58e/6c9/6be/ark%3a%2f13030%2fxt12t4\"}\n",
    present: "{\"as\":\"present\",\"at\":\"xt/12/t4/letters\",\"id\":\"ark:/13030/xt12t4\",\"to\":\"58e/6c9/6be/ark%3a%2f13030%2fxt12t4\"}\n",
    contents: &[("letter.txt", "Dear Ada,\n")],
    inventory: r#"{"digestAlgorithm":"sha512","head":"v1","id":"ark:/13030/xt12t4","manifest":{"fcab03820160b683de375e1acf7cdd4dcebbf277fc01dff397e496534a7cf000c8136f82cf7b4d813218cdaff6f55bf1be4aea11b79232fcdc5763e4ae43a8d7":["v1/content/letter.txt"]},"type":"https://ocfl.io/1.1/spec/#inventory","versions":{"v1":{"created":"2024-05-01T12:00:00Z","message":"Migrated from Pairtree","state":{"fcab03820160b683de375e1acf7cdd4dcebbf277fc01dff397e496534a7cf000c8136f82cf7b4d813218cdaff6f55bf1be4aea11b79232fcdc5763e4ae43a8d7":["letter.txt"]},"user":{"name":"Ada"}}}}"#,
    sidecar: "2abfe2ad1932b7e58642ec372791a41f56e74d9f305be1fdee38e48e1f5547a3e10fd452d817d5cd44cd33282073af3780a7d426baaea5a7774d67cc6dfaff9f inventory.json\n",
};

// Two files.
const PICTURES: Object = Object {
    place: "f41/fc3/11b/ark%3a%2f13030%2fxt33",
    done: "{\"as\":\"done\",\"at\":\"xt/33/pictures\",\"bytes\":22,\"empty\":0,\"files\":2,\"id\":\"ark:/13030/xt33\",\"to\":\"f41/fc3/11b/ark%3a%2f13030%2fxt33\"}\n",
    present: "{\"as\":\"present\",\"at\":\"xt/33/pictures\",\"id\":\"ark:/13030/xt33\",\"to\":\"f41/fc3/11b/ark%3a%2f13030%2fxt33\"}\n",
    contents: &[
        ("cover.txt", "picture.txt"),
        ("picture.txt", "A picture.\n"),
    ],
    inventory: r#"{"digestAlgorithm":"sha512","head":"v1","id":"ark:/13030/xt33","manifest":{"5a7d8c5a75c11438f471908184ba2a9dfcec7224116ff09df0a46fd7abea30fbdf48ec542379d811368303a785db8bf464dab9e61a5a3978cf03e358a9b5b679":["v1/content/picture.txt"],"c801fd3d98796bc3f080b8d407a04c07f79048e34ecfc5530cf752f5006016c2487856f9c890fa03fd38dd9b26fc239a677a40659201915102d19c1d5008ce01":["v1/content/cover.txt"]},"type":"https://ocfl.io/1.1/spec/#inventory","versions":{"v1":{"created":"2024-05-01T12:00:00Z","message":"Migrated from Pairtree","state":{"5a7d8c5a75c11438f471908184ba2a9dfcec7224116ff09df0a46fd7abea30fbdf48ec542379d811368303a785db8bf464dab9e61a5a3978cf03e358a9b5b679":["picture.txt"],"c801fd3d98796bc3f080b8d407a04c07f79048e34ecfc5530cf752f5006016c2487856f9c890fa03fd38dd9b26fc239a677a40659201915102d19c1d5008ce01":["cover.txt"]},"user":{"name":"Ada"}}}}"#,
    sidecar: "7ce4869e6dbb26e89d360d52a27a7484d7d617e4964bbf9238b0b8ef4fc16a5397e3aebc1dbb868e88e1df9bdf9de2406a75dd596ccacf39e83bc927334830d0 inventory.json\n",
};

// One file.
const KITE: Object = Object {
    place: "e60/1ed/ea8/ark%3a%2f13030%2fxt90k",
    done: "{\"as\":\"done\",\"at\":\"xt/90/k/kite\",\"bytes\":8,\"empty\":0,\"files\":1,\"id\":\"ark:/13030/xt90k\",\"to\":\"e60/1ed/ea8/ark%3a%2f13030%2fxt90k\"}\n",
    present: "{\"as\":\"present\",\"at\":\"xt/90/k/kite\",\"id\":\"ark:/13030/xt90k\",\"to\":\"e60/1ed/ea8/ark%3a%2f13030%2fxt90k\"}\n",
    contents: &[("kite.txt", "A kite.\n")],
    inventory: r#"{"digestAlgorithm":"sha512","head":"v1","id":"ark:/13030/xt90k","manifest":{"e261ad3fe61440bfbedea2645cd56e3a8ef0ff323d20c9ff08ddab3f2c733e8426349c11eda24f0e1a75beab133a4a5d58b2b34a38f2c0b730d2a8435d8c8ec8":["v1/content/kite.txt"]},"type":"https://ocfl.io/1.1/spec/#inventory","versions":{"v1":{"created":"2024-05-01T12:00:00Z","message":"Migrated from Pairtree","state":{"e261ad3fe61440bfbedea2645cd56e3a8ef0ff323d20c9ff08ddab3f2c733e8426349c11eda24f0e1a75beab133a4a5d58b2b34a38f2c0b730d2a8435d8c8ec8":["kite.txt"]},"user":{"name":"Ada"}}}}"#,
    sidecar: "96180b257086b138bbf68a6231751de8cbf8e08e61457c99322cfe67d96584ff274ffa7bbe8a1b1a30364fc4fc1272e6a09c642b5ed28741885199ad33805a77 inventory.json\n",
};
