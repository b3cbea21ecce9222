//! Index files that git wrote, and what git prints of them.
//!
//! Each was made by git 2.39.5 in a new repository (`git init`), in which `a` has the line `one`:
//!
//! - `version 2`: `run.sh`, an executable file of another owner, and `link`, a link to `a`;
//!   `git add a link run.sh`.
//! - `version 3`: an empty file `n`; `git add a; git add -N n; git update-index --skip-worktree a`.
//! - `version 4`: files `d/a`, `d/ab` and `d/b`; `git update-index --index-version 4; git add d`.
//! - `SHA-256`: `git init --object-format=sha256`; `git add a`.
//! - `conflict`: `git update-index --index-info` with `100644`, `100755` and `120000` at the stages 1 to 3 of `c`, and
//!   `160000` at stage 0 of `d`.
//! - `assumed`: `git add a; git update-index --assume-unchanged a`.
//! - `tree`: `git add a; git commit`. The tree's id is that of `git write-tree`.
//! - `empty`: `git read-tree --empty`.
//! - `offsets`: a file `b`; `git add a b` with `index.version` 4, `index.threads` 2, `index.recordOffsetTable` and
//!   `index.recordEndOfIndexEntries`.
//! - `split`: `git add a; git update-index --split-index`.
//! - `sparse`: a file `d/e/a`; `git add .; git commit; git sparse-checkout init --cone;
//!   git sparse-checkout set --sparse-index`.
//! - `long`: `git update-index --add --cacheinfo` with a path of 5000 times `x`, which the test writes.
//! - `stripped`: `git update-index --index-version 4`, and then `--add --cacheinfo` with 200 times `x`, and
//!   with `y`.

use crate::index_file::git_bytes::{
    ASSUMED, CONFLICT, EMPTY, EMPTY_EXTENSIONS, OFFSET_TABLES, OFFSETS, SHA256, SPARSE,
    SPARSE_EXTENSIONS, TREE, TREE_EXTENSIONS, VERSION_2, VERSION_3, VERSION_4,
};
use status_index::HashKind;

/// An index file that git wrote.
pub(super) struct GitFile {
    pub(super) name: &'static str,
    pub(super) kind: HashKind,
    pub(super) version: u32,
    pub(super) bytes: &'static [u8],
    /// What `git ls-files --stage --debug --sparse` prints.
    pub(super) listing: &'static str,
    /// The bytes after the entries, before the checksum.
    pub(super) extensions: &'static [u8],
}

const VERSION_2_LISTING: &str = "\
100644 5626abf0f72e58d7a153368ba57db4c673c0e171 0\ta
  ctime: 1795821250:159644790
  mtime: 1795821250:159644790
  dev: 65024\tino: 11133826
  uid: 0\tgid: 0
  size: 4\tflags: 0
120000 2e65efe2a145dda7ee51d1741299f848e5bf752e 0\tlink
  ctime: 1795821250:172233473
  mtime: 1795821250:172233473
  dev: 65024\tino: 11133857
  uid: 0\tgid: 0
  size: 1\tflags: 0
100755 1a2485251c33a70432394c93fb89330ef214bfc9 0\trun.sh
  ctime: 1795821250:168233473
  mtime: 1795821250:159644790
  dev: 65024\tino: 11133841
  uid: 1000\tgid: 1001
  size: 10\tflags: 0
";

const VERSION_3_LISTING: &str = "\
100644 5626abf0f72e58d7a153368ba57db4c673c0e171 0\ta
  ctime: 1795821250:258499883
  mtime: 1795821250:258499883
  dev: 65024\tino: 11134540
  uid: 0\tgid: 0
  size: 4\tflags: 40004000
100644 e69de29bb2d1d6434b8b29ae775ad8c2e48c5391 0\tn
  ctime: 0:0
  mtime: 0:0
  dev: 0\tino: 0
  uid: 0\tgid: 0
  size: 0\tflags: 20004000
";

const VERSION_4_LISTING: &str = "\
100644 5626abf0f72e58d7a153368ba57db4c673c0e171 0\td/a
  ctime: 1795821250:344233465
  mtime: 1795821250:344233465
  dev: 65024\tino: 11134582
  uid: 0\tgid: 0
  size: 4\tflags: 0
100644 5626abf0f72e58d7a153368ba57db4c673c0e171 0\td/ab
  ctime: 1795821250:344233465
  mtime: 1795821250:344233465
  dev: 65024\tino: 11134583
  uid: 0\tgid: 0
  size: 4\tflags: 0
100644 5626abf0f72e58d7a153368ba57db4c673c0e171 0\td/b
  ctime: 1795821250:344233465
  mtime: 1795821250:344233465
  dev: 65024\tino: 11134584
  uid: 0\tgid: 0
  size: 4\tflags: 0
";

const SHA256_LISTING: &str = "\
100644 a4ed1f355afb02d88cd291d0e4463910c5061ece48a49aa2b1539b9af973b286 0\ta
  ctime: 1795821250:436233461
  mtime: 1795821250:436233461
  dev: 65024\tino: 11134623
  uid: 0\tgid: 0
  size: 4\tflags: 0
";

const CONFLICT_LISTING: &str = "\
100644 5626abf0f72e58d7a153368ba57db4c673c0e171 1\tc
  ctime: 0:0
  mtime: 0:0
  dev: 0\tino: 0
  uid: 0\tgid: 0
  size: 0\tflags: 1000
100755 64c5e5885a4b06010b3a0c20edb7900dd0311025 2\tc
  ctime: 0:0
  mtime: 0:0
  dev: 0\tino: 0
  uid: 0\tgid: 0
  size: 0\tflags: 2000
120000 64c5e5885a4b06010b3a0c20edb7900dd0311025 3\tc
  ctime: 0:0
  mtime: 0:0
  dev: 0\tino: 0
  uid: 0\tgid: 0
  size: 0\tflags: 3000
160000 5626abf0f72e58d7a153368ba57db4c673c0e171 0\td
  ctime: 0:0
  mtime: 0:0
  dev: 0\tino: 0
  uid: 0\tgid: 0
  size: 0\tflags: 0
";

const ASSUMED_LISTING: &str = "\
100644 5626abf0f72e58d7a153368ba57db4c673c0e171 0\ta
  ctime: 1795821250:551155471
  mtime: 1795821250:551155471
  dev: 65024\tino: 11134697
  uid: 0\tgid: 0
  size: 4\tflags: 8000
";

const TREE_LISTING: &str = "\
100644 5626abf0f72e58d7a153368ba57db4c673c0e171 0\ta
  ctime: 1795821250:596233454
  mtime: 1795821250:596233454
  dev: 65024\tino: 11134734
  uid: 0\tgid: 0
  size: 4\tflags: 0
";

const OFFSETS_LISTING: &str = "\
100644 5626abf0f72e58d7a153368ba57db4c673c0e171 0\ta
  ctime: 1795821250:743747648
  mtime: 1795821250:743747648
  dev: 65024\tino: 11134816
  uid: 0\tgid: 0
  size: 4\tflags: 0
100644 5626abf0f72e58d7a153368ba57db4c673c0e171 0\tb
  ctime: 1795821250:747548236
  mtime: 1795821250:747548236
  dev: 65024\tino: 11134817
  uid: 0\tgid: 0
  size: 4\tflags: 0
";

const SPARSE_LISTING: &str = "\
100644 5626abf0f72e58d7a153368ba57db4c673c0e171 0\ta
  ctime: 1795821250:926428726
  mtime: 1795821250:926428726
  dev: 65024\tino: 11134893
  uid: 0\tgid: 0
  size: 4\tflags: 0
040000 0d2be3d01ab5e5b91da57193a88ef3b06f5c1304 0\td/
  ctime: 0:0
  mtime: 0:0
  dev: 0\tino: 0
  uid: 0\tgid: 0
  size: 0\tflags: 40004000
";

pub(super) const GIT_FILES: [GitFile; 10] = [
    GitFile {
        name: "version 2",
        kind: HashKind::Sha1,
        version: 2,
        bytes: VERSION_2,
        listing: VERSION_2_LISTING,
        extensions: b"",
    },
    GitFile {
        name: "version 3",
        kind: HashKind::Sha1,
        version: 3,
        bytes: VERSION_3,
        listing: VERSION_3_LISTING,
        extensions: b"",
    },
    GitFile {
        name: "version 4",
        kind: HashKind::Sha1,
        version: 4,
        bytes: VERSION_4,
        listing: VERSION_4_LISTING,
        extensions: b"",
    },
    GitFile {
        name: "SHA-256",
        kind: HashKind::Sha256,
        version: 2,
        bytes: SHA256,
        listing: SHA256_LISTING,
        extensions: b"",
    },
    GitFile {
        name: "conflict",
        kind: HashKind::Sha1,
        version: 2,
        bytes: CONFLICT,
        listing: CONFLICT_LISTING,
        extensions: b"",
    },
    GitFile {
        name: "assumed",
        kind: HashKind::Sha1,
        version: 2,
        bytes: ASSUMED,
        listing: ASSUMED_LISTING,
        extensions: b"",
    },
    GitFile {
        name: "tree",
        kind: HashKind::Sha1,
        version: 2,
        bytes: TREE,
        listing: TREE_LISTING,
        extensions: TREE_EXTENSIONS,
    },
    GitFile {
        name: "empty",
        kind: HashKind::Sha1,
        version: 2,
        bytes: EMPTY,
        listing: "",
        extensions: EMPTY_EXTENSIONS,
    },
    GitFile {
        name: "offsets",
        kind: HashKind::Sha1,
        version: 4,
        bytes: OFFSETS,
        listing: OFFSETS_LISTING,
        extensions: OFFSET_TABLES,
    },
    GitFile {
        name: "sparse",
        kind: HashKind::Sha1,
        version: 3,
        bytes: SPARSE,
        listing: SPARSE_LISTING,
        extensions: SPARSE_EXTENSIONS,
    },
];
