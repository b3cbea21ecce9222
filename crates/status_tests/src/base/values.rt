//! Ids of contents and modes of entries, which are those of git, and the bits of flags, which are the library's own.

use crate::support::prelude::*;
use bitflags::Flags as _;
use status_index::{Flags, HashKind, compute_hash};

/// A content, and its id as git prints it.
type Row = (HashKind, &'static [u8], &'static str);

static IDS: [Row; 4] = [
    (
        HashKind::Sha1,
        b"foo",
        "19102815663d23f8b75a47e7a01965dcdc96468c",
    ),
    (
        HashKind::Sha1,
        b"bar",
        "ba0e162e1c47469e3fe4b393a8bf8c569f302116",
    ),
    (
        HashKind::Sha1,
        b"",
        "e69de29bb2d1d6434b8b29ae775ad8c2e48c5391",
    ),
    (
        HashKind::Sha256,
        b"",
        "473a0f4c3be8a93681a267e3b1e9a7dcda1185436fe141f7749120a303721813",
    ),
];

#[test]
fn ids_are_those_of_git(rt: HostRuntime) -> Result<(), Fail> {
    for (kind, content, want) in &IDS {
        let id = compute_hash(*kind, content);
        assert_eq!(rt; hex::encode(rt.alloc(), id.as_bytes())?.as_str(), *want);
    }
    Ok(())
}

#[test]
fn modes_have_the_bits_of_git(rt: HostRuntime) {
    for (bits, mode) in [
        (0o040000, Mode::Dir),
        (0o100644, Mode::File),
        (0o100755, Mode::FileExecutable),
        (0o120000, Mode::Symlink),
        (0o160000, Mode::Commit),
    ] {
        assert_eq!(rt; mode.bits(), bits);
        assert_eq!(rt; Mode::from_bits(bits), Some(mode));
    }
    for bits in [0, 0o100600, 0o100664, 0o120001, 0o170000, u32::MAX] {
        assert_eq!(rt; Mode::from_bits(bits), None, "{bits:o}");
    }
}

#[test]
fn flags_have_their_bits(rt: HostRuntime) {
    for (flags, bits) in [
        (Flags::UPTODATE, 0x1),
        (Flags::SKIP_WORKTREE, 0x2),
        (Flags::FSMONITOR_VALID, 0x4),
        (Flags::INTENT_TO_ADD, 0x8),
        (Flags::ASSUME_VALID, 0x10),
        (Flags::STAGE, 0x3000),
    ] {
        assert_eq!(rt; flags.bits(), bits);
    }
    for (stage, bits) in [(0, 0x0), (1, 0x1000), (2, 0x2000), (3, 0x3000)] {
        let flags = Flags::from_stage(stage);
        assert_eq!(rt; (flags.bits(), flags.stage()), (bits, stage));
    }
}
