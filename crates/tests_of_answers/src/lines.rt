//! The answers to single lines, blank ones and too long ones included.
use crate::heals;
use crate::script_devices::{Device, GOOD, Said, first_other, is_answered};

/// Scripts of a few lines.
const SCRIPTS: &[Said] = &[
    ("", 0, ""),
    ("whereis a db", 0, "undefined\n"),
    ("# \t\n\n   \n  whereis  a db  \n", 0, "undefined\n"),
    (
        "upload gt 79123800000000007913600000000000b7000000010000003d32010000000000b7000000020000009500000000000000\nregister a db 1.10 5 0 - gt\nregister b db 2.20 9 0 - gt\nregister b web 2.21 1 0 - notify-all\nheal 0\nshow a\nshow b\n",
        0,
        "uploaded gt 6 instructions\nyes\nyes\nyes\ndb second word 0\nhealed 2 names\ndb 2.20 9 0 gt\nweb 2.21 1 0 notify-all\nend\ndb 2.20 9 0 gt\nweb 2.21 1 0 notify-all\nend\n",
    ),
    (
        "upload big 79128000000000007913900000000000b7000000010000003d32010000000000b7000000020000009500000000000000\nregister a db 1.10 5 0 - big\nregister b db 2.20 9 0 - big\nregister b web 2.21 1 0 - notify-all\nheal 0\n",
        0,
        "uploaded big 6 instructions\nyes\nyes\nyes\ndb second word 0\nhealed 2 names\n",
    ),
    ("whereis\ta db\n", 2, "line 1: refused 51\n"),
    ("whereis a db\r\n", 2, "line 1: refused 51\n"),
    (
        "# counted\n\nheal 18446744073709551616\nheal 18446744073709551615\n",
        2,
        "line 3: refused 52\nhealed 0 names\n",
    ),
    (
        "heal 0 1\nheal 0 went a db\n",
        2,
        "line 1: refused 51\nline 2: refused 51\n",
    ),
    (
        "upload x 0500ffff000000009500000000000000\nupload exit 00\nupload x 0\nwhereis a x\n",
        2,
        "line 1: refused 10 at slot 0\nline 2: refused 53\nline 3: refused 50\nundefined\n",
    ),
];

#[test]
fn scripts_are_answered(rt: HostRuntime) {
    for scripts in [SCRIPTS, heals::SCRIPTS] {
        assert_eq!(&rt; first_other(&rt, scripts), None);
    }
}

/// Two comments, of 20,000 bytes and of one more, and a line.
fn long_lines() -> [u8; 40_015] {
    let mut script = [b'#'; 40_015];
    script[20_000] = b'\n';
    script[40_002] = b'\n';
    script[40_003..].copy_from_slice(b"whereis a db");
    script
}

#[test]
fn a_line_has_at_most_20_000_bytes(rt: HostRuntime) {
    let said = b"line 2: refused 54\nundefined\n";
    for piece in [1, 4096] {
        let device = Device { piece, ..GOOD };
        assert!(&rt;
            is_answered(&rt, &long_lines(), (device, device), (2, said.as_slice())),
            "{piece} bytes a call"
        );
    }
}
