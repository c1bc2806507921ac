//! Devices that fail at each of their calls.
use crate::script_devices::{Device, GOOD, is_answered};

/// A script, and what is written for it.
const SCRIPT: &[u8] = b"register a db 1.1 0 0 - exit\nwhereis a db\nshow b\nheal 7\nwhereis b";

const WRITTEN: &[u8] = b"yes\n1.1\nend\nhealed 1 names\nline 5: refused 51\n";

#[test]
fn a_writer_may_fail(rt: HostRuntime) {
    let reader = Device { piece: 7, ..GOOD };
    for calls in 0..WRITTEN.len() {
        let writer = Device { piece: 1, calls };
        assert!(&rt;
            is_answered(&rt, SCRIPT, (reader, writer), (3, &WRITTEN[..calls])),
            "after {calls} bytes"
        );
    }
    let reader = Device { piece: 1, ..GOOD };
    let calls = WRITTEN.len();
    let writer = Device { piece: 1, calls };
    assert!(&rt; is_answered(&rt, SCRIPT, (reader, writer), (2, WRITTEN)));
}

/// Returns the output when a read fails after this number of complete lines.
const WRITTEN_BEFORE_FAULT: [&[u8]; 5] = [
    b"device fault\n",
    b"yes\ndevice fault\n",
    b"yes\n1.1\ndevice fault\n",
    b"yes\n1.1\nend\ndevice fault\n",
    b"yes\n1.1\nend\nhealed 1 names\ndevice fault\n",
];

/// Returns the output when a read fails after this number of bytes.
fn written_before_fault(bytes: usize) -> Option<&'static [u8]> {
    let begun = SCRIPT.iter().take(bytes);
    let ended = begun.filter(|byte| **byte == b'\n').count();
    WRITTEN_BEFORE_FAULT.get(ended).copied()
}

#[test]
fn a_reader_may_fail(rt: HostRuntime) {
    let writer = Device { piece: 9, ..GOOD };
    for calls in 0..=SCRIPT.len() {
        let reader = Device { piece: 1, calls };
        let wanted = written_before_fault(calls).unwrap_or_default();
        assert!(&rt;
            is_answered(&rt, SCRIPT, (reader, writer), (3, wanted)),
            "after {calls} bytes"
        );
    }
}
