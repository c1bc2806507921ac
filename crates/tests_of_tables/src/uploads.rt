//! Programs kept under ids from outside, refusals in words, a full store, and uploads that get no memory.
use crate::assertions::{assert_gives, assert_same};
use crate::wordings::{Worded, first_misworded, number};
use clash_record::ProgramId;
use fixtures::{FIRST, answering};
use refusals::{OUT_OF_MEMORY, Place};
use sha2::{Digest, Sha256};
use std::alloc::Global;
use std::test::Fail;
use upload_store::{MAX_PROGRAMS, UploadFault, UploadStore};

// The digest of `abc` that the examples of FIPS 180-4 give.
#[rattlefmt::skip]
const ABC: [u8; 32] = [
    0xba, 0x78, 0x16, 0xbf, 0x8f, 0x01, 0xcf, 0xea, 0x41, 0x41, 0x40, 0xde, 0x5d, 0xae, 0x22, 0x23,
    0xb0, 0x03, 0x61, 0xa3, 0x96, 0x17, 0x7a, 0x9c, 0xb4, 0x10, 0xff, 0x61, 0xf2, 0x00, 0x15, 0xad,
];

// The digest of `answering(0)`, as `sha256sum` gives it.
#[rattlefmt::skip]
const ZERO: [u8; 32] = [
    0x59, 0xf4, 0xa9, 0x31, 0x74, 0x4d, 0xcd, 0xc6, 0x29, 0x44, 0xa0, 0x18, 0xed, 0x39, 0x90, 0xe6,
    0x66, 0xec, 0x64, 0x44, 0x61, 0x64, 0x18, 0xd3, 0xb0, 0x9a, 0x82, 0xdc, 0x5c, 0x75, 0x3d, 0x52,
];

// The digest of `FIRST`, as `sha256sum` gives it.
#[rattlefmt::skip]
const ONE: [u8; 32] = [
    0xb1, 0x14, 0x59, 0xa0, 0xe1, 0x1c, 0xa1, 0x4c, 0xba, 0xa3, 0x3c, 0xc1, 0x08, 0xff, 0xff, 0x8f,
    0xf0, 0x7b, 0xa5, 0x4b, 0x6c, 0x38, 0x95, 0x14, 0xb3, 0xc1, 0x22, 0xab, 0x54, 0xb3, 0x45, 0x51,
];

#[test]
fn digest_of_abc(rt: HostRuntime) {
    assert_same(&rt, Sha256::digest("abc"), ABC);
}

// The ids of one program that is uploaded twice.
fn upload_twice(
    alloc: Global,
    store: &mut UploadStore,
    bytes: &[u8],
) -> Result<[ProgramId; 2], Fail> {
    let first = store.upload(alloc, bytes)?;
    Ok([first, store.upload(alloc, bytes)?])
}

// Returns the slot count of the program with this digest.
fn slots_of(store: &UploadStore, digest: [u8; 32]) -> Option<usize> {
    Some(store.get(&ProgramId(digest))?.code().slot_count())
}

// What a store shows of a program that is uploaded twice: how many programs it has before and after, its ids, and the
// slot counts of the programs with this digest and with that of `abc`.
type Kept = (usize, usize, [ProgramId; 2], [Option<usize>; 2]);

fn kept(alloc: Global, bytes: &[u8], digest: [u8; 32]) -> Result<Kept, Fail> {
    let mut store = UploadStore::new(alloc);
    let before = store.len();
    let ids = upload_twice(alloc, &mut store, bytes)?;
    let slots = [slots_of(&store, digest), slots_of(&store, ABC)];
    Ok((before, store.len(), ids, slots))
}

fn kept_once(digest: [u8; 32]) -> Kept {
    (0, 1, [ProgramId(digest); 2], [Some(2), None])
}

#[test]
fn keeps_bytes_once(rt: HostRuntime) {
    let zero = kept(rt.alloc(), &answering(0), ZERO);
    assert_gives(&rt, zero, kept_once(ZERO));
    assert_gives(&rt, kept(rt.alloc(), &FIRST, ONE), kept_once(ONE));
}

// Uploads `count` programs, each with a different id.
fn upload_many(alloc: Global, store: &mut UploadStore, count: u32) -> Result<(), Fail> {
    for value in 0..count {
        store.upload(alloc, &answering(value))?;
    }
    Ok(())
}

// How many programs a store has, the number with which it refuses one more, the id of the first once more, and how many
// it has then.
type Filled = (usize, Option<u32>, Option<ProgramId>, usize);

fn filled(alloc: Global, store: &mut UploadStore) -> Filled {
    let count = store.len();
    let refused = store.upload(alloc, &answering(256));
    let again = store.upload(alloc, &answering(0)).ok();
    (count, number(refused.err()), again, store.len())
}

fn filled_with_256(alloc: Global) -> Result<Filled, Fail> {
    let mut store = UploadStore::new(alloc);
    upload_many(alloc, &mut store, 256)?;
    Ok(filled(alloc, &mut store))
}

// 256 programs, then one more: 43, then the first again: its id.
#[test]
fn holds_256(rt: HostRuntime) {
    let again = Some(ProgramId(ZERO));
    let wanted = (MAX_PROGRAMS, Some(43), again, 256);
    assert_gives(&rt, filled_with_256(rt.alloc()), wanted);
}

// Returns the refusal of code that reads an unwritten register.
fn refusal_of_unread(alloc: Global) -> Option<UploadFault> {
    let mut unread = answering(0);
    unread[..2].copy_from_slice(&[0xbf, 0x20]);
    let mut store = UploadStore::new(alloc);
    let refused = store.upload(alloc, &unread);
    if store.len() == 0 {
        refused.err()
    } else {
        None
    }
}

const OTHER_REFUSALS: &[Worded<UploadFault>] = &[
    (
        UploadFault::DigestClash,
        42,
        None,
        "other code has the same program id",
    ),
    (
        UploadFault::StoreFull,
        43,
        None,
        "the store is full: 256 programs",
    ),
    (UploadFault::OutOfMemory, 90, None, "out of memory"),
];

// Returns the words with which code that reads an unwritten register should be refused, if it is refused otherwise.
fn misworded_if_unread(alloc: Global) -> Result<Option<&'static str>, Fail> {
    let refusal = refusal_of_unread(alloc).ok_or("it was kept")?;
    let words = "slot 0: a read of a register that may be unset, or may be an address or a number";
    let row = (refusal, 15, Some(Place::Slot(0)), words);
    first_misworded(alloc, &[row])
}

#[test]
fn refuses_in_words(rt: HostRuntime) {
    assert_gives(&rt, misworded_if_unread(rt.alloc()), None);
    assert_gives(&rt, first_misworded(rt.alloc(), OTHER_REFUSALS), None);
}

// Returns the id, the number of the refusal and the count of programs after each of two uploads of one program.
fn uploaded_twice(
    alloc: Global,
    store: &mut UploadStore,
) -> [(Option<ProgramId>, Option<u32>, usize); 2] {
    let first = store.upload(alloc, &answering(0));
    let kept = store.len();
    let second = store.upload(alloc, &answering(0));
    [
        (first.ok(), number(first.err()), kept),
        (second.ok(), number(second.err()), store.len()),
    ]
}

// When one allocation fails, at most one upload fails, and the next answers as if nothing had failed.
#[test]
fn survives_a_failed_allocation(rt: HostRuntime) {
    let mut store = UploadStore::new(rt.alloc());
    let [first, second] = uploaded_twice(rt.alloc(), &mut store);
    let zero = Some(ProgramId(ZERO));
    assert_same(&rt, first.2, if first.0.is_some() { 1 } else { 0 });
    assert!(rt; matches!(first.1, None | Some(OUT_OF_MEMORY)));
    assert!(rt; matches!(second.1, None | Some(OUT_OF_MEMORY)));
    assert_same(&rt, (first.0.or(second.0), second.2), (zero, 1));
}
