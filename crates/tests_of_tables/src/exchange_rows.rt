//! The calls of each exchange, and their refusals.
use crate::two_sides::{Call, Row};
use clash_record::SideId;
use exchange_core::MissingPart;
use fixtures::{EXIT, UNKNOWN};
use partition_table::TableFault;

const A: SideId = SideId::A;

const B: SideId = SideId::B;

/// A number is begun once, and none while another is open. Three calls are carried out.
pub(crate) const NUMBERS: &[Row] = &[
    (A, Call::Begin(7, 0), None),
    (A, Call::Abandon, None),
    (A, Call::Begin(7, 0), Some((35, None))),
    (A, Call::Begin(8, 5), None),
    (A, Call::Begin(9, 5), Some((33, None))),
    (A, Call::Register("db", 1, EXIT), Some((33, None))),
    (A, Call::Unregister("db"), Some((31, None))),
];

/// What comes after it. One call is carried out.
pub(crate) const NUMBERS_LEFT: &[Row] = &[
    (A, Call::Abandon, None),
    (A, Call::Abandon, Some((34, None))),
    (A, Call::Register("db", 1, UNKNOWN), Some((41, None))),
];

/// An offer of another seed, an own offer, an own list, and offers of another number and of none that is open.
pub(crate) const STRANGE_OFFERS: &[Row] = &[
    (A, Call::Begin(1, 5), None),
    (B, Call::Begin(1, 6), None),
    (A, Call::Hear(B, 1), Some((36, None))),
    (A, Call::Hear(A, 1), Some((46, None))),
    (B, Call::CloseList, None),
    (B, Call::HearList(B, 1), Some((46, None))),
    (B, Call::Abandon, None),
    (B, Call::Begin(2, 5), None),
    (A, Call::Hear(B, 2), Some((45, None))),
    (A, Call::Finish, Some((39, Some(MissingPart::TheirOffer)))),
    (A, Call::Abandon, None),
    (A, Call::Hear(B, 2), Some((34, None))),
];

/// Both sides begin, and one can't hear the other.
pub(crate) const TOO_MANY: &[Row] = &[
    (A, Call::Begin(1, 0), None),
    (B, Call::Begin(1, 0), None),
    (A, Call::Hear(B, 1), Some((37, None))),
];

/// Three clashes: rulings in any order and repeated, offers and lists heard twice, and each part missed in turn.
pub(crate) const ONE_TABLE: &[Row] = &[
    (A, Call::Begin(1, 0), None),
    (B, Call::Begin(1, 0), None),
    (A, Call::Finish, Some((39, Some(MissingPart::TheirOffer)))),
    (A, Call::Take(1, 0, 0), Some((38, None))),
    (A, Call::Hear(B, 1), None),
    (A, Call::Hear(B, 1), None),
    (B, Call::Hear(A, 1), None),
    (A, Call::Take(1, 0, 1), Some((38, None))),
    (A, Call::Take(2, 0, 0), Some((45, None))),
    (A, Call::Take(1, 2, 2), None),
    (A, Call::Take(1, 0, 0), None),
    // A second ruling of the clash, at another of its four words.
    (A, Call::Take(1, 0, 3), None),
    (A, Call::Finish, Some((39, Some(MissingPart::Ruling(1))))),
    (A, Call::Take(1, 1, 1), None),
    (B, Call::Take(1, 0, 0), None),
    (B, Call::Take(1, 1, 1), None),
    (B, Call::Take(1, 2, 2), None),
    (A, Call::Finish, Some((39, Some(MissingPart::OwnList)))),
    (B, Call::CloseList, None),
    (A, Call::CloseList, None),
    (A, Call::Finish, Some((39, Some(MissingPart::OtherList)))),
    (A, Call::HearList(B, 1), None),
    (A, Call::HearList(B, 1), None),
    (B, Call::HearList(A, 1), None),
    (A, Call::Finish, None),
    (B, Call::Finish, None),
    (A, Call::Finish, Some((34, None))),
];

/// One finishes 1 while the other has abandoned it and goes on to 2.
pub(crate) const ALONE: &[Row] = &[
    (A, Call::Begin(1, 0), None),
    (B, Call::Begin(1, 0), None),
    (B, Call::CloseList, None),
    (B, Call::Abandon, None),
    (B, Call::Register("web", 1, EXIT), None),
    (B, Call::Begin(2, 0), None),
    (A, Call::Hear(B, 1), None),
    (A, Call::Take(1, 0, 0), None),
    (A, Call::CloseList, None),
    (A, Call::HearList(B, 1), None),
    (A, Call::Finish, None),
];

/// The other abandons that too, and can't begin 1 again.
pub(crate) const ALONE_LEFT: &[Row] = &[
    (B, Call::Abandon, None),
    (B, Call::Begin(1, 0), Some((35, None))),
];

/// Both begin, and side A withdraws the name.
pub(crate) const GONE_ON_A: &[Row] = &[
    (A, Call::Begin(1, 0), None),
    (B, Call::Begin(1, 0), None),
    (A, Call::Withdraw("db"), None),
    (A, Call::Withdraw("db"), Some((47, None))),
];

/// Both begin, and side B withdraws the name.
pub(crate) const GONE_ON_B: &[Row] = &[
    (A, Call::Begin(1, 0), None),
    (B, Call::Begin(1, 0), None),
    (B, Call::Withdraw("db"), None),
];

/// Both begin, and both withdraw the name.
pub(crate) const GONE_ON_BOTH: &[Row] = &[
    (A, Call::Begin(1, 0), None),
    (B, Call::Begin(1, 0), None),
    (A, Call::Withdraw("db"), None),
    (A, Call::Withdraw("db"), Some((47, None))),
    (B, Call::Withdraw("db"), None),
];

/// What comes after it, up to the end on both sides.
pub(crate) const WITHDRAWN: &[Row] = &[
    (A, Call::Withdraw("x"), Some((31, None))),
    (A, Call::Hear(B, 1), None),
    (B, Call::Hear(A, 1), None),
    (A, Call::Take(1, 0, 0), None),
    (B, Call::Take(1, 0, 0), None),
    (A, Call::CloseList, None),
    (B, Call::CloseList, None),
    (A, Call::HearList(B, 1), None),
    (B, Call::HearList(A, 1), None),
    (A, Call::CloseList, Some((48, None))),
    (A, Call::Finish, None),
    (B, Call::Finish, None),
];

/// An exchange of which side A takes the steps below, or the first few of them.
pub(crate) const TO_BE_ABANDONED: &[Row] = &[
    (A, Call::Begin(1, 0), None),
    (B, Call::Begin(1, 0), None),
    (B, Call::CloseList, None),
];

/// Its steps on side A, in which the name is withdrawn first.
pub(crate) const STEPS: &[Row] = &[
    (A, Call::Withdraw("db"), None),
    (A, Call::Hear(B, 1), None),
    (A, Call::Take(1, 0, 0), None),
    (A, Call::CloseList, None),
    (A, Call::HearList(B, 1), None),
];

/// Both abandon it and go on to the next number, under which what was sent of it is refused.
pub(crate) const NEXT_NUMBER: &[Row] = &[
    (A, Call::Begin(1, 0), Some((35, None))),
    (B, Call::Abandon, None),
    (A, Call::Begin(2, 0), None),
    (B, Call::Begin(2, 0), None),
    (B, Call::CloseList, None),
    (A, Call::Hear(B, 1), Some((45, None))),
    (A, Call::HearList(B, 1), Some((45, None))),
    (A, Call::Hear(B, 2), None),
    (B, Call::Hear(A, 2), None),
];

/// The rulings of the next number, where the name is on both sides still.
pub(crate) const NEXT_RULINGS: &[Row] = &[
    (A, Call::Take(2, 0, 0), None),
    (B, Call::Take(2, 0, 0), None),
];

/// The end of the next number on both sides.
pub(crate) const NEXT_END: &[Row] = &[
    (A, Call::CloseList, None),
    (A, Call::HearList(B, 2), None),
    (B, Call::HearList(A, 2), None),
    (A, Call::Finish, None),
    (B, Call::Finish, None),
];

/// Side A abandons what is open.
pub(crate) const ABANDON: &[Row] = &[(A, Call::Abandon, None)];

/// A name comes and goes.
pub(crate) const COME_AND_GO: &[Row] = &[
    (A, Call::Register("db", 1, EXIT), None),
    (A, Call::Unregister("db"), None),
];

/// The last event that the journal holds.
pub(crate) const LAST_EVENT: &[Row] = &[(A, Call::Register("db", 1, EXIT), None)];

/// What is refused once the journal is full, the least refusal first.
pub(crate) const FULL_JOURNAL: &[Row] = &[
    (A, Call::Register("db", 1, EXIT), Some((30, None))),
    (A, Call::Register("other", 1, EXIT), Some((40, None))),
    (A, Call::Unregister("other"), Some((31, None))),
    (A, Call::Begin(1, 0), Some((40, None))),
];

/// Both sides begin, and side A hears the offer of B.
pub(crate) const HEARD: &[Row] = &[
    (A, Call::Begin(1, 0), None),
    (B, Call::Begin(1, 0), None),
    (A, Call::Hear(B, 1), None),
];

/// Side A hears the offer of B again.
pub(crate) const HEARD_AGAIN: &[Row] = &[(A, Call::Hear(B, 1), None)];

/// Side A takes the ruling of the only clash.
pub(crate) const TAKEN: &[Row] = &[(A, Call::Take(1, 0, 0), None)];

/// Side B takes the ruling.
pub(crate) const TAKEN_ON_B: &[Row] = &[
    (B, Call::Hear(A, 1), None),
    (B, Call::Take(1, 0, 0), None),
];

/// `db` is on both sides, `web` on side B alone.
pub(crate) const DB_AND_WEB: &[Row] = &[
    (A, Call::Register("db", 10, EXIT), None),
    (B, Call::Register("db", 20, EXIT), None),
    (B, Call::Register("web", 21, EXIT), None),
];

/// Both sides begin, and the steps of either side up to the one that would finish it.
pub(crate) const EACH_STEP: &[Row] = &[
    (A, Call::Begin(1, 0), None),
    (B, Call::Begin(1, 0), None),
    (A, Call::Hear(B, 1), None),
    (B, Call::Hear(A, 1), None),
    (A, Call::Take(1, 0, 0), None),
    (B, Call::Take(1, 0, 0), None),
    (A, Call::CloseList, None),
    (B, Call::CloseList, None),
    (A, Call::HearList(B, 1), None),
    (B, Call::HearList(A, 1), None),
];

/// Side B abandons the open exchange.
pub(crate) const ABANDON_ON_B: &[Row] = &[(B, Call::Abandon, None)];

/// Both begin the next number, under which the old offers are refused.
pub(crate) const OLD_OFFERS: &[Row] = &[
    (A, Call::Begin(2, 0), None),
    (B, Call::Begin(2, 0), None),
    (A, Call::Hear(B, 1), Some((45, None))),
    (B, Call::Hear(A, 1), Some((45, None))),
];

/// The next number from its beginning to its end.
pub(crate) const NEXT_WHOLE: &[Row] = &[
    (A, Call::Hear(B, 2), None),
    (B, Call::Hear(A, 2), None),
    (A, Call::Take(2, 0, 0), None),
    (B, Call::Take(2, 0, 0), None),
    (B, Call::CloseList, None),
    (A, Call::CloseList, None),
    (A, Call::HearList(B, 2), None),
    (B, Call::HearList(A, 2), None),
    (A, Call::Finish, None),
    (B, Call::Finish, None),
];

/// Both hear the other, with seed 1, and side A can't settle before. Both take the ruling of clash 1 in round 1, settle,
/// and lack nothing then.
pub(crate) const SETTLED: &[Row] = &[
    (A, Call::Settle, Some((34, None))),
    (A, Call::Begin(1, 1), None),
    (B, Call::Begin(1, 1), None),
    (A, Call::Settle, Some((39, Some(MissingPart::TheirOffer)))),
    (A, Call::Hear(B, 1), None),
    (B, Call::Hear(A, 1), None),
    (A, Call::Take(1, 1, 5), None),
    (B, Call::Take(1, 1, 5), None),
    (A, Call::Settle, None),
    (B, Call::Settle, None),
    (A, Call::Settle, None),
];

/// Both close and hear lists, and finish.
pub(crate) const LISTS_AND_END: &[Row] = &[
    (A, Call::CloseList, None),
    (B, Call::CloseList, None),
    (A, Call::HearList(B, 1), None),
    (B, Call::HearList(A, 1), None),
    (A, Call::Finish, None),
    (B, Call::Finish, None),
];

/// A name is registered and unregistered.
pub(crate) const NAME_COMES_AND_GOES: &[Row] = &[
    (A, Call::Register("web", 1, EXIT), None),
    (A, Call::Unregister("web"), None),
];

/// The journal is renewed between exchanges, and not in one.
pub(crate) const RENEWED: &[Row] = &[
    (A, Call::Renew, None),
    (A, Call::Begin(7, 0), None),
    (A, Call::Renew, Some((33, None))),
    (A, Call::Abandon, None),
    (A, Call::Renew, None),
];

/// The side goes on with greater numbers.
pub(crate) const RENEWED_LEFT: &[Row] = &[
    (A, Call::Begin(7, 0), Some((35, None))),
    (A, Call::Register("web", 1, EXIT), None),
    (A, Call::Begin(8, 0), None),
];

/// The side has room for one ruling, and two clashes have none.
pub(crate) const NO_ROOM: &[Row] = &[
    (A, Call::Settle, Some((40, None))),
    (A, Call::Take(1, 0, 0), None),
    (A, Call::Settle, Some((40, None))),
];
