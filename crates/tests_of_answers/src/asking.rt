//! Questions about code, and their answers.
use questions::{ClashWords, Profile, Question, reply_to};
use std::alloc::Global;
use std::io;
use std::test::Fail;

/// The digits of `exit`.
pub(crate) const EXIT: &'static str = "9500000000000000";

/// The names `db` and `x` in a record.
pub(crate) const DB: &'static str =
    "02000000000000006462000000000000000000000000000000000000000000000000000000000000";

pub(crate) const X: &'static str =
    "01000000000000007800000000000000000000000000000000000000000000000000000000000000";

/// So many bytes of zero.
const ZEROS_14: &'static str = "0000000000000000000000000000";

const ZEROS_16: &'static str = "00000000000000000000000000000000";

const ZEROS_31: &'static str = "00000000000000000000000000000000000000000000000000000000000000";

/// The record of a clash at word 7, whose first is 1.10 and whose second is 2.20. Each part is given in hex digits: the
/// name, the lowest bytes of the two stamps, the highest byte of the first's weight, and what follows the registrations.
#[derive(Clone, Copy)]
pub(crate) struct Clash {
    pub(crate) name: &'static str,
    pub(crate) stamps: (&'static str, &'static str),
    pub(crate) weight: &'static str,
    pub(crate) facts: &'static str,
}

/// The name `db`, with stamps 5 and 9.
pub(crate) const ON_DB: Clash = Clash {
    name: DB,
    stamps: ("05", "09"),
    weight: "00",
    facts: "",
};

impl Clash {
    /// Its hex digits.
    pub(crate) fn digits(self, alloc: Global) -> io::Result<String> {
        let mut text = String::new(alloc);
        for part in [
            self.name,
            "0700000000000000010000000a000000",
            self.stamps.0,
            ZEROS_14,
            self.weight,
            ZEROS_16,
            "0200000014000000",
            self.stamps.1,
            ZEROS_31,
            self.facts,
        ] {
            text.push_str(part)?;
        }
        Ok(text)
    }
}

/// A question about code.
#[derive(Clone, Copy)]
pub(crate) enum Ask {
    Judge(Clash),
    Check(Profile),
    Dis,
}

/// Checks that the question is answered by this status and this text.
pub(crate) fn is_answered(
    rt: &HostRuntime,
    question: &Question<'_>,
    status: u8,
    text: &str,
) -> bool {
    let mut out = Vec::new(rt.alloc());
    let mut errors = Vec::new(rt.alloc());
    let got = reply_to(rt, question, &mut out, &mut errors);
    // Refusals and faults alone are explained.
    let is_explained = errors.is_empty() == (status == 0);
    got == status && is_explained && out.as_slice() == text.as_bytes()
}

/// Code of these slots, without the blanks.
fn code(alloc: Global, slots: &str) -> io::Result<String> {
    let mut text = String::new(alloc);
    for slot in slots.split(' ') {
        text.push_str(if slot == "X" { EXIT } else { slot })?;
    }
    Ok(text)
}

/// Checks that this question about code of these slots is answered by this status and this text.
pub(crate) fn is_said(
    rt: &HostRuntime,
    ask: Ask,
    slots: &str,
    status: u8,
    text: &str,
) -> Result<bool, Fail> {
    let alloc = rt.alloc();
    let code = code(alloc, slots)?;
    match ask {
        Ask::Judge(clash) => is_judged(rt, clash, code.as_str(), status, text),
        Ask::Check(profile) => {
            let code = code.as_str();
            let question = Question::Check {
                code,
                profile,
                explain: false,
            };
            Ok(is_answered(rt, &question, status, text))
        }
        Ask::Dis => Ok(is_answered(
            rt,
            &Question::Dis {
                code: code.as_str(),
            },
            status,
            text,
        )),
    }
}

/// Returns the question about code and the digits of a record.
pub(crate) fn by_record<'a>(code: &'a str, digits: &'a str) -> Question<'a> {
    Question::Judge {
        code,
        clash: ClashWords::Bytes(digits),
        explain: false,
    }
}

/// Checks that judging the clash by code is answered by this status and this text.
pub(crate) fn is_judged(
    rt: &HostRuntime,
    clash: Clash,
    code: &str,
    status: u8,
    text: &str,
) -> Result<bool, Fail> {
    let clash = clash.digits(rt.alloc())?;
    let question = by_record(code, clash.as_str());
    Ok(is_answered(rt, &question, status, text))
}

/// Questions, and codes for each of them. The answer has this status, and for each code this text.
pub(crate) type Group = (&'static [Ask], u8, &'static [(&'static str, &'static str)]);

// Returns the slots of the first code for which the question is answered otherwise.
fn first_wrong_code(
    rt: &HostRuntime,
    ask: Ask,
    status: u8,
    rows: &[(&'static str, &'static str)],
) -> Result<Option<&'static str>, Fail> {
    for (slots, text) in rows {
        if !is_said(rt, ask, slots, status, text)? {
            return Ok(Some(slots));
        }
    }
    Ok(None)
}

/// Returns the slots of the first code in these groups for which a question is answered otherwise.
pub(crate) fn first_wrong(
    rt: &HostRuntime,
    groups: &[Group],
) -> Result<Option<&'static str>, Fail> {
    for (asks, status, rows) in groups {
        for ask in *asks {
            let wrong = first_wrong_code(rt, *ask, *status, rows)?;
            if wrong.is_some() {
                return Ok(wrong);
            }
        }
    }
    Ok(None)
}
