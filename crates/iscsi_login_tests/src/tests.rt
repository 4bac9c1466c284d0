//! The table of keys, worked logins and the offer texts, by example. One file, since it is tables
//! of rows.

use iscsi_login::{
    Answered, Auth, ConfigFault, NegKey, Offers, Params, Preferences, Session, Stage, answer_text,
    declares_well, legal_answer, result,
};
use iscsi_text::{Text, Value};
use std::alloc::{AllocError, Global};
use std::fmt::Debug;
use std::process::Abort;

// The login of a normal session without a password.
fn standard_offers() -> Offers<'static> {
    Offers {
        initiator: b"iqn.2026-01.example:host",
        target: b"iqn.2026-01.example:disk",
        session: Session::Normal,
        auth: Auth::None,
        prefs: Preferences::standard(),
    }
}

/// Asserts that a value is the one that is due, in a row of which this tells.
fn same<T: PartialEq + Debug>(rt: &impl Abort, value: &T, due: &T, row: &impl Debug) {
    assert!(rt; *value == *due, "{row:?}: {value:?} is not {due:?}");
}

const SECURITY: &[u8] = b"AuthMethod=None\0InitiatorName=iqn.2026-01.example:host\0\
    SessionType=Normal\0TargetName=iqn.2026-01.example:disk\0";

const OPERATIONAL: &[u8] = b"DataDigest=None\0DataPDUInOrder=Yes\0DataSequenceInOrder=Yes\0\
    DefaultTime2Retain=20\0DefaultTime2Wait=2\0ErrorRecoveryLevel=0\0FirstBurstLength=65536\0\
    HeaderDigest=None\0ImmediateData=Yes\0InitialR2T=No\0MaxBurstLength=262144\0\
    MaxConnections=1\0MaxOutstandingR2T=1\0MaxRecvDataSegmentLength=8192\0";

const SINGLE: &[u8] = b"DataDigest=None\0DataPDUInOrder=Yes\0DataSequenceInOrder=Yes\0\
    DefaultTime2Retain=20\0DefaultTime2Wait=2\0ErrorRecoveryLevel=0\0FirstBurstLength=65536\0\
    HeaderDigest=None\0ImmediateData=Yes\0InitialR2T=No\0\
    InitiatorName=iqn.2026-01.example:host\0MaxBurstLength=262144\0MaxConnections=1\0\
    MaxOutstandingR2T=1\0MaxRecvDataSegmentLength=8192\0SessionType=Normal\0\
    TargetName=iqn.2026-01.example:disk\0";

// An offer of a key, the seconds that the target prefers to wait, what the offer and the standard
// preferences but for these give, and what is held then.
const OFFERED: &[(NegKey, &[u8], u32, Answered, Answered)] = &[
    (
        NegKey::DefaultTime2Wait,
        b"DefaultTime2Wait=3600\0",
        0,
        Answered::Number(3600),
        Answered::Number(3600),
    ),
    (
        NegKey::DefaultTime2Retain,
        b"DefaultTime2Retain=3600\0",
        2,
        Answered::Number(20),
        Answered::Number(20),
    ),
    (
        NegKey::MaxBurstLength,
        b"MaxBurstLength=511\0",
        2,
        Answered::Reject,
        Answered::Number(262144),
    ),
    (
        NegKey::ErrorRecoveryLevel,
        b"ErrorRecoveryLevel=2\0",
        2,
        Answered::Number(0),
        Answered::Number(0),
    ),
    (
        NegKey::ImmediateData,
        b"ImmediateData=No\0",
        2,
        Answered::Flag(false),
        Answered::Flag(false),
    ),
    (
        NegKey::InitialR2T,
        b"InitialR2T=maybe\0",
        2,
        Answered::Reject,
        Answered::Flag(true),
    ),
    (
        NegKey::MaxConnections,
        b"MaxConnections=0\0",
        2,
        Answered::Reject,
        Answered::Number(1),
    ),
    (
        NegKey::DataPDUInOrder,
        b"DataPDUInOrder=No\0",
        2,
        Answered::Flag(true),
        Answered::Flag(true),
    ),
    (
        NegKey::HeaderDigest,
        b"HeaderDigest=CRC32C,None\0",
        2,
        Answered::NoneItem,
        Answered::NoneItem,
    ),
    (
        NegKey::AuthMethod,
        b"AuthMethod=CHAP\0",
        2,
        Answered::Reject,
        Answered::NoneItem,
    ),
];

// What a target with these preferences holds after a text of a normal session.
fn held_offers(rt: &impl Abort, text: &Text, preferences: &Preferences) -> Params {
    let mut params = Params::defaults();
    assert!(rt; preferences.in_range());
    assert!(rt; declares_well(text));
    params.hold_offers(text, preferences, Session::Normal, None);
    params
}

// The value of a key in a text that has it.
fn value_of<'a>(rt: &impl Abort, text: &Text<'a>, key: NegKey) -> Value<'a> {
    text.get(key.name(), 0).expect(rt, "the key is there")
}

// A text where memory is not refused.
fn text_of<'a>(rt: &impl Abort, alloc: Global, bytes: &'a [u8]) -> Text<'a> {
    Text::read(alloc, bytes).expect(rt, "a text")
}

fn check_offer(
    rt: &impl Abort,
    text: &Text,
    key: NegKey,
    preferences: &Preferences,
    given: Answered,
    held: Answered,
) {
    let offer = value_of(rt, text, key);
    same(rt, &result(key, &offer, preferences), &given, &key);
    let params = held_offers(rt, text, preferences);
    same(rt, &params.get(key), &held, &key);
}

// The standard preferences but for the seconds to wait.
fn waiting(time2wait: u32) -> Preferences {
    let mut preferences = Preferences::standard();
    preferences.time2wait = time2wait;
    preferences
}

#[test]
fn results_and_held_values(rt: HostRuntime) {
    for (key, bytes, time2wait, given, held) in OFFERED {
        let text = text_of(&rt, rt.alloc(), bytes);
        check_offer(&rt, &text, *key, &waiting(*time2wait), *given, *held);
    }
}

// An offer of a key, an answer to it, and whether the answer is legal.
const LEGAL: &[Legal] = &[
    ("MaxBurstLength", "1024", "512", true),
    ("MaxBurstLength", "1024", "1024", true),
    ("MaxBurstLength", "1024", "1025", false),
    ("MaxBurstLength", "1024", "511", false),
    ("MaxBurstLength", "511", "511", false),
    ("MaxBurstLength", "1024", "Reject", true),
    ("MaxBurstLength", "1024", "None", false),
    ("DefaultTime2Wait", "2", "3600", true),
    ("DefaultTime2Wait", "2", "1", false),
    ("DefaultTime2Retain", "20", "21", false),
    ("InitialR2T", "Yes", "No", false),
    ("InitialR2T", "No", "Yes", true),
    ("ImmediateData", "No", "Yes", false),
    ("ImmediateData", "Yes", "No", true),
    ("HeaderDigest", "CRC32C,None", "None", true),
    ("HeaderDigest", "CRC32C,None", "CRC32C", false),
    ("HeaderDigest", "CRC32C", "None", false),
    ("DataDigest", "CRC32C", "NotUnderstood", true),
    ("MaxConnections", "5", "Irrelevant", true),
    ("MaxConnections", "5", "3", true),
];

// The text in which a key has this value.
fn pair_of(alloc: Global, key: &str, value: &str) -> Result<String, AllocError> {
    format!(in alloc; "{key}={value}\0")
}

// Whether an answer to an offer of a key is legal.
fn is_legal(rt: &impl Abort, key: NegKey, offered: &Text, answered: &Text) -> bool {
    let (offer, answer) = (value_of(rt, offered, key), value_of(rt, answered, key));
    legal_answer(key, &offer, &answer)
}

type Legal = (&'static str, &'static str, &'static str, bool);

fn check_legal(rt: &impl Abort, alloc: Global, row: &Legal) {
    let (name, offer, answer, legal) = *row;
    let key = NegKey::named(name.as_bytes()).expect(rt, "a negotiated key");
    let offered = pair_of(alloc, name, offer).expect(rt, "an offer");
    let answered = pair_of(alloc, name, answer).expect(rt, "an answer");
    let offered = text_of(rt, alloc, offered.as_bytes());
    let answered = text_of(rt, alloc, answered.as_bytes());
    let is_legal = is_legal(rt, key, &offered, &answered);
    same(rt, &is_legal, &legal, &(name, offer, answer));
}

#[test]
fn legal_answers(rt: HostRuntime) {
    for row in LEGAL {
        check_legal(&rt, rt.alloc(), row);
    }
}

// A text, the kind of session, what the target declares, and its answer.
type Row = (
    &'static [u8],
    Session,
    Option<u16>,
    Option<u32>,
    &'static [u8],
);

const ANSWERS: &[Row] = &[
    (
        SECURITY,
        Session::Normal,
        Some(1),
        None,
        b"AuthMethod=None\0TargetPortalGroupTag=1\0",
    ),
    (
        b"HeaderDigest=CRC32C,None\0IFMarker=No\0InitialR2T=No\0MaxBurstLength=1024\0\
            MaxRecvDataSegmentLength=4096\0X-test=1\0",
        Session::Normal,
        None,
        Some(8192),
        b"HeaderDigest=None\0IFMarker=No\0InitialR2T=No\0MaxBurstLength=1024\0\
            MaxRecvDataSegmentLength=8192\0X-test=NotUnderstood\0",
    ),
    (OPERATIONAL, Session::Normal, None, Some(8192), OPERATIONAL),
    (
        b"DataDigest=None\0MaxBurstLength=1024\0",
        Session::Discovery,
        None,
        None,
        b"DataDigest=None\0MaxBurstLength=Irrelevant\0",
    ),
    (
        b"SendTargets=All\0DataDigest=CRC32C\0InitiatorAlias=x\0OFMarkInt=1\0",
        Session::Normal,
        None,
        None,
        b"DataDigest=Reject\0OFMarkInt=Reject\0SendTargets=Reject\0",
    ),
    (b"", Session::Discovery, None, None, b""),
];

// Answers again where memory ran out: only that may come in place of the answer.
fn answer_twice(
    rt: &impl Abort,
    alloc: Global,
    text: &Text,
    session: Session,
    tag: Option<u16>,
    max_recv: Option<u32>,
) -> Vec<u8> {
    let preferences = Preferences::standard();
    match answer_text(alloc, text, &preferences, session, tag, max_recv) {
        Ok(answer) => answer,
        Err(AllocError) => answer_text(alloc, text, &preferences, session, tag, max_recv).expect(
            rt,
            "memory is there again",
        ),
    }
}

fn check_answer(rt: &impl Abort, alloc: Global, row: &Row) {
    let (given, session, tag, max_recv, want) = *row;
    let text = text_of(rt, alloc, given);
    let answer = answer_twice(rt, alloc, &text, session, tag, max_recv);
    same(rt, &answer.as_slice(), &want, &given);
}

#[test]
fn answers_to_texts(rt: HostRuntime) {
    for row in ANSWERS {
        check_answer(&rt, rt.alloc(), row);
    }
}

// A kind of session, and the first burst and the seconds to wait that both ends hold then.
const SESSIONS: &[(Session, u32, u32)] = &[
    (Session::Normal, 512, 9),
    (Session::Discovery, 65536, 2),
];

// The operational text of the worked login, written again where memory ran out.
fn operational_of(rt: &impl Abort, alloc: Global) -> Vec<u8> {
    let mut out = Vec::new(alloc);
    if standard_offers().operational_text(&mut out).is_err() {
        let again = standard_offers().operational_text(&mut out);
        again.expect(rt, "memory is there again");
    }
    out
}

// What the target holds after the text, and the initiator after the answer, with segments of 4096
// and 8192 bytes.
fn held_by_both(
    rt: &impl Abort,
    offered: &Text,
    answer: &Text,
    preferences: &Preferences,
    session: Session,
) -> (Params, Params) {
    assert!(rt; declares_well(offered));
    assert!(rt; declares_well(answer));
    assert!(rt; preferences.in_range());
    let mut target = Params::defaults();
    target.hold_offers(offered, preferences, session, Some(4096));
    let mut initiator = Params::defaults();
    initiator.hold_answer(answer, Some(8192));
    (target, initiator)
}

// Both hold the same of each key, and both lengths of segments.
fn check_same(rt: &impl Abort, target: &Params, initiator: &Params) {
    for key in NegKey::ALL {
        same(rt, &initiator.get(key), &target.get(key), &key);
    }
    same(
        rt,
        &initiator.initiator_max_recv,
        &8192,
        &"segments to the initiator",
    );
    same(
        rt,
        &target.initiator_max_recv,
        &8192,
        &"segments to the initiator",
    );
    same(
        rt,
        &initiator.target_max_recv,
        &4096,
        &"segments to the target",
    );
    same(
        rt,
        &target.target_max_recv,
        &4096,
        &"segments to the target",
    );
}

// What the target of the worked login prefers.
fn preferences_of_target() -> Preferences {
    let mut preferences = Preferences::standard();
    preferences.max_burst = 512;
    preferences.time2wait = 9;
    preferences.initial_r2t = true;
    preferences
}

// What both ends hold after an answer to the text.
fn check_session(
    rt: &impl Abort,
    offered: &Text,
    answer: &Text,
    session: Session,
    first_burst: u32,
    wait: u32,
) {
    let preferences = preferences_of_target();
    let (target, initiator) = held_by_both(rt, offered, answer, &preferences, session);
    check_same(rt, &target, &initiator);
    same(rt, &target.first_burst(), &first_burst, &session);
    let held = target.number(NegKey::DefaultTime2Wait);
    same(rt, &held, &wait, &session);
}

// The target's answer to the text in a session of this kind.
fn answer_of(rt: &impl Abort, alloc: Global, offered: &Text, session: Session) -> Vec<u8> {
    let preferences = preferences_of_target();
    let answer = answer_text(alloc, offered, &preferences, session, None, Some(4096));
    answer.expect(rt, "an answer")
}

#[test]
fn both_ends_hold_the_same(rt: HostRuntime) {
    let offered = operational_of(&rt, rt.alloc());
    let offered = text_of(&rt, rt.alloc(), offered.as_slice());
    for (session, first_burst, wait) in SESSIONS {
        let answer = answer_of(&rt, rt.alloc(), &offered, *session);
        let answer = text_of(&rt, rt.alloc(), answer.as_slice());
        check_session(&rt, &offered, &answer, *session, *first_burst, *wait);
    }
}

// A good answer to the operational text, but for `DataDigest` and `MaxBurstLength`.
const REST: &[u8] = b"DataPDUInOrder=Yes\0DataSequenceInOrder=Yes\0DefaultTime2Retain=20\0\
    DefaultTime2Wait=2\0ErrorRecoveryLevel=0\0FirstBurstLength=65536\0HeaderDigest=None\0\
    ImmediateData=No\0InitialR2T=Yes\0MaxConnections=1\0MaxOutstandingR2T=Irrelevant\0";

// Answers to the security text, and the key for which each is refused.
const SECURITY_ANSWERS: &[(&[u8], Option<&[u8]>)] = &[
    (b"AuthMethod=None\0TargetPortalGroupTag=1\0", None),
    (
        b"AuthMethod=Reject\0TargetAddress=a\0TargetAddress=b\0TargetAlias=x\0",
        None,
    ),
    (b"AuthMethod=CHAP\0", Some(b"AuthMethod")),
    (b"TargetPortalGroupTag=1\0", Some(b"AuthMethod")),
    (b"", Some(b"AuthMethod")),
    (
        b"AuthMethod=None\0HeaderDigest=None\0",
        Some(b"HeaderDigest"),
    ),
    (
        b"AuthMethod=None\0TargetName=iqn.2026-01.example:disk\0",
        Some(b"TargetName"),
    ),
    (b"X-test=NotUnderstood\0", Some(b"X-test")),
];

// What stands in an answer to the operational text beside `REST`, and the key for which the answer
// is refused.
const OPERATIONAL_ANSWERS: &[(&[u8], Option<&[u8]>)] = &[
    (b"DataDigest=None\0MaxBurstLength=262144\0", None),
    (
        b"DataDigest=None\0MaxBurstLength=512\0MaxRecvDataSegmentLength=512\0",
        None,
    ),
    (
        b"DataDigest=None\0MaxBurstLength=262145\0",
        Some(b"MaxBurstLength"),
    ),
    (
        b"DataDigest=None\0MaxBurstLength=511\0",
        Some(b"MaxBurstLength"),
    ),
    (b"MaxBurstLength=262144\0", Some(b"DataDigest")),
    (b"DataDigest=None\0", Some(b"MaxBurstLength")),
    (b"MaxBurstLength=262145\0", Some(b"MaxBurstLength")),
    (
        b"AuthMethod=None\0DataDigest=None\0MaxBurstLength=262144\0",
        Some(b"AuthMethod"),
    ),
    (
        b"DataDigest=None\0MaxBurstLength=262144\0MaxRecvDataSegmentLength=511\0",
        Some(b"MaxRecvDataSegmentLength"),
    ),
    (
        b"DataDigest=None\0MaxBurstLength=262144\0MaxRecvDataSegmentLength=16777216\0",
        Some(b"MaxRecvDataSegmentLength"),
    ),
];

// The answer is refused for this key; one that is taken is held.
fn judge(rt: &impl Abort, start: Stage, stage: Stage, answer: &Text, want: Option<&[u8]>) {
    let offers = standard_offers();
    let key = offers.bad_key(start, stage, answer);
    same(rt, &key, &want, &(start, stage));
    if key.is_none() {
        let mut params = Params::declaring(4096);
        params.hold_answer(answer, None);
        same(rt, &params.initiator_max_recv, &4096, &(start, stage));
    }
}

// The answer of these pairs beside `REST` is judged at each stage where a login starts.
fn judge_operational(rt: &impl Abort, alloc: Global, part: &[u8], want: Option<&[u8]>) {
    let mut answer = Vec::from_slice(alloc, REST).expect(rt, "an answer");
    answer.extend_from_slice(part).expect(rt, "an answer");
    let answer = text_of(rt, alloc, answer.as_slice());
    judge(rt, Stage::Security, Stage::Operational, &answer, want);
    judge(rt, Stage::Operational, Stage::Operational, &answer, want);
}

// An answer to the security text is judged.
fn judge_security(rt: &impl Abort, alloc: Global, answer: &[u8], want: Option<&[u8]>) {
    let answer = text_of(rt, alloc, answer);
    judge(rt, Stage::Security, Stage::Security, &answer, want);
}

#[test]
fn judged_answers(rt: HostRuntime) {
    for (answer, want) in SECURITY_ANSWERS {
        judge_security(&rt, rt.alloc(), answer, *want);
    }
    for (part, want) in OPERATIONAL_ANSWERS {
        judge_operational(&rt, rt.alloc(), part, *want);
    }
}

// The text of a stage, by the stage where the login started.
const STAGES: &[(Stage, Stage, &[u8])] = &[
    (Stage::Security, Stage::Security, SECURITY),
    (Stage::Security, Stage::Operational, OPERATIONAL),
    (Stage::Operational, Stage::Operational, SINGLE),
];

// A point, behind which a text is written; where memory runs out the point stands alone.
fn point_of(rt: &impl Abort, alloc: Global) -> Vec<u8> {
    Vec::from_slice(alloc, b".").expect(rt, "a point")
}

fn check_point(rt: &impl Abort, out: &[u8], row: &impl Debug) {
    same(rt, &out, &b".".as_slice(), row);
}

fn check_stage(rt: &impl Abort, alloc: Global, start: Stage, stage: Stage, want: &[u8]) {
    let offers = standard_offers();
    let mut out = point_of(rt, alloc);
    if offers.write_text(start, stage, &mut out).is_err() {
        check_point(rt, &out, &(start, stage));
        let again = offers.write_text(start, stage, &mut out);
        again.expect(rt, "memory is there again");
    }
    same(rt, &out.get(1..), &Some(want), &(start, stage));
}

#[test]
fn texts_of_stages(rt: HostRuntime) {
    for (start, stage, want) in STAGES {
        check_stage(&rt, rt.alloc(), *start, *stage, want);
    }
}

// The security text behind a point.
fn check_security(rt: &impl Abort, alloc: Global, offers: &Offers, want: &[u8]) {
    let mut out = point_of(rt, alloc);
    if offers.security_text(&mut out).is_err() {
        check_point(rt, &out, offers);
        let again = offers.security_text(&mut out);
        again.expect(rt, "memory is there again");
    }
    same(rt, &out.get(1..), &Some(want), offers);
}

fn single_of(rt: &impl Abort, alloc: Global) -> Vec<u8> {
    let mut out = Vec::new(alloc);
    if standard_offers().single_text(&mut out).is_err() {
        let again = standard_offers().single_text(&mut out);
        again.expect(rt, "memory is there again");
    }
    out
}

const DISCOVERY: &[u8] =
    b"AuthMethod=CHAP,None\0InitiatorName=iqn.2026-01.example:host\0SessionType=Discovery\0";

// Those of a discovery session that may ask for a password.
fn discovery_offers() -> Offers<'static> {
    let mut offers = standard_offers();
    offers.session = Session::Discovery;
    offers.auth = Auth::ChapOrNone;
    offers
}

#[test]
fn security_texts(rt: HostRuntime) {
    check_security(&rt, rt.alloc(), &standard_offers(), SECURITY);
    check_security(&rt, rt.alloc(), &discovery_offers(), DISCOVERY);
}

fn check_text(rt: &impl Abort, out: &[u8], want: &[u8], len: usize, name: &str) {
    same(rt, &out, &want, &name);
    same(rt, &out.len(), &len, &name);
}

#[test]
fn operational_and_single_texts(rt: HostRuntime) {
    let out = operational_of(&rt, rt.alloc());
    check_text(&rt, &out, OPERATIONAL, 283, "operational");
    let out = single_of(&rt, rt.alloc());
    check_text(&rt, &out, SINGLE, 377, "single");
}

// A first burst is no longer than another one.
fn check_first_burst(rt: &impl Abort, alloc: Global) {
    let text = text_of(rt, alloc, b"FirstBurstLength=65536\0MaxBurstLength=512\0");
    let params = held_offers(rt, &text, &Preferences::standard());
    same(rt, &params.first_burst(), &512, &"first burst");
}

#[test]
fn lengths_and_first_bursts(rt: HostRuntime) {
    let defaults = Params::defaults();
    same(&rt, &defaults.first_burst(), &65536, &"default");
    same(&rt, &defaults.initiator_max_recv, &8192, &"default");
    let declaring = Params::declaring(16777215);
    same(&rt, &declaring.initiator_max_recv, &16777215, &"declared");
    same(&rt, &declaring.target_max_recv, &8192, &"not declared");
    let longest = declaring.number(NegKey::MaxBurstLength);
    same(&rt, &longest, &262144, &"longest burst");
    check_first_burst(&rt, rt.alloc());
}

// Two stages, and whether a login may move from the first to the second.
const MOVES: &[(Stage, Stage, bool)] = &[
    (Stage::Security, Stage::Operational, true),
    (Stage::Security, Stage::Full, true),
    (Stage::Operational, Stage::Full, true),
    (Stage::Operational, Stage::Security, false),
    (Stage::Operational, Stage::Operational, false),
    (Stage::Full, Stage::Full, false),
];

#[test]
fn stages(rt: HostRuntime) {
    for (from, to, may) in MOVES {
        same(&rt, &from.may_move(*to), may, &(from, to));
    }
    same(&rt, &Stage::Security.number(), &0, &"security");
    same(&rt, &Stage::Operational.number(), &1, &"operational");
    same(&rt, &Stage::Full.number(), &3, &"full");
}

const FAULTS: &[(ConfigFault, &str)] = &[
    (ConfigFault::NoMemory, "memory"),
    (ConfigFault::BadName, "bad name"),
    (ConfigFault::OutOfRange, "out of range"),
];

fn check_line(rt: &impl Abort, alloc: Global, fault: ConfigFault, line: &str) {
    let text = format!(in alloc; "{fault}").expect(rt, "text");
    same(rt, &text.as_str(), &line, &fault);
}

#[test]
fn lines_of_faults(rt: HostRuntime) {
    for (fault, line) in FAULTS {
        check_line(&rt, rt.alloc(), *fault, line);
    }
}

// The longest burst and first burst, the seconds to wait and to retain, the longest segment, and
// whether all are in their ranges. The rows are the ends of each range, and one past them.
type Range = (u32, u32, u32, u32, u32, bool);

const RANGES: &[Range] = &[
    (512, 512, 0, 0, 512, true),
    (16777215, 16777215, 3600, 3600, 16777215, true),
    (511, 512, 0, 0, 512, false),
    (512, 511, 0, 0, 512, false),
    (512, 512, 3601, 0, 512, false),
    (512, 512, 0, 3601, 512, false),
    (512, 512, 0, 0, 16777216, false),
];

fn check_range(rt: &impl Abort, row: &Range) {
    let (max_burst, first_burst, time2wait, time2retain, max_recv, within) = *row;
    let mut preferences = Preferences::standard();
    preferences.max_burst = max_burst;
    preferences.first_burst = first_burst;
    preferences.time2wait = time2wait;
    preferences.time2retain = time2retain;
    preferences.max_recv = max_recv;
    same(rt, &preferences.in_range(), &within, &preferences);
}

#[test]
fn ranges_of_preferences(rt: HostRuntime) {
    for row in RANGES {
        check_range(&rt, row);
    }
}
