//! First requests of a login, and what the target of the programs answers: worked out by hand from
//! RFC 7143, section 11, a line for each PDU.

/// The first request of a login in two: `@login`.
const LOGIN: &str =
    "43810000 0000006e 40000001 00000000 00000000 00000000 00000001 00000000 00000000 00000000 00000000 00000000 'AuthMethod=None|InitiatorName=iqn.2026-01.example:host|SessionType=Normal|TargetName=iqn.2026-01.example:disk|";

/// The answer to that request, by the target of the programs: `@answer`.
const ANSWER: &str =
    "23810000 00000027 40000001 00000000 00000000 00000000 00000001 00000001 00000008 00000000 00000000 00000000 'AuthMethod=None|TargetPortalGroupTag=1|";

/// The answer of a target that takes one command at a time: `@narrow`.
const NARROW: &str =
    "23810000 00000027 40000001 00000000 00000000 00000000 00000001 00000001 00000001 00000000 00000000 00000000 'AuthMethod=None|TargetPortalGroupTag=1|";

/// The second request of that login, by the initiator of the programs: `@offer`.
const OFFER: &str =
    "43870000 0000011b 40000001 00000000 00000000 00000000 00000001 00000002 00000000 00000000 00000000 00000000 @";

/// A second request with few keys: `@few`.
const FEW: &str =
    "43870000 0000006e 40000001 00000000 00000000 00000000 00000001 00000002 00000000 00000000 00000000 00000000 'HeaderDigest=CRC32C,None|IFMarker=No|InitialR2T=No|MaxBurstLength=1024|MaxRecvDataSegmentLength=4096|X-test=1|";

/// The answer to that request, by the target of the programs: `@settled`.
const SETTLED: &str =
    "23870000 00000073 40000001 00000001 00000000 00000000 00000002 00000001 00000008 00000000 00000000 00000000 'HeaderDigest=None|IFMarker=No|InitialR2T=No|MaxBurstLength=1024|MaxRecvDataSegmentLength=8192|X-test=NotUnderstood|";

/// The only request of a login in one stage: `@short`.
const SHORT: &str =
    "43870000 0000006e 40000001 00000000 00000000 00000000 00000001 00000000 00000000 00000000 00000000 00000000 'AuthMethod=None|InitiatorName=iqn.2026-01.example:host|SessionType=Normal|TargetName=iqn.2026-01.example:disk|";

/// The standard text of the operational stage.
pub(crate) const OPERATIONAL: &str =
    "DataDigest=None|DataPDUInOrder=Yes|DataSequenceInOrder=Yes|DefaultTime2Retain=20|DefaultTime2Wait=2|ErrorRecoveryLevel=0|FirstBurstLength=65536|HeaderDigest=None|ImmediateData=Yes|InitialR2T=No|MaxBurstLength=262144|MaxConnections=1|MaxOutstandingR2T=1|MaxRecvDataSegmentLength=8192|";

/// The line of this name.
pub(crate) fn named(name: &str) -> Option<&'static str> {
    match name {
        "login" => Some(LOGIN),
        "answer" => Some(ANSWER),
        "narrow" => Some(NARROW),
        "offer" => Some(OFFER),
        "few" => Some(FEW),
        "settled" => Some(SETTLED),
        "short" => Some(SHORT),
        _ => None,
    }
}

/// The first request of a login, and the first bytes of another.
pub const CUT: &str = "@login\n4387";

/// The answer to that request, by the target of the programs.
pub const FIRST_ANSWER: &str = "@answer";

/// A first request without the initiator's name, and a ping.
pub const NAMELESS: &str =
    "43810000 00000047 40000001 00000000 00000000 00000000 00000001 00000000 00000000 00000000 00000000 00000000 'AuthMethod=None|SessionType=Normal|TargetName=iqn.2026-01.example:disk|\n\
    40800000 00000000 00000000 00000000 00000001 ffffffff 00000001 00000003 00000000 00000000 00000000 00000000";

/// The answer to that request: the login is refused.
pub const REFUSAL: &str =
    "23000000 00000000 40000001 00000000 00000000 00000000 00000000 00000001 00000008 02070000 00000000 00000000";

/// A ping: the first command behind a login in two requests.
pub const PING: &str =
    "40800000 00000000 00000000 00000000 00000001 ffffffff 00000001 00000003 00000000 00000000 00000000 00000000";
