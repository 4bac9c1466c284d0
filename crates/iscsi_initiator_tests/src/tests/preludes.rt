//! What goes before the lines of a dialogue.
//! The bytes were laid out by a script from the tables of RFC 7143, section 11.

/// A login whose second text was sent.
pub const BEGUN: &str = "! start\n\
    I> @login\n\
    = ok\n\
    T> @narrow\n\
    I> @offer\n\
    = login";

/// A login of the standard preferences.
pub const LOGIN: &str = "! start\n\
    I> @login\n\
    = ok\n\
    T> @narrow\n\
    I> @offer\n\
    = login\n\
    T> 23870000 0000011b 40000001 00000001 00000000 00000000 00000002 00000001 00000001 00000000 00000000 00000000 @\n\
    = full";

/// A target with bursts of 1,024 bytes and segments of 512.
pub const BURSTS: &str = "! start\n\
    I> @login\n\
    = ok\n\
    T> @narrow\n\
    I> @offer\n\
    = login\n\
    T> 23870000 00000117 40000001 00000001 00000000 00000000 00000002 00000001 00000001 00000000 00000000 00000000 'DataDigest=None|DataPDUInOrder=Yes|DataSequenceInOrder=Yes|DefaultTime2Retain=20|DefaultTime2Wait=2|ErrorRecoveryLevel=0|FirstBurstLength=1024|HeaderDigest=None|ImmediateData=Yes|InitialR2T=No|MaxBurstLength=1024|MaxConnections=1|MaxOutstandingR2T=1|MaxRecvDataSegmentLength=512|\n\
    = full";

/// The same, to which data go only where it asks for them.
pub const ASKED: &str = "! start\n\
    I> @login\n\
    = ok\n\
    T> @narrow\n\
    I> @offer\n\
    = login\n\
    T> 23870000 00000117 40000001 00000001 00000000 00000000 00000002 00000001 00000001 00000000 00000000 00000000 'DataDigest=None|DataPDUInOrder=Yes|DataSequenceInOrder=Yes|DefaultTime2Retain=20|DefaultTime2Wait=2|ErrorRecoveryLevel=0|FirstBurstLength=1024|HeaderDigest=None|ImmediateData=No|InitialR2T=Yes|MaxBurstLength=1024|MaxConnections=1|MaxOutstandingR2T=1|MaxRecvDataSegmentLength=512|\n\
    = full";

/// The same, to which immediate data may go.
pub const IMMEDIATE: &str = "! start\n\
    I> @login\n\
    = ok\n\
    T> @narrow\n\
    I> @offer\n\
    = login\n\
    T> 23870000 00000118 40000001 00000001 00000000 00000000 00000002 00000001 00000001 00000000 00000000 00000000 'DataDigest=None|DataPDUInOrder=Yes|DataSequenceInOrder=Yes|DefaultTime2Retain=20|DefaultTime2Wait=2|ErrorRecoveryLevel=0|FirstBurstLength=1024|HeaderDigest=None|ImmediateData=Yes|InitialR2T=Yes|MaxBurstLength=1024|MaxConnections=1|MaxOutstandingR2T=1|MaxRecvDataSegmentLength=512|\n\
    = full";

/// The same, to which unsolicited data may go, but none with the command.
pub const UNSOLICITED: &str = "! start\n\
    I> @login\n\
    = ok\n\
    T> @narrow\n\
    I> @offer\n\
    = login\n\
    T> 23870000 00000116 40000001 00000001 00000000 00000000 00000002 00000001 00000001 00000000 00000000 00000000 'DataDigest=None|DataPDUInOrder=Yes|DataSequenceInOrder=Yes|DefaultTime2Retain=20|DefaultTime2Wait=2|ErrorRecoveryLevel=0|FirstBurstLength=1024|HeaderDigest=None|ImmediateData=No|InitialR2T=No|MaxBurstLength=1024|MaxConnections=1|MaxOutstandingR2T=1|MaxRecvDataSegmentLength=512|\n\
    = full";

/// A target that takes no command yet.
pub const SHUT: &str = "! start\n\
    I> @login\n\
    = ok\n\
    T> 23810000 00000027 40000001 00000000 00000000 00000000 00000001 00000001 00000000 00000000 00000000 00000000 'AuthMethod=None|TargetPortalGroupTag=1|\n\
    I> @offer\n\
    = login\n\
    T> 23870000 0000011b 40000001 00000001 00000000 00000000 00000002 00000001 00000000 00000000 00000000 00000000 @\n\
    = full";

/// A login with the last CmdSN.
pub const WRAPPING: &str = "! start\n\
    I> 43810000 0000006e 40000001 00000000 00000000 00000000 ffffffff 00000000 00000000 00000000 00000000 00000000 'AuthMethod=None|InitiatorName=iqn.2026-01.example:host|SessionType=Normal|TargetName=iqn.2026-01.example:disk|\n\
    = ok\n\
    T> 23810000 00000027 40000001 00000000 00000000 00000000 00000001 ffffffff ffffffff 00000000 00000000 00000000 'AuthMethod=None|TargetPortalGroupTag=1|\n\
    I> 43870000 0000011b 40000001 00000000 00000000 00000000 ffffffff 00000002 00000000 00000000 00000000 00000000 @\n\
    = login\n\
    T> 23870000 0000011b 40000001 00000001 00000000 00000000 00000002 ffffffff ffffffff 00000000 00000000 00000000 @\n\
    = full";

/// A login of an initiator that takes segments of at most 512 bytes.
pub const SHORT: &str = "! start\n\
    I> @login\n\
    = ok\n\
    T> @narrow\n\
    I> 43870000 0000011a 40000001 00000000 00000000 00000000 00000001 00000002 00000000 00000000 00000000 00000000 'DataDigest=None|DataPDUInOrder=Yes|DataSequenceInOrder=Yes|DefaultTime2Retain=20|DefaultTime2Wait=2|ErrorRecoveryLevel=0|FirstBurstLength=65536|HeaderDigest=None|ImmediateData=Yes|InitialR2T=No|MaxBurstLength=262144|MaxConnections=1|MaxOutstandingR2T=1|MaxRecvDataSegmentLength=512|\n\
    = login\n\
    T> 23870000 0000011b 40000001 00000001 00000000 00000000 00000002 00000001 00000001 00000000 00000000 00000000 @\n\
    = full";
