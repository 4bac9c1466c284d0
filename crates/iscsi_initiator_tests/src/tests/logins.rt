//! Logins as dialogues.
//! The bytes were laid out by a script from the tables of RFC 7143, section 11.

/// Logins.
pub const LOGINS: &str = "# standard, nothing: from the security stage\n\
    ? login, security\n\
    ! start\n\
    I> @login\n\
    = ok\n\
    ? login, security\n\
    T> @answer\n\
    I> @offer\n\
    = login\n\
    ? login, operational\n\
    T> 23870000 0000011b 40000001 00000001 00000000 00000000 00000002 00000001 00000008 00000000 00000000 00000000 @\n\
    = full\n\
    ? full, full\n\
    ! finish\n\
    = ok\n\
    # segments, nothing: in segments of 64 bytes\n\
    ! start\n\
    I> 43400000 00000040 40000001 00000000 00000000 00000000 00000001 00000000 00000000 00000000 00000000 00000000 'AuthMethod=None|InitiatorName=iqn.2026-01.example:host|SessionTy\n\
    = ok\n\
    T> 23000000 00000000 40000001 00000000 00000000 00000000 00000001 00000001 00000008 00000000 00000000 00000000\n\
    I> 43810000 0000002e 40000001 00000000 00000000 00000000 00000001 00000002 00000000 00000000 00000000 00000000 'pe=Normal|TargetName=iqn.2026-01.example:disk|\n\
    = login\n\
    T> 23810000 00000027 40000001 00000000 00000000 00000000 00000002 00000001 00000008 00000000 00000000 00000000 'AuthMethod=None|TargetPortalGroupTag=1|\n\
    I> 43440000 00000040 40000001 00000000 00000000 00000000 00000001 00000003 00000000 00000000 00000000 00000000 'DataDigest=None|DataPDUInOrder=Yes|DataSequenceInOrder=Yes|Defau\n\
    = login\n\
    T> 23040000 00000000 40000001 00000000 00000000 00000000 00000003 00000001 00000008 00000000 00000000 00000000\n\
    I> 43440000 00000040 40000001 00000000 00000000 00000000 00000001 00000004 00000000 00000000 00000000 00000000 'ltTime2Retain=20|DefaultTime2Wait=2|ErrorRecoveryLevel=0|FirstBu\n\
    = login\n\
    T> 23040000 00000000 40000001 00000000 00000000 00000000 00000004 00000001 00000008 00000000 00000000 00000000\n\
    I> 43440000 00000040 40000001 00000000 00000000 00000000 00000001 00000005 00000000 00000000 00000000 00000000 'rstLength=65536|HeaderDigest=None|ImmediateData=Yes|InitialR2T=N\n\
    = login\n\
    T> 23040000 00000000 40000001 00000000 00000000 00000000 00000005 00000001 00000008 00000000 00000000 00000000\n\
    I> 43440000 00000040 40000001 00000000 00000000 00000000 00000001 00000006 00000000 00000000 00000000 00000000 'o|MaxBurstLength=262144|MaxConnections=1|MaxOutstandingR2T=1|Max\n\
    = login\n\
    T> 23040000 00000000 40000001 00000000 00000000 00000000 00000006 00000001 00000008 00000000 00000000 00000000\n\
    I> 43870000 0000001b 40000001 00000000 00000000 00000000 00000001 00000007 00000000 00000000 00000000 00000000 'RecvDataSegmentLength=8192|\n\
    = login\n\
    ? login, operational\n\
    T> 23870000 0000011b 40000001 00000001 00000000 00000000 00000007 00000001 00000008 00000000 00000000 00000000 @\n\
    = full\n\
    ? full, full\n\
    ! ping 'abc\n\
    I> 00800000 00000003 00000000 00000000 00000001 ffffffff 00000001 00000008 00000000 00000000 00000000 00000000 'abc\n\
    = ok\n\
    # single, nothing: from the operational stage\n\
    ? login, operational\n\
    ! start\n\
    I> 43870000 00000179 40000001 00000000 00000000 00000000 00000001 00000000 00000000 00000000 00000000 00000000 'DataDigest=None|DataPDUInOrder=Yes|DataSequenceInOrder=Yes|DefaultTime2Retain=20|DefaultTime2Wait=2|ErrorRecoveryLevel=0|FirstBurstLength=65536|HeaderDigest=None|ImmediateData=Yes|InitialR2T=No|InitiatorName=iqn.2026-01.example:host|MaxBurstLength=262144|MaxConnections=1|MaxOutstandingR2T=1|MaxRecvDataSegmentLength=8192|SessionType=Normal|TargetName=iqn.2026-01.example:disk|\n\
    = ok\n\
    T> 23870000 00000132 40000001 00000001 00000000 00000000 00000001 00000001 00000008 00000000 00000000 00000000 'DataDigest=None|DataPDUInOrder=Yes|DataSequenceInOrder=Yes|DefaultTime2Retain=20|DefaultTime2Wait=2|ErrorRecoveryLevel=0|FirstBurstLength=65536|HeaderDigest=None|ImmediateData=Yes|InitialR2T=No|MaxBurstLength=262144|MaxConnections=1|MaxOutstandingR2T=1|MaxRecvDataSegmentLength=8192|TargetPortalGroupTag=1|\n\
    = full\n\
    ? full, full\n\
    # standard, nothing: refused as not found\n\
    ! start\n\
    I> @login\n\
    = ok\n\
    T> 23000000 00000000 40000001 00000000 00000000 00000000 00000000 00000001 00000001 02030000 00000000 00000000\n\
    = failed, login refused: 0203\n\
    ? closed, security\n\
    ! start\n\
    = failed, closed\n\
    # standard, begun: refused in the second text\n\
    T> 23040000 00000000 40000001 00000000 00000000 00000000 00000000 00000001 00000001 02010000 00000000 00000000\n\
    = failed, login refused: 0201\n\
    ? closed, operational\n\
    T> 23870000 0000011b 40000001 00000001 00000000 00000000 00000002 00000001 00000001 00000000 00000000 00000000 @\n\
    = failed, closed\n\
    # standard, begun: a greater burst than was offered\n\
    T> 23870000 0000011b 40000001 00000001 00000000 00000000 00000002 00000001 00000001 00000000 00000000 00000000 'DataDigest=None|DataPDUInOrder=Yes|DataSequenceInOrder=Yes|DefaultTime2Retain=20|DefaultTime2Wait=2|ErrorRecoveryLevel=0|FirstBurstLength=65536|HeaderDigest=None|ImmediateData=Yes|InitialR2T=No|MaxBurstLength=300000|MaxConnections=1|MaxOutstandingR2T=1|MaxRecvDataSegmentLength=8192|\n\
    = failed, bad answer: MaxBurstLength\n\
    ? closed, operational\n\
    ! logout\n\
    = was closed\n\
    # standard, begun: a greater burst alone\n\
    T> 23870000 00000016 40000001 00000001 00000000 00000000 00000002 00000001 00000001 00000000 00000000 00000000 'MaxBurstLength=300000|\n\
    = failed, bad answer: MaxBurstLength\n\
    ? closed, operational\n\
    # standard, begun: a smaller burst alone\n\
    T> 23870000 00000014 40000001 00000001 00000000 00000000 00000002 00000001 00000001 00000000 00000000 00000000 'MaxBurstLength=1024|\n\
    = failed, bad answer: DataDigest\n\
    ? closed, operational\n\
    # standard, begun: no data digest\n\
    T> 23870000 0000010b 40000001 00000001 00000000 00000000 00000002 00000001 00000001 00000000 00000000 00000000 'DataPDUInOrder=Yes|DataSequenceInOrder=Yes|DefaultTime2Retain=20|DefaultTime2Wait=2|ErrorRecoveryLevel=0|FirstBurstLength=65536|HeaderDigest=None|ImmediateData=Yes|InitialR2T=No|MaxBurstLength=262144|MaxConnections=1|MaxOutstandingR2T=1|MaxRecvDataSegmentLength=8192|\n\
    = failed, bad answer: DataDigest\n\
    ? closed, operational\n\
    ! logout\n\
    = was closed\n\
    # standard, begun: another digest\n\
    T> 23870000 0000011d 40000001 00000001 00000000 00000000 00000002 00000001 00000001 00000000 00000000 00000000 'DataDigest=None|DataPDUInOrder=Yes|DataSequenceInOrder=Yes|DefaultTime2Retain=20|DefaultTime2Wait=2|ErrorRecoveryLevel=0|FirstBurstLength=65536|HeaderDigest=CRC32C|ImmediateData=Yes|InitialR2T=No|MaxBurstLength=262144|MaxConnections=1|MaxOutstandingR2T=1|MaxRecvDataSegmentLength=8192|\n\
    = failed, bad answer: HeaderDigest\n\
    ? closed, operational\n\
    ! logout\n\
    = was closed\n\
    # standard, begun: too short a declared segment\n\
    T> 23870000 0000011a 40000001 00000001 00000000 00000000 00000002 00000001 00000001 00000000 00000000 00000000 'DataDigest=None|DataPDUInOrder=Yes|DataSequenceInOrder=Yes|DefaultTime2Retain=20|DefaultTime2Wait=2|ErrorRecoveryLevel=0|FirstBurstLength=65536|HeaderDigest=None|ImmediateData=Yes|InitialR2T=No|MaxBurstLength=262144|MaxConnections=1|MaxOutstandingR2T=1|MaxRecvDataSegmentLength=511|\n\
    = failed, bad answer: MaxRecvDataSegmentLength\n\
    ? closed, operational\n\
    ! logout\n\
    = was closed\n\
    # standard, begun: what was answered before\n\
    T> 23870000 0000012b 40000001 00000001 00000000 00000000 00000002 00000001 00000001 00000000 00000000 00000000 'AuthMethod=None|DataDigest=None|DataPDUInOrder=Yes|DataSequenceInOrder=Yes|DefaultTime2Retain=20|DefaultTime2Wait=2|ErrorRecoveryLevel=0|FirstBurstLength=65536|HeaderDigest=None|ImmediateData=Yes|InitialR2T=No|MaxBurstLength=262144|MaxConnections=1|MaxOutstandingR2T=1|MaxRecvDataSegmentLength=8192|\n\
    = failed, bad answer: AuthMethod\n\
    ? closed, operational\n\
    ! logout\n\
    = was closed\n\
    # standard, begun: a key that nobody offered\n\
    T> 23870000 00000127 40000001 00000001 00000000 00000000 00000002 00000001 00000001 00000000 00000000 00000000 'DataDigest=None|DataPDUInOrder=Yes|DataSequenceInOrder=Yes|DefaultTime2Retain=20|DefaultTime2Wait=2|ErrorRecoveryLevel=0|FirstBurstLength=65536|HeaderDigest=None|IFMarker=No|ImmediateData=Yes|InitialR2T=No|MaxBurstLength=262144|MaxConnections=1|MaxOutstandingR2T=1|MaxRecvDataSegmentLength=8192|\n\
    = failed, bad answer: IFMarker\n\
    ? closed, operational\n\
    ! logout\n\
    = was closed\n\
    # standard, nothing: chap\n\
    ! start\n\
    I> @login\n\
    = ok\n\
    T> 23810000 00000027 40000001 00000000 00000000 00000000 00000001 00000001 00000001 00000000 00000000 00000000 'AuthMethod=CHAP|TargetPortalGroupTag=1|\n\
    = failed, bad answer: AuthMethod\n\
    ? closed, security\n\
    # standard, begun: an alias\n\
    T> 23870000 0000012c 40000001 00000001 00000000 00000000 00000002 00000001 00000001 00000000 00000000 00000000 'DataDigest=None|DataPDUInOrder=Yes|DataSequenceInOrder=Yes|DefaultTime2Retain=20|DefaultTime2Wait=2|ErrorRecoveryLevel=0|FirstBurstLength=65536|HeaderDigest=None|ImmediateData=Yes|InitialR2T=No|MaxBurstLength=262144|MaxConnections=1|MaxOutstandingR2T=1|MaxRecvDataSegmentLength=8192|TargetAlias=disk|\n\
    = full\n\
    # standard, begun: status numbers skip one\n\
    T> 23870000 0000011b 40000001 00000001 00000000 00000000 00000003 00000001 00000001 00000000 00000000 00000000 @\n\
    = failed, protocol: rule 6\n\
    ? closed, operational\n\
    # standard, begun: a status number again\n\
    T> 23870000 0000011b 40000001 00000001 00000000 00000000 00000001 00000001 00000001 00000000 00000000 00000000 @\n\
    = failed, protocol: rule 6\n\
    # standard, nothing: any first status number\n\
    ! start\n\
    I> @login\n\
    = ok\n\
    T> 23810000 00000027 40000001 00000000 00000000 00000000 ffffffff 00000001 00000001 00000000 00000000 00000000 'AuthMethod=None|TargetPortalGroupTag=1|\n\
    I> 43870000 0000011b 40000001 00000000 00000000 00000000 00000001 00000000 00000000 00000000 00000000 00000000 @\n\
    = login\n\
    T> 23870000 0000011b 40000001 00000001 00000000 00000000 00000000 00000001 00000001 00000000 00000000 00000000 @\n\
    = full\n\
    # standard, begun: the stage before\n\
    T> 23830000 0000011b 40000001 00000001 00000000 00000000 00000002 00000001 00000001 00000000 00000000 00000000 @\n\
    = failed, protocol: rule 7\n\
    ? closed, operational\n\
    # standard, nothing: a step too far\n\
    ! start\n\
    I> @login\n\
    = ok\n\
    T> 23830000 00000027 40000001 00000001 00000000 00000000 00000001 00000001 00000001 00000000 00000000 00000000 'AuthMethod=None|TargetPortalGroupTag=1|\n\
    = failed, protocol: rule 7\n\
    ? closed, security\n\
    # standard, nothing: no step\n\
    ! start\n\
    I> @login\n\
    = ok\n\
    T> 23000000 00000027 40000001 00000000 00000000 00000000 00000001 00000001 00000001 00000000 00000000 00000000 'AuthMethod=None|TargetPortalGroupTag=1|\n\
    = failed, protocol: rule 7\n\
    # standard, nothing: the answer goes on\n\
    ! start\n\
    I> @login\n\
    = ok\n\
    T> 23400000 00000027 40000001 00000000 00000000 00000000 00000001 00000001 00000001 00000000 00000000 00000000 'AuthMethod=None|TargetPortalGroupTag=1|\n\
    = failed, protocol: rule 7\n\
    # segments, nothing: a step amid a text\n\
    ! start\n\
    I> 43400000 00000040 40000001 00000000 00000000 00000000 00000001 00000000 00000000 00000000 00000000 00000000 'AuthMethod=None|InitiatorName=iqn.2026-01.example:host|SessionTy\n\
    = ok\n\
    T> @narrow\n\
    = failed, protocol: rule 7\n\
    # segments, nothing: data amid a text\n\
    ! start\n\
    I> 43400000 00000040 40000001 00000000 00000000 00000000 00000001 00000000 00000000 00000000 00000000 00000000 'AuthMethod=None|InitiatorName=iqn.2026-01.example:host|SessionTy\n\
    = ok\n\
    T> 23000000 00000004 40000001 00000000 00000000 00000000 00000001 00000001 00000001 00000000 00000000 00000000 'X=1|\n\
    = failed, protocol: rule 7\n\
    # standard, begun: an answer that is no text\n\
    T> 23870000 0000000e 40000001 00000001 00000000 00000000 00000002 00000001 00000001 00000000 00000000 00000000 'MaxBurstLength\n\
    = failed, protocol: rule 4\n\
    # standard, nothing: bytes before the start\n\
    T> @narrow\n\
    = failed, protocol: rule 1\n\
    ? closed, security\n\
    ! start\n\
    = failed, closed\n\
    # standard, nothing: a second start\n\
    ! start\n\
    I> @login\n\
    = ok\n\
    ! start\n\
    = failed, protocol: rule 1\n\
    ? closed, security\n\
    # standard, logged in: a start after the login\n\
    ! start\n\
    = failed, protocol: rule 1\n\
    ? closed, full\n\
    # standard, nothing: an answer to another task\n\
    ! start\n\
    I> @login\n\
    = ok\n\
    T> 23810000 00000027 40000001 00000000 00000001 00000000 00000001 00000001 00000001 00000000 00000000 00000000 'AuthMethod=None|TargetPortalGroupTag=1|\n\
    = failed, protocol: rule 1\n\
    # standard, nothing: a reject in the login\n\
    ! start\n\
    I> @login\n\
    = ok\n\
    T> 3f800400 00000000 00000000 00000000 ffffffff 00000000 00000001 00000001 00000001 00000000 00000000 00000000\n\
    = failed, protocol: rule 1\n\
    # standard, nothing: requests before the login\n\
    ! logout\n\
    = not ready\n\
    ! ping 'abc\n\
    = not ready\n\
    ! start\n\
    I> @login\n\
    = ok\n\
    ! in 0000000000000000 28000000000000000100000000000000 512\n\
    = not ready\n\
    ! out 0000000000000000 2a000000000000000100000000000000 5a*512\n\
    = not ready\n\
    ! text 'SendTargets=All|\n\
    = not ready\n\
    ! outcome\n\
    = none\n\
    T> @narrow\n\
    I> @offer\n\
    = login\n\
    # discovery, nothing: discovery\n\
    ! start\n\
    I> 43810000 0000004d 40000001 00000000 00000000 00000000 00000001 00000000 00000000 00000000 00000000 00000000 'AuthMethod=None|InitiatorName=iqn.2026-01.example:host|SessionType=Discovery|\n\
    = ok\n\
    T> 23810000 00000010 40000001 00000000 00000000 00000000 00000001 00000001 00000001 00000000 00000000 00000000 'AuthMethod=None|\n\
    I> @offer\n\
    = login\n\
    T> 23870000 0000016d 40000001 00000001 00000000 00000000 00000002 00000001 00000001 00000000 00000000 00000000 'DataDigest=None|DataPDUInOrder=Irrelevant|DataSequenceInOrder=Irrelevant|DefaultTime2Retain=Irrelevant|DefaultTime2Wait=Irrelevant|ErrorRecoveryLevel=Irrelevant|FirstBurstLength=Irrelevant|HeaderDigest=None|ImmediateData=Irrelevant|InitialR2T=Irrelevant|MaxBurstLength=Irrelevant|MaxConnections=Irrelevant|MaxOutstandingR2T=Irrelevant|MaxRecvDataSegmentLength=8192|\n\
    = full\n\
    ! text 'SendTargets=All|\n\
    I> 04800000 00000010 00000000 00000000 00000001 ffffffff 00000001 00000003 00000000 00000000 00000000 00000000 'SendTargets=All|\n\
    = ok\n\
    T> 24800000 00000024 00000000 00000000 00000001 ffffffff 00000003 00000002 00000002 00000000 00000000 00000000 'TargetName=iqn.2026-01.example:disk|\n\
    = full\n\
    ! outcome\n\
    : 'TargetName=iqn.2026-01.example:disk|\n\
    = text";
