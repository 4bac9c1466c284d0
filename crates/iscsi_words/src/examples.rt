//! What stands below the words on each page of help: examples, and what a reader has to know first.

pub(crate) const SHOW: &str = "The stream comes from standard input, unless a capture is named.\n\
    \n\
    Examples:\n  \
    ./lanthovur show --hex < docs/session/initiator.hex\n  \
    ./lanthovur show < stream.bin\n  \
    ./lanthovur show --capture session.pcap --explain\n      \
    Print both directions of all iSCSI connections of a capture, with notes";

pub(crate) const NORMALISE: &str =
    "The stream comes from standard input. Two streams mean the same exactly if their canonical\n\
    streams are equal.\n\
    \n\
    Examples:\n  \
    ./lanthovur normalise < stream.bin > canonical.bin\n  \
    printf 'B=0x10\\0A=5\\0' | ./lanthovur normalise --text";

pub(crate) const COMPARE: &str =
    "If the streams mean the same, nothing is printed and the exit status is 0. If they differ, it is 1.\n\
    \n\
    Examples:\n  \
    ./lanthovur compare before.bin after.bin\n  \
    ./lanthovur compare --hex --same-job docs/session/initiator.hex docs/session/second/initiator.hex\n  \
    ./lanthovur compare --same-job --capture a.pcap b.pcap --connection 0 --from target";

pub(crate) const ANSWER: &str =
    "The stream comes from standard input, unless a capture is named. The disk is in memory,\n\
    and is zeros at first.\n\
    \n\
    Examples:\n  \
    ./lanthovur answer --size 1M < initiator.bin > target.bin\n  \
    ./lanthovur answer --blocks 2048 --hex < initiator.hex";

pub(crate) const LOOP: &str =
    "Each line of the script is a command, such as 'write 0 8 5a' or 'read 0 1'. All commands stand in\n\
    docs/FORMATS.md, section 11.\n\
    \n\
    Example:\n  \
    printf 'write 0 8 5a\\nread 0 1\\nlogout\\n' | ./lanthovur loop --size 1M --piece 48";
