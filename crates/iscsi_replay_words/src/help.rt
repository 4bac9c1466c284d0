//! The pages of help.

/// What stands below the page of all words.
pub const PROGRAM: &str = "\nRecorded sessions:\n  \
    job          Print the job of a recorded session: each request with its outcome\n  \
    replay       Do a job again at a live target, and print where outcomes differ\n";

/// The page of `job`.
pub(crate) const JOB: &str =
    "Print the job of a recorded session: each request with its outcome\n\n\
    Usage: lanthovur job [--data <FILE>] <INITIATOR> <TARGET>\n       \
    lanthovur job [--data <FILE>] --capture <FILE> ... --connection <K>\n\n\
    Arguments:\n  \
    <INITIATOR>        File with the bytes from the initiator\n  \
    <TARGET>           File with the bytes from the target\n\n\
    Options:\n      \
    --capture <FILE>   Read a capture file (pcap or pcapng) instead; - is standard input. May be\n                         \
    repeated\n      \
    --connection <K>   Connection to read, by its number in the list of 'connections'\n      \
    --data <FILE>      Put data of over 512 bytes into a file\n  \
    -h, --help         Print help\n";

/// The page of `replay`.
pub(crate) const REPLAY: &str =
    "Do a job again at a live target, and print where outcomes differ\n\n\
    Usage: lanthovur replay [OPTIONS] --to <ADDR:PORT> <JOB>\n\n\
    Arguments:\n  \
    <JOB>                    File of the job, as 'job' prints it; - is standard input\n\n\
    Options:\n      \
    --to <ADDR:PORT>         Target's address; the port is 3260 if it is left out\n      \
    --name <IQN>             Target's name (default iqn.2026-01.example:disk)\n      \
    --initiator-name <IQN>   Initiator's name (default iqn.2026-01.example:host)\n      \
    --isid <HEX>             ISID, 12 hex digits (default a random one)\n      \
    --data <FILE>            File with the data that 'job --data' put there\n      \
    --timing                 Send no request earlier than recorded, counted from the first\n      \
    --lun <N>                Send each command to unit N, 0 to 255, instead of the recorded one\n      \
    --all                    Go on behind a difference, and print a summary at the end\n      \
    --ignore <COMMAND>       Let the data of a command differ: inquiry, report-luns, mode-sense, an\n                             \
    operation code in hex, or data for all; may be repeated\n      \
    --writes                 Let the job change the target\n      \
    --attentions <N>         Pass over N unit attentions, 0 to 65535 (default 1)\n      \
    --wait <SECONDS>         Longest time for a request, 1 to 65535 (default 30)\n  \
    -h, --help               Print help\n";
