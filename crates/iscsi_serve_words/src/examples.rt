//! What stands below the words on each page of help: examples, and what a reader has to know first.

/// Below the commands.
pub(crate) const PROGRAM: &str =
    "show, normalise, answer and loop read standard input. Without a command, lanthovur runs\n\
    'normalise --hex'. Each command has its own help, such as 'lanthovur serve --help'.\n\
    \n\
    Examples:\n  \
    ./lanthovur serve --size 32M\n      \
    Serve a disk of 32 MiB in memory, on port 3260 of 127.0.0.1\n  \
    ./lanthovur show --hex < docs/session/initiator.hex\n      \
    Print the PDUs of a captured session";

pub(crate) const SERVE: &str =
    "Warning: without --chap anyone who can reach the port can read and write the disk.\n\
    A name of --initiator is what a peer says of itself: a claim, and no protection.\n\
    \n\
    A disk in memory needs a size, and so does --create. An existing image, or an export, has its own.\n\
    'listening' is printed once initiators can connect. The disk is unit 0 (LUN 0) of the target.\n\
    \n\
    Examples:\n  \
    ./lanthovur serve --size 32M\n      \
    Serve 32 MiB of memory. For QEMU it is iscsi://127.0.0.1:3260/iqn.2026-01.example:disk/0\n  \
    ./lanthovur serve --file disk.img --create --size 8M\n      \
    Create the image disk.img of 8 MiB, and serve it\n  \
    ./lanthovur serve --file disk.img --listen 0.0.0.0 --name iqn.2026-01.example:disk-7\n      \
    Serve the image again, on all IPv4 addresses, by a name of its own\n  \
    ./lanthovur serve --nbd 127.0.0.1:10809/disk\n      \
    Serve the export 'disk' of an NBD server, such as qemu-nbd";
