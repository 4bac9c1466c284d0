//! Files by example.

use crate::asserts::same;
use iscsi_secrets::{Secrets, SecretsFault};
use std::fs::{self, Permissions};
use std::os::unix::fs::PermissionsExt;

const TEXT: &[u8] = b"user alice secretsecret12\n";

/// The fault of opening a file, if it has one.
fn fault_of(rt: &HostRuntime, path: &str) -> Option<SecretsFault> {
    Secrets::open(rt, path).err()
}

/// Permissions, and the fault of a file that has them.
const MODES: &[(u32, Option<SecretsFault>)] = &[
    (0o600, None),
    (0o400, None),
    (0o640, Some(SecretsFault::Exposed)),
    (0o604, Some(SecretsFault::Exposed)),
    (0o620, Some(SecretsFault::Exposed)),
    (0o601, Some(SecretsFault::Exposed)),
];

#[test]
fn others_may_do_nothing_with_the_file(rt: HostRuntime) {
    let path = "modes.secrets";
    let _ = fs::remove_file(&rt, path);
    assert!(rt; fs::write(&rt, path, TEXT).is_ok());
    for (mode, due) in MODES {
        assert!(rt; fs::set_permissions(&rt, path, Permissions::from_mode(*mode)).is_ok());
        same(&rt, &fault_of(&rt, path), due, mode);
    }
    let _ = fs::remove_file(&rt, path);
}

#[test]
fn the_file_is_read_to_its_end(rt: HostRuntime) {
    let path = "long.secrets";
    let _ = fs::remove_file(&rt, path);
    let text = vec![in rt.alloc(); b'\n'; 65_537].expect(&rt, "a text");
    assert!(rt; fs::write(&rt, path, &text).is_ok());
    assert!(rt; fs::set_permissions(&rt, path, Permissions::from_mode(0o600)).is_ok());
    let too_long = Some(SecretsFault::TooLong);
    same(&rt, &fault_of(&rt, path), &too_long, &"a byte too many");
    let _ = fs::remove_file(&rt, path);
}

#[test]
fn what_is_no_file_is_refused(rt: HostRuntime) {
    let missing = fault_of(&rt, "missing.secrets");
    same(&rt, &missing, &Some(SecretsFault::NotOpened), &"missing");
    let device = fault_of(&rt, "/dev/null");
    same(&rt, &device, &Some(SecretsFault::NoFile), &"/dev/null");
    let folder = fault_of(&rt, ".");
    same(&rt, &folder, &Some(SecretsFault::NoFile), &"folder");
    // It belongs to root, whom a test may run as.
    let system = fault_of(&rt, "/etc/passwd");
    assert!(rt; matches!(system, Some(SecretsFault::NotOwned | SecretsFault::Exposed)));
}
