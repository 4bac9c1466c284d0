//! Headers whose bytes were worked out by hand from the tables of RFC 7143, section 11. The file is
//! long for its rows: each kind has some.

use iscsi_pdu::{
    AsyncMessage, DataIn, DataOut, Head, HeadFault, LoginRequest, LoginResponse, LogoutRequest,
    LogoutResponse, NopIn, NopOut, ReadyToTransfer, Reject, ScsiCommand, ScsiResponse, Serial,
    TaskRequest, TaskResponse, TextRequest, TextResponse, Window, laws, pad, put_head,
    read_bare_head, read_head, write_head,
};
use scsi_cdb::{Cdb, Transfer10};
use std::alloc::Global;
use std::fmt::Debug;
use std::process::Abort;

/// Asserts that a value is the one that is due, in a row of which this tells.
fn same<T: PartialEq + Debug>(rt: &impl Abort, value: &T, due: &T, row: &impl Debug) {
    assert!(rt; *value == *due, "{row:?}: {value:?} is not {due:?}");
}

/// The header of which these are the words.
fn header(words: [u32; 12]) -> [u8; 48] {
    let mut bytes = [0; 48];
    for (i, word) in words.iter().enumerate() {
        bytes[4 * i..4 * i + 4].copy_from_slice(&word.to_be_bytes());
    }
    bytes
}

/// Whether a header that comes is written so again.
fn is_written(came: [u32; 12], written: [u32; 12]) -> bool {
    match read_head(&header(came)) {
        Ok((head, len)) => {
            let mut placed = [0xff; 48];
            put_head(&head, len, &mut placed);
            placed == header(written) && write_head(&head, len) == header(written)
        }
        Err(_) => false,
    }
}

/// A header has this head, and has it bare where it says no data segment.
fn check_head(rt: &impl Abort, words: [u32; 12], head: &Head) {
    let read = read_head(&header(words)).map(|(read, _)| read);
    same(rt, &read, &Ok(*head), &words);
    let bare = if words[1] == 0 { Some(*head) } else { None };
    same(rt, &read_bare_head(&header(words)), &bare, &words);
}

/// All bits of a word.
const X: u32 = 0xffff_ffff;

/// A header in which the bits of no field are the wrong way round, and its canonical header. Each
/// field with a condition is there in one row and not in another.
const INITIATOR_HEADERS: &[([u32; 12], [u32; 12])] = &[
    // NOP-Out: the LUN by the target transfer tag.
    (
        [
            0xc07fffff, 3, 0x01020304, 0x05060708, 1, 2, 3, 4, X, X, X, X,
        ],
        [
            0x40800000, 3, 0x01020304, 0x05060708, 1, 2, 3, 4, 0, 0, 0, 0,
        ],
    ),
    (
        [0x807fffff, 0, X, X, 1, X, 3, 4, X, X, X, X],
        [0x00800000, 0, 0, 0, 1, X, 3, 4, 0, 0, 0, 0],
    ),
    (
        [
            0xc0800000, 3, 0x11111111, 0x11111111, 1, X, 5, 2, 0, 0, 0, 0,
        ],
        [0x40800000, 3, 0, 0, 1, X, 5, 2, 0, 0, 0, 0],
    ),
    (
        [
            0xc0800000, 3, 0x11111111, 0x11111111, 1, 1, 5, 2, 0, 0, 0, 0,
        ],
        [
            0x40800000, 3, 0x11111111, 0x11111111, 1, 1, 5, 2, 0, 0, 0, 0,
        ],
    ),
    // SCSI Command, with blocks of records and blocks of none.
    (
        [
            0xc1ffffff, 0, 0x01020304, 0x05060708, 1, 2, 3, 4, 0x28000000, 0x0000ff00, 0x01001122,
            0x33445566,
        ],
        [
            0x41e70000, 0, 0x01020304, 0x05060708, 1, 2, 3, 4, 0x28000000, 0x00001f00, 0x01000000,
            0,
        ],
    ),
    (
        [
            0x8118ffff, 0, 0, 0, 1, 2, 3, 4, 0x9ef00102, 0x03040506, 0x07080000, 0x00200e0f,
        ],
        [
            0x01000000, 0, 0, 0, 1, 2, 3, 4, 0x9e100000, 0, 0, 0x0020000f,
        ],
    ),
    (
        [
            0x01000000, 0, 0, 0, 1, 2, 3, 4, 0x9e110203, 0x04050607, 0x08090a0b, 0x0c0d0e0f,
        ],
        [
            0x01000000, 0, 0, 0, 1, 2, 3, 4, 0x9e110203, 0x04050607, 0x08090a0b, 0x0c0d0e0f,
        ],
    ),
    (
        [0x01000000, 0, 0, 0, 1, 2, 3, 4, 0x34ffffff, X, X, X],
        [0x01000000, 0, 0, 0, 1, 2, 3, 4, 0x34ffffff, X, X, X],
    ),
    (
        [0x01000000, 0, 0, 0, 1, 2, 3, 4, 0x35ffffff, X, X, X],
        [
            0x01000000, 0, 0, 0, 1, 2, 3, 4, 0x3506ffff, 0xffff1fff, 0xffff0000, 0,
        ],
    ),
    // Task Management Function Request.
    (
        [
            0xc205ffff, 0, 0x01020304, 0x05060708, 1, 2, 3, 4, 5, 6, X, X,
        ],
        [
            0x42850000, 0, 0x01020304, 0x05060708, 1, 2, 3, 4, 5, 6, 0, 0,
        ],
    ),
    // Login Request: the next stage by T.
    (
        [
            0x83b70102, 0x2000, 0x40000001, 0x02030405, 1, 0x0002ffff, 3, 4, X, X, X, X,
        ],
        [
            0x43870102, 0x2000, 0x40000001, 0x02030405, 1, 0x00020000, 3, 4, 0, 0, 0, 0,
        ],
    ),
    (
        [
            0x837b0102, 0, 0x40000001, 0x02030405, 1, 0x0002ffff, 3, 4, X, X, X, X,
        ],
        [
            0x43480102, 0, 0x40000001, 0x02030405, 1, 0x00020000, 3, 4, 0, 0, 0, 0,
        ],
    ),
    (
        [
            0x03030000, 0, 0x40000001, 0, 0, 0x0000ffff, 1, 0, 0, 0, 0, 0,
        ],
        [0x43000000, 0, 0x40000001, 0, 0, 0, 1, 0, 0, 0, 0, 0],
    ),
    // Text Request: the LUN by the target transfer tag.
    (
        [
            0xc4ffffff, 0, 0x01020304, 0x05060708, 1, 2, 3, 4, X, X, X, X,
        ],
        [
            0x44c00000, 0, 0x01020304, 0x05060708, 1, 2, 3, 4, 0, 0, 0, 0,
        ],
    ),
    (
        [0x843fffff, 0, X, X, 1, X, 3, 4, X, X, X, X],
        [0x04000000, 0, 0, 0, 1, X, 3, 4, 0, 0, 0, 0],
    ),
    // Data-Out: the LUN by the target transfer tag.
    (
        [
            0xc5ffffff, 0xffffff, 0x01020304, 0x05060708, 1, 2, X, 3, X, 4, 5, X,
        ],
        [
            0x05800000, 0xffffff, 0x01020304, 0x05060708, 1, 2, 0, 3, 0, 4, 5, 0,
        ],
    ),
    (
        [0xc57fffff, 0, X, X, 1, X, X, 3, X, 4, 5, X],
        [0x05000000, 0, 0, 0, 1, X, 0, 3, 0, 4, 5, 0],
    ),
    // Logout Request: the connection by the reason.
    (
        [0xc601ffff, 0, X, X, 1, 0x0007ffff, 3, 4, X, X, X, X],
        [0x46810000, 0, 0, 0, 1, 0x00070000, 3, 4, 0, 0, 0, 0],
    ),
    (
        [
            0x86800000, 0, 0x11111111, 0x11111111, 1, 0x00070000, 5, 2, 0, 0, 0, 0,
        ],
        [0x06800000, 0, 0, 0, 1, 0, 5, 2, 0, 0, 0, 0],
    ),
    (
        [
            0x86010000, 0, 0x11111111, 0x11111111, 1, 0x00070000, 5, 2, 0, 0, 0, 0,
        ],
        [0x06810000, 0, 0, 0, 1, 0x00070000, 5, 2, 0, 0, 0, 0],
    ),
];

#[test]
fn headers_of_the_initiator(rt: HostRuntime) {
    for (i, (came, written)) in INITIATOR_HEADERS.iter().enumerate() {
        same(&rt, &is_written(*came, *written), &true, &i);
    }
}

/// Rows as above.
const TARGET_HEADERS: &[([u32; 12], [u32; 12])] = &[
    // NOP-In: the LUN by the target transfer tag.
    (
        [
            0xe07fffff, 0, 0x01020304, 0x05060708, 1, 2, 3, 4, 5, X, X, X,
        ],
        [
            0x20800000, 0, 0x01020304, 0x05060708, 1, 2, 3, 4, 5, 0, 0, 0,
        ],
    ),
    (
        [0xe07fffff, 0, X, X, 1, X, 3, 4, 5, X, X, X],
        [0x20800000, 0, 0, 0, 1, X, 3, 4, 5, 0, 0, 0],
    ),
    // SCSI Response: the status by the response, each residual by each of its two bits.
    (
        [0xe1730002, 0, X, X, 1, X, 2, 3, 4, 5, 6, 7],
        [0x21920002, 0, 0, 0, 1, 0, 2, 3, 4, 5, 6, 7],
    ),
    (
        [0xe16d0000, 0, X, X, 1, X, 2, 3, 4, 5, 6, 7],
        [0x218c0000, 0, 0, 0, 1, 0, 2, 3, 4, 5, 6, 7],
    ),
    (
        [0xe16101ff, 0, X, X, 1, X, 2, 3, 4, X, X, X],
        [0x21800100, 0, 0, 0, 1, 0, 2, 3, 4, 0, 0, 0],
    ),
    (
        [0x21060102, 0, 0, 0, 1, 0xaa, 3, 2, 2, 4, 5, 6],
        [0x21860100, 0, 0, 0, 1, 0, 3, 2, 2, 0, 0, 6],
    ),
    // Task Management Function Response.
    (
        [0xe27f05ff, 0, X, X, 1, X, 2, 3, 4, X, X, X],
        [0x22800500, 0, 0, 0, 1, 0, 2, 3, 4, 0, 0, 0],
    ),
    // Login Response: the next stage by T, StatSN by the class.
    (
        [
            0xe3b70102, 0, 0x40000001, 0x02030405, 1, X, 2, 3, 4, 0x0005ffff, X, X,
        ],
        [
            0x23870102, 0, 0x40000001, 0x02030405, 1, 0, 2, 3, 4, 0x00050000, 0, 0,
        ],
    ),
    (
        [
            0xe37b0102, 0, 0x40000001, 0x02030405, 1, X, X, 3, 4, 0x0207ffff, X, X,
        ],
        [
            0x23480102, 0, 0x40000001, 0x02030405, 1, 0, 0, 3, 4, 0x02070000, 0, 0,
        ],
    ),
    // Text Response: the LUN by the target transfer tag.
    (
        [
            0xe4ffffff, 0, 0x01020304, 0x05060708, 1, 2, 3, 4, 5, X, X, X,
        ],
        [
            0x24c00000, 0, 0x01020304, 0x05060708, 1, 2, 3, 4, 5, 0, 0, 0,
        ],
    ),
    (
        [0xe43fffff, 0, X, X, 1, X, 3, 4, 5, X, X, X],
        [0x24000000, 0, 0, 0, 1, X, 3, 4, 5, 0, 0, 0],
    ),
    // Data-In: the LUN by the target transfer tag; status, StatSN, O, U and the residual by S.
    (
        [
            0xe5ffff02, 0, 0x01020304, 0x05060708, 1, 2, 3, 4, 5, 6, 7, 8,
        ],
        [
            0x25c70002, 0, 0x01020304, 0x05060708, 1, 2, 3, 4, 5, 6, 7, 8,
        ],
    ),
    (
        [0xe539ff00, 0, X, X, 1, X, 3, 4, 5, 6, 7, 8],
        [0x25010000, 0, 0, 0, 1, X, 3, 4, 5, 6, 7, 8],
    ),
    (
        [
            0xe5feffff, 0, 0x01020304, 0x05060708, 1, 2, X, 4, 5, 6, 7, X,
        ],
        [
            0x25c00000, 0, 0x01020304, 0x05060708, 1, 2, 0, 4, 5, 6, 7, 0,
        ],
    ),
    (
        [0x25860002, 0, 0, 0, 3, X, 9, 6, 6, 0, 0, 7],
        [0x25800000, 0, 0, 0, 3, X, 0, 6, 6, 0, 0, 0],
    ),
    // Logout Response.
    (
        [0xe67f01ff, 0, X, X, 1, X, 2, 3, 4, X, 0x00020014, X],
        [0x26800100, 0, 0, 0, 1, 0, 2, 3, 4, 0, 0x00020014, 0],
    ),
    // Ready To Transfer.
    (
        [
            0xf17fffff, 0, 0x01020304, 0x05060708, 1, 2, 3, 4, 5, 6, 7, 8,
        ],
        [
            0x31800000, 0, 0x01020304, 0x05060708, 1, 2, 3, 4, 5, 6, 7, 8,
        ],
    ),
    // Asynchronous Message: the LUN by the event.
    (
        [
            0xf27fffff, 0, 0x01020304, 0x05060708, 0, X, 1, 2, 3, 0x00040506, 0x0708090a, X,
        ],
        [
            0x32800000, 0, 0x01020304, 0x05060708, X, 0, 1, 2, 3, 0x00040506, 0x0708090a, 0,
        ],
    ),
    (
        [
            0xf27fffff, 0, 0x01020304, 0x05060708, 0, X, 1, 2, 3, 0x05040506, 0x0708090a, X,
        ],
        [
            0x32800000, 0, 0x01020304, 0x05060708, X, 0, 1, 2, 3, 0x05040506, 0x0708090a, 0,
        ],
    ),
    (
        [
            0xf27fffff, 0, X, X, 0, X, 1, 2, 3, 0x04040506, 0x0708090a, X,
        ],
        [
            0x32800000, 0, 0, 0, X, 0, 1, 2, 3, 0x04040506, 0x0708090a, 0,
        ],
    ),
    // Reject.
    (
        [0xff7f04ff, 0, X, X, 0, X, 1, 2, 3, X, X, X],
        [0x3f800400, 0, 0, 0, X, 0, 1, 2, 3, 0, 0, 0],
    ),
    (
        [
            0x3f000400, 0, 0x11111111, 0x11111111, 5, 9, 3, 1, 1, 7, 0, 0,
        ],
        [0x3f800400, 0, 0, 0, X, 0, 3, 1, 1, 0, 0, 0],
    ),
];

#[test]
fn headers_of_the_target(rt: HostRuntime) {
    for (i, (came, written)) in TARGET_HEADERS.iter().enumerate() {
        same(&rt, &is_written(*came, *written), &true, &i);
    }
}

/// A header of each kind that the initiator sends, and the head that its fields make.
const INITIATOR_FIELDS: &[([u32; 12], Head)] = &[
    (
        [
            0x40800000, 0, 0x01020304, 0x05060708, 1, 2, 3, 4, 0, 0, 0, 0,
        ],
        Head::NopOut(NopOut {
            immediate: true,
            lun: Some(0x0102030405060708),
            initiator_task_tag: 1,
            target_transfer_tag: 2,
            cmd_sn: 3,
            exp_stat_sn: 4,
        }),
    ),
    // F and R are set, W is not.
    (
        [
            0x01c50000, 0, 0x01020304, 0x05060708, 1, 2, 3, 4, 0x28000000, 0x00050000, 0x08000000,
            0,
        ],
        Head::ScsiCommand(ScsiCommand {
            immediate: false,
            is_final: true,
            read: true,
            write: false,
            attribute: 5,
            lun: 0x0102030405060708,
            initiator_task_tag: 1,
            expected_data_transfer_length: 2,
            cmd_sn: 3,
            exp_stat_sn: 4,
            cdb: Cdb::Read10(Transfer10 {
                options: 0,
                logical_block_address: 5,
                group_number: 0,
                blocks: 8,
                control: 0,
            }),
        }),
    ),
    (
        [
            0x42850000, 0, 0x01020304, 0x05060708, 1, 2, 3, 4, 5, 6, 0, 0,
        ],
        Head::TaskRequest(TaskRequest {
            immediate: true,
            function: 5,
            lun: 0x0102030405060708,
            initiator_task_tag: 1,
            referenced_task_tag: 2,
            cmd_sn: 3,
            exp_stat_sn: 4,
            ref_cmd_sn: 5,
            exp_data_sn: 6,
        }),
    ),
    // T is set, C is not.
    (
        [
            0x43870102, 0, 0x40000001, 0x02030405, 1, 0x00020000, 3, 4, 0, 0, 0, 0,
        ],
        Head::LoginRequest(LoginRequest {
            transits: true,
            continues: false,
            current_stage: 1,
            next_stage: Some(3),
            version_max: 1,
            version_min: 2,
            isid: [0x40, 0, 0, 1, 2, 3],
            tsih: 0x0405,
            initiator_task_tag: 1,
            connection_id: 2,
            cmd_sn: 3,
            exp_stat_sn: 4,
        }),
    ),
    // F is set, C is not.
    (
        [
            0x04800000, 0, 0x01020304, 0x05060708, 1, 2, 3, 4, 0, 0, 0, 0,
        ],
        Head::TextRequest(TextRequest {
            immediate: false,
            is_final: true,
            continues: false,
            lun: Some(0x0102030405060708),
            initiator_task_tag: 1,
            target_transfer_tag: 2,
            cmd_sn: 3,
            exp_stat_sn: 4,
        }),
    ),
    (
        [
            0x05800000, 0, 0x01020304, 0x05060708, 1, 2, 0, 3, 0, 4, 5, 0,
        ],
        Head::DataOut(DataOut {
            is_final: true,
            lun: Some(0x0102030405060708),
            initiator_task_tag: 1,
            target_transfer_tag: 2,
            exp_stat_sn: 3,
            data_sn: 4,
            buffer_offset: 5,
        }),
    ),
    (
        [0x46820000, 0, 0, 0, 1, 0x00070000, 3, 4, 0, 0, 0, 0],
        Head::LogoutRequest(LogoutRequest {
            immediate: true,
            reason: 2,
            initiator_task_tag: 1,
            connection_id: Some(7),
            cmd_sn: 3,
            exp_stat_sn: 4,
        }),
    ),
];

/// Each field is read from its own place.
#[test]
fn fields_of_the_initiator(rt: HostRuntime) {
    for (words, head) in INITIATOR_FIELDS {
        check_head(&rt, *words, head);
    }
}

/// A header of each kind that the target sends, and the head that its fields make.
const TARGET_FIELDS: &[([u32; 12], Head)] = &[
    (
        [
            0x20800000, 0, 0x01020304, 0x05060708, 1, 2, 3, 4, 5, 0, 0, 0,
        ],
        Head::NopIn(NopIn {
            lun: Some(0x0102030405060708),
            initiator_task_tag: 1,
            target_transfer_tag: 2,
            stat_sn: 3,
            exp_cmd_sn: 4,
            max_cmd_sn: 5,
        }),
    ),
    // The bits o and U are set, u and O are not.
    (
        [0x21920002, 0, 0, 0, 1, 0, 2, 3, 4, 5, 6, 7],
        Head::ScsiResponse(ScsiResponse {
            bidirectional_overflow: true,
            bidirectional_underflow: false,
            overflow: false,
            underflow: true,
            response: 0,
            status: Some(2),
            initiator_task_tag: 1,
            stat_sn: 2,
            exp_cmd_sn: 3,
            max_cmd_sn: 4,
            exp_data_sn: Some(5),
            bidirectional_residual: Some(6),
            residual: Some(7),
        }),
    ),
    (
        [0x22800500, 0, 0, 0, 1, 0, 2, 3, 4, 0, 0, 0],
        Head::TaskResponse(TaskResponse {
            response: 5,
            initiator_task_tag: 1,
            stat_sn: 2,
            exp_cmd_sn: 3,
            max_cmd_sn: 4,
        }),
    ),
    // C is set, T is not.
    (
        [
            0x23480102, 0, 0x40000001, 0x02030405, 1, 0, 2, 3, 4, 0x00050000, 0, 0,
        ],
        Head::LoginResponse(LoginResponse {
            transits: false,
            continues: true,
            current_stage: 2,
            next_stage: None,
            version_max: 1,
            version_active: 2,
            isid: [0x40, 0, 0, 1, 2, 3],
            tsih: 0x0405,
            initiator_task_tag: 1,
            stat_sn: Some(2),
            exp_cmd_sn: 3,
            max_cmd_sn: 4,
            status_class: 0,
            status_detail: 5,
        }),
    ),
    // C is set, F is not.
    (
        [
            0x24400000, 0, 0x01020304, 0x05060708, 1, 2, 3, 4, 5, 0, 0, 0,
        ],
        Head::TextResponse(TextResponse {
            is_final: false,
            continues: true,
            lun: Some(0x0102030405060708),
            initiator_task_tag: 1,
            target_transfer_tag: 2,
            stat_sn: 3,
            exp_cmd_sn: 4,
            max_cmd_sn: 5,
        }),
    ),
    // F, U and S are set, A and O are not.
    (
        [
            0x25830002, 0, 0x01020304, 0x05060708, 1, 2, 3, 4, 5, 6, 7, 8,
        ],
        Head::DataIn(DataIn {
            is_final: true,
            acknowledge: false,
            overflow: Some(false),
            underflow: Some(true),
            has_status: true,
            status: Some(2),
            lun: Some(0x0102030405060708),
            initiator_task_tag: 1,
            target_transfer_tag: 2,
            stat_sn: Some(3),
            exp_cmd_sn: 4,
            max_cmd_sn: 5,
            data_sn: 6,
            buffer_offset: 7,
            residual: Some(8),
        }),
    ),
    (
        [0x26800100, 0, 0, 0, 1, 0, 2, 3, 4, 0, 0x00050006, 0],
        Head::LogoutResponse(LogoutResponse {
            response: 1,
            initiator_task_tag: 1,
            stat_sn: 2,
            exp_cmd_sn: 3,
            max_cmd_sn: 4,
            time2wait: 5,
            time2retain: 6,
        }),
    ),
    (
        [
            0x31800000, 0, 0x01020304, 0x05060708, 1, 2, 3, 4, 5, 6, 7, 8,
        ],
        Head::ReadyToTransfer(ReadyToTransfer {
            lun: 0x0102030405060708,
            initiator_task_tag: 1,
            target_transfer_tag: 2,
            stat_sn: 3,
            exp_cmd_sn: 4,
            max_cmd_sn: 5,
            r2t_sn: 6,
            buffer_offset: 7,
            desired_data_transfer_length: 8,
        }),
    ),
    (
        [
            0x32800000, 0, 0x01020304, 0x05060708, 0xffffffff, 0, 1, 2, 3, 0x00040005, 0x00060007,
            0,
        ],
        Head::AsyncMessage(AsyncMessage {
            lun: Some(0x0102030405060708),
            stat_sn: 1,
            exp_cmd_sn: 2,
            max_cmd_sn: 3,
            async_event: 0,
            async_vendor_code: 4,
            parameter1: 5,
            parameter2: 6,
            parameter3: 7,
        }),
    ),
    (
        [0x3f800400, 0, 0, 0, 0xffffffff, 0, 1, 2, 3, 0, 0, 0],
        Head::Reject(Reject {
            reason: 4,
            stat_sn: 1,
            exp_cmd_sn: 2,
            max_cmd_sn: 3,
        }),
    ),
];

/// Each field is read from its own place.
#[test]
fn fields_of_the_target(rt: HostRuntime) {
    for (words, head) in TARGET_FIELDS {
        check_head(&rt, *words, head);
    }
}

/// The first two words of a header, and the length of its segment or the first reason to refuse it:
/// the opcode, additional headers, the length of a login segment.
const REFUSALS: &[([u32; 2], Result<u32, HeadFault>)] = &[
    ([0x10000000, 0x01000000], Err(HeadFault::UnknownOpcode)),
    ([0x07000000, 0], Err(HeadFault::UnknownOpcode)),
    ([0x00800000, 0x01000000], Err(HeadFault::Additional)),
    ([0x43000000, 0x01ffffff], Err(HeadFault::Additional)),
    ([0x43000000, 0x00002001], Err(HeadFault::TooLong)),
    ([0x23000000, 0x00002001], Err(HeadFault::TooLong)),
    ([0x43000000, 0x00002000], Ok(8192)),
    ([0x23000000, 0x00002000], Ok(8192)),
    ([0x05800000, 0x00ffffff], Ok(0xff_ffff)),
];

/// The length of the segment of a header with these words, or why it is refused.
fn length_of(words: [u32; 2]) -> Result<u32, HeadFault> {
    let [first, second] = words;
    let (_, len) = read_head(&header([first, second, 0, 0, 0, 0, 0, 0, 0, 0, 0, 0]))?;
    Ok(len)
}

#[test]
fn refusals(rt: HostRuntime) {
    for (words, want) in REFUSALS {
        same(&rt, &length_of(*words), want, words);
    }
}

/// What is printed of each refusal.
const WORDS: &[(HeadFault, &str)] = &[
    (HeadFault::UnknownOpcode, "unknown opcode"),
    (HeadFault::Additional, "additional header"),
    (HeadFault::TooLong, "login segment too long"),
];

fn check_words(rt: &impl Abort, alloc: Global, fault: HeadFault, want: &str) {
    let text = format!(in alloc; "{fault}").expect(rt, want);
    same(rt, &text.as_str(), &want, &fault);
}

#[test]
fn refusals_in_words(rt: HostRuntime) {
    for (fault, want) in WORDS {
        check_words(&rt, rt.alloc(), *fault, want);
    }
}

/// Two numbers, and whether the first is before the second.
const ORDERED: &[(u32, u32, bool)] = &[
    (0xffff_ffff, 0, true),
    (0, 0xffff_ffff, false),
    (7, 7, false),
    (0, 0x7fff_ffff, true),
    (0, 0x8000_0000, false),
    (0x8000_0000, 0, false),
];

/// A number, the lowest, the highest, and whether the number is one of those between.
const BETWEEN: &[(u32, u32, u32, bool)] = &[
    (9, 9, 8, false),
    (9, 9, 9, true),
    (0, 0xffff_ffff, 0, true),
    (1, 0xffff_ffff, 0, false),
    (5, 0, 0x7fff_ffff, true),
    (5, 0, 0x8000_0000, false),
];

fn check_before(rt: &impl Abort, a: u32, b: u32, want: bool) {
    same(rt, &Serial(a).before(Serial(b)), &want, &(a, b));
}

fn check_within(rt: &impl Abort, number: u32, low: u32, high: u32, want: bool) {
    let within = Serial(number).within(Serial(low), Serial(high));
    same(rt, &within, &want, &(number, low, high));
}

#[test]
fn serials(rt: HostRuntime) {
    for (a, b, want) in ORDERED {
        check_before(&rt, *a, *b, *want);
    }
    same(&rt, &Serial(0xffff_ffff).next(), &Serial(0), &"the wrap");
    for (number, low, high, want) in BETWEEN {
        check_within(&rt, *number, *low, *high, *want);
    }
}

/// A pair, and what it makes of the window 5 to 9.
const PAIRS: &[((u32, u32), (u32, u32))] = &[
    ((6, 10), (6, 10)),
    ((4, 10), (5, 10)),
    ((6, 8), (6, 9)),
    ((10, 9), (10, 9)),
    ((11, 9), (5, 9)),
];

/// The window of two numbers.
fn window_of(pair: (u32, u32)) -> Window {
    Window {
        exp: Serial(pair.0),
        max: Serial(pair.1),
    }
}

fn check_window(rt: &impl Abort, pair: (u32, u32), new: (u32, u32)) {
    let mut window = window_of((5, 9));
    window.update(Serial(pair.0), Serial(pair.1));
    same(rt, &window, &window_of(new), &pair);
}

#[test]
fn windows(rt: HostRuntime) {
    for (pair, new) in PAIRS {
        check_window(&rt, *pair, *new);
    }
}

/// The length of a segment, and the bytes of its padding.
const PADDED: &[(u32, u32)] = &[(0, 0), (1, 3), (2, 2), (3, 1), (4, 0), (0xffffff, 1)];

#[test]
fn padding(rt: HostRuntime) {
    for (len, padding) in PADDED {
        same(&rt, &pad(*len), padding, len);
    }
}

#[test]
fn a_head_is_read_again(rt: HostRuntime) {
    let head = Head::Reject(Reject {
        reason: 4,
        stat_sn: 1,
        exp_cmd_sn: 2,
        max_cmd_sn: 3,
    });
    let read = laws::read_written(&head, 48);
    same(&rt, &read, &Ok((head, 48)), &"a head");
}
