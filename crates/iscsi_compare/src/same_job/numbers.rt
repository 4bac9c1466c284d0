//! The numbers of a head that two runs of one job may choose differently. Long, since it has two
//! tables of 17 kinds.

ghost use Rattle.std.specs.Prelude.{◌≡◌};
ghost use Rattle.iscsi_compare.specs.inner.SameJobNumbers.{none, numbers, with_numbers};

use iscsi_pdu::{
    AsyncMessage, DataIn, DataOut, Head, LoginRequest, LoginResponse, LogoutRequest,
    LogoutResponse, NopIn, NopOut, RESERVED_TAG, ReadyToTransfer, Reject, ScsiCommand,
    ScsiResponse, TaskRequest, TaskResponse, TextRequest, TextResponse,
};

/// The numbers of a head that two runs of one job may choose differently. Where its kind has no
/// such field, it is the name that stands for itself, or absent.
#[derive(Clone, Copy)]
pub(crate) struct Numbers {
    pub(crate) task: u32,
    pub(crate) referenced_task: u32,
    pub(crate) transfer: u32,
    pub(crate) isid: Option<[u8; 6]>,
    pub(crate) tsih: u16,
    /// CmdSN or ExpCmdSN.
    pub(crate) command: Option<u32>,
    /// MaxCmdSN.
    pub(crate) last_command: Option<u32>,
    /// RefCmdSN.
    pub(crate) referenced_command: u32,
    /// StatSN or ExpStatSN.
    pub(crate) status: Option<u32>,
}

impl Numbers {
    fn none() -> Numbers
        ensures { result ≡ none }
    {
        Numbers {
            task: RESERVED_TAG,
            referenced_task: RESERVED_TAG,
            transfer: RESERVED_TAG,
            isid: None,
            tsih: 0,
            command: None,
            last_command: None,
            referenced_command: 0,
            status: None,
        }
    }

    /// The numbers of a head.
    #[tactic(auto, unfolding(crate::specs::inner::SameJobNumbers::numbers))]
    pub(crate) fn of(head: &Head) -> Numbers
        ensures { result ≡ numbers head.now }
    {
        let none = Numbers::none();
        match head {
            Head::NopOut(h) => Numbers {
                task: h.initiator_task_tag,
                transfer: h.target_transfer_tag,
                command: Some(h.cmd_sn),
                status: Some(h.exp_stat_sn),
                ..none
            },
            Head::ScsiCommand(h) => Numbers {
                task: h.initiator_task_tag,
                command: Some(h.cmd_sn),
                status: Some(h.exp_stat_sn),
                ..none
            },
            Head::TaskRequest(h) => Numbers {
                task: h.initiator_task_tag,
                referenced_task: h.referenced_task_tag,
                command: Some(h.cmd_sn),
                status: Some(h.exp_stat_sn),
                referenced_command: h.ref_cmd_sn,
                ..none
            },
            Head::LoginRequest(h) => Numbers {
                isid: Some(h.isid),
                tsih: h.tsih,
                task: h.initiator_task_tag,
                command: Some(h.cmd_sn),
                status: Some(h.exp_stat_sn),
                ..none
            },
            Head::TextRequest(h) => Numbers {
                task: h.initiator_task_tag,
                transfer: h.target_transfer_tag,
                command: Some(h.cmd_sn),
                status: Some(h.exp_stat_sn),
                ..none
            },
            Head::DataOut(h) => Numbers {
                task: h.initiator_task_tag,
                transfer: h.target_transfer_tag,
                status: Some(h.exp_stat_sn),
                ..none
            },
            Head::LogoutRequest(h) => Numbers {
                task: h.initiator_task_tag,
                command: Some(h.cmd_sn),
                status: Some(h.exp_stat_sn),
                ..none
            },
            Head::NopIn(h) => Numbers {
                task: h.initiator_task_tag,
                transfer: h.target_transfer_tag,
                status: Some(h.stat_sn),
                command: Some(h.exp_cmd_sn),
                last_command: Some(h.max_cmd_sn),
                ..none
            },
            Head::ScsiResponse(h) => Numbers {
                task: h.initiator_task_tag,
                status: Some(h.stat_sn),
                command: Some(h.exp_cmd_sn),
                last_command: Some(h.max_cmd_sn),
                ..none
            },
            Head::TaskResponse(h) => Numbers {
                task: h.initiator_task_tag,
                status: Some(h.stat_sn),
                command: Some(h.exp_cmd_sn),
                last_command: Some(h.max_cmd_sn),
                ..none
            },
            Head::LoginResponse(h) => Numbers {
                isid: Some(h.isid),
                tsih: h.tsih,
                task: h.initiator_task_tag,
                status: h.stat_sn,
                command: Some(h.exp_cmd_sn),
                last_command: Some(h.max_cmd_sn),
                ..none
            },
            Head::TextResponse(h) => Numbers {
                task: h.initiator_task_tag,
                transfer: h.target_transfer_tag,
                status: Some(h.stat_sn),
                command: Some(h.exp_cmd_sn),
                last_command: Some(h.max_cmd_sn),
                ..none
            },
            Head::DataIn(h) => Numbers {
                task: h.initiator_task_tag,
                transfer: h.target_transfer_tag,
                status: h.stat_sn,
                command: Some(h.exp_cmd_sn),
                last_command: Some(h.max_cmd_sn),
                ..none
            },
            Head::LogoutResponse(h) => Numbers {
                task: h.initiator_task_tag,
                status: Some(h.stat_sn),
                command: Some(h.exp_cmd_sn),
                last_command: Some(h.max_cmd_sn),
                ..none
            },
            Head::ReadyToTransfer(h) => Numbers {
                task: h.initiator_task_tag,
                transfer: h.target_transfer_tag,
                status: Some(h.stat_sn),
                command: Some(h.exp_cmd_sn),
                last_command: Some(h.max_cmd_sn),
                ..none
            },
            Head::AsyncMessage(h) => Numbers {
                status: Some(h.stat_sn),
                command: Some(h.exp_cmd_sn),
                last_command: Some(h.max_cmd_sn),
                ..none
            },
            Head::Reject(h) => Numbers {
                status: Some(h.stat_sn),
                command: Some(h.exp_cmd_sn),
                last_command: Some(h.max_cmd_sn),
                ..none
            },
        }
    }

    /// The head with these numbers in place of its own.
    #[tactic(auto, unfolding(crate::specs::inner::SameJobNumbers::with_numbers))]
    pub(crate) fn within(&self, head: &Head) -> Head
        ensures { result ≡ with_numbers head.now self.now }
    {
        match *head {
            Head::NopOut(h) => Head::NopOut(NopOut {
                initiator_task_tag: self.task,
                target_transfer_tag: self.transfer,
                cmd_sn: self.command.unwrap_or(h.cmd_sn),
                exp_stat_sn: self.status.unwrap_or(h.exp_stat_sn),
                ..h
            }),
            Head::ScsiCommand(h) => Head::ScsiCommand(ScsiCommand {
                initiator_task_tag: self.task,
                cmd_sn: self.command.unwrap_or(h.cmd_sn),
                exp_stat_sn: self.status.unwrap_or(h.exp_stat_sn),
                ..h
            }),
            Head::TaskRequest(h) => Head::TaskRequest(TaskRequest {
                initiator_task_tag: self.task,
                referenced_task_tag: self.referenced_task,
                cmd_sn: self.command.unwrap_or(h.cmd_sn),
                exp_stat_sn: self.status.unwrap_or(h.exp_stat_sn),
                ref_cmd_sn: self.referenced_command,
                ..h
            }),
            Head::LoginRequest(h) => Head::LoginRequest(LoginRequest {
                isid: self.isid.unwrap_or(h.isid),
                tsih: self.tsih,
                initiator_task_tag: self.task,
                cmd_sn: self.command.unwrap_or(h.cmd_sn),
                exp_stat_sn: self.status.unwrap_or(h.exp_stat_sn),
                ..h
            }),
            Head::TextRequest(h) => Head::TextRequest(TextRequest {
                initiator_task_tag: self.task,
                target_transfer_tag: self.transfer,
                cmd_sn: self.command.unwrap_or(h.cmd_sn),
                exp_stat_sn: self.status.unwrap_or(h.exp_stat_sn),
                ..h
            }),
            Head::DataOut(h) => Head::DataOut(DataOut {
                initiator_task_tag: self.task,
                target_transfer_tag: self.transfer,
                exp_stat_sn: self.status.unwrap_or(h.exp_stat_sn),
                ..h
            }),
            Head::LogoutRequest(h) => Head::LogoutRequest(LogoutRequest {
                initiator_task_tag: self.task,
                cmd_sn: self.command.unwrap_or(h.cmd_sn),
                exp_stat_sn: self.status.unwrap_or(h.exp_stat_sn),
                ..h
            }),
            Head::NopIn(h) => Head::NopIn(NopIn {
                initiator_task_tag: self.task,
                target_transfer_tag: self.transfer,
                stat_sn: self.status.unwrap_or(h.stat_sn),
                exp_cmd_sn: self.command.unwrap_or(h.exp_cmd_sn),
                max_cmd_sn: self.last_command.unwrap_or(h.max_cmd_sn),
                ..h
            }),
            Head::ScsiResponse(h) => Head::ScsiResponse(ScsiResponse {
                initiator_task_tag: self.task,
                stat_sn: self.status.unwrap_or(h.stat_sn),
                exp_cmd_sn: self.command.unwrap_or(h.exp_cmd_sn),
                max_cmd_sn: self.last_command.unwrap_or(h.max_cmd_sn),
                ..h
            }),
            Head::TaskResponse(h) => Head::TaskResponse(TaskResponse {
                initiator_task_tag: self.task,
                stat_sn: self.status.unwrap_or(h.stat_sn),
                exp_cmd_sn: self.command.unwrap_or(h.exp_cmd_sn),
                max_cmd_sn: self.last_command.unwrap_or(h.max_cmd_sn),
                ..h
            }),
            Head::LoginResponse(h) => Head::LoginResponse(LoginResponse {
                isid: self.isid.unwrap_or(h.isid),
                tsih: self.tsih,
                initiator_task_tag: self.task,
                stat_sn: self.status,
                exp_cmd_sn: self.command.unwrap_or(h.exp_cmd_sn),
                max_cmd_sn: self.last_command.unwrap_or(h.max_cmd_sn),
                ..h
            }),
            Head::TextResponse(h) => Head::TextResponse(TextResponse {
                initiator_task_tag: self.task,
                target_transfer_tag: self.transfer,
                stat_sn: self.status.unwrap_or(h.stat_sn),
                exp_cmd_sn: self.command.unwrap_or(h.exp_cmd_sn),
                max_cmd_sn: self.last_command.unwrap_or(h.max_cmd_sn),
                ..h
            }),
            Head::DataIn(h) => Head::DataIn(DataIn {
                initiator_task_tag: self.task,
                target_transfer_tag: self.transfer,
                stat_sn: self.status,
                exp_cmd_sn: self.command.unwrap_or(h.exp_cmd_sn),
                max_cmd_sn: self.last_command.unwrap_or(h.max_cmd_sn),
                ..h
            }),
            Head::LogoutResponse(h) => Head::LogoutResponse(LogoutResponse {
                initiator_task_tag: self.task,
                stat_sn: self.status.unwrap_or(h.stat_sn),
                exp_cmd_sn: self.command.unwrap_or(h.exp_cmd_sn),
                max_cmd_sn: self.last_command.unwrap_or(h.max_cmd_sn),
                ..h
            }),
            Head::ReadyToTransfer(h) => Head::ReadyToTransfer(ReadyToTransfer {
                initiator_task_tag: self.task,
                target_transfer_tag: self.transfer,
                stat_sn: self.status.unwrap_or(h.stat_sn),
                exp_cmd_sn: self.command.unwrap_or(h.exp_cmd_sn),
                max_cmd_sn: self.last_command.unwrap_or(h.max_cmd_sn),
                ..h
            }),
            Head::AsyncMessage(h) => Head::AsyncMessage(AsyncMessage {
                stat_sn: self.status.unwrap_or(h.stat_sn),
                exp_cmd_sn: self.command.unwrap_or(h.exp_cmd_sn),
                max_cmd_sn: self.last_command.unwrap_or(h.max_cmd_sn),
                ..h
            }),
            Head::Reject(h) => Head::Reject(Reject {
                stat_sn: self.status.unwrap_or(h.stat_sn),
                exp_cmd_sn: self.command.unwrap_or(h.exp_cmd_sn),
                max_cmd_sn: self.last_command.unwrap_or(h.max_cmd_sn),
                ..h
            }),
        }
    }
}
