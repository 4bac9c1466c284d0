//! Requests with one answer: pings, task management, logouts.

ghost use Rattle.std.specs.Prelude.{◌≡◌, ◌<◌, ◌^◌, length, false};
ghost use Rattle.iscsi_stream.specs.Segment.{is_last_login_pdu};
ghost use Rattle.iscsi_target_session.specs.Requests.{on_nop_out, on_task_request, task_response_code, on_logout_request};
ghost use Rattle.iscsi_target_session.specs.Requests.{request_answered};
ghost use Rattle.iscsi_target_session.specs.Replies.{ReplyPost};

use super::Session;
use crate::inbound::SessionRequest;
use crate::received::Received;
use iscsi_pdu::rule::LOGOUT_REASON;
use iscsi_pdu::{
    Head, LogoutRequest, LogoutResponse, NopIn, NopOut, RESERVED_TAG, TaskRequest, TaskResponse,
};
use std::alloc::AllocError;

impl Session {
    /// Answers a request that is no command, while `n` commands wait. Returns the rule that is
    /// broken, if one is (RFC 7143, section 4.2.4).
    pub fn answer_request(
        &mut self,
        waiting: u32,
        request: &SessionRequest,
        received: &Received<'_>,
        out: &mut Vec<u8>,
    ) -> Result<Option<u8>, AllocError>
        requires plain { is_last_login_pdu received.now.head ≡ false }
        ensures { ReplyPost (request_answered self.old waiting received.now request.now) result
            self.old self.new out.old.items out.new.items }
    {
        let bytes = received.pdu.bytes;
        match request {
            SessionRequest::Ping(head) => self.nop_out(waiting, head, bytes, out),
            SessionRequest::Task(head) => self.task_request(waiting, false, head, out),
            SessionRequest::Text(head) => self.text_request(waiting, head, bytes, received, out),
            SessionRequest::Logout(head) => self.logout_request(waiting, head, received, out),
        }
    }

    // A ping, answered with as many of its bytes as the initiator takes. Without a tag it asks for
    // no answer (RFC 7143, sections 11.18 and 11.19).
    fn nop_out(
        &mut self,
        waiting: u32,
        request: &NopOut,
        bytes: &[u8],
        out: &mut Vec<u8>,
    ) -> Result<Option<u8>, AllocError>
        requires { length bytes.now < 2 ^ 24 }
        ensures { ReplyPost (on_nop_out self.old waiting request.now bytes.now) result
            self.old self.new out.old.items out.new.items }
    {
        if request.initiator_task_tag == RESERVED_TAG {
            return Ok(None);
        }
        let numbers = self.numbers(waiting);
        let head = Head::NopIn(NopIn {
            lun: None,
            initiator_task_tag: request.initiator_task_tag,
            target_transfer_tag: RESERVED_TAG,
            stat_sn: numbers.stat_sn,
            exp_cmd_sn: numbers.exp_cmd_sn,
            max_cmd_sn: numbers.max_cmd_sn,
        });
        let len = bytes.len().min(self.held.initiator_max_recv as usize);
        self.send_response(&head, &bytes[..len], out)
    }

    /// Answers a task management request, while a task that it means is open or none is (RFC 7143,
    /// sections 11.5 and 11.6).
    pub fn task_request(
        &mut self,
        waiting: u32,
        is_open: bool,
        request: &TaskRequest,
        out: &mut Vec<u8>,
    ) -> Result<Option<u8>, AllocError>
        ensures { ReplyPost (on_task_request self.old waiting is_open request.now) result
            self.old self.new out.old.items out.new.items }
    {
        let numbers = self.numbers(waiting);
        let head = Head::TaskResponse(TaskResponse {
            response: task_response(self.has_unit(), is_open, request),
            initiator_task_tag: request.initiator_task_tag,
            stat_sn: numbers.stat_sn,
            exp_cmd_sn: numbers.exp_cmd_sn,
            max_cmd_sn: numbers.max_cmd_sn,
        });
        self.send_response(&head, &[], out)
    }

    // A session or its connection may be closed (RFC 7143, sections 11.14 and 11.15). Returns the
    // rule that is broken, if one is.
    fn logout_request(
        &mut self,
        waiting: u32,
        request: &LogoutRequest,
        received: &Received<'_>,
        out: &mut Vec<u8>,
    ) -> Result<Option<u8>, AllocError>
        ensures { ReplyPost (on_logout_request self.old waiting received.now request.now) result
            self.old self.new out.old.items out.new.items }
    {
        if request.reason > 1 {
            return self.reject_and_close(waiting, LOGOUT_REASON, received, out);
        }
        let numbers = self.numbers(waiting);
        let head = Head::LogoutResponse(LogoutResponse {
            response: 0,
            initiator_task_tag: request.initiator_task_tag,
            stat_sn: numbers.stat_sn,
            exp_cmd_sn: numbers.exp_cmd_sn,
            max_cmd_sn: numbers.max_cmd_sn,
            time2wait: 0,
            time2retain: 0,
        });
        self.send_response(&head, &[], out)?;
        self.close();
        Ok(None)
    }
}

// The response to a task management function. Where the disk tells what the profile has, none is
// supported. Else one is done where nothing is left to end: no task is ever taken away.
fn task_response(has_unit: bool, is_open: bool, request: &TaskRequest) -> u8
    ensures { result ≡ task_response_code has_unit is_open request.now }
{
    if !has_unit {
        return 5;
    }
    if request.lun != 0 && 1 <= request.function && request.function <= 5 {
        return 2;
    }
    if is_open {
        return 5;
    }
    match request.function {
        1 => 1,
        2 | 4 | 5 | 6 => 0,
        _ => 5,
    }
}
