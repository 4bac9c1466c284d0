//! A request that waits and is no command.

ghost use Rattle.std.specs.Prelude.{◌≡◌, IfOk, false};
ghost use Rattle.iscsi_stream.specs.Segment.{is_last_login_pdu};

use iscsi_pdu::{Head, NopOut, Pdu, RESERVED_TAG};
use iscsi_target_session::{Received, SessionRequest};
use std::alloc::{AllocError, Global};
use std::marker::Model;

/// A request that waits, with its own copy of the segment. It is no command.
#[derive(Drop)]
pub struct QueuedRequest {
    initiator_task_tag: Option<u32>,
    request: SessionRequest,
    head: Head,
    bytes: Vec<u8>,
    continued: bool,
}

impl Model for QueuedRequest {
    ghost use Rattle.std.specs.Prelude.{◌≡◌, ◌<◌, ◌^◌, false, length};
    ghost use Rattle.iscsi_pdu.specs.Meaning.{HeadFits};
    ghost use Rattle.iscsi_stream.specs.Segment.{is_last_login_pdu};
    ghost use Rattle.iscsi_stream.specs.Stream.{message};
    ghost use Rattle.iscsi_target.specs.QueuedRequest.{QueuedRequest};

    ghost Value = { QueuedRequest };

    ghost view = { λ k. record {
      initiator_task_tag = k.initiator_task_tag;
      message = message k.continued k.head k.bytes.items;
      request = k.request;
    } };

    ghost invariant = { λ k. HeadFits k.head × (length k.bytes.items < 2 ^ 24)
        × (is_last_login_pdu k.head ≡ false) };
}

impl QueuedRequest {
    /// A copy of a request that came, with its tag and what it asks for.
    pub fn copy(
        alloc: Global,
        initiator_task_tag: Option<u32>,
        request: &SessionRequest,
        received: &Received<'_>,
    ) -> Result<QueuedRequest, AllocError>
        requires plain { is_last_login_pdu received.now.head ≡ false }
        ensures { IfOk result (λ kept. kept ≡ record {
          initiator_task_tag = initiator_task_tag;
          message = received.now;
          request = request.now;
        }) }
    {
        let mut bytes = Vec::with_capacity(alloc, received.pdu.bytes.len())?;
        bytes.extend_from_slice(received.pdu.bytes)?;
        Ok(QueuedRequest {
            initiator_task_tag,
            request: *request,
            head: received.pdu.head,
            bytes,
            continued: received.continued,
        })
    }

    /// Its tag; a ping that wants no answer has none.
    pub fn initiator_task_tag(&self) -> Option<u32>
        ensures { result ≡ self.now.initiator_task_tag }
    {
        self.initiator_task_tag
    }

    /// What it asks for.
    pub fn request(&self) -> &SessionRequest
        ensures { result.now ≡ self.now.request }
    {
        &self.request
    }

    /// Its PDU.
    pub fn received(&self) -> Received<'_>
        ensures value { result ≡ self.now.message }
        ensures plain { is_last_login_pdu result.head ≡ false }
    {
        Received {
            pdu: Pdu {
                head: self.head,
                bytes: self.bytes.as_slice(),
            },
            continued: self.continued,
        }
    }

    /// What stands in a place without a task: a ping. It takes no memory.
    pub fn blank(alloc: Global) -> QueuedRequest {
        let ping = NopOut {
            immediate: false,
            lun: None,
            initiator_task_tag: 0,
            target_transfer_tag: RESERVED_TAG,
            cmd_sn: 0,
            exp_stat_sn: 0,
        };
        QueuedRequest {
            initiator_task_tag: None,
            request: SessionRequest::Ping(ping),
            head: Head::NopOut(ping),
            bytes: Vec::new(alloc),
            continued: false,
        }
    }
}
