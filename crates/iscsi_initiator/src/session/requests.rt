//! Requests that are handed in (RFC 7143, sections 4.2 and 11). One file: a method for each kind of
//! request, and what all of them need.

ghost use Rattle.std.specs.Prelude.{◌≡◌, ◌<◌, ◌≤◌, ◌+◌, ◌++◌, false, length, None, OnOk, OnErr, IfErr};
ghost use Rattle.scsi_cdb.specs.Blocks.{CdbFits as FitsTable};
ghost use Rattle.iscsi_pdu.specs.Meaning.{HeadFits};
ghost use Rattle.iscsi_pdu.specs.declared.head.Head.TheVariants as heads;
ghost use Rattle.iscsi_stream.specs.Canonical.{canon};
ghost use Rattle.iscsi_initiator.specs.State.{next_tag};
ghost use Rattle.iscsi_initiator.specs.Calls.{refused_for};
ghost use Rattle.iscsi_initiator.specs.Submitted.{submit_refusal, refusal_when_full, is_request_too_long, accepted, immediate_data, has_more, unsolicited, write_submitted, command_head, request_begun, ping_head, text_request_head, logout_request_head};
ghost use Rattle.iscsi_login.specs.Held.{is_on, unasked};
ghost use Rattle.iscsi_initiator.specs.inner.Inside.{unsolicited_head};

use super::Session;
use super::data_out::write_sequence;
use crate::outstanding::{MOST_BYTES, Outstanding, Reading, Writing};
use crate::request::{Refused, Request, SubmitFault};
use iscsi_login::{Answered, NegKey, Phase};
use iscsi_pdu::{
    DataOut, Head, LogoutRequest, NopOut, RESERVED_TAG, ScsiCommand, Serial, TextRequest,
};
use iscsi_stream::write_pdu;
use scsi_cdb::Cdb;
use std::alloc::{AllocError, Global};

impl Session {
    /// Takes a request and appends what it sends, or hands it back and changes nothing.
    pub fn submit(&mut self, request: Request, out: &mut Vec<u8>) -> Result<(), Refused>
        ensures accepted { OnOk result (submit_refusal self.old request ≡ None) }
        ensures begun { OnOk result (self.new ≡ (accepted self.old request).machine) }
        ensures sent { OnOk result
            (out.new.items ≡ out.old.items ++ canon (accepted self.old request).output) }
        ensures refused { IfErr result (λ refused. (refused.request ≡ request)
            × (submit_refusal self.old request ≡ refused_for refused.fault)) }
        ensures kept { OnErr result (self.new ≡ self.old) }
        ensures unwritten { OnErr result (out.new.items ≡ out.old.items) }
    {
        if let Some(fault) = self.refusal(&request) {
            return Err(Refused { fault, request });
        }
        if self.write_request(&request, out).is_err() {
            let fault = SubmitFault::NoMemory;
            return Err(Refused { fault, request });
        }
        self.begin(request, *out.allocator());
        Ok(())
    }

    // Why a request is refused, if it is.
    fn refusal(&self, request: &Request) -> Option<SubmitFault>
        ensures fault { result ≡ submit_refusal self.now request.now }
        ensures short { result ≡ None → is_request_too_long self.now request.now ≡ false }
    {
        match self.phase {
            Phase::Closed => Some(SubmitFault::Closed),
            Phase::Login => Some(SubmitFault::NotReady),
            Phase::Full => self.refusal_when_full(request),
        }
    }

    // Why a request is refused in full feature phase, if it is.
    fn refusal_when_full(&self, request: &Request) -> Option<SubmitFault>
        ensures fault { result ≡ refusal_when_full self.now request.now }
        ensures short { result ≡ None → is_request_too_long self.now request.now ≡ false }
    {
        if self.outstanding.is_some() || self.done.is_some() {
            return Some(SubmitFault::Busy);
        }
        if !Serial(self.cmd_sn).within(self.window.exp, self.window.max) {
            return Some(SubmitFault::Shut);
        }
        if self.is_too_long(request) {
            return Some(SubmitFault::TooLong);
        }
        None
    }

    // Whether the request has or asks for more bytes than may go.
    fn is_too_long(&self, request: &Request) -> bool
        ensures { result ≡ is_request_too_long self.now request.now }
    {
        match request {
            Request::In { expected, .. } => *expected as usize > MOST_BYTES,
            Request::Out { bytes, .. } => bytes.as_slice().len() > MOST_BYTES,
            Request::Ping { bytes } | Request::Text { bytes } => {
                bytes.as_slice().len() > self.held.target_max_recv as usize
            }
            Request::Logout => false,
        }
    }

    // Appends what an accepted request sends, or leaves `out` as it was.
    #[tactic(auto, using(crate::proofs::WritingLemmas::one_message))]
    fn write_request(&self, request: &Request, out: &mut Vec<u8>) -> Result<(), AllocError>
        requires { is_request_too_long self.now request.now ≡ false }
        ensures ok { OnOk result
            (out.new.items ≡ out.old.items ++ canon (accepted self.now request.now).output) }
        ensures err { OnErr result (out.new.items ≡ out.old.items) }
    {
        // Its contract says how many bytes one segment takes.
        let _most = self.most_sent();
        match request {
            Request::In { lun, cdb, expected } => {
                let head = Head::ScsiCommand(ScsiCommand {
                    read: *expected != 0,
                    expected_data_transfer_length: *expected,
                    ..self.command(true, *lun, cdb)
                });
                write_pdu(&head, &[], out)
            }
            Request::Out { lun, cdb, bytes } => self.write_out(*lun, cdb, bytes.as_slice(), out),
            Request::Ping { bytes } => {
                write_pdu(&Head::NopOut(self.ping()), bytes.as_slice(), out)
            }
            Request::Text { bytes } => {
                write_pdu(
                    &Head::TextRequest(self.text_request()),
                    bytes.as_slice(),
                    out,
                )
            }
            Request::Logout => write_pdu(&Head::LogoutRequest(self.logout_request()), &[], out),
        }
    }

    // Appends a write's command with its immediate data, and its unsolicited data.
    #[tactic(auto, using(crate::proofs::WritingLemmas::write_sent))]
    fn write_out(
        &self,
        lun: u64,
        cdb: &[u8; 16],
        bytes: &[u8],
        out: &mut Vec<u8>,
    ) -> Result<(), AllocError>
        requires { length bytes.now ≤ 4194304 }
        ensures ok { OnOk result (out.new.items
            ≡ out.old.items ++ canon (write_submitted self.now lun cdb.now bytes.now).output) }
        ensures err { OnErr result (out.new.items ≡ out.old.items) }
    {
        let held = out.len();
        let head = Head::ScsiCommand(ScsiCommand {
            write: !bytes.is_empty(),
            expected_data_transfer_length: bytes.len() as u32,
            ..self.command(!self.has_more(bytes), lun, cdb)
        });
        write_pdu(&head, self.immediate(bytes), out)?;
        let first = self.unsolicited_head(bytes);
        let sent = write_sequence(first, self.most_sent(), self.unsolicited(bytes), out);
        if sent.is_err() {
            out.truncate(held);
        }
        sent
    }

    // The head of a command of simple order that moves nothing.
    fn command(&self, is_final: bool, lun: u64, cdb: &[u8; 16]) -> ScsiCommand
        ensures value { result ≡ command_head self.now is_final lun cdb.now }
        ensures fits { FitsTable result.cdb }
    {
        ScsiCommand {
            immediate: false,
            is_final,
            read: false,
            write: false,
            attribute: 1,
            lun,
            initiator_task_tag: next_tag(self.initiator_task_tag),
            expected_data_transfer_length: 0,
            cmd_sn: self.cmd_sn,
            exp_stat_sn: self.sent_exp_stat_sn(),
            cdb: Cdb::read(cdb),
        }
    }

    // The head of the first unsolicited Data-Out.
    fn unsolicited_head(&self, bytes: &[u8]) -> DataOut
        requires { length bytes.now ≤ 4194304 }
        ensures value { result ≡ unsolicited_head self.now bytes.now }
        ensures fits { HeadFits (heads.DataOut result) }
    {
        DataOut {
            is_final: false,
            lun: None,
            initiator_task_tag: next_tag(self.initiator_task_tag),
            target_transfer_tag: RESERVED_TAG,
            exp_stat_sn: self.sent_exp_stat_sn(),
            data_sn: 0,
            buffer_offset: self.immediate(bytes).len() as u32,
        }
    }

    // The head of a ping.
    fn ping(&self) -> NopOut
        ensures value { result ≡ ping_head self.now }
        ensures fits { HeadFits (heads.NopOut result) }
    {
        NopOut {
            immediate: false,
            lun: None,
            initiator_task_tag: next_tag(self.initiator_task_tag),
            target_transfer_tag: RESERVED_TAG,
            cmd_sn: self.cmd_sn,
            exp_stat_sn: self.sent_exp_stat_sn(),
        }
    }

    // The head of a text request.
    fn text_request(&self) -> TextRequest
        ensures value { result ≡ text_request_head self.now }
        ensures fits { HeadFits (heads.TextRequest result) }
    {
        TextRequest {
            immediate: false,
            is_final: true,
            continues: false,
            lun: None,
            initiator_task_tag: next_tag(self.initiator_task_tag),
            target_transfer_tag: RESERVED_TAG,
            cmd_sn: self.cmd_sn,
            exp_stat_sn: self.sent_exp_stat_sn(),
        }
    }

    // The head of a logout of the whole session.
    fn logout_request(&self) -> LogoutRequest
        ensures value { result ≡ logout_request_head self.now }
        ensures fits { HeadFits (heads.LogoutRequest result) }
    {
        LogoutRequest {
            immediate: false,
            reason: 0,
            initiator_task_tag: next_tag(self.initiator_task_tag),
            connection_id: None,
            cmd_sn: self.cmd_sn,
            exp_stat_sn: self.sent_exp_stat_sn(),
        }
    }

    // How many bytes may go out before the target asks for them.
    fn burst(&self, bytes: &[u8]) -> usize
        ensures value { result ≡ unasked self.now.held (length bytes.now) }
        ensures most { result ≤ length bytes.now }
    {
        (self.held.first_burst() as usize).min(bytes.len())
    }

    // The bytes that the command itself carries.
    fn immediate<'a>(&self, bytes: &'a [u8]) -> &'a [u8]
        ensures bytes { result.now ≡ immediate_data self.now bytes.now }
        ensures most { length result.now ≤ length bytes.now }
    {
        if self.is_yes(NegKey::ImmediateData) {
            &bytes[..self.burst(bytes).min(self.most_sent() as usize)]
        } else {
            &bytes[..0]
        }
    }

    // Whether bytes of the first burst follow without being asked for.
    fn has_more(&self, bytes: &[u8]) -> bool
        ensures { result ≡ has_more self.now bytes.now }
    {
        !self.is_yes(NegKey::InitialR2T) && self.immediate(bytes).len() < self.burst(bytes)
    }

    // The bytes that follow the command without being asked for.
    fn unsolicited<'a>(&self, bytes: &'a [u8]) -> &'a [u8]
        ensures bytes { result.now ≡ unsolicited self.now bytes.now }
        ensures most { length (immediate_data self.now bytes.now) + length result.now
            ≤ length bytes.now }
    {
        if self.has_more(bytes) {
            &bytes[self.immediate(bytes).len()..self.burst(bytes)]
        } else {
            &bytes[..0]
        }
    }

    // Whether `Yes` is held for the key.
    fn is_yes(&self, key: NegKey) -> bool
        ensures { result ≡ is_on self.now.held key }
    {
        matches!(self.held.get(key), Answered::Flag(true))
    }

    // Begins a request that was sent.
    fn begin(&mut self, request: Request, alloc: Global)
        requires { is_request_too_long self.old request ≡ false }
        ensures { self.new ≡ (accepted self.old request).machine }
    {
        let outstanding = self.outstanding_for(request, alloc);
        self.initiator_task_tag = next_tag(self.initiator_task_tag);
        self.cmd_sn = self.cmd_sn.wrapping_add(1);
        self.outstanding = Some(outstanding);
    }

    // What is outstanding once a request was sent.
    fn outstanding_for(&self, request: Request, alloc: Global) -> Outstanding
        requires { is_request_too_long self.now request ≡ false }
        ensures { request_begun self.now result ≡ (accepted self.now request).machine }
    {
        match request {
            Request::In { expected, .. } => Outstanding::In(Reading {
                expected,
                received: Vec::new(alloc),
                next_data_sn: 0,
            }),
            Request::Out { bytes, .. } => {
                let immediate = self.immediate(bytes.as_slice()).len();
                let sent = immediate + self.unsolicited(bytes.as_slice()).len();
                Outstanding::Out(Writing {
                    bytes: bytes.into_vec(),
                    sent,
                    next_r2t_sn: 0,
                })
            }
            Request::Ping { .. } => Outstanding::Ping,
            Request::Text { .. } => Outstanding::Text,
            Request::Logout => Outstanding::Logout,
        }
    }
}

// Task tags count from 0 to fffffffe.
fn next_tag(tag: u32) -> u32
    requires { tag < 0xffff_ffff }
    ensures next { result ≡ next_tag tag }
    ensures tag { result < 0xffff_ffff }
{
    if tag == 0xffff_fffe { 0 } else { tag + 1 }
}
