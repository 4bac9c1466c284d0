//! The login (RFC 7143, sections 6.3, 11.12 and 11.13). One file, since each step of a login hands
//! on to the next.

ghost use Rattle.std.specs.Prelude.{◌≡◌, ◌↔◌, ◌<◌, ◌≤◌, ◌+◌, ◌^◌, ◌++◌, [], length, IsTrue, OnErr, OnOk, IfOk, Some, false};
ghost use Rattle.iscsi_text.specs.Text.{Pairs};
ghost use Rattle.iscsi_text.specs.Canonical.{canonical_text};
ghost use Rattle.iscsi_pdu.specs.Meaning.{HeadFits};
ghost use Rattle.iscsi_pdu.specs.declared.head.login_request.LoginRequest.{LoginRequest};
ghost use Rattle.iscsi_pdu.specs.declared.head.Head.TheVariants as heads;
ghost use Rattle.iscsi_login.specs.Answer.{DeclaresWell};
ghost use Rattle.iscsi_stream.specs.Segment.{Bytes, Text as Whole};
ghost use Rattle.iscsi_target_session.specs.Session.{stat_sn_advanced, ended_session};
ghost use Rattle.scsi_disk.specs.Plan.{first_reason};
ghost use Rattle.iscsi_target_session.specs.Login.{stage_named, is_due_stage, is_move, stage_asked, stage_after, tsih_at, phase_at, login_response_to, refuse, after_text, text_answered_by, plain_text, whole_text, segment_taken, request_refusals, on_login_request, target_login_step};
ghost use Rattle.iscsi_target_session.specs.LoginText.{initiator_for, answer_pairs};
ghost use Rattle.iscsi_target_session.specs.Replies.{Replied, ReplyPost, ReplyAttemptPost};
ghost use Rattle.iscsi_target_session.specs.inner.Inside.{session_rolled_back, login_answer};

use super::Session;
use super::login_text::seen_with;
use crate::received::Received;
use crate::status::Status;
use iscsi_login::{Phase, Stage, answer_text};
use iscsi_pdu::rule::KIND_NOT_DUE;
use iscsi_pdu::{Head, LoginRequest, LoginResponse};
use iscsi_stream::{LONGEST_TEXT, text_of, write_pdu};
use iscsi_text::{Text, read_text};
use std::alloc::{AllocError, Global};

impl Session {
    /// Answers a PDU before full feature phase, where any but a Login Request closes the session.
    /// Returns the rule that is broken, if one is (RFC 7143, section 6.3).
    pub fn log_in(
        &mut self,
        received: &Received<'_>,
        out: &mut Vec<u8>,
    ) -> Result<Option<u8>, AllocError>
        ensures { ReplyAttemptPost (target_login_step self.old received.now) result
            self.old self.new out.old.items out.new.items }
    {
        match &received.pdu.head {
            Head::LoginRequest(request) => self.login_request(request, received, out),
            _ => {
                self.close();
                Ok(Some(KIND_NOT_DUE))
            }
        }
    }

    // A Login Request.
    fn login_request(
        &mut self,
        request: &LoginRequest,
        received: &Received<'_>,
        out: &mut Vec<u8>,
    ) -> Result<Option<u8>, AllocError>
        requires { received.now.head ≡ heads.LoginRequest request.now }
        ensures { ReplyAttemptPost (on_login_request self.old request.now received.now.segment)
            result
            self.old self.new out.old.items out.new.items }
    {
        let (isid, stage) = (self.isid, self.stage);
        let result = self.begin_stage(request, received, out);
        if result.is_err() {
            self.isid = isid;
            self.stage = stage;
        }
        result
    }

    // The same, but where memory runs out the session is in the request's stage.
    fn begin_stage(
        &mut self,
        request: &LoginRequest,
        received: &Received<'_>,
        out: &mut Vec<u8>,
    ) -> Result<Option<u8>, AllocError>
        requires { received.now.head ≡ heads.LoginRequest request.now }
        ensures ok { IfOk result (λ rule. Replied (on_login_request self.old request.now
            received.now.segment) rule self.new out.old.items out.new.items) }
        ensures err { OnErr result (ended_session (session_rolled_back self.old self.new)
            ≡ ended_session self.old) }
        ensures unwritten { OnErr result (out.new.items ≡ out.old.items) }
    {
        // Opens the invariant.
        let _head = received.pdu.head;
        let refusal = self.request_refusal(request);
        if !self.begun {
            self.begun = true;
            self.exp_cmd_sn = request.cmd_sn;
            self.isid = request.isid;
        }
        if let Some(why) = refusal {
            return self.refuse(request, why, out);
        }
        if let Some(stage) = stage_named(request.current_stage) {
            self.stage = stage;
        }
        self.take_segment(request, received, out)
    }

    // Why a request is refused by its head, if it is.
    fn request_refusal(&self, request: &LoginRequest) -> Option<Status>
        ensures { result ≡ first_reason (request_refusals self.now request.now) }
    {
        if request.version_min > 0 {
            return Some(Status::UNSUPPORTED_VERSION);
        }
        if request.tsih != 0 {
            return Some(Status::SESSION_DOES_NOT_EXIST);
        }
        if !self.is_due_stage(request) {
            return Some(Status::INITIATOR_ERROR);
        }
        if request.transits && request.continues {
            return Some(Status::INITIATOR_ERROR);
        }
        if request.transits && !is_move(request) {
            return Some(Status::INITIATOR_ERROR);
        }
        None
    }

    // Whether the request names the current stage; the first one may begin in each but the last.
    fn is_due_stage(&self, request: &LoginRequest) -> bool
        ensures { result ≡ is_due_stage self.now request.now }
    {
        if self.begun {
            stage_named(request.current_stage) == Some(self.stage)
        } else {
            request.current_stage <= 1
        }
    }

    // Accepts a segment; a complete text is parsed in place.
    fn take_segment(
        &mut self,
        request: &LoginRequest,
        received: &Received<'_>,
        out: &mut Vec<u8>,
    ) -> Result<Option<u8>, AllocError>
        requires { received.now.head ≡ heads.LoginRequest request.now }
        ensures { ReplyAttemptPost (segment_taken self.old request.now received.now.segment) result
            self.old self.new out.old.items out.new.items }
    {
        match text_of(*out.allocator(), &received.pdu, received.continued)? {
            Some(text) => self.take_text(request, &text, out),
            None => self.take_bytes(request, received.pdu.bytes, out),
        }
    }

    // Takes a segment that is a whole text.
    fn take_text(
        &mut self,
        request: &LoginRequest,
        text: &Text<'_>,
        out: &mut Vec<u8>,
    ) -> Result<Option<u8>, AllocError>
        requires fits { HeadFits (heads.LoginRequest request.now) }
        requires whole { request.now.continues ≡ false }
        ensures { ReplyAttemptPost (segment_taken self.old request.now (Whole text.now)) result
            self.old self.new out.old.items out.new.items }
    {
        if self.is_past_limit(text.canonical_len()) {
            return self.refuse(request, Status::OUT_OF_RESOURCES, out);
        }
        self.clear_gathered();
        self.answer_text(request, text, out)
    }

    // Takes a segment that is a part of a text, or no text.
    fn take_bytes(
        &mut self,
        request: &LoginRequest,
        bytes: &[u8],
        out: &mut Vec<u8>,
    ) -> Result<Option<u8>, AllocError>
        requires fits { HeadFits (heads.LoginRequest request.now) }
        ensures { ReplyAttemptPost (segment_taken self.old request.now (Bytes bytes.now)) result
            self.old self.new out.old.items out.new.items }
    {
        if self.is_past_limit(bytes.len()) {
            return self.refuse(request, Status::OUT_OF_RESOURCES, out);
        }
        self.gather(bytes)?;
        if request.continues {
            let response = self.response(request);
            return self.answer(response, &[], out);
        }
        let alloc = *out.allocator();
        let gathered = self.take_gathered(alloc);
        match read_text(alloc, &gathered)? {
            Some(text) => self.answer_text(request, &text, out),
            None => self.refuse(request, Status::INITIATOR_ERROR, out),
        }
    }

    // Whether the gathered bytes with `n` more are over the limit.
    fn is_past_limit(&self, len: usize) -> bool
        ensures { IsTrue result ↔ (16384 < length self.now.gathered + len) }
    {
        self.gathered.len().saturating_add(len) > LONGEST_TEXT
    }

    // More bytes of a text.
    fn gather(&mut self, bytes: &[u8]) -> Result<(), AllocError>
        ensures ok { OnOk result
            (self.new ≡ record self.old { gathered = self.old.gathered ++ bytes.now }) }
        ensures err { OnErr result (ended_session self.new ≡ ended_session self.old) }
    {
        self.gathered.extend_from_slice(bytes)
    }

    // Drops the bytes of a text.
    fn clear_gathered(&mut self)
        ensures { self.new ≡ record self.old { gathered = [] } }
    {
        self.gathered.clear();
    }

    // The bytes of a text, which are kept no more.
    fn take_gathered(&mut self, alloc: Global) -> Vec<u8>
        ensures bytes { result.items ≡ self.old.gathered }
        ensures none { self.new ≡ record self.old { gathered = [] } }
    {
        std::mem::replace(&mut self.gathered, Vec::new(alloc))
    }

    // Answers or refuses a whole text.
    fn answer_text(
        &mut self,
        request: &LoginRequest,
        text: &Text<'_>,
        out: &mut Vec<u8>,
    ) -> Result<Option<u8>, AllocError>
        requires fits { HeadFits (heads.LoginRequest request.now) }
        ensures { ReplyAttemptPost (whole_text self.old request.now (Some text.now)) result
            self.old self.new out.old.items out.new.items }
    {
        if self.config.demands_chap() {
            self.answer_exchange(request, text, out)
        } else {
            self.answer_plain(request, text, out)
        }
    }

    // Answers or refuses a whole text where CHAP is not demanded.
    fn answer_plain(
        &mut self,
        request: &LoginRequest,
        text: &Text<'_>,
        out: &mut Vec<u8>,
    ) -> Result<Option<u8>, AllocError>
        requires fits { HeadFits (heads.LoginRequest request.now) }
        ensures { ReplyAttemptPost (plain_text self.old request.now text.now) result
            self.old self.new out.old.items out.new.items }
    {
        let answer = self.answer_to(*out.allocator(), text)?;
        if let Some(why) = self.text_refusal(text, &answer) {
            return self.refuse(request, why, out);
        }
        self.send_answer(request, text, &answer, out)
    }

    // The answer to the pairs of a text.
    pub(super) fn answer_to(&self, alloc: Global, text: &Text<'_>) -> Result<Vec<u8>, AllocError>
        ensures { IfOk result (λ answer. answer.items ≡
            canonical_text (answer_pairs self.now text.now)) }
    {
        answer_text(
            alloc,
            text,
            self.config.preferences(),
            self.negotiated_as(text),
            self.declared_tag(text),
            self.declared_length(),
        )
    }

    // Sends this answer to a text that isn't refused, and follows the text.
    pub(super) fn send_answer(
        &mut self,
        request: &LoginRequest,
        text: &Text<'_>,
        answer: &[u8],
        out: &mut Vec<u8>,
    ) -> Result<Option<u8>, AllocError>
        requires fits { HeadFits (heads.LoginRequest request.now) }
        requires declares { DeclaresWell text.now }
        requires short { length answer.now ≤ 8192 }
        ensures ok { IfOk result (λ rule. (pairs : Pairs) → answer.now ≡ canonical_text pairs
            → Replied (text_answered_by self.old request.now text.now pairs) rule
            self.new out.old.items out.new.items) }
        ensures err { OnErr result (self.new ≡ self.old) }
        ensures unwritten { OnErr result (out.new.items ≡ out.old.items) }
    {
        let initiator_name = self.initiator_for(*out.allocator(), text)?;
        let stage = self.stage_after(request);
        let response = LoginResponse {
            transits: request.transits,
            next_stage: request.next_stage,
            tsih: self.tsih_at(stage),
            ..self.response(request)
        };
        self.answer(response, answer, out)?;
        self.apply_negotiated(stage, text, initiator_name);
        Ok(None)
    }

    // Applies what a text that was answered negotiates, in the stage that follows.
    fn apply_negotiated(&mut self, stage: Stage, text: &Text<'_>, initiator_name: Vec<u8>)
        requires declares { DeclaresWell text.now }
        requires name { initiator_name.items ≡ initiator_for self.old text.now }
        ensures { (request : LoginRequest) → stage_after self.old request ≡ stage
            → self.new ≡ after_text self.old request text.now }
    {
        let session_type = self.session_for(text);
        let negotiated = self.negotiated_as(text);
        let declared = self.declared_length();
        self.held
            .hold_offers(text, self.config.preferences(), negotiated, declared);
        self.seen_keys = seen_with(&self.seen_keys, text);
        self.has_text = true;
        self.has_operational_text = self.has_operational_text
            || matches!(self.stage, Stage::Operational);
        self.session_type = session_type;
        self.initiator_name = initiator_name;
        self.stage = stage;
        self.phase = phase_at(stage);
    }

    // The stage after a request that isn't refused.
    fn stage_after(&self, request: &LoginRequest) -> Stage
        ensures { result ≡ stage_after self.now request.now }
    {
        match request.next_stage {
            Some(stage) => stage_named(stage).unwrap_or(self.stage),
            None => self.stage,
        }
    }

    // The session's number, which goes with the move to full feature phase.
    fn tsih_at(&self, stage: Stage) -> u16
        ensures { result ≡ tsih_at self.now stage }
    {
        match stage {
            Stage::Full => self.config.tsih(),
            Stage::Security | Stage::Operational => 0,
        }
    }

    // What each answer has of its request.
    fn response(&self, request: &LoginRequest) -> LoginResponse
        ensures { result ≡ login_response_to self.now request.now }
    {
        let numbers = self.numbers(0);
        LoginResponse {
            transits: false,
            continues: false,
            current_stage: request.current_stage,
            next_stage: None,
            version_max: 0,
            version_active: 0,
            isid: request.isid,
            tsih: 0,
            initiator_task_tag: request.initiator_task_tag,
            stat_sn: None,
            exp_cmd_sn: numbers.exp_cmd_sn,
            max_cmd_sn: numbers.max_cmd_sn,
            status_class: 0,
            status_detail: 0,
        }
    }

    // A refusal, which carries no StatSN and closes the session.
    pub(super) fn refuse(
        &mut self,
        request: &LoginRequest,
        why: Status,
        out: &mut Vec<u8>,
    ) -> Result<Option<u8>, AllocError>
        requires fits { HeadFits (heads.LoginRequest request.now) }
        requires class { 0 < why.class }
        ensures { ReplyPost (refuse self.old request.now why) result
            self.old self.new out.old.items out.new.items }
    {
        let head = Head::LoginResponse(LoginResponse {
            status_class: why.class,
            status_detail: why.detail,
            ..self.response(request)
        });
        write_pdu(&head, &[], out)?;
        self.close();
        Ok(None)
    }

    // An answer of class 0, which carries StatSN and advances it.
    fn answer(
        &mut self,
        response: LoginResponse,
        text: &[u8],
        out: &mut Vec<u8>,
    ) -> Result<Option<u8>, AllocError>
        requires fits { HeadFits (heads.LoginResponse
            (record response { stat_sn = Some self.old.stat_sn })) }
        requires short { length text.now < 2 ^ 24 }
        ensures ok { IfOk result (λ rule. (pairs : Pairs) → text.now ≡ canonical_text pairs
            → Replied (login_answer self.old response pairs) rule
            self.new out.old.items out.new.items) }
        ensures counts { OnOk result (self.new ≡ stat_sn_advanced self.old) }
        ensures err { OnErr result (self.new ≡ self.old) }
        ensures unwritten { OnErr result (out.new.items ≡ out.old.items) }
    {
        let head = Head::LoginResponse(LoginResponse {
            stat_sn: Some(self.stat_sn),
            ..response
        });
        self.send_response(&head, text, out)
    }
}

// The stage that two bits of a login PDU name.
fn stage_named(bits: u8) -> Option<Stage>
    ensures { result ≡ stage_named bits }
{
    match bits {
        0 => Some(Stage::Security),
        1 => Some(Stage::Operational),
        3 => Some(Stage::Full),
        _ => None,
    }
}

// Whether the login may move as the request asks.
fn is_move(request: &LoginRequest) -> bool
    ensures { result ≡ is_move (stage_named request.now.current_stage) (stage_asked request.now) }
{
    let Some(from) = stage_named(request.current_stage) else {
        return false;
    };
    let Some(bits) = request.next_stage else {
        return false;
    };
    match stage_named(bits) {
        Some(to) => from.may_move(to),
        None => false,
    }
}

// The phase that goes with a stage.
fn phase_at(stage: Stage) -> Phase
    ensures { result ≡ phase_at stage }
{
    match stage {
        Stage::Full => Phase::Full,
        Stage::Security | Stage::Operational => Phase::Login,
    }
}
