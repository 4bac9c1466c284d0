//! The login (RFC 7143, sections 6.3, 11.12 and 11.13). One file, since each step of a login hands
//! on to the next.

ghost use Rattle.std.specs.Prelude.{◌≡◌, ◌≢◌, ℕ, List, ◌≤◌, ◌<◌, ◌++◌, [], length, take, drop, None, Some, OnOk, OnErr, IfOk};
ghost use Rattle.std.specs.Option.{option_map};
ghost use Rattle.iscsi_pdu.specs.Meaning.{HeadFits, whole};
ghost use Rattle.iscsi_pdu.specs.declared.head.Head.TheVariants as heads;
ghost use Rattle.iscsi_stream.specs.Segment.{Text as Whole, segment_of, text_or_bytes};
ghost use Rattle.iscsi_login.specs.Answer.{DeclaresWell, initiator_holds};
ghost use Rattle.iscsi_initiator.specs.Login.{following_stage, login_request_head, fits_segment, sends_text, sends_more, is_expected, login_counted, begins_stage, login_text_answered, is_empty_segment, is_mid_text_answer, moves_on, login_answer_in_turn, login_answered, initiator_login_step, start_step};
ghost use Rattle.iscsi_initiator.specs.inner.Inside.{SessionStepPost, CountedStepPost, SendStepPost};

use super::Session;
use crate::fault::InitiatorFault;
use crate::target_pdu::Counters;
use iscsi_login::{Phase, Stage};
use iscsi_pdu::rule::{KIND_NOT_DUE, LOGIN_OUT_OF_TURN, STATUS_OUT_OF_ORDER, TEXT_AT_FAULT};
use iscsi_pdu::{Head, LoginRequest, LoginResponse, Pdu};
use iscsi_stream::{drop_front, text_of, write_pdu};
use iscsi_text::Text;
use std::alloc::AllocError;

impl Session {
    /// Starts the login: its first text is sent, or a part of it. A second start breaks a rule.
    pub fn start(&mut self, out: &mut Vec<u8>) -> Result<Option<InitiatorFault>, AllocError>
        ensures { SessionStepPost (start_step self.old)
            result self.old self.new out.old.items out.new.items }
    {
        if self.started {
            return Ok(self.protocol_error(KIND_NOT_DUE));
        }
        self.send_text(out)?;
        self.started = true;
        Ok(None)
    }

    /// Takes a message in the login.
    pub(super) fn login_step(
        &mut self,
        pdu: &Pdu<'_>,
        continued: bool,
        out: &mut Vec<u8>,
    ) -> Result<Option<InitiatorFault>, AllocError>
        ensures { CountedStepPost (initiator_login_step self.old pdu.now.head
            (segment_of continued pdu.now.head pdu.now.bytes.now))
            result self.old self.new out.old.items out.new.items }
    {
        let Head::LoginResponse(response) = &pdu.head else {
            return Ok(self.protocol_error(KIND_NOT_DUE));
        };
        if response.initiator_task_tag != 0 {
            return Ok(self.protocol_error(KIND_NOT_DUE));
        }
        let text = text_of(*out.allocator(), pdu, continued)?;
        self.answered(response, text.as_ref(), pdu.bytes, out)
    }

    // An answer: a refusal, a wrong StatSN, or one in turn.
    fn answered(
        &mut self,
        response: &LoginResponse,
        text: Option<&Text<'_>>,
        bytes: &[u8],
        out: &mut Vec<u8>,
    ) -> Result<Option<InitiatorFault>, AllocError>
        ensures { CountedStepPost (login_answered self.old response.now
            (text_or_bytes (option_map (λ t. t.now) text.entry) bytes.now))
            result self.old self.new out.old.items out.new.items }
    {
        if response.status_class != 0 {
            return Ok(self.fails(InitiatorFault::Refused(
                response.status_class,
                response.status_detail,
            )));
        }
        if !self.is_expected(response.stat_sn.unwrap_or(0)) {
            return Ok(self.protocol_error(STATUS_OUT_OF_ORDER));
        }
        if self.unsent_text.is_empty() {
            self.on_last(response, text, out)
        } else {
            self.on_part(response, text, bytes, out)
        }
    }

    // An answer in the midst of a text: its next segment is sent.
    fn on_part(
        &mut self,
        response: &LoginResponse,
        text: Option<&Text<'_>>,
        bytes: &[u8],
        out: &mut Vec<u8>,
    ) -> Result<Option<InitiatorFault>, AllocError>
        requires { self.old.unsent_text ≢ [] }
        ensures { CountedStepPost (login_answer_in_turn self.old.unsent_text self.old response.now
            (text_or_bytes (option_map (λ t. t.now) text.entry) bytes.now))
            result self.old self.new out.old.items out.new.items }
    {
        if !self.goes_on(response, text, bytes) {
            return Ok(self.protocol_error(LOGIN_OUT_OF_TURN));
        }
        self.count_answer(response);
        self.send_more(out)?;
        Ok(None)
    }

    // An answer to the last segment of a text.
    fn on_last(
        &mut self,
        response: &LoginResponse,
        text: Option<&Text<'_>>,
        out: &mut Vec<u8>,
    ) -> Result<Option<InitiatorFault>, AllocError>
        requires { self.old.unsent_text ≡ [] }
        ensures { (bytes : List ℕ) → CountedStepPost
            (login_answer_in_turn self.old.unsent_text self.old response.now
            (text_or_bytes (option_map (λ t. t.now) text.entry) bytes))
            result self.old self.new out.old.items out.new.items }
    {
        if !self.moves_on(response) {
            return Ok(self.protocol_error(LOGIN_OUT_OF_TURN));
        }
        match text {
            Some(answer) => self.on_text(response, answer, out),
            None => Ok(self.protocol_error(TEXT_AT_FAULT)),
        }
    }

    // The text that answers the present one: a good one settles what is held.
    fn on_text(
        &mut self,
        response: &LoginResponse,
        answer: &Text<'_>,
        out: &mut Vec<u8>,
    ) -> Result<Option<InitiatorFault>, AllocError>
        ensures { CountedStepPost (login_text_answered self.old response.now (Whole answer.now))
            result self.old self.new out.old.items out.new.items }
    {
        if let Some(key) = self.config.bad_key(self.stage, answer) {
            return Ok(self.fails(InitiatorFault::BadAnswer(key)));
        }
        let next = following_stage(self.stage);
        self.count_answer(response);
        self.begin_stage(next, out)?;
        self.apply_answer(answer);
        Ok(None)
    }

    // Holds what an answer settles.
    fn apply_answer(&mut self, answer: &Text<'_>)
        requires { DeclaresWell answer.now }
        ensures { self.new
            ≡ record self.old { held = initiator_holds None answer.now self.old.held } }
    {
        self.held.hold_answer(answer, None);
    }

    // The stage moves, and the next text is sent, if there is one.
    fn begin_stage(&mut self, stage: Stage, out: &mut Vec<u8>) -> Result<(), AllocError>
        ensures { SendStepPost (begins_stage stage self.old)
            result self.old self.new out.old.items out.new.items }
    {
        let before = self.stage;
        self.stage = stage;
        match stage {
            Stage::Full => self.phase = Phase::Full,
            Stage::Security | Stage::Operational => {
                if let Err(error) = self.send_text(out) {
                    self.stage = before;
                    return Err(error);
                }
            }
        }
        Ok(())
    }

    // The StatSN and the window of an answer are counted.
    fn count_answer(&mut self, response: &LoginResponse)
        ensures { self.new ≡ login_counted self.old response.now }
    {
        self.update_counters(Counters {
            stat_sn: Some(response.stat_sn.unwrap_or(0)),
            exp_cmd_sn: response.exp_cmd_sn,
            max_cmd_sn: response.max_cmd_sn,
        });
    }

    // Whether the number is the expected one; the first sets it.
    pub(super) fn is_expected(&self, stat_sn: u32) -> bool
        ensures { result ≡ is_expected self.now.exp_stat_sn stat_sn }
    {
        match self.exp_stat_sn {
            None => true,
            Some(expected) => stat_sn == expected,
        }
    }

    // Whether the flags and the stage are those of an answer in the midst of a text.
    fn goes_on(&self, response: &LoginResponse, text: Option<&Text<'_>>, bytes: &[u8]) -> bool
        ensures { result ≡ is_mid_text_answer self.now response.now
            (text_or_bytes (option_map (λ t. t.now) text.entry) bytes.now) }
    {
        !response.transits
            && !response.continues
            && response.current_stage == self.stage.number()
            && is_empty_segment(text, bytes)
    }

    // Whether the flags and stages are those of an answer to the last segment of a text.
    fn moves_on(&self, response: &LoginResponse) -> bool
        ensures { result ≡ moves_on self.now response.now }
    {
        response.transits
            && !response.continues
            && response.current_stage == self.stage.number()
            && response.next_stage.unwrap_or(0) == following_stage(self.stage).number()
    }

    // The present text is sent whole, or its first segment is.
    #[tactic(auto, using(crate::proofs::LoginSendLemmas::sent_text))]
    fn send_text(&mut self, out: &mut Vec<u8>) -> Result<(), AllocError>
        ensures { SendStepPost (sends_text self.old)
            result self.old self.new out.old.items out.new.items }
    {
        let mut text = Vec::new(*out.allocator());
        self.config.write_text(self.stage, &mut text)?;
        let len = self.write_segment(&text, out)?;
        drop_front(&mut text, len);
        self.unsent_text = text;
        Ok(())
    }

    // The next segment of the present text is sent.
    #[tactic(auto, using(crate::proofs::LoginSendLemmas::sent_more))]
    fn send_more(&mut self, out: &mut Vec<u8>) -> Result<(), AllocError>
        ensures { SendStepPost (sends_more self.old)
            result self.old self.new out.old.items out.new.items }
    {
        let len = self.write_segment(&self.unsent_text, out)?;
        drop_front(&mut self.unsent_text, len);
        Ok(())
    }

    // Writes as many bytes of the text as one segment takes, and returns how many.
    fn write_segment(&self, text: &[u8], out: &mut Vec<u8>) -> Result<usize, AllocError>
        ensures count { IfOk result (λ n. (n ≤ length text.now)
            × (drop n text.now ≡ drop self.now.settings.login_segment text.now)) }
        ensures ok { OnOk result (out.new.items ≡ out.old.items
            ++ whole (heads.LoginRequest (login_request_head self.now
            (fits_segment self.now text.now)))
            (take self.now.settings.login_segment text.now)) }
        ensures err { OnErr result (out.new.items ≡ out.old.items) }
    {
        let most = self.config.login_segment() as usize;
        let len = text.len().min(most);
        let head = Head::LoginRequest(self.login_request(text.len() <= most));
        write_pdu(&head, &text[..len], out)?;
        Ok(len)
    }

    // The head of a login PDU, which is the last of its text or is not.
    fn login_request(&self, is_last: bool) -> LoginRequest
        ensures value { result ≡ login_request_head self.now is_last }
        ensures fits { HeadFits (heads.LoginRequest result) }
    {
        LoginRequest {
            transits: is_last,
            continues: !is_last,
            current_stage: self.stage.number(),
            next_stage: is_last.then_some(following_stage(self.stage).number()),
            version_max: 0,
            version_min: 0,
            isid: self.config.isid(),
            tsih: 0,
            initiator_task_tag: 0,
            connection_id: 0,
            cmd_sn: self.config.first_cmd_sn(),
            exp_stat_sn: self.sent_exp_stat_sn(),
        }
    }
}

// The next stage that a text of this stage requests.
fn following_stage(stage: Stage) -> Stage
    ensures { result ≡ following_stage stage }
{
    match stage {
        Stage::Security => Stage::Operational,
        Stage::Operational | Stage::Full => Stage::Full,
    }
}

// Whether there is nothing in the segment.
fn is_empty_segment(text: Option<&Text<'_>>, bytes: &[u8]) -> bool
    ensures { result ≡ is_empty_segment (text_or_bytes (option_map (λ t. t.now) text.entry) bytes.now) }
{
    match text {
        Some(text) => text.len() == 0,
        None => bytes.is_empty(),
    }
}
