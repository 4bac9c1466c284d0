//! The exchange of CHAP in a login (RFC 7143, section 12.1.3): which texts are refused, and what the
//! others are answered.

ghost use Rattle.std.specs.Prelude.{◌≡◌, ◌++◌, IfOk, Some};
ghost use Rattle.iscsi_text.specs.Reading.{in_order};
ghost use Rattle.iscsi_text.specs.Shown.{all_shown};
ghost use Rattle.iscsi_text.specs.Canonical.{canonical_text};
ghost use Rattle.iscsi_pdu.specs.Meaning.{HeadFits};
ghost use Rattle.iscsi_pdu.specs.declared.head.Head.TheVariants as heads;
ghost use Rattle.iscsi_login.specs.Answer.{DeclaresWell};
ghost use Rattle.iscsi_access.specs.Chap.{Chap};
ghost use Rattle.iscsi_access.specs.declared.verdict.Said.{Said};
ghost use Rattle.iscsi_access.specs.declared.verdict.Verdict.TheVariants.{Goes};
ghost use Rattle.iscsi_target_session.specs.Login.{has_passed, verdict_for, allowed_move, exchange_pairs, by_verdict, rest_of, exchange_text};
ghost use Rattle.iscsi_target_session.specs.LoginText.{answer_pairs};
ghost use Rattle.iscsi_target_session.specs.Replies.{ReplyAttemptPost};

use super::Session;
use crate::status::Status;
use iscsi_access::{Progress, Said, Spoken, Verdict};
use iscsi_login::{Stage, answer_pairs};
use iscsi_pdu::{LOGIN_SEGMENT, LoginRequest};
use iscsi_text::{Pair, Text, sort_pairs, write_pairs};
use std::alloc::{AllocError, Global};

/// The keys of the exchange (RFC 7143, section 12.1.3).
const EXCHANGE_KEYS: [&[u8]; 6] = [
    b"AuthMethod",
    b"CHAP_A",
    b"CHAP_C",
    b"CHAP_I",
    b"CHAP_N",
    b"CHAP_R",
];

impl Session {
    // Answers or refuses a whole text where CHAP is demanded. What it says beside the exchange may be
    // refused first.
    pub(super) fn answer_exchange(
        &mut self,
        request: &LoginRequest,
        text: &Text<'_>,
        out: &mut Vec<u8>,
    ) -> Result<Option<u8>, AllocError>
        requires fits { HeadFits (heads.LoginRequest request.now) }
        ensures { (c : Chap) → self.old.settings.extras.chap ≡ Some c
            → ReplyAttemptPost (exchange_text c self.old request.now text.now) result
            self.old self.new out.old.items out.new.items }
    {
        let alloc = *out.allocator();
        let rest = rest_of(alloc, text)?;
        let answer = self.answer_to(alloc, &rest)?;
        if let Some(why) = self.text_refusal(&rest, &answer) {
            return self.refuse(request, why, out);
        }
        match self.verdict_for(alloc, text, &rest)? {
            Verdict::Refused => self.refuse(request, Status::AUTHENTICATION_FAILURE, out),
            Verdict::Goes { progress, said } => {
                let answer = self.exchange_answer(alloc, said, &rest)?;
                self.go_on(request, &rest, &answer, progress, out)
            }
        }
    }

    // What the exchange makes of a text, which says the rest beside it. In the operational stage a
    // response is to have been right before.
    fn verdict_for(
        &self,
        alloc: Global,
        text: &Text<'_>,
        rest: &Text<'_>,
    ) -> Result<Verdict, AllocError>
        requires rest { rest.now ≡ rest_of text.now }
        ensures { IfOk result (λ verdict. (c : Chap) → self.now.settings.extras.chap ≡ Some c
            → verdict ≡ verdict_for c self.now text.now) }
    {
        if matches!(self.stage, Stage::Operational) && !has_passed(self.progress) {
            return Ok(Verdict::Refused);
        }
        let initiator_name = self.initiator_for(alloc, rest)?;
        match self.config.chap() {
            Some(chap) => chap.judge(alloc, self.progress, &initiator_name, text),
            None => Ok(Verdict::Refused),
        }
    }

    // Answers a text by which the exchange has come this far, unless the answer is too long.
    fn go_on(
        &mut self,
        request: &LoginRequest,
        rest: &Text<'_>,
        answer: &[u8],
        progress: Progress,
        out: &mut Vec<u8>,
    ) -> Result<Option<u8>, AllocError>
        requires fits { HeadFits (heads.LoginRequest request.now) }
        requires declares { DeclaresWell rest.now }
        ensures { (c : Chap) (said : Said)
            → answer.now ≡ canonical_text (exchange_pairs c said self.old rest.now)
            → ReplyAttemptPost (by_verdict c (Goes progress said) self.old request.now rest.now)
            result
            self.old self.new out.old.items out.new.items }
    {
        // The answer has to fit into one segment (own rule).
        if answer.len() > LOGIN_SEGMENT as usize {
            return self.refuse(request, Status::OUT_OF_RESOURCES, out);
        }
        let followed = allowed_move(progress, request);
        let rule = self.send_answer(&followed, rest, answer, out)?;
        self.progress = progress;
        Ok(rule)
    }

    // The answer to a text, with what is said of the exchange.
    fn exchange_answer(
        &self,
        alloc: Global,
        said: Said,
        rest: &Text<'_>,
    ) -> Result<Vec<u8>, AllocError>
        ensures { IfOk result (λ answer. (c : Chap) → self.now.settings.extras.chap ≡ Some c
            → answer.items ≡ canonical_text (exchange_pairs c said self.now rest.now)) }
    {
        let Some(chap) = self.config.chap() else {
            return Ok(Vec::new(alloc));
        };
        let spoken = chap.speak(alloc, said)?;
        self.answer_with(alloc, &spoken, rest)
    }

    // The answer to a text, with what was spoken.
    fn answer_with(
        &self,
        alloc: Global,
        spoken: &Spoken<'_>,
        rest: &Text<'_>,
    ) -> Result<Vec<u8>, AllocError>
        ensures { IfOk result (λ answer. answer.items
            ≡ canonical_text (in_order (spoken.now ++ answer_pairs self.now rest.now))) }
    {
        let mut pairs = spoken.pairs(alloc)?;
        let answers = answer_pairs(
            alloc,
            rest,
            self.config.preferences(),
            self.negotiated_as(rest),
            self.declared_tag(rest),
            self.declared_length(),
        )?;
        pairs.extend_from_slice(&answers)?;
        sort_pairs(&mut pairs)?;
        text_of(alloc, &pairs)
    }
}

// The canonical text of pairs.
fn text_of(alloc: Global, pairs: &[Pair<'_>]) -> Result<Vec<u8>, AllocError>
    ensures { IfOk result (λ text. text.items ≡ canonical_text (all_shown pairs.now)) }
{
    let mut text = Vec::new(alloc);
    write_pairs(pairs, &mut text)?;
    Ok(text)
}

// What a text says beside the exchange.
fn rest_of<'a>(alloc: Global, text: &Text<'a>) -> Result<Text<'a>, AllocError>
    ensures { IfOk result (λ rest. rest ≡ rest_of text.now) }
{
    text.without(alloc, &EXCHANGE_KEYS)
}

// Whether the response was right.
fn has_passed(progress: Progress) -> bool
    ensures { result ≡ has_passed progress }
{
    matches!(progress, Progress::Passed)
}

// The request as far as it is followed: it moves to no other stage before a response was right.
fn allowed_move(progress: Progress, request: &LoginRequest) -> LoginRequest
    requires fits { HeadFits (heads.LoginRequest request.now) }
    ensures moves { result ≡ allowed_move progress request.now }
    ensures fits { HeadFits (heads.LoginRequest result) }
{
    if has_passed(progress) {
        *request
    } else {
        LoginRequest {
            transits: false,
            next_stage: None,
            ..*request
        }
    }
}
