//! What a text of the security stage leads to (RFC 7143, section 12.1.3).

ghost use Rattle.std.specs.Prelude.{◌≡◌, ◌⊎◌, IfOk, find, Some};
ghost use Rattle.std.specs.Option.{option_map};
ghost use Rattle.std.specs.Str.{bytes_eq};
ghost use Rattle.iscsi_text.specs.Reading.{number_in};
ghost use Rattle.iscsi_chap.specs.Binary.{binary_of};
ghost use Rattle.iscsi_chap.specs.Response.{chap_response};
ghost use Rattle.iscsi_access.specs.Exchange.{on_method, on_algorithm, on_response, on_rest, is_right, own_said, own_response, judge};
ghost use Rattle.iscsi_access.specs.Laws.{AnswersStep};
ghost use Rattle.iscsi_access.specs.declared.verdict.Progress.TheVariants as steps;
ghost use Rattle.iscsi_access.specs.declared.verdict.Said.{Said};
ghost use Rattle.iscsi_access.specs.declared.verdict.Verdict.TheVariants.{Goes};

use crate::chap::{Account, Chap};
use crate::reading::{
    algorithm_in, has_chap_key, has_more_than_algorithms, lists, number_of, plain_of, stands,
};
use crate::verdict::{Progress, Said, Verdict};
use iscsi_chap::{Algorithm, Response, is_equal, read_binary};
use iscsi_text::Text;
use std::alloc::{AllocError, Global};

/// The most bytes of a challenge of the initiator (own rule).
const LONGEST_CHALLENGE: usize = 1024;

impl Chap {
    /// What a text of the security stage leads to, by how far the exchange has come. `initiator` is
    /// the login's InitiatorName.
    ///
    /// | Progress | The text has | Said | Then |
    /// |---|---|---|---|
    /// | `Unasked` | AuthMethod, a list with `CHAP` | `Method` | `Chosen` |
    /// | `Chosen` | CHAP_A, a list with `5` (MD5) or `7` (SHA-256) | `Challenge` | `Challenged` |
    /// | `Challenged` | CHAP_N, and CHAP_R, the response | `Nothing` | `Passed` |
    /// | `Challenged` | CHAP_I and CHAP_C besides | `Response` | `Passed` |
    /// | `Passed` | none of these keys | `Nothing` | `Passed` |
    ///
    /// Any other text is `Refused`:
    /// - one that has another key of the exchange, or lacks one;
    /// - a wrong name or response, or an account that is bound to another InitiatorName;
    /// - a challenge where the target has no account of its own, or the target's own challenge.
    ///
    /// Of the algorithms in the list the first that is known is taken: the initiator puts first what
    /// it prefers. Both responses, the initiator's and the target's own, are by this algorithm.
    ///
    /// The only error is that memory ran out. The steps are those of RFC 7143, section 12.1.3. That
    /// CHAP is chosen whatever stands before it in a list is own rule.
    #[tactic(auto, using(crate::proofs::PassingLemmas::passed_verdict))]
    pub fn judge(
        &self,
        alloc: Global,
        progress: Progress,
        initiator: &[u8],
        text: &Text<'_>,
    ) -> Result<Verdict, AllocError>
        ensures verdict { IfOk result (λ verdict. verdict ≡
            judge self.now progress initiator.now text.now) }
        // Only a right response passes; behind it the login stays passed.
        ensures passed { IfOk result (λ verdict. (said : Said) → verdict ≡ Goes steps.Passed said
            → (progress ≡ steps.Passed) ⊎ AnswersStep self.now progress initiator.now text.now) }
    {
        match progress {
            Progress::Unasked => Ok(on_method(text)),
            Progress::Chosen => Ok(on_algorithm(text)),
            Progress::Challenged(algorithm) => {
                self.on_response(alloc, algorithm, initiator, text)
            }
            Progress::Passed => Ok(on_rest(text)),
        }
    }

    // A response is to be given, and with it may come a challenge.
    fn on_response(
        &self,
        alloc: Global,
        algorithm: Algorithm,
        initiator: &[u8],
        text: &Text<'_>,
    ) -> Result<Verdict, AllocError>
        ensures { IfOk result (λ verdict. verdict ≡ on_response self.now algorithm initiator.now text.now) }
    {
        if stands(text, b"AuthMethod") || stands(text, b"CHAP_A") {
            return Ok(Verdict::Refused);
        }
        if !self.is_right(alloc, algorithm, initiator, text)? {
            return Ok(Verdict::Refused);
        }
        let identifier = plain_of(text, b"CHAP_I");
        let challenge = plain_of(text, b"CHAP_C");
        match self.own_said(alloc, algorithm, identifier, challenge)? {
            Some(said) => Ok(Verdict::Goes {
                progress: Progress::Passed,
                said,
            }),
            None => Ok(Verdict::Refused),
        }
    }

    // Whether the text has the name of an account that the initiator may use, and the response that
    // its secret gives.
    fn is_right(
        &self,
        alloc: Global,
        algorithm: Algorithm,
        initiator: &[u8],
        text: &Text<'_>,
    ) -> Result<bool, AllocError>
        ensures { IfOk result (λ right. right ≡ is_right self.now algorithm initiator.now text.now) }
    {
        let Some(value) = plain_of(text, b"CHAP_R") else {
            return Ok(false);
        };
        let Some(given) = read_binary(alloc, value)? else {
            return Ok(false);
        };
        let Some(name) = plain_of(text, b"CHAP_N") else {
            return Ok(false);
        };
        let Some(account) = self.account_named(name) else {
            return Ok(false);
        };
        Ok(self.is_response(algorithm, account, &given) && account.allows(initiator))
    }

    // Whether these bytes are the response that the account's secret gives.
    fn is_response(&self, algorithm: Algorithm, account: &Account, given: &[u8]) -> bool
        ensures { result ≡ bytes_eq given.now
            (chap_response algorithm self.now.identifier account.now.secret self.now.challenge) }
    {
        let due = Response::to_challenge(
            algorithm,
            self.identifier,
            &account.secret,
            &self.challenge,
        );
        is_equal(given, due.as_bytes())
    }

    // The first account of this name, if there is one.
    fn account_named(&self, name: &[u8]) -> Option<&Account>
        ensures { option_map (λ a. a.now) result
            ≡ find (λ a. bytes_eq a.name name.now) self.now.accounts }
    {
        self.accounts
            .iter()
            .find(|account| account.name.as_slice() == name)
    }

    // What the target says of itself: nothing where it isn't challenged, none where the text is to
    // be refused.
    fn own_said(
        &self,
        alloc: Global,
        algorithm: Algorithm,
        identifier: Option<&[u8]>,
        challenge: Option<&[u8]>,
    ) -> Result<Option<Said>, AllocError>
        ensures { IfOk result (λ said. said ≡ own_said self.now algorithm
            (option_map (λ b. b.now) identifier.entry) (option_map (λ b. b.now) challenge.entry)) }
    {
        match (identifier, challenge) {
            (None, None) => Ok(Some(Said::Nothing)),
            (Some(identifier), Some(challenge)) => {
                self.own_response(alloc, algorithm, identifier, challenge)
            }
            _ => Ok(None),
        }
    }

    // What the target says to a challenge of the initiator; none where it doesn't answer it.
    fn own_response(
        &self,
        alloc: Global,
        algorithm: Algorithm,
        identifier: &[u8],
        challenge: &[u8],
    ) -> Result<Option<Said>, AllocError>
        ensures { IfOk result (λ said. said ≡ own_response self.now algorithm self.now.own
            (number_in identifier.now) (binary_of challenge.now)) }
    {
        let Some(own) = &self.own else {
            return Ok(None);
        };
        let Some(identifier) = number_of(identifier) else {
            return Ok(None);
        };
        let Some(challenge) = read_binary(alloc, challenge)? else {
            return Ok(None);
        };
        Ok(self.answer(algorithm, own, identifier, &challenge))
    }

    // What the target says to a challenge, by its own account; none where that isn't fair.
    fn answer(
        &self,
        algorithm: Algorithm,
        own: &Account,
        identifier: u64,
        challenge: &[u8],
    ) -> Option<Said>
        ensures { result ≡ own_response self.now algorithm (Some own.now) (Some identifier)
            (Some challenge.now) }
    {
        let Ok(byte) = u8::try_from(identifier) else {
            return None;
        };
        // A response to its own challenge could be given back to the target.
        if challenge.is_empty()
            || challenge.len() > LONGEST_CHALLENGE
            || challenge == self.challenge.as_slice()
        {
            return None;
        }
        Some(Said::Response(Response::to_challenge(algorithm, byte, &own.secret, challenge)))
    }
}

// A method is to be chosen: CHAP where it is offered.
fn on_method(text: &Text<'_>) -> Verdict
    ensures { result ≡ on_method text.now }
{
    if !has_chap_key(text) && lists(text, b"AuthMethod", b"CHAP") {
        Verdict::Goes {
            progress: Progress::Chosen,
            said: Said::Method,
        }
    } else {
        Verdict::Refused
    }
}

// An algorithm is to be chosen: the first in the list that is known.
fn on_algorithm(text: &Text<'_>) -> Verdict
    ensures { result ≡ on_algorithm text.now }
{
    if has_more_than_algorithms(text) {
        return Verdict::Refused;
    }
    match algorithm_in(text) {
        Some(algorithm) => Verdict::Goes {
            progress: Progress::Challenged(algorithm),
            said: Said::Challenge(algorithm),
        },
        None => Verdict::Refused,
    }
}

// Nothing of the exchange comes any more.
fn on_rest(text: &Text<'_>) -> Verdict
    ensures { result ≡ on_rest text.now }
{
    if stands(text, b"AuthMethod") || has_chap_key(text) {
        Verdict::Refused
    } else {
        Verdict::Goes {
            progress: Progress::Passed,
            said: Said::Nothing,
        }
    }
}
