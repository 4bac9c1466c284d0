//! What an initiator offers (RFC 7143, sections 6.3, 12.1 and 13).

ghost use Rattle.std.specs.Prelude.{◌≡◌, ◌++◌, true, OnOk, OnErr, codes};
ghost use Rattle.iscsi_text.specs.Value as values;
ghost use Rattle.iscsi_text.specs.Shown.{shown, all_shown};
ghost use Rattle.iscsi_text.specs.Reading.{in_order};
ghost use Rattle.iscsi_login.specs.Offers.{auth_items, session_name, preferred_pair, max_recv_pair, proposed, security_offers, operational_offers, single_offers, offers_at, text_of};
ghost use Rattle.iscsi_login.specs.inner.Inside.{all_new, sent_pairs};

use crate::negotiation::answered_value;
use crate::preferences::Preferences;
use crate::stage::Stage;
use iscsi_text::{NEGOTIATED_KEYS, NegKey, Pair, Session, Value, write_pairs};
use std::alloc::AllocError;

/// Which ways of authentication an initiator offers (RFC 7143, section 12.1). None but `None` can
/// be agreed here.
#[derive(Clone, Copy, Debug, PartialEq, Eq)]
pub enum Auth {
    /// `None`.
    None,
    /// `CHAP,None`.
    ChapOrNone,
    /// `CHAP`, which the target of this workspace refuses.
    Chap,
}

impl Auth {
    // The items that are offered.
    fn items(self) -> &'static [u8]
        ensures { result.now ≡ auth_items self }
    {
        match self {
            Auth::None => b"None",
            Auth::ChapOrNone => b"CHAP,None",
            Auth::Chap => b"CHAP",
        }
    }
}

/// What an initiator offers in a login, and the texts that say so.
///
/// Each text is canonical: `key=value` and a byte 0 for each pair, in the byte order of the keys.
/// Names are taken as they are: that they have no byte 0, and that numbers are in range, is for the
/// caller to see.
#[derive(Clone, Copy, Debug, PartialEq, Eq)]
pub struct Offers<'a> {
    /// The initiator's name.
    pub initiator: &'a [u8],
    /// The name of the target, which a discovery session doesn't say.
    pub target: &'a [u8],
    /// What the session is for.
    pub session: Session,
    /// The ways of authentication.
    pub auth: Auth,
    /// The offered values.
    pub prefs: Preferences,
}

impl Offers<'_> {
    /// Appends the text of a stage, in a login that started at `start` (RFC 7143, section 6.3).
    ///
    /// That is the security text, the one text of a login that starts in the operational stage, or
    /// the operational text behind the security stage.
    ///
    /// When out of memory, `out` is unchanged.
    pub fn write_text(
        &self,
        start: Stage,
        stage: Stage,
        out: &mut Vec<u8>,
    ) -> Result<(), AllocError>
        ensures ok { OnOk result (out.new.items ≡
            out.old.items ++ text_of (offers_at (proposed self.now) start stage)) }
        ensures err { OnErr result (out.new.items ≡ out.old.items) }
    {
        match stage {
            Stage::Security => self.security_text(out),
            Stage::Operational | Stage::Full => match start {
                Stage::Operational => self.single_text(out),
                Stage::Security | Stage::Full => self.operational_text(out),
            },
        }
    }

    /// Appends the text of the security stage: `AuthMethod`, `InitiatorName`, `SessionType`, and in
    /// a normal session `TargetName` (RFC 7143, sections 6.3.2, 12.1, 13.4, 13.5 and 13.21).
    ///
    /// When out of memory, `out` is unchanged.
    pub fn security_text(&self, out: &mut Vec<u8>) -> Result<(), AllocError>
        ensures ok { OnOk result (out.new.items ≡
            out.old.items ++ text_of (security_offers (proposed self.now))) }
        ensures err { OnErr result (out.new.items ≡ out.old.items) }
    {
        write_pairs(said(&self.security_pairs(), self.session), out)
    }

    /// Appends the text of the operational stage: the preference for each negotiated key but
    /// `AuthMethod`, and `MaxRecvDataSegmentLength` (RFC 7143, sections 6.3.3 and 13).
    ///
    /// When out of memory, `out` is unchanged.
    pub fn operational_text(&self, out: &mut Vec<u8>) -> Result<(), AllocError>
        ensures ok { OnOk result (out.new.items ≡
            out.old.items ++ text_of (operational_offers (proposed self.now))) }
        ensures err { OnErr result (out.new.items ≡ out.old.items) }
    {
        write_pairs(&self.operational_pairs(), out)
    }

    /// Appends the one text of a login that starts in the operational stage.
    ///
    /// The text has all pairs of both texts but `AuthMethod` (RFC 7143, section 6.3; that it is one
    /// text is own rule).
    ///
    /// When out of memory, `out` is unchanged.
    pub fn single_text(&self, out: &mut Vec<u8>) -> Result<(), AllocError>
        ensures ok { OnOk result (out.new.items ≡
            out.old.items ++ text_of (single_offers (proposed self.now))) }
        ensures err { OnErr result (out.new.items ≡ out.old.items) }
    {
        write_pairs(said(&self.single_pairs(), self.session), out)
    }

    // The pairs of the security stage, and the target's name in any session.
    pub(crate) fn security_pairs(&self) -> [Pair; 4]
        ensures { sent_pairs self.now.session (all_shown result) ≡
            in_order (security_offers (proposed self.now)) }
    {
        [
            Pair {
                key: b"AuthMethod",
                value: Value::Items(self.auth.items()),
            },
            self.initiator_name(),
            self.session_type(),
            self.target_name(),
        ]
    }

    // The pairs of the operational stage. `AuthMethod` isn't offered there: the most bytes of a
    // segment, which no answer settles, take its place.
    pub(crate) fn operational_pairs(&self) -> [Pair<'static>; NEGOTIATED_KEYS]
        ensures { all_shown result ≡ in_order (operational_offers (proposed self.now)) }
    {
        let mut pairs = NegKey::ALL.map(|key| self.preferred(key));
        pairs[NegKey::AuthMethod.place()] = self.max_recv();
        put_in_order(&mut pairs);
        pairs
    }

    // All pairs of a login that starts in the operational stage. A discovery session doesn't say the
    // target's name, which stands behind them there.
    pub(crate) fn single_pairs(&self) -> [Pair; SINGLE_PAIRS]
        ensures { sent_pairs self.now.session (all_shown result) ≡
            in_order (single_offers (proposed self.now)) }
    {
        let mut pairs = [self.target_name(); SINGLE_PAIRS];
        pairs[..NEGOTIATED_KEYS].copy_from_slice(&self.operational_pairs());
        pairs[NEGOTIATED_KEYS] = self.initiator_name();
        pairs[NEGOTIATED_KEYS + 1] = self.session_type();
        match self.session {
            Session::Normal => put_in_order(&mut pairs),
            Session::Discovery => put_in_order(&mut pairs[..SINGLE_PAIRS - 1]),
        }
        pairs
    }

    // Who speaks.
    fn initiator_name(&self) -> Pair
        ensures { shown result ≡ (codes "InitiatorName", values.Plain self.now.initiator.now) }
    {
        Pair {
            key: b"InitiatorName",
            value: Value::Plain(self.initiator),
        }
    }

    // What the session is for.
    fn session_type(&self) -> Pair<'static>
        ensures { shown result ≡
            (codes "SessionType", values.Plain (session_name self.now.session)) }
    {
        Pair {
            key: b"SessionType",
            value: Value::Plain(session_name(self.session)),
        }
    }

    // To whom.
    fn target_name(&self) -> Pair
        ensures { shown result ≡ (codes "TargetName", values.Plain self.now.target.now) }
    {
        Pair {
            key: b"TargetName",
            value: Value::Plain(self.target),
        }
    }

    // A key with the preference for it.
    fn preferred(&self, key: NegKey) -> Pair<'static>
        ensures { shown result ≡ preferred_pair self.now.prefs key }
    {
        Pair {
            key: key.name(),
            value: answered_value(key.rule(), self.prefs.of(key)),
        }
    }

    // The most bytes that the initiator takes in one segment.
    fn max_recv(&self) -> Pair<'static>
        ensures { shown result ≡ max_recv_pair self.now.prefs }
    {
        Pair {
            key: b"MaxRecvDataSegmentLength",
            value: Value::Number(u64::from(self.prefs.max_recv)),
        }
    }
}

// How many pairs are in the one text of a login that starts in the operational stage: those of the
// stage, and who speaks to whom, and for what.
const SINGLE_PAIRS: usize = NEGOTIATED_KEYS + 3;

// Puts pairs of unlike keys in the byte order of their keys.
fn put_in_order(pairs: &mut [Pair])
    requires { all_new (all_shown pairs.old) ≡ true }
    ensures { all_shown pairs.new ≡ in_order (all_shown pairs.old) }
{
    pairs.sort_unstable_by_key(|pair| pair.key);
}

// The pairs but the last, the target's name, which a discovery session doesn't say.
pub(crate) fn said<'b, 'a>(pairs: &'b [Pair<'a>], session: Session) -> &'b [Pair<'a>]
    ensures { all_shown result.now ≡ sent_pairs session (all_shown pairs.now) }
{
    match session {
        Session::Normal => pairs,
        Session::Discovery => &pairs[..pairs.len().saturating_sub(1)],
    }
}

// The value of `SessionType`.
fn session_name(session: Session) -> &'static [u8]
    ensures { result.now ≡ session_name session }
{
    match session {
        Session::Normal => b"Normal",
        Session::Discovery => b"Discovery",
    }
}
