//! Laws of the negotiation: functions with no work, whose contracts are of the definitions alone.

ghost use Rattle.std.specs.Prelude.{◌≡◌, ℕ, Option, map, IfSome, ◌<◌, ◌^◌};
ghost use Rattle.iscsi_text.specs.Value.{Typed};
ghost use Rattle.iscsi_text.specs.Text.{Pairs, ArrangesPairs, HasNo, IsMeaning, values_of};
ghost use Rattle.iscsi_text.specs.declared.negotiated.NegKey.{NegKey};
ghost use Rattle.iscsi_text.specs.declared.negotiated.Session.{Session};
ghost use Rattle.iscsi_login.specs.declared.preferences.Preferences.{Preferences};
ghost use Rattle.iscsi_text.specs.Negotiated.{name_of, IsWithin};
ghost use Rattle.iscsi_login.specs.Negotiation.{ArePreferencesInRange, IsLegal, max_recv_range};
ghost use Rattle.iscsi_login.specs.Held.{Held};
ghost use Rattle.iscsi_login.specs.Answer.{answer_to, held_by_target, held_by_initiator, declared_max_recv, answer, initiator_holds, target_holds};
ghost use Rattle.iscsi_text.specs.Reading.{in_order};
ghost use Rattle.iscsi_login.specs.Offers.{Proposal, security_offers, operational_offers, single_offers};
ghost use Rattle.iscsi_login.specs.Check.{IsOffer, IsGoodAnswer, bad_key};

/// Whatever is offered of a key, the answer of a target with preferences in range is legal, and
/// after it both ends hold the same value. That is so in a session of either kind.
pub fn agreement()
    ensures legal { (session : Session) (p : Preferences) → ArePreferencesInRange p →
        (key : NegKey) (offer : Typed) → IsLegal key offer (answer_to session p key offer) }
    ensures agree { (session : Session) (p : Preferences) → ArePreferencesInRange p →
        (key : NegKey) (offer : Typed) →
        held_by_initiator key (answer_to session p key offer) ≡ held_by_target session p key offer }
{}

/// The answer has one value of a negotiated key for each that the text gives.
pub fn each_offer_is_answered()
    ensures each { (session : Session) (p : Preferences) (tag max_recv : Option ℕ)
        (given : Pairs) (key : NegKey) →
        values_of (name_of key) (answer session p tag max_recv given) ≡
        map (answer_to session p key) (values_of (name_of key) given) }
{}

/// Pairs have one order.
pub fn order()
    ensures one { (pairs arranged : Pairs) → ArrangesPairs pairs arranged → arranged
        ≡ in_order pairs }
{}

/// After a text and the target's answer to it both ends hold the same of each key and declaration,
/// if they did before.
pub fn texts_agree()
    ensures agree { (session : Session) (p : Preferences) → ArePreferencesInRange p →
        (tag max_recv : Option ℕ) (given : Pairs) (held : Held) →
        initiator_holds (declared_max_recv given) (answer session p tag max_recv given) held ≡
        target_holds session p max_recv given held }
{}

/// The target's answer to what an initiator says has one legal answer to each negotiated key, and
/// no key that the initiator refuses.
pub fn answer_is_good()
    ensures good { (session : Session) (p : Preferences) → ArePreferencesInRange p →
        (tag max_recv : Option ℕ) → IfSome max_recv (IsWithin max_recv_range) →
        (offered : Pairs) → IsOffer offered →
        IsGoodAnswer offered (answer session p tag max_recv offered) }
{}

/// An initiator takes the good answers to what it says, and no others: it finds a key for which to
/// refuse an answer exactly where the answer isn't good.
pub fn judged_answers()
    ensures good { (offered answer : Pairs) → IsOffer offered → IsMeaning answer →
        bad_key offered answer ≡ None → IsGoodAnswer offered answer }
    ensures taken { (offered answer : Pairs) → IsGoodAnswer offered answer →
        bad_key offered answer ≡ None }
{}

/// The target's answer to what an initiator says is one that the initiator takes.
pub fn answer_is_taken()
    ensures taken { (session : Session) (p : Preferences) → ArePreferencesInRange p →
        (tag max_recv : Option ℕ) → IfSome max_recv (IsWithin max_recv_range) →
        (offered : Pairs) → IsOffer offered →
        bad_key offered (answer session p tag max_recv offered) ≡ None }
{}

/// The answer to what a text means is what a text means.
pub fn answer_is_text()
    ensures meaning { (session : Session) (p : Preferences) → ArePreferencesInRange p →
        (tag max_recv : Option ℕ) →
        IfSome tag (λ n. n < 2 ^ 64) → IfSome max_recv (λ n. n < 2 ^ 64) →
        (given : Pairs) → IsMeaning given → IsMeaning (answer session p tag max_recv given) }
{}

/// The three texts of an initiator offer each key once, and no keys but those of an initiator.
pub fn texts_are_offers()
    ensures security { (o : Proposal) → IsOffer (in_order (security_offers o)) }
    ensures operational { (o : Proposal) → IsOffer (in_order (operational_offers o)) }
    ensures single { (o : Proposal) → IsOffer (in_order (single_offers o)) }
{}

/// The three texts of an initiator are what some text means, where its names have no byte 0.
pub fn offers_are_texts()
    ensures security { (o : Proposal) → HasNo 0 o.initiator → HasNo 0 o.target →
        IsMeaning (in_order (security_offers o)) }
    ensures operational { (o : Proposal) → ArePreferencesInRange o.prefs →
        IsMeaning (in_order (operational_offers o)) }
    ensures single { (o : Proposal) → HasNo 0 o.initiator → HasNo 0 o.target
        → ArePreferencesInRange o.prefs →
        IsMeaning (in_order (single_offers o)) }
{}
