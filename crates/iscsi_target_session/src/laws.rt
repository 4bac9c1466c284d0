//! Laws of a session: functions that do nothing, whose contracts are the theorems.

ghost use Rattle.std.specs.Prelude.{◌≡◌, ◌<◌, ◌≤◌, ◌^◌, IfSome, Some, None, length};
ghost use Rattle.scsi_disk.specs.Plan.{first_reason};
ghost use Rattle.iscsi_text.specs.Text.{Pairs};
ghost use Rattle.iscsi_text.specs.Canonical.{canonical_text};
ghost use Rattle.iscsi_pdu.specs.declared.head.login_request.LoginRequest.{LoginRequest};
ghost use Rattle.iscsi_login.specs.Name.{IsName};
ghost use Rattle.iscsi_portal.specs.Portal.{IsPortal};
ghost use Rattle.iscsi_target_session.specs.Configured.{TargetSettings};
ghost use Rattle.iscsi_target_session.specs.Session.{Session};
ghost use Rattle.iscsi_target_session.specs.LoginText.{negotiated_as, session_for, text_refusals};
ghost use Rattle.iscsi_target_session.specs.Login.{refuse_or, pairs_answered, whole_text};
ghost use Rattle.iscsi_target_session.specs.TextRequests.{announced, reply_pairs, reply_text};

/// Where CHAP is not demanded, nothing in a login looks at it: a text is refused for what it says, or
/// each of its pairs is answered, and the stage moves where the request asks for that.
pub fn open_text()
    ensures same { (s : Session) (r : LoginRequest) (pairs : Pairs)
        → s.settings.extras.chap ≡ None → whole_text s r (Some pairs)
        ≡ refuse_or (first_reason (text_refusals s pairs)) s r (pairs_answered s r pairs) }
{}

/// Where no portal is told, nothing looks for one: a text is answered in the order of its keys, and keys are
/// negotiated as the session's type has it.
pub fn no_portal()
    ensures text { (settings : TargetSettings) (pairs : Pairs) → settings.extras.portal ≡ None
        → reply_text settings pairs ≡ canonical_text (reply_pairs settings.name pairs) }
    ensures keys { (s : Session) (pairs : Pairs) → s.settings.extras.portal ≡ None
        → negotiated_as s pairs ≡ session_for s pairs }
{}

/// What is told of a target has 511 bytes at most. So it goes into the shortest segment that an initiator
/// may ask for, which has 512 (RFC 7143, section 13.12).
pub fn what_is_told_is_short()
    ensures short { (settings : TargetSettings) → IsName settings.name
        → IfSome settings.extras.portal IsPortal → settings.group < 2 ^ 16
        → length (announced settings) ≤ 511 }
{}
