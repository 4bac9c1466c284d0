//! Which login PDU continues another.

ghost use Rattle.std.specs.Prelude.{◌≡◌};
ghost use Rattle.iscsi_stream.specs.Segment.{no_login, continues, logins_after};

use iscsi_pdu::Head;

/// What the last login PDU of each kind said: whether its text goes on in the next one of the kind
/// (RFC 7143, section 11.12.2, the C bit).
#[derive(Clone, Copy, Debug, PartialEq, Eq)]
pub struct Logins {
    /// The last Login Request is continued.
    pub request: bool,
    /// The last Login Response is continued.
    pub response: bool,
}

impl Logins {
    /// Before any login PDU nothing is continued.
    pub fn new() -> Logins
        ensures { result ≡ no_login }
    {
        Logins {
            request: false,
            response: false,
        }
    }

    /// Whether a PDU with this head continues another.
    #[tactic(auto, unfolding(crate::specs::Segment::continues))]
    pub fn continues(self, head: &Head) -> bool
        ensures { result ≡ continues self head.now }
    {
        match head {
            Head::LoginRequest(_) => self.request,
            Head::LoginResponse(_) => self.response,
            _ => false,
        }
    }

    /// What the login PDUs say once one with this head is among them.
    #[tactic(auto, unfolding(crate::specs::Segment::logins_after))]
    pub fn after(self, head: &Head) -> Logins
        ensures { result ≡ logins_after self head.now }
    {
        match head {
            Head::LoginRequest(request) => Logins {
                request: request.continues,
                ..self
            },
            Head::LoginResponse(response) => Logins {
                response: response.continues,
                ..self
            },
            _ => self,
        }
    }
}
