//! The checks on a PDU in full feature phase, in the order in which they are made (RFC 7143,
//! sections 4.2 and 11).

ghost use Rattle.std.specs.Prelude.{◌≡◌, ◌<◌, None, Some, nat_lt, false};
ghost use Rattle.iscsi_pdu.specs.Serial.{is_within};
ghost use Rattle.iscsi_stream.specs.Stream.{Message};
ghost use Rattle.iscsi_target_session.specs.Inbound.{IsRequest};
ghost use Rattle.iscsi_target_session.specs.LoginText.{is_normal};
ghost use Rattle.iscsi_target_session.specs.declared.inbound.Inbound.TheVariants.{Request};
ghost use Rattle.iscsi_target.specs.State.{max_cmd_sn};
ghost use Rattle.iscsi_target.specs.Command.{breaks_rules, presented};
ghost use Rattle.iscsi_target.specs.Machine.{is_tag_of, may_ask, may_come, immediate_request, request_in_turn, due_met, full_met};
ghost use Rattle.iscsi_target.specs.inner.Inside.{IsChecked, rule_at_acceptance};

use super::Machine;
use crate::admission::Admission;
use iscsi_login::Session as SessionType;
use iscsi_pdu::Serial;
use iscsi_pdu::rule::{COMMAND_OUT_OF_TURN, DATA_OUT_OF_ORDER, KIND_NOT_DUE, SEGMENT_TOO_LONG};
use iscsi_target_session::{Asks, Inbound, InboundRequest, Received, SessionRequest};

impl Machine {
    // The checks on a PDU: whether it may come, then its length, and then its CmdSN.
    pub(super) fn check(&self, received: &Received<'_>) -> Admission
        ensures { IsChecked self.now received.now (λ count. full_met self.now count received.now)
            result }
    {
        let Some(pdu) = Inbound::of(&received.pdu.head) else {
            return Admission::Breaks(KIND_NOT_DUE);
        };
        if !self.may_come(&pdu) {
            return Admission::Breaks(KIND_NOT_DUE);
        }
        if self.is_too_long(received.pdu.bytes.len()) {
            return Admission::Breaks(SEGMENT_TOO_LONG);
        }
        match pdu {
            Inbound::Data(head) => Admission::Data(head),
            Inbound::Request(request) => self.check_request(request),
        }
    }

    // Whether a session of this type takes it.
    fn may_come(&self, pdu: &Inbound) -> bool
        ensures { result ≡ may_come self.now.session.session_type pdu.now }
    {
        match pdu {
            Inbound::Request(request) => self.may_ask(&request.asks),
            Inbound::Data(_) => self.is_normal(),
        }
    }

    // Whether a session of this type takes a request that asks for this.
    fn may_ask(&self, asks: &Asks) -> bool
        ensures { result ≡ may_ask self.now.session.session_type asks.now }
    {
        match asks {
            Asks::Command(_) | Asks::Session(SessionRequest::Task(_)) => self.is_normal(),
            Asks::Session(_) => true,
        }
    }

    // Whether the session is not one of discovery.
    pub(super) fn is_normal(&self) -> bool
        ensures { result ≡ is_normal self.now.session.session_type }
    {
        matches!(self.session.session_type(), SessionType::Normal)
    }

    // A request that may come.
    fn check_request(&self, request: InboundRequest) -> Admission
        ensures { (m : Message) → IsRequest request m.head → IsChecked self.now m
            (λ count. due_met self.now count m (Request request)) result }
    {
        if request.immediate {
            self.check_immediate(request)
        } else {
            self.check_in_turn(request)
        }
    }

    // An immediate request, which becomes no task while there is one.
    fn check_immediate(&self, request: InboundRequest) -> Admission
        ensures { (m : Message) → IsRequest request m.head
            → IsChecked self.now m (λ count. immediate_request self.now (presented count m request))
            result }
    {
        if self.tasks.len() > 0 {
            Admission::Beside(request)
        } else {
            Admission::AtOnce(request)
        }
    }

    // A request with its place in the order of commands; outside the window it is dropped.
    fn check_in_turn(&self, request: InboundRequest) -> Admission
        requires { request.immediate ≡ false }
        ensures { (m : Message) → IsRequest request m.head
            → IsChecked self.now m (λ count. request_in_turn self.now (presented count m request))
            result }
    {
        if !self.is_within(request.cmd_sn) {
            return Admission::Outside;
        }
        if request.cmd_sn != self.numbers().exp_cmd_sn {
            return Admission::Breaks(COMMAND_OUT_OF_TURN);
        }
        Admission::InTurn(request)
    }

    // Whether a segment of `n` bytes is longer than the target declared.
    pub(super) fn is_too_long(&self, len: usize) -> bool
        ensures { result ≡ nat_lt self.now.session.held.target_max_recv len }
    {
        len > self.session.held().target_max_recv as usize
    }

    // Whether a CmdSN is within the window.
    fn is_within(&self, cmd_sn: u32) -> bool
        ensures { result ≡ is_within cmd_sn self.now.session.exp_cmd_sn (max_cmd_sn self.now) }
    {
        let numbers = self.numbers();
        Serial(cmd_sn).within(Serial(numbers.exp_cmd_sn), Serial(numbers.max_cmd_sn))
    }

    // The rule that a request breaks as it is accepted, if it breaks one.
    pub(super) fn refusal(&self, request: &InboundRequest, received: &Received<'_>) -> Option<u8>
        requires { IsRequest request.now received.now.head }
        ensures { result ≡ rule_at_acceptance self.now received.now request.now }
    {
        if self.has_tag(request.initiator_task_tag) {
            return Some(KIND_NOT_DUE);
        }
        if self.breaks_rules(&request.asks, received.pdu.bytes.len()) {
            return Some(DATA_OUT_OF_ORDER);
        }
        None
    }

    // Whether a task has this tag.
    pub(super) fn has_tag(&self, initiator_task_tag: Option<u32>) -> bool
        ensures { result ≡ is_tag_of self.now.tasks initiator_task_tag }
    {
        match initiator_task_tag {
            Some(tag) => self.tasks.has_tag(tag),
            None => false,
        }
    }

    // Whether a request with `n` bytes breaks the rules of the first burst.
    fn breaks_rules(&self, asks: &Asks, len: usize) -> bool
        ensures { result ≡ breaks_rules self.now.session.held len asks.now }
    {
        match asks {
            Asks::Command(command) => self.breaks_burst_rules(command, len),
            Asks::Session(_) => false,
        }
    }
}
