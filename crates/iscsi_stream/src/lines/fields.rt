//! The fields of a head as text: a blank, the name, `=` and the value in lower hex, for each field
//! that has a value. One file, since it is one table: a function for each kind of head.

ghost use Rattle.iscsi_pdu.specs.Meaning.{HeadFits};
ghost use Rattle.iscsi_pdu.specs.Fields as table;
ghost use Rattle.scsi_cdb.specs.Blocks as blocks;
ghost use Rattle.scsi_cdb.specs.Layout.{AreFilled};
ghost use Rattle.iscsi_stream.specs.Shown.{has_no_end};
ghost use Rattle.std.specs.Prelude.{◌≡◌, true};

use crate::lines::writing::Line;
use iscsi_pdu::{
    AsyncMessage, DataIn, DataOut, Head, LoginRequest, LoginResponse, LogoutRequest,
    LogoutResponse, NopIn, NopOut, ReadyToTransfer, Reject, ScsiCommand, ScsiResponse, TaskRequest,
    TaskResponse, TextRequest, TextResponse,
};

/// The name of a head's kind, behind a space.
pub(crate) fn kind(head: &Head) -> &'static str
    ensures one { has_no_end result.now ≡ true }
{
    match head {
        Head::NopOut(_) => " NOP-Out",
        Head::ScsiCommand(_) => " SCSI-Command",
        Head::TaskRequest(_) => " Task-Request",
        Head::LoginRequest(_) => " Login-Request",
        Head::TextRequest(_) => " Text-Request",
        Head::DataOut(_) => " Data-Out",
        Head::LogoutRequest(_) => " Logout-Request",
        Head::NopIn(_) => " NOP-In",
        Head::ScsiResponse(_) => " SCSI-Response",
        Head::TaskResponse(_) => " Task-Response",
        Head::LoginResponse(_) => " Login-Response",
        Head::TextResponse(_) => " Text-Response",
        Head::DataIn(_) => " Data-In",
        Head::LogoutResponse(_) => " Logout-Response",
        Head::ReadyToTransfer(_) => " R2T",
        Head::AsyncMessage(_) => " Async",
        Head::Reject(_) => " Reject",
    }
}

/// Appends the fields of a head to the line, in the order of the field table.
pub(crate) fn fields(line: &mut Line, head: &Head)
    requires { HeadFits head.now }
{
    match head {
        Head::NopOut(h) => nop_out(line, h),
        Head::ScsiCommand(h) => scsi_command(line, h),
        Head::TaskRequest(h) => task_request(line, h),
        Head::LoginRequest(h) => login_request(line, h),
        Head::TextRequest(h) => text_request(line, h),
        Head::DataOut(h) => data_out(line, h),
        Head::LogoutRequest(h) => logout_request(line, h),
        Head::NopIn(h) => nop_in(line, h),
        Head::ScsiResponse(h) => scsi_response(line, h),
        Head::TaskResponse(h) => task_response(line, h),
        Head::LoginResponse(h) => login_response(line, h),
        Head::TextResponse(h) => text_response(line, h),
        Head::DataIn(h) => data_in(line, h),
        Head::LogoutResponse(h) => logout_response(line, h),
        Head::ReadyToTransfer(h) => ready_to_transfer(line, h),
        Head::AsyncMessage(h) => async_message(line, h),
        Head::Reject(h) => reject(line, h),
    }
}

fn nop_out(line: &mut Line, h: &NopOut) {
    line.flag(" i=", h.immediate);
    line.unit_if(h.lun);
    line.word(" itt=", h.initiator_task_tag);
    line.word(" ttt=", h.target_transfer_tag);
    line.word(" cmdsn=", h.cmd_sn);
    line.word(" expstatsn=", h.exp_stat_sn);
}

fn scsi_command(line: &mut Line, h: &ScsiCommand)
    requires filled { AreFilled (table.scsi_command h.now) }
    requires block { blocks.CdbFits h.now.cdb }
{
    line.flag(" i=", h.immediate);
    line.flag(" f=", h.is_final);
    line.flag(" r=", h.read);
    line.flag(" w=", h.write);
    line.digit(" attr=", h.attribute);
    line.unit(h.lun);
    line.word(" itt=", h.initiator_task_tag);
    line.word(" edtl=", h.expected_data_transfer_length);
    line.word(" cmdsn=", h.cmd_sn);
    line.word(" expstatsn=", h.exp_stat_sn);
    line.whole(" cdb=", &h.cdb.write());
}

fn task_request(line: &mut Line, h: &TaskRequest) {
    line.flag(" i=", h.immediate);
    line.byte(" function=", h.function);
    line.unit(h.lun);
    line.word(" itt=", h.initiator_task_tag);
    line.word(" rtt=", h.referenced_task_tag);
    line.word(" cmdsn=", h.cmd_sn);
    line.word(" expstatsn=", h.exp_stat_sn);
    line.word(" refcmdsn=", h.ref_cmd_sn);
    line.word(" expdatasn=", h.exp_data_sn);
}

fn login_request(line: &mut Line, h: &LoginRequest)
    requires { AreFilled (table.login_request h.now) }
{
    line.flag(" t=", h.transits);
    line.flag(" c=", h.continues);
    line.digit(" csg=", h.current_stage);
    line.digit_if(" nsg=", h.next_stage);
    line.byte(" vmax=", h.version_max);
    line.byte(" vmin=", h.version_min);
    line.whole(" isid=", &h.isid);
    line.half(" tsih=", h.tsih);
    line.word(" itt=", h.initiator_task_tag);
    line.half(" cid=", h.connection_id);
    line.word(" cmdsn=", h.cmd_sn);
    line.word(" expstatsn=", h.exp_stat_sn);
}

fn text_request(line: &mut Line, h: &TextRequest) {
    line.flag(" i=", h.immediate);
    line.flag(" f=", h.is_final);
    line.flag(" c=", h.continues);
    line.unit_if(h.lun);
    line.word(" itt=", h.initiator_task_tag);
    line.word(" ttt=", h.target_transfer_tag);
    line.word(" cmdsn=", h.cmd_sn);
    line.word(" expstatsn=", h.exp_stat_sn);
}

fn data_out(line: &mut Line, h: &DataOut) {
    line.flag(" f=", h.is_final);
    line.unit_if(h.lun);
    line.word(" itt=", h.initiator_task_tag);
    line.word(" ttt=", h.target_transfer_tag);
    line.word(" expstatsn=", h.exp_stat_sn);
    line.word(" datasn=", h.data_sn);
    line.word(" offset=", h.buffer_offset);
}

fn logout_request(line: &mut Line, h: &LogoutRequest) {
    line.flag(" i=", h.immediate);
    line.byte(" reason=", h.reason);
    line.word(" itt=", h.initiator_task_tag);
    line.half_if(" cid=", h.connection_id);
    line.word(" cmdsn=", h.cmd_sn);
    line.word(" expstatsn=", h.exp_stat_sn);
}

fn nop_in(line: &mut Line, h: &NopIn) {
    line.unit_if(h.lun);
    line.word(" itt=", h.initiator_task_tag);
    line.word(" ttt=", h.target_transfer_tag);
    line.word(" statsn=", h.stat_sn);
    line.window(h.exp_cmd_sn, h.max_cmd_sn);
}

fn scsi_response(line: &mut Line, h: &ScsiResponse) {
    line.flag(" bo=", h.bidirectional_overflow);
    line.flag(" bu=", h.bidirectional_underflow);
    line.flag(" o=", h.overflow);
    line.flag(" u=", h.underflow);
    line.byte(" response=", h.response);
    line.byte_if(" status=", h.status);
    line.word(" itt=", h.initiator_task_tag);
    line.word(" statsn=", h.stat_sn);
    line.window(h.exp_cmd_sn, h.max_cmd_sn);
    line.word_if(" expdatasn=", h.exp_data_sn);
    line.word_if(" bresidual=", h.bidirectional_residual);
    line.word_if(" residual=", h.residual);
}

fn task_response(line: &mut Line, h: &TaskResponse) {
    line.byte(" response=", h.response);
    line.word(" itt=", h.initiator_task_tag);
    line.word(" statsn=", h.stat_sn);
    line.window(h.exp_cmd_sn, h.max_cmd_sn);
}

fn login_response(line: &mut Line, h: &LoginResponse)
    requires { AreFilled (table.login_response h.now) }
{
    line.flag(" t=", h.transits);
    line.flag(" c=", h.continues);
    line.digit(" csg=", h.current_stage);
    line.digit_if(" nsg=", h.next_stage);
    line.byte(" vmax=", h.version_max);
    line.byte(" vactive=", h.version_active);
    line.whole(" isid=", &h.isid);
    line.half(" tsih=", h.tsih);
    line.word(" itt=", h.initiator_task_tag);
    line.word_if(" statsn=", h.stat_sn);
    line.window(h.exp_cmd_sn, h.max_cmd_sn);
    line.byte(" class=", h.status_class);
    line.byte(" detail=", h.status_detail);
}

fn text_response(line: &mut Line, h: &TextResponse) {
    line.flag(" f=", h.is_final);
    line.flag(" c=", h.continues);
    line.unit_if(h.lun);
    line.word(" itt=", h.initiator_task_tag);
    line.word(" ttt=", h.target_transfer_tag);
    line.word(" statsn=", h.stat_sn);
    line.window(h.exp_cmd_sn, h.max_cmd_sn);
}

fn data_in(line: &mut Line, h: &DataIn) {
    line.flag(" f=", h.is_final);
    line.flag(" a=", h.acknowledge);
    line.flag_if(" o=", h.overflow);
    line.flag_if(" u=", h.underflow);
    line.flag(" s=", h.has_status);
    line.byte_if(" status=", h.status);
    line.unit_if(h.lun);
    line.word(" itt=", h.initiator_task_tag);
    line.word(" ttt=", h.target_transfer_tag);
    line.word_if(" statsn=", h.stat_sn);
    line.window(h.exp_cmd_sn, h.max_cmd_sn);
    line.word(" datasn=", h.data_sn);
    line.word(" offset=", h.buffer_offset);
    line.word_if(" residual=", h.residual);
}

fn logout_response(line: &mut Line, h: &LogoutResponse) {
    line.byte(" response=", h.response);
    line.word(" itt=", h.initiator_task_tag);
    line.word(" statsn=", h.stat_sn);
    line.window(h.exp_cmd_sn, h.max_cmd_sn);
    line.half(" time2wait=", h.time2wait);
    line.half(" time2retain=", h.time2retain);
}

fn ready_to_transfer(line: &mut Line, h: &ReadyToTransfer) {
    line.unit(h.lun);
    line.word(" itt=", h.initiator_task_tag);
    line.word(" ttt=", h.target_transfer_tag);
    line.word(" statsn=", h.stat_sn);
    line.window(h.exp_cmd_sn, h.max_cmd_sn);
    line.word(" r2tsn=", h.r2t_sn);
    line.word(" offset=", h.buffer_offset);
    line.word(" length=", h.desired_data_transfer_length);
}

fn async_message(line: &mut Line, h: &AsyncMessage) {
    line.unit_if(h.lun);
    line.word(" statsn=", h.stat_sn);
    line.window(h.exp_cmd_sn, h.max_cmd_sn);
    line.byte(" event=", h.async_event);
    line.byte(" vcode=", h.async_vendor_code);
    line.half(" p1=", h.parameter1);
    line.half(" p2=", h.parameter2);
    line.half(" p3=", h.parameter3);
}

fn reject(line: &mut Line, h: &Reject) {
    line.byte(" reason=", h.reason);
    line.word(" statsn=", h.stat_sn);
    line.window(h.exp_cmd_sn, h.max_cmd_sn);
}
