//! The answer to a Text Request (RFC 7143, sections 11.10 and 11.11, and appendix C).

ghost use Rattle.std.specs.Prelude.{◌≡◌, ◌<◌, ◌+◌, ◌++◌, ◌∷◌, [], true, length, drop, codes, OnOk, IfOk};
ghost use Rattle.iscsi_text.specs.Numeral.{canonical_number};
ghost use Rattle.iscsi_text.specs.Canonical.{canonical_text};
ghost use Rattle.iscsi_text.specs.Value.{Plain};
ghost use Rattle.iscsi_text.specs.Text.{IsInOrder};
ghost use Rattle.iscsi_text.specs.Shown.{all_shown};
ghost use Rattle.iscsi_text.specs.Reading.{placed};
ghost use Rattle.iscsi_target_session.specs.TextRequests.{on_text_request, is_asked, word_for, replies, name_if, reply_pairs, reply_text};
ghost use Rattle.iscsi_target_session.specs.Replies.{ReplyPost};
ghost use Rattle.iscsi_target_session.specs.inner.Inside.{has_first, has_reply, shown_option, announced_text, told_text};

use super::Session;
use crate::config::Config;
use crate::received::Received;
use iscsi_pdu::rule::TEXT_AT_FAULT;
use iscsi_pdu::{Head, RESERVED_TAG, TextRequest, TextResponse};
use iscsi_portal::Portal;
use iscsi_text::{Pair, Text, Value, key_kind, read_text, write_number, write_pairs};
use std::alloc::{AllocError, Global};

const TARGET_NAME: &[u8] = b"TargetName";

impl Session {
    // A Text Request, which has to be whole. Returns the rule that is broken, if one is.
    pub(super) fn text_request(
        &mut self,
        waiting: u32,
        request: &TextRequest,
        bytes: &[u8],
        received: &Received<'_>,
        out: &mut Vec<u8>,
    ) -> Result<Option<u8>, AllocError>
        ensures { ReplyPost (on_text_request self.old waiting received.now request.now bytes.now)
            result
            self.old self.new out.old.items out.new.items }
    {
        if !request.is_final || request.continues || request.target_transfer_tag != RESERVED_TAG {
            return self.reject_and_close(waiting, TEXT_AT_FAULT, received, out);
        }
        let alloc = *out.allocator();
        let Some(text) = read_text(alloc, bytes)? else {
            return self.reject_and_close(waiting, TEXT_AT_FAULT, received, out);
        };
        let reply = reply_text(alloc, &self.config, &text)?;
        if reply.len() > self.held.initiator_max_recv as usize {
            return self.reject_and_close(waiting, TEXT_AT_FAULT, received, out);
        }
        let numbers = self.numbers(waiting);
        let head = Head::TextResponse(TextResponse {
            is_final: true,
            continues: false,
            lun: None,
            initiator_task_tag: request.initiator_task_tag,
            target_transfer_tag: RESERVED_TAG,
            stat_sn: numbers.stat_sn,
            exp_cmd_sn: numbers.exp_cmd_sn,
            max_cmd_sn: numbers.max_cmd_sn,
        });
        self.send_response(&head, &reply, out)
    }
}

// The text that answers a text: what is announced stands in front.
fn reply_text(alloc: Global, config: &Config, text: &Text<'_>) -> Result<Vec<u8>, AllocError>
    ensures { IfOk result (λ bytes. bytes.items ≡ reply_text config.now text.now) }
{
    let name = config.name();
    match config.portal() {
        Some(portal) => told_text(alloc, name, portal, config.group(), text),
        None => sorted_text(alloc, name, text),
    }
}

// The same of a target with this portal.
fn told_text(
    alloc: Global,
    name: &[u8],
    portal: &Portal,
    group: u16,
    text: &Text<'_>,
) -> Result<Vec<u8>, AllocError>
    ensures { IfOk result
        (λ bytes. bytes.items ≡ told_text name.now portal.now group text.now) }
{
    if is_asked(name, text) {
        return announced_text(alloc, name, portal, group, text);
    }
    sorted_text(alloc, name, text)
}

// The target's name, the address of its portal, and the answers to the other keys.
fn announced_text(
    alloc: Global,
    name: &[u8],
    portal: &Portal,
    group: u16,
    text: &Text<'_>,
) -> Result<Vec<u8>, AllocError>
    ensures { IfOk result
        (λ bytes. bytes.items ≡ announced_text name.now portal.now group text.now) }
{
    // Opens the invariant.
    let _len = text.len();
    let pairs = replies(alloc, true, text)?;
    let address = address_of(alloc, portal, group)?;
    let mut told = Vec::new(alloc);
    write_name(name, &mut told)?;
    write_address(&address, &mut told)?;
    write_pairs(&pairs, &mut told)?;
    Ok(told)
}

// The address of a portal, and behind a comma the tag of its group.
fn address_of(alloc: Global, portal: &Portal, group: u16) -> Result<Vec<u8>, AllocError>
    ensures { IfOk result (λ address. address.items
        ≡ portal.now ++ codes "," ++ canonical_number group) }
{
    let mut address = portal.as_bytes().to_vec(alloc)?;
    address.push(b',')?;
    write_number(u64::from(group), &mut address)?;
    Ok(address)
}

// Appends the address of a portal.
fn write_address(address: &[u8], out: &mut Vec<u8>) -> Result<(), AllocError>
    ensures { OnOk result (out.new.items ≡ out.old.items
        ++ canonical_text ((codes "TargetAddress", Plain address.now) ∷ [])) }
{
    let pair = Pair {
        key: b"TargetAddress",
        value: Value::Plain(address),
    };
    write_pairs(&[pair], out)
}

// The canonical text of the answers of the target of this name, in the order of their keys.
fn sorted_text(alloc: Global, name: &[u8], text: &Text<'_>) -> Result<Vec<u8>, AllocError>
    ensures { IfOk result (λ bytes. bytes.items
        ≡ canonical_text (reply_pairs name.now text.now)) }
{
    // Opens the invariant.
    let _len = text.len();
    if is_asked(name, text) {
        let pairs = replies(alloc, true, text)?;
        return named_text(alloc, name, &pairs);
    }
    let pairs = replies(alloc, false, text)?;
    let mut out = Vec::new(alloc);
    write_pairs(&pairs, &mut out)?;
    Ok(out)
}

// The canonical text of these pairs and the target's name.
fn named_text(alloc: Global, name: &[u8], pairs: &[Pair<'_>]) -> Result<Vec<u8>, AllocError>
    requires { IsInOrder (all_shown pairs.now) }
    ensures { IfOk result (λ bytes. bytes.items
        ≡ canonical_text (placed (codes "TargetName", Plain name.now) (all_shown pairs.now))) }
{
    let at = pairs.partition_point(|pair| !TARGET_NAME.cmp(&pair.key).is_le());
    let mut out = Vec::new(alloc);
    write_pairs(&pairs[..at], &mut out)?;
    write_name(name, &mut out)?;
    write_pairs(&pairs[at..], &mut out)?;
    Ok(out)
}

// Appends the target's name.
fn write_name(name: &[u8], out: &mut Vec<u8>) -> Result<(), AllocError>
    ensures { OnOk result (out.new.items ≡ out.old.items
        ++ canonical_text (name_if true name.now)) }
{
    let pair = Pair {
        key: TARGET_NAME,
        value: Value::Plain(name),
    };
    write_pairs(&[pair], out)
}

// Whether the text asks for the target of this name.
fn is_asked(name: &[u8], text: &Text<'_>) -> bool
    ensures { result ≡ is_asked name.now text.now }
{
    match text.get(b"SendTargets", 0) {
        Some(Value::Plain(asked)) => asked == b"All".as_slice()
            || asked.is_empty()
            || asked == name,
        _ => false,
    }
}

// The answers to the keys of a text, one for a key that stands again.
fn replies<'a>(alloc: Global, asked: bool, text: &Text<'a>) -> Result<Vec<Pair<'a>>, AllocError>
    ensures { IfOk result (λ pairs. all_shown pairs.items ≡ replies asked text.now) }
{
    let mut pairs = Vec::new(alloc);
    for n in 0..text.len() {
        if let Some(pair) = reply_at(text, n, n + 1, asked) {
            pairs.push(pair)?;
        }
    }
    Ok(pairs)
}

// The answer to the key at this place, before the next one, if it has one there.
fn reply_at<'a>(text: &Text<'a>, n: usize, next: usize, asked: bool) -> Option<Pair<'a>>
    requires next { next ≡ n + 1 }
    requires inside { n < length text.now }
    ensures { shown_option result ++ replies asked (drop next text.now)
        ≡ replies asked (drop n text.now) }
{
    // Opens the invariant.
    let _len = text.len();
    let Some((key, _)) = text.pair(n) else {
        return None;
    };
    if stands_next(text, next, key) {
        return None;
    }
    if !has_reply(asked, key) {
        return None;
    }
    Some(Pair {
        key,
        value: Value::Plain(word_for(key)),
    })
}

// Whether the pair at this place has the key.
fn stands_next(text: &Text<'_>, n: usize, key: &[u8]) -> bool
    ensures { result ≡ has_first key.now (drop n text.now) }
{
    match text.pair(n) {
        Some((next, _)) => next == key,
        None => false,
    }
}

// Whether a key has an answer of its own.
fn has_reply(asked: bool, key: &[u8]) -> bool
    ensures { result ≡ has_reply asked key.now }
{
    key != b"SendTargets".as_slice() && !(asked && key == b"TargetName".as_slice())
}

// The word that answers a key outside a login.
fn word_for(key: &[u8]) -> &'static [u8]
    ensures { result.now ≡ word_for key.now }
{
    if key_kind(key).is_some() {
        b"Reject"
    } else {
        b"NotUnderstood"
    }
}
