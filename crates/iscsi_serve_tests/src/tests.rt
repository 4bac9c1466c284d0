//! Sessions of a target. Streams are worked out by hand from RFC 7143 and the rules of the profile.
//! They have a line for each PDU, with its header in hex and, behind an apostrophe, the text of its
//! segment. In the text `|` stands for a byte 00. The padding is left out.

mod access;
mod serving;
mod streams;
mod syncs;
