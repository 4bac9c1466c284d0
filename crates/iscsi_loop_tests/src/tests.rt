//! Scripts, and the lines that they write: worked out by hand from SPC-4, SBC-3 and the table of lines.

mod loops;
