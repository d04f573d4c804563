//! Comments: what stands in one reads as blanks.

ghost use Rattle.std.specs.Prelude.{◌≡◌, ◌+◌, ◌≤◌, if◌then◌else◌, length, fold, string_bytes, IfOk};
ghost use Rattle.ps_model.specs.declared.limits.TheConstants.{TEXT_LIMIT};
ghost use Rattle.ps_model.specs.text.Lines as lines;
ghost use Rattle.ps_text.specs.PlainLines.{IsPlain};

use ps_model::Memory;
use std::alloc::Global;

/// Whether the byte stands in a comment, its parentheses among it, where `depth` comments are open before it.
fn is_in_comment(depth: u32, byte: u8) -> bool
    ensures { result ≡ lines.in_comment depth byte }
{
    depth > 0 || byte == b'('
}

/// The byte, or a blank if it stands in a comment.
fn plain_byte(depth: u32, byte: u8) -> u8
    ensures { result ≡ if lines.in_comment depth byte then 32 else byte }
{
    if is_in_comment(depth, byte) {
        return b' ';
    }
    byte
}

/// How many comments are open after the byte, where `depth` are before it.
fn depth_after(depth: u32, byte: u8) -> u32
    requires { depth ≤ TEXT_LIMIT }
    ensures depth { result ≡ lines.depth_behind depth byte }
    ensures most { result ≤ depth + 1 }
{
    if byte == b'(' {
        return depth + 1;
    }
    if byte == b')' {
        return depth.saturating_sub(1);
    }
    depth
}

/// How many comments are open after the line, where `depth` are before it.
pub fn depth_after_line(line: &[u8], depth: u32) -> u32
    requires { depth + length line.now ≤ TEXT_LIMIT }
    ensures depth { result ≡ fold lines.depth_behind depth line.now }
    ensures most { result ≤ depth + length line.now }
{
    let mut open = depth;
    for byte in line {
        open = depth_after(open, *byte);
    }
    open
}

/// The line's bytes with a blank for each that stands in a comment, where `depth` comments are open before it.
fn plain_bytes(alloc: Global, line: &[u8], depth: u32) -> Result<Vec<u8>, Memory>
    requires { depth + length line.now ≤ TEXT_LIMIT }
    ensures { IfOk result (λ plain. plain.items ≡ lines.without_comments depth line.now) }
{
    let mut plain = Vec::with_capacity(alloc, line.len())?;
    let mut open = depth;
    for byte in line {
        plain.push(plain_byte(open, *byte))?;
        open = depth_after(open, *byte);
    }
    Ok(plain)
}

/// The line with a blank for each byte that stands in a comment, where `depth` comments are open before it.
pub fn plain_line(alloc: Global, line: &str, depth: u32) -> Result<String, Memory>
    requires { depth + length line.now ≤ TEXT_LIMIT }
    ensures bytes { IfOk result (λ plain. string_bytes plain ≡ lines.without_comments depth line.now) }
    ensures plain { IfOk result (λ plain. IsPlain line.now (string_bytes plain)) }
{
    let bytes = plain_bytes(alloc, line.as_bytes(), depth)?;
    match String::from_utf8(bytes) {
        Ok(plain) => Ok(plain),
        Err(_) => unreachable!(),
    }
}
