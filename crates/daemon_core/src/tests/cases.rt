//! The notation of chains.
//!
//! A line of a table is a chain of request 7 and what answers it: `what; opcode; node; room; error;
//! body; reply`. The error is its number, or 0, and the reply is what follows its header; where there
//! is no room, no bytes answer it. Where `bytes` stands for the opcode, body and reply are the whole
//! readable part and the whole answer.
//!
//! Body and reply are parts one after another: `dN` is N in four bytes, `qN` in eight, `zN` is N
//! zeros, and `x` goes before bytes in hexadecimal.

use fuse_wire::InHeader;
use std::alloc::{AllocError, Global};
use test_bytes::bytes_of;

/// A line of a table.
#[derive(Drop)]
pub struct Case {
    pub readable: Vec<u8>,
    pub room: u32,
    /// The error, or what stands in its place.
    pub number: u64,
    pub due: Vec<u8>,
}

impl Case {
    pub fn of(alloc: Global, line: &str) -> Result<Case, AllocError> {
        let (_, rest) = cut(line);
        let (opcode, rest) = cut(rest);
        let (node, rest) = cut(rest);
        let (room, rest) = cut(rest);
        let (error, rest) = cut(rest);
        let (body, reply) = cut(rest);
        let room = small(room);
        let number = number(error);
        if opcode == "bytes" {
            return Ok(Case {
                readable: parts_of(alloc, body)?,
                room,
                number,
                due: parts_of(alloc, reply.trim())?,
            });
        }
        Ok(Case {
            readable: request(alloc, opcode, node, body)?,
            room,
            number,
            due: answer(alloc, room, number, reply.trim())?,
        })
    }
}

fn request(alloc: Global, opcode: &str, node: &str, body: &str) -> Result<Vec<u8>, AllocError> {
    let body = parts_of(alloc, body)?;
    let header = InHeader {
        len: u32::try_from(body.len()).unwrap_or(0).saturating_add(40),
        opcode: small(opcode),
        unique: 7,
        nodeid: number(node),
        uid: 0,
        gid: 0,
        pid: 0,
        total_extlen: 0,
    };
    let mut readable = Vec::from_slice(alloc, &header.put())?;
    readable.extend_from_slice(&body)?;
    Ok(readable)
}

fn answer(alloc: Global, room: u32, error: u64, reply: &str) -> Result<Vec<u8>, AllocError> {
    if room == 0 {
        return Ok(Vec::new(alloc));
    }
    let reply = parts_of(alloc, reply)?;
    let len = u8::try_from(reply.len()).unwrap_or(0).saturating_add(16);
    let sign = if error == 0 { 0 } else { 255 };
    let error = 0u8.wrapping_sub(u8::try_from(error).unwrap_or(0));
    let head = [
        len, 0, 0, 0, error, sign, sign, sign, 7, 0, 0, 0, 0, 0, 0, 0,
    ];
    let mut due = Vec::from_slice(alloc, &head)?;
    due.extend_from_slice(&reply)?;
    Ok(due)
}

/// A line's next field, and the fields after it.
pub fn cut(line: &str) -> (&str, &str) {
    match line.split_once(';') {
        Some((field, rest)) => (field.trim(), rest),
        None => (line.trim(), ""),
    }
}

pub fn number(text: &str) -> u64 {
    text.parse().unwrap_or(0)
}

fn small(text: &str) -> u32 {
    text.parse().unwrap_or(0)
}

fn parts_of(alloc: Global, parts: &str) -> Result<Vec<u8>, AllocError> {
    let mut out = Vec::new(alloc);
    for part in parts.split(' ') {
        put_part(alloc, &mut out, part)?;
    }
    Ok(out)
}

fn put_part(alloc: Global, out: &mut Vec<u8>, part: &str) -> Result<(), AllocError> {
    if let Some(n) = part.strip_prefix('d') {
        out.extend_from_slice(&number(n).to_le_bytes()[..4])
    } else if let Some(n) = part.strip_prefix('q') {
        out.extend_from_slice(&number(n).to_le_bytes())
    } else if let Some(n) = part.strip_prefix('z') {
        out.extend_from_slice(&[0; 160][..number(n).min(160) as usize])
    } else {
        out.append(&mut bytes_of(alloc, part)?)
    }
}
