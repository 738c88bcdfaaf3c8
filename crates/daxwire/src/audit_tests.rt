use crate::audit_table::{CASES, RUNS};
use crate::tables::{SURE, ran};
use plain_file::{Blob, List};
use program_io::Status;
use std::alloc::Global;
use std::test::Fail;

// Adds a text in which `/` stands for the end of a line.
fn put_lines(out: &mut Vec<u8>, text: &[u8]) -> Result<(), Fail> {
    for byte in text.iter().copied() {
        out.push(if byte == b'/' { b'\n' } else { byte })?;
    }
    Ok(())
}

// Adds a text with the piece `OLD>NEW` replaced where it stands first.
fn put_replaced(out: &mut Vec<u8>, text: &[u8], piece: &str) -> Result<(), Fail> {
    let (old, new) = piece.split_once('>').unwrap_or(("", ""));
    let mut wanted = !old.is_empty();
    let mut skip = 0usize;
    for at in 0..text.len() {
        if wanted && text[at..].starts_with(old.as_bytes()) {
            out.extend_from_slice(new.as_bytes())?;
            skip = old.len();
            wanted = false;
        }
        if skip == 0 {
            out.push(text[at])?;
        }
        skip = skip.saturating_sub(1);
    }
    Ok(())
}

// The script and the transcript of a run.
fn run_of(name: &str) -> (&'static str, &'static str) {
    for line in RUNS.lines() {
        let (found, texts) = line.split_once('|').unwrap_or(("", ""));
        if found == name {
            return texts.split_once('|').unwrap_or(("", ""));
        }
    }
    ("", "")
}

// The input of a case.
fn input_of(alloc: Global, name: &str, first: &str, second: &str) -> Result<Blob, Fail> {
    let (script, transcript) = run_of(name);
    let mut once = Vec::new(alloc);
    put_replaced(&mut once, transcript.as_bytes(), first)?;
    let mut twice = Vec::new(alloc);
    put_replaced(&mut twice, &once, second)?;
    let mut input = Vec::new(alloc);
    put_lines(&mut input, script.as_bytes())?;
    put_lines(&mut input, b"---/")?;
    put_lines(&mut input, &twice)?;
    Ok(List::from_vec(input))
}

fn status_of(told: &[u8]) -> Status {
    if told.starts_with(b"legal") {
        Status::Ok
    } else if told.starts_with(b"rule") {
        Status::NotLegal
    } else {
        Status::Refused
    }
}

// Whether the run prints just this line, with its status.
fn tells(alloc: Global, input: Blob, line: &str) -> Result<bool, Fail> {
    let (status, told) = ran(alloc, "audit", input, SURE, SURE)?;
    let text = told.as_slice();
    let wanted = line.as_bytes();
    Ok(
        text.starts_with(wanted)
            && text.len() == wanted.len().wrapping_add(1)
            && status == status_of(wanted),
    )
}

// Whether the case of a line of the table holds. A comment holds.
fn holds(alloc: Global, case: &str) -> Result<bool, Fail> {
    if case.as_bytes().starts_with(b"#") {
        return Ok(true);
    }
    let (name, rest) = case.split_once('|').unwrap_or(("", ""));
    let (first, rest) = rest.split_once('|').unwrap_or(("", ""));
    let (second, line) = rest.split_once('|').unwrap_or(("", ""));
    let input = input_of(alloc, name, first, second)?;
    tells(alloc, input, line)
}

#[test]
fn audits_transcripts(rt: HostRuntime) -> Result<(), Fail> {
    for case in CASES.lines() {
        let good = holds(rt.alloc(), case)?;
        assert_eq!(rt; if good { "" } else { case }, "");
    }
    Ok(())
}

// The two texts are parted by the first line `---`, which may lack its end. The script is judged first.
const PARTED: &[(&str, &str)] = &[
    ("", "no transcript"),
    ("ranges 1\n ---\n--- \n----\n", "no transcript"),
    ("ranges 0\n---", "transcript line 1"),
    ("ranges 0\n---\n", "transcript line 1"),
    ("---\ntranscript 1\n", "script line 1 order"),
    ("ranges 0\n---\ntranscript 1\nranges 0\nend\n", "legal"),
    (
        "ranges 0\n---\n---\ntranscript 1\nranges 0\nend\n",
        "transcript line 1",
    ),
    ("ranges 1\n---\n", "script line 1 limit"),
    (
        "ranges 2\nfile a 0\nguest\nread b 0 1\n---\n",
        "script line 4 file",
    ),
    (
        "ranges 0\nfile a 0\nguest\nhold a 0 r\n---\n",
        "script line 4 window",
    ),
    (
        "ranges 0\nfile a 0\nguest\nwrite a 0 6\n---\n",
        "script line 4 hex",
    ),
];

#[test]
fn parts_the_texts(rt: HostRuntime) -> Result<(), Fail> {
    let alloc = rt.alloc();
    for (input, line) in PARTED {
        let good = tells(alloc, Blob::copy_of(alloc, input.as_bytes())?, line)?;
        assert_eq!(rt; if good { "" } else { *line }, "");
    }
    Ok(())
}
