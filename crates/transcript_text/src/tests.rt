use super::*;
use plain_file::Memory;
use std::alloc::Global;
use std::test::Fail;

// Transcripts with each kind of line, and with the highest numbers.
const TRANSCRIPTS: &[&[u8]] = &[
    b"transcript 1\nranges 0\nend\n",
    b"transcript 1\nranges 2\nfile a 5 00\nentry 0 0 req\nentry 0 1 req 5\nentry 1 0 via 0 1\nentry 1 1 via 0 1 1 2\nlog place 0 in 1 r\nlog place 1 in 0 w\nlog upgrade 1\nlog remove 1\nfile a-_9 0 ff\nguest 0\n0 done 0 bytes -\n1 done 1 bytes 00ff\n2 done 2 wrote 3\n3 done 3 size 5\n4 held 2097152 via 0 1\n5 released\n6 busy pm\n7 leased 2\n8 nohold\n9 past 10\nguest 1\nend\n",
    b"transcript 1\nranges 4294967295\nfile abcdefghijklmnopqrstuvwxyz012345 18446744073709551615 00\nentry 4294967295 4294967295 req 18446744073709551615\nlog place 4294967295 in 4294967295 r\nguest 4294967295\n4294967295 done 18446744073709551615 wrote 18446744073709551615\n4294967295 held 18446744073709551615 via 18446744073709551615 18446744073709551615\n4294967295 leased 4294967295\nend\n",
];

const RANGES: &str = "transcript 1\nranges 2\n";

const FILE: &str = "transcript 1\nranges 2\nfile a 5 00\n";

const GUEST: &str = "transcript 1\nranges 2\nfile a 5 00\nguest 0\n";

// Two pieces of a text that is no transcript, and its first bad line.
const REFUSED: &[(&str, &str, u64)] = &[
    ("", "", 1),
    ("", "\n", 1),
    ("", "transcript 1", 1),
    ("", "transcript 1\r\n", 1),
    ("", "transcript 2\n", 1),
    ("", "transcript 01\n", 1),
    ("", "transcript\n", 1),
    ("", "transcript 1 \n", 1),
    ("", "transcript  1\n", 1),
    ("", " transcript 1\n", 1),
    ("", "ranges 2\n", 1),
    ("", "transcript 1\n", 2),
    ("", "transcript 1\nranges 2", 2),
    ("", "transcript 1\nranges\n", 2),
    ("", "transcript 1\nranges 4294967296\n", 2),
    ("", "transcript 1\nranges 2 2\n", 2),
    ("", "transcript 1\nend\n", 2),
    (RANGES, "", 3),
    (RANGES, "\n", 3),
    (RANGES, "end", 3),
    (RANGES, "end 1\n", 3),
    (RANGES, "end \n", 3),
    (RANGES, "End\n", 3),
    (RANGES, "end\n\n", 4),
    (RANGES, "end\nend\n", 4),
    (RANGES, "end\nx", 4),
    (RANGES, "ranges 2\n", 3),
    (RANGES, "entry 0 0 req\n", 3),
    (RANGES, "log upgrade 0\n", 3),
    (RANGES, "0 released\n", 3),
    (RANGES, "file a 5\n", 3),
    (RANGES, "file A 5 00\n", 3),
    (RANGES, "file  5 00\n", 3),
    (RANGES, "file abcdefghijklmnopqrstuvwxyz0123456 5 00\n", 3),
    (RANGES, "file a 18446744073709551616 00\n", 3),
    (RANGES, "file a x 00\n", 3),
    (RANGES, "file a 5 0\n", 3),
    (RANGES, "file a 5 0A\n", 3),
    (RANGES, "file a 5 0000\n", 3),
    (RANGES, "file a 5 00 00\n", 3),
    (FILE, "", 4),
    (FILE, "entry 0\n", 4),
    (FILE, "entry 0 0\n", 4),
    (FILE, "entry 4294967296 0 req\n", 4),
    (FILE, "entry 0 4294967296 req\n", 4),
    (FILE, "entry 0 0 req 18446744073709551616\n", 4),
    (FILE, "entry 0 0 req 5 5\n", 4),
    (FILE, "entry 0 0 via\n", 4),
    (FILE, "entry 0 0 via 0\n", 4),
    (FILE, "entry 0 0 via 0 18446744073709551616\n", 4),
    (FILE, "entry 0 0 via 0 1 1\n", 4),
    (FILE, "entry 0 0 via 0 1 1 2 3\n", 4),
    (FILE, "entry 0 0 by 0 1\n", 4),
    (FILE, "log upgrade 0\nentry 0 0 req\n", 5),
    (FILE, "log place 0 in 0\n", 4),
    (FILE, "log place 4294967296 in 0 r\n", 4),
    (FILE, "log place 0 in 4294967296 r\n", 4),
    (FILE, "log place 0 on 0 r\n", 4),
    (FILE, "log place 0 in 0 x\n", 4),
    (FILE, "log place 0 in 0 r r\n", 4),
    (FILE, "log upgrade 4294967296\n", 4),
    (FILE, "log remove\n", 4),
    (FILE, "log remove 0 r\n", 4),
    (FILE, "log move 0\n", 4),
    (FILE, "guest\n", 4),
    (FILE, "guest 4294967296\n", 4),
    (FILE, "guest 0 0\n", 4),
    (GUEST, "", 5),
    (GUEST, "0 released", 5),
    (GUEST, "file b 5 00\n", 5),
    (GUEST, "entry 0 0 req\n", 5),
    (GUEST, "log upgrade 0\n", 5),
    (GUEST, "0 released\nguest 1\nend 0\n", 7),
    (GUEST, "0\n", 5),
    (GUEST, "x released\n", 5),
    (GUEST, "4294967296 released\n", 5),
    (GUEST, "0 released 1\n", 5),
    (GUEST, "0  released\n", 5),
    (GUEST, "0 Released\n", 5),
    (GUEST, "0 nohold 1\n", 5),
    (GUEST, "0 done 0 bytes\n", 5),
    (GUEST, "0 done 0 bytes 0\n", 5),
    (GUEST, "0 done 0 bytes 0G\n", 5),
    (GUEST, "0 done 0 bytes --\n", 5),
    (GUEST, "0 done 18446744073709551616 bytes -\n", 5),
    (GUEST, "0 done 0 wrote 18446744073709551616\n", 5),
    (GUEST, "0 done 0 size 18446744073709551616\n", 5),
    (GUEST, "0 done 0 size 5 5\n", 5),
    (GUEST, "0 done 0 read 5\n", 5),
    (GUEST, "0 held 18446744073709551616 via 0 1\n", 5),
    (GUEST, "0 held 0 via 0 18446744073709551616\n", 5),
    (GUEST, "0 held 0 req 0 1\n", 5),
    (GUEST, "0 held 0 via 0\n", 5),
    (GUEST, "0 held 0 via 0 1 2\n", 5),
    (GUEST, "0 busy\n", 5),
    (GUEST, "0 busy \n", 5),
    (GUEST, "0 busy pmx\n", 5),
    (GUEST, "0 leased 4294967296\n", 5),
    (GUEST, "0 past 18446744073709551616\n", 5),
];

fn refused_line(alloc: Global, text: &[u8]) -> Option<u64> {
    match parse(alloc, text) {
        Err(BadTranscript::Line { line }) => Some(line),
        _ => None,
    }
}

fn prints_again(alloc: Global, text: &[u8]) -> Result<bool, Memory> {
    match parse(alloc, text) {
        Ok(transcript) if transcript.fits() => Ok(print(alloc, &transcript)?.as_slice() == text),
        _ => Ok(false),
    }
}

#[test]
fn prints_what_it_read(rt: HostRuntime) -> Result<(), Fail> {
    for text in TRANSCRIPTS {
        assert!(rt; prints_again(rt.alloc(), text)?);
    }
    Ok(())
}

#[test]
fn refuses_the_first_bad_line(rt: HostRuntime) -> Result<(), Fail> {
    for (head, rest, line) in REFUSED {
        let alloc = rt.alloc();
        let text = format!(in alloc; "{head}{rest}")?;
        assert_eq!(rt; refused_line(alloc, text.as_bytes()), Some(*line));
    }
    Ok(())
}
