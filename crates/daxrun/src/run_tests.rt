use crate::runs::{Shown, run};
use dax_audit::{Verdict, audit};
use dax_script::parse as parse_script;
use guest_run::{Gate, OpenGate};
use plain_file::{Blob, List, Memory};
use program_io::{MemSink, MemSource, Status, SureSink, SureSource, Word};
use std::alloc::{AllocError, Global};
use std::process::Abort;
use std::sync::Wait;
use std::test::Fail;
use std::thread::Threads;
use transcript_text::{parse as parse_transcript, print};

// One guest that writes a file and reads it.
pub const HELLO: &str = "ranges 0\nfile a 0\nguest\nwrite a 0 68656c6c6f\nread a 0 9\n";

const HELLO_TOLD: &str =
    "transcript 1\nranges 0\nfile a 0 00\nentry 0 0 req\nentry 0 1 req\nguest 0\n0 done 0 wrote 5\n1 done 1 bytes 68656c6c6f\nend\n";

// Two files, and each call that needs no hold.
pub const FOUR: &str =
    "# two files\nranges 0\nbackground 0\nfile a 4 ab\nfile b 0\n\nguest\n size   a \nwrite b 2 0102\nfill a 6 3 7f\nread a 0 16\nread b 0 16\nsize a\nsize b";

const FOUR_TOLD: &str =
    "transcript 1\nranges 0\nfile a 4 ab\nentry 0 0 req\nentry 0 2 req\nentry 0 3 req\nentry 0 5 req\nfile b 0 00\nentry 0 1 req\nentry 0 4 req\nentry 0 6 req\nguest 0\n0 done 0 size 4\n1 done 0 wrote 2\n2 done 1 wrote 3\n3 done 2 bytes abababab00007f7f7f\n4 done 1 bytes 00000102\n5 done 3 size 9\n6 done 2 size 4\nend\n";

// Two ranges for three chunks: the third takes the range of the first.
pub const RECLAIM: &str =
    "ranges 2\nfile a 6291456\nguest\nread a 0 1\nread a 2097152 1\nread a 4194304 1\n";

const RECLAIM_TOLD: &str =
    "transcript 1\nranges 2\nfile a 6291456 00\nentry 0 0 via 0 1\nentry 0 1 via 1 2\nentry 0 2 via 3 4\nlog place 0 in 0 r\nlog place 1 in 1 r\nlog remove 0\nlog place 2 in 0 r\nguest 0\n0 done 0 bytes 00\n1 done 1 bytes 00\n2 done 2 bytes 00\nend\n";

// A chunk that is placed to be read, and then written.
pub const UPGRADE: &str = "ranges 2\nfile a 8\nguest\nread a 0 1\nwrite a 0 ff\n";

const UPGRADE_TOLD: &str =
    "transcript 1\nranges 2\nfile a 8 00\nentry 0 0 via 0 1\nentry 0 1 via 0 2\nlog place 0 in 0 r\nlog upgrade 0\nguest 0\n0 done 0 bytes 00\n1 done 1 wrote 1\nend\n";

const USAGE: &str = "usage: daxrun script | load N\n";

/// What a source and a sink do: how many bytes a call gives or takes at the most, 0 for no bound, and the call
/// that fails, 0 for none.
#[derive(Clone, Copy)]
struct Ends(u32, u64);

const SURE: Ends = Ends(0, 0);

// Whether what is shown is what was taken: with the status Ok a script and a transcript with that text, else nothing.
fn is_shown(alloc: Global, shown: &Shown, status: Status, taken: &[u8]) -> Result<bool, Memory> {
    match shown {
        Shown::Nothing => Ok(status != Status::Ok),
        Shown::Script(played) => {
            let text = print(alloc, played.transcript())?;
            let told = text.as_slice() == taken;
            let guests = played.script().guests.len();
            Ok(status == Status::Ok && told && guests == played.transcript().guests.len())
        }
    }
}

// The status of a run with these words over bytes in memory, and what was taken.
fn ran<R: Threads + Wait + Sync + Abort, G: Gate + Sync>(
    rt: &R,
    alloc: Global,
    words: &[&[u8]],
    input: Blob,
    from: Ends,
    to: Ends,
    gate: &G,
) -> Result<(Status, Blob), Fail> {
    let mut list: List<Word> = List::new(alloc);
    for word in words {
        list.push(Blob::copy_of(alloc, word)?)?;
    }
    let Ends(piece, fails) = from;
    let mut source = MemSource::new(input, piece, List::from_vec(vec![in alloc; fails; 1]?));
    let Ends(piece, fails) = to;
    let mut sink = MemSink::new(alloc, piece, List::from_vec(vec![in alloc; fails; 1]?));
    let mut shown = Shown::Nothing;
    let words = list.as_slice();
    let status = run(rt, alloc, words, &mut source, &mut sink, gate, &mut shown);
    let taken = sink.bytes().clone()?;
    assert!(rt; is_shown(alloc, &shown, status, taken.as_slice())?);
    Ok((status, taken))
}

/// The status of `script` over a text, its guests' calls through this gate, and what was written.
pub fn answer_to<R: Threads + Wait + Sync + Abort, G: Gate + Sync>(
    rt: &R,
    alloc: Global,
    text: &[u8],
    gate: &G,
) -> Result<(Status, Blob), Fail> {
    ran(
        rt,
        alloc,
        &[b"script".as_slice()],
        Blob::copy_of(alloc, text)?,
        SURE,
        SURE,
        gate,
    )
}

/// The audit's verdict over the texts of a script and of its transcript; None where one of them isn't any.
pub fn verdict_on(alloc: Global, script: &[u8], told: &[u8]) -> Result<Option<Verdict>, Memory> {
    let Ok(script) = parse_script(alloc, script) else {
        return Ok(None);
    };
    let Ok(transcript) = parse_transcript(alloc, told) else {
        return Ok(None);
    };
    Ok(Some(audit(alloc, &script, &transcript)?))
}

#[test]
fn writes_transcripts(rt: HostRuntime) -> Result<(), Fail> {
    for (script, transcript) in [
        (HELLO, HELLO_TOLD),
        (FOUR, FOUR_TOLD),
        ("ranges 0\n", "transcript 1\nranges 0\nend\n"),
        (
            "ranges 0\nguest\n",
            "transcript 1\nranges 0\nguest 0\nend\n",
        ),
        (
            "ranges 0\nfile a 0\n",
            "transcript 1\nranges 0\nfile a 0 00\nend\n",
        ),
        (
            "ranges 0\nfile a 7\nguest\n",
            "transcript 1\nranges 0\nfile a 7 00\nguest 0\nend\n",
        ),
        // Reads past the end, at the end and over it; a write behind a gap.
        (
            "ranges 0\nfile notes 4\nguest\nwrite notes 6 6162\nread notes 0 16\nread notes 7 1\nread notes 8 1\nread notes 100 5\nwrite notes 0 7a\nread notes 0 2\n",
            "transcript 1\nranges 0\nfile notes 4 00\nentry 0 0 req\nentry 0 1 req\nentry 0 2 req\nentry 0 3 req\nentry 0 4 req\nentry 0 5 req\nentry 0 6 req\nguest 0\n0 done 0 wrote 2\n1 done 1 bytes 0000000000006162\n2 done 2 bytes 62\n3 done 3 bytes -\n4 done 4 bytes -\n5 done 5 wrote 1\n6 done 6 bytes 7a00\nend\n",
        ),
        // Writes over one another.
        (
            "ranges 0\nfile a 2\nguest\nwrite a 1 aabbcc\nwrite a 0 dd\nwrite a 3 eeff\nread a 0 9\nread a 1 3\n",
            "transcript 1\nranges 0\nfile a 2 00\nentry 0 0 req\nentry 0 1 req\nentry 0 2 req\nentry 0 3 req\nentry 0 4 req\nguest 0\n0 done 0 wrote 3\n1 done 1 wrote 1\n2 done 2 wrote 2\n3 done 3 bytes ddaabbeeff\n4 done 4 bytes aabbee\nend\n",
        ),
        (RECLAIM, RECLAIM_TOLD),
        (UPGRADE, UPGRADE_TOLD),
        ("ranges 2\n", "transcript 1\nranges 2\nend\n"),
        ("ranges 2\nbackground 3\n", "transcript 1\nranges 2\nend\n"),
        // Guests on files of their own, and one that makes no call.
        (
            "ranges 0\nfile a 1 61\nfile b 1 62\nguest\nread a 0 1\nsize a\nguest\nguest\nwrite b 1 63\nread b 0 9\n",
            "transcript 1\nranges 0\nfile a 1 61\nentry 0 0 req\nentry 0 1 req\nfile b 1 62\nentry 2 0 req\nentry 2 1 req\nguest 0\n0 done 0 bytes 61\n1 done 1 size 1\nguest 1\nguest 2\n0 done 0 wrote 1\n1 done 1 bytes 6263\nend\n",
        ),
        // A write that ends at the size goes through the window, one that ends above it is a request.
        (
            "ranges 2\nfile a 5\nguest\nwrite a 2 616263\nwrite a 3 616263\nread a 0 9\n",
            "transcript 1\nranges 2\nfile a 5 00\nentry 0 0 via 0 1\nentry 0 1 req 5\nentry 0 2 via 0 1\nlog place 0 in 0 w\nguest 0\n0 done 0 wrote 3\n1 done 1 wrote 3\n2 done 2 bytes 000061616263\nend\n",
        ),
        // Reads past the end are direct too.
        (
            "ranges 256\nfile a 3 7a\nguest\nread a 2 9\nread a 3 1\nread a 67108860 4\nsize a\n",
            "transcript 1\nranges 256\nfile a 3 7a\nentry 0 0 via 0 1\nentry 0 1 via 0 1\nentry 0 2 via 1 2\nentry 0 3 req\nlog place 0 in 0 r\nlog place 31 in 1 r\nguest 0\n0 done 0 bytes 7a\n1 done 1 bytes -\n2 done 2 bytes -\n3 done 3 size 3\nend\n",
        ),
        // A write over the seam of two chunks, and what it leaves on both sides.
        (
            "ranges 2\nfile a 4194304\nguest\nwrite a 2097150 01020304\nread a 2097149 6\nfill a 2097151 2 ff\nread a 2097152 1\n",
            "transcript 1\nranges 2\nfile a 4194304 00\nentry 0 0 via 0 1 1 2\nentry 0 1 via 0 2 1 2\nentry 0 2 via 0 2 1 2\nentry 0 3 via 1 2\nlog place 0 in 0 w\nlog place 1 in 1 w\nguest 0\n0 done 0 wrote 4\n1 done 1 bytes 000102030400\n2 done 2 wrote 2\n3 done 3 bytes ff\nend\n",
        ),
        // A range that is taken from one file for another.
        (
            "ranges 2\nfile a 1 61\nfile b 1 62\nguest\nread a 0 1\nread b 0 1\nread a 2097152 1\nread b 0 1\nread a 0 1\n",
            "transcript 1\nranges 2\nfile a 1 61\nentry 0 0 via 0 1\nentry 0 2 via 2 3\nentry 0 4 via 3 4\nlog place 0 in 0 r\nlog remove 0\nlog place 1 in 0 r\nlog place 0 in 1 r\nfile b 1 62\nentry 0 1 via 0 1\nentry 0 3 via 0 1\nlog place 0 in 1 r\nlog remove 1\nguest 0\n0 done 0 bytes 61\n1 done 0 bytes 62\n2 done 1 bytes -\n3 done 1 bytes 62\n4 done 2 bytes 61\nend\n",
        ),
        // The largest file, read and written at its end.
        (
            "ranges 0\nfile big 67108864\nguest\nread big 67108860 4\nwrite big 67108863 01\nread big 67108862 2\n",
            "transcript 1\nranges 0\nfile big 67108864 00\nentry 0 0 req\nentry 0 1 req\nentry 0 2 req\nguest 0\n0 done 0 bytes 00000000\n1 done 1 wrote 1\n2 done 2 bytes 0001\nend\n",
        ),
    ] {
        let (status, taken) = answer_to(&rt, rt.alloc(), script.as_bytes(), &OpenGate)?;
        assert_eq!(rt; status, Status::Ok, "{script}");
        assert_eq!(rt; taken.as_slice(), transcript.as_bytes(), "{script}");
        let verdict = verdict_on(rt.alloc(), script.as_bytes(), taken.as_slice())?;
        assert_eq!(rt; verdict, Some(Verdict::Legal), "{script}");
    }
    Ok(())
}

// The longest call, which meets two chunks: a megabyte of zeros around the seam.
#[test]
fn reads_over_the_seam(rt: HostRuntime) -> Result<(), Fail> {
    let alloc = rt.alloc();
    let script = "ranges 2\nfile a 4194304\nguest\nread a 1572864 1048576\n";
    let mut told = String::from_str(
        alloc,
        "transcript 1\nranges 2\nfile a 4194304 00\nentry 0 0 via 0 1 1 2\nlog place 0 in 0 r\nlog place 1 in 1 r\nguest 0\n0 done 0 bytes ",
    )?;
    told.push_str("00".repeat(alloc, 1_048_576)?.as_str())?;
    told.push_str("\nend\n")?;
    let (status, taken) = answer_to(&rt, alloc, script.as_bytes(), &OpenGate)?;
    assert_eq!(rt; status, Status::Ok);
    assert!(rt; taken.as_slice() == told.as_bytes());
    let verdict = verdict_on(alloc, script.as_bytes(), taken.as_slice())?;
    assert_eq!(rt; verdict, Some(Verdict::Legal));
    Ok(())
}

// Texts that are no script, with their first bad line and its first reason.
#[test]
fn refuses_texts(rt: HostRuntime) -> Result<(), Fail> {
    for (text, line) in [
        ("", "refused line 1 order\n"),
        ("# no more\n\n", "refused line 3 order\n"),
        ("ranges 1\n", "refused line 1 limit\n"),
        ("ranges 00\n", "refused line 1 number\n"),
        ("ranges 0\nfile a b 0\n", "refused line 2 number\n"),
        ("ranges 0\nfile A 0\n", "refused line 2 name\n"),
        ("ranges 0\nfile a 0 0\n", "refused line 2 byte\n"),
        ("ranges 0\nbackground 1\n", "refused line 2 window\n"),
        (
            "ranges 0\nfile a 0\nguest\nread a 0\n",
            "refused line 4 words\n",
        ),
        (
            "ranges 2\nfile a 0\nguest\nread b 0 1\n",
            "refused line 4 file\n",
        ),
        (
            "ranges 0\nfile a 0\nguest\nwrite a 0 6\n",
            "refused line 4 hex\n",
        ),
        (
            "ranges 0\nfile a 0\nguest\nhold a 0 x\n",
            "refused line 4 mode\n",
        ),
        ("ranges 0\nguest\nrelease 0\n", "refused line 3 hold\n"),
        (
            "ranges 0\nfile a 0\nguest\nhold a 0 r\n",
            "refused line 4 window\n",
        ),
    ] {
        let (status, taken) = answer_to(&rt, rt.alloc(), text.as_bytes(), &OpenGate)?;
        assert_eq!(rt; status, Status::Refused, "{text}");
        assert_eq!(rt; taken.as_slice(), line.as_bytes(), "{text}");
    }
    Ok(())
}

// 500 writes, each with a read after it; the entries and the lines that they make.
fn pattern(
    script: &mut String,
    entries: &mut String,
    lines: &mut String,
) -> Result<(), AllocError> {
    for place in 0..500_u32 {
        let (byte, call) = (place % 256, place.wrapping_mul(2));
        let next = call.wrapping_add(1);
        write!(script, "write a {place} {byte:02x}\nread a {place} 2\n")?;
        write!(entries, "entry 0 {call} req\nentry 0 {next} req\n")?;
        write!(
            lines,
            "{call} done {call} wrote 1\n{next} done {next} bytes {byte:02x}\n"
        )?;
    }
    Ok(())
}

// Each write lengthens the file by a byte, which the read after it gives alone.
#[test]
fn writes_what_a_formula_says(rt: HostRuntime) -> Result<(), Fail> {
    let alloc = rt.alloc();
    let mut script = String::from_str(alloc, "ranges 0\nfile a 0\nguest\n")?;
    let mut told = String::from_str(alloc, "transcript 1\nranges 0\nfile a 0 00\n")?;
    let mut lines = String::from_str(alloc, "guest 0\n")?;
    pattern(&mut script, &mut told, &mut lines)?;
    told.push_str(lines.as_str())?;
    told.push_str("end\n")?;
    let (status, taken) = answer_to(&rt, alloc, script.as_bytes(), &OpenGate)?;
    assert_eq!(rt; status, Status::Ok);
    assert!(rt; taken.as_slice() == told.as_bytes());
    Ok(())
}

#[test]
fn refuses_words(rt: HostRuntime) -> Result<(), Fail> {
    let alloc = rt.alloc();
    for words in [
        [].as_slice(),
        [b"".as_slice()].as_slice(),
        [b"scripts".as_slice()].as_slice(),
        [b"script".as_slice(), b"x".as_slice()].as_slice(),
        [b"load".as_slice(), b"0".as_slice()].as_slice(),
        [b"load".as_slice(), b"1".as_slice()].as_slice(),
        [b"\xff\xfe".as_slice()].as_slice(),
    ] {
        let input = Blob::copy_of(alloc, HELLO.as_bytes())?;
        let (status, taken) = ran(&rt, alloc, words, input, SURE, SURE, &OpenGate)?;
        assert_eq!(rt; status, Status::Usage, "{words:?}");
        assert_eq!(rt; taken.as_slice(), USAGE.as_bytes());
    }
    Ok(())
}

#[test]
fn reads_to_its_limit(rt: HostRuntime) -> Result<(), Fail> {
    let alloc = rt.alloc();
    for (spaces, status, text) in [
        (16_777_216, Status::Refused, "refused line 2 order\n"),
        (16_777_217, Status::TooLong, "too long\n"),
    ] {
        let input = Blob::from_vec(vec![in alloc; b' '; spaces]?);
        let (got, taken) = ran(
            &rt,
            alloc,
            &[b"script".as_slice()],
            input,
            SURE,
            SURE,
            &OpenGate,
        )?;
        assert_eq!(rt; got, status);
        assert_eq!(rt; taken.as_slice(), text.as_bytes());
    }
    Ok(())
}

// In any pieces, and where a source or a sink fails. The text is read in four pieces of 16 bytes, and a fifth call
// finds the end.
#[test]
fn sources_and_sinks_go_in_pieces_and_fail(rt: HostRuntime) -> Result<(), Fail> {
    let alloc = rt.alloc();
    for (words, text, from, to, status, taken) in [
        (
            b"script".as_slice(),
            HELLO,
            Ends(1, 0),
            Ends(1, 0),
            Status::Ok,
            HELLO_TOLD,
        ),
        (
            b"script".as_slice(),
            HELLO,
            Ends(7, 0),
            Ends(3, 0),
            Status::Ok,
            HELLO_TOLD,
        ),
        (
            b"script".as_slice(),
            HELLO,
            SURE,
            Ends(50, 0),
            Status::Ok,
            HELLO_TOLD,
        ),
        (
            b"script".as_slice(),
            HELLO,
            Ends(64, 0),
            SURE,
            Status::Ok,
            HELLO_TOLD,
        ),
        (
            b"script".as_slice(),
            HELLO,
            Ends(16, 1),
            SURE,
            Status::ReadFault,
            "",
        ),
        (
            b"script".as_slice(),
            HELLO,
            Ends(16, 2),
            SURE,
            Status::ReadFault,
            "",
        ),
        (
            b"script".as_slice(),
            HELLO,
            Ends(16, 3),
            SURE,
            Status::ReadFault,
            "",
        ),
        (
            b"script".as_slice(),
            HELLO,
            Ends(16, 4),
            SURE,
            Status::ReadFault,
            "",
        ),
        (
            b"script".as_slice(),
            HELLO,
            Ends(16, 5),
            SURE,
            Status::ReadFault,
            "",
        ),
        (
            b"script".as_slice(),
            HELLO,
            Ends(16, 6),
            SURE,
            Status::Ok,
            HELLO_TOLD,
        ),
        (
            b"script".as_slice(),
            HELLO,
            SURE,
            Ends(10, 2),
            Status::WriteFault,
            "transcript",
        ),
        (
            b"script".as_slice(),
            HELLO,
            SURE,
            Ends(0, 1),
            Status::WriteFault,
            "",
        ),
        (
            b"script".as_slice(),
            "ranges 1\n",
            SURE,
            Ends(7, 2),
            Status::WriteFault,
            "refused",
        ),
        (
            b"none".as_slice(),
            "",
            SURE,
            Ends(5, 2),
            Status::WriteFault,
            "usage",
        ),
    ] {
        let input = Blob::copy_of(alloc, text.as_bytes())?;
        let (got, bytes) = ran(&rt, alloc, &[words], input, from, to, &OpenGate)?;
        assert_eq!(rt; got, status);
        assert_eq!(rt; bytes.as_slice(), taken.as_bytes());
    }
    Ok(())
}

#[test]
fn nothing_fails_over_sure_ends(rt: HostRuntime) -> Result<(), Fail> {
    let alloc = rt.alloc();
    let mut words: List<Word> = List::new(alloc);
    words.push(Blob::copy_of(alloc, b"script")?)?;
    let mut source = SureSource::new(Blob::copy_of(alloc, HELLO.as_bytes())?);
    let status = run(
        &rt,
        alloc,
        words.as_slice(),
        &mut source,
        &mut SureSink::new(),
        &OpenGate,
        &mut Shown::Nothing,
    );
    assert_eq!(rt; status, Status::Ok);
    Ok(())
}
