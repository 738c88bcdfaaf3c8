ghost use Rattle.std.specs.Prelude.{◌≡◌, ◌∷◌, ◌++◌, [], true, codes, decimal, map, Ok, IfOk, OnOk};
ghost use Rattle.std.specs.List.{flat_map};
ghost use Rattle.hex.specs.Hex.{encode_lower};
ghost use Rattle.plain_text.specs.Printed.{joined, line};
ghost use Rattle.dax_script.specs.Fits.{fits};
ghost use Rattle.dax_script.specs.ScriptText.{script_of};
ghost use Rattle.dax_script.specs.ScriptPrinted.{mode_word, name_at, call_words, file_words, guest_lines, script_lines, text_of};

use crate::scripts::{Call, FileLine, Script};
use page_map::Mode;
use plain_file::{Blob, List, Memory};
use plain_text::{put, put_hex, put_number};
use std::alloc::Global;

/// The text of a script: one space between two words, always a `background` line, and always the byte
/// that a file is filled with. Where the script keeps the limits of scripts, the text reads as that
/// script again. `Memory` is its only error.
pub fn print(alloc: Global, script: &Script) -> Result<Blob, Memory>
    ensures text { IfOk result (λ b. b ≡ text_of script.now) }
    ensures again { fits script.now ≡ true → IfOk result (λ b. script_of b ≡ Ok script.now) }
{
    let mut out = Vec::new(alloc);
    put_ranges(&mut out, script.ranges)?;
    put_background(&mut out, script.background)?;
    put_files(&mut out, script.files.as_slice())?;
    put_guests(&mut out, script.files.as_slice(), script.guests.as_slice())?;
    Ok(List::from_vec(out))
}

#[tactic(auto, unfolding(plain_text::specs::Printed::joined))]
fn put_ranges(out: &mut Vec<u8>, ranges: u32) -> Result<(), Memory>
    ensures { OnOk result (out.new.items ≡ out.old.items ++ line (codes "ranges" ∷ decimal ranges ∷ [])) }
{
    put(out, b"ranges ")?;
    put_number(out, u64::from(ranges))?;
    put(out, b"\n")
}

#[tactic(auto, unfolding(plain_text::specs::Printed::joined))]
fn put_background(out: &mut Vec<u8>, background: u32) -> Result<(), Memory>
    ensures { OnOk result (out.new.items ≡ out.old.items ++ line (codes "background" ∷ decimal background ∷ [])) }
{
    put(out, b"background ")?;
    put_number(out, u64::from(background))?;
    put(out, b"\n")
}

fn put_files(out: &mut Vec<u8>, files: &[FileLine]) -> Result<(), Memory>
    ensures { OnOk result (out.new.items ≡ out.old.items ++ flat_map line (map file_words files.now)) }
{
    for file in files {
        put_file(out, file)?;
    }
    Ok(())
}

#[tactic(auto, unfolding(plain_text::specs::Printed::joined))]
fn put_file(out: &mut Vec<u8>, file: &FileLine) -> Result<(), Memory>
    ensures { OnOk result (out.new.items ≡ out.old.items ++ line (file_words file.now)) }
{
    put(out, b"file ")?;
    put(out, file.name.as_slice())?;
    put_count(out, file.first.size)?;
    put_digits(out, &[file.first.fill])?;
    put(out, b"\n")
}

fn put_guests(out: &mut Vec<u8>, files: &[FileLine], guests: &[List<Call>]) -> Result<(), Memory>
    ensures { OnOk result (out.new.items ≡ out.old.items ++ flat_map line (flat_map (guest_lines files.now) guests.now)) }
{
    for calls in guests {
        put_guest(out, files, calls.as_slice())?;
    }
    Ok(())
}

#[tactic(auto, unfolding(plain_text::specs::Printed::joined))]
fn put_guest(out: &mut Vec<u8>, files: &[FileLine], calls: &[Call]) -> Result<(), Memory>
    ensures { OnOk result (out.new.items ≡ out.old.items ++ flat_map line (guest_lines files.now calls.now)) }
{
    put(out, b"guest\n")?;
    put_calls(out, files, calls)
}

fn put_calls(out: &mut Vec<u8>, files: &[FileLine], calls: &[Call]) -> Result<(), Memory>
    ensures { OnOk result (out.new.items ≡ out.old.items ++ flat_map line (map (call_words files.now) calls.now)) }
{
    for call in calls {
        put_call(out, files, call)?;
    }
    Ok(())
}

fn put_call(out: &mut Vec<u8>, files: &[FileLine], call: &Call) -> Result<(), Memory>
    ensures { OnOk result (out.new.items ≡ out.old.items ++ line (call_words files.now call.now)) }
{
    put_call_words(out, files, call)?;
    put(out, b"\n")
}

#[tactic(auto, unfolding(crate::specs::ScriptPrinted::call_words, plain_text::specs::Printed::joined))]
fn put_call_words(out: &mut Vec<u8>, files: &[FileLine], call: &Call) -> Result<(), Memory>
    ensures { OnOk result (out.new.items ≡ out.old.items ++ joined (call_words files.now call.now)) }
{
    match call {
        Call::Read { file, off, len } => {
            put_on_file(out, b"read ", name_at(files, *file), *off)?;
            put_count(out, u64::from(*len))
        }
        Call::Write { file, off, bytes } => {
            put_on_file(out, b"write ", name_at(files, *file), *off)?;
            put_digits(out, bytes.as_slice())
        }
        Call::Fill {
            file,
            off,
            len,
            byte,
        } => {
            put_on_file(out, b"fill ", name_at(files, *file), *off)?;
            put_count(out, u64::from(*len))?;
            put_digits(out, &[*byte])
        }
        Call::Size { file } => {
            put(out, b"size ")?;
            put(out, name_at(files, *file))
        }
        Call::Truncate { file, size } => {
            put_on_file(out, b"truncate ", name_at(files, *file), *size)
        }
        Call::Hold { file, chunk, mode } => {
            put_on_file(out, b"hold ", name_at(files, *file), u64::from(*chunk))?;
            put(out, mode_text(*mode))
        }
        Call::Load { hold, off, len } => {
            put_on_hold(out, b"load ", *hold, *off)?;
            put_count(out, u64::from(*len))
        }
        Call::Store { hold, off, bytes } => {
            put_on_hold(out, b"store ", *hold, *off)?;
            put_digits(out, bytes.as_slice())
        }
        Call::Release { hold } => {
            put(out, b"release ")?;
            put_number(out, u64::from(*hold))
        }
    }
}

// A verb with its space, a file's name, and a number.
fn put_on_file(out: &mut Vec<u8>, verb: &[u8], name: &[u8], n: u64) -> Result<(), Memory>
    ensures { OnOk result (out.new.items ≡ out.old.items ++ verb.now ++ name.now ++ 32 ∷ decimal n) }
{
    put(out, verb)?;
    put(out, name)?;
    put_count(out, n)
}

// A verb with its space, a hold, and a number.
fn put_on_hold(out: &mut Vec<u8>, verb: &[u8], hold: u32, n: u64) -> Result<(), Memory>
    ensures { OnOk result (out.new.items ≡ out.old.items ++ verb.now ++ decimal hold ++ 32 ∷ decimal n) }
{
    put(out, verb)?;
    put_number(out, u64::from(hold))?;
    put_count(out, n)
}

fn put_count(out: &mut Vec<u8>, n: u64) -> Result<(), Memory>
    ensures { OnOk result (out.new.items ≡ out.old.items ++ 32 ∷ decimal n) }
{
    put(out, b" ")?;
    put_number(out, n)
}

fn put_digits(out: &mut Vec<u8>, bytes: &[u8]) -> Result<(), Memory>
    ensures { OnOk result (out.new.items ≡ out.old.items ++ 32 ∷ encode_lower bytes.now) }
{
    put(out, b" ")?;
    put_hex(out, bytes)
}

fn name_at(files: &[FileLine], file: u32) -> &[u8]
    ensures { result.now ≡ name_at files.now file }
{
    match files.get(file as usize) {
        Some(file) => file.name.as_slice(),
        None => &[],
    }
}

// A space, and the word of a mode.
#[tactic(auto, unfolding(crate::specs::ScriptPrinted::mode_word))]
fn mode_text(mode: Mode) -> &'static [u8]
    ensures { result.now ≡ 32 ∷ mode_word mode }
{
    match mode {
        Mode::R => b" r",
        Mode::W => b" w",
    }
}
